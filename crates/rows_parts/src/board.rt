use board_terms::{Frame, Matrix, Place, byte_of, frame_of};
use std::test::Fail;

/// Places by column and row, and their numbers.
static PLACES: [(u8, u8, Option<u8>); 6] = [
    (0, 0, Some(0)),
    (0, 7, Some(7)),
    (1, 0, Some(8)),
    (11, 7, Some(95)),
    (12, 0, None),
    (0, 8, None),
];

#[test]
fn places_are_numbered_by_column(rt: HostRuntime) {
    for (column, row, number) in &PLACES {
        let found = match Place::at(*column, *row) {
            Some(place) => Some(place.number()),
            None => None,
        };
        assert!(rt; found == *number, "column {column} row {row}");
    }
}

/// A frame by its bits, as they are written: 1 for high.
fn frame(bits: &[u8; 11]) -> Frame {
    let mut frame = Frame { bits: [false; 11] };
    for (i, bit) in bits.iter().enumerate() {
        frame.bits[i] = *bit == b'1';
    }
    frame
}

#[test]
fn a_frame_has_start_data_parity_and_stop(rt: HostRuntime) {
    for (byte, bits) in [(0x1c, b"00011100001"), (0xaa, b"00101010111")] {
        assert!(rt; frame_of(byte) == frame(bits), "{byte:02x}");
        assert!(rt; byte_of(frame(bits)) == Some(byte), "{byte:02x}");
    }
}

#[test]
fn a_wrong_start_parity_or_stop_is_no_byte(rt: HostRuntime) {
    for bits in [b"10011100001", b"00011100011", b"00011100000"] {
        assert!(rt; byte_of(frame(bits)).is_none());
    }
}

/// Keys by column and row that go down or up, and then what the matrix shows at values of port 1.
type Turn = (u8, u8, bool, &'static [(u8, u8)]);

static TURNS: [Turn; 3] = [
    (0, 0, true, &[(0xf1, 0xff), (0xfb, 0xff), (0xf0, 0xfe)]),
    (
        11,
        7,
        true,
        &[(0xf0, 0xfe), (0x0b, 0x7f), (0x01, 0xff), (0x0c, 0xff)],
    ),
    (0, 0, false, &[(0x00, 0xff), (0xfb, 0x7f)]),
];

#[test]
fn the_matrix_shows_its_keys_column_by_column(rt: HostRuntime) -> Result<(), Fail> {
    let mut matrix = Matrix::new();
    assert!(rt; matrix.rows(0xf0) == 0xff);
    for (column, row, down, shown) in &TURNS {
        matrix.edge(Place::at(*column, *row).ok_or("no place")?, *down);
        for (p1, rows) in *shown {
            assert!(rt; matrix.rows(*p1) == *rows, "p1 {p1:02x}");
        }
    }
    Ok(())
}
