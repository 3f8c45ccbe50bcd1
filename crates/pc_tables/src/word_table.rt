//! The table of words, one row for each scan code, but for the letters and the function keys, which go by a rule.
//!
//! Source: our own, after the BIOS. The word has the scan code or the extended code in its high byte and the character
//! in its low byte.

use super::words::WordRow;

/// A scan code, and the words of its key.
#[derive(Clone, Copy)]
pub(crate) struct ScanRow {
    pub(crate) scan: u8,
    pub(crate) words: WordRow,
}

/// A row: the scan code, and the words without a modifier, with shift, with Ctrl and with Alt.
macro_rules! words {
    ($scan:expr, $base:expr, $shift:expr, $ctrl:expr, $alt:expr) => {
        ScanRow {
            scan: $scan,
            words: WordRow {
                base: $base,
                shift: $shift,
                ctrl: $ctrl,
                alt: $alt,
            },
        }
    };
}

/// The rows by rising scan code.
pub(crate) static WORDS: [ScanRow; 43] = [
    words!(0x01, Some(0x011b), Some(0x011b), Some(0x011b), None),
    words!(0x02, Some(0x0231), Some(0x0221), None, Some(0x7800)),
    words!(0x03, Some(0x0332), Some(0x0340), Some(0x0300), Some(0x7900)),
    words!(0x04, Some(0x0433), Some(0x0423), None, Some(0x7a00)),
    words!(0x05, Some(0x0534), Some(0x0524), None, Some(0x7b00)),
    words!(0x06, Some(0x0635), Some(0x0625), None, Some(0x7c00)),
    words!(0x07, Some(0x0736), Some(0x075e), Some(0x071e), Some(0x7d00)),
    words!(0x08, Some(0x0837), Some(0x0826), None, Some(0x7e00)),
    words!(0x09, Some(0x0938), Some(0x092a), None, Some(0x7f00)),
    words!(0x0a, Some(0x0a39), Some(0x0a28), None, Some(0x8000)),
    words!(0x0b, Some(0x0b30), Some(0x0b29), None, Some(0x8100)),
    words!(0x0c, Some(0x0c2d), Some(0x0c5f), Some(0x0c1f), Some(0x8200)),
    words!(0x0d, Some(0x0d3d), Some(0x0d2b), None, Some(0x8300)),
    words!(0x0e, Some(0x0e08), Some(0x0e08), Some(0x0e7f), None),
    words!(0x0f, Some(0x0f09), Some(0x0f00), None, None),
    words!(0x1a, Some(0x1a5b), Some(0x1a7b), Some(0x1a1b), None),
    words!(0x1b, Some(0x1b5d), Some(0x1b7d), Some(0x1b1d), None),
    words!(0x1c, Some(0x1c0d), Some(0x1c0d), Some(0x1c0a), None),
    words!(0x27, Some(0x273b), Some(0x273a), None, None),
    words!(0x28, Some(0x2827), Some(0x2822), None, None),
    words!(0x29, Some(0x2960), Some(0x297e), None, None),
    words!(0x2b, Some(0x2b5c), Some(0x2b7c), Some(0x2b1c), None),
    words!(0x33, Some(0x332c), Some(0x333c), None, None),
    words!(0x34, Some(0x342e), Some(0x343e), None, None),
    words!(0x35, Some(0x352f), Some(0x353f), None, None),
    words!(0x37, Some(0x372a), None, Some(0x7200), None),
    words!(0x39, Some(0x3920), Some(0x3920), Some(0x3920), Some(0x3920)),
    words!(0x3a, None, None, None, None),
    words!(0x45, None, None, None, None),
    words!(0x46, None, None, None, None),
    words!(0x47, Some(0x4700), Some(0x4737), Some(0x7700), None),
    words!(0x48, Some(0x4800), Some(0x4838), None, None),
    words!(0x49, Some(0x4900), Some(0x4939), Some(0x8400), None),
    words!(0x4a, Some(0x4a2d), Some(0x4a2d), None, None),
    words!(0x4b, Some(0x4b00), Some(0x4b34), Some(0x7300), None),
    words!(0x4c, None, Some(0x4c35), None, None),
    words!(0x4d, Some(0x4d00), Some(0x4d36), Some(0x7400), None),
    words!(0x4e, Some(0x4e2b), Some(0x4e2b), None, None),
    words!(0x4f, Some(0x4f00), Some(0x4f31), Some(0x7500), None),
    words!(0x50, Some(0x5000), Some(0x5032), None, None),
    words!(0x51, Some(0x5100), Some(0x5133), Some(0x7600), None),
    words!(0x52, Some(0x5200), Some(0x5230), None, None),
    words!(0x53, Some(0x5300), Some(0x532e), None, None),
];
