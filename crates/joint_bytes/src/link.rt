//! The bytes of the controller's link.

ghost use Rattle.std.specs.Prelude.{◌≡◌, length, slice_index_or, false, Some};
ghost use Rattle.std.specs.Int.{from_bool};
ghost use Rattle.ctl_link.specs.declared.link.Link.TheVariants.{Busy};
ghost use Rattle.joint_bytes.specs.Links.{bits_at, link_bytes, link_in, link_row};

use crate::side::byte_or_0;
use ctl_link::Link;
use ctl_wire::{Bits, Edges, Wire};
use mcs48_bytes::{maybe_at, number_at, truth_at};

/// The bit of this number as a byte, 0 if there are fewer.
fn bit_byte(bits: &[bool], number: usize) -> u8
    ensures { result ≡ from_bool (slice_index_or bits.now number false) }
{
    match bits.get(number) {
        Some(bit) => u8::from(*bit),
        None => 0,
    }
}

/// The bytes of a link of this kind.
fn link_row(kind: u8, since: u64, byte: u8, count: u8, flip: Option<u8>, bits: &[bool]) -> [u8; 23]
    ensures { result ≡ link_row kind since byte count flip bits.now }
{
    let [a, b, c, d, e, f, g, h] = since.to_le_bytes();
    [
        kind,
        a,
        b,
        c,
        d,
        e,
        f,
        g,
        h,
        byte,
        count,
        u8::from(flip.is_some()),
        byte_or_0(flip),
        bit_byte(bits, 0),
        bit_byte(bits, 1),
        bit_byte(bits, 2),
        bit_byte(bits, 3),
        bit_byte(bits, 4),
        bit_byte(bits, 5),
        bit_byte(bits, 6),
        bit_byte(bits, 7),
        bit_byte(bits, 8),
        bit_byte(bits, 9),
    ]
}

/// The bytes of a byte under way.
fn wire_bytes(wire: &Wire) -> [u8; 23]
    ensures bytes { result ≡ link_bytes (Busy wire.now) }
    ensures read { link_in result ≡ Some (Busy wire.now) }
{
    match wire {
        Wire::Recv(flip, bits) => {
            let bits = bits.as_slice();
            link_row(4, 0, 0, bits.len() as u8, *flip, bits)
        }
        Wire::Send(byte, edges) => link_row(5, 0, *byte, edges.number() as u8, None, &[]),
    }
}

/// The link's bytes. They are read as this link.
pub fn link_bytes(link: &Link<Wire>) -> [u8; 23]
    ensures bytes { result ≡ link_bytes link.now }
    ensures read { link_in result ≡ Some link.now }
{
    match link {
        Link::Free => link_row(0, 0, 0, 0, None, &[]),
        Link::Hold(since) => link_row(1, *since, 0, 0, None, &[]),
        Link::Ask(byte, since) => link_row(2, *since, *byte, 0, None, &[]),
        Link::Request(byte) => link_row(3, 0, *byte, 0, None, &[]),
        Link::Busy(wire) => wire_bytes(wire),
    }
}

/// The ten places for bits.
fn bits_at(bytes: &[u8]) -> [bool; 10]
    requires { length bytes.now ≡ 23 }
    ensures { result ≡ bits_at bytes.now }
{
    [
        truth_at(bytes, 13),
        truth_at(bytes, 14),
        truth_at(bytes, 15),
        truth_at(bytes, 16),
        truth_at(bytes, 17),
        truth_at(bytes, 18),
        truth_at(bytes, 19),
        truth_at(bytes, 20),
        truth_at(bytes, 21),
        truth_at(bytes, 22),
    ]
}

/// The link that these bytes mean; none if more than ten bits or edges have been.
pub fn link_in(bytes: &[u8]) -> Option<Link<Wire>>
    requires { length bytes.now ≡ 23 }
    ensures { result ≡ link_in bytes.now }
{
    let count = bytes[10];
    if count > 10 {
        return None;
    }
    Some(match bytes[0] {
        0 => Link::Free,
        1 => Link::Hold(number_at(bytes, 1)),
        2 => Link::Ask(bytes[9], number_at(bytes, 1)),
        3 => Link::Request(bytes[9]),
        4 => Link::Busy(Wire::Recv(
            maybe_at(bytes, 11),
            Bits::of(&bits_at(bytes)[..count as usize]),
        )),
        _ => Link::Busy(Wire::Send(bytes[9], Edges::of(count))),
    })
}
