//! The bits of a frame that have come so far.

ghost use Rattle.std.specs.Prelude.{◌≡◌, ◌<◌, ◌≤◌, ◌==◌, [], ◌∷◌, ◌++◌, length};

use board_terms::Frame;
use std::marker::Model;

/// The bits of a frame of the keyboard that have come so far, at most ten of the eleven. A clause sees them as a list,
/// in the order in which they came.
#[derive(Drop)]
pub struct Bits {
    bits: [bool; 11],
    count: usize,
}

impl Model for Bits {
    ghost use Rattle.std.specs.Prelude.{◌≤◌, Bool, List, take};

    ghost Value = { List Bool };

    ghost view = { λ b. take b.count b.bits };

    ghost invariant = { λ b. b.count ≤ 10 };
}

impl Bits {
    /// The first bit of a frame.
    pub fn first(bit: bool) -> Bits
        ensures bits { result ≡ bit ∷ [] }
    {
        let mut bits = [false; 11];
        bits[0] = bit;
        Bits { bits, count: 1 }
    }

    /// These bits, at most ten.
    pub fn of(taken: &[bool]) -> Bits
        requires few { length taken.now ≤ 10 }
        ensures bits { result ≡ taken.now }
    {
        let mut bits = [false; 11];
        bits[..taken.len()].copy_from_slice(taken);
        Bits {
            bits,
            count: taken.len(),
        }
    }

    /// The bits, in the order in which they came.
    pub fn as_slice(&self) -> &[bool]
        ensures bits { result.now ≡ self.now }
        ensures few { length result.now ≤ 10 }
    {
        &self.bits[..self.count]
    }

    /// Bits of their own that are the same.
    pub fn copied(&self) -> Bits
        ensures same { result ≡ self.now }
    {
        Bits {
            bits: self.bits,
            count: self.count,
        }
    }

    /// Whether one bit alone is missing.
    pub fn lack_one(&self) -> bool
        ensures lack { result ≡ (length self.now == 10) }
        ensures range { length self.now ≤ 10 }
    {
        self.count == 10
    }

    /// The next bit has come, and it isn't the last.
    pub fn push(&mut self, bit: bool)
        requires before_last { length self.old < 10 }
        ensures bits { self.new ≡ self.old ++ bit ∷ [] }
    {
        self.bits[self.count] = bit;
        self.count += 1;
    }

    /// The frame, with its last bit.
    pub fn ended_by(&self, bit: bool) -> Frame
        requires ten { length self.now ≡ 10 }
        ensures bits { result.bits ≡ self.now ++ bit ∷ [] }
    {
        let mut bits = self.bits;
        bits[10] = bit;
        Frame { bits }
    }
}
