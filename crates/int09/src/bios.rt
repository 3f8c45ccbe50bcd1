//! The state of INT 09h, and its calls.

ghost use Rattle.std.specs.Prelude.{◌≡◌, ◌≤◌, length, slice_get, IfOk};

use super::flags::{Downs, Shifts};
use arrayvec::ArrayVec;
use circular_buffer::HeapCircularBuffer;
use pc_tables::Item;
use std::alloc::{AllocError, Global};
use std::marker::Model;

/// The state of INT 09h. A clause sees it as a `State`: the bytes at 40:17 and 40:18, the number typed under Alt, the
/// marks of FA and FE, and the list of at most 15 words.
#[derive(Drop)]
pub struct Bios {
    pub(crate) shifts: Shifts,
    pub(crate) downs: Downs,
    pub(crate) number: u8,
    pub(crate) ack: bool,
    pub(crate) resend: bool,
    pub(crate) words: HeapCircularBuffer<u16>,
}

impl Model for Bios {
    ghost use Rattle.std.specs.Prelude.{◌≡◌};
    ghost use Rattle.int09.specs.Bios.{State};

    ghost Value = { State };

    ghost view = { λ b. record {
      shifts = b.shifts.0;
      downs = b.downs.0;
      number = b.number;
      ack = b.ack;
      resend = b.resend;
      words = b.words.items;
    } };

    ghost invariant = { λ b. b.words.capacity ≡ 15 };
}

/// The state's parts but for the words: the byte at 40:17 (bits 0 right shift, 1 left shift, 2 Ctrl, 3 Alt, 4 Scroll,
/// 5 Num, 6 Caps, 7 Insert), that at 40:18 (bits 2 SysReq, 3 pause, 4 to 7 the keys of Scroll, Num, Caps and Insert are
/// down), whether FA and FE have come, and the number typed under Alt.
#[derive(Clone, Copy, Debug, PartialEq, Eq)]
pub struct Flags9 {
    pub b17: u8,
    pub b18: u8,
    pub ack: bool,
    pub resend: bool,
    pub number: u8,
}

impl Bios {
    ghost use Rattle.int09.specs.Bios.{start, first_word, without_first};
    ghost use Rattle.int09.specs.Flags.{flags_of, state_of};
    ghost use Rattle.int09.specs.Rules.{fed};

    /// The state at the start, all clear, with the memory for 15 words.
    pub fn new(alloc: Global) -> Result<Bios, AllocError>
        ensures start { IfOk result (λ bios. bios ≡ start) }
    {
        let words = HeapCircularBuffer::with_capacity(alloc, 15)?;
        Ok(Bios {
            shifts: Shifts(0),
            downs: Downs(0),
            number: 0,
            ack: false,
            resend: false,
            words,
        })
    }

    /// The state at the start again, all clear, with the memory that it has.
    pub fn clear(&mut self)
        ensures start { self.new ≡ start }
    {
        self.shifts = Shifts(0);
        self.downs = Downs(0);
        self.number = 0;
        self.ack = false;
        self.resend = false;
        self.words.clear();
    }

    /// The state of another, with the memory that it has.
    pub fn assign(&mut self, other: &Bios)
        ensures same { self.new ≡ other.now }
    {
        prove!(other.words.len() <= 15);
        let (front, back) = other.words.as_slices();
        self.clear();
        self.shifts = Shifts(other.shifts.0);
        self.downs = Downs(other.downs.0);
        self.number = other.number;
        self.ack = other.ack;
        self.resend = other.resend;
        let _ = self.words.fill_from_slice(front);
        let _ = self.words.fill_from_slice(back);
    }

    /// The state of these parts and these words, at most 15, the one to be taken next first.
    pub fn of_parts(alloc: Global, flags: Flags9, words: &[u16]) -> Result<Bios, AllocError>
        requires few { length words.now ≤ 15 }
        ensures parts { IfOk result (λ bios. bios ≡ state_of flags words.now) }
    {
        let mut bios = Bios::new(alloc)?;
        bios.shifts = Shifts(flags.b17);
        bios.downs = Downs(flags.b18);
        bios.number = flags.number;
        bios.ack = flags.ack;
        bios.resend = flags.resend;
        let _ = bios.words.fill_from_slice(words);
        Ok(bios)
    }

    /// A state of its own that is the same, with memory of its own for 15 words.
    pub fn copied(&self, alloc: Global) -> Result<Bios, AllocError>
        ensures same { IfOk result (λ bios. bios ≡ self.now) }
    {
        prove!(self.words.len() <= 15);
        let (front, back) = self.words.as_slices();
        let mut bios = Bios::of_parts(alloc, self.flags(), front)?;
        let _ = bios.words.fill_from_slice(back);
        Ok(bios)
    }

    /// Treats a byte that was read from port 60h, and answers what is said of it, in order. The buffer keeps at most 15
    /// words.
    pub fn feed(&mut self, byte: u8) -> ArrayVec<Item, 2>
        ensures after { self.new ≡ (fed byte self.old).after }
        ensures items { result.items ≡ (fed byte self.old).items }
        ensures room { length self.new.words ≤ 15 }
    {
        let items = self.treat(byte);
        prove!(self.words.len() <= 15);
        items
    }

    /// Takes the first word; None exactly if the buffer is empty.
    pub fn take(&mut self) -> Option<u16>
        ensures word { result ≡ first_word self.old }
        ensures after { self.new ≡ without_first self.old }
    {
        self.words.pop_front()
    }

    /// The state's parts but for the words.
    pub fn flags(&self) -> Flags9
        ensures flags { result ≡ flags_of self.now }
    {
        Flags9 {
            b17: self.shifts.0,
            b18: self.downs.0,
            ack: self.ack,
            resend: self.resend,
            number: self.number,
        }
    }

    /// How many words the buffer holds, at most 15.
    pub fn count(&self) -> usize
        ensures count { result ≡ length self.now.words }
        ensures range { result ≤ 15 }
    {
        self.words.len()
    }

    /// The words that the buffer holds, the one to be taken next first.
    pub fn words(&self) -> ArrayVec<u16, 15>
        ensures words { result.items ≡ self.now.words }
    {
        prove!(self.words.len() <= 15);
        let (front, back) = self.words.as_slices();
        let mut words = ArrayVec::new();
        let _ = words.try_extend_from_slice(front);
        let _ = words.try_extend_from_slice(back);
        words
    }

    /// The word at this place, from 0, the one to be taken next; None exactly from `count` on.
    pub fn word_at(&self, i: usize) -> Option<u16>
        ensures word { result ≡ slice_get self.now.words i }
    {
        self.words.get(i).copied()
    }
}
