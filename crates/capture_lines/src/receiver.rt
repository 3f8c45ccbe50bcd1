//! What a PC makes of the keyboard's bytes.

ghost use Rattle.std.specs.Prelude.{◌≡◌, ◌∷◌, IfOk};
ghost use Rattle.capture_lines.specs.Receiving.{at_power_on, receipt, receipt_of};
ghost use Rattle.int09.specs.Bios.{without_first};
ghost use Rattle.int09.specs.Rules.{fed};
ghost use Rattle.pc_tables.specs.declared.item.Item.TheVariants.{Port};

use crate::counts::is_right;
use arrayvec::ArrayVec;
use capture_frames::Finding;
use ctl_core::Controller;
use int09::Bios;
use pc_tables::Item;
use std::alloc::{AllocError, Global};
use std::marker::Model;

/// The PC's side: its controller as at power-on, whose output is read at once, and INT 09h, of which a program takes each
/// word at once.
#[derive(Drop)]
pub(crate) struct Receiver {
    controller: Controller,
    bios: Bios,
}

impl Model for Receiver {
    ghost use Rattle.std.specs.Prelude.{◌≡◌, false};
    ghost use Rattle.capture_lines.specs.Receiving as receiving;

    ghost Value = { receiving.Receiver };

    ghost view = { λ r. record { controller = r.controller; bios = r.bios } };

    ghost invariant = { λ r. r.controller.output_full ≡ false };
}

/// INT 09h reads a byte of port 60h, and a program takes the word, if there is one. Answers what is said.
fn read(bios: &mut Bios, code: u8) -> ArrayVec<Item, 3>
    ensures after { bios.new ≡ without_first (fed code bios.old).after }
    ensures items { result.items ≡ Port code ∷ (fed code bios.old).items }
{
    let mut items = ArrayVec::new();
    items.push(Item::Port(code));
    let _ = items.try_extend_from_slice(&bios.feed(code));
    bios.take();
    items
}

impl Receiver {
    /// At power-on, with the memory for INT 09h.
    pub(crate) fn new(alloc: Global) -> Result<Receiver, AllocError>
        ensures { IfOk result (λ receiver. receiver ≡ at_power_on) }
    {
        let bios = Bios::new(alloc)?;
        Ok(Receiver {
            controller: Controller::new(),
            bios,
        })
    }

    /// The controller receives a byte, which came right or wrong; if it puts one out, INT 09h reads it. Answers what is said.
    fn receive(&mut self, byte: u8, right: bool) -> ArrayVec<Item, 3>
        ensures after { self.new ≡ (receipt byte right self.old).after }
        ensures items { result.items ≡ (receipt byte right self.old).items }
    {
        self.controller.receive(byte, right);
        if !self.controller.output_full() {
            return ArrayVec::new();
        }
        let code = self.controller.host_read60();
        read(&mut self.bios, code)
    }

    /// Receives the byte of a finding, if it is one of the keyboard. Answers what is said.
    pub(crate) fn hear(&mut self, finding: Finding) -> ArrayVec<Item, 3>
        ensures after { self.new ≡ (receipt_of finding self.old).after }
        ensures items { result.items ≡ (receipt_of finding self.old).items }
    {
        match finding {
            Finding::Byte(frame) if !frame.from_host => self.receive(frame.byte, is_right(frame)),
            _ => ArrayVec::new(),
        }
    }
}
