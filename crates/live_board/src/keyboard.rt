//! The keyboard that runs as one goes.

ghost use Rattle.std.specs.Prelude.{◌≡◌, ◌+◌, ◌-◌, [], IfOk, OnOk, None, Some};
ghost use Rattle.board_terms.specs.declared.event.HostAct.TheVariants.{Read60, Status, Take};
ghost use Rattle.int09.specs.Bios.{start};
ghost use Rattle.joint_run.specs.Filled.{filled};
ghost use Rattle.live_board.specs.Answers.{first_in};
ghost use Rattle.live_board.specs.Acts.{masking_of, write_of};
ghost use Rattle.live_board.specs.Calls.{IsActed, IsKeyed, GivesFirst};
ghost use Rattle.live_board.specs.Heard.{HasKeptAll, IsKeptLog, after_next, next_of};
ghost use Rattle.live_board.specs.Looks.{IsCopied};
ghost use Rattle.live_board.specs.Onward.{IsStepped, RunsOn, with_edge};
ghost use Rattle.live_board.specs.Pasts.{Past, acted};
ghost use Rattle.live_board.specs.Ready.{IsOpened, IsReady};
ghost use Rattle.live_board.specs.Running.{HasRun, at_rise};
ghost use Rattle.live_board.specs.States.{HasPast};

use crate::answers::{read_in, status_in, taken_in};
use crate::heard::Next;
use crate::parts::Parts;
use crate::ran::Ran;
use crate::refused::Refused;
use crate::stops::Stops;
use board_terms::{HostAct, Place};
use ctl_core::Port;
use int09::Bios;
use mcs48_isa::Image;
use std::alloc::{AllocError, Global};
use std::marker::Model;

/// The cycles of a second.
const SECOND: u64 = 400_000;

/// A keyboard on its board, driven by calls. A clause sees its parts.
#[derive(Drop)]
pub struct Keyboard {
    pub(crate) parts: Parts,
}

impl Model for Keyboard {
    ghost use Rattle.live_board.specs.declared.parts.Parts.{Parts};

    ghost Value = { Parts };

    ghost view = { λ k. k.parts };
}

impl Keyboard {
    /// The host writes a byte to a port, in one joint step. Refused if the controller's input buffer is full.
    pub fn write(&mut self, port: Port, byte: u8) -> Result<(), Refused>
        ensures acted { IsActed (write_of port byte) self.old result self.new }
        ensures log_kept { IsKeptLog (write_of port byte) self.old result self.new }
        ensures stepped { IsStepped (write_of port byte) self.old result self.new }
    {
        match port {
            Port::P60 => self.parts.act(HostAct::Write60(byte)),
            Port::P64 => self.parts.act(HostAct::Write64(byte)),
        }
    }

    /// The host reads port 60h, in one joint step: the last byte that the controller put out, 00 at first.
    pub fn read60(&mut self) -> Result<u8, Refused>
        ensures acted { IsActed Read60 self.old result self.new }
        ensures log_kept { IsKeptLog Read60 self.old result self.new }
        ensures stepped { IsStepped Read60 self.old result self.new }
        ensures byte { IfOk result (λ byte. (p : Past) → HasPast p self.old
            → GivesFirst (λ t. t.read) p (acted p (self.old.joint.cycle - 4096) Read60) byte) }
        ensures said { IfOk result (λ byte. first_in (λ t. t.read) self.new.seen.items.items ≡ Some byte) }
    {
        self.parts.act(HostAct::Read60)?;
        Ok(read_in(self.parts.seen.items.as_slice()))
    }

    /// The host reads the status at port 64h, in one joint step.
    pub fn status(&mut self) -> Result<u8, Refused>
        ensures acted { IsActed Status self.old result self.new }
        ensures log_kept { IsKeptLog Status self.old result self.new }
        ensures stepped { IsStepped Status self.old result self.new }
        ensures byte { IfOk result (λ byte. (p : Past) → HasPast p self.old
            → GivesFirst (λ t. t.status) p (acted p (self.old.joint.cycle - 4096) Status) byte) }
        ensures said { IfOk result (λ byte. first_in (λ t. t.status) self.new.seen.items.items ≡ Some byte) }
    {
        self.parts.act(HostAct::Status)?;
        Ok(status_in(self.parts.seen.items.as_slice()))
    }

    /// A program takes the next word from the buffer of INT 09h, in one joint step; none if it is empty.
    pub fn take(&mut self) -> Result<Option<u16>, Refused>
        ensures acted { IsActed Take self.old result self.new }
        ensures log_kept { IsKeptLog Take self.old result self.new }
        ensures stepped { IsStepped Take self.old result self.new }
        ensures word { IfOk result (λ word. (p : Past) → HasPast p self.old
            → GivesFirst (λ t. t.taken) p (acted p (self.old.joint.cycle - 4096) Take) word) }
        ensures said { IfOk result (λ word. first_in (λ t. t.taken) self.new.seen.items.items ≡ Some word) }
    {
        self.parts.act(HostAct::Take)?;
        Ok(taken_in(self.parts.seen.items.as_slice()))
    }

    /// From now on INT 09h of this project reads each byte that the controller puts out, 64 cycles later; or it is
    /// masked, as at first. One joint step.
    pub fn bios(&mut self, on: bool) -> Result<(), Refused>
        ensures acted { IsActed (masking_of on) self.old result self.new }
        ensures log_kept { IsKeptLog (masking_of on) self.old result self.new }
        ensures stepped { IsStepped (masking_of on) self.old result self.new }
    {
        if on {
            self.parts.act(HostAct::Unmask)
        } else {
            self.parts.act(HostAct::Mask)
        }
    }

    /// The key at a place goes down or up. It is made before the next step; no step is made yet.
    pub fn key(&mut self, place: Place, down: bool) -> Result<(), Refused>
        ensures keyed { IsKeyed place down self.old result self.new }
        ensures log_unchanged { (self.new.heard ≡ self.old.heard) × (self.new.rises ≡ self.old.rises) }
        ensures joint { self.new.joint ≡ self.old.joint }
        ensures waits { OnOk result (self.new ≡ with_edge place down self.old) }
    {
        self.parts.key(place, down)
    }

    /// Goes on until so many cycles have passed, which may be one more, since a step takes one or two; or, if the
    /// interrupt line is watched, until it rises: a run that stops at a rise alone, without a limit of steps. Answers how
    /// many passed, and why no more.
    pub fn run(&mut self, cycles: u64, watched: bool) -> Ran
        ensures cycles { self.old.joint.cycle + result.cycles ≡ self.new.joint.cycle }
        ensures run { (p : Past) → HasPast p self.old → HasRun (at_rise watched) p self.old cycles None result.end self.new }
        ensures log_kept { (p : Past) → HasPast p self.old → HasKeptAll p self.old self.new }
        ensures onward { RunsOn (at_rise watched) self.old cycles None result.end self.new }
    {
        self.parts.run(cycles, watched)
    }

    /// Goes on until a step does what the run is to stop for, but for so many cycles at most, which may be one more,
    /// and so many steps, if they are limited. Quiet steps are made many at once, but one at a time if it is to stop at a
    /// place. Answers how many cycles passed, and why it ended.
    pub fn run_to(&mut self, stops: &Stops, cycles: u64, steps: Option<u64>) -> Ran
        ensures cycles { self.old.joint.cycle + result.cycles ≡ self.new.joint.cycle }
        ensures run { (p : Past) → HasPast p self.old → HasRun stops.now p self.old cycles steps result.end self.new }
        ensures log_kept { (p : Past) → HasPast p self.old → HasKeptAll p self.old self.new }
        ensures onward { RunsOn stops.now self.old cycles steps result.end self.new }
    {
        self.parts.run_to(stops, cycles, steps)
    }

    /// The keyboard's board at power-on with this program, with INT 09h at its start and with cleared memory, run to stamp
    /// 0, with INT 09h masked there. INT 09h has all memory that it ever takes. A program that sticks before is opened too:
    /// it stays where it is.
    pub fn open(image: &Image, bios: Bios) -> Keyboard
        requires start { bios ≡ start }
        ensures opened { IsOpened 0 image.now.bytes result }
        ensures has_past { (p : Past) × (p.bytes ≡ image.now.bytes) × (p.held ≡ filled 0) × (p.edges ≡ []) × HasPast p result }
    {
        Keyboard {
            parts: Parts::open(image, bios, 0),
        }
    }

    /// The same, run on until the interrupt line rises, or for a second if it doesn't. A layout's keyboard raises it for its
    /// AA, after its power-on test; that is tested.
    pub fn open_ready(image: &Image, bios: Bios) -> Keyboard
        requires start { bios ≡ start }
        ensures ready { IsReady image.now.bytes result }
    {
        let mut keyboard = Keyboard::open(image, bios);
        let _ = keyboard.run(SECOND, true);
        keyboard
    }

    /// The keyboard is switched off and on again: it is as `open` opens it, with its own program, but that data memory, A
    /// and T hold this byte at power-on. All keys are up, and nothing is left of what was said before. No memory is taken.
    pub fn power_on(&mut self, fill: u8)
        ensures opened { IsOpened fill self.old.joint.image.bytes self.new }
        ensures has_past { (p : Past) × (p.bytes ≡ self.old.joint.image.bytes) × (p.held ≡ filled fill) × (p.edges ≡ []) × HasPast p self.new }
    {
        self.parts.switch_on(fill);
    }

    /// What happened next since the caller was last handed something, in order; of a step, the byte that passes before
    /// what it says. Sixty-four items are kept; if there are more, those after them are lost, until that was handed out
    /// too.
    pub fn hand_out(&mut self) -> Next
        ensures next { result ≡ next_of self.old.heard }
        ensures after { self.new ≡ record self.old { heard = after_next self.old.heard } }
    {
        self.parts.heard.hand_out()
    }

    /// A keyboard of its own in the same state, with memory of its own: it is in every past in which this one does,
    /// so the same calls give the same answers.
    pub fn copied(&self, alloc: Global) -> Result<Keyboard, AllocError>
        ensures same { IfOk result (IsCopied self.now) }
        ensures has_past { IfOk result (λ k. (p : Past) → HasPast p self.now → HasPast p k) }
    {
        let parts = self.parts.copied(alloc)?;
        Ok(Keyboard { parts })
    }

    /// The keyboard is as another from now on, as its copy is, with the memory that it has.
    pub fn assign(&mut self, other: &Keyboard)
        ensures same { IsCopied other.now self.new }
        ensures has_past { (p : Past) → HasPast p other.now → HasPast p self.new }
    {
        self.parts.assign(&other.parts);
    }
}
