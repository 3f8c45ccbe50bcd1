//! The keyboard's parts, and their joint step.

ghost use Rattle.std.specs.Prelude.{ℕ, ◌≡◌, ◌≤◌, ◌<◌, ◌+◌, ◌-◌, ◌^◌, ◌++◌, ◌∷◌, [], drop, length, map, IfOk, OnErr, OnOk};
ghost use Rattle.int09.specs.Bios.{start};
ghost use Rattle.joint_run.specs.Due.{due_step, with_seen, IsJointStep};
ghost use Rattle.joint_run.specs.Filled.{filled};
ghost use Rattle.live_board.specs.Answers.{line_in, raises};
ghost use Rattle.live_board.specs.Heard.{heard_all, rise, said_so};
ghost use Rattle.live_board.specs.Looks.{IsCopied};
ghost use Rattle.live_board.specs.Passing.{at_fall, passed_by};
ghost use Rattle.live_board.specs.Pasts.{Past, state_of};
ghost use Rattle.live_board.specs.Ready.{IsFirst, IsOpened};
ghost use Rattle.live_board.specs.Rising.{irq_of};
ghost use Rattle.live_board.specs.States.{HasPast};

use crate::heard::Heard;
use crate::irq::Irq;
use arrayvec::ArrayVec;
use board_terms::{Edge, HostAct, STAMP_0, Transfer};
use int09::Bios;
use joint_run::{Due, Joint, Seen};
use mcs48_core::Stuck;
use mcs48_isa::Image;
use std::alloc::{AllocError, Global};

/// From this cycle on no step is made: 2 to the 62nd cycles are 365,000 years.
pub const LAST_CYCLE: u64 = 1 << 62;

/// The joint machine, the events that its next step is handed, and what its last step did; what is kept of the log until
/// the caller takes it, and how often the interrupt line rose in the last run or call of the host's that wasn't refused.
#[derive(Drop)]
pub struct Parts {
    pub joint: Joint,
    pub due: Due,
    pub seen: Seen,
    pub heard: Heard,
    pub rises: u64,
}

/// These edges as a list of their own.
fn edge_list(edges: &[Edge]) -> ArrayVec<Edge, 4>
    requires { length edges.now ≤ 4 }
    ensures { result.items ≡ edges.now }
{
    let mut list = ArrayVec::new();
    let _ = list.try_extend_from_slice(edges);
    list
}

impl Parts {
    /// At power-on, with this program, if data memory, A and T hold this byte.
    fn power_on(image: &Image, bios: Bios, fill: u8) -> Parts
        requires start { bios ≡ start }
        ensures first { IsFirst fill result }
        ensures image { result.joint.image.bytes ≡ image.now.bytes }
    {
        Parts {
            joint: Joint::power_on_filled(image, bios, fill),
            due: Due {
                edges: ArrayVec::new(),
                host: ArrayVec::new(),
            },
            seen: Seen::nothing(),
            heard: Heard::nothing(),
            rises: 0,
        }
    }

    /// At power-on with this byte in memory, run to stamp 0, with INT 09h masked there. A program that sticks before stays
    /// where it is.
    pub(crate) fn open(image: &Image, bios: Bios, fill: u8) -> Parts
        requires start { bios ≡ start }
        ensures opened { IsOpened fill image.now.bytes result }
        ensures has_past { (p : Past) × (p.bytes ≡ image.now.bytes) × (p.held ≡ filled fill) × (p.edges ≡ []) × HasPast p result }
    {
        let mut parts = Parts::power_on(image, bios, fill);
        parts.begin();
        parts
    }

    /// At power-on, it is run to stamp 0, and INT 09h is masked there.
    fn begin(&mut self)
        ensures opened { (fill : ℕ) → IsFirst fill self.old → IsOpened fill self.old.joint.image.bytes self.new }
        ensures has_past { (fill : ℕ) → IsFirst fill self.old
            → (p : Past) × (p.bytes ≡ self.old.joint.image.bytes) × (p.held ≡ filled fill) × (p.edges ≡ []) × HasPast p self.new }
    {
        let _ = self.run(STAMP_0, false);
        let _ = self.act(HostAct::Mask);
    }

    /// The machine is switched off and on again, with this byte in memory and with its own program, and it is run to stamp 0
    /// as `open` does. No memory is taken: INT 09h keeps its own.
    pub(crate) fn switch_on(&mut self, fill: u8)
        ensures opened { IsOpened fill self.old.joint.image.bytes self.new }
        ensures has_past { (p : Past) × (p.bytes ≡ self.old.joint.image.bytes) × (p.held ≡ filled fill) × (p.edges ≡ []) × HasPast p self.new }
    {
        self.joint.switch_on(fill);
        self.due = Due {
            edges: ArrayVec::new(),
            host: ArrayVec::new(),
        };
        self.seen = Seen::nothing();
        self.heard = Heard::nothing();
        self.rises = 0;
        self.begin();
    }

    /// The parts of another: the machine in the same state, by the same edges that wait. No event of the host does. No memory
    /// is taken: INT 09h keeps its own.
    pub(crate) fn assign(&mut self, other: &Parts)
        ensures same { IsCopied other.now self.new }
        ensures has_past { (p : Past) → HasPast p other.now → HasPast p self.new }
    {
        self.joint.assign(&other.joint);
        self.due = Due {
            edges: edge_list(other.due.edges.as_slice()),
            host: ArrayVec::new(),
        };
        self.seen = Seen::nothing();
        self.heard = other.heard.copied();
        self.rises = other.rises;
    }

    /// Parts of their own: the machine in the same state, by the same edges that wait. No event of the host does.
    pub(crate) fn copied(&self, alloc: Global) -> Result<Parts, AllocError>
        ensures same { IfOk result (IsCopied self.now) }
        ensures has_past { IfOk result (λ k. (p : Past) → HasPast p self.now → HasPast p k) }
    {
        let bios = self.joint.bios().copied(alloc)?;
        Ok(Parts {
            joint: self.joint.copied(bios),
            due: Due {
                edges: edge_list(self.due.edges.as_slice()),
                host: ArrayVec::new(),
            },
            seen: Seen::nothing(),
            heard: self.heard.copied(),
            rises: self.rises,
        })
    }

    /// The edges that were made wait no longer.
    pub(crate) fn drop_made(&mut self)
        requires { self.old.seen.edges ≤ length self.old.due.edges.items }
        ensures edges { self.new.due.edges.items ≡ drop self.old.seen.edges self.old.due.edges.items }
        ensures host { self.new.due.host ≡ self.old.due.host }
        ensures joint { self.new.joint ≡ self.old.joint }
        ensures seen { self.new.seen ≡ self.old.seen }
        ensures heard { self.new.heard ≡ self.old.heard }
        ensures rises { self.new.rises ≡ self.old.rises }
    {
        if self.seen.edges > 0 {
            let left = edge_list(&self.due.edges.as_slice()[self.seen.edges as usize..]);
            self.due.edges = left;
        }
    }

    /// A step is done, before which the interrupt line was so, and a fall of the clock would have ended this byte: the
    /// edges that it made wait no longer, the byte that passed and what it said are kept, and whether the line rose is
    /// counted.
    pub(crate) fn end_step(&mut self, was: Irq, at_fall: Option<Transfer>)
        requires made { self.old.seen.edges ≤ length self.old.due.edges.items }
        requires cycles { self.old.seen.cycles ≤ self.old.joint.cycle }
        requires near { self.old.rises < 2 ^ 63 }
        ensures edges { self.new.due.edges.items ≡ drop self.old.seen.edges self.old.due.edges.items }
        ensures host { self.new.due.host ≡ self.old.due.host }
        ensures joint { self.new.joint ≡ self.old.joint }
        ensures seen { self.new.seen ≡ self.old.seen }
        ensures kept { self.new.heard ≡ heard_all self.old.heard
            (passed_by at_fall (self.old.joint.cycle - self.old.seen.cycles) self.old.joint.outside.clock ++ map said_so self.old.seen.items.items) }
        ensures risen { self.new.rises ≡ self.old.rises + rise was (irq_of self.old.joint.outside.desk.port) }
    {
        self.drop_made();
        let began = self.joint.cycle() - u64::from(self.seen.cycles);
        self.heard
            .add_passed(at_fall, began, self.joint.outside().clock);
        self.heard.add_all(self.seen.items.as_slice());
        self.count_rise(was);
    }

    /// If the interrupt line rose in the last step, before which it was so, that is counted.
    fn count_rise(&mut self, was: Irq)
        requires near { self.old.rises < 2 ^ 63 }
        ensures { self.new ≡ record self.old { rises = self.old.rises + rise was (irq_of self.old.joint.outside.desk.port) } }
    {
        if was.rises_to(self.irq()) {
            self.rises += 1;
        }
    }

    /// One joint step, by the events that wait, reported in `seen`. If the processor is stuck all but `seen` is as it was.
    #[inline(always)]
    pub(crate) fn step(&mut self) -> Result<(), Stuck>
        requires near { self.old.joint.cycle < 2 ^ 62 }
        ensures step { IsJointStep self.old.due self.old.joint (due_step self.old.due self.old.joint)
            (with_seen result self.new.seen) self.new.joint }
        ensures edges { OnOk result (self.new.due.edges.items ≡ drop self.new.seen.edges self.old.due.edges.items) }
        ensures host { self.new.due.host ≡ self.old.due.host }
        ensures kept { OnOk result (self.new.heard ≡ heard_all self.old.heard
            (passed_by (at_fall self.old.joint.outside) (self.new.joint.cycle - self.new.seen.cycles) self.new.joint.outside.clock
            ++ map said_so self.new.seen.items.items)) }
        ensures risen { OnOk result (self.new.rises ≡ rise (irq_of self.old.joint.outside.desk.port) (irq_of self.new.joint.outside.desk.port)) }
        ensures unchanged { OnErr result ((self.new.joint ≡ self.old.joint) × (self.new.due ≡ self.old.due)) }
        ensures log_unchanged { OnErr result ((self.new.heard ≡ self.old.heard) × (self.new.rises ≡ self.old.rises)) }
    {
        let was = self.irq();
        let at_fall = self.at_fall();
        self.joint.step_into(&self.due, &mut self.seen)?;
        self.rises = 0;
        self.end_step(was, at_fall);
        Ok(())
    }

    /// Whether the interrupt line is up: the controller's output buffer is full, and its interrupt is enabled.
    pub(crate) fn interrupt(&self) -> bool
        ensures line { result ≡ raises self.now.joint.outside.desk.port.core }
        ensures state { (p : Past) → HasPast p self.now → result ≡ line_in (state_of p) }
    {
        let controller = self.joint.controller();
        controller.output_full() && controller.interrupt_enabled()
    }

    /// The interrupt line, with the cycle in which the output buffer was last filled.
    pub(crate) fn irq(&self) -> Irq
        ensures irq { result ≡ irq_of self.now.joint.outside.desk.port }
    {
        Irq {
            up: self.interrupt(),
            filled: self.joint.outside().desk.port.filled,
        }
    }
}
