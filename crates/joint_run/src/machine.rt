//! The joint machine's parts, and a step of them.

ghost use Rattle.std.specs.Prelude.{◌≡◌, ◌+◌, ◌<◌, ◌≤◌, ◌^◌, ℕ, [], length, false, IfOk, OnErr, OnOk, Some};
ghost use Rattle.board_terms.specs.Matrix.{turned_by};
ghost use Rattle.ctl_link.specs.Empty.{IsEmptyUnlessHeld};
ghost use Rattle.joint_run.specs.Due.{beside, due_step, ended, machine_after, made_first, with_seen, IsJointStep, IsSeen};
ghost use Rattle.joint_run.specs.Edgeless.{without_edges};
ghost use Rattle.joint_run.specs.Joint.{pins_by};
ghost use Rattle.mcs48_core.specs.Leap.{spun};
ghost use Rattle.mcs48_core.specs.Step.{stepped, IsStep};

use crate::due::{Due, Seen};
use crate::outside::Outside;
use arrayvec::ArrayVec;
use board_terms::{Edge, Matrix, STAMP_0};
use host_turn::Stamped;
use mcs48_core::{Mcu, Pins, Stuck};
use mcs48_isa::Image;

/// The program; the matrix, with the edges made that were handed in; the processor; what is outside it; how many
/// cycles are done, and how many steps.
#[derive(Drop)]
pub struct Machine {
    pub image: Image,
    pub matrix: Matrix,
    pub mcu: Mcu,
    pub outside: Outside,
    pub cycle: u64,
    pub steps: u64,
}

/// The first of these edges are made, up to one whose stamp isn't reached at this cycle. Answers how many.
fn make_edges(matrix: &mut Matrix, cycle: u64, edges: &[Edge]) -> u8
    requires { length edges.now ≤ 4 }
    ensures keys { matrix.new ≡ turned_by (made_first cycle edges.now) matrix.old }
    ensures count { result ≡ length (made_first cycle edges.now) }
    ensures few { result ≤ length edges.now }
{
    match edges {
        [] => 0,
        [edge, rest @ ..] => {
            if cycle < STAMP_0 || edge.stamp > cycle - STAMP_0 {
                return 0;
            }
            matrix.edge(edge.place, edge.down);
            1 + make_edges(matrix, cycle, rest)
        }
    }
}

/// Whether the first of these edges is made at this cycle. If it isn't, none is.
#[inline(always)]
fn is_one_due(cycle: u64, edges: &[Edge]) -> bool
    requires near { cycle < 2 ^ 62 }
    ensures none { result ≡ false → made_first cycle edges.now ≡ [] }
{
    match edges {
        [] => false,
        [edge, ..] => edge.stamp.saturating_add(STAMP_0) <= cycle,
    }
}

/// The levels that the processor reads: the rows of the column that port 1 selects, and the wires. All other pins are
/// high.
fn pins(matrix: &Matrix, outside: &Outside, mcu: &Mcu) -> Pins
    ensures { result ≡ pins_by matrix.now mcu.now.p1 mcu.now.p2 (beside outside.now 0 []) }
{
    let line = outside.wires(mcu.p2);
    Pins {
        p1: 0xff,
        p2: 0xff,
        bus: matrix.rows(mcu.p1),
        t0: line.clk,
        t1: line.dat,
        int_pin: true,
    }
}

/// The processor's step over this program, with these levels at its pins, built into this place.
#[inline(always)]
fn execute<const SITE: u8>(image: &Image, mcu: &mut Mcu, given: Pins) -> Result<u8, Stuck>
    ensures step { IsStep image.now.bytes mcu.old (stepped image.now.bytes given mcu.old) result mcu.new }
    ensures some { IfOk result (λ cycles. 0 < cycles) }
    ensures few { IfOk result (λ cycles. cycles < 3) }
{
    mcu.step_inlined::<SITE>(image, given)
}

/// The processor's jumps to where it is, over this program.
#[inline(always)]
fn leap(image: &Image, mcu: &mut Mcu, given: &Pins, most: u64) -> u64
    ensures few { result ≤ most }
    ensures start { spun 0 mcu.old ≡ mcu.old }
    ensures steps { (j : ℕ) → j < result
        → stepped image.now.bytes given.now (spun j mcu.old) ≡ Some (record { cpu = spun (j + 1) mcu.old; cycles = 2 }) }
    ensures end { mcu.new ≡ spun result mcu.old }
{
    mcu.leap(image, given, most)
}

/// The latch of port 2.
fn port_2(mcu: &Mcu) -> u8
    ensures { result ≡ mcu.now.p2 }
{
    mcu.p2
}

/// Nothing is said yet. In most steps nothing was said before, and the list is left as it is.
fn empty_out(items: &mut ArrayVec<Stamped, 16>)
    ensures { items.new.items ≡ [] }
{
    if !items.is_empty() {
        items.clear();
    }
}

impl Machine {
    /// The processor's part of a step alone, with these levels at its pins: no cycle passes.
    #[inline(always)]
    pub(crate) fn step_processor<const SITE: u8>(&mut self, given: Pins) -> Result<u8, Stuck>
        ensures step { IsStep self.old.image.bytes self.old.mcu (stepped self.old.image.bytes given self.old.mcu) result self.new.mcu }
        ensures parts { self.new ≡ record self.old { mcu = self.new.mcu } }
        ensures some { IfOk result (λ cycles. 0 < cycles) }
        ensures few { IfOk result (λ cycles. cycles < 3) }
    {
        execute::<SITE>(&self.image, &mut self.mcu, given)
    }

    /// Jumps of the processor to where it is, as `Mcu::leap` makes them: no cycle passes.
    #[inline(always)]
    pub(crate) fn leap_processor(&mut self, given: &Pins, most: u64) -> u64
        ensures few { result ≤ most }
        ensures start { spun 0 self.old.mcu ≡ self.old.mcu }
        ensures steps { (j : ℕ) → j < result → stepped self.old.image.bytes given.now (spun j self.old.mcu)
            ≡ Some (record { cpu = spun (j + 1) self.old.mcu; cycles = 2 }) }
        ensures end { self.new ≡ record self.old { mcu = spun result self.old.mcu } }
    {
        leap(&self.image, &mut self.mcu, given, most)
    }

    /// The cycles of a step pass, whose part the processor has made, and in which no edge was made. It is reported in `seen`.
    #[inline(always)]
    pub(crate) fn end_step(&mut self, cycles: u8, due: &Due, seen: &mut Seen)
        requires near { self.old.cycle < 2 ^ 62 }
        requires some { 0 < cycles }
        requires few { cycles < 3 }
        requires steps { self.old.steps ≤ self.old.cycle }
        requires empty { IsEmptyUnlessHeld self.old.outside.desk.port }
        ensures ended { self.new ≡ machine_after (without_edges due.now) self.old (ended cycles due.now self.old) }
        ensures seen { IsSeen (without_edges due.now) self.old (ended cycles due.now self.old) seen.new }
        ensures cycles { seen.new.cycles ≡ cycles }
        ensures steps { self.new.steps ≤ self.new.cycle }
        ensures empty { IsEmptyUnlessHeld self.new.outside.desk.port }
    {
        let p2 = port_2(&self.mcu);
        empty_out(&mut seen.items);
        let (host, first, last) = self.outside.pass(
            self.cycle,
            cycles,
            p2,
            due.host.as_slice(),
            &mut seen.items,
        );
        self.cycle += cycles as u64;
        self.steps += 1;
        seen.cycles = cycles;
        seen.edges = 0;
        seen.host = host;
        seen.lines = [first, last];
    }

    /// One joint step in which no edge is made, reported in `seen`. If the processor is stuck nothing has changed.
    #[inline(always)]
    fn step_on<const SITE: u8>(&mut self, due: &Due, seen: &mut Seen) -> Result<(), Stuck>
        requires near { self.old.cycle < 2 ^ 62 }
        requires steps { self.old.steps ≤ self.old.cycle }
        requires empty { IsEmptyUnlessHeld self.old.outside.desk.port }
        ensures step { let rest = without_edges due.now in
            IsJointStep rest self.old (due_step rest self.old) (with_seen result seen.new) self.new }
        ensures unchanged { OnErr result (self.new ≡ self.old) }
        ensures some { OnOk result (0 < seen.new.cycles) }
        ensures few { OnOk result (seen.new.cycles < 3) }
        ensures steps { self.new.steps ≤ self.new.cycle }
        ensures empty { IsEmptyUnlessHeld self.new.outside.desk.port }
    {
        let given = pins(&self.matrix, &self.outside, &self.mcu);
        let cycles = self.step_processor::<SITE>(given)?;
        self.end_step(cycles, due, seen);
        Ok(())
    }

    /// One joint step in which edges may be made. If the processor is stuck nothing has changed, and none is made.
    #[cold]
    #[inline(never)]
    fn step_with_edges(&mut self, due: &Due, seen: &mut Seen) -> Result<(), Stuck>
        requires near { self.old.cycle < 2 ^ 62 }
        requires steps { self.old.steps ≤ self.old.cycle }
        requires empty { IsEmptyUnlessHeld self.old.outside.desk.port }
        ensures step { IsJointStep due.now self.old (due_step due.now self.old) (with_seen result seen.new) self.new }
        ensures unchanged { OnErr result (self.new ≡ self.old) }
        ensures some { OnOk result (0 < seen.new.cycles) }
        ensures few { OnOk result (seen.new.cycles < 3) }
        ensures steps { self.new.steps ≤ self.new.cycle }
        ensures empty { IsEmptyUnlessHeld self.new.outside.desk.port }
    {
        let before = self.matrix.copied();
        let cycle = self.cycle;
        let edges = make_edges(&mut self.matrix, cycle, due.edges.as_slice());
        match self.step_on::<2>(due, seen) {
            Ok(()) => {
                seen.edges = edges;
                Ok(())
            }
            Err(stuck) => {
                self.matrix = before;
                Err(stuck)
            }
        }
    }

    /// One joint step, reported in `seen`. The edges are made whose stamp is reached; the processor makes one step; then
    /// its cycles pass. If the processor is stuck nothing has changed, and no edge is made. In most steps no edge is
    /// due: then the matrix stays where it is.
    #[inline(always)]
    pub(crate) fn step<const SITE: u8>(&mut self, due: &Due, seen: &mut Seen) -> Result<(), Stuck>
        requires near { self.old.cycle < 2 ^ 62 }
        requires steps { self.old.steps ≤ self.old.cycle }
        requires empty { IsEmptyUnlessHeld self.old.outside.desk.port }
        ensures step { IsJointStep due.now self.old (due_step due.now self.old) (with_seen result seen.new) self.new }
        ensures unchanged { OnErr result (self.new ≡ self.old) }
        ensures some { OnOk result (0 < seen.new.cycles) }
        ensures few { OnOk result (seen.new.cycles < 3) }
        ensures steps { self.new.steps ≤ self.new.cycle }
        ensures empty { IsEmptyUnlessHeld self.new.outside.desk.port }
    {
        if is_one_due(self.cycle, due.edges.as_slice()) {
            return self.step_with_edges(due, seen);
        }
        self.step_on::<SITE>(due, seen)
    }
}
