//! Laws of a tick from its start, whatever its blocks do.

ghost use Rattle.law_fw_logic.specs.Ticks.{NextLaw, ReadingLaw};

/// From each tick start the run reaches `OFFER` in 208 cycles. Column c is read at offset 16 + 16 c of the tick: HELD
/// follows the rows, CHANGED is what differs from the tick before, and all else but R0, R1 and R3 stays. Nothing is
/// done when it is called; the law is its contract.
pub fn columns_in_a_tick()
    ensures columns { ReadingLaw }
{}

/// If the work of a tick reaches RETR at `DONE` by offset 2,040, with the way back on the stack as it was and the
/// timer counting on, the run reaches the next tick start: 2,048 cycles after this one, but for how late both are, so
/// the starts keep the cadence. Data memory and both latches are as they were at the work's end. Nothing is done when
/// it is called; the law is its contract.
pub fn next_start()
    ensures next { NextLaw }
{}
