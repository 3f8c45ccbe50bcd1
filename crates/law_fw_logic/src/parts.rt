//! Laws of the blocks of a tick before its frame: from a block's head to the next, for any working processor.

ghost use Rattle.law_fw_logic.specs.Blocks.{ColumnsLaw, HeadLaw, LampsLaw, LooksLaw};

/// The tick's head: 16 cycles from `TICK` to `READ`. T is written, 64 counts before its overflow, while the prescaler
/// goes on; the first column is selected, R0, R1 and R3 are set, and all else stays. Nothing is done when it is called;
/// the law is its contract.
pub fn heading()
    ensures head { HeadLaw }
{}

/// The reading of the columns: 192 cycles from `READ` to `OFFER`, column c read in cycle 16 c of them. HELD follows
/// the rows, CHANGED is what differs, and all else stays. Nothing is done when it is called; the law is its contract.
pub fn reading_columns()
    ensures columns { ColumnsLaw }
{}

/// The lights: six cycles from `LAMPS` to `TESTED`; port 2's latch is put in the fifth, from the cell of the lights,
/// and all else stays. Nothing is done when it is called; the law is its contract.
pub fn putting_lights()
    ensures lights { LampsLaw }
{}

/// The looks: the clock in cycle 16 past `LOOKS`, data in cycle 18. With the clock low the run reaches `PULLED`, with
/// data low to `GOT`, and else to `SEND`; both latches stay. Nothing is done when it is called; the law is its
/// contract.
pub fn looking_at_wires()
    ensures looks { LooksLaw }
{}
