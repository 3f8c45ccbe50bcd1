//! How soon what a key sends is printed.

ghost use Rattle.app_runs.specs.InTime.{KeysArePrintedInTime, KeysArePrintedInTimeFrom};

use law_link_times::keys_come_in_time;

/// Each text that `run`, with its options or without, or `expect` may print of a layout and a history in which the host only
/// takes words and reads the status: what the controller puts out for each byte of the code of a key's edge has its line,
/// with the tick in which INT 09h reads it. That is at most 2 * 2,048 + 656 cycles after the edge, which is 4,752, and a tick
/// more for each byte that waited before it. With a debounce all of it is a tick later. It is so, too, from each tick on at
/// whose start the PC's side is at rest, if the host only takes words and reads the status from there on. Nothing is done
/// when it is called; the laws are its contract.
pub fn keys_are_printed_in_time()
    ensures soon { KeysArePrintedInTime }
    ensures soon_from { KeysArePrintedInTimeFrom }
{
    keys_come_in_time();
}
