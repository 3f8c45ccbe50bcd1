//! When what waits arrives, and that nothing begins to wait twice by itself or is read twice: laws of whole runs.
//!
//! What begins to wait in a tick is a reply, the AA of the test's end, the codes of its keys and the 00 of an overrun,
//! each once. What waits goes one byte a tick, in its order, if nothing holds it off; and what may hold it off is
//! reported in the host's terms. This layer knows the keyboard's model, the link's, and the laws of `law_quiet_log`, and proves laws of them;
//! nothing of it is computed. It must not know how a run is made, nor the text of a log. Source: our own.
#![tactic(auto)]

ghost use Rattle.law_link_times.specs.Coming.{AllComesOnce, ComesExactly, NothingElseArrives};
ghost use Rattle.law_link_times.specs.Flowing.{OneByteATick, QuietByteATick, QuietSends, QuietSendsFrom};
ghost use Rattle.law_link_times.specs.Holding.{GoesAtLast, NothingElseHolds};
ghost use Rattle.law_link_times.specs.Latency.{EdgesAreAmong, KeysComeInTime, KeysComeInTimeFrom, LatencyIsMet, ReadsWhatArrives};
ghost use Rattle.law_link_times.specs.Reads.{EachIsReadOnce, PortLinesAreArrivals};

/// Nothing begins to wait twice by itself. After a tick there waits what comes first (the reply to a byte from the system,
/// which for FE is the last byte sent, once more; AA in the test's last tick), then the rest of what waited, and then
/// what the tick's codes added: those of the key that repeats and of the edges, in the order of their places, as far as
/// the queue has room, and 00 for the first that finds none. So over any ticks; and from power-on on, all that comes, and
/// nothing else, has arrived once, or was taken away once, or waits. Nothing is done when it is called; the laws are its
/// contract.
pub fn nothing_comes_twice()
    ensures exactly { ComesExactly }
    ensures once { AllComesOnce }
    ensures all { NothingElseArrives }
{}

/// The PC reads nothing twice, and misses nothing. If the host leaves the bytes to INT 09h, which it may mask, then up
/// to each tick's start INT 09h has read what the controller put out for the bytes that arrived, each once and in their
/// order; only the last may be unread still. The host may write bytes for the keyboard; it gives the controller no
/// command and reads no byte itself, and no noise turns a bit round. With a quiet host none is unread, so the `port`
/// lines of the expected log are just these bytes. Nothing is done when it is called; the laws are its contract.
pub fn nothing_is_read_twice()
    ensures once { EachIsReadOnce }
    ensures lines { PortLinesAreArrivals }
{}

/// In time: if each tick sends what is offered, the byte at place i of what waits at a tick's start is the one that
/// arrives i ticks later. So it is, once the test has ended, if the host only takes words and reads the status, all along
/// or from a tick on at whose start the PC's side is at rest.
pub fn one_byte_a_tick()
    ensures flows { OneByteATick }
    ensures sends { QuietSends }
    ensures sends_from { QuietSendsFrom }
    ensures quiet { QuietByteATick }
{}

/// Nothing waits for ever: a byte that is offered goes, but if the controller holds the clock, has a byte for the
/// keyboard, or breaks the frame off for a waiting input, or the keyboard's test runs. After ticks that hold it off it
/// is offered still, and it goes in the first that doesn't, unless a byte from the system comes first.
pub fn nothing_waits_for_ever()
    ensures holds { NothingElseHolds }
    ensures goes { GoesAtLast }
{}

/// A key's latency, if the host only takes words and reads the status. INT 09h reads the outcome of a byte 64 cycles after
/// the byte arrives, and the log says so with the tick. Each edge that a tick sees is among its edges. Each byte of its
/// code is read at most 2 * 2,048 + 660 cycles after the edge, and a tick later for each byte before it, less 16 cycles
/// for each column that is read before the key's. Some starts in the cadence come to just that. The compiled image starts
/// its ticks one cycle late at most, and for such starts the bound is 2 * 2,048 + 656, which is 4,752.
///
/// What the host did before doesn't matter: so it is from each tick on at whose start the PC's side is at rest, if the
/// host only takes words and reads the status from there on. Nothing is done when it is called; the laws are its
/// contract.
pub fn keys_come_in_time()
    ensures reads { ReadsWhatArrives }
    ensures among { EdgesAreAmong }
    ensures soon { KeysComeInTime }
    ensures soon_from { KeysComeInTimeFrom }
    ensures met { LatencyIsMet }
{}
