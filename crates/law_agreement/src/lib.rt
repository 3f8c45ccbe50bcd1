//! The agreement of run and model: the joint run of a layout's compiled image gives the log of the keyboard without a
//! processor.
//!
//! This layer knows both sides: the processor's, from tick start to tick start (what the firmware's memory means, what
//! it drives and reads on the wires), and the model's (the keyboard's tick, the controller in byte time). It proves
//! that each tick of the one is a tick of the other, and by induction that the whole runs are. It must not know the
//! text of a log, nor how a run is made or the expected log computed. Our own.
#![tactic(auto)]

ghost use Rattle.law_agreement.specs.Agreement.{AgreementLaw, AnyMemoryLaw, PromptLaw};
ghost use Rattle.law_agreement.specs.AnyCount.{AnyCountLaw};
ghost use Rattle.law_agreement.specs.AnyKeys.{AnyKeysLaw};
ghost use Rattle.law_agreement.specs.AnyStart.{AsShown, FromAnyStart, ThinShowsFew};
ghost use Rattle.law_agreement.specs.Executed.{ExecutedLaw, LateLaw, SoonLaw};
ghost use Rattle.law_agreement.specs.Firmware.{TickLaw};
ghost use Rattle.law_agreement.specs.Memory.{MemoryLaw};
ghost use Rattle.law_agreement.specs.Wires.{WiresLaw};

/// For every layout and every history that is lawful for it, however long: the joint run of the layout's compiled image
/// is never stuck, each of its ticks starts at its multiple of 2,048 or one cycle past it, and what was said up to a
/// tick start is what the model says up to it, at the run's own tick starts. So it is of the run from cleared memory,
/// which the program makes, and of the run from whatever a part holds when it is switched on. Nothing is done when it
/// is called; the laws are its contract.
pub fn run_and_model_agree()
    ensures agreement { AgreementLaw }
    ensures any_memory { AnyMemoryLaw }
    ensures prompt { PromptLaw }
{}

/// For every layout and every history that is lawful for it, however long: in each tick of the joint run, in each of
/// its cycles, what the keyboard drives on the two wires. Outside a frame it pulls neither wire. The frame is that of
/// the model's meeting: the byte that is sent, whole or cut at one of its looks; the one in which the controller's byte
/// is received; or none. It is cut at the first look after the cycle in which the controller began
/// to pull the clock; if it isn't cut, the controller's link is free at its first edge and leaves the clock alone at
/// each look, or it requests to send the byte that is received, which is the meeting's. Port 1 selects each column in
/// the cycles of its offset, and else none. Nothing is done when it is called; the law is its contract.
pub fn wires_are_driven()
    ensures wires { WiresLaw }
{}

/// For every layout and every history that is lawful for it, however long: at each tick start of the joint run data
/// memory shows the model's keyboard and its layers, so it goes on by the meetings of the model and the edges of its
/// ticks. Nothing is done when it is called; the law is its contract.
pub fn memory_holds_keyboard()
    ensures memory { MemoryLaw }
{}

/// Every tick of the firmware, whatever the pins show: from a tick start at which data memory shows a keyboard the run
/// comes to the next start, 2,048 cycles later give or take one. Data memory then shows that keyboard and its layers a
/// tick of the model later, by the edges that the columns showed and by the meeting that the looks found; and in each
/// cycle the latch of port 2 was that of a tick with the meeting's frame. Without a frame it is written once, with the
/// lights, and pulls no wire. In each cycle port 1 selects the column of its offset. All is counted from the tick's
/// start: column c is read at offset 16 + 16 c, the lights are put at 232, the clock is looked at at 256 and data at 258,
/// and again at 286 if it is low; and if a byte is sent
/// the clock is looked at again at 268, 286, 306 + 32 k and 316 + 32 k. Nothing is done when it is called; the law is its contract.
pub fn every_tick()
    ensures ticks { TickLaw }
{}

/// For every layout, under all edges and host events whatsoever, whatever a part holds when it is switched on: in each
/// state of the joint run the instruction that comes next is in the chip's own 2,048 bytes, in a row of sixteen that the
/// HEX text has, and of the kernel's kinds. So the run never enables the clock's output on T0, drives the bus or accesses
/// memory outside, uses the port expander, reads the pins of ports 1 and 2, reads the timer, enables the external
/// interrupt, or calls: of the stack's eight entries the service takes one, and power-on, whose RETR ends a service that
/// is marked. And if a look at the clock wire comes
/// next after a row that puts port 2, a chip samples the wire at least 7 fifths of a cycle, 3.5 microseconds, after it
/// has put the port. While a byte is being sent, up to the look after the tenth rise of the clock, the next look at the
/// clock comes at most 24 cycles after each: no pull of 60 microseconds is missed. Nothing is done when it is called; the
/// laws are its contract.
pub fn keeps_to_the_board()
    ensures executed { ExecutedLaw }
    ensures late { LateLaw }
    ensures soon { SoonLaw }
{}

/// From any tick start at which data memory shows a keyboard, whatever the keys did before: the run goes on as the model
/// does from that keyboard, as long as at most four keys a tick differ from what the tick before saw. The model's tick
/// gets what the columns show, so keys may bounce between two reads as they like. It is so of the run from power-on, too.
/// A tick shows few if, of any five edges in a row that it may see, the last is at least 2,240 cycles later than the
/// first. Nothing is done when it is called; the laws are its contract.
pub fn goes_on_from_any_start()
    ensures from_any_start { FromAnyStart }
    ensures as_shown { AsShown }
    ensures thin { ThinShowsFew }
{}

/// Whatever the layout's keys do, any number at once, bouncing or not, in any order, whatever bytes the host writes, whatever
/// data bits and parities noise inverts, and whatever a part holds when it is switched on: the run goes on as the model does
/// whose ticks get what the columns show, however long they last. At each tick start data memory shows the model's keyboard,
/// and what was said is what the model says. A tick lasts at least 2,016 cycles (5.04 milliseconds), and at most 2,054 and 62
/// for each key that changed. Once at most four change in each, the ticks are 2,048 cycles apart again, give or take one.
/// Nothing is done when it is called; the law is its contract.
pub fn goes_by_its_columns()
    ensures any_count { AnyCountLaw }
{}

/// Whatever the keys and the PC do: for every layout, under any edges at any places, any number at once, bouncing or not,
/// in any order, and under any host events and inverted bits, whatever a part holds when it is switched on, the joint run
/// of the layout's compiled image is never stuck. Its first tick starts at stamp 0 or 1. Each later one starts at most
/// 8,000 cycles, 20 milliseconds, after the one before; and at most 2,054 cycles and 62 more for each key that the tick
/// before found changed. Nothing is done when it is called; the law is its contract.
pub fn any_keys()
    ensures never_stops { AnyKeysLaw }
{}
