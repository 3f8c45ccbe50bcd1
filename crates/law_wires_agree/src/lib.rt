//! The PC's side at its wires and the PC's side in byte time are the same machine, but for what they know of a byte
//! under way.
//!
//! This layer is laws, each the contract of a function that does nothing. It knows both sides; of the keyboard it knows
//! no more than the levels that it drives in each cycle. Source: our own.
#![tactic(auto)]

ghost use Rattle.law_wires_agree.specs.Flips.{FlipsSeen, FlipsStay};
ghost use Rattle.law_wires_agree.specs.InFrame.{GotEndsInBytes, GotInBytes, SentEndsInBytes, SentInBytes};
ghost use Rattle.law_wires_agree.specs.Laws.{BetweenFrames, FrameShown, GoesOnAlike, PullsLast, StampZeroFirst, WhilePulled};
ghost use Rattle.law_wires_agree.specs.Ticks.{BrokenTick, CutTick, GotTick, SentTick, StillTick};

/// Once it is known what came over the link in a cycle, the rest of it is the same at the wires and in byte time.
pub fn goes_on_alike()
    ensures alike { GoesOnAlike }
{}

/// While the keyboard leaves the clock alone and no byte is under way, the cycles at the wires are those of byte time
/// in which nothing comes over the link.
pub fn between_frames()
    ensures between { BetweenFrames }
{}

/// The same for the 64 cycles of a pull of the clock by the controller, whatever the keyboard does meanwhile.
pub fn while_pulled()
    ensures pulled { WhilePulled }
{}

/// Each pull of the clock by the controller lasts 64 cycles at least, also one that breaks off the keyboard's frame.
pub fn pulls_last()
    ensures pulls { PullsLast }
{}

/// A right frame of the keyboard in which noise turns round a data bit or the parity is wrong.
pub fn flips_seen()
    ensures seen { FlipsSeen }
{}

/// If the host's events turn round no other bits, what is pending is one of these in every cycle.
pub fn flips_stay()
    ensures stay { FlipsStay }
{}

/// Before stamp 0 nothing happens.
pub fn stamp_zero_first()
    ensures first { StampZeroFirst }
{}

/// The keyboard reads the bits of the controller's frame, one after each edge.
pub fn frame_shown()
    ensures shown { FrameShown }
{}

/// In each cycle of a frame, in either direction, and after it while the clock stays low, the wires with their bits
/// left out are byte time.
pub fn frames_in_bytes()
    ensures sent { SentInBytes }
    ensures got { GotInBytes }
    ensures sent_ends { SentEndsInBytes }
    ensures got_ends { GotEndsInBytes }
{}

/// A tick in which the keyboard sends a frame into a free link, and the controller leaves the clock alone: in byte time
/// the byte arrives, or comes wrong by noise.
pub fn sent_tick()
    ensures sent { SentTick }
{}

/// A tick in which the controller breaks off the keyboard's frame for a waiting input, in any cell, and the keyboard
/// leaves the wires alone from the look on that sees it: in byte time nothing arrives.
pub fn broken_tick()
    ensures broken { BrokenTick }
{}

/// A tick in which the keyboard clocks a frame for the controller: in byte time the byte is handed over.
pub fn got_tick()
    ensures got { GotTick }
{}

/// A tick in which the controller pulls the clock before the keyboard's first edge: in byte time nothing passes.
pub fn cut_tick()
    ensures cut { CutTick }
{}

/// A tick in which the keyboard leaves the clock alone: in byte time nothing passes.
pub fn still_tick()
    ensures still { StillTick }
{}
