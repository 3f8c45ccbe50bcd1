//! What is so of the model's runs under noise: a byte whose frame took a flip comes wrong, is asked for again up to
//! three times in a row, and then comes right or is given up.
//!
//! This layer knows the keyboard's model and the link's, and the laws of passing once over the link; it proves laws of
//! them, and nothing of it is computed. It must not know how a run is made, nor the text of a log. Source: our own.
#![tactic(auto)]

ghost use Rattle.law_noisy_link.specs.Noise.{ArrivedByFate, DoneByFate, EachEnds, ResendsCounted, WrongComesAgain};

/// What becomes of each byte that is taken off the keyboard's line.
///
/// One whose frame took no flip is received: it is put out, or is the mark of a break. One that took a flip is asked
/// for again, and nothing else changes, if fewer than three before it came wrong in a row; as the fourth it is given
/// up: FF is put out, with the parity bit set. What is asked for again comes again: the keyboard gets FE, before which
/// nothing passes, and in the tick after that it sends the byte; or, if that was FE, the last one that wasn't; or,
/// where it was the reply of a reset, AA, once the test has run. So each byte ends: in three resends at most it comes
/// right, or is given up, unless the run ends before. Nothing is done when this is called; the laws are its contract.
pub fn noise_over_the_link()
    ensures done { DoneByFate }
    ensures counted { ResendsCounted }
    ensures again { WrongComesAgain }
    ensures ends { EachEnds }
    ensures arrived { ArrivedByFate }
{}
