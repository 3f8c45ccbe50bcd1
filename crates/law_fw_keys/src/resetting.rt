//! The law of a reset from any data memory.

ghost use Rattle.law_fw_keys.specs.Resets.{ResetLaw};

/// A reset, whatever data memory holds, by flipped bits or otherwise: once the reply to FF is sent, the kernel reaches the
/// work on the keys in at most 98 cycles, and memory shows a keyboard of the model there. All of it is as a reset makes it,
/// the held keys are those that the columns showed, and the Fn key is down if it was held as the tick began. The byte that
/// memory gives for REPLYDUE must say that the reply is a reset's. Nothing is done when it is called; the law is its
/// contract.
pub fn any_reset()
    ensures heals { ResetLaw }
{}
