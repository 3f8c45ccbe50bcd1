//! `type`: the key file that types a text on a layout.

ghost use Rattle.std.specs.Prelude.{◌≡◌, ◌≤◌, length, Err};
ghost use Rattle.app_answers.specs.Answers.{answer_of, MayAnswerText};

use app_words::Refusal;
use key_planner::{PlanFault, plan};
use layout_reader::Layout;
use std::alloc::Global;

/// Plans with which keys of a layout a text is typed, and when.
pub fn spell(alloc: Global, layout: &Layout, text: &[u8]) -> Result<Vec<u8>, Refusal>
    requires { length text.now ≤ 10000 }
    ensures says { MayAnswerText layout.now text.now (answer_of result) }
    ensures unread { result ≡ Err Refusal.Read → ⊥ }
{
    match plan(alloc, layout, text) {
        Ok(keys) => Ok(keys),
        Err(PlanFault::NoKey { at, .. }) => Err(Refusal::Text { at }),
        Err(PlanFault::Memory) => Err(Refusal::Memory),
    }
}
