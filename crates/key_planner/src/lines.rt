//! The lines of a plan. Stamps are in cycles.

ghost use Rattle.std.specs.Prelude.{◌≡◌, ◌≤◌, ◌++◌, OnOk};
ghost use Rattle.key_planner.specs.Kept.{meant};
ghost use Rattle.key_planner.specs.Plan.{stroke_key_lines, stroke_lines};

use crate::stroke::Stroke;
use board_terms::TICK_CYCLES;
use key_lines::{HELD, TAKEN, push_press, push_release, push_word};
use std::alloc::AllocError;

/// From the press of a shift key to that of the key under it, and to the release of that.
const UNDER_SHIFT: u64 = TICK_CYCLES;

const RELEASED_UNDER_SHIFT: u64 = 4 * TICK_CYCLES;

/// Appends the lines of a stroke's keys.
fn push_keys(plan: &mut Vec<u8>, start: u64, stroke: &Stroke) -> Result<(), AllocError>
    requires { start ≤ 240000000 }
    ensures { OnOk result (plan.new.items ≡ plan.old.items ++ stroke_key_lines start (meant stroke.now)) }
{
    match stroke {
        Stroke::Plain(key) => {
            push_press(plan, start, key)?;
            push_release(plan, start + HELD, key)?;
        }
        Stroke::Shifted(shift, key) => {
            push_press(plan, start, shift)?;
            push_press(plan, start + UNDER_SHIFT, key)?;
            push_release(plan, start + RELEASED_UNDER_SHIFT, key)?;
            push_release(plan, start + HELD, shift)?;
        }
    }
    Ok(())
}

/// Appends the lines of a stroke: those of its keys, and the one in which its word is taken.
pub(crate) fn push_stroke(plan: &mut Vec<u8>, start: u64, stroke: &Stroke) -> Result<(), AllocError>
    requires { start ≤ 240000000 }
    ensures { OnOk result (plan.new.items ≡ plan.old.items ++ stroke_lines start (meant stroke.now)) }
{
    push_keys(plan, start, stroke)?;
    push_word(plan, start + TAKEN, b"take")?;
    Ok(())
}
