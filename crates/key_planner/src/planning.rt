//! From a text to its plan.

ghost use Rattle.std.specs.Prelude.{◌≡◌, ◌≤◌, length, None, Some, IfOk, IfErr};
ghost use Rattle.std.specs.Option.{option_map};
ghost use Rattle.layout_reader.specs.Layouts.{IsKeyLayout};
ghost use Rattle.key_file.specs.Cursors.{history_in};
ghost use Rattle.law_typed_log.specs.Typing.{first_without, planned, stroke_start, strokes_of};
ghost use Rattle.key_planner.specs.Faults.{IsFaultOf};
ghost use Rattle.key_planner.specs.Plan.{text_plan};
ghost use Rattle.key_planner.specs.Types.{Types};

use crate::fault::PlanFault;
use crate::keys::stroke_of;
use crate::lines::push_stroke;
use key_lines::{FIRST_STROKE, STROKE, push_word};
use law_typed_log::{typed_histories, typed_logs};
use layout_reader::Layout;
use std::alloc::{AllocError, Global};

/// The stamp at which a stroke begins, by its number from 0.
fn stroke_start(number: usize) -> u64
    requires { number ≤ 10000 }
    ensures start { result ≡ stroke_start number }
    ensures range { result ≤ 240000000 }
{
    FIRST_STROKE + STROKE * number as u64
}

/// The first byte of a text that has no key: its number, from 1, and the byte. None if each has one.
fn keyless(layout: &Layout, text: &[u8]) -> Option<(u32, u8)>
    requires { length text.now ≤ 10000 }
    ensures { result ≡ first_without layout.now text.now }
{
    for number in 0..text.len() {
        let byte = text[number];
        if stroke_of(layout, byte).is_none() {
            return Some((number as u32 + 1, byte));
        }
    }
    None
}

/// The text of the plan, if each byte of the text has a key.
fn written(alloc: Global, layout: &Layout, text: &[u8]) -> Result<Vec<u8>, AllocError>
    requires few { length text.now ≤ 10000 }
    requires keys { first_without layout.now text.now ≡ None }
    ensures plan { IfOk result (λ plan. text_plan layout.now text.now ≡ Some plan.items) }
{
    let mut plan = Vec::new(alloc);
    for number in 0..text.len() {
        let Some(stroke) = stroke_of(layout, text[number]) else {
            // Each byte has a key.
            unreachable!()
        };
        push_stroke(&mut plan, stroke_start(number), &stroke)?;
    }
    push_word(&mut plan, stroke_start(text.len()), b"end")?;
    Ok(plan)
}

/// A layout is one of which the laws of typing speak.
fn is_layout(layout: &Layout)
    ensures { IsKeyLayout layout.now }
{
    let _ = layout.rate();
    let _ = layout.entries();
}

/// The key file that types a text of at most 10,000 bytes on a layout.
///
/// Ok is exactly the text's plan: the strokes of its bytes, ten ticks of 2,048 cycles each, from stamp 162,816 on. The
/// host takes a word in each; `end` is if one stroke more would begin. Read again, it is the history of these
/// strokes, which is accepted for the layout and quiet. Its log says the text: nothing is lost, and the host takes just
/// the characters. `PlanFault::NoKey` is exactly the first byte that has no key. Want of memory comes only with a
/// text of which each byte has a key.
pub fn plan(alloc: Global, layout: &Layout, text: &[u8]) -> Result<Vec<u8>, PlanFault>
    requires within { length text.now ≤ 10000 }
    ensures plan { IfOk result (λ plan. text_plan layout.now text.now ≡ Some plan.items) }
    ensures keys { IfOk result (λ plan. first_without layout.now text.now ≡ None) }
    ensures fault { IfErr result (IsFaultOf layout.now text.now) }
    ensures history { IfOk result (λ plan. option_map planned (strokes_of layout.now text.now)
        ≡ Some (history_in layout.now plan.items)) }
    ensures types { IfOk result (λ plan. Types layout.now text.now plan.items) }
{
    is_layout(layout);
    typed_histories();
    typed_logs();
    if let Some((at, byte)) = keyless(layout, text) {
        return Err(PlanFault::NoKey { at, byte });
    }
    Ok(written(alloc, layout, text)?)
}
