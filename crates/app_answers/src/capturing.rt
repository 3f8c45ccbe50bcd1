//! `capture`: what is found on the two wires of a keyboard, and what is wrong with it; `capture --keys`: what was typed.

ghost use Rattle.std.specs.Prelude.{◌≡◌, ◌≤◌, length, Err};
ghost use Rattle.app_words.specs.declared.kind.Kind.{Kind};
ghost use Rattle.app_words.specs.Kinds.{limit_of};
ghost use Rattle.app_answers.specs.Answers.{answer_of};
ghost use Rattle.app_answers.specs.Captures.{MayAnswerCapture, MayAnswerTyped};
ghost use Rattle.app_answers.specs.Spoken.{IsSpoken};

use crate::spoken::Spoken;
use app_words::Refusal;
use capture_keys::{CaptureFault, typed_keys};
use capture_lines::capture;
use io_edge::{Sink, say};
use layout_reader::Layout;
use std::alloc::Global;

/// Says what is found in a dump with these names of the clock and of the data wire, up to its first fault, which is still
/// to be said. Memory is lacking only before anything is said.
pub fn say_capture<K: Sink>(
    alloc: Global,
    dump: &[u8],
    clk: &str,
    dat: &str,
    out: &mut K,
) -> Result<Spoken, Refusal>
    requires within { length dump.now ≤ limit_of Kind.Vcd }
    ensures says { IsSpoken (λ answer taking log. MayAnswerCapture clk.now dat.now dump.now answer log)
        result (K.shown out.old) (K.shown out.new) }
    ensures unread { result ≡ Err Refusal.Read → ⊥ }
{
    let Ok(captured) = capture(alloc, dump, clk.as_bytes(), dat.as_bytes()) else {
        return Err(Refusal::Memory);
    };
    match say(out, &captured.text) {
        Err(failed) => Ok(Spoken::Said(Err(failed))),
        Ok(()) => match captured.fault {
            Some(fault) => Ok(Spoken::Captured(fault)),
            None => Ok(Spoken::Said(Ok(()))),
        },
    }
}

/// The key file of what was typed on a layout, in a dump with these names of the clock and of the data wire; or the dump's
/// first fault.
pub fn type_capture(
    alloc: Global,
    layout: &Layout,
    dump: &[u8],
    clk: &str,
    dat: &str,
) -> Result<Vec<u8>, Refusal>
    requires within { length dump.now ≤ limit_of Kind.Vcd }
    ensures says { MayAnswerTyped layout.now clk.now dat.now dump.now (answer_of result) }
    ensures unread { result ≡ Err Refusal.Read → ⊥ }
{
    match typed_keys(alloc, layout, dump, clk.as_bytes(), dat.as_bytes()) {
        Ok(keys) => Ok(keys),
        Err(CaptureFault::Dump(fault)) => Err(Refusal::Vcd {
            line: fault.line,
            number: fault.number,
        }),
        Err(CaptureFault::Memory) => Err(Refusal::Memory),
    }
}
