//! `step`: a run of the processor from reset, with all pins high.

ghost use Rattle.std.specs.Prelude.{◌≡◌, MatchResult, Ok};
ghost use Rattle.mcs48_core.specs.StateText.{state_text_of};
ghost use Rattle.app_answers.specs.Answers.{answer_of, MayAnswerOf};
ghost use Rattle.app_answers.specs.FileAnswers.{run_said};
ghost use Rattle.app_answers.specs.Stepping.{after_steps, WentOn, Stopped};

use app_words::Refusal;
use mcs48_core::{ALL_HIGH, Mcu, Stuck, reset, state_text};
use mcs48_isa::Image;
use std::alloc::Global;

/// The processor after a run, and the machine cycles that the run took.
#[derive(Drop)]
struct Ran {
    mcu: Mcu,
    cycles: u64,
}

/// Runs so many steps from reset. The loop is compiled by itself, so that its values stay in registers.
#[inline(never)]
fn run(image: &Image, count: u32) -> Result<Ran, Stuck>
    ensures ran { MatchResult result
        (λ ran. after_steps image.now.bytes count ≡ WentOn ran.mcu ran.cycles)
        (λ stuck. after_steps image.now.bytes count ≡ Stopped stuck) }
{
    let mut mcu = reset();
    let mut cycles = 0;
    for _step in 0..count {
        match mcu.step(image, ALL_HIGH) {
            Ok(spent) => cycles += u64::from(spent),
            Err(stuck) => return Err(stuck),
        }
    }
    Ok(Ran { mcu, cycles })
}

/// The text of the state at which a run is after so many steps.
fn shown(alloc: Global, ran: &Ran, steps: u64) -> Result<Vec<u8>, Refusal>
    ensures says { MayAnswerOf (Ok (state_text_of ran.now.mcu steps ran.now.cycles)) (answer_of result) }
{
    state_text(alloc, &ran.mcu, steps, ran.cycles).map_err(|_| Refusal::Memory)
}

/// The state after so many steps of an image from reset.
pub fn step(alloc: Global, image: &Image, count: u32) -> Result<Vec<u8>, Refusal>
    ensures says { MayAnswerOf (run_said count (after_steps image.now.bytes count)) (answer_of result) }
{
    match run(image, count) {
        Err(stuck) => Err(Refusal::Stuck(stuck)),
        Ok(ran) => shown(alloc, &ran, u64::from(count)),
    }
}
