//! The top call.

ghost use Rattle.std.specs.Prelude.{◌≡◌, ℕ, ◌-◌, ◌^◌, ◌<◌, ◌⊎◌, List, length, map, true, false, None, Some, IfSome};
ghost use Rattle.io_edge.specs.Faults.{Rose};
ghost use Rattle.io_edge.specs.Said.{TakesAll, said};
ghost use Rattle.app_words.specs.declared.kind.Kind.{Kind};
ghost use Rattle.kbd48_app.specs.Answers.{MayAnswer};
ghost use Rattle.kbd48_app.specs.Asked.{asked, planned, texts};
ghost use Rattle.kbd48_app.specs.Causes.{Fault, HasFault, HasFileFault, IsStuck, IsUntimely, MayExit, exit_at};
ghost use Rattle.kbd48_app.specs.Complete.{IsFaultless, IsLeft};
ghost use Rattle.app_answers.specs.FileAnswers.{Answer};
ghost use Rattle.kbd48_app.specs.Reached.{HasDumpFault, IsTooLong, IsUnserved, fetches_of, Makes, may_lack};
ghost use Rattle.app_words.specs.Refusals.{exit_of, line_of};
ghost use Rattle.app_answers.specs.Says.{Says};
ghost use Rattle.app_answers.specs.Spoken.{Concludes, Prints};
ghost use Rattle.app_answers.specs.Taking.{taking_of};
ghost use Rattle.app_words.specs.Words.{leaves_probes, takes_memory_first};

use crate::answering::answer;
use app_answers::Spoken;
use app_words::{Exit, Refusal};
use io_edge::{Shelf, Sink, say};
use run_probes::Probe;
use std::alloc::Global;

/// Prints a text, and ends with this exit, or with `Write` if the sink fails.
fn print<K: Sink>(out: &mut K, text: &[u8], exit: Exit) -> Exit
    ensures says { Prints text.now exit (K.shown out.old) (K.shown out.new) result }
{
    match say(out, text) {
        Ok(()) => exit,
        Err(_) => Exit::Write,
    }
}

/// Prints the line of a refusal, and ends with its exit, or with `Write` if the sink fails.
fn print_refusal<K: Sink>(out: &mut K, refusal: &Refusal) -> Exit
    ensures says { Prints (line_of refusal.now) (exit_of refusal.now)
        (K.shown out.old) (K.shown out.new) result }
{
    print(out, &refusal.line(), refusal.exit())
}

/// Prints what is left of an answer to be said, and ends with its exit, or with `Write` if the sink fails or has
/// failed.
fn conclude<K: Sink>(out: &mut K, answer: &Result<Spoken, Refusal>) -> Exit
    ensures concludes { Concludes answer.now (K.shown out.old) (K.shown out.new) result }
{
    match answer {
        Ok(Spoken::Text(text)) => print(out, text, Exit::Done),
        Ok(Spoken::Said(Ok(()))) => Exit::Done,
        Ok(Spoken::Said(Err(_))) => Exit::Write,
        Ok(Spoken::Stuck(stuck)) => print_refusal(out, &Refusal::Stuck(*stuck)),
        Ok(Spoken::Captured(fault)) => print_refusal(
            out,
            &Refusal::Vcd {
                line: fault.line,
                number: fault.number,
            },
        ),
        Err(refusal) => print_refusal(out, refusal),
    }
}

/// Answers the words, and prints what is left of the answer to be said.
fn answer_and_print<F: Shelf, K: Sink>(
    alloc: Global,
    words: &[String],
    shelf: &mut F,
    out: &mut K,
    probes: &mut Vec<Box<dyn Probe>>,
) -> Exit
    ensures says { let before = map (λ b. watch b) probes.old.items in
        let after = map (λ b. watch b) probes.new.items in
        let first = K.shown out.old in
        let last = K.shown out.new in
        (log : List ℕ) × (answer : Answer)
        × MayAnswer (texts words.now) (F.in_memory shelf.old) answer (F.in_memory shelf.new) before
        (record { probes = after; taking = taking_of result first last; log = log })
        × Says log answer first last result }
    ensures untouched { leaves_probes (asked words.now) ≡ true
        → map (λ b. watch b) probes.new.items ≡ map (λ b. watch b) probes.old.items }
    ensures read { result ≡ Exit.Read → Rose (F.faults shelf.old) (F.faults shelf.new) }
    ensures fetch_failed { F.faults shelf.old < F.faults shelf.new → (result ≡ Exit.Read) ⊎ (result ≡ Exit.Write) }
{
    let answer = answer(alloc, words, shelf, out, probes);
    conclude(out, &answer)
}

/// The program, from the words that follow its name to its exit.
///
/// Words outside the accepted forms are refused first. Then the files that the words name are fetched and judged, in
/// the order of the words, each before the next is fetched; the first refusal ends the call. All that is said goes to
/// the sink line by line: each line is offered whole in one `put`, and what that didn't take of it again. `run`, `trace`
/// and `board` put each line as it arises. A sink that fails ends the call with `Write`; want of memory with `Memory`,
/// which never comes for words outside the forms, and in `run`, `trace`, `board`, `sample` and `capture` only before
/// anything is put and before a probe has looked.
///
/// `run`, `expect`, `board` and `sample` leave each probe as one look at each state of their run does. If a put of a line
/// that a step said failed, and the sink shows what it took, `run` and `board` leave it as one at each state up to that
/// step's. `debug` and `probe` obey a script with them. Nothing else is done with them.
pub fn kbd48<F: Shelf, K: Sink>(
    alloc: Global,
    words: &[String],
    shelf: &mut F,
    out: &mut K,
    probes: &mut Vec<Box<dyn Probe>>,
) -> Exit
    // What is printed, and how the probes are left: the text of an answer that the words, the shelf and the probes may
    // give, put line by line, after a log in `board` and `capture` alone; if all of it is taken, a run's probes are as
    // after a look at each of its states; if a put of a line of `run` or `board` failed, of a sink that shows what it took, as
    // after a look at the states up to the one that the step which said this line led to.
    ensures says { let before = map (λ b. watch b) probes.old.items in
        let after = map (λ b. watch b) probes.new.items in
        let first = K.shown out.old in
        let last = K.shown out.new in
        (log : List ℕ) × (answer : Answer)
        × MayAnswer (texts words.now) (F.in_memory shelf.old) answer (F.in_memory shelf.new) before
        (record { probes = after; taking = taking_of result first last; log = log })
        × Says log answer first last result }
    // The probes: words without a run leave them as they are.
    ensures untouched { leaves_probes (asked words.now) ≡ true
        → map (λ b. watch b) probes.new.items ≡ map (λ b. watch b) probes.old.items }
    // Words: exactly if the words have no form.
    ensures words { asked words.now ≡ None → (result ≡ Exit.Words) ⊎ (result ≡ Exit.Write) }
    ensures words_only { result ≡ Exit.Words → asked words.now ≡ None }
    // Read: only if the shelf's count of faults rose, and if it did, nothing but Read or Write comes.
    ensures read { result ≡ Exit.Read → Rose (F.faults shelf.old) (F.faults shelf.new) }
    ensures fetch_failed { F.faults shelf.old < F.faults shelf.new → (result ≡ Exit.Read) ⊎ (result ≡ Exit.Write) }
    // Read, of a shelf whose files are known: exactly if a fetch that is reached fails.
    ensures unserved { IfSome (F.in_memory shelf.old) (λ shelved.
        IsUnserved (planned words.now) shelved → MayExit Exit.Read result) }
    ensures unserved_only { IfSome (F.in_memory shelf.old) (λ shelved.
        result ≡ Exit.Read → IsUnserved (planned words.now) shelved) }
    // Input, of a shelf whose files are known: exactly if a file that is reached is too long, or has a first fault. A fault of
    // time is Timing.
    ensures too_long { IfSome (F.in_memory shelf.old) (λ shelved. (kind : Kind) →
        IsTooLong kind (planned words.now) shelved → MayExit Exit.Input result) }
    ensures fault { IfSome (F.in_memory shelf.old) (λ shelved. (fault : Fault) →
        HasFault (length probes.old.items) fault (planned words.now) shelved → MayExit (exit_at fault) result) }
    ensures dump_fault { IfSome (F.in_memory shelf.old) (λ shelved.
        HasDumpFault (planned words.now) shelved → MayExit Exit.Input result) }
    ensures input_only { IfSome (F.in_memory shelf.old) (λ shelved.
        result ≡ Exit.Input → HasFileFault (length probes.old.items) (planned words.now) shelved) }
    // Timing, of a shelf whose files are known: only if a key file that is reached has a fault of time first.
    ensures timing_only { IfSome (F.in_memory shelf.old) (λ shelved.
        result ≡ Exit.Timing → IsUntimely (planned words.now) shelved) }
    // Stuck, of a shelf whose files are known: exactly if a step of `step`, or of the run of `board`, would execute a
    // byte without an instruction.
    ensures stuck { IfSome (F.in_memory shelf.old) (λ shelved.
        IsStuck (asked words.now) (planned words.now) shelved → MayExit Exit.Stuck result) }
    ensures stuck_only { IfSome (F.in_memory shelf.old) (λ shelved.
        result ≡ Exit.Stuck → IsStuck (asked words.now) (planned words.now) shelved) }
    // Memory: never if the first fetch fails, or finds a file that is too long.
    ensures memory { IfSome (F.in_memory shelf.old) (λ shelved.
        result ≡ Exit.Memory → may_lack (planned words.now) shelved ≡ true) }
    // Memory, in `run`, `trace`, `board`, `sample` and `capture`: only before anything is put. No probe has looked, and one line is
    // all that is said.
    ensures memory_first { takes_memory_first (asked words.now) ≡ true → result ≡ Exit.Memory
        → (map (λ b. watch b) probes.new.items ≡ map (λ b. watch b) probes.old.items)
        × TakesAll (K.shown out.old).taken (K.shown out.new).taken (line_of Refusal.Memory) }
    // Write: only if the sink's count of faults rose, and if it did, nothing else comes.
    ensures write { result ≡ Exit.Write → Rose (K.shown out.old).faults (K.shown out.new).faults }
    ensures put_failed { (K.shown out.old).faults < (K.shown out.new).faults → result ≡ Exit.Write }
    // If nothing is in the way, and no put failed, only want of memory is left, or in `step` and `board` a byte
    // without an instruction.
    ensures complete { IsFaultless (length probes.old.items) (texts words.now) (F.in_memory shelf.old)
        → (K.shown out.new).faults ≡ (K.shown out.old).faults → (K.shown out.old).faults < 2 ^ 64 - 1
        → IsLeft (asked words.now) result }
    // The same, of a sink that shows itself, if no put of what was said failed.
    ensures complete_in_memory { IfSome (K.shown out.old).in_memory (λ sink.
        IsFaultless (length probes.old.items) (texts words.now) (F.in_memory shelf.old)
        → (text : List ℕ) × ((K.shown out.new).in_memory ≡ Some (said text sink).sink)
        × ((said text sink).failed ≡ false → IsLeft (asked words.now) result)) }
    // The fetches: those that the words come to, in their order, and no others.
    ensures fetches { IfSome (F.in_memory shelf.old) (λ shelved.
        Makes (fetches_of (planned words.now) shelved) shelved (F.in_memory shelf.new) result) }
{
    answer_and_print(alloc, words, shelf, out, probes)
}
