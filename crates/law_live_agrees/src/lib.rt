//! A keyboard that runs as one goes is the keyboard of the model, whatever calls were made.
//!
//! This layer has laws alone, over `live_board` and the agreement of run and model; nothing calls them for what they
//! do. Source: our own.
#![tactic(auto)]

ghost use Rattle.law_live_agrees.specs.Law.{AnswersAreAlike, AnyUseIsLawful, CallsAreAlike, FillsAreFine, KeysAreAlike, LogsAgree};
ghost use Rattle.law_live_agrees.specs.Law.{LogsAreShown, NeverStuck, RunsEndAlike, StatesAreAlike, WordsAreAlike};
ghost use Rattle.law_live_agrees.specs.Opened.{OpenedIsMasked, ReadyIsMasked};
ghost use Rattle.law_live_agrees.specs.Queued.{ImageSaysDebounce, QueuedLogsAgree, StaysQueued};
ghost use Rattle.law_live_agrees.specs.Saved.{CallsKeepAlike, HandsKeepAlike, KeysKeepAlike, LoadedAreAlike, RunsKeepAlike, SavesAreAlike};

use edge_queue::edges_are_lawful;
use law_agreement::{any_keys, goes_by_its_columns, run_and_model_agree};

/// Whatever calls were made, in whatever order, however many and for however long: let a keyboard be in a past that
/// begins with a layout's compiled image, and let the keys and host events of that past be lawful for the layout. Then
/// what was said so far is the beginning of what the model says of them, at the run's own tick starts, whatever the part
/// held when it was switched on; any one byte is such. How often a program uses the ports is free: without keys, events in
/// order that write bytes and invert data bits or the parity are lawful. And the same calls give the same answers: two
/// keyboards in one past are in one state of the run, and what is reported between two pasts is one byte, and one word or
/// none; a call of the host or of a key is done of both, or refused for one cause; and a run that ends before the count of
/// cycles does ends for one reason, after as many steps. Nothing is done when it is called; the laws are its contract.
pub fn calls_agree()
    ensures agrees { LogsAgree }
    ensures one_state { StatesAreAlike }
    ensures one_answer { AnswersAreAlike }
    ensures one_word { WordsAreAlike }
    ensures one_outcome { CallsAreAlike }
    ensures one_key { KeysAreAlike }
    ensures one_end { RunsEndAlike }
    ensures any_use { AnyUseIsLawful }
    ensures any_fill { FillsAreFine }
{
    run_and_model_agree();
}

/// Whatever calls were made, whatever the part held when it was switched on, whether or not keys bounced, and however many
/// changed at once: let the edges be at places of the layout, and what is written be bytes. Then what was said so far is the
/// beginning of what the model says, whose ticks get what the columns show, before a bounce and after it. Nothing is done
/// when it is called; the law is its contract.
pub fn bounces_agree()
    ensures shown { LogsAreShown }
{
    goes_by_its_columns();
}

/// Whatever calls were made, in whatever order, with any keys and host events, and whatever the part held when it was
/// switched on: a keyboard whose past begins with a layout's compiled image has a next state. So no call is refused, and no
/// run ends, because the processor is stuck. Nothing is done when it is called; the law is its contract.
pub fn never_stuck()
    ensures goes_on { NeverStuck }
{
    any_keys();
}

/// A keyboard that was opened with a layout's image, or switched off and on again, from memory of any byte, is in one past:
/// no key has moved, and INT 09h was masked at stamp 0 or 1. So is one that was run on until its interrupt line rose. That past
/// is lawful for the layout, and what was said so far is the beginning of what the model says of it. The calls that follow
/// add to this past, so the laws of calls need no premise on how the keyboard was opened. Nothing is done when it is called;
/// the laws are its contract.
pub fn opened_is_lawful()
    ensures opened { OpenedIsMasked }
    ensures ready { ReadyIsMasked }
{
    run_and_model_agree();
    any_keys();
}

/// Keys that come out of a queue: let each key of a keyboard's past be one that the queue handed over when it was due, with
/// the time of a debounce or without, whatever was pushed, and whenever. Then the keys are lawful, and what was said so far is the beginning of what the model
/// says, if the keys are the layout's and the host's events are lawful too. Whether the layout has a debounce is at 3F2 of its
/// image. Nothing is done when it is called; the laws are its contract.
pub fn queued_keys_agree()
    ensures queued { StaysQueued }
    ensures says_debounce { ImageSaysDebounce }
    ensures agrees { QueuedLogsAgree }
{
    edges_are_lawful();
    run_and_model_agree();
}

/// A keyboard and one that was loaded of its save: both are in one past, and keep the same for the caller. So what is saved
/// of both is the same, and each call is done of both or refused of both for one cause, and leaves them so. Nothing is done
/// when it is called; the laws are its contract.
pub fn saves_agree()
    ensures loaded { LoadedAreAlike }
    ensures saved { SavesAreAlike }
    ensures calls { CallsKeepAlike }
    ensures keys { KeysKeepAlike }
    ensures runs { RunsKeepAlike }
    ensures hands { HandsKeepAlike }
{}
