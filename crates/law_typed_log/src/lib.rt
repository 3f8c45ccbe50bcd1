//! What types a text: on a layout, the history in which the keys of its characters are struck; and what is so of it.
//!
//! A character is typed with the first entry of the layout that enters it in the base column of the table of words, or
//! in the shift column under a shift key. The strokes follow one another at ten ticks each, and the host takes each
//! word. Such a history is accepted and quiet, and its log says the text. This layer knows the table of words, layouts,
//! histories and the model's quiet log, and proves laws of them; nothing of it is computed. It must not know how a key
//! file is written, nor how a run is made. Source: our own.
#![tactic(auto)]

ghost use Rattle.law_typed_log.specs.Typed.{StrokesArePlayable, StrokesSayText};

/// The history of a text's strokes is accepted for the layout, and quiet. Nothing is done when it is called; the law
/// is its contract.
pub fn typed_histories()
    ensures playable { StrokesArePlayable }
{}

/// In the quiet log of a text's strokes nothing is lost, and the host takes as many words as the text has bytes, in
/// their order, each with the character of its byte. Nothing is done when it is called; the law is its contract.
pub fn typed_logs()
    ensures says { StrokesSayText }
{}
