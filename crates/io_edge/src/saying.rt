//! What is said to a sink: a piece whole, and a text line by line.

ghost use Rattle.std.specs.Prelude.{◌≡◌, ℕ, ◌+◌, ◌<◌, ◌≤◌, ◌==◌, length, drop, position, true, false, Some, IfSome, OnErr, OnOk};
ghost use Rattle.io_edge.specs.Faults.{Rose};
ghost use Rattle.io_edge.specs.Said.{IsBrokenOff, IsSaid, TakesAll, TakesPart, line_length, offered, said};

use crate::sink::{Sink, SinkFault};

/// Puts the piece, and what wasn't taken of it again, until all of it is taken or a put fails.
pub fn put_all<K: Sink>(out: &mut K, piece: &[u8]) -> Result<(), SinkFault>
    ensures all { OnOk result (TakesAll (K.shown out.old).taken (K.shown out.new).taken piece.now) }
    ensures steady { OnOk result ((K.shown out.new).faults ≡ (K.shown out.old).faults) }
    ensures part { OnErr result (TakesPart (K.shown out.old).taken (K.shown out.new).taken piece.now) }
    ensures failed { OnErr result (Rose (K.shown out.old).faults (K.shown out.new).faults) }
    ensures none_failed { OnOk result (IfSome (K.shown out.old).in_memory (λ sink. (offered piece.now sink).failed ≡ false)) }
    ensures one_failed { OnErr result (IfSome (K.shown out.old).in_memory (λ sink. (offered piece.now sink).failed ≡ true)) }
    ensures after { IfSome (K.shown out.old).in_memory (λ sink. (K.shown out.new).in_memory ≡ Some (offered piece.now sink).sink) }
{
    let mut done = 0;
    while done < piece.len() {
        done += out.put(&piece[done..])?;
    }
    Ok(())
}

/// The place of the first LF, if there is one.
fn first_lf(text: &[u8]) -> Option<usize>
    ensures { result ≡ position (λ byte. byte == 10) text.now }
{
    text.iter().position(|byte| *byte == b'\n')
}

/// The place after the line that begins at `start`: after its LF, or at the text's end.
fn line_end(text: &[u8], start: usize) -> usize
    requires { start < length text.now }
    ensures more { start < result }
    ensures within { result ≤ length text.now }
    ensures first { result ≡ start + line_length (drop start text.now) }
{
    match first_lf(&text[start..]) {
        Some(length) => start + length + 1,
        None => text.len(),
    }
}

/// Says a text: puts it line by line, each line whole, and what wasn't taken of it again, until all is taken or a put
/// fails.
pub fn say<K: Sink>(out: &mut K, text: &[u8]) -> Result<(), SinkFault>
    ensures said { OnOk result (IsSaid (K.shown out.old) (K.shown out.new) text.now) }
    ensures broken { OnErr result (IsBrokenOff (K.shown out.old) (K.shown out.new) text.now) }
{
    let mut start = 0;
    while start < text.len() {
        let end = line_end(text, start);
        put_all(out, &text[start..end])?;
        start = end;
    }
    Ok(())
}
