//! What the lines of a script print. Each text is a line with its LF.

ghost use Rattle.std.specs.Prelude.{◌≡◌, ◌++◌, IfOk, OnOk};
ghost use Rattle.std.specs.Fmt.{decimal};
ghost use Rattle.debugger.specs.Effects.{at_text, hit_text, ram_text, number_text, tally_text, first_text};

use run_probes::Tally;
use std::alloc::{AllocError, Global};

/// Appends a name and a number in decimal.
fn put_number(line: &mut Vec<u8>, name: &[u8], number: u64) -> Result<(), AllocError>
    ensures { OnOk result (line.new.items ≡ line.old.items ++ name.now ++ decimal number) }
{
    line.extend_from_slice(name)?;
    line.extend_from_slice(itoa::Buffer::new().format(number).as_bytes())
}

/// `at STEP`, with ` end` if the run has ended.
pub(crate) fn at_text(alloc: Global, steps: u64, ended: bool) -> Result<Vec<u8>, AllocError>
    ensures { IfOk result (λ text. text.items ≡ at_text steps ended) }
{
    let end: &[u8] = if ended { b" end" } else { b"" };
    let mut line = Vec::new(alloc);
    put_number(&mut line, b"at ", steps)?;
    line.extend_from_slice(end)?;
    line.push(b'\n')?;
    Ok(line)
}

/// `hit P at STEP`.
pub(crate) fn hit_text(alloc: Global, probe: u64, steps: u64) -> Result<Vec<u8>, AllocError>
    ensures { IfOk result (λ text. text.items ≡ hit_text probe steps) }
{
    let mut line = Vec::new(alloc);
    put_number(&mut line, b"hit ", probe)?;
    put_number(&mut line, b" at ", steps)?;
    line.push(b'\n')?;
    Ok(line)
}

/// `ram AA VV`.
pub(crate) fn ram_text(alloc: Global, cell: u8, value: u8) -> Result<Vec<u8>, AllocError>
    ensures { IfOk result (λ text. text.items ≡ ram_text cell value) }
{
    let mut line = Vec::new(alloc);
    line.extend_from_slice(b"ram ")?;
    line.extend_from_slice(&hex_text::byte(cell))?;
    line.push(b' ')?;
    line.extend_from_slice(&hex_text::byte(value))?;
    line.push(b'\n')?;
    Ok(line)
}

/// A word and a number.
pub(crate) fn number_text(alloc: Global, word: &[u8], number: u64) -> Result<Vec<u8>, AllocError>
    ensures { IfOk result (λ text. text.items ≡ number_text word.now number) }
{
    let mut line = Vec::new(alloc);
    put_number(&mut line, word, number)?;
    line.push(b'\n')?;
    Ok(line)
}

/// Appends a first step, or `none`.
fn put_first(line: &mut Vec<u8>, first: Option<u64>) -> Result<(), AllocError>
    ensures { OnOk result (line.new.items ≡ line.old.items ++ first_text first) }
{
    match first {
        None => line.extend_from_slice(b"none"),
        Some(step) => line.extend_from_slice(itoa::Buffer::new().format(step).as_bytes()),
    }
}

/// `probe P count N first M`.
pub(crate) fn tally_text(alloc: Global, probe: u64, tally: Tally) -> Result<Vec<u8>, AllocError>
    ensures { IfOk result (λ text. text.items ≡ tally_text probe tally.count tally.first) }
{
    let mut line = Vec::new(alloc);
    put_number(&mut line, b"probe ", probe)?;
    put_number(&mut line, b" count ", tally.count)?;
    line.extend_from_slice(b" first ")?;
    put_first(&mut line, tally.first)?;
    line.push(b'\n')?;
    Ok(line)
}
