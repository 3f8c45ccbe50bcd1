//! Whether the bytes of a key file have a history, found without memory.

ghost use Rattle.std.specs.Prelude.{◌≡◌, ◌≤◌, Ok, Err, length, IfOk, IfErr, OnOk};
ghost use Rattle.key_file.specs.Accepted.{IsAcceptedFor};
ghost use Rattle.key_file.specs.Histories.{Before};
ghost use Rattle.key_file.specs.Keeps.{IsBriefAfter, IsBriefOf};
ghost use Rattle.key_file.specs.KeyFile.{history_of, key_fault, take_line};

use crate::brief::Brief;
use crate::byte_feed::ByteFeed;
use crate::fault::{FileFault, placed_fault};
use crate::line::said_by;
use crate::rule::Rule;
use crate::rules::broken_by;
use layout_reader::Layout;
use text_lines::next_line;

/// Takes what a line says; if it breaks a rule, nothing is taken.
fn take_line(brief: &mut Brief, layout: &Layout, text: &[u8]) -> Result<(), Rule>
    ensures taken { OnOk result ((before : Before) → IsBriefOf before brief.old → IsBriefAfter layout.now before text.now brief.new) }
    ensures broken { IfErr result (λ rule. (before : Before) → IsBriefOf before brief.old → take_line layout.now before text.now ≡ Err rule) }
{
    let Some(event) = said_by(layout, text)? else {
        return Ok(());
    };
    if let Some(rule) = broken_by(brief, &event) {
        return Err(rule);
    }
    brief.push(&event);
    Ok(())
}

/// Judges a key file of at most 4,194,304 bytes for a layout, in one pass that takes no memory.
///
/// Ok hands out the events of exactly the file's history, none of which is taken yet; it is accepted for the layout. A
/// fault is exactly the one of `read_history`: the first faulty line with the lowest number of a rule that it breaks.
pub fn check_history<'a>(bytes: &'a [u8], layout: &'a Layout) -> Result<ByteFeed<'a>, FileFault>
    requires within { length bytes.now ≤ 4194304 }
    ensures history { IfOk result (λ feed. history_of layout.now bytes.now ≡ Ok feed.history) }
    ensures accepted { IfOk result (λ feed. IsAcceptedFor layout.now feed.history) }
    ensures no_edge { IfOk result (λ feed. feed.edges ≡ 0) }
    ensures no_host { IfOk result (λ feed. feed.host ≡ 0) }
    ensures fault { IfErr result (λ fault. history_of layout.now bytes.now ≡ Err (key_fault fault)) }
{
    let mut brief = Brief::new();
    let mut rest = bytes;
    let mut number = 1;
    while let Some((line, after)) = next_line(rest) {
        if let Err(rule) = take_line(&mut brief, layout, line) {
            return Err(placed_fault(number, rule));
        }
        rest = after;
        number += 1;
    }
    match brief.end() {
        Some(end) => Ok(ByteFeed::at_start(bytes, layout, end)),
        None => Err(placed_fault(number, Rule::NoEnd)),
    }
}
