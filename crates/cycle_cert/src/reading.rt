//! Reading a certificate.

ghost use Rattle.std.specs.Prelude.{◌≡◌, ℕ, ◌<◌, ◌≤◌, ◌+◌, Ok, IfOk, IfErr, OnOk, length};
ghost use Rattle.first_fault.specs.FirstFault.{at_item};
ghost use Rattle.cycle_cert.specs.Answers.{IsFaultOf};
ghost use Rattle.cycle_cert.specs.Reading.{nothing_read, take_target, take_entry, take_line, draft_of};

use crate::certificate::Table;
use crate::fault::{CertFault, Rule};
use crate::lines::{entry, target};
use std::alloc::{AllocError, Global};
use text_lines::{is_blank_line, next_line};

/// What the lines so far came to: their number, the target, if one of them gave it, and the certified places.
#[derive(Drop)]
pub(crate) struct Draft {
    pub(crate) lines: u32,
    pub(crate) target: Option<u16>,
    pub(crate) table: Table,
}

impl Draft {
    /// Before the first line.
    fn new(alloc: Global) -> Result<Draft, AllocError>
        ensures { IfOk result (λ draft. draft ≡ nothing_read) }
    {
        Ok(Draft {
            lines: 0,
            target: None,
            table: Table::new(alloc)?,
        })
    }

    /// Takes the first line that isn't blank.
    fn take_target(&mut self, line: &[u8]) -> Result<(), CertFault>
        requires { self.old.lines < 65536 }
        ensures taken { OnOk result (take_target self.old line.now ≡ Ok self.new) }
        ensures few { OnOk result (length self.old.table ≤ self.old.lines → length self.new.table ≤ self.new.lines) }
        ensures fault { IfErr result (IsFaultOf (at_item (self.old.lines + 1) (take_target self.old line.now))) }
    {
        let number = self.lines + 1;
        let place = target(line).ok_or(Rule::Form.at(number))?;
        self.target = Some(place);
        self.lines = number;
        Ok(())
    }

    /// Takes a line after it.
    fn take_entry(&mut self, line: &[u8]) -> Result<(), CertFault>
        requires { self.old.lines < 65536 }
        ensures taken { OnOk result (take_entry self.old line.now ≡ Ok self.new) }
        ensures few { OnOk result (length self.old.table ≤ self.old.lines → length self.new.table ≤ self.new.lines) }
        ensures fault { IfErr result (IsFaultOf (at_item (self.old.lines + 1) (take_entry self.old line.now))) }
    {
        let number = self.lines + 1;
        let entry = entry(number, line).ok_or(Rule::Form.at(number))?;
        if self.table.bound_in(entry.place).is_some() {
            return Err(Rule::Twice.at(number));
        }
        self.table.add(entry)?;
        self.lines = number;
        Ok(())
    }

    /// Takes a line: does what it says, or answers the first rule that it breaks.
    fn take_line(&mut self, line: &[u8]) -> Result<(), CertFault>
        requires { self.old.lines < 65536 }
        ensures taken { OnOk result (take_line self.old line.now ≡ Ok self.new) }
        ensures counted { OnOk result (self.new.lines ≡ self.old.lines + 1) }
        ensures few { OnOk result (length self.old.table ≤ self.old.lines → length self.new.table ≤ self.new.lines) }
        ensures fault { IfErr result (IsFaultOf (at_item (self.old.lines + 1) (take_line self.old line.now))) }
    {
        if is_blank_line(line) {
            self.lines += 1;
            return Ok(());
        }
        if self.target.is_none() {
            self.take_target(line)
        } else {
            self.take_entry(line)
        }
    }
}

/// What all lines of a text of at most 65,536 bytes come to, or the first fault.
#[tactic(auto, unfolding(crate::specs::Reading::draft_of))]
pub(crate) fn read(alloc: Global, text: &[u8]) -> Result<Draft, CertFault>
    requires { length text.now ≤ 65536 }
    ensures draft { IfOk result (λ draft. draft_of text.now ≡ Ok draft) }
    ensures few { IfOk result (λ draft. length draft.table ≤ 65536) }
    ensures fault { IfErr result (IsFaultOf (draft_of text.now)) }
{
    let mut draft = Draft::new(alloc)?;
    let mut rest = text;
    while let Some((line, after)) = next_line(rest) {
        draft.take_line(line)?;
        rest = after;
    }
    Ok(draft)
}
