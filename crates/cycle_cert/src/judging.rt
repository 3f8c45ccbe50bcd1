//! Judging the certified places by the program.

ghost use Rattle.std.specs.Prelude.{◌≡◌, ℕ, ◌<◌, ◌≤◌, ◌∷◌, ◌++◌, [], Some, None, Ok, IfSome, IfOk, IfErr};
ghost use Rattle.std.specs.Prelude.{option_map, length};
ghost use Rattle.std.specs.Option.{ForSome};
ghost use Rattle.mcs48_isa.specs.Operands.{IsOp};
ghost use Rattle.mcs48_core.specs.Step.{row_at};
ghost use Rattle.cycle_cert.specs.Answers.{said_by, greatest_of, judged, IsFaultOf};
ghost use Rattle.cycle_cert.specs.Certificates.{bound_at, passage, ways_fault, place_fault, Keeps};
ghost use Rattle.cycle_cert.specs.Falling.{falls};
ghost use Rattle.cycle_cert.specs.Rows.{ways_in};

use crate::bound::Bound;
use crate::certificate::{Entry, Table};
use crate::checking::Proved;
use crate::falling::Passage;
use crate::fault::{CertFault, Rule};
use crate::rows::{Way, Ways, is_certifiable, ways_of};
use mcs48_isa::{Decoded, decode};

/// The row at a place, if its byte begins one.
fn row_at(bytes: &[u8; 2048], place: u16) -> Option<Decoded>
    requires { place < 2048 }
    ensures row { result ≡ row_at bytes.now place }
    ensures operands { IfSome result (λ row. IsOp row.op) }
    ensures few { IfSome result (λ row. row.len < 3) }
{
    let first = usize::from(place);
    decode([bytes[first], bytes[(first + 1) % 2048]])
}

/// The greatest value that a bound takes, in machine cycles; 0 if no place is certified.
fn greatest(entries: &[Entry]) -> u64
    ensures { result ≡ greatest_of entries.now }
{
    let mut greatest = 0;
    for entry in entries {
        greatest = greatest.max(entry.bound.most_cycles());
    }
    greatest
}

/// A certificate: the target, and the certified places.
#[derive(Clone, Copy)]
pub(crate) struct Certificate<'a> {
    pub(crate) target: u16,
    pub(crate) table: &'a Table,
}

impl Certificate<'_> {
    /// The bound of a path that comes to a place: nothing is left at the target. None if the place isn't known.
    fn bound_at(&self, place: u16) -> Option<Bound>
        requires { place < 2048 }
        ensures { result ≡ bound_at (said_by self.now) place }
    {
        if place == self.target {
            Some(Bound::NOTHING_LEFT)
        } else {
            self.table.bound_in(place)
        }
    }

    /// A way out of a row, with the bound before, to the bound at its end. None if its place isn't known.
    fn passage(&self, row: &Decoded, before: Bound, way: Way) -> Option<Passage>
        requires { way.to < 2048 }
        ensures { result ≡ option_map (passage row.now before way) (bound_at (said_by self.now) way.to) }
    {
        let after = self.bound_at(way.to)?;
        Some(Passage {
            op: row.op,
            cycles: row.cycles,
            when: way.when,
            before,
            after,
        })
    }

    /// The first rule that a certified place breaks by its ways out, if it breaks one.
    fn ways_fault(&self, row: &Decoded, before: Bound, ways: Ways) -> Option<Rule>
        requires first { ways.first.to < 2048 }
        requires second { ForSome ways.second (λ way. way.to < 2048) }
        ensures { result ≡ ways_fault (said_by self.now) row.now before (ways_in ways) }
    {
        let Some(first) = self.passage(row, before, ways.first) else {
            return Some(Rule::Follower);
        };
        let falls = match ways.second {
            None => first.falls(),
            Some(way) => match self.passage(row, before, way) {
                None => return Some(Rule::Follower),
                Some(second) => first.falls() && second.falls(),
            },
        };
        if falls { None } else { Some(Rule::Fall) }
    }

    /// The first rule that a certified place with its bound breaks, if it breaks one.
    fn place_fault(&self, bytes: &[u8; 2048], place: u16, before: Bound) -> Option<Rule>
        requires { place < 2048 }
        ensures { result ≡ place_fault bytes.now (said_by self.now) place before }
    {
        let Some(row) = row_at(bytes, place) else {
            return Some(Rule::Row);
        };
        if !is_certifiable(row.op) {
            return Some(Rule::Row);
        }
        self.ways_fault(&row, before, ways_of(row.op, row.len, place))
    }

    /// Judges each certified place by the program: how many there are and the greatest value of their bounds, or the
    /// first place that breaks a rule.
    pub(crate) fn judged(&self, bytes: &[u8; 2048]) -> Result<Proved, CertFault>
        requires { length self.now.table.now ≤ 65536 }
        ensures proved { IfOk result (λ proved. judged bytes.now (said_by self.now) ≡ Ok proved) }
        ensures fault { IfErr result (IsFaultOf (judged bytes.now (said_by self.now))) }
        ensures sound { IfOk result (λ _. Keeps bytes.now (said_by self.now)) }
    {
        let entries = self.table.entries();
        for entry in entries {
            if let Some(rule) = self.place_fault(bytes, entry.place, entry.bound) {
                return Err(rule.at(entry.line));
            }
        }
        Ok(Proved {
            places: entries.len() as u32,
            greatest: greatest(entries),
        })
    }
}
