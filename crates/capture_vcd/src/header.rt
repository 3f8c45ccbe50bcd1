//! What a token of the header says.

ghost use Rattle.std.specs.Prelude.{◌≡◌};
ghost use Rattle.capture_vcd.specs.Sections.{begun, counted, defined, in_part, inside, named, signal, skipped, taken_in_header, with_signal, with_unit};

use crate::fault::Rule;
use crate::keyword::{Keyword, is_end, keyword_in};
use crate::number::code;
use crate::part::Part;
use crate::state::State;
use crate::unit::{Unit, count_in, unit_in, unit_with};

/// The names of the two wires.
#[derive(Clone, Copy)]
pub(crate) struct Names<'a> {
    pub(crate) clk: &'a [u8],
    pub(crate) dat: &'a [u8],
}

/// The code of a wire, with one more signal of its name, which has this code.
fn signal(before: Option<u64>, is_one: bool, code: Option<u64>) -> Result<Option<u64>, Rule>
    ensures { result ≡ signal before is_one code }
{
    if before.is_some() {
        Err(Rule::Twice)
    } else if !is_one {
        Err(Rule::Width)
    } else if code.is_none() {
        Err(Rule::Form)
    } else {
        Ok(code)
    }
}

/// The code of a wire after a signal: that of the signal, if it has the wire's name.
fn named(
    is_named: bool,
    before: Option<u64>,
    is_one: bool,
    code: Option<u64>,
) -> Result<Option<u64>, Rule>
    ensures { result ≡ named is_named before is_one code }
{
    if is_named {
        signal(before, is_one, code)
    } else {
        Ok(before)
    }
}

impl State {
    /// The same in another part.
    pub(crate) fn in_part(self, part: Part) -> State
        ensures { result ≡ in_part part self }
    {
        State { part, ..self }
    }

    /// In the next part of a section, if the token doesn't end it.
    fn inside(self, part: Part, text: &[u8]) -> Result<State, Rule>
        ensures { result ≡ inside part text.now self }
    {
        if is_end(text) {
            Err(Rule::Form)
        } else {
            Ok(self.in_part(part))
        }
    }

    /// With the unit of time.
    fn with_unit(self, unit: Option<Unit>) -> Result<State, Rule>
        ensures { result ≡ with_unit unit self }
    {
        if unit.is_none() {
            return Err(Rule::Unit);
        }
        Ok(State {
            part: Part::Section,
            unit,
            ..self
        })
    }

    /// With a signal of this name.
    fn with_signal(
        self,
        names: Names<'_>,
        is_one: bool,
        code: Option<u64>,
        name: &[u8],
    ) -> Result<State, Rule>
        ensures { result ≡ with_signal names.entry.clk.now names.entry.dat.now is_one code name.now self }
    {
        let clk = named(name == names.clk, self.clk, is_one, code)?;
        let dat = named(name == names.dat, self.dat, is_one, code)?;
        Ok(State {
            part: Part::Section,
            clk,
            dat,
            ..self
        })
    }

    /// At the header's last section, if nothing is missing.
    fn defined(self) -> Result<State, Rule>
        ensures { result ≡ defined self }
    {
        if self.unit.is_none() {
            Err(Rule::NoUnit)
        } else if self.clk.is_none() {
            Err(Rule::NoClock)
        } else if self.dat.is_none() {
            Err(Rule::NoData)
        } else {
            Ok(self.in_part(Part::Definitions))
        }
    }

    /// In the section that a token begins.
    fn begun(self, text: &[u8]) -> Result<State, Rule>
        ensures { result ≡ begun text.now self }
    {
        match keyword_in(text) {
            Some(Keyword::Timescale) => Ok(self.in_part(Part::Timescale)),
            Some(Keyword::Var) => Ok(self.in_part(Part::Kind)),
            Some(Keyword::Enddefinitions) => self.defined(),
            Some(Keyword::Other) => Ok(self.in_part(Part::Section)),
            None => Err(Rule::Form),
        }
    }

    /// With the unit of time, or after its count.
    fn counted(self, text: &[u8]) -> Result<State, Rule>
        ensures { result ≡ counted text.now self }
    {
        match count_in(text) {
            Some(count) => Ok(self.in_part(Part::Measure(count))),
            None => self.with_unit(unit_in(text)),
        }
    }

    /// After a token of a section, which may end it; then this part follows.
    pub(crate) fn skipped(self, after: Part, text: &[u8]) -> State
        ensures { result ≡ skipped after text.now self }
    {
        if is_end(text) {
            self.in_part(after)
        } else {
            self
        }
    }

    /// After a token of the header.
    pub(crate) fn taken_in_header(self, names: Names<'_>, text: &[u8]) -> Result<State, Rule>
        ensures { result ≡ taken_in_header self.part names.entry.clk.now names.entry.dat.now text.now self }
    {
        match self.part {
            Part::Outside => self.begun(text),
            Part::Section => Ok(self.skipped(Part::Outside, text)),
            Part::Timescale => self.counted(text),
            Part::Measure(count) => self.with_unit(unit_with(count, text)),
            Part::Kind => self.inside(Part::Width, text),
            Part::Width => self.inside(Part::Code(text == b"1".as_slice()), text),
            Part::Code(is_one) => self.inside(Part::Name(is_one, code(text)), text),
            Part::Name(is_one, code) => self.with_signal(names, is_one, code, text),
            Part::Definitions => Ok(self.skipped(Part::Body, text)),
            _ => Err(Rule::Form),
        }
    }
}
