//! Why a text is no value change dump of two wires.

ghost use Rattle.std.specs.Prelude.{◌≡◌};
ghost use Rattle.capture_vcd.specs.Faults.{number_of, at_line};

/// Where a text breaks the rules of a value change dump: the line, counted from 1, and the number of the rule.
///
/// The numbers are 1 form, 2 a unit of time that isn't 1 ns to 10 µs, 3 no unit of time, 4 a signal named twice, 5 a
/// signal of more bits than one, 6 no signal with the clock's name, 7 none with the data's, 8 a time before the last
/// one, 9 a level that is neither 0 nor 1. A text that ends within its header, a section or a value has number 10, at
/// its number of lines plus one.
#[derive(Clone, Copy, Debug, PartialEq, Eq, Drop)]
pub struct VcdFault {
    pub line: u32,
    pub number: u8,
}

/// A rule of value change dumps.
#[derive(Clone, Copy, Drop)]
pub(crate) enum Rule {
    /// A token has its form.
    Form,
    /// The unit of time is 1 ns, 10 ns, 100 ns, 1 µs or 10 µs.
    Unit,
    /// The header says the unit of time.
    NoUnit,
    /// Neither wire's name is there twice.
    Twice,
    /// Each wire has one bit.
    Width,
    /// There is a signal with the clock's name.
    NoClock,
    /// There is a signal with the data wire's name.
    NoData,
    /// No time is before the last one.
    Back,
    /// A wire is 0 or 1.
    Unknown,
    /// The text ends after its header, and within no section and no value.
    Unfinished,
}

impl Rule {
    /// The number by which a message names the rule.
    fn number(self) -> u8
        ensures { result ≡ number_of self }
    {
        match self {
            Rule::Form => 1,
            Rule::Unit => 2,
            Rule::NoUnit => 3,
            Rule::Twice => 4,
            Rule::Width => 5,
            Rule::NoClock => 6,
            Rule::NoData => 7,
            Rule::Back => 8,
            Rule::Unknown => 9,
            Rule::Unfinished => 10,
        }
    }

    /// The rule, broken at a line.
    pub(crate) fn at(self, line: u32) -> VcdFault
        ensures { result ≡ at_line line self }
    {
        VcdFault {
            line,
            number: self.number(),
        }
    }
}
