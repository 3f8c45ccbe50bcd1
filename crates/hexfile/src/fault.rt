//! Why a text is no HEX file.

ghost use Rattle.std.specs.Prelude.{◌≡◌};
ghost use Rattle.hexfile.specs.Rules.{number_of};

/// Where a text breaks the rules of HEX: the line, counted from 1, and the number of the rule.
///
/// The numbers are 1 form, 2 sum, 3 type, 4 address, 5 overlap, 6 no end, 7 a line after the end. The line of number 6
/// is the number of lines plus one.
#[derive(Clone, Copy, Debug, PartialEq, Eq, Drop)]
pub struct HexFault {
    pub line: u32,
    pub number: u8,
}

/// A rule of HEX.
#[derive(Clone, Copy, Drop)]
pub(crate) enum Rule {
    /// A line is a colon and the digits of its bytes, as many as its count says.
    Form,
    /// The bytes of a line sum to 0 modulo 256.
    Sum,
    /// A line has a known type, and the bytes that its type asks for.
    Kind,
    /// No byte of data is past the last place.
    Address,
    /// No place is given twice.
    Overlap,
    /// A text has an end.
    NoEnd,
    /// No line that isn't empty follows the end.
    AfterEnd,
}

/// The number of a rule.
pub(crate) fn number_of(rule: Rule) -> u8
    ensures { result ≡ number_of rule }
{
    match rule {
        Rule::Form => 1,
        Rule::Sum => 2,
        Rule::Kind => 3,
        Rule::Address => 4,
        Rule::Overlap => 5,
        Rule::NoEnd => 6,
        Rule::AfterEnd => 7,
    }
}
