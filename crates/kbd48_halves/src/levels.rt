//! The levels of the two wires as a number.

ghost use Rattle.std.specs.Prelude.{◌≡◌, ◌<◌};
ghost use Rattle.kbd48_halves.specs.Words.{levels_of, lines_in};

use board_terms::Lines;

/// The levels in bits 0 and 1 of a number.
#[inline(always)]
pub(crate) fn lines_in(levels: u32) -> Lines
    ensures { result ≡ lines_in levels }
{
    Lines {
        clk: levels % 2 == 1,
        dat: levels / 2 % 2 == 1,
    }
}

/// The levels as a number.
#[inline(always)]
pub(crate) fn levels_of(line: Lines) -> u32
    ensures number { result ≡ levels_of line }
    ensures few { result < 4 }
{
    match (line.clk, line.dat) {
        (false, false) => 0,
        (true, false) => 1,
        (false, true) => 2,
        (true, true) => 3,
    }
}
