//! Laws over two commands.

ghost use Rattle.kbd48_app.specs.BoardSays.{BoardSaysRun, BoardTracesRun};
ghost use Rattle.kbd48_app.specs.PrintAlike.{RunAndExpectPrintAlike};

use law_runs_agree::boards_say_runs;

/// `run` without options and `expect`, over two files: what one may answer, over any shelf, the other may, and over a
/// shelf that tells its files both print one text. Nothing is done when it is called; the law is its contract.
pub fn run_and_expect_print_alike()
    ensures alike { RunAndExpectPrintAlike }
{}

/// `board` of the image that `compile` makes of a layout, and `run` of the layout without options, under a history that is
/// accepted for it: the log of `board` has a line for each item that `run` says up to the end stamp, in the same order, with
/// its stamp in place of its tick, and nothing follows it. And the text of `trace` begins with that of `board --trace`,
/// and that of `trace --seen` with that of `board --seen`.
/// Nothing is done when it is called; the law is its contract.
pub fn board_says_run()
    ensures report { BoardSaysRun }
    ensures trace { BoardTracesRun }
{
    boards_say_runs();
}
