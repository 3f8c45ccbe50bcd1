//! What is heard on the two wires: falls of the clock, and the bytes that eleven of them are.

ghost use Rattle.std.specs.Prelude.{◌≡◌, Some};
ghost use Rattle.run_probes.specs.Kept.{sample_kept};
ghost use Rattle.run_probes.specs.Transfers.{are_spaced, are_spaced_after, sample, transfer_by, with_fall};

use arrayvec::ArrayVec;
use board_terms::{Frame, Lines, Transfer, byte_of};

/// The wires, after so many cycles.
#[derive(Clone, Copy, Drop)]
pub struct Sample {
    pub cycle: u64,
    pub lines: Lines,
}

/// What is kept of the last sample: of one with both wires high, as most are, its cycle alone.
#[derive(Clone, Copy, Drop)]
pub(crate) enum Kept {
    /// There was none.
    Silence,
    /// Both wires were high, after so many cycles.
    High(u64),
    /// Any sample.
    Whole(Sample),
}

impl Kept {
    /// Of the wires as they are after so many cycles.
    pub(crate) fn of(cycle: u64, lines: Lines) -> Kept
        ensures { sample_kept result ≡ Some (sample cycle lines) }
    {
        if lines.clk && lines.dat {
            Kept::High(cycle)
        } else {
            Kept::Whole(Sample { cycle, lines })
        }
    }
}

/// A fall of the clock: how many cycles are done then, and the level of the data wire.
#[derive(Clone, Copy, Default, Drop)]
pub struct Fall {
    pub cycle: u64,
    pub dat: bool,
}

/// The last eleven falls, with one more.
pub(crate) fn push_fall(falls: &mut ArrayVec<Fall, 11>, fall: Fall)
    ensures { falls.new.items ≡ with_fall fall falls.old.items }
{
    if falls.is_full() {
        let _ = falls.remove(0);
    }
    falls.push(fall);
}

/// Whether each of these falls is 32 cycles after the one before it, the first after this cycle.
fn are_spaced_after(cycle: u64, falls: &[Fall]) -> bool
    ensures { result ≡ are_spaced_after cycle falls.now }
{
    match falls {
        [] => true,
        [fall, rest @ ..] => {
            fall.cycle >= cycle && fall.cycle - cycle == 32 && are_spaced_after(fall.cycle, rest)
        }
    }
}

/// Whether each of these falls is 32 cycles after the one before it.
fn are_spaced(falls: &[Fall]) -> bool
    ensures { result ≡ are_spaced falls.now }
{
    match falls {
        [] => true,
        [fall, rest @ ..] => are_spaced_after(fall.cycle, rest),
    }
}

/// The transfer that these falls are, if there are eleven and they are one: the data wire at them is the keyboard's frame of
/// a byte; or the host's, whose start bit is before its first fall, and in whose last bit the keyboard pulls data low.
#[tactic(auto, unfolding(board_terms::specs::Frame::byte_of))]
pub(crate) fn transfer_by(falls: &[Fall]) -> Option<Transfer>
    ensures { result ≡ transfer_by falls.now }
{
    let [f0, f1, f2, f3, f4, f5, f6, f7, f8, f9, f10] = falls else {
        return None;
    };
    if !are_spaced(falls) {
        return None;
    }
    let bits = [
        f0.dat, f1.dat, f2.dat, f3.dat, f4.dat, f5.dat, f6.dat, f7.dat, f8.dat, f9.dat, f10.dat,
    ];
    if let Some(byte) = byte_of(Frame { bits }) {
        return Some(Transfer {
            from_host: false,
            byte,
        });
    }
    if f10.dat {
        return None;
    }
    let bits = [
        false, f0.dat, f1.dat, f2.dat, f3.dat, f4.dat, f5.dat, f6.dat, f7.dat, f8.dat, f9.dat,
    ];
    let byte = byte_of(Frame { bits })?;
    Some(Transfer {
        from_host: true,
        byte,
    })
}
