//! When a key that is held down repeats, at every rate.

use crate::model::Bench;
use board_terms::Place;
use layout_reader::us84_layout;
use std::test::Fail;

/// 250 ms and its multiples up to 1 s, in ticks of 5.12 ms.
pub(crate) const DELAYS: [u8; 4] = [49, 98, 146, 195];

/// (8 + A) * 2^B * 4.17 ms, in ticks of 5.12 ms, one line for each B.
pub(crate) const PERIODS: [u8; 32] = [
    7, 7, 8, 9, 10, 11, 11, 12, //
    13, 15, 16, 18, 20, 21, 23, 24, //
    26, 29, 33, 36, 39, 42, 46, 49, //
    52, 59, 65, 72, 78, 85, 91, 98,
];

/// The ticks from a press to the first repeat, and from one repeat to the next.
#[derive(Clone, Copy, PartialEq, Eq, Drop)]
pub(crate) struct Timing {
    pub delay: u8,
    pub period: u8,
}

/// The timing of a rate byte.
pub(crate) fn timing_of(rate: u8) -> Timing {
    Timing {
        delay: DELAYS[usize::from(rate / 32 % 4)],
        period: PERIODS[usize::from(rate % 32)],
    }
}

/// How many ticks it is from a tick in which a byte came to be offered, which is sent, until one is offered again. It is 0 if
/// nothing is offered in 255 ticks.
fn ticks_to_next(bench: &mut Bench) -> u8 {
    if bench.send().is_none() {
        return 0;
    }
    for ticks in 1..255 {
        if bench.offer().is_some() {
            return ticks;
        }
        bench.wait(false);
    }
    0
}

/// The timing of a key that goes down now, if nothing is offered before. Its first byte is offered in that tick.
pub(crate) fn measured(bench: &mut Bench, place: Place) -> Option<Timing> {
    if bench.offer().is_some() || !bench.key(place, true, false) {
        return None;
    }
    let delay = ticks_to_next(bench);
    let period = ticks_to_next(bench);
    Some(Timing { delay, period })
}

#[test]
fn delay_and_period_are_the_manuals_at_every_rate(rt: HostRuntime) -> Result<(), Fail> {
    let place = Place::at(3, 5).ok_or("a place")?;
    let layout = us84_layout(rt.alloc())?;
    let mut bench = Bench::new(layout, 0);
    for rate in 0..128u8 {
        bench.power_on(rate);
        assert!(rt; bench.test(), "rate {rate}");
        assert!(rt;
            measured(&mut bench, place) == Some(timing_of(rate)),
            "rate {rate}"
        );
    }
    assert!(rt; timing_of(0x2c).delay == 98 && timing_of(0x2c).period == 20);
    Ok(())
}
