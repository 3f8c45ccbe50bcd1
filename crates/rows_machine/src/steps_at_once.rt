//! Steps made at once beside single steps, state by state.

use crate::alike::are_one;
use crate::joint_steps::{nothing, program, take_off};
use board_terms::{Edge, HostAct, HostEvent, Place};
use int09::Bios;
use joint_glide::{NOWHERE, go_on};
use joint_run::{Due, Joint, Seen};
use mcs48_isa::Image;
use std::alloc::{AllocError, Global};
use std::test::Fail;

/// Bytes that begin instructions: those of flow, ports, timer and accumulator.
const BEGINNINGS: [u8; 32] = [
    0x00, 0x04, 0x04, 0x08, 0x0a, 0x14, 0x16, 0x17, 0x23, 0x25, 0x26, 0x27, 0x36, 0x37, 0x39, 0x3a,
    0x42, 0x45, 0x46, 0x55, 0x56, 0x62, 0x77, 0x83, 0x8a, 0x93, 0x96, 0x9a, 0xbf, 0xc6, 0xef, 0xf8,
];

/// The next byte of a row that begins with a seed.
fn draw(seed: &mut u32) -> u8 {
    *seed = seed.wrapping_mul(1_664_525).wrapping_add(1_013_904_223);
    seed.to_be_bytes()[0]
}

/// A program by chance, with jumps to where they are in it.
fn any_program(seed: &mut u32) -> Image {
    let mut image = program(&[]);
    for i in 0..2048 {
        image.bytes[i] = BEGINNINGS[draw(seed) as usize % 32];
    }
    for _ in 0..24 {
        let at = draw(seed);
        image.bytes[at as usize] = 0x04;
        image.bytes[at as usize + 1] = at;
    }
    image
}

/// What the host does, by chance.
fn any_act(seed: &mut u32) -> HostAct {
    let byte = draw(seed);
    match draw(seed) % 8 {
        0 => HostAct::Write60(byte),
        1 => HostAct::Write64(byte),
        2 => HostAct::Write64(0xae),
        3 => HostAct::Read60,
        4 => HostAct::Mask,
        5 => HostAct::Unmask,
        6 => HostAct::Flip(1 + byte % 9),
        _ => HostAct::Status,
    }
}

/// An edge and an event more, by chance, that are to come soon after this cycle.
fn any_more(due: &mut Due, seed: &mut u32, cycle: u64) {
    let stamp = cycle.saturating_sub(4096).saturating_add(draw(seed) as u64);
    if draw(seed) < 40 {
        if let Some(place) = Place::at(draw(seed) % 12, draw(seed) % 8) {
            let down = draw(seed) < 128;
            let _ = due.edges.try_push(Edge { stamp, place, down });
        }
    }
    if draw(seed) < 60 {
        let act = any_act(seed);
        let _ = due.host.try_push(HostEvent { stamp, act });
    }
}

/// Whether two steps took as much, said the same and left the wires at the same levels.
fn say_the_same(seen: &Seen, other: &Seen) -> bool {
    (seen.cycles, seen.edges, seen.host) == (other.cycles, other.edges, other.host)
        && seen.lines == other.lines
        && seen.items.as_slice() == other.items.as_slice()
}

/// Whether a step took nothing and said nothing.
fn is_quiet(seen: &Seen) -> bool {
    (seen.edges, seen.host) == (0, 0) && seen.items.is_empty()
}

/// Makes single steps, up to as many as the other machine has made at once. Answers whether those before the last take
/// nothing, say nothing, and don't lead to the place, and the last one says the same and leads to the same state.
fn follows(alone: &mut Joint, glided: &Joint, due: &Due, reported: &Seen, place: u16) -> bool {
    for _ in 0..100_000 {
        if alone.cycle() >= 100_000_000 {
            return false;
        }
        let Ok(seen) = alone.step(due) else {
            return false;
        };
        if alone.steps() >= glided.steps() {
            return say_the_same(&seen, reported) && are_one(alone, glided);
        }
        if !is_quiet(&seen) || alone.mcu().pc % 2048 == place {
            return false;
        }
    }
    false
}

/// Makes single steps, up to where the other machine is stuck. Answers whether this one is stuck there too.
fn follows_to_end(alone: &mut Joint, glided: &Joint, due: &Due) -> bool {
    for _ in 0..100_000 {
        if alone.cycle() >= 100_000_000 {
            return false;
        }
        if alone.step(due).is_err() {
            return are_one(alone, glided);
        }
    }
    false
}

/// Steps at once of one machine, and single steps of the other beside them: up to the first stamp in few turns, and then with
/// events by chance.
#[derive(Drop)]
struct Pair {
    alone: Joint,
    glided: Joint,
    due: Due,
    seen: Seen,
    taken: u32,
}

impl Pair {
    /// Both machines at power-on.
    fn new(alloc: Global, image: &Image) -> Result<Pair, AllocError> {
        Ok(Pair {
            alone: Joint::power_on(image, Bios::new(alloc)?),
            glided: Joint::power_on(image, Bios::new(alloc)?),
            due: nothing(),
            seen: Seen::nothing(),
            taken: 0,
        })
    }

    /// Steps at once, and as many single steps. Answers whether they agree, and whether both machines are stuck in the end.
    fn go_on(&mut self, place: u16, most: u64) -> (bool, bool) {
        let from = self.glided.cycle();
        if from >= 100_000_000 || most >= 100_000 {
            return (false, false);
        }
        if go_on(&mut self.glided, &self.due, &mut self.seen, place, most).is_err() {
            return (
                follows_to_end(&mut self.alone, &self.glided, &self.due),
                true,
            );
        }
        let agree = self.glided.cycle() <= from + most + 2
            && follows(&mut self.alone, &self.glided, &self.due, &self.seen, place);
        take_off(&mut self.due, &self.seen);
        let taken = u32::from(self.seen.edges).saturating_add(u32::from(self.seen.host));
        self.taken = self.taken.saturating_add(taken);
        (agree, false)
    }

    /// Many such turns. Answers whether they agree.
    fn go_along(&mut self, seed: &mut u32) -> bool {
        for _ in 0..160 {
            let from = self.glided.cycle();
            // up to the first stamp in few turns
            let (agree, stuck) = if from < 4096 {
                self.go_on(NOWHERE, 4096 - from)
            } else {
                any_more(&mut self.due, seed, from);
                self.go_on(u16::from(draw(seed)), u64::from(draw(seed)))
            };
            if stuck || !agree {
                return agree;
            }
        }
        true
    }
}

#[test]
fn steps_at_once_are_single_steps_of_any_program_under_any_events(
    rt: HostRuntime,
) -> Result<(), Fail> {
    let mut seed = 48;
    let mut taken: u32 = 0;
    for program in 0..24 {
        let mut pair = Pair::new(rt.alloc(), &any_program(&mut seed))?;
        assert!(rt; pair.go_along(&mut seed), "program {program}");
        taken = taken.saturating_add(pair.taken);
    }
    // most programs come to where events are due
    assert!(rt; taken > 300);
    Ok(())
}

/// MOV A,#F0H; MOV T,A; EN TCNTI; STRT T; JMP 005 over and over, up to 007, the timer's place: 16 times 32 cycles.
#[test]
fn a_jump_in_place_is_left_where_the_timer_interrupts(rt: HostRuntime) -> Result<(), Fail> {
    let image = program(&[0x23, 0xf0, 0x62, 0x25, 0x55, 0x04, 0x05, 0x93]);
    let mut pair = Pair::new(rt.alloc(), &image)?;
    assert!(rt; pair.go_on(7, 10_000) == (true, false));
    let mcu = pair.glided.mcu();
    assert!(rt; mcu.pc == 7 && mcu.svc && pair.glided.steps() > 250);
    Ok(())
}
