//! A session: the run of a program under a history, made step by step.

ghost use Rattle.std.specs.Prelude.{◌≡◌, ◌≤◌, ◌<◌, ◌+◌, ◌-◌, ◌&&◌, ◌||◌, List, min, nat_le, false, true, if◌then◌else◌, IfOk};
ghost use Rattle.joint_feed.specs.Course.{IsOnCourse};
ghost use Rattle.debugger.specs.Sessions.{has_ended, latest_start, sitting};
ghost use Rattle.run_probes.specs.Stuck.{sticks};
ghost use Rattle.run_probes.specs.Probes.{Watch};
ghost use Rattle.debugger.specs.Advance.{IsStateAt, DecidesSessionOver};
ghost use Rattle.debugger.specs.Making.{IsAdvanced, RestAt};

use crate::debuggee::Debuggee;
use crate::striding::stride;
use board_terms::STAMP_0;
use fw_ticks::at_tick;
use int09::Bios;
use joint_feed::Course;
use joint_run::Joint;
use key_file::History;
use mcs48_core::Mcu;
use mcs48_isa::{Image, PLACES, decode};
use std::alloc::{AllocError, Global};
use std::marker::Model;

/// The run of a program under a history, as far as its steps are made. A clause sees what is debugged and how many steps
/// are made.
#[derive(Drop)]
pub struct Session {
    image: Image,
    history: History,
    course: Course,
    latest: u64,
}

impl Model for Session {
    ghost use Rattle.std.specs.Prelude.{◌≤◌};
    ghost use Rattle.joint_feed.specs.Course.{IsOnCourse};
    ghost use Rattle.joint_feed.specs.Filled.{filled_story};
    ghost use Rattle.debugger.specs.Sessions.{Sitting, latest_start};

    ghost Value = { Sitting };

    ghost view = { λ s. record { debuggee = record { story = filled_story s.course.fill s.image.bytes s.history; latest = s.latest }; steps = s.course.joint.steps } };

    ghost invariant = { λ s. IsOnCourse (filled_story s.course.fill s.image.bytes s.history) s.course × (s.latest ≤ latest_start) };
}

/// Whether a run with this end stamp, whose latest end is the cycle that is so much greater, is over at a cycle, at which
/// a tick starts or not.
fn is_end(starts: bool, cycle: u64, stop: u64, latest: u64) -> bool
    requires stop { stop ≤ 240000000 }
    requires latest { latest ≤ latest_start }
    ensures { result ≡ ((starts && nat_le (4096 + stop) cycle) || nat_le (stop + latest) cycle) }
{
    starts && cycle >= STAMP_0 + stop || cycle >= stop + latest
}

/// Whether a processor whose pin INT is high is stuck in its next step.
fn sticks(image: &Image, mcu: &Mcu) -> bool
    ensures { result ≡ sticks image.now.bytes mcu.now }
{
    let place = usize::from(mcu.pc) % PLACES;
    let next = (usize::from(mcu.pc) + 1) % PLACES;
    !mcu.takes_timer() && decode([image.bytes[place], image.bytes[next]]).is_none()
}

/// How many cycles quiet steps may take together that have this room before the run's end: as many as with one step more
/// are at most `left`; none if probes don't rest.
fn quiet_room(room: u64, left: u64, rest: bool) -> u64
    requires some { 0 < left }
    ensures within { result ≤ room }
    ensures few { result < left }
    ensures alone { rest ≡ false → result ≡ 0 }
    ensures most { result ≡ (if rest then min room (left - 1) else 0) }
{
    if rest { room.min(left - 1) } else { 0 }
}

impl Session {
    /// The run of what is debugged, at power-on. Want of memory gives it up.
    pub fn new(alloc: Global, debuggee: Debuggee) -> Result<Session, AllocError>
        ensures made { IfOk result (λ s. s ≡ sitting debuggee 0) }
    {
        let (image, history, latest, fill) = debuggee.into_parts();
        let bios = Bios::new(alloc)?;
        let course = Course::new(&image, bios, fill, &history);
        Ok(Session {
            image,
            history,
            course,
            latest,
        })
    }

    /// How many steps are made.
    pub(crate) fn steps(&self) -> u64
        ensures { result ≡ self.now.steps }
    {
        self.course.joint.steps()
    }

    /// The joint machine, in the run's state after these steps.
    pub(crate) fn joint(&self) -> &Joint
        ensures state { IsStateAt self.now result.now }
    {
        &self.course.joint
    }

    /// Whether the run is over before its next step, which is at a cycle that isn't far otherwise.
    fn is_past(&self) -> bool
        ensures { DecidesSessionOver self.now result }
    {
        let starts = at_tick(&self.course.joint);
        let cycle = self.course.joint.cycle();
        is_end(starts, cycle, self.history.end(), self.latest)
    }

    /// Whether the run has ended.
    pub(crate) fn has_ended(&self) -> bool
        ensures { result ≡ has_ended self.now.debuggee self.now.steps }
    {
        self.is_past() || sticks(&self.image, self.course.joint.mcu())
    }

    /// Makes steps, if the run goes on, at most `left`: one; or, if probes rest, quiet ones before it as well.
    pub(crate) fn advance(&mut self, left: u64, rest: bool)
        requires some { 0 < left }
        ensures debuggee { self.new.debuggee ≡ self.old.debuggee }
        ensures advanced { (before : List Watch) → (rest ≡ true → RestAt self.old.debuggee self.old.steps before)
            → IsAdvanced self.old.debuggee left self.old.steps before self.new.steps }
    {
        if self.is_past() {
            return;
        }
        let room = self.history.end() + self.latest - 1 - self.course.joint.cycle();
        let most = quiet_room(room, left, rest);
        let _ = stride(&mut self.course, &self.history, most);
    }
}
