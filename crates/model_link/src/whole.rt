//! A tick of keyboard and PC together.

ghost use Rattle.std.specs.Prelude.{◌≡◌};
ghost use Rattle.model_link.specs.Machine.{met_as as met_as_of};

use crate::debouncing::Debouncing;
use crate::layering::Layering;
use crate::running::Running;
use crate::seeing::tick_edges;
use board_terms::{Edge, HostEvent, Place, STAMP_0};
use host_turn::Stamped;
use layout_reader::Layout;
use model_controller::{Meeting, meeting_of};
use model_keyboard::{Meeting as KeyboardMeeting, TickModel};
use std::alloc::{AllocError, Global};
use std::marker::Model;

/// The offset at which the lights are put.
const LIGHTS: u64 = 232;

/// The offset of the first look at the link.
const LOOK: u64 = 256;

/// The offset at which a byte begins.
const MEETING: u64 = 288;

/// The offset after the cycle in which a byte ends.
const REST: u64 = 609;

/// The keyboard, the layers of its keys' presses, its switches, the PC's side, and the lights shown. A clause sees it as a
/// `Whole`.
#[derive(Drop)]
pub(crate) struct Together {
    keys: TickModel,
    layers: Layering,
    switches: Debouncing,
    side: Running,
    shown: u8,
}

impl Model for Together {
    ghost use Rattle.model_link.specs.Expected.{Whole};
    ghost use Rattle.model_link.specs.Machine.{LayeredKeyboard};

    ghost Value = { Whole LayeredKeyboard };

    ghost view = { λ w. record {
      keys = record { keyboard = w.keys; layers = w.layers; switches = w.switches };
      side = w.side;
      shown = w.shown;
    } };
}

impl Running {
    ghost use Rattle.std.specs.Prelude.{◌≡◌, ◌+◌, ◌-◌, ◌≤◌, ◌<◌, ◌^◌, IfOk};
    ghost use Rattle.model_controller.specs.ByteTime.{ended_as, meeting_in};
    ghost use Rattle.model_link.specs.Expected.{to_look, to_meeting, from_meeting};

    /// A tick's cycles up to its first look at the link.
    fn look(
        &mut self,
        events: &[HostEvent],
        start: u64,
        shown: u8,
        lights: u8,
    ) -> Result<(), AllocError>
        requires near { start < 2 ^ 62 }
        ensures { IfOk result (λ u. self.new ≡ to_look events.now shown lights start self.old) }
    {
        self.run_on(events, start, start + LIGHTS)?;
        self.say_lights(start + LIGHTS, shown, lights)?;
        self.run_on(events, start + LIGHTS, start + LOOK)?;
        Ok(())
    }

    /// The cycles from there to the tick's end, by whether the keyboard's test has ended and what it offers. Answers
    /// the meeting.
    fn meet(
        &mut self,
        events: &[HostEvent],
        start: u64,
        end: u64,
        tested: bool,
        offer: Option<u8>,
    ) -> Result<Meeting, AllocError>
        requires long { start + 609 ≤ end }
        requires near { end < 2 ^ 62 }
        ensures meeting { IfOk result (λ m.
            let later = to_meeting events.now start self.old in
            m ≡ ended_as events.now (meeting_in tested offer self.old later) (288 + start) later) }
        ensures side { IfOk result (λ m.
            let later = to_meeting events.now start self.old in
            let begins = meeting_in tested offer self.old later in
            self.new ≡ from_meeting events.now start (end - start - 609) begins later) }
    {
        let earlier = self.link();
        self.run_on(events, start + LOOK, start + MEETING)?;
        let begins = meeting_of(tested, offer, earlier, self.link());
        let meeting = self.carry(events, begins, start + MEETING)?;
        self.run_on(events, start + REST, end)?;
        Ok(meeting)
    }
}

impl Together {
    ghost use Rattle.std.specs.Prelude.{◌≡◌, ◌+◌, ◌-◌, ◌≤◌, ◌<◌, ◌^◌, length, All, IfOk};
    ghost use Rattle.std.specs.Option.{ForSome};
    ghost use Rattle.host_turn.specs.Run.{side_at_start};
    ghost use Rattle.model_controller.specs.declared.UnderWay.{UnderWay};
    ghost use Rattle.layout_reader.specs.Layouts.{HasEntry};
    ghost use Rattle.model_keyboard.specs.Codes.{HasCode};
    ghost use Rattle.model_keyboard.specs.Keyboard.{at_power_on};
    ghost use Rattle.model_keyboard.specs.Layers.{no_layers};
    ghost use Rattle.board_terms.specs.Cadence.{KeepsCadenceTo, listed};
    ghost use Rattle.board_terms.specs.Edges.{AreInOrder};
    ghost use Rattle.model_controller.specs.ByteTime.{quietly};
    ghost use Rattle.model_link.specs.Expected.{whole_tick, next_tick};
    ghost use Rattle.model_link.specs.Debounce.{all_open, AreKnown};
    ghost use Rattle.model_link.specs.Machine.{keyboard};

    /// At power-on, with a layout's rate byte.
    pub(crate) fn new(alloc: Global, rate: u8) -> Result<Together, AllocError>
        ensures { IfOk result (λ w. w ≡ record { keys = record { keyboard = at_power_on rate; layers = no_layers; switches = all_open }; side = side_at_start UnderWay; shown = 0 }) }
    {
        Ok(Together {
            keys: TickModel::power_on(rate),
            layers: Layering::new(),
            switches: Debouncing::new(),
            side: Running::new(alloc)?,
            shown: 0,
        })
    }

    /// A tick from its first cycle up to that of the next, with the edges that its reading shows.
    fn tick(
        &mut self,
        alloc: Global,
        layout: &Layout,
        events: &[HostEvent],
        changes: &[(Place, bool)],
        start: u64,
        end: u64,
    ) -> Result<(), AllocError>
        requires long { start + 609 ≤ end }
        requires near { end < 2 ^ 62 }
        requires repeats { ForSome self.old.keys.keyboard.repeats (λ r. HasCode layout.now r.place) }
        requires edges { All (λ c. HasEntry layout.now c.0) changes.now }
        requires switches { AreKnown layout.now self.old.keys.switches }
        ensures ticked { IfOk result (λ u. self.new ≡ whole_tick (keyboard layout.now) events.now changes.now start (end - start - 609) self.old) }
        ensures known { IfOk result (λ u. ForSome self.new.keys.keyboard.repeats (λ r. HasCode layout.now r.place)) }
        ensures keys { IfOk result (λ u. AreKnown layout.now self.new.keys.switches) }
    {
        let lights = self.keys.lights();
        self.side.look(events, start, self.shown, lights)?;
        let meeting = self
            .side
            .meet(events, start, end, self.keys.tested(), self.keys.offer())?;
        let taken = self.switches.follow(alloc, changes, layout.debounces())?;
        let edges = self.layers.follow(alloc, taken.as_slice(), layout)?;
        self.keys.advance(met_as(meeting), edges.as_slice(), layout);
        self.shown = lights;
        Ok(())
    }

    /// The cycles from stamp 0 up to the first tick.
    pub(crate) fn wait(&mut self, host: &[HostEvent], end: u64) -> Result<(), AllocError>
        requires { 4096 ≤ end }
        ensures { IfOk result (λ u. self.new ≡ record self.old { side = quietly host.now (end - 4096) 4096 self.old.side }) }
    {
        self.side.run_on(host, STAMP_0, end)?;
        Ok(())
    }

    /// Tick n, of ticks with these starts.
    pub(crate) fn next(
        &mut self,
        alloc: Global,
        layout: &Layout,
        edges: &[Edge],
        host: &[HostEvent],
        starts: &[u64],
        n: usize,
    ) -> Result<(), AllocError>
        requires order { AreInOrder edges.now }
        requires keys { All (λ e. HasEntry layout.now e.place) edges.now }
        requires within { n + 1 < length starts.now }
        requires near { length starts.now < 2 ^ 32 }
        requires cadence { KeepsCadenceTo (listed starts.now) (length starts.now - 1) }
        requires repeats { ForSome self.old.keys.keyboard.repeats (λ r. HasCode layout.now r.place) }
        requires switches { AreKnown layout.now self.old.keys.switches }
        ensures ticked { IfOk result (λ u. self.new ≡ next_tick (keyboard layout.now) edges.now host.now (listed starts.now) n self.old) }
        ensures known { IfOk result (λ u. ForSome self.new.keys.keyboard.repeats (λ r. HasCode layout.now r.place)) }
        ensures switched { IfOk result (λ u. AreKnown layout.now self.new.keys.switches) }
    {
        let seen = tick_edges(alloc, edges, starts, n)?;
        let start = STAMP_0 + starts[n];
        let end = STAMP_0 + starts[n + 1];
        self.tick(alloc, layout, host, seen.as_slice(), start, end)?;
        Ok(())
    }

    /// What was said so far, with its cycles.
    pub(crate) fn log(&self) -> &[Stamped]
        ensures { result.now ≡ self.now.side.log }
    {
        self.side.log()
    }
}

/// A meeting as the keyboard knows it: a byte that it gets has right parity.
fn met_as(meeting: Meeting) -> KeyboardMeeting
    ensures { result ≡ met_as_of meeting }
{
    match meeting {
        Meeting::Got(byte) => KeyboardMeeting::Got(byte, true),
        Meeting::Inhibited => KeyboardMeeting::Inhibited,
        Meeting::Idle => KeyboardMeeting::Idle,
        Meeting::Sent(_) => KeyboardMeeting::Sent,
        Meeting::Cut => KeyboardMeeting::Cut,
    }
}
