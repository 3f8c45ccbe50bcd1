//! The model's keyboard with its layout, tick by tick, and worked examples of its keys.

ghost use Rattle.std.specs.Option.{ForSome};
ghost use Rattle.model_keyboard.specs.Codes.{HasCode};

use board_terms::Place;
use layout_reader::{Layout, read_layout, us84_layout};
use model_keyboard::{Meeting, TickEdge, TickModel};
use std::process::Abort;
use std::test::Fail;

/// The ticks of the power-on test.
const TEST_TICKS: u8 = 64;

/// A keyboard and its layout. A key that repeats has a code there.
#[derive(Drop)]
pub(crate) struct Bench {
    layout: Layout,
    model: TickModel,
    ghost known: { ForSome model.repeats (λ r. HasCode layout r.place) },
}

impl Bench {
    /// A keyboard at power-on, with this rate byte.
    pub(crate) fn new(layout: Layout, rate: u8) -> Bench {
        Bench {
            layout,
            model: TickModel::power_on(rate),
        }
    }

    /// The keyboard is switched off and on again, with this rate byte.
    pub(crate) fn power_on(&mut self, rate: u8) {
        self.model = TickModel::power_on(rate);
    }

    /// The byte that is offered to the line.
    pub(crate) fn offer(&self) -> Option<u8> {
        self.model.offer()
    }

    /// The lights.
    pub(crate) fn lights(&self) -> u8 {
        self.model.lights()
    }

    /// Whether the power-on test is over.
    pub(crate) fn tested(&self) -> bool {
        self.model.tested()
    }

    /// A tick in which nothing meets, or the line is inhibited.
    pub(crate) fn wait(&mut self, inhibited: bool) {
        if inhibited {
            self.model.advance(Meeting::Inhibited, &[], &self.layout);
        } else {
            self.model.advance(Meeting::Idle, &[], &self.layout);
        }
    }

    /// So many ticks in which nothing meets.
    pub(crate) fn wait_for(&mut self, ticks: u8) {
        for _ in 0..ticks {
            self.wait(false);
        }
    }

    /// A tick in which a byte comes from the system, with right parity or wrong.
    pub(crate) fn receive(&mut self, byte: u8, good: bool) {
        self.model
            .advance(Meeting::Got(byte, good), &[], &self.layout);
    }

    /// A tick in which the offered byte is sent, if there is one. Returns that byte.
    pub(crate) fn send(&mut self) -> Option<u8> {
        let offered = self.model.offer();
        if offered.is_some() {
            self.model.advance(Meeting::Sent, &[], &self.layout);
        }
        offered
    }

    /// A tick in which a key that sends something goes down or up, in the layer of its press. Returns whether there is such a
    /// key.
    #[tactic(auto, using(model_keyboard::proofs::Silent::has_entry))]
    pub(crate) fn key(&mut self, place: Place, down: bool, on_fn: bool) -> bool {
        match self.layout.code_at(place) {
            Some(_) => {
                let edge = TickEdge { place, down, on_fn };
                self.model.advance(Meeting::Idle, &[edge], &self.layout);
                true
            }
            None => false,
        }
    }

    /// The power-on test passes, at whose end AA is sent. Returns whether it lasted as long as it is to, and whether that was
    /// all that was sent.
    pub(crate) fn test(&mut self) -> bool {
        self.wait_for(TEST_TICKS - 1);
        let early = self.tested() || self.offer().is_some();
        self.wait(false);
        let ended = self.tested();
        !early && ended && self.send() == Some(0xaa) && self.offer().is_none()
    }
}

/// A row of an example: a tick, or what is so then.
#[derive(Clone, Copy, Drop)]
enum Row {
    /// The key in this column and row goes down; with Fn, or without.
    Down(u8, u8, bool),
    /// The key in this column and row goes up; pressed with Fn, or without.
    Up(u8, u8, bool),
    /// This byte is offered and sent.
    Sends(u8),
    /// The line is inhibited.
    Inhibited,
    /// For so many ticks nothing meets, and nothing is offered before them or after any of them.
    Silent(u8),
    /// Nothing meets, and after that this byte is offered, which wasn't before.
    Repeats(u8),
    /// This is offered.
    Offers(Option<u8>),
}

/// A tick in which the key in this column and row goes down or up.
fn press(bench: &mut Bench, column: u8, row: u8, down: bool, on_fn: bool) -> bool {
    match Place::at(column, row) {
        Some(place) => bench.key(place, down, on_fn),
        None => false,
    }
}

/// Whether nothing is offered, before so many ticks or after any of them.
fn is_silent(bench: &mut Bench, ticks: u8) -> bool {
    for _ in 0..ticks {
        if bench.offer().is_some() {
            return false;
        }
        bench.wait(false);
    }
    bench.offer().is_none()
}

/// A tick in which the line is inhibited, or after which a byte is offered that wasn't before.
fn wait_until(bench: &mut Bench, byte: Option<u8>) -> bool {
    let was = bench.offer();
    bench.wait(byte.is_none());
    match byte {
        Some(_) => was.is_none() && bench.offer() == byte,
        None => true,
    }
}

/// A row of an example. Returns whether what it says is so.
fn play_row(bench: &mut Bench, row: Row) -> bool {
    match row {
        Row::Down(column, row, on_fn) => press(bench, column, row, true, on_fn),
        Row::Up(column, row, on_fn) => press(bench, column, row, false, on_fn),
        Row::Sends(byte) => bench.send() == Some(byte),
        Row::Inhibited => wait_until(bench, None),
        Row::Silent(ticks) => is_silent(bench, ticks),
        Row::Repeats(byte) => wait_until(bench, Some(byte)),
        Row::Offers(byte) => bench.offer() == byte,
    }
}

/// Plays the rows of an example, from the end of the power-on test on.
fn play(rt: &impl Abort, layout: Layout, rows: &[Row]) {
    let rate = layout.rate();
    let mut bench = Bench::new(layout, rate);
    assert!(rt; bench.offer().is_none() && bench.lights() == 0 && !bench.tested());
    assert!(rt; bench.test());
    for (at, row) in rows.iter().enumerate() {
        let holds = play_row(&mut bench, *row);
        assert!(rt; holds, "row {at}");
    }
}

use Row::{Down, Inhibited, Offers, Repeats, Sends, Silent, Up};

#[test]
fn a_key_is_sent_and_repeats_until_it_is_released(rt: HostRuntime) -> Result<(), Fail> {
    play(
        &rt,
        us84_layout(rt.alloc())?,
        &[
            Down(3, 5, false),
            // 98 ticks after the press, and each 20 ticks after that
            Sends(0x1c),
            Silent(96),
            Repeats(0x1c),
            Sends(0x1c),
            Silent(18),
            Repeats(0x1c),
            Sends(0x1c),
            Inhibited,
            Offers(None),
            Up(3, 5, false),
            Sends(0xf0),
            Offers(Some(0x1c)),
            Sends(0x1c),
            Silent(255),
        ],
    );
    Ok(())
}

/// A key with another code under Fn, and a key that sends no break.
const TWO_LAYERS: &str = "format = 2\nkey = [\
    {key = \"a\", column = 1, row = 0, fn_sends = \"f1\"},\
    {key = \"s\", column = 2, row = 0, make_only = true}]\n";

#[test]
fn a_key_is_sent_in_the_layer_of_its_press(rt: HostRuntime) -> Result<(), Fail> {
    play(
        &rt,
        read_layout(rt.alloc(), TWO_LAYERS.as_bytes())?,
        &[
            Down(1, 0, true),
            Sends(0x05),
            Silent(96),
            Repeats(0x05),
            Sends(0x05),
            Up(1, 0, true),
            Sends(0xf0),
            Sends(0x05),
            Down(1, 0, false),
            Sends(0x1c),
        ],
    );
    Ok(())
}

#[test]
fn a_release_without_a_break_ends_the_repeating(rt: HostRuntime) -> Result<(), Fail> {
    play(
        &rt,
        read_layout(rt.alloc(), TWO_LAYERS.as_bytes())?,
        &[Down(2, 0, false), Sends(0x1b), Up(2, 0, false), Silent(255)],
    );
    Ok(())
}
