//! A tick of the keyboard.

use crate::edge::TickEdge;
use crate::meeting::Meeting;
use crate::state::{Mode, TEST_PASSED, TEST_TICKS, TickModel};
use layout_reader::Layout;

impl TickModel {
    ghost use Rattle.std.specs.Prelude.{◌≡◌, true, IfSome, IsSome, All};
    ghost use Rattle.std.specs.Option.{ForSome};
    ghost use Rattle.layout_reader.specs.Layouts.{HasEntry};
    ghost use Rattle.model_keyboard.specs.Codes.{keys_of, HasCode};
    ghost use Rattle.model_keyboard.specs.Keyboard.{offer};
    ghost use Rattle.model_keyboard.specs.Tick.{reset, sent_byte, met, tested_if, ticked, IsOffered};

    /// A tick, by its meeting with the line and by the edges that it sees. They are in the order of their places, and in
    /// the layout; a key that repeats has a code there; a byte is sent or cut off only if one is offered.
    pub fn advance(&mut self, m: Meeting, edges: &[TickEdge], layout: &Layout)
        requires offered { IsOffered m (offer self.old) }
        requires repeats { ForSome self.old.repeats (λ r. HasCode layout.now r.place) }
        requires edges { All (λ e. HasEntry layout.now e.place) edges.now }
        ensures ticked { self.new ≡ ticked (keys_of layout.now) m edges.now self.old }
        ensures known { IfSome self.new.repeats (λ r. HasCode layout.now r.place) }
    {
        let was_tested = self.tested();
        self.meet(m, layout);
        if !was_tested {
            self.count_test();
        }
        self.scan(m == Meeting::Inhibited, edges, layout);
    }

    /// Steps 1 and 2: what passes between keyboard and line.
    fn meet(&mut self, m: Meeting, layout: &Layout)
        requires { IsOffered m (offer self.old) }
        ensures { self.new ≡ met m (keys_of layout.now) self.old }
    {
        match m {
            Meeting::Sent => self.send(layout),
            Meeting::Got(byte, good) => self.obey(byte, good, layout),
            Meeting::Inhibited | Meeting::Idle | Meeting::Cut => {}
        }
    }

    /// Step 1: the byte that was offered is sent, and goes from where it was.
    fn send(&mut self, layout: &Layout)
        requires { IsSome (offer self.old) }
        ensures { self.new ≡ sent_byte (offer self.old) (keys_of layout.now) self.old }
    {
        let byte = self.offer().unwrap();
        if byte != 0xfe {
            self.last = byte;
        }
        match self.reply {
            Some(reply) if reply.resets => self.reset(layout),
            Some(_) => self.reply = None,
            None if self.aa_due => self.aa_due = false,
            None => self.queue.drop_first(),
        }
    }

    /// A reset: all is as at power-on, but for what is held and the code of a break that is started.
    fn reset(&mut self, layout: &Layout)
        ensures { self.new ≡ reset (keys_of layout.now) self.old }
    {
        self.test = TEST_TICKS;
        self.enabled = true;
        self.mode = Mode::Ready;
        self.reply = None;
        self.aa_due = false;
        self.last = TEST_PASSED;
        self.queue.clear();
        self.repeats = None;
        self.rate = layout.rate();
        self.lights = 0;
    }

    /// Step 3: the test has a tick less; at its end AA is due.
    fn count_test(&mut self)
        ensures { self.new ≡ tested_if true self.old }
    {
        if self.test == 1 {
            self.aa_due = true;
        }
        self.test = self.test.saturating_sub(1);
    }
}
