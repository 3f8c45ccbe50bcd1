//! What the keyboard does with a byte from the system.

use crate::state::{Mode, Reply, TickModel};
use layout_reader::Layout;

/// Acknowledge: the reply to what was obeyed.
const ACK: u8 = 0xfa;

/// Resend: the reply to what was not.
const RESEND: u8 = 0xfe;

impl TickModel {
    ghost use Rattle.std.specs.Prelude.{◌≡◌, None};
    ghost use Rattle.model_keyboard.specs.Codes.{keys_of};
    ghost use Rattle.model_keyboard.specs.Queue.{clear};
    ghost use Rattle.model_keyboard.specs.Commands.{replies, acknowledges, commanded, obeyed};

    /// Treats a byte from the system. With wrong parity it is asked for again.
    pub(crate) fn obey(&mut self, byte: u8, good: bool, layout: &Layout)
        ensures { self.new ≡ obeyed (keys_of layout.now) byte good self.old }
    {
        if !good {
            return self.reply_with(RESEND);
        }
        match self.mode {
            Mode::Ready => self.command(byte, layout),
            Mode::WantRate | Mode::WantLights if byte >= 0xed => {
                self.mode = Mode::Ready;
                self.command(byte, layout);
            }
            Mode::WantRate if byte < 0x80 => {
                self.rate = byte;
                self.accept_parameter();
            }
            Mode::WantLights if byte < 0x80 => {
                self.lights = byte % 8;
                self.accept_parameter();
            }
            Mode::WantRate | Mode::WantLights => self.reply_with(RESEND),
        }
    }

    /// Obeys a command; what is none is asked for again. The default rate is the layout's.
    fn command(&mut self, byte: u8, layout: &Layout)
        ensures { self.new ≡ commanded (keys_of layout.now) byte self.old }
    {
        match byte {
            0xff => {
                self.reply = Some(Reply {
                    byte: ACK,
                    resets: true,
                });
            }
            0xfe => self.reply_with(self.last),
            0xf6 => {
                self.stop_keys();
                self.rate = layout.rate();
                self.reply_with(ACK);
            }
            0xf5 => {
                self.stop_keys();
                self.rate = layout.rate();
                self.enabled = false;
                self.reply_with(ACK);
            }
            0xf4 => {
                self.stop_keys();
                self.enabled = true;
                self.reply_with(ACK);
            }
            0xf3 => {
                self.mode = Mode::WantRate;
                self.reply_with(ACK);
            }
            0xed => {
                self.mode = Mode::WantLights;
                self.reply_with(ACK);
            }
            0xee => self.reply_with(0xee),
            0xef..=0xf2 | 0xf7..=0xfd => self.reply_with(ACK),
            _ => self.reply_with(RESEND),
        }
    }

    /// Acknowledges a parameter, with which the wait for it ends.
    fn accept_parameter(&mut self)
        ensures { self.new ≡ record (acknowledges self.old) { mode = Mode.Ready } }
    {
        self.mode = Mode::Ready;
        self.reply_with(ACK);
    }

    /// Clears the queue and ends the repeating.
    fn stop_keys(&mut self)
        ensures { self.new ≡ record self.old { queue = clear self.old.queue; repeats = None } }
    {
        self.queue.clear();
        self.repeats = None;
    }

    /// A reply in place of the one that waits.
    fn reply_with(&mut self, byte: u8)
        ensures { self.new ≡ replies byte self.old }
    {
        self.reply = Some(Reply {
            byte,
            resets: false,
        });
    }
}
