//! The controller's state as bytes, to be kept and gone back to.

ghost use Rattle.std.specs.Prelude.{◌≡◌, ◌<◌, ◌^◌, Some, is_some};
ghost use Rattle.ctl_link.specs.Empty.{fits, is_held};
ghost use Rattle.joint_bytes.specs.Links.{link_in};
ghost use Rattle.mcs48_bytes.specs.Numbers.{byte_or_0, truth_at};
ghost use Rattle.ctl_half.specs.Saves.{end_bytes, gone_back, loaded, port_in, saved_of};

use crate::controller::CtlHalf;
use crate::pins::pins_in;
use ctl_link::{Link, LinkEnd};
use ctl_wire::Wire;
use joint_bytes::{controller_bytes, controller_in, link_bytes, link_in};
use mcs48_bytes::{maybe_at, number_at, truth_at};

/// The state of a controller, in one form for all machines: three groups of the bytes that a saved keyboard has, and the pins.
#[repr(C)]
#[derive(Drop)]
pub struct SavedController {
    /// Its buffers and registers.
    pub buffers: [u8; 11],
    /// The cycle in which the output buffer was filled (8 bytes), whether a reply is awaited, the bit that noise turns round
    /// in the next frame (2 bytes), and the level of the clock at the last look.
    pub end: [u8; 12],
    /// Its link.
    pub link: [u8; 23],
    /// The levels at the pins of its input port.
    pub pins: u8,
}

/// A byte, or 0.
fn byte_or_0(byte: Option<u8>) -> u8
    ensures { result ≡ byte_or_0 byte }
{
    match byte {
        Some(byte) => byte,
        None => 0,
    }
}

/// The bytes of the link's end but for its buffers and its link.
fn end_bytes(half: &CtlHalf) -> [u8; 12]
    ensures bytes { result ≡ end_bytes half.now }
    ensures near { half.now.port.filled < 2 ^ 64 }
{
    let port = &half.port;
    let [a, b, c, d, e, f, g, h] = port.filled.to_le_bytes();
    [
        a,
        b,
        c,
        d,
        e,
        f,
        g,
        h,
        u8::from(port.awaits),
        u8::from(port.flip.is_some()),
        byte_or_0(port.flip),
        u8::from(half.clock),
    ]
}

/// Whether the keyboard is held off, with no byte for it.
fn is_held(link: &Link<Wire>) -> bool
    ensures { result ≡ is_held link.now }
{
    matches!(link, Link::Hold(_))
}

/// Whether the output buffer of a controller with these bytes is empty, or the keyboard is held off.
fn is_empty_unless_held(buffers: &[u8; 11], link: &Link<Wire>) -> bool
    ensures { result ≡ fits (truth_at 2 buffers.now) link.now }
{
    buffers[2] != 1 || is_held(link)
}

/// The end of the link that these bytes mean, with this link.
fn port_in(saved: &SavedController, link: Link<Wire>) -> LinkEnd<Wire>
    ensures { result ≡ port_in saved.now link }
{
    LinkEnd {
        core: controller_in(&saved.buffers),
        filled: number_at(&saved.end, 0),
        link,
        awaits: truth_at(&saved.end, 8),
        flip: maybe_at(&saved.end, 9),
    }
}

impl CtlHalf {
    /// Writes the controller's state. Loaded again it is the same.
    pub fn save(&self, saved: &mut SavedController)
        ensures saved { saved.new ≡ saved_of self.now }
        ensures loaded { loaded saved.new ≡ Some self.now }
    {
        saved.buffers = controller_bytes(&self.port.core);
        saved.end = end_bytes(self);
        saved.link = link_bytes(&self.port.link);
        saved.pins = pins_in(self.pins);
    }

    /// Goes to this state. Answers whether it is one. More than ten bits or edges of a frame are refused, and a full output
    /// buffer while the keyboard isn't held off; then nothing has changed. All other bytes are taken: a truth value that
    /// isn't 1 for 0, and a kind that is too large for the largest.
    pub fn load(&mut self, saved: &SavedController) -> bool
        ensures controller { self.new ≡ gone_back (loaded saved.now) self.old }
        ensures done { result ≡ is_some (loaded saved.now) }
    {
        let Some(link) = link_in(&saved.link) else {
            return false;
        };
        if !is_empty_unless_held(&saved.buffers, &link) {
            return false;
        }
        self.port = port_in(saved, link);
        self.clock = truth_at(&saved.end, 11);
        self.pins = Some(saved.pins);
        true
    }
}
