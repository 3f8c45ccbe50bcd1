//! What a tick brings over the link.

ghost use Rattle.std.specs.Prelude.{◌≡◌};
ghost use Rattle.model_controller.specs.ByteTime.{meeting_by, sent_or_cut};

use crate::UnderWay;
use ctl_link::Link;

/// What a tick brings over the link: a byte for the keyboard; nothing, as the controller holds the keyboard off;
/// nothing, as nothing is offered; the keyboard's byte; or nothing of it, as the controller pulled the clock before it
/// began, or broke it off.
#[derive(Clone, Copy, Debug, PartialEq, Eq, Drop)]
pub enum Meeting {
    Got(u8),
    Inhibited,
    Idle,
    Sent(u8),
    Cut,
}

/// What begins in a tick, as its meeting, if `Sent` says that the keyboard's byte begins: by whether the keyboard's
/// power-on test had ended at its start, the byte that the keyboard offers, and the link after the offsets 255 and 287.
pub fn meeting_of(
    tested: bool,
    offer: Option<u8>,
    earlier: Link<UnderWay>,
    later: Link<UnderWay>,
) -> Meeting
    ensures meeting { result ≡ meeting_by tested offer earlier later }
{
    if !tested {
        return Meeting::Idle;
    }
    match earlier {
        Link::Free => match (offer, later) {
            (None, _) => Meeting::Idle,
            (Some(byte), Link::Free) => Meeting::Sent(byte),
            (Some(_), _) => Meeting::Cut,
        },
        Link::Hold(_) | Link::Ask(_, _) => Meeting::Inhibited,
        Link::Request(byte) => Meeting::Got(byte),
        Link::Busy(_) => Meeting::Idle,
    }
}

/// The meeting of a tick in which this byte of the keyboard began, by the link after offset 607: it is sent if it is
/// still under way then; else it was broken off.
pub fn sent_or_cut(byte: u8, last: &Link<UnderWay>) -> Meeting
    ensures meeting { result ≡ sent_or_cut byte last.now }
{
    match last {
        Link::Busy(_) => Meeting::Sent(byte),
        Link::Free | Link::Hold(_) | Link::Ask(_, _) | Link::Request(_) => Meeting::Cut,
    }
}
