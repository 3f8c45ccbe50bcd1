//! Data as the controller sees it.

ghost use Rattle.std.specs.Prelude.{◌≡◌, Some, None, if◌then◌else◌};
ghost use Rattle.run_wires.specs.Seen.{level_seen, turns_last};

use board_terms::Lines;
use ctl_link::Link;
use ctl_wire::Wire;
use joint_feed::Course;

/// Whether a byte of the keyboard is under way in which noise turns the bit that the controller took last.
fn turns_last(link: &Link<Wire>) -> bool
    ensures { result ≡ turns_last link.now }
{
    match link {
        Link::Busy(Wire::Recv(Some(bit), bits)) => bits.as_slice().len() == usize::from(*bit) + 1,
        Link::Busy(_) | Link::Free | Link::Hold(_) | Link::Ask(_, _) | Link::Request(_) => false,
    }
}

/// The level of data that the controller sees, with this link and these wires.
fn level_seen(link: &Link<Wire>, lines: Lines) -> bool
    ensures { result ≡ level_seen link.now lines }
{
    if turns_last(link) && !lines.clk {
        !lines.dat
    } else {
        lines.dat
    }
}

/// The level of data that the controller sees at a course's machine, with these wires, if it is asked for.
pub(crate) fn level_if(seen: bool, course: &Course, lines: Lines) -> Option<bool>
    ensures level { result ≡ (if seen then Some (level_seen course.now.joint.outside.desk.port.link lines) else None) }
{
    if seen {
        Some(level_seen(&course.joint.outside().desk.port.link, lines))
    } else {
        None
    }
}
