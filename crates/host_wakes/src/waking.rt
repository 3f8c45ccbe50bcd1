//! When something may happen on the PC's side at the earliest.

ghost use Rattle.std.specs.Prelude.{◌≡◌, ◌≤◌, ◌<◌, ◌+◌, ◌^◌, ◌||◌, min, max, is_some};
ghost use Rattle.ctl_core.specs.Controller.{is_disabled};
ghost use Rattle.host_turn.specs.Host.{waits};
ghost use Rattle.host_wakes.specs.Wakes.{event_wake, read_wake, break_wake, take_wake, link_wake, wakes, SleepsTo};

use board_terms::{HostAct, HostEvent, STAMP_0};
use ctl_core::Controller;
use ctl_link::{Link, Passing};
use host_turn::Desk;

/// A cycle and so many more, but no later than the end.
fn later(since: u64, wait: u64, end: u64) -> u64
    ensures { result ≡ min (since + wait) end }
{
    if end >= wait && since <= end - wait {
        since + wait
    } else {
        end
    }
}

/// Whether an event of the host waits for the input buffer.
fn is_waiting(act: HostAct, core: &Controller) -> bool
    ensures { result ≡ waits act core.now }
{
    match act {
        HostAct::Write60(_) | HostAct::Write64(_) => core.input_full(),
        HostAct::Read60
        | HostAct::Mask
        | HostAct::Unmask
        | HostAct::Take
        | HostAct::Status
        | HostAct::Flip(_) => false,
    }
}

/// When the host's next event may come.
fn event_stir(next: Option<HostEvent>, core: &Controller, end: u64) -> u64
    ensures { result ≡ min (event_wake next core.now end) end }
{
    let Some(event) = next else {
        return end;
    };
    if is_waiting(event.act, core) {
        end
    } else {
        later(event.stamp, STAMP_0, end)
    }
}

/// When INT 09h may read.
fn read_stir(filled: u64, masked: bool, core: &Controller, end: u64) -> u64
    ensures { result ≡ min (read_wake filled masked core.now end) end }
{
    if core.output_full() && core.interrupt_enabled() && !masked {
        later(filled, 64, end)
    } else {
        end
    }
}

/// When a waiting input may break off a byte under way.
fn break_stir<F: Passing + Drop>(link: &Link<F>, awaits: bool, core: &Controller, end: u64) -> u64
    ensures { result ≡ min (break_wake F.breaks link.now awaits (is_some core.now.input) end) end }
{
    let Link::Busy(under_way) = link else {
        return end;
    };
    if under_way.may_break() && !awaits && core.input_full() {
        0
    } else {
        end
    }
}

/// When the controller may take its input.
fn take_stir<F: Drop>(link: &Link<F>, awaits: bool, core: &Controller, end: u64) -> u64
    ensures { result ≡ min (take_wake link.now awaits core.now.output_full (is_some core.now.input) end) end }
{
    let may_take = match link {
        Link::Free => !awaits,
        Link::Hold(_) => true,
        Link::Ask(_, _) | Link::Request(_) | Link::Busy(_) => false,
    };
    if may_take && !core.output_full() && core.input_full() {
        0
    } else {
        end
    }
}

/// When the link may change by itself.
fn link_stir<F: Drop>(link: &Link<F>, awaits: bool, core: &Controller, end: u64) -> u64
    ensures { result ≡ min (link_wake link.now awaits (core.now.output_full || is_disabled core.now) end) end }
{
    let stop = core.output_full() || core.is_disabled();
    match link {
        Link::Free => { if !awaits && stop { 0 } else { end } }
        Link::Hold(since) => { if stop { end } else { later(*since, 64, end) } }
        Link::Ask(_, since) => later(*since, 64, end),
        Link::Request(_) | Link::Busy(_) => end,
    }
}

/// The first cycle from `now` on in which something may happen on the PC's side, and `end` if there is none before
/// it.
pub fn first_stir<F: Passing + Drop>(
    desk: &Desk<F>,
    next: Option<HostEvent>,
    now: u64,
    end: u64,
) -> u64
    requires order { now ≤ end }
    ensures from { now ≤ result }
    ensures to { result ≤ end }
    ensures is { result ≡ max now (min (wakes F.breaks next desk.now end) end) }
{
    let by_host = event_stir(next, &desk.port.core, end).min(read_stir(
        desk.port.filled,
        desk.masked,
        &desk.port.core,
        end,
    ));
    let port = &desk.port;
    let by_itself = take_stir(&port.link, port.awaits, &port.core, end).min(link_stir(
        &port.link,
        port.awaits,
        &port.core,
        end,
    ));
    let by_link = break_stir(&port.link, port.awaits, &port.core, end).min(by_itself);
    by_host.min(by_link).max(now)
}

/// From `now` on nothing happens before the first stir.
pub fn sleeps_to<F: Passing + Drop>(
    desk: &Desk<F>,
    next: Option<HostEvent>,
    now: u64,
    end: u64,
) -> u64
    requires order { now ≤ end }
    ensures from { now ≤ result }
    ensures to { result ≤ end }
    ensures sleeps { SleepsTo F.breaks next desk.now now result }
{
    first_stir(desk, next, now, end)
}
