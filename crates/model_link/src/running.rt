//! The PC's side of a run.

ghost use Rattle.std.specs.Prelude.{◌≡◌, ◌+◌, ◌++◌, ◌&&◌, nat_lt, IfOk, if◌then◌else◌};
ghost use Rattle.host_turn.specs.Run.{stamped};

use arrayvec::ArrayVec;
use board_terms::HostEvent;
use ctl_link::Link;
use host_turn::{Desk, Stamped};
use host_wakes::sleeps_to;
use int09::Bios;
use model_controller::UnderWay;
use pc_tables::Item;
use std::alloc::{AllocError, Global};
use std::marker::Model;

/// The PC's side of a run: the desk, how many of the host's events are done, and what was said so far. A clause sees it
/// as a `Side`.
#[derive(Drop)]
pub(crate) struct Running {
    pub(crate) desk: Desk<UnderWay>,
    done: usize,
    log: Vec<Stamped>,
}

impl Model for Running {
    ghost use Rattle.ctl_link.specs.Empty.{IsEmptyUnlessHeld};
    ghost use Rattle.host_turn.specs.Run.{Side};
    ghost use Rattle.model_controller.specs.declared.UnderWay.{UnderWay as UnderWayOf};
    ghost use Rattle.model_link.specs.KeptSide.{side_of};

    ghost Value = { Side UnderWayOf };

    ghost view = { λ r. side_of r.desk r.done r.log.items };

    ghost invariant = { λ r. IsEmptyUnlessHeld r.desk.port };
}

impl Running {
    ghost use Rattle.std.specs.Prelude.{◌≡◌, ◌≤◌, ◌<◌, ◌-◌, ◌^◌, IfOk, slice_get};
    ghost use Rattle.host_turn.specs.Run.{side_at_start, desk_of, goes_on, says_lights};
    ghost use Rattle.model_controller.specs.ByteTime.{is_open, quietly};
    ghost use Rattle.host_wakes.specs.Wakes.{SleepsTo};

    /// At the start of a run.
    pub(crate) fn new(alloc: Global) -> Result<Running, AllocError>
        ensures { IfOk result (λ r. r ≡ side_at_start UnderWay) }
    {
        let bios = Bios::new(alloc)?;
        Ok(Running {
            desk: Desk::new(bios),
            done: 0,
            log: Vec::new(alloc),
        })
    }

    /// What the controller does with its link.
    pub(crate) fn link(&self) -> Link<UnderWay>
        ensures { result ≡ self.now.port.link }
    {
        self.desk.port.link
    }

    /// What was said so far, with its cycles.
    pub(crate) fn log(&self) -> &[Stamped]
        ensures { result.now ≡ self.now.log }
    {
        self.log.as_slice()
    }

    /// The cycles from one up to another in which nothing comes over the link. Those in which nothing happens are left
    /// out.
    pub(crate) fn run_on(
        &mut self,
        events: &[HostEvent],
        from: u64,
        to: u64,
    ) -> Result<(), AllocError>
        requires order { from ≤ to }
        ensures { IfOk result (λ u. self.new ≡ quietly events.now (to - from) from self.old) }
    {
        let mut now = from;
        'cycles: while now < to {
            let next = self.next(events);
            now = self.sleep(next, now, to);
            if now < to {
                self.cycle(events, now)?;
                now += 1;
            }
        }
        Ok(())
    }

    /// The lights are said, if they differ from those shown.
    pub(crate) fn say_lights(&mut self, now: u64, shown: u8, lights: u8) -> Result<(), AllocError>
        ensures { IfOk result (λ u. self.new ≡ says_lights now shown lights self.old) }
    {
        if lights != shown {
            self.log.push(Stamped {
                cycle: now,
                item: Item::Lights(lights),
            })?;
        }
        Ok(())
    }

    /// The host's next event.
    fn next(&self, events: &[HostEvent]) -> Option<HostEvent>
        ensures { result ≡ slice_get events.now self.now.done }
    {
        events.get(self.done).copied()
    }

    /// A cycle from `now` on, up to which nothing happens.
    fn sleep(&self, next: Option<HostEvent>, now: u64, to: u64) -> u64
        requires order { now ≤ to }
        ensures from { now ≤ result }
        ensures to { result ≤ to }
        ensures sleeps { SleepsTo is_open next (desk_of self.now) now result }
    {
        sleeps_to(&self.desk, next, now, to)
    }

    /// One cycle, once what came over the link has been done.
    fn cycle(&mut self, events: &[HostEvent], now: u64) -> Result<(), AllocError>
        ensures { IfOk result (λ u. self.new ≡ goes_on is_open events.now now self.old) }
    {
        let next = self.next(events);
        let mut items: ArrayVec<Item, 16> = ArrayVec::new();
        let was_done = self.desk.go_on(now, next, &mut items);
        self.done = counted(self.done, was_done, events.len());
        log_items(&mut self.log, now, items.as_slice())?;
        Ok(())
    }
}

/// One event more, if one was done.
fn counted(done: usize, was_done: bool, most: usize) -> usize
    ensures { result ≡ (if was_done && nat_lt done most then done + 1 else done) }
{
    if was_done && done < most {
        done + 1
    } else {
        done
    }
}

/// Puts items with their cycle after the log.
fn log_items(log: &mut Vec<Stamped>, now: u64, items: &[Item]) -> Result<(), AllocError>
    ensures { IfOk result (λ u. log.new.items ≡ log.old.items ++ stamped now items.now) }
{
    for item in items {
        log.push(Stamped {
            cycle: now,
            item: *item,
        })?;
    }
    Ok(())
}
