//! The keys that codes move on a layout, and when.

ghost use Rattle.std.specs.Prelude.{◌≡◌, ◌≤◌, OnOk, Some};
ghost use Rattle.capture_keys.specs.Keys.{at_start, entry_of, has_room, sends, stamp_at, struck, turned, typed};
ghost use Rattle.capture_keys.specs.KeyTexts.{end_of};

use crate::codes::Code;
use crate::key_line::KeyLine;
use edge_queue::EdgeQueue;
use key_lines::{FIRST_STROKE, STROKE};
use layout_reader::{Entry, Layout};
use pc_tables::code_of;
use std::alloc::{AllocError, Global};
use std::marker::Model;

/// The nanoseconds of a cycle.
const CYCLE: u64 = 2_500;

/// The last stamp of an edge: its own time and the end come within 600 seconds.
const LAST: u64 = 239_975_040;

/// The most lines.
const LINES: usize = 65_536;

/// The keys so far.
#[derive(Drop)]
pub(crate) struct Keys {
    queue: EdgeQueue,
    /// The time of the first edge, in nanoseconds.
    origin: Option<u64>,
    /// Which codes were named in a comment.
    named: [bool; 256],
    lines: Vec<KeyLine>,
    /// Whether something found no room.
    full: bool,
}

impl Model for Keys {
    ghost use Rattle.edge_queue.specs.Queue.{queue_of};
    ghost use Rattle.capture_keys.specs.Keys as keys;

    ghost Value = { keys.Keys };

    ghost view = { λ k. record {
      queue = queue_of k.queue;
      origin = k.origin;
      named = k.named;
      lines = k.lines.items;
      full = k.full;
    } };
}

/// Whether the key of an entry sends a code without Fn.
fn sends(entry: &Entry, code: u8) -> bool
    ensures { result ≡ sends code entry.now }
{
    match entry.sends {
        Some(key) => code_of(key) == code,
        None => false,
    }
}

/// The first entry whose key sends a code without Fn.
#[tactic(auto, unfolding(crate::specs::Keys::entry_of))]
fn entry_of(code: u8, entries: &[Entry]) -> Option<Entry>
    ensures { result ≡ entry_of code entries.now }
{
    match entries.iter().find(|entry| sends(entry, code)) {
        Some(entry) => Some(*entry),
        None => None,
    }
}

/// The stamp of a time in nanoseconds, if the first edge was at this one.
fn stamp_at(origin: u64, time: u64) -> u64
    ensures { result ≡ stamp_at origin time }
{
    FIRST_STROKE + time.saturating_sub(origin) / CYCLE
}

impl Keys {
    /// No key was moved, and all are up.
    pub(crate) fn new(alloc: Global) -> Keys
        ensures { result ≡ at_start }
    {
        Keys {
            queue: EdgeQueue::new(),
            origin: None,
            named: [false; 256],
            lines: Vec::new(alloc),
            full: false,
        }
    }

    /// The lines so far.
    pub(crate) fn lines(&self) -> &[KeyLine]
        ensures { result.now ≡ self.now.lines }
    {
        self.lines.as_slice()
    }

    /// Whether something found no room.
    pub(crate) fn is_full(&self) -> bool
        ensures { result ≡ self.now.full }
    {
        self.full
    }

    /// The stamp of the end: the last edge has had its time, and ten ticks more pass.
    pub(crate) fn end(&self) -> u64
        requires { self.now.queue.ready ≤ 239979520 }
        ensures { result ≡ end_of self.now }
    {
        self.queue.ready.max(FIRST_STROKE) + STROKE
    }

    /// Whether there is room for a line.
    fn has_room(&self) -> bool
        ensures { result ≡ has_room self.now }
    {
        !self.full && self.lines.len() < LINES
    }

    /// The key of an entry goes down or up, as soon as the keyboard can see it. Nothing if it is so already.
    fn turn(
        &mut self,
        debounce: bool,
        time: u64,
        entry: &Entry,
        down: bool,
    ) -> Result<(), AllocError>
        ensures { OnOk result (self.new ≡ turned debounce time entry.now down self.old) }
    {
        if !self.has_room() {
            self.full = true;
            return Ok(());
        }
        let origin = self.origin.unwrap_or(time);
        let _ = self.queue.push(stamp_at(origin, time), entry.place, down);
        let Some(now) = self.queue.due() else {
            return Ok(());
        };
        if now > LAST {
            self.full = true;
            return Ok(());
        }
        self.origin = Some(origin);
        if let Some(edge) = self.queue.take_due(now, debounce) {
            self.lines.push(KeyLine::Turned(*entry, edge))?;
        }
        Ok(())
    }

    /// The key of an entry sends a code. If it sends no break, it goes up at once.
    fn strike(&mut self, debounce: bool, code: Code, entry: &Entry) -> Result<(), AllocError>
        ensures { OnOk result (self.new ≡ struck debounce code entry.now self.old) }
    {
        self.turn(debounce, code.time, entry, code.down)?;
        if code.down && entry.make_only {
            self.turn(debounce, code.time, entry, false)?;
        }
        Ok(())
    }

    /// Takes a code. If no key sends it, it is named, but once.
    fn take(&mut self, layout: &Layout, code: Code) -> Result<(), AllocError>
        ensures { OnOk result (self.new ≡ typed layout.now (Some code) self.old) }
    {
        if let Some(entry) = entry_of(code.byte, layout.entries()) {
            return self.strike(layout.debounces(), code, &entry);
        }
        if self.named[usize::from(code.byte)] {
            return Ok(());
        }
        if !self.has_room() {
            self.full = true;
            return Ok(());
        }
        self.named[usize::from(code.byte)] = true;
        self.lines.push(KeyLine::Unsent(code.byte))?;
        Ok(())
    }

    /// Takes a code, if there is one.
    pub(crate) fn take_if(&mut self, layout: &Layout, code: Option<Code>) -> Result<(), AllocError>
        ensures { OnOk result (self.new ≡ typed layout.now code self.old) }
    {
        match code {
            Some(code) => self.take(layout, code),
            None => Ok(()),
        }
    }
}
