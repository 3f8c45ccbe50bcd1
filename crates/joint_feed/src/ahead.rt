//! The events of a feed, handed to the joint machine as they come near.

ghost use Rattle.std.specs.Prelude.{◌≡◌, ◌+◌, ◌≤◌, ◌++◌, length, take, drop};
ghost use Rattle.joint_feed.specs.Ahead.{HasTaken, IsFed};
ghost use Rattle.key_file.specs.Accepted.{IsAccepted};
ghost use Rattle.key_file.specs.Feeds.{Fed};

use crate::event::Event;
use arrayvec::ArrayVec;
use joint_run::{Due, Seen};
use key_file::Feed;

/// How many edges of a history were made, how many of the host's events were done, and the next events as the joint
/// machine takes them.
#[derive(Drop)]
pub struct Ahead {
    pub made: usize,
    pub done: usize,
    pub due: Due,
}

/// These events, and after them the next ones of a feed, as many as there is room for.
fn afterwards<T: Event, F: Feed, const N: usize>(first: &[T], feed: &mut F) -> ArrayVec<T, N>
    requires { length first.now ≤ N }
    ensures events { let fed = F.feeds feed.old in result.items ≡ take N (first.now ++ drop (T.taken fed) (T.all fed.history)) }
    ensures taken { T.taken (F.feeds feed.new) + length first.now ≡ T.taken (F.feeds feed.old) + length result.items }
    ensures history { (F.feeds feed.new).history ≡ (F.feeds feed.old).history }
    ensures others { T.others (F.feeds feed.new) ≡ T.others (F.feeds feed.old) }
{
    let mut next = ArrayVec::new();
    let _ = next.try_extend_from_slice(first);
    while next.len() < N {
        let Some(event) = T::next(feed) else {
            return next;
        };
        next.push(event);
    }
    next
}

/// So many of the events that were handed in are over: those that are left move up, and the next ones of a feed come
/// after them.
fn move_up<T: Event, F: Feed, const N: usize>(
    over: &mut usize,
    due: &mut ArrayVec<T, N>,
    feed: &mut F,
    count: u8,
)
    requires few { length (T.all (F.feeds feed.old).history) ≤ 65536 }
    requires next { due.old.items ≡ take N (drop over.old (T.all (F.feeds feed.old).history)) }
    requires taken { T.taken (F.feeds feed.old) ≡ over.old + length due.old.items }
    requires over { over.old ≤ length (T.all (F.feeds feed.old).history) }
    requires due { count ≤ length due.old.items }
    ensures next { due.new.items ≡ take N (drop over.new (T.all (F.feeds feed.old).history)) }
    ensures taken { T.taken (F.feeds feed.new) ≡ over.new + length due.new.items }
    ensures over { over.new ≡ over.old + count }
    ensures history { (F.feeds feed.new).history ≡ (F.feeds feed.old).history }
    ensures others { T.others (F.feeds feed.new) ≡ T.others (F.feeds feed.old) }
{
    if count > 0 {
        let count = count as usize;
        *due = afterwards(&due.as_slice()[count..], feed);
        *over += count;
    }
}

impl Ahead {
    /// All events of a feed are to come, of which none was taken.
    pub fn new<F: Feed>(feed: &mut F) -> Ahead
        requires no_edge { (F.feeds feed.old).edges ≡ 0 }
        requires no_host { (F.feeds feed.old).host ≡ 0 }
        ensures fed { let history = (F.feeds feed.old).history in IsFed history.edges history.host result }
        ensures taken { HasTaken (F.feeds feed.new) result }
        ensures history { (F.feeds feed.new).history ≡ (F.feeds feed.old).history }
        ensures made { result.made ≡ 0 }
        ensures done { result.done ≡ 0 }
    {
        let edges = afterwards(&[], feed);
        let host = afterwards(&[], feed);
        Ahead {
            made: 0,
            done: 0,
            due: Due { edges, host },
        }
    }

    /// So many of them were made and done by a step. In most steps none is, and nothing is taken of the feed.
    #[inline(always)]
    pub fn count<F: Feed>(&mut self, feed: &mut F, seen: &Seen)
        requires accepted { IsAccepted (F.feeds feed.old).history }
        requires fed { let history = (F.feeds feed.old).history in IsFed history.edges history.host self.old }
        requires taken { HasTaken (F.feeds feed.old) self.old }
        requires made { self.old.made ≤ length (F.feeds feed.old).history.edges }
        requires done { self.old.done ≤ length (F.feeds feed.old).history.host }
        requires edges { seen.now.edges ≤ length self.old.due.edges.items }
        requires host { seen.now.host ≤ length self.old.due.host.items }
        ensures fed { let history = (F.feeds feed.old).history in IsFed history.edges history.host self.new }
        ensures taken { HasTaken (F.feeds feed.new) self.new }
        ensures history { (F.feeds feed.new).history ≡ (F.feeds feed.old).history }
        ensures made { self.new.made ≡ self.old.made + seen.now.edges }
        ensures done { self.new.done ≡ self.old.done + seen.now.host }
    {
        if seen.edges > 0 || seen.host > 0 {
            self.count_all(feed, seen);
        }
    }

    /// The same of any step.
    #[inline(never)]
    fn count_all<F: Feed>(&mut self, feed: &mut F, seen: &Seen)
        requires accepted { IsAccepted (F.feeds feed.old).history }
        requires fed { let history = (F.feeds feed.old).history in IsFed history.edges history.host self.old }
        requires taken { HasTaken (F.feeds feed.old) self.old }
        requires made { self.old.made ≤ length (F.feeds feed.old).history.edges }
        requires done { self.old.done ≤ length (F.feeds feed.old).history.host }
        requires edges { seen.now.edges ≤ length self.old.due.edges.items }
        requires host { seen.now.host ≤ length self.old.due.host.items }
        ensures fed { let history = (F.feeds feed.old).history in IsFed history.edges history.host self.new }
        ensures taken { HasTaken (F.feeds feed.new) self.new }
        ensures history { (F.feeds feed.new).history ≡ (F.feeds feed.old).history }
        ensures made { self.new.made ≡ self.old.made + seen.now.edges }
        ensures done { self.new.done ≡ self.old.done + seen.now.host }
    {
        move_up(&mut self.made, &mut self.due.edges, feed, seen.edges);
        move_up(&mut self.done, &mut self.due.host, feed, seen.host);
    }
}
