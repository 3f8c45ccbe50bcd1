//! The joint machine in the run of a history.

ghost use Rattle.std.specs.Prelude.{◌≡◌};
ghost use Rattle.int09.specs.Bios.{start};
ghost use Rattle.joint_feed.specs.Ahead.{HasTaken};
ghost use Rattle.joint_feed.specs.Course.{IsOnCourse};
ghost use Rattle.joint_feed.specs.Filled.{filled_story};
ghost use Rattle.joint_feed.specs.Stories.{story};
ghost use Rattle.joint_run.specs.Due.{nothing_seen};
ghost use Rattle.key_file.specs.Feeds.{Fed};

use crate::ahead::Ahead;
use int09::Bios;
use joint_run::{Joint, Seen};
use key_file::{Feed, History, ListFeed};
use mcs48_isa::Image;

/// The joint machine, the events of a history that are handed to it next, what its last step did, and the byte that data
/// memory, A and T held at power-on.
#[derive(Drop)]
pub struct Course {
    pub joint: Joint,
    pub ahead: Ahead,
    pub seen: Seen,
    pub fill: u8,
}

impl Course {
    /// The run of a feed's history at power-on, with this program, with INT 09h at its start and with cleared memory. Nothing
    /// is done yet.
    pub fn begin<F: Feed>(image: &Image, bios: Bios, feed: &mut F) -> Course
        requires start { bios ≡ start }
        requires no_edge { (F.feeds feed.old).edges ≡ 0 }
        requires no_host { (F.feeds feed.old).host ≡ 0 }
        ensures on { IsOnCourse (story image.now.bytes (F.feeds feed.old).history) result }
        ensures steps { result.joint.steps ≡ 0 }
        ensures seen { result.seen ≡ nothing_seen }
        ensures taken { HasTaken (F.feeds feed.new) result.ahead }
        ensures history { (F.feeds feed.new).history ≡ (F.feeds feed.old).history }
    {
        Course::begin_filled(image, bios, 0, feed)
    }

    /// The run of a feed's history at power-on, with this program and with INT 09h at its start, if data memory, A and T
    /// hold this byte. Nothing is done yet.
    pub fn begin_filled<F: Feed>(image: &Image, bios: Bios, fill: u8, feed: &mut F) -> Course
        requires start { bios ≡ start }
        requires no_edge { (F.feeds feed.old).edges ≡ 0 }
        requires no_host { (F.feeds feed.old).host ≡ 0 }
        ensures on { IsOnCourse (filled_story fill image.now.bytes (F.feeds feed.old).history) result }
        ensures fill { result.fill ≡ fill }
        ensures steps { result.joint.steps ≡ 0 }
        ensures seen { result.seen ≡ nothing_seen }
        ensures taken { HasTaken (F.feeds feed.new) result.ahead }
        ensures history { (F.feeds feed.new).history ≡ (F.feeds feed.old).history }
    {
        Course {
            joint: Joint::power_on_filled(image, bios, fill),
            ahead: Ahead::new(feed),
            seen: Seen::nothing(),
            fill,
        }
    }

    /// The run of this history at power-on, with this program and with INT 09h at its start, if data memory, A and T hold
    /// this byte. Nothing is done yet.
    pub fn new(image: &Image, bios: Bios, fill: u8, history: &History) -> Course
        requires start { bios ≡ start }
        ensures on { IsOnCourse (filled_story fill image.now.bytes history.now) result }
        ensures fill { result.fill ≡ fill }
        ensures steps { result.joint.steps ≡ 0 }
        ensures seen { result.seen ≡ nothing_seen }
    {
        Course::begin_filled(image, bios, fill, &mut ListFeed::new(history))
    }
}
