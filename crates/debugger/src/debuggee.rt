//! What is debugged: a program under a history, where its run ends, and what the part held at power-on.

ghost use Rattle.std.specs.Prelude.{◌≡◌, ◌≤◌};
ghost use Rattle.fw_compile.specs.Image.{image_of};
ghost use Rattle.joint_feed.specs.Filled.{filled_story};
ghost use Rattle.joint_feed.specs.Stories.{story};
ghost use Rattle.debugger.specs.Sessions.{latest_start, of_layout, of_program, with_fill};

use board_terms::{STAMP_0, TICK_CYCLES};
use fw_compile::compile;
use key_file::History;
use layout_reader::Layout;
use mcs48_isa::Image;
use std::marker::Model;

/// By how much the cycle in which the run of a layout's image ends at the latest is greater than the end stamp: stamp 0 is
/// cycle 4,096, and tick starts are less than 2,056 cycles apart.
const LATEST_OF_LAYOUT: u64 = STAMP_0 + TICK_CYCLES + 8;

/// The same of any program: its run ends at the end stamp itself.
const LATEST_OF_PROGRAM: u64 = STAMP_0;

/// A program, the history that it runs under, how many cycles after the end stamp the run ends at the latest, and the byte
/// that data memory, A and T hold at power-on.
#[derive(Drop)]
pub struct Debuggee {
    image: Image,
    history: History,
    latest: u64,
    fill: u8,
}

impl Model for Debuggee {
    ghost use Rattle.std.specs.Prelude.{◌≤◌};
    ghost use Rattle.joint_feed.specs.Filled.{filled_story};
    ghost use Rattle.debugger.specs.Sessions.{Debuggee, latest_start};

    ghost Value = { Debuggee };

    ghost view = { λ d. record { story = filled_story d.fill d.image.bytes d.history; latest = d.latest } };

    ghost invariant = { λ d. d.latest ≤ latest_start };
}

impl Debuggee {
    /// The image that `compile` gives for this layout, under this history. Its run ends at a tick start at or after the end
    /// stamp.
    pub fn of_layout(layout: &Layout, history: History) -> Debuggee
        ensures { result ≡ of_layout (story (image_of layout.now) history) }
    {
        let image = compile(layout);
        Debuggee {
            image,
            history,
            latest: LATEST_OF_LAYOUT,
            fill: 0,
        }
    }

    /// Any program, under this history. Its run ends at the end stamp.
    pub fn of_program(image: Image, history: History) -> Debuggee
        ensures { result ≡ of_program (story image.bytes history) }
    {
        Debuggee {
            image,
            history,
            latest: LATEST_OF_PROGRAM,
            fill: 0,
        }
    }

    /// The same in a part whose data memory, A and T hold this byte at power-on.
    pub fn with_fill(self, fill: u8) -> Debuggee
        ensures { result ≡ with_fill fill self }
    {
        Debuggee {
            image: self.image,
            history: self.history,
            latest: self.latest,
            fill,
        }
    }

    /// The program, its history, how many cycles after the end stamp the run ends at the latest, and the byte at power-on.
    pub(crate) fn into_parts(self) -> (Image, History, u64, u8)
        ensures parts { record { story = filled_story result.3 result.0.bytes result.1; latest = result.2 } ≡ self }
        ensures latest { result.2 ≤ latest_start }
    {
        (self.image, self.history, self.latest, self.fill)
    }
}
