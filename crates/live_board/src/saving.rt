//! The bytes of a saved keyboard, and the keyboard that bytes mean.

ghost use Rattle.std.specs.Prelude.{◌≡◌, [], length, Ok, IfOk, IfErr};
ghost use Rattle.joint_saved.specs.Saved.{IsUnloaded, kept_of, loaded, saved_bytes};
ghost use Rattle.live_board.specs.Pasts.{Past};
ghost use Rattle.live_board.specs.Saved.{kept};
ghost use Rattle.live_board.specs.States.{HasPast};

use crate::heard::Heard;
use crate::keyboard::Keyboard;
use crate::parts::Parts;
use arrayvec::ArrayVec;
use joint_run::{Due, Seen};
use joint_saved::{Loaded, Unloaded, load, save};
use std::alloc::Global;

/// The parts of what was loaded. No event of the host waits.
fn parts(loaded: Loaded) -> Parts
    ensures kept { kept result ≡ kept_of loaded }
    ensures host { result.due.host.items ≡ [] }
{
    Parts {
        joint: loaded.joint,
        due: Due {
            edges: loaded.edges,
            host: ArrayVec::new(),
        },
        seen: Seen::nothing(),
        heard: Heard {
            items: loaded.items,
            lost: loaded.lost,
        },
        rises: loaded.rises,
    }
}

impl Keyboard {
    /// The 3,077 bytes of the keyboard's state. Loaded again they are a keyboard in the same state.
    pub fn save(&self) -> ArrayVec<u8, 3077>
        ensures bytes { result.items ≡ saved_bytes (kept self.now) }
        ensures count { length result.items ≡ 3077 }
        ensures loaded { loaded result.items ≡ Ok (kept self.now) }
    {
        let parts = &self.parts;
        save(
            &parts.joint,
            parts.due.edges.as_slice(),
            parts.heard.items.as_slice(),
            parts.heard.lost,
            parts.rises,
        )
    }

    /// The keyboard that these bytes mean, with memory of its own. They are refused by the first thing that they lack. It is
    /// in every past of a keyboard whose bytes they are.
    pub fn load(alloc: Global, bytes: &[u8]) -> Result<Keyboard, Unloaded>
        ensures loaded { IfOk result (λ k. loaded bytes.now ≡ Ok (kept k)) }
        ensures refused { IfErr result (IsUnloaded bytes.now) }
        ensures has_past { IfOk result (λ k. (p : Past) (old : Parts) → loaded bytes.now ≡ Ok (kept old) → HasPast p old → HasPast p k) }
    {
        let loaded = load(alloc, bytes)?;
        let parts = parts(loaded);
        Ok(Keyboard { parts })
    }
}
