//! What a keyboard that runs as one goes reports of its two wires is what is heard on them.
//!
//! This layer has a law alone, over `live_board` and `law_wires_heard`; nothing calls it for what it does. Source: our own.
#![tactic(auto)]

ghost use Rattle.law_live_heard.specs.Heard.{BytesArePassed, BytesAreHeard};

use law_wires_heard::wires_are_heard;

/// The bytes on the wires among what happened to a keyboard are, in order, those that the controller takes and sends, whatever
/// program it runs and whatever is called. If its past begins with a layout's compiled image, whatever the part held when it
/// was switched on, and is lawful for the layout, they are just the transfers that a decoder hears which samples the wires after
/// each step: each of them, and no other. Nothing is done when it is called; the laws are its contract.
pub fn items_are_heard()
    ensures passed { BytesArePassed }
    ensures heard { BytesAreHeard }
{
    wires_are_heard();
}
