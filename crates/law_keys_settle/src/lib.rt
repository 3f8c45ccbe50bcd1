//! Keys whose switches settle late: with a debounce each stroke of a key is one press and one release, however its contact
//! bounces for 15 milliseconds after each of them.
//!
//! This layer compares two keyboards of `model_link`: one with a debounce under contacts that bounce, and one without
//! under keys that don't. It knows no processor, no wire and no firmware. A stamp is a cycle of 2.5 microseconds. Source:
//! our own.
#![tactic(auto)]

ghost use Rattle.law_keys_settle.specs.Settling.{SwitchesTypeOnce};
ghost use Rattle.law_keys_settle.specs.Taking.{EdgesAreTakenOnce};

/// Let a layout have a debounce, and let each contact show its key except for 6,000 cycles (15 milliseconds) after each of
/// the key's edges, when it may show anything. If two edges of one key are at least 10,300 cycles (25.75 milliseconds)
/// apart, the keyboard and the PC do what they do under the same keys without bouncing and without a debounce, where each
/// edge comes up to 10,300 cycles later. So what is taken of a key are its own edges, each once and in their order, and each
/// by the time that it is 10,300 cycles old. Nothing is done when it is called; the laws are its contract.
pub fn switches_type_once()
    ensures once { SwitchesTypeOnce }
    ensures taken { EdgesAreTakenOnce }
{}
