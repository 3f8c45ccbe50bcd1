//! Keys that bounce: which bounces the run of a layout's image goes on under as the model does.
//!
//! This layer knows the joint run under edges in any order (`law_agreement`), and counts which places have edges in a window of
//! cycles. It must not know how a run is made, nor what a switch does in truth. A stamp is a cycle of 2.5 microseconds.
//! Source: our own.
#![tactic(auto)]

ghost use Rattle.law_keys_bounce.specs.Bounces.{BouncesGoOn, BouncesShowFew};

/// Keys may bounce as they like: if in any 2,225 cycles (5.6 milliseconds) at most four places have edges, however many edges
/// each has, every tick shows at most four changed keys, and the run from power-on goes on as the model does, by what the
/// columns show. Nothing is done when it is called; the laws are its contract.
pub fn keys_may_bounce()
    ensures few { BouncesShowFew }
    ensures go_on { BouncesGoOn }
{}
