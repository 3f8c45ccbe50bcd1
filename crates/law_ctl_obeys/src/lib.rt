//! The keyboard controller of the PC/AT keeps the rules of a host, so the keyboard works at it.
//!
//! This layer knows the laws of any host (`law_any_host`) and the controller at its two wires, cycle by cycle. It shows that the
//! laws aren't empty: the controller is such a host, whatever the PC does. It must not know the host's turn, INT 09h, or
//! how a run is made. Source: our own.
#![tactic(auto)]

ghost use Rattle.law_ctl_obeys.specs.AtController.{AtControllerLaw};
ghost use Rattle.law_ctl_obeys.specs.Controller.{ControllerLaw};

/// The keyboard controller keeps the rules of the link, whatever the keyboard drives and whatever the PC writes, reads and
/// inverts by noise: so the keyboard works at it, under any keys that the layout has, whatever the PC does. Nothing is done
/// when it is called; the laws are its contract.
pub fn controller_keeps_rules()
    ensures rules { ControllerLaw }
    ensures works { AtControllerLaw }
{}
