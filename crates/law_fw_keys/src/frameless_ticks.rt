//! Laws of power-on and of the ticks without a frame.

ghost use Rattle.law_fw_keys.specs.Frameless.{
  FramelessLaw,
  KeepsFrameless,
  PowerOnLaw,
  PowersOn,
  RestartLaw,
};

use fw_kernel::KERNEL;
use mcs48_isa::Image;

/// From power-on, whatever the pins show, the run reaches a tick start at which data memory shows the model's keyboard
/// at power-on, with the image's rate byte. So it does from any state at 000, if a counter comes that was upset:
/// whatever the register bank, the stack, the mark of a service, the timer, both interrupts and data memory are, if it
/// enters no interrupt there and neither wire is pulled. Nothing is done when it is called; the laws are its contract.
pub fn power_on()
    ensures powers_on { PowerOnLaw }
    ensures restarts { RestartLaw }
{}

/// Every tick without a frame: from a tick start at which data memory shows a keyboard the run reaches the next tick
/// start, 2,048 cycles later give or take one, at which it shows that keyboard and its layers a tick of the model later,
/// by the edges that the columns showed, each in its layer. In the image a place has codes in both layers or in neither:
/// one without is the Fn key's. Without a frame are the ticks of the power-on test, those at whose looks the clock is low,
/// those at whose looks both wires are high while nothing is offered, and those in which data is low at its first look and
/// high at its second. Nothing is done when it is called; the law is its contract.
pub fn every_frameless_tick()
    ensures frameless { FramelessLaw }
{}

/// The kernel with empty tables, as an image: it powers on as the model's keyboard, and keeps its ticks without a frame.
pub fn bare_kernel() -> Image
    ensures powers_on { PowersOn result.bytes }
    ensures frameless { KeepsFrameless result.bytes }
{
    let bytes = KERNEL;
    Image { bytes }
}
