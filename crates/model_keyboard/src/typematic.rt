//! Typematic: when a held key repeats.

ghost use Rattle.std.specs.Prelude.{◌≡◌, ◌<◌};
ghost use Rattle.model_keyboard.specs.Typematic.{delay, period};

/// The ticks from a press to the first repeat, 49 to 195, by bits 5 and 6 of the rate byte.
pub(crate) fn delay(rate: u8) -> u8
    ensures ticks { result ≡ delay rate }
    ensures some { 0 < result }
{
    let steps = 1 + u32::from(rate / 32 % 4);
    ((steps * 25_000 + 256) / 512) as u8
}

/// The ticks from one repeat to the next, 7 to 98, by bits 0 to 4 of the rate byte.
pub(crate) fn period(rate: u8) -> u8
    ensures ticks { result ≡ period rate }
    ensures some { 0 < result }
{
    let steps = u32::from(8 + rate % 8) << (rate / 8 % 4);
    ((steps * 417 + 256) / 512) as u8
}
