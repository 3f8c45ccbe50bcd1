//! The cells of data memory that the layers above name, as `SOURCE` has them.

/// R0 of a tick, which works in register bank 1.
pub const R0: u8 = 0x18;

/// R1 of a tick.
pub const R1: u8 = 0x19;

/// R2 of a tick.
pub const R2: u8 = 0x1a;

/// R3 of a tick.
pub const R3: u8 = 0x1b;

/// R4 of a tick: mostly the byte that is sent or was received.
pub const R4: u8 = 0x1c;

/// R5 of a tick.
pub const R5: u8 = 0x1d;

/// R6 of a tick.
pub const R6: u8 = 0x1e;

/// R7 of a tick.
pub const R7: u8 = 0x1f;

/// The keys that are down: a byte a column.
pub const HELD: u8 = 0x20;

/// The keys whose state changed in this tick: a byte a column.
pub const CHANGED: u8 = 0x30;

/// 0 no reply, 1 a reply is due, 3 the reply to a reset is due.
pub const REPLYDUE: u8 = 0x40;

/// 1 if AA is due.
pub const AADUE: u8 = 0x41;

/// Bits 0 to 4 the queue's length, bit 7 the overrun mark.
pub const COUNT: u8 = 0x42;

/// Where the queue's first byte is in the ring.
pub const HEAD: u8 = 0x43;

/// 1 if the F0 of a break has gone and its code is still in the queue.
pub const STARTED: u8 = 0x44;

/// Ticks left of the power-on test.
pub const TEST: u8 = 0x45;

/// 0 Ready, 1 WantRate, 2 WantLights.
pub const MODE: u8 = 0x46;

/// 1 if scanning is disabled.
pub const DISABLED: u8 = 0x47;

/// The index of the repeating key's code: its place, or 97 more in the second layer.
pub const RINDEX: u8 = 0x48;

/// The rate byte.
pub const RATE: u8 = 0x49;

/// Ticks until the key repeats, 0 if nothing repeats.
pub const RCOUNT: u8 = 0x4a;

/// The reply that is due.
pub const REPLY: u8 = 0x4b;

/// The last byte sent that wasn't FE.
pub const LAST: u8 = 0x4c;

/// Bits 4 to 6: Scroll, Num, Caps are lit.
pub const LIGHTS: u8 = 0x4d;

/// FF if the Fn key is down, else 00.
pub const FN: u8 = 0x4e;

/// The layers of the keys' last presses: a byte a column.
pub const LAYER: u8 = 0x50;

/// With a debounce, the keys that the last reading alone showed otherwise than they are held: a byte a column.
pub const PENDING: u8 = 0x60;
