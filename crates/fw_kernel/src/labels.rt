//! The places that the layers above name: the labels of `SOURCE`, each with its own name and place.

/// The interrupt's service: the instruction that begins a tick, executed once a tick, at the tick's start.
pub const TICK: u16 = 0x007;

/// One pass of the reading of columns.
pub const READ: u16 = 0x016;

/// Where the byte is found that is to be sent.
pub const OFFER: u16 = 0x024;

/// The lights are put.
pub const LAMPS: u16 = 0x038;

/// Whether the power-on test runs.
pub const TESTED: u16 = 0x03d;

/// The looks at both wires.
pub const LOOKS: u16 = 0x043;

/// Both wires were high: a byte may be sent.
pub const SEND: u16 = 0x055;

/// One cell of a sent frame.
pub const S_CELL: u16 = 0x070;

/// The last cell of a sent frame.
pub const S_STOP: u16 = 0x08e;

/// The controller pulled the clock in a sent frame: both wires are released.
pub const CUT: u16 = 0x098;

/// The tick has no frame, and the controller is why.
pub const INHIBITED: u16 = 0x09c;

/// The tick has no frame.
pub const IDLE: u16 = 0x09d;

/// The clock was high and data low: the controller asks to send.
pub const GOT: u16 = 0x09f;

/// The offer if a reply or AA is due.
pub const O_DUE: u16 = 0x0a8;

/// The clock was low: the controller holds it.
pub const PULLED: u16 = 0x0c4;

/// Data was looked at, without an effect.
pub const P_SEEN: u16 = 0x0c6;

/// The power-on test runs: both looks, and one of its ticks.
pub const TESTING: u16 = 0x0c8;

/// The clock was looked at, without an effect.
pub const E_CLOCK: u16 = 0x0ce;

/// Data was looked at, without an effect.
pub const E_DATA: u16 = 0x0d0;

/// Power-on.
pub const START: u16 = 0x0f2;

/// Power-on, once what isn't 00 is set: the timer.
pub const BEGIN: u16 = 0x0f5;

/// The delay before the timer starts.
pub const PAUSE: u16 = 0x0f8;

/// The main program: the loop in which the processor waits for the next tick.
pub const WAIT: u16 = 0x0fc;

/// A frame of the controller is received.
pub const RECEIVE: u16 = 0x0fe;

/// One cell of a data bit.
pub const R_CELL: u16 = 0x106;

/// The data bit is in A.
pub const R_BIT: u16 = 0x116;

/// The delay after it.
pub const R_HIGH: u16 = 0x118;

/// The cell of the parity bit.
pub const R_PARITY: u16 = 0x11c;

/// A says whether the parity is right.
pub const P_BIT: u16 = 0x134;

/// The cell of the stop bit.
pub const R_STOP: u16 = 0x13a;

/// The stop bit was looked at, without an effect.
pub const T_ON: u16 = 0x144;

/// The last cell of a received frame, in which data is pulled.
pub const R_ACK: u16 = 0x14a;

/// A byte was received.
pub const COMMAND: u16 = 0x152;

/// It is a parameter.
pub const PARAMETER: u16 = 0x165;

/// A parameter was awaited, and it is none.
pub const WAITING: u16 = 0x179;

/// Which command is it?
pub const READY: u16 = 0x17f;

/// A byte was sent.
pub const SENT: u16 = 0x200;

/// What was offered goes.
pub const DROP: u16 = 0x209;

/// The reset of the keyboard.
pub const RESET: u16 = 0x232;

/// The layout's rate.
pub const DEFAULT: u16 = 0x248;

/// Nothing repeats, and the queue is cleared.
pub const CLEAR: u16 = 0x24e;

/// What is done with the keys begins: is scanning on?
pub const SCAN: u16 = 0x258;

/// The count of the repeating key falls.
pub const REPEAT: u16 = 0x269;

/// The repeating key's period begins.
pub const FIRE: u16 = 0x272;

/// The repeating key's code enters the queue.
pub const AGAIN: u16 = 0x283;

/// The repeating is done with.
pub const REST: u16 = 0x292;

/// What isn't 00 at power-on.
pub const POWER: u16 = 0x29a;

/// Both ports are let go, and a service that is marked ends.
pub const RESTART: u16 = 0x2ac;

/// Data memory is cleared.
pub const BLANK: u16 = 0x2bb;

/// A reset: a flipped bit's traces go.
pub const HEAL: u16 = 0x2c5;

/// The columns' changes in order.
pub const EDGES: u16 = 0x409;

/// One column.
pub const COLUMN: u16 = 0x40b;

/// Is there another column?
pub const MORE: u16 = 0x40f;

/// The service ends.
pub const DONE: u16 = 0x414;

/// The column has changed.
pub const MOVED: u16 = 0x416;

/// The column's layers and make-only keys.
pub const LAYERS: u16 = 0x424;

/// The rows of a changed column.
pub const ROWS: u16 = 0x42f;

/// One row.
pub const ROW: u16 = 0x432;

/// The row has an edge.
pub const EDGE: u16 = 0x43a;

/// The key went down.
pub const PRESS: u16 = 0x441;

/// The key begins to repeat.
pub const BEGINS: u16 = 0x454;

/// One byte enters the queue.
pub const ENTER: u16 = 0x463;

/// The Fn key went down.
pub const FN_DOWN: u16 = 0x47a;

/// The Fn key went up.
pub const FN_UP: u16 = 0x480;

/// The key went up.
pub const RELEASE: u16 = 0x486;

/// A release's layer is known.
pub const LOWER: u16 = 0x48e;

/// The key's own repeating ends.
pub const ENDS: u16 = 0x497;

/// Has the key a break?
pub const SILENT: u16 = 0x4a1;

/// F0 and one byte enter the queue.
pub const ENTER2: u16 = 0x4ac;

/// The row is done.
pub const ENTERED: u16 = 0x4c3;

/// The next column.
pub const FOOT: u16 = 0x4c7;

/// In a reset: is the Fn key held?
pub const FN_HELD: u16 = 0x4d6;

/// With a debounce: what two readings show changes.
pub const SETTLE: u16 = 0x500;
