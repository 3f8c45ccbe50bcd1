//! The kernel's source: its bytes, and the places of its labels.

use crate::kernel::assembled;
use fw_kernel::KERNEL;
use fw_kernel::labels::{
    AGAIN, BEGIN, BEGINS, BLANK, CLEAR, COLUMN, COMMAND, CUT, DEFAULT, DONE, DROP, E_CLOCK, E_DATA,
    EDGE, EDGES, ENDS, ENTER, ENTER2, ENTERED, FIRE, FN_DOWN, FN_HELD, FN_UP, FOOT, GOT, HEAL,
    IDLE, INHIBITED, LAMPS, LAYERS, LOOKS, LOWER, MORE, MOVED, O_DUE, OFFER, P_BIT, P_SEEN,
    PARAMETER, PAUSE, POWER, PRESS, PULLED, R_ACK, R_BIT, R_CELL, R_HIGH, R_PARITY, R_STOP, READ,
    READY, RECEIVE, RELEASE, REPEAT, RESET, REST, RESTART, ROW, ROWS, S_CELL, S_STOP, SCAN, SEND,
    SENT, SETTLE, SILENT, START, T_ON, TESTED, TESTING, TICK, WAIT, WAITING,
};
use std::test::Fail;

#[test]
fn the_source_is_the_kernels(rt: HostRuntime) -> Result<(), Fail> {
    let image = assembled(rt.alloc(), "")?;
    assert!(rt; image.bytes == KERNEL);
    Ok(())
}

/// The labels' names and places.
static LABELS: [(&str, u16); 73] = [
    ("tick", TICK),
    ("read", READ),
    ("offer", OFFER),
    ("lamps", LAMPS),
    ("tested", TESTED),
    ("looks", LOOKS),
    ("send", SEND),
    ("s_cell", S_CELL),
    ("s_stop", S_STOP),
    ("cut", CUT),
    ("inhibited", INHIBITED),
    ("idle", IDLE),
    ("got", GOT),
    ("o_due", O_DUE),
    ("pulled", PULLED),
    ("p_seen", P_SEEN),
    ("testing", TESTING),
    ("e_clock", E_CLOCK),
    ("e_data", E_DATA),
    ("start", START),
    ("begin", BEGIN),
    ("pause", PAUSE),
    ("wait", WAIT),
    ("receive", RECEIVE),
    ("r_cell", R_CELL),
    ("r_bit", R_BIT),
    ("r_high", R_HIGH),
    ("r_parity", R_PARITY),
    ("p_bit", P_BIT),
    ("r_stop", R_STOP),
    ("t_on", T_ON),
    ("r_ack", R_ACK),
    ("command", COMMAND),
    ("parameter", PARAMETER),
    ("waiting", WAITING),
    ("ready", READY),
    ("sent", SENT),
    ("drop", DROP),
    ("reset", RESET),
    ("default", DEFAULT),
    ("clear", CLEAR),
    ("scan", SCAN),
    ("repeat", REPEAT),
    ("fire", FIRE),
    ("again", AGAIN),
    ("rest", REST),
    ("power", POWER),
    ("restart", RESTART),
    ("blank", BLANK),
    ("heal", HEAL),
    ("edges", EDGES),
    ("column", COLUMN),
    ("more", MORE),
    ("done", DONE),
    ("moved", MOVED),
    ("layers", LAYERS),
    ("rows", ROWS),
    ("row", ROW),
    ("edge", EDGE),
    ("press", PRESS),
    ("begins", BEGINS),
    ("enter", ENTER),
    ("fn_down", FN_DOWN),
    ("fn_up", FN_UP),
    ("release", RELEASE),
    ("lower", LOWER),
    ("ends", ENDS),
    ("silent", SILENT),
    ("enter2", ENTER2),
    ("entered", ENTERED),
    ("foot", FOOT),
    ("fn_held", FN_HELD),
    ("settle", SETTLE),
];

/// Whether these bytes begin with a jump to a place.
fn is_jump(bytes: &[u8], to: u16) -> bool {
    match bytes {
        [first, second, ..] => {
            u16::from(*first) == to / 256 * 32 + 4 && u16::from(*second) == to % 256
        }
        _ => false,
    }
}

/// A jump to each label, assembled after the source, goes to the place that its constant gives.
#[test]
fn each_label_has_its_place(rt: HostRuntime) -> Result<(), Fail> {
    let mut after = String::from_str(rt.alloc(), "\n ORG 700H\n")?;
    for (name, _) in &LABELS {
        after.push_str(" JMP ")?;
        after.push_str(name)?;
        after.push_str("\n")?;
    }
    let image = assembled(rt.alloc(), after.as_str())?;
    let mut jumps = &image.bytes[0x700..];
    for (name, place) in &LABELS {
        assert!(rt; is_jump(jumps, *place), "{}", name);
        jumps = jumps.get(2..).unwrap_or(&[]);
    }
    Ok(())
}
