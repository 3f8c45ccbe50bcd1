//! Whether two machines are in one state.

use joint_run::Joint;
use mcs48_core::Mcu;

/// Whether two processors are alike.
pub fn are_alike(m: &Mcu, n: &Mcu) -> bool {
    let registers = (m.pc, m.a, m.psw, m.t, m.pre) == (n.pc, n.a, n.psw, n.t, n.pre);
    let latches = (m.p1, m.p2, m.bus, m.last_t1) == (n.p1, n.p2, n.bus, n.last_t1);
    let requests = (m.tf, m.rq, m.svc) == (n.tf, n.rq, n.svc);
    registers && latches && requests && m.ram == n.ram
}

/// Whether the controllers, the looks at the clock, the wires and the lights of two machines are alike.
fn have_one_outside(one: &Joint, other: &Joint) -> bool {
    let port = &one.outside().desk.port;
    let same = &other.outside().desk.port;
    let link = (port.filled, port.awaits, port.flip) == (same.filled, same.awaits, same.flip);
    let looks = (port.core.status(), one.outside().clock)
        == (same.core.status(), other.outside().clock);
    link && looks && (one.lines(), one.lights()) == (other.lines(), other.lights())
}

/// Whether two machines show the same keys.
fn have_one_matrix(one: &Joint, other: &Joint) -> bool {
    for p1 in 0..12 {
        if one.matrix().rows(p1) != other.matrix().rows(p1) {
            return false;
        }
    }
    true
}

/// Whether two machines are in one state, after as many cycles and steps.
pub fn are_one(one: &Joint, other: &Joint) -> bool {
    (one.cycle(), one.steps()) == (other.cycle(), other.steps())
        && are_alike(one.mcu(), other.mcu())
        && have_one_outside(one, other)
        && have_one_matrix(one, other)
}
