//! What a row of the opcode table says of the places that can follow and of the registers of bank 0.
//!
//! Source: MCS-48 Family User's Manual, instruction set; which rows may be certified is our own.

ghost use Rattle.std.specs.Prelude.{◌≡◌, ◌<◌, Some, None, IfSome};
ghost use Rattle.mcs48_isa.specs.Text.{target};
ghost use Rattle.mcs48_isa.specs.Operands.{IsOp};
ghost use Rattle.cycle_cert.specs.declared.rows.When.TheVariants.{Always};
ghost use Rattle.cycle_cert.specs.Rows.{is_certifiable, fits, place_after, two_ways, branch_ways, counting_ways};
ghost use Rattle.cycle_cert.specs.Rows.{ways, ways_in, value_given, writes, heaviest};

use mcs48_isa::{ControlOp, FlowOp, MoveOp, Op, PLACES, UnaryOp};

/// When a way out of a row is taken, as far as a register decides it. The registers are numbered 0 to 7.
#[derive(Clone, Copy, Drop)]
pub(crate) enum When {
    /// No register decides it.
    Always,
    /// The register isn't 01 before the row: a counting jump is made.
    NotAtOne(u8),
    /// The register is 01 before the row: a counting jump isn't made.
    AtOne(u8),
}

impl When {
    /// Whether the way can be taken if this register has this value before the row.
    pub(crate) fn fits(self, register: u8, value: u8) -> bool
        ensures { result ≡ fits self register value }
    {
        match self {
            When::Always => true,
            When::NotAtOne(counter) => register != counter || value != 1,
            When::AtOne(counter) => register != counter || value == 1,
        }
    }
}

/// A place that can follow a row, 0 to 2,047, and when it does.
#[derive(Clone, Copy, Drop)]
pub(crate) struct Way {
    pub(crate) to: u16,
    pub(crate) when: When,
}

/// The ways out of a row: one, or two if it is a conditional jump, the jump first.
#[derive(Clone, Copy, Drop)]
pub(crate) struct Ways {
    pub(crate) first: Way,
    pub(crate) second: Option<Way>,
}

/// Whether a row with this operation may be certified: not one that returns, jumps to a place that the program
/// computes, turns an interrupt on, or may select another bank.
pub(crate) fn is_certifiable(op: Op) -> bool
    ensures { result ≡ is_certifiable op }
{
    !matches!(
        op,
        Op::Flow(FlowOp::Ret | FlowOp::Retr | FlowOp::Jmpp)
            | Op::Control(ControlOp::EnI | ControlOp::EnTcnti | ControlOp::SelRb1)
            | Op::Moves(MoveOp::MovPswA)
    )
}

/// One way out.
fn only(to: u16) -> Ways
    ensures { result ≡ record { first = record { to = to; when = Always }; second = None } }
{
    Ways {
        first: Way {
            to,
            when: When::Always,
        },
        second: None,
    }
}

/// The place so many bytes after a place, modulo the memory's 2,048.
fn place_after(place: u16, len: u8) -> u16
    requires { place < 2048 }
    ensures place { result ≡ place_after place len }
    ensures within { result < 2048 }
{
    (place + u16::from(len)) % PLACES as u16
}

/// The place that a jump from a place makes to a low byte: it is in the page of the jump's second byte.
fn jump_target(place: u16, low: u8) -> u16
    requires { place < 2048 }
    ensures target { result ≡ target place low }
    ensures within { result < 2048 }
{
    (place + 1) % PLACES as u16 / 256 * 256 + u16::from(low)
}

/// The ways out of a conditional jump to a low byte, and when the jump is made and isn't.
fn two_ways(place: u16, len: u8, low: u8, made: When, unmade: When) -> Ways
    requires { place < 2048 }
    ensures ways { ways_in result ≡ two_ways made unmade low len place }
    ensures first { result.first.to < 2048 }
    ensures second { IfSome result.second (λ way. way.to < 2048) }
{
    Ways {
        first: Way {
            to: jump_target(place, low),
            when: made,
        },
        second: Some(Way {
            to: place_after(place, len),
            when: unmade,
        }),
    }
}

/// The ways out of a conditional jump that no register decides.
fn branch(place: u16, len: u8, low: u8) -> Ways
    requires { place < 2048 }
    ensures ways { ways_in result ≡ branch_ways low len place }
    ensures first { result.first.to < 2048 }
    ensures second { IfSome result.second (λ way. way.to < 2048) }
{
    two_ways(place, len, low, When::Always, When::Always)
}

/// The ways out of a counting jump on a register.
fn count(place: u16, len: u8, register: u8, low: u8) -> Ways
    requires { place < 2048 }
    ensures ways { ways_in result ≡ counting_ways register low len place }
    ensures first { result.first.to < 2048 }
    ensures second { IfSome result.second (λ way. way.to < 2048) }
{
    two_ways(
        place,
        len,
        low,
        When::NotAtOne(register),
        When::AtOne(register),
    )
}

/// The ways out of a row of this many bytes, 1 or 2, at a place.
pub(crate) fn ways_of(op: Op, len: u8, place: u16) -> Ways
    requires operands { IsOp op }
    requires within { place < 2048 }
    ensures ways { ways_in result ≡ ways op len place }
    ensures first { result.first.to < 2048 }
    ensures second { IfSome result.second (λ way. way.to < 2048) }
{
    let Op::Flow(op) = op else {
        return only(place_after(place, len));
    };
    match op {
        FlowOp::Jmp(to) => only(to),
        FlowOp::Call(to) => only(to),
        FlowOp::Ret => only(place_after(place, len)),
        FlowOp::Retr => only(place_after(place, len)),
        FlowOp::Jmpp => only(place_after(place, len)),
        FlowOp::Djnz(register, low) => count(place, len, register, low),
        FlowOp::Jb(_, low) => branch(place, len, low),
        FlowOp::Jc(low) => branch(place, len, low),
        FlowOp::Jnc(low) => branch(place, len, low),
        FlowOp::Jz(low) => branch(place, len, low),
        FlowOp::Jnz(low) => branch(place, len, low),
        FlowOp::Jt0(low) => branch(place, len, low),
        FlowOp::Jnt0(low) => branch(place, len, low),
        FlowOp::Jt1(low) => branch(place, len, low),
        FlowOp::Jnt1(low) => branch(place, len, low),
        FlowOp::Jf0(low) => branch(place, len, low),
        FlowOp::Jf1(low) => branch(place, len, low),
        FlowOp::Jtf(low) => branch(place, len, low),
        FlowOp::Jni(low) => branch(place, len, low),
    }
}

/// The value that a row gives to a register of the selected bank, from its value before; none if the row names no
/// value for it.
fn value_given(op: Op, register: u8, value: u8) -> Option<u8>
    ensures { result ≡ value_given op register value }
{
    match op {
        Op::Moves(MoveOp::MovRN(written, n)) => (register == written).then_some(n),
        Op::Unary(UnaryOp::IncR(written)) => (register == written).then_some(value.wrapping_add(1)),
        Op::Unary(UnaryOp::DecR(written)) => (register == written).then_some(value.wrapping_sub(1)),
        Op::Flow(FlowOp::Djnz(written, _)) => {
            (register == written).then_some(value.wrapping_sub(1))
        }
        _ => None,
    }
}

/// Whether a row can write a register of the selected bank: it names the register as written, or it writes at a place
/// that a register points to.
fn writes(op: Op, register: u8) -> bool
    ensures { result ≡ writes op register }
{
    match op {
        Op::Moves(MoveOp::MovRA(written)) => register == written,
        Op::Moves(MoveOp::MovRN(written, _)) => register == written,
        Op::Moves(MoveOp::XchR(written)) => register == written,
        Op::Unary(UnaryOp::IncR(written)) => register == written,
        Op::Unary(UnaryOp::DecR(written)) => register == written,
        Op::Flow(FlowOp::Djnz(written, _)) => register == written,
        Op::Moves(MoveOp::MovIA(_) | MoveOp::MovIN(_, _) | MoveOp::XchI(_) | MoveOp::XchdI(_)) => {
            true
        }
        Op::Unary(UnaryOp::IncI(_)) => true,
        _ => false,
    }
}

/// Of the values that a row allows a register after it, from its value before, the one of the greatest weight.
pub(crate) fn heaviest(op: Op, register: u8, value: u8) -> u8
    ensures { result ≡ heaviest op register value }
{
    match value_given(op, register, value) {
        Some(given) => given,
        None if writes(op, register) => 0,
        None => value,
    }
}
