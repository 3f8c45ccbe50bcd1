//! From an operation to its bytes: the opcode table, one arm for each of its texts.
//!
//! Source: MCS-48 Family User's Manual, instruction set.

ghost use Rattle.std.specs.Prelude.{◌≡◌, ◌+◌, ◌*◌, ◌/◌, ◌%◌, ◌<◌, IsSomeAnd};
ghost use Rattle.mcs48_isa.specs.Encoding.{code_of, one_byte, two_bytes, row_of_code};
ghost use Rattle.mcs48_isa.specs.Operands.{IsOp, IsMove, IsAlu, IsUnary, IsFlow, IsPort};

use crate::operation::{AluOp, Code, ControlOp, FlowOp, MoveOp, Op, PortOp, UnaryOp};

/// A code of one byte.
fn one(first: u8) -> Code
    ensures { result ≡ one_byte first }
{
    Code {
        bytes: [first, 0],
        len: 1,
    }
}

/// A code of two bytes.
fn two(first: u8, second: u8) -> Code
    ensures { result ≡ two_bytes first second }
{
    Code {
        bytes: [first, second],
        len: 2,
    }
}

/// A jump to an address, by the five low bits of its first byte.
fn jump(first: u8, address: u16) -> Code
    requires low { first < 32 }
    requires within { address < 2048 }
    ensures { result ≡ two_bytes (first + 32 * (address / 256)) (address % 256) }
{
    two(first + 32 * (address / 256) as u8, (address % 256) as u8)
}

fn move_code(op: MoveOp) -> Code
    requires { IsMove op }
    ensures { result ≡ code_of (Op.Moves op) }
{
    match op {
        MoveOp::MovAN(n) => two(0x23, n),
        MoveOp::MovAR(r) => one(0xf8 + r),
        MoveOp::MovAI(i) => one(0xf0 + i),
        MoveOp::MovRA(r) => one(0xa8 + r),
        MoveOp::MovIA(i) => one(0xa0 + i),
        MoveOp::MovRN(r, n) => two(0xb8 + r, n),
        MoveOp::MovIN(i, n) => two(0xb0 + i, n),
        MoveOp::MovAPsw => one(0xc7),
        MoveOp::MovPswA => one(0xd7),
        MoveOp::MovAT => one(0x42),
        MoveOp::MovTA => one(0x62),
        MoveOp::XchR(r) => one(0x28 + r),
        MoveOp::XchI(i) => one(0x20 + i),
        MoveOp::XchdI(i) => one(0x30 + i),
        MoveOp::Movp => one(0xa3),
        MoveOp::Movp3 => one(0xe3),
        MoveOp::MovxAI(i) => one(0x80 + i),
        MoveOp::MovxIA(i) => one(0x90 + i),
    }
}

fn alu_code(op: AluOp) -> Code
    requires { IsAlu op }
    ensures { result ≡ code_of (Op.Alu op) }
{
    match op {
        AluOp::AddR(r) => one(0x68 + r),
        AluOp::AddI(i) => one(0x60 + i),
        AluOp::AddN(n) => two(0x03, n),
        AluOp::AddcR(r) => one(0x78 + r),
        AluOp::AddcI(i) => one(0x70 + i),
        AluOp::AddcN(n) => two(0x13, n),
        AluOp::AnlR(r) => one(0x58 + r),
        AluOp::AnlI(i) => one(0x50 + i),
        AluOp::AnlN(n) => two(0x53, n),
        AluOp::OrlR(r) => one(0x48 + r),
        AluOp::OrlI(i) => one(0x40 + i),
        AluOp::OrlN(n) => two(0x43, n),
        AluOp::XrlR(r) => one(0xd8 + r),
        AluOp::XrlI(i) => one(0xd0 + i),
        AluOp::XrlN(n) => two(0xd3, n),
    }
}

fn unary_code(op: UnaryOp) -> Code
    requires { IsUnary op }
    ensures { result ≡ code_of (Op.Unary op) }
{
    match op {
        UnaryOp::IncA => one(0x17),
        UnaryOp::IncR(r) => one(0x18 + r),
        UnaryOp::IncI(i) => one(0x10 + i),
        UnaryOp::DecA => one(0x07),
        UnaryOp::DecR(r) => one(0xc8 + r),
        UnaryOp::ClrA => one(0x27),
        UnaryOp::CplA => one(0x37),
        UnaryOp::DaA => one(0x57),
        UnaryOp::SwapA => one(0x47),
        UnaryOp::RlA => one(0xe7),
        UnaryOp::RlcA => one(0xf7),
        UnaryOp::RrA => one(0x77),
        UnaryOp::RrcA => one(0x67),
        UnaryOp::ClrC => one(0x97),
        UnaryOp::CplC => one(0xa7),
        UnaryOp::ClrF0 => one(0x85),
        UnaryOp::CplF0 => one(0x95),
        UnaryOp::ClrF1 => one(0xa5),
        UnaryOp::CplF1 => one(0xb5),
    }
}

fn flow_code(op: FlowOp) -> Code
    requires { IsFlow op }
    ensures { result ≡ code_of (Op.Flow op) }
{
    match op {
        FlowOp::Jmp(a) => jump(0x04, a),
        FlowOp::Call(a) => jump(0x14, a),
        FlowOp::Ret => one(0x83),
        FlowOp::Retr => one(0x93),
        FlowOp::Jmpp => one(0xb3),
        FlowOp::Djnz(r, n) => two(0xe8 + r, n),
        FlowOp::Jb(b, n) => two(0x12 + 32 * b, n),
        FlowOp::Jc(n) => two(0xf6, n),
        FlowOp::Jnc(n) => two(0xe6, n),
        FlowOp::Jz(n) => two(0xc6, n),
        FlowOp::Jnz(n) => two(0x96, n),
        FlowOp::Jt0(n) => two(0x36, n),
        FlowOp::Jnt0(n) => two(0x26, n),
        FlowOp::Jt1(n) => two(0x56, n),
        FlowOp::Jnt1(n) => two(0x46, n),
        FlowOp::Jf0(n) => two(0xb6, n),
        FlowOp::Jf1(n) => two(0x76, n),
        FlowOp::Jtf(n) => two(0x16, n),
        FlowOp::Jni(n) => two(0x86, n),
    }
}

fn port_code(op: PortOp) -> Code
    requires { IsPort op }
    ensures { result ≡ code_of (Op.PortIo op) }
{
    match op {
        PortOp::InP1 => one(0x09),
        PortOp::InP2 => one(0x0a),
        PortOp::InsBus => one(0x08),
        PortOp::OutlP1 => one(0x39),
        PortOp::OutlP2 => one(0x3a),
        PortOp::OutlBus => one(0x02),
        PortOp::AnlP1(n) => two(0x99, n),
        PortOp::AnlP2(n) => two(0x9a, n),
        PortOp::AnlBus(n) => two(0x98, n),
        PortOp::OrlP1(n) => two(0x89, n),
        PortOp::OrlP2(n) => two(0x8a, n),
        PortOp::OrlBus(n) => two(0x88, n),
        PortOp::MovdAP(p) => one(0x08 + p),
        PortOp::MovdPA(p) => one(0x38 + p),
        PortOp::OrldPA(p) => one(0x88 + p),
        PortOp::AnldPA(p) => one(0x98 + p),
    }
}

fn control_code(op: ControlOp) -> Code
    ensures { result ≡ code_of (Op.Control op) }
{
    match op {
        ControlOp::Nop => one(0x00),
        ControlOp::EnI => one(0x05),
        ControlOp::DisI => one(0x15),
        ControlOp::EnTcnti => one(0x25),
        ControlOp::DisTcnti => one(0x35),
        ControlOp::SelRb0 => one(0xc5),
        ControlOp::SelRb1 => one(0xd5),
        ControlOp::SelMb0 => one(0xe5),
        ControlOp::SelMb1 => one(0xf5),
        ControlOp::StrtT => one(0x55),
        ControlOp::StrtCnt => one(0x45),
        ControlOp::StopTcnt => one(0x65),
        ControlOp::Ent0Clk => one(0x75),
    }
}

/// The bytes of an operation whose operands are in their ranges. `decode` of these bytes gives the operation back.
///
/// Source: MCS-48 Family User's Manual, instruction set.
pub fn encode(op: Op) -> Code
    requires operands { IsOp op }
    ensures code { result ≡ code_of op }
    ensures operation { IsSomeAnd (row_of_code result) (λ d. d.op ≡ op) }
    ensures length { IsSomeAnd (row_of_code result) (λ d. d.len ≡ result.len) }
{
    match op {
        Op::Moves(op) => move_code(op),
        Op::Alu(op) => alu_code(op),
        Op::Unary(op) => unary_code(op),
        Op::Flow(op) => flow_code(op),
        Op::PortIo(op) => port_code(op),
        Op::Control(op) => control_code(op),
    }
}
