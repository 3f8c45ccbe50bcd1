//! From bytes to an operation: the opcode table, one arm a row. A range, or two bytes that are neighbours in an arm, would
//! be compared one by one; so MOV A,Rr alone is a range.
//!
//! Source: MCS-48 Family User's Manual, instruction set.

ghost use Rattle.std.specs.Prelude.{◌≡◌, slice_index, is_none, IfSome, ◌<◌, ◌+◌, ◌*◌, ◌/◌};
ghost use Rattle.mcs48_isa.specs.Encoding.{code_of, taken};
ghost use Rattle.mcs48_isa.specs.Instructions.{entry_of};
ghost use Rattle.mcs48_isa.specs.Operands.{IsOp};
ghost use Rattle.mcs48_isa.specs.Rows.{decoded_of};
ghost use Rattle.mcs48_isa.specs.Table.{row_of, is_empty_byte};

use crate::operation::{AluOp, ControlOp, Decoded, FlowOp, MoveOp, Op, PortOp, Row, UnaryOp};

/// The address of a JMP or CALL: its high bits are bits 5 to 7 of the first byte.
fn address(first: u8, n: u8) -> u16
    ensures { result ≡ first / 32 * 256 + n }
{
    (first as u16 >> 5) * 256 + n as u16
}

/// The row of the table for a first byte, and `n`, the byte after it. Each caller gives a `SITE` of its own, and so has
/// a copy of its own, which LLVM builds into it; a table with several callers would be called.
fn read_row<const SITE: u8>(first: u8, n: u8) -> Row
    ensures { decoded_of result ≡ row_of first n }
{
    match first {
        0x00 => Row::Short(Op::Control(ControlOp::Nop)),
        0x01 => Row::Empty,
        0x02 => Row::Slow(Op::PortIo(PortOp::OutlBus)),
        0x03 => Row::Double(Op::Alu(AluOp::AddN(n))),
        0x04 | 0x24 | 0x44 | 0x64 | 0x84 | 0xa4 | 0xc4 | 0xe4 => Row::Double(Op::Flow(FlowOp::Jmp(
            address(first, n),
        ))),
        0x05 => Row::Short(Op::Control(ControlOp::EnI)),
        0x06 => Row::Empty,
        0x07 => Row::Short(Op::Unary(UnaryOp::DecA)),
        0x08 => Row::Slow(Op::PortIo(PortOp::InsBus)),
        0x09 => Row::Slow(Op::PortIo(PortOp::InP1)),
        0x0a => Row::Slow(Op::PortIo(PortOp::InP2)),
        0x0b => Row::Empty,
        0x0c => Row::Slow(Op::PortIo(PortOp::MovdAP(4))),
        0x0d => Row::Slow(Op::PortIo(PortOp::MovdAP(5))),
        0x0e => Row::Slow(Op::PortIo(PortOp::MovdAP(6))),
        0x0f => Row::Slow(Op::PortIo(PortOp::MovdAP(7))),
        0x10 => Row::Short(Op::Unary(UnaryOp::IncI(0))),
        0x11 => Row::Short(Op::Unary(UnaryOp::IncI(1))),
        0x12 | 0x32 | 0x52 | 0x72 | 0x92 | 0xb2 | 0xd2 | 0xf2 => Row::Double(Op::Flow(FlowOp::Jb(
            first >> 5,
            n,
        ))),
        0x13 => Row::Double(Op::Alu(AluOp::AddcN(n))),
        0x14 | 0x34 | 0x54 | 0x74 | 0x94 | 0xb4 | 0xd4 | 0xf4 => Row::Double(Op::Flow(FlowOp::Call(
            address(first, n),
        ))),
        0x15 => Row::Short(Op::Control(ControlOp::DisI)),
        0x16 => Row::Double(Op::Flow(FlowOp::Jtf(n))),
        0x17 => Row::Short(Op::Unary(UnaryOp::IncA)),
        0x18 => Row::Short(Op::Unary(UnaryOp::IncR(0))),
        0x19 => Row::Short(Op::Unary(UnaryOp::IncR(1))),
        0x1a => Row::Short(Op::Unary(UnaryOp::IncR(2))),
        0x1b => Row::Short(Op::Unary(UnaryOp::IncR(3))),
        0x1c => Row::Short(Op::Unary(UnaryOp::IncR(4))),
        0x1d => Row::Short(Op::Unary(UnaryOp::IncR(5))),
        0x1e => Row::Short(Op::Unary(UnaryOp::IncR(6))),
        0x1f => Row::Short(Op::Unary(UnaryOp::IncR(7))),
        0x20 => Row::Short(Op::Moves(MoveOp::XchI(0))),
        0x21 => Row::Short(Op::Moves(MoveOp::XchI(1))),
        0x22 => Row::Empty,
        0x23 => Row::Double(Op::Moves(MoveOp::MovAN(n))),
        0x25 => Row::Short(Op::Control(ControlOp::EnTcnti)),
        0x26 => Row::Double(Op::Flow(FlowOp::Jnt0(n))),
        0x27 => Row::Short(Op::Unary(UnaryOp::ClrA)),
        0x28 => Row::Short(Op::Moves(MoveOp::XchR(0))),
        0x29 => Row::Short(Op::Moves(MoveOp::XchR(1))),
        0x2a => Row::Short(Op::Moves(MoveOp::XchR(2))),
        0x2b => Row::Short(Op::Moves(MoveOp::XchR(3))),
        0x2c => Row::Short(Op::Moves(MoveOp::XchR(4))),
        0x2d => Row::Short(Op::Moves(MoveOp::XchR(5))),
        0x2e => Row::Short(Op::Moves(MoveOp::XchR(6))),
        0x2f => Row::Short(Op::Moves(MoveOp::XchR(7))),
        0x30 => Row::Short(Op::Moves(MoveOp::XchdI(0))),
        0x31 => Row::Short(Op::Moves(MoveOp::XchdI(1))),
        0x33 => Row::Empty,
        0x35 => Row::Short(Op::Control(ControlOp::DisTcnti)),
        0x36 => Row::Double(Op::Flow(FlowOp::Jt0(n))),
        0x37 => Row::Short(Op::Unary(UnaryOp::CplA)),
        0x38 => Row::Empty,
        0x39 => Row::Slow(Op::PortIo(PortOp::OutlP1)),
        0x3a => Row::Slow(Op::PortIo(PortOp::OutlP2)),
        0x3b => Row::Empty,
        0x3c => Row::Slow(Op::PortIo(PortOp::MovdPA(4))),
        0x3d => Row::Slow(Op::PortIo(PortOp::MovdPA(5))),
        0x3e => Row::Slow(Op::PortIo(PortOp::MovdPA(6))),
        0x3f => Row::Slow(Op::PortIo(PortOp::MovdPA(7))),
        0x40 => Row::Short(Op::Alu(AluOp::OrlI(0))),
        0x41 => Row::Short(Op::Alu(AluOp::OrlI(1))),
        0x42 => Row::Short(Op::Moves(MoveOp::MovAT)),
        0x43 => Row::Double(Op::Alu(AluOp::OrlN(n))),
        0x45 => Row::Short(Op::Control(ControlOp::StrtCnt)),
        0x46 => Row::Double(Op::Flow(FlowOp::Jnt1(n))),
        0x47 => Row::Short(Op::Unary(UnaryOp::SwapA)),
        0x48 => Row::Short(Op::Alu(AluOp::OrlR(0))),
        0x49 => Row::Short(Op::Alu(AluOp::OrlR(1))),
        0x4a => Row::Short(Op::Alu(AluOp::OrlR(2))),
        0x4b => Row::Short(Op::Alu(AluOp::OrlR(3))),
        0x4c => Row::Short(Op::Alu(AluOp::OrlR(4))),
        0x4d => Row::Short(Op::Alu(AluOp::OrlR(5))),
        0x4e => Row::Short(Op::Alu(AluOp::OrlR(6))),
        0x4f => Row::Short(Op::Alu(AluOp::OrlR(7))),
        0x50 => Row::Short(Op::Alu(AluOp::AnlI(0))),
        0x51 => Row::Short(Op::Alu(AluOp::AnlI(1))),
        0x53 => Row::Double(Op::Alu(AluOp::AnlN(n))),
        0x55 => Row::Short(Op::Control(ControlOp::StrtT)),
        0x56 => Row::Double(Op::Flow(FlowOp::Jt1(n))),
        0x57 => Row::Short(Op::Unary(UnaryOp::DaA)),
        0x58 => Row::Short(Op::Alu(AluOp::AnlR(0))),
        0x59 => Row::Short(Op::Alu(AluOp::AnlR(1))),
        0x5a => Row::Short(Op::Alu(AluOp::AnlR(2))),
        0x5b => Row::Short(Op::Alu(AluOp::AnlR(3))),
        0x5c => Row::Short(Op::Alu(AluOp::AnlR(4))),
        0x5d => Row::Short(Op::Alu(AluOp::AnlR(5))),
        0x5e => Row::Short(Op::Alu(AluOp::AnlR(6))),
        0x5f => Row::Short(Op::Alu(AluOp::AnlR(7))),
        0x60 => Row::Short(Op::Alu(AluOp::AddI(0))),
        0x61 => Row::Short(Op::Alu(AluOp::AddI(1))),
        0x62 => Row::Short(Op::Moves(MoveOp::MovTA)),
        0x63 => Row::Empty,
        0x65 => Row::Short(Op::Control(ControlOp::StopTcnt)),
        0x66 => Row::Empty,
        0x67 => Row::Short(Op::Unary(UnaryOp::RrcA)),
        0x68 => Row::Short(Op::Alu(AluOp::AddR(0))),
        0x69 => Row::Short(Op::Alu(AluOp::AddR(1))),
        0x6a => Row::Short(Op::Alu(AluOp::AddR(2))),
        0x6b => Row::Short(Op::Alu(AluOp::AddR(3))),
        0x6c => Row::Short(Op::Alu(AluOp::AddR(4))),
        0x6d => Row::Short(Op::Alu(AluOp::AddR(5))),
        0x6e => Row::Short(Op::Alu(AluOp::AddR(6))),
        0x6f => Row::Short(Op::Alu(AluOp::AddR(7))),
        0x70 => Row::Short(Op::Alu(AluOp::AddcI(0))),
        0x71 => Row::Short(Op::Alu(AluOp::AddcI(1))),
        0x73 => Row::Empty,
        0x75 => Row::Short(Op::Control(ControlOp::Ent0Clk)),
        0x76 => Row::Double(Op::Flow(FlowOp::Jf1(n))),
        0x77 => Row::Short(Op::Unary(UnaryOp::RrA)),
        0x78 => Row::Short(Op::Alu(AluOp::AddcR(0))),
        0x79 => Row::Short(Op::Alu(AluOp::AddcR(1))),
        0x7a => Row::Short(Op::Alu(AluOp::AddcR(2))),
        0x7b => Row::Short(Op::Alu(AluOp::AddcR(3))),
        0x7c => Row::Short(Op::Alu(AluOp::AddcR(4))),
        0x7d => Row::Short(Op::Alu(AluOp::AddcR(5))),
        0x7e => Row::Short(Op::Alu(AluOp::AddcR(6))),
        0x7f => Row::Short(Op::Alu(AluOp::AddcR(7))),
        0x80 => Row::Slow(Op::Moves(MoveOp::MovxAI(0))),
        0x81 => Row::Slow(Op::Moves(MoveOp::MovxAI(1))),
        0x82 => Row::Empty,
        0x83 => Row::Slow(Op::Flow(FlowOp::Ret)),
        0x85 => Row::Short(Op::Unary(UnaryOp::ClrF0)),
        0x86 => Row::Double(Op::Flow(FlowOp::Jni(n))),
        0x87 => Row::Empty,
        0x88 => Row::Double(Op::PortIo(PortOp::OrlBus(n))),
        0x89 => Row::Double(Op::PortIo(PortOp::OrlP1(n))),
        0x8a => Row::Double(Op::PortIo(PortOp::OrlP2(n))),
        0x8b => Row::Empty,
        0x8c => Row::Slow(Op::PortIo(PortOp::OrldPA(4))),
        0x8d => Row::Slow(Op::PortIo(PortOp::OrldPA(5))),
        0x8e => Row::Slow(Op::PortIo(PortOp::OrldPA(6))),
        0x8f => Row::Slow(Op::PortIo(PortOp::OrldPA(7))),
        0x90 => Row::Slow(Op::Moves(MoveOp::MovxIA(0))),
        0x91 => Row::Slow(Op::Moves(MoveOp::MovxIA(1))),
        0x93 => Row::Slow(Op::Flow(FlowOp::Retr)),
        0x95 => Row::Short(Op::Unary(UnaryOp::CplF0)),
        0x96 => Row::Double(Op::Flow(FlowOp::Jnz(n))),
        0x97 => Row::Short(Op::Unary(UnaryOp::ClrC)),
        0x98 => Row::Double(Op::PortIo(PortOp::AnlBus(n))),
        0x99 => Row::Double(Op::PortIo(PortOp::AnlP1(n))),
        0x9a => Row::Double(Op::PortIo(PortOp::AnlP2(n))),
        0x9b => Row::Empty,
        0x9c => Row::Slow(Op::PortIo(PortOp::AnldPA(4))),
        0x9d => Row::Slow(Op::PortIo(PortOp::AnldPA(5))),
        0x9e => Row::Slow(Op::PortIo(PortOp::AnldPA(6))),
        0x9f => Row::Slow(Op::PortIo(PortOp::AnldPA(7))),
        0xa0 => Row::Short(Op::Moves(MoveOp::MovIA(0))),
        0xa1 => Row::Short(Op::Moves(MoveOp::MovIA(1))),
        0xa2 => Row::Empty,
        0xa3 => Row::Slow(Op::Moves(MoveOp::Movp)),
        0xa5 => Row::Short(Op::Unary(UnaryOp::ClrF1)),
        0xa6 => Row::Empty,
        0xa7 => Row::Short(Op::Unary(UnaryOp::CplC)),
        0xa8 => Row::Short(Op::Moves(MoveOp::MovRA(0))),
        0xa9 => Row::Short(Op::Moves(MoveOp::MovRA(1))),
        0xaa => Row::Short(Op::Moves(MoveOp::MovRA(2))),
        0xab => Row::Short(Op::Moves(MoveOp::MovRA(3))),
        0xac => Row::Short(Op::Moves(MoveOp::MovRA(4))),
        0xad => Row::Short(Op::Moves(MoveOp::MovRA(5))),
        0xae => Row::Short(Op::Moves(MoveOp::MovRA(6))),
        0xaf => Row::Short(Op::Moves(MoveOp::MovRA(7))),
        0xb0 => Row::Double(Op::Moves(MoveOp::MovIN(0, n))),
        0xb1 => Row::Double(Op::Moves(MoveOp::MovIN(1, n))),
        0xb3 => Row::Slow(Op::Flow(FlowOp::Jmpp)),
        0xb5 => Row::Short(Op::Unary(UnaryOp::CplF1)),
        0xb6 => Row::Double(Op::Flow(FlowOp::Jf0(n))),
        0xb7 => Row::Empty,
        0xb8 => Row::Double(Op::Moves(MoveOp::MovRN(0, n))),
        0xb9 => Row::Double(Op::Moves(MoveOp::MovRN(1, n))),
        0xba => Row::Double(Op::Moves(MoveOp::MovRN(2, n))),
        0xbb => Row::Double(Op::Moves(MoveOp::MovRN(3, n))),
        0xbc => Row::Double(Op::Moves(MoveOp::MovRN(4, n))),
        0xbd => Row::Double(Op::Moves(MoveOp::MovRN(5, n))),
        0xbe => Row::Double(Op::Moves(MoveOp::MovRN(6, n))),
        0xbf => Row::Double(Op::Moves(MoveOp::MovRN(7, n))),
        0xc0 => Row::Empty,
        0xc1 => Row::Empty,
        0xc2 => Row::Empty,
        0xc3 => Row::Empty,
        0xc5 => Row::Short(Op::Control(ControlOp::SelRb0)),
        0xc6 => Row::Double(Op::Flow(FlowOp::Jz(n))),
        0xc7 => Row::Short(Op::Moves(MoveOp::MovAPsw)),
        0xc8 => Row::Short(Op::Unary(UnaryOp::DecR(0))),
        0xc9 => Row::Short(Op::Unary(UnaryOp::DecR(1))),
        0xca => Row::Short(Op::Unary(UnaryOp::DecR(2))),
        0xcb => Row::Short(Op::Unary(UnaryOp::DecR(3))),
        0xcc => Row::Short(Op::Unary(UnaryOp::DecR(4))),
        0xcd => Row::Short(Op::Unary(UnaryOp::DecR(5))),
        0xce => Row::Short(Op::Unary(UnaryOp::DecR(6))),
        0xcf => Row::Short(Op::Unary(UnaryOp::DecR(7))),
        0xd0 => Row::Short(Op::Alu(AluOp::XrlI(0))),
        0xd1 => Row::Short(Op::Alu(AluOp::XrlI(1))),
        0xd3 => Row::Double(Op::Alu(AluOp::XrlN(n))),
        0xd5 => Row::Short(Op::Control(ControlOp::SelRb1)),
        0xd6 => Row::Empty,
        0xd7 => Row::Short(Op::Moves(MoveOp::MovPswA)),
        0xd8 => Row::Short(Op::Alu(AluOp::XrlR(0))),
        0xd9 => Row::Short(Op::Alu(AluOp::XrlR(1))),
        0xda => Row::Short(Op::Alu(AluOp::XrlR(2))),
        0xdb => Row::Short(Op::Alu(AluOp::XrlR(3))),
        0xdc => Row::Short(Op::Alu(AluOp::XrlR(4))),
        0xdd => Row::Short(Op::Alu(AluOp::XrlR(5))),
        0xde => Row::Short(Op::Alu(AluOp::XrlR(6))),
        0xdf => Row::Short(Op::Alu(AluOp::XrlR(7))),
        0xe0 => Row::Empty,
        0xe1 => Row::Empty,
        0xe2 => Row::Empty,
        0xe3 => Row::Slow(Op::Moves(MoveOp::Movp3)),
        0xe5 => Row::Short(Op::Control(ControlOp::SelMb0)),
        0xe6 => Row::Double(Op::Flow(FlowOp::Jnc(n))),
        0xe7 => Row::Short(Op::Unary(UnaryOp::RlA)),
        0xe8 => Row::Double(Op::Flow(FlowOp::Djnz(0, n))),
        0xe9 => Row::Double(Op::Flow(FlowOp::Djnz(1, n))),
        0xea => Row::Double(Op::Flow(FlowOp::Djnz(2, n))),
        0xeb => Row::Double(Op::Flow(FlowOp::Djnz(3, n))),
        0xec => Row::Double(Op::Flow(FlowOp::Djnz(4, n))),
        0xed => Row::Double(Op::Flow(FlowOp::Djnz(5, n))),
        0xee => Row::Double(Op::Flow(FlowOp::Djnz(6, n))),
        0xef => Row::Double(Op::Flow(FlowOp::Djnz(7, n))),
        0xf0 => Row::Short(Op::Moves(MoveOp::MovAI(0))),
        0xf1 => Row::Short(Op::Moves(MoveOp::MovAI(1))),
        0xf3 => Row::Empty,
        0xf5 => Row::Short(Op::Control(ControlOp::SelMb1)),
        0xf6 => Row::Double(Op::Flow(FlowOp::Jc(n))),
        0xf7 => Row::Short(Op::Unary(UnaryOp::RlcA)),
        0xf8..=0xff => Row::Short(Op::Moves(MoveOp::MovAR(first & 7))),
    }
}

/// The operation of a row, with its length and its machine cycles.
fn decoded(row: Row) -> Option<Decoded>
    ensures { result ≡ decoded_of row }
{
    let (op, len, cycles) = match row {
        Row::Empty => return None,
        Row::Short(op) => (op, 1, 1),
        Row::Slow(op) => (op, 1, 2),
        Row::Double(op) => (op, 2, 2),
    };
    Some(Decoded { op, len, cycles })
}

/// The operation that begins with the byte `b[0]` and, if it has two bytes, goes on with `b[1]`; its length in
/// bytes and the machine cycles that it takes, both 1 or 2. `None` exactly for the 26 first bytes that the table
/// leaves empty.
///
/// Source: MCS-48 Family User's Manual, instruction set.
pub fn decode(b: [u8; 2]) -> Option<Decoded>
    ensures row { result ≡ row_of (slice_index b 0) (slice_index b 1) }
    ensures empty { is_none result ≡ is_empty_byte (slice_index b 0) }
    ensures operands { IfSome result (λ d. IsOp d.op) }
    ensures some { IfSome result (λ d. 0 < d.cycles) }
    ensures few { IfSome result (λ d. d.cycles < 3) }
    ensures whole { IfSome result (λ d. 0 < d.len) }
    ensures short { IfSome result (λ d. d.len < 3) }
    ensures back { IfSome result (λ d. code_of d.op ≡ taken d.len (slice_index b 0) (slice_index b 1)) }
    ensures cycles { IfSome result (λ d. d.cycles ≡ (entry_of d.op).cycles) }
{
    decoded(read_row::<0>(b[0], b[1]))
}

/// The row that the byte `first` begins if `n` is the byte after it, as `decode` reads it. `SITE`, from 1, is a number
/// of the place that calls, another one for each: a place has a copy of the table of its own, which LLVM builds into it.
#[inline(always)]
pub fn row<const SITE: u8>(first: u8, n: u8) -> Row
    ensures row { decoded_of result ≡ row_of first n }
    ensures operands { IfSome (decoded_of result) (λ d. IsOp d.op) }
{
    read_row::<SITE>(first, n)
}
