//! The text of an operation, as a listing writes it.
//!
//! Source: MCS-48 Family User's Manual, instruction set, for the words; the numbers' spelling is our own.

ghost use Rattle.std.specs.Prelude.{◌≡◌, ℕ, ◌<◌, ◌++◌, OnOk, IfOk, codes};
ghost use Rattle.mcs48_isa.specs.Operands.{IsOp, IsMove, IsAlu, IsUnary, IsFlow, IsPort};
ghost use Rattle.mcs48_isa.specs.Instructions.{digit};
ghost use Rattle.mcs48_isa.specs.Text.{text_of, value, address, target};

use crate::operation::{AluOp, ControlOp, FlowOp, MoveOp, Op, PortOp, UnaryOp};
use std::alloc::{AllocError, Global};

/// Appends the bytes of `head`, then a digit below 10, then `tail`.
fn push_digit(text: &mut Vec<u8>, head: &[u8], number: u8, tail: &[u8]) -> Result<(), AllocError>
    requires { number < 10 }
    ensures { OnOk result (text.new.items ≡ text.old.items ++ (head.now ++ digit number ++ tail.now)) }
{
    text.extend_from_slice(head)?;
    text.extend_from_slice(&[b'0' + number])?;
    text.extend_from_slice(tail)
}

/// Appends the bytes of `head`, then a value.
pub fn push_value(text: &mut Vec<u8>, head: &[u8], number: u8) -> Result<(), AllocError>
    ensures text { OnOk result (text.new.items ≡ text.old.items ++ (head.now ++ value number)) }
{
    let [high, low] = hex_text::byte(number);
    text.extend_from_slice(head)?;
    text.extend_from_slice(&[b'0', high, low, b'H'])
}

/// Appends the bytes of `head`, then a digit below 10, then `,#` and a value.
fn push_digit_value(
    text: &mut Vec<u8>,
    head: &[u8],
    number: u8,
    operand: u8,
) -> Result<(), AllocError>
    requires { number < 10 }
    ensures { OnOk result
        (text.new.items ≡ text.old.items ++ (head.now ++ digit number ++ codes ",#" ++ value operand)) }
{
    push_digit(text, head, number, b"")?;
    push_value(text, b",#", operand)
}

/// Appends the bytes of `head`, then an address.
fn push_address(text: &mut Vec<u8>, head: &[u8], place: u16) -> Result<(), AllocError>
    requires { place < 2048 }
    ensures { OnOk result (text.new.items ≡ text.old.items ++ (head.now ++ address place)) }
{
    let [page, high, low] = hex_text::address(place);
    text.extend_from_slice(head)?;
    text.extend_from_slice(&[b'0', page, high, low, b'H'])
}

/// Appends the bytes of `head`, then a digit below 10, then `middle` and an address.
fn push_digit_address(
    text: &mut Vec<u8>,
    head: &[u8],
    number: u8,
    middle: &[u8],
    place: u16,
) -> Result<(), AllocError>
    requires digit { number < 10 }
    requires within { place < 2048 }
    ensures { OnOk result
        (text.new.items ≡ text.old.items ++ (head.now ++ digit number ++ middle.now ++ address place)) }
{
    push_digit(text, head, number, b"")?;
    push_address(text, middle, place)
}

/// The target of a jump at the place `at` with the low byte `low`: it is in the page of the jump's second byte.
fn jump_target(at: u16, low: u8) -> u16
    requires { at < 2048 }
    ensures whole { result ≡ target at low }
    ensures within { result < 2048 }
{
    (at + 1) % 2048 / 256 * 256 + low as u16
}

fn push_move(text: &mut Vec<u8>, op: MoveOp) -> Result<(), AllocError>
    requires { IsMove op }
    ensures { OnOk result ((at : ℕ) → text.new.items ≡ text.old.items ++ text_of (Op.Moves op) at) }
{
    match op {
        MoveOp::MovAN(n) => push_value(text, b"MOV A,#", n),
        MoveOp::MovAR(r) => push_digit(text, b"MOV A,R", r, b""),
        MoveOp::MovAI(i) => push_digit(text, b"MOV A,@R", i, b""),
        MoveOp::MovRA(r) => push_digit(text, b"MOV R", r, b",A"),
        MoveOp::MovIA(i) => push_digit(text, b"MOV @R", i, b",A"),
        MoveOp::MovRN(r, n) => push_digit_value(text, b"MOV R", r, n),
        MoveOp::MovIN(i, n) => push_digit_value(text, b"MOV @R", i, n),
        MoveOp::MovAPsw => text.extend_from_slice(b"MOV A,PSW"),
        MoveOp::MovPswA => text.extend_from_slice(b"MOV PSW,A"),
        MoveOp::MovAT => text.extend_from_slice(b"MOV A,T"),
        MoveOp::MovTA => text.extend_from_slice(b"MOV T,A"),
        MoveOp::XchR(r) => push_digit(text, b"XCH A,R", r, b""),
        MoveOp::XchI(i) => push_digit(text, b"XCH A,@R", i, b""),
        MoveOp::XchdI(i) => push_digit(text, b"XCHD A,@R", i, b""),
        MoveOp::Movp => text.extend_from_slice(b"MOVP A,@A"),
        MoveOp::Movp3 => text.extend_from_slice(b"MOVP3 A,@A"),
        MoveOp::MovxAI(i) => push_digit(text, b"MOVX A,@R", i, b""),
        MoveOp::MovxIA(i) => push_digit(text, b"MOVX @R", i, b",A"),
    }
}

fn push_alu(text: &mut Vec<u8>, op: AluOp) -> Result<(), AllocError>
    requires { IsAlu op }
    ensures { OnOk result ((at : ℕ) → text.new.items ≡ text.old.items ++ text_of (Op.Alu op) at) }
{
    match op {
        AluOp::AddR(r) => push_digit(text, b"ADD A,R", r, b""),
        AluOp::AddI(i) => push_digit(text, b"ADD A,@R", i, b""),
        AluOp::AddN(n) => push_value(text, b"ADD A,#", n),
        AluOp::AddcR(r) => push_digit(text, b"ADDC A,R", r, b""),
        AluOp::AddcI(i) => push_digit(text, b"ADDC A,@R", i, b""),
        AluOp::AddcN(n) => push_value(text, b"ADDC A,#", n),
        AluOp::AnlR(r) => push_digit(text, b"ANL A,R", r, b""),
        AluOp::AnlI(i) => push_digit(text, b"ANL A,@R", i, b""),
        AluOp::AnlN(n) => push_value(text, b"ANL A,#", n),
        AluOp::OrlR(r) => push_digit(text, b"ORL A,R", r, b""),
        AluOp::OrlI(i) => push_digit(text, b"ORL A,@R", i, b""),
        AluOp::OrlN(n) => push_value(text, b"ORL A,#", n),
        AluOp::XrlR(r) => push_digit(text, b"XRL A,R", r, b""),
        AluOp::XrlI(i) => push_digit(text, b"XRL A,@R", i, b""),
        AluOp::XrlN(n) => push_value(text, b"XRL A,#", n),
    }
}

fn push_unary(text: &mut Vec<u8>, op: UnaryOp) -> Result<(), AllocError>
    requires { IsUnary op }
    ensures { OnOk result ((at : ℕ) → text.new.items ≡ text.old.items ++ text_of (Op.Unary op) at) }
{
    match op {
        UnaryOp::IncA => text.extend_from_slice(b"INC A"),
        UnaryOp::IncR(r) => push_digit(text, b"INC R", r, b""),
        UnaryOp::IncI(i) => push_digit(text, b"INC @R", i, b""),
        UnaryOp::DecA => text.extend_from_slice(b"DEC A"),
        UnaryOp::DecR(r) => push_digit(text, b"DEC R", r, b""),
        UnaryOp::ClrA => text.extend_from_slice(b"CLR A"),
        UnaryOp::CplA => text.extend_from_slice(b"CPL A"),
        UnaryOp::DaA => text.extend_from_slice(b"DA A"),
        UnaryOp::SwapA => text.extend_from_slice(b"SWAP A"),
        UnaryOp::RlA => text.extend_from_slice(b"RL A"),
        UnaryOp::RlcA => text.extend_from_slice(b"RLC A"),
        UnaryOp::RrA => text.extend_from_slice(b"RR A"),
        UnaryOp::RrcA => text.extend_from_slice(b"RRC A"),
        UnaryOp::ClrC => text.extend_from_slice(b"CLR C"),
        UnaryOp::CplC => text.extend_from_slice(b"CPL C"),
        UnaryOp::ClrF0 => text.extend_from_slice(b"CLR F0"),
        UnaryOp::CplF0 => text.extend_from_slice(b"CPL F0"),
        UnaryOp::ClrF1 => text.extend_from_slice(b"CLR F1"),
        UnaryOp::CplF1 => text.extend_from_slice(b"CPL F1"),
    }
}

fn push_flow(text: &mut Vec<u8>, op: FlowOp, at: u16) -> Result<(), AllocError>
    requires operands { IsFlow op }
    requires within { at < 2048 }
    ensures { OnOk result (text.new.items ≡ text.old.items ++ text_of (Op.Flow op) at) }
{
    match op {
        FlowOp::Jmp(a) => push_address(text, b"JMP ", a),
        FlowOp::Call(a) => push_address(text, b"CALL ", a),
        FlowOp::Ret => text.extend_from_slice(b"RET"),
        FlowOp::Retr => text.extend_from_slice(b"RETR"),
        FlowOp::Jmpp => text.extend_from_slice(b"JMPP @A"),
        FlowOp::Djnz(r, n) => push_digit_address(text, b"DJNZ R", r, b",", jump_target(at, n)),
        FlowOp::Jb(b, n) => push_digit_address(text, b"JB", b, b" ", jump_target(at, n)),
        FlowOp::Jc(n) => push_address(text, b"JC ", jump_target(at, n)),
        FlowOp::Jnc(n) => push_address(text, b"JNC ", jump_target(at, n)),
        FlowOp::Jz(n) => push_address(text, b"JZ ", jump_target(at, n)),
        FlowOp::Jnz(n) => push_address(text, b"JNZ ", jump_target(at, n)),
        FlowOp::Jt0(n) => push_address(text, b"JT0 ", jump_target(at, n)),
        FlowOp::Jnt0(n) => push_address(text, b"JNT0 ", jump_target(at, n)),
        FlowOp::Jt1(n) => push_address(text, b"JT1 ", jump_target(at, n)),
        FlowOp::Jnt1(n) => push_address(text, b"JNT1 ", jump_target(at, n)),
        FlowOp::Jf0(n) => push_address(text, b"JF0 ", jump_target(at, n)),
        FlowOp::Jf1(n) => push_address(text, b"JF1 ", jump_target(at, n)),
        FlowOp::Jtf(n) => push_address(text, b"JTF ", jump_target(at, n)),
        FlowOp::Jni(n) => push_address(text, b"JNI ", jump_target(at, n)),
    }
}

fn push_port(text: &mut Vec<u8>, op: PortOp) -> Result<(), AllocError>
    requires { IsPort op }
    ensures { OnOk result ((at : ℕ) → text.new.items ≡ text.old.items ++ text_of (Op.PortIo op) at) }
{
    match op {
        PortOp::InP1 => text.extend_from_slice(b"IN A,P1"),
        PortOp::InP2 => text.extend_from_slice(b"IN A,P2"),
        PortOp::InsBus => text.extend_from_slice(b"INS A,BUS"),
        PortOp::OutlP1 => text.extend_from_slice(b"OUTL P1,A"),
        PortOp::OutlP2 => text.extend_from_slice(b"OUTL P2,A"),
        PortOp::OutlBus => text.extend_from_slice(b"OUTL BUS,A"),
        PortOp::AnlP1(n) => push_value(text, b"ANL P1,#", n),
        PortOp::AnlP2(n) => push_value(text, b"ANL P2,#", n),
        PortOp::AnlBus(n) => push_value(text, b"ANL BUS,#", n),
        PortOp::OrlP1(n) => push_value(text, b"ORL P1,#", n),
        PortOp::OrlP2(n) => push_value(text, b"ORL P2,#", n),
        PortOp::OrlBus(n) => push_value(text, b"ORL BUS,#", n),
        PortOp::MovdAP(p) => push_digit(text, b"MOVD A,P", p, b""),
        PortOp::MovdPA(p) => push_digit(text, b"MOVD P", p, b",A"),
        PortOp::OrldPA(p) => push_digit(text, b"ORLD P", p, b",A"),
        PortOp::AnldPA(p) => push_digit(text, b"ANLD P", p, b",A"),
    }
}

fn push_control(text: &mut Vec<u8>, op: ControlOp) -> Result<(), AllocError>
    ensures { OnOk result ((at : ℕ) → text.new.items ≡ text.old.items ++ text_of (Op.Control op) at) }
{
    match op {
        ControlOp::Nop => text.extend_from_slice(b"NOP"),
        ControlOp::EnI => text.extend_from_slice(b"EN I"),
        ControlOp::DisI => text.extend_from_slice(b"DIS I"),
        ControlOp::EnTcnti => text.extend_from_slice(b"EN TCNTI"),
        ControlOp::DisTcnti => text.extend_from_slice(b"DIS TCNTI"),
        ControlOp::SelRb0 => text.extend_from_slice(b"SEL RB0"),
        ControlOp::SelRb1 => text.extend_from_slice(b"SEL RB1"),
        ControlOp::SelMb0 => text.extend_from_slice(b"SEL MB0"),
        ControlOp::SelMb1 => text.extend_from_slice(b"SEL MB1"),
        ControlOp::StrtT => text.extend_from_slice(b"STRT T"),
        ControlOp::StrtCnt => text.extend_from_slice(b"STRT CNT"),
        ControlOp::StopTcnt => text.extend_from_slice(b"STOP TCNT"),
        ControlOp::Ent0Clk => text.extend_from_slice(b"ENT0 CLK"),
    }
}

/// Appends the text of an operation at the place `at`.
pub fn push_op(text: &mut Vec<u8>, op: Op, at: u16) -> Result<(), AllocError>
    requires operands { IsOp op }
    requires within { at < 2048 }
    ensures text { OnOk result (text.new.items ≡ text.old.items ++ text_of op at) }
{
    match op {
        Op::Moves(op) => push_move(text, op),
        Op::Alu(op) => push_alu(text, op),
        Op::Unary(op) => push_unary(text, op),
        Op::Flow(op) => push_flow(text, op, at),
        Op::PortIo(op) => push_port(text, op),
        Op::Control(op) => push_control(text, op),
    }
}

/// The text of an operation at the place `at` below 2,048, its operands in their ranges: its words as in the opcode
/// table, a value as `0`, two hexadecimal digits and `H`, an address as `0`, three digits and `H`. A jump whose code
/// has the low byte of its target shows the whole target, in the page of its second byte (whose place is taken modulo
/// 2,048). `AllocError` if memory runs out.
///
/// Source: MCS-48 Family User's Manual, instruction set; the numbers' spelling is our own.
pub fn op_text(alloc: Global, op: Op, at: u16) -> Result<Vec<u8>, AllocError>
    requires operands { IsOp op }
    requires within { at < 2048 }
    ensures text { IfOk result (λ text. text.items ≡ text_of op at) }
{
    let mut text = Vec::new(alloc);
    push_op(&mut text, op, at)?;
    Ok(text)
}
