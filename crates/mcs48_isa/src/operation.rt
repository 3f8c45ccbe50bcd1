//! The operations, one variant for each text of the opcode table, in six groups.
//!
//! R, I and N in a variant's name stand for the operands Rr, @Ri and #n. A register operand is 0 to 7, an operand of
//! @Ri is 0 or 1, the bit of JBb is 0 to 7, and a port of MOVD, ORLD and ANLD is 4 to 7. If a variant has two
//! operands, the register or the bit is first and n second. The operand of JMP and CALL is an address below
//! 2,048; that of the other jumps is the low byte of the target.

/// Data moves.
#[derive(Clone, Copy, Debug, PartialEq, Eq, Drop)]
pub enum MoveOp {
    MovAN(u8),
    MovAR(u8),
    MovAI(u8),
    MovRA(u8),
    MovIA(u8),
    MovRN(u8, u8),
    MovIN(u8, u8),
    MovAPsw,
    MovPswA,
    MovAT,
    MovTA,
    XchR(u8),
    XchI(u8),
    XchdI(u8),
    Movp,
    Movp3,
    MovxAI(u8),
    MovxIA(u8),
}

/// Operations of the accumulator with an operand.
#[derive(Clone, Copy, Debug, PartialEq, Eq, Drop)]
pub enum AluOp {
    AddR(u8),
    AddI(u8),
    AddN(u8),
    AddcR(u8),
    AddcI(u8),
    AddcN(u8),
    AnlR(u8),
    AnlI(u8),
    AnlN(u8),
    OrlR(u8),
    OrlI(u8),
    OrlN(u8),
    XrlR(u8),
    XrlI(u8),
    XrlN(u8),
}

/// Operations on one value or flag.
#[derive(Clone, Copy, Debug, PartialEq, Eq, Drop)]
pub enum UnaryOp {
    IncA,
    IncR(u8),
    IncI(u8),
    DecA,
    DecR(u8),
    ClrA,
    CplA,
    DaA,
    SwapA,
    RlA,
    RlcA,
    RrA,
    RrcA,
    ClrC,
    CplC,
    ClrF0,
    CplF0,
    ClrF1,
    CplF1,
}

/// Jumps, calls and returns.
#[derive(Clone, Copy, Debug, PartialEq, Eq, Drop)]
pub enum FlowOp {
    Jmp(u16),
    Call(u16),
    Ret,
    Retr,
    Jmpp,
    Djnz(u8, u8),
    Jb(u8, u8),
    Jc(u8),
    Jnc(u8),
    Jz(u8),
    Jnz(u8),
    Jt0(u8),
    Jnt0(u8),
    Jt1(u8),
    Jnt1(u8),
    Jf0(u8),
    Jf1(u8),
    Jtf(u8),
    Jni(u8),
}

/// Ports, the bus and the port expander.
#[derive(Clone, Copy, Debug, PartialEq, Eq, Drop)]
pub enum PortOp {
    InP1,
    InP2,
    InsBus,
    OutlP1,
    OutlP2,
    OutlBus,
    AnlP1(u8),
    AnlP2(u8),
    AnlBus(u8),
    OrlP1(u8),
    OrlP2(u8),
    OrlBus(u8),
    MovdAP(u8),
    MovdPA(u8),
    OrldPA(u8),
    AnldPA(u8),
}

/// Interrupts, banks, the timer and the clock output.
#[derive(Clone, Copy, Debug, PartialEq, Eq, Drop)]
pub enum ControlOp {
    Nop,
    EnI,
    DisI,
    EnTcnti,
    DisTcnti,
    SelRb0,
    SelRb1,
    SelMb0,
    SelMb1,
    StrtT,
    StrtCnt,
    StopTcnt,
    Ent0Clk,
}

/// An operation with its operands.
#[derive(Clone, Copy, Debug, PartialEq, Eq, Drop)]
pub enum Op {
    Moves(MoveOp),
    Alu(AluOp),
    Unary(UnaryOp),
    Flow(FlowOp),
    PortIo(PortOp),
    Control(ControlOp),
}

/// What a first byte and the byte after it say: the operation, its length in bytes (1 or 2) and the machine cycles
/// that it takes (1 or 2).
#[derive(Clone, Copy, Debug, PartialEq, Eq, Drop)]
pub struct Decoded {
    pub op: Op,
    pub len: u8,
    pub cycles: u8,
}

/// The same as an enum alone, of which LLVM follows each part: no instruction, an operation of one byte that takes one
/// machine cycle or two, or an operation of two bytes, which takes two.
#[derive(Clone, Copy, Debug, PartialEq, Eq, Drop)]
pub enum Row {
    Empty,
    Short(Op),
    Slow(Op),
    Double(Op),
}

/// The bytes of an operation. `bytes[1]` is 00 if `len` is 1.
#[derive(Clone, Copy, Debug, PartialEq, Eq, Drop)]
pub struct Code {
    pub bytes: [u8; 2],
    pub len: u8,
}
