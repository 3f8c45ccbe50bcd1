//! The texts of the instructions: the first word, the operands, and the first byte.
//!
//! Source: MCS-48 Family User's Manual, instruction set.

use Operand::{Address, Expander, Immediate, Is, Pointer, Register, Target};
use Shape::{One, Two, Without};

/// What an operand may be. The number of a register, a pointer register or a port of the expander is added to the first
/// byte.
#[derive(Clone, Copy)]
pub enum Operand {
    /// This text, which blanks fill up to five characters.
    Is([u8; 5]),
    /// R0 to R7.
    Register,
    /// @R0 or @R1.
    Pointer,
    /// P4 to P7, which count as 4 to 7.
    Expander,
    /// # and a value, which is the second byte.
    Immediate,
    /// An address below 2,048, whose page is in the first byte.
    Address,
    /// An address in the page of the second byte.
    Target,
}

/// The operands of an instruction.
#[derive(Clone, Copy)]
pub enum Shape {
    Without,
    One(Operand),
    Two(Operand, Operand),
}

/// An instruction's first word, which blanks fill up to five characters, its operands and its first byte.
#[derive(Clone, Copy)]
pub struct Row(pub [u8; 5], pub Shape, pub u8);

/// The instructions, by their first bytes. No text fits two of them.
pub static ROWS: [Row; 107] = [
    Row(*b"NOP  ", Without, 0x00),
    Row(*b"OUTL ", Two(Is(*b"BUS  "), Is(*b"A    ")), 0x02),
    Row(*b"ADD  ", Two(Is(*b"A    "), Immediate), 0x03),
    Row(*b"JMP  ", One(Address), 0x04),
    Row(*b"EN   ", One(Is(*b"I    ")), 0x05),
    Row(*b"DEC  ", One(Is(*b"A    ")), 0x07),
    Row(*b"INS  ", Two(Is(*b"A    "), Is(*b"BUS  ")), 0x08),
    Row(*b"IN   ", Two(Is(*b"A    "), Is(*b"P1   ")), 0x09),
    Row(*b"IN   ", Two(Is(*b"A    "), Is(*b"P2   ")), 0x0a),
    Row(*b"MOVD ", Two(Is(*b"A    "), Expander), 0x08),
    Row(*b"INC  ", One(Pointer), 0x10),
    Row(*b"JB0  ", One(Target), 0x12),
    Row(*b"ADDC ", Two(Is(*b"A    "), Immediate), 0x13),
    Row(*b"CALL ", One(Address), 0x14),
    Row(*b"DIS  ", One(Is(*b"I    ")), 0x15),
    Row(*b"JTF  ", One(Target), 0x16),
    Row(*b"INC  ", One(Is(*b"A    ")), 0x17),
    Row(*b"INC  ", One(Register), 0x18),
    Row(*b"XCH  ", Two(Is(*b"A    "), Pointer), 0x20),
    Row(*b"MOV  ", Two(Is(*b"A    "), Immediate), 0x23),
    Row(*b"EN   ", One(Is(*b"TCNTI")), 0x25),
    Row(*b"JNT0 ", One(Target), 0x26),
    Row(*b"CLR  ", One(Is(*b"A    ")), 0x27),
    Row(*b"XCH  ", Two(Is(*b"A    "), Register), 0x28),
    Row(*b"XCHD ", Two(Is(*b"A    "), Pointer), 0x30),
    Row(*b"JB1  ", One(Target), 0x32),
    Row(*b"DIS  ", One(Is(*b"TCNTI")), 0x35),
    Row(*b"JT0  ", One(Target), 0x36),
    Row(*b"CPL  ", One(Is(*b"A    ")), 0x37),
    Row(*b"OUTL ", Two(Is(*b"P1   "), Is(*b"A    ")), 0x39),
    Row(*b"OUTL ", Two(Is(*b"P2   "), Is(*b"A    ")), 0x3a),
    Row(*b"MOVD ", Two(Expander, Is(*b"A    ")), 0x38),
    Row(*b"ORL  ", Two(Is(*b"A    "), Pointer), 0x40),
    Row(*b"MOV  ", Two(Is(*b"A    "), Is(*b"T    ")), 0x42),
    Row(*b"ORL  ", Two(Is(*b"A    "), Immediate), 0x43),
    Row(*b"STRT ", One(Is(*b"CNT  ")), 0x45),
    Row(*b"JNT1 ", One(Target), 0x46),
    Row(*b"SWAP ", One(Is(*b"A    ")), 0x47),
    Row(*b"ORL  ", Two(Is(*b"A    "), Register), 0x48),
    Row(*b"ANL  ", Two(Is(*b"A    "), Pointer), 0x50),
    Row(*b"JB2  ", One(Target), 0x52),
    Row(*b"ANL  ", Two(Is(*b"A    "), Immediate), 0x53),
    Row(*b"STRT ", One(Is(*b"T    ")), 0x55),
    Row(*b"JT1  ", One(Target), 0x56),
    Row(*b"DA   ", One(Is(*b"A    ")), 0x57),
    Row(*b"ANL  ", Two(Is(*b"A    "), Register), 0x58),
    Row(*b"ADD  ", Two(Is(*b"A    "), Pointer), 0x60),
    Row(*b"MOV  ", Two(Is(*b"T    "), Is(*b"A    ")), 0x62),
    Row(*b"STOP ", One(Is(*b"TCNT ")), 0x65),
    Row(*b"RRC  ", One(Is(*b"A    ")), 0x67),
    Row(*b"ADD  ", Two(Is(*b"A    "), Register), 0x68),
    Row(*b"ADDC ", Two(Is(*b"A    "), Pointer), 0x70),
    Row(*b"JB3  ", One(Target), 0x72),
    Row(*b"ENT0 ", One(Is(*b"CLK  ")), 0x75),
    Row(*b"JF1  ", One(Target), 0x76),
    Row(*b"RR   ", One(Is(*b"A    ")), 0x77),
    Row(*b"ADDC ", Two(Is(*b"A    "), Register), 0x78),
    Row(*b"MOVX ", Two(Is(*b"A    "), Pointer), 0x80),
    Row(*b"RET  ", Without, 0x83),
    Row(*b"CLR  ", One(Is(*b"F0   ")), 0x85),
    Row(*b"JNI  ", One(Target), 0x86),
    Row(*b"ORL  ", Two(Is(*b"BUS  "), Immediate), 0x88),
    Row(*b"ORL  ", Two(Is(*b"P1   "), Immediate), 0x89),
    Row(*b"ORL  ", Two(Is(*b"P2   "), Immediate), 0x8a),
    Row(*b"ORLD ", Two(Expander, Is(*b"A    ")), 0x88),
    Row(*b"MOVX ", Two(Pointer, Is(*b"A    ")), 0x90),
    Row(*b"JB4  ", One(Target), 0x92),
    Row(*b"RETR ", Without, 0x93),
    Row(*b"CPL  ", One(Is(*b"F0   ")), 0x95),
    Row(*b"JNZ  ", One(Target), 0x96),
    Row(*b"CLR  ", One(Is(*b"C    ")), 0x97),
    Row(*b"ANL  ", Two(Is(*b"BUS  "), Immediate), 0x98),
    Row(*b"ANL  ", Two(Is(*b"P1   "), Immediate), 0x99),
    Row(*b"ANL  ", Two(Is(*b"P2   "), Immediate), 0x9a),
    Row(*b"ANLD ", Two(Expander, Is(*b"A    ")), 0x98),
    Row(*b"MOV  ", Two(Pointer, Is(*b"A    ")), 0xa0),
    Row(*b"MOVP ", Two(Is(*b"A    "), Is(*b"@A   ")), 0xa3),
    Row(*b"CLR  ", One(Is(*b"F1   ")), 0xa5),
    Row(*b"CPL  ", One(Is(*b"C    ")), 0xa7),
    Row(*b"MOV  ", Two(Register, Is(*b"A    ")), 0xa8),
    Row(*b"MOV  ", Two(Pointer, Immediate), 0xb0),
    Row(*b"JB5  ", One(Target), 0xb2),
    Row(*b"JMPP ", One(Is(*b"@A   ")), 0xb3),
    Row(*b"CPL  ", One(Is(*b"F1   ")), 0xb5),
    Row(*b"JF0  ", One(Target), 0xb6),
    Row(*b"MOV  ", Two(Register, Immediate), 0xb8),
    Row(*b"SEL  ", One(Is(*b"RB0  ")), 0xc5),
    Row(*b"JZ   ", One(Target), 0xc6),
    Row(*b"MOV  ", Two(Is(*b"A    "), Is(*b"PSW  ")), 0xc7),
    Row(*b"DEC  ", One(Register), 0xc8),
    Row(*b"XRL  ", Two(Is(*b"A    "), Pointer), 0xd0),
    Row(*b"JB6  ", One(Target), 0xd2),
    Row(*b"XRL  ", Two(Is(*b"A    "), Immediate), 0xd3),
    Row(*b"SEL  ", One(Is(*b"RB1  ")), 0xd5),
    Row(*b"MOV  ", Two(Is(*b"PSW  "), Is(*b"A    ")), 0xd7),
    Row(*b"XRL  ", Two(Is(*b"A    "), Register), 0xd8),
    Row(*b"MOVP3", Two(Is(*b"A    "), Is(*b"@A   ")), 0xe3),
    Row(*b"SEL  ", One(Is(*b"MB0  ")), 0xe5),
    Row(*b"JNC  ", One(Target), 0xe6),
    Row(*b"RL   ", One(Is(*b"A    ")), 0xe7),
    Row(*b"DJNZ ", Two(Register, Target), 0xe8),
    Row(*b"MOV  ", Two(Is(*b"A    "), Pointer), 0xf0),
    Row(*b"JB7  ", One(Target), 0xf2),
    Row(*b"SEL  ", One(Is(*b"MB1  ")), 0xf5),
    Row(*b"JC   ", One(Target), 0xf6),
    Row(*b"RLC  ", One(Is(*b"A    ")), 0xf7),
    Row(*b"MOV  ", Two(Is(*b"A    "), Register), 0xf8),
];

/// The words that no line defines, beside the first words of the instructions.
pub static RESERVED: [[u8; 5]; 33] = [
    *b"A    ", *b"BUS  ", *b"C    ", *b"F0   ", *b"F1   ", *b"I    ", *b"LOW  ", *b"P1   ",
    *b"P2   ", *b"P4   ", *b"P5   ", *b"P6   ", *b"P7   ", *b"PSW  ", *b"R0   ", *b"R1   ",
    *b"R2   ", *b"R3   ", *b"R4   ", *b"R5   ", *b"R6   ", *b"R7   ", *b"T    ", *b"CNT  ",
    *b"CLK  ", *b"TCNTI", *b"RB0  ", *b"RB1  ", *b"MB0  ", *b"MB1  ", *b"ORG  ", *b"DB   ",
    *b"EQU  ",
];
