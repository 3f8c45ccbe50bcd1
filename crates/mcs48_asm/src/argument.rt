//! The values in a line.

/// How the bytes of a line take a value.
#[derive(Clone, Copy, PartialEq, Eq)]
pub enum Role {
    /// As a byte, 0 to 255.
    Byte,
    /// As an address of JMP and CALL, 0 to 2,047.
    Address,
    /// As the target of another jump, which has to lie in the page of its second byte.
    Target,
}

/// A value as it is written. A name is in upper case.
#[derive(Clone, Copy)]
pub(crate) enum Value<'a> {
    /// A number, at most 65,536, which stands for all numbers past 65,535.
    Number(u32),
    /// A name.
    Named(&'a [u8]),
    /// LOW and a name: the low byte of the name's value.
    Low(&'a [u8]),
}

/// A value, and how the bytes of its line take it.
#[derive(Clone, Copy)]
pub(crate) struct Argument<'a> {
    pub(crate) role: Role,
    pub(crate) value: Value<'a>,
}

/// What operands say: what is added to the first byte, and the value that the bytes take.
#[derive(Clone, Copy)]
pub(crate) struct Reading<'a> {
    pub(crate) offset: u8,
    pub(crate) argument: Option<Argument<'a>>,
}
