//! The program memory.

/// The bytes of a program memory.
pub const PLACES: usize = 2048;

/// The 2,048 bytes of a program memory, by place. A place that nothing fills is 00.
#[derive(Drop)]
pub struct Image {
    pub bytes: [u8; PLACES],
}
