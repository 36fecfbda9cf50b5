//! What loads and stores do.

/// What a load does: the register that gets bytes, the one that the address counts from, how many bytes (1, 2 or 4), and
/// whether they are sign-extended.
#[derive(Clone, Copy)]
pub struct Load {
    pub rd: u8,
    pub base: u8,
    pub size: u8,
    pub is_signed: bool,
}

/// What a store does: the register whose lowest bytes are written, the one that the address counts from, and how many bytes
/// (1, 2 or 4).
#[derive(Clone, Copy)]
pub struct Store {
    pub source: u8,
    pub base: u8,
    pub size: u8,
}
