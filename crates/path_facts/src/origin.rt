//! What facts are counted from.

/// Zero, or what a register held at the start.
#[derive(Clone, Copy, Debug, PartialEq, Eq, Drop)]
pub enum Origin {
    Zero,
    AtStart(u8),
}
