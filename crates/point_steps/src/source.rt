//! What the value of a location after an instruction is, by the state before it.

/// A place for a value.
#[derive(Clone, Copy, Debug, PartialEq, Eq, Drop)]
pub enum Location {
    /// A register.
    Register(u8),
    /// The word 4 × K bytes below where r13 pointed at the start, for a number K.
    StackWord(u32),
}

/// What a location's value is after a done instruction.
#[derive(Clone, Copy, Debug, PartialEq, Eq, Drop)]
pub enum Source {
    /// Nothing is said of it.
    Nothing,
    /// A constant, modulo 2^32.
    Constant(i64),
    /// A register plus a constant, modulo 2^32.
    Sum(u8, i64),
    /// What a location held.
    Copy(Location),
    /// What the stack word of this number held, where it is marked.
    IfMarked(u32),
}
