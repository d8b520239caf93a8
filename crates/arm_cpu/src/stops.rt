/// Why the machine stops. They are tested in this order.
#[derive(Clone, Copy, Debug, PartialEq, Eq)]
pub enum Stop {
    /// pc is no multiple of 4, or a byte of its word isn't loaded in a segment that may be executed.
    NoCode,
    /// The word has no decoding.
    BadWord,
    /// A data access whose address is no multiple of its size.
    Unaligned,
    /// A byte of a data access isn't mapped.
    Unmapped,
    /// A store to a loaded segment that may not be written.
    ReadOnly,
    /// A store to a kept word by another base register than r13.
    Trespass,
    /// The value that goes to pc is no multiple of 4.
    Leaves,
}
