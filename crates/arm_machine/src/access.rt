/// How many bytes an access to the memory touches.
#[derive(Clone, Copy, Debug)]
pub enum Size {
    /// One byte.
    Byte,
    /// Two bytes, at a multiple of 2.
    Half,
    /// Four bytes, at a multiple of 4.
    Word,
}
