//! The instruction at an address of an image.

ghost use Rattle.std.specs.Prelude.{◌≡◌, IfOk};
ghost use Rattle.arm_isa.specs.Guarantees.{IsGuarded};
ghost use Rattle.arm_isa.specs.Ranges.{IsInsn};
ghost use Rattle.control_flow.specs.Instructions.{fetched};

use arm_isa::{Insn, decode};
use elf32_image::Image;

/// Why no instruction can be taken from an address.
#[derive(Clone, Copy, Debug)]
pub enum FetchFault {
    /// The address isn't code.
    NoCode,
    /// The address is code, but its word has no decoding.
    BadWord,
}

/// The instruction at an address, within its ranges and none that decoding refuses. It takes no memory.
///
/// # Errors
///
/// `NoCode`, exactly where the address isn't code; `BadWord`, exactly where it is code and its word has no decoding.
// Inlined into each caller, with the look-up and the decoder, since it is most of what a step of the machine does.
#[inline(always)]
pub fn fetch(image: &Image, address: u32) -> Result<Insn, FetchFault>
    ensures exact { result ≡ fetched image.now address }
    ensures ranges { IfOk result IsInsn }
    ensures guarded { IfOk result (λ insn. IsGuarded insn.op) }
{
    match image.code_at(address) {
        Some(word) => match decode(word) {
            Some(insn) => Ok(insn),
            None => Err(FetchFault::BadWord),
        },
        None => Err(FetchFault::NoCode),
    }
}
