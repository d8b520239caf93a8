//! What the instruction at an address does with control, whatever calls are open.

ghost use Rattle.std.specs.Prelude.{◌≡◌};
ghost use Rattle.control_flow.specs.Controls.{call_in, control_by, control_of};
ghost use Rattle.control_flow.specs.Points.{callee, jump_of, target};

use crate::instructions::{FetchFault, fetch};
use arm_isa::{Branch, Insn, Op, is_return, may_write};
use elf32_image::Image;

/// Why control can't be followed from a point.
#[derive(Clone, Copy)]
pub enum Fault {
    /// The address isn't code.
    Outside,
    /// The word there has no decoding.
    Unknown,
    /// The instruction writes r15 and is neither a branch nor a return.
    Indirect,
    /// The instruction calls the function itself, or one whose call is open.
    Recursive,
}

/// What an instruction does with control where it is done, and the address to which control goes where it is skipped;
/// none where it can't be skipped.
#[derive(Clone, Copy)]
pub enum Control {
    /// Goes on to an address.
    Go {
        target: u32,
        skipped: Option<u32>,
    },
    /// Calls what stands at an address, to return to another.
    Call {
        target: u32,
        after: u32,
        skipped: Option<u32>,
    },
    /// Returns from the last call that is open, or from the function.
    Return {
        skipped: Option<u32>,
    },
    /// Can't be followed.
    Fault {
        fault: Fault,
    },
}

/// What the instruction at an address does with control. It takes no memory.
pub fn control_at(image: &Image, address: u32) -> Control
    ensures { result ≡ control_of image.now address }
{
    match fetch(image, address) {
        Ok(insn) => control_from(&insn, address),
        Err(FetchFault::NoCode) => Control::Fault {
            fault: Fault::Outside,
        },
        Err(FetchFault::BadWord) => Control::Fault {
            fault: Fault::Unknown,
        },
    }
}

/// What an instruction at an address does with control.
fn control_from(insn: &Insn, address: u32) -> Control
    ensures { result ≡ control_by address insn.now (jump_of insn.now.op) }
{
    let next = address.wrapping_add(4);
    let skipped = if insn.condition.is_always() {
        None
    } else {
        Some(next)
    };
    match insn.op {
        Op::Branch(this) if this.link => Control::Call {
            target: target_of(this, address),
            after: next,
            skipped,
        },
        Op::Branch(this) => Control::Go {
            target: target_of(this, address),
            skipped,
        },
        _ if is_return(insn) => Control::Return { skipped },
        _ if may_write(insn, 15) => Control::Fault {
            fault: Fault::Indirect,
        },
        _ => Control::Go {
            target: next,
            skipped,
        },
    }
}

/// The address to which a branch at an address goes.
fn target_of(this: Branch, address: u32) -> u32
    ensures { result ≡ target address this.words }
{
    let sum = u64::from(address) + 8 + 4 * u64::from(this.words.cast_unsigned());
    (sum % (1 << 32)) as u32
}

/// Where the call goes that returns to an address; none where no branch with link stands before it. It takes no memory.
pub fn called_before(image: &Image, after: u32) -> Option<u32>
    ensures { result ≡ callee image.now after }
{
    control_at(image, after.wrapping_sub(4)).call()
}

impl Control {
    /// Where the instruction calls; none where it is no call.
    fn call(self) -> Option<u32>
        ensures { result ≡ call_in self }
    {
        match self {
            Control::Call { target, .. } => Some(target),
            Control::Go { .. } | Control::Return { .. } | Control::Fault { .. } => None,
        }
    }
}
