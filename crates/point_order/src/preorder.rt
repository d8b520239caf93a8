//! The order of lists of open calls.
ghost use Rattle.std.specs.Prelude.{◌≡◌, ℕ, ◌<◌, ◌^◌, IfOk, length, List};
ghost use Rattle.point_order.specs.Families.{AreFamilies, HaveFamilies, IsOrder};

use sqlite_items::Items;
use std::alloc::{AllocError, Global};

/// The numbers of lists, each before those that it begins, and these by what comes next.
pub fn preorder(alloc: Global, children: &[Items<u32>]) -> Result<Items<u32>, AllocError>
    requires { HaveFamilies children.now }
    ensures { IfOk result (λ order. (ls : List (List ℕ)) → AreFamilies ls children.now → IsOrder ls order) }
{
    let mut order = Vec::new(alloc);
    let mut stack = Vec::new(alloc);
    stack.push(0)?;
    while let Some(at) = stack.pop() {
        order.push(at)?;
        stack.extend_from_slice(children[at as usize].as_slice())?;
    }
    Ok(Items::from_vec(order))
}
