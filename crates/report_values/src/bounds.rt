//! The bounds of a report's loops as a list of their own.

ghost use Rattle.std.specs.Prelude.{◌≡◌, IfOk};
ghost use Rattle.report_values.specs.Evaluations.{bounds_of};

use report_lines::ReportLoop;
use sqlite_items::Items;
use std::alloc::{AllocError, Global};
use wsym_terms::{Atom, Bound};

fn copy_atom(alloc: Global, atom: &Atom) -> Result<Atom, AllocError>
    ensures { IfOk result (λ copy. copy ≡ atom.now) }
{
    Ok(Atom {
        coefs: Items::from_slice(alloc, atom.coefs.as_slice())?,
        constant: atom.constant,
        divisor: atom.divisor,
    })
}

fn copy_bound(alloc: Global, bound: &Bound) -> Result<Bound, AllocError>
    ensures { IfOk result (λ copy. copy ≡ bound.now) }
{
    let mut atoms = Items::new(alloc);
    for atom in bound.atoms.as_slice() {
        atoms.push(copy_atom(alloc, atom)?)?;
    }
    Ok(Bound { atoms })
}

/// The bounds of some loops, in order.
pub(crate) fn bounds_of(alloc: Global, loops: &[ReportLoop]) -> Result<Items<Bound>, AllocError>
    ensures { IfOk result (λ bounds. bounds ≡ bounds_of loops.now) }
{
    let mut bounds = Items::new(alloc);
    for each in loops {
        bounds.push(copy_bound(alloc, &each.bound)?)?;
    }
    Ok(bounds)
}
