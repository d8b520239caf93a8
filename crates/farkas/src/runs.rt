ghost use Rattle.std.specs.Prelude.{◌≡◌, ◌<◌, ℕ, true, false, [], List, IfOk, OnOk, MatchOption};
ghost use Rattle.row_elimination.specs.Steps.{run, run_fits};
ghost use Rattle.farkas.specs.Placing.{levels_of};
ghost use Rattle.farkas.specs.Deciding.{with_one_var, with_vars, vars_of};

use crate::placing::Level;
use linear_rows::{Row, RowTerm, Var, order};
use row_elimination::{Derived, Step, eliminate};
use sqlite_items::Items;
use std::alloc::{AllocError, Global};
use std::cmp::Ordering;

/// A run: its steps, and the rows that are left.
pub(crate) struct Run {
    /// The steps.
    pub(crate) levels: Items<Level>,
    /// The rows that are left.
    pub(crate) left: Items<Derived>,
}

/// Eliminates variables one after another, None where a number or the rows of a step pass a limit.
pub(crate) fn eliminate_each(
    alloc: Global,
    vars: &[Var],
    rows: Vec<Derived>,
) -> Result<Option<Run>, AllocError>
    ensures { IfOk result (λ o. MatchOption o (run_fits vars.now rows.items ≡ false)
        (λ r. (r.levels ≡ levels_of vars.now rows.items) × (r.left ≡ run vars.now rows.items))) }
{
    let mut levels = Items::new(alloc);
    let mut left = rows;
    for var in vars {
        match eliminate(alloc, var, left)? {
            Some(Step { gone, left: rest }) => {
                let rows = Items::from_vec(gone);
                levels.push(Level { var: *var, rows })?;
                left = rest;
            }
            None => return Ok(None),
        }
    }
    Ok(Some(Run {
        levels,
        left: Items::from_vec(left),
    }))
}

/// Adds a variable to ascending ones, unless it is there.
fn add_var(vars: &mut Vec<Var>, var: &Var) -> Result<(), AllocError>
    ensures { OnOk result (vars.new.items ≡ with_one_var var.now vars.old.items) }
{
    let mut index = 0;
    while index < vars.len() {
        match order(var, &vars[index]) {
            Ordering::Less => {
                vars.insert(index, *var)?;
                return Ok(());
            }
            Ordering::Equal => return Ok(()),
            Ordering::Greater => index += 1,
        }
    }
    vars.push(*var)?;
    Ok(())
}

/// Adds the variables of terms.
pub(crate) fn add_vars(vars: &mut Vec<Var>, terms: &[RowTerm]) -> Result<(), AllocError>
    ensures { OnOk result (vars.new.items ≡ with_vars vars.old.items terms.now) }
{
    for term in terms {
        add_var(vars, &term.var)?;
    }
    Ok(())
}

/// Adds the variables of rows.
pub(crate) fn add_all_vars(vars: &mut Vec<Var>, rows: &[Row]) -> Result<(), AllocError>
    ensures { OnOk result (vars.new.items ≡ vars_of vars.old.items rows.now) }
{
    for row in rows {
        add_vars(vars, row.terms())?;
    }
    Ok(())
}
