//! The line of a value.

ghost use Rattle.std.specs.Prelude.{◌≡◌, IfOk, string_bytes};
ghost use Rattle.report_values.specs.Lines.{value_text};

use std::alloc::{AllocError, Global};
use std::fmt::Write;
use wsym_terms::Cost;

/// The line of a value, with its line feed: `value` and the number, `beyond` or `unbounded`.
pub fn value_line(alloc: Global, value: Cost) -> Result<String, AllocError>
    ensures { IfOk result (λ line. string_bytes line ≡ value_text value) }
{
    let mut out = String::new(alloc);
    match value {
        Cost::Fin(cycles) => write!(out, "value {cycles}\n")?,
        Cost::Beyond => out.push_str("value beyond\n")?,
        Cost::Unbounded => out.push_str("value unbounded\n")?,
    }
    Ok(out)
}
