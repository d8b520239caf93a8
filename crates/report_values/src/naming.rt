//! The values of a report's parameters, by their names.

ghost use Rattle.std.specs.Prelude.{◌≡◌, ◌≤◌, [], ◌∷◌, Ok, Err, Some, None, IfOk, IfSome, IfNone, List, ℕ, length, map};
ghost use Rattle.std.specs.Prelude.{option_map, take, get_or};
ghost use Rattle.std.specs.List.{list_any};
ghost use Rattle.std.specs.Str.{bytes_eq};
ghost use Rattle.report_values.specs.declared.naming.ValueRefusal.TheVariants as refusal;
ghost use Rattle.report_values.specs.Naming.{first_bad, if_within, is_good, is_within, named_values, range_of};
ghost use Rattle.report_values.specs.Naming.{value_by, value_of, values_after};

use command_words::NamedValue;
use sqlite_items::Items;
use std::alloc::{AllocError, Global};
use wsym_terms::{Name, ParamRange};

/// Why a formula has no value.
#[derive(Drop)]
pub enum ValueRefusal {
    /// Memory was refused.
    Memory,
    /// The name is no parameter's, or was given before, or its value is out of its range; or it is that of a parameter
    /// without a value.
    Bad { name: Name },
}

/// Naming a name may want memory too.
fn bad(alloc: Global, name: &str) -> ValueRefusal
    ensures { (other : List ℕ) → result ≡ refusal.Bad other → other ≡ name.now }
{
    match String::from_str(alloc, name) {
        Ok(text) => ValueRefusal::Bad {
            name: Name::new(text),
        },
        Err(_) => ValueRefusal::Memory,
    }
}

/// The parameter of a name.
fn range_of<'a>(params: &'a [ParamRange], name: &str) -> Option<&'a ParamRange>
    ensures some { IfSome result (λ p. range_of params.now name.now ≡ Some p.now) }
    ensures none { IfNone result (range_of params.now name.now ≡ None) }
{
    for param in params {
        if param.name.as_str() == name {
            return Some(param);
        }
    }
    None
}

/// A value, if it is in the range of a parameter.
fn if_within(param: &ParamRange, value: i64) -> Option<i32>
    ensures { result ≡ if_within param.now value }
{
    if i64::from(param.low) <= value && value <= i64::from(param.high) {
        Some(value as i32)
    } else {
        None
    }
}

/// Whether a name stands among those of some values.
fn has_name(values: &[NamedValue], name: &str) -> bool
    ensures { result ≡ list_any (λ other. bytes_eq other.name name.now) values.now }
{
    for other in values {
        if other.name.as_str() == name {
            return true;
        }
    }
    false
}

/// Whether a value is in the range of the parameter of its name, and none before it has this name.
fn is_good(params: &[ParamRange], earlier: &[NamedValue], value: &NamedValue) -> bool
    ensures { result ≡ is_good params.now earlier.now value.now }
{
    let name = value.name.as_str();
    match range_of(params, name) {
        Some(param) => if_within(param, value.value).is_some() && !has_name(earlier, name),
        None => false,
    }
}

/// The first value that isn't good.
#[tactic(auto, using(crate::proofs::NamedAndBound::next_good))]
fn first_bad<'a>(params: &[ParamRange], values: &'a [NamedValue]) -> Option<&'a NamedValue>
    ensures some { IfSome result (λ v. first_bad params.now [] values.now ≡ Some v.now.name) }
    ensures none { IfNone result (first_bad params.now [] values.now ≡ None) }
{
    for at in 0..values.len() {
        if !is_good(params, &values[..at], &values[at]) {
            return Some(&values[at]);
        }
    }
    None
}

/// The first value of a name.
fn value_by(values: &[NamedValue], name: &str) -> Option<i64>
    ensures { result ≡ value_by values.now name.now }
{
    for value in values {
        if value.name.as_str() == name {
            return Some(value.value);
        }
    }
    None
}

/// The value of a parameter.
fn value_of(values: &[NamedValue], param: &ParamRange) -> Option<i32>
    ensures { result ≡ value_of values.now param.now }
{
    if_within(param, value_by(values, param.name.as_str())?)
}

/// The values of the parameters in their order, or the first parameter without one.
fn in_order(
    alloc: Global,
    params: &[ParamRange],
    values: &[NamedValue],
) -> Result<Items<i32>, ValueRefusal>
    ensures ok { IfOk result (λ at. values_after [] params.now values.now ≡ Ok at) }
    ensures bad { (name : List ℕ) → result ≡ Err (refusal.Bad name) → values_after [] params.now values.now ≡ Err name }
{
    let mut ordered = Items::new(alloc);
    for param in params {
        match value_of(values, param) {
            Some(value) => ordered.push(value).map_err(|_| ValueRefusal::Memory)?,
            None => return Err(bad(alloc, param.name.as_str())),
        }
    }
    Ok(ordered)
}

/// The values of the parameters in their order, or the name that is at fault.
pub(crate) fn named_values(
    alloc: Global,
    params: &[ParamRange],
    values: &[NamedValue],
) -> Result<Items<i32>, ValueRefusal>
    ensures ok { IfOk result (λ at. named_values params.now values.now ≡ Ok at) }
    ensures bad { (name : List ℕ) → result ≡ Err (refusal.Bad name) → named_values params.now values.now ≡ Err name }
{
    match first_bad(params, values) {
        Some(value) => Err(bad(alloc, value.name.as_str())),
        None => in_order(alloc, params, values),
    }
}
