use sqlite_items::Items;
use std::alloc::{AllocError, Global};
use wsym_terms::{Atom, Bound, Coef, Cost};

/// The greatest magnitude of a number of an atom, 2^90.
pub(crate) const GREATEST: u128 = 1 << 90;

/// The number that a word spells, or 0.
pub(crate) fn number(word: &str) -> u128 {
    word.parse::<u128>().unwrap_or(0)
}

/// The signed number that a word spells, or 0.
pub(crate) fn signed(word: &str) -> i128 {
    word.parse::<i128>().unwrap_or(0)
}

/// The cost that a word spells.
fn cost(word: &str) -> Cost {
    match word {
        "beyond" => Cost::Beyond,
        "unbounded" => Cost::Unbounded,
        _ => Cost::Fin(number(word)),
    }
}

/// Writes a cost as `15`, `beyond` or `unbounded`.
pub(crate) fn shown_cost(text: &mut String, cost: Cost) -> Result<(), AllocError> {
    match cost {
        Cost::Fin(cycles) => write!(text, "{cycles}"),
        Cost::Beyond => text.push_str("beyond"),
        Cost::Unbounded => text.push_str("unbounded"),
    }
}

/// What a call of a cost gives.
pub(crate) fn cost_call(
    alloc: Global,
    call: &str,
    first: &str,
    second: &str,
) -> Result<String, AllocError> {
    let left = cost(first);
    let right = cost(second);
    if call == "less" {
        return format!(in alloc; "{}", left.is_less(right));
    }
    let mut text = String::new(alloc);
    shown_cost(
        &mut text,
        match call {
            "plus" => left.plus(right),
            "times" => left.times(number(second)),
            _ => left.larger(right),
        },
    )?;
    Ok(text)
}

/// The bound `(factor * p0 + constant) / divisor`, at a value of its parameter.
fn turns_at(
    alloc: Global,
    value: i32,
    factor: i128,
    constant: i128,
    divisor: i128,
) -> Result<Option<Cost>, AllocError> {
    if factor.unsigned_abs() <= GREATEST && constant.unsigned_abs() <= GREATEST && 1 <= divisor {
        let coefs = Items::from_slice(alloc, [Coef { param: 0, factor }].as_slice())?;
        let mut atoms = Items::new(alloc);
        atoms.push(Atom {
            coefs,
            constant,
            divisor,
        })?;
        let bound = Bound { atoms };
        return Ok(Some(bound.value([value].as_slice())));
    }
    Ok(None)
}

/// How often a loop of such a bound closes.
pub(crate) fn turns(
    alloc: Global,
    value: &str,
    factor: &str,
    constant: &str,
    divisor: &str,
) -> Result<String, AllocError> {
    let value = i32::try_from(signed(value)).unwrap_or(0);
    let mut text = String::new(alloc);
    match turns_at(
        alloc,
        value,
        signed(factor),
        signed(constant),
        signed(divisor),
    )? {
        Some(turns) => shown_cost(&mut text, turns)?,
        None => text.push_str("no bound")?,
    }
    Ok(text)
}
