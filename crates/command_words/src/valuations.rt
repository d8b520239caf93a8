//! The words of an evaluation.

ghost use Rattle.std.specs.Prelude.{◌≡◌, [], IfOk, map, string_bytes};
ghost use Rattle.command_words.specs.Valuations.{valuation_of, value_of, values_after};

use crate::numerals::wide_number;
use crate::parts::{cut, is_name};
use crate::places::has_equals_sign;
use crate::word::Word;
use sqlite_items::Items;
use std::alloc::{AllocError, Global};
use wsym_terms::Name;

/// A value by the name of a parameter.
#[derive(Drop)]
pub struct NamedValue {
    /// The name: an ASCII letter followed by at most 15 letters, digits or `_`.
    pub name: Name,
    /// The value: a number of at most 10 digits.
    pub value: i64,
}

/// The report whose formula is evaluated, and where.
#[derive(Drop)]
pub struct Valuation {
    /// The name of the report's file, without `=`.
    pub report: Word,
    /// The values, in the order of the words; a name may stand twice, and it may be no parameter's.
    pub values: Items<NamedValue>,
}

/// What is evaluated, or `None` where a word is wrong.
pub(crate) fn read_valuation(
    alloc: Global,
    words: &[String],
) -> Result<Option<Valuation>, AllocError>
    ensures { IfOk result (λ found. found ≡ valuation_of (map string_bytes words.now)) }
{
    let Some((report, words)) = words.split_first() else {
        return Ok(None);
    };
    if has_equals_sign(report.as_str()) {
        return Ok(None);
    }
    match read_values(alloc, words)? {
        Some(values) => Ok(Some(Valuation {
            report: Word::of(alloc, report.as_str())?,
            values,
        })),
        None => Ok(None),
    }
}

fn read_values(alloc: Global, words: &[String]) -> Result<Option<Items<NamedValue>>, AllocError>
    ensures { IfOk result (λ found. found ≡ values_after [] (map string_bytes words.now)) }
{
    let mut values = Items::new(alloc);
    for word in words {
        match read_value(alloc, word.as_str())? {
            Some(value) => values.push(value)?,
            None => return Ok(None),
        }
    }
    Ok(Some(values))
}

/// The name and the value of `NAME=VALUE`.
fn read_value(alloc: Global, word: &str) -> Result<Option<NamedValue>, AllocError>
    ensures { IfOk result (λ found. found ≡ value_of word.now) }
{
    let Some((name, text)) = cut(word) else {
        return Ok(None);
    };
    if !is_name(name) {
        return Ok(None);
    }
    match wide_number(text.as_bytes()) {
        Some(value) => Ok(Some(NamedValue {
            name: Name::new(String::from_str(alloc, name)?),
            value,
        })),
        None => Ok(None),
    }
}
