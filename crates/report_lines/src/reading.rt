//! Reads the words of each kind of line.

ghost use Rattle.std.specs.Prelude.{◌≡◌, ◌<◌, ◌^◌, ◌∷◌, [], IfOk, IfSome, None, Some, unsigned_abs, neg_ℤ, codes};
ghost use Rattle.std.specs.Option.{option_map};
ghost use Rattle.report_elements.specs.Names.{ascii_on};
ghost use Rattle.report_elements.specs.Numbers.{number_below};
ghost use Rattle.report_elements.specs.Words.{address_of, all_on, before, later, byte_off, from, front, words};
ghost use Rattle.linear_rows.specs.declared.rows.Var.TheVariants as var;
ghost use Rattle.report_lines.specs.Reading.{moved, atom_from, block_from, coef_of, ending_from, fact_from, function_from, high_from, loop_from, low_from, narrow_of, pair_of, param_from, past_way, place_of, register_of, row_from, row_line_from, row_with, small_of, step_from, term_of, timing_from, timing_of, turn_from, var_of, version_from, way_from, waying_from};

use crate::report::{About, Fact, Line, Proof, ReportBlock, ReportRow, Way};
use fetch_timing::Timing;
use linear_rows::{Form as LinearForm, Row, RowTerm, Var};
use report_elements::{Fields, address, byte_off, cut, name_from, number, wide};
use row_elimination::Multiplier;
use sqlite_items::Items;
use std::alloc::{AllocError, Global};
use wsym_terms::{Atom, Coef, ParamRange};

fn pair_in(word: &[u8]) -> Option<Multiplier>
    ensures { result ≡ pair_of word.now }
{
    let (row, rest) = cut(word, 42);
    match number(row, 1 << 64) {
        Some(row) => match number(byte_off(rest), 1 << 127) {
            Some(factor) => Some(Multiplier {
                row: row as u64,
                factor,
            }),
            None => None,
        },
        None => None,
    }
}

fn pairs_in(alloc: Global, fields: &mut Fields) -> Result<Option<Items<Multiplier>>, AllocError>
    ensures { IfOk result (λ o. o ≡ all_on pair_of [] fields.old) }
{
    let mut pairs = Items::new(alloc);
    while let Some(word) = fields.next() {
        match pair_in(word) {
            Some(pair) => pairs.push(pair)?,
            None => return Ok(None),
        }
    }
    Ok(Some(pairs))
}

fn ending_in(
    alloc: Global,
    about: About,
    way: Way,
    fields: &mut Fields,
) -> Result<Option<Line>, AllocError>
    ensures { IfOk result (λ o. o ≡ ending_from about way fields.old) }
{
    match fields.number(1 << 127) {
        Some(divisor) => match pairs_in(alloc, fields)? {
            Some(pairs) => Ok(Some(Line::Proof(Proof {
                about,
                way,
                divisor,
                pairs,
            }))),
            None => Ok(None),
        },
        None => Ok(None),
    }
}

fn way_in(fields: &mut Fields) -> Option<Way>
    ensures value { result ≡ way_from fields.old }
    ensures rest { fields.new ≡ past_way fields.old }
{
    match fields.next() {
        Some(word) => {
            if word == b"start".as_slice() {
                Some(Way::Start)
            } else {
                let is_done = word == b"done".as_slice();
                moved(is_done, fields.two())
            }
        }
        None => None,
    }
}

fn moved(is_done: bool, point: Option<(u32, u32)>) -> Option<Way>
    ensures { result ≡ moved is_done point }
{
    match point {
        Some((block, index)) => if is_done {
            Some(Way::Done { block, index })
        } else {
            Some(Way::Skip { block, index })
        },
        None => None,
    }
}

fn waying_in(alloc: Global, about: About, fields: &mut Fields) -> Result<Option<Line>, AllocError>
    ensures { IfOk result (λ o. o ≡ waying_from about fields.old) }
{
    match way_in(fields) {
        Some(way) => ending_in(alloc, about, way, fields),
        None => Ok(None),
    }
}

pub(crate) fn step_in(alloc: Global, fields: &mut Fields) -> Result<Option<Line>, AllocError>
    ensures { IfOk result (λ o. o ≡ step_from fields.old) }
{
    match fields.small() {
        Some(number) => waying_in(alloc, About::Fact(number), fields),
        None => Ok(None),
    }
}

pub(crate) fn turn_in(alloc: Global, fields: &mut Fields) -> Result<Option<Line>, AllocError>
    ensures { IfOk result (λ o. o ≡ turn_from fields.old) }
{
    match fields.two() {
        Some((id, atom)) => waying_in(alloc, About::Turn { id, atom }, fields),
        None => Ok(None),
    }
}

pub(crate) fn low_in(alloc: Global, fields: &mut Fields) -> Result<Option<Line>, AllocError>
    ensures { IfOk result (λ o. o ≡ low_from fields.old) }
{
    match fields.two() {
        Some((block, index)) => ending_in(
            alloc,
            About::Low { block, index },
            Way::Done { block, index },
            fields,
        ),
        None => Ok(None),
    }
}

pub(crate) fn high_in(alloc: Global, fields: &mut Fields) -> Result<Option<Line>, AllocError>
    ensures { IfOk result (λ o. o ≡ high_from fields.old) }
{
    match fields.two() {
        Some((block, index)) => ending_in(
            alloc,
            About::High { block, index },
            Way::Done { block, index },
            fields,
        ),
        None => Ok(None),
    }
}

/// The place of the first parameter with a name.
pub fn place_in(params: &[ParamRange], name: &[u8]) -> Option<u32>
    ensures { result ≡ place_of 0 params.now name.now }
{
    let mut place = 0_u32;
    for param in params {
        if param.name.as_str().as_bytes() == name {
            return Some(place);
        }
        if place == u32::MAX {
            return None;
        }
        place += 1;
    }
    None
}

/// The signed number of 32 bits that a word writes.
fn narrow_in(word: &[u8]) -> Option<i32>
    ensures { result ≡ narrow_of word.now }
{
    match word.split_first() {
        Some((first, rest)) => {
            if *first == 45 {
                match number(rest, (1 << 31) + 1) {
                    Some(size) => Some((-(size as i64)) as i32),
                    None => None,
                }
            } else {
                match number(word, 1 << 31) {
                    Some(size) => Some(size as i32),
                    None => None,
                }
            }
        }
        None => None,
    }
}

fn register_in(word: &[u8]) -> Option<Var>
    ensures { result ≡ register_of word.now }
{
    match word.split_first() {
        Some((first, rest)) => {
            if *first == 114 {
                match number(rest, 256) {
                    Some(register) => Some(Var::Register(register as u8)),
                    None => None,
                }
            } else {
                Some(Var::StartSp)
            }
        }
        None => None,
    }
}

fn offset_in(word: &[u8]) -> Option<Var>
    ensures { result ≡ option_map var.Word (narrow_of (before 93 word.now)) }
{
    let (offset, _) = cut(word, 93);
    match narrow_in(offset) {
        Some(offset) => Some(Var::Word(offset)),
        None => None,
    }
}

fn count_in(word: &[u8]) -> Option<Var>
    ensures { result ≡ option_map var.Count (small_of word.now) }
{
    match number(word, 1 << 32) {
        Some(id) => Some(Var::Count(id as u32)),
        None => None,
    }
}

fn param_var_in(params: &[ParamRange], word: &[u8]) -> Option<Var>
    ensures { result ≡ option_map var.Param (place_of 0 params.now word.now) }
{
    match place_in(params, word) {
        Some(place) => Some(Var::Param(place)),
        None => None,
    }
}

fn var_in(params: &[ParamRange], word: &[u8]) -> Option<Var>
    ensures { result ≡ var_of params.now word.now }
{
    match word.split_first() {
        Some((first, rest)) => {
            if *first == 37 {
                register_in(rest)
            } else if *first == 91 {
                offset_in(rest)
            } else if *first == 35 {
                count_in(rest)
            } else {
                param_var_in(params, word)
            }
        }
        None => None,
    }
}

fn term_in(params: &[ParamRange], word: &[u8]) -> Option<RowTerm>
    ensures { result ≡ term_of params.now word.now }
{
    let (factor, rest) = cut(word, 42);
    match wide(factor) {
        Some(factor) => match var_in(params, byte_off(rest)) {
            Some(var) => Some(RowTerm { var, factor }),
            None => None,
        },
        None => None,
    }
}

fn coef_in(params: &[ParamRange], word: &[u8]) -> Option<Coef>
    ensures { result ≡ coef_of params.now word.now }
{
    let (factor, rest) = cut(word, 42);
    match wide(factor) {
        Some(factor) => match place_in(params, byte_off(rest)) {
            Some(param) => Some(Coef { param, factor }),
            None => None,
        },
        None => None,
    }
}

fn terms_in(
    alloc: Global,
    params: &[ParamRange],
    fields: &mut Fields,
) -> Result<Option<Items<RowTerm>>, AllocError>
    ensures { IfOk result (λ o. o ≡ all_on (term_of params.now) [] fields.old) }
{
    let mut terms = Items::new(alloc);
    while let Some(word) = fields.next() {
        match term_in(params, word) {
            Some(term) => terms.push(term)?,
            None => return Ok(None),
        }
    }
    Ok(Some(terms))
}

fn coefs_in(
    alloc: Global,
    params: &[ParamRange],
    fields: &mut Fields,
) -> Result<Option<Items<Coef>>, AllocError>
    ensures { IfOk result (λ o. o ≡ all_on (coef_of params.now) [] fields.old) }
{
    let mut coefs = Items::new(alloc);
    while let Some(word) = fields.next() {
        match coef_in(params, word) {
            Some(coef) => coefs.push(coef)?,
            None => return Ok(None),
        }
    }
    Ok(Some(coefs))
}

fn addresses_in(alloc: Global, fields: &mut Fields) -> Result<Option<Items<u32>>, AllocError>
    ensures { IfOk result (λ o. o ≡ all_on address_of [] fields.old) }
{
    let mut addresses = Items::new(alloc);
    while let Some(word) = fields.next() {
        match address(word) {
            Some(found) => addresses.push(found)?,
            None => return Ok(None),
        }
    }
    Ok(Some(addresses))
}

fn negative(number: i128) -> i128
    requires { unsigned_abs number < 2 ^ 126 }
    ensures { result ≡ neg_ℤ number }
{
    -number
}

#[tactic(auto, using(crate::proofs::CollectedLaws::collected_true, crate::proofs::CollectedLaws::collected_is))]
fn made(alloc: Global, constant: i128, terms: Items<RowTerm>) -> Result<Option<Row>, AllocError>
    requires { unsigned_abs constant < 2 ^ 126 }
    ensures { IfOk result (λ o. o ≡ row_with constant terms) }
{
    let form = LinearForm {
        terms,
        constant: negative(constant),
    };
    if form.is_collected() {
        Row::make(alloc, &form)
    } else {
        Ok(None)
    }
}

fn row_in(
    alloc: Global,
    params: &[ParamRange],
    fields: &mut Fields,
) -> Result<Option<Row>, AllocError>
    ensures { IfOk result (λ o. o ≡ row_from params.now fields.old) }
{
    match fields.signed() {
        Some(constant) => match terms_in(alloc, params, fields)? {
            Some(terms) => made(alloc, constant, terms),
            None => Ok(None),
        },
        None => Ok(None),
    }
}

pub(crate) fn fact_in(
    alloc: Global,
    params: &[ParamRange],
    fields: &mut Fields,
) -> Result<Option<Line>, AllocError>
    ensures { IfOk result (λ o. o ≡ fact_from params.now fields.old) }
{
    match fields.three() {
        Some((number, block, index)) => match row_in(alloc, params, fields)? {
            Some(row) => Ok(Some(Line::Fact {
                number,
                fact: Fact { block, index, row },
            })),
            None => Ok(None),
        },
        None => Ok(None),
    }
}

pub(crate) fn row_line_in(
    alloc: Global,
    params: &[ParamRange],
    fields: &mut Fields,
) -> Result<Option<Line>, AllocError>
    ensures { IfOk result (λ o. o ≡ row_line_from params.now fields.old) }
{
    match fields.small() {
        Some(block) => match row_in(alloc, params, fields)? {
            Some(row) => Ok(Some(Line::Row(ReportRow { block, row }))),
            None => Ok(None),
        },
        None => Ok(None),
    }
}

pub(crate) fn atom_in(
    alloc: Global,
    params: &[ParamRange],
    fields: &mut Fields,
) -> Result<Option<Line>, AllocError>
    ensures { IfOk result (λ o. o ≡ atom_from params.now fields.old) }
{
    match fields.signed() {
        Some(constant) => match fields.signed() {
            Some(divisor) => match coefs_in(alloc, params, fields)? {
                Some(coefs) => Ok(Some(Line::Atom(Atom {
                    coefs,
                    constant,
                    divisor,
                }))),
                None => Ok(None),
            },
            None => Ok(None),
        },
        None => Ok(None),
    }
}

pub(crate) fn loop_in(fields: &mut Fields) -> Option<Line>
    ensures { result ≡ loop_from fields.old }
{
    let number = fields.small()?;
    fields.skip();
    let header = fields.small()?;
    fields.skip();
    let depth = fields.small()?;
    fields.skip();
    let atoms = fields.number(1 << 64)?;
    Some(Line::Loop {
        number,
        header,
        depth,
        atoms: atoms as u64,
    })
}

pub(crate) fn block_in(alloc: Global, fields: &mut Fields) -> Result<Option<Line>, AllocError>
    ensures { IfOk result (λ o. o ≡ block_from fields.old) }
{
    match fields.small() {
        Some(number) => match fields.address() {
            Some(address) => match fields.small() {
                Some(points) => match addresses_in(alloc, fields)? {
                    Some(returns) => Ok(Some(Line::Block {
                        number,
                        block: ReportBlock {
                            address,
                            points,
                            returns,
                        },
                    })),
                    None => Ok(None),
                },
                None => Ok(None),
            },
            None => Ok(None),
        },
        None => Ok(None),
    }
}

fn register_word(fields: &mut Fields) -> Option<u8>
    ensures value { result ≡ front (λ w. number_below 256 0 (byte_off w)) fields.old }
    ensures rest { fields.new ≡ later fields.old }
{
    match fields.next() {
        Some(word) => match number(byte_off(word), 256) {
            Some(register) => Some(register as u8),
            None => None,
        },
        None => None,
    }
}

fn narrow_word(fields: &mut Fields) -> Option<i32>
    ensures value { result ≡ front narrow_of fields.old }
    ensures rest { fields.new ≡ later fields.old }
{
    match fields.next() {
        Some(word) => narrow_in(word),
        None => None,
    }
}

fn name_word(alloc: Global, fields: &mut Fields) -> Result<Option<wsym_terms::Name>, AllocError>
    ensures value { IfOk result (λ o. o ≡ front (ascii_on []) fields.old) }
    ensures rest { IfOk result (λ o. fields.new ≡ later fields.old) }
{
    match fields.next() {
        Some(word) => name_from(alloc, word),
        None => Ok(None),
    }
}

pub(crate) fn param_in(alloc: Global, fields: &mut Fields) -> Result<Option<Line>, AllocError>
    ensures { IfOk result (λ o. o ≡ param_from fields.old) }
{
    match name_word(alloc, fields)? {
        Some(name) => match register_word(fields) {
            Some(register) => match narrow_word(fields) {
                Some(low) => match narrow_word(fields) {
                    Some(high) => Ok(Some(Line::Param(ParamRange {
                        name,
                        register,
                        low,
                        high,
                    }))),
                    None => Ok(None),
                },
                None => Ok(None),
            },
            None => Ok(None),
        },
        None => Ok(None),
    }
}

fn numbers_in(alloc: Global, fields: &mut Fields) -> Result<Option<Items<u32>>, AllocError>
    ensures { IfOk result (λ o. o ≡ all_on small_of [] fields.old) }
{
    let mut numbers = Items::new(alloc);
    while let Some(word) = fields.next() {
        match number(word, 1 << 32) {
            Some(found) => numbers.push(found as u32)?,
            None => return Ok(None),
        }
    }
    Ok(Some(numbers))
}

fn timing_made(numbers: &[u32]) -> Option<Line>
    ensures { result ≡ timing_of numbers.now }
{
    if numbers.len() != 17 {
        return None;
    }
    Some(Line::Timing(Timing {
        sets: numbers[0],
        ways: numbers[1],
        line: numbers[2],
        miss: u64::from(numbers[3]),
        skipped: u64::from(numbers[4]),
        register: u64::from(numbers[5]),
        classes: [
            u64::from(numbers[6]),
            u64::from(numbers[7]),
            u64::from(numbers[8]),
            u64::from(numbers[9]),
            u64::from(numbers[10]),
            u64::from(numbers[11]),
            u64::from(numbers[12]),
            u64::from(numbers[13]),
            u64::from(numbers[14]),
            u64::from(numbers[15]),
            u64::from(numbers[16]),
        ],
    }))
}

pub(crate) fn timing_in(alloc: Global, fields: &mut Fields) -> Result<Option<Line>, AllocError>
    ensures { IfOk result (λ o. o ≡ timing_from fields.old) }
{
    match numbers_in(alloc, fields)? {
        Some(numbers) => Ok(timing_made(numbers.as_slice())),
        None => Ok(None),
    }
}

pub(crate) fn function_in(fields: &mut Fields) -> Option<Line>
    ensures { result ≡ function_from fields.old }
{
    let entry = fields.address()?;
    fields.skip();
    let stack = fields.small()?;
    Some(Line::Function { entry, stack })
}

pub(crate) fn version_in(fields: &mut Fields) -> Option<Line>
    ensures { result ≡ version_from fields.old }
{
    let version = fields.number(256)?;
    Some(Line::Version(version as u8))
}
