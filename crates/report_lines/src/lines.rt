//! Reads a line: by its keyword, and then compared with what is written for it.

ghost use Rattle.std.specs.Prelude.{◌≡◌, IfOk, codes};
ghost use Rattle.std.specs.Option.{option_map};
ghost use Rattle.report_elements.specs.Words.{before, byte_off, from, words};
ghost use Rattle.report_elements.specs.TreeReading.{read_of};
ghost use Rattle.report_elements.specs.FormulaReading.{parsed};
ghost use Rattle.report_elements.specs.Constants.{list_of};
ghost use Rattle.report_lines.specs.declared.report.Line.TheVariants as line;
ghost use Rattle.report_lines.specs.Reading.{kept, line_by, line_of, other_by, plain_by};

use crate::reading::{
    atom_in, block_in, fact_in, function_in, high_in, loop_in, low_in, param_in, row_line_in,
    step_in, timing_in, turn_in, version_in,
};
use crate::report::Line;
use crate::writing::push_line;
use report_elements::{Fields, byte_off, cut, read_formula, read_tree};
use std::alloc::{AllocError, Global};
use wsym_terms::ParamRange;

fn tree_line(alloc: Global, text: &[u8]) -> Result<Option<Line>, AllocError>
    ensures { IfOk result (λ o. o ≡ option_map line.Tree (read_of 1000 text.now)) }
{
    match read_tree(alloc, text, 1000)? {
        Some(tree) => Ok(Some(Line::Tree(tree))),
        None => Ok(None),
    }
}

fn formula_line(alloc: Global, text: &[u8]) -> Result<Option<Line>, AllocError>
    ensures { IfOk result (λ o. o ≡ option_map line.Formula (parsed list_of 2000 text.now)) }
{
    match read_formula(alloc, text, 2000)? {
        Some(formula) => Ok(Some(Line::Formula(formula))),
        None => Ok(None),
    }
}

/// The lines that take memory for themselves alone, or none.
fn plain_line(key: &[u8], fields: &mut Fields) -> Option<Line>
    ensures { result ≡ plain_by key.now fields.old }
{
    if key == b"loop".as_slice() {
        loop_in(fields)
    } else if key == b"end".as_slice() {
        Some(Line::End)
    } else if key == b"function".as_slice() {
        function_in(fields)
    } else if key == b"wsymb".as_slice() {
        version_in(fields)
    } else {
        None
    }
}

fn other_line(
    alloc: Global,
    params: &[ParamRange],
    key: &[u8],
    rest: &[u8],
) -> Result<Option<Line>, AllocError>
    ensures { IfOk result (λ o. o ≡ other_by params.now key.now rest.now) }
{
    if key == b"tree".as_slice() {
        return tree_line(alloc, byte_off(rest));
    }
    if key == b"formula".as_slice() {
        return formula_line(alloc, byte_off(rest));
    }
    let mut fields = Fields::new(rest);
    if key == b"param".as_slice() {
        param_in(alloc, &mut fields)
    } else if key == b"timing".as_slice() {
        timing_in(alloc, &mut fields)
    } else if key == b"row".as_slice() {
        row_line_in(alloc, params, &mut fields)
    } else if key == b"atom".as_slice() {
        atom_in(alloc, params, &mut fields)
    } else {
        Ok(plain_line(key, &mut fields))
    }
}

fn line_with(
    alloc: Global,
    params: &[ParamRange],
    key: &[u8],
    rest: &[u8],
) -> Result<Option<Line>, AllocError>
    ensures { IfOk result (λ o. o ≡ line_by params.now key.now rest.now) }
{
    let mut fields = Fields::new(rest);
    if key == b"step".as_slice() {
        step_in(alloc, &mut fields)
    } else if key == b"fact".as_slice() {
        fact_in(alloc, params, &mut fields)
    } else if key == b"low".as_slice() {
        low_in(alloc, &mut fields)
    } else if key == b"high".as_slice() {
        high_in(alloc, &mut fields)
    } else if key == b"turn".as_slice() {
        turn_in(alloc, &mut fields)
    } else if key == b"block".as_slice() {
        block_in(alloc, &mut fields)
    } else {
        other_line(alloc, params, key, rest)
    }
}

fn keep(
    alloc: Global,
    params: &[ParamRange],
    text: &[u8],
    line: Line,
) -> Result<Option<Line>, AllocError>
    ensures { IfOk result (λ o. o ≡ kept params.now text.now line) }
{
    let mut written = String::new(alloc);
    push_line(&mut written, params, &line)?;
    if written.as_bytes() == text {
        Ok(Some(line))
    } else {
        Ok(None)
    }
}

/// Reads a line after parameters, by whose names it may speak of them.
pub fn read_line(
    alloc: Global,
    params: &[ParamRange],
    text: &[u8],
) -> Result<Option<Line>, AllocError>
    ensures { IfOk result (λ o. o ≡ line_of params.now text.now) }
{
    let (key, rest) = cut(text, 32);
    match line_with(alloc, params, key, rest)? {
        Some(line) => keep(alloc, params, text, line),
        None => Ok(None),
    }
}
