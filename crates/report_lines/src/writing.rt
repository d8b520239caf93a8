//! Writes each kind of line.

ghost use Rattle.std.specs.Prelude.{◌≡◌, ◌++◌, ◌∷◌, [], OnOk, string_bytes, codes, map};
ghost use Rattle.std.specs.Fmt.{decimal, signed_decimal};
ghost use Rattle.report_elements.specs.Elements.{address_text, coef_text, in_brackets, name_at, row_term_text, var_text};
ghost use Rattle.report_lines.specs.declared.report.Line.TheVariants as line;
ghost use Rattle.report_lines.specs.Grammar.{ending_words, about_text, line_text, pair_text, way_words};

use crate::report::{About, Fact, Line, Proof, ReportBlock, ReportRow, Way};
use fetch_timing::Timing;
use linear_rows::{Row, RowTerm, Var};
use report_elements::{Formula, push_formula, push_term, push_tree};
use row_elimination::Multiplier;
use sqlite_items::at;
use std::alloc::AllocError;
use std::fmt::Write;
use wsym_formula::Term;
use wsym_terms::{Atom, Coef, ParamRange, Tree};

fn push_number(out: &mut String, number: u128) -> Result<(), AllocError>
    ensures { OnOk result (string_bytes out.new ≡ string_bytes out.old ++ (32 ∷ decimal number)) }
{
    write!(out, " {number}")?;
    Ok(())
}

fn push_signed(out: &mut String, number: i128) -> Result<(), AllocError>
    ensures { OnOk result (string_bytes out.new ≡ string_bytes out.old ++ (32 ∷ signed_decimal number)) }
{
    write!(out, " {number}")?;
    Ok(())
}

fn push_address(out: &mut String, address: u32) -> Result<(), AllocError>
    ensures { OnOk result (string_bytes out.new ≡ string_bytes out.old ++ (32 ∷ address_text address)) }
{
    write!(out, " 0x{address:08x}")?;
    Ok(())
}

fn push_pair(out: &mut String, pair: Multiplier) -> Result<(), AllocError>
    ensures { OnOk result (string_bytes out.new ≡ string_bytes out.old ++ (32 ∷ pair_text pair)) }
{
    let Multiplier { row, factor } = pair;
    write!(out, " {row}*{factor}")?;
    Ok(())
}

fn push_name(out: &mut String, params: &[ParamRange], place: u32) -> Result<(), AllocError>
    ensures { OnOk result (string_bytes out.new ≡ string_bytes out.old ++ name_at params.now place) }
{
    if let Some(param) = at(params, place as usize) {
        out.push_str(param.name.as_str())?;
    }
    Ok(())
}

fn push_var(out: &mut String, params: &[ParamRange], var: Var) -> Result<(), AllocError>
    ensures { OnOk result (string_bytes out.new ≡ string_bytes out.old ++ var_text params.now var) }
{
    match var {
        Var::Register(register) => {
            write!(out, "%r{register}")?;
            Ok(())
        }
        Var::Word(offset) => {
            write!(out, "[{offset}]")?;
            Ok(())
        }
        Var::Param(place) => push_name(out, params, place),
        Var::StartSp => out.push_str("%sp"),
        Var::Count(id) => {
            write!(out, "#{id}")?;
            Ok(())
        }
    }
}

fn push_term_word(out: &mut String, params: &[ParamRange], term: RowTerm) -> Result<(), AllocError>
    ensures { OnOk result (string_bytes out.new ≡ string_bytes out.old ++ (32 ∷ row_term_text params.now term)) }
{
    let RowTerm { var, factor } = term;
    write!(out, " {factor}*")?;
    push_var(out, params, var)
}

fn push_coef(out: &mut String, params: &[ParamRange], coef: Coef) -> Result<(), AllocError>
    ensures { OnOk result (string_bytes out.new ≡ string_bytes out.old ++ (32 ∷ coef_text params.now coef)) }
{
    let Coef { param, factor } = coef;
    write!(out, " {factor}*")?;
    push_name(out, params, param)
}

fn push_pairs(out: &mut String, pairs: &[Multiplier]) -> Result<(), AllocError>
    ensures { OnOk result (string_bytes out.new ≡ string_bytes out.old ++ in_brackets (map pair_text pairs.now)) }
{
    for pair in pairs {
        push_pair(out, *pair)?;
    }
    Ok(())
}

fn push_terms(out: &mut String, params: &[ParamRange], terms: &[RowTerm]) -> Result<(), AllocError>
    ensures { OnOk result (string_bytes out.new ≡ string_bytes out.old ++ in_brackets (map (row_term_text params.now) terms.now)) }
{
    for term in terms {
        push_term_word(out, params, *term)?;
    }
    Ok(())
}

fn push_coefs(out: &mut String, params: &[ParamRange], coefs: &[Coef]) -> Result<(), AllocError>
    ensures { OnOk result (string_bytes out.new ≡ string_bytes out.old ++ in_brackets (map (coef_text params.now) coefs.now)) }
{
    for coef in coefs {
        push_coef(out, params, *coef)?;
    }
    Ok(())
}

fn push_addresses(out: &mut String, addresses: &[u32]) -> Result<(), AllocError>
    ensures { OnOk result (string_bytes out.new ≡ string_bytes out.old ++ in_brackets (map address_text addresses.now)) }
{
    for address in addresses {
        push_address(out, *address)?;
    }
    Ok(())
}

fn push_numbers(out: &mut String, numbers: &[u64]) -> Result<(), AllocError>
    ensures { OnOk result (string_bytes out.new ≡ string_bytes out.old ++ in_brackets (map decimal numbers.now)) }
{
    for number in numbers {
        push_number(out, u128::from(*number))?;
    }
    Ok(())
}

fn push_ending(out: &mut String, divisor: u128, pairs: &[Multiplier]) -> Result<(), AllocError>
    ensures { OnOk result (string_bytes out.new ≡ string_bytes out.old ++ (32 ∷ (decimal divisor ++ in_brackets (map pair_text pairs.now)))) }
{
    push_number(out, divisor)?;
    push_pairs(out, pairs)?;
    Ok(())
}

fn push_way(out: &mut String, way: Way) -> Result<(), AllocError>
    ensures { OnOk result (string_bytes out.new ≡ string_bytes out.old ++ in_brackets (way_words way)) }
{
    match way {
        Way::Start => out.push_str(" start"),
        Way::Done { block, index } => push_point(out, " done", block, index),
        Way::Skip { block, index } => push_point(out, " skip", block, index),
    }
}

fn push_point(out: &mut String, word: &str, block: u32, index: u32) -> Result<(), AllocError>
    ensures { OnOk result (string_bytes out.new ≡ string_bytes out.old ++ (word.now ++ (32 ∷ (decimal block ++ (32 ∷ decimal index))))) }
{
    out.push_str(word)?;
    push_number(out, u128::from(block))?;
    push_number(out, u128::from(index))?;
    Ok(())
}

fn push_step(out: &mut String, number: u32, way: Way) -> Result<(), AllocError>
    ensures { OnOk result (string_bytes out.new ≡ string_bytes out.old ++ (codes "step" ++ (32 ∷ (decimal number ++ in_brackets (way_words way))))) }
{
    out.push_str("step")?;
    push_number(out, u128::from(number))?;
    push_way(out, way)?;
    Ok(())
}

fn push_turn(out: &mut String, id: u32, atom: u32, way: Way) -> Result<(), AllocError>
    ensures { OnOk result (string_bytes out.new ≡ string_bytes out.old ++ (codes "turn" ++ (32 ∷ (decimal id ++ (32 ∷ (decimal atom ++ in_brackets (way_words way))))))) }
{
    push_point(out, "turn", id, atom)?;
    push_way(out, way)?;
    Ok(())
}

fn push_closing(out: &mut String, place: u32, row: u32, way: Way) -> Result<(), AllocError>
    ensures { OnOk result (string_bytes out.new ≡ string_bytes out.old ++ (codes "closing" ++ (32 ∷ (decimal place ++ (32 ∷ (decimal row ++ in_brackets (way_words way))))))) }
{
    push_point(out, "closing", place, row)?;
    push_way(out, way)?;
    Ok(())
}

fn push_about(out: &mut String, about: About, way: Way) -> Result<(), AllocError>
    ensures { OnOk result (string_bytes out.new ≡ string_bytes out.old ++ about_text about way) }
{
    match about {
        About::Fact(number) => push_step(out, number, way),
        About::Low { block, index } => push_point(out, "low", block, index),
        About::High { block, index } => push_point(out, "high", block, index),
        About::Turn { id, atom } => push_turn(out, id, atom, way),
        About::Closing { place, row } => push_closing(out, place, row, way),
    }
}

fn push_proof_parts(out: &mut String, proof: &Proof) -> Result<(), AllocError>
    ensures { OnOk result (string_bytes out.new ≡ string_bytes out.old ++ (about_text proof.now.about proof.now.way ++ (32 ∷ (decimal proof.now.divisor ++ in_brackets (map pair_text proof.now.pairs))))) }
{
    push_about(out, proof.about, proof.way)?;
    push_ending(out, proof.divisor, proof.pairs.as_slice())?;
    Ok(())
}

#[tactic(auto, using(crate::proofs::WriteLaws::proof_parts))]
pub fn push_proof(out: &mut String, proof: &Proof) -> Result<(), AllocError>
    ensures { OnOk result (string_bytes out.new ≡ string_bytes out.old ++ line_text [] (line.Proof proof.now)) }
{
    push_proof_parts(out, proof)
}

fn push_row_words(out: &mut String, params: &[ParamRange], row: &Row) -> Result<(), AllocError>
    ensures { OnOk result (string_bytes out.new ≡ string_bytes out.old ++ (32 ∷ (signed_decimal row.now.constant ++ in_brackets (map (row_term_text params.now) row.now.terms)))) }
{
    push_signed(out, row.constant())?;
    push_terms(out, params, row.terms())?;
    Ok(())
}

pub fn push_fact(
    out: &mut String,
    params: &[ParamRange],
    number: u64,
    fact: &Fact,
) -> Result<(), AllocError>
    ensures { OnOk result (string_bytes out.new ≡ string_bytes out.old ++ line_text params.now (line.Fact number fact.now)) }
{
    out.push_str("fact")?;
    push_number(out, u128::from(number))?;
    push_number(out, u128::from(fact.block))?;
    push_number(out, u128::from(fact.index))?;
    push_row_words(out, params, &fact.row)?;
    Ok(())
}

pub fn push_row(out: &mut String, params: &[ParamRange], row: &ReportRow) -> Result<(), AllocError>
    ensures { OnOk result (string_bytes out.new ≡ string_bytes out.old ++ line_text params.now (line.Row row.now)) }
{
    out.push_str("row")?;
    push_number(out, u128::from(row.block))?;
    push_row_words(out, params, &row.row)?;
    Ok(())
}

pub fn push_atom(out: &mut String, params: &[ParamRange], atom: &Atom) -> Result<(), AllocError>
    ensures { OnOk result (string_bytes out.new ≡ string_bytes out.old ++ line_text params.now (line.Atom atom.now)) }
{
    out.push_str("atom")?;
    push_signed(out, atom.constant)?;
    push_signed(out, atom.divisor)?;
    push_coefs(out, params, atom.coefs.as_slice())?;
    Ok(())
}

pub fn push_loop(
    out: &mut String,
    number: u64,
    header: u32,
    depth: u32,
    atoms: u64,
) -> Result<(), AllocError>
    ensures { OnOk result (string_bytes out.new ≡ string_bytes out.old ++ line_text [] (line.Loop number header depth atoms)) }
{
    out.push_str("loop")?;
    push_number(out, u128::from(number))?;
    push_header(out, u64::from(header))?;
    push_depth(out, u64::from(depth))?;
    push_atom_count(out, atoms)?;
    Ok(())
}

fn push_header(out: &mut String, number: u64) -> Result<(), AllocError>
    ensures { OnOk result (string_bytes out.new ≡ string_bytes out.old ++ (codes " header" ++ (32 ∷ decimal number))) }
{
    write!(out, " header {number}")?;
    Ok(())
}

fn push_depth(out: &mut String, number: u64) -> Result<(), AllocError>
    ensures { OnOk result (string_bytes out.new ≡ string_bytes out.old ++ (codes " depth" ++ (32 ∷ decimal number))) }
{
    write!(out, " depth {number}")?;
    Ok(())
}

fn push_atom_count(out: &mut String, number: u64) -> Result<(), AllocError>
    ensures { OnOk result (string_bytes out.new ≡ string_bytes out.old ++ (codes " atoms" ++ (32 ∷ decimal number))) }
{
    write!(out, " atoms {number}")?;
    Ok(())
}

pub fn push_block(out: &mut String, number: u64, block: &ReportBlock) -> Result<(), AllocError>
    ensures { OnOk result (string_bytes out.new ≡ string_bytes out.old ++ line_text [] (line.Block number block.now)) }
{
    out.push_str("block")?;
    push_number(out, u128::from(number))?;
    push_address(out, block.address)?;
    push_number(out, u128::from(block.points))?;
    push_addresses(out, block.returns.as_slice())?;
    Ok(())
}

fn push_range(out: &mut String, param: &ParamRange) -> Result<(), AllocError>
    ensures { OnOk result (string_bytes out.new ≡ string_bytes out.old ++ (32 ∷ (signed_decimal param.now.low ++ (32 ∷ signed_decimal param.now.high)))) }
{
    let low = param.low;
    let high = param.high;
    write!(out, " {low} {high}")?;
    Ok(())
}

fn push_name_word(out: &mut String, name: &str) -> Result<(), AllocError>
    ensures { OnOk result (string_bytes out.new ≡ string_bytes out.old ++ (32 ∷ name.now)) }
{
    write!(out, " {name}")?;
    Ok(())
}

pub fn push_param(out: &mut String, param: &ParamRange) -> Result<(), AllocError>
    ensures { OnOk result (string_bytes out.new ≡ string_bytes out.old ++ line_text [] (line.Param param.now)) }
{
    out.push_str("param")?;
    push_name_word(out, param.name.as_str())?;
    push_register(out, param.register)?;
    push_range(out, param)?;
    Ok(())
}

fn push_register(out: &mut String, register: u8) -> Result<(), AllocError>
    ensures { OnOk result (string_bytes out.new ≡ string_bytes out.old ++ (32 ∷ 114 ∷ decimal register)) }
{
    write!(out, " r{register}")?;
    Ok(())
}

pub fn push_version(out: &mut String, version: u8) -> Result<(), AllocError>
    ensures { OnOk result (string_bytes out.new ≡ string_bytes out.old ++ line_text [] (line.Version version)) }
{
    out.push_str("wsymb")?;
    push_number(out, u128::from(version))?;
    Ok(())
}

pub fn push_function(out: &mut String, entry: u32, stack: u32) -> Result<(), AllocError>
    ensures { OnOk result (string_bytes out.new ≡ string_bytes out.old ++ line_text [] (line.Function entry stack)) }
{
    out.push_str("function")?;
    push_address(out, entry)?;
    push_stack(out, stack)?;
    Ok(())
}

fn push_stack(out: &mut String, stack: u32) -> Result<(), AllocError>
    ensures { OnOk result (string_bytes out.new ≡ string_bytes out.old ++ (codes " stack" ++ (32 ∷ decimal stack))) }
{
    write!(out, " stack {stack}")?;
    Ok(())
}

pub fn push_timing(out: &mut String, timing: &Timing) -> Result<(), AllocError>
    ensures { OnOk result (string_bytes out.new ≡ string_bytes out.old ++ line_text [] (line.Timing timing.now)) }
{
    out.push_str("timing")?;
    push_number(out, u128::from(timing.sets))?;
    push_number(out, u128::from(timing.ways))?;
    push_number(out, u128::from(timing.line))?;
    push_number(out, u128::from(timing.miss))?;
    push_number(out, u128::from(timing.skipped))?;
    push_number(out, u128::from(timing.register))?;
    push_numbers(out, &timing.classes)?;
    Ok(())
}

/// Writes a line without its line feed.
pub fn push_line(out: &mut String, params: &[ParamRange], line: &Line) -> Result<(), AllocError>
    ensures { OnOk result (string_bytes out.new ≡ string_bytes out.old ++ line_text params.now line.now) }
{
    match line {
        Line::Version(version) => push_version(out, *version),
        Line::Function { entry, stack } => push_function(out, *entry, *stack),
        Line::Timing(timing) => push_timing(out, timing),
        Line::Param(param) => push_param(out, param),
        Line::Block { number, block } => push_block(out, u64::from(*number), block),
        Line::Loop {
            number,
            header,
            depth,
            atoms,
        } => push_loop(out, u64::from(*number), *header, *depth, *atoms),
        Line::Atom(atom) => push_atom(out, params, atom),
        Line::Row(row) => push_row(out, params, row),
        Line::Fact { number, fact } => push_fact(out, params, u64::from(*number), fact),
        Line::Proof(proof) => push_proof(out, proof),
        Line::Tree(tree) => push_tree_line(out, tree),
        Line::Formula(formula) => push_term_line(out, formula),
        Line::End => out.push_str("end"),
    }
}

/// Writes the line of a tree.
pub fn push_tree_line(out: &mut String, tree: &Tree) -> Result<(), AllocError>
    ensures { OnOk result (string_bytes out.new ≡ string_bytes out.old ++ line_text [] (line.Tree tree.now)) }
{
    out.push_str("tree ")?;
    push_tree(out, tree)
}

fn push_term_line(out: &mut String, formula: &Term) -> Result<(), AllocError>
    ensures { OnOk result (string_bytes out.new ≡ string_bytes out.old ++ line_text [] (line.Formula formula.now)) }
{
    out.push_str("formula ")?;
    push_term(out, formula)
}

/// Writes the line of a formula.
pub fn push_formula_line(out: &mut String, formula: &Formula) -> Result<(), AllocError>
    ensures { OnOk result (string_bytes out.new ≡ string_bytes out.old ++ line_text [] (line.Formula formula.now)) }
{
    out.push_str("formula ")?;
    push_formula(out, formula)
}
