//! Which line may follow, and what it adds.

ghost use Rattle.simplifier.specs.Sizes.{nodes_of};
ghost use Rattle.std.specs.Prelude.{◌≡◌, ◌^◌, IfOk, nat_le, nat_lt};
ghost use Rattle.report_rules.specs.Following.{after, may, put, tree_ok, formula_ok};
ghost use Rattle.wsym_formula.specs.Values.{counts_of};
ghost use Rattle.wsym_terms.specs.Trees.{size_of};
ghost use Rattle.report_lines.specs.declared.report.Line.TheVariants as line;

use crate::atom_lines::may_atom;
use crate::forms::{Form, Function};
use crate::head_lines::{may_block, may_function, may_loop, may_param, may_timing, may_version};
use crate::proof_lines::may_prove;
use crate::row_lines::{may_row, may_state};
use crate::sections::{has_formula, has_tree, is_level, no_formula, no_tree};
use report_elements::{Formula, term_counts, term_fits, term_nodes, tree_fits, tree_size};
use report_lines::Line;
use std::alloc::{AllocError, Global};
use wsym_formula::Term;
use wsym_terms::{Atom, Tree};

fn is_small(tree: &Tree) -> bool
    ensures { result ≡ nat_le (size_of tree.now) 500000 }
{
    tree_size(tree, 500_001) <= 500_000
}

fn tree_ok(form: &Form, tree: &Tree) -> bool
    ensures { result ≡ tree_ok form.now tree.now }
{
    let blocks = form.blocks.as_slice().len();
    let loops = form.loops.as_slice().len();
    tree_fits(tree, blocks, loops, 1000) && is_small(tree)
}

fn may_tree(form: &Form, tree: &Tree) -> bool
    ensures { result ≡ may form.now (line.Tree tree.now) }
{
    tree_ok(form, tree) && is_level(form) && no_tree(form)
}

fn may_end(form: &Form) -> bool
    ensures { result ≡ may form.now line.End }
{
    has_formula(form) && !form.ended
}

fn has_few_nodes(formula: &Term) -> bool
    ensures { result ≡ nat_le (nodes_of formula.now) 1000000 }
{
    term_nodes(formula, 1_000_001) <= 1_000_000
}

fn has_few_counts(formula: &Term) -> bool
    ensures { result ≡ nat_lt (counts_of formula.now) (2 ^ 63) }
{
    term_counts(formula, 1 << 63) < 1 << 63
}

fn formula_ok(form: &Form, formula: &Term) -> bool
    ensures { result ≡ formula_ok form.now formula.now }
{
    let loops = form.loops.as_slice().len();
    term_fits(formula, loops, 2000) && has_few_nodes(formula) && has_few_counts(formula)
}

fn may_formula(form: &Form, formula: &Term) -> bool
    ensures { result ≡ may form.now (line.Formula formula.now) }
{
    formula_ok(form, formula) && has_tree(form) && no_formula(form)
}

/// Whether a line may follow what was read.
fn may_follow(form: &Form, line: &Line) -> bool
    ensures { result ≡ may form.now line.now }
{
    match line {
        Line::Version(version) => may_version(form, *version),
        Line::Function { entry, stack } => may_function(form, *entry, *stack),
        Line::Timing(timing) => may_timing(form, timing),
        Line::Param(param) => may_param(form, param),
        Line::Block { number, block } => may_block(form, *number, block),
        Line::Loop {
            number,
            header,
            depth,
            atoms,
        } => may_loop(form, *number, *header, *depth, *atoms),
        Line::Atom(atom) => may_atom(form, atom),
        Line::Row(row) => may_row(form, row),
        Line::Fact { number, fact } => may_state(form, *number, fact),
        Line::Proof(proof) => may_prove(form, proof),
        Line::Tree(tree) => may_tree(form, tree),
        Line::Formula(formula) => may_formula(form, formula),
        Line::End => may_end(form),
    }
}

/// What was read, with a line more.
fn put_line(alloc: Global, form: Form, line: Line) -> Result<Form, AllocError>
    ensures { IfOk result (λ g. g ≡ put form line) }
{
    let mut form = form;
    match line {
        Line::Version(version) => form.version = Some(version),
        Line::Function { entry, stack } => form.function = Some(Function { entry, stack }),
        Line::Timing(timing) => form.timing = Some(timing),
        Line::Param(param) => form.params.push(param)?,
        Line::Block { number: _, block } => form.blocks.push(block)?,
        Line::Loop {
            number: _,
            header,
            depth,
            atoms,
        } => {
            return with_one_loop(alloc, form, header, depth, atoms);
        }
        Line::Atom(atom) => return with_one_atom(form, atom),
        Line::Row(row) => form.rows.push(row)?,
        Line::Fact { number: _, fact } => form.facts.push(fact)?,
        Line::Proof(proof) => form.proofs.push(proof)?,
        Line::Tree(tree) => form.tree = Some(tree),
        Line::Formula(formula) => form.formula = Some(Formula::of(alloc, &formula)?),
        Line::End => form.ended = true,
    }
    Ok(form)
}

fn with_one_loop(
    alloc: Global,
    form: Form,
    header: u32,
    depth: u32,
    atoms: u64,
) -> Result<Form, AllocError>
    ensures { IfOk result (λ g. g ≡ put form (line.Loop 0 header depth atoms)) }
{
    let Form {
        version,
        function,
        timing,
        params,
        blocks,
        loops,
        owed: _,
        rows,
        facts,
        proofs,
        tree,
        formula,
        ended,
    } = form;
    let loops = loops.with_loop(alloc, header, depth)?;
    Ok(Form {
        version,
        function,
        timing,
        params,
        blocks,
        loops,
        owed: atoms,
        rows,
        facts,
        proofs,
        tree,
        formula,
        ended,
    })
}

fn with_one_atom(form: Form, atom: Atom) -> Result<Form, AllocError>
    ensures { IfOk result (λ g. g ≡ put form (line.Atom atom)) }
{
    let Form {
        version,
        function,
        timing,
        params,
        blocks,
        loops,
        owed,
        rows,
        facts,
        proofs,
        tree,
        formula,
        ended,
    } = form;
    let loops = loops.with_atom(atom)?;
    Ok(Form {
        version,
        function,
        timing,
        params,
        blocks,
        loops,
        owed: owed.saturating_sub(1),
        rows,
        facts,
        proofs,
        tree,
        formula,
        ended,
    })
}

/// What was read after one more line, if that line may follow.
pub fn follow(alloc: Global, form: Form, line: Line) -> Result<Option<Form>, AllocError>
    ensures { IfOk result (λ o. o ≡ after form line) }
{
    if may_follow(&form, &line) {
        Ok(Some(put_line(alloc, form, line)?))
    } else {
        Ok(None)
    }
}
