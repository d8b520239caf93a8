//! Which sections of a report were read.

ghost use Rattle.std.specs.Prelude.{if◌then◌else◌, ◌≡◌, false, length};
ghost use Rattle.report_rules.specs.Following.{has, holds, is_level, is_version, no_blocks, no_facts, no_formula, no_function, no_loops, no_params, no_proofs, no_rows, no_timing, no_tree};

use crate::forms::Form;

pub(crate) fn any<T>(items: &[T]) -> bool
    ensures { result ≡ holds items.now }
{
    match items.split_first() {
        Some(_) => true,
        None => false,
    }
}

fn count_of<T>(items: &[T]) -> usize
    ensures { result ≡ length items.now }
{
    items.len()
}

pub(crate) fn no_formula(form: &Form) -> bool
    ensures { result ≡ no_formula form.now }
{
    match &form.formula {
        Some(_) => false,
        None => !form.ended,
    }
}

pub(crate) fn no_tree(form: &Form) -> bool
    ensures { result ≡ no_tree form.now }
{
    match &form.tree {
        Some(_) => false,
        None => no_formula(form),
    }
}

pub(crate) fn no_proofs(form: &Form) -> bool
    ensures { result ≡ no_proofs form.now }
{
    if any(form.proofs.as_slice()) {
        return false;
    }
    no_tree(form)
}

pub(crate) fn no_facts(form: &Form) -> bool
    ensures { result ≡ no_facts form.now }
{
    if any(form.facts.as_slice()) {
        return false;
    }
    no_proofs(form)
}

pub(crate) fn no_rows(form: &Form) -> bool
    ensures { result ≡ no_rows form.now }
{
    if any(form.rows.as_slice()) {
        return false;
    }
    no_facts(form)
}

pub(crate) fn no_loops(form: &Form) -> bool
    ensures { result ≡ no_loops form.now }
{
    if any(form.loops.as_slice()) {
        return false;
    }
    no_rows(form)
}

pub(crate) fn no_blocks(form: &Form) -> bool
    ensures { result ≡ no_blocks form.now }
{
    if any(form.blocks.as_slice()) {
        return false;
    }
    no_loops(form)
}

fn no_params(form: &Form) -> bool
    ensures { result ≡ no_params form.now }
{
    if any(form.params.as_slice()) {
        return false;
    }
    no_blocks(form)
}

pub(crate) fn no_timing(form: &Form) -> bool
    ensures { result ≡ no_timing form.now }
{
    match &form.timing {
        Some(_) => false,
        None => no_params(form),
    }
}

pub(crate) fn no_function(form: &Form) -> bool
    ensures { result ≡ no_function form.now }
{
    match &form.function {
        Some(_) => false,
        None => no_timing(form),
    }
}

// Names and numbers.

pub(crate) fn no_version(form: &Form) -> bool
    ensures { result ≡ (if has form.now.version then false else no_function form.now) }
{
    match form.version {
        Some(_) => false,
        None => no_function(form),
    }
}

pub(crate) fn has_version(form: &Form) -> bool
    ensures { result ≡ has form.now.version }
{
    match form.version {
        Some(_) => true,
        None => false,
    }
}

pub(crate) fn has_function(form: &Form) -> bool
    ensures { result ≡ has form.now.function }
{
    match form.function {
        Some(_) => true,
        None => false,
    }
}

pub(crate) fn has_timing(form: &Form) -> bool
    ensures { result ≡ has form.now.timing }
{
    match &form.timing {
        Some(_) => true,
        None => false,
    }
}

pub(crate) fn has_tree(form: &Form) -> bool
    ensures { result ≡ has form.now.tree }
{
    match &form.tree {
        Some(_) => true,
        None => false,
    }
}

pub(crate) fn has_formula(form: &Form) -> bool
    ensures { result ≡ has form.now.formula }
{
    match &form.formula {
        Some(_) => true,
        None => false,
    }
}

pub(crate) fn is_level(form: &Form) -> bool
    ensures { result ≡ is_level form.now }
{
    if any(form.blocks.as_slice()) {
        form.owed == 0
    } else {
        false
    }
}

pub(crate) fn is_first(form: &Form) -> bool
    ensures { result ≡ is_version 1 form.now.version }
{
    match form.version {
        Some(version) => version == 1,
        None => false,
    }
}

pub(crate) fn is_second(form: &Form) -> bool
    ensures { result ≡ is_version 2 form.now.version }
{
    match form.version {
        Some(version) => version == 2,
        None => false,
    }
}
