//! Formulas as tables of shared nodes, and their text.

ghost use Rattle.std.specs.Prelude.{◌≡◌, ◌++◌, ◌∷◌, ◌<◌, ◌-◌, length, IfOk, OnOk, Some, slice_get, string_bytes, codes};
ghost use Rattle.std.specs.Fmt.{decimal};
ghost use Rattle.report_elements.specs.Elements.{spaced, term_text};
ghost use Rattle.report_elements.specs.NodeTexts.{node_text};
ghost use Rattle.wsym_formula.specs.Tables.{AllBelow, IsClosed, meaning_at};

use crate::formula_text::push_costs;
use std::alloc::{AllocError, Global};
use std::fmt::Write;
use std::marker::Model;
use wsym_formula::{Node, Shared, Term};

/// A formula as a table of shared nodes: the meaning of its last node. Contracts see the term that it means.
#[derive(Drop)]
pub struct Formula {
    table: Shared,
}

impl Model for Formula {
    ghost use Rattle.std.specs.Prelude.{length, ◌-◌, ◌<◌};
    ghost use Rattle.wsym_formula.specs.Tables.{meaning_at};
    ghost use Rattle.wsym_formula.specs.declared.terms.Term.{Term as TermValue};

    ghost Value = { TermValue };

    ghost use Rattle.std.specs.Coded.{codes};
    ghost use Rattle.wsym_formula.specs.contracts.terms.Term as e;

    ghost coded = { Prim.hlevel (codes, e.the_row.coded) };

    ghost view = { λ f. meaning_at f.table (length f.table - 1) };

    ghost invariant = { λ f. 0 < length f.table };
}

impl Formula {
    /// The formula of a table that has a node.
    pub fn new(table: Shared) -> Formula
        requires { 0 < length table }
        ensures { result ≡ meaning_at table (length table - 1) }
    {
        Formula { table }
    }

    /// The formula of a term, each different part of which is kept once. Memory alone may be refused.
    pub fn of(alloc: Global, term: &Term) -> Result<Formula, AllocError>
        ensures { IfOk result (λ f. f ≡ term.now) }
    {
        Ok(Formula::new(Shared::of(alloc, term)?))
    }

    /// Its table. It takes no memory.
    pub fn table(&self) -> &Shared
        ensures means { meaning_at result.now (length result.now - 1) ≡ self.now }
        ensures node { 0 < length result.now }
    {
        &self.table
    }
}

/// Writes a formula.
pub fn push_formula(out: &mut String, formula: &Formula) -> Result<(), AllocError>
    ensures { OnOk result (string_bytes out.new ≡ string_bytes out.old ++ term_text formula.now) }
{
    let table = formula.table();
    push_node(out, table, table.nodes() - 1)
}

/// Writes the formula that a node means.
#[cycle(nodes)]
#[tactic(auto, using(crate::proofs::NodeLaws::const_text, crate::proofs::NodeLaws::sum_text, crate::proofs::NodeLaws::alt_text, crate::proofs::NodeLaws::power_text, crate::proofs::NodeLaws::once_text, crate::proofs::NodeLaws::scaled_text))]
fn push_node(out: &mut String, table: &Shared, at: u32) -> Result<(), AllocError>
    requires { at < length table.now }
    ensures { OnOk result (string_bytes out.new ≡ string_bytes out.old ++ node_text table.now at) }
{
    match table.node(at) {
        Node::Const(costs) => push_costs(out, costs),
        Node::Sum(members) => push_nodes(out, table, at, "(sum", members.as_slice()),
        Node::Alt(choices) => push_nodes(out, table, at, "(alt", choices.as_slice()),
        Node::Power { id, body } => push_turns(out, table, at, "(power ", *id, *body),
        Node::Once(body) => push_once(out, table, at, *body),
        Node::Scaled { id, body } => push_turns(out, table, at, "(scaled ", *id, *body),
    }
}

/// Writes a bracket of nodes before a node, with a space before each.
#[cycle(nodes)]
fn push_nodes(
    out: &mut String,
    table: &Shared,
    before: u32,
    word: &str,
    members: &[u32],
) -> Result<(), AllocError>
    requires before { before < length table.now }
    requires members { AllBelow before members.now }
    ensures { OnOk result (string_bytes out.new ≡ string_bytes out.old ++ (word.now ++ (spaced (node_text table.now) members.now ++ codes ")"))) }
{
    out.push_str(word)?;
    for member in members {
        out.push_str(" ")?;
        push_node(out, table, *member)?;
    }
    out.push_str(")")
}

/// Writes a body with its loop.
#[cycle(nodes)]
fn push_turns(
    out: &mut String,
    table: &Shared,
    before: u32,
    word: &str,
    id: u32,
    body: u32,
) -> Result<(), AllocError>
    requires before { before < length table.now }
    requires body { body < before }
    ensures { OnOk result (string_bytes out.new ≡ string_bytes out.old ++ (word.now ++ (decimal id ++ (32 ∷ (node_text table.now body ++ codes ")"))))) }
{
    out.push_str(word)?;
    write!(out, "{id} ")?;
    push_node(out, table, body)?;
    out.push_str(")")
}

/// Writes a body of one execution.
#[cycle(nodes)]
fn push_once(out: &mut String, table: &Shared, before: u32, body: u32) -> Result<(), AllocError>
    requires before { before < length table.now }
    requires body { body < before }
    ensures { OnOk result (string_bytes out.new ≡ string_bytes out.old ++ (codes "(once " ++ (node_text table.now body ++ codes ")"))) }
{
    out.push_str("(once ")?;
    push_node(out, table, body)?;
    out.push_str(")")
}
