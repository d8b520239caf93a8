//! Writes trees.

ghost use Rattle.std.specs.Prelude.{◌≡◌, ◌++◌, ◌∷◌, OnOk, string_bytes, codes};
ghost use Rattle.report_elements.specs.Elements.{use_text, leaf_text, spaced, tree_text};

use std::alloc::AllocError;
use std::fmt::Write;
use wsym_terms::{Tree, Use};

/// Writes a tree.
#[cycle(trees)]
pub fn push_tree(out: &mut String, tree: &Tree) -> Result<(), AllocError>
    ensures { OnOk result (string_bytes out.new ≡ string_bytes out.old ++ tree_text tree.now) }
{
    match tree {
        Tree::Leaf { block, base, uses } => push_leaf(out, *block, *base, uses.as_slice()),
        Tree::Seq(members) => {
            out.push_str("(seq")?;
            push_trees(out, members.as_slice())?;
            out.push_str(")")?;
            Ok(())
        }
        Tree::Alt(choices) => {
            out.push_str("(alt")?;
            push_trees(out, choices.as_slice())?;
            out.push_str(")")?;
            Ok(())
        }
        Tree::Loop { id, body, exit } => {
            write!(out, "(loop {id} ")?;
            push_tree(out, body.get())?;
            out.push_str(" ")?;
            push_tree(out, exit.get())?;
            out.push_str(")")?;
            Ok(())
        }
    }
}

/// Writes a space and a tree for each tree.
#[cycle(trees)]
fn push_trees(out: &mut String, trees: &[Tree]) -> Result<(), AllocError>
    ensures { OnOk result (string_bytes out.new ≡ string_bytes out.old ++ spaced tree_text trees.now) }
{
    for tree in trees {
        out.push_str(" ")?;
        push_tree(out, tree)?;
    }
    Ok(())
}

/// Writes a leaf.
fn push_leaf(out: &mut String, block: u32, base: u128, uses: &[Use]) -> Result<(), AllocError>
    ensures { OnOk result (string_bytes out.new ≡ string_bytes out.old ++ leaf_text block base uses.now) }
{
    write!(out, "(leaf {block} {base}")?;
    push_uses(out, uses)?;
    out.push_str(")")?;
    Ok(())
}

/// Writes a space and a use for each use.
fn push_uses(out: &mut String, uses: &[Use]) -> Result<(), AllocError>
    ensures { OnOk result (string_bytes out.new ≡ string_bytes out.old ++ spaced use_text uses.now) }
{
    for used in uses {
        let Use { line, scope } = *used;
        write!(out, " {line}@{scope}")?;
    }
    Ok(())
}
