use crate::lists::shown;
use std::alloc::{AllocError, Global};
use wsym_formula::{Node, Shared};

/// The text of an earlier node.
fn text_at(texts: &[String], at: u32) -> &str {
    match texts.get(at as usize) {
        Some(text) => text.as_str(),
        None => "",
    }
}

/// A node with several members as `(sum A B)`.
fn bracket(
    alloc: Global,
    kind: &str,
    texts: &[String],
    members: &[u32],
) -> Result<String, AllocError> {
    let mut text = String::from_str(alloc, "(")?;
    text.push_str(kind)?;
    for member in members {
        text.push_str(" ")?;
        text.push_str(text_at(texts, *member))?;
    }
    text.push_str(")")?;
    Ok(text)
}

/// The text of a node, by those of the nodes before it.
fn node_text(alloc: Global, texts: &[String], node: &Node) -> Result<String, AllocError> {
    match node {
        Node::Const(costs) => shown(alloc, costs),
        Node::Sum(members) => bracket(alloc, "sum", texts, members.as_slice()),
        Node::Alt(choices) => bracket(alloc, "alt", texts, choices.as_slice()),
        Node::Power { id, body } => format!(in alloc; "(power {id} {})", text_at(texts, *body)),
        Node::Once(body) => format!(in alloc; "(once {})", text_at(texts, *body)),
        Node::Scaled { id, body } => format!(in alloc; "(scaled {id} {})", text_at(texts, *body)),
    }
}

/// A formula as the text of its last node, with the number of its nodes.
pub(crate) fn table_text(alloc: Global, formula: &Shared) -> Result<String, AllocError> {
    let mut texts = Vec::new(alloc);
    for node in formula.as_slice() {
        let text = node_text(alloc, texts.as_slice(), node)?;
        texts.push(text)?;
    }
    let last = match texts.last() {
        Some(text) => text.as_str(),
        None => "",
    };
    format!(in alloc; "{last} in {} nodes", formula.nodes())
}
