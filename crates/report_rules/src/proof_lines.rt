//! The lines of proofs.

ghost use Rattle.std.specs.Prelude.{◌≡◌, ◌&&◌, nat_lt, length};
ghost use Rattle.report_rules.specs.Following.{about_ok, after_proof, atom_exists, comes_before, is_done, last_of, may, pairs_from, point_exists, proof_ok, proof_order, u32_ok, way_ok};
ghost use Rattle.report_lines.specs.declared.report.Line.TheVariants as line;

use crate::forms::Form;
use crate::naming::{atom_exists, point_exists};
use crate::sections::{any, is_level, is_second, no_tree};
use report_lines::{About, Proof, Way};
use row_elimination::Multiplier;

fn way_ok(form: &Form, way: Way) -> bool
    ensures { result ≡ way_ok form.now way }
{
    match way {
        Way::Start => true,
        Way::Done { block, index } => point_exists(form, block, index),
        Way::Skip { block, index } => point_exists(form, block, index),
    }
}

fn is_done(way: Way, block: u32, index: u32) -> bool
    ensures { result ≡ is_done way block index }
{
    match way {
        Way::Done { block: b, index: i } => b == block && i == index,
        Way::Start | Way::Skip { block: _, index: _ } => false,
    }
}

fn pairs_ascend(pairs: &[Multiplier]) -> bool
    ensures { result ≡ pairs_from 0 pairs.now }
{
    let mut least = 0_u128;
    for pair in pairs {
        let Multiplier { row, factor } = *pair;
        let row = u128::from(row);
        if row < least || factor == 0 || factor >= 1 << 127 {
            return false;
        }
        least = row + 1;
    }
    true
}

fn proof_order(way: Way, about: About) -> [u32; 7]
    ensures { result ≡ proof_order way about }
{
    let (kind, block, index, last) = match way {
        Way::Start => (0, 0, 0, 0),
        Way::Done { block, index } => (1, block, index, 0),
        Way::Skip { block, index } => (1, block, index, 1),
    };
    match about {
        About::Low { block, index } => [0, block, index, 0, 0, 0, 0],
        About::High { block, index } => [0, block, index, 1, 0, 0, 0],
        About::Fact(number) => [1, number, 0, kind, block, index, last],
        About::Turn { id, atom } => [2, id, atom, kind, block, index, last],
        About::Closing { place, row } => [3, place, row, kind, block, index, last],
    }
}

fn comes_before(first: &[u32], second: &[u32]) -> bool
    ensures { result ≡ comes_before first.now second.now }
{
    match first.split_first() {
        Some((x, xs)) => match second.split_first() {
            Some((y, ys)) => if *x == *y {
                comes_before(xs, ys)
            } else {
                *x < *y
            },
            None => false,
        },
        None => any(second),
    }
}

fn after_proof(proofs: &[Proof], proof: &Proof) -> bool
    ensures { result ≡ after_proof (last_of proofs.now) proof.now }
{
    if proofs.is_empty() {
        return true;
    }
    let last = &proofs[proofs.len() - 1];
    let first = proof_order(last.way, last.about);
    let second = proof_order(proof.way, proof.about);
    comes_before(&first, &second)
}

fn about_ok(form: &Form, way: Way, about: About) -> bool
    ensures { result ≡ about_ok form.now way about }
{
    match about {
        About::Fact(number) => step_ok(form, way, number),
        About::Low { block, index } => range_ok(form, way, block, index),
        About::High { block, index } => range_ok(form, way, block, index),
        About::Turn { id, atom } => turn_ok(form, way, id, atom),
        About::Closing { place: _, row: _ } => false,
    }
}

fn step_ok(form: &Form, way: Way, number: u32) -> bool
    ensures { result ≡ (u32_ok number && nat_lt number (length form.now.facts) && way_ok form.now way) }
{
    (number as usize) < form.facts.len() && way_ok(form, way)
}

fn range_ok(form: &Form, way: Way, block: u32, index: u32) -> bool
    ensures { result ≡ (is_done way block index && point_exists form.now block index) }
{
    is_done(way, block, index) && point_exists(form, block, index)
}

fn turn_ok(form: &Form, way: Way, id: u32, atom: u32) -> bool
    ensures { result ≡ (atom_exists form.now id atom && way_ok form.now way) }
{
    atom_exists(form, id, atom) && way_ok(form, way)
}

fn proof_ok(form: &Form, proof: &Proof) -> bool
    ensures { result ≡ proof_ok form.now proof.now }
{
    about_ok(form, proof.way, proof.about)
        && proof.divisor > 0
        && proof.divisor < 1 << 127
        && pairs_ascend(proof.pairs.as_slice())
        && after_proof(form.proofs.as_slice(), proof)
}

pub(crate) fn may_prove(form: &Form, proof: &Proof) -> bool
    ensures { result ≡ may form.now (line.Proof proof.now) }
{
    proof_ok(form, proof) && is_second(form) && is_level(form) && no_tree(form)
}
