//! Whether a tree may stand in a report.

ghost use Rattle.std.specs.Prelude.{◌≡◌, ◌&&◌, ◌^◌, map, nat_lt};
ghost use Rattle.report_elements.specs.TreeReading.{all_fit, fits, is_block, is_loop, uses_fit};

use wsym_terms::{Tree, Use};

/// Whether a tree may stand in a report of that many blocks and loops: they exist, its numbers are in range, and at
/// most `room` of its brackets stand in one another.
#[cycle(fitting)]
#[tactic(auto, using(crate::proofs::TreeLaws::fits_leaf, crate::proofs::TreeLaws::fits_seq, crate::proofs::TreeLaws::fits_alt, crate::proofs::TreeLaws::fits_loop))]
pub fn tree_fits(tree: &Tree, blocks: usize, loops: usize, room: usize) -> bool
    ensures { result ≡ fits blocks loops tree.now room }
{
    if room == 0 {
        return false;
    }
    match tree {
        Tree::Leaf { block, base, uses } => leaf_fits(*block, blocks, *base, uses.as_slice()),
        Tree::Seq(members) => trees_fit(members.as_slice(), blocks, loops, room - 1),
        Tree::Alt(choices) => trees_fit(choices.as_slice(), blocks, loops, room - 1),
        Tree::Loop { id, body, exit } => loop_fits(
            *id,
            loops,
            tree_fits(body.get(), blocks, loops, room - 1),
            tree_fits(exit.get(), blocks, loops, room - 1),
        ),
    }
}

/// Whether a loop of this number exists.
pub(crate) fn is_loop(id: u32, loops: usize) -> bool
    ensures { result ≡ is_loop loops id }
{
    id > 0 && id as usize <= loops
}

fn loop_fits(id: u32, loops: usize, body: bool, exit: bool) -> bool
    ensures { result ≡ (is_loop loops id && body && exit) }
{
    is_loop(id, loops) && body && exit
}

fn leaf_fits(block: u32, blocks: usize, base: u128, uses: &[Use]) -> bool
    ensures { result ≡ (is_block blocks block && nat_lt base (2 ^ 127) && uses_fit uses.now) }
{
    (block as usize) < blocks && base < 1 << 127 && do_uses_fit(uses)
}

#[cycle(fitting)]
fn trees_fit(trees: &[Tree], blocks: usize, loops: usize, room: usize) -> bool
    ensures { result ≡ all_fit (map (fits blocks loops) trees.now) room }
{
    for tree in trees {
        if !tree_fits(tree, blocks, loops, room) {
            return false;
        }
    }
    true
}

fn do_uses_fit(uses: &[Use]) -> bool
    ensures { result ≡ uses_fit uses.now }
{
    for used in uses {
        let Use { line, scope } = *used;
        if line >= 1 << 30 || scope >= 17 {
            return false;
        }
    }
    true
}
