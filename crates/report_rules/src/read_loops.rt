//! The loops that were read, in which a header is looked up without going through them.

ghost use Rattle.std.specs.Prelude.{◌≡◌, ◌++◌, ◌∷◌, [], IfOk};
ghost use Rattle.std.specs.BTreeSet as tree;
ghost use Rattle.report_rules.specs.Headers.{is_header, new_loop, with_atom};

use report_lines::ReportLoop;
use sqlite_items::Items;
use std::alloc::{AllocError, Global};
use std::collections::BTreeSet;
use std::marker::Model;
use wsym_terms::{Atom, Bound};

/// The loops that were read, in order. Contracts see their list.
#[derive(Drop)]
pub struct ReadLoops {
    loops: Items<ReportLoop>,
    headers: BTreeSet<u32>,
}

impl Model for ReadLoops {
    ghost use Rattle.std.specs.Prelude.{◌≡◌, ℕ, List};
    ghost use Rattle.std.specs.Ordering.{nat_cmp};
    ghost use Rattle.std.specs.BTreeSet as tree;
    ghost use Rattle.report_lines.specs.declared.report.ReportLoop.{ReportLoop as LoopValue};
    ghost use Rattle.report_rules.specs.Headers.{is_header};

    ghost Value = { List LoopValue };

    ghost view = { λ l. l.loops };

    ghost invariant = { λ l. (b : ℕ) → tree.contains nat_cmp l.headers b ≡ is_header l.loops b };
}

impl ReadLoops {
    /// No loops. It takes no memory.
    pub fn new(alloc: Global) -> ReadLoops
        ensures { result ≡ [] }
    {
        ReadLoops {
            loops: Items::new(alloc),
            headers: BTreeSet::new(alloc),
        }
    }

    /// The loops, in order.
    pub fn as_slice(&self) -> &[ReportLoop]
        ensures { result.now ≡ self.now }
    {
        self.loops.as_slice()
    }

    /// The loops alone.
    pub fn into_items(self) -> Items<ReportLoop>
        ensures { result ≡ self }
    {
        let ReadLoops { loops, headers: _ } = self;
        loops
    }

    /// Whether a block is the header of a loop.
    pub fn has_header(&self, block: u32) -> bool
        ensures { result ≡ is_header self.now block }
    {
        self.headers.contains(&block)
    }

    /// One more loop, without atoms yet. Where memory is wanting the loops are dropped.
    pub fn with_loop(self, alloc: Global, header: u32, depth: u32) -> Result<ReadLoops, AllocError>
        ensures { IfOk result (λ ls. ls ≡ self ++ new_loop header depth ∷ []) }
    {
        let ReadLoops {
            mut loops,
            mut headers,
        } = self;
        headers.insert(header)?;
        loops.push(ReportLoop {
            header,
            depth,
            bound: Bound {
                atoms: Items::new(alloc),
            },
        })?;
        Ok(ReadLoops { loops, headers })
    }

    /// One more atom for the last loop. Where memory is wanting the loops are dropped.
    #[tactic(auto, using(crate::proofs::LoopLaws::last_with_atom))]
    pub fn with_atom(self, atom: Atom) -> Result<ReadLoops, AllocError>
        ensures { IfOk result (λ ls. ls ≡ with_atom self atom) }
    {
        let ReadLoops { loops, headers } = self;
        let loops = add_atom(loops, atom)?;
        Ok(ReadLoops { loops, headers })
    }
}

#[tactic(auto, using(crate::proofs::LoopLaws::last_with_atom))]
fn add_atom(loops: Items<ReportLoop>, atom: Atom) -> Result<Items<ReportLoop>, AllocError>
    ensures { IfOk result (λ ls. ls ≡ with_atom loops atom) }
{
    let mut loops = loops;
    match loops.pop() {
        Some(last) => {
            let ReportLoop {
                header,
                depth,
                bound: Bound { mut atoms },
            } = last;
            atoms.push(atom)?;
            loops.push(ReportLoop {
                header,
                depth,
                bound: Bound { atoms },
            })?;
            Ok(loops)
        }
        None => Ok(loops),
    }
}
