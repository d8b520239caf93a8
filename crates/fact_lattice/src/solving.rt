//! The search for what all paths say: a worklist of points, over any order of them.

ghost use Rattle.std.specs.Prelude.{◌≡◌, ℕ, ◌+◌, ◌*◌, ◌<◌, ◌≤◌, Bool, true, false, if◌then◌else◌, Option, is_some};
ghost use Rattle.std.specs.Prelude.{length, IfOk, IfErr, OnOk, IfSome};
ghost use Rattle.std.specs.Ordering.{nat_cmp};
ghost use Rattle.std.specs.BTreeSet as tree;
ghost use Rattle.std.specs.BTreeSet.{btree_set_len};
ghost use Rattle.fact_lattice.specs.Cells.{AbstractState};
ghost use Rattle.fact_lattice.specs.Flows.{AreRealized, Flow, IsRegular, IsSolved, is_placed};
ghost use Rattle.fact_lattice.specs.Searches.{IsStopAt, Merged, Passed, first_map};

use crate::waiting::{put, take};
use std::alloc::{AllocError, Global};
use std::collections::BTreeSet;

/// Why the search ends early: want of memory, or a point at which r13 is lost.
#[derive(Clone, Copy, Debug, PartialEq, Eq, Drop)]
pub enum Stop {
    Memory,
    Lost(u32),
}

/// Points with what is known at each.
pub trait Merging {
    /// The points, their ways and instructions.
    ghost flow: { Self → Flow };

    /// What is known at each point that was reached.
    ghost map: { Self → ℕ → Option AbstractState };

    /// How far what is known may still fall.
    ghost weight: { Self → ℕ };

    /// What the tables keep.
    ghost sound: { Self → Type 0 };

    /// Whether the point may be passed: its accesses by the stack pointer have one offset.
    fn is_placed(&self, point: u32) -> bool
        requires { is_some (map self.now point) ≡ true }
        ensures { IfSome (map self.now point) (λ m. result ≡ is_placed (flow self.now) point m) };

    /// The number of ways from a point.
    fn ways(&self, point: u32) -> usize
        ensures { result ≡ length ((flow self.now).ways point) };

    /// Merges what is known after a way into what is known where it leads, and answers that point where this
    /// changed it.
    fn merge(&mut self, point: u32, way: usize) -> Result<Option<u32>, AllocError>
        requires within { way < length ((flow self.old).ways point) }
        requires visited { is_some (map self.old point) ≡ true }
        requires sound { sound self.old }
        ensures sound { OnOk result (sound self.new) }
        ensures same { OnOk result (flow self.new ≡ flow self.old) }
        ensures went { IfOk result (Merged (flow self.old) point way (map self.old) (map self.new)) }
        ensures less { IfOk result
            (λ changed. (if is_some changed then 1 else 0) + weight self.new ≤ weight self.old) };
}

/// Merges what is known after a point into what is known where its ways lead.
pub fn pass<M: Merging>(states: &mut M, waiting: &mut BTreeSet<u32>, point: u32) -> Result<(), Stop>
    requires sound { M.sound states.old }
    requires regular { IsRegular (M.flow states.old) }
    requires real { AreRealized (M.flow states.old) (M.map states.old) }
    requires visited { is_some (M.map states.old point) ≡ true }
    ensures sound { OnOk result (M.sound states.new) }
    ensures same { OnOk result (M.flow states.new ≡ M.flow states.old) }
    ensures went { OnOk result
        (Passed (M.flow states.old) point (length ((M.flow states.old).ways point)) (M.map states.old)
        (M.map states.new) (tree.contains nat_cmp waiting.old) (tree.contains nat_cmp waiting.new)) }
    ensures placed { OnOk result
        (tree.contains nat_cmp waiting.new point ≡ false → IfSome (M.map states.old point)
        (λ m. is_placed (M.flow states.old) point m ≡ true)) }
    ensures less { OnOk result
        (btree_set_len waiting.new + 2 * M.weight states.new ≤ btree_set_len waiting.old + 2 * M.weight states.old) }
    ensures stop { IfErr result (IsStopAt (M.flow states.old)) }
{
    let count = states.ways(point);
    let mut way = 0;
    while way < count {
        if !states.is_placed(point) {
            return Err(Stop::Lost(point));
        }
        let changed = states.merge(point, way).map_err(|_| Stop::Memory)?;
        put(waiting, changed).map_err(|_| Stop::Memory)?;
        way += 1;
    }
    if !states.is_placed(point) {
        return Err(Stop::Lost(point));
    }
    Ok(())
}

/// Merges until nothing changes any more.
pub fn solve<M: Merging>(alloc: Global, states: &mut M, start: u32) -> Result<(), Stop>
    requires sound { M.sound states.old }
    requires regular { IsRegular (M.flow states.old) }
    requires begins { (M.flow states.old).start ≡ start }
    requires first { M.map states.old ≡ first_map (M.flow states.old) }
    ensures sound { OnOk result (M.sound states.new) }
    ensures same { OnOk result (M.flow states.new ≡ M.flow states.old) }
    ensures solved { OnOk result (IsSolved (M.flow states.old) (M.map states.new)) }
    ensures stop { IfErr result (IsStopAt (M.flow states.old)) }
{
    let mut waiting = BTreeSet::new(alloc);
    put(&mut waiting, Some(start)).map_err(|_| Stop::Memory)?;
    while let Some(point) = take(&mut waiting) {
        pass(states, &mut waiting, point)?;
    }
    Ok(())
}
