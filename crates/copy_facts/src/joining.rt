//! What several paths say together of one point.

ghost use Rattle.std.specs.Prelude.{◌≡◌, ◌≢◌, ◌≤◌, ◌<◌, ◌-◌, ◌^◌, ℕ, Bool, true, false, [], Some, None, length, get_or};
ghost use Rattle.std.specs.Prelude.{IfOk, IfSome, IfNone, OnOk};
ghost use Rattle.fact_lattice.specs.Cells.{joined, joined_cell};
ghost use Rattle.copy_facts.specs.Tables.{IsTable, RisesTo, entry_in, joined_entry, state_of_point};

use crate::lookup::{find, put};
use crate::tables::{PointFacts, WordFacts};
use fact_lattice::{Range, is_same, join};
use std::alloc::{AllocError, Global};

/// What two paths say of a word together.
fn join_entry(stack: u32, left: WordFacts, right: WordFacts) -> WordFacts
    ensures { result ≡ joined_entry stack left right }
{
    WordFacts {
        word: left.word,
        cell: join(stack, left.cell, right.cell),
        kept: left.kept & right.kept,
    }
}

/// Whether two entries of one word are the same.
fn is_same_entry(left: WordFacts, right: WordFacts) -> bool
    requires { left.word ≡ right.word }
    ensures same { result ≡ true → left ≡ right }
    ensures differs { result ≡ false → left ≢ right }
{
    is_same(left.cell, right.cell) & (left.kept == right.kept)
}

/// Writes down what two lists of words say together, and answers whether this differs from the first.
fn join_words(
    stack: u32,
    left: &[WordFacts],
    right: &[WordFacts],
    out: &mut Vec<WordFacts>,
) -> Result<bool, AllocError>
    requires left { RisesTo 0 (2 ^ 32 - 1) left.now }
    requires right { RisesTo 0 (2 ^ 32 - 1) right.now }
    requires empty { out.old.items ≡ [] }
    ensures rising { OnOk result (RisesTo 0 (2 ^ 32 - 1) out.new.items) }
    ensures joined { OnOk result ((k : ℕ) → entry_in out.new.items k
        ≡ joined_entry stack (entry_in left.now k) (entry_in right.now k)) }
    ensures same { IfOk result (λ changed. changed ≡ false → (k : ℕ)
        → joined_entry stack (entry_in left.now k) (entry_in right.now k) ≡ entry_in left.now k) }
    ensures differs { IfOk result (λ changed. changed ≡ true → (k : ℕ)
        × (joined_entry stack (entry_in left.now k) (entry_in right.now k) ≢ entry_in left.now k)) }
{
    let mut changed = false;
    for entry in left {
        let next = join_entry(stack, *entry, find(right, entry.word));
        let same = is_same_entry(next, *entry);
        changed = changed | !same;
        put(out, next)?;
    }
    Ok(changed)
}

/// The same of the words of two tables.
fn join_word_lists(
    stack: u32,
    left: &Vec<WordFacts>,
    right: &Vec<WordFacts>,
    out: &mut Vec<WordFacts>,
) -> Result<bool, AllocError>
    requires left { RisesTo 0 (2 ^ 32 - 1) left.now.items }
    requires right { RisesTo 0 (2 ^ 32 - 1) right.now.items }
    requires empty { out.old.items ≡ [] }
    ensures rising { OnOk result (RisesTo 0 (2 ^ 32 - 1) out.new.items) }
    ensures joined { OnOk result ((k : ℕ) → entry_in out.new.items k
        ≡ joined_entry stack (entry_in left.now.items k) (entry_in right.now.items k)) }
    ensures same { IfOk result (λ changed. changed ≡ false → (k : ℕ)
        → joined_entry stack (entry_in left.now.items k) (entry_in right.now.items k) ≡ entry_in left.now.items k) }
    ensures differs { IfOk result (λ changed. changed ≡ true → (k : ℕ)
        × (joined_entry stack (entry_in left.now.items k) (entry_in right.now.items k) ≢ entry_in left.now.items k)) }
{
    join_words(stack, left.as_slice(), right.as_slice(), out)
}

/// What two tables of registers say together, and whether this differs from the first.
fn join_registers(
    stack: u32,
    registers: &mut [Option<Range>; 15],
    other: &[Option<Range>; 15],
) -> bool
    ensures long { length registers.new ≡ 15 }
    ensures joined { (r : ℕ) → get_or registers.new r None
        ≡ joined_cell stack (get_or registers.old r None) (get_or other.now r None) }
    ensures same { result ≡ false → (r : ℕ) → get_or registers.new r None ≡ get_or registers.old r None }
    ensures differs { result ≡ true → (r : ℕ) × (get_or registers.new r None ≢ get_or registers.old r None) }
{
    let mut changed = false;
    let mut at = 0;
    while at < 15 {
        let next = join(stack, registers[at], other[at]);
        let same = is_same(next, registers[at]);
        changed = changed | !same;
        registers[at] = next;
        at += 1;
    }
    changed
}

/// What two tables of a point say together, where this differs from the first.
pub fn join_points(
    alloc: Global,
    stack: u32,
    old: &PointFacts,
    new: &PointFacts,
) -> Result<Option<PointFacts>, AllocError>
    requires old { IsTable old.now }
    requires new { IsTable new.now }
    ensures table { IfOk result (λ o. IfSome o IsTable) }
    ensures joined { IfOk result (λ o. IfSome o (λ t. state_of_point t
        ≡ joined stack (state_of_point old.now) (state_of_point new.now))) }
    ensures differs { IfOk result (λ o. IfSome o (λ t. joined stack (state_of_point old.now) (state_of_point new.now)
        ≢ state_of_point old.now)) }
    ensures same { IfOk result (λ o. IfNone o (joined stack (state_of_point old.now) (state_of_point new.now)
        ≡ state_of_point old.now)) }
{
    let mut words = Vec::new(alloc);
    let other_words = join_word_lists(stack, &old.words, &new.words, &mut words)?;
    let mut registers = old.registers;
    let other_registers = join_registers(stack, &mut registers, &new.registers);
    if other_words | other_registers {
        Ok(Some(PointFacts { registers, words }))
    } else {
        Ok(None)
    }
}
