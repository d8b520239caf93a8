//! What is known after an instruction.

ghost use Rattle.std.specs.Prelude.{◌≡◌, ◌⊎◌, ℕ, ◌<◌, ◌≤◌, ◌-◌, ◌^◌, None, get_or, length, Bool, if◌then◌else◌, IfOk};
ghost use Rattle.std.specs.Prelude.{OnOk};
ghost use Rattle.path_facts.specs.Facts.{offset_in};
ghost use Rattle.path_facts.specs.Facts.Location.{Register};
ghost use Rattle.point_steps.specs.Meanings.{source_meant};
ghost use Rattle.fact_lattice.specs.Cells.{cell_of, known_in, one_offset};
ghost use Rattle.copy_facts.specs.Points.{stepped_entry, stepped_state};
ghost use Rattle.copy_facts.specs.Tables.{AreEntriesTo, IsTable, RisesTo, entry_in, nothing_of, state_of_point};

use crate::lookup::{find, put};
use crate::sites::Site;
use crate::tables::{PointFacts, WordFacts};
use fact_lattice::{Range, constant, is_above_all, shift};
use path_facts::Origin;
use point_steps::{
    Location, Source, StackChange, mark_after, register_source, stack_change, word_source,
};
use std::alloc::{AllocError, Global};

/// The cell of a register.
fn register_cell(facts: &PointFacts, register: u8) -> Option<Range>
    ensures { result ≡ get_or facts.now.registers register None }
{
    match facts.registers.get(register as usize) {
        Some(cell) => *cell,
        None => None,
    }
}

/// What is known of a word.
pub fn word_facts(facts: &PointFacts, word: u32) -> WordFacts
    requires { IsTable facts.now }
    ensures { result ≡ entry_in facts.now.words.items word }
{
    find(facts.words.as_slice(), word)
}

/// The offset of r13 by its cell.
fn offset_in(sp: Option<Range>) -> Option<i32>
    ensures { result ≡ offset_in (known_in sp) }
{
    match sp {
        None => None,
        Some(range) => {
            if range.low == range.high {
                match range.origin {
                    Origin::Zero => None,
                    Origin::AtStart(register) => {
                        if register == 13 {
                            Some(range.low)
                        } else {
                            None
                        }
                    }
                }
            } else {
                None
            }
        }
    }
}

/// How far r13 is from its start, where all paths agree.
pub fn offset_of(facts: &PointFacts) -> Option<i32>
    ensures { result ≡ one_offset (state_of_point facts.now) }
{
    offset_in(register_cell(facts, 13))
}

/// What a location holds that has this source.
pub fn cell_from(facts: &PointFacts, source: Source) -> Option<Range>
    requires { IsTable facts.now }
    ensures { result ≡ cell_of (state_of_point facts.now) (source_meant source) }
{
    match source {
        Source::Nothing => None,
        Source::Constant(value) => constant(value),
        Source::Sum(register, by) => shift(register_cell(facts, register), by),
        Source::Copy(location) => match location {
            Location::Register(register) => register_cell(facts, register),
            Location::StackWord(word) => word_facts(facts, word).cell,
        },
        Source::IfMarked(word) => {
            let entry = word_facts(facts, word);
            if entry.kept { entry.cell } else { None }
        }
    }
}

/// What a register holds after an instruction.
fn register_after(
    stack: u32,
    site: &Site,
    done: bool,
    facts: &PointFacts,
    register: u8,
) -> Option<Range>
    requires { IsTable facts.now }
    ensures { result ≡ (stepped_state stack site.now done facts.now).cell (Register register) }
{
    if done {
        let offset = offset_of(facts);
        cell_from(
            facts,
            register_source(site.address, site.literal, offset, &site.insn, register),
        )
    } else {
        register_cell(facts, register)
    }
}

/// What the registers hold after an instruction.
fn registers_after(stack: u32, site: &Site, done: bool, facts: &PointFacts) -> [Option<Range>; 15]
    requires { IsTable facts.now }
    ensures long { length result ≡ 15 }
    ensures cells { (r : ℕ) → get_or result r None ≡ (stepped_state stack site.now done facts.now).cell (Register r) }
{
    let mut registers = facts.registers;
    let mut at: u8 = 0;
    while at < 15 {
        registers[at as usize] = register_after(stack, site, done, facts, at);
        at += 1;
    }
    registers
}

/// What is known of a word after an instruction, where r13 then has this cell.
fn word_after(
    stack: u32,
    site: &Site,
    done: bool,
    facts: &PointFacts,
    sp: Option<Range>,
    word: u32,
) -> WordFacts
    requires table { IsTable facts.now }
    requires sp { sp ≡ (stepped_state stack site.now done facts.now).cell (Register 13) }
    ensures { result ≡ stepped_entry stack site.now done facts.now word }
{
    let before = word_facts(facts, word);
    let above = is_above_all(stack, sp, word);
    if done {
        let offset = offset_of(facts);
        WordFacts {
            word,
            cell: cell_from(facts, word_source(stack, offset, &site.insn, word)),
            kept: above & mark_after(stack, offset, &site.insn, word, before.kept),
        }
    } else {
        WordFacts {
            word,
            cell: before.cell,
            kept: above & before.kept,
        }
    }
}

/// The words of which an instruction may say something new: from the first, and below the second.
fn new_words(site: &Site, done: bool, facts: &PointFacts) -> (u32, u32)
    ensures order { result.0 ≤ result.1 }
    ensures below { result.1 ≤ 2 ^ 32 - 1 }
    ensures quiet { (stack k : ℕ) → stack < 2 ^ 31 → (k < result.0) ⊎ (result.1 ≤ k)
        → entry_in facts.now.words.items k ≡ nothing_of k
        → stepped_entry stack site.now done facts.now k ≡ nothing_of k }
{
    if !done {
        return (0, 0);
    }
    match stack_change(offset_of(facts), &site.insn) {
        StackChange::Nothing => (0, 0),
        StackChange::Words { first, last } => {
            if first <= last {
                (first, last + 1)
            } else {
                (0, 0)
            }
        }
        StackChange::Any => (0, 0),
        StackChange::Unmarked => (0, 0),
    }
}

/// Writes down the words of a table that lie between two words, as they are after an instruction.
fn step_old(
    stack: u32,
    site: &Site,
    done: bool,
    facts: &PointFacts,
    sp: Option<Range>,
    from: u32,
    to: u32,
    out: &mut Vec<WordFacts>,
) -> Result<(), AllocError>
    requires table { IsTable facts.now }
    requires sp { sp ≡ (stepped_state stack site.now done facts.now).cell (Register 13) }
    requires order { from ≤ to }
    requires quiet { (k : ℕ) → from ≤ k → k < to → entry_in facts.now.words.items k ≡ nothing_of k
        → stepped_entry stack site.now done facts.now k ≡ nothing_of k }
    requires entries { AreEntriesTo (stepped_entry stack site.now done facts.now) from out.old.items }
    ensures { OnOk result (AreEntriesTo (stepped_entry stack site.now done facts.now) to out.new.items) }
{
    let mut at = 0;
    while at < facts.words.len() {
        let word = facts.words[at].word;
        at += 1;
        if word < from {
            continue;
        }
        if to <= word {
            continue;
        }
        put(out, word_after(stack, site, done, facts, sp, word))?;
    }
    Ok(())
}

/// Writes down all words between two words, as they are after an instruction.
fn step_all(
    stack: u32,
    site: &Site,
    done: bool,
    facts: &PointFacts,
    sp: Option<Range>,
    from: u32,
    to: u32,
    out: &mut Vec<WordFacts>,
) -> Result<(), AllocError>
    requires table { IsTable facts.now }
    requires sp { sp ≡ (stepped_state stack site.now done facts.now).cell (Register 13) }
    requires order { from ≤ to }
    requires entries { AreEntriesTo (stepped_entry stack site.now done facts.now) from out.old.items }
    ensures { OnOk result (AreEntriesTo (stepped_entry stack site.now done facts.now) to out.new.items) }
{
    let mut word = from;
    while word < to {
        put(out, word_after(stack, site, done, facts, sp, word))?;
        word += 1;
    }
    Ok(())
}

/// What is known of the words after an instruction.
fn words_after(
    alloc: Global,
    stack: u32,
    site: &Site,
    done: bool,
    facts: &PointFacts,
    sp: Option<Range>,
) -> Result<Vec<WordFacts>, AllocError>
    requires small { stack < 2 ^ 31 }
    requires table { IsTable facts.now }
    requires sp { sp ≡ (stepped_state stack site.now done facts.now).cell (Register 13) }
    ensures rising { IfOk result (λ words. RisesTo 0 (2 ^ 32 - 1) words.items) }
    ensures entries { IfOk result (λ words. (k : ℕ) → entry_in words.items k
        ≡ stepped_entry stack site.now done facts.now k) }
{
    let (from, to) = new_words(site, done, facts);
    let mut out = Vec::new(alloc);
    step_old(stack, site, done, facts, sp, 0, from, &mut out)?;
    step_all(stack, site, done, facts, sp, from, to, &mut out)?;
    step_old(stack, site, done, facts, sp, to, u32::MAX, &mut out)?;
    Ok(out)
}

/// What is known after an instruction that is done or skipped, where the stack has this number of bytes.
pub fn step_point(
    alloc: Global,
    stack: u32,
    site: &Site,
    done: bool,
    facts: &PointFacts,
) -> Result<PointFacts, AllocError>
    requires small { stack < 2 ^ 31 }
    requires table { IsTable facts.now }
    ensures table { IfOk result IsTable }
    ensures stepped { IfOk result (λ t. state_of_point t ≡ stepped_state stack site.now done facts.now) }
{
    let registers = registers_after(stack, site, done, facts);
    let words = words_after(alloc, stack, site, done, facts, registers[13])?;
    Ok(PointFacts { registers, words })
}
