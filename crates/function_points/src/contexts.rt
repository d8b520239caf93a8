//! The lists of open calls, numbered as they come.
ghost use Rattle.std.specs.Prelude.{◌≡◌, ℕ, ◌<◌, ◌⊎◌, ◌++◌, ◌∷◌, ◌^◌, [], length, Some, OnOk, IfOk, IfSome, IfNone};
ghost use Rattle.std.specs.Prelude.{slice_get, get_or, List, Option};
ghost use Rattle.std.specs.Str.{bytes_eq};
ghost use Rattle.std.specs.BTreeMap as tree;
ghost use Rattle.graph_search.specs.NodeLists.{added, Distinct};
ghost use Rattle.function_points.specs.Contexts.{pair_cmp, lists_of, AreContexts};

use std::alloc::{AllocError, Global};
use std::collections::BTreeMap;
use std::marker::Model;

/// Lists of the return addresses of open calls, the oldest first, numbered as they come. List 0 is the empty one; each
/// other is its parent's with one address more. Its value in contracts is the list of these lists.
#[derive(Drop)]
pub struct Contexts {
    rows: Vec<(u32, u32)>,
    children: BTreeMap<(u32, u32), u32>,
}

impl Model for Contexts {
    ghost use Rattle.std.specs.Prelude.{ℕ, List};
    ghost use Rattle.std.specs.BTreeMap as tree;
    ghost use Rattle.std.specs.Coded.{coded_list, coded_ℕ};
    ghost use Rattle.function_points.specs.Contexts.{pair_cmp, lists_of, AreContexts};

    ghost Value = { List (List ℕ) };

    ghost coded = { coded_list (coded_list coded_ℕ) };

    ghost view = { λ c. lists_of c.rows.items };

    ghost invariant = { λ c. AreContexts c.rows.items (λ row. tree.get pair_cmp c.children row) };
}

impl Contexts {
    /// The empty list alone. It takes no memory.
    pub fn new(alloc: Global) -> Contexts
        ensures { result ≡ [] ∷ [] }
    {
        Contexts {
            rows: Vec::new(alloc),
            children: BTreeMap::new(alloc),
        }
    }

    /// The number of the list that has one return address more than a known one; it is added where it isn't there.
    ///
    /// # Errors
    ///
    /// Want of memory alone.
    pub fn child(&mut self, parent: u32, address: u32) -> Result<u32, AllocError>
        requires known { parent < length self.old }
        requires few { length self.old < 2 ^ 31 }
        ensures lists { OnOk result (self.new ≡ added bytes_eq self.old (get_or self.old parent [] ++ address ∷ [])) }
        ensures number { IfOk result (λ k. slice_get self.new k ≡ Some (get_or self.old parent [] ++ address ∷ [])) }
    {
        match self.children.get(&(parent, address)) {
            Some(number) => Ok(*number),
            None => {
                self.rows.reserve(1)?;
                let number = self.rows.len() as u32 + 1;
                self.children.insert((parent, address), number)?;
                self.rows.push((parent, address))?;
                Ok(number)
            }
        }
    }

    /// The number of the list that has one return address more, if it is there.
    pub fn find(&self, parent: u32, address: u32) -> Option<u32>
        requires known { parent < length self.now }
        ensures some { IfSome result (λ k. slice_get self.now k ≡ Some (get_or self.now parent [] ++ address ∷ [])) }
        ensures none { IfNone result ((k : ℕ) → slice_get self.now k ≡ Some (get_or self.now parent [] ++ address ∷ [])
            → ⊥) }
    {
        let row = (parent, address);
        match self.children.get(&row) {
            Some(number) => Some(*number),
            None => None,
        }
    }

    /// The number of lists, at least 1.
    pub fn len(&self) -> usize
        ensures len { result ≡ length self.now }
        ensures root { slice_get self.now 0 ≡ Some [] }
        ensures distinct { Distinct bytes_eq self.now }
        ensures rows { (k : ℕ) → k < length self.now → (get_or self.now k [] ≡ []) ⊎
            ((p a : ℕ) × (p < k) × (get_or self.now k [] ≡ get_or self.now p [] ++ a ∷ [])) }
    {
        self.rows.len() + 1
    }

    /// The number of the list without its last return address, and that address.
    pub fn parent_of(&self, number: u32) -> Option<(u32, u32)>
        requires { number < length self.now }
        ensures none { IfNone result (get_or self.now number [] ≡ []) }
        ensures some { IfSome result (λ row. (row.0 < number) ×
            (get_or self.now number [] ≡ get_or self.now row.0 [] ++ row.1 ∷ [])) }
    {
        if number == 0 {
            None
        } else {
            Some(self.rows[number as usize - 1])
        }
    }

    /// The parent's number and the last return address of each list but the first.
    pub fn rows(&self) -> &[(u32, u32)]
        ensures lists { lists_of result.now ≡ self.now }
        ensures exact { (look : ℕ × ℕ → Option ℕ) × AreContexts result.now look }
    {
        self.rows.as_slice()
    }
}
