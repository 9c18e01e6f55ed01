// Sets of lists of numbers.
ghost use Rattle.std.specs.Prelude.{◌≡◌, ◌↔◌, ◌++◌, ◌⊎◌, [], ℕ, List, IfOk, MatchBool, Contains};
ghost use Rattle.iam_kinds.specs.Lists.{lists_in};

use crate::OutOfMemory;
use std::alloc::Global;
use std::collections::HashSet;

/// A set of lists of numbers.
#[derive(Drop)]
pub struct Lists {
    lists: HashSet<Vec<usize>>,
}

impl Lists {
    pub fn new(alloc: Global) -> Lists
        ensures { lists_in result ≡ [] }
    {
        Lists {
            lists: HashSet::new(alloc),
        }
    }

    /// Adds the list: whether it is a new one.
    pub fn add(&mut self, list: Vec<usize>) -> Result<bool, OutOfMemory>
        ensures { IfOk result (λ new. (MatchBool new (¬ Contains (lists_in self.old) list.items) (Contains (lists_in self.old) list.items))
            × ((other : List ℕ) → Contains (lists_in self.new) other ↔ (Contains (lists_in self.old) other ⊎ (other ≡ list.items)))) }
    {
        Ok(self.lists.insert(list)?)
    }
}
