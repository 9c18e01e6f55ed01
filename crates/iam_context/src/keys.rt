// The keys that were seen so far.
ghost use Rattle.std.specs.Prelude.{◌≡◌, ℕ, List, [], ◌∷◌, ◌++◌, false, not, IfOk, OnOk};
ghost use Rattle.iam_context.specs.Context.{has_key, keys_of};

use crate::OutOfMemory;
use crate::key::Key;
use crate::part::Part;
use std::alloc::Global;
use std::collections::BTreeSet;

/// A set of keys, compared without regard to case. It lends the keys and copies none.
#[derive(Drop)]
pub struct Keys<'a> {
    set: BTreeSet<Key<'a>>,
}

impl<'a> Keys<'a> {
    ghost use Rattle.iam_context.specs.Keys.{HasKeys, shares};

    /// No keys.
    pub fn new(alloc: Global) -> Keys<'a>
        ensures { HasKeys result [] }
    {
        Keys {
            set: BTreeSet::new(alloc),
        }
    }

    /// Adds all keys of a part.
    pub fn add(&mut self, part: &'a Part) -> Result<(), OutOfMemory>
        ensures { OnOk result ((keys : List (List ℕ)) → HasKeys self.old keys → HasKeys self.new (keys ++ keys_of part.now.items)) }
    {
        for (key, _) in part {
            self.insert(key.as_str())?;
        }
        Ok(())
    }

    /// Adds the keys of a part up to one that is there already; whether there is one.
    pub(crate) fn add_new(&mut self, part: &'a Part) -> Result<bool, OutOfMemory>
        ensures { IfOk result (λ shared. (keys : List (List ℕ)) → HasKeys self.old keys
            → (shared ≡ shares keys (keys_of part.now.items))
            × (shared ≡ false → HasKeys self.new (keys ++ keys_of part.now.items))) }
    {
        for (key, _) in part {
            if !self.insert(key.as_str())? {
                return Ok(true);
            }
        }
        Ok(false)
    }

    /// Adds a key; whether it was not there.
    fn insert(&mut self, key: &'a str) -> Result<bool, OutOfMemory>
        ensures { IfOk result (λ is_new. (keys : List (List ℕ)) → HasKeys self.old keys
            → (is_new ≡ not (has_key keys key.now)) × HasKeys self.new (keys ++ key.now ∷ [])) }
    {
        let is_new = self.set.insert(Key(key))?;
        Ok(is_new)
    }

    /// Whether the key is one of these.
    pub fn contains(&self, key: &'a str) -> bool
        ensures { (keys : List (List ℕ)) → HasKeys self.now keys → result ≡ has_key keys key.now }
    {
        self.set.contains(&Key(key))
    }
}
