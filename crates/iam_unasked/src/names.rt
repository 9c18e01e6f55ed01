// A few keys, each of them once.
ghost use Rattle.std.specs.Prelude.{◌≡◌, ◌++◌, ◌∷◌, [], ℕ, List, IfSome};
ghost use Rattle.std.specs.List.{list_any};
ghost use Rattle.iam_context.specs.Context.{has_key, is_same_key, keys_of};
ghost use Rattle.iam_unasked.specs.Names.{HasNames};

use iam_context::Part;
use std::alloc::Global;

/// So many keys are held at most, since each is sought among all.
const MOST: usize = 32;

/// Keys, compared without regard to case. They are lent.
#[derive(Drop)]
pub struct Names<'a> {
    pub names: Vec<&'a str>,
}

impl<'a> Names<'a> {
    /// No keys.
    pub fn new(alloc: Global) -> Names<'a>
        ensures { HasNames result [] }
    {
        Names {
            names: Vec::new(alloc),
        }
    }

    /// Adds all keys of a part; `None` where they get too many, or there is no memory for them.
    pub fn add(&mut self, part: &'a Part) -> Option<()>
        ensures { IfSome result (λ _. (list : List (List ℕ)) → HasNames self.old list → HasNames self.new (list ++ keys_of part.now.items)) }
    {
        for (key, _) in part {
            self.insert(key.as_str())?;
        }
        Some(())
    }

    /// Adds a key, if it is not there.
    fn insert(&mut self, key: &'a str) -> Option<()>
        ensures { IfSome result (λ _. (list : List (List ℕ)) → HasNames self.old list → HasNames self.new (list ++ key.now ∷ [])) }
    {
        if self.has(key) {
            return Some(());
        }
        if self.names.len() >= MOST {
            return None;
        }
        self.names.push(key).ok()
    }

    /// Whether the key is one of these.
    pub fn has(&self, key: &str) -> bool
        ensures { (list : List (List ℕ)) → HasNames self.now list → result ≡ has_key list key.now }
    {
        is_one_of(self.names.as_slice(), key)
    }
}

/// Whether the key is one of these.
fn is_one_of(names: &[&str], key: &str) -> bool
    ensures { result ≡ list_any (λ name. is_same_key name.now key.now) names.now }
{
    names.iter().any(|&name| is_same(name, key))
}

/// Whether the keys differ in the case of ASCII letters alone.
fn is_same(one: &str, other: &str) -> bool
    ensures { result ≡ is_same_key one.now other.now }
{
    one.eq_ignore_ascii_case(other)
}
