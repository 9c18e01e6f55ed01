// The walk over the states of the patterns, breadth first.
ghost use Rattle.std.specs.Prelude.{[], ◌∷◌, ◌++◌, ◌≡◌, ◌↔◌, ◌<◌, ◌≤◌, ◌+◌, ◌⊎◌, MatchBool, List, Some, ℕ, Contains, IfNone, IfOk, IfSome, IsTrue, length, map};
ghost use Rattle.std.specs.Bool.{OnFalse, OnTrue};
ghost use Rattle.std.specs.List.{slice_get};
ghost use Rattle.std.specs.List.Sorted.{IsStrictlyIncreasing};
ghost use Rattle.iam_kinds.specs.Kinds.{IsBefore};
ghost use Rattle.iam_kinds.specs.declared.asked.Node.{Node};
ghost use Rattle.iam_kinds.specs.Kinds.{IsText};
ghost use Rattle.iam_kinds.specs.Lists.{lists_in};
ghost use Rattle.iam_kinds.specs.declared.asked.Asked.{Asked};
ghost use Rattle.iam_kinds.specs.Walk.{AreLeast, AreLetters, AreTexts, Describes, Grows, HasSeen, IsAt, IsBelow, IsCovered, IsExpandedAt, IsMetFirst, IsOver, IsReady, IsSought, IsSpelledFor, IsTried, IsTriedBehind, IsWalk, StaysBelow, StaysBelowBehind, TriesAll, machine_at, query_of, shown_in};

use crate::OutOfMemory;
use crate::asked::{Asked, Node};
use crate::letters::{Behind, ends_here};
use crate::lists::Lists;
use std::alloc::Global;

/// How many states, kinds and places of states a walk keeps.
const MOST_STATES: usize = 65_536;

const MOST_KINDS: usize = 4_096;

const MOST_PLACES: usize = 4_194_304;

/// The texts that a walk has come to, in order, and those of them that are shown.
#[derive(Drop)]
pub struct Walk<'a> {
    pub nodes: Vec<Node<'a>>,
    /// The states of those with which no named text begins.
    pub seen: Lists,
    /// The numbers of the groups that match the texts that are shown.
    pub kinds: Lists,
    pub shown: Vec<Vec<char>>,
    pub states: usize,
    pub places: usize,
}

impl<'a> Walk<'a> {
    fn new(alloc: Global) -> Walk<'a>
        ensures walk { (asked : Asked) → IsWalk asked result }
        ensures seen { HasSeen result }
        ensures nodes { result.nodes.items ≡ [] }
        ensures below { (text : List ℕ) → IsBelow result text }
    {
        Walk {
            nodes: Vec::new(alloc),
            seen: Lists::new(alloc),
            kinds: Lists::new(alloc),
            shown: Vec::new(alloc),
            states: 0,
            places: 0,
        }
    }

    /// The numbers of the groups that match a text that is asked about; `None` where it is not asked about.
    fn numbers(
        alloc: Global,
        asked: &Asked<'a>,
        node: &Node<'a>,
    ) -> Result<Option<Vec<usize>>, OutOfMemory>
        requires { IsAt asked.now node.now }
        ensures described { IfOk result (λ o. IfSome o (λ v. Describes (query_of asked.now) v.items node.now.text.items)) }
        ensures sought { IfOk result (λ o. IfSome o (λ v. IsText node.now.text.items × IsSought (query_of asked.now) node.now.text.items)) }
        ensures none { IfOk result (λ o. IfNone o (¬ IsSought (query_of asked.now) node.now.text.items)) }
    {
        if !node.stage.is_last() {
            return Ok(None);
        }
        if ends_here(&node.tails) {
            return Ok(None);
        }
        let numbers = asked.table.matched(alloc, &node.places)?;
        if !has_below(&numbers, asked.within) {
            return Ok(None);
        }
        Ok(Some(numbers))
    }

    /// Shows a text that is asked about if it is the first of its kind; `false` where there are too many.
    fn show(
        &mut self,
        alloc: Global,
        asked: &Asked<'a>,
        text: &[char],
        numbers: Vec<usize>,
    ) -> Result<bool, OutOfMemory>
        requires walk { IsWalk asked.now self.old }
        requires described { Describes (query_of asked.now) numbers.items text.now }
        requires sought { IsText text.now × IsSought (query_of asked.now) text.now }
        requires spelled { IsSpelledFor asked.now text.now }
        requires below { IsBelow self.old text.now }
        ensures only { IfOk result (λ fits. OnTrue fits ((shown : List ℕ) → Contains (shown_in self.new) shown
            → Contains (shown_in self.old) shown ⊎ (text.now ≡ shown))) }
        ensures walk { IfOk result (λ fits. OnTrue fits (IsWalk asked.now self.new)) }
        ensures covered { IfOk result (λ fits. OnTrue fits (IsCovered asked.now self.new text.now)) }
        ensures nodes { IfOk result (λ fits. OnTrue fits (self.new.nodes.items ≡ self.old.nodes.items)) }
        ensures seen { IfOk result (λ fits. OnTrue fits (lists_in self.new.seen ≡ lists_in self.old.seen)) }
        ensures states { IfOk result (λ fits. OnTrue fits (self.new.states ≡ self.old.states)) }
        ensures places { IfOk result (λ fits. OnTrue fits (self.new.places ≡ self.old.places)) }
        ensures over { IfOk result (λ fits. OnFalse fits (IsOver asked.now)) }
    {
        if !self.kinds.add(numbers)? {
            return Ok(true);
        }
        if self.shown.len() >= MOST_KINDS {
            return Ok(false);
        }
        let shown = Vec::from_slice(alloc, text)?;
        self.shown.push(shown)?;
        Ok(true)
    }

    /// Adds a node, and shows its text where it is asked about and the first of its kind; `false` where there are too many.
    fn add(&mut self, alloc: Global, asked: &Asked<'a>, node: Node<'a>) -> Result<bool, OutOfMemory>
        requires walk { IsWalk asked.now self.old }
        requires at { IsAt asked.now node }
        requires below { IsBelow self.old node.text.items }
        ensures walk { IfOk result (λ fits. OnTrue fits (IsWalk asked.now self.new)) }
        ensures nodes { IfOk result (λ fits. OnTrue fits (self.new.nodes.items ≡ self.old.nodes.items ++ (node.entry ∷ []))) }
        ensures only { IfOk result (λ fits. OnTrue fits (StaysBelow self.old self.new node.entry.text.items)) }
        ensures seen { IfOk result (λ fits. OnTrue fits (lists_in self.new.seen ≡ lists_in self.old.seen)) }
        ensures states { IfOk result (λ fits. OnTrue fits (self.new.states ≡ self.old.states)) }
        ensures places { IfOk result (λ fits. OnTrue fits (self.new.places ≡ self.old.places)) }
        ensures over { IfOk result (λ fits. OnFalse fits (IsOver asked.now)) }
    {
        match Walk::numbers(alloc, asked, &node)? {
            Some(numbers) => {
                if !self.show(alloc, asked, &node.text, numbers)? {
                    return Ok(false);
                }
                self.nodes.push(node)?;
                Ok(true)
            }
            None => {
                self.nodes.push(node)?;
                Ok(true)
            }
        }
    }

    /// Adds a node, unless its state was seen; `false` where there are too many.
    fn put(&mut self, alloc: Global, asked: &Asked<'a>, node: Node<'a>) -> Result<bool, OutOfMemory>
        requires walk { IsWalk asked.now self.old }
        requires seen { HasSeen self.old }
        requires at { IsAt asked.now node }
        requires below { IsBelow self.old node.text.items }
        ensures walk { IfOk result (λ fits. OnTrue fits (IsWalk asked.now self.new)) }
        ensures seen { IfOk result (λ fits. OnTrue fits (HasSeen self.new)) }
        ensures grows { IfOk result (λ fits. OnTrue fits (Grows self.old self.new)) }
        ensures met { IfOk result (λ fits. OnTrue fits (IsMetFirst asked.now self.new node.entry.text.items)) }
        ensures only { IfOk result (λ fits. OnTrue fits (StaysBelow self.old self.new node.entry.text.items)) }
        ensures over { IfOk result (λ fits. OnFalse fits (IsOver asked.now)) }
    {
        if !node.tails.is_empty() {
            return self.add(alloc, asked, node);
        }
        let key = node.key(alloc)?;
        let is_new = self.seen.add(key)?;
        if !is_new {
            return Ok(true);
        }
        if !self.has_room(node.places.len()) {
            return Ok(false);
        }
        self.states += 1;
        self.places += node.places.len();
        self.add(alloc, asked, node)
    }

    /// Whether one more state with so many places is within the limits.
    fn has_room(&self, places: usize) -> bool
        requires { self.now.places ≤ 4194304 }
        ensures { MatchBool result ((self.now.states < 65536) × (self.now.places + places ≤ 4194304))
            ((65536 ≤ self.now.states) ⊎ (4194304 < self.now.places + places)) }
    {
        if self.states >= MOST_STATES {
            return false;
        }
        places <= MOST_PLACES - self.places
    }

    /// Goes on from a node by each of its letters; `false` where there are too many.
    fn expand(&mut self, alloc: Global, asked: &Asked<'a>, head: usize) -> Result<bool, OutOfMemory>
        requires ready { IsReady asked.now }
        requires walk { IsWalk asked.now self.old }
        requires seen { HasSeen self.old }
        requires head { head < length self.old.nodes.items }
        requires below { (node : Node) → slice_get self.old.nodes.items head ≡ Some node → (c : ℕ) → IsBelow self.old (node.text.items ++ (c ∷ [])) }
        ensures walk { IfOk result (λ fits. OnTrue fits (IsWalk asked.now self.new)) }
        ensures seen { IfOk result (λ fits. OnTrue fits (HasSeen self.new)) }
        ensures grows { IfOk result (λ fits. OnTrue fits (Grows self.old self.new)) }
        ensures expanded { IfOk result (λ fits. OnTrue fits (IsExpandedAt asked.now self.new head)) }
        ensures only { IfOk result (λ fits. OnTrue fits ((node : Node) → slice_get self.old.nodes.items head ≡ Some node → (text : List ℕ)
            → IsBelow self.old text → ((c : ℕ) → IsBefore (node.text.items ++ (c ∷ [])) text) → IsBelow self.new text)) }
        ensures over { IfOk result (λ fits. OnFalse fits (IsOver asked.now)) }
    {
        let letters = self.letters(alloc, asked, head)?;
        for &letter in &letters {
            if !self.go(alloc, asked, head, letter)? {
                return Ok(false);
            }
        }
        Ok(true)
    }

    /// Goes on from a node by one letter; `false` where there are too many.
    fn go(
        &mut self,
        alloc: Global,
        asked: &Asked<'a>,
        head: usize,
        letter: char,
    ) -> Result<bool, OutOfMemory>
        requires ready { IsReady asked.now }
        requires walk { IsWalk asked.now self.old }
        requires seen { HasSeen self.old }
        requires head { head < length self.old.nodes.items }
        requires letter { (node : Node) → slice_get self.old.nodes.items head ≡ Some node → IsTriedBehind asked.now node.text.items letter }
        requires below { (node : Node) → slice_get self.old.nodes.items head ≡ Some node → IsBelow self.old (node.text.items ++ (letter ∷ [])) }
        ensures walk { IfOk result (λ fits. OnTrue fits (IsWalk asked.now self.new)) }
        ensures seen { IfOk result (λ fits. OnTrue fits (HasSeen self.new)) }
        ensures grows { IfOk result (λ fits. OnTrue fits (Grows self.old self.new)) }
        ensures tried { IfOk result (λ fits. OnTrue fits (IsTried asked.now self.new head (letter ∷ []))) }
        ensures only { IfOk result (λ fits. OnTrue fits (StaysBelowBehind self.old self.new head (letter ∷ []))) }
        ensures over { IfOk result (λ fits. OnFalse fits (IsOver asked.now)) }
    {
        match asked.child(alloc, &self.nodes[head], letter)? {
            Some(child) => self.put(alloc, asked, child),
            None => Ok(true),
        }
    }

    /// The letters of a node.
    fn letters(
        &self,
        alloc: Global,
        asked: &Asked<'a>,
        head: usize,
    ) -> Result<Vec<char>, OutOfMemory>
        requires ready { IsReady asked.now }
        requires walk { IsWalk asked.now self.now }
        requires head { head < length self.now.nodes.items }
        ensures tries { IfOk result (λ v. TriesAll asked.now self.now v.items head) }
        ensures letters { IfOk result (λ v. AreLetters asked.now self.now v.items head) }
        ensures rising { IfOk result (λ v. IsStrictlyIncreasing v.items) }
    {
        let node = &self.nodes[head];
        let waited = asked.waited(alloc, node)?;
        let behind = Behind {
            stage: node.stage,
            waited: &waited,
            tails: &node.tails,
        };
        behind.letters(alloc)
    }
}

/// Whether all numbers below this one are among them.
fn has_below(numbers: &[usize], count: usize) -> bool
    ensures { IsTrue result ↔ ((g : ℕ) → g < count → Contains numbers.now g) }
{
    for number in 0..count {
        if !numbers.contains(&number) {
            return false;
        }
    }
    true
}

/// One text of each kind; `None` where there are too many.
pub fn find_texts(alloc: Global, asked: &Asked<'_>) -> Result<Option<Vec<Vec<char>>>, OutOfMemory>
    requires { IsReady asked.now }
    ensures some { IfOk result (λ o. IfSome o (λ texts. AreTexts (query_of asked.now) (map (λ text. text.items) texts.items))) }
    ensures least { IfOk result (λ o. IfSome o (λ texts. AreLeast (machine_at asked.now) (query_of asked.now)
        (map (λ text. text.items) texts.items))) }
    ensures within { IfOk result (λ o. IfSome o (λ texts. ¬ IsOver asked.now)) }
    ensures none { IfOk result (λ o. IfNone o (IsOver asked.now)) }
{
    let mut walk = Walk::new(alloc);
    if !walk.put(alloc, asked, asked.root(alloc)?)? {
        return Ok(None);
    }
    for head in 0..usize::MAX {
        if head >= walk.nodes.len() {
            return Ok(Some(walk.shown));
        }
        if !walk.expand(alloc, asked, head)? {
            return Ok(None);
        }
    }
    Err(OutOfMemory)
}
