// What is asked, and the texts that a walk comes to.
ghost use Rattle.std.specs.Prelude.{[], ◌∷◌, ◌++◌, ◌≡◌, ◌≤◌, ◌<◌, ◌+◌, ◌^◌, IfOk, IfNone, IfSome, List, ℕ, length, map};
ghost use Rattle.iam_kinds.specs.Code.{SameElements, waited_at, waited_in};
ghost use Rattle.iam_kinds.specs.Kinds.{Question};
ghost use Rattle.iam_kinds.specs.States.{machine_of};
ghost use Rattle.iam_kinds.specs.Walk.{Asks, IsAt, IsLive, IsReady, IsTriedBehind, key_of, query_of, tails_at};

use crate::OutOfMemory;
use crate::grammar::{Grammar, Part, Stage};
use crate::letters::{sorted_letters, tails_behind};
use crate::table::{Place, Table};
use std::alloc::Global;

/// What is asked: the patterns of all groups, of which the first groups have to match, the grammar, and the named texts.
#[derive(Clone, Copy)]
pub struct Asked<'a> {
    pub table: &'a Table,
    /// How many groups there are.
    pub count: usize,
    /// How many of them have to match.
    pub within: usize,
    pub grammar: Grammar,
    pub named: &'a [Vec<char>],
}

/// A text that the walk has come to.
#[derive(Drop)]
pub struct Node<'a> {
    pub text: Vec<char>,
    pub stage: Stage,
    pub places: Vec<Place>,
    /// What is left of the named texts that begin with this text.
    pub tails: Vec<&'a [char]>,
}

impl Node<'_> {
    /// The number of its stage, and its places.
    pub fn key(&self, alloc: Global) -> Result<Vec<usize>, OutOfMemory>
        ensures { IfOk result (λ v. v.items ≡ key_of self.now) }
    {
        let room = self.places.len().saturating_mul(2).saturating_add(1);
        let mut key = Vec::with_capacity(alloc, room)?;
        key.push(self.stage.number())?;
        for place in &self.places {
            key.push(place.pattern)?;
            key.push(place.at)?;
        }
        Ok(key)
    }
}

impl<'a> Asked<'a> {
    /// What is asked of the patterns of a table, of which so many have to match, and so many groups are told apart.
    pub fn of(
        table: &'a Table,
        within: usize,
        groups: usize,
        grammar: Grammar,
        named: &'a [Vec<char>],
    ) -> Asked<'a>
        requires { within + groups < 2 ^ 64 }
        ensures { (question : Question) → table.entry.now.patterns.items ≡ (machine_of question).patterns → within ≡ length question.within
            → groups ≡ length question.groups → grammar ≡ question.grammar → map (λ t. t.items) named.entry.now ≡ question.named
            → Asks result question }
    {
        Asked {
            table,
            count: within + groups,
            within,
            grammar,
            named,
        }
    }

    /// The empty text.
    pub fn root(&self, alloc: Global) -> Result<Node<'a>, OutOfMemory>
        requires { IsReady self.now }
        ensures at { IfOk result (λ node. IsAt self.now node) }
        ensures text { IfOk result (λ node. node.text.items ≡ []) }
    {
        let places = self.table.starts(alloc, self.count)?;
        Ok(Node {
            text: Vec::new(alloc),
            stage: self.grammar.first(),
            places,
            tails: lent(alloc, self.named)?,
        })
    }

    /// The text of a node and one letter more; `None` where no text that is asked about begins with it.
    pub fn child(
        &self,
        alloc: Global,
        node: &Node<'a>,
        letter: char,
    ) -> Result<Option<Node<'a>>, OutOfMemory>
        requires ready { IsReady self.now }
        requires at { IsAt self.now node.now }
        requires letter { IsTriedBehind self.now node.now.text.items letter }
        ensures none { IfOk result (λ o. IfNone o (¬ IsLive (query_of self.now) (node.now.text.items ++ (letter ∷ [])))) }
        ensures at { IfOk result (λ o. IfSome o (λ child. IsAt self.now child)) }
        ensures text { IfOk result (λ o. IfSome o (λ child. child.text.items ≡ node.now.text.items ++ (letter ∷ []))) }
    {
        let Some(stage) = node.stage.next(letter) else {
            return Ok(None);
        };
        if !self.table.goes_on_below(&node.places, letter, self.within) {
            return Ok(None);
        }
        let places = self.table.step(alloc, &node.places, letter)?;
        let mut text = Vec::with_capacity(alloc, node.text.len().saturating_add(1))?;
        text.extend_from_slice(&node.text)?;
        text.push(letter)?;
        let tails = tails_behind(alloc, &node.tails, letter)?;
        Ok(Some(Node {
            text,
            stage,
            places,
            tails,
        }))
    }

    /// The characters that the patterns wait for behind a node, or the grammar.
    pub fn waited(&self, alloc: Global, node: &Node<'a>) -> Result<Vec<char>, OutOfMemory>
        requires { IsAt self.now node.now }
        ensures { IfOk result (λ v. SameElements v.items (waited_at self.now.table.now.patterns.items node.now.places.items ++ waited_in node.now.stage.part)) }
    {
        let mut waited = self.table.waited(alloc, &node.places)?;
        if let Part::Service = node.stage.part {
            waited.push(':')?;
        }
        Ok(sorted_letters(waited))
    }
}

/// The texts, lent.
fn lent<'a>(alloc: Global, texts: &'a [Vec<char>]) -> Result<Vec<&'a [char]>, OutOfMemory>
    ensures { IfOk result (λ v. map (λ t. t.now) v.items ≡ map (λ t. t.items) texts.entry.now) }
{
    let mut lent = Vec::new(alloc);
    for text in texts {
        lent.push(text.as_slice())?;
    }
    Ok(lent)
}
