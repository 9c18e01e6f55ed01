// What is said of a request before and after, as it is kept.
ghost use Rattle.std.specs.Prelude.{◌≡◌, IfOk, IsTrue, option_map};
ghost use Rattle.iam_row.specs.Piece.{bare};

use iam_layers::{Decision, Verdict};
use iam_row::bare;
use iam_text::OutOfMemory;
use iam_tiles::{Form, Item, hash_of, is_bare, is_same, mix};
use std::alloc::Global;

/// What is said of a request before and after.
#[derive(Debug, Drop)]
pub struct Pair {
    pub before: Option<Verdict>,
    pub after: Option<Verdict>,
}

impl Item for Pair {
    ghost use Rattle.iam_changes.specs.Code.Kept.{no_pair};

    ghost none = { no_pair };
}

/// The same, lent.
#[derive(Clone, Copy)]
pub struct Verdicts<'a> {
    pub before: Option<&'a Verdict>,
    pub after: Option<&'a Verdict>,
}

impl Form<Pair> for Verdicts<'_> {
    ghost means = { λ said. record { before = option_map (λ verdict. verdict.now) said.before; after = option_map (λ verdict. verdict.now) said.after } };

    fn is(&self, item: &Pair) -> bool {
        is_said(&item.before, self.before) && is_said(&item.after, self.after)
    }

    fn copy(&self, alloc: Global) -> Result<Pair, OutOfMemory> {
        Ok(Pair {
            before: copied(alloc, self.before)?,
            after: copied(alloc, self.after)?,
        })
    }

    fn hash(&self) -> u64 {
        mix(hash_said(self.before), hash_said(self.after))
    }
}

/// Whether this is what is kept.
fn is_said(kept: &Option<Verdict>, said: Option<&Verdict>) -> bool
    ensures { IsTrue result → kept.now ≡ option_map (λ verdict. verdict.now) said.entry }
{
    match (kept, said) {
        (Some(verdict), Some(other)) => is_same(verdict, other),
        (None, None) => true,
        _ => false,
    }
}

fn copied(alloc: Global, said: Option<&Verdict>) -> Result<Option<Verdict>, OutOfMemory>
    ensures { IfOk result (λ copy. copy ≡ option_map (λ verdict. verdict.now) said.entry) }
{
    match said {
        Some(verdict) => Ok(Some(verdict.copy(alloc)?)),
        None => Ok(None),
    }
}

fn hash_said(said: Option<&Verdict>) -> u64 {
    match said {
        Some(verdict) => hash_of(verdict),
        None => 1,
    }
}

/// Decisions before and after, which stand for verdicts without places and layers.
#[derive(Clone, Copy)]
pub struct Decisions {
    pub before: Option<Decision>,
    pub after: Option<Decision>,
}

impl Form<Pair> for Decisions {
    ghost means = { λ said. record { before = option_map bare said.before; after = option_map bare said.after } };

    fn is(&self, item: &Pair) -> bool {
        is_bare_said(&item.before, self.before) && is_bare_said(&item.after, self.after)
    }

    fn copy(&self, alloc: Global) -> Result<Pair, OutOfMemory> {
        Ok(Pair {
            before: bare_said(alloc, self.before),
            after: bare_said(alloc, self.after),
        })
    }

    fn hash(&self) -> u64 {
        mix(hash_decision(self.before), hash_decision(self.after))
    }
}

/// Whether this decision is what is kept.
fn is_bare_said(kept: &Option<Verdict>, said: Option<Decision>) -> bool
    ensures { IsTrue result → kept.now ≡ option_map bare said }
{
    match (kept, said) {
        (Some(verdict), Some(decision)) => is_bare(verdict, decision),
        (None, None) => true,
        _ => false,
    }
}

fn bare_said(alloc: Global, said: Option<Decision>) -> Option<Verdict>
    ensures { result ≡ option_map bare said }
{
    match said {
        Some(decision) => Some(bare(alloc, decision)),
        None => None,
    }
}

fn hash_decision(said: Option<Decision>) -> u64 {
    match said {
        Some(decision) => decision as u64,
        None => 3,
    }
}
