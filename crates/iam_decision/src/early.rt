// Walks over the statements that leave some of them untested: what has to be found for a verdict, and for a decision alone.
ghost use Rattle.std.specs.Prelude.{◌≡◌, ◌↔◌, ◌++◌, ◌∷◌, [], IsTrue, OnErr, OnOk, false, List};
ghost use Rattle.iam_policy.specs.declared.effect.Effect.TheVariants.{Allow};
ghost use Rattle.iam_match.specs.Statement.{RequestValue};
ghost use Rattle.iam_decision.specs.Code.Found.{DeniesIn};
ghost use Rattle.iam_decision.specs.Early.{CandidatesSuffice, CandidatesTell, DenyDecides, IsSettled, Suffices, SufficesOneByOne, Tells, TellsOneByOne};
ghost use Rattle.iam_decision.specs.declared.living.Matched.{Matched};

use crate::decide::{allows, grants};
use crate::living::Matched;
use crate::place::{Layer, Place};
use iam_match::{Grant, OutOfMemory};
use iam_policy::Effect;
use std::alloc::Global;
use std::marker::Model;

/// The statements found so far that match a request, as far as its verdict asks for them.
#[derive(Drop)]
pub struct Findings {
    found: Vec<Matched>,
    denied: bool,
}

impl Model for Findings {
    ghost Value = { List Matched };

    ghost view = { λ f. f.found.items };

    ghost invariant = { λ f. IsTrue f.denied ↔ DeniesIn f.found.items };
}

impl Findings {
    /// Nothing found yet.
    pub fn new(alloc: Global) -> Findings
        ensures { result ≡ [] }
    {
        Findings {
            found: Vec::new(alloc),
            denied: false,
        }
    }

    /// Forgets what was found, and keeps the room for the next request.
    pub fn clear(&mut self)
        ensures { self.new ≡ [] }
    {
        self.found.clear();
        self.denied = false;
    }

    /// The statements found, in the order in which they were added.
    pub fn as_slice(&self) -> &[Matched]
        ensures { result.now ≡ self.now }
    {
        self.found.as_slice()
    }

    /// Whether a statement with the effect still matters to the verdict: a deny always, an allow while nothing denies.
    ///
    /// AWS IAM User Guide, "Policy evaluation logic": an explicit deny in any policy overrides any allows.
    pub fn asks(&self, effect: Effect) -> bool
        ensures { (result ≡ false) ↔ ((effect ≡ Allow) × DeniesIn self.now) }
    {
        !self.denied || effect == Effect::Deny
    }

    /// Adds a statement that matches. Where memory runs out, nothing is added.
    pub fn add(&mut self, matched: Matched) -> Result<(), OutOfMemory>
        ensures added { OnOk result (self.new ≡ self.old ++ matched ∷ []) }
        ensures same { OnErr result (self.new ≡ self.old) }
    {
        self.found.push(matched)?;
        self.denied = self.denied || matched.effect == Effect::Deny;
        Ok(())
    }
}

/// Whether an allow that stands here and grants this still matters to the decision, where nothing denies: none of its level was
/// found or, if it is of the resource's policy, none that grants as much.
pub fn is_open(found: &[Matched], place: Place, grant: Grant) -> bool
    ensures { (result ≡ false) ↔ IsSettled found.now place grant }
{
    !allows(found, place.layer, place.level)
        || place.layer == Layer::Resource && !grants(found, grant)
}

/// What suffices for a verdict is found by looking at one statement after the other: an allow may be left untested once
/// something denies.
///
/// AWS IAM User Guide, "Policy evaluation logic": an explicit deny in any policy overrides any allows.
pub fn suffices_one_by_one()
    ensures none { (q : RequestValue) → Suffices q [] [] }
    ensures more { SufficesOneByOne }
{}

/// What tells the decision is found by looking at one statement after the other: an allow may be left untested once its level
/// and, in the resource's policy, its grant are settled.
pub fn tells_one_by_one()
    ensures none { (q : RequestValue) → Tells q [] [] }
    ensures more { TellsOneByOne }
{}

/// A matched deny decides, without any look at the other statements.
///
/// AWS IAM User Guide, "Policy evaluation logic": an explicit deny in any policy overrides any allows.
pub fn deny_decides()
    ensures { DenyDecides }
{}

/// Statements whose action elements match none of the actions asked for may be left out.
pub fn candidates_suffice()
    ensures verdict { CandidatesSuffice }
    ensures decision { CandidatesTell }
{}
