// What statements allow at most and at least, in contexts that agree on what is known.
ghost use Rattle.std.specs.Prelude.{◌≡◌, ◌↔◌, ◌∷◌, ◌++◌, [], IsTrue, OnOk};
ghost use Rattle.iam_decision.specs.Code.Scan.{placed_value};
ghost use Rattle.iam_decision.specs.Living.{item_of};
ghost use Rattle.iam_open.specs.Code.Bounds.{Decides, counts_at_least, counts_at_most};

use crate::certain::Certain;
use iam_decision::{Decision, Effect, Frame, Matched, Standing, decision_of};
use iam_match::{OutOfMemory, Requester, grant_kind};
use std::alloc::Global;

/// Statements that match at most, and at least, as far as they count for what is allowed.
#[derive(Drop)]
pub struct Bounds {
    /// All allows that may match, and the denies that do.
    most: Vec<Matched>,
    /// The allows that match, and all denies that may.
    least: Vec<Matched>,
}

/// Whether it follows from these statements that what asks this beside them is allowed.
fn is_allowed(found: &[Matched], frame: Frame) -> bool
    ensures { IsTrue result ↔ Decides found.now frame }
{
    match decision_of(found, frame) {
        Decision::Allowed => true,
        Decision::ExplicitDeny => false,
        Decision::ImplicitDeny => false,
    }
}

/// A statement as it counts where it matches.
pub fn matched_of(standing: Standing<'_>, requester: &Requester) -> Matched
    ensures { result ≡ item_of requester.now (placed_value standing.entry) }
{
    Matched {
        place: standing.place,
        effect: standing.statement.effect(),
        grant: grant_kind(standing.statement, requester),
    }
}

impl Bounds {
    ghost use Rattle.std.specs.Prelude.{if◌then◌else◌};

    /// Those of no statement.
    pub fn new(alloc: Global) -> Bounds
        ensures most { result.most.items ≡ [] }
        ensures least { result.least.items ≡ [] }
    {
        Bounds {
            most: Vec::new(alloc),
            least: Vec::new(alloc),
        }
    }

    /// What follows from them where this is asked beside them.
    pub fn certain(&self, frame: Frame) -> Certain
        ensures never { result ≡ Certain.Never → ¬ Decides self.now.most.items frame }
        ensures always { result ≡ Certain.Always → Decides self.now.least.items frame }
    {
        if !is_allowed(self.most.as_slice(), frame) {
            return Certain::Never;
        }
        if is_allowed(self.least.as_slice(), frame) {
            return Certain::Always;
        }
        Certain::Open
    }

    /// Adds a statement of which this is known, as it counts where it matches.
    pub fn add(&mut self, matched: Matched, certain: Certain) -> Result<(), OutOfMemory>
        ensures most { OnOk result (self.new.most.items ≡ self.old.most.items
            ++ (if counts_at_most certain matched.effect then matched ∷ [] else [])) }
        ensures least { OnOk result (self.new.least.items ≡ self.old.least.items
            ++ (if counts_at_least certain matched.effect then matched ∷ [] else [])) }
    {
        if counts_at_most(certain, matched.effect) {
            self.most.push(matched)?;
        }
        if counts_at_least(certain, matched.effect) {
            self.least.push(matched)?;
        }
        Ok(())
    }
}

/// Whether a statement counts where as much is allowed as may be: an allow that may match, and a deny that does.
fn counts_at_most(certain: Certain, effect: Effect) -> bool
    ensures { result ≡ counts_at_most certain effect }
{
    match (certain, effect) {
        (Certain::Always, _) | (Certain::Open, Effect::Allow) => true,
        (Certain::Never, _) | (Certain::Open, Effect::Deny) => false,
    }
}

/// Whether it counts where as little is allowed as may be.
fn counts_at_least(certain: Certain, effect: Effect) -> bool
    ensures { result ≡ counts_at_least certain effect }
{
    match (certain, effect) {
        (Certain::Always, _) | (Certain::Open, Effect::Deny) => true,
        (Certain::Never, _) | (Certain::Open, Effect::Allow) => false,
    }
}
