// The answer to a request.
use crate::place::{Layer, Place};
use iam_match::OutOfMemory;
use iam_text::Items;
use std::alloc::Global;

/// What the policies decide of a request.
#[derive(Clone, Copy, Debug, PartialEq, Eq)]
pub enum Decision {
    /// Nothing denies, and what has to allow does.
    Allowed,
    /// A matched statement denies.
    ExplicitDeny,
    /// Nothing denies, and what has to allow does not.
    ImplicitDeny,
}

/// The answer to a request.
#[derive(Debug, Drop)]
pub struct Verdict {
    /// The decision word.
    pub decision: Decision,
    /// Where the deciding statements stand, in place order: all matched denies of an explicit deny, else all matched
    /// allows.
    pub statements: Items<Place>,
    /// The layers whose checks fail, in the order of places; none unless the decision is an implicit deny.
    pub lacks: Items<Layer>,
}

impl Verdict {
    ghost use Rattle.std.specs.Prelude.{◌≡◌, IfOk};

    /// A copy of the verdict.
    pub fn copy(&self, alloc: Global) -> Result<Verdict, OutOfMemory>
        ensures { IfOk result (λ copy. copy ≡ self.now) }
    {
        Ok(Verdict {
            decision: self.decision,
            statements: Items::from_vec(Vec::from_slice(alloc, self.statements.as_slice())?),
            lacks: Items::from_vec(Vec::from_slice(alloc, self.lacks.as_slice())?),
        })
    }
}
