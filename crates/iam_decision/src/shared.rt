// What the requests of one requester for one resource share.
use crate::decide::early_verdict;
use crate::frame::Frame;
use crate::living::{Living, acting, are_same};
use crate::verdict::Verdict;
use iam_match::OutOfMemory;
use std::alloc::Global;
use std::marker::Model;

/// What the requests of one requester for one resource in one context share, for some actions: what a decision asks beside the
/// statements, and the statements that match once their action elements do, with all that can act on one of the actions.
#[derive(Drop)]
pub struct Shared<'a> {
    frame: Frame,
    living: Vec<Living<'a>>,
}

impl<'a> Model for Shared<'a> {
    ghost use Rattle.std.specs.Prelude.{map};
    ghost use Rattle.iam_decision.specs.Living.{SharedValue, living_value};

    ghost Value = { SharedValue };

    ghost view = { λ s. record { frame = s.frame; living = map living_value s.living.items } };
}

impl<'a> Shared<'a> {
    ghost use Rattle.std.specs.Prelude.{◌≡◌, ℕ, Contains, IfOk, IsTrue, List, map};
    ghost use Rattle.iam_match.specs.Statement.{AccessValue, request_for};
    ghost use Rattle.iam_decision.specs.Applicable.{ApplicableValue};
    ghost use Rattle.iam_decision.specs.Decision.{IsVerdict};
    ghost use Rattle.iam_decision.specs.Living.{IsShared, living_value};

    /// What requests share that ask this beside these statements.
    pub fn of(frame: Frame, living: Vec<Living<'a>>) -> Shared<'a>
        ensures { result ≡ record { frame = frame; living = map living_value living.entry.items } }
    {
        Shared { frame, living }
    }

    /// What a decision asks beside the statements.
    pub fn frame(&self) -> Frame
        ensures { result ≡ self.now.frame }
    {
        self.frame
    }

    /// The statements that match once their action elements do.
    pub fn living(&self) -> &[Living<'a>]
        ensures { map living_value result.now ≡ self.now.living }
    {
        self.living.as_slice()
    }

    /// A number that tells most of what is shared apart.
    pub fn print(&self) -> u64 {
        let mut print = self.frame.print();
        for statement in self.living.as_slice() {
            print = statement.matched.place.print(print);
        }
        print
    }

    /// `true` only where both are the same, so that they share whatever either does; `false` says nothing.
    pub fn equals(&self, other: &Shared<'_>) -> bool
        ensures { IsTrue result → self.now ≡ other.now }
    {
        self.frame == other.frame && are_same(self.living.as_slice(), other.living.as_slice())
    }

    /// The verdict on the request for this action.
    ///
    /// AWS IAM User Guide, "Policy evaluation logic"; the deciding statements and the lacks are our choices.
    pub fn verdict(&self, alloc: Global, action: &str) -> Result<Verdict, OutOfMemory>
        ensures { (actions : List (List ℕ)) (a : ApplicableValue) (access : AccessValue) → Contains actions action.now
            → IsShared actions a access self.now → IfOk result (IsVerdict a (request_for access action.now)) }
    {
        let found = acting(alloc, self.living.as_slice(), action)?;
        early_verdict(alloc, self.frame, found.as_slice())
    }
}
