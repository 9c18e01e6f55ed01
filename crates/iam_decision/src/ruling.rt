// A verdict with what it follows from, so that it can be told whether it is that of another request too.
ghost use Rattle.std.specs.Prelude.{◌≡◌, IfOk, IsTrue};

use crate::decide::early_verdict;
use crate::frame::Frame;
use crate::living::Matched;
use crate::verdict::Verdict;
use iam_match::OutOfMemory;
use std::alloc::Global;
use std::marker::Model;

/// A verdict, with all that it follows from: the statements that match the request, and what is asked beside them.
#[derive(Drop)]
pub struct Ruling {
    frame: Frame,
    found: Vec<Matched>,
    verdict: Verdict,
}

impl Model for Ruling {
    ghost use Rattle.iam_decision.specs.Ruling.{Follows, RulingValue};

    ghost Value = { RulingValue };

    ghost view = { λ r. record { frame = r.frame; found = r.found.items; verdict = r.verdict } };

    ghost invariant = { λ r. Follows r.frame r.found.items r.verdict };
}

impl Ruling {
    ghost use Rattle.iam_decision.specs.Ruling.{IsRuling};

    /// The ruling on requests that ask this and are matched by these statements.
    ///
    /// AWS IAM User Guide, "Policy evaluation logic".
    pub fn of(alloc: Global, frame: Frame, found: &[Matched]) -> Result<Ruling, OutOfMemory>
        ensures { IfOk result (IsRuling frame found.now) }
    {
        let verdict = early_verdict(alloc, frame, found)?;
        let found = Vec::from_slice(alloc, found)?;
        Ok(Ruling {
            frame,
            found,
            verdict,
        })
    }

    /// `true` only where it follows from just this; `false` says nothing.
    pub fn is_on(&self, frame: Frame, found: &[Matched]) -> bool
        ensures { IsTrue result → IsRuling frame found.now self.now }
    {
        is_same(self.frame, frame) && are_same(self.found.as_slice(), found)
    }

    /// The verdict.
    pub fn verdict(&self) -> &Verdict
        ensures { result.now ≡ self.now.verdict }
    {
        &self.verdict
    }

    /// A number that tells most of what rulings follow from apart.
    pub fn print(frame: Frame, found: &[Matched]) -> u64 {
        let mut print = frame.print();
        for matched in found {
            print = matched.place.print(print);
        }
        print
    }
}

fn is_same(one: Frame, other: Frame) -> bool
    ensures { IsTrue result → one ≡ other }
{
    one == other
}

fn are_same(ones: &[Matched], others: &[Matched]) -> bool
    ensures { IsTrue result → ones.now ≡ others.now }
{
    ones == others
}
