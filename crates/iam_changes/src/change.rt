// Whether a request has changed, by what is said of it before and after, and which kinds of changes there are.
ghost use Rattle.std.specs.Prelude.{◌≡◌, ◌↔◌, Any, IsTrue, option_map};
ghost use Rattle.iam_decision.specs.Applicable.{value_of};
ghost use Rattle.iam_row.specs.Changes.{is_allowed};
ghost use Rattle.iam_changes.specs.Change.{AreUnlike, IsReplaced};
ghost use Rattle.iam_changes.specs.Code.Kept.{change_by, joined_kinds, with_kind, no_kinds};

use iam_equal::say_same;
use iam_layers::{Applicable, Place, Verdict};
use iam_row::{Change, is_allowed};
use iam_tiles::is_same;

/// Which kinds of changes there are.
#[derive(Clone, Copy, Debug, PartialEq, Eq)]
pub struct Kinds {
    pub gained: bool,
    pub lost: bool,
    pub differs: bool,
}

impl Kinds {
    /// None.
    pub fn none() -> Kinds
        ensures { result ≡ no_kinds }
    {
        Kinds {
            gained: false,
            lost: false,
            differs: false,
        }
    }

    /// These and one more.
    pub fn with(self, change: Change) -> Kinds
        ensures { result ≡ with_kind self change }
    {
        match change {
            Change::Gained => Kinds {
                gained: true,
                ..self
            },
            Change::Lost => Kinds { lost: true, ..self },
            Change::Differs => Kinds {
                differs: true,
                ..self
            },
        }
    }

    /// These and others.
    pub fn joined(self, other: Kinds) -> Kinds
        ensures { result ≡ joined_kinds self other }
    {
        Kinds {
            gained: self.gained || other.gained,
            lost: self.lost || other.lost,
            differs: self.differs || other.differs,
        }
    }
}

/// Whether two worlds that both have a request say something else of it: another verdict, or the same one, at one
/// of whose places a statement stands that says something else.
pub fn differ(
    verdict: &Verdict,
    other: &Verdict,
    before: &Applicable<'_>,
    after: &Applicable<'_>,
) -> bool
    ensures { IsTrue result ↔ AreUnlike (record { verdict = verdict.now; policies = value_of before.now }) (record { verdict = other.now; policies = value_of after.now }) }
{
    !is_same(verdict, other) || is_any_replaced(before, after, verdict.statements.as_slice())
}

/// Whether at one of the places a statement stands among the one policies that says something else than the one among the others.
fn is_any_replaced(before: &Applicable<'_>, after: &Applicable<'_>, places: &[Place]) -> bool
    ensures { IsTrue result ↔ Any (IsReplaced (value_of before.now) (value_of after.now)) places.now }
{
    for place in places {
        if is_replaced(before, after, *place) {
            return true;
        }
    }
    false
}

/// Whether it is so at this place.
fn is_replaced(before: &Applicable<'_>, after: &Applicable<'_>, place: Place) -> bool
    ensures { IsTrue result ↔ IsReplaced (value_of before.now) (value_of after.now) place }
{
    match (before.statement_at(place), after.statement_at(place)) {
        (Some(one), Some(other)) => !say_same(one, other),
        (None, None) => false,
        _ => true,
    }
}

/// The change of a request of which this is said before and after, where it is one; that they differ otherwise than in access counts where
/// `differs` says so.
#[inline(always)]
pub fn change_of(before: Option<&Verdict>, after: Option<&Verdict>, differs: bool) -> Option<Change>
    ensures { result ≡ change_by (is_allowed (option_map (λ verdict. verdict.now) before.entry)) (is_allowed (option_map (λ verdict. verdict.now) after.entry)) differs }
{
    match (is_allowed(before), is_allowed(after)) {
        (false, true) => Some(Change::Gained),
        (true, false) => Some(Change::Lost),
        _ if differs => Some(Change::Differs),
        _ => None,
    }
}
