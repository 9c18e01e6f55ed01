// The decisions on up to 64 actions, from the statements that requests for them share.
ghost use Rattle.std.specs.Prelude.{◌≡◌, ◌⊎◌, ◌↔◌, ◌+◌, ◌≤◌, All, IfSome, IsTrue, None, false, length, map};
ghost use Rattle.std.specs.List.{Any};
ghost use Rattle.iam_decision.specs.Code.Found.{AllowsIn, GrantsIn};
ghost use Rattle.iam_decision.specs.Decision.{AllHold, GrantSuffices, IsAllowed, LevelsHold, MustGrant};
ghost use Rattle.iam_classes.specs.Batch.{AreDecided};
ghost use Rattle.iam_classes.specs.Code.Lanes.{LimitsHold, Picks, Tells};

use crate::gather::{Batch, Pick};
use crate::lanes::Decided;
use iam_decision::{Frame, Grant, Layer, Living};

/// What is decided of the `count` actions from number `from` on, 64 at most, for requests that ask this beside these
/// statements. The row of a statement says of each action whether the statement acts on it. `None` where there are not
/// as many rows as statements, or some row does not reach so far.
///
/// AWS IAM User Guide, "Policy evaluation logic".
pub fn decided(
    frame: Frame,
    living: &[Living<'_>],
    rows: &[&[bool]],
    from: usize,
    count: usize,
) -> Option<Decided>
    requires few { count ≤ 64 }
    ensures some { IfSome result (AreDecided frame (map (λ l. l.matched) living.now) rows.now from count) }
    ensures reach { IfSome result (λ _. All (λ row. from + count ≤ length row.now) rows.now
        × (length rows.now ≡ length living.now)) }
    ensures none { result ≡ None → ¬ (All (λ row. from + count ≤ length row.now) rows.now
        × (length rows.now ≡ length living.now)) }
{
    let reaches = |row: &&[bool]| from <= row.len() && count <= row.len() - from;
    if rows.len() != living.len() || !rows.iter().all(reaches) {
        return None;
    }
    let batch = Batch {
        living,
        rows,
        from,
        count,
    };
    Some(Decided {
        denied: batch.lanes(Pick::Denies),
        allowed: batch.allowed(frame),
    })
}

fn must_grant(frame: Frame) -> bool
    ensures { IsTrue result ↔ MustGrant frame }
{
    !frame.same_account || frame.sealed
}

impl Batch<'_> {
    /// The actions for which what has to allow does.
    fn allowed(self, frame: Frame) -> u64
        ensures { Tells self.entry result (λ found. IsAllowed (AllowsIn found) (GrantsIn found) frame) }
    {
        let limits = self.limits(frame);
        self.levels_hold(Layer::Org, frame.org)
            & self.levels_hold(Layer::Control, frame.control)
            & (self.grant_suffices(frame, limits) | self.all_hold(frame, limits))
    }

    /// Those that each level of the layer allows.
    fn levels_hold(self, layer: Layer, levels: u32) -> u64
        ensures { Tells self.entry result (λ found. LevelsHold (AllowsIn found) layer levels) }
    {
        let mut lanes = u64::MAX;
        for level in 0..levels {
            lanes &= self.lanes(Pick::Allows(layer, level));
        }
        lanes
    }

    /// Those that a statement of this kind acts on, or all where that is not asked.
    fn where_asked(self, asked: bool, pick: Pick) -> u64
        ensures { Tells self.entry result (λ found. (asked ≡ false) ⊎ Any (λ m. Picks pick m) found) }
    {
        if asked { self.lanes(pick) } else { u64::MAX }
    }

    /// Those that boundary and session policies allow.
    fn limits(self, frame: Frame) -> u64
        ensures { Tells self.entry result (λ found. LimitsHold found frame) }
    {
        self.where_asked(frame.boundary, Pick::Allows(Layer::Boundary, 0))
            & self.where_asked(frame.session, Pick::Allows(Layer::Session, 0))
    }

    /// Those that the same account needs no more for, where these are in the limits.
    fn grant_suffices(self, frame: Frame, limits: u64) -> u64
        requires { Tells self limits (λ found. LimitsHold found frame) }
        ensures { Tells self.entry result (λ found. GrantSuffices (AllowsIn found) (GrantsIn found) frame) }
    {
        if frame.same_account {
            self.lanes(Pick::Grants(Grant::Direct)) | self.lanes(Pick::Grants(Grant::Role)) & limits
        } else {
            0
        }
    }

    fn all_hold(self, frame: Frame, limits: u64) -> u64
        requires { Tells self limits (λ found. LimitsHold found frame) }
        ensures { Tells self.entry result (λ found. AllHold (AllowsIn found) (GrantsIn found) frame) }
    {
        self.lanes(Pick::Allows(Layer::Identity, 0))
            & limits
            & self.where_asked(must_grant(frame), Pick::Grants(Grant::Account))
    }
}
