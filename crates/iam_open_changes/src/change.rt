// What is told of a request of two worlds.
ghost use Rattle.std.specs.Prelude.{IfOk, IsTrue};
ghost use Rattle.iam_open_changes.specs.Code.Certain.{IsCertainOf};
ghost use Rattle.iam_open_changes.specs.Code.Same.{Excludes};
ghost use Rattle.iam_open_changes.specs.InBoth.{IsNeverTurned};
ghost use Rattle.iam_open_changes.specs.Sides.{OfSides};
ghost use Rattle.iam_open_changes.specs.Told.{IsChange, IsTold};

use crate::certain::{cannot_turn, certain_in};
use crate::example::Example;
use crate::numbers::Both;
use crate::same::{Excluded, exclusions};
use crate::seek::example;
use crate::side::{Side, Sides};
use crate::turn::Turn;
use iam_layers::OutOfMemory;
use iam_open::Certain;
use std::alloc::Global;

/// Whether a request is gained, or lost, in the contexts in question.
#[derive(Debug, Drop)]
pub enum Told {
    /// In none of them.
    Never,
    /// In this one.
    Shown(Example),
    /// It is not known.
    Open,
}

/// What is told of a request of two worlds.
#[derive(Debug, Drop)]
pub struct Change {
    /// Whether it is gained: allowed in the world after, and not in the one before.
    pub gained: Told,
    /// Whether it is lost: allowed in the world before, and not in the one after.
    pub lost: Told,
}

/// Whether a request of two worlds is gained, and whether it is lost, in the contexts in question: those in which the keys that neither
/// world gives have whatever values, the same in both, at whatever moment from the later of theirs on. Examples are sought where what is
/// certain in each of the worlds excludes nothing and they do not decide it by the same.
///
/// AWS IAM User Guide, "AWS global condition context keys" and "Policy evaluation logic".
pub fn change_of(alloc: Global, both: Both<'_>) -> Result<Change, OutOfMemory>
    ensures { IfOk result (IsChange both.entry.before.now both.entry.after.now both.entry.was both.entry.now) }
{
    let none = Vec::new(alloc);
    let sides = Sides {
        before: Side::of(both.before, both.was, &none),
        after: Side::of(both.after, both.now, &none),
    };
    scene_change(alloc, sides)
}

/// The same of a request for what may be no resource of the worlds.
///
/// AWS IAM User Guide, "AWS global condition context keys" and "Policy evaluation logic".
pub fn scene_change(alloc: Global, sides: Sides<'_, '_>) -> Result<Change, OutOfMemory>
    ensures { IfOk result (λ change. OfSides sides.entry (λ one other was now. IsChange one other was now change)) }
{
    let before = certain_in(alloc, sides.before)?;
    let after = certain_in(alloc, sides.after)?;
    let asked = !cannot_turn(Turn::Gained, before, after)
        || !cannot_turn(Turn::Lost, before, after);
    let excluded = excluded_if(alloc, sides, asked)?;
    let gained = told_of(alloc, sides, Turn::Gained, before, after, excluded.gains)?;
    let lost = told_of(alloc, sides, Turn::Lost, before, after, excluded.losses)?;
    Ok(Change { gained, lost })
}

/// What is excluded, if it is asked.
fn excluded_if(alloc: Global, sides: Sides<'_, '_>, asked: bool) -> Result<Excluded, OutOfMemory>
    ensures { IfOk result (λ excluded. OfSides sides.entry (λ one other was now. Excludes one other was now excluded)) }
{
    if !asked {
        return Ok(Excluded {
            gains: false,
            losses: false,
        });
    }
    exclusions(alloc, sides)
}

/// What is told of one turn, where this is certain before and after, and maybe it is excluded.
fn told_of(
    alloc: Global,
    sides: Sides<'_, '_>,
    turn: Turn,
    before: Certain,
    after: Certain,
    excluded: bool,
) -> Result<Told, OutOfMemory>
    requires before { IsCertainOf sides.before before }
    requires after { IsCertainOf sides.after after }
    requires excluded { IsTrue excluded → OfSides sides (IsNeverTurned turn) }
    ensures { IfOk result (λ told. OfSides sides.entry (λ one other was now. IsTold turn one other was now told)) }
{
    if excluded {
        return Ok(Told::Never);
    }
    if cannot_turn(turn, before, after) {
        return Ok(Told::Never);
    }
    match example(alloc, sides, turn)? {
        Some(shown) => Ok(Told::Shown(shown)),
        None => Ok(Told::Open),
    }
}
