// An example is sought: values of keys that nothing gives are tried in both worlds, one key after the other, as long as they do not settle
// the request in both.
ghost use Rattle.std.specs.Prelude.{IfOk, IfSome};
ghost use Rattle.iam_open_changes.specs.Sides.{OfSides};
ghost use Rattle.iam_open_changes.specs.Told.{IsShown};

use crate::certain::{cannot_turn, certain_where, is_clean_in};
use crate::example::{Example, example_of};
use crate::side::Sides;
use crate::trials::{Trial, Tried, tried_of};
use crate::turn::Turn;
use iam_context::Part;
use iam_layers::OutOfMemory;
use iam_open::{Certain, LAST_MOMENT, part_of};
use std::alloc::Global;

/// So many contexts are looked at for a request at most.
const NODES: u32 = 4096;

/// An example of a context in question in which the request is gained, or lost, where one is found. `None` says nothing.
pub fn example(
    alloc: Global,
    sides: Sides<'_, '_>,
    turn: Turn,
) -> Result<Option<Example>, OutOfMemory>
    ensures { IfOk result (λ found. IfSome found (λ shown. OfSides sides.entry (λ one other was now. IsShown turn one other was now shown))) }
{
    let Tried { trials, moments } = tried_of(alloc, sides)?;
    let mut left = NODES;
    for &moment in moments.as_slice() {
        let mut chosen = Vec::new(alloc);
        let found = seek(
            alloc,
            sides,
            turn,
            moment,
            trials.as_slice(),
            0,
            &mut chosen,
            &mut left,
        )?;
        if found.is_some() {
            return Ok(found);
        }
    }
    Ok(None)
}

/// An example in which the keys before number k are as chosen.
fn seek<'a>(
    alloc: Global,
    sides: Sides<'_, '_>,
    turn: Turn,
    moment: u64,
    trials: &'a [Trial],
    k: usize,
    chosen: &mut Vec<(&'a str, Option<&'a str>)>,
    left: &mut u32,
) -> Result<Option<Example>, OutOfMemory>
    ensures { IfOk result (λ found. IfSome found (λ shown. OfSides sides.entry (λ one other was now. IsShown turn one other was now shown))) }
{
    if *left == 0 {
        return Ok(None);
    }
    *left -= 1;
    let own = part_of(alloc, chosen.as_slice())?;
    match way_at(alloc, sides, turn, &own, moment)? {
        Way::None => return Ok(None),
        Way::Here => return example_of(alloc, sides, turn, own, moment),
        Way::Open => {}
    }
    if k >= trials.len() {
        return example_of(alloc, sides, turn, own, moment);
    }
    let trial = &trials[k];
    for i in 0..trial.texts.len() + 1 {
        chosen.push((trial.key.as_str(), trial.text(i)))?;
        let found = seek(alloc, sides, turn, moment, trials, k + 1, chosen, left)?;
        let _last = chosen.pop();
        if found.is_some() {
            return Ok(found);
        }
    }
    Ok(None)
}

/// Where an example may be.
enum Way {
    /// Nowhere among the contexts with these keys.
    None,
    /// In each of them, as in the one that has no others.
    Here,
    /// Maybe in some of them.
    Open,
}

/// Where an example may be among the contexts in which these keys have these values at this moment. Nothing is claimed of it.
fn way_at(
    alloc: Global,
    sides: Sides<'_, '_>,
    turn: Turn,
    own: &Part,
    moment: u64,
) -> Result<Way, OutOfMemory> {
    if moment > LAST_MOMENT {
        return Ok(Way::None);
    }
    if !is_clean_in(alloc, sides.before, own)? {
        return Ok(Way::None);
    }
    if !is_clean_in(alloc, sides.after, own)? {
        return Ok(Way::None);
    }
    let before = certain_where(alloc, sides.before, own, moment)?;
    let after = certain_where(alloc, sides.after, own, moment)?;
    if cannot_turn(turn, before, after) {
        return Ok(Way::None);
    }
    if before == Certain::Open || after == Certain::Open {
        return Ok(Way::Open);
    }
    Ok(Way::Here)
}
