// What is told of conditions that ask for no key that a resource gives: of the requests of a principal that have the same derived keys
// they hold in all, or in none.
ghost use Rattle.std.specs.Prelude.{◌≡◌, ◌↔◌, ◌<◌, ℕ, All, Bool, IfOk, IsTrue, Some, length, map};
ghost use Rattle.std.specs.List.{slice_get};
ghost use Rattle.iam_context.specs.Context.{ContextValue};
ghost use Rattle.iam_match.specs.Entry.{EntryHolds};
ghost use Rattle.iam_decision.specs.Code.Scan.{placed_value};
ghost use Rattle.iam_decision.specs.declared.scan.Standing.{Standing};
ghost use Rattle.iam_layers.specs.Cell.{IsContextAt};
ghost use Rattle.iam_index.specs.Given.{IsFree};
ghost use Rattle.iam_living.specs.Marks.{AreMarks};
ghost use Rattle.iam_living.specs.declared.marks.Mark.TheVariants as mark;

use iam_columns::{keep, kept};
use iam_index::Known;
use iam_match::{Context, Entry, holds};
use iam_text::OutOfMemory;
use std::alloc::Global;

/// What is told of the conditions of a statement.
#[derive(Clone, Copy)]
pub enum Mark {
    /// They may ask for a key that a resource gives.
    Asks,
    /// Whether they hold, for whatever resource.
    Held(bool),
}

/// What is told so far of the conditions of statements, by their places.
pub type Marks = Vec<Option<Mark>>;

/// What is told of the statements of a listing.
#[derive(Drop)]
pub struct ListingMarks {
    pub org: Marks,
    pub own: Marks,
}

/// Whether the conditions of statement i of these hold in this context: as it is told, or else tried, and then told where they ask for
/// no key that a resource gives.
pub fn conditions_hold<'a: 'c, 'c>(
    alloc: Global,
    known: &Known<'a>,
    told: &mut Marks,
    i: usize,
    context: &Context<'c>,
) -> Result<bool, OutOfMemory>
    requires { i < length known.now.statements }
    ensures told { (p r : ℕ) (derived : ContextValue) → IsContextAt known.now.world p r derived context.now
        → AreMarks known.now.world p derived (map placed_value known.now.statements) told.old.items
        → AreMarks known.now.world p derived (map placed_value known.now.statements) told.new.items }
    ensures held { (p r : ℕ) (derived : ContextValue) (standing : Standing) → IsContextAt known.now.world p r derived context.now
        → AreMarks known.now.world p derived (map placed_value known.now.statements) told.old.items
        → slice_get known.now.statements i ≡ Some standing
        → IfOk result (λ held. IsTrue held ↔ All (EntryHolds context.now) standing.statement.now.conditions) }
{
    let entries = known.statements()[i].statement.conditions();
    match kept(told.as_slice(), i as u64) {
        Some(Mark::Held(held)) => Ok(held),
        Some(Mark::Asks) => all_hold(alloc, entries, context),
        None => {
            let held = all_hold(alloc, entries, context)?;
            keep(told, i as u64, mark_of(known, i, held));
            Ok(held)
        }
    }
}

/// What is told of the conditions of statement i, which hold in one context, or do not.
fn mark_of(known: &Known<'_>, i: usize, held: bool) -> Mark
    ensures { (standing : Standing) (told : Bool) → slice_get known.now.statements i ≡ Some standing → result ≡ mark.Held told
        → (told ≡ held) × IsFree known.now.world standing.statement.now }
{
    if known.is_free(i) {
        Mark::Held(held)
    } else {
        Mark::Asks
    }
}

/// Whether every entry holds.
fn all_hold<'c>(
    alloc: Global,
    entries: &'c [Entry],
    context: &Context<'c>,
) -> Result<bool, OutOfMemory>
    ensures { IfOk result (λ held. IsTrue held ↔ All (EntryHolds context.now) entries.now) }
{
    for entry in entries {
        if !holds(alloc, entry, context)? {
            return Ok(false);
        }
    }
    Ok(true)
}
