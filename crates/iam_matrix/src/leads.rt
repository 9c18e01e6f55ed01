// Leads: under a class and an action the place, among the verdicts of a tile, of the one on its requests, so that it is said again of the
// next.
ghost use Rattle.std.specs.Prelude.{◌+◌, ◌<◌, ◌≤◌, ◌^◌, List, IfOk, IfSome};
ghost use Rattle.iam_classes.specs.Engine.{EngineValue};
ghost use Rattle.iam_decision.specs.declared.verdict.Verdict.{Verdict};
ghost use Rattle.iam_layers.specs.Cell.{IsVerdictAt};
ghost use Rattle.iam_matrix.specs.Code.Leads.{AreKnown, AreLeads, HasVerdict, IsLead};
ghost use Rattle.iam_matrix.specs.Code.Tiles.{Adds};

use iam_classes::ClassEngine;
use iam_columns::{Numbered, empty_slots, keep_number, number_in, slot_of};
use iam_layers::Verdict;
use iam_report::Kept;
use iam_row::Position;
use iam_text::OutOfMemory;
use std::alloc::Global;

/// So many leads are kept at most, a power of two.
const MOST: u64 = 1_024;

/// No leads yet, for so many cells. Where there is no memory none is ever kept.
pub fn no_leads(alloc: Global, cells: u64) -> Vec<Option<Numbered>>
    ensures { (engine : EngineValue) (verdicts : List Verdict) → AreLeads engine result.items verdicts }
{
    match empty_slots(alloc, cells.min(MOST)) {
        Ok(leads) => leads,
        Err(_) => Vec::new(alloc),
    }
}

/// The place of the verdict on principal p's request for action a on resource r, where pair i of these is theirs and its class has
/// led to it.
#[inline(always)]
fn place_of(
    pairs: &[Option<Numbered>],
    leads: &[Option<Numbered>],
    i: u64,
    p: u64,
    a: u64,
    r: u64,
) -> Option<usize>
    ensures { (engine : EngineValue) (verdicts : List Verdict) → AreKnown engine pairs.now → AreLeads engine leads.now verdicts
        → IfSome result (HasVerdict engine.world p a r verdicts) }
{
    let class = number_in(pairs, i, p, r)? as u64;
    let slot = slot_of(0, class, leads.len());
    number_in(leads, slot, class, a)
}

/// Puts the verdicts on so many cells of a row, from a position on, behind the entries, as long as the class of each is known and has
/// led to it; how many.
#[inline(always)]
pub fn put_known(
    engine: &ClassEngine<'_>,
    leads: &[Option<Numbered>],
    at: Position,
    most: u64,
    entries: &mut Kept<Verdict>,
) -> Result<u64, OutOfMemory>
    requires few { at.resource + most < 2 ^ 64 }
    requires leads { AreLeads engine.now leads.now entries.old }
    ensures most { IfOk result (λ count. count ≤ most) }
    ensures entries { IfOk result (λ count. Adds (IsVerdictAt engine.now.world at.principal at.action) at.resource count entries.old entries.new) }
{
    let pairs = engine.known_from(at.principal, at.resource);
    if pairs.is_empty() {
        return Ok(0);
    }
    put_pairs(pairs, leads, at, most, entries)
}

/// The same, where the classes of these pairs are known.
#[inline(never)]
fn put_pairs(
    pairs: &[Option<Numbered>],
    leads: &[Option<Numbered>],
    at: Position,
    most: u64,
    entries: &mut Kept<Verdict>,
) -> Result<u64, OutOfMemory>
    requires few { at.resource + most < 2 ^ 64 }
    requires leads { (engine : EngineValue) × AreKnown engine pairs.now × AreLeads engine leads.now entries.old }
    ensures most { IfOk result (λ count. count ≤ most) }
    ensures entries { (engine : EngineValue) → AreKnown engine pairs.now → AreLeads engine leads.now entries.old
        → IfOk result (λ count. Adds (IsVerdictAt engine.world at.principal at.action) at.resource count entries.old entries.new) }
{
    for i in 0..most {
        let r = at.resource + i;
        let Some(place) = place_of(pairs, leads, i, at.principal, at.action, r) else {
            return Ok(i);
        };
        entries.push_again(place)?;
    }
    Ok(most)
}

/// Keeps the place of the verdict on requests of a class for action a.
pub fn keep_lead(leads: &mut Vec<Option<Numbered>>, class: usize, a: u64, place: usize)
    ensures { (engine : EngineValue) (verdicts : List Verdict) → AreLeads engine leads.old.items verdicts
        → IsLead engine verdicts (record { one = class; other = a; number = place }) → AreLeads engine leads.new.items verdicts }
{
    let slot = slot_of(0, class as u64, leads.len());
    keep_number(leads, slot, class as u64, a, place);
}
