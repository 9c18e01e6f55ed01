// What is said of cells that follow one another: verdicts, or in brief decisions.
ghost use Rattle.std.specs.Prelude.{◌<◌, ◌≤◌, ◌+◌, ◌^◌, ⊤, ◌≡◌, ◌++◌, ◌∷◌, [], IfOk, List, OnOk, length, ℕ};
ghost use Rattle.iam_decision.specs.declared.verdict.Verdict.{Verdict};
ghost use Rattle.iam_layers.specs.Cell.{IsDecisionAt, IsCell, IsVerdictAt};
ghost use Rattle.iam_classes.specs.Engine.{IsClassAt, IsSameEngine, EngineValue};
ghost use Rattle.iam_matrix.specs.Code.Leads.{AreLeads};
ghost use Rattle.iam_matrix.specs.Code.Tiles.{Adds};

use crate::leads::{keep_lead, no_leads, put_known};
use iam_classes::ClassEngine;
use iam_columns::{Numbered, empty};
use iam_layers::{Decision, Verdict};
use iam_report::{Decisions, Kept};
use iam_row::Position;
use iam_text::OutOfMemory;
use std::alloc::Global;

/// What is said of cells that follow one another, one behind the other.
pub trait Said<T> {
    ghost use Rattle.iam_world.specs.World.{WorldValue};

    // This is said of a principal's request for an action on a resource.
    ghost is: { WorldValue → ℕ → ℕ → ℕ → T → Type 0 };

    // All that was said.
    ghost list: { Self → List T };

    // What is kept beside belongs to the engine.
    ghost fits: { Self → EngineValue → Type 0 };

    /// Says of some of so many cells of a row, from a position on, what has to be said, of one at least; of how many.
    fn say(
        &mut self,
        alloc: Global,
        engine: &mut ClassEngine<'_>,
        at: Position,
        most: u64,
    ) -> Result<u64, OutOfMemory>
        requires is { IsCell engine.old.world at.cell at.principal at.action at.resource }
        requires row { at.resource + most ≤ length engine.old.world.resources }
        requires some { 1 ≤ most }
        requires small { at.resource + most < 2 ^ 64 }
        requires few { length (list self.old) + most ≤ 16777216 }
        requires fits { fits self.old engine.old }
        ensures some { IfOk result (λ count. 1 ≤ count) }
        ensures most { IfOk result (λ count. count ≤ most) }
        ensures said { IfOk result (λ count. Adds (is engine.old.world at.principal at.action) at.resource count (list self.old) (list self.new)) }
        ensures fits { OnOk result (fits self.new engine.new) }
        ensures same { IsSameEngine engine.old engine.new };
}

impl Said<Decision> for Decisions {
    ghost is = { IsDecisionAt };

    ghost list = { λ decisions. decisions };

    ghost fits = { λ _ _. ⊤ };

    fn say(
        &mut self,
        alloc: Global,
        engine: &mut ClassEngine<'_>,
        at: Position,
        most: u64,
    ) -> Result<u64, OutOfMemory> {
        let count = put_decided(engine, at, most, self)?;
        if count == most {
            return Ok(count);
        }
        let decision = engine.decision(alloc, at.principal, at.action, at.resource + count)?;
        self.push(decision)?;
        Ok(count + 1)
    }
}

/// Puts the decisions on so many cells of a row, from a position on, behind the others, as long as they are known; how many.
#[inline(never)]
fn put_decided(
    engine: &ClassEngine<'_>,
    at: Position,
    most: u64,
    decisions: &mut Decisions,
) -> Result<u64, OutOfMemory>
    requires { at.action < length engine.now.world.actions }
    ensures most { IfOk result (λ count. count ≤ most) }
    ensures decisions { IfOk result (λ count. Adds (IsDecisionAt engine.now.world at.principal at.action) at.resource count decisions.old decisions.new) }
{
    let known = engine.decided_from(at.principal, at.action, at.resource);
    for i in 0..most {
        let Some(decision) = known.decision(i as usize) else {
            return Ok(i);
        };
        decisions.push(decision)?;
    }
    Ok(most)
}

/// Verdicts, and where those on requests of each class stand among them.
#[derive(Drop)]
pub struct Verdicts {
    pub entries: Kept<Verdict>,
    pub leads: Vec<Option<Numbered>>,
}

impl Verdicts {
    /// None yet, with room for so many.
    pub fn new(alloc: Global, count: u64) -> Result<Verdicts, OutOfMemory>
        ensures none { IfOk result (λ verdicts. verdicts.entries ≡ []) }
        ensures leads { IfOk result (λ verdicts. (engine : EngineValue) → AreLeads engine verdicts.leads.items verdicts.entries) }
    {
        Ok(Verdicts {
            entries: Kept::new(alloc, count as usize)?,
            leads: no_leads(alloc, count),
        })
    }

    /// Puts the verdict on principal p's request for action a on resource r behind the others, and keeps where it stands for the next
    /// of its class.
    #[inline(never)]
    fn add(
        &mut self,
        alloc: Global,
        engine: &mut ClassEngine<'_>,
        p: u64,
        a: u64,
        r: u64,
    ) -> Result<(), OutOfMemory>
        requires principal { p < length engine.old.world.principals }
        requires action { a < length engine.old.world.actions }
        requires resource { r < length engine.old.world.resources }
        requires few { length self.old.entries < 2 ^ 32 }
        requires leads { AreLeads engine.old self.old.leads.items self.old.entries }
        ensures verdict { OnOk result ((verdict : Verdict) × IsVerdictAt engine.old.world p a r verdict × (self.new.entries ≡ self.old.entries ++ verdict ∷ [])) }
        ensures leads { OnOk result (AreLeads engine.new self.new.leads.items self.new.entries) }
        ensures same { IsSameEngine engine.old engine.new }
    {
        let class = class_of(alloc, engine, p, r, &mut self.leads)?;
        let place = self.entries.len();
        let number = engine.number(alloc, class, a)?;
        self.entries.push(alloc, number, engine.verdict(number))?;
        keep_lead(&mut self.leads, class, a, place);
        Ok(())
    }
}

/// The class of principal p and resource r. Where all classes that were known are let go for it, so are the leads.
fn class_of(
    alloc: Global,
    engine: &mut ClassEngine<'_>,
    p: u64,
    r: u64,
    leads: &mut Vec<Option<Numbered>>,
) -> Result<usize, OutOfMemory>
    requires principal { p < length engine.old.world.principals }
    requires resource { r < length engine.old.world.resources }
    ensures class { IfOk result (IsClassAt engine.new p r) }
    ensures leads { OnOk result ((verdicts : List Verdict) → AreLeads engine.old leads.old.items verdicts → AreLeads engine.new leads.new.items verdicts) }
    ensures same { IsSameEngine engine.old engine.new }
{
    let found = engine.class(alloc, p, r)?;
    if found.cleared {
        empty(leads);
    }
    Ok(found.class)
}

impl Said<Verdict> for Verdicts {
    ghost is = { IsVerdictAt };

    ghost list = { λ verdicts. verdicts.entries };

    ghost fits = { λ verdicts engine. AreLeads engine verdicts.leads.items verdicts.entries };

    fn say(
        &mut self,
        alloc: Global,
        engine: &mut ClassEngine<'_>,
        at: Position,
        most: u64,
    ) -> Result<u64, OutOfMemory> {
        let count = put_known(engine, self.leads.as_slice(), at, most, &mut self.entries)?;
        if count == most {
            return Ok(count);
        }
        self.add(alloc, engine, at.principal, at.action, at.resource + count)?;
        Ok(count + 1)
    }
}
