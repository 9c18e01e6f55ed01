// The engine as its callers see it.
ghost use Rattle.std.specs.Prelude.{◌≡◌, ◌<◌, ℕ, IfOk, IfSome, false, is_some, length, true};
ghost use Rattle.iam_classes.specs.Span.{IsSpan};
ghost use Rattle.iam_classes.specs.Engine.{EngineValue};
ghost use Rattle.iam_classes.specs.Batches.{AreBatches};
ghost use Rattle.iam_classes.specs.Words.{AreWords};

use crate::batches::Batches;
use crate::memo::{Found, Memo};
use crate::source::Source;
use crate::span::{Known, Span, TOGETHER};
use crate::words::Words;
use iam_columns::Numbered;
use iam_index::Index;
use iam_layers::{Decision, Matched, Verdict, World};
use iam_living::Survey;
use iam_text::OutOfMemory;
use std::alloc::Global;
use std::marker::Model;

/// Decides the cells of a world, one after the other and in any order. What the requests of a principal for a resource share
/// is kept, within bounds, for the next such request, and so are verdicts on requests that share the same.
#[derive(Drop)]
pub struct ClassEngine<'a> {
    source: Source<'a>,
    memo: Memo<'a>,
    words: Words<'a>,
    batches: Batches,
    span: Span,
    // Room for the statements that match a request.
    found: Vec<Matched>,
}

impl<'a> Model for ClassEngine<'a> {
    ghost Value = { EngineValue };

    ghost view = { λ engine. record {
      world = engine.memo.world;
      classes = engine.memo.classes;
      rulings = engine.memo.rulings;
      surveyed = engine.source.surveyed;
    } };

    ghost invariant = { λ engine. (engine.source.world ≡ engine.memo.world) × AreWords engine.memo.world engine.memo.classes engine.words
        × AreBatches engine.memo.world engine.memo.classes engine.batches × IsSpan engine.memo.world engine.span };
}

impl<'a> ClassEngine<'a> {
    ghost use Rattle.iam_world.specs.World.{world_cells};
    ghost use Rattle.iam_layers.specs.Cell.{IsDecisionAt, IsDecisionOf, IsVerdictAt, IsVerdictOf};
    ghost use Rattle.iam_columns.specs.Slots.{AllAre};
    ghost use Rattle.iam_classes.specs.Span.{AreKnownFrom};
    ghost use Rattle.iam_classes.specs.Engine.{HasMore, IsClassAt, IsNumberAt, IsSameEngine, OfClass};

    /// An engine of the world of an index, one of so many that share the bounds on what is kept.
    pub fn new(
        alloc: Global,
        index: &'a Index<'a>,
        engines: u32,
    ) -> Result<ClassEngine<'a>, OutOfMemory>
        ensures world { IfOk result (λ engine. engine.world ≡ index.entry.now) }
        ensures plain { IfOk result (λ engine. engine.surveyed ≡ false) }
    {
        ClassEngine::with(alloc, index, None, engines)
    }

    /// An engine of the world of a survey, which begins with what was found there; one of so many that share the bounds.
    pub fn surveyed(
        alloc: Global,
        survey: &'a Survey<'a>,
        engines: u32,
    ) -> Result<ClassEngine<'a>, OutOfMemory>
        ensures world { IfOk result (λ engine. engine.world ≡ survey.entry.now) }
        ensures surveyed { IfOk result (λ engine. engine.surveyed ≡ true) }
    {
        ClassEngine::with(alloc, survey.index(), Some(survey), engines)
    }

    fn with(
        alloc: Global,
        index: &'a Index<'a>,
        survey: Option<&'a Survey<'a>>,
        engines: u32,
    ) -> Result<ClassEngine<'a>, OutOfMemory>
        requires { IfSome survey (λ survey. survey.now ≡ index.now) }
        ensures world { IfOk result (λ engine. engine.world ≡ index.entry.now) }
        ensures surveyed { IfOk result (λ engine. engine.surveyed ≡ is_some survey.entry) }
    {
        let memo = Memo::new(alloc, index, engines)?;
        Ok(ClassEngine {
            source: Source::new(alloc, index, survey),
            memo,
            words: Words::new(alloc, index.world())?,
            batches: Batches::new(alloc),
            span: Span::new(alloc, engines),
            found: Vec::new(alloc),
        })
    }

    /// The world whose cells it decides.
    pub fn world(&self) -> &'a World
        ensures { result.now ≡ self.now.world }
    {
        self.source.world()
    }

    /// The verdict on the request of a cell, which has to be below `cells()` of the world, whatever was asked before. After a
    /// refusal the engine is as usable as before.
    pub fn decide(&mut self, alloc: Global, cell: u64) -> Result<Verdict, OutOfMemory>
        requires { cell < world_cells self.old.world }
        ensures verdict { IfOk result (IsVerdictOf self.old.world cell) }
        ensures same { IsSameEngine self.old self.new }
    {
        let world = self.world();
        let (p, a, r) = world.triple(cell);
        let number = self.find(alloc, p, a, r)?;
        let verdict = self.verdict(number).copy(alloc)?;
        Ok(verdict)
    }

    /// The decision on the request of a cell, as [`ClassEngine::decide`] gives it.
    pub fn decide_brief(&mut self, alloc: Global, cell: u64) -> Result<Decision, OutOfMemory>
        requires { cell < world_cells self.old.world }
        ensures decision { IfOk result (IsDecisionOf self.old.world cell) }
        ensures same { IsSameEngine self.old self.new }
    {
        let world = self.world();
        let (p, a, r) = world.triple(cell);
        let number = self.find(alloc, p, a, r)?;
        Ok(self.verdict(number).decision)
    }

    /// The number of the verdict on principal p's request for action a on resource r, each below the number of its kind. It
    /// is that of the verdict until the next call.
    #[inline(always)]
    pub fn find(&mut self, alloc: Global, p: u64, a: u64, r: u64) -> Result<usize, OutOfMemory>
        requires principal { p < length self.old.world.principals }
        requires action { a < length self.old.world.actions }
        requires resource { r < length self.old.world.resources }
        ensures number { IfOk result (IsNumberAt self.new p a r) }
        ensures same { IsSameEngine self.old self.new }
    {
        let found = self.class(alloc, p, r)?;
        self.number(alloc, found.class, a)
    }

    /// The pairs whose classes are known, from principal p and resource r on, as they lie side by side. Where the class of one is
    /// not known stands none, or another. The requests of a class share the same.
    pub fn known_from(&self, p: u64, r: u64) -> &[Option<Numbered>]
        ensures { AllAre (λ pair. IsClassAt self.now pair.one pair.other pair.number) result.now }
    {
        self.memo.pairs_from(p, r)
    }

    /// The class of principal p and resource r, each below the number of its kind. Where all classes that were known are let go
    /// for it, it says so.
    #[inline(always)]
    pub fn class(&mut self, alloc: Global, p: u64, r: u64) -> Result<Found, OutOfMemory>
        requires principal { p < length self.old.world.principals }
        requires resource { r < length self.old.world.resources }
        ensures class { IfOk result (λ found. IsClassAt self.new p r found.class) }
        ensures kept { IfOk result (λ found. found.cleared ≡ false → HasMore self.old.classes self.new.classes) }
        ensures let_go { IfOk result (λ found. found.cleared ≡ true → length self.new.classes ≡ 1) }
        ensures same { IsSameEngine self.old self.new }
    {
        match self.memo.class_of(p, r) {
            Some(class) => Ok(Found {
                class,
                cleared: false,
            }),
            None => self.find_class(alloc, p, r),
        }
    }

    /// The same where it is not known.
    #[inline(never)]
    fn find_class(&mut self, alloc: Global, p: u64, r: u64) -> Result<Found, OutOfMemory>
        requires principal { p < length self.old.world.principals }
        requires resource { r < length self.old.world.resources }
        ensures class { IfOk result (λ found. IsClassAt self.new p r found.class) }
        ensures kept { IfOk result (λ found. found.cleared ≡ false → HasMore self.old.classes self.new.classes) }
        ensures let_go { IfOk result (λ found. found.cleared ≡ true → length self.new.classes ≡ 1) }
        ensures same { IsSameEngine self.old self.new }
    {
        match self
            .words
            .class_at(alloc, &mut self.source, &mut self.memo, p, r)
        {
            Ok(found) => {
                if found.cleared {
                    self.batches.forget();
                }
                Ok(found)
            }
            Err(fault) => {
                self.batches.forget();
                Err(fault)
            }
        }
    }

    /// What is known of the decisions on principal p's requests for action a on the resources from r on.
    #[inline(always)]
    pub fn decided_from(&self, p: u64, a: u64, r: u64) -> Known<'_>
        ensures { AreKnownFrom self.now.world p a r result }
    {
        self.span.known_from(p, a, r)
    }

    /// The decision on principal p's request for action a on resource r, each below the number of its kind. It is kept with those
    /// for other actions, behind those on the resources before it.
    pub fn decision(
        &mut self,
        alloc: Global,
        p: u64,
        a: u64,
        r: u64,
    ) -> Result<Decision, OutOfMemory>
        requires principal { p < length self.old.world.principals }
        requires action { a < length self.old.world.actions }
        requires resource { r < length self.old.world.resources }
        ensures decision { IfOk result (IsDecisionAt self.new.world p a r) }
        ensures same { IsSameEngine self.old self.new }
    {
        let class = self.class(alloc, p, r)?.class;
        self.keep_decided(alloc, class, p, a, r);
        if let Some(decision) = self.decided_from(p, a, r).decision(0) {
            return Ok(decision);
        }
        let number = self.number(alloc, class, a)?;
        Ok(self.verdict(number).decision)
    }

    /// Keeps what is decided on the requests of principal p for resource r, which are of this class, and action a with others, where
    /// there is room and the rows of their statements tell.
    fn keep_decided(&mut self, alloc: Global, class: usize, p: u64, a: u64, r: u64)
        requires action { a < length self.old.world.actions }
        requires class { IsClassAt self.old p r class }
        ensures { self.new ≡ self.old }
    {
        let number = a / TOGETHER;
        if !self.span.has_room(p, number, r) {
            return;
        }
        if let Some(decided) = self.batches.decided(alloc, &self.memo, class, number) {
            self.span.keep(p, number, r, decided);
        }
    }

    /// The number of the verdict on the requests of a class for action a. It is that of the verdict until the next call.
    #[inline(always)]
    pub fn number(&mut self, alloc: Global, class: usize, a: u64) -> Result<usize, OutOfMemory>
        requires action { a < length self.old.world.actions }
        requires class { class < length self.old.classes }
        ensures number { IfOk result (λ number. OfClass self.new class (λ p r. IsNumberAt self.new p a r number)) }
        ensures classes { self.new.classes ≡ self.old.classes }
        ensures same { IsSameEngine self.old self.new }
    {
        self.memo.number(alloc, &mut self.found, class, a)
    }

    /// The verdict of a number that [`ClassEngine::find`] gave, on the request that it was given for.
    #[inline(always)]
    pub fn verdict(&self, number: usize) -> &Verdict
        requires { number < length self.now.rulings }
        ensures { (p a r : ℕ) → IsNumberAt self.now p a r number → IsVerdictAt self.now.world p a r result.now }
    {
        self.memo.verdict(number)
    }
}
