// Where an engine has it from what the requests of pairs share.
ghost use Rattle.std.specs.Prelude.{◌≡◌, ◌<◌, IfOk, IfSome, is_some, length};
ghost use Rattle.iam_classes.specs.Engine.{SourceValue};

use crate::held::Held;
use iam_index::Index;
use iam_layers::{Frame, Shared, World};
use iam_living::{Asking, Bits, Lives, Survey};
use iam_text::OutOfMemory;
use std::alloc::Global;
use std::marker::Model;

/// What is known of the requests of a principal for a resource.
#[derive(Drop)]
pub enum Told<'a> {
    /// Which statements live in them.
    Words(Bits),
    /// What they share.
    Shared(Held<'a>),
}

/// What requests share is what a survey found, or else follows from the statements that an index lists. A contract sees the world,
/// and whether there is a survey.
#[derive(Drop)]
pub struct Source<'a> {
    index: &'a Index<'a>,
    survey: Option<&'a Survey<'a>>,
}

impl<'a> Model for Source<'a> {
    ghost Value = { SourceValue };

    ghost view = { λ source. record { world = source.index.now; surveyed = is_some source.survey } };

    ghost invariant = { λ source. IfSome source.survey (λ survey. survey.now ≡ source.index.now) };
}

impl<'a> Source<'a> {
    ghost use Rattle.iam_decision.specs.Applicable.{ApplicableValue, frame_of};
    ghost use Rattle.iam_layers.specs.Cell.{IsApplicableAt, IsSharedAt};
    ghost use Rattle.iam_living.specs.Asker.{IsAsker};
    ghost use Rattle.iam_classes.specs.Told.{IsTold};

    /// An index, and a survey of its world where there is one.
    pub fn new(alloc: Global, index: &'a Index<'a>, survey: Option<&'a Survey<'a>>) -> Source<'a>
        requires { IfSome survey (λ survey. survey.now ≡ index.now) }
        ensures { result ≡ record { world = index.entry.now; surveyed = is_some survey.entry } }
    {
        Source { index, survey }
    }

    /// The world.
    pub fn world(&self) -> &'a World
        ensures { result.now ≡ self.now.world }
    {
        self.index.world()
    }

    /// The index.
    pub fn index(&self) -> &'a Index<'a>
        ensures { result.now ≡ self.now.world }
    {
        self.index
    }

    /// What a decision on principal p's requests for resource r asks beside the statements.
    pub fn frame(&self, p: u64, r: u64) -> Frame
        requires principal { p < length self.now.world.principals }
        requires resource { r < length self.now.world.resources }
        ensures { (applicable : ApplicableValue) → IsApplicableAt self.now.world p r applicable → result ≡ frame_of applicable }
    {
        self.index.frame(p, r)
    }

    /// What is known of the requests of principal p for resource r: what a survey found, or else which statements live in them.
    pub fn told(
        &mut self,
        alloc: Global,
        asking: &mut Asking<'a>,
        p: u64,
        r: u64,
    ) -> Result<Told<'a>, OutOfMemory>
        requires principal { p < length self.old.world.principals }
        requires resource { r < length self.old.world.resources }
        requires asker { IsAsker self.old.world p asking.old }
        ensures told { IfOk result (IsTold self.old.world p r asking.old) }
        ensures asking { asking.new ≡ asking.old }
        ensures same { self.new ≡ self.old }
    {
        if let Some(shared) = self.lent(p, r) {
            return Ok(Told::Shared(Held::lent(shared)));
        }
        match asking.lives(alloc, self.index, p, r)? {
            Lives::Words(bits) => Ok(Told::Words(bits)),
            Lives::Shared(shared) => Ok(Told::Shared(Held::own(shared))),
        }
    }

    /// What the requests of principal p for resource r share, where a survey found it.
    fn lent(&self, p: u64, r: u64) -> Option<&'a Shared<'a>>
        requires { r < length self.now.world.resources }
        ensures { IfSome result (λ shared. IsSharedAt self.now.world p r shared.now) }
    {
        self.survey?.shared(p, r)
    }
}
