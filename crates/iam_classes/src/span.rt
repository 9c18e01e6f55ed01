// What is decided on requests of a principal for resources that follow one another.
ghost use Rattle.std.specs.Prelude.{◌≡◌, ◌↔◌, ◌+◌, [], ◌<◌, IsTrue, length, ℕ, IfSome};
ghost use Rattle.iam_world.specs.World.{WorldValue};
ghost use Rattle.iam_classes.specs.Span.{AreKnownFrom, IsDecidedAt, IsNext, IsSpan};

use crate::lanes::Decided;
use crate::laws::rows_find;
use iam_decision::{acting_are_found, found_decide};
use iam_layers::Decision;
use std::alloc::Global;

/// So many actions are decided on at once.
pub const TOGETHER: u64 = 64;

/// So many resources all engines together keep at most what is decided of.
const MOST: usize = 262_144;

/// What is decided on the requests of a principal for the actions from 64 times this number on, 64 at most, and the resources from
/// this one on.
#[derive(Drop)]
pub struct Span {
    pub principal: u64,
    pub number: u64,
    pub from: u64,
    pub decided: Vec<Decided>,
    most: usize,
}

impl Span {
    /// Nothing yet, in one of so many engines that share the bound.
    pub fn new(alloc: Global, engines: u32) -> Span
        ensures { (world : WorldValue) → IsSpan world result }
    {
        Span {
            principal: 0,
            number: 0,
            from: 0,
            decided: Vec::new(alloc),
            most: MOST / engines.max(1) as usize,
        }
    }

    /// What is known of the requests of principal p for action a and the resources from r on.
    #[inline(always)]
    pub fn known_from(&self, p: u64, a: u64, r: u64) -> Known<'_>
        ensures { (world : WorldValue) → IsSpan world self.now → AreKnownFrom world p a r result }
    {
        let action = (a % TOGETHER) as u32;
        if self.principal != p
            || self.number != a / TOGETHER
            || r < self.from
            || r - self.from >= self.decided.len() as u64
        {
            return Known {
                decided: &[],
                action,
            };
        }
        Known {
            decided: &self.decided[(r - self.from) as usize..],
            action,
        }
    }

    /// Whether what is decided on the requests for resource r is to be kept: not where it would take the place of the same for
    /// resources before it.
    pub fn has_room(&self, p: u64, number: u64, r: u64) -> bool
        ensures { IsNext self.now p number r → length self.now.decided.items < self.now.most → IsTrue result }
    {
        if self.is_next(p, number, r) {
            self.decided.len() < self.most
        } else {
            self.principal != p || self.number != number || r < self.from
        }
    }

    /// Whether resource r is the next.
    fn is_next(&self, p: u64, number: u64, r: u64) -> bool
        ensures { IsTrue result ↔ IsNext self.now p number r }
    {
        self.principal == p
            && self.number == number
            && self.from <= r
            && r - self.from == self.decided.len() as u64
    }

    /// Keeps what is decided on the requests for resource r, behind what is kept or in its place.
    pub fn keep(&mut self, p: u64, number: u64, r: u64, decided: Decided)
        ensures { (world : WorldValue) → IsSpan world self.old → IsDecidedAt world p r number decided → IsSpan world self.new }
    {
        self.turn_to(p, number, r);
        match self.decided.push(decided) {
            Ok(()) => (),
            Err(_) => (),
        }
    }

    /// Lets go what is kept, where resource r is not the next.
    fn turn_to(&mut self, p: u64, number: u64, r: u64)
        ensures principal { self.new.principal ≡ p }
        ensures number { self.new.number ≡ number }
        ensures next { self.new.from + length self.new.decided.items ≡ r }
        ensures right { (world : WorldValue) → IsSpan world self.old → IsSpan world self.new }
    {
        if self.is_next(p, number, r) {
            return;
        }
        self.principal = p;
        self.number = number;
        self.from = r;
        self.decided.clear();
    }
}

/// Decisions on the requests of a principal for an action and resources that follow one another.
#[derive(Clone, Copy)]
pub struct Known<'a> {
    pub decided: &'a [Decided],
    // The number of the action among those that were decided on together.
    pub action: u32,
}

impl<'a> Known<'a> {
    ghost use Rattle.iam_layers.specs.Cell.{IsDecisionAt};

    /// The decision on the request for resource i of these.
    #[inline(always)]
    pub fn decision(self, i: usize) -> Option<Decision>
        requires { self.action < 64 }
        ensures { (world : WorldValue) (p a r : ℕ) → a < length world.actions → AreKnownFrom world p a r self.entry → IfSome result (IsDecisionAt world p a (r + i)) }
    {
        found_decide();
        acting_are_found();
        rows_find();
        let decided = *self.decided.get(i)?;
        Some(decided.at(self.action))
    }
}
