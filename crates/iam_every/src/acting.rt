// Which actions action elements match, found once for elements that are the same.
ghost use Rattle.std.specs.Prelude.{◌≡◌, ℕ, All, IfOk, IfSome, IsTrue, List, OnOk, Some, map, string_bytes};
ghost use Rattle.std.specs.List.{AllZip, slice_get};
ghost use Rattle.iam_match.specs.Statement.{ActionMatches};
ghost use Rattle.iam_decision.specs.Code.Scan.{placed_value};
ghost use Rattle.iam_every.specs.Code.Acting.{IsActing, IsActingFor, acts_in};
ghost use Rattle.iam_every.specs.Code.Picked.{TellEach};
ghost use Rattle.iam_every.specs.declared.acting.ElementActs.{ElementActs};

use crate::actions::print_of;
use crate::eligible::bit_at;
use iam_decision::{Actions, Standing};
use iam_match::{OutOfMemory, action_matches};
use std::alloc::Global;
use std::collections::BTreeMap;

/// An action element, and of each action in question whether it matches it.
#[derive(Drop)]
pub struct ElementActs<'a> {
    pub element: &'a Actions,
    pub acts: Vec<bool>,
}

/// What is known of action elements.
#[derive(Drop)]
pub struct Acting<'a> {
    pub known: Vec<ElementActs<'a>>,
    /// The number of an element with each print.
    pub numbers: BTreeMap<u64, usize>,
}

/// Of each of the actions whether the element matches it.
fn acts_of(alloc: Global, element: &Actions, actions: &[String]) -> Result<Vec<bool>, OutOfMemory>
    ensures { IfOk result (λ acts. TellEach (ActionMatches element.now) (map string_bytes actions.now) acts.items) }
{
    let mut acts = Vec::with_capacity(alloc, actions.len())?;
    for action in actions {
        acts.push(action_matches(element, action.as_str()))?;
    }
    Ok(acts)
}

/// `true` only where the element has this number.
fn is_at(known: &[ElementActs<'_>], n: usize, element: &Actions) -> bool
    ensures { IsTrue result → (one : ElementActs) × (slice_get known.now n ≡ Some one) × (one.element.now ≡ element.now) }
{
    n < known.len() && known[n].element.equals(element)
}

impl<'a> Acting<'a> {
    /// Nothing is known.
    pub fn new(alloc: Global) -> Acting<'a>
        ensures { (actions : List (List ℕ)) → All (IsActing actions) result.known.items }
    {
        Acting {
            known: Vec::new(alloc),
            numbers: BTreeMap::new(alloc),
        }
    }

    /// The number of the element, if it is known to be there.
    fn found(&self, print: u64, element: &Actions) -> Option<usize>
        ensures { IfSome result (λ n. (one : ElementActs) × (slice_get self.now.known.items n ≡ Some one) × (one.element.now ≡ element.now)) }
    {
        match self.numbers.get(&print) {
            Some(&n) if is_at(self.known.as_slice(), n, element) => Some(n),
            _ => None,
        }
    }

    /// The number of the element, of which it is found what it matches unless that is known.
    fn number(
        &mut self,
        alloc: Global,
        element: &'a Actions,
        actions: &[String],
    ) -> Result<usize, OutOfMemory>
        requires { All (IsActing (map string_bytes actions.now)) self.old.known.items }
        ensures known { OnOk result (All (IsActing (map string_bytes actions.now)) self.new.known.items) }
        ensures same { OnOk result ((n : ℕ) (one : ElementActs) → slice_get self.old.known.items n ≡ Some one
            → slice_get self.new.known.items n ≡ Some one) }
        ensures number { IfOk result (λ n. (one : ElementActs) × (slice_get self.new.known.items n ≡ Some one) × (one.element.now ≡ element.entry.now)) }
    {
        let print = print_of(element);
        if let Some(n) = self.found(print, element) {
            return Ok(n);
        }
        let n = self.known.len();
        let acts = acts_of(alloc, element, actions)?;
        self.known.push(ElementActs { element, acts })?;
        self.numbers.insert(print, n)?;
        Ok(n)
    }

    /// The numbers of the action elements of the statements.
    pub fn numbers_of(
        &mut self,
        alloc: Global,
        statements: &[Standing<'a>],
        actions: &[String],
    ) -> Result<Vec<usize>, OutOfMemory>
        requires { All (IsActing (map string_bytes actions.now)) self.old.known.items }
        ensures known { OnOk result (All (IsActing (map string_bytes actions.now)) self.new.known.items) }
        ensures numbers { IfOk result (λ numbers.
            AllZip (IsActingFor self.new.known.items) (map placed_value statements.now) numbers.items) }
    {
        let mut numbers = Vec::with_capacity(alloc, statements.len())?;
        for &standing in statements {
            numbers.push(self.number(alloc, standing.statement.action(), actions)?)?;
        }
        Ok(numbers)
    }
}

/// Whether the element of number n matches action i.
fn acts_in(known: &[ElementActs<'_>], n: usize, i: usize) -> bool
    ensures { result ≡ acts_in known.now i n }
{
    match known.get(n) {
        Some(one) => bit_at(one.acts.as_slice(), i),
        None => false,
    }
}

/// Of each of the elements of these numbers whether it matches action i.
pub fn acts_at(
    alloc: Global,
    known: &[ElementActs<'_>],
    numbers: &[usize],
    i: usize,
) -> Result<Vec<bool>, OutOfMemory>
    ensures { IfOk result (λ acts. acts.items ≡ map (acts_in known.now i) numbers.now) }
{
    let mut acts = Vec::with_capacity(alloc, numbers.len())?;
    for &n in numbers {
        acts.push(acts_in(known, n, i))?;
    }
    Ok(acts)
}
