// The requests of a world among those of another.
ghost use Rattle.std.specs.Prelude.{◌≡◌, ◌≤◌, ℕ, IfOk, IsTrue, MatchOption, None, Some, length, map};
ghost use Rattle.std.specs.List.{AllZip, filter, slice_get};
ghost use Rattle.std.specs.Option.{is_some};
ghost use Rattle.iam_layers.specs.Cell.{IsCell};
ghost use Rattle.iam_row.specs.Report.{CellTexts, HasTexts, IsCellTexts};
ghost use Rattle.iam_changes.specs.Requests.{Has};
ghost use Rattle.iam_changes.specs.Code.Found.{IsLeftCount, IsNumberIn, AreFoundIn, FinderValue};
ghost use Rattle.iam_changes.specs.Twice.{axis_texts};

use crate::twice::{Axis, texts_of};
use iam_layers::{World, one_triple};
use iam_row::Position;
use iam_text::OutOfMemory;
use std::alloc::Global;
use std::collections::HashMap;
use std::marker::Model;

/// Tells which requests of a world another one has, and where. The texts were sought once.
#[derive(Drop)]
pub struct Finder<'a> {
    world: &'a World,
    other: &'a World,
    // The number of each in the other world.
    principals: Vec<Option<u64>>,
    actions: Vec<Option<u64>>,
    resources: Vec<Option<u64>>,
    // Whether the other world has all resources; whether it has all.
    has_resources: bool,
    has_all: bool,
}

impl<'a> Model for Finder<'a> {
    ghost Value = { FinderValue };

    ghost view = { λ finder. record { world = finder.world.now; other = finder.other.now } };

    ghost invariant = { λ finder. AreFoundIn finder.world.now finder.other.now finder.principals.items finder.actions.items
        finder.resources.items finder.has_resources finder.has_all };
}

/// The numbers of texts among others.
fn numbers_in(
    alloc: Global,
    texts: &[&str],
    others: &[&str],
) -> Result<Vec<Option<u64>>, OutOfMemory>
    ensures { IfOk result (λ numbers. AllZip (IsNumberIn (map (λ text. text.now) others.now)) (map (λ text. text.now) texts.now) numbers.items) }
{
    let mut places = HashMap::new(alloc);
    for (n, text) in others.iter().enumerate() {
        places.insert(*text, n as u64)?;
    }
    let mut numbers = Vec::with_capacity(alloc, texts.len())?;
    for text in texts {
        numbers.push(places.get(*text).copied())?;
    }
    Ok(numbers)
}

/// The numbers in another world of a world's principals, actions or resources.
fn numbers_of(
    alloc: Global,
    world: &World,
    other: &World,
    axis: Axis,
) -> Result<Vec<Option<u64>>, OutOfMemory>
    ensures { IfOk result (λ numbers. AllZip (IsNumberIn (axis_texts axis other.now)) (axis_texts axis world.now) numbers.items) }
{
    let texts = texts_of(alloc, world, axis)?;
    let others = texts_of(alloc, other, axis)?;
    numbers_in(alloc, texts.as_slice(), others.as_slice())
}

/// `true` only where there is a number of each.
fn are_all(numbers: &[Option<u64>]) -> bool
    ensures { IsTrue result → (i : ℕ) → ¬ (slice_get numbers.now i ≡ Some None) }
{
    numbers.iter().all(|number| number.is_some())
}

/// `true` only where the resources are there, and there is a number of each principal and each action.
fn has_all(resources: bool, principals: &[Option<u64>], actions: &[Option<u64>]) -> bool
    ensures { IsTrue result → IsTrue resources × ((p : ℕ) → ¬ (slice_get principals.now p ≡ Some None)) × ((a : ℕ) → ¬ (slice_get actions.now a ≡ Some None)) }
{
    resources && are_all(principals) && are_all(actions)
}

/// How many numbers are there.
fn count_some(numbers: &[Option<u64>]) -> u64
    ensures { result ≡ length (filter is_some numbers.now) }
{
    numbers.iter().filter(|number| number.is_some()).count() as u64
}

impl<'a> Finder<'a> {
    /// The requests of a world in another. `OutOfMemory` comes where there is no memory for it.
    pub fn of(alloc: Global, world: &'a World, other: &'a World) -> Result<Finder<'a>, OutOfMemory>
        ensures world { IfOk result (λ finder. finder.world ≡ world.entry.now) }
        ensures other { IfOk result (λ finder. finder.other ≡ other.entry.now) }
    {
        let principals = numbers_of(alloc, world, other, Axis::Principals)?;
        let actions = numbers_of(alloc, world, other, Axis::Actions)?;
        let resources = numbers_of(alloc, world, other, Axis::Resources)?;
        let has_resources = are_all(resources.as_slice());
        let has_all = has_all(has_resources, principals.as_slice(), actions.as_slice());
        Ok(Finder {
            world,
            other,
            principals,
            actions,
            resources,
            has_resources,
            has_all,
        })
    }

    /// The principal, the action and the resource of the other world whose request has the same texts as that of a cell, where
    /// it has such a request.
    #[inline(always)]
    pub fn find(&self, at: Position) -> Option<(u64, u64, u64)>
        requires { IsCell self.now.world at.cell at.principal at.action at.resource }
        ensures { (texts : CellTexts) → IsCellTexts self.now.world at.cell texts
            → MatchOption result (¬ Has self.now.other texts) (λ found. HasTexts self.now.other found.0 found.1 found.2 texts) }
    {
        one_triple();
        let principal = self.principals[at.principal as usize]?;
        let action = self.actions[at.action as usize]?;
        let resource = self.resources[at.resource as usize]?;
        Some((principal, action, resource))
    }

    /// `true` only where the other world has each request of a cell's principal for its action, whatever the resource.
    pub fn finds_row(&self, at: Position) -> bool
        requires { IsCell self.now.world at.cell at.principal at.action at.resource }
        ensures { IsTrue result → (cell r : ℕ) (texts : CellTexts) → IsCell self.now.world cell at.principal at.action r
            → IsCellTexts self.now.world cell texts → Has self.now.other texts }
    {
        one_triple();
        self.has_resources
            && self.principals[at.principal as usize].is_some()
            && self.actions[at.action as usize].is_some()
    }

    /// `true` only where the other world has each request.
    pub fn finds_all(&self) -> bool
        ensures { IsTrue result → (cell : ℕ) (texts : CellTexts) → IsCellTexts self.now.world cell texts → Has self.now.other texts }
    {
        self.has_all
    }

    /// How many requests the other world does not have, at most 16,777,216.
    pub fn count_left(&self) -> u64
        ensures count { IsLeftCount self.now.world self.now.other result }
        ensures few { result ≤ 16777216 }
    {
        one_triple();
        let cells = self.world.cells();
        if cells == 0 {
            return 0;
        }
        // It has those of which it has each text. A world with cells has at most as many pairs of a principal and an action.
        let had = count_some(self.principals.as_slice())
            * count_some(self.actions.as_slice())
            * count_some(self.resources.as_slice());
        cells - had
    }
}
