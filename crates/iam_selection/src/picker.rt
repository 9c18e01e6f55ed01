// Which requests of a world are selected.
ghost use Rattle.std.specs.Prelude.{◌≡◌, ◌↔◌, IfOk, IsTrue, chars, length};
ghost use Rattle.std.specs.List.{list_any};
ghost use Rattle.iam_glob.specs.Glob.{Matches, MatchesFold};
ghost use Rattle.iam_layers.specs.Cell.{principal_text};
ghost use Rattle.iam_selection.specs.Code.Listing.{AreFlags, IsActionMeant, IsPrincipalMeant, IsResourceMeant, PickerValue};
ghost use Rattle.iam_selection.specs.Selection.{IsMeant, IsSelected, SelectsSome};

use crate::selection::Selection;
use iam_layers::{World, one_triple};
use iam_matrix::Asks;
use iam_row::Position;
use iam_text::{Compiled, Glob, OutOfMemory};
use std::alloc::Global;
use std::marker::Model;

/// Tells which requests of a world are selected. Each principal, action and resource was held against the patterns once.
#[derive(Drop)]
pub struct Picker<'a> {
    world: &'a World,
    selection: &'a Selection,
    // Which of each are meant.
    principals: Vec<bool>,
    actions: Vec<bool>,
    resources: Vec<bool>,
}

impl<'a> Model for Picker<'a> {
    ghost Value = { PickerValue };

    ghost view = { λ picker. record { world = picker.world.now; selection = picker.selection.now } };

    ghost invariant = { λ picker. AreFlags (IsPrincipalMeant picker.selection.now picker.world.now) (length picker.world.now.principals) picker.principals.items
        × AreFlags (IsActionMeant picker.selection.now picker.world.now) (length picker.world.now.actions) picker.actions.items
        × AreFlags (IsResourceMeant picker.selection.now picker.world.now) (length picker.world.now.resources) picker.resources.items };
}

/// The patterns, as they match many texts.
fn compiled<'a>(alloc: Global, patterns: &'a [Glob]) -> Result<Vec<Compiled<'a>>, OutOfMemory>
    ensures { IfOk result (λ compiled. compiled.items ≡ patterns.entry.now) }
{
    let mut compiled = Vec::with_capacity(alloc, patterns.len())?;
    for pattern in patterns {
        compiled.push(Compiled::of(alloc, pattern)?)?;
    }
    Ok(compiled)
}

/// Whether a text is meant.
fn is_meant(patterns: &[Compiled<'_>], text: &str) -> bool
    ensures { IsTrue result ↔ IsMeant (λ pattern. Matches pattern (chars text.now)) patterns.now }
{
    patterns.is_empty() || patterns.iter().any(|pattern| pattern.matches(text))
}

/// Whether a text is meant, without regard to case.
fn is_meant_fold(patterns: &[Compiled<'_>], text: &str) -> bool
    ensures { IsTrue result ↔ IsMeant (λ pattern. MatchesFold pattern (chars text.now)) patterns.now }
{
    patterns.is_empty() || patterns.iter().any(|pattern| pattern.matches_fold(text))
}

/// Which principals of a world are meant.
fn principals(alloc: Global, world: &World, selection: &Selection) -> Result<Vec<bool>, OutOfMemory>
    ensures { IfOk result (λ flags. AreFlags (IsPrincipalMeant selection.now world.now) (length world.now.principals) flags.items) }
{
    let patterns = compiled(alloc, selection.principals.as_slice())?;
    let mut flags = Vec::new(alloc);
    for p in 0..world.principals() {
        flags.push(is_meant(patterns.as_slice(), world.principal_text(p)))?;
    }
    Ok(flags)
}

/// Which actions of a world are meant.
fn actions(alloc: Global, world: &World, selection: &Selection) -> Result<Vec<bool>, OutOfMemory>
    ensures { IfOk result (λ flags. AreFlags (IsActionMeant selection.now world.now) (length world.now.actions) flags.items) }
{
    let patterns = compiled(alloc, selection.actions.as_slice())?;
    let mut flags = Vec::new(alloc);
    for a in 0..world.actions() {
        flags.push(is_meant_fold(patterns.as_slice(), world.action_text(a)))?;
    }
    Ok(flags)
}

/// Which resources of a world are meant.
fn resources(alloc: Global, world: &World, selection: &Selection) -> Result<Vec<bool>, OutOfMemory>
    ensures { IfOk result (λ flags. AreFlags (IsResourceMeant selection.now world.now) (length world.now.resources) flags.items) }
{
    let patterns = compiled(alloc, selection.resources.as_slice())?;
    let mut flags = Vec::new(alloc);
    for r in 0..world.resources() {
        flags.push(is_meant(patterns.as_slice(), world.resource_text(r)))?;
    }
    Ok(flags)
}

/// Whether one is meant.
fn has_some(flags: &[bool]) -> bool
    ensures { result ≡ list_any (λ flag. flag) flags.now }
{
    flags.iter().any(|&flag| flag)
}

/// Whether all three hold.
fn are_all(principal: bool, action: bool, resource: bool) -> bool
    ensures { IsTrue result ↔ IsTrue principal × IsTrue action × IsTrue resource }
{
    principal && action && resource
}

/// How many are meant.
fn count(flags: &[bool]) -> u64 {
    flags.iter().filter(|&&flag| flag).count() as u64
}

impl<'a> Picker<'a> {
    /// What a selection means in a world. `OutOfMemory` comes where there is no memory for it.
    pub fn of(
        alloc: Global,
        world: &'a World,
        selection: &'a Selection,
    ) -> Result<Picker<'a>, OutOfMemory>
        ensures world { IfOk result (λ picker. picker.world ≡ world.entry.now) }
        ensures selection { IfOk result (λ picker. picker.selection ≡ selection.entry.now) }
    {
        Ok(Picker {
            world,
            selection,
            principals: principals(alloc, world, selection)?,
            actions: actions(alloc, world, selection)?,
            resources: resources(alloc, world, selection)?,
        })
    }

    /// The selection.
    pub fn selection(&self) -> &'a Selection
        ensures { result.now ≡ self.now.selection }
    {
        self.selection
    }

    /// Whether some request is selected.
    fn picks_some(&self) -> bool
        ensures { IsTrue result ↔ SelectsSome self.now.selection self.now.world }
    {
        one_triple();
        let principal = has_some(self.principals.as_slice());
        let action = has_some(self.actions.as_slice());
        let resource = has_some(self.resources.as_slice());
        are_all(principal, action, resource)
    }

    /// Whether many pairs of a principal and a resource are meant: an eighth, rounded down, or more.
    pub fn is_broad(&self) -> bool {
        let pairs = self
            .world
            .principals()
            .saturating_mul(self.world.resources());
        let meant = count(self.principals.as_slice()).saturating_mul(count(
            self.resources.as_slice(),
        ));
        meant >= pairs / 8
    }
}

impl<'a> Asks for Picker<'a> {
    ghost world = { λ picker. picker.world };

    ghost asked = { λ picker cell. IsSelected picker.selection picker.world cell };

    #[inline]
    fn asks_row(&self, at: Position) -> bool {
        one_triple();
        self.principals[at.principal as usize] && self.actions[at.action as usize]
    }

    #[inline]
    fn asks(&self, at: Position) -> bool {
        one_triple();
        self.principals[at.principal as usize]
            && self.actions[at.action as usize]
            && self.resources[at.resource as usize]
    }
}

/// Whether some request of a world is selected, whatever its decision. `OutOfMemory` comes where there is no memory to find it.
pub fn selects_some(
    alloc: Global,
    world: &World,
    selection: &Selection,
) -> Result<bool, OutOfMemory>
    ensures { IfOk result (λ some. IsTrue some ↔ SelectsSome selection.now world.now) }
{
    Ok(Picker::of(alloc, world, selection)?.picks_some())
}
