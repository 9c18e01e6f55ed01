// Texts that stand twice in a world, and the texts of a world.
ghost use Rattle.std.specs.Prelude.{◌≡◌, ◌<◌, ℕ, IfOk, MatchOption, map, Some};
ghost use Rattle.iam_changes.specs.Twice.{IsApart, IsFirstTwice, StandOnce, StandsBefore, axis_texts, axis_word, twice_text};

use iam_layers::World;
use iam_text::OutOfMemory;
use std::alloc::Global;
use std::collections::HashSet;
use std::fmt::{self, Display, Formatter, Write};

/// What a request is made of.
#[derive(Clone, Copy, Debug, PartialEq, Eq)]
pub enum Axis {
    Principals,
    Actions,
    Resources,
}

impl Axis {
    /// The member of a world that has them.
    pub fn word(self) -> &'static str
        ensures { result.now ≡ axis_word self }
    {
        match self {
            Axis::Principals => "principals",
            Axis::Actions => "actions",
            Axis::Resources => "resources",
        }
    }
}

/// Where a text stands for the second time.
#[derive(Clone, Copy, Debug, PartialEq, Eq)]
pub struct Twice {
    pub axis: Axis,
    pub number: u64,
}

impl Display for Twice {
    ghost output = { λ twice. Some (twice_text twice) };

    fn fmt<W: Write>(&self, f: &mut Formatter<W>) -> Result<(), fmt::Error> {
        let word = self.axis.word();
        let number = self.number;
        write!(f, "{word}/{number}")
    }
}

fn principal_texts(alloc: Global, world: &World) -> Result<Vec<&str>, OutOfMemory>
    ensures { IfOk result (λ texts. map (λ text. text.now) texts.items ≡ axis_texts Axis.Principals world.entry.now) }
{
    let mut texts = Vec::new(alloc);
    for p in 0..world.principals() {
        texts.push(world.principal_text(p))?;
    }
    Ok(texts)
}

fn action_texts(alloc: Global, world: &World) -> Result<Vec<&str>, OutOfMemory>
    ensures { IfOk result (λ texts. map (λ text. text.now) texts.items ≡ axis_texts Axis.Actions world.entry.now) }
{
    let mut texts = Vec::new(alloc);
    for a in 0..world.actions() {
        texts.push(world.action_text(a))?;
    }
    Ok(texts)
}

fn resource_texts(alloc: Global, world: &World) -> Result<Vec<&str>, OutOfMemory>
    ensures { IfOk result (λ texts. map (λ text. text.now) texts.items ≡ axis_texts Axis.Resources world.entry.now) }
{
    let mut texts = Vec::new(alloc);
    for r in 0..world.resources() {
        texts.push(world.resource_text(r))?;
    }
    Ok(texts)
}

/// The texts of a world's principals, actions or resources, in their order.
pub fn texts_of(alloc: Global, world: &World, axis: Axis) -> Result<Vec<&str>, OutOfMemory>
    ensures { IfOk result (λ texts. map (λ text. text.now) texts.items ≡ axis_texts axis world.entry.now) }
{
    match axis {
        Axis::Principals => principal_texts(alloc, world),
        Axis::Actions => action_texts(alloc, world),
        Axis::Resources => resource_texts(alloc, world),
    }
}

/// The first place at which a text stands again.
fn first_again(alloc: Global, texts: &[&str]) -> Result<Option<usize>, OutOfMemory>
    ensures { IfOk result (λ found. MatchOption found (StandOnce (map (λ text. text.now) texts.now))
        (λ n. StandsBefore (map (λ text. text.now) texts.now) n × ((m : ℕ) → m < n → ¬ StandsBefore (map (λ text. text.now) texts.now) m))) }
{
    let mut seen = HashSet::new(alloc);
    for (n, text) in texts.iter().enumerate() {
        if !seen.insert(*text)? {
            return Ok(Some(n));
        }
    }
    Ok(None)
}

/// The first place at which a text of an axis stands again.
fn twice_on(alloc: Global, world: &World, axis: Axis) -> Result<Option<Twice>, OutOfMemory>
    ensures { IfOk result (λ found. MatchOption found (StandOnce (axis_texts axis world.now))
        (λ twice. (twice.axis ≡ axis) × StandsBefore (axis_texts axis world.now) twice.number
        × ((n : ℕ) → n < twice.number → ¬ StandsBefore (axis_texts axis world.now) n))) }
{
    let texts = texts_of(alloc, world, axis)?;
    match first_again(alloc, texts.as_slice())? {
        Some(n) => Ok(Some(Twice {
            axis,
            number: n as u64,
        })),
        None => Ok(None),
    }
}

/// The first place at which a text stands again among the principals, else among the actions, else among the resources of a
/// world. Where there is none, its requests can be told apart. The only error is want of memory.
pub fn first_twice(alloc: Global, world: &World) -> Result<Option<Twice>, OutOfMemory>
    ensures { IfOk result (λ found. MatchOption found (IsApart world.now) (IsFirstTwice world.now)) }
{
    if let Some(twice) = twice_on(alloc, world, Axis::Principals)? {
        return Ok(Some(twice));
    }
    if let Some(twice) = twice_on(alloc, world, Axis::Actions)? {
        return Ok(Some(twice));
    }
    twice_on(alloc, world, Axis::Resources)
}
