// What the requests of pairs share, found before any cell is decided, for engines to begin with.
ghost use Rattle.std.specs.Prelude.{◌≡◌, ◌++◌, ◌/◌, ◌%◌, ◌<◌, All, List, IfOk, IfSome, OnOk, Some, length};
ghost use Rattle.std.specs.List.{slice_get};
ghost use Rattle.iam_decision.specs.Living.{SharedValue};
ghost use Rattle.iam_world.specs.World.{WorldValue};
ghost use Rattle.iam_living.specs.Keys.{AreKeys};
ghost use Rattle.iam_living.specs.Survey.{IsSharedBy, AreOf, AreClassesOf};

use crate::keys::{Keys, no_keys, shared_by};
use iam_columns::{empty_slots, keep, kept, slot_of};
use iam_index::Index;
use iam_layers::{Shared, World};
use iam_text::OutOfMemory;
use std::alloc::Global;
use std::marker::Model;

/// How many statements a survey keeps, and one class for each surveyor more at most.
const MOST_STATEMENTS: usize = 2_097_152;

/// A world of more pairs is not surveyed: what is found of each would take too much room.
const MOST_PAIRS: u64 = 131_072;

/// Nor is one in which fewer statements are tried, one on one resource: that is done sooner than workers start.
const LEAST_TRIALS: u64 = 32_768;

/// The classes that were found last, by the prints of what they hang on.
const PRINTS: u64 = 4_096;

/// What the requests of pairs that follow one another share; what several share stands once where its print tells. Pairs of a
/// principal and a resource are numbered by principals, then by resources. A contract sees the world.
#[derive(Drop)]
pub struct Block<'a> {
    world: &'a World,
    from: u64,
    classes: Vec<Shared<'a>>,
    // The class of each pair.
    numbers: Vec<usize>,
}

impl<'a> Model for Block<'a> {
    ghost Value = { WorldValue };

    ghost view = { λ block. block.world.now };

    ghost invariant = { λ block. AreClassesOf block.world.now block.from block.classes.items block.numbers.items };
}

impl<'a> Block<'a> {
    /// What the requests of the pair of this number share, where the block has it.
    fn shared(&self, pair: u64) -> Option<&Shared<'a>>
        ensures { IfSome result (λ shared. IsSharedBy self.now pair shared.now) }
    {
        if pair < self.from {
            return None;
        }
        let number = *self.numbers.get((pair - self.from) as usize)?;
        let shared = self.classes.get(number)?;
        Some(shared)
    }
}

/// Finds what the requests of pairs share, block by block. A contract sees the world.
#[derive(Drop)]
pub struct Surveyor<'a> {
    index: &'a Index<'a>,
    // The derived keys that were made last, of one principal.
    keys: Vec<Keys>,
    // By a print the class that was last found with it: a hint.
    prints: Vec<Option<usize>>,
    // How many further statements may be kept.
    room: usize,
}

impl<'a> Model for Surveyor<'a> {
    ghost Value = { WorldValue };

    ghost view = { λ surveyor. surveyor.index.now };

    ghost invariant = { λ surveyor. All (AreKeys surveyor.index.now) surveyor.keys.items };
}

impl<'a> Surveyor<'a> {
    /// A surveyor of the world of an index, one of so many that share the bound on what is kept.
    pub fn new(
        alloc: Global,
        index: &'a Index<'a>,
        surveyors: u32,
    ) -> Result<Surveyor<'a>, OutOfMemory>
        ensures { IfOk result (λ surveyor. surveyor ≡ index.entry.now) }
    {
        Ok(Surveyor {
            index,
            keys: no_keys(alloc),
            prints: empty_slots(alloc, PRINTS)?,
            room: MOST_STATEMENTS / surveyors.max(1) as usize,
        })
    }

    /// What the requests of so many pairs from this one on share. Pairs that there are not, and those for which there is no room,
    /// are left out.
    pub fn block(&mut self, alloc: Global, from: u64, count: u64) -> Result<Block<'a>, OutOfMemory>
        ensures block { IfOk result (λ block. block ≡ self.old) }
        ensures same { self.new ≡ self.old }
    {
        block_from(
            alloc,
            self.index,
            &mut self.keys,
            &mut self.prints,
            &mut self.room,
            from,
            count,
        )
    }
}

/// What the requests of so many pairs from this one on share, as far as there is room.
fn block_from<'a>(
    alloc: Global,
    index: &'a Index<'a>,
    keys: &mut Vec<Keys>,
    prints: &mut Vec<Option<usize>>,
    room: &mut usize,
    from: u64,
    count: u64,
) -> Result<Block<'a>, OutOfMemory>
    requires { All (AreKeys index.now) keys.old.items }
    ensures keys { All (AreKeys index.entry.now) keys.new.items }
    ensures block { IfOk result (λ block. block ≡ index.entry.now) }
{
    let mut classes = Vec::new(alloc);
    let mut numbers = Vec::new(alloc);
    for pair in from..from.saturating_add(count) {
        if *room == 0 {
            break;
        }
        let Some(shared) = shared_at(alloc, index, keys, pair)? else {
            break;
        };
        let number = class_among(&mut classes, prints, room, shared)?;
        numbers.push(number)?;
    }
    Ok(Block {
        world: index.world(),
        from,
        classes,
        numbers,
    })
}

/// The number of principal p and resource r, where it has 64 bits.
fn pair_of(world: &World, p: u64, r: u64) -> Option<u64>
    requires { r < length world.now.resources }
    ensures principal { IfSome result (λ pair. pair / length world.now.resources ≡ p) }
    ensures resource { IfSome result (λ pair. pair % length world.now.resources ≡ r) }
{
    let pair = p.checked_mul(world.resources())?.checked_add(r)?;
    Some(pair)
}

/// What the requests of the pair of this number share, where there is such a pair.
fn shared_at<'a>(
    alloc: Global,
    index: &'a Index<'a>,
    keys: &mut Vec<Keys>,
    pair: u64,
) -> Result<Option<Shared<'a>>, OutOfMemory>
    requires { All (AreKeys index.now) keys.old.items }
    ensures keys { All (AreKeys index.entry.now) keys.new.items }
    ensures shared { IfOk result (λ found. IfSome found (IsSharedBy index.entry.now pair)) }
{
    let world = index.world();
    let resources = world.resources();
    if resources == 0 || pair / resources >= world.principals() {
        return Ok(None);
    }
    let shared = shared_by(alloc, index, keys, pair / resources, pair % resources)?;
    Ok(Some(shared))
}

/// The number of what requests share among these, where it is put behind them if it is not found.
fn class_among<'a>(
    classes: &mut Vec<Shared<'a>>,
    prints: &mut Vec<Option<usize>>,
    room: &mut usize,
    shared: Shared<'a>,
) -> Result<usize, OutOfMemory>
    ensures more { OnOk result ((more : List SharedValue) × (classes.new.items ≡ classes.old.items ++ more)) }
    ensures class { IfOk result (λ n. slice_get classes.new.items n ≡ Some shared.entry) }
{
    let slot = slot_of(0, shared.print(), PRINTS as usize);
    if let Some(number) = class_at(classes.as_slice(), prints.as_slice(), slot, &shared) {
        return Ok(number);
    }
    let number = classes.len();
    *room = room.saturating_sub(shared.living().len().saturating_add(1));
    classes.push(shared)?;
    keep(prints, slot, number);
    Ok(number)
}

/// The number that a slot has, if it is that of what these requests share.
fn class_at(
    classes: &[Shared<'_>],
    prints: &[Option<usize>],
    slot: u64,
    shared: &Shared<'_>,
) -> Option<usize>
    ensures { IfSome result (λ n. slice_get classes.now n ≡ Some shared.now) }
{
    let number = kept(prints, slot)?;
    if number < classes.len() && classes[number].equals(shared) {
        Some(number)
    } else {
        None
    }
}

/// What the requests of the pairs of a world share, as far as it was found. A contract sees the world.
#[derive(Drop)]
pub struct Survey<'a> {
    index: &'a Index<'a>,
    world: &'a World,
    // How many pairs a block has.
    length: u64,
    blocks: Vec<Block<'a>>,
}

impl<'a> Model for Survey<'a> {
    ghost Value = { WorldValue };

    ghost view = { λ survey. survey.world.now };

    ghost invariant = { λ survey. AreOf survey.world.now survey.blocks.items × (survey.index.now ≡ survey.world.now) };
}

impl<'a> Survey<'a> {
    ghost use Rattle.iam_layers.specs.Cell.{IsSharedAt};

    /// The survey that these blocks of the world of an index make, of so many pairs each, in order; without blocks nothing was
    /// found.
    pub fn of(index: &'a Index<'a>, length: u64, blocks: Vec<Block<'a>>) -> Survey<'a>
        requires { AreOf index.now blocks.items }
        ensures { result ≡ index.entry.now }
    {
        Survey {
            index,
            world: index.world(),
            length,
            blocks,
        }
    }

    /// The index of the world whose pairs they are.
    pub fn index(&self) -> &'a Index<'a>
        ensures { result.now ≡ self.now }
    {
        self.index
    }

    /// What the requests of principal p for resource r share, where it was found.
    pub fn shared(&self, p: u64, r: u64) -> Option<&Shared<'a>>
        requires { r < length self.now.resources }
        ensures { IfSome result (λ shared. IsSharedAt self.now p r shared.now) }
    {
        let pair = pair_of(self.world, p, r)?;
        let block = self.blocks.get(pair.checked_div(self.length)? as usize)?;
        block.shared(pair)
    }
}

/// Whether so many workers had better begin with a survey: where the index lists more statements of one principal than a worker's
/// share of those of all principals, so that one worker would be busy with it while the others have ended.
pub fn wants_survey<'a>(index: &'a Index<'a>, workers: u32) -> bool {
    let world = index.world();
    let pairs = world.principals().saturating_mul(world.resources());
    if workers < 2 || pairs == 0 || world.actions() == 0 || pairs > MOST_PAIRS {
        return false;
    }
    let mut most: usize = 0;
    let mut all: usize = 0;
    for p in 0..world.principals() {
        let own = index.theirs(p).own.statements().len();
        most = most.max(own);
        all = all.saturating_add(own);
    }
    let trials = (all as u64).saturating_mul(world.resources());
    trials >= LEAST_TRIALS && most.saturating_mul(workers as usize) > all
}
