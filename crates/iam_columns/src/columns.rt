// Resources of a world that differ in nothing but their ARN and their policy, and that no row tells apart.
ghost use Rattle.std.specs.Prelude.{◌≡◌, ◌++◌, ◌<◌, ℕ, IfOk, IfSome, IsTrue, List, Some, is_some, length, true};
ghost use Rattle.std.specs.List.{slice_get};
ghost use Rattle.iam_world.specs.World.{WorldValue};
ghost use Rattle.iam_columns.specs.Slots.{Keeps};
ghost use Rattle.iam_columns.specs.Columns.{AllMatchBoth, AreColumns, HasFirst, MatchesBoth};
ghost use Rattle.iam_columns.specs.Rows.{AreRows, IsRow};
ghost use Rattle.iam_columns.specs.declared.rows.Row.{Row};

use crate::rows::{Row, Rows};
use iam_layers::World;
use iam_text::OutOfMemory;
use std::alloc::Global;
use std::collections::BTreeMap;

/// Resources that differ in nothing but their ARN and their policy are looked for in so many groups at most.
const MOST_GROUPS: usize = 16;

/// The numbers of a world's resources, from 0 on: those of one number are alike. Some have none.
#[derive(Drop)]
pub struct Columns {
    pub numbers: Vec<Option<usize>>,
}

/// The first resource of each number, and by the print of its column the number.
#[derive(Drop)]
struct Firsts {
    firsts: Vec<u64>,
    prints: BTreeMap<u64, usize>,
}

impl Columns {
    /// No resource has a number.
    pub fn none(alloc: Global) -> Columns
        ensures { (world : WorldValue) (rows : List Row) → AreColumns world rows result.numbers.items }
    {
        Columns {
            numbers: Vec::new(alloc),
        }
    }

    /// Numbers those that no row tells apart; where memory is refused, none.
    pub fn of(alloc: Global, world: &World, rows: &Rows<'_>) -> Columns
        ensures { AreRows world.now rows.now.rows.items → AreColumns world.now rows.now.rows.items result.numbers.items }
    {
        match numbers_of(alloc, world, rows.rows.as_slice()) {
            Ok(numbers) => Columns { numbers },
            Err(_) => Columns::none(alloc),
        }
    }

    /// The numbers, or none where it is not so.
    pub fn numbers_where(&self, so: bool) -> &[Option<usize>]
        ensures { (r n : ℕ) → Keeps result.now r n → IsTrue so × Keeps self.now.numbers.items r n }
    {
        if so { self.numbers.as_slice() } else { &[] }
    }
}

impl Firsts {
    /// The number of resource r, whose column has this print: that of the first one that has the print, if both are alike, or a new
    /// one; none without a print.
    fn number(
        &mut self,
        world: &World,
        rows: &[Row<'_>],
        print: Option<u64>,
        r: u64,
    ) -> Result<Option<usize>, OutOfMemory>
        requires { r < length world.now.resources }
        ensures more { IfOk result (λ _. (more : List ℕ) × (self.new.firsts.items ≡ self.old.firsts.items ++ more)) }
        ensures first { IfOk result (λ found. AreRows world.now rows.now
            → IfSome found (λ n. HasFirst world.now rows.now self.new.firsts.items n r)) }
    {
        let Some(print) = print else {
            return Ok(None);
        };
        match self.prints.get(&print) {
            Some(number) => Ok(self.known(world, rows, *number, r)),
            None => Ok(Some(self.add(print, r)?)),
        }
    }

    /// The number, where its first resource and resource r are alike.
    fn known(&self, world: &World, rows: &[Row<'_>], number: usize, r: u64) -> Option<usize>
        requires { r < length world.now.resources }
        ensures { AreRows world.now rows.now → IfSome result (λ n. HasFirst world.now rows.now self.now.firsts.items n r) }
    {
        let first = *self.firsts.get(number)?;
        if first < world.resources()
            && world.is_same_but_policy(first, r)
            && tell_same(rows, first, r)
        {
            Some(number)
        } else {
            None
        }
    }

    /// A new number, of which resource r is the first one.
    fn add(&mut self, print: u64, r: u64) -> Result<usize, OutOfMemory>
        ensures more { IfOk result (λ _. (more : List ℕ) × (self.new.firsts.items ≡ self.old.firsts.items ++ more)) }
        ensures first { IfOk result (λ n. slice_get self.new.firsts.items n ≡ Some r) }
    {
        let number = self.firsts.len();
        self.firsts.push(r)?;
        self.prints.insert(print, number)?;
        Ok(number)
    }
}

/// The numbers of the resources of the world, by what these rows tell of them.
fn numbers_of(
    alloc: Global,
    world: &World,
    rows: &[Row<'_>],
) -> Result<Vec<Option<usize>>, OutOfMemory>
    ensures { IfOk result (λ numbers. AreRows world.now rows.now → AreColumns world.now rows.now numbers.items) }
{
    let prints = prints_of(alloc, world, rows)?;
    let mut firsts = Firsts {
        firsts: Vec::new(alloc),
        prints: BTreeMap::new(alloc),
    };
    let mut numbers = Vec::with_capacity(alloc, world.resources() as usize)?;
    for r in 0..world.resources() {
        let print = print_at(prints.as_slice(), r);
        let number = firsts.number(world, rows, print, r)?;
        numbers.push(number)?;
    }
    Ok(numbers)
}

/// Of each resource a print of its group, and of which rows match it; none where it is of no group, or a row with variables may
/// match it.
fn prints_of(
    alloc: Global,
    world: &World,
    rows: &[Row<'_>],
) -> Result<Vec<Option<u64>>, OutOfMemory> {
    let mut groups = Vec::new(alloc);
    let mut prints = Vec::with_capacity(alloc, world.resources() as usize)?;
    for r in 0..world.resources() {
        prints.push(group_of(world, &mut groups, r)?)?;
    }
    let mut mark: u64 = 1;
    for row in rows {
        mark = mark
            .wrapping_mul(0x5851_F42D_4C95_7F2D)
            .wrapping_add(0x1405_7B7E_F767_814F);
        add_mark(&mut prints, row, mark ^ (mark >> 32));
    }
    Ok(prints)
}

/// The group of resource r: that of a first one from which it differs in nothing but its ARN and its policy, or a new one.
fn group_of(world: &World, groups: &mut Vec<u64>, r: u64) -> Result<Option<u64>, OutOfMemory>
    requires { r < length world.now.resources }
{
    for i in 0..groups.len() {
        let first = groups[i];
        if first < world.resources() && world.is_same_but_policy(first, r) {
            return Ok(Some(i as u64));
        }
    }
    let group = groups.len();
    if group >= MOST_GROUPS || !world.is_same_but_policy(r, r) {
        return Ok(None);
    }
    groups.push(r)?;
    Ok(Some(group as u64))
}

/// Puts the mark of a row into the prints of those that it matches.
fn add_mark(prints: &mut [Option<u64>], row: &Row<'_>, mark: u64) {
    for r in 0..prints.len().min(row.matches.len()) {
        if row.matches[r] {
            let print = prints[r];
            prints[r] = marked(print, row.exact, mark);
        }
    }
}

/// The print of a resource that one more row matches, or may match.
fn marked(print: Option<u64>, exact: bool, mark: u64) -> Option<u64>
    ensures { exact ≡ true → is_some result ≡ is_some print }
{
    if exact { Some(print? ^ mark) } else { None }
}

/// The print of resource r.
fn print_at(prints: &[Option<u64>], r: u64) -> Option<u64> {
    *prints.get(r as usize)?
}

/// `true` only where each row tells the same of both resources.
fn tell_same(rows: &[Row<'_>], one: u64, other: u64) -> bool
    ensures { (world : WorldValue) → AreRows world rows.now → IsTrue result → AllMatchBoth world rows.now one other }
{
    for row in rows {
        if !tells_same(row, one, other) {
            return false;
        }
    }
    true
}

/// `true` only where the element of the row matches both resources or neither.
fn tells_same(row: &Row<'_>, one: u64, other: u64) -> bool
    ensures { (world : WorldValue) → IsRow world row.now → IsTrue result → MatchesBoth world (Some row.now.element.now) one other }
{
    match (row.tells(one), row.tells(other)) {
        (Some(first), Some(second)) => first == second,
        _ => false,
    }
}
