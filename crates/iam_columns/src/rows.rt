// Resource elements, and which resources of a world they match, or may match.
ghost use Rattle.std.specs.Prelude.{◌≡◌, ◌++◌, IfOk, IfSome, List, Option, Some};
ghost use Rattle.iam_element.specs.Reading.{ResourceElement};
ghost use Rattle.iam_match.specs.Wide.{Covers};
ghost use Rattle.iam_world.specs.World.{WorldValue};
ghost use Rattle.iam_columns.specs.Rows.{AreRows, AreStatementRows, HasRow, IsRow, Tell, TellsMatch, TellsMayMatch};
ghost use Rattle.iam_columns.specs.declared.rows.Row.{Row};

use iam_layers::{Standing, World};
use iam_match::{Fixed, Wide};
use iam_policy::Resources;
use iam_text::OutOfMemory;
use std::alloc::Global;
use std::collections::BTreeMap;

/// How many answers are kept at most.
const MOST_MATCHES: u64 = 16_777_216;

/// A resource element, and of each resource of a world whether it matches; of an element with variables, whether it may match in
/// some context.
#[derive(Drop)]
pub struct Row<'a> {
    pub element: &'a Resources,
    pub exact: bool,
    pub matches: Vec<bool>,
}

impl<'a> Row<'a> {
    /// Whether its element matches resource r, in whatever context, where it tells.
    #[inline(always)]
    pub fn tells(&self, r: u64) -> Option<bool>
        ensures { (world : WorldValue) → IsRow world self.now → IfSome result (TellsMatch world (Some self.now.element.now) r) }
    {
        let matched = *self.matches.get(r as usize)?;
        if matched && !self.exact {
            return None;
        }
        Some(matched)
    }
}

/// The rows of the resource elements of a world's statements, each distinct one once; those with variables are not compared. Where
/// there is no room or no memory for another, it has none; half of the room is left to those without variables.
#[derive(Drop)]
pub struct Rows<'a> {
    pub rows: Vec<Row<'a>>,
    // By the print of an element without variables its row.
    prints: BTreeMap<u64, usize>,
    // How many rows there is room for.
    most: usize,
}

impl<'a> Rows<'a> {
    /// None yet, for a world of so many resources.
    pub fn new(alloc: Global, resources: u64) -> Rows<'a>
        ensures { (world : WorldValue) → AreRows world result.rows.items }
    {
        Rows {
            rows: Vec::new(alloc),
            prints: BTreeMap::new(alloc),
            most: (MOST_MATCHES / resources.max(1)) as usize,
        }
    }

    /// The rows of the resource elements of these statements; behind those that are given none is known.
    pub fn of_statements(
        &mut self,
        alloc: Global,
        world: &World,
        statements: &[Standing<'a>],
    ) -> Vec<Option<usize>>
        ensures right { AreRows world.now self.old.rows.items → AreRows world.now self.new.rows.items }
        ensures more { (more : List Row) × (self.new.rows.items ≡ self.old.rows.items ++ more) }
        ensures rows { AreStatementRows self.new.rows.items statements.now result.items }
    {
        let mut rows = Vec::new(alloc);
        for standing in statements {
            let row = self.of_statement(alloc, world, *standing);
            match rows.push(row) {
                Ok(()) => (),
                Err(_) => return rows,
            }
        }
        rows
    }

    /// The row of the resource element of the statement.
    fn of_statement(
        &mut self,
        alloc: Global,
        world: &World,
        standing: Standing<'a>,
    ) -> Option<usize>
        ensures right { AreRows world.now self.old.rows.items → AreRows world.now self.new.rows.items }
        ensures more { (more : List Row) × (self.new.rows.items ≡ self.old.rows.items ++ more) }
        ensures row { IfSome result (λ n. HasRow self.new.rows.items n standing.entry.statement.now.resource) }
    {
        match standing.statement.resource() {
            Some(element) => self.number(alloc, world, element),
            None => None,
        }
    }

    /// The row of a resource element, which is made where it can be.
    fn number(&mut self, alloc: Global, world: &World, element: &'a Resources) -> Option<usize>
        ensures right { AreRows world.now self.old.rows.items → AreRows world.now self.new.rows.items }
        ensures more { (more : List Row) × (self.new.rows.items ≡ self.old.rows.items ++ more) }
        ensures row { IfSome result (λ n. HasRow self.new.rows.items n (Some element.entry.now)) }
    {
        let print = element.print();
        if let Some(number) = self.known(print, element) {
            return Some(number);
        }
        let count = self.rows.len();
        if count >= self.most {
            return None;
        }
        match row_of(alloc, world, element, count < self.most / 2) {
            Ok(Some(row)) => self.add(print, row),
            Ok(None) => None,
            Err(_) => None,
        }
    }

    /// The row that has the print, where it is that of the element.
    fn known(&self, print: u64, element: &Resources) -> Option<usize>
        ensures { IfSome result (λ n. HasRow self.now.rows.items n (Some element.now)) }
    {
        let number = *self.prints.get(&print)?;
        if number < self.rows.len() && self.rows[number].element.equals(element) {
            Some(number)
        } else {
            None
        }
    }

    /// Puts the row behind the others, where there is memory for it.
    fn add(&mut self, print: u64, row: Row<'a>) -> Option<usize>
        ensures right { (world : WorldValue) → IsRow world row.entry → AreRows world self.old.rows.items → AreRows world self.new.rows.items }
        ensures more { (more : List Row) × (self.new.rows.items ≡ self.old.rows.items ++ more) }
        ensures row { IfSome result (λ n. HasRow self.new.rows.items n (Some row.entry.element.now)) }
    {
        let number = self.rows.len();
        let exact = row.exact;
        match self.rows.push(row) {
            Ok(()) => (),
            Err(_) => return None,
        }
        note(&mut self.prints, exact, print, number);
        Some(number)
    }

    /// Whether the element of the row matches resource r, where both are known.
    #[inline(always)]
    pub fn matches(&self, row: Option<usize>, r: u64) -> Option<bool>
        ensures { (world : WorldValue) (element : Option ResourceElement) → AreRows world self.now.rows.items
            → IfSome row (λ n. HasRow self.now.rows.items n element) → IfSome result (TellsMatch world element r) }
    {
        let number = row?;
        let found = self.rows.get(number)?;
        found.tells(r)
    }
}

/// Notes the row that has the print, if it says which resources its element matches, and there is memory for it.
fn note(prints: &mut BTreeMap<u64, usize>, exact: bool, print: u64, row: usize) {
    if !exact {
        return;
    }
    match prints.insert(print, row) {
        Ok(_) => (),
        Err(_) => (),
    }
}

/// The row of a resource element; of one with variables only where `open` says so.
fn row_of<'a>(
    alloc: Global,
    world: &World,
    element: &'a Resources,
    open: bool,
) -> Result<Option<Row<'a>>, OutOfMemory>
    ensures { IfOk result (λ row. IfSome row (λ row. IsRow world.now row × (row.element.now ≡ element.entry.now))) }
{
    if let Some(fixed) = Fixed::of(alloc, element)? {
        let matches = matches_of(alloc, world, &fixed)?;
        return Ok(Some(Row {
            element,
            exact: true,
            matches,
        }));
    }
    if open {
        open_row(alloc, world, element)
    } else {
        Ok(None)
    }
}

/// The row of a resource element with variables; `None` where it is `NotResource`.
fn open_row<'a>(
    alloc: Global,
    world: &World,
    element: &'a Resources,
) -> Result<Option<Row<'a>>, OutOfMemory>
    ensures { IfOk result (λ row. IfSome row (λ row. IsRow world.now row × (row.element.now ≡ element.entry.now))) }
{
    match Wide::of(alloc, element)? {
        Some(wide) => Ok(Some(Row {
            element,
            exact: false,
            matches: open_matches(alloc, world, &wide)?,
        })),
        None => Ok(None),
    }
}

/// Of each resource of the world whether the element matches it.
fn matches_of(alloc: Global, world: &World, fixed: &Fixed<'_>) -> Result<Vec<bool>, OutOfMemory>
    ensures { IfOk result (λ matches. Tell (TellsMatch world.now (Some fixed.now)) matches.items) }
{
    let mut matches = Vec::with_capacity(alloc, world.resources() as usize)?;
    for r in 0..world.resources() {
        let matched = fixed.matches(world.resource_text(r));
        matches.push(matched)?;
    }
    Ok(matches)
}

/// Of each resource of the world whether an element that these patterns cover may match it.
fn open_matches(alloc: Global, world: &World, wide: &Wide) -> Result<Vec<bool>, OutOfMemory>
    ensures { (element : ResourceElement) → Covers wide.now element
        → IfOk result (λ matches. Tell (TellsMayMatch world.now (Some element)) matches.items) }
{
    let mut matches = Vec::with_capacity(alloc, world.resources() as usize)?;
    for r in 0..world.resources() {
        let matched = wide.may_match(world.resource_text(r));
        matches.push(matched)?;
    }
    Ok(matches)
}
