// The rows of the resource elements of the statements that an index lists.
ghost use Rattle.std.specs.Prelude.{◌≡◌, ◌++◌, ℕ, IfSome, IsTrue, List, Some, length};
ghost use Rattle.std.specs.List.{slice_get};
ghost use Rattle.iam_decision.specs.declared.scan.Standing.{Standing};
ghost use Rattle.iam_columns.specs.Slots.{Keeps};
ghost use Rattle.iam_columns.specs.Rows.{AreRows, AreStatementRows, HasRow};
ghost use Rattle.iam_columns.specs.declared.rows.Row.{Row};
ghost use Rattle.iam_index.specs.Rows.{AllHaveRows, AreListRows, IsListRows};
ghost use Rattle.iam_index.specs.declared.lists.Listed.{Listed};
ghost use Rattle.iam_index.specs.declared.lists.Org.{Org};

use crate::lists::{Listed, Org};
use iam_columns::Rows;
use iam_layers::{Standing, World};
use std::alloc::Global;

/// The rows of the resource elements of the statements of a list, behind which none is known; and whether each statement has one.
#[derive(Drop)]
pub struct ListRows {
    pub rows: Vec<Option<usize>>,
    pub told: bool,
}

/// The row of statement i of a list.
#[inline(always)]
pub fn row_at(list: Option<&ListRows>, i: usize) -> Option<usize>
    ensures { (statements : List Standing) (rows : List Row) (standing : Standing) → slice_get statements i ≡ Some standing
        → IfSome list.entry (λ list. AreStatementRows rows statements list.now.rows.items)
        → IfSome result (λ n. HasRow rows n standing.statement.now.resource) }
{
    *list?.rows.get(i)?
}

/// The rows of the statements of list i, where they are known.
pub fn list_at(lists: &[ListRows], i: usize) -> Option<&ListRows>
    ensures { IfSome result (λ list. slice_get lists.now i ≡ Some list.now) }
{
    lists.get(i)
}

/// Whether each statement of both lists is known to have a row.
pub fn are_told(one: Option<&ListRows>, other: Option<&ListRows>) -> bool
    ensures one { (statements : List Standing) (rows : List Row) → IfSome one.entry (λ list. IsListRows rows statements list.now)
        → IsTrue result → AllHaveRows rows statements }
    ensures other { (statements : List Standing) (rows : List Row) → IfSome other.entry (λ list. IsListRows rows statements list.now)
        → IsTrue result → AllHaveRows rows statements }
{
    is_told(one) && is_told(other)
}

/// Whether each statement of the list is known to have a row.
fn is_told(list: Option<&ListRows>) -> bool
    ensures { (statements : List Standing) (rows : List Row) → IfSome list.entry (λ list. IsListRows rows statements list.now)
        → IsTrue result → AllHaveRows rows statements }
{
    match list {
        Some(list) => list.told,
        None => false,
    }
}

/// Whether there is a row for each of so many statements.
fn have_rows(rows: &[Option<usize>], count: usize) -> bool
    ensures { (statements : List Standing) (known : List Row) → count ≡ length statements → AreStatementRows known statements rows.now
        → IsTrue result → AllHaveRows known statements }
{
    for i in 0..count {
        if !has_row(rows, i) {
            return false;
        }
    }
    true
}

/// Whether there is a row for statement i.
fn has_row(rows: &[Option<usize>], i: usize) -> bool
    ensures { IsTrue result → (n : ℕ) × Keeps rows.now i n }
{
    match rows.get(i) {
        Some(row) => row.is_some(),
        None => false,
    }
}

/// The rows of these statements.
fn list_rows<'a>(
    alloc: Global,
    world: &World,
    rows: &mut Rows<'a>,
    statements: &[Standing<'a>],
) -> ListRows
    ensures right { AreRows world.now rows.old.rows.items → AreRows world.now rows.new.rows.items }
    ensures more { (more : List Row) × (rows.new.rows.items ≡ rows.old.rows.items ++ more) }
    ensures are { IsListRows rows.new.rows.items statements.now result }
{
    let numbers = rows.of_statements(alloc, world, statements);
    let told = have_rows(numbers.as_slice(), statements.len());
    ListRows {
        rows: numbers,
        told,
    }
}

/// The rows of the statements of organisations; behind those that are given none is known.
pub fn org_rows<'a>(
    alloc: Global,
    world: &World,
    rows: &mut Rows<'a>,
    orgs: &[Org<'a>],
) -> Vec<ListRows>
    ensures right { AreRows world.now rows.old.rows.items → AreRows world.now rows.new.rows.items }
    ensures more { (more : List Row) × (rows.new.rows.items ≡ rows.old.rows.items ++ more) }
    ensures are { AreListRows (λ org. org.statements.items) rows.new.rows.items orgs.now result.items }
{
    let mut known = Vec::new(alloc);
    for org in orgs {
        let of_org = list_rows(alloc, world, rows, org.statements.as_slice());
        match known.push(of_org) {
            Ok(()) => (),
            Err(_) => return known,
        }
    }
    known
}

/// The rows of the statements of principals; behind those that are given none is known.
pub fn requester_rows<'a>(
    alloc: Global,
    world: &World,
    rows: &mut Rows<'a>,
    lists: &[Listed<'a>],
) -> Vec<ListRows>
    ensures right { AreRows world.now rows.old.rows.items → AreRows world.now rows.new.rows.items }
    ensures more { (more : List Row) × (rows.new.rows.items ≡ rows.old.rows.items ++ more) }
    ensures are { AreListRows (λ listed. listed.statements.items) rows.new.rows.items lists.now result.items }
{
    let mut known = Vec::new(alloc);
    for listed in lists {
        let of_list = list_rows(alloc, world, rows, listed.statements.as_slice());
        match known.push(of_list) {
            Ok(()) => (),
            Err(_) => return known,
        }
    }
    known
}
