// Which action elements listed statements have, so that it need not be sought out for each request whether they match its action.
ghost use Rattle.std.specs.Prelude.{◌≡◌, ◌↔◌, ℕ, IfOk, IfSome, IsTrue, List, Some};
ghost use Rattle.std.specs.List.{slice_get};
ghost use Rattle.iam_decision.specs.declared.scan.Standing.{Standing};
ghost use Rattle.iam_layers.specs.Cell.{IsAction};
ghost use Rattle.iam_match.specs.Statement.{ActionMatches};
ghost use Rattle.iam_world.specs.World.{WorldValue};
ghost use Rattle.iam_index.specs.Elements.{AreElements};
ghost use Rattle.iam_index.specs.Numbers.{AreAllNumbered, AreNumbered, AreNumbersAt};
ghost use Rattle.iam_index.specs.declared.lists.Listed.{Listed};
ghost use Rattle.iam_index.specs.declared.lists.Org.{Org};

use crate::elements::{Elements, acts};
use crate::lists::{Listed, Org};
use iam_layers::Standing;
use iam_text::OutOfMemory;
use std::alloc::Global;

/// The numbers of the action elements of these statements, of those that are kept.
fn numbers_of(
    alloc: Global,
    elements: &Elements<'_>,
    statements: &[Standing<'_>],
) -> Result<Vec<Option<usize>>, OutOfMemory>
    ensures { IfOk result (λ numbers. AreNumbered elements.now.elements.items statements.now numbers.items) }
{
    let mut numbers = Vec::with_capacity(alloc, statements.len())?;
    for standing in statements {
        numbers.push(elements.number(standing.statement.action()))?;
    }
    Ok(numbers)
}

/// Those of the statements of organisations.
pub fn org_numbers(
    alloc: Global,
    elements: &Elements<'_>,
    orgs: &[Org<'_>],
) -> Result<Vec<Vec<Option<usize>>>, OutOfMemory>
    ensures { IfOk result (λ known. AreAllNumbered (λ org. org.statements.items) elements.now.elements.items orgs.now known.items) }
{
    let mut known = Vec::with_capacity(alloc, orgs.len())?;
    for org in orgs {
        known.push(numbers_of(alloc, elements, org.statements.as_slice())?)?;
    }
    Ok(known)
}

/// Those of the statements of lists.
pub fn list_numbers(
    alloc: Global,
    elements: &Elements<'_>,
    lists: &[Listed<'_>],
) -> Result<Vec<Vec<Option<usize>>>, OutOfMemory>
    ensures { IfOk result (λ known. AreAllNumbered (λ listed. listed.statements.items) elements.now.elements.items lists.now known.items) }
{
    let mut known = Vec::with_capacity(alloc, lists.len())?;
    for listed in lists {
        known.push(numbers_of(alloc, elements, listed.statements.as_slice())?)?;
    }
    Ok(known)
}

/// The numbers of list k; none where they are not known.
#[inline(always)]
pub fn numbers_at(known: &[Vec<Option<usize>>], k: usize) -> &[Option<usize>]
    ensures { AreNumbersAt known.now k result.now }
{
    match known.get(k) {
        Some(numbers) => numbers.as_slice(),
        None => &[],
    }
}

/// Whether the action element of statement i of a list matches action a, which has this text.
#[inline(always)]
pub fn acts_at(
    elements: &Elements<'_>,
    numbers: &[Option<usize>],
    i: usize,
    standing: Standing<'_>,
    a: u64,
    action: &str,
) -> bool
    ensures { (world : WorldValue) (statements : List Standing) → AreElements world elements.now.elements.items
        → AreNumbered elements.now.elements.items statements numbers.now → slice_get statements i ≡ Some standing.entry → IsAction world a action.now
        → IsTrue result ↔ ActionMatches standing.entry.statement.now.action action.now }
{
    let told = told_at(elements, numbers, i, a);
    acts(told, standing.statement.action(), action)
}

/// What is told of action a by the element of statement i of a list.
#[inline(always)]
fn told_at(elements: &Elements<'_>, numbers: &[Option<usize>], i: usize, a: u64) -> Option<bool>
    ensures { (world : WorldValue) (statements : List Standing) (standing : Standing) (text : List ℕ) → AreElements world elements.now.elements.items
        → AreNumbered elements.now.elements.items statements numbers.now → slice_get statements i ≡ Some standing → IsAction world a text
        → IfSome result (λ act. IsTrue act ↔ ActionMatches standing.statement.now.action text) }
{
    let number = (*numbers.get(i)?)?;
    elements.act(number, a)
}
