// Statements that an index lists, with what is known of their resource elements.
use crate::given::is_free;
use crate::list_rows::{ListRows, row_at};
use iam_columns::Rows;
use iam_layers::{Standing, World};
use iam_unasked::Names;
use std::marker::Model;

/// Statements that an index lists, and of which resources their elements match what is known, and which keys the resources of the
/// world give, where that is known. A contract sees the world and the statements.
#[derive(Drop)]
pub struct Known<'a> {
    world: &'a World,
    statements: &'a [Standing<'a>],
    rows: &'a Rows<'a>,
    list: Option<&'a ListRows>,
    given: Option<&'a Names<'a>>,
}

/// What an index lists for all requests of a principal: the statements of its organisation, and its own; and the numbers of resources
/// that are alike to all of them.
#[derive(Drop)]
pub struct Theirs<'a> {
    pub org: Known<'a>,
    pub own: Known<'a>,
    pub alikes: &'a [Option<usize>],
}

impl<'a> Model for Known<'a> {
    ghost use Rattle.std.specs.Prelude.{IfSome};
    ghost use Rattle.iam_unasked.specs.Names.{HasNames};
    ghost use Rattle.iam_index.specs.Given.{given_keys};
    ghost use Rattle.iam_index.specs.Known.{KnownValue};
    ghost use Rattle.iam_columns.specs.Rows.{AreRows, AreStatementRows};

    ghost Value = { KnownValue };

    ghost view = { λ known. record { world = known.world.now; statements = known.statements.now } };

    ghost invariant = { λ known. AreRows known.world.now known.rows.now.rows.items
        × IfSome known.list (λ list. AreStatementRows known.rows.now.rows.items known.statements.now list.now.rows.items)
        × IfSome known.given (λ keys. HasNames keys.now (given_keys known.world.now)) };
}

impl<'a> Known<'a> {
    ghost use Rattle.std.specs.Prelude.{◌≡◌, IfSome, IsTrue};
    ghost use Rattle.std.specs.List.{slice_get};
    ghost use Rattle.iam_decision.specs.declared.scan.Standing.{Standing};
    ghost use Rattle.iam_columns.specs.Rows.{AreRows, AreStatementRows, TellsMatch};
    ghost use Rattle.iam_unasked.specs.Names.{HasNames};
    ghost use Rattle.iam_index.specs.Given.{IsFree, given_keys};

    /// Statements of a world, the rows of their resource elements, and the keys that its resources give, where these are known.
    pub(crate) fn of(
        world: &'a World,
        statements: &'a [Standing<'a>],
        rows: &'a Rows<'a>,
        list: Option<&'a ListRows>,
        given: Option<&'a Names<'a>>,
    ) -> Known<'a>
        requires rows { AreRows world.now rows.now.rows.items }
        requires list { IfSome list (λ list. AreStatementRows rows.now.rows.items statements.now list.now.rows.items) }
        requires given { IfSome given (λ keys. HasNames keys.now (given_keys world.now)) }
        ensures world { result.world ≡ world.entry.now }
        ensures statements { result.statements ≡ statements.entry.now }
    {
        Known {
            world,
            statements,
            rows,
            list,
            given,
        }
    }

    /// The statements.
    pub fn statements(&self) -> &'a [Standing<'a>]
        ensures { result.now ≡ self.now.statements }
    {
        self.statements
    }

    /// Whether the resource element of statement i matches resource r of the world, where it is known.
    #[inline(always)]
    pub fn matches(&self, i: usize, r: u64) -> Option<bool>
        ensures { (standing : Standing) → slice_get self.now.statements i ≡ Some standing
            → IfSome result (TellsMatch self.now.world standing.statement.now.resource r) }
    {
        self.rows.matches(row_at(self.list, i), r)
    }

    /// `true` only where the conditions of statement i ask for no key that a resource of the world gives: of the requests of a principal
    /// they hold in all that have the same derived keys, or in none.
    pub fn is_free(&self, i: usize) -> bool
        ensures { (standing : Standing) → slice_get self.now.statements i ≡ Some standing → IsTrue result
            → IsFree self.now.world standing.statement.now }
    {
        match self.statements.get(i) {
            Some(standing) => is_free(standing.statement, self.given),
            None => false,
        }
    }
}
