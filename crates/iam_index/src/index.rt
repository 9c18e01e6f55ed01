// The statements of a world that may match requests for its actions, found once for all engines of a run.
ghost use Rattle.std.specs.Prelude.{[], ◌∷◌, ◌≡◌, ◌++◌, ◌<◌, IfOk, List, OnOk, map, ℕ, IsTrue, length};
ghost use Rattle.iam_decision.specs.Code.Scan.{placed_value};
ghost use Rattle.iam_decision.specs.Living.{AreCandidates};
ghost use Rattle.iam_decision.specs.Matched.{Placed, placed};
ghost use Rattle.iam_world.specs.World.{WorldValue};
ghost use Rattle.iam_decision.specs.declared.scan.Standing.{Standing};
ghost use Rattle.iam_layers.specs.Cell.{IsAction};
ghost use Rattle.iam_index.specs.Elements.{AreElements};
ghost use Rattle.iam_index.specs.Numbers.{AreNumbered};
ghost use Rattle.iam_index.specs.Index.{Adds, AddsAt, AllAct, AreCandidatesOf, AreResourceLists, IsOrg, ListsOrg, ListsRequester, ListsResource, IsIndex};

use crate::elements::Elements;
use crate::given::{given_keys, is_free};
use crate::known::{Known, Theirs};
use crate::list_rows::{ListRows, are_told, list_at, org_rows, requester_rows};
use crate::lists::{Listed, Org, Orgs, ResourceLists, org_lists, requester_lists, resource_lists};
use crate::numbers::{acts_at, list_numbers, numbers_at, org_numbers};
use crate::parts::Parts;
use iam_columns::{Columns, Rows};
use iam_layers::{Frame, Place, Standing, World};
use iam_text::OutOfMemory;
use iam_unasked::{Names, Statement};
use std::alloc::Global;
use std::marker::Model;

/// The statements of a world that may match a request for some action of the world, by whom their policies are had, and what the
/// action elements of its statements match. It is built once, and lent to all engines of a run; a contract sees the world.
#[derive(Drop)]
pub struct Index<'a> {
    world: &'a World,
    parts: Parts<'a>,
    elements: Elements<'a>,
    orgs: Orgs<'a>,
    // Those of each principal, and those that stand with resources.
    requesters: Vec<Listed<'a>>,
    resources: ResourceLists<'a>,
    // The action elements of all these, by number.
    org_numbers: Vec<Vec<Option<usize>>>,
    requester_numbers: Vec<Vec<Option<usize>>>,
    resource_numbers: Vec<Vec<Option<usize>>>,
    // Which resources the resource elements match, and the rows of those of the listed statements.
    rows: Rows<'a>,
    org_rows: Vec<ListRows>,
    requester_rows: Vec<ListRows>,
    // Which resources the rows tell apart.
    columns: Columns,
    // The keys that the resources give.
    given: Option<Names<'a>>,
}

impl<'a> Model for Index<'a> {
    ghost Value = { WorldValue };

    ghost view = { λ index. index.world.now };

    ghost invariant = { λ index. IsIndex index.world.now index.parts index.elements.elements.items index.orgs.orgs.items index.orgs.numbers.items
        index.requesters.items index.resources.lists.items index.resources.numbers.items index.org_numbers.items index.requester_numbers.items
        index.resource_numbers.items index.rows.rows.items index.org_rows.items
        index.requester_rows.items index.columns.numbers.items index.given };
}

impl<'a> Index<'a> {
    ghost use Rattle.iam_decision.specs.Applicable.{ApplicableValue, frame_of};
    ghost use Rattle.iam_world.specs.World.{world_cells};
    ghost use Rattle.iam_layers.specs.Cell.{IsAction, IsApplicableAt};
    ghost use Rattle.iam_index.specs.Elements.{AreElements};
    ghost use Rattle.iam_index.specs.Given.{IsFree};
    ghost use Rattle.iam_index.specs.Known.{AreAlike};

    /// The index of a world.
    pub fn build(alloc: Global, world: &'a World) -> Result<Index<'a>, OutOfMemory>
        ensures { IfOk result (λ index. index ≡ world.entry.now) }
    {
        let mut index = Index::sparse(alloc, world)?;
        index.fill(alloc);
        Ok(index)
    }

    /// The index of a world of which few requests may be asked: resource elements are looked at where they are asked for.
    pub fn sparse(alloc: Global, world: &'a World) -> Result<Index<'a>, OutOfMemory>
        ensures { IfOk result (λ index. index ≡ world.entry.now) }
    {
        let parts = Parts::of(alloc, world)?;
        let mut elements = Elements::new(alloc, world)?;
        let orgs = org_lists(alloc, world, &mut elements)?;
        let requesters = requester_lists(alloc, world, &mut elements)?;
        let resources = resource_lists(alloc, world, &mut elements)?;
        Ok(Index {
            world,
            parts,
            elements,
            orgs,
            requesters,
            resources,
            org_numbers: Vec::new(alloc),
            requester_numbers: Vec::new(alloc),
            resource_numbers: Vec::new(alloc),
            rows: Rows::new(alloc, world.resources()),
            org_rows: Vec::new(alloc),
            requester_rows: Vec::new(alloc),
            columns: Columns::none(alloc),
            given: None,
        })
    }

    /// The index of a world of which requests are asked one by one: whether an action element matches an action is looked up.
    pub fn numbered(alloc: Global, world: &'a World) -> Result<Index<'a>, OutOfMemory>
        ensures { IfOk result (λ index. index ≡ world.entry.now) }
    {
        let mut index = Index::sparse(alloc, world)?;
        index.number(alloc)?;
        Ok(index)
    }

    /// Numbers the action elements of the listed statements.
    fn number(&mut self, alloc: Global) -> Result<(), OutOfMemory>
        ensures { self.new ≡ self.old }
    {
        let elements = &self.elements;
        let orgs = org_numbers(alloc, elements, self.orgs.orgs.as_slice())?;
        let requesters = list_numbers(alloc, elements, self.requesters.as_slice())?;
        let resources = list_numbers(alloc, elements, self.resources.lists.as_slice())?;
        self.org_numbers = orgs;
        self.requester_numbers = requesters;
        self.resource_numbers = resources;
        Ok(())
    }

    /// Finds which resources the resource elements match, which of them are alike, and the keys that they give. Where memory is
    /// refused, fewer are known.
    fn fill(&mut self, alloc: Global)
        ensures { self.new ≡ self.old }
    {
        let world = self.world;
        let mut rows = Rows::new(alloc, world.resources());
        let orgs = org_rows(alloc, world, &mut rows, self.orgs.orgs.as_slice());
        let requesters = requester_rows(alloc, world, &mut rows, self.requesters.as_slice());
        self.columns = Columns::of(alloc, world, &rows);
        self.given = given_keys(alloc, world);
        self.rows = rows;
        self.org_rows = orgs;
        self.requester_rows = requesters;
    }

    /// The world that it is of.
    pub fn world(&self) -> &'a World
        ensures { result.now ≡ self.now }
    {
        self.world
    }

    /// The places of the candidates of a cell, which has to be below `cells()` of the world, in place order: of the statements that
    /// apply to its request, those whose action element matches its action.
    pub fn candidates(&self, alloc: Global, cell: u64) -> Result<Vec<Place>, OutOfMemory>
        requires { cell < world_cells self.now }
        ensures { IfOk result (λ places. AreCandidatesOf self.now cell places.items) }
    {
        let (p, a, r) = self.world.triple(cell);
        let candidates = self.candidates_at(alloc, p, a, r)?;
        places_of(alloc, candidates.as_slice())
    }

    /// The candidates of principal p's request for action a on resource r: of the statements that apply those whose action element
    /// matches the action.
    pub fn candidates_at(
        &self,
        alloc: Global,
        p: u64,
        a: u64,
        r: u64,
    ) -> Result<Vec<Standing<'a>>, OutOfMemory>
        requires principal { p < length self.now.principals }
        requires action { a < length self.now.actions }
        requires resource { r < length self.now.resources }
        ensures are { (action : List ℕ) (applicable : ApplicableValue) → IsAction self.now a action → IsApplicableAt self.now p r applicable
            → IfOk result (λ candidates. AreCandidates (action ∷ []) (placed applicable) (map placed_value candidates.items)) }
        ensures act { (action : List ℕ) → IsAction self.now a action → IfOk result (λ candidates. AllAct action candidates.items) }
    {
        let mut candidates = Vec::new(alloc);
        self.add_org(&mut candidates, p, a)?;
        self.add_resource(&mut candidates, r, a)?;
        self.add_requester(&mut candidates, p, a)?;
        Ok(candidates)
    }

    /// Adds the candidates for action a among the statements of the organisation that binds principal p.
    fn add_org(&self, candidates: &mut Vec<Standing<'a>>, p: u64, a: u64) -> Result<(), OutOfMemory>
        requires principal { p < length self.now.principals }
        requires action { a < length self.now.actions }
        ensures { OnOk result ((listed : List Standing) × ListsOrg self.now p listed × AddsAt self.now a listed candidates.old.items candidates.new.items) }
    {
        let number = self.orgs.numbers[p as usize];
        let statements = self.orgs.orgs[number].statements.as_slice();
        let numbers = numbers_at(self.org_numbers.as_slice(), number);
        let action = self.world.action_text(a);
        add_candidates(candidates, &self.elements, statements, numbers, a, action)
    }

    /// Adds those among the statements that stand with resource r.
    fn add_resource(
        &self,
        candidates: &mut Vec<Standing<'a>>,
        r: u64,
        a: u64,
    ) -> Result<(), OutOfMemory>
        requires action { a < length self.now.actions }
        requires resource { r < length self.now.resources }
        ensures { OnOk result ((listed : List Standing) × ListsResource self.now r listed × AddsAt self.now a listed candidates.old.items candidates.new.items) }
    {
        let number = self.resources.number(r);
        let statements = self.resources.statements(number);
        let numbers = numbers_at(self.resource_numbers.as_slice(), number);
        let action = self.world.action_text(a);
        add_candidates(candidates, &self.elements, statements, numbers, a, action)
    }

    /// Adds those among the statements of principal p.
    fn add_requester(
        &self,
        candidates: &mut Vec<Standing<'a>>,
        p: u64,
        a: u64,
    ) -> Result<(), OutOfMemory>
        requires principal { p < length self.now.principals }
        requires action { a < length self.now.actions }
        ensures { OnOk result ((listed : List Standing) × ListsRequester self.now p listed × AddsAt self.now a listed candidates.old.items candidates.new.items) }
    {
        let statements = self.requesters[p as usize].statements.as_slice();
        let numbers = numbers_at(self.requester_numbers.as_slice(), p as usize);
        let action = self.world.action_text(a);
        add_candidates(candidates, &self.elements, statements, numbers, a, action)
    }

    /// What is listed for all requests of principal p. Resources are alike where it is known of each of its statements which of them it
    /// matches.
    pub fn theirs(&'a self, p: u64) -> Theirs<'a>
        requires { p < length self.now.principals }
        ensures worlds { (result.org.world ≡ self.entry.now) × (result.own.world ≡ self.entry.now) }
        ensures org { ListsOrg self.entry.now p result.org.statements }
        ensures own { ListsRequester self.entry.now p result.own.statements }
        ensures alikes { AreAlike self.entry.now
            (map placed_value result.org.statements ++ map placed_value result.own.statements) result.alikes.now }
    {
        let number = self.orgs.numbers[p as usize];
        let org = self.orgs.orgs[number].statements.as_slice();
        let own = self.requesters[p as usize].statements.as_slice();
        let org_rows = list_at(self.org_rows.as_slice(), number);
        let own_rows = list_at(self.requester_rows.as_slice(), p as usize);
        let told = are_told(org_rows, own_rows);
        Theirs {
            org: Known::of(self.world, org, &self.rows, org_rows, self.given.as_ref()),
            own: Known::of(self.world, own, &self.rows, own_rows, self.given.as_ref()),
            alikes: self.columns.numbers_where(told),
        }
    }

    /// The keys that its world gives to requests.
    pub fn parts(&self) -> &Parts<'a>
        ensures { result.now ≡ self.now }
    {
        &self.parts
    }

    /// What the action elements of the world's statements match.
    pub fn elements(&self) -> &Elements<'a>
        ensures { AreElements self.now result.now.elements.items }
    {
        &self.elements
    }

    /// The organisations, each with its statements.
    pub(crate) fn orgs(&self) -> &[Org<'a>] {
        self.orgs.orgs.as_slice()
    }

    /// The statements of each principal.
    pub(crate) fn requesters(&self) -> &[Listed<'a>] {
        self.requesters.as_slice()
    }

    /// `true` only where the conditions of the statement ask for no key that a resource of the world gives.
    pub fn is_free(&self, statement: &Statement) -> bool
        ensures { IsTrue result → IsFree self.now statement.now }
    {
        is_free(statement, self.given.as_ref())
    }

    /// What a decision on principal p's requests for resource r asks beside the statements, each below the number of its kind.
    pub fn frame(&self, p: u64, r: u64) -> Frame
        requires principal { p < length self.now.principals }
        requires resource { r < length self.now.resources }
        ensures { (applicable : ApplicableValue) → IsApplicableAt self.now p r applicable → result ≡ frame_of applicable }
    {
        self.world.frame_with(p, r, self.org(p).levels)
    }

    /// The organisation that binds principal p.
    fn org(&self, p: u64) -> &Org<'a>
        requires { p < length self.now.principals }
        ensures { IsOrg self.now p result.now }
    {
        let number = self.orgs.numbers[p as usize];
        &self.orgs.orgs[number]
    }

    /// The statements that stand with resource r.
    pub fn resource_statements(&self, r: u64) -> &[Standing<'a>]
        requires { r < length self.now.resources }
        ensures { ListsResource self.now r result.now }
    {
        self.resources.statements(self.resources.number(r))
    }

    /// The statements that stand with resources, list by list.
    pub fn resource_lists(&self) -> &ResourceLists<'a>
        ensures are { AreResourceLists self.now result.now.lists.items result.now.numbers.items }
        ensures count { length result.now.numbers.items ≡ length self.now.resources }
    {
        &self.resources
    }
}

/// Adds those of the statements, whose action elements have these numbers, whose action element matches action a, which has this text.
fn add_candidates<'a>(
    candidates: &mut Vec<Standing<'a>>,
    elements: &Elements<'_>,
    statements: &[Standing<'a>],
    numbers: &[Option<usize>],
    a: u64,
    action: &str,
) -> Result<(), OutOfMemory>
    ensures { (world : WorldValue) → AreElements world elements.now.elements.items → AreNumbered elements.now.elements.items statements.now numbers.now
        → IsAction world a action.now → OnOk result (Adds action.now statements.now candidates.old.items candidates.new.items) }
{
    for (i, &standing) in statements.iter().enumerate() {
        if acts_at(elements, numbers, i, standing, a, action) {
            candidates.push(standing)?;
        }
    }
    Ok(())
}

/// The places of these statements.
fn places_of(alloc: Global, statements: &[Standing<'_>]) -> Result<Vec<Place>, OutOfMemory>
    ensures { IfOk result (λ places. places.items ≡ map (λ s. s.place) statements.now) }
{
    let mut places = Vec::with_capacity(alloc, statements.len())?;
    for standing in statements {
        places.push(standing.place)?;
    }
    Ok(places)
}
