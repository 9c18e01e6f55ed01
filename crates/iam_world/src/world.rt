// Reading a world, from its bytes.
ghost use Rattle.std.specs.Prelude.{◌≡◌, ◌≢◌, ◌≤◌, ℕ, List, length, map, IfOk, IfErr, IfSome, option_map, string_bytes};
ghost use Rattle.std.specs.List.{AllZip, AllByRecursion};
ghost use Rattle.serde_json.specs.View.{view};
ghost use Rattle.iam_shape.specs.Texts.{AreFirstPlaces};
ghost use Rattle.iam_shape.specs.Few.{HasFewLists, HasFewLevels};
ghost use Rattle.iam_shape.specs.Lent.{principal_of};
ghost use Rattle.iam_shape.specs.LentWorld.{world_of};
ghost use Rattle.iam_world_context.specs.Clean.{HasContexts};
ghost use Rattle.iam_world.specs.Code.ViewFault.{IsFirstViewFault};
ghost use Rattle.iam_world.specs.Code.Documents.{HasPolicies};
ghost use Rattle.iam_world.specs.Reads.{IsWorld, ReadsWorld};
ghost use Rattle.iam_world.specs.WorldFault.{IsFirstWorldFault, IsJson, IsOverLimits, IsRequesterAt, ViewHasFault, cell_count, documents, statement_total};
ghost use Rattle.iam_world.specs.declared.fault.WorldFault.{WorldFault};
ghost use Rattle.iam_world.specs.declared.fault.WorldFault.TheVariants as w;
ghost use Rattle.iam_world.specs.World.{WorldValue};
ghost use Rattle.iam_world.specs.Invariants.{IsSized};

use crate::documents::{Policies, read_documents};
use crate::fault::WorldFault;
use crate::limits::{Budget, sizes};
use crate::names::check_names;
use crate::parts::{Account, Principal, Resource, accounts, principals, read_actions, resources};
use iam_context::{Part, Requester};
use iam_shape::{WorldView, few_documents, one_view, walk};
use iam_text::OutOfMemory;
use iam_world_context::{Contexts, read_contexts};
use serde_json::Value;
use std::alloc::Global;
use std::collections::HashMap;
use std::marker::Model;
use std::mem;

/// How many bytes a world document may have.
const MOST_BYTES: usize = 8_388_608;

/// A world as its document gives it: accounts, principals with their policies, actions and resources.
#[derive(Debug, Drop)]
pub struct WorldParts {
    moment: u64,
    accounts: Vec<Account>,
    // The number of each account by its id.
    numbers: HashMap<String, usize>,
    principals: Vec<Principal>,
    actions: Vec<String>,
    resources: Vec<Resource>,
    context: Part,
    cells: u64,
    statements: usize,
}

impl Model for WorldParts {
    ghost Value = { WorldValue };

    ghost view = { λ w. record {
      moment = w.moment;
      accounts = w.accounts.items;
      principals = w.principals.items;
      actions = map string_bytes w.actions.items;
      resources = w.resources.items;
      context = w.context.items;
    } };

    ghost invariant = { λ w. IsSized (record {
      moment = w.moment;
      accounts = w.accounts.items;
      principals = w.principals.items;
      actions = map string_bytes w.actions.items;
      resources = w.resources.items;
      context = w.context.items;
    }) w.cells w.statements w.numbers };
}

/// The JSON value of bytes of which there are not too many; they are let go once it is made.
fn parse(alloc: Global, bytes: Vec<u8>) -> Result<Value, WorldFault>
    ensures ok { IfOk result (λ value. (length bytes.items ≤ 8388608) × IsJson bytes.items (view value)) }
    ensures fault { IfErr result (λ fault. fault ≢ w.OutOfMemory → IsFirstWorldFault bytes.items fault) }
{
    if bytes.len() > MOST_BYTES {
        return Err(WorldFault::TooLarge);
    }
    match Value::from_slice(alloc, bytes.as_slice()) {
        Ok(value) => Ok(value),
        Err(error) if error.is_memory() => Err(WorldFault::OutOfMemory),
        Err(_) => Err(WorldFault::NotJson),
    }
}

/// The number of each account by its id.
fn numbers_of(world: WorldView<'_>) -> HashMap<String, usize>
    ensures { AreFirstPlaces result (map (λ account. account.id) (world_of world.entry).accounts) }
{
    let accounts = world.accounts;
    accounts.ids
}

/// The world of a document without a fault, and of what was read of it.
fn build(
    alloc: Global,
    world: WorldView<'_>,
    requesters: Vec<Requester>,
    contexts: Contexts,
    policies: Policies,
    sizes: (u64, usize),
) -> Result<WorldParts, OutOfMemory>
    requires requesters { AllZip IsRequesterAt (map principal_of world.principals.items) requesters.items }
    requires contexts { HasContexts (world_of world) contexts }
    requires policies { HasPolicies world policies }
    requires small { HasFewLists (world_of world) }
    requires moment { world.moment ≤ 253402300799 }
    requires cells { sizes.0 ≡ cell_count (world_of world) }
    requires statements { sizes.1 ≡ statement_total (documents (world_of world)) }
    requires within { ¬ IsOverLimits (world_of world) }
    ensures { IfOk result (ReadsWorld (world_of world.entry)) }
{
    let accounts = accounts(alloc, world.accounts.views.as_slice(), policies.org)?;
    let principals = principals(
        alloc,
        requesters,
        policies.identity,
        policies.boundary,
        policies.session,
        contexts.principals,
    )?;
    let actions = read_actions(alloc, world.actions.as_slice())?;
    let resources = resources(
        alloc,
        world.resources.as_slice(),
        policies.resource,
        policies.control,
        contexts.resources,
    )?;
    let moment = world.moment;
    let numbers = numbers_of(world);
    Ok(WorldParts {
        moment,
        accounts,
        numbers,
        principals,
        actions,
        resources,
        context: contexts.world,
        cells: sizes.0,
        statements: sizes.1,
    })
}

/// The world that a document of the right shape says, or its first fault.
fn read_view(alloc: Global, world: WorldView<'_>) -> Result<WorldParts, WorldFault>
    requires small { HasFewLists (world_of world) }
    requires moment { world.moment ≤ 253402300799 }
    ensures ok { IfOk result (λ parts. ReadsWorld (world_of world.entry) parts
        × ((fault : WorldFault) → ¬ ViewHasFault (world_of world.entry) fault)) }
    ensures fault { IfErr result (λ fault. fault ≢ w.OutOfMemory → IsFirstViewFault (world_of world.entry) fault) }
{
    let requesters = check_names(alloc, &world)?;
    let contexts = read_contexts(alloc, &world)?;
    let mut budget = Budget::new();
    let policies = read_documents(alloc, &world, &mut budget)?;
    match sizes(&world, &budget) {
        Some(sizes) => Ok(build(alloc, world, requesters, contexts, policies, sizes)?),
        None => Err(WorldFault::TooLarge),
    }
}

/// The world of a document, or its first fault.
fn read_value(alloc: Global, value: &Value) -> Result<WorldParts, WorldFault>
    requires { (bytes : List ℕ) × (length bytes ≤ 8388608) × IsJson bytes (view value.now) }
    ensures ok { (bytes : List ℕ) → length bytes ≤ 8388608 → IsJson bytes (view value.now) → IfOk result (IsWorld bytes) }
    ensures fault { (bytes : List ℕ) → length bytes ≤ 8388608 → IsJson bytes (view value.now)
        → IfErr result (λ fault. fault ≢ w.OutOfMemory → IsFirstWorldFault bytes fault) }
{
    let world = walk(alloc, value)?;
    one_view();
    few_documents();
    read_view(alloc, world)
}

impl WorldParts {
    ghost use Rattle.iam_world.specs.Invariants.{CanJoin, HasFewPolicies};
    ghost use Rattle.iam_world.specs.World.{account_with, world_cells, world_statements};

    /// The world of a JSON document, or the first fault of its bytes: `TooLarge` for over 8,388,608 of them, then 1
    /// to 8 by number, each at its first place, then `TooLarge` for over 16,777,216 cells or 4,096 statements.
    /// `OutOfMemory` can come at any point. The bytes are let go once they are parsed.
    pub fn read(alloc: Global, bytes: Vec<u8>) -> Result<WorldParts, WorldFault>
        ensures ok { IfOk result (IsWorld bytes.items) }
        ensures fault { IfErr result (λ fault. fault ≢ w.OutOfMemory → IsFirstWorldFault bytes.items fault) }
    {
        let value = parse(alloc, bytes)?;
        read_value(alloc, &value)
    }

    /// As [`WorldParts::read`], for a run that soon ends: what was parsed is never let go, also after a fault.
    pub fn read_leaking(alloc: Global, bytes: Vec<u8>) -> Result<WorldParts, WorldFault>
        ensures ok { IfOk result (IsWorld bytes.items) }
        ensures fault { IfErr result (λ fault. fault ≢ w.OutOfMemory → IsFirstWorldFault bytes.items fault) }
    {
        let value = parse(alloc, bytes)?;
        let parts = read_value(alloc, &value);
        mem::forget(value);
        parts
    }

    /// The moment, in seconds from 1970-01-01T00:00:00Z, at most 253,402,300,799: the end of the year 9999.
    pub fn moment(&self) -> u64
        ensures value { result ≡ self.now.moment }
        ensures most { result ≤ 253402300799 }
    {
        self.moment
    }

    /// The keys that the world gives to the context of each request. They can be joined with those of a principal
    /// and of a resource.
    pub fn context(&self) -> &Part
        ensures value { result.now.items ≡ self.now.context }
        ensures join { CanJoin self.now }
    {
        &self.context
    }

    /// The principals, in order; each list of their policies has fewer than 2^32 members.
    pub fn principals(&self) -> &[Principal]
        ensures value { result.now ≡ self.now.principals }
        ensures few { AllByRecursion HasFewPolicies self.now.principals }
    {
        self.principals.as_slice()
    }

    /// The texts of the actions, in order.
    pub fn actions(&self) -> &[String]
        ensures { map string_bytes result.now ≡ self.now.actions }
    {
        self.actions.as_slice()
    }

    /// The resources, in order; each has fewer than 2^32 levels of resource control policies, and fewer than 2^32
    /// policies in each.
    pub fn resources(&self) -> &[Resource]
        ensures value { result.now ≡ self.now.resources }
        ensures few { AllByRecursion (λ resource. HasFewLevels resource.control) self.now.resources }
    {
        self.resources.as_slice()
    }

    /// How many cells the matrix has: one for each principal, action and resource; at most 16,777,216.
    pub fn cells(&self) -> u64
        ensures value { result ≡ world_cells self.now }
        ensures few { result ≤ 16777216 }
    {
        self.cells
    }

    /// How many statements the policies have, at most 4,096.
    pub fn statements(&self) -> u64
        ensures value { result ≡ world_statements self.now }
        ensures few { result ≤ 4096 }
    {
        self.statements as u64
    }

    /// The account with this id; it has fewer than 2^32 levels of organisation policies, and fewer than 2^32 policies
    /// in each.
    pub fn account(&self, id: &str) -> Option<&Account>
        ensures value { option_map (λ account. account.now) result ≡ account_with id.now self.now }
        ensures few { IfSome result (λ account. HasFewLevels account.now.org) }
    {
        match self.numbers.get(id) {
            Some(number) => self.accounts.as_slice().get(*number),
            None => None,
        }
    }
}
