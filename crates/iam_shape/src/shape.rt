// The walk over a world.
ghost use Rattle.std.specs.Prelude.{◌≡◌, ◌≢◌, ◌≤◌, [], ◌∷◌, ℕ, List, None, Some, map, option_map, IfOk, IfErr};
ghost use Rattle.std.specs.List.{AllZip};
ghost use Rattle.serde_json.specs.Data.{Data};
ghost use Rattle.serde_json.specs.View.{view};
ghost use Rattle.iam_shape.specs.Code.Walk.{Walks, head_checks, tail_checks, action_checks};
ghost use Rattle.iam_shape.specs.Lent.{account_of, principal_of, resource_of};
ghost use Rattle.iam_shape.specs.LentWorld.{world_of};
ghost use Rattle.iam_shape.specs.Shape.{Check, IsShapeFault, account_checks, each, first_bad, has_only, list_at, list_checks, member, number_at, shape_checks, principal_checks, resource_checks};
ghost use Rattle.iam_shape.specs.View.{HasListOf, IsAccountView, IsView, IsPrincipalView, IsResourceView};
ghost use Rattle.iam_shape.specs.declared.fault.ShapeFault.TheVariants as s;

use crate::accounts::walk_accounts;
use crate::context::is_context_or_none;
use crate::fault::ShapeFault;
use crate::look::{list_at, member, number_at};
use crate::path::{Name, Path};
use crate::principals::walk_principal;
use crate::resources::walk_resource;
use crate::view::{Accounts, PrincipalView, ResourceView, WorldView};
use iam_json::has_unknown;
use serde_json::Value;
use std::alloc::Global;

/// The latest moment: 9999-12-31T23:59:59Z.
const LATEST: u64 = 253_402_300_799;

/// What stands in a list of the document.
trait Part<'v>: Sized + Drop {
    ghost checks: { ℕ → Data → List Check };

    ghost says: { Data → Self → Type 0 };

    /// Walks the value with this number; the path of the first place that is wrong.
    fn walk(i: usize, value: &'v Value) -> Result<Self, Path>
        ensures { Walks (checks i (view value.entry.now)) (says (view value.entry.now)) result };
}

impl<'v> Part<'v> for PrincipalView<'v> {
    ghost checks = { principal_checks };

    ghost says = { λ d principal. IsPrincipalView d (principal_of principal) };

    fn walk(i: usize, principal: &'v Value) -> Result<PrincipalView<'v>, Path> {
        walk_principal(i, principal)
    }
}

impl<'v> Part<'v> for &'v str {
    ghost use Rattle.serde_json.specs.Find.{as_str};

    ghost checks = { action_checks };

    ghost says = { λ d action. as_str d ≡ Some action.now };

    fn walk(i: usize, action: &'v Value) -> Result<&'v str, Path> {
        match action.as_str() {
            Some(text) => Ok(text),
            None => Err(Path::Item(Name::Actions, i)),
        }
    }
}

impl<'v> Part<'v> for ResourceView<'v> {
    ghost checks = { resource_checks };

    ghost says = { λ d resource. IsResourceView d (resource_of resource) };

    fn walk(i: usize, resource: &'v Value) -> Result<ResourceView<'v>, Path> {
        walk_resource(i, resource)
    }
}

/// Walks the values of a list.
fn walk_list<'v, P: Part<'v>>(alloc: Global, values: &'v [Value]) -> Result<Vec<P>, ShapeFault>
    ensures ok { IfOk result (λ found. (first_bad (each P.checks 0 (map view values.entry.now)) ≡ None)
        × AllZip P.says (map view values.entry.now) found.items) }
    ensures path { IfErr result (λ fault. fault ≢ s.OutOfMemory
        → IsShapeFault (each P.checks 0 (map view values.entry.now)) fault) }
{
    let mut found = Vec::with_capacity(alloc, values.len())?;
    for (i, value) in values.iter().enumerate() {
        match P::walk(i, value) {
            Ok(part) => found.push(part)?,
            Err(path) => return Err(ShapeFault::At(path)),
        }
    }
    Ok(found)
}

/// Walks the list that stands under this name.
fn walk_list_at<'v, P: Part<'v>>(
    alloc: Global,
    world: &'v Value,
    list: Name,
) -> Result<Vec<P>, ShapeFault>
    ensures ok { IfOk result (λ found.
        (first_bad (list_checks (Path.Member list) (each P.checks 0) (list_at list (view world.entry.now))) ≡ None)
        × HasListOf P.says list (view world.entry.now) found.items) }
    ensures path { IfErr result (λ fault. fault ≢ s.OutOfMemory
        → IsShapeFault (list_checks (Path.Member list) (each P.checks 0) (list_at list (view world.entry.now))) fault) }
{
    match list_at(world, list) {
        Some(values) => walk_list(alloc, values),
        None => Err(ShapeFault::At(Path::Member(list))),
    }
}

/// Walks the accounts of a document.
fn walk_accounts_of(alloc: Global, world: &Value) -> Result<Accounts<'_>, ShapeFault>
    ensures ok { IfOk result (λ found.
        (first_bad (list_checks (Path.Member Name.Accounts) (λ accounts. each (account_checks accounts) 0 accounts)
        (list_at Name.Accounts (view world.entry.now))) ≡ None)
        × HasListOf IsAccountView Name.Accounts (view world.entry.now) (map account_of found.views.items)) }
    ensures path { IfErr result (λ fault. fault ≢ s.OutOfMemory
        → IsShapeFault (list_checks (Path.Member Name.Accounts) (λ accounts. each (account_checks accounts) 0 accounts)
        (list_at Name.Accounts (view world.entry.now))) fault) }
{
    match list_at(world, Name::Accounts) {
        Some(accounts) => walk_accounts(alloc, accounts),
        None => Err(ShapeFault::At(Path::Member(Name::Accounts))),
    }
}

/// The moment of a document.
fn walk_head(world: &Value) -> Result<u64, Path>
    ensures { Walks (head_checks (view world.now))
        (λ moment. (number_at Name.Moment (view world.now) ≡ Some moment) × (moment ≤ 253402300799)) result }
{
    if !world.is_object() {
        return Err(Path::Root);
    }
    match number_at(world, Name::Moment) {
        Some(moment) if moment <= LATEST => Ok(moment),
        _ => Err(Path::Member(Name::Moment)),
    }
}

/// Whether the document has no member of another name.
fn has_only_members(world: &Value) -> bool
    ensures { result ≡ has_only (Name.Moment ∷ (Name.Accounts ∷ (Name.Principals ∷ (Name.Actions ∷ (Name.Resources
        ∷ (Name.Context ∷ [])))))) (view world.now) }
{
    let names = [
        Name::Moment.as_str(),
        Name::Accounts.as_str(),
        Name::Principals.as_str(),
        Name::Actions.as_str(),
        Name::Resources.as_str(),
        Name::Context.as_str(),
    ];
    !has_unknown(world, &names)
}

/// The context of a document that has no other members.
fn walk_tail(world: &Value) -> Result<Option<&Value>, Path>
    ensures { Walks (tail_checks (view world.entry.now))
        (λ context. option_map (λ v. view v.now) context ≡ member Name.Context (view world.entry.now)) result }
{
    let context = member(world, Name::Context);
    if !is_context_or_none(context) {
        return Err(Path::Member(Name::Context));
    }
    if !has_only_members(world) {
        return Err(Path::Root);
    }
    Ok(context)
}

/// Walks a document: what it says, or the path of the first place that is wrong.
pub fn walk(alloc: Global, world: &Value) -> Result<WorldView<'_>, ShapeFault>
    ensures ok { IfOk result (λ found. (first_bad (shape_checks (view world.entry.now)) ≡ None)
        × IsView (view world.entry.now) (world_of found)) }
    ensures moment { IfOk result (λ found. found.moment ≤ 253402300799) }
    ensures path { IfErr result (λ fault. fault ≢ s.OutOfMemory
        → IsShapeFault (shape_checks (view world.entry.now)) fault) }
{
    let moment = walk_head(world)?;
    let accounts = walk_accounts_of(alloc, world)?;
    let principals = walk_list_at(alloc, world, Name::Principals)?;
    let actions = walk_list_at(alloc, world, Name::Actions)?;
    let resources = walk_list_at(alloc, world, Name::Resources)?;
    let context = walk_tail(world)?;
    Ok(WorldView {
        moment,
        accounts,
        principals,
        actions,
        resources,
        context,
    })
}
