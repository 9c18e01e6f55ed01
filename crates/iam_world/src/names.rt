// The requesters, actions, resources and accounts of a world.
ghost use Rattle.std.specs.Prelude.{◌≡◌, ◌≢◌, ◌||◌, ◌==◌, map, not, IfOk, IfErr, IsTrue, OnOk, MatchOption, option_map};
ghost use Rattle.std.specs.Char.{is_ascii_alphanumeric};
ghost use Rattle.std.specs.List.{AllZip, list_all, position_from};
ghost use Rattle.iam_world.specs.Code.ViewFault.{FindsFirst, IsClearBelow, IsFaultAt, IsFirstViewFault};
ghost use Rattle.iam_shape.specs.Texts.{has_text};
ghost use Rattle.iam_shape.specs.Lent.{principal_of};
ghost use Rattle.iam_shape.specs.LentWorld.{world_of};
ghost use Rattle.iam_shape.specs.First.{IsFirstAt, with_paths};
ghost use Rattle.iam_world.specs.WorldFault.{IsNoRequester, IsOfUnknownAccount, IsRequesterAt, is_action, is_action_name, is_resource, owners};
ghost use Rattle.iam_world.specs.declared.fault.WorldFault.TheVariants as w;

use crate::fault::WorldFault;
use iam_context::{Requester, one_requester};
use iam_shape::{Accounts, Name, Path, PrincipalView, ResourceView, WorldView};
use iam_text::{OutOfMemory, has_six_parts, is_label};
use std::alloc::Global;

/// The requester that the principal is.
fn requester_of(
    alloc: Global,
    principal: &PrincipalView<'_>,
) -> Result<Option<Requester>, OutOfMemory>
    ensures { IfOk result (λ found. MatchOption found (IsNoRequester (principal_of principal.now))
        (IsRequesterAt (principal_of principal.now))) }
{
    match principal.session_name {
        Some(session) => Requester::role(alloc, principal.arn, session),
        None => Requester::user(alloc, principal.arn),
    }
}

/// The requesters of the principals, in order.
fn read_requesters(
    alloc: Global,
    principals: &[PrincipalView<'_>],
) -> Result<Vec<Requester>, WorldFault>
    ensures ok { IfOk result (λ requesters. AllZip IsRequesterAt (map principal_of principals.now) requesters.items) }
    ensures fault { IfErr result (λ fault. fault ≢ w.OutOfMemory
        → IsFaultAt w.BadRequester
        (IsFirstAt IsNoRequester (with_paths (Path.Item Name.Principals) 0 (map principal_of principals.now))) fault) }
{
    let mut requesters = Vec::new(alloc);
    for (i, principal) in principals.iter().enumerate() {
        let Some(requester) = requester_of(alloc, principal)? else {
            return Err(WorldFault::BadRequester(Path::Item(Name::Principals, i)));
        };
        requesters.push(requester)?;
    }
    Ok(requesters)
}

/// `prefix:name`.
fn is_action(text: &str) -> bool
    ensures { result ≡ is_action text.now }
{
    match text.split_once(':') {
        Some((prefix, name)) => is_label(prefix) && is_action_name(name),
        None => false,
    }
}

fn is_action_name(text: &str) -> bool
    ensures { result ≡ is_action_name text.now }
{
    !text.is_empty() && all_name_characters(text.as_bytes())
}

fn all_name_characters(text: &[u8]) -> bool
    ensures { result ≡ list_all (λ c. is_ascii_alphanumeric c || c == 45 || c == 95 || c == 46) text.now }
{
    text.iter().all(|&c| c.is_ascii_alphanumeric() || c == b'-' || c == b'_' || c == b'.')
}

/// `*`, or an ARN.
fn is_resource(text: &str) -> bool
    ensures { result ≡ is_resource text.now }
{
    text == "*" || text.starts_with("arn:") && has_six_parts(text)
}

fn first_no_action(actions: &[&str]) -> Option<usize>
    ensures { result ≡ position_from (λ action. not (is_action action.now)) 0 actions.now }
{
    actions.iter().position(|&action| !is_action(action))
}

fn first_no_resource(resources: &[ResourceView<'_>]) -> Option<usize>
    ensures { result ≡ position_from (λ resource. not (is_resource resource.arn.now)) 0 resources.now }
{
    resources
        .iter()
        .position(|resource| !is_resource(resource.arn))
}

fn first_unknown_user(requesters: &[Requester], accounts: &Accounts<'_>) -> Option<usize>
    ensures { result ≡ position_from (λ requester. not (has_text accounts.now.ids requester.account)) 0
        requesters.now }
{
    requesters.iter().position(|requester| !accounts.ids.contains_key(requester.account()))
}

fn first_unknown_owner(resources: &[ResourceView<'_>], accounts: &Accounts<'_>) -> Option<usize>
    ensures { result ≡ position_from (λ resource. not (has_text accounts.now.ids resource.account.now)) 0
        resources.now }
{
    resources
        .iter()
        .position(|resource| !accounts.ids.contains_key(resource.account))
}

fn at(list: Name, number: Option<usize>) -> Option<Path>
    ensures { result ≡ option_map (Path.Item list) number }
{
    Some(Path::Item(list, number?))
}

/// The first text that is no action.
fn bad_action(world: &WorldView<'_>) -> Option<Path>
    ensures { FindsFirst (λ text. ¬ IsTrue (is_action text)) (with_paths (Path.Item Name.Actions) 0 (world_of world.now).actions) result }
{
    at(Name::Actions, first_no_action(world.actions.as_slice()))
}

/// The first resource that is neither `*` nor an ARN.
fn bad_resource(world: &WorldView<'_>) -> Option<Path>
    ensures { FindsFirst (λ resource. ¬ IsTrue (is_resource resource.arn))
        (with_paths (Path.Item Name.Resources) 0 (world_of world.now).resources) result }
{
    at(
        Name::Resources,
        first_no_resource(world.resources.as_slice()),
    )
}

/// The first requester, or else the first resource, of an account that the world does not have.
fn unknown_account(world: &WorldView<'_>, requesters: &[Requester]) -> Option<Path>
    requires { AllZip IsRequesterAt (map principal_of world.now.principals.items) requesters.now }
    ensures { FindsFirst (IsOfUnknownAccount (world_of world.now)) (owners (world_of world.now)) result }
{
    one_requester();
    let accounts = &world.accounts;
    match at(Name::Principals, first_unknown_user(requesters, accounts)) {
        Some(path) => Some(path),
        None => at(
            Name::Resources,
            first_unknown_owner(world.resources.as_slice(), accounts),
        ),
    }
}

/// The first fault of actions, resources and accounts.
fn bad_name(world: &WorldView<'_>, requesters: &[Requester]) -> Option<WorldFault>
    requires { AllZip IsRequesterAt (map principal_of world.now.principals.items) requesters.now }
    ensures { MatchOption result (IsClearBelow 7 (world_of world.now)) (IsFirstViewFault (world_of world.now)) }
{
    if let Some(path) = bad_action(world) {
        return Some(WorldFault::BadAction(path));
    }
    if let Some(path) = bad_resource(world) {
        return Some(WorldFault::BadResourceArn(path));
    }
    if let Some(path) = unknown_account(world, requesters) {
        return Some(WorldFault::UnknownAccount(path));
    }
    None
}

/// Tests what a document says, except its contexts, its policies and its size; the requesters of its principals.
pub fn check_names(alloc: Global, world: &WorldView<'_>) -> Result<Vec<Requester>, WorldFault>
    ensures requesters { IfOk result (λ requesters.
        AllZip IsRequesterAt (map principal_of world.now.principals.items) requesters.items) }
    ensures clear { OnOk result (IsClearBelow 7 (world_of world.now)) }
    ensures fault { IfErr result (λ fault. fault ≢ w.OutOfMemory → IsFirstViewFault (world_of world.now) fault) }
{
    let requesters = read_requesters(alloc, world.principals.as_slice())?;
    match bad_name(world, requesters.as_slice()) {
        Some(fault) => Err(fault),
        None => Ok(requesters),
    }
}
