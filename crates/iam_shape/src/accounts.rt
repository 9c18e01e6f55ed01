// The walk over the accounts of a world.
ghost use Rattle.std.specs.Prelude.{◌≡◌, ◌≢◌, ℕ, List, [], ◌∷◌, ◌++◌, None, Some, length, map, IfOk, IfErr, IsTrue};
ghost use Rattle.std.specs.List.{AllZip};
ghost use Rattle.serde_json.specs.Data.{Data};
ghost use Rattle.serde_json.specs.View.{view};
ghost use Rattle.iam_shape.specs.Texts.{AreFirstPlaces};
ghost use Rattle.iam_shape.specs.Lent.{account_of};
ghost use Rattle.iam_shape.specs.Code.Members.{AreMembers};
ghost use Rattle.iam_shape.specs.Code.Walk.{MayWalk, account_front, checks_behind, is_new_beside};
ghost use Rattle.iam_shape.specs.Shape.{IsShapeFault, account_checks, each, first_bad, text_at};
ghost use Rattle.iam_shape.specs.View.{IsAccountView, is_true_at};
ghost use Rattle.iam_shape.specs.declared.fault.ShapeFault.TheVariants as s;

use crate::account_members::{Found, members_of};
use crate::fault::ShapeFault;
use crate::levels::walk_levels_of;
use crate::look::{text_of, truth_of};
use crate::path::{Name, Path};
use crate::view::{AccountView, Accounts};
use iam_text::{OutOfMemory, is_account};
use serde_json::Value;
use std::alloc::Global;
use std::collections::HashMap;

/// Adds the id of an account with this number, where it is one; whether it is, and is none of the earlier ones.
fn add_id(
    alloc: Global,
    ids: &mut HashMap<String, usize>,
    text: &str,
    number: usize,
) -> Result<bool, OutOfMemory>
    ensures { IfOk result (λ is_new. (earlier : List (List ℕ)) → AreFirstPlaces ids.old earlier
        → (is_new ≡ is_new_beside earlier text.now)
        × (IsTrue is_new → number ≡ length earlier → AreFirstPlaces ids.new (earlier ++ text.now ∷ []))) }
{
    if !is_account(text) {
        return Ok(false);
    }
    let earlier = ids.insert(String::from_str(alloc, text)?, number)?;
    Ok(earlier.is_none())
}

/// The id of an account behind those that have these ids, which it joins, and whether it manages its organisation.
fn walk_front<'v>(
    alloc: Global,
    ids: &mut HashMap<String, usize>,
    i: usize,
    account: &Found<'v>,
) -> Result<(&'v str, bool), ShapeFault>
    ensures { (d : Data) → AreMembers d account.now
        → (earlier : List (List ℕ)) → AreFirstPlaces ids.old earlier → i ≡ length earlier
        → MayWalk (account_front earlier i d) (λ found. (text_at Name.Id d ≡ Some found.0.now)
        × (found.1 ≡ is_true_at Name.Management d)
        × AreFirstPlaces ids.new (earlier ++ found.0.now ∷ [])) result }
{
    let list = Name::Accounts;
    let Some(id) = text_of(account.id) else {
        return Err(ShapeFault::At(Path::Field(list, i, Name::Id)));
    };
    if !add_id(alloc, ids, id, i)? {
        return Err(ShapeFault::At(Path::Field(list, i, Name::Id)));
    }
    match truth_of(account.management) {
        Some(management) => Ok((id, management)),
        None => Err(ShapeFault::At(Path::Field(list, i, Name::Management))),
    }
}

/// Walks an account behind those that have these ids, which its own joins.
fn walk_account<'v>(
    alloc: Global,
    ids: &mut HashMap<String, usize>,
    i: usize,
    account: &'v Value,
) -> Result<AccountView<'v>, ShapeFault>
    ensures { (earlier : List (List ℕ)) → AreFirstPlaces ids.old earlier → i ≡ length earlier
        → MayWalk (checks_behind earlier i (view account.entry.now))
        (λ found. IsAccountView (view account.entry.now) (account_of found)
        × AreFirstPlaces ids.new (earlier ++ found.id.now ∷ [])) result }
{
    let Some(members) = members_of(account) else {
        return Err(ShapeFault::At(Path::Item(Name::Accounts, i)));
    };
    let (id, management) = walk_front(alloc, ids, i, &members)?;
    let org = walk_levels_of(members.org, Name::Accounts, i, Name::Org)?;
    if members.has_other {
        return Err(ShapeFault::At(Path::Item(Name::Accounts, i)));
    }
    Ok(AccountView {
        id,
        management,
        org,
    })
}

/// Walks the accounts, and gathers their numbers by their ids.
pub fn walk_accounts(alloc: Global, accounts: &[Value]) -> Result<Accounts<'_>, ShapeFault>
    ensures ok { IfOk result (λ found.
        (first_bad (each (account_checks (map view accounts.entry.now)) 0 (map view accounts.entry.now)) ≡ None)
        × AllZip IsAccountView (map view accounts.entry.now) (map account_of found.views.items)) }
    ensures path { IfErr result (λ fault. fault ≢ s.OutOfMemory
        → IsShapeFault (each (account_checks (map view accounts.entry.now)) 0 (map view accounts.entry.now)) fault) }
{
    let mut views = Vec::with_capacity(alloc, accounts.len())?;
    let mut ids = HashMap::new(alloc);
    for (i, account) in accounts.iter().enumerate() {
        views.push(walk_account(alloc, &mut ids, i, account)?)?;
    }
    Ok(Accounts { views, ids })
}
