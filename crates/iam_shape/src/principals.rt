// The walk over a principal.
ghost use Rattle.std.specs.Prelude.{◌≡◌, [], ◌∷◌, None, Some, IsTrue};
ghost use Rattle.serde_json.specs.View.{view};
ghost use Rattle.iam_shape.specs.Lent.{principal_of};
ghost use Rattle.iam_shape.specs.Code.Walk.{Walks, session_checks, user_checks};
ghost use Rattle.iam_shape.specs.Shape.{has_only, member, principal_checks};
ghost use Rattle.iam_shape.specs.View.{IsPrincipalView};

use crate::context::is_context_or_none;
use crate::look::{list_or_none, member, text_at};
use crate::path::{Name, Path};
use crate::view::PrincipalView;
use iam_json::has_unknown;
use serde_json::Value;

/// Whether it has the members of a user alone, and so no session policies.
fn has_only_of_user(principal: &Value) -> bool
    ensures only { result ≡ has_only (Name.User ∷ (Name.Identity ∷ (Name.Boundary ∷ (Name.Context ∷ []))))
        (view principal.now) }
    ensures none { IsTrue result → member Name.SessionPolicies (view principal.now) ≡ None }
{
    let names = [
        Name::User.as_str(),
        Name::Identity.as_str(),
        Name::Boundary.as_str(),
        Name::Context.as_str(),
    ];
    !has_unknown(principal, &names)
}

/// Whether it has the members of a session alone.
fn has_only_of_session(principal: &Value) -> bool
    ensures { result ≡ has_only (Name.Role ∷ (Name.Session ∷ (Name.Identity ∷ (Name.Boundary
        ∷ (Name.SessionPolicies ∷ (Name.Context ∷ [])))))) (view principal.now) }
{
    let names = [
        Name::Role.as_str(),
        Name::Session.as_str(),
        Name::Identity.as_str(),
        Name::Boundary.as_str(),
        Name::SessionPolicies.as_str(),
        Name::Context.as_str(),
    ];
    !has_unknown(principal, &names)
}

/// Walks a principal with this member `user` and no `role`.
fn walk_user<'v>(i: usize, principal: &'v Value, user: &'v Value) -> Result<PrincipalView<'v>, Path>
    requires user { member Name.User (view principal.now) ≡ Some (view user.now) }
    requires no_role { member Name.Role (view principal.now) ≡ None }
    ensures { Walks (user_checks i (view principal.entry.now))
        (λ found. IsPrincipalView (view principal.entry.now) (principal_of found)) result }
{
    let list = Name::Principals;
    let Some(arn) = user.as_str() else {
        return Err(Path::Field(list, i, Name::User));
    };
    let Some(identity) = list_or_none(principal, Name::Identity) else {
        return Err(Path::Field(list, i, Name::Identity));
    };
    let context = member(principal, Name::Context);
    if !is_context_or_none(context) {
        return Err(Path::Field(list, i, Name::Context));
    }
    if !has_only_of_user(principal) {
        return Err(Path::Item(list, i));
    }
    Ok(PrincipalView {
        arn,
        session_name: None,
        identity,
        boundary: member(principal, Name::Boundary),
        session_policies: &[],
        context,
    })
}

/// Walks a principal with this member `role` and no `user`.
fn walk_session<'v>(
    i: usize,
    principal: &'v Value,
    role: &'v Value,
) -> Result<PrincipalView<'v>, Path>
    requires role { member Name.Role (view principal.now) ≡ Some (view role.now) }
    requires no_user { member Name.User (view principal.now) ≡ None }
    ensures { Walks (session_checks i (view principal.entry.now))
        (λ found. IsPrincipalView (view principal.entry.now) (principal_of found)) result }
{
    let list = Name::Principals;
    let Some(arn) = role.as_str() else {
        return Err(Path::Field(list, i, Name::Role));
    };
    let Some(session) = text_at(principal, Name::Session) else {
        return Err(Path::Field(list, i, Name::Session));
    };
    let Some(identity) = list_or_none(principal, Name::Identity) else {
        return Err(Path::Field(list, i, Name::Identity));
    };
    let Some(session_policies) = list_or_none(principal, Name::SessionPolicies) else {
        return Err(Path::Field(list, i, Name::SessionPolicies));
    };
    let context = member(principal, Name::Context);
    if !is_context_or_none(context) {
        return Err(Path::Field(list, i, Name::Context));
    }
    if !has_only_of_session(principal) {
        return Err(Path::Item(list, i));
    }
    Ok(PrincipalView {
        arn,
        session_name: Some(session),
        identity,
        boundary: member(principal, Name::Boundary),
        session_policies,
        context,
    })
}

/// Walks a principal: a user, or a session of a role.
pub fn walk_principal(i: usize, principal: &Value) -> Result<PrincipalView<'_>, Path>
    ensures { Walks (principal_checks i (view principal.entry.now))
        (λ found. IsPrincipalView (view principal.entry.now) (principal_of found)) result }
{
    match (member(principal, Name::User), member(principal, Name::Role)) {
        (Some(user), None) => walk_user(i, principal, user),
        (None, Some(role)) => walk_session(i, principal, role),
        _ => Err(Path::Item(Name::Principals, i)),
    }
}
