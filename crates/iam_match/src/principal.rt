// Whom a principal element names, and what it grants.
ghost use Rattle.std.specs.Prelude.{◌≡◌, ◌||◌, ◌↔◌, IsTrue, map};
ghost use Rattle.std.specs.List.{concat, list_all};
ghost use Rattle.std.specs.Str.{bytes_eq};
ghost use Rattle.iam_context.specs.Requester.{root_arn};
ghost use Rattle.iam_match.specs.Principal.{PrincipalMatches, grant_of, grant_of_element, grant_of_text, greatest, is_listed, is_named, names, the_account, the_user};

use iam_context::Requester;
use iam_policy::{PrincipalKind, PrincipalName, Principals, Statement};

/// How a policy of a resource grants something to a requester, from the weakest on: not at all, to its account, to
/// the role of a session, or to the user or the session itself.
#[derive(Clone, Copy, Debug, PartialEq, Eq, PartialOrd, Ord)]
pub enum Grant {
    None,
    Account,
    Role,
    Direct,
}

/// What the `Principal` element of the statement grants the requester, the greatest of its texts; `None` for a
/// statement without one.
///
/// AWS IAM User Guide, "AWS JSON policy elements: Principal".
pub fn grant_kind(statement: &Statement, requester: &Requester) -> Grant
    ensures { result ≡ grant_of statement.now.principal requester.now }
{
    match statement.principal() {
        Some(element) => grant_of_element(element, requester),
        None => Grant::None,
    }
}

/// Whether the principal element of the statement, if it has one, holds for the requester.
///
/// AWS IAM User Guide, "AWS JSON policy elements: NotPrincipal".
pub fn principal_matches(statement: &Statement, requester: &Requester) -> bool
    ensures { IsTrue result ↔ PrincipalMatches statement.now.principal requester.now }
{
    let Some(element) = statement.principal() else {
        return true;
    };
    if element.is_negated() {
        !are_listed(element.names(), requester)
    } else {
        grant_of_element(element, requester) != Grant::None
    }
}

fn grant_of_element(element: &Principals, requester: &Requester) -> Grant
    ensures { result ≡ grant_of_element requester.now element.now }
{
    if element.is_negated() {
        Grant::None
    } else {
        greatest_grant(element.names(), requester)
    }
}

/// The greatest of what the texts grant the requester.
fn greatest_grant(principals: &[PrincipalName], requester: &Requester) -> Grant
    ensures { result ≡ greatest (map (grant_of_text requester.now) principals.now) }
{
    let mut greatest = Grant::None;
    for principal in principals {
        greatest = greatest.max(grant_of_text(principal, requester));
    }
    greatest
}

fn grant_of_text(principal: &PrincipalName, requester: &Requester) -> Grant
    ensures { result ≡ grant_of_text requester.now principal.now }
{
    if names_arn(principal, requester.name()) {
        Grant::Direct
    } else if names_arn(principal, requester.arn()) {
        Grant::Role
    } else if names_account(principal, requester) {
        Grant::Account
    } else {
        Grant::None
    }
}

/// Whether each name of the requester is named by some text.
fn are_listed(principals: &[PrincipalName], requester: &Requester) -> bool
    ensures { result ≡ list_all (is_listed principals.now) (names requester.now) }
{
    is_account_listed(principals, requester)
        && is_arn_listed(principals, requester.arn())
        && is_arn_listed(principals, requester.name())
}

fn is_account_listed(principals: &[PrincipalName], requester: &Requester) -> bool
    ensures { result ≡ is_listed principals.now (the_account requester.now.account (root_arn requester.now)) }
{
    principals
        .iter()
        .any(|principal| names_account(principal, requester))
}

fn is_arn_listed(principals: &[PrincipalName], arn: &str) -> bool
    ensures { result ≡ is_listed principals.now (the_user arn.now) }
{
    principals.iter().any(|principal| names_arn(principal, arn))
}

/// Whether the text names a user, a role or a session by its ARN.
fn names_arn(principal: &PrincipalName, arn: &str) -> bool
    ensures { result ≡ is_named principal.now (the_user arn.now) }
{
    let text = principal.text();
    principal.kind() == PrincipalKind::Aws && (text == "*" || text == arn)
}

/// Whether the text names the account of the requester.
fn names_account(principal: &PrincipalName, requester: &Requester) -> bool
    ensures { result ≡ is_named principal.now (the_account requester.now.account (root_arn requester.now)) }
{
    let text = principal.text();
    principal.kind() == PrincipalKind::Aws
        && (text == "*" || text == requester.account() || is_root(text, requester))
}

/// Whether the text is the ARN of the root of the requester's account.
fn is_root(text: &str, requester: &Requester) -> bool
    ensures { result ≡ bytes_eq text.now (root_arn requester.now) }
{
    // Most ARNs are told from it by their end.
    if !text.ends_with(":root") {
        return false;
    }
    is_joined(
        text,
        &[
            "arn:",
            requester.partition(),
            ":iam::",
            requester.account(),
            ":root",
        ],
    )
}

/// Whether the text is these pieces, one behind the other.
fn is_joined(text: &str, pieces: &[&str]) -> bool
    ensures { result ≡ bytes_eq text.now (concat (map (λ piece. piece.now) pieces.now)) }
{
    let mut rest = text;
    for piece in pieces {
        match rest.strip_prefix(*piece) {
            Some(behind) => rest = behind,
            None => return false,
        }
    }
    rest.is_empty()
}
