// Patterns, documents and statements by their own calls.
use iam_context::{Context, Derived, KeyName, Part, Values};
use iam_match::{Request, Requester, statement_matches};
use iam_policy::{Kind, Policy, Statement, Version};
use iam_text::{Compiled, Glob, Text};
use serde_json::Value;
use std::alloc::Global;
use std::test::Fail;

/// Patterns with a text and whether it matches, case counting, and whatever the case: pieces do not overlap, and a text is matched whole.
const MATCHES: [(&str, &str, bool, bool); 12] = [
    ("a*ab", "ab", false, false),
    ("a*ab", "aab", true, true),
    ("*ab*ab", "abab", true, true),
    ("*ab*ab", "aab", false, false),
    ("a*b", "a-b-c", false, false),
    ("a?c", "abc", true, true),
    ("a?c", "ac", false, false),
    ("a?c", "aüc", true, true),
    ("S3:Get*", "s3:GETobject", false, true),
    ("*", "", true, true),
    ("", "", true, true),
    ("", "a", false, false),
];

#[test]
fn compiled_patterns_match_as_patterns_do(rt: HostRuntime) -> Result<(), Fail> {
    let alloc = rt.alloc();
    for (pattern, text, matches, folded) in MATCHES {
        let glob = Glob::read(alloc, pattern)?;
        let compiled = Compiled::of(alloc, &glob)?;
        assert_eq!(rt; glob.matches(text), matches);
        assert_eq!(rt; compiled.matches(text), matches);
        assert_eq!(rt; glob.matches_fold(text), folded);
        assert_eq!(rt; compiled.matches_fold(text), folded);
    }
    Ok(())
}

/// A document with a variable in its resource, in version 2012-10-17, and without a version.
const DOCUMENT: &str =
    r#"{"Version":"2012-10-17","Statement":{"Effect":"Allow","Action":"s3:Get*","Resource":"arn:aws:s3:::b/${aws:username}/*"}}"#;

const BARE: &str =
    r#"{"Statement":{"Effect":"Allow","Action":"s3:Get*","Resource":"arn:aws:s3:::b/${aws:username}/*"}}"#;

fn policy(alloc: Global, text: &str, kind: Kind) -> Result<Option<Policy>, Fail> {
    let value = Value::from_str(alloc, text)?;
    Ok(Policy::read(alloc, &value, kind).ok())
}

/// The version of a document that is on the grammar.
fn version(alloc: Global, text: &str) -> Result<Option<Version>, Fail> {
    Ok(policy(alloc, text, Kind::Identity)?.map(|policy| policy.version()))
}

#[test]
fn a_document_has_its_version(rt: HostRuntime) -> Result<(), Fail> {
    assert!(rt; version(rt.alloc(), DOCUMENT)? == Some(Version::V2012));
    assert!(rt; version(rt.alloc(), BARE)? == Some(Version::V2008));
    assert!(rt; version(rt.alloc(), "{}")?.is_none());
    Ok(())
}

/// A statement in which each element asks for something.
const STATEMENT: &str =
    r#"{"Version":"2012-10-17","Statement":{"Effect":"Allow","Principal":{"AWS":"arn:aws:iam::111122223333:user/ann"},
    "Action":"s3:Get*","Resource":"arn:aws:s3:::b/${team}/*","Condition":{"StringEquals":{"team":"red"}}}}"#;

/// A user's name and team, an action and a resource, and whether the statement matches: all is met, or each element in turn is not.
const REQUESTS: [(&str, &str, &str, &str, bool); 5] = [
    ("ann", "red", "S3:getobject", "arn:aws:s3:::b/red/k", true),
    ("bob", "red", "S3:getobject", "arn:aws:s3:::b/red/k", false),
    ("ann", "red", "s3:PutObject", "arn:aws:s3:::b/red/k", false),
    ("ann", "red", "s3:GetObject", "arn:aws:s3:::b/blue/k", false),
    (
        "ann",
        "blue",
        "s3:GetObject",
        "arn:aws:s3:::b/blue/k",
        false,
    ),
];

/// The user of this name.
fn user(alloc: Global, name: &str) -> Result<Option<Requester>, Fail> {
    let arn = format!(in alloc; "arn:aws:iam::111122223333:user/{name}")?;
    Ok(Requester::user(alloc, arn.as_str())?)
}

/// The key `team` with this value.
fn team(alloc: Global, name: &str) -> Result<Part, Fail> {
    let mut part: Part = Vec::new(alloc);
    part.push((
        KeyName::given(Text::read(alloc, "team")?),
        Values::one(Text::read(alloc, name)?),
    ))?;
    Ok(part)
}

/// Whether the statement matches the request in this context.
fn matches_in<'x, 'c>(
    alloc: Global,
    statement: &'c Statement,
    requester: &'x Requester,
    context: &'x Context<'c>,
    action: &'x str,
    resource: &'x str,
) -> Result<bool, Fail> {
    let request = Request {
        requester,
        action,
        resource,
        context,
    };
    let matched = statement_matches(alloc, statement, &request)?;
    Ok(matched)
}

/// The same in the context of these keys.
fn matches_with<'x, 'c>(
    alloc: Global,
    statement: &'c Statement,
    requester: &'x Requester,
    given: &'c Part,
    derived: &'c Derived,
    action: &'x str,
    resource: &'x str,
) -> Result<bool, Fail> {
    let parts = [given];
    let context = Context::join(alloc, &parts, derived)?;
    matches_in(alloc, statement, requester, &context, action, resource)
}

/// Whether the statement matches a request of a user in a team; `None` where one of them can't be had.
fn matches<'x>(
    alloc: Global,
    name: &str,
    of: &str,
    action: &'x str,
    resource: &'x str,
) -> Result<Option<bool>, Fail> {
    let given = team(alloc, of)?;
    let derived: Derived = Vec::new(alloc);
    let Some(requester) = user(alloc, name)? else {
        return Ok(None);
    };
    let Some(policy) = policy(alloc, STATEMENT, Kind::Resource)? else {
        return Ok(None);
    };
    let Some(statement) = policy.statements().first() else {
        return Ok(None);
    };
    let matched = matches_with(
        alloc, statement, &requester, &given, &derived, action, resource,
    )?;
    Ok(Some(matched))
}

#[test]
fn a_statement_matches_where_each_element_does(rt: HostRuntime) -> Result<(), Fail> {
    for (name, of, action, resource, matched) in REQUESTS {
        assert!(rt;
            matches(rt.alloc(), name, of, action, resource)? == Some(matched),
            "at {name}, {of}, {action}, {resource}"
        );
    }
    Ok(())
}
