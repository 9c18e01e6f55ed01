// The parts of the ARN of a user, a role or a session.
ghost use Rattle.std.specs.Prelude.{◌≡◌, MatchOption, IfSome, IfOk, None, false, string_bytes};
ghost use Rattle.std.specs.List.{list_all};
ghost use Rattle.iam_context.specs.Requester.{RequesterValue, is_segment, is_segment_character, last_segment, session_arn};
ghost use Rattle.iam_context.specs.Code.ArnParts.{HasParts, is_of_account, path_from, requester_of};

use iam_text::{Arn, OutOfMemory, is_account, is_label};
use std::alloc::Global;

/// What tells the ARN of a user or a role from that of another one.
#[derive(Clone, Copy)]
pub struct Parts<'a> {
    pub partition: &'a str,
    pub account: &'a str,
    pub path: &'a str,
}

/// The parts of the ARN of a user or a role, where the word, `user/` or `role/`, stands before its path; `None`
/// for any other text.
pub fn parts_behind<'a>(arn: &'a str, word: &str) -> Option<Parts<'a>>
    ensures value { MatchOption result ((r : RequesterValue) → ¬ HasParts arn.entry.now word.entry.now r)
        (λ parts. HasParts arn.entry.now word.entry.now (requester_of parts None)) }
    ensures only { IfSome result (λ parts. (r : RequesterValue) → HasParts arn.entry.now word.entry.now r
        → r ≡ requester_of parts r.session) }
{
    let parts = Arn::cut(arn)?;
    let path = parts.resource.strip_prefix(word)?;
    if is_of_account(&parts) && is_path(path.as_bytes()) {
        Some(Parts {
            partition: parts.partition,
            account: parts.account,
            path,
        })
    } else {
        None
    }
}

/// Whether the parts before the last one are those of a user's or a role's ARN.
fn is_of_account(parts: &Arn<'_>) -> bool
    ensures { result ≡ is_of_account parts.now.prefix.now parts.now.partition.now parts.now.service.now parts.now.region.now
        parts.now.account.now }
{
    parts.prefix == "arn"
        && parts.service == "iam"
        && parts.region.is_empty()
        && is_label(parts.partition)
        && is_account(parts.account)
}

/// One or more segments joined by `/`.
fn is_path(text: &[u8]) -> bool
    ensures { result ≡ path_from false text.now }
{
    let mut begun = false;
    for &character in text {
        if character == b'/' {
            if !begun {
                return false;
            }
            begun = false;
        } else if is_segment_character(character) {
            begun = true;
        } else {
            return false;
        }
    }
    begun
}

/// Whether the text is a segment of a path, or the name of a session.
pub fn is_segment(text: &str) -> bool
    ensures { result ≡ is_segment text.now }
{
    !text.is_empty() && all_segment_characters(text.as_bytes())
}

fn all_segment_characters(text: &[u8]) -> bool
    ensures { result ≡ list_all is_segment_character text.now }
{
    text.iter()
        .all(|&character| is_segment_character(character))
}

fn is_segment_character(character: u8) -> bool
    ensures { result ≡ is_segment_character character }
{
    character >= 0x21
        && character <= 0x7E
        && !(character == b'*' || character == b'/' || character == b'?')
}

/// What stands behind the last `/` of a path, or the path where there is none.
pub fn last_segment(path: &str) -> &str
    ensures { result.now ≡ last_segment path.entry.now }
{
    match path.rsplit_once('/') {
        Some((_, name)) => name,
        None => path,
    }
}

/// The ARN of the session of this name of the role with these parts.
pub fn session_arn(alloc: Global, parts: Parts<'_>, session: &str) -> Result<String, OutOfMemory>
    ensures { IfOk result (λ arn. string_bytes arn ≡ session_arn (requester_of parts.entry None) session.now) }
{
    let partition = parts.partition;
    let account = parts.account;
    let role = last_segment(parts.path);
    format!(in alloc; "arn:{partition}:sts::{account}:assumed-role/{role}/{session}")
}
