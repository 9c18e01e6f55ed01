// The grammars of the texts of resource and principal elements.
ghost use Rattle.std.specs.Prelude.{◌≡◌, ◌||◌, not};
ghost use Rattle.std.specs.List.{list_all, list_any};
ghost use Rattle.std.specs.Char.{is_ascii_alphanumeric};
ghost use Rattle.iam_text.specs.Variables.{is_draft};
ghost use Rattle.iam_element.specs.ActionPattern.{is_wildcard};
ghost use Rattle.iam_element.specs.Grammar.{begins_as_arn, is_resource_pattern, has_early_variable, is_bad_variable, is_whole_arn, is_unique_id, is_aws_name, form_of};

use crate::action_pattern::{is_action_pattern, is_wildcard};
use iam_text::{Version, cut_form, has_dollar, has_forms_behind, has_six_parts, is_account};

/// A form that a text of a statement may have.
#[derive(Clone, Copy)]
pub enum TextForm {
    /// An action pattern: `*`, or a service prefix, a colon and a name.
    Action,
    /// A resource text: `*`, or one that begins with `arn:`.
    Resource,
    /// A resource text off the variable grammar of the version, or with a variable before its fifth colon.
    BadVariable(Version),
    /// A principal under `AWS`: `*`, an account, an ARN or a unique id.
    AwsName,
    /// A principal under another type: any text.
    AnyName,
}

impl TextForm {
    pub fn fits(self, text: &str) -> bool
        ensures { result ≡ form_of self text.now }
    {
        match self {
            TextForm::Action => is_action_pattern(text),
            TextForm::Resource => is_resource_pattern(text),
            TextForm::BadVariable(version) => is_bad_variable(text, version),
            TextForm::AwsName => is_aws_name(text),
            TextForm::AnyName => true,
        }
    }
}

fn begins_as_arn(text: &str) -> bool
    ensures { result ≡ begins_as_arn text.now }
{
    text.starts_with("arn:")
}

fn is_resource_pattern(text: &str) -> bool
    ensures { result ≡ is_resource_pattern text.now }
{
    text == "*" || begins_as_arn(text)
}

fn is_bad_variable(text: &str, version: Version) -> bool
    ensures { result ≡ is_bad_variable version text.now }
{
    match version {
        Version::V2012 => has_dollar(text.as_bytes()) && is_bad_draft(text),
        Version::V2008 => false,
    }
}

/// Whether some variable of the text is off the grammar, or stands before its fifth colon.
fn is_bad_draft(text: &str) -> bool
    ensures { result ≡ (not (is_draft text.now) || has_early_variable text.now) }
{
    match cut_form(text) {
        Some((front, inside)) => !has_forms_behind(inside) || !has_six_parts(front),
        None => false,
    }
}

fn is_aws_name(text: &str) -> bool
    ensures { result ≡ is_aws_name text.now }
{
    text == "*" || is_account(text) || is_whole_arn(text) || is_unique_id(text)
}

fn is_whole_arn(text: &str) -> bool
    ensures { result ≡ is_whole_arn text.now }
{
    begins_as_arn(text) && has_six_parts(text) && !has_wildcard(text.as_bytes())
}

fn has_wildcard(text: &[u8]) -> bool
    ensures { result ≡ list_any is_wildcard text.now }
{
    text.iter().any(|&character| is_wildcard(character))
}

fn is_unique_id(text: &str) -> bool
    ensures { result ≡ is_unique_id text.now }
{
    !text.is_empty() && all_alphanumeric(text.as_bytes()) && text.len() <= 128
}

fn all_alphanumeric(text: &[u8]) -> bool
    ensures { result ≡ list_all is_ascii_alphanumeric text.now }
{
    text.iter().all(|c| c.is_ascii_alphanumeric())
}
