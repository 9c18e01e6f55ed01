// What is worked out once for all rows of a principal.

use crate::own::Target;
use crate::states::Both;
use iam_context::Part;
use iam_glob::Signs;

/// What is asked for a principal, with what is worked out once.
#[derive(Clone, Copy)]
pub struct Given<'a> {
    pub both: Both<'a>,
    /// What an ARN matches.
    pub arn: Signs<'a>,
    /// No keys.
    pub none: &'a Part,
    /// The patterns of all lines.
    pub patterns: &'a [Signs<'a>],
    /// The texts that are looked at by themselves.
    pub targets: &'a [Target<'a>],
}
