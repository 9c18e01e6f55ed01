// One text of each kind of texts that groups of patterns tell apart.
ghost use Rattle.std.specs.Prelude.{◌≡◌, ◌∷◌, [], ℕ, List, IfOk, map};
ghost use Rattle.std.specs.Str.{chars};
ghost use Rattle.iam_glob.specs.Signs.{signs_in};
ghost use Rattle.iam_kinds.specs.Answers.{IsAnswer};
ghost use Rattle.iam_kinds.specs.Kept.{AreFound, names_of};
ghost use Rattle.iam_every.specs.Groups.{groups_of};
ghost use Rattle.iam_every.specs.Names.{text_question};

use crate::pattern::Pattern;
use crate::telling::{add_alone, add_groups};
use iam_glob::Signs;
use iam_kinds::{Kinds, Walks};
use iam_match::OutOfMemory;
use std::alloc::Global;

/// One text of each kind of texts that the patterns of a line and of ARNs match and that are not among those named; two are of one
/// kind where each of the groups that tell such texts apart, and each pattern of `apart`, matches both or neither.
///
/// AWS IAM User Guide, "IAM JSON policy elements: Resource" and "NotResource".
pub fn text_kinds<'a>(
    alloc: Global,
    walks: &mut Walks,
    groups: &'a [Vec<Pattern<'_>>],
    line: Signs<'_>,
    arn: Signs<'_>,
    apart: &[Signs<'a>],
) -> Result<Kinds, OutOfMemory>
    requires { AreFound walks.old }
    ensures answer { IfOk result (λ kinds. (named : List (List ℕ)) → map chars named ≡ names_of walks.old
        → IsAnswer (text_question (groups_of groups.now) (signs_in line.entry) (signs_in arn.entry ∷ []) (map signs_in apart.now) named) kinds) }
    ensures found { AreFound walks.new }
    ensures named { names_of walks.new ≡ names_of walks.old }
{
    let room = groups.len().saturating_add(apart.len());
    let mut lent = Vec::with_capacity(alloc, room)?;
    add_groups(alloc, &mut lent, groups, line)?;
    add_alone(alloc, &mut lent, apart, line)?;
    walks.find(alloc, &[line, arn], lent.as_slice())
}
