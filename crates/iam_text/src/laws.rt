// Laws about the definitions, for the crates above.
ghost use Rattle.std.specs.Prelude.{◌≡◌, ℕ, List, Bool};
ghost use Rattle.iam_text.specs.Arn.{IsArn};
ghost use Rattle.iam_text.specs.declared.draft.Piece.{Piece};
ghost use Rattle.iam_text.specs.declared.version.Version.{Version};
ghost use Rattle.iam_text.specs.Draft.{IsDraftIn};

/// A text has at most one list of six parts.
pub fn one_arn()
    ensures { (parts other : List (List ℕ)) (text : List ℕ) → IsArn parts text → IsArn other text → parts ≡ other }
{}

/// A text has at most one draft in a document of a version.
pub fn one_draft()
    ensures { (version : Version) (wild : Bool) (text : List ℕ) (pieces other : List Piece) → IsDraftIn version wild text pieces → IsDraftIn version wild text other → pieces ≡ other }
{}
