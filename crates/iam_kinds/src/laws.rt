// What follows from the definition of the texts that are shown.
ghost use Rattle.iam_kinds.specs.Laws.{OneListOfKinds, OneListOfKindsFold};

/// A question has at most one list of texts that are one of each kind: of each kind the text is shown that comes first of those which
/// the letters of a walk spell.
///
/// AWS IAM User Guide, "IAM JSON policy elements reference".
pub fn one_list_of_kinds()
    ensures { OneListOfKinds }
{}

/// So it is without regard to case.
///
/// AWS IAM User Guide, "IAM JSON policy elements reference".
pub fn one_list_of_kinds_fold()
    ensures { OneListOfKindsFold }
{}
