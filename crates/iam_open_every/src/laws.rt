// That texts of resources that are read alike are decided alike, whatever values the keys have that nothing gives.
ghost use Rattle.iam_open_every.specs.Alike.{ReadAlikeDecideAlike};
ghost use Rattle.iam_open_every.specs.Groups.{AgreeingTextsAreReadAlike};
ghost use Rattle.iam_open_every.specs.Looked.{AgreeingTextsAreTurnedAlike, ContextsInQuestionFollow};
ghost use Rattle.iam_open_every.specs.Turned.{AlikeTextsAreToldAlike, ReadAlikeAreTurnedAlike};

use iam_every::alike_texts_decide_alike;
use iam_value::one_stamp;

/// Requests of one principal for one action in one context are decided alike on two resources of which the same is said where each
/// statement that concerns them reads both texts alike.
///
/// AWS IAM User Guide, "IAM JSON policy elements: Resource" and "NotResource".
pub fn read_alike_decide_alike()
    ensures { ReadAlikeDecideAlike }
{
    alike_texts_decide_alike()
}

/// Texts on which the groups agree of the statements that may concern requests are read alike by all statements that apply and concern
/// them, in each context that agrees on what is known with the one that is looked at, and is at no earlier moment.
///
/// AWS IAM User Guide, "IAM JSON policy elements: Resource" and "NotResource".
pub fn agreeing_texts_are_read_alike()
    ensures { AgreeingTextsAreReadAlike }
{}

/// Where in each context in question each statement that concerns requests for the one text reads both texts alike, whatever is decided
/// on the one text in such a context is decided on the other in the same one.
///
/// AWS IAM User Guide, "Policy evaluation logic" and "AWS global condition context keys".
pub fn read_alike_are_turned_alike()
    ensures { ReadAlikeAreTurnedAlike }
{
    alike_texts_decide_alike()
}

/// What is told of requests for one text holds of those for each text that is decided as it is: they are never allowed, or always, or
/// allowed in the same context.
///
/// AWS IAM User Guide, "Policy evaluation logic" and "AWS global condition context keys".
pub fn alike_texts_are_told_alike()
    ensures { AlikeTextsAreToldAlike }
{}

/// Each context in question in which a principal asks for such a resource agrees with the one that is looked at on the keys that are known,
/// and is at no earlier moment. The requester is the same in both, and so are the policies that apply.
///
/// AWS IAM User Guide, "AWS global condition context keys".
pub fn contexts_in_question_follow()
    ensures { ContextsInQuestionFollow }
{
    one_stamp()
}

/// Where all the groups agree on two texts of the statements that may concern a principal's requests for such resources, whatever is
/// decided on the one text in a context in question is decided on the other in the same one, whatever the action.
///
/// AWS IAM User Guide, "Policy evaluation logic" and "AWS global condition context keys".
pub fn agreeing_texts_are_turned_alike()
    ensures { AgreeingTextsAreTurnedAlike }
{
    one_stamp();
    alike_texts_decide_alike()
}
