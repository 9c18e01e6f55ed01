// What follows from the definition of a decision, for all policies and requests.
ghost use Rattle.iam_decision.specs.Living.{ActingAreFound, ActingOneByOne, FoundDecide};
ghost use Rattle.iam_decision.specs.Laws.{AllowedIsGranted, BothAccountsAllow, BoundaryBinds, DenyWins, DirectGrantNamesItself, EachLevelAllows, FurtherAllowTakesNothing, FurtherDenyAllowsNoMore, FurtherLimitsAllowNoMore, OneDecision, OneVerdict, OnlyDenyDenies, OrderIsFree, SealedResourceGrants, SessionBinds};

/// The living statements whose action elements match an action are those that match the request for it; and they can be found
/// one at a time.
pub fn acting_are_found()
    ensures found { ActingAreFound }
    ensures more { ActingOneByOne }
{}

/// What the statements that match a request decide is the decision on it.
pub fn found_decide()
    ensures { FoundDecide }
{}

/// A request has at most one decision.
///
/// AWS IAM User Guide, "Policy evaluation logic": the result is always that the request is either allowed or denied.
pub fn one_decision()
    ensures { OneDecision }
{}

/// A request has at most one verdict, wholly: its decision, the deciding statements and the lacking layers, in their order.
pub fn one_verdict()
    ensures { OneVerdict }
{}

/// Where a matched statement denies, in whichever layer it stands, the decision is an explicit deny; and only there.
///
/// AWS IAM User Guide, "Policy evaluation logic": an explicit deny in any policy overrides any allows.
pub fn deny_wins()
    ensures wins { DenyWins }
    ensures only { OnlyDenyDenies }
{}

/// Whatever is allowed is allowed by an identity policy or, in the same account, granted by the resource's policy to the user,
/// the role or the session, by an ARN or by `*`. Organisation policies, resource control policies, boundaries and session
/// policies grant nothing.
///
/// AWS IAM User Guide, "Policy evaluation logic": by default all requests are implicitly denied. "Permissions boundaries for
/// IAM entities", "Session policies" and "Service control policies": these limit permissions, but do not grant any.
pub fn allowed_is_granted()
    ensures { AllowedIsGranted }
{}

/// Whatever is allowed is allowed at each level of the organisation, and at each level of resource control policies.
///
/// AWS Organizations User Guide, "SCP evaluation" and "RCP evaluation": there must be an explicit allow at every level from the
/// root to the account.
pub fn each_level_allows()
    ensures org { EachLevelAllows (λ a. a.org) }
    ensures control { EachLevelAllows (λ a. a.control) }
{}

/// Whatever is allowed is allowed by the boundary, where there is one, and by some session policy, where there are any; but
/// for what the resource's policy grants to the user or the session itself, by its ARN or by `*`, in the same account.
///
/// AWS IAM User Guide, "Permissions boundaries for IAM entities" and "Session policies": the effective permissions are the
/// intersection; those that a resource's policy of the same account grants to the ARN of a user or of a session are not
/// limited by an implicit deny in a boundary or a session policy.
pub fn boundary_and_session_bind()
    ensures boundary { BoundaryBinds }
    ensures session { SessionBinds }
{}

/// A statement grants the user or the session itself exactly where its `Principal` has, under `AWS`, the ARN of the user or of
/// the session, or `*`.
///
/// AWS IAM User Guide, "AWS JSON policy elements: Principal".
pub fn direct_grant_names_itself()
    ensures { DirectGrantNamesItself }
{}

/// Whatever is allowed across accounts is allowed by an identity policy of the requester, and granted by the resource's policy.
///
/// AWS IAM User Guide, "Cross-account policy evaluation logic": the request is allowed only if both evaluations return a
/// decision of allow.
pub fn both_accounts_allow()
    ensures { BothAccountsAllow }
{}

/// Whatever is allowed on a sealed resource is granted by its own policy, in the same account too.
///
/// AWS IAM User Guide, "Policy evaluation logic": trust policies of roles and policies of KMS keys must explicitly allow.
pub fn sealed_resource_grants()
    ensures { SealedResourceGrants }
{}

/// Further denies, in whichever layers and policies they stand, allow nothing that was not allowed without them.
///
/// AWS IAM User Guide, "Policy evaluation logic": an explicit deny in any policy overrides any allows.
pub fn further_deny_allows_no_more()
    ensures { FurtherDenyAllowsNoMore }
{}

/// Further allows, in whichever layers and policies they stand, leave allowed what was allowed without them.
///
/// AWS IAM User Guide, "Policy evaluation logic": an explicit allow overrides the default.
pub fn further_allow_takes_nothing()
    ensures { FurtherAllowTakesNothing }
{}

/// A boundary where there was none, session policies where there were none, and further levels of the organisation or of
/// resource control policies allow nothing that was not allowed without them.
///
/// AWS IAM User Guide, "Permissions boundaries for IAM entities", "Session policies" and "Service control policies": they
/// limit permissions.
pub fn further_limits_allow_no_more()
    ensures { FurtherLimitsAllowNoMore }
{}

/// The order of the statements of a policy and of the policies of a layer changes no decision; nor does it matter which policy
/// of a level has a statement, or how often it stands there.
///
/// AWS IAM User Guide, "Policy evaluation logic": the order in which the policies are evaluated has no effect on the outcome.
pub fn order_is_free()
    ensures { OrderIsFree }
{}
