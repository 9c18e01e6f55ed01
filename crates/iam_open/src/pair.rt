// What is known of the requests of a principal for a resource, whatever the action: only the action elements of statements see it.
ghost use Rattle.std.specs.Prelude.{◌≡◌, ◌<◌, ◌≤◌, ◌++◌, ◌∷◌, [], All, Contains, IfOk, IfSome, List, None, OnOk, Option, if◌then◌else◌, length, map, ℕ};
ghost use Rattle.iam_context.specs.Context.{ContextValue};
ghost use Rattle.iam_decision.specs.Applicable.{ApplicableValue};
ghost use Rattle.iam_decision.specs.Code.Scan.{placed_value};
ghost use Rattle.iam_decision.specs.Decision.{IsDecision};
ghost use Rattle.iam_decision.specs.Matched.{IsMatched};
ghost use Rattle.iam_decision.specs.declared.verdict.Decision.TheVariants as decision;
ghost use Rattle.iam_layers.specs.Cell.{IsAction};
ghost use Rattle.iam_layers.specs.Own.{IsCleanAt};
ghost use Rattle.iam_match.specs.Request.{access_of};
ghost use Rattle.iam_match.specs.Statement.{AccessValue};
ghost use Rattle.iam_open.specs.Code.Bounds.{AreBounds};
ghost use Rattle.iam_open.specs.Code.Certain.{Tells};
ghost use Rattle.iam_open.specs.Code.Known.{Follows, request_in};
ghost use Rattle.iam_open.specs.Code.Pairs.{AreChances, AreChancesAt, IsChance, IsPairAt, IsPairOf, chance_of, may_match, placed_of};
ghost use Rattle.iam_open.specs.Code.Tried.{IsAlwaysWhere, IsNeverWhere};
ghost use Rattle.iam_open.specs.InQuestion.{IsAlways, IsNever, last_moment};
ghost use Rattle.iam_open.specs.Seat.{IsSeat};
ghost use Rattle.iam_world.specs.World.{WorldValue};

use crate::bounds::{Bounds, matched_of};
use crate::certain::Certain;
use crate::known::Known;
use crate::scene::Scene;
use crate::statement::rest_certain;
use iam_context::Part;
use iam_decision::{Frame, Matched, Standing, one_decision};
use iam_layers::{OutOfMemory, World};
use iam_match::{Access, Requester, Statement, action_matches};
use iam_value::one_stamp;
use std::alloc::Global;

/// A statement of which it is not known that it never matches a request of a pair: where its action element matches, it matches always, or
/// it is open.
#[derive(Clone, Copy)]
pub struct Chance<'a> {
    /// The statement as it counts where it matches.
    pub matched: Matched,
    pub statement: &'a Statement,
    pub certain: Certain,
}

/// A principal and a resource, by their numbers: what decisions on their requests ask beside statements, and the statements that may match.
/// A resource that the world does not name has the number behind all others.
#[derive(Drop)]
pub struct Pair<'a> {
    pub principal: u64,
    pub resource: u64,
    pub frame: Frame,
    pub chances: Vec<Chance<'a>>,
}

/// Whether the request of principal p for action a on resource r, each below the number of its kind, is allowed in the contexts in
/// question, as far as it is seen without a look at the values of keys that nothing gives.
pub fn certainly(
    alloc: Global,
    world: &World,
    p: u64,
    a: u64,
    r: u64,
) -> Result<Certain, OutOfMemory>
    requires principal { p < length world.now.principals }
    requires action { a < length world.now.actions }
    requires resource { r < length world.now.resources }
    ensures always { (worlds : List WorldValue) → Contains worlds world.now → IfOk result (λ certain. certain ≡ Certain.Always → IsAlways worlds world.now p a r) }
    ensures never { (worlds : List WorldValue) → Contains worlds world.now → IfOk result (λ certain. certain ≡ Certain.Never → IsNever worlds world.now p a r) }
{
    let none = Vec::new(alloc);
    let scene = Scene::named(world, p, r, &none);
    scene_certain(alloc, scene, world.action_text(a))
}

/// The same of a request for an action and for what may be no resource of the world.
///
/// AWS IAM User Guide, "AWS global condition context keys" and "Policy evaluation logic".
pub fn scene_certain(
    alloc: Global,
    scene: Scene<'_, '_>,
    action: &str,
) -> Result<Certain, OutOfMemory>
    ensures always { IfOk result (λ certain. (worlds : List WorldValue) (other : WorldValue) (a r : ℕ)
        → IsSeat scene.entry.world.now scene.entry.target other r → IsAction other a action.now → Contains worlds other
        → certain ≡ Certain.Always → IsAlways worlds other scene.entry.p a r) }
    ensures never { IfOk result (λ certain. (worlds : List WorldValue) (other : WorldValue) (a r : ℕ)
        → IsSeat scene.entry.world.now scene.entry.target other r → IsAction other a action.now → Contains worlds other
        → certain ≡ Certain.Never → IsNever worlds other scene.entry.p a r) }
{
    let pair = plain_pair(alloc, scene)?;
    pair_certain(alloc, &pair, action)
}

/// Whether it is allowed in those contexts in which these keys have these values, at this moment, if there is one.
///
/// AWS IAM User Guide, "AWS global condition context keys" and "Policy evaluation logic".
pub fn certainly_where(
    alloc: Global,
    world: &World,
    p: u64,
    a: u64,
    r: u64,
    own: &Part,
    moment: Option<u64>,
) -> Result<Certain, OutOfMemory>
    requires principal { p < length world.now.principals }
    requires action { a < length world.now.actions }
    requires resource { r < length world.now.resources }
    requires clean { IsCleanAt world.now p r own.now.items }
    requires moment { IfSome moment (λ tried. tried ≤ last_moment) }
    ensures always { IfOk result (λ certain. certain ≡ Certain.Always → IsAlwaysWhere world.now p a r own.now.items moment) }
    ensures never { IfOk result (λ certain. certain ≡ Certain.Never → IsNeverWhere world.now p a r own.now.items moment) }
{
    let none = Vec::new(alloc);
    let pair = pair_of(alloc, Scene::named(world, p, r, &none), own, moment)?;
    pair_certain(alloc, &pair, world.action_text(a))
}

/// Whether the request of a pair for this action is allowed in the contexts in which it was looked at.
///
/// AWS IAM User Guide, "Policy evaluation logic".
pub fn pair_certain(alloc: Global, pair: &Pair<'_>, action: &str) -> Result<Certain, OutOfMemory>
    ensures always { IfOk result (λ certain. (world : WorldValue) (p a r : ℕ) (part : ContextValue) (at : Option ℕ) → IsAction world a action.now
        → IsPairAt world p r part at pair.now → certain ≡ Certain.Always → IsAlwaysWhere world p a r part at) }
    ensures never { IfOk result (λ certain. (world : WorldValue) (p a r : ℕ) (part : ContextValue) (at : Option ℕ) → IsAction world a action.now
        → IsPairAt world p r part at pair.now → certain ≡ Certain.Never → IsNeverWhere world p a r part at) }
{
    one_stamp();
    one_decision();
    allowed_certain(alloc, pair, action)
}

/// What a principal may do with what it asks for, where keys have no values but those of the world.
pub fn plain_pair<'a>(alloc: Global, scene: Scene<'a, '_>) -> Result<Pair<'a>, OutOfMemory>
    ensures is { IfOk result (λ pair. (other : WorldValue) (r : ℕ) → IsSeat scene.entry.world.now scene.entry.target other r
        → IsPairAt other scene.entry.p r [] None pair) }
    ensures principal { IfOk result (λ pair. pair.principal ≡ scene.entry.p) }
    ensures resource { IfOk result (λ pair. (other : WorldValue) (r : ℕ) → IsSeat scene.entry.world.now scene.entry.target other r
        → pair.resource ≡ r) }
{
    let none = Vec::new(alloc);
    pair_of(alloc, scene, &none, None)
}

/// The same in those contexts in which these keys have these values, at this moment, if there is one. The keys have to be open there:
/// where they are not, it is as if there were no memory.
pub fn pair_of<'a, 's>(
    alloc: Global,
    scene: Scene<'a, 's>,
    own: &'s Part,
    moment: Option<u64>,
) -> Result<Pair<'a>, OutOfMemory>
    requires moment { IfSome moment (λ tried. tried ≤ last_moment) }
    ensures is { IfOk result (λ pair. (other : WorldValue) (r : ℕ) → IsSeat scene.entry.world.now scene.entry.target other r
        → IsPairAt other scene.entry.p r own.entry.now.items moment pair) }
    ensures principal { IfOk result (λ pair. pair.principal ≡ scene.entry.p) }
    ensures resource { IfOk result (λ pair. (other : WorldValue) (r : ℕ) → IsSeat scene.entry.world.now scene.entry.target other r
        → pair.resource ≡ r) }
{
    let statements = scene.statements(alloc)?;
    let chances = chances_in(alloc, scene, statements.as_slice(), own, moment)?;
    Ok(Pair {
        principal: scene.p,
        resource: scene.number(),
        frame: scene.frame(),
        chances,
    })
}

/// Those of the statements that may match in these contexts.
fn chances_in<'a: 's, 's>(
    alloc: Global,
    scene: Scene<'s, 's>,
    statements: &[Standing<'a>],
    own: &'s Part,
    moment: Option<u64>,
) -> Result<Vec<Chance<'a>>, OutOfMemory>
    requires { IfSome moment (λ tried. tried ≤ last_moment) }
    ensures { IfOk result (λ chances. (other : WorldValue) (r : ℕ) → IsSeat scene.entry.world.now scene.entry.target other r
        → AreChancesAt other scene.entry.p r own.entry.now.items moment (map placed_value statements.now) chances.items) }
{
    let derived = scene.derived(alloc, looked_at(scene.world, moment))?;
    let Ok(context) = scene.context(alloc, own, &derived) else {
        return Err(OutOfMemory);
    };
    let access = Access {
        requester: scene.requester(),
        resource: scene.text(),
        context: &context,
    };
    let known = scene.known(own, moment);
    chances_of(alloc, statements, access, &known)
}

/// The moment of the context that is looked at.
fn looked_at(world: &World, moment: Option<u64>) -> u64
    requires { IfSome moment (λ tried. tried ≤ last_moment) }
    ensures most { result ≤ last_moment }
    ensures is { IfSome moment (λ tried. result ≡ tried) }
    ensures first { (later : ℕ) → IfSome moment (λ tried. later ≡ tried) → world.now.moment ≤ later → result ≤ later }
{
    match moment {
        Some(tried) => tried,
        None => world.moment(),
    }
}

/// Those of the statements that may match.
fn chances_of<'a: 'c, 'c>(
    alloc: Global,
    statements: &[Standing<'a>],
    access: Access<'_, 'c>,
    known: &Known<'_>,
) -> Result<Vec<Chance<'a>>, OutOfMemory>
    ensures { IfOk result (λ chances. AreChances (access_of access.entry) (Follows known.now access.entry.context.now)
        (map placed_value statements.now) chances.items) }
{
    let mut chances = Vec::new(alloc);
    for &standing in statements {
        let certain = rest_certain(alloc, standing.statement, access, known)?;
        add_chance(&mut chances, standing, certain, access.requester)?;
    }
    Ok(chances)
}

/// Puts a statement of which this is known behind the others, where it may match.
fn add_chance<'a>(
    chances: &mut Vec<Chance<'a>>,
    standing: Standing<'a>,
    certain: Certain,
    requester: &Requester,
) -> Result<(), OutOfMemory>
    ensures { OnOk result (chances.new.items ≡ chances.old.items
        ++ (if may_match certain then chance_of requester.now standing.entry certain ∷ [] else [])) }
{
    if certain == Certain::Never {
        return Ok(());
    }
    chances.push(Chance {
        matched: matched_of(standing, requester),
        statement: standing.statement,
        certain,
    })?;
    Ok(())
}

/// Whether the request for this action is allowed, whatever statements may match.
fn allowed_certain(alloc: Global, pair: &Pair<'_>, action: &str) -> Result<Certain, OutOfMemory>
    ensures { IfOk result (λ certain. (access : AccessValue) (known : List (List ℕ)) (a : ApplicableValue) → IsPairOf access known a pair.now
        → Tells certain (Follows known access.context) (λ other. IsDecision a (request_in access action.now other) decision.Allowed)) }
{
    let bounds = acting(alloc, pair.chances.as_slice(), action)?;
    Ok(bounds.certain(pair.frame))
}

/// What those of the statements that act on this action allow at most and at least.
fn acting(alloc: Global, chances: &[Chance<'_>], action: &str) -> Result<Bounds, OutOfMemory>
    ensures { IfOk result (λ bounds. (access : AccessValue) (known : List (List ℕ)) → All (IsChance access (Follows known access.context)) chances.now
        → AreBounds access action.now (Follows known access.context) (map placed_of chances.now) bounds) }
{
    let mut bounds = Bounds::new(alloc);
    for &chance in chances {
        bounds.add(chance.matched, certain_on(chance, action))?;
    }
    Ok(bounds)
}

/// Whether the statement matches requests for this action.
fn certain_on(chance: Chance<'_>, action: &str) -> Certain
    ensures { (access : AccessValue) (known : List (List ℕ)) → IsChance access (Follows known access.context) chance.entry
        → Tells result (Follows known access.context) (λ other. IsMatched (request_in access action.now other) (placed_of chance.entry)) }
{
    if !action_matches(chance.statement.action(), action) {
        return Certain::Never;
    }
    chance.certain
}
