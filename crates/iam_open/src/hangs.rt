// What an answer hangs on: the statements of which it is open whether they match, and the keys that these ask for and that are not known.
//
// Of two contexts in question in which these keys have the same values, each statement matches both or neither: one that is not open tells
// the same in all of them, and an open one asks for no other key.
ghost use Rattle.std.specs.Prelude.{◌≡◌, ◌<◌, ◌∷◌, [], ℕ, IfOk, OnOk, length, map, option_copied};
ghost use Rattle.std.specs.List.{flat_map};
ghost use Rattle.iam_context.specs.Context.{has_key};
ghost use Rattle.iam_decision.specs.Code.Scan.{placed_value};
ghost use Rattle.iam_layers.specs.Cell.{IsAction};
ghost use Rattle.iam_match.specs.Request.{access_of};
ghost use Rattle.iam_open.specs.Asks.{added, all_added, element_keys, entry_keys, keys_asked, operand_keys, piece_keys, text_keys};
ghost use Rattle.iam_open.specs.Code.Added.{AreListedIn, IsAdded};
ghost use Rattle.iam_open.specs.Hangs.{AreListed, AreListedOf, HangsOn};
ghost use Rattle.iam_open.specs.Seat.{IsSeat};
ghost use Rattle.iam_open.specs.Turned.{IsTurned};
ghost use Rattle.iam_text.specs.Stretches.{piece_of};
ghost use Rattle.iam_world.specs.World.{WorldValue};

use crate::answer::Turned;
use crate::certain::Certain;
use crate::known::{Known, is_same};
use crate::scene::Scene;
use crate::statement::statement_certain;
use iam_condition::{Entry, Operand};
use iam_context::{Draft, Text};
use iam_decision::{Place, Standing, one_decision};
use iam_layers::{OutOfMemory, World};
use iam_match::{Access, Statement};
use iam_policy::Resources;
use iam_text::{Form, Template, TemplateForm};
use iam_unasked::unasked_keys;
use iam_value::one_stamp;
use std::alloc::Global;

/// What an answer hangs on.
#[derive(Drop)]
pub struct Hangs {
    /// Where the statements stand of which it is open whether they match, in place order.
    pub places: Vec<Place>,
    /// The keys that these ask for and that are not known, each once, as the first of them writes it.
    pub keys: Vec<Text>,
}

/// What it hangs on what is said of the request of principal p for action a on resource r, each below the number of its kind: nothing, where
/// it is allowed in all contexts in question or in none.
pub fn hangs_of(
    alloc: Global,
    world: &World,
    p: u64,
    a: u64,
    r: u64,
    turned: &Turned,
) -> Result<Hangs, OutOfMemory>
    requires principal { p < length world.now.principals }
    requires action { a < length world.now.actions }
    requires resource { r < length world.now.resources }
    requires turned { IsTurned (world.now ∷ []) world.now p a r turned.now }
    ensures keys { IfOk result (λ hangs. HangsOn (world.now ∷ []) world.now p a r hangs.keys.items) }
    ensures listed { IfOk result (λ hangs. AreListedOf (world.now ∷ []) world.now p a r turned.now hangs.places.items hangs.keys.items) }
{
    let none = Vec::new(alloc);
    let scene = Scene::named(world, p, r, &none);
    scene_hangs(alloc, scene, world.action_text(a), turned)
}

/// The same of a request for an action and for what may be no resource of the world.
pub fn scene_hangs(
    alloc: Global,
    scene: Scene<'_, '_>,
    action: &str,
    turned: &Turned,
) -> Result<Hangs, OutOfMemory>
    ensures keys { IfOk result (λ hangs. (other : WorldValue) (a r : ℕ) → IsSeat scene.entry.world.now scene.entry.target other r
        → IsAction other a action.now → IsTurned (other ∷ []) other scene.entry.p a r turned.now
        → HangsOn (other ∷ []) other scene.entry.p a r hangs.keys.items) }
    ensures listed { IfOk result (λ hangs. (other : WorldValue) (a r : ℕ) → IsSeat scene.entry.world.now scene.entry.target other r
        → IsAction other a action.now → AreListedOf (other ∷ []) other scene.entry.p a r turned.now hangs.places.items hangs.keys.items) }
{
    match turned {
        Turned::Always => Ok(Hangs::on_nothing(alloc)),
        Turned::Never => Ok(Hangs::on_nothing(alloc)),
        Turned::Possible(_) => hangs_in(alloc, scene, action),
        Turned::Open => hangs_in(alloc, scene, action),
    }
}

/// What it hangs on whether the request is allowed.
fn hangs_in(alloc: Global, scene: Scene<'_, '_>, action: &str) -> Result<Hangs, OutOfMemory>
    ensures keys { IfOk result (λ hangs. (other : WorldValue) (a r : ℕ) → IsSeat scene.entry.world.now scene.entry.target other r
        → IsAction other a action.now → HangsOn (other ∷ []) other scene.entry.p a r hangs.keys.items) }
    ensures listed { IfOk result (λ hangs. (other : WorldValue) (a r : ℕ) → IsSeat scene.entry.world.now scene.entry.target other r
        → IsAction other a action.now → AreListed (other ∷ []) other scene.entry.p a r hangs.places.items hangs.keys.items) }
{
    one_stamp();
    one_decision();
    unasked_keys();
    let none = Vec::new(alloc);
    let derived = scene.derived(alloc, scene.world.moment())?;
    // The parts of a world's contexts can be joined, so that nothing is refused but memory.
    let Ok(context) = scene.context(alloc, &none, &derived) else {
        return Err(OutOfMemory);
    };
    let access = Access {
        requester: scene.requester(),
        resource: scene.text(),
        context: &context,
    };
    let known = scene.known(&none, None);
    let statements = scene.statements(alloc)?;
    open_of(alloc, statements.as_slice(), access, action, &known)
}

/// Those of the statements of which it is open whether they match this request, and the keys that they ask for.
fn open_of<'c>(
    alloc: Global,
    statements: &[Standing<'c>],
    access: Access<'_, 'c>,
    action: &str,
    known: &Known<'_>,
) -> Result<Hangs, OutOfMemory>
    ensures { IfOk result (λ hangs. AreListedIn known.now (access_of access.entry) action.now (map placed_value statements.now)
        hangs.places.items hangs.keys.items) }
{
    let mut hangs = Hangs::on_nothing(alloc);
    for &standing in statements {
        hangs.add(alloc, standing, access, action, known)?;
    }
    Ok(hangs)
}

impl Hangs {
    fn on_nothing(alloc: Global) -> Hangs
        ensures keys { result.keys.items ≡ [] }
        ensures places { result.places.items ≡ [] }
    {
        Hangs {
            places: Vec::new(alloc),
            keys: Vec::new(alloc),
        }
    }

    /// Adds a statement, if it is open whether it matches.
    fn add<'c>(
        &mut self,
        alloc: Global,
        standing: Standing<'c>,
        access: Access<'_, 'c>,
        action: &str,
        known: &Known<'_>,
    ) -> Result<(), OutOfMemory>
        ensures { OnOk result (IsAdded known.now (access_of access.entry) action.now (placed_value standing.entry) self.old self.new) }
    {
        match statement_certain(alloc, standing.statement, access, action, known)? {
            Certain::Always => Ok(()),
            Certain::Never => Ok(()),
            Certain::Open => {
                self.places.push(standing.place)?;
                add_statement(alloc, &mut self.keys, standing.statement, known)
            }
        }
    }
}

/// Adds the keys that a statement asks for, of those that are not known.
fn add_statement(
    alloc: Global,
    keys: &mut Vec<Text>,
    statement: &Statement,
    known: &Known<'_>,
) -> Result<(), OutOfMemory>
    ensures { OnOk result (keys.new.items ≡ all_added known.now keys.old.items (keys_asked statement.now)) }
{
    add_element(alloc, keys, statement.resource(), known)?;
    add_conditions(alloc, keys, statement.conditions(), known)
}

fn add_element(
    alloc: Global,
    keys: &mut Vec<Text>,
    element: Option<&Resources>,
    known: &Known<'_>,
) -> Result<(), OutOfMemory>
    ensures { OnOk result (keys.new.items ≡ all_added known.now keys.old.items (element_keys (option_copied element.entry))) }
{
    match element {
        None => Ok(()),
        Some(element) => add_texts(alloc, keys, element.texts(), known),
    }
}

fn add_texts(
    alloc: Global,
    keys: &mut Vec<Text>,
    texts: &[Template],
    known: &Known<'_>,
) -> Result<(), OutOfMemory>
    ensures { OnOk result (keys.new.items ≡ all_added known.now keys.old.items (flat_map text_keys texts.now)) }
{
    for text in texts {
        add_text(alloc, keys, text, known)?;
    }
    Ok(())
}

fn add_conditions(
    alloc: Global,
    keys: &mut Vec<Text>,
    entries: &[Entry],
    known: &Known<'_>,
) -> Result<(), OutOfMemory>
    ensures { OnOk result (keys.new.items ≡ all_added known.now keys.old.items (flat_map entry_keys entries.now)) }
{
    for entry in entries {
        add_entry(alloc, keys, entry, known)?;
    }
    Ok(())
}

/// Adds the key of an entry, and those of the variables in its values.
fn add_entry(
    alloc: Global,
    keys: &mut Vec<Text>,
    entry: &Entry,
    known: &Known<'_>,
) -> Result<(), OutOfMemory>
    ensures { OnOk result (keys.new.items ≡ all_added known.now keys.old.items (entry_keys entry.now)) }
{
    add_key(alloc, keys, entry.key(), known)?;
    add_values(alloc, keys, entry.values(), known)
}

fn add_values(
    alloc: Global,
    keys: &mut Vec<Text>,
    values: &[Operand],
    known: &Known<'_>,
) -> Result<(), OutOfMemory>
    ensures { OnOk result (keys.new.items ≡ all_added known.now keys.old.items (flat_map operand_keys values.now)) }
{
    for value in values {
        add_value(alloc, keys, value, known)?;
    }
    Ok(())
}

fn add_value(
    alloc: Global,
    keys: &mut Vec<Text>,
    value: &Operand,
    known: &Known<'_>,
) -> Result<(), OutOfMemory>
    ensures { OnOk result (keys.new.items ≡ all_added known.now keys.old.items (operand_keys value.now)) }
{
    match value {
        Operand::Text(text) => add_text(alloc, keys, text, known),
        _ => Ok(()),
    }
}

/// Adds the keys of the variables of a text.
fn add_text(
    alloc: Global,
    keys: &mut Vec<Text>,
    text: &Template,
    known: &Known<'_>,
) -> Result<(), OutOfMemory>
    ensures { OnOk result (keys.new.items ≡ all_added known.now keys.old.items (text_keys text.now)) }
{
    match text.form() {
        TemplateForm::Fixed(_) => Ok(()),
        TemplateForm::Open(draft) => add_draft(alloc, keys, draft, known),
    }
}

fn add_draft(
    alloc: Global,
    keys: &mut Vec<Text>,
    draft: &Draft,
    known: &Known<'_>,
) -> Result<(), OutOfMemory>
    ensures { OnOk result (keys.new.items ≡ all_added known.now keys.old.items (text_keys draft.now)) }
{
    let mut left = draft.stretches();
    while let Some((_, form, behind)) = left.first_form() {
        add_form(alloc, keys, form, known)?;
        left = behind;
    }
    Ok(())
}

fn add_form(
    alloc: Global,
    keys: &mut Vec<Text>,
    form: Form<'_>,
    known: &Known<'_>,
) -> Result<(), OutOfMemory>
    ensures { OnOk result (keys.new.items ≡ all_added known.now keys.old.items (piece_keys (piece_of form.entry))) }
{
    match form {
        Form::Literal(_) => Ok(()),
        Form::Named(key, _) => add_key(alloc, keys, key, known),
    }
}

/// Adds a key, unless it is known or stands there.
fn add_key(
    alloc: Global,
    keys: &mut Vec<Text>,
    key: &str,
    known: &Known<'_>,
) -> Result<(), OutOfMemory>
    ensures { OnOk result (keys.new.items ≡ added known.now keys.old.items key.now) }
{
    if known.has(key) {
        return Ok(());
    }
    if has_key(keys.as_slice(), key) {
        return Ok(());
    }
    keys.push(Text::read(alloc, key)?)?;
    Ok(())
}

/// Whether the key is one of these.
fn has_key(keys: &[Text], key: &str) -> bool
    ensures { result ≡ has_key keys.now key.now }
{
    for it in keys {
        if is_same(it.as_str(), key) {
            return true;
        }
    }
    false
}
