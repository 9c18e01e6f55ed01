// The contexts of a world, in their order.
ghost use Rattle.std.specs.Prelude.{◌≡◌, ◌≢◌, ℕ, List, ◌++◌, map, option_map, IfOk, IfErr, OnOk};
ghost use Rattle.std.specs.List.{AllByRecursion, filter_map, flat_map};
ghost use Rattle.serde_json.specs.View.{members_view, view};
ghost use Rattle.iam_context.specs.Keys.{HasKeys};
ghost use Rattle.iam_context.specs.Context.{keys_of};
ghost use Rattle.iam_context.specs.ContextFault.{IsClean, IsPartFault};
ghost use Rattle.iam_context.specs.declared.fault.ContextFault.{ContextFault};
ghost use Rattle.iam_json.specs.Scalar.{scalar_text};
ghost use Rattle.iam_shape.specs.LentWorld.{world_of};
ghost use Rattle.iam_world_context.specs.Clean.{AllClean, AreClean, HasContexts};
ghost use Rattle.iam_world_context.specs.Contexts.{IsFaulty, IsFaultyAmong, all_parts, parts, parts_of};
ghost use Rattle.iam_world_context.specs.Part.{members_part, part_of, value_texts};
ghost use Rattle.iam_world_context.specs.declared.fault.PartFault.TheVariants as p;

use crate::fault::PartFault;
use iam_context::{KeyName, Keys, Part, Values, part_fault};
use iam_json::{scalar_text, values};
use iam_shape::{Name, Path, PrincipalView, ResourceView, WorldView};
use iam_text::{OutOfMemory, Text};
use serde_json::{Map, Value};
use std::alloc::Global;

/// The contexts that a document gives: that of the world, of each principal and of each resource.
#[derive(Debug, Drop)]
pub struct Contexts {
    pub world: Part,
    pub principals: Vec<Part>,
    pub resources: Vec<Part>,
}

/// The texts of single values.
fn scalar_texts(alloc: Global, values: &[Value]) -> Result<Vec<Text>, OutOfMemory>
    ensures { IfOk result (λ texts. texts.items ≡ filter_map scalar_text (map view values.now)) }
{
    let mut texts = Vec::new(alloc);
    for value in values {
        if let Some(text) = scalar_text(alloc, value)? {
            texts.push(Text::from_string(text))?;
        }
    }
    Ok(texts)
}

/// The texts of a key's value: of each of a list, or of the one value.
fn value_texts(alloc: Global, value: &Value) -> Result<Values, OutOfMemory>
    ensures { IfOk result (λ texts. texts ≡ value_texts (view value.now)) }
{
    if let Some(list) = values(value) {
        return Ok(Values::from_vec(scalar_texts(alloc, list)?));
    }
    match scalar_text(alloc, value)? {
        Some(text) => Ok(Values::one(Text::from_string(text))),
        None => Ok(Values::from_vec(Vec::new(alloc))),
    }
}

/// The keys of an object, with their values.
fn members_part(alloc: Global, members: &Map<String, Value>) -> Result<Part, OutOfMemory>
    ensures { IfOk result (λ part. part.items ≡ members_part (members_view members.now.entries)) }
{
    let mut part = Vec::new(alloc);
    for (key, value) in members.iter() {
        let name = KeyName::given(Text::read(alloc, key.as_str())?);
        part.push((name, value_texts(alloc, value)?))?;
    }
    Ok(part)
}

/// The keys that a context gives, with their values.
pub fn read_part(alloc: Global, context: Option<&Value>) -> Result<Part, OutOfMemory>
    ensures { IfOk result (λ part. part.items ≡ part_of (option_map (λ d. view d.now) context.entry)) }
{
    let Some(value) = context else {
        return Ok(Vec::new(alloc));
    };
    match value.as_object() {
        Some(members) => members_part(alloc, members),
        None => Ok(Vec::new(alloc)),
    }
}

/// The keys that some contexts give, with their values.
fn read_parts(alloc: Global, contexts: &[Option<&Value>]) -> Result<Vec<Part>, OutOfMemory>
    ensures { IfOk result (λ read. map (λ part. part.items) read.items
        ≡ map (λ c. part_of (option_map (λ d. view d.now) c)) contexts.now) }
{
    let mut parts = Vec::new(alloc);
    for context in contexts {
        parts.push(read_part(alloc, *context)?)?;
    }
    Ok(parts)
}

/// Tests a part that stands at this path, beside others with these keys.
fn check_part<'a>(
    alloc: Global,
    path: Path,
    part: &'a Part,
    others: &Keys<'a>,
) -> Result<(), PartFault>
    ensures clean { OnOk result ((keys : List (List ℕ)) → HasKeys others.now keys → IsClean keys part.now.items) }
    ensures fault { IfErr result (λ fault. fault ≢ p.OutOfMemory
        → (keys : List (List ℕ)) → HasKeys others.now keys
        → (found : ContextFault) × (fault ≡ p.At path found) × IsPartFault keys part.now.items found) }
{
    match part_fault(alloc, part, others)? {
        Some(fault) => Err(PartFault::At(path, fault)),
        None => Ok(()),
    }
}

/// Tests the parts that members of a list give, each beside others with these keys.
fn check_parts<'a>(
    alloc: Global,
    list: Name,
    parts: &'a [Part],
    others: &Keys<'a>,
) -> Result<(), PartFault>
    ensures clean { OnOk result ((keys : List (List ℕ)) → HasKeys others.now keys
        → AreClean keys (map (λ part. part.items) parts.now)) }
    ensures fault { IfErr result (λ fault. fault ≢ p.OutOfMemory
        → (keys : List (List ℕ)) → HasKeys others.now keys
        → IsFaultyAmong (parts_of list keys (map (λ part. part.items) parts.now)) fault) }
{
    for (i, part) in parts.iter().enumerate() {
        check_part(alloc, Path::Field(list, i, Name::Context), part, others)?;
    }
    Ok(())
}

/// Tests the parts of the principals, beside that of the world.
fn check_principals(alloc: Global, world: &Part, principals: &[Part]) -> Result<(), PartFault>
    ensures clean { OnOk result (AreClean (keys_of world.now.items) (map (λ part. part.items) principals.now)) }
    ensures fault { IfErr result (λ fault. fault ≢ p.OutOfMemory
        → IsFaultyAmong (parts_of Name.Principals (keys_of world.now.items) (map (λ part. part.items) principals.now)) fault) }
{
    let mut keys = Keys::new(alloc);
    keys.add(world)?;
    check_parts(alloc, Name::Principals, principals, &keys)
}

/// Tests the parts of the resources, beside those of the world and of all principals.
fn check_resources(
    alloc: Global,
    world: &Part,
    principals: &[Part],
    resources: &[Part],
) -> Result<(), PartFault>
    ensures clean { OnOk result (AreClean (keys_of world.now.items ++ flat_map keys_of (map (λ part. part.items) principals.now))
        (map (λ part. part.items) resources.now)) }
    ensures fault { IfErr result (λ fault. fault ≢ p.OutOfMemory
        → IsFaultyAmong (parts_of Name.Resources (keys_of world.now.items ++ flat_map keys_of (map (λ part. part.items) principals.now))
        (map (λ part. part.items) resources.now)) fault) }
{
    let mut keys = Keys::new(alloc);
    keys.add(world)?;
    for part in principals {
        keys.add(part)?;
    }
    check_parts(alloc, Name::Resources, resources, &keys)
}

/// Tests all parts, in order.
fn check_contexts(alloc: Global, contexts: &Contexts) -> Result<(), PartFault>
    ensures clean { OnOk result (AllClean contexts.now.world.items (map (λ part. part.items) contexts.now.principals.items)
        (map (λ part. part.items) contexts.now.resources.items)) }
    ensures fault { IfErr result (λ fault. fault ≢ p.OutOfMemory
        → IsFaultyAmong (all_parts contexts.now.world.items (map (λ part. part.items) contexts.now.principals.items)
        (map (λ part. part.items) contexts.now.resources.items)) fault) }
{
    let world = &contexts.world;
    let principals = contexts.principals.as_slice();
    check_part(alloc, Path::Member(Name::Context), world, &Keys::new(alloc))?;
    check_principals(alloc, world, principals)?;
    check_resources(alloc, world, principals, contexts.resources.as_slice())
}

/// The contexts of the principals.
fn of_principals<'v>(
    alloc: Global,
    principals: &[PrincipalView<'v>],
) -> Result<Vec<Option<&'v Value>>, OutOfMemory>
    ensures { IfOk result (λ contexts. contexts.items ≡ map (λ p. p.context) principals.now) }
{
    principals
        .iter()
        .map(|principal| principal.context)
        .collect(alloc)
}

/// The contexts of the resources.
fn of_resources<'v>(
    alloc: Global,
    resources: &[ResourceView<'v>],
) -> Result<Vec<Option<&'v Value>>, OutOfMemory>
    ensures { IfOk result (λ contexts. contexts.items ≡ map (λ r. r.context) resources.now) }
{
    resources
        .iter()
        .map(|resource| resource.context)
        .collect(alloc)
}

/// The contexts that a document gives, or the first fault of them: that of the world is tested first, then that of each
/// principal beside the keys of the world, then that of each resource beside those of the world and of all principals.
pub fn read_contexts(alloc: Global, world: &WorldView<'_>) -> Result<Contexts, PartFault>
    ensures ok { IfOk result (HasContexts (world_of world.now)) }
    ensures clean { OnOk result (AllByRecursion (λ part. ¬ IsFaulty part.1) (parts (world_of world.now))) }
    ensures fault { IfErr result (λ fault. fault ≢ p.OutOfMemory → IsFaultyAmong (parts (world_of world.now)) fault) }
{
    let principals = of_principals(alloc, world.principals.as_slice())?;
    let resources = of_resources(alloc, world.resources.as_slice())?;
    let contexts = Contexts {
        world: read_part(alloc, world.context)?,
        principals: read_parts(alloc, principals.as_slice())?,
        resources: read_parts(alloc, resources.as_slice())?,
    };
    check_contexts(alloc, &contexts)?;
    Ok(contexts)
}
