// Which resource texts match which resources, as far as it is remembered, and whether statements match by it.
ghost use Rattle.std.specs.Prelude.{◌≡◌, ◌⊎◌, ◌↔◌, ◌≤◌, Contains, IfSome, IsTrue, IfOk};
ghost use Rattle.std.specs.Str.{chars};
ghost use Rattle.iam_context.specs.Context.{ContextValue};
ghost use Rattle.iam_glob.specs.Glob.{Matches};
ghost use Rattle.iam_match.specs.Request.{access_of};
ghost use Rattle.iam_match.specs.Statement.{ResourceMatches, RestMatches};
ghost use Rattle.iam_world.specs.World.{WorldValue};
ghost use Rattle.iam_engine.specs.Cache.{Entry, HasArn, Remembers};
ghost use Rattle.iam_engine.specs.Known.{TellsOfText, TellsOfTexts};

use iam_index::Texts;
use iam_layers::World;
use iam_match::{Access, rest_matches_with};
use iam_policy::Statement;
use iam_text::{Glob, OutOfMemory, Template, TemplateForm};
use lru::LruCache;
use std::alloc::Global;
use std::marker::Model;
use std::num::NonZeroUsize;

/// By the numbers of a text and a resource, whether the one matches the other.
type Kept = LruCache<(usize, u64), bool>;

/// Tells whether texts without variables match resources of a world, and remembers so many answers, the last ones. Other texts
/// are not remembered: what they match depends on who asks. A contract sees the world.
#[derive(Drop)]
pub struct MatchCache<'a> {
    world: &'a World,
    texts: Texts<'a>,
    kept: Kept,
}

impl<'a> Model for MatchCache<'a> {
    ghost Value = { WorldValue };

    ghost view = { λ cache. cache.world.now };

    ghost invariant = { λ cache. Remembers cache.world.now cache.texts cache.kept.entries };
}

impl<'a> MatchCache<'a> {
    /// Nothing is remembered yet.
    pub fn new(
        alloc: Global,
        world: &'a World,
        texts: Texts<'a>,
        capacity: usize,
    ) -> Result<MatchCache<'a>, OutOfMemory>
        requires { 1 ≤ capacity }
        ensures { IfOk result (λ cache. cache ≡ world.entry.now) }
    {
        let kept = LruCache::sparse(alloc, NonZeroUsize::new(capacity).unwrap())?;
        Ok(MatchCache { world, texts, kept })
    }

    /// The world whose resources it tells of.
    pub fn world(&self) -> &'a World
        ensures { result.now ≡ self.now }
    {
        self.world
    }

    /// Whether the pattern of a text matches resource r, which has this ARN. Where there is no memory for the answer, it is not
    /// remembered.
    pub fn matches(&mut self, pattern: &Glob, r: u64, arn: &str) -> bool
        requires { HasArn self.old r arn.now }
        ensures matched { IsTrue result ↔ Matches pattern.now (chars arn.now) }
        ensures same { self.new ≡ self.old }
    {
        matches(&self.texts, &mut self.kept, pattern, r, arn)
    }
}

/// Whether the pattern matches resource r, which has this ARN: by what is kept, where the pattern is that of a text with a number.
fn matches(texts: &Texts<'_>, kept: &mut Kept, pattern: &Glob, r: u64, arn: &str) -> bool
    ensures matched { (world : WorldValue) → HasArn world r arn.now → Remembers world texts.now kept.old.entries
        → IsTrue result ↔ Matches pattern.now (chars arn.now) }
    ensures right { (world : WorldValue) → HasArn world r arn.now → Remembers world texts.now kept.old.entries
        → Remembers world texts.now kept.new.entries }
{
    let Some(number) = texts.number(pattern) else {
        return pattern.matches(arn);
    };
    if let Some(matched) = recall(kept, number, r) {
        return matched;
    }
    let matched = pattern.matches(arn);
    remember(kept, number, r, matched);
    matched
}

/// Whether the text matches the resource, where it is kept.
fn recall(kept: &mut Kept, text: usize, resource: u64) -> Option<bool>
    ensures found { IfSome result (λ matched. Contains kept.old.entries ((text, resource), matched)) }
    ensures same { (e : Entry) → Contains kept.new.entries e → Contains kept.old.entries e }
{
    kept.get(&(text, resource)).copied()
}

/// Keeps whether the text matches the resource. Where memory is refused, it is not kept.
fn remember(kept: &mut Kept, text: usize, resource: u64, matched: bool)
    ensures { (e : Entry) → Contains kept.new.entries e → Contains kept.old.entries e ⊎ (e ≡ ((text, resource), matched)) }
{
    match kept.put((text, resource), matched) {
        Ok(_) => (),
        Err(_) => (),
    }
}

/// Whether all elements of the statement but its action element match.
pub fn rest_matches<'c>(
    alloc: Global,
    cache: &mut MatchCache<'_>,
    statement: &'c Statement,
    access: Access<'_, 'c>,
    r: u64,
) -> Result<bool, OutOfMemory>
    requires { HasArn cache.old r access.resource.now }
    ensures matched { IfOk result (λ matched. IsTrue matched ↔ RestMatches statement.now (access_of access.entry)) }
    ensures same { cache.new ≡ cache.old }
{
    let known = known_match(cache, statement, r, access.resource);
    rest_matches_with(alloc, statement, access, known)
}

/// Whether the resource element of the statement matches resource r, which has this ARN, whoever asks and in whatever context:
/// `None` where it has variables, or where there is no such element.
fn known_match(cache: &mut MatchCache<'_>, statement: &Statement, r: u64, arn: &str) -> Option<bool>
    requires { HasArn cache.old r arn.now }
    ensures known { IfSome result (λ known. (context : ContextValue) → IsTrue known ↔ ResourceMatches statement.now.resource arn.now context) }
    ensures same { cache.new ≡ cache.old }
{
    let element = statement.resource()?;
    let some = some_matches(cache, element.texts(), r, arn)?;
    Some(element.is_negated() != some)
}

/// Whether some text of an element matches the resource; `None` where one with variables comes before.
fn some_matches(cache: &mut MatchCache<'_>, texts: &[Template], r: u64, arn: &str) -> Option<bool>
    requires { HasArn cache.old r arn.now }
    ensures told { IfSome result (λ some. (context : ContextValue) → TellsOfTexts context arn.now texts.now some) }
    ensures same { cache.new ≡ cache.old }
{
    for text in texts {
        if text_matches(cache, text, r, arn)? {
            return Some(true);
        }
    }
    Some(false)
}

/// Whether the text matches the resource; `None` where it has variables.
fn text_matches(cache: &mut MatchCache<'_>, text: &Template, r: u64, arn: &str) -> Option<bool>
    requires { HasArn cache.old r arn.now }
    ensures told { IfSome result (λ matched. (context : ContextValue) → TellsOfText context arn.now text.now matched) }
    ensures same { cache.new ≡ cache.old }
{
    match text.form() {
        TemplateForm::Fixed(pattern) => Some(cache.matches(pattern, r, arn)),
        TemplateForm::Open(_) => None,
    }
}
