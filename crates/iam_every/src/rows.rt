// The rows that answer for a principal what is asked of all names.
ghost use Rattle.std.specs.Prelude.{◌≡◌, ◌<◌, ℕ, All, IfOk, List, None, OnOk, Some, length, map, string_bytes};
ghost use Rattle.std.specs.Arc.{arc_value};
ghost use Rattle.std.specs.List.{range_with_len, slice_get};
ghost use Rattle.iam_every.specs.Code.Acting.{IsActing};
ghost use Rattle.iam_every.specs.Code.Rows.{AreMatched, AreRowsOn, AreWalksOf, IsGiven, IsLinedBelow, IsNamedBelow, IsStar};
ghost use Rattle.iam_every.specs.Code.Told.{AreLined, AreNamed, AreStar};
ghost use Rattle.iam_every.specs.Every.{AreActions, AreRowsFor, AreThere, every_of, line_of, row_of, written_in};
ghost use Rattle.iam_every.specs.Made.{AreAsked, AreJoined, AreOfAction, AreOfLine, AreOfResource, AreOfStar, unshown_row};
ghost use Rattle.iam_every.specs.Rows.{AreRows};

use crate::acting::Acting;
use crate::asked::{Asked, Line, Which};
use crate::given::{Given, first_line, is_among, line_patterns, names_of};
use crate::meant::meant_actions;
use crate::told::{About, Told, add_rows, told_of};
use iam_decision::Verdict;
use iam_glob::Glob;
use iam_kinds::Walks;
use iam_match::OutOfMemory;
use std::alloc::Global;
use std::sync::Arc;

/// A request and its verdict; or a line of which not all could be shown, by its pattern as it is written.
#[derive(Drop)]
pub struct Row {
    pub action_text: Arc<String>,
    pub said: Arc<Said>,
}

impl Row {
    ghost use Rattle.std.specs.Prelude.{◌≡◌};
    ghost use Rattle.iam_every.specs.Every.{row_of};

    pub fn action(&self) -> &str
        ensures { result.now ≡ (row_of self.now).action }
    {
        self.action_text.as_str()
    }

    pub fn resource(&self) -> &str
        ensures { result.now ≡ (row_of self.now).resource }
    {
        self.said.resource.as_str()
    }

    pub fn verdict(&self) -> &Option<Verdict>
        ensures { result.now ≡ (row_of self.now).verdict }
    {
        &self.said.verdict
    }
}

/// A row but for its action.
#[derive(Drop)]
pub struct Said {
    pub resource: String,
    /// `None` where more kinds would have to be looked at than there may be.
    pub verdict: Option<Verdict>,
}

/// The rows of principal p, which has to be below `principals()`, action by action: of each resource of the world that a line matches,
/// which have to be these, of `*`, and line by line of each kind of texts that the line is the first to speak of one, or one that says
/// that the line has too many kinds. Where the actions have too many kinds, a row for each line says so.
///
/// AWS IAM User Guide, "Policy evaluation logic".
pub fn rows_of(
    alloc: Global,
    walks: &mut Walks,
    asked: Asked<'_>,
    matched: &[u64],
    p: u64,
) -> Result<Vec<Row>, OutOfMemory>
    requires walks { AreWalksOf asked.world.now walks.old }
    requires matched { AreMatched asked.world.now (map line_of asked.lines.now) matched.now }
    requires principal { p < length asked.world.now.principals }
    requires there { AreThere (every_of asked) }
    ensures walks { AreWalksOf asked.entry.world.now walks.new }
    ensures rows { IfOk result (λ rows. AreRows (every_of asked.entry) p (map row_of rows.items)) }
{
    let Some(actions) = meant_actions(alloc, asked, p)? else {
        return unshown_lines(alloc, asked.lines, action_text(asked.actions));
    };
    let arn = Glob::read(alloc, "arn:*:*:*:*:*")?;
    let none = Vec::new(alloc);
    let names = names_of(alloc, asked.world)?;
    let patterns = line_patterns(alloc, asked.lines)?;
    let given = Given {
        asked,
        p,
        arn: arn.signs(),
        none: &none,
        matched,
        names: names.as_slice(),
        patterns: patterns.as_slice(),
    };
    given_rows(alloc, walks, given, actions.as_slice())
}

/// The rows for each of the actions, where it is worked out once what is told for actions that the same statements match.
fn given_rows(
    alloc: Global,
    walks: &mut Walks,
    given: Given<'_>,
    actions: &[String],
) -> Result<Vec<Row>, OutOfMemory>
    requires given { IsGiven given }
    requires actions { AreActions (every_of given.asked) given.p (map string_bytes actions.now) }
    requires asked { AreAsked (every_of given.asked) given.p (map string_bytes actions.now) }
    requires walks { AreWalksOf given.asked.world.now walks.old }
    ensures walks { AreWalksOf given.entry.asked.world.now walks.new }
    ensures rows { IfOk result (λ rows. AreRows (every_of given.entry.asked) given.entry.p (map row_of rows.items)) }
{
    let mut acting = Acting::new(alloc);
    let named = told_of_named(alloc, walks, &mut acting, given, actions)?;
    let star = told_of_star(alloc, walks, &mut acting, given, actions)?;
    let lined = told_of_lines(alloc, walks, &mut acting, given, actions)?;
    rows_for_all(
        alloc,
        given,
        named.as_slice(),
        &star,
        lined.as_slice(),
        actions,
    )
}

/// Which actions are in question, as it is written.
pub fn action_text(actions: Which<'_>) -> &str
    ensures { result.now ≡ written_in actions.entry }
{
    match actions {
        Which::OfWorld => "*",
        Which::Matching(_, text) => text,
    }
}

/// A row for each line, which says that the actions that are written so are too many.
fn unshown_lines(alloc: Global, lines: &[Line<'_>], actions: &str) -> Result<Vec<Row>, OutOfMemory>
    ensures { IfOk result (λ rows. map row_of rows.items ≡ map (unshown_row actions.now) (map line_of lines.now)) }
{
    let mut rows = Vec::with_capacity(alloc, lines.len())?;
    for line in lines {
        rows.push(unshown_row(alloc, actions, line.text)?)?;
    }
    Ok(rows)
}

/// A row that says that the line that is written so cannot be shown for this action.
fn unshown_row(alloc: Global, action: &str, text: &str) -> Result<Row, OutOfMemory>
    ensures { IfOk result (λ row. row_of row ≡ record { action = action.now; resource = text.now; verdict = None }) }
{
    Ok(Row {
        action_text: shared_text(alloc, action)?,
        said: unshown(alloc, text)?,
    })
}

/// The text, to be shared.
pub fn shared_text(alloc: Global, text: &str) -> Result<Arc<String>, OutOfMemory>
    ensures { IfOk result (λ shared. string_bytes (arc_value shared) ≡ text.now) }
{
    let shared = Arc::new(alloc, String::from_str(alloc, text)?)?;
    Ok(shared)
}

/// What is told of a line that is written so where it cannot be shown.
pub fn unshown(alloc: Global, text: &str) -> Result<Arc<Said>, OutOfMemory>
    ensures resource { IfOk result (λ said. string_bytes (arc_value said).resource ≡ text.now) }
    ensures verdict { IfOk result (λ said. (arc_value said).verdict ≡ None) }
{
    let said = Said {
        resource: String::from_str(alloc, text)?,
        verdict: None,
    };
    let shared = Arc::new(alloc, said)?;
    Ok(shared)
}

/// What is told of each resource of the world that a line matches.
fn told_of_named<'a>(
    alloc: Global,
    walks: &mut Walks,
    acting: &mut Acting<'a>,
    given: Given<'a>,
    actions: &[String],
) -> Result<Vec<Told>, OutOfMemory>
    requires given { IsGiven given }
    requires walks { AreWalksOf given.asked.world.now walks.old }
    requires acting { All (IsActing (map string_bytes actions.now)) acting.old.known.items }
    ensures walks { AreWalksOf given.entry.asked.world.now walks.new }
    ensures acting { OnOk result (All (IsActing (map string_bytes actions.now)) acting.new.known.items) }
    ensures told { IfOk result (λ named. AreNamed given.entry (map string_bytes actions.now) named.items) }
{
    let mut named = Vec::with_capacity(alloc, given.matched.len())?;
    for i in 0..given.matched.len() {
        let about = About::Resource(given.matched[i]);
        named.push(told_of(alloc, walks, acting, given, about, actions)?)?;
    }
    Ok(named)
}

/// What is told of `*`, if a line speaks of it and no resource of the world has it.
fn told_of_star<'a>(
    alloc: Global,
    walks: &mut Walks,
    acting: &mut Acting<'a>,
    given: Given<'a>,
    actions: &[String],
) -> Result<Option<Told>, OutOfMemory>
    requires given { IsGiven given }
    requires walks { AreWalksOf given.asked.world.now walks.old }
    requires acting { All (IsActing (map string_bytes actions.now)) acting.old.known.items }
    ensures walks { AreWalksOf given.entry.asked.world.now walks.new }
    ensures acting { OnOk result (All (IsActing (map string_bytes actions.now)) acting.new.known.items) }
    ensures told { IfOk result (AreStar (every_of given.entry.asked) given.entry.p (map string_bytes actions.now)) }
{
    if is_among(given.names, "*") {
        return Ok(None);
    }
    match first_line(given.asked.lines, "*") {
        Some(k) => Ok(Some(told_of(alloc, walks, acting, given, About::Star(k), actions)?)),
        None => Ok(None),
    }
}

/// What is told of the texts of each line.
fn told_of_lines<'a>(
    alloc: Global,
    walks: &mut Walks,
    acting: &mut Acting<'a>,
    given: Given<'a>,
    actions: &[String],
) -> Result<Vec<Told>, OutOfMemory>
    requires given { IsGiven given }
    requires walks { AreWalksOf given.asked.world.now walks.old }
    requires acting { All (IsActing (map string_bytes actions.now)) acting.old.known.items }
    ensures walks { AreWalksOf given.entry.asked.world.now walks.new }
    ensures acting { OnOk result (All (IsActing (map string_bytes actions.now)) acting.new.known.items) }
    ensures told { IfOk result (λ lined. AreLined (every_of given.entry.asked) given.entry.p (map string_bytes actions.now) lined.items) }
{
    let mut lined = Vec::with_capacity(alloc, given.asked.lines.len())?;
    for k in 0..given.asked.lines.len() {
        lined.push(told_of(alloc, walks, acting, given, About::Line(k), actions)?)?;
    }
    Ok(lined)
}

/// The rows for each of the actions.
fn rows_for_all(
    alloc: Global,
    given: Given<'_>,
    named: &[Told],
    star: &Option<Told>,
    lined: &[Told],
    actions: &[String],
) -> Result<Vec<Row>, OutOfMemory>
    requires given { IsGiven given }
    requires named { AreNamed given (map string_bytes actions.now) named.now }
    requires star { AreStar (every_of given.asked) given.p (map string_bytes actions.now) star.now }
    requires lined { AreLined (every_of given.asked) given.p (map string_bytes actions.now) lined.now }
    requires actions { AreActions (every_of given.asked) given.p (map string_bytes actions.now) }
    requires asked { AreAsked (every_of given.asked) given.p (map string_bytes actions.now) }
    ensures { IfOk result (λ rows. AreRows (every_of given.entry.asked) given.entry.p (map row_of rows.items)) }
{
    let mut rows = Vec::new(alloc);
    for (i, action) in actions.iter().enumerate() {
        let shared = shared_text(alloc, action.as_str())?;
        let mut further = rows_for(alloc, given, named, star, lined, i, &shared)?;
        rows.append(&mut further)?;
    }
    Ok(rows)
}

/// The rows for action i: those of the resources of the world, of `*` and of each line.
fn rows_for(
    alloc: Global,
    given: Given<'_>,
    named: &[Told],
    star: &Option<Told>,
    lined: &[Told],
    i: usize,
    action: &Arc<String>,
) -> Result<Vec<Row>, OutOfMemory>
    requires given { IsGiven given }
    requires told { (actions : List (List ℕ)) × (slice_get actions i ≡ Some (string_bytes (arc_value action.now))) × AreNamed given actions named.now
        × AreStar (every_of given.asked) given.p actions star.now × AreLined (every_of given.asked) given.p actions lined.now }
    ensures rows { IfOk result (λ rows. AreRowsFor (every_of given.entry.asked) given.entry.p (string_bytes (arc_value action.now)) (map row_of rows.items)) }
    ensures made { IfOk result (λ rows. AreOfAction (every_of given.entry.asked) given.entry.p (string_bytes (arc_value action.now)) (map row_of rows.items)) }
{
    let mut rows = named_rows(alloc, given, named, i, action)?;
    let mut starred = star_rows(alloc, given, star, i, action)?;
    rows.append(&mut starred)?;
    let mut further = rows_of_lines(alloc, given, lined, i, action)?;
    rows.append(&mut further)?;
    Ok(rows)
}

/// A row for each resource of the world that a line speaks of.
fn named_rows(
    alloc: Global,
    given: Given<'_>,
    named: &[Told],
    i: usize,
    action: &Arc<String>,
) -> Result<Vec<Row>, OutOfMemory>
    requires given { IsGiven given }
    requires told { (actions : List (List ℕ)) × (slice_get actions i ≡ Some (string_bytes (arc_value action.now))) × AreNamed given actions named.now }
    ensures rows { IfOk result (λ rows. AreRowsOn (every_of given.entry.asked) given.entry.p (string_bytes (arc_value action.now))
        (IsNamedBelow (every_of given.entry.asked) (length given.entry.asked.world.now.resources)) (map row_of rows.items)) }
    ensures made { IfOk result (λ rows. AreJoined (AreOfResource (every_of given.entry.asked) given.entry.p (string_bytes (arc_value action.now)))
        (range_with_len 0 (length given.entry.asked.world.now.resources)) (map row_of rows.items)) }
{
    let mut rows = Vec::with_capacity(alloc, named.len())?;
    for told in named {
        add_rows(&mut rows, told, i, action)?;
    }
    Ok(rows)
}

/// A row for `*`, if there is one.
fn star_rows(
    alloc: Global,
    given: Given<'_>,
    star: &Option<Told>,
    i: usize,
    action: &Arc<String>,
) -> Result<Vec<Row>, OutOfMemory>
    requires told { (actions : List (List ℕ)) × (slice_get actions i ≡ Some (string_bytes (arc_value action.now))) × AreStar (every_of given.asked) given.p actions star.now }
    ensures rows { IfOk result (λ rows. AreRowsOn (every_of given.entry.asked) given.entry.p (string_bytes (arc_value action.now)) (IsStar (every_of given.entry.asked))
        (map row_of rows.items)) }
    ensures made { IfOk result (λ rows. AreOfStar (every_of given.entry.asked) given.entry.p (string_bytes (arc_value action.now)) (map row_of rows.items)) }
{
    let mut rows = Vec::new(alloc);
    match star {
        Some(told) => {
            add_rows(&mut rows, told, i, action)?;
            Ok(rows)
        }
        None => Ok(rows),
    }
}

/// The rows of each line.
fn rows_of_lines(
    alloc: Global,
    given: Given<'_>,
    lined: &[Told],
    i: usize,
    action: &Arc<String>,
) -> Result<Vec<Row>, OutOfMemory>
    requires told { (actions : List (List ℕ)) × (slice_get actions i ≡ Some (string_bytes (arc_value action.now))) × AreLined (every_of given.asked) given.p actions lined.now }
    ensures rows { IfOk result (λ rows. AreRowsOn (every_of given.entry.asked) given.entry.p (string_bytes (arc_value action.now))
        (IsLinedBelow (every_of given.entry.asked) (length given.entry.asked.lines.now)) (map row_of rows.items)) }
    ensures made { IfOk result (λ rows. AreJoined (AreOfLine (every_of given.entry.asked) given.entry.p (string_bytes (arc_value action.now)))
        (range_with_len 0 (length given.entry.asked.lines.now)) (map row_of rows.items)) }
{
    let mut rows = Vec::new(alloc);
    for told in lined {
        add_rows(&mut rows, told, i, action)?;
    }
    Ok(rows)
}
