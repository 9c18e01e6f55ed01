// The rows that answer for a principal what is asked of all names, whatever values the keys have that nothing gives.
ghost use Rattle.std.specs.Prelude.{◌≡◌, ◌<◌, IfOk, None, length, map, string_bytes};
ghost use Rattle.std.specs.Arc.{arc_value};
ghost use Rattle.iam_every.specs.Code.Rows.{AreMatched, AreWalksOf, IsGiven};
ghost use Rattle.iam_every.specs.Every.{AreThere, every_of, line_of};
ghost use Rattle.iam_open_every.specs.Actions.{AreAllActions};
ghost use Rattle.iam_open_every.specs.Made.{AreJoined, AreOfAction, IsRowOn, IsSaidAt, unshown_row};
ghost use Rattle.iam_open_every.specs.Row.{row_of};
ghost use Rattle.iam_open_every.specs.Rows.{AreRows};
ghost use Rattle.iam_open_every.specs.Spots.{AreSpots, IsSpot, spot_of};

use crate::actions::{alike_actions_are_turned_alike, all_actions};
use crate::lines::scene_of;
use crate::said::{Said, said_on};
use crate::spots::{Spot, spots_of};
use iam_every::{Asked, Given, Line, action_text, line_patterns, names_of, shared_text};
use iam_glob::Glob;
use iam_kinds::Walks;
use iam_match::OutOfMemory;
use std::alloc::Global;
use std::sync::Arc;

/// A request, and what is said of it; or a line of which not all could be shown, by its pattern as it is written.
#[derive(Drop)]
pub struct Row {
    pub action_text: Arc<String>,
    pub resource_text: Arc<String>,
    /// `None` where not all texts of the line, or not all actions, could be shown.
    pub said: Option<Said>,
}

impl Row {
    ghost use Rattle.std.specs.Prelude.{◌≡◌};
    ghost use Rattle.iam_open_every.specs.Row.{row_of};

    pub fn action(&self) -> &str
        ensures { result.now ≡ (row_of self.now).action }
    {
        self.action_text.as_str()
    }

    pub fn resource(&self) -> &str
        ensures { result.now ≡ (row_of self.now).resource }
    {
        self.resource_text.as_str()
    }
}

/// The rows of principal p, which has to be below `principals()`: for one action after the other that of each resource of the world that a
/// line matches, which have to be these, of `*`, and line by line of one text like each that the line is the first to speak of, or one that
/// says that not all texts of the line can be shown. Where the actions have too many kinds, a row for each line says so.
///
/// AWS IAM User Guide, "AWS global condition context keys" and "Policy evaluation logic".
pub fn rows_of(
    alloc: Global,
    walks: &mut Walks,
    asked: Asked<'_>,
    matched: &[u64],
    p: u64,
    brief: bool,
) -> Result<Vec<Row>, OutOfMemory>
    requires walks { AreWalksOf asked.world.now walks.old }
    requires matched { AreMatched asked.world.now (map line_of asked.lines.now) matched.now }
    requires principal { p < length asked.world.now.principals }
    requires there { AreThere (every_of asked) }
    ensures walks { AreWalksOf asked.entry.world.now walks.new }
    ensures rows { IfOk result (λ rows. AreRows brief (every_of asked.entry) p (map row_of rows.items)) }
{
    let Some(actions) = all_actions(alloc, asked, p)? else {
        return unshown_lines(alloc, asked.lines, action_text(asked.actions));
    };
    let arn = Glob::read(alloc, "arn:*:*:*:*:*")?;
    let none = Vec::new(alloc);
    let names = names_of(alloc, asked.world)?;
    let patterns = line_patterns(alloc, asked.lines)?;
    let given = Given {
        asked,
        p,
        arn: arn.signs(),
        none: &none,
        matched,
        names: names.as_slice(),
        patterns: patterns.as_slice(),
    };
    given_rows(alloc, walks, given, actions.as_slice(), brief)
}

/// The rows for these actions, of which one is like each that is in question.
fn given_rows(
    alloc: Global,
    walks: &mut Walks,
    given: Given<'_>,
    actions: &[String],
    brief: bool,
) -> Result<Vec<Row>, OutOfMemory>
    requires given { IsGiven given }
    requires actions { AreAllActions (every_of given.asked) given.p (map string_bytes actions.now) }
    requires walks { AreWalksOf given.asked.world.now walks.old }
    ensures walks { AreWalksOf given.entry.asked.world.now walks.new }
    ensures rows { IfOk result (λ rows. AreRows brief (every_of given.entry.asked) given.entry.p (map row_of rows.items)) }
{
    alike_actions_are_turned_alike();
    let spots = spots_of(alloc, walks, given)?;
    rows_by(alloc, given, spots.as_slice(), actions, brief)
}

/// A row for each line, which says that the actions that are written so are too many.
fn unshown_lines(alloc: Global, lines: &[Line<'_>], actions: &str) -> Result<Vec<Row>, OutOfMemory>
    ensures { IfOk result (λ rows. map row_of rows.items ≡ map (unshown_row actions.now) (map line_of lines.now)) }
{
    let mut rows = Vec::with_capacity(alloc, lines.len())?;
    for line in lines {
        rows.push(unshown_row(alloc, actions, line.text)?)?;
    }
    Ok(rows)
}

/// A row that says that the line that is written so cannot be shown for this action.
fn unshown_row(alloc: Global, action: &str, text: &str) -> Result<Row, OutOfMemory>
    ensures { IfOk result (λ row. row_of row ≡ record { action = action.now; resource = text.now; said = None }) }
{
    Ok(Row {
        action_text: shared_text(alloc, action)?,
        resource_text: shared_text(alloc, text)?,
        said: None,
    })
}

/// For one action after the other a row for each text that is looked at.
fn rows_by(
    alloc: Global,
    given: Given<'_>,
    spots: &[Spot<'_>],
    actions: &[String],
    brief: bool,
) -> Result<Vec<Row>, OutOfMemory>
    requires given { IsGiven given }
    requires spots { AreSpots (every_of given.asked) given.p (map spot_of spots.now) }
    ensures { IfOk result (λ rows. AreJoined (AreOfAction brief (every_of given.entry.asked) given.entry.p (map spot_of spots.now))
        (map string_bytes actions.now) (map row_of rows.items)) }
{
    let mut rows = Vec::new(alloc);
    for action in actions {
        let shared = shared_text(alloc, action.as_str())?;
        let mut more = rows_for(alloc, given, spots, &shared, brief)?;
        rows.append(&mut more)?;
    }
    Ok(rows)
}

/// A row for the action and each text that is looked at, in order.
fn rows_for(
    alloc: Global,
    given: Given<'_>,
    spots: &[Spot<'_>],
    action: &Arc<String>,
    brief: bool,
) -> Result<Vec<Row>, OutOfMemory>
    requires given { IsGiven given }
    requires spots { AreSpots (every_of given.asked) given.p (map spot_of spots.now) }
    ensures { IfOk result (λ rows. AreOfAction brief (every_of given.entry.asked) given.entry.p (map spot_of spots.now)
        (string_bytes (arc_value action.now)) (map row_of rows.items)) }
{
    let mut rows = Vec::with_capacity(alloc, spots.len())?;
    for spot in spots {
        rows.push(row_on(alloc, given, spot, action, brief)?)?;
    }
    Ok(rows)
}

/// The row for the action and this text.
fn row_on(
    alloc: Global,
    given: Given<'_>,
    spot: &Spot<'_>,
    action: &Arc<String>,
    brief: bool,
) -> Result<Row, OutOfMemory>
    requires given { IsGiven given }
    requires spot { IsSpot (every_of given.asked) given.p (spot_of spot.now) }
    ensures { IfOk result (λ row. IsRowOn brief (every_of given.entry.asked) given.entry.p (string_bytes (arc_value action.now)) (spot_of spot.now)
        (row_of row)) }
{
    Ok(Row {
        action_text: action.clone()?,
        resource_text: spot.text.clone()?,
        said: said_of(alloc, given, spot, action.as_str(), brief)?,
    })
}

/// What is said of the request for the action on this text; `None` where there is none.
fn said_of(
    alloc: Global,
    given: Given<'_>,
    spot: &Spot<'_>,
    action: &str,
    brief: bool,
) -> Result<Option<Said>, OutOfMemory>
    requires given { IsGiven given }
    requires spot { IsSpot (every_of given.asked) given.p (spot_of spot.now) }
    ensures { IfOk result (IsSaidAt brief (every_of given.entry.asked) given.entry.p action.now (spot_of spot.now)) }
{
    match spot.unnamed {
        Some(unnamed) => {
            let scene = scene_of(given, unnamed, spot.text.as_str());
            Ok(Some(said_on(alloc, scene, action, brief)?))
        }
        None => Ok(None),
    }
}
