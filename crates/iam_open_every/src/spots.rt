// Which texts of resources are looked at for a principal, whatever the action.
ghost use Rattle.std.specs.Prelude.{◌≡◌, ◌<◌, ◌∷◌, [], IfOk, length, map, string_bytes};
ghost use Rattle.std.specs.List.{AllZip, range_with_len};
ghost use Rattle.iam_every.specs.Code.Rows.{AreWalksOf, IsGiven, IsLined, IsLinedBelow, IsNamedAmong, IsStar};
ghost use Rattle.iam_every.specs.Every.{every_of};
ghost use Rattle.iam_open_every.specs.Code.Spots.{AreSpotsOn};
ghost use Rattle.iam_open_every.specs.Made.{AreJoined, AreLookedAt, AreOfLine, AreOfStar, IsOfResource};
ghost use Rattle.iam_open_every.specs.Spots.{AreSpots, spot_of, text_spot, unshown_spot};

use crate::lines::{LineTexts, line_texts};
use iam_every::{Given, first_line, is_among};
use iam_kinds::Walks;
use iam_layers::Unnamed;
use iam_match::OutOfMemory;
use std::alloc::Global;
use std::sync::Arc;

/// A text, of which something is said; or a line of which not all texts can be shown, by its pattern as it is written.
#[derive(Drop)]
pub struct Spot<'a> {
    pub text: Arc<String>,
    /// `None` where not all texts can be shown.
    pub unnamed: Option<Unnamed<'a>>,
}

/// What is looked at for a principal, whatever the action: each resource of the world that a line matches, `*`, and line by line one text
/// like each that the line is the first to speak of, or that not all can be shown.
///
/// AWS IAM User Guide, "IAM JSON policy elements: Resource" and "NotResource".
pub fn spots_of<'a>(
    alloc: Global,
    walks: &mut Walks,
    given: Given<'a>,
) -> Result<Vec<Spot<'a>>, OutOfMemory>
    requires given { IsGiven given }
    requires walks { AreWalksOf given.asked.world.now walks.old }
    ensures walks { AreWalksOf given.entry.asked.world.now walks.new }
    ensures spots { IfOk result (λ spots. AreSpots (every_of given.entry.asked) given.entry.p (map spot_of spots.items)) }
    ensures made { IfOk result (λ spots. AreLookedAt (every_of given.entry.asked) given.entry.p (map spot_of spots.items)) }
{
    let mut spots = named_spots(alloc, given)?;
    let mut star = star_spots(alloc, given)?;
    spots.append(&mut star)?;
    let mut lined = lined_spots(alloc, walks, given)?;
    spots.append(&mut lined)?;
    Ok(spots)
}

/// A text, of which this is said.
fn text_spot<'a>(alloc: Global, unnamed: Unnamed<'a>, text: String) -> Result<Spot<'a>, OutOfMemory>
    ensures { IfOk result (λ spot. spot_of spot ≡ text_spot unnamed.entry (string_bytes text)) }
{
    Ok(Spot {
        text: Arc::new(alloc, text)?,
        unnamed: Some(unnamed),
    })
}

/// Those of the resources of the world.
fn named_spots<'a>(alloc: Global, given: Given<'a>) -> Result<Vec<Spot<'a>>, OutOfMemory>
    requires given { IsGiven given }
    ensures spots { IfOk result (λ spots. AreSpotsOn (every_of given.entry.asked) given.entry.p
        (IsNamedAmong (every_of given.entry.asked) given.entry.matched.now) (map spot_of spots.items)) }
    ensures made { IfOk result (λ spots. AllZip (IsOfResource (every_of given.entry.asked)) given.entry.matched.now (map spot_of spots.items)) }
{
    let mut spots = Vec::with_capacity(alloc, given.matched.len())?;
    for i in 0..given.matched.len() {
        let r = given.matched[i];
        let text = String::from_str(alloc, given.asked.world.resource_text(r))?;
        spots.push(text_spot(alloc, Unnamed::Like(r), text)?)?;
    }
    Ok(spots)
}

/// That of `*`, if a line speaks of it and no resource of the world has it.
fn star_spots<'a>(alloc: Global, given: Given<'a>) -> Result<Vec<Spot<'a>>, OutOfMemory>
    requires given { IsGiven given }
    ensures spots { IfOk result (λ spots. AreSpotsOn (every_of given.entry.asked) given.entry.p
        (IsStar (every_of given.entry.asked)) (map spot_of spots.items)) }
    ensures made { IfOk result (λ spots. AreOfStar (every_of given.entry.asked) (map spot_of spots.items)) }
{
    if is_among(given.names, "*") {
        return Ok(Vec::new(alloc));
    }
    match first_line(given.asked.lines, "*") {
        Some(k) => one_spot(alloc, given.asked.lines[k].unnamed, "*"),
        None => Ok(Vec::new(alloc)),
    }
}

/// This text alone, of which this is said.
fn one_spot<'a>(
    alloc: Global,
    unnamed: Unnamed<'a>,
    text: &str,
) -> Result<Vec<Spot<'a>>, OutOfMemory>
    ensures { IfOk result (λ spots. map spot_of spots.items ≡ text_spot unnamed.entry text.now ∷ []) }
{
    let mut spots = Vec::with_capacity(alloc, 1)?;
    spots.push(text_spot(alloc, unnamed, String::from_str(alloc, text)?)?)?;
    Ok(spots)
}

/// Those of the lines.
fn lined_spots<'a>(
    alloc: Global,
    walks: &mut Walks,
    given: Given<'a>,
) -> Result<Vec<Spot<'a>>, OutOfMemory>
    requires given { IsGiven given }
    requires walks { AreWalksOf given.asked.world.now walks.old }
    ensures walks { AreWalksOf given.entry.asked.world.now walks.new }
    ensures spots { IfOk result (λ spots. AreSpotsOn (every_of given.entry.asked) given.entry.p
        (IsLinedBelow (every_of given.entry.asked) (length given.entry.asked.lines.now)) (map spot_of spots.items)) }
    ensures made { IfOk result (λ spots. AreJoined (AreOfLine (every_of given.entry.asked) given.entry.p)
        (range_with_len 0 (length given.entry.asked.lines.now)) (map spot_of spots.items)) }
{
    let mut spots = Vec::new(alloc);
    for k in 0..given.asked.lines.len() {
        let mut more = line_spots(alloc, walks, given, k)?;
        spots.append(&mut more)?;
    }
    Ok(spots)
}

/// Those of line k.
fn line_spots<'a>(
    alloc: Global,
    walks: &mut Walks,
    given: Given<'a>,
    k: usize,
) -> Result<Vec<Spot<'a>>, OutOfMemory>
    requires given { IsGiven given }
    requires line { k < length given.asked.lines.now }
    requires walks { AreWalksOf given.asked.world.now walks.old }
    ensures walks { AreWalksOf given.entry.asked.world.now walks.new }
    ensures spots { IfOk result (λ spots. AreSpotsOn (every_of given.entry.asked) given.entry.p
        (IsLined (every_of given.entry.asked) k) (map spot_of spots.items)) }
    ensures made { IfOk result (λ spots. AreOfLine (every_of given.entry.asked) given.entry.p k (map spot_of spots.items)) }
{
    let line = given.asked.lines[k];
    match line_texts(alloc, walks, given, k)? {
        LineTexts::Shown(texts) => texts_spots(alloc, line.unnamed, texts),
        LineTexts::TooMany | LineTexts::Beyond => unshown_spots(alloc, line.text),
    }
}

/// These texts, of each of which this is said.
fn texts_spots<'a>(
    alloc: Global,
    unnamed: Unnamed<'a>,
    texts: Vec<String>,
) -> Result<Vec<Spot<'a>>, OutOfMemory>
    ensures { IfOk result (λ spots. map spot_of spots.items ≡ map (text_spot unnamed.entry) (map string_bytes texts.items)) }
{
    let mut spots = Vec::with_capacity(alloc, texts.len())?;
    for text in texts {
        spots.push(text_spot(alloc, unnamed, text)?)?;
    }
    Ok(spots)
}

/// A line that is written so, of which not all texts can be shown.
fn unshown_spots<'a>(alloc: Global, text: &str) -> Result<Vec<Spot<'a>>, OutOfMemory>
    ensures { IfOk result (λ spots. map spot_of spots.items ≡ unshown_spot text.now ∷ []) }
{
    let mut spots = Vec::with_capacity(alloc, 1)?;
    spots.push(Spot {
        text: Arc::new(alloc, String::from_str(alloc, text)?)?,
        unnamed: None,
    })?;
    Ok(spots)
}
