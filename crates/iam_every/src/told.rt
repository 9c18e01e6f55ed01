// What is told for each action, worked out once for actions that the same statements match.
ghost use Rattle.std.specs.Prelude.{◌≡◌, ◌∷◌, [], ◌++◌, ◌<◌, ℕ, All, IfOk, IfSome, IsTrue, List, OnOk, Some, codes, length, map, string_bytes};
ghost use Rattle.std.specs.Arc.{arc_value};
ghost use Rattle.std.specs.List.{slice_get};
ghost use Rattle.iam_every.specs.Code.Acting.{IsActing};
ghost use Rattle.iam_every.specs.Code.Picked.{ActsOn, TellEach};
ghost use Rattle.iam_every.specs.Code.Rows.{AreRowsOn, AreWalksOf, IsGiven, IsLined};
ghost use Rattle.iam_every.specs.Code.Told.{AreRowsAbout, IsAbout, IsKnown, IsLived, IsNumberFor, IsSaidFor, IsSaidOf, IsScene, IsSceneOf, IsTold, SaidList, eligible_in, row_as};
ghost use Rattle.iam_every.specs.Every.{EveryValue, LineValue, RowValue, every_of, row_of};
ghost use Rattle.iam_every.specs.declared.told.About.TheVariants.{Line};
ghost use Rattle.iam_every.specs.Made.{AreJoined, AreOfLine, AreOfText, IsRowOf};
ghost use Rattle.iam_world.specs.World.{WorldValue};
ghost use Rattle.iam_layers.specs.Unnamed.{IsThere};
ghost use Rattle.iam_layers.specs.declared.unnamed.Unnamed.{Unnamed};

use crate::acting::{Acting, acts_at};
use crate::eligible::{eligible, picked};
use crate::given::{Given, is_first_line};
use crate::lines::line_kinds;
use crate::rows::{Row, Said, unshown};
use crate::scene::{Scene, lives_on, verdict_by};
use iam_decision::Verdict;
use iam_kinds::{Kinds, Walks};
use iam_layers::Unnamed;
use iam_match::OutOfMemory;
use std::alloc::Global;
use std::sync::Arc;

/// What is told for the actions that just these of the statements match.
#[derive(Drop)]
pub struct Known {
    pub acts: Vec<bool>,
    pub said: Vec<Arc<Said>>,
}

/// Which of the statements live on the resource of a text.
#[derive(Drop)]
pub struct Lived {
    pub text: String,
    pub lives: Vec<bool>,
}

/// What was found for some actions.
#[derive(Drop)]
struct Memo {
    known: Vec<Known>,
    lived: Vec<Lived>,
}

/// What is told for actions, and for each action its number.
#[derive(Drop)]
pub struct Told {
    pub lists: Vec<Vec<Arc<Said>>>,
    pub numbers: Vec<usize>,
}

/// What is asked about.
#[derive(Clone, Copy)]
pub enum About {
    /// The texts of which line k is the first to speak.
    Line(usize),
    /// Resource r of the world.
    Resource(u64),
    /// `*`, of which line k is the first to speak.
    Star(usize),
}

/// Whether both lists of bits are the same.
fn are_same(ones: &[bool], others: &[bool]) -> bool
    ensures { IsTrue result → ones.now ≡ others.now }
{
    if ones.len() != others.len() {
        return false;
    }
    for i in 0..ones.len() {
        if ones[i] != others[i] {
            return false;
        }
    }
    true
}

/// Whether both texts are the same.
fn is_text(one: &str, other: &str) -> bool
    ensures { IsTrue result → one.now ≡ other.now }
{
    one == other
}

/// The number of what is known for actions that just these of the statements match, if anything is.
fn number_of(known: &[Known], acts: &[bool]) -> Option<usize>
    ensures { IfSome result (λ n. (one : Known) × (slice_get known.now n ≡ Some one) × (one.acts.items ≡ acts.now)) }
{
    for (n, one) in known.iter().enumerate() {
        if are_same(one.acts.as_slice(), acts) {
            return Some(n);
        }
    }
    None
}

/// The number of the text, if it is one of these.
fn number_of_text(lived: &[Lived], text: &str) -> Option<usize>
    ensures { IfSome result (λ n. (one : Lived) × (slice_get lived.now n ≡ Some one) × (string_bytes one.text ≡ text.now)) }
{
    for (n, one) in lived.iter().enumerate() {
        if is_text(one.text.as_str(), text) {
            return Some(n);
        }
    }
    None
}

/// The number of the text among these, to which it is added where it is none of them.
fn lived_on<'a: 'c, 'c>(
    alloc: Global,
    lived: &mut Vec<Lived>,
    scene: Scene<'_, '_, 'a, 'c>,
    text: &str,
) -> Result<usize, OutOfMemory>
    requires { All (IsLived scene) lived.old.items }
    ensures lived { OnOk result (All (IsLived scene.entry) lived.new.items) }
    ensures number { IfOk result (λ n. (one : Lived) × (slice_get lived.new.items n ≡ Some one) × (string_bytes one.text ≡ text.now)) }
{
    if let Some(n) = number_of_text(lived.as_slice(), text) {
        return Ok(n);
    }
    let n = lived.len();
    let lives = lives_on(alloc, scene, text)?;
    lived.push(Lived {
        text: String::from_str(alloc, text)?,
        lives,
    })?;
    Ok(n)
}

/// What is told of the resource of this text for actions that just these of the statements match.
fn said_on<'a: 'c, 'c>(
    alloc: Global,
    lived: &mut Vec<Lived>,
    scene: Scene<'_, '_, 'a, 'c>,
    acts: &[bool],
    text: &str,
) -> Result<Arc<Said>, OutOfMemory>
    requires { All (IsLived scene) lived.old.items }
    ensures lived { OnOk result (All (IsLived scene.entry) lived.new.items) }
    ensures said { IfOk result (λ said. (world : WorldValue) (p : ℕ) (unnamed : Unnamed) (action : List ℕ)
        → IsScene world p unnamed scene.entry → TellEach (ActsOn action) (eligible_in scene.entry) acts.now
        → IsRowOf world p unnamed action text.now (row_as action said)) }
{
    let n = lived_on(alloc, lived, scene, text)?;
    let verdict = verdict_by(alloc, scene, acts, lived[n].lives.as_slice())?;
    let said = Said {
        resource: String::from_str(alloc, text)?,
        verdict: Some(verdict),
    };
    let shared = Arc::new(alloc, said)?;
    Ok(shared)
}

/// What is told of the texts of which line k is the first to speak, in order.
fn said_of_texts<'a: 'c, 'c>(
    alloc: Global,
    given: Given<'_>,
    k: usize,
    lived: &mut Vec<Lived>,
    scene: Scene<'_, '_, 'a, 'c>,
    acts: &[bool],
    texts: &[String],
) -> Result<Vec<Arc<Said>>, OutOfMemory>
    requires lived { All (IsLived scene) lived.old.items }
    ensures lived { OnOk result (All (IsLived scene.entry) lived.new.items) }
    ensures said { IfOk result (λ said. (action : List ℕ) (line : LineValue) → slice_get (every_of given.entry.asked).lines k ≡ Some line
        → IsScene given.entry.asked.world.now given.entry.p line.unnamed scene.entry
        → TellEach (ActsOn action) (eligible_in scene.entry) acts.now
        → AreJoined (AreOfText (every_of given.entry.asked) given.entry.p action k line) (map string_bytes texts.now)
        (map (row_as action) said.items)) }
{
    let mut said = Vec::with_capacity(alloc, texts.len())?;
    for text in texts {
        let text = text.as_str();
        if is_first_line(given.asked.lines, text, k) {
            said.push(said_on(alloc, lived, scene, acts, text)?)?;
        }
    }
    Ok(said)
}

/// This alone.
fn alone(alloc: Global, said: Arc<Said>) -> Result<Vec<Arc<Said>>, OutOfMemory>
    ensures { IfOk result (λ all. all.items ≡ said ∷ []) }
{
    let mut all = Vec::with_capacity(alloc, 1)?;
    all.push(said)?;
    Ok(all)
}

/// What is told of texts of which line k is the first to speak, for actions that just these of the statements match.
fn said_of_line<'a: 'c, 'c>(
    alloc: Global,
    walks: &mut Walks,
    given: Given<'_>,
    k: usize,
    lived: &mut Vec<Lived>,
    scene: Scene<'_, '_, 'a, 'c>,
    acts: &[bool],
) -> Result<Vec<Arc<Said>>, OutOfMemory>
    requires given { IsGiven given }
    requires line { k < length given.asked.lines.now }
    requires walks { AreWalksOf given.asked.world.now walks.old }
    requires lived { All (IsLived scene) lived.old.items }
    requires scene { IsSceneOf (every_of given.asked) given.p (Line k) scene }
    ensures walks { AreWalksOf given.entry.asked.world.now walks.new }
    ensures lived { OnOk result (All (IsLived scene.entry) lived.new.items) }
    ensures said { IfOk result (λ said. (action : List ℕ) → TellEach (ActsOn action) (eligible_in scene.entry) acts.now
        → IsSaidFor (every_of given.entry.asked) given.entry.p (Line k) action said.items) }
{
    let concerned = picked(alloc, scene.eligible, acts)?;
    match line_kinds(alloc, walks, given, k, scene.access, concerned.as_slice())? {
        Kinds::Shown(texts) => {
            said_of_texts(alloc, given, k, lived, scene, acts, texts.as_slice())
        }
        Kinds::NotShown => {
            let unshown = unshown(alloc, given.asked.lines[k].text)?;
            alone(alloc, unshown)
        }
    }
}

/// What is told for actions that just these of the statements match.
fn said_about<'a: 'c, 'c>(
    alloc: Global,
    walks: &mut Walks,
    given: Given<'_>,
    about: About,
    lived: &mut Vec<Lived>,
    scene: Scene<'_, '_, 'a, 'c>,
    acts: &[bool],
) -> Result<Vec<Arc<Said>>, OutOfMemory>
    requires given { IsGiven given }
    requires about { IsAbout (every_of given.asked) about }
    requires walks { AreWalksOf given.asked.world.now walks.old }
    requires lived { All (IsLived scene) lived.old.items }
    requires scene { IsSceneOf (every_of given.asked) given.p about scene }
    ensures walks { AreWalksOf given.entry.asked.world.now walks.new }
    ensures lived { OnOk result (All (IsLived scene.entry) lived.new.items) }
    ensures said { IfOk result (λ said. (action : List ℕ) → TellEach (ActsOn action) (eligible_in scene.entry) acts.now
        → IsSaidFor (every_of given.entry.asked) given.entry.p about action said.items) }
{
    match about {
        About::Line(k) => said_of_line(alloc, walks, given, k, lived, scene, acts),
        About::Resource(r) => {
            let text = given.asked.world.resource_text(r);
            let said = said_on(alloc, lived, scene, acts, text)?;
            alone(alloc, said)
        }
        About::Star(_) => {
            let said = said_on(alloc, lived, scene, acts, "*")?;
            alone(alloc, said)
        }
    }
}

/// The number of what is told for actions that just these of the statements match, which is found unless it is known.
fn number_for<'a: 'c, 'c>(
    alloc: Global,
    walks: &mut Walks,
    given: Given<'_>,
    about: About,
    memo: &mut Memo,
    scene: Scene<'_, '_, 'a, 'c>,
    acts: Vec<bool>,
) -> Result<usize, OutOfMemory>
    requires given { IsGiven given }
    requires about { IsAbout (every_of given.asked) about }
    requires walks { AreWalksOf given.asked.world.now walks.old }
    requires known { All (IsKnown (every_of given.asked) given.p about scene) memo.old.known.items }
    requires lived { All (IsLived scene) memo.old.lived.items }
    requires scene { IsSceneOf (every_of given.asked) given.p about scene }
    ensures walks { AreWalksOf given.entry.asked.world.now walks.new }
    ensures known { OnOk result (All (IsKnown (every_of given.entry.asked) given.entry.p about scene.entry) memo.new.known.items) }
    ensures lived { OnOk result (All (IsLived scene.entry) memo.new.lived.items) }
    ensures same { OnOk result ((n : ℕ) (one : Known) → slice_get memo.old.known.items n ≡ Some one → slice_get memo.new.known.items n ≡ Some one) }
    ensures number { IfOk result (λ n. (action : List ℕ) → TellEach (ActsOn action) (eligible_in scene.entry) acts.items
        → IsNumberFor (every_of given.entry.asked) given.entry.p about memo.new.known.items action n) }
{
    if let Some(n) = number_of(memo.known.as_slice(), acts.as_slice()) {
        return Ok(n);
    }
    let said = said_about(
        alloc,
        walks,
        given,
        about,
        &mut memo.lived,
        scene,
        acts.as_slice(),
    )?;
    let n = memo.known.len();
    memo.known.push(Known { acts, said })?;
    Ok(n)
}

/// What is told for each of the actions.
fn told_in<'a: 'c, 'c>(
    alloc: Global,
    walks: &mut Walks,
    acting: &mut Acting<'a>,
    given: Given<'_>,
    about: About,
    scene: Scene<'_, '_, 'a, 'c>,
    actions: &[String],
) -> Result<Told, OutOfMemory>
    requires given { IsGiven given }
    requires about { IsAbout (every_of given.asked) about }
    requires walks { AreWalksOf given.asked.world.now walks.old }
    requires acting { All (IsActing (map string_bytes actions.now)) acting.old.known.items }
    requires scene { IsSceneOf (every_of given.asked) given.p about scene }
    ensures walks { AreWalksOf given.entry.asked.world.now walks.new }
    ensures acting { OnOk result (All (IsActing (map string_bytes actions.now)) acting.new.known.items) }
    ensures told { IfOk result (IsTold (every_of given.entry.asked) given.entry.p about (map string_bytes actions.now)) }
{
    let elements = acting.numbers_of(alloc, scene.eligible, actions)?;
    let mut memo = Memo {
        known: Vec::new(alloc),
        lived: Vec::new(alloc),
    };
    let mut numbers = Vec::with_capacity(alloc, actions.len())?;
    for i in 0..actions.len() {
        let acts = acts_at(alloc, acting.known.as_slice(), elements.as_slice(), i)?;
        numbers.push(number_for(alloc, walks, given, about, &mut memo, scene, acts)?)?;
    }
    Ok(Told {
        lists: lists_of(alloc, memo.known)?,
        numbers,
    })
}

/// What is told, without the statements.
fn lists_of(alloc: Global, known: Vec<Known>) -> Result<Vec<Vec<Arc<Said>>>, OutOfMemory>
    ensures { IfOk result (λ lists. lists.items ≡ map (λ one. one.said) known.items) }
{
    let mut lists = Vec::with_capacity(alloc, known.len())?;
    for one in known {
        lists.push(one.said)?;
    }
    Ok(lists)
}

/// What is told for each of the actions, of texts of which this is said. Who asks in which context is the same for each; `*` stands for one.
fn told_with<'a>(
    alloc: Global,
    walks: &mut Walks,
    acting: &mut Acting<'a>,
    given: Given<'a>,
    about: About,
    unnamed: Unnamed<'_>,
    actions: &[String],
) -> Result<Told, OutOfMemory>
    requires given { IsGiven given }
    requires about { IsAbout (every_of given.asked) about }
    requires unnamed { IsSaidOf (every_of given.asked) about unnamed }
    requires there { IsThere given.asked.world.now unnamed }
    requires walks { AreWalksOf given.asked.world.now walks.old }
    requires acting { All (IsActing (map string_bytes actions.now)) acting.old.known.items }
    ensures walks { AreWalksOf given.entry.asked.world.now walks.new }
    ensures acting { OnOk result (All (IsActing (map string_bytes actions.now)) acting.new.known.items) }
    ensures told { IfOk result (IsTold (every_of given.entry.asked) given.entry.p about (map string_bytes actions.now)) }
{
    let world = given.asked.world;
    let applicable = world.unnamed_applicable(given.p, unnamed);
    let derived = world.unnamed_derived(alloc, given.p, unnamed)?;
    let context = world.unnamed_context(alloc, given.p, unnamed, given.none, &derived)?;
    let access = world.unnamed_access(given.p, unnamed, "*", &context);
    let eligible = eligible(alloc, &applicable, access)?;
    let scene = Scene {
        access,
        frame: applicable.frame(),
        eligible: eligible.as_slice(),
    };
    told_in(alloc, walks, acting, given, about, scene, actions)
}

/// What is told for each of the actions.
pub fn told_of<'a>(
    alloc: Global,
    walks: &mut Walks,
    acting: &mut Acting<'a>,
    given: Given<'a>,
    about: About,
    actions: &[String],
) -> Result<Told, OutOfMemory>
    requires given { IsGiven given }
    requires about { IsAbout (every_of given.asked) about }
    requires walks { AreWalksOf given.asked.world.now walks.old }
    requires acting { All (IsActing (map string_bytes actions.now)) acting.old.known.items }
    ensures walks { AreWalksOf given.entry.asked.world.now walks.new }
    ensures acting { OnOk result (All (IsActing (map string_bytes actions.now)) acting.new.known.items) }
    ensures told { IfOk result (IsTold (every_of given.entry.asked) given.entry.p about (map string_bytes actions.now)) }
{
    let unnamed = unnamed_of(given, about);
    told_with(alloc, walks, acting, given, about, unnamed, actions)
}

/// What is said of the texts that are asked about.
fn unnamed_of<'a>(given: Given<'a>, about: About) -> Unnamed<'a>
    requires given { IsGiven given }
    requires about { IsAbout (every_of given.asked) about }
    ensures said { IsSaidOf (every_of given.entry.asked) about result }
    ensures there { IsThere given.entry.asked.world.now result }
{
    match about {
        About::Line(k) => given.asked.lines[k].unnamed,
        About::Resource(r) => Unnamed::Like(r),
        About::Star(k) => given.asked.lines[k].unnamed,
    }
}

/// What is told under number i of these.
fn said_at<'t>(lists: &'t [Vec<Arc<Said>>], numbers: &[usize], i: usize) -> &'t [Arc<Said>]
    ensures { (n : ℕ) (one : SaidList) → slice_get numbers.now i ≡ Some n → slice_get lists.entry.now n ≡ Some one → result.now ≡ one.items }
{
    if i < numbers.len() {
        let n = numbers[i];
        if n < lists.len() {
            return lists[n].as_slice();
        }
    }
    &[]
}

/// Adds the rows for action i.
pub fn add_rows(
    rows: &mut Vec<Row>,
    told: &Told,
    i: usize,
    action: &Arc<String>,
) -> Result<(), OutOfMemory>
    ensures { OnOk result ((every : EveryValue) (p : ℕ) (about : About) (actions : List (List ℕ)) → IsTold every p about actions told.now
        → slice_get actions i ≡ Some (string_bytes (arc_value action.now))
        → (more : List RowValue) × AreRowsAbout every p about (string_bytes (arc_value action.now)) more × (map row_of rows.new.items ≡ map row_of rows.old.items ++ more)) }
{
    for said in said_at(told.lists.as_slice(), told.numbers.as_slice(), i) {
        rows.push(row_for(said, action)?)?;
    }
    Ok(())
}

/// The row for the action.
fn row_for(said: &Arc<Said>, action: &Arc<String>) -> Result<Row, OutOfMemory>
    ensures { IfOk result (λ row. row_of row ≡ row_as (string_bytes (arc_value action.now)) said.now) }
{
    Ok(Row {
        action_text: Arc::try_clone(action)?,
        said: Arc::try_clone(said)?,
    })
}
