// Action elements, and which actions of a world they match.
ghost use Rattle.std.specs.Prelude.{[], ◌∷◌, ◌≡◌, ◌↔◌, ◌++◌, ◌+◌, ◌*◌, ◌^◌, ◌<◌, ◌≤◌, ℕ, List, IfOk, IfSome, IsTrue, OnOk, Some, false, map};
ghost use Rattle.std.specs.List.{slice_get};
ghost use Rattle.std.specs.Str.{chars};
ghost use Rattle.iam_glob.specs.Glob.{MatchesFold};
ghost use Rattle.iam_glob.specs.declared.sign.Sign.{Sign};
ghost use Rattle.iam_services.specs.Services.{AreServices, TriesMatched, numbers_of};
ghost use Rattle.iam_decision.specs.Living.{AreActing, LivingValue, living_value};
ghost use Rattle.iam_element.specs.Reading.{ActionElement};
ghost use Rattle.iam_layers.specs.Cell.{IsAction};
ghost use Rattle.iam_match.specs.Statement.{ActionMatches};
ghost use Rattle.iam_world.specs.World.{WorldValue};
ghost use Rattle.iam_index.specs.Elements.{AreActRows, AreActs, AreElements, AreKept, HasElement, IsElement, Marked, MatchesNone, TellActs, TellSome};
ghost use Rattle.iam_index.specs.declared.elements.Element.{Element};

use iam_columns::{empty_slots, keep, kept, slot_of};
use iam_decision::acting_are_found;
use iam_equal::action_print;
use iam_layers::{Living, Matched, World};
use iam_match::action_matches;
use iam_policy::Actions;
use iam_services::{Services, Tried};
use iam_text::{Glob, OutOfMemory};
use std::alloc::Global;

/// How many answers are kept at most.
const MOST_ACTS: u64 = 16_777_216;

/// So few actions are sooner tried than sought by their services.
const FEW: u64 = 1;

/// The slots for the numbers of elements, by their prints.
const PRINTS: u64 = 8_192;

/// An element is sought in so many slots, from that of its print on.
const STEPS: u64 = 8;

/// An action element, and of each action of a world whether it matches.
#[derive(Drop)]
pub struct Element<'a> {
    pub action: &'a Actions,
    pub acts: Vec<bool>,
    // Whether it matches some action.
    pub some: bool,
}

/// The action elements of a world's statements, each distinct one once, with what they match. Where there is no room for another, it
/// is not kept.
#[derive(Drop)]
pub struct Elements<'a> {
    pub elements: Vec<Element<'a>>,
    // The actions of the world by their services.
    pub services: Services,
    // By their prints the numbers of elements: a hint.
    prints: Vec<Option<usize>>,
    // How many elements there is room for.
    most: usize,
}

impl<'a> Elements<'a> {
    /// None yet of a world.
    pub fn new(alloc: Global, world: &World) -> Result<Elements<'a>, OutOfMemory>
        ensures { IfOk result (AreKept world.now) }
    {
        Ok(Elements {
            elements: Vec::new(alloc),
            services: services_of(alloc, world),
            prints: empty_slots(alloc, PRINTS)?,
            most: (MOST_ACTS / world.actions().max(1)) as usize,
        })
    }

    /// Whether an action element matches some action of the world; it is kept where there is room and memory for it.
    pub fn concerns(&mut self, alloc: Global, world: &World, action: &'a Actions) -> bool
        requires { AreKept world.now self.old }
        ensures right { AreKept world.now self.new }
        ensures idle { result ≡ false → MatchesNone world.now action.entry.now }
    {
        let print = action_print(action);
        if let Some(number) = self.known(print, action) {
            return self.elements[number].some;
        }
        if self.elements.len() >= self.most {
            return some_matches(world, &self.services, action);
        }
        match element_of(alloc, world, &self.services, action) {
            Ok(element) => self.add(print, element),
            Err(_) => some_matches(world, &self.services, action),
        }
    }

    /// Puts the element behind the others, where there is memory for it; whether it matches some action.
    fn add(&mut self, print: u64, element: Element<'a>) -> bool
        ensures right { (world : WorldValue) → IsElement world element.entry → AreKept world self.old → AreKept world self.new }
        ensures same { result ≡ element.entry.some }
    {
        let number = self.elements.len();
        let some = element.some;
        match self.elements.push(element) {
            Ok(()) => (),
            Err(_) => return some,
        }
        let slot = self.free_slot(print);
        keep(&mut self.prints, slot, number);
        some
    }

    /// The first slot of a print that keeps nothing, or else its first.
    fn free_slot(&self, print: u64) -> u64 {
        (0..STEPS)
            .map(|step| slot_in_step(print, step))
            .find(|slot| kept(self.prints.as_slice(), *slot).is_none())
            .unwrap_or(slot_in_step(print, 0))
    }

    /// What the action element of each of the living statements matches; of one that is not kept nothing is told.
    pub fn rows<'e>(
        &'e self,
        alloc: Global,
        living: &[Living<'_>],
    ) -> Result<Vec<&'e [bool]>, OutOfMemory>
        ensures { IfOk result (λ rows. (world : WorldValue) → AreElements world self.now.elements.items
            → AreActRows world (map living_value living.now) rows.items) }
    {
        let mut rows = Vec::with_capacity(alloc, living.len())?;
        for statement in living {
            rows.push(self.row(statement.action))?;
        }
        Ok(rows)
    }

    /// What an action element matches, where it is kept.
    fn row(&self, action: &Actions) -> &[bool]
        ensures { (world : WorldValue) → AreElements world self.now.elements.items → TellActs world action.now result.now }
    {
        match self.number(action) {
            Some(number) => self.elements[number].acts.as_slice(),
            None => &[],
        }
    }

    /// The number of an action element, where it is kept.
    pub fn number(&self, action: &Actions) -> Option<usize>
        ensures { IfSome result (λ n. HasElement self.now.elements.items n action.now) }
    {
        self.known(action_print(action), action)
    }

    /// Whether the element of this number matches action a, where it is kept.
    #[inline(always)]
    pub fn act(&self, number: usize, a: u64) -> Option<bool>
        ensures { (world : WorldValue) (action : ActionElement) (text : List ℕ) → AreElements world self.now.elements.items
            → HasElement self.now.elements.items number action → IsAction world a text → IfSome result (λ act. IsTrue act ↔ ActionMatches action text) }
    {
        let act = *self.elements.get(number)?.acts.get(a as usize)?;
        Some(act)
    }

    /// The number of an element, which has this print, where it is kept.
    fn known(&self, print: u64, action: &Actions) -> Option<usize>
        ensures { IfSome result (λ n. HasElement self.now.elements.items n action.now) }
    {
        for step in 0..STEPS {
            let number = kept(self.prints.as_slice(), slot_in_step(print, step))?;
            if number < self.elements.len() && self.elements[number].action.equals(action) {
                return Some(number);
            }
        }
        None
    }
}

/// The slot of a print to look at in this step.
fn slot_in_step(print: u64, step: u64) -> u64 {
    slot_of(0, print.wrapping_add(step), PRINTS as usize)
}

/// Puts the living statements whose action elements, of these rows, match action a of this text into `found`, in place of what is there.
pub fn put_acting(
    found: &mut Vec<Matched>,
    living: &[Living<'_>],
    rows: &[&[bool]],
    a: u64,
    text: &str,
) -> Result<(), OutOfMemory>
    ensures { (world : WorldValue) → AreActRows world (map living_value living.now) rows.now → IsAction world a text.now
        → OnOk result (AreActing text.now (map living_value living.now) found.new.items) }
{
    acting_are_found();
    found.clear();
    for i in 0..living.len() {
        if acts(act_of(rows, i, a), living[i].action, text) {
            found.push(living[i].matched)?;
        }
    }
    Ok(())
}

/// Which of the action elements of the rows match action a, as the bits of a number from the least on; `None` where there are more
/// than 64, or some row tells nothing of it.
pub fn signature(rows: &[&[bool]], a: u64) -> Option<u64>
    ensures { (world : WorldValue) (living : List LivingValue) (text : List ℕ) → AreActRows world living rows.now → IsAction world a text
        → IfSome result (AreActs text living) }
{
    if rows.len() > 64 {
        return None;
    }
    let mut word = 0;
    for i in (0..rows.len()).rev() {
        word = with_act(word, act_of(rows, i, a)?);
    }
    Some(word)
}

/// The signature of elements that begin with one that matches, or does not.
#[inline(always)]
fn with_act(word: u64, acts: bool) -> u64
    requires { word < 2 ^ 63 }
    ensures bound { result ≤ word * 2 + 1 }
    ensures bits { (text : List ℕ) (s : LivingValue) (living : List LivingValue) → (IsTrue acts ↔ ActionMatches s.action text)
        → AreActs text living word → AreActs text (s ∷ living) result }
{
    let bit: u64 = if acts { 1 } else { 0 };
    word * 2 + bit
}

/// Whether an action element matches an action, which has this text; it may be told already.
pub fn acts(told: Option<bool>, action: &Actions, text: &str) -> bool
    ensures { IfSome told (λ act. IsTrue act ↔ ActionMatches action.now text.now) → IsTrue result ↔ ActionMatches action.now text.now }
{
    match told {
        Some(act) => act,
        None => action_matches(action, text),
    }
}

/// What row i tells of action a.
#[inline(always)]
fn act_of(rows: &[&[bool]], i: usize, a: u64) -> Option<bool>
    ensures { (world : WorldValue) (living : List LivingValue) (s : LivingValue) (text : List ℕ) → AreActRows world living rows.now
        → slice_get living i ≡ Some s → IsAction world a text → IfSome result (λ act. IsTrue act ↔ ActionMatches s.action text) }
{
    let row = rows.get(i)?;
    let act = *row.get(a as usize)?;
    Some(act)
}

/// The actions of the world by their services; by none where they are few, or there is no memory.
fn services_of(alloc: Global, world: &World) -> Services
    ensures { AreServices world.now.actions result }
{
    if world.actions() <= FEW {
        return Services::none(alloc);
    }
    found_services(alloc, world).unwrap_or(Services::none(alloc))
}

/// The actions of the world by their services.
fn found_services(alloc: Global, world: &World) -> Result<Services, OutOfMemory>
    ensures { IfOk result (AreServices world.now.actions) }
{
    let mut services = Services::new(alloc)?;
    for a in 0..world.actions() {
        services.add(alloc, world.action_text(a), a)?;
    }
    Ok(services)
}

/// An action element with what it matches.
fn element_of<'a>(
    alloc: Global,
    world: &World,
    services: &Services,
    action: &'a Actions,
) -> Result<Element<'a>, OutOfMemory>
    requires { AreServices world.now.actions services.now }
    ensures { IfOk result (λ element. IsElement world.now element × (element.action.now ≡ action.entry.now)) }
{
    let acting = !action.is_negated();
    let mut acts = vec![in alloc; !acting; world.actions() as usize]?;
    for pattern in action.patterns() {
        let tried = services.tried(pattern, world.actions());
        mark(world, pattern, tried, acting, &mut acts);
    }
    let some = acts.contains(&true);
    Ok(Element { action, acts, some })
}

/// Marks the actions that the pattern matches, which are among those on which it is tried.
fn mark(world: &World, pattern: &Glob, tried: Tried<'_>, acting: bool, acts: &mut Vec<bool>)
    requires { TriesMatched world.now.actions pattern.now (numbers_of tried) }
    ensures { (done : List (List Sign)) → TellSome world.now acting done acts.old.items
        → TellSome world.now acting (done ++ pattern.now ∷ []) acts.new.items }
{
    for i in 0..tried.len() {
        mark_one(world, pattern, tried.at(i), acting, acts);
    }
}

/// Marks action a, if the pattern matches it.
#[inline(always)]
fn mark_one(world: &World, pattern: &Glob, a: u64, acting: bool, acts: &mut Vec<bool>)
    ensures { (done : List (List Sign)) (numbers : List ℕ) → Marked world.now acting done pattern.now numbers acts.old.items
        → Marked world.now acting done pattern.now (numbers ++ a ∷ []) acts.new.items }
{
    let place = a as usize;
    if place < acts.len() && acts[place] != acting && matches_at(world, pattern, a) {
        acts[place] = acting;
    }
}

/// Whether there is an action a, and the pattern matches it.
#[inline(always)]
fn matches_at(world: &World, pattern: &Glob, a: u64) -> bool
    ensures { (text : List ℕ) → IsAction world.now a text → IsTrue result ↔ MatchesFold pattern.now (chars text) }
{
    a < world.actions() && pattern.matches_fold(world.action_text(a))
}

/// Whether an action element matches some action of the world.
fn some_matches(world: &World, services: &Services, action: &Actions) -> bool
    requires { AreServices world.now.actions services.now }
    ensures { result ≡ false → MatchesNone world.now action.now }
{
    if action.is_negated() {
        return some_left(world, action);
    }
    for pattern in action.patterns() {
        if some_tried(world, pattern, services.tried(pattern, world.actions())) {
            return true;
        }
    }
    false
}

/// Whether the pattern matches some of the actions on which it is tried.
fn some_tried(world: &World, pattern: &Glob, tried: Tried<'_>) -> bool
    requires { TriesMatched world.now.actions pattern.now (numbers_of tried) }
    ensures { result ≡ false → (a : ℕ) (text : List ℕ) → IsAction world.now a text → ¬ MatchesFold pattern.now (chars text) }
{
    for i in 0..tried.len() {
        if matches_at(world, pattern, tried.at(i)) {
            return true;
        }
    }
    false
}

/// The same of an element whose patterns leave actions over, tried on each.
fn some_left(world: &World, action: &Actions) -> bool
    ensures { result ≡ false → MatchesNone world.now action.now }
{
    for a in 0..world.actions() {
        if action_matches(action, world.action_text(a)) {
            return true;
        }
    }
    false
}
