// The patterns of all groups, and the places in them.
ghost use Rattle.std.specs.Prelude.{◌-◌, List, Some, MatchBool, IfNone, IfSome, ◌≢◌, ◌≡◌, ◌↔◌, ◌<◌, ◌≤◌, ◌+◌, ◌^◌, ◌==◌, ◌&&◌, ◌++◌, ℕ, IfOk, OnOk, IsTrue, Contains, drop, length, map, if◌then◌else◌};
ghost use Rattle.std.specs.List.{flat_map, list_any, slice_get};
ghost use Rattle.std.specs.List.Sorted.{IsStrictlyIncreasing};
ghost use Rattle.iam_kinds.specs.declared.table.Pattern.{Pattern};
ghost use Rattle.iam_kinds.specs.Places.{IsRising};
ghost use Rattle.iam_kinds.specs.Spelled.{IsFirstPlace};
ghost use Rattle.iam_kinds.specs.declared.table.Place.{Place};
ghost use Rattle.iam_kinds.specs.Code.{AreGoals, AreIn, IsTable, SameElements, are_any, goes_on, group_at, group_goes_on, is_good, is_last_any, moves_from, moves_of, place_at, matched_groups, rest_at, settled_places, starts_from, stepped, waited_at, waits_for};

use crate::OutOfMemory;
use iam_glob::Sign;
use std::alloc::Global;
use std::marker::Model;

/// The signs of a pattern.
#[derive(Drop)]
pub struct SignList(Vec<Sign>);

impl Model for SignList {
    ghost use Rattle.std.specs.Prelude.{List};
    ghost use Rattle.iam_glob.specs.declared.sign.Sign.{Sign};

    ghost Value = { List Sign };

    ghost view = { λ signs. signs.0.items };
}

impl SignList {
    ghost use Rattle.std.specs.Prelude.{◌≡◌};

    pub fn of(signs: Vec<Sign>) -> SignList
        ensures { result ≡ signs.items }
    {
        SignList(signs)
    }

    pub fn as_slice(&self) -> &[Sign]
        ensures { result.now ≡ self.now }
    {
        self.0.as_slice()
    }
}

/// A pattern of a group.
#[derive(Drop)]
pub struct Pattern {
    pub group: usize,
    pub signs: SignList,
}

impl Pattern {
    /// Whether both are the same.
    fn equals(&self, other: &Pattern) -> bool
        ensures { IsTrue result ↔ self.now ≡ other.now }
    {
        self.group == other.group && are_same(self.signs.as_slice(), other.signs.as_slice())
    }
}

/// A place in a pattern: so many of its signs stand before it.
#[derive(Clone, Copy, PartialEq, Eq, PartialOrd, Ord, Debug)]
pub struct Place {
    pub pattern: usize,
    pub at: usize,
}

/// The patterns of all groups. The first are `Any`, one for each group in order: where a group has matched for good, it stands
/// there alone.
#[derive(Drop)]
pub struct Table {
    pub patterns: Vec<Pattern>,
}

/// Whether nothing but the last `Any` is left.
fn is_last_any(signs: &[Sign]) -> bool
    ensures { result ≡ is_last_any signs.now }
{
    match signs {
        [Sign::Any] => true,
        _ => false,
    }
}

/// Whether only `Any`s are left, which match the empty text.
fn are_any(signs: &[Sign]) -> bool
    ensures { result ≡ are_any signs.now }
{
    for sign in signs {
        match sign {
            Sign::Any => {}
            Sign::Given(_) | Sign::One => return false,
        }
    }
    true
}

/// The character that is waited for.
fn waits_for(signs: &[Sign]) -> Option<char>
    ensures { result ≡ waits_for signs.now }
{
    for sign in signs {
        match *sign {
            Sign::Any => {}
            Sign::Given(character) => return Some(character),
            Sign::One => return None,
        }
    }
    None
}

/// Whether the character leads on from a place at which these signs are left.
fn goes_on(signs: &[Sign], letter: char) -> bool
    ensures { result ≡ goes_on signs.now letter }
{
    match signs {
        [] => false,
        [Sign::Given(character), ..] => *character == letter,
        [Sign::One | Sign::Any, ..] => true,
    }
}

/// Adds the places to which a character leads from a place of a pattern, at which these signs are left.
fn add_moves(
    moved: &mut Vec<Place>,
    from: Place,
    signs: &[Sign],
    letter: char,
) -> Result<(), OutOfMemory>
    requires { from.at + length signs.now < 2 ^ 64 }
    ensures { OnOk result (moved.new.items ≡ moved.old.items ++ moves_from from.pattern from.at signs.now letter) }
{
    let mut place = from;
    for sign in signs {
        match *sign {
            Sign::Any => moved.push(place)?,
            Sign::One => {
                place.at += 1;
                moved.push(place)?;
                return Ok(());
            }
            Sign::Given(character) => {
                if character == letter {
                    place.at += 1;
                    moved.push(place)?;
                }
                return Ok(());
            }
        }
        place.at += 1;
    }
    Ok(())
}

impl Table {
    /// The table of these patterns, whose groups are below this number.
    pub fn of(alloc: Global, count: usize, patterns: Vec<Pattern>) -> Result<Table, OutOfMemory>
        ensures { IfOk result (λ t. (goals : List Pattern) × (t.patterns.items ≡ goals ++ patterns.items) × AreGoals count goals) }
    {
        let mut patterns = patterns;
        let mut all = goals(alloc, count)?;
        all.append(&mut patterns)?;
        Ok(Table { patterns: all })
    }

    /// Whether it has the same patterns as another.
    pub fn equals(&self, other: &Table) -> bool
        ensures { IsTrue result ↔ self.now.patterns.items ≡ other.now.patterns.items }
    {
        have_same(&self.patterns, &other.patterns)
    }

    /// The places where the patterns begin, which stand behind so many.
    pub fn starts(&self, alloc: Global, count: usize) -> Result<Vec<Place>, OutOfMemory>
        requires within { count ≤ length self.now.patterns.items }
        requires table { IsTable self.now.patterns.items }
        ensures rising { IfOk result (λ v. IsRising v.items) }
        ensures same { IfOk result (λ v. SameElements v.items (settled_places self.now.patterns.items (starts_from count (length self.now.patterns.items - count)))) }
    {
        let mut starts = Vec::new(alloc);
        for pattern in count..self.patterns.len() {
            starts.push(Place { pattern, at: 0 })?;
        }
        self.settled(alloc, &starts)
    }

    /// The places behind one more character.
    pub fn step(
        &self,
        alloc: Global,
        places: &[Place],
        letter: char,
    ) -> Result<Vec<Place>, OutOfMemory>
        requires places_in { AreIn self.now.patterns.items places.now }
        requires table { IsTable self.now.patterns.items }
        ensures rising { IfOk result (λ v. IsRising v.items) }
        ensures same { IfOk result (λ v. SameElements v.items (stepped self.now.patterns.items places.now letter)) }
    {
        let moved = self.moved(alloc, places, letter)?;
        self.settled(alloc, &moved)
    }

    /// The groups that match the text behind which these places are, in order.
    pub fn matched(&self, alloc: Global, places: &[Place]) -> Result<Vec<usize>, OutOfMemory>
        requires { AreIn self.now.patterns.items places.now }
        ensures rising { IfOk result (λ v. IsStrictlyIncreasing v.items) }
        ensures matched { IfOk result (λ v. SameElements v.items (matched_groups self.now.patterns.items places.now)) }
    {
        let mut groups = Vec::with_capacity(alloc, places.len())?;
        for &place in places {
            if are_any(self.rest(place)) {
                groups.push(self.group(place))?;
            }
        }
        Ok(sorted_numbers(groups))
    }

    /// The characters that are waited for.
    pub fn waited(&self, alloc: Global, places: &[Place]) -> Result<Vec<char>, OutOfMemory>
        requires { AreIn self.now.patterns.items places.now }
        ensures { IfOk result (λ v. v.items ≡ waited_at self.now.patterns.items places.now) }
    {
        let mut waited = Vec::with_capacity(alloc, places.len())?;
        for &place in places {
            if let Some(letter) = waits_for(self.rest(place)) {
                waited.push(letter)?;
            }
        }
        Ok(waited)
    }

    /// The character that is waited for at a place.
    pub fn waited_at(&self, place: Place) -> Option<char>
        requires { place.pattern < length self.now.patterns.items }
        ensures { result ≡ waits_for (rest_at self.now.patterns.items place) }
    {
        waits_for(self.rest(place))
    }

    /// Whether it is this letter.
    fn is_waited_at(&self, place: Place, letter: char) -> bool
        requires { place.pattern < length self.now.patterns.items }
        ensures { MatchBool result (waits_for (rest_at self.now.patterns.items place) ≡ Some letter)
            (waits_for (rest_at self.now.patterns.items place) ≢ Some letter) }
    {
        match self.waited_at(place) {
            Some(waited) => waited == letter,
            None => false,
        }
    }

    /// The first of the places at which the letter is waited for.
    pub fn first_waiting(&self, places: &[Place], letter: char) -> Option<Place>
        requires places_in { AreIn self.now.patterns.items places.now }
        requires rising { IsRising places.now }
        ensures some { IfSome result (IsFirstPlace (Contains places.now) self.now.patterns.items letter) }
        ensures none { IfNone result ((k : Place) → Contains places.now k → waits_for (rest_at self.now.patterns.items k) ≢ Some letter) }
    {
        for &place in places {
            if self.is_waited_at(place, letter) {
                return Some(place);
            }
        }
        None
    }

    /// Whether the character leads on from some place of each group below this number.
    pub fn goes_on_below(&self, places: &[Place], letter: char, count: usize) -> bool
        requires { AreIn self.now.patterns.items places.now }
        ensures { IsTrue result ↔ ((g : ℕ) → g < count → IsTrue (group_goes_on self.now.patterns.items places.now letter g)) }
    {
        for group in 0..count {
            if !self.group_goes_on(places, letter, group) {
                return false;
            }
        }
        true
    }

    fn group_goes_on(&self, places: &[Place], letter: char, group: usize) -> bool
        requires { AreIn self.now.patterns.items places.now }
        ensures { result ≡ group_goes_on self.now.patterns.items places.now letter group }
    {
        for &place in places {
            if self.group(place) == group && goes_on(self.rest(place), letter) {
                return true;
            }
        }
        false
    }

    /// The pattern of a place.
    fn pattern(&self, place: Place) -> &Pattern
        requires { place.pattern < length self.now.patterns.items }
        ensures { slice_get self.entry.now.patterns.items place.pattern ≡ Some result.now }
    {
        &self.patterns[place.pattern]
    }

    /// The group of a place.
    fn group(&self, place: Place) -> usize
        requires { place.pattern < length self.now.patterns.items }
        ensures { result ≡ group_at self.now.patterns.items place }
    {
        self.pattern(place).group
    }

    /// What is left at a place.
    fn rest(&self, place: Place) -> &[Sign]
        requires { place.pattern < length self.now.patterns.items }
        ensures rest { result.now ≡ rest_at self.entry.now.patterns.items place }
        ensures fits { place.at + length result.now < 2 ^ 64 }
    {
        rest_of(self.pattern(place).signs.as_slice(), place.at)
    }

    /// The places to which a character leads from places.
    fn moved(
        &self,
        alloc: Global,
        places: &[Place],
        letter: char,
    ) -> Result<Vec<Place>, OutOfMemory>
        requires { AreIn self.now.patterns.items places.now }
        ensures { IfOk result (λ v. v.items ≡ flat_map (moves_of self.now.patterns.items letter) places.now) }
    {
        let mut moved = Vec::with_capacity(alloc, places.len().saturating_mul(2))?;
        for &place in places {
            add_moves(&mut moved, place, self.rest(place), letter)?;
        }
        Ok(moved)
    }

    /// The groups that have matched for good, in order.
    fn good_groups(&self, alloc: Global, places: &[Place]) -> Result<Vec<usize>, OutOfMemory>
        requires { AreIn self.now.patterns.items places.now }
        ensures rising { IfOk result (λ v. IsStrictlyIncreasing v.items) }
        ensures good { IfOk result (λ v. (g : ℕ) → list_any (λ n. n == g) v.items ≡ is_good self.now.patterns.items places.now g) }
    {
        let mut groups = Vec::with_capacity(alloc, places.len())?;
        for &place in places {
            if is_last_any(self.rest(place)) {
                groups.push(self.group(place))?;
            }
        }
        Ok(sorted_numbers(groups))
    }

    /// The places in order, with one place alone for each group that has matched for good.
    fn settled(&self, alloc: Global, places: &[Place]) -> Result<Vec<Place>, OutOfMemory>
        requires { AreIn self.now.patterns.items places.now }
        ensures rising { IfOk result (λ v. IsRising v.items) }
        ensures same { IfOk result (λ v. SameElements v.items (settled_places self.now.patterns.items places.now)) }
    {
        let good = self.good_groups(alloc, places)?;
        let mut settled = Vec::with_capacity(alloc, places.len())?;
        for &place in places {
            settled.push(settled_place(&good, self.group(place), place))?;
        }
        Ok(sorted_places(settled))
    }
}

/// What is left from this sign on.
fn rest_of(signs: &[Sign], at: usize) -> &[Sign]
    ensures rest { result.now ≡ drop at signs.entry.now }
    ensures fits { at + length result.now < 2 ^ 64 }
{
    if at < signs.len() { &signs[at..] } else { &[] }
}

/// The place, or that of its group where that has matched for good.
fn settled_place(good: &[usize], group: usize, place: Place) -> Place
    requires { IsStrictlyIncreasing good.now }
    ensures { result ≡ (if list_any (λ g. g == group) good.now then place_at group 0 else place) }
{
    match good.binary_search(&group) {
        Ok(_) => Place {
            pattern: group,
            at: 0,
        },
        Err(_) => place,
    }
}

/// The numbers in order, each once.
fn sorted_numbers(numbers: Vec<usize>) -> Vec<usize>
    ensures rising { IsStrictlyIncreasing result.items }
    ensures same { SameElements result.items numbers.items }
{
    let mut numbers = numbers;
    numbers.sort_unstable();
    numbers.dedup();
    numbers
}

/// The places in order, each once.
fn sorted_places(places: Vec<Place>) -> Vec<Place>
    ensures rising { IsRising result.items }
    ensures same { SameElements result.items places.items }
{
    let mut places = places;
    places.sort_unstable();
    places.dedup();
    places
}

/// Whether both are the same signs in the same order.
fn are_same(ones: &[Sign], others: &[Sign]) -> bool
    ensures { IsTrue result ↔ ones.now ≡ others.now }
{
    if ones.len() != others.len() {
        return false;
    }
    for i in 0..ones.len() {
        if ones[i] != others[i] {
            return false;
        }
    }
    true
}

/// Whether both lists have the same patterns in the same order.
fn have_same(ones: &[Pattern], others: &[Pattern]) -> bool
    ensures { IsTrue result ↔ ones.now ≡ others.now }
{
    if ones.len() != others.len() {
        return false;
    }
    for i in 0..ones.len() {
        if !ones[i].equals(&others[i]) {
            return false;
        }
    }
    true
}

/// For each group below this number a pattern `Any`.
fn goals(alloc: Global, count: usize) -> Result<Vec<Pattern>, OutOfMemory>
    ensures { IfOk result (λ v. AreGoals count v.items) }
{
    let mut goals = Vec::new(alloc);
    for group in 0..count {
        let mut signs = Vec::new(alloc);
        signs.push(Sign::Any)?;
        let signs = SignList::of(signs);
        goals.push(Pattern { group, signs })?;
    }
    Ok(goals)
}
