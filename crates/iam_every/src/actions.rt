// One action of each kind of actions that the action elements of statements tell apart.
ghost use Rattle.std.specs.Prelude.{◌≡◌, ◌↔◌, ◌∷◌, [], All, Contains, IfOk, IsTrue, OnOk, map};
ghost use Rattle.iam_decision.specs.Applicable.{IsNumbered, value_of};
ghost use Rattle.iam_glob.specs.Signs.{signs_in};
ghost use Rattle.iam_kinds.specs.Answers.{IsAnswerFold};
ghost use Rattle.iam_every.specs.Elements.{Adds, HasPrints, elements_in, next_print, print_behind, print_of, sign_number};
ghost use Rattle.iam_every.specs.Names.{AreActionGroups, action_question};
ghost use Rattle.iam_every.specs.OwnActions.{AreOwnActionGroups, elements_of};

use iam_decision::{Actions, Applicable};
use iam_glob::{Glob, Sign, Signs};
use iam_kinds::{Grammar, Kinds, find_kinds_fold};
use iam_match::OutOfMemory;
use std::alloc::Global;
use std::collections::BTreeMap;

/// The groups of patterns by which the statements of these policies read an action: those of each action element, of which each
/// distinct one stands once, at its first place.
///
/// The lists of levels and each list of policies have to have fewer than 2^32 members.
///
/// AWS IAM User Guide, "IAM JSON policy elements: Action" and "NotAction".
pub fn action_groups<'a>(
    alloc: Global,
    applicables: &[Applicable<'a>],
) -> Result<Vec<Vec<Signs<'a>>>, OutOfMemory>
    requires { All IsNumbered (map value_of applicables.now) }
    ensures own { IfOk result (λ groups. AreOwnActionGroups (map value_of applicables.now) (map (λ g. map signs_in g.items) groups.items)) }
    ensures groups { IfOk result (λ groups. AreActionGroups (map value_of applicables.now) (map (λ g. map signs_in g.items) groups.items)) }
{
    let mut elements = Elements::new(alloc);
    for applicable in applicables {
        elements.add_policies(alloc, applicable)?;
    }
    elements.groups(alloc)
}

/// One action of each kind of actions that the pattern matches without regard to case: two are of one kind where each group
/// matches both or neither.
///
/// AWS IAM User Guide, "IAM JSON policy elements: Action".
pub fn action_kinds(
    alloc: Global,
    groups: &[Vec<Signs<'_>>],
    pattern: Signs<'_>,
) -> Result<Kinds, OutOfMemory>
    ensures { IfOk result (IsAnswerFold (action_question (map (λ g. map signs_in g.items) groups.now) (signs_in pattern.entry))) }
{
    find_kinds_fold(alloc, Grammar::Action, &[pattern], groups, &[])
}

/// Action elements, each distinct one once.
#[derive(Drop)]
struct Elements<'a> {
    listed: Vec<&'a Actions>,
    /// The number of an element with each print.
    numbers: BTreeMap<u64, usize>,
}

impl<'a> Elements<'a> {
    fn new(alloc: Global) -> Elements<'a>
        ensures listed { elements_in result ≡ [] }
        ensures prints { HasPrints result }
    {
        Elements {
            listed: Vec::new(alloc),
            numbers: BTreeMap::new(alloc),
        }
    }

    /// Adds those of all statements of these policies.
    fn add_policies(
        &mut self,
        alloc: Global,
        applicable: &Applicable<'a>,
    ) -> Result<(), OutOfMemory>
        requires numbered { IsNumbered (value_of applicable.now) }
        requires prints { HasPrints self.old }
        ensures adds { OnOk result (Adds (elements_in self.old) (elements_of (value_of applicable.now)) (elements_in self.new)) }
        ensures prints { OnOk result (HasPrints self.new) }
    {
        let statements = applicable.statements(alloc)?;
        for &standing in statements.as_slice() {
            self.add(standing.statement.action())?;
        }
        Ok(())
    }

    /// Adds the element, unless it is there.
    fn add(&mut self, element: &'a Actions) -> Result<(), OutOfMemory>
        requires { HasPrints self.old }
        ensures adds { OnOk result (Adds (elements_in self.old) (element.entry.now ∷ []) (elements_in self.new)) }
        ensures prints { OnOk result (HasPrints self.new) }
    {
        let print = print_of(element);
        if self.has(print, element) {
            return Ok(());
        }
        let number = self.listed.len();
        self.listed.push(element)?;
        self.numbers.insert(print, number)?;
        Ok(())
    }

    /// Whether the element, which has this print, is there.
    fn has(&self, print: u64, element: &Actions) -> bool
        requires prints { HasPrints self.now }
        requires print { print ≡ print_of 0 element.now.patterns }
        ensures { IsTrue result ↔ Contains (elements_in self.now) element.now }
    {
        match self.numbers.get(&print) {
            Some(&number) => self.is_at(number, element)
                || is_among(self.listed.as_slice(), element),
            None => false,
        }
    }

    /// `true` only where the element is there, as where it has this number.
    fn is_at(&self, number: usize, element: &Actions) -> bool
        ensures { IsTrue result → Contains (elements_in self.now) element.now }
    {
        number < self.listed.len() && self.listed[number].equals(element)
    }

    /// The patterns of each.
    fn groups(&self, alloc: Global) -> Result<Vec<Vec<Signs<'a>>>, OutOfMemory>
        ensures { IfOk result (λ groups. map (λ g. map signs_in g.items) groups.items ≡ map (λ e. e.patterns) (elements_in self.now)) }
    {
        let mut groups = Vec::with_capacity(alloc, self.listed.len())?;
        for &element in self.listed.as_slice() {
            groups.push(lent_globs(alloc, element.patterns())?)?;
        }
        Ok(groups)
    }
}

/// Whether the element is one of these.
fn is_among(elements: &[&Actions], element: &Actions) -> bool
    ensures { IsTrue result ↔ Contains (map (λ e. e.now) elements.now) element.now }
{
    for &other in elements {
        if is_same(other, element) {
            return true;
        }
    }
    false
}

/// Whether both elements are the same.
fn is_same(one: &Actions, other: &Actions) -> bool
    ensures { IsTrue result ↔ one.now ≡ other.now }
{
    one.is_negated() == other.is_negated() && have_same(one.patterns(), other.patterns())
}

/// Whether both lists have the same patterns in the same order.
fn have_same(ones: &[Glob], others: &[Glob]) -> bool
    ensures { IsTrue result ↔ ones.now ≡ others.now }
{
    if ones.len() != others.len() {
        return false;
    }
    for i in 0..ones.len() {
        if !are_same(ones[i].signs(), others[i].signs()) {
            return false;
        }
    }
    true
}

/// Whether both are the same signs in the same order.
pub fn are_same(ones: Signs<'_>, others: Signs<'_>) -> bool
    ensures { IsTrue result ↔ signs_in ones.entry ≡ signs_in others.entry }
{
    if ones.len() != others.len() {
        return false;
    }
    for i in 0..ones.len() {
        if ones.at(i) != others.at(i) {
            return false;
        }
    }
    true
}

/// A number that tells most elements apart.
pub fn print_of(element: &Actions) -> u64
    ensures { result ≡ print_of 0 element.now.patterns }
{
    let mut print: u64 = 0;
    for pattern in element.patterns() {
        print = print_behind(print, pattern.signs());
    }
    print
}

/// The number of the patterns before, which is this, and of the pattern of these signs.
fn print_behind(print: u64, signs: Signs<'_>) -> u64
    ensures { result ≡ print_behind print (signs_in signs.entry) }
{
    let mut print = print;
    for i in 0..signs.len() {
        print = next_print(print, signs.at(i));
    }
    print
}

fn next_print(print: u64, sign: Sign) -> u64
    ensures { result ≡ next_print print sign }
{
    print
        .wrapping_mul(0x9e37_79b9_7f4a_7c15)
        .wrapping_add(sign_number(sign))
}

fn sign_number(sign: Sign) -> u64
    ensures { result ≡ sign_number sign }
{
    match sign {
        Sign::Any => 0,
        Sign::One => 1,
        Sign::Given(character) => u64::from(u32::from(character)) + 2,
    }
}

/// The signs of the patterns, lent.
fn lent_globs<'a>(alloc: Global, patterns: &'a [Glob]) -> Result<Vec<Signs<'a>>, OutOfMemory>
    ensures { IfOk result (λ group. map signs_in group.items ≡ patterns.entry.now) }
{
    let mut lent = Vec::with_capacity(alloc, patterns.len())?;
    for pattern in patterns {
        lent.push(pattern.signs())?;
    }
    Ok(lent)
}
