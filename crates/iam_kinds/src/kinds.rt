// One text of each kind.
ghost use Rattle.std.specs.Prelude.{false, ◌≡◌, ◌+◌, ◌++◌, ◌∷◌, [], IfOk, OnOk, ◌<◌, ◌^◌, length, map};
ghost use Rattle.std.specs.Str.{chars};
ghost use Rattle.std.specs.String.{string_bytes};
ghost use Rattle.iam_glob.specs.Glob.{folded, sign_by};
ghost use Rattle.iam_glob.specs.Signs.{signs_in};
ghost use Rattle.iam_kinds.specs.Answers.{IsAnswer, IsAnswerFold, characters_in, pairs_of, patterns_in, question_in, signs_of};
ghost use Rattle.iam_kinds.specs.Kinds.{Question};
ghost use Rattle.iam_kinds.specs.Walk.{Asks, IsReady};
ghost use Rattle.iam_kinds.specs.States.{numbered_groups, numbered_within, with_number};

use crate::OutOfMemory;
use crate::asked::Asked;
use crate::cased::cased_texts;
use crate::grammar::Grammar;
use crate::table::{Pattern, SignList, Table};
use crate::walk::find_texts;
use iam_glob::{Sign, Signs};
use std::alloc::Global;

/// One text of each kind.
#[derive(Debug, Drop)]
pub enum Kinds {
    /// These texts: each is the first of its kind of those that are spelled by the characters that the patterns wait for and, of the
    /// others, the first free one: of `x`, `a` to `w`, `y`, `z` and the digits in this order, or else by code point. No text of its
    /// kind has fewer characters. They stand in order of their numbers of characters, those of one number by code points.
    Shown(Vec<String>),
    /// There are more than 65,536 states, 4,096 kinds or 4,194,304 places in all states.
    NotShown,
}

/// One text of each kind of texts that the grammar has, that each pattern of `within` matches and that are not among those named:
/// two texts are of one kind where each group of patterns matches both or neither.
pub fn find_kinds(
    alloc: Global,
    grammar: Grammar,
    within: &[Signs<'_>],
    groups: &[Vec<Signs<'_>>],
    named: &[&str],
) -> Result<Kinds, OutOfMemory>
    ensures { IfOk result (IsAnswer (question_in false grammar within.now groups.now named.now)) }
{
    let table = table_of(alloc, within, groups, false)?;
    let named = characters(alloc, named, false)?;
    answer(
        alloc,
        &Asked::of(&table, within.len(), groups.len(), grammar, &named),
    )
}

/// The answer to what is asked.
pub fn answer(alloc: Global, asked: &Asked<'_>) -> Result<Kinds, OutOfMemory>
    requires { IsReady asked.now }
    ensures { IfOk result (λ kinds. (question : Question) → Asks asked.now question → IsAnswer question kinds) }
{
    match find_texts(alloc, asked)? {
        Some(texts) => Ok(Kinds::Shown(strings_of(alloc, texts.as_slice())?)),
        None => Ok(Kinds::NotShown),
    }
}

/// The same without regard to case: kinds, first texts and their order are those of patterns and texts that folding leaves. Each
/// character that is shown is as the first pattern has it that waits for it there, those of `within` before those of groups; one that
/// no pattern waits for, and each where the grammar has none of the letters A to Z, is as folding leaves it.
pub fn find_kinds_fold(
    alloc: Global,
    grammar: Grammar,
    within: &[Signs<'_>],
    groups: &[Vec<Signs<'_>>],
    named: &[&str],
) -> Result<Kinds, OutOfMemory>
    ensures { IfOk result (IsAnswerFold (question_in false grammar within.now groups.now named.now)) }
{
    let table = table_of(alloc, within, groups, true)?;
    let named = characters(alloc, named, true)?;
    let asked = Asked::of(&table, within.len(), groups.len(), grammar.folded(), &named);
    let Some(texts) = find_texts(alloc, &asked)? else {
        return Ok(Kinds::NotShown);
    };
    if grammar.first().fold {
        return Ok(Kinds::Shown(strings_of(alloc, texts.as_slice())?));
    }
    let own = table_of(alloc, within, groups, false)?;
    let cased = cased_texts(alloc, &asked, &own, texts.as_slice())?;
    Ok(Kinds::Shown(strings_of(alloc, cased.as_slice())?))
}

/// The patterns, folded where `fold` says so, with the numbers of their groups: each of `within` is a group of its own.
pub fn table_of(
    alloc: Global,
    within: &[Signs<'_>],
    groups: &[Vec<Signs<'_>>],
    fold: bool,
) -> Result<Table, OutOfMemory>
    ensures { IfOk result (λ t. t.patterns.items ≡ patterns_in fold within.now groups.now) }
{
    let mut patterns = Vec::new(alloc);
    add_within(alloc, &mut patterns, within, fold)?;
    add_groups(alloc, &mut patterns, groups, within.len(), fold)?;
    Table::of(alloc, within.len() + groups.len(), patterns)
}

/// Adds each of the patterns that have to match, as a group of its own.
fn add_within(
    alloc: Global,
    listed: &mut Vec<Pattern>,
    within: &[Signs<'_>],
    fold: bool,
) -> Result<(), OutOfMemory>
    ensures { OnOk result (pairs_of listed.new.items ≡ pairs_of listed.old.items ++ numbered_within 0 (map (signs_of fold) within.now)) }
{
    let mut group = 0usize;
    for &signs in within {
        add_pattern(alloc, listed, group, signs, fold)?;
        group += 1;
    }
    Ok(())
}

/// Adds the patterns of all groups, whose numbers begin with this one.
fn add_groups(
    alloc: Global,
    listed: &mut Vec<Pattern>,
    groups: &[Vec<Signs<'_>>],
    first: usize,
    fold: bool,
) -> Result<(), OutOfMemory>
    requires { first + length groups.now < 2 ^ 64 }
    ensures { OnOk result (pairs_of listed.new.items ≡ pairs_of listed.old.items ++ numbered_groups first (map (λ g. map (signs_of fold) g.items) groups.now)) }
{
    let mut number = first;
    for group in groups {
        add_group(alloc, listed, number, group, fold)?;
        number += 1;
    }
    Ok(())
}

/// Adds the patterns of a group.
fn add_group(
    alloc: Global,
    listed: &mut Vec<Pattern>,
    group: usize,
    patterns: &[Signs<'_>],
    fold: bool,
) -> Result<(), OutOfMemory>
    ensures { OnOk result (pairs_of listed.new.items ≡ pairs_of listed.old.items ++ with_number group (map (signs_of fold) patterns.now)) }
{
    for &signs in patterns {
        add_pattern(alloc, listed, group, signs, fold)?;
    }
    Ok(())
}

/// Adds a pattern of a group.
fn add_pattern(
    alloc: Global,
    listed: &mut Vec<Pattern>,
    group: usize,
    signs: Signs<'_>,
    fold: bool,
) -> Result<(), OutOfMemory>
    ensures { OnOk result (pairs_of listed.new.items ≡ pairs_of listed.old.items ++ ((group, signs_of fold signs.entry) ∷ [])) }
{
    let signs = SignList::of(signs_of(alloc, signs, fold)?);
    listed.push(Pattern { group, signs })?;
    Ok(())
}

/// The signs, folded where `fold` says so.
fn signs_of(alloc: Global, signs: Signs<'_>, fold: bool) -> Result<Vec<Sign>, OutOfMemory>
    ensures { IfOk result (λ v. v.items ≡ signs_of fold signs.entry) }
{
    if fold {
        folded_signs(alloc, signs)
    } else {
        copied_signs(alloc, signs)
    }
}

fn copied_signs(alloc: Global, signs: Signs<'_>) -> Result<Vec<Sign>, OutOfMemory>
    ensures { IfOk result (λ v. v.items ≡ signs_in signs.entry) }
{
    let mut copied = Vec::with_capacity(alloc, signs.len())?;
    for i in 0..signs.len() {
        copied.push(signs.at(i))?;
    }
    Ok(copied)
}

fn folded_signs(alloc: Global, signs: Signs<'_>) -> Result<Vec<Sign>, OutOfMemory>
    ensures { IfOk result (λ v. v.items ≡ map (sign_by folded) (signs_in signs.entry)) }
{
    let mut copied = Vec::with_capacity(alloc, signs.len())?;
    for i in 0..signs.len() {
        copied.push(folded_sign(signs.at(i)))?;
    }
    Ok(copied)
}

fn folded_sign(sign: Sign) -> Sign
    ensures { result ≡ sign_by folded sign }
{
    match sign {
        Sign::Given(character) => Sign::Given(character.to_ascii_lowercase()),
        Sign::One => Sign::One,
        Sign::Any => Sign::Any,
    }
}

/// The characters of texts, folded where `fold` says so.
pub fn characters(alloc: Global, texts: &[&str], fold: bool) -> Result<Vec<Vec<char>>, OutOfMemory>
    ensures { IfOk result (λ v. map (λ t. t.items) v.items ≡ map (λ t. characters_in fold (chars t.now)) texts.now) }
{
    let mut listed = Vec::new(alloc);
    for &text in texts {
        listed.push(characters_of(alloc, text, fold)?)?;
    }
    Ok(listed)
}

fn characters_of(alloc: Global, text: &str, fold: bool) -> Result<Vec<char>, OutOfMemory>
    ensures { IfOk result (λ v. v.items ≡ characters_in fold (chars text.now)) }
{
    if fold {
        folded_characters(alloc, text)
    } else {
        copied_characters(alloc, text)
    }
}

fn copied_characters(alloc: Global, text: &str) -> Result<Vec<char>, OutOfMemory>
    ensures { IfOk result (λ v. v.items ≡ chars text.now) }
{
    text.chars().collect(alloc)
}

fn folded_characters(alloc: Global, text: &str) -> Result<Vec<char>, OutOfMemory>
    ensures { IfOk result (λ v. v.items ≡ map folded (chars text.now)) }
{
    text.chars()
        .map(|character| character.to_ascii_lowercase())
        .collect(alloc)
}

/// The texts of these characters.
fn strings_of(alloc: Global, texts: &[Vec<char>]) -> Result<Vec<String>, OutOfMemory>
    ensures { IfOk result (λ v. map (λ t. chars (string_bytes t)) v.items ≡ map (λ t. t.items) texts.now) }
{
    let mut strings = Vec::with_capacity(alloc, texts.len())?;
    for text in texts {
        strings.push(string_of(alloc, text)?)?;
    }
    Ok(strings)
}

/// The text of these characters.
fn string_of(alloc: Global, characters: &[char]) -> Result<String, OutOfMemory>
    ensures { IfOk result (λ text. chars (string_bytes text) ≡ characters.now) }
{
    let mut text = String::with_capacity(alloc, characters.len())?;
    for &character in characters {
        text.push(character)?;
    }
    Ok(text)
}
