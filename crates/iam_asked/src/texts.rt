// Lines of which each says something of texts that a world does not name.
ghost use Rattle.std.specs.Prelude.{◌≡◌, ◌≢◌, ◌<◌, ◌≤◌, ◌∷◌, ◌++◌, [], ℕ, IfErr, IfOk, None, OnOk, Some, length, map};
ghost use Rattle.serde_json.specs.Data.{Data};
ghost use Rattle.serde_json.specs.View.{view};
ghost use Rattle.iam_world.specs.WorldFault.{IsJson};
ghost use Rattle.iam_asked.specs.File.{lines_of};
ghost use Rattle.iam_asked.specs.TextFault.{IsFirstFaultyText, IsTextFault, SaidOfHasFault};
ghost use Rattle.iam_asked.specs.TextLines.{AreTextLines, IsKnown, IsTextLine, IsTextShape, TextLineValue, said_in, said_value, text_line_of};
ghost use Rattle.iam_asked.specs.declared.text_fault.TextFault.TheVariants as t;

use crate::read::cut;
use crate::said::text_at;
use crate::text_fault::{FaultyText, TextFault};
use iam_json::has_unknown;
use iam_layers::World;
use serde_json::Value;
use std::alloc::Global;

/// How many lines there may be.
const MOST_TEXTS: usize = 65_536;

/// What is said of texts that a world does not name.
#[derive(Debug, Drop)]
pub enum SaidOf {
    /// All that the world says of its resource with this number, but for its text.
    Like(u64),
    /// That they are of the account with this id, and nothing else.
    Account(String),
}

/// A line: a pattern, and what is said of the texts that it matches.
#[derive(Debug, Drop)]
pub struct TextLine {
    pub pattern: String,
    pub said: SaidOf,
}

/// Tests that a world has what is said of texts: `NoResource` where it has no resource of that number, `NoAccount` where no account has
/// that id.
pub fn check_said(world: &World, said: &SaidOf) -> Result<(), TextFault>
    ensures ok { OnOk result (IsKnown world.now (said_value said.now)) }
    ensures fault { IfErr result (SaidOfHasFault world.now (said_value said.now)) }
{
    match said {
        SaidOf::Like(n) => {
            if *n >= world.resources() {
                return Err(TextFault::NoResource);
            }
        }
        SaidOf::Account(id) => {
            if !world.has_account(id.as_str()) {
                return Err(TextFault::NoAccount);
            }
        }
    }
    Ok(())
}

/// The JSON value of a line.
fn parse(alloc: Global, line: &[u8]) -> Result<Value, TextFault>
    ensures ok { IfOk result (λ value. IsJson line.now (view value)) }
    ensures fault { IfErr result (λ fault. fault ≢ t.OutOfMemory → (fault ≡ t.NotJson) × ((d : Data) → ¬ IsJson line.now d)) }
{
    match Value::from_slice(alloc, line) {
        Ok(value) => Ok(value),
        Err(error) if error.is_memory() => Err(TextFault::OutOfMemory),
        Err(_) => Err(TextFault::NotJson),
    }
}

/// What the members `like` and `account` of an object say; `BadShape` where it has both or none of them, or one that says nothing.
fn read_said_of(alloc: Global, of: &Value) -> Result<SaidOf, TextFault>
    ensures ok { IfOk result (λ said. said_in (view of.now) ≡ Some (said_value said)) }
    ensures fault { IfErr result (λ fault. fault ≢ t.OutOfMemory → (fault ≡ t.BadShape) × (said_in (view of.now) ≡ None)) }
{
    match (of.get("like"), of.get("account")) {
        (Some(like), None) => match like.as_u64() {
            Some(n) => Ok(SaidOf::Like(n)),
            None => Err(TextFault::BadShape),
        },
        (None, Some(account)) => match account.as_str() {
            Some(id) => Ok(SaidOf::Account(String::from_str(alloc, id)?)),
            None => Err(TextFault::BadShape),
        },
        _ => Err(TextFault::BadShape),
    }
}

/// What a JSON value of the shape of such a line says; `BadShape` of any other.
fn read_shape(alloc: Global, of: &Value) -> Result<TextLine, TextFault>
    ensures ok { IfOk result (λ text. IsTextShape (view of.now) (text_line_of text)) }
    ensures fault { IfErr result (λ fault. fault ≢ t.OutOfMemory → (fault ≡ t.BadShape)
        × ((value : TextLineValue) → ¬ IsTextShape (view of.now) value)) }
{
    let Some(pattern) = text_at(of, "pattern") else {
        return Err(TextFault::BadShape);
    };
    if has_unknown(of, &["pattern", "like", "account"]) {
        return Err(TextFault::BadShape);
    }
    let said = read_said_of(alloc, of)?;
    let pattern = String::from_str(alloc, pattern)?;
    Ok(TextLine { pattern, said })
}

/// What a line says of texts, or its least fault, where it is not one too many.
fn read_text(alloc: Global, world: &World, line: &[u8]) -> Result<TextLine, TextFault>
    ensures ok { IfOk result (λ text. IsTextLine world.now line.now (text_line_of text)) }
    ensures fault { IfErr result (λ fault. fault ≢ t.OutOfMemory → (n : ℕ) → n < 65536 → IsTextFault world.now n line.now fault) }
{
    let value = parse(alloc, line)?;
    let text = read_shape(alloc, &value)?;
    check_said(world, &text.said)?;
    Ok(text)
}

/// Adds what a line says of texts, or answers its least fault.
fn add_text(
    alloc: Global,
    world: &World,
    texts: &mut Vec<TextLine>,
    line: &[u8],
) -> Result<(), TextFault>
    ensures ok { OnOk result ((text : TextLine) × IsTextLine world.now line.now (text_line_of text)
        × (texts.new.items ≡ texts.old.items ++ text ∷ [])) }
    ensures few { OnOk result (length texts.old.items < 65536) }
    ensures fault { IfErr result (λ fault. fault ≢ t.OutOfMemory → IsTextFault world.now (length texts.old.items) line.now fault) }
{
    if texts.len() >= MOST_TEXTS {
        return Err(TextFault::TooMany);
    }
    let text = read_text(alloc, world, line)?;
    texts.push(text)?;
    Ok(())
}

/// Adds what a line says of texts; its fault comes with its number.
fn add_line(
    alloc: Global,
    world: &World,
    texts: &mut Vec<TextLine>,
    line: &[u8],
) -> Result<(), FaultyText>
    ensures ok { OnOk result ((text : TextLine) × IsTextLine world.now line.now (text_line_of text)
        × (texts.new.items ≡ texts.old.items ++ text ∷ [])) }
    ensures few { OnOk result (length texts.old.items < 65536) }
    ensures fault { IfErr result (λ faulty. faulty.fault ≢ t.OutOfMemory
        → (faulty.line ≡ length texts.old.items) × IsTextFault world.now faulty.line line.now faulty.fault) }
{
    let number = texts.len() as u64;
    match add_text(alloc, world, texts, line) {
        Ok(()) => Ok(()),
        Err(fault) => Err(FaultyText {
            line: number,
            fault,
        }),
    }
}

/// What lines say of texts that a world does not name, one a line, in order: what each pattern matches is like a resource of the world or
/// of an account of it. Or the first line that says no such thing, with its least fault.
pub fn read_texts(alloc: Global, world: &World, bytes: &[u8]) -> Result<Vec<TextLine>, FaultyText>
    ensures ok { IfOk result (λ texts. AreTextLines world.now (lines_of bytes.now) (map text_line_of texts.items)) }
    ensures few { IfOk result (λ texts. length texts.items ≤ 65536) }
    ensures fault { IfErr result (λ faulty. faulty.fault ≢ t.OutOfMemory → IsFirstFaultyText world.now (lines_of bytes.now) faulty) }
{
    let mut texts = Vec::new(alloc);
    let mut left = bytes;
    while let Some((line, behind)) = cut(left) {
        add_line(alloc, world, &mut texts, line)?;
        left = behind;
    }
    if left.is_empty() {
        return Ok(texts);
    }
    add_line(alloc, world, &mut texts, left)?;
    Ok(texts)
}
