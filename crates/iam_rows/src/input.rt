// Inputs, as rows describe them: a text; a named world, with members in place of its own, values put for its
// placeholders, and texts replaced; or pieces, one after the other.
use crate::problem::Problem;
use serde_json::{Map, Value};
use std::alloc::Global;

/// The longest input that is built.
const MOST: usize = 10_000_000;

/// The bytes of an input.
pub fn input_of(alloc: Global, worlds: &Value, input: &Value) -> Result<Vec<u8>, Problem> {
    let mut bytes = Vec::new(alloc);
    match input.get("pieces").and_then(Value::as_array) {
        Some(pieces) => {
            for piece in pieces.as_slice() {
                add_piece(alloc, worlds, piece, &mut bytes)?;
            }
        }
        None => add_piece(alloc, worlds, input, &mut bytes)?,
    }
    Ok(bytes)
}

fn add_piece(
    alloc: Global,
    worlds: &Value,
    piece: &Value,
    bytes: &mut Vec<u8>,
) -> Result<(), Problem> {
    if let Some(text) = piece.as_str() {
        return Ok(bytes.extend_from_slice(text.as_bytes())?);
    }
    if let Some(name) = text_at(piece, "world") {
        let text = world(alloc, worlds, name, piece)?;
        return Ok(bytes.extend_from_slice(text.as_bytes())?);
    }
    if let Some(hex) = text_at(piece, "hex") {
        return add_hex(hex, bytes);
    }
    if let Some(fill) = text_at(piece, "fill") {
        return add_fill(fill, number_at(piece, "to"), bytes);
    }
    add_repeated(alloc, piece, bytes)
}

/// The text of a named world: members stand in place of its own, values in place of placeholders, then texts are
/// replaced.
fn world(alloc: Global, worlds: &Value, name: &str, piece: &Value) -> Result<String, Problem> {
    let members = worlds.get(name).and_then(Value::as_object);
    let mut text = object_text(alloc, members.ok_or(Problem::Form)?, piece.get("with"))?;
    if let Some(values) = piece.get("put").and_then(Value::as_object) {
        text = put_values(alloc, text, values)?;
    }
    if let Some(texts) = piece.get("replace").and_then(Value::as_object) {
        text = replace_texts(alloc, text, texts)?;
    }
    Ok(text)
}

/// The text of an object with other members in place of its own, or behind them.
fn object_text(
    alloc: Global,
    members: &Map<String, Value>,
    others: Option<&Value>,
) -> Result<String, Problem> {
    let mut text = String::from_str(alloc, "{")?;
    for (name, value) in members.iter() {
        let other = others.and_then(|others| others.get(name.as_str()));
        add_member(alloc, &mut text, name.as_str(), other.unwrap_or(value))?;
    }
    if let Some(others) = others.and_then(Value::as_object) {
        for (name, value) in others.iter() {
            if members.get(name.as_str()).is_none() {
                add_member(alloc, &mut text, name.as_str(), value)?;
            }
        }
    }
    text.pop();
    text.push('}')?;
    Ok(text)
}

fn add_member(alloc: Global, text: &mut String, name: &str, value: &Value) -> Result<(), Problem> {
    let value = value.to_string(alloc)?;
    Ok(text.push_str(format!(in alloc; "\"{name}\":{value},")?.as_str())?)
}

fn put_values(
    alloc: Global,
    mut text: String,
    values: &Map<String, Value>,
) -> Result<String, Problem> {
    for (name, value) in values.iter() {
        let place = format!(in alloc; "\"{name}\"")?;
        let value = value.to_string(alloc)?;
        text = replaced(alloc, &text, place.as_str(), value.as_str())?;
    }
    Ok(text)
}

fn replace_texts(
    alloc: Global,
    mut text: String,
    texts: &Map<String, Value>,
) -> Result<String, Problem> {
    for (old, new) in texts.iter() {
        let new = new.as_str().ok_or(Problem::Form)?;
        text = replaced(alloc, &text, old.as_str(), new)?;
    }
    Ok(text)
}

fn replaced(alloc: Global, text: &String, old: &str, new: &str) -> Result<String, Problem> {
    if !text.as_str().contains(old) {
        return Err(Problem::NotThere);
    }
    Ok(text.as_str().replace(alloc, old, new)?)
}

/// Adds bytes written as pairs of hexadecimal digits.
fn add_hex(hex: &str, bytes: &mut Vec<u8>) -> Result<(), Problem> {
    for pair in hex.as_bytes().chunks(2) {
        let mut byte = 0u8;
        for &digit in pair {
            byte = byte.wrapping_mul(16).wrapping_add(digit_of(digit));
        }
        bytes.push(byte)?;
    }
    Ok(())
}

fn digit_of(digit: u8) -> u8 {
    match digit {
        b'0'..=b'9' => digit.wrapping_sub(b'0'),
        b'a'..=b'f' => digit.wrapping_sub(b'a').wrapping_add(10),
        _ => 0,
    }
}

/// Adds a text again and again, until there are so many bytes.
fn add_fill(fill: &str, to: usize, bytes: &mut Vec<u8>) -> Result<(), Problem> {
    for _ in bytes.len()..to.min(MOST) {
        bytes.extend_from_slice(fill.as_bytes())?;
    }
    Ok(())
}

/// Adds a text so many times, with another between; in each one its number stands for `#`, in twelve digits.
fn add_repeated(alloc: Global, piece: &Value, bytes: &mut Vec<u8>) -> Result<(), Problem> {
    let text = text_at(piece, "text").ok_or(Problem::Form)?;
    let between = text_at(piece, "between").unwrap_or("");
    let numbered = text.contains("#");
    for i in 0..number_at(piece, "times").min(MOST) {
        if i > 0 {
            bytes.extend_from_slice(between.as_bytes())?;
        }
        if numbered {
            let number = format!(in alloc; "{i:012}")?;
            let text = text.replace(alloc, "#", number.as_str())?;
            bytes.extend_from_slice(text.as_bytes())?;
        } else {
            bytes.extend_from_slice(text.as_bytes())?;
        }
    }
    Ok(())
}

/// The text that stands under this name.
pub fn text_at<'v>(of: &'v Value, name: &str) -> Option<&'v str> {
    of.get(name)?.as_str()
}

/// The number that stands under this name, else 0.
pub fn number_at(of: &Value, name: &str) -> usize {
    of.get(name).and_then(Value::as_u64).unwrap_or(0) as usize
}
