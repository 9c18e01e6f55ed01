// Texts as they stand in rows.
ghost use Rattle.std.specs.Prelude.{◌≡◌, [], IfOk, get_or, map, string_bytes};
ghost use Rattle.csv.specs.Writing.{default_writer, field_text, needs_byte, needs_quotes};
ghost use Rattle.serde_json.specs.Data.{string};
ghost use Rattle.serde_json.specs.Written.{compact_text};
ghost use Rattle.iam_layers.specs.Cell.{principal_text};
ghost use Rattle.iam_row.specs.Piece.{IsQuotedOf, action_piece, principal_piece, quote_of, resource_piece};

use csv::Writer;
use iam_layers::World;
use iam_text::{Items, OutOfMemory, Text};
use serde_json::Value;
use std::alloc::Global;

/// The format of a report.
#[derive(Clone, Copy, Debug, PartialEq, Eq)]
pub enum Format {
    /// Comma-separated values: a header and a row for each cell.
    Csv,
    /// A JSON list with an object for each cell.
    Json,
}

/// The texts of a world's principals, actions and resources as they stand in rows, with what stands beside them in each;
/// each is quoted once for the whole report.
#[derive(Debug, Drop)]
pub struct Quoted {
    pub format: Format,
    pub principals: Items<Text>,
    pub actions: Items<Text>,
    pub resources: Items<Text>,
}

/// Whether a byte sets a field apart, so that it has to stand in quotes.
fn sets_apart(byte: u8) -> bool
    ensures { result ≡ needs_byte default_writer byte }
{
    matches!(byte, b',' | b'"' | b'\r' | b'\n')
}

/// Whether a text as a field of CSV has to stand in quotes.
fn needs_quotes(text: &str) -> bool
    ensures { result ≡ needs_quotes default_writer text.now }
{
    text.as_bytes().iter().any(|&byte| sets_apart(byte))
}

/// The bytes of a text as a field of CSV. Most are their own field, for which no writer is made.
fn csv_bytes(alloc: Global, text: &str) -> Result<Vec<u8>, OutOfMemory>
    ensures { IfOk result (λ bytes. bytes.items ≡ field_text default_writer text.now) }
{
    if needs_quotes(text) {
        written_field(alloc, text)
    } else {
        Vec::from_slice(alloc, text.as_bytes())
    }
}

/// The same by a writer, which is large: a call that makes none should not have room for one.
#[inline(never)]
fn written_field(alloc: Global, text: &str) -> Result<Vec<u8>, OutOfMemory>
    ensures { IfOk result (λ bytes. bytes.items ≡ field_text default_writer text.now) }
{
    let mut writer = Writer::from_writer(Vec::new(alloc));
    if writer.write_field(text.as_bytes()).is_err() {
        return Err(OutOfMemory);
    }
    writer.into_inner().map_err(|_| OutOfMemory)
}

/// A text as a field of CSV.
fn csv_field(alloc: Global, text: &str) -> Result<String, OutOfMemory>
    ensures { IfOk result (λ field. string_bytes field ≡ field_text default_writer text.now) }
{
    let bytes = csv_bytes(alloc, text)?;
    // The field of a text is UTF-8, as `proofs/Fields.antt` shows.
    Ok(String::from_utf8(bytes).unwrap())
}

/// A text as a string of JSON.
fn json_string(alloc: Global, text: &str) -> Result<String, OutOfMemory>
    ensures { IfOk result (λ quoted. string_bytes quoted ≡ compact_text (string text.now)) }
{
    Value::String(String::from_str(alloc, text)?).to_string(alloc)
}

/// A text as it stands in a row. `OutOfMemory` comes where it finds no memory.
pub fn quote(alloc: Global, format: Format, text: &str) -> Result<String, OutOfMemory>
    ensures { IfOk result (λ quoted. string_bytes quoted ≡ quote_of format text.now) }
{
    match format {
        Format::Csv => csv_field(alloc, text),
        Format::Json => json_string(alloc, text),
    }
}

/// The text of a principal, with what stands beside it in each row.
pub fn principal_piece(alloc: Global, format: Format, text: &str) -> Result<Text, OutOfMemory>
    ensures { IfOk result (λ piece. piece ≡ principal_piece format text.now) }
{
    let quoted = quote(alloc, format, text)?;
    let piece = match format {
        Format::Csv => format!(in alloc; ",{quoted},")?,
        Format::Json => quoted,
    };
    Ok(Text::from_string(piece))
}

/// The text of an action, with what stands beside it in each row.
pub fn action_piece(alloc: Global, format: Format, text: &str) -> Result<Text, OutOfMemory>
    ensures { IfOk result (λ piece. piece ≡ action_piece format text.now) }
{
    let quoted = quote(alloc, format, text)?;
    let piece = match format {
        Format::Csv => format!(in alloc; "{quoted},")?,
        Format::Json => format!(in alloc; "{{\"action\":{quoted},\"cell\":")?,
    };
    Ok(Text::from_string(piece))
}

/// The text of a resource, with what stands beside it in each row.
pub fn resource_piece(alloc: Global, format: Format, text: &str) -> Result<Text, OutOfMemory>
    ensures { IfOk result (λ piece. piece ≡ resource_piece format text.now) }
{
    let quoted = quote(alloc, format, text)?;
    let piece = match format {
        Format::Csv => quoted,
        Format::Json => format!(in alloc; ",\"resource\":{quoted}")?,
    };
    Ok(Text::from_string(piece))
}

/// The texts of all principals, each with what stands beside it in each row.
pub fn principals(alloc: Global, world: &World, format: Format) -> Result<Items<Text>, OutOfMemory>
    ensures { IfOk result (λ texts. texts ≡ map (λ principal. principal_piece format (principal_text principal)) world.now.principals) }
{
    let mut texts = Vec::new(alloc);
    for p in 0..world.principals() {
        texts.push(principal_piece(alloc, format, world.principal_text(p))?)?;
    }
    Ok(Items::from_vec(texts))
}

fn actions(alloc: Global, world: &World, format: Format) -> Result<Items<Text>, OutOfMemory>
    ensures { IfOk result (λ texts. texts ≡ map (action_piece format) world.now.actions) }
{
    let mut texts = Vec::new(alloc);
    for a in 0..world.actions() {
        texts.push(action_piece(alloc, format, world.action_text(a))?)?;
    }
    Ok(Items::from_vec(texts))
}

/// The texts of all resources, each with what stands beside it in each row.
pub fn resources(alloc: Global, world: &World, format: Format) -> Result<Items<Text>, OutOfMemory>
    ensures { IfOk result (λ texts. texts ≡ map (λ resource. resource_piece format resource.arn) world.now.resources) }
{
    let mut texts = Vec::new(alloc);
    for r in 0..world.resources() {
        texts.push(resource_piece(alloc, format, world.resource_text(r))?)?;
    }
    Ok(Items::from_vec(texts))
}

/// Text i, or the empty text where there is none.
pub fn text_at(texts: &[Text], i: u64) -> &str
    ensures { result.now ≡ get_or texts.entry.now i [] }
{
    match texts.get(i as usize) {
        Some(text) => text.as_str(),
        None => "",
    }
}

impl Quoted {
    /// The texts of this world in this format. `OutOfMemory` comes where they find no memory.
    pub fn of(alloc: Global, world: &World, format: Format) -> Result<Quoted, OutOfMemory>
        ensures format { IfOk result (λ quoted. quoted.format ≡ format) }
        ensures texts { IfOk result (λ quoted. IsQuotedOf world.now quoted) }
    {
        Ok(Quoted {
            format,
            principals: principals(alloc, world, format)?,
            actions: actions(alloc, world, format)?,
            resources: resources(alloc, world, format)?,
        })
    }
}
