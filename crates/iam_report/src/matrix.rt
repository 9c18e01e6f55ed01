// Reports of all cells that are kept as numbers, and written without taking memory.
ghost use Rattle.std.specs.Prelude.{◌≡◌, ◌++◌, ◌+◌, ◌≤◌, [], List, OnErr, OnOk, length};
ghost use Rattle.std.specs.Io.KnownBytes.{Appends};
ghost use Rattle.std.specs.List.{flat_map};
ghost use Rattle.iam_row.specs.Piece.{closing_text, first_position, rows_text, text_of, MatrixValue};
ghost use Rattle.iam_row.specs.declared.tail.Tail.{Tail};
ghost use Rattle.iam_report.specs.Code.Buffer.{IsWithin, PutsRows, Passes};
ghost use Rattle.iam_report.specs.Code.Line.{row_behind};
ghost use Rattle.iam_report.specs.Streams.{AppendsBeginning};

use crate::block::Block;
use crate::output::{OutputFault, put, put_all, put_bytes, write_kept};
use crate::rows::put_rows;
use iam_row::{Format, Position, Quoted, Tail, closing, opening, text_at};
use iam_tiles::Tile;
use itoa::Buffer;
use std::io::Write;
use std::marker::Model;

/// The report of all cells of a matrix, in full or in brief. A contract sees what it is put together from; what is kept
/// is small: the texts of the world once, each different tail of a row once a tile, and a number for each cell.
#[derive(Debug, Drop)]
pub struct MatrixText {
    quoted: Quoted,
    brief: bool,
    tiles: Vec<Tile>,
}

impl Model for MatrixText {
    ghost Value = { MatrixValue };

    ghost view = { λ matrix. record { quoted = matrix.quoted; brief = matrix.brief; tails = flat_map (λ tile. tile) matrix.tiles.items } };

    ghost invariant = { λ matrix. length (flat_map (λ tile. tile) matrix.tiles.items) ≤ 16777216 };
}

/// Puts the row at a position, with this tail, piece by piece; where it is an object, this comma stands before it. No memory
/// is taken. After a fault the writer gained a beginning of what was kept and the row.
pub fn put_pieces<W: Write>(
    writer: &mut W,
    kept: &mut Vec<u8>,
    quoted: &Quoted,
    comma: &str,
    at: Position,
    tail: &Tail,
) -> Result<(), OutputFault>
    ensures ok { OnOk result (Passes (W.contents writer.old) (W.contents writer.new) kept.old.items kept.new.items (row_behind quoted.now comma.now at tail.now)) }
    ensures err { OnErr result (AppendsBeginning (W.contents writer.old) (W.contents writer.new) (kept.old.items ++ row_behind quoted.now comma.now at tail.now)) }
{
    let mut buffer = Buffer::new();
    let cell = buffer.format(at.cell);
    let principal = text_at(quoted.principals.as_slice(), at.principal);
    let action = text_at(quoted.actions.as_slice(), at.action);
    let resource = text_at(quoted.resources.as_slice(), at.resource);
    let front = tail.front.as_str();
    let back = tail.back.as_str();
    match quoted.format {
        Format::Csv => put_line(writer, kept, cell, principal, action, resource, back),
        Format::Json => put_object(
            writer, kept, comma, action, cell, front, principal, resource, back,
        ),
    }
}

/// Puts the pieces of a line.
fn put_line<'a, W: Write>(
    writer: &mut W,
    kept: &mut Vec<u8>,
    cell: &'a str,
    principal: &'a str,
    action: &'a str,
    resource: &'a str,
    back: &'a str,
) -> Result<(), OutputFault>
    ensures ok { OnOk result (Passes (W.contents writer.old) (W.contents writer.new) kept.old.items kept.new.items (cell.now ++ (principal.now ++ (action.now ++ (resource.now ++ back.now))))) }
    ensures err { OnErr result (AppendsBeginning (W.contents writer.old) (W.contents writer.new) (kept.old.items ++ (cell.now ++ (principal.now ++ (action.now ++ (resource.now ++ back.now)))))) }
{
    put_all(writer, kept, &[cell, principal, action, resource, back])
}

/// Puts the pieces of an object.
fn put_object<'a, W: Write>(
    writer: &mut W,
    kept: &mut Vec<u8>,
    comma: &'a str,
    action: &'a str,
    cell: &'a str,
    front: &'a str,
    principal: &'a str,
    resource: &'a str,
    back: &'a str,
) -> Result<(), OutputFault>
    ensures ok { OnOk result (Passes (W.contents writer.old) (W.contents writer.new) kept.old.items kept.new.items (comma.now ++ (action.now ++ (cell.now ++ (front.now ++ (principal.now ++ (resource.now ++ back.now))))))) }
    ensures err { OnErr result (AppendsBeginning (W.contents writer.old) (W.contents writer.new) (kept.old.items ++ (comma.now ++ (action.now ++ (cell.now ++ (front.now ++ (principal.now ++ (resource.now ++ back.now)))))))) }
{
    put_all(
        writer,
        kept,
        &[comma, action, cell, front, principal, resource, back],
    )
}

/// Writes what is kept, and what stands behind all rows. No memory is taken. After a fault the writer gained a beginning of both.
pub fn write_end<W: Write>(
    writer: &mut W,
    kept: &mut Vec<u8>,
    format: Format,
) -> Result<(), OutputFault>
    ensures ok { OnOk result (Appends (W.contents writer.old) (W.contents writer.new) (kept.old.items ++ closing_text format)) }
    ensures err { OnErr result (AppendsBeginning (W.contents writer.old) (W.contents writer.new) (kept.old.items ++ closing_text format)) }
{
    put(writer, kept, closing(format))?;
    write_kept(writer, kept)
}

/// Puts the rows of a tile from this position on, and moves it behind the last.
fn put_tile<W: Write>(
    writer: &mut W,
    kept: &mut Vec<u8>,
    block: &mut Block,
    quoted: &Quoted,
    tile: &Tile,
    at: &mut Position,
) -> Result<(), OutputFault>
    requires within { IsWithin at.old }
    requires few { at.old.cell + length tile.now ≤ 16777216 }
    ensures ok { OnOk result (PutsRows quoted.now tile.now at.old at.new (W.contents writer.old) (W.contents writer.new) (kept.old.items ++ block.old) (kept.new.items ++ block.new)) }
    ensures err { OnErr result ((more : List Tail) → AppendsBeginning (W.contents writer.old) (W.contents writer.new) ((kept.old.items ++ block.old) ++ rows_text quoted.now at.old (tile.now ++ more))) }
    ensures within { OnOk result (IsWithin at.new) }
    ensures cell { OnOk result (at.new.cell ≡ at.old.cell + length tile.now) }
{
    let (tails, numbers) = tile.parts();
    put_rows(writer, kept, block, quoted, tails, numbers, at)
}

/// Puts the rows of all tiles.
fn put_tiles<W: Write>(
    writer: &mut W,
    kept: &mut Vec<u8>,
    quoted: &Quoted,
    tiles: &[Tile],
) -> Result<(), OutputFault>
    requires { length (flat_map (λ tile. tile) tiles.now) ≤ 16777216 }
    ensures ok { OnOk result (Passes (W.contents writer.old) (W.contents writer.new) kept.old.items kept.new.items (rows_text quoted.now first_position (flat_map (λ tile. tile) tiles.now))) }
    ensures err { OnErr result (AppendsBeginning (W.contents writer.old) (W.contents writer.new) (kept.old.items ++ rows_text quoted.now first_position (flat_map (λ tile. tile) tiles.now))) }
{
    let mut at = Position::first();
    let mut block = Block::new();
    for tile in tiles {
        put_tile(writer, kept, &mut block, quoted, tile, &mut at)?;
    }
    put_bytes(writer, kept, block.text())
}

impl MatrixText {
    /// The report with these texts and tails, those of all cells in their order. A world has at most 16,777,216 cells.
    pub fn of(quoted: Quoted, brief: bool, tiles: Vec<Tile>) -> MatrixText
        requires { length (flat_map (λ tile. tile) tiles.items) ≤ 16777216 }
        ensures { result ≡ record { quoted = quoted; brief = brief; tails = flat_map (λ tile. tile) tiles.items } }
    {
        MatrixText {
            quoted,
            brief,
            tiles,
        }
    }

    /// Writes the text by way of an empty buffer, without a flush. No memory is taken. After a fault the writer gained a
    /// beginning of the text.
    pub fn write_to<W: Write>(&self, writer: &mut W, kept: &mut Vec<u8>) -> Result<(), OutputFault>
        requires { kept.old.items ≡ [] }
        ensures ok { OnOk result (Appends (W.contents writer.old) (W.contents writer.new) (text_of self.now)) }
        ensures err { OnErr result (AppendsBeginning (W.contents writer.old) (W.contents writer.new) (text_of self.now)) }
    {
        let format = self.quoted.format;
        put(writer, kept, opening(format, self.brief))?;
        put_tiles(writer, kept, &self.quoted, self.tiles.as_slice())?;
        write_end(writer, kept, format)
    }
}
