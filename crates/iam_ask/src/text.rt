// The report of requests, kept as numbers, and written without taking memory.
ghost use Rattle.std.specs.Prelude.{◌≡◌, ◌++◌, ◌+◌, ◌≤◌, [], OnErr, OnOk, length};
ghost use Rattle.std.specs.Io.KnownBytes.{Appends};
ghost use Rattle.std.specs.List.{flat_map};
ghost use Rattle.iam_report.specs.Code.Buffer.{Passes};
ghost use Rattle.iam_report.specs.Streams.{AppendsBeginning};
ghost use Rattle.iam_ask.specs.Code.Rows.{AskValue, ask_text, position_at, rows_text};

use iam_asked::Requests;
use iam_report::{OutputFault, Tile, put, put_pieces, write_end};
use iam_row::{Position, Quoted, comma_before, opening};
use std::io::Write;
use std::marker::Model;

/// The report of requests, in full or in brief. A contract sees what it is put together from.
#[derive(Drop)]
pub struct AskText<'a> {
    requests: &'a Requests<'a>,
    quoted: Quoted,
    brief: bool,
    tiles: Vec<Tile>,
}

impl<'a> Model for AskText<'a> {
    ghost Value = { AskValue };

    ghost view = { λ text. record { quoted = text.quoted; brief = text.brief; asked = text.requests.now.asked; tails = flat_map (λ tile. tile) text.tiles.items } };

    ghost invariant = { λ text. length (flat_map (λ tile. tile) text.tiles.items) ≡ length text.requests.now.asked };
}

/// The position of the row of request n.
fn position_at(requests: &Requests<'_>, n: u64) -> Position
    requires { n + 1 ≤ length requests.now.asked }
    ensures { result ≡ position_at requests.now.asked n }
{
    let asked = requests.at(n);
    Position {
        cell: n,
        principal: asked.principal,
        action: asked.action,
        resource: asked.resource,
    }
}

/// Puts the rows of a tile, the first of which is that of request `from`.
fn put_tile<W: Write>(
    writer: &mut W,
    kept: &mut Vec<u8>,
    quoted: &Quoted,
    requests: &Requests<'_>,
    from: u64,
    tile: &Tile,
) -> Result<(), OutputFault>
    requires { from + length tile.now ≤ length requests.now.asked }
    ensures ok { OnOk result (Passes (W.contents writer.old) (W.contents writer.new) kept.old.items kept.new.items (rows_text quoted.now requests.now.asked from tile.now)) }
    ensures err { OnErr result (AppendsBeginning (W.contents writer.old) (W.contents writer.new) (kept.old.items ++ rows_text quoted.now requests.now.asked from tile.now)) }
{
    // There are at most 16,777,216 requests, so the numbers fit.
    let _count = requests.count();
    for i in 0..tile.len() {
        let n = from + i as u64;
        let at = position_at(requests, n);
        let comma = comma_before(n);
        put_pieces(writer, kept, quoted, comma, at, tile.tail(i))?;
    }
    Ok(())
}

/// Puts the rows of all tiles.
fn put_tiles<W: Write>(
    writer: &mut W,
    kept: &mut Vec<u8>,
    quoted: &Quoted,
    requests: &Requests<'_>,
    tiles: &[Tile],
) -> Result<(), OutputFault>
    requires { length (flat_map (λ tile. tile) tiles.now) ≤ length requests.now.asked }
    ensures ok { OnOk result (Passes (W.contents writer.old) (W.contents writer.new) kept.old.items kept.new.items (rows_text quoted.now requests.now.asked 0 (flat_map (λ tile. tile) tiles.now))) }
    ensures err { OnErr result (AppendsBeginning (W.contents writer.old) (W.contents writer.new) (kept.old.items ++ rows_text quoted.now requests.now.asked 0 (flat_map (λ tile. tile) tiles.now))) }
{
    // There are at most 16,777,216 requests, so the numbers fit.
    let _count = requests.count();
    let mut from = 0;
    for tile in tiles {
        put_tile(writer, kept, quoted, requests, from, tile)?;
        from += tile.len() as u64;
    }
    Ok(())
}

impl<'a> AskText<'a> {
    /// The report of these requests with these texts, and the tails of their rows in order.
    pub(crate) fn of(
        requests: &'a Requests<'a>,
        quoted: Quoted,
        brief: bool,
        tiles: Vec<Tile>,
    ) -> AskText<'a>
        requires { length (flat_map (λ tile. tile) tiles.items) ≡ length requests.now.asked }
        ensures { result ≡ record { quoted = quoted; brief = brief; asked = requests.entry.now.asked; tails = flat_map (λ tile. tile) tiles.items } }
    {
        AskText {
            requests,
            quoted,
            brief,
            tiles,
        }
    }

    /// Writes the text by way of an empty buffer, without a flush. No memory is taken. After a fault the writer gained a
    /// beginning of the text.
    pub fn write_to<W: Write>(&self, writer: &mut W, kept: &mut Vec<u8>) -> Result<(), OutputFault>
        requires { kept.old.items ≡ [] }
        ensures ok { OnOk result (Appends (W.contents writer.old) (W.contents writer.new) (ask_text self.now)) }
        ensures err { OnErr result (AppendsBeginning (W.contents writer.old) (W.contents writer.new) (ask_text self.now)) }
    {
        let format = self.quoted.format;
        let tiles = self.tiles.as_slice();
        put(writer, kept, opening(format, self.brief))?;
        put_tiles(writer, kept, &self.quoted, self.requests, tiles)?;
        write_end(writer, kept, format)
    }
}
