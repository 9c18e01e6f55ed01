// The report of some cells, kept as numbers, and written without taking memory.
ghost use Rattle.std.specs.Prelude.{◌≡◌, ◌++◌, [], OnErr, OnOk};
ghost use Rattle.std.specs.Io.KnownBytes.{Appends};
ghost use Rattle.std.specs.List.{flat_map};
ghost use Rattle.iam_report.specs.Code.Buffer.{Passes};
ghost use Rattle.iam_report.specs.Streams.{AppendsBeginning};
ghost use Rattle.iam_selection.specs.Code.Listing.{lead_of, list_text, rows_text, ListValue};

use crate::found::Found;
use iam_report::{OutputFault, comma_of, position_in, put, put_pieces, write_end};
use iam_row::{Quoted, opening};
use std::io::Write;
use std::marker::Model;

/// The report of the rows that are asked for, in full or in brief. A contract sees what it is put together from.
#[derive(Debug, Drop)]
pub struct ListText {
    quoted: Quoted,
    brief: bool,
    // The cell of the first row.
    lead: u64,
    tiles: Vec<Found>,
}

impl Model for ListText {
    ghost Value = { ListValue };

    ghost view = { λ list. record { quoted = list.quoted; brief = list.brief; rows = flat_map (λ tile. tile) list.tiles.items } };

    ghost invariant = { λ list. list.lead ≡ lead_of (flat_map (λ tile. tile) list.tiles.items) };
}

/// The cell of the first row of all tiles.
fn lead_in(tiles: &[Found]) -> u64
    ensures { result ≡ lead_of (flat_map (λ tile. tile) tiles.now) }
{
    for tile in tiles {
        if tile.len() > 0 {
            return tile.cell(0);
        }
    }
    0
}

/// Puts the rows of a tile.
fn put_found<W: Write>(
    writer: &mut W,
    kept: &mut Vec<u8>,
    quoted: &Quoted,
    lead: u64,
    found: &Found,
) -> Result<(), OutputFault>
    ensures ok { OnOk result (Passes (W.contents writer.old) (W.contents writer.new) kept.old.items kept.new.items (rows_text quoted.now lead found.now)) }
    ensures err { OnErr result (AppendsBeginning (W.contents writer.old) (W.contents writer.new) (kept.old.items ++ rows_text quoted.now lead found.now)) }
{
    for i in 0..found.len() {
        let cell = found.cell(i);
        let at = position_in(quoted, cell);
        let comma = comma_of(lead, cell);
        put_pieces(writer, kept, quoted, comma, at, found.tail(i))?;
    }
    Ok(())
}

/// Puts the rows of all tiles.
fn put_tiles<W: Write>(
    writer: &mut W,
    kept: &mut Vec<u8>,
    quoted: &Quoted,
    lead: u64,
    tiles: &[Found],
) -> Result<(), OutputFault>
    ensures ok { OnOk result (Passes (W.contents writer.old) (W.contents writer.new) kept.old.items kept.new.items (rows_text quoted.now lead (flat_map (λ tile. tile) tiles.now))) }
    ensures err { OnErr result (AppendsBeginning (W.contents writer.old) (W.contents writer.new) (kept.old.items ++ rows_text quoted.now lead (flat_map (λ tile. tile) tiles.now))) }
{
    for tile in tiles {
        put_found(writer, kept, quoted, lead, tile)?;
    }
    Ok(())
}

impl ListText {
    /// The report with these texts, and these rows in the order of their cells.
    pub(crate) fn of(quoted: Quoted, brief: bool, tiles: Vec<Found>) -> ListText
        ensures { result ≡ record { quoted = quoted; brief = brief; rows = flat_map (λ tile. tile) tiles.items } }
    {
        let lead = lead_in(tiles.as_slice());
        ListText {
            quoted,
            brief,
            lead,
            tiles,
        }
    }

    /// Writes the text by way of an empty buffer, without a flush. No memory is taken. After a fault the writer gained a
    /// beginning of the text.
    pub fn write_to<W: Write>(&self, writer: &mut W, kept: &mut Vec<u8>) -> Result<(), OutputFault>
        requires { kept.old.items ≡ [] }
        ensures ok { OnOk result (Appends (W.contents writer.old) (W.contents writer.new) (list_text self.now)) }
        ensures err { OnErr result (AppendsBeginning (W.contents writer.old) (W.contents writer.new) (list_text self.now)) }
    {
        let format = self.quoted.format;
        let tiles = self.tiles.as_slice();
        put(writer, kept, opening(format, self.brief))?;
        put_tiles(writer, kept, &self.quoted, self.lead, tiles)?;
        write_end(writer, kept, format)
    }
}
