// The report of what has changed, kept as numbers, and written without taking memory.
ghost use Rattle.std.specs.Prelude.{◌≡◌, ◌++◌, [], OnErr, OnOk};
ghost use Rattle.std.specs.Io.KnownBytes.{Appends};
ghost use Rattle.iam_report.specs.Code.Buffer.{Passes};
ghost use Rattle.iam_report.specs.Streams.{AppendsBeginning};
ghost use Rattle.iam_changes.specs.Code.Kept.{kinds_in};
ghost use Rattle.iam_changes.specs.Code.Pieces.{lead_of, report_text, row_behind, row_text, rows_in, rows_text, ReportValue};

use crate::change::Kinds;
use crate::part::Part;
use iam_report::{OutputFault, comma_of, position_in, put, put_all, write_end};
use iam_row::{Format, Quoted, Tail, changes_opening, text_at};
use std::io::Write;
use std::marker::Model;

/// The texts of two worlds as they stand in rows. The cells of the world BEFORE are counted behind those of AFTER, of which there
/// are so many; the row of the cell `lead` is the first.
#[derive(Debug, Drop)]
pub struct Pieces {
    pub before: Quoted,
    pub after: Quoted,
    pub cells: u64,
    pub lead: u64,
}

/// The report of what has changed, in full or in brief. A contract sees what it is put together from.
#[derive(Debug, Drop)]
pub struct ChangesText {
    pieces: Pieces,
    brief: bool,
    parts: Vec<Part>,
    kinds: Kinds,
}

impl Model for ChangesText {
    ghost Value = { ReportValue };

    ghost view = { λ text. record { pieces = text.pieces; brief = text.brief; rows = rows_in text.parts.items; kinds = text.kinds } };

    ghost invariant = { λ text. (text.pieces.lead ≡ lead_of (rows_in text.parts.items)) × (text.kinds ≡ kinds_in text.parts.items) };
}

/// The cell of the first row of all parts.
fn lead_in(parts: &[Part]) -> u64
    ensures { result ≡ lead_of (rows_in parts.now) }
{
    for part in parts {
        if part.len() > 0 {
            return part.cell(0, part.from());
        }
    }
    0
}

/// Which kinds of changes the parts have.
fn kinds_in(parts: &[Part]) -> Kinds
    ensures { result ≡ kinds_in parts.now }
{
    let mut kinds = Kinds::none();
    for part in parts {
        kinds = kinds.joined(part.kinds());
    }
    kinds
}

/// Puts the row of a cell of a world with these texts, which has this number in it; where it is an object, this comma stands
/// before it.
fn put_pieces<W: Write>(
    writer: &mut W,
    kept: &mut Vec<u8>,
    quoted: &Quoted,
    comma: &str,
    cell: u64,
    tail: &Tail,
) -> Result<(), OutputFault>
    ensures ok { OnOk result (Passes (W.contents writer.old) (W.contents writer.new) kept.old.items kept.new.items (row_behind quoted.now comma.now cell tail.now)) }
    ensures err { OnErr result (AppendsBeginning (W.contents writer.old) (W.contents writer.new) (kept.old.items ++ row_behind quoted.now comma.now cell tail.now)) }
{
    let at = position_in(quoted, cell);
    let principal = text_at(quoted.principals.as_slice(), at.principal);
    let action = text_at(quoted.actions.as_slice(), at.action);
    let resource = text_at(quoted.resources.as_slice(), at.resource);
    let front = tail.front.as_str();
    let back = tail.back.as_str();
    match quoted.format {
        Format::Csv => put_all(writer, kept, &[front, principal, action, resource, back]),
        Format::Json => put_all(
            writer,
            kept,
            &[comma, action, front, principal, resource, back],
        ),
    }
}

/// Puts the row of a cell.
fn put_row<W: Write>(
    writer: &mut W,
    kept: &mut Vec<u8>,
    pieces: &Pieces,
    cell: u64,
    tail: &Tail,
) -> Result<(), OutputFault>
    ensures ok { OnOk result (Passes (W.contents writer.old) (W.contents writer.new) kept.old.items kept.new.items (row_text pieces.now (cell, tail.now))) }
    ensures err { OnErr result (AppendsBeginning (W.contents writer.old) (W.contents writer.new) (kept.old.items ++ row_text pieces.now (cell, tail.now))) }
{
    let comma = comma_of(pieces.lead, cell);
    if cell < pieces.cells {
        return put_pieces(writer, kept, &pieces.after, comma, cell, tail);
    }
    let cell = cell - pieces.cells;
    put_pieces(writer, kept, &pieces.before, comma, cell, tail)
}

/// Puts the rows of a part.
fn put_part<W: Write>(
    writer: &mut W,
    kept: &mut Vec<u8>,
    pieces: &Pieces,
    part: &Part,
) -> Result<(), OutputFault>
    ensures ok { OnOk result (Passes (W.contents writer.old) (W.contents writer.new) kept.old.items kept.new.items (rows_text pieces.now part.now.rows)) }
    ensures err { OnErr result (AppendsBeginning (W.contents writer.old) (W.contents writer.new) (kept.old.items ++ rows_text pieces.now part.now.rows)) }
{
    let mut behind = part.from();
    for i in 0..part.len() {
        let cell = part.cell(i, behind);
        put_row(writer, kept, pieces, cell, part.tail(i))?;
        behind = cell + 1;
    }
    Ok(())
}

/// Puts the rows of all parts.
fn put_parts<W: Write>(
    writer: &mut W,
    kept: &mut Vec<u8>,
    pieces: &Pieces,
    parts: &[Part],
) -> Result<(), OutputFault>
    ensures ok { OnOk result (Passes (W.contents writer.old) (W.contents writer.new) kept.old.items kept.new.items (rows_text pieces.now (rows_in parts.now))) }
    ensures err { OnErr result (AppendsBeginning (W.contents writer.old) (W.contents writer.new) (kept.old.items ++ rows_text pieces.now (rows_in parts.now))) }
{
    for part in parts {
        put_part(writer, kept, pieces, part)?;
    }
    Ok(())
}

impl ChangesText {
    /// The report with the texts of two worlds in one format, of which AFTER has so many cells, and these rows in the order of
    /// their cells.
    pub fn of(
        before: Quoted,
        after: Quoted,
        cells: u64,
        brief: bool,
        parts: Vec<Part>,
    ) -> ChangesText
        ensures { result ≡ record { pieces = record { before = before; after = after; cells = cells; lead = lead_of (rows_in parts.items) }; brief = brief; rows = rows_in parts.items; kinds = kinds_in parts.items } }
    {
        let pieces = Pieces {
            before,
            after,
            cells,
            lead: lead_in(parts.as_slice()),
        };
        let kinds = kinds_in(parts.as_slice());
        ChangesText {
            pieces,
            brief,
            parts,
            kinds,
        }
    }

    /// Which kinds of changes the report has.
    pub fn kinds(&self) -> Kinds
        ensures { result ≡ self.now.kinds }
    {
        self.kinds
    }

    /// Writes the text by way of an empty buffer, without a flush. No memory is taken. After a fault the writer gained a
    /// beginning of the text.
    pub fn write_to<W: Write>(&self, writer: &mut W, kept: &mut Vec<u8>) -> Result<(), OutputFault>
        requires { kept.old.items ≡ [] }
        ensures ok { OnOk result (Appends (W.contents writer.old) (W.contents writer.new) (report_text self.now)) }
        ensures err { OnErr result (AppendsBeginning (W.contents writer.old) (W.contents writer.new) (report_text self.now)) }
    {
        let format = self.pieces.after.format;
        let parts = self.parts.as_slice();
        put(writer, kept, changes_opening(format, self.brief))?;
        put_parts(writer, kept, &self.pieces, parts)?;
        write_end(writer, kept, format)
    }
}
