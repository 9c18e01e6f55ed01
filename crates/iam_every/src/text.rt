// The text of the report on all names, kept whole before its first byte is written.
ghost use Rattle.std.specs.Prelude.{◌≡◌, ◌++◌, [], OnErr, OnOk, string_bytes};
ghost use Rattle.std.specs.Io.KnownBytes.{Appends};
ghost use Rattle.std.specs.List.{flat_map};
ghost use Rattle.iam_report.specs.Code.Buffer.{Passes};
ghost use Rattle.iam_report.specs.Streams.{AppendsBeginning};
ghost use Rattle.iam_row.specs.Piece.{closing_text};

use iam_report::{OutputFault, put, write_end};
use iam_row::Format;
use std::io::Write;
use std::marker::Model;

/// The report on all names. A contract sees its text.
#[derive(Drop)]
pub struct EveryText {
    // What stands before all rows.
    opening: &'static str,
    format: Format,
    // The rows of one principal each.
    rows: Vec<String>,
}

impl Model for EveryText {
    ghost use Rattle.std.specs.Prelude.{◌++◌, ℕ, List, string_bytes};
    ghost use Rattle.std.specs.List.{flat_map};
    ghost use Rattle.iam_row.specs.Piece.{closing_text};

    ghost Value = { List ℕ };

    ghost view = { λ text. text.opening.now ++ (flat_map string_bytes text.rows.items ++ closing_text text.format) };
}

/// Puts texts one behind the other.
fn put_texts<W: Write>(
    writer: &mut W,
    kept: &mut Vec<u8>,
    texts: &[String],
) -> Result<(), OutputFault>
    ensures ok { OnOk result (Passes (W.contents writer.old) (W.contents writer.new) kept.old.items kept.new.items (flat_map string_bytes texts.now)) }
    ensures err { OnErr result (AppendsBeginning (W.contents writer.old) (W.contents writer.new) (kept.old.items ++ flat_map string_bytes texts.now)) }
{
    for text in texts {
        put(writer, kept, text.as_str())?;
    }
    Ok(())
}

impl EveryText {
    /// The text of these rows in this format, behind what stands before all.
    pub fn of(opening: &'static str, format: Format, rows: Vec<String>) -> EveryText
        ensures { result ≡ opening.now ++ (flat_map string_bytes rows.items ++ closing_text format) }
    {
        EveryText {
            opening,
            format,
            rows,
        }
    }

    /// Writes the text by way of an empty buffer, without a flush. No memory is taken. After a fault the writer gained a
    /// beginning of the text.
    pub fn write_to<W: Write>(&self, writer: &mut W, kept: &mut Vec<u8>) -> Result<(), OutputFault>
        requires { kept.old.items ≡ [] }
        ensures ok { OnOk result (Appends (W.contents writer.old) (W.contents writer.new) self.now) }
        ensures err { OnErr result (AppendsBeginning (W.contents writer.old) (W.contents writer.new) self.now) }
    {
        put(writer, kept, self.opening)?;
        put_texts(writer, kept, self.rows.as_slice())?;
        write_end(writer, kept, self.format)
    }
}
