// A report, and writing it: one flush, behind the last byte.
ghost use Rattle.std.specs.Prelude.{◌≡◌, [], OnOk, OnErr};
ghost use Rattle.std.specs.Io.KnownBytes.{Appends, Keeps};
ghost use Rattle.iam_report.specs.Streams.{AppendsBeginning};
ghost use Rattle.iam_ask.specs.Code.Rows.{ask_text};
ghost use Rattle.iam_app.specs.Code.Pieces.{report_text};

use iam_ask::AskText;
use iam_changes::ChangesText;
use iam_every::EveryText;
use iam_report::{MatrixText, OutputFault, write_text};
use iam_selection::ListText;
use std::io::Write;

/// A report, as it was made.
#[derive(Drop)]
pub enum Report {
    /// In one text.
    Whole(Vec<u8>),
    /// Of all cells, to be put together when it is written.
    Matrix(MatrixText),
    /// Of the rows that are asked for.
    Rows(ListText),
    /// Of what has changed.
    Changes(ChangesText),
}

/// Writes the whole report by way of an empty buffer, without a flush.
fn write_unflushed<W: Write>(
    writer: &mut W,
    kept: &mut Vec<u8>,
    report: &Report,
) -> Result<(), OutputFault>
    requires { kept.old.items ≡ [] }
    ensures ok { OnOk result (Appends (W.contents writer.old) (W.contents writer.new) (report_text report.now)) }
    ensures err { OnErr result (AppendsBeginning (W.contents writer.old) (W.contents writer.new) (report_text report.now)) }
{
    match report {
        Report::Whole(text) => write_text(writer, text.as_slice()),
        Report::Matrix(matrix) => matrix.write_to(writer, kept),
        Report::Rows(rows) => rows.write_to(writer, kept),
        Report::Changes(changes) => changes.write_to(writer, kept),
    }
}

fn flush<W: Write>(writer: &mut W) -> Result<(), OutputFault>
    ensures { Keeps (W.contents writer.old) (W.contents writer.new) }
{
    writer.flush().map_err(|_| OutputFault)
}

/// Writes the whole report by way of an empty buffer, and flushes behind its last byte. No memory is taken. After a fault
/// the writer gained a beginning of its text.
pub fn write_report<W: Write>(
    writer: &mut W,
    kept: &mut Vec<u8>,
    report: &Report,
) -> Result<(), OutputFault>
    requires { kept.old.items ≡ [] }
    ensures ok { OnOk result (Appends (W.contents writer.old) (W.contents writer.new) (report_text report.now)) }
    ensures err { OnErr result (AppendsBeginning (W.contents writer.old) (W.contents writer.new) (report_text report.now)) }
{
    write_unflushed(writer, kept, report)?;
    flush(writer)
}

/// Writes the report of requests, as [`write_report`] writes others.
pub fn write_answers<W: Write>(
    writer: &mut W,
    kept: &mut Vec<u8>,
    report: &AskText<'_>,
) -> Result<(), OutputFault>
    requires { kept.old.items ≡ [] }
    ensures ok { OnOk result (Appends (W.contents writer.old) (W.contents writer.new) (ask_text report.now)) }
    ensures err { OnErr result (AppendsBeginning (W.contents writer.old) (W.contents writer.new) (ask_text report.now)) }
{
    report.write_to(writer, kept)?;
    flush(writer)
}

/// Writes the report on all names, as [`write_report`] writes others.
pub fn write_names<W: Write>(
    writer: &mut W,
    kept: &mut Vec<u8>,
    report: &EveryText,
) -> Result<(), OutputFault>
    requires { kept.old.items ≡ [] }
    ensures ok { OnOk result (Appends (W.contents writer.old) (W.contents writer.new) report.now) }
    ensures err { OnErr result (AppendsBeginning (W.contents writer.old) (W.contents writer.new) report.now) }
{
    report.write_to(writer, kept)?;
    flush(writer)
}
