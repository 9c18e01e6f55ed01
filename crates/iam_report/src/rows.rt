// Rows put into a block, and what is kept and the block written where it is full.
ghost use Rattle.std.specs.Prelude.{◌≡◌, ◌++◌, ◌+◌, ◌-◌, ◌<◌, ◌≤◌, [], All, List, OnErr, OnOk, drop, length, take};
ghost use Rattle.std.specs.Io.KnownBytes.{Appends};
ghost use Rattle.iam_report.specs.Code.Buffer.{IsWithin, PutsRows, Passes};
ghost use Rattle.iam_report.specs.Code.Line.{tail_at};
ghost use Rattle.iam_report.specs.Code.Run.{AddsRows};
ghost use Rattle.iam_tiles.specs.Code.Numbered.{no_tail, picked};
ghost use Rattle.iam_row.specs.Piece.{row_at, rows_text};
ghost use Rattle.iam_report.specs.Streams.{AppendsBeginning};
ghost use Rattle.iam_row.specs.declared.tail.Tail.{Tail};

use crate::block::Block;
use crate::line::{Line, behind};
use crate::matrix::put_pieces;
use crate::output::{OutputFault, write_kept, write_text};
use iam_row::{Position, Quoted, Tail, comma_before};
use iam_tiles::Numbers;
use std::io::Write;

/// Writes what is kept, and then the block, and empties both.
fn write_both<W: Write>(
    writer: &mut W,
    kept: &mut Vec<u8>,
    block: &mut Block,
) -> Result<(), OutputFault>
    ensures ok { OnOk result (Appends (W.contents writer.old) (W.contents writer.new) (kept.old.items ++ block.old)) }
    ensures err { OnErr result (AppendsBeginning (W.contents writer.old) (W.contents writer.new) (kept.old.items ++ block.old)) }
    ensures kept { OnOk result (kept.new.items ≡ []) }
    ensures block { OnOk result (block.new ≡ []) }
{
    write_kept(writer, kept)?;
    kept.clear();
    write_text(writer, block.text())?;
    block.clear();
    Ok(())
}

/// Puts the row at a position, with tail n, into an empty block, or else piece by piece.
fn put_alone<W: Write>(
    writer: &mut W,
    kept: &mut Vec<u8>,
    block: &mut Block,
    line: &mut Line<'_>,
    at: Position,
    n: usize,
) -> Result<(), OutputFault>
    requires tail { n < length line.old.tails }
    requires none { block.old ≡ [] }
    ensures ok { OnOk result (Passes (W.contents writer.old) (W.contents writer.new) kept.old.items (kept.new.items ++ block.new) (row_at line.old.quoted at (tail_at line.old.tails n))) }
    ensures err { OnErr result (AppendsBeginning (W.contents writer.old) (W.contents writer.new) (kept.old.items ++ row_at line.old.quoted at (tail_at line.old.tails n))) }
    ensures quoted { line.new.quoted ≡ line.old.quoted }
    ensures tails { line.new.tails ≡ line.old.tails }
{
    if line.put(block, at, n) {
        return Ok(());
    }
    let comma = comma_before(at.cell);
    put_pieces(writer, kept, line.quoted(), comma, at, line.tail(n))
}

/// Puts the row at a position, with tail n.
fn put_row<W: Write>(
    writer: &mut W,
    kept: &mut Vec<u8>,
    block: &mut Block,
    line: &mut Line<'_>,
    at: Position,
    n: usize,
) -> Result<(), OutputFault>
    requires { n < length line.old.tails }
    ensures ok { OnOk result (Passes (W.contents writer.old) (W.contents writer.new) (kept.old.items ++ block.old) (kept.new.items ++ block.new) (row_at line.old.quoted at (tail_at line.old.tails n))) }
    ensures err { OnErr result (AppendsBeginning (W.contents writer.old) (W.contents writer.new) ((kept.old.items ++ block.old) ++ row_at line.old.quoted at (tail_at line.old.tails n))) }
    ensures quoted { line.new.quoted ≡ line.old.quoted }
    ensures tails { line.new.tails ≡ line.old.tails }
{
    if line.put(block, at, n) {
        return Ok(());
    }
    write_both(writer, kept, block)?;
    put_alone(writer, kept, block, line, at, n)
}

/// Puts the rows that follow the last one, from number i on, into the block, as long as each is quick, and moves the position
/// behind them; the number behind the last of them.
fn put_quick(
    block: &mut Block,
    line: &mut Line<'_>,
    numbers: &Numbers,
    i: usize,
    at: &mut Position,
) -> usize
    requires known { All (λ n. n < length line.old.tails) numbers.now }
    requires within { IsWithin at.old }
    requires first { i ≤ length numbers.now }
    requires few { at.old.cell + length numbers.now ≤ 16777216 + i }
    ensures quoted { line.new.quoted ≡ line.old.quoted }
    ensures tails { line.new.tails ≡ line.old.tails }
    ensures least { i ≤ result }
    ensures most { result ≤ length numbers.now }
    ensures rows { AddsRows line.old.quoted (take (result - i) (drop i (picked no_tail line.old.tails numbers.now))) at.old at.new block.old block.new }
    ensures within { IsWithin at.new }
    ensures cell { at.new.cell + i ≡ at.old.cell + result }
{
    let narrow = numbers.narrow();
    if i >= narrow.len() {
        return i;
    }
    let quoted = line.quoted();
    let actions = quoted.actions.as_slice().len() as u64;
    let resources = quoted.resources.as_slice().len() as u64;
    let count = line.put_rows(block, *at, &narrow[i..]);
    *at = behind(*at, count, actions, resources);
    i + count
}

/// Puts rows, which have the tails of these numbers, from this position on, and moves it behind the last.
pub fn put_rows<W: Write>(
    writer: &mut W,
    kept: &mut Vec<u8>,
    block: &mut Block,
    quoted: &Quoted,
    tails: &[Tail],
    numbers: &Numbers,
    at: &mut Position,
) -> Result<(), OutputFault>
    requires known { All (λ n. n < length tails.now) numbers.now }
    requires within { IsWithin at.old }
    requires few { at.old.cell + length numbers.now ≤ 16777216 }
    ensures ok { OnOk result (PutsRows quoted.now (picked no_tail tails.now numbers.now) at.old at.new (W.contents writer.old) (W.contents writer.new) (kept.old.items ++ block.old) (kept.new.items ++ block.new)) }
    ensures err { OnErr result ((more : List Tail) → AppendsBeginning (W.contents writer.old) (W.contents writer.new) ((kept.old.items ++ block.old) ++ rows_text quoted.now at.old (picked no_tail tails.now numbers.now ++ more))) }
    ensures within { OnOk result (IsWithin at.new) }
    ensures cell { OnOk result (at.new.cell ≡ at.old.cell + length numbers.now) }
{
    let actions = quoted.actions.as_slice().len() as u64;
    let resources = quoted.resources.as_slice().len() as u64;
    let mut line = Line::new(quoted, tails);
    let mut i = 0;
    while i < numbers.len() {
        let n = numbers.at(i) as usize;
        put_row(writer, kept, block, &mut line, *at, n)?;
        *at = at.next(actions, resources);
        i = put_quick(block, &mut line, numbers, i + 1, at);
    }
    Ok(())
}
