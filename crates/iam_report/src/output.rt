// Texts written at once, or by way of a buffer.
ghost use Rattle.std.specs.Prelude.{◌≡◌, ◌++◌, ◌+◌, ◌≤◌, [], IfOk, OnErr, OnOk, length, vec_capacity, vec_len};
ghost use Rattle.std.specs.Io.KnownBytes.{Appends};
ghost use Rattle.std.specs.List.{flat_map};
ghost use Rattle.iam_report.specs.Code.Buffer.{Passes};
ghost use Rattle.iam_report.specs.Streams.{AppendsBeginning};

use iam_text::OutOfMemory;
use std::alloc::Global;
use std::io::Write;
use thiserror::Error;

/// A write or the flush failed, or a write took no bytes.
#[derive(Clone, Copy, Debug, PartialEq, Eq, Error)]
#[error("the report can't be written")]
pub struct OutputFault;

/// How many bytes a buffer has room for.
const ROOM: usize = 65_536;

/// An empty buffer with room for 65,536 bytes. `OutOfMemory` comes where there is no memory for it.
pub fn buffer(alloc: Global) -> Result<Vec<u8>, OutOfMemory>
    ensures items { IfOk result (λ kept. kept.items ≡ []) }
    ensures room { IfOk result (λ kept. 65536 ≤ vec_capacity kept) }
{
    Vec::with_capacity(alloc, ROOM)
}

/// Writes the whole text. After a fault the writer gained a beginning of it.
pub fn write_text<W: Write>(writer: &mut W, text: &[u8]) -> Result<(), OutputFault>
    ensures ok { OnOk result (Appends (W.contents writer.old) (W.contents writer.new) text.now) }
    ensures err { OnErr result (AppendsBeginning (W.contents writer.old) (W.contents writer.new) text.now) }
{
    let mut done = 0;
    while done < text.len() {
        let Ok(count) = writer.write(&text[done..]) else {
            return Err(OutputFault);
        };
        if count == 0 {
            return Err(OutputFault);
        }
        done += count;
    }
    Ok(())
}

/// Writes what is kept. After a fault the writer gained a beginning of it.
pub fn write_kept<W: Write>(writer: &mut W, kept: &Vec<u8>) -> Result<(), OutputFault>
    ensures ok { OnOk result (Appends (W.contents writer.old) (W.contents writer.new) kept.now.items) }
    ensures err { OnErr result (AppendsBeginning (W.contents writer.old) (W.contents writer.new) kept.now.items) }
{
    write_text(writer, kept.as_slice())
}

/// Keeps a text for which there is room.
#[inline(always)]
fn keep(kept: &mut Vec<u8>, text: &[u8])
    requires { vec_len kept.old + length text.now ≤ vec_capacity kept.old }
    ensures items { kept.new.items ≡ kept.old.items ++ text.now }
    ensures len { vec_len kept.new ≡ vec_len kept.old + length text.now }
    ensures capacity { vec_capacity kept.old ≤ vec_capacity kept.new }
{
    match kept.extend_from_slice(text) {
        Ok(()) => (),
        Err(_) => unreachable!(),
    }
}

/// Writes what is kept, and keeps this text, or writes it too where it is longer than the buffer.
fn put_behind<W: Write>(writer: &mut W, kept: &mut Vec<u8>, text: &[u8]) -> Result<(), OutputFault>
    ensures ok { OnOk result (Passes (W.contents writer.old) (W.contents writer.new) kept.old.items kept.new.items text.now) }
    ensures err { OnErr result (AppendsBeginning (W.contents writer.old) (W.contents writer.new) (kept.old.items ++ text.now)) }
{
    write_kept(writer, kept)?;
    kept.clear();
    if text.len() <= kept.capacity() - kept.len() {
        keep(kept, text);
        return Ok(());
    }
    write_text(writer, text)
}

/// Puts bytes behind what is kept, as [`put`] does.
pub fn put_bytes<W: Write>(
    writer: &mut W,
    kept: &mut Vec<u8>,
    text: &[u8],
) -> Result<(), OutputFault>
    ensures ok { OnOk result (Passes (W.contents writer.old) (W.contents writer.new) kept.old.items kept.new.items text.now) }
    ensures err { OnErr result (AppendsBeginning (W.contents writer.old) (W.contents writer.new) (kept.old.items ++ text.now)) }
{
    if text.len() <= kept.capacity() - kept.len() {
        keep(kept, text);
        return Ok(());
    }
    put_behind(writer, kept, text)
}

/// Puts a text behind what is kept, which is written first where there is no room for it. No memory is taken. After a
/// fault the writer gained a beginning of what was kept and this text.
pub fn put<W: Write>(writer: &mut W, kept: &mut Vec<u8>, text: &str) -> Result<(), OutputFault>
    ensures ok { OnOk result (Passes (W.contents writer.old) (W.contents writer.new) kept.old.items kept.new.items text.now) }
    ensures err { OnErr result (AppendsBeginning (W.contents writer.old) (W.contents writer.new) (kept.old.items ++ text.now)) }
{
    put_bytes(writer, kept, text.as_bytes())
}

/// Puts texts behind what is kept, one after the other, as one text.
pub fn put_all<W: Write>(
    writer: &mut W,
    kept: &mut Vec<u8>,
    texts: &[&str],
) -> Result<(), OutputFault>
    ensures ok { OnOk result (Passes (W.contents writer.old) (W.contents writer.new) kept.old.items kept.new.items (flat_map (λ text. text.now) texts.now)) }
    ensures err { OnErr result (AppendsBeginning (W.contents writer.old) (W.contents writer.new) (kept.old.items ++ flat_map (λ text. text.now) texts.now)) }
{
    for text in texts {
        put(writer, kept, text)?;
    }
    Ok(())
}
