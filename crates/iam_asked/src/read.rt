// Reading a file of requests in blocks: a line may begin in one block and end in a later one.
ghost use Rattle.std.specs.Prelude.{◌≡◌, ◌≢◌, ◌≤◌, ◌∷◌, ◌++◌, [], ℕ, List, IfErr, IfOk, MatchOption, OnErr, OnOk, length};
ghost use Rattle.iam_asked.specs.Code.Cut.{HasRead, IsFaultOf, IsUnbroken};
ghost use Rattle.iam_asked.specs.File.{AreRead, AreRequests, IsFileFault, OfBytes, lines_of};
ghost use Rattle.iam_asked.specs.Request.{AskedValue, IsRequest, with_asked};

use crate::fault::{AskFault, FaultyLine, LineFault};
use crate::reading::Reading;
use crate::requests::Requests;
use crate::said::MOST_BYTES;
use iam_layers::World;
use memchr::memchr;
use std::alloc::Global;
use std::io::Read;

/// The bytes that are asked for at once.
const ROOM: usize = 65_536;

/// Lines that come in blocks: the requests of those that have ended, and the bytes behind the last of them.
#[derive(Drop)]
struct Lines<'a> {
    reading: Reading<'a>,
    rest: Vec<u8>,
}

/// The bytes before the first line feed and those behind it; `None` where there is none.
pub(crate) fn cut(bytes: &[u8]) -> Option<(&[u8], &[u8])>
    ensures { MatchOption result (IsUnbroken bytes.entry.now)
        (λ parts. IsUnbroken parts.0.now × (bytes.entry.now ≡ parts.0.now ++ 10 ∷ parts.1.now)) }
{
    let end = memchr(b'\n', bytes)?;
    Some((&bytes[..end], &bytes[end + 1..]))
}

/// Adds the request of a line; its fault comes with its number.
fn add_line(alloc: Global, reading: &mut Reading<'_>, line: &[u8]) -> Result<(), AskFault>
    ensures ok { OnOk result ((asked : AskedValue) × IsRequest reading.old.world line.now asked × (reading.new ≡ with_asked reading.old asked)) }
    ensures fault { IfErr result (IsFaultOf reading.old line.now) }
{
    let number = reading.count();
    match reading.add_line(alloc, line) {
        Ok(()) => Ok(()),
        Err(LineFault::OutOfMemory) => Err(AskFault::OutOfMemory),
        Err(fault) => Err(AskFault::Line(FaultyLine {
            line: number,
            fault,
        })),
    }
}

/// Adds the request of what stands behind the last line feed, unless it is empty.
fn add_last(alloc: Global, reading: &mut Reading<'_>, rest: &[u8]) -> Result<(), AskFault>
    ensures ok { OnOk result ((bytes : List ℕ) → HasRead bytes rest.now reading.old → AreRequests (lines_of bytes) reading.new) }
    ensures world { OnOk result (reading.new.world ≡ reading.old.world) }
    ensures fault { IfErr result (λ fault. (bytes : List ℕ) → HasRead bytes rest.now reading.old → IsFileFault reading.old.world bytes fault) }
{
    if rest.is_empty() {
        return Ok(());
    }
    add_line(alloc, reading, rest)
}

impl<'a> Lines<'a> {
    /// Ends a line with these bytes.
    fn end_line(&mut self, alloc: Global, piece: &[u8]) -> Result<(), AskFault>
        ensures ok { OnOk result ((asked : AskedValue) × IsRequest self.old.reading.world (self.old.rest.items ++ piece.now) asked
            × (self.new.reading ≡ with_asked self.old.reading asked)) }
        ensures rest { OnOk result (self.new.rest.items ≡ []) }
        ensures fault { IfErr result (IsFaultOf self.old.reading (self.old.rest.items ++ piece.now)) }
    {
        if self.rest.is_empty() {
            return add_line(alloc, &mut self.reading, piece);
        }
        self.rest.extend_from_slice(piece)?;
        add_line(alloc, &mut self.reading, self.rest.as_slice())?;
        self.rest.clear();
        Ok(())
    }

    /// Keeps bytes behind the last line feed, of which there may not be too many.
    fn keep(&mut self, tail: &[u8]) -> Result<(), AskFault>
        ensures ok { OnOk result ((self.new.rest.items ≡ self.old.rest.items ++ tail.now) × (self.new.reading ≡ self.old.reading)) }
        ensures fault { IfErr result (λ fault. (bytes more : List ℕ) → HasRead bytes self.old.rest.items self.old.reading → IsUnbroken tail.now
            → IsFileFault self.old.reading.world ((bytes ++ tail.now) ++ more) fault) }
    {
        self.rest.extend_from_slice(tail)?;
        if self.rest.len() <= MOST_BYTES {
            return Ok(());
        }
        Err(AskFault::Line(FaultyLine {
            line: self.reading.count(),
            fault: self.reading.fault_of_long(),
        }))
    }

    /// Adds the lines that end in a block, and keeps what stands behind the last of them.
    fn add_block(&mut self, alloc: Global, block: &[u8]) -> Result<(), AskFault>
        ensures ok { OnOk result ((bytes : List ℕ) → HasRead bytes self.old.rest.items self.old.reading
            → HasRead (bytes ++ block.now) self.new.rest.items self.new.reading) }
        ensures world { OnOk result (self.new.reading.world ≡ self.old.reading.world) }
        ensures fault { IfErr result (λ fault. (bytes more : List ℕ) → HasRead bytes self.old.rest.items self.old.reading
            → IsFileFault self.old.reading.world ((bytes ++ block.now) ++ more) fault) }
    {
        let mut left = block;
        while let Some((line, behind)) = cut(left) {
            self.end_line(alloc, line)?;
            left = behind;
        }
        self.keep(left)
    }

    /// Ends the last line.
    fn finish(self, alloc: Global) -> Result<Requests<'a>, AskFault>
        ensures ok { IfOk result (λ requests. (bytes : List ℕ) → HasRead bytes self.entry.rest.items self.entry.reading
            → AreRead (lines_of bytes) requests) }
        ensures world { IfOk result (λ requests. requests.world ≡ self.entry.reading.world) }
        ensures few { IfOk result (λ requests. length requests.asked ≤ 16777216) }
        ensures fault { IfErr result (λ fault. (bytes : List ℕ) → HasRead bytes self.entry.rest.items self.entry.reading
            → IsFileFault self.entry.reading.world bytes fault) }
    {
        let Lines { mut reading, rest } = self;
        add_last(alloc, &mut reading, rest.as_slice())?;
        let requests = reading.into_requests();
        // They are not too many, and their keys not too large.
        let _count = requests.count();
        Ok(requests)
    }
}

/// The requests of a file, one a line, that are asked of a world: of all bytes up to the end, a read of no bytes. Or why they are
/// not read: the first line that is no request, with its least fault.
pub fn read_requests<'a, R: Read>(
    alloc: Global,
    world: &'a World,
    reader: &mut R,
) -> Result<Requests<'a>, AskFault>
    ensures world { IfOk result (λ requests. requests.world ≡ world.entry.now) }
    ensures few { IfOk result (λ requests. length requests.asked ≤ 16777216) }
    ensures ok { IfOk result (λ requests. OfBytes (R.remaining reader.old) (λ bytes. AreRead (lines_of bytes) requests)) }
    ensures fault { IfErr result (λ fault. OfBytes (R.remaining reader.old) (λ bytes. IsFileFault world.entry.now bytes fault)) }
{
    let mut lines = Lines {
        reading: Reading::of(alloc, world)?,
        rest: Vec::new(alloc),
    };
    let mut buffer = [0u8; ROOM];
    for _ in 0..u64::MAX {
        let Ok(count) = reader.read(&mut buffer) else {
            return Err(AskFault::Read);
        };
        if count == 0 {
            return lines.finish(alloc);
        }
        lines.add_block(alloc, &buffer[..count])?;
    }
    // No reader has so many blocks.
    Err(AskFault::Read)
}
