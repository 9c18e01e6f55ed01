// Reading the input: at most one byte more than a world may have.
ghost use Rattle.std.specs.Prelude.{◌≡◌, ◌≢◌, ◌+◌, ◌-◌, ◌≤◌, IfOk, OnOk, Ok, Err, true, false, length};
ghost use Rattle.iam_app.specs.Streams.{AllRemained, ConsumesAtMost, IsEnd, MoreRemained, ReadsSome};
ghost use Rattle.iam_app.specs.declared.input.InputFault.TheVariants as InputFault;

use std::alloc::Global;
use std::io::Read;

/// The longest input that is taken, in bytes.
const MOST: usize = 8_388_608;

/// The bytes that are asked for at once.
const ROOM: usize = 4096;

/// Why input is not taken.
#[derive(Clone, Copy, Debug, PartialEq, Eq)]
pub enum InputFault {
    /// The reader failed.
    Read,
    /// Over 8,388,608 bytes.
    TooLarge,
    /// The allocator refused a growth.
    OutOfMemory,
}

/// One turn of the reading: reads once, and keeps what came. Whether there was anything: at the end of input there is
/// not. At most 8,388,609 bytes are kept.
fn turn<R: Read>(reader: &mut R, bytes: &mut Vec<u8>) -> Result<bool, InputFault>
    requires { length bytes.old.items ≤ MOST }
    ensures more { result ≡ Ok true → ReadsSome (R.remaining reader.old) (R.remaining reader.new) bytes.old.items bytes.new.items }
    ensures end { result ≡ Ok false → IsEnd (R.remaining reader.old) (R.remaining reader.new) bytes.old.items bytes.new.items }
    ensures fits { OnOk result (length bytes.new.items ≤ MOST + 1) }
    ensures most { ConsumesAtMost (R.remaining reader.old) (R.remaining reader.new) (MOST + 1 - length bytes.old.items) }
    ensures fault { result ≢ Err InputFault.TooLarge }
{
    let mut buffer = [0u8; ROOM];
    let room = (MOST + 1 - bytes.len()).min(ROOM);
    let Ok(count) = reader.read(&mut buffer[..room]) else {
        return Err(InputFault::Read);
    };
    if count == 0 {
        return Ok(false);
    }
    if bytes.extend_from_slice(&buffer[..count]).is_err() {
        return Err(InputFault::OutOfMemory);
    }
    Ok(true)
}

/// All input up to its end, a read of no bytes. At most 8,388,609 bytes are read.
pub fn read_input<R: Read>(alloc: Global, reader: &mut R) -> Result<Vec<u8>, InputFault>
    ensures ok { IfOk result (λ bytes. AllRemained (R.remaining reader.old) bytes.items) }
    ensures fits { IfOk result (λ bytes. length bytes.items ≤ MOST) }
    ensures most { ConsumesAtMost (R.remaining reader.old) (R.remaining reader.new) (MOST + 1) }
    ensures large { result ≡ Err InputFault.TooLarge → MoreRemained (R.remaining reader.old) MOST }
{
    let mut bytes = Vec::new(alloc);
    while bytes.len() <= MOST {
        if !turn(reader, &mut bytes)? {
            return Ok(bytes);
        }
    }
    Err(InputFault::TooLarge)
}
