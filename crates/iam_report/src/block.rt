// Texts one behind the other in a block of bytes. They are copied in chunks, without a call.
ghost use Rattle.std.specs.Prelude.{◌≡◌, ◌++◌, ◌+◌, ◌-◌, ◌≤◌, ◌<◌, [], length, drop, take, IsTrue, false, List, ℕ};

use std::marker::Model;

/// How many bytes a block has room for.
const ROOM: usize = 65_536;

/// A block with room for fewer bytes counts as full, so that rows need not be tried one by one at its end.
const SPARE: usize = 4096;

/// Bytes, of which the first count. A contract sees these.
#[derive(Drop)]
pub struct Block {
    bytes: [u8; ROOM],
    filled: usize,
}

impl Model for Block {
    ghost Value = { List ℕ };

    ghost view = { λ block. take block.filled block.bytes };

    ghost invariant = { λ block. block.filled ≤ 65536 };
}

/// Copies the first bytes of a text to a place for it.
#[inline(always)]
fn copy_first<const N: usize>(place: &mut [u8], text: &[u8])
    requires len { length place.old ≡ length text.now }
    requires least { N ≤ length text.now }
    ensures { place.new ≡ take N text.now ++ drop N place.old }
{
    let Some(chunk) = text.first_chunk::<N>() else {
        unreachable!();
    };
    let Some(bytes) = place.first_chunk_mut::<N>() else {
        unreachable!();
    };
    *bytes = *chunk;
}

/// Copies the last bytes of a text to a place for it.
#[inline(always)]
fn copy_last<const N: usize>(place: &mut [u8], text: &[u8])
    requires len { length place.old ≡ length text.now }
    requires least { N ≤ length text.now }
    ensures { place.new ≡ take (length text.now - N) place.old ++ drop (length text.now - N) text.now }
{
    let Some(chunk) = text.last_chunk::<N>() else {
        unreachable!();
    };
    let Some(bytes) = place.last_chunk_mut::<N>() else {
        unreachable!();
    };
    *bytes = *chunk;
}

/// Copies a chunk.
#[inline(always)]
fn copy_chunk<const N: usize>(place: &mut [u8], chunk: &[u8])
    requires place { length place.old ≡ N }
    requires chunk { length chunk.now ≡ N }
    ensures { place.new ≡ chunk.now }
{
    copy_first::<N>(place, chunk);
}

/// Copies a text of at most two chunks, which may overlap.
#[inline(always)]
fn copy_ends<const N: usize>(place: &mut [u8], text: &[u8])
    requires len { length place.old ≡ length text.now }
    requires least { N ≤ length text.now }
    requires most { length text.now ≤ N + N }
    ensures { place.new ≡ text.now }
{
    copy_first::<N>(place, text);
    copy_last::<N>(place, text);
}

/// Copies a text.
#[inline(always)]
fn copy_text(place: &mut [u8], text: &[u8])
    requires { length place.old ≡ length text.now }
    ensures { place.new ≡ text.now }
{
    let count = text.len();
    if count < 32 {
        copy_short(place, text);
    } else if count <= 64 {
        copy_ends::<32>(place, text);
    } else if count <= 128 {
        copy_ends::<64>(place, text);
    } else {
        place.copy_from_slice(text);
    }
}

/// Copies a text of fewer than 32 bytes.
#[inline(always)]
fn copy_short(place: &mut [u8], text: &[u8])
    requires len { length place.old ≡ length text.now }
    requires short { length text.now ≤ 32 }
    ensures { place.new ≡ text.now }
{
    let count = text.len();
    if count >= 16 {
        copy_ends::<16>(place, text);
    } else if count >= 8 {
        copy_ends::<8>(place, text);
    } else {
        copy_few(place, text);
    }
}

/// Copies a text of fewer than 8 bytes.
#[inline(always)]
fn copy_few(place: &mut [u8], text: &[u8])
    requires len { length place.old ≡ length text.now }
    requires few { length text.now ≤ 8 }
    ensures { place.new ≡ text.now }
{
    let count = text.len();
    if count >= 4 {
        copy_ends::<4>(place, text);
    } else if count >= 2 {
        copy_ends::<2>(place, text);
    } else if count == 1 {
        copy_ends::<1>(place, text);
    }
}

/// Copies a text, quickest where it has 8 to 16 bytes.
#[inline(always)]
fn copy_small(place: &mut [u8], text: &[u8])
    requires { length place.old ≡ length text.now }
    ensures { place.new ≡ text.now }
{
    let count = text.len();
    if count >= 8 && count <= 16 {
        copy_ends::<8>(place, text);
    } else {
        copy_text(place, text);
    }
}

impl Block {
    /// No bytes.
    pub fn new() -> Block
        ensures { result ≡ [] }
    {
        Block {
            bytes: [0; ROOM],
            filled: 0,
        }
    }

    /// The bytes that count.
    pub fn text(&self) -> &[u8]
        ensures { result.now ≡ self.now }
    {
        &self.bytes[..self.filled]
    }

    /// No bytes count any more.
    pub fn clear(&mut self)
        ensures { self.new ≡ [] }
    {
        self.filled = 0;
    }

    /// Whether there is room for so many bytes more.
    #[inline(always)]
    pub fn has_room(&self, count: usize) -> bool
        ensures room { IsTrue result → length self.now + count ≤ 65536 }
        ensures full { result ≡ false → 65536 < length self.now + count }
    {
        count <= ROOM - self.filled
    }

    /// Whether there is room for so many bytes more, fewer than a block has room for.
    #[inline(always)]
    pub fn has_spare(&self, count: usize) -> bool
        requires { count ≤ 65536 }
        ensures room { IsTrue result → length self.now + count ≤ 65536 }
        ensures full { result ≡ false → 65536 < length self.now + count }
    {
        self.filled <= ROOM - count
    }

    /// Puts a text behind the others.
    #[inline(always)]
    pub fn put(&mut self, text: &[u8])
        requires { length self.old + length text.now ≤ 65536 }
        ensures { self.new ≡ self.old ++ text.now }
    {
        let end = self.filled + text.len();
        copy_text(&mut self.bytes[self.filled..end], text);
        self.filled = end;
    }

    /// Puts a text behind the others, quickest where it has 8 to 16 bytes.
    #[inline(always)]
    pub fn put_short(&mut self, text: &[u8])
        requires { length self.old + length text.now ≤ 65536 }
        ensures { self.new ≡ self.old ++ text.now }
    {
        let end = self.filled + text.len();
        copy_small(&mut self.bytes[self.filled..end], text);
        self.filled = end;
    }

    /// Puts a text behind the others that stands at the front of some bytes. So many of them are copied, whatever its length.
    #[inline(always)]
    pub fn put_front<const N: usize>(&mut self, bytes: &[u8], count: usize)
        requires count { count ≤ N }
        requires least { N ≤ length bytes.now }
        requires room { length self.old + N ≤ 65536 }
        ensures { self.new ≡ self.old ++ take count bytes.now }
    {
        let start = self.filled;
        let end = start + N;
        copy_chunk::<N>(&mut self.bytes[start..end], &bytes[..N]);
        self.filled = start + count;
    }

    /// Puts three texts behind the others as one, where there is room for it.
    pub fn put_three(&mut self, first: &[u8], second: &[u8], third: &[u8]) -> bool
        ensures put { IsTrue result → self.new ≡ self.old ++ (first.now ++ (second.now ++ third.now)) }
        ensures none { result ≡ false → self.new ≡ self.old }
        ensures full { result ≡ false → 61440 < length self.old + (length first.now + (length second.now + length third.now)) }
    {
        let count = first
            .len()
            .saturating_add(second.len())
            .saturating_add(third.len());
        if !self.has_room(SPARE) || !self.has_room(count) {
            return false;
        }
        self.put(first);
        self.put(second);
        self.put(third);
        true
    }
}
