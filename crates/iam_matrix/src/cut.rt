// How the cells of a matrix are cut into tiles.
ghost use Rattle.std.specs.Prelude.{◌≡◌, ◌≢◌, ◌↔◌, ◌+◌, ◌/◌, ◌%◌, ◌^◌, ◌<◌, ◌≤◌, ℕ, List, IsTrue, IfOk, IfErr, length, slice_index, sum, vec_len, Some};
ghost use Rattle.std.specs.Int.{div_ceil};
ghost use Rattle.iam_matrix.specs.Code.Starts.{AreStarts};
ghost use Rattle.iam_matrix.specs.Cut.{even_lengths, IsCut, IsEvenCut, IsEvenFault, IsFirstCutFault, start_of};

use iam_text::OutOfMemory;
use std::alloc::Global;
use std::fmt::{self, Display, Formatter, Write};
use std::marker::Model;
use thiserror::Error;

const MOST_TILES: usize = 4096;

/// A cut of the cells of a matrix into tiles, which follow one another. A contract sees the lengths of the tiles.
#[derive(Debug, Drop)]
pub struct Cut {
    lengths: Vec<u64>,
    /// The first cell of each tile.
    starts: Vec<u64>,
}

/// The cells of a tile: so many from this one on.
#[derive(Clone, Copy)]
pub struct Cells {
    pub from: u64,
    pub count: u64,
}

impl Model for Cut {
    ghost Value = { List ℕ };

    ghost view = { λ cut. cut.lengths.items };

    ghost invariant = { λ cut. AreStarts cut.lengths.items cut.starts.items × (vec_len cut.lengths ≤ 4096) };
}

/// Why lengths are no cut.
#[derive(Clone, Copy, Debug, PartialEq, Eq, Error)]
pub enum CutFault {
    /// 1: A tile has no cell.
    ZeroTile,
    /// 2: The tiles have more or fewer cells than the matrix.
    WrongSum,
    /// 3: Over 4,096 tiles.
    TooMany,
    /// 4: The allocator refused a growth.
    OutOfMemory,
}

impl Display for CutFault {
    ghost use Rattle.iam_matrix.specs.Fault.{cut_text};

    ghost output = { λ fault. Some (cut_text fault) };

    fn fmt<W: Write>(&self, f: &mut Formatter<W>) -> Result<(), fmt::Error> {
        match self {
            CutFault::ZeroTile => write!(f, "1 ZeroTile"),
            CutFault::WrongSum => write!(f, "2 WrongSum"),
            CutFault::TooMany => write!(f, "3 TooMany"),
            CutFault::OutOfMemory => write!(f, "4 OutOfMemory"),
        }
    }
}

impl From<OutOfMemory> for CutFault {
    ghost use Rattle.iam_matrix.specs.declared.cut.CutFault.TheVariants as c;

    ghost from_gives = { λ _ fault. fault ≡ c.OutOfMemory };

    fn from(_: OutOfMemory) -> CutFault {
        CutFault::OutOfMemory
    }
}

impl Cut {
    /// The cut of so many cells into tiles of these lengths, or the first fault in the order of their numbers.
    pub fn new(alloc: Global, lengths: &[u64], cells: u64) -> Result<Cut, CutFault>
        ensures ok { IfOk result (λ cut. (cut ≡ lengths.now) × IsCut cells cut) }
        ensures fault { IfErr result (λ fault. fault ≢ CutFault.OutOfMemory → IsFirstCutFault lengths.now cells fault) }
    {
        if lengths.contains(&0) {
            return Err(CutFault::ZeroTile);
        }
        if !adds_up(lengths, cells) {
            return Err(CutFault::WrongSum);
        }
        if lengths.len() > MOST_TILES {
            return Err(CutFault::TooMany);
        }
        Ok(of_lengths(alloc, Vec::from_slice(alloc, lengths)?)?)
    }

    /// The cut of so many cells into tiles of this length, of which the last may be shorter, or the first fault in the
    /// order of their numbers. No cells have the cut without tiles.
    pub fn even(alloc: Global, tile: u64, cells: u64) -> Result<Cut, CutFault>
        ensures ok { IfOk result (λ cut. (cut ≡ even_lengths tile cells) × IsCut cells cut × IsEvenCut tile cells) }
        ensures fault { IfErr result (λ fault. fault ≢ CutFault.OutOfMemory → IsEvenFault tile cells fault) }
    {
        if tile == 0 {
            return Err(CutFault::ZeroTile);
        }
        if is_too_many(tile, cells) {
            return Err(CutFault::TooMany);
        }
        Ok(of_lengths(alloc, even_tiles(alloc, tile, cells)?)?)
    }

    /// The lengths of the tiles, in order, at most 4,096.
    pub fn lengths(&self) -> &[u64]
        ensures value { result.now ≡ self.now }
        ensures few { length result.now ≤ 4096 }
    {
        self.lengths.as_slice()
    }

    /// The cells of a tile; there has to be such a tile.
    pub fn cells(&self, tile: u64) -> Cells
        requires { tile < length self.now }
        ensures from { result.from ≡ start_of self.now tile }
        ensures count { result.count ≡ slice_index self.now tile }
        ensures within { result.from + result.count ≤ sum self.now }
    {
        Cells {
            from: self.starts[tile as usize],
            count: self.lengths[tile as usize],
        }
    }
}

/// Whether the lengths add up to this.
fn adds_up(lengths: &[u64], cells: u64) -> bool
    ensures { IsTrue result ↔ (sum lengths.now ≡ cells) }
{
    let mut left = cells;
    for length in lengths {
        if *length > left {
            return false;
        }
        left -= *length;
    }
    left == 0
}

/// Whether so many cells have more tiles of this length than are allowed.
fn is_too_many(tile: u64, cells: u64) -> bool
    requires { 0 < tile }
    ensures { IsTrue result ↔ (4096 < div_ceil cells tile) }
{
    cells.div_ceil(tile) > MOST_TILES as u64
}

/// Tiles of this length, of which the last may be shorter.
fn even_tiles(alloc: Global, tile: u64, cells: u64) -> Result<Vec<u64>, OutOfMemory>
    requires some { 0 < tile }
    requires few { div_ceil cells tile ≤ 4096 }
    ensures { IfOk result (λ lengths. lengths.items ≡ even_lengths tile cells) }
{
    let mut lengths = vec![in alloc; tile; (cells / tile) as usize]?;
    let rest = cells % tile;
    if rest != 0 {
        lengths.push(rest)?;
    }
    Ok(lengths)
}

/// The cut of these lengths.
fn of_lengths(alloc: Global, lengths: Vec<u64>) -> Result<Cut, OutOfMemory>
    requires sum { sum lengths.items < 2 ^ 64 }
    requires few { vec_len lengths ≤ 4096 }
    ensures { IfOk result (λ cut. cut ≡ lengths.items) }
{
    let starts = starts_of(alloc, lengths.as_slice())?;
    Ok(Cut { lengths, starts })
}

/// The sums of the lengths before each.
fn starts_of(alloc: Global, lengths: &[u64]) -> Result<Vec<u64>, OutOfMemory>
    requires { sum lengths.now < 2 ^ 64 }
    ensures { IfOk result (λ starts. AreStarts lengths.now starts.items) }
{
    let mut starts = Vec::new(alloc);
    let mut start = 0;
    for length in lengths {
        starts.push(start)?;
        start += *length;
    }
    Ok(starts)
}
