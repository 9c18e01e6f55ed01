// Rows that share what stands beside the number of their cells.
ghost use Rattle.std.specs.Prelude.{◌≡◌, ◌++◌, ◌+◌, ◌-◌, ◌<◌, ◌≤◌, [], All, IsTrue, Some, decimal, false, get_or, length, slice_get, take};
ghost use Rattle.iam_row.specs.Piece.{row_at};
ghost use Rattle.iam_tiles.specs.Code.Numbered.{no_tail, picked};
ghost use Rattle.iam_report.specs.Code.Buffer.{IsWithin};
ghost use Rattle.iam_report.specs.Code.Line.{HasSides, before_of, behind_of, tail_at, LineValue};
ghost use Rattle.iam_report.specs.Code.Run.{AddsRows, IsBefore, behind_in, behind_rows, further};

use crate::block::Block;
use crate::front::Front;
use iam_row::{Format, Position, Quoted, Tail, Text, text_at};
use iam_tiles::Numbers;
use std::marker::Model;

/// Makes rows. What stands before the resource of a row is its front; the texts in it are put together once for all rows
/// that have them, and only the number of the cell is put in anew.
#[derive(Drop)]
pub struct Line<'a> {
    quoted: &'a Quoted,
    tails: &'a [Tail],
    front: Front,
    // Whether the front has a number and texts, and whose.
    is_made: bool,
    cell: u64,
    principal: u64,
    action: u64,
    tail: usize,
}

impl<'a> Model for Line<'a> {
    ghost Value = { LineValue };

    ghost view = { λ line. record { quoted = line.quoted.now; tails = line.tails.now; front = line.front; is_made = line.is_made; cell = line.cell; principal = line.principal; action = line.action; tail = line.tail } };

    ghost invariant = { λ line. IsTrue line.is_made → (line.front.number ≡ decimal line.cell) × HasSides line.quoted.now line.tails.now line.principal line.action line.tail line.front };
}

/// Makes a front of these texts, where there is room for it.
fn fill(
    front: &mut Front,
    format: Format,
    cell: u64,
    principal: &str,
    action: &str,
    tail: &str,
) -> bool
    ensures { IsTrue result → front.new ≡ record { before = before_of format action.now; number = decimal cell; behind = behind_of format principal.now action.now tail.now } }
{
    match format {
        Format::Csv => front.fill("", "", cell, principal, action),
        Format::Json => front.fill(",", action, cell, tail, principal),
    }
}

/// Puts these texts behind the number, where there is room for them.
fn refill(front: &mut Front, format: Format, principal: &str, action: &str, tail: &str) -> bool
    ensures { IsTrue result → front.new ≡ record front.old { behind = behind_of format principal.now action.now tail.now } }
{
    match format {
        Format::Csv => front.refill(principal, action),
        Format::Json => front.refill(tail, principal),
    }
}

/// Puts the number of a cell in place of that of another, where it has as many digits.
fn renumber(front: &mut Front, last: u64, cell: u64) -> bool
    requires { front.old.number ≡ decimal last }
    ensures { IsTrue result → front.new ≡ record front.old { number = decimal cell } }
{
    if cell > last && cell - last == 1 && front.count_up() {
        return true;
    }
    front.renumber(cell)
}

/// The resource and the back of a row that is put quickly have at most so many bytes each.
const MOST: usize = 1024;

/// Puts a front and two texts into a block as one, where none is long and there is room for them.
#[inline(always)]
fn put_three<const N: usize>(block: &mut Block, front: &Front, resource: &[u8], back: &[u8]) -> bool
    requires { N ≤ 256 }
    ensures put { IsTrue result → block.new ≡ block.old ++ ((front.now.before ++ (front.now.number ++ front.now.behind)) ++ (resource.now ++ back.now)) }
    ensures none { result ≡ false → block.new ≡ block.old }
{
    let count = front.len();
    if count > N || resource.len() > MOST || back.len() > MOST || !block.has_spare(N + 2 * MOST) {
        return false;
    }
    block.put_front::<N>(front.bytes(), count);
    block.put(resource);
    block.put_short(back);
    true
}

/// How many rows from a resource on have the same action, where there are so many resources, or the greatest number.
fn rows_left(resources: u64, at: u64, most: usize) -> usize
    ensures left { result ≤ resources - at }
    ensures most { result ≤ most }
    ensures all { result < most → result ≡ resources - at }
{
    let left = resources.saturating_sub(at);
    if left < most as u64 {
        left as usize
    } else {
        most
    }
}

/// The text of resource r.
#[inline(always)]
fn resource_at(resources: &[Text], r: u64) -> &str
    requires { r < length resources.now }
    ensures { result.now ≡ get_or resources.entry.now r [] }
{
    resources[r as usize].as_str()
}

/// Number i of these.
#[inline(always)]
fn number_at(numbers: &[u8], i: usize) -> usize
    requires { i < length numbers.now }
    ensures { slice_get numbers.now i ≡ Some result }
{
    numbers[i] as usize
}

/// The position behind so many rows, where there are so many actions and resources, and all but the last have the same
/// principal and action.
pub fn behind(at: Position, count: usize, actions: u64, resources: u64) -> Position
    requires within { IsWithin at }
    requires few { at.cell + count ≤ 16777216 }
    ensures position { result ≡ behind_rows actions resources at count }
    ensures within { IsWithin result }
    ensures cell { result.cell ≡ at.cell + count }
{
    if count == 0 {
        return at;
    }
    let last = count as u64 - 1;
    let here = Position {
        cell: at.cell + last,
        resource: at.resource + last,
        ..at
    };
    here.next(actions, resources)
}

impl<'a> Line<'a> {
    /// No row yet, of a report with these texts and rows with these tails.
    pub fn new(quoted: &'a Quoted, tails: &'a [Tail]) -> Line<'a>
        ensures quoted { result.quoted ≡ quoted.entry.now }
        ensures tails { result.tails ≡ tails.entry.now }
    {
        Line {
            quoted,
            tails,
            front: Front::new(),
            is_made: false,
            cell: 0,
            principal: 0,
            action: 0,
            tail: 0,
        }
    }

    /// The texts of the report.
    pub fn quoted(&self) -> &'a Quoted
        ensures { result.now ≡ self.now.quoted }
    {
        self.quoted
    }

    /// Tail n of the rows.
    pub fn tail(&self, n: usize) -> &'a Tail
        requires { n < length self.now.tails }
        ensures { result.now ≡ tail_at self.now.tails n }
    {
        let tails = self.tails;
        &tails[n]
    }

    /// Makes the whole front of the row at a position, with this tail, where there is room for it.
    fn fill(&mut self, at: Position, tail: usize) -> bool
        requires { tail < length self.old.tails }
        ensures quoted { self.new.quoted ≡ self.old.quoted }
        ensures tails { self.new.tails ≡ self.old.tails }
        ensures number { IsTrue result → self.new.front.number ≡ decimal at.cell }
        ensures sides { IsTrue result → HasSides self.old.quoted self.old.tails at.principal at.action tail self.new.front }
    {
        let principal = text_at(self.quoted.principals.as_slice(), at.principal);
        let action = text_at(self.quoted.actions.as_slice(), at.action);
        let front = self.tails[tail].front.as_str();
        let format = self.quoted.format;
        self.is_made = fill(&mut self.front, format, at.cell, principal, action, front);
        self.cell = at.cell;
        self.principal = at.principal;
        self.action = at.action;
        self.tail = tail;
        self.is_made
    }

    /// Puts the number of another cell into the front, where it has as many digits.
    #[inline(never)]
    fn renumber(&mut self, cell: u64) -> bool
        requires { IsTrue self.old.is_made }
        ensures quoted { self.new.quoted ≡ self.old.quoted }
        ensures tails { self.new.tails ≡ self.old.tails }
        ensures made { IsTrue result → self.new ≡ record self.old { cell = cell; front = record self.old.front { number = decimal cell } } }
    {
        self.is_made = renumber(&mut self.front, self.cell, cell);
        self.cell = cell;
        self.is_made
    }

    /// Puts what stands behind the number at a position, with this tail, into the front of another with the same action.
    fn refill(&mut self, at: Position, tail: usize) -> bool
        requires tail { tail < length self.old.tails }
        requires made { IsTrue self.old.is_made }
        requires action { self.old.action ≡ at.action }
        ensures quoted { self.new.quoted ≡ self.old.quoted }
        ensures tails { self.new.tails ≡ self.old.tails }
        ensures number { IsTrue result → self.new.front.number ≡ self.old.front.number }
        ensures sides { IsTrue result → HasSides self.old.quoted self.old.tails at.principal at.action tail self.new.front }
    {
        let principal = text_at(self.quoted.principals.as_slice(), at.principal);
        let action = text_at(self.quoted.actions.as_slice(), at.action);
        let front = self.tails[tail].front.as_str();
        let format = self.quoted.format;
        self.is_made = refill(&mut self.front, format, principal, action, front);
        self.principal = at.principal;
        self.tail = tail;
        self.is_made
    }

    /// Whether the front is that of this tail too, but for the number. In CSV it has no text of the tail.
    #[inline(always)]
    fn has_tail(&self, tail: usize) -> bool
        requires { IsTrue self.now.is_made }
        ensures { IsTrue result → HasSides self.now.quoted self.now.tails self.now.principal self.now.action tail self.now.front }
    {
        self.tail == tail || self.quoted.format == Format::Csv
    }

    /// Makes the front of the row at a position, with this tail, where there is room for it.
    fn make(&mut self, at: Position, tail: usize) -> bool
        requires { tail < length self.old.tails }
        ensures quoted { self.new.quoted ≡ self.old.quoted }
        ensures tails { self.new.tails ≡ self.old.tails }
        ensures number { IsTrue result → self.new.front.number ≡ decimal at.cell }
        ensures sides { IsTrue result → HasSides self.old.quoted self.old.tails at.principal at.action tail self.new.front }
    {
        if !self.is_made || self.action != at.action || !self.renumber(at.cell) {
            return self.fill(at, tail);
        }
        if self.principal == at.principal && self.has_tail(tail) {
            return true;
        }
        self.refill(at, tail)
    }

    /// Puts the row at a position, with this tail, into a block, where there is room for it. The first row is not put: no comma
    /// stands before it.
    pub fn put(&mut self, block: &mut Block, at: Position, tail: usize) -> bool
        requires { tail < length self.old.tails }
        ensures quoted { self.new.quoted ≡ self.old.quoted }
        ensures tails { self.new.tails ≡ self.old.tails }
        ensures put { IsTrue result → block.new ≡ block.old ++ row_at self.old.quoted at (tail_at self.old.tails tail) }
        ensures none { result ≡ false → block.new ≡ block.old }
    {
        if at.cell == 0 || !self.make(at, tail) {
            return false;
        }
        let resource = text_at(self.quoted.resources.as_slice(), at.resource);
        let back = self.tails[tail].back.as_str();
        block.put_three(self.front.text(), resource.as_bytes(), back.as_bytes())
    }

    /// Whether the front is that of the row before a position, and the principal and the action are the same there.
    fn is_before(&self, at: Position) -> bool
        ensures { IsTrue result → IsBefore self.now at }
    {
        self.is_made
            && self.principal == at.principal
            && self.action == at.action
            && self.cell < at.cell
            && at.cell - self.cell == 1
    }

    /// Puts the number of the next cell into the front, where it has as many digits.
    #[inline(always)]
    fn count_up(&mut self, cell: u64) -> bool
        requires made { IsTrue self.old.is_made }
        requires next { self.old.cell + 1 ≡ cell }
        ensures quoted { self.new.quoted ≡ self.old.quoted }
        ensures tails { self.new.tails ≡ self.old.tails }
        ensures made { IsTrue result → self.new ≡ record self.old { cell = cell; front = record self.old.front { number = decimal cell } } }
    {
        if self.front.count_up() {
            self.cell = cell;
            return true;
        }
        self.renumber(cell)
    }

    /// Makes the front of the next row, with the same principal and action, where it has the same front of a tail and its number
    /// has as many digits.
    #[inline(always)]
    fn make_next(&mut self, at: Position, tail: usize) -> bool
        requires { IsBefore self.old at }
        ensures quoted { self.new.quoted ≡ self.old.quoted }
        ensures tails { self.new.tails ≡ self.old.tails }
        ensures number { IsTrue result → self.new.front.number ≡ decimal at.cell }
        ensures sides { IsTrue result → HasSides self.old.quoted self.old.tails at.principal at.action tail self.new.front }
        ensures before { IsTrue result → IsBefore self.new (further at 1) }
    {
        self.has_tail(tail) && self.count_up(at.cell)
    }

    /// Puts the next row, with the same principal and action, and this resource, where this is quick.
    #[inline(always)]
    fn put_next<const N: usize>(
        &mut self,
        block: &mut Block,
        at: Position,
        tail: usize,
        resource: &str,
    ) -> bool
        requires size { N ≤ 256 }
        requires before { IsBefore self.old at }
        requires tail { tail < length self.old.tails }
        requires resource { resource.now ≡ get_or self.old.quoted.resources at.resource [] }
        requires later { 0 < at.cell }
        ensures quoted { self.new.quoted ≡ self.old.quoted }
        ensures tails { self.new.tails ≡ self.old.tails }
        ensures put { IsTrue result → block.new ≡ block.old ++ row_at self.old.quoted at (tail_at self.old.tails tail) }
        ensures none { result ≡ false → block.new ≡ block.old }
        ensures before { IsTrue result → IsBefore self.new (further at 1) }
    {
        if !self.make_next(at, tail) {
            return false;
        }
        let back = self.tail(tail).back.as_str();
        put_three::<N>(block, &self.front, resource.as_bytes(), back.as_bytes())
    }

    /// Puts the rows from a position on, which have the tails of these numbers, as long as each is quick; how many.
    #[inline(never)]
    fn put_run<const N: usize>(&mut self, block: &mut Block, at: Position, numbers: &[u8]) -> usize
        requires size { N ≤ 256 }
        requires known { All (λ n. n < length self.old.tails) numbers.now }
        requires before { IsBefore self.old at }
        requires within { IsWithin at }
        requires few { at.cell + length numbers.now ≤ 16777216 }
        ensures quoted { self.new.quoted ≡ self.old.quoted }
        ensures tails { self.new.tails ≡ self.old.tails }
        ensures most { result ≤ length numbers.now }
        ensures rows { AddsRows self.old.quoted (picked no_tail self.old.tails (take result numbers.now)) at (behind_in self.old.quoted at result) block.old block.new }
    {
        let resources = self.quoted.resources.as_slice();
        let most = rows_left(resources.len() as u64, at.resource, numbers.len());
        for i in 0..most {
            let here = Position {
                cell: at.cell + i as u64,
                resource: at.resource + i as u64,
                ..at
            };
            let n = number_at(numbers, i);
            let resource = resource_at(resources, here.resource);
            if !self.put_next::<N>(block, here, n, resource) {
                return i;
            }
        }
        most
    }

    /// Puts rows as [`Line::put_run`] does, where the first is behind the row that was put last, with the same principal and action.
    pub fn put_rows(&mut self, block: &mut Block, at: Position, numbers: &[u8]) -> usize
        requires known { All (λ n. n < length self.old.tails) numbers.now }
        requires within { IsWithin at }
        requires few { at.cell + length numbers.now ≤ 16777216 }
        ensures quoted { self.new.quoted ≡ self.old.quoted }
        ensures tails { self.new.tails ≡ self.old.tails }
        ensures most { result ≤ length numbers.now }
        ensures rows { AddsRows self.old.quoted (picked no_tail self.old.tails (take result numbers.now)) at (behind_in self.old.quoted at result) block.old block.new }
    {
        let count = self.front.len();
        if !self.is_before(at) {
            0
        } else if count <= 64 {
            self.put_run::<64>(block, at, numbers)
        } else if count <= 96 {
            self.put_run::<96>(block, at, numbers)
        } else if count <= 128 {
            self.put_run::<128>(block, at, numbers)
        } else if count <= 160 {
            self.put_run::<160>(block, at, numbers)
        } else {
            self.put_run::<256>(block, at, numbers)
        }
    }
}
