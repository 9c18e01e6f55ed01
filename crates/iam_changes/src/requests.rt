// The requests of two worlds, and how many there are.
ghost use Rattle.std.specs.Prelude.{◌≡◌, ◌+◌, ◌≤◌, IfOk};
ghost use Rattle.iam_world.specs.World.{world_cells};
ghost use Rattle.iam_changes.specs.Requests.{IsCount};
ghost use Rattle.iam_changes.specs.Code.Found.{reach, AreLinked, RequestsValue};

use crate::finder::Finder;
use iam_layers::{World, one_triple};
use iam_text::OutOfMemory;
use std::alloc::Global;
use std::marker::Model;

/// The requests of two worlds: those of the world AFTER, then those that the world BEFORE alone has, each in the order of its
/// world's cells. A contract sees the worlds and how many there are.
#[derive(Drop)]
pub struct Requests<'a> {
    before: &'a World,
    after: &'a World,
    // The requests of AFTER in BEFORE, and those of BEFORE in AFTER.
    to_before: Finder<'a>,
    to_after: Finder<'a>,
    count: u64,
}

impl<'a> Model for Requests<'a> {
    ghost Value = { RequestsValue };

    ghost view = { λ requests. record { before = requests.before.now; after = requests.after.now; count = requests.count } };

    ghost invariant = { λ requests. AreLinked requests.before.now requests.after.now requests.count requests.to_before requests.to_after };
}

impl<'a> Requests<'a> {
    /// The requests of two worlds. `OutOfMemory` comes where there is no memory for them.
    pub fn of(
        alloc: Global,
        before: &'a World,
        after: &'a World,
    ) -> Result<Requests<'a>, OutOfMemory>
        ensures before { IfOk result (λ requests. requests.before ≡ before.entry.now) }
        ensures after { IfOk result (λ requests. requests.after ≡ after.entry.now) }
    {
        one_triple();
        let to_before = Finder::of(alloc, after, before)?;
        let to_after = Finder::of(alloc, before, after)?;
        let count = after.cells() + to_after.count_left();
        Ok(Requests {
            before,
            after,
            to_before,
            to_after,
            count,
        })
    }

    /// How many there are, at most 33,554,432.
    pub fn count(&self) -> u64
        ensures value { result ≡ self.now.count }
        ensures is { IsCount self.now.before self.now.after result }
    {
        self.count
    }

    /// The world BEFORE.
    pub fn before(&self) -> &'a World
        ensures { result.now ≡ self.now.before }
    {
        self.before
    }

    /// The world AFTER.
    pub fn after(&self) -> &'a World
        ensures { result.now ≡ self.now.after }
    {
        self.after
    }

    /// The requests of AFTER in BEFORE.
    pub fn to_before(&self) -> &Finder<'a>
        ensures world { result.now.world ≡ self.now.after }
        ensures other { result.now.other ≡ self.now.before }
    {
        &self.to_before
    }

    /// The requests of BEFORE in AFTER.
    pub fn to_after(&self) -> &Finder<'a>
        ensures world { result.now.world ≡ self.now.before }
        ensures other { result.now.other ≡ self.now.after }
    {
        &self.to_after
    }

    /// How many of the cells of AFTER, and of those of BEFORE behind them, stand before request n. Those of BEFORE are dealt out
    /// evenly among the requests that AFTER does not have.
    pub fn reach(&self, n: u64) -> u64
        requires { n ≤ self.now.count }
        ensures value { result ≡ reach (world_cells self.now.after) (world_cells self.now.before) self.now.count n }
        ensures few { result ≤ world_cells self.now.after + world_cells self.now.before }
        ensures small { result ≤ 33554432 }
    {
        let first = self.after.cells();
        let last = self.before.cells();
        if n >= self.count {
            return first + last;
        }
        if n <= first {
            return n;
        }
        first + (n - first) * last / (self.count - first)
    }
}
