// What is told of principals, found by many workers.
ghost use Rattle.std.specs.Prelude.{◌≤◌, IfOk, length, map};
ghost use Rattle.std.specs.List.{AllZip};
ghost use Rattle.iam_every_changes.specs.Code.Given.{AreWalksIn};
ghost use Rattle.iam_every_changes.specs.Code.Told.{IsLookedAt, IsTile, nobody};
ghost use Rattle.iam_every_changes.specs.Compared.{AreComparable, both_at, compared_of, who_of};

use crate::compared::{Compared, Who, both_at};
use crate::looked::Looked;
use crate::rows::{changes_of, walks_of};
use iam_crew::{Bound, Crew, Gate, gather};
use iam_kinds::Walks;
use iam_match::OutOfMemory;
use std::alloc::Global;
use std::thread::Threads;

/// How many principals a crew works off at most.
const TILES: usize = 4096;

/// Those who look at principals.
#[derive(Clone, Copy)]
pub struct Principals<'a> {
    pub compared: Compared<'a>,
    pub whos: &'a [Who<'a>],
}

impl<'a> Crew for Principals<'a> {
    ghost use Rattle.std.specs.Prelude.{◌≡◌, Some};
    ghost use Rattle.std.specs.List.{slice_get};
    ghost use Rattle.iam_every_changes.specs.declared.compared.Who.{Who};

    type Output = Looked;

    type Tools = Walks;

    ghost fits = { λ crew walks. AreWalksIn (both_at (compared_of crew.compared) nobody) walks };

    ghost takes = { λ crew tile. IsTile crew tile };

    ghost gives = { λ crew tile output _. (who : Who) → slice_get crew.whos.now tile ≡ Some who
        → IsLookedAt (compared_of crew.compared) (who_of who) output };

    fn tools(&self, alloc: Global) -> Result<Walks, OutOfMemory> {
        let nobody = Who {
            text: "",
            before: None,
            after: None,
        };
        walks_of(alloc, both_at(self.compared, nobody))
    }

    fn work(
        &self,
        alloc: Global,
        walks: &mut Walks,
        _bound: &mut Bound<'_>,
        tile: u64,
    ) -> Result<Looked, OutOfMemory> {
        changes_of(
            alloc,
            walks,
            both_at(self.compared, self.whos[tile as usize]),
        )
    }

    ghost lasts = { λ _ _ _ _ _ _ given. given };
}

/// What is told of a few principals, in their order.
fn looked_at_few<R: Threads + Sync, G: Gate + Sync>(
    rt: &R,
    alloc: Global,
    compared: Compared<'_>,
    whos: &[Who<'_>],
    workers: u32,
    gate: &G,
) -> Result<Vec<Looked>, OutOfMemory>
    requires tiles { length whos.now ≤ 4096 }
    requires comparable { AreComparable (compared_of compared) (map who_of whos.now) }
    requires some { 1 ≤ workers }
    requires few { workers ≤ 64 }
    ensures { IfOk result (λ all. AllZip (IsLookedAt (compared_of compared.entry)) (map who_of whos.now) all.items) }
{
    let crew = Principals { compared, whos };
    let gathered = gather(rt, alloc, &crew, whos.len() as u64, workers, gate)?;
    Ok(gathered.outputs)
}

/// What is told of principals, in their order.
pub fn looked_at_all<R: Threads + Sync, G: Gate + Sync>(
    rt: &R,
    alloc: Global,
    compared: Compared<'_>,
    whos: &[Who<'_>],
    workers: u32,
    gate: &G,
) -> Result<Vec<Looked>, OutOfMemory>
    requires comparable { AreComparable (compared_of compared) (map who_of whos.now) }
    requires some { 1 ≤ workers }
    requires few { workers ≤ 64 }
    ensures { IfOk result (λ all. AllZip (IsLookedAt (compared_of compared.entry)) (map who_of whos.now) all.items) }
{
    let mut all = Vec::new(alloc);
    for some in whos.chunks(TILES) {
        let mut more = looked_at_few(rt, alloc, compared, some, workers, gate)?;
        all.append(&mut more)?;
    }
    Ok(all)
}
