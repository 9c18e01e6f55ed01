// Crews of many workers, over tiles that cost nothing.
ghost use Rattle.std.specs.Prelude.{◌≡◌, ◌≤◌, ⊤};

use iam_crew::{Bound, Crew, Open, gather};
use std::alloc::{AllocError, Global};
use std::sync::atomic::{AtomicU64, Ordering};
use std::test::Fail;
use std::thread::Threads;

/// Those who make of each tile its number, and count how often they are asked.
#[derive(Drop)]
struct Counting {
    worked: AtomicU64,
    equipped: AtomicU64,
}

impl Crew for Counting {
    type Output = u64;

    type Tools = ();

    ghost fits = { λ _ _. ⊤ };

    ghost takes = { λ _ _. ⊤ };

    ghost gives = { λ _ tile output _. output ≡ tile };

    fn tools(&self, _alloc: Global) -> Result<(), AllocError> {
        self.equipped.fetch_add(1, Ordering::SeqCst);
        Ok(())
    }

    fn work(
        &self,
        _alloc: Global,
        _tools: &mut (),
        _bound: &mut Bound<'_>,
        tile: u64,
    ) -> Result<u64, AllocError> {
        self.worked.fetch_add(1, Ordering::SeqCst);
        Ok(tile)
    }

    ghost lasts = { λ _ _ _ _ _ _ given. given };
}

/// Whether so many workers, with tools of their own, work each of so many tiles once.
fn are_worked_once<R: Threads + Sync>(
    rt: &R,
    alloc: Global,
    tiles: u64,
    workers: u32,
) -> Result<bool, Fail>
    requires some { 1 ≤ workers }
    requires few { workers ≤ 64 }
    requires tiles { tiles ≤ 4096 }
{
    let crew = Counting {
        worked: AtomicU64::new(0),
        equipped: AtomicU64::new(0),
    };
    let gathered = gather(rt, alloc, &crew, tiles, workers, &Open)?;
    let mut outputs = gathered.outputs.iter().enumerate();
    let is_each = outputs.all(|(tile, output)| tile as u64 == *output);
    let is_once = crew.worked.load(Ordering::SeqCst) == tiles;
    // Workers work all tiles, so that the collector wants no tools of its own.
    let is_equipped = crew.equipped.load(Ordering::SeqCst) == u64::from(workers);
    let is_whole = gathered.outputs.len() as u64 == tiles && gathered.low.is_none();
    Ok(is_each && is_once && is_equipped && is_whole)
}

#[test]
fn each_tile_is_worked_once_by_workers_with_tools_of_their_own(
    rt: HostRuntime,
) -> Result<(), Fail> {
    for workers in [1, 4, 64] {
        assert!(rt; are_worked_once(&rt, rt.alloc(), 4096, workers)?);
    }
    for tiles in [1, 0] {
        assert!(rt; are_worked_once(&rt, rt.alloc(), tiles, 64)?);
    }
    Ok(())
}
