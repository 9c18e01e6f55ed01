// The gate that is told before each tile: in which order, by which workers, and what they steal from one another.
ghost use Rattle.std.specs.Prelude.{◌≡◌, sum};
ghost use Rattle.iam_world.specs.World.{world_cells};

use crate::matrix::{CSV, DENIED, HOME, are_decisions, are_verdicts};
use iam_layers::World;
use iam_matrix::{Cut, Format, Gate, first, matrix, matrix_brief, matrix_report};
use std::alloc::Global;
use std::hint::spin_loop;
use std::sync::atomic::{AtomicBool, AtomicU64, Ordering};
use std::sync::{Mutex, Wait};
use std::test::Fail;
use std::thread::Threads;

/// Whether a count comes to so many within so many looks.
fn reaches(count: &AtomicU64, least: u64) -> bool {
    for _look in 0..100_000_000u32 {
        if count.load(Ordering::SeqCst) >= least {
            return true;
        }
        spin_loop();
    }
    false
}

/// A gate that notes the tiles in the order in which they begin, and holds each until so many have begun.
#[derive(Drop)]
struct Record<'a, R: Wait> {
    rt: &'a R,
    least: u64,
    begun: AtomicU64,
    tiles: Mutex<Vec<u64>>,
}

impl<'a, R: Wait> Record<'a, R> {
    fn of(rt: &'a R, alloc: Global, least: u64) -> Record<'a, R> {
        Record {
            rt,
            least,
            begun: AtomicU64::new(0),
            tiles: Mutex::new(Vec::new(alloc)),
        }
    }
}

impl<R: Wait> Gate for Record<'_, R> {
    fn before(&self, tile: u64) {
        let _noted = self.tiles.lock(self.rt).push(tile).is_ok();
        self.begun.fetch_add(1, Ordering::SeqCst);
        let _held = reaches(&self.begun, self.least);
    }
}

/// A gate that holds two tiles until the two that it awaits, which may be the same, have begun, each by another worker.
#[derive(Drop)]
struct Hold {
    held: [u64; 2],
    awaited: [u64; 2],
    begun: AtomicU64,
    is_missed: AtomicBool,
}

impl Hold {
    fn of(held: [u64; 2], awaited: [u64; 2]) -> Hold {
        Hold {
            held,
            awaited,
            begun: AtomicU64::new(0),
            is_missed: AtomicBool::new(false),
        }
    }

    fn is_met(&self) -> bool {
        self.begun.load(Ordering::SeqCst) == 2 && !self.is_missed.load(Ordering::SeqCst)
    }
}

impl Gate for Hold {
    fn before(&self, tile: u64) {
        if self.awaited.contains(&tile) {
            self.begun.fetch_add(1, Ordering::SeqCst);
        }
        if self.held.contains(&tile) && !reaches(&self.begun, 2) {
            self.is_missed.store(true, Ordering::SeqCst);
        }
    }
}

/// A gate that holds each tile until tile 0 begins, and tile 0 until two others have begun since.
#[derive(Drop)]
struct Ahead {
    first: AtomicU64,
    since: AtomicU64,
    is_missed: AtomicBool,
}

impl Ahead {
    fn new() -> Ahead {
        Ahead {
            first: AtomicU64::new(0),
            since: AtomicU64::new(0),
            is_missed: AtomicBool::new(false),
        }
    }

    fn is_met(&self) -> bool {
        self.since.load(Ordering::SeqCst) >= 2 && !self.is_missed.load(Ordering::SeqCst)
    }
}

impl Gate for Ahead {
    fn before(&self, tile: u64) {
        if tile == 0 {
            self.first.store(1, Ordering::SeqCst);
            if !reaches(&self.since, 2) {
                self.is_missed.store(true, Ordering::SeqCst);
            }
        } else if self.first.load(Ordering::SeqCst) == 1 {
            self.since.fetch_add(1, Ordering::SeqCst);
        } else {
            let _begun = reaches(&self.first, 1);
        }
    }
}

/// What is asked of the twelve cells.
#[derive(Clone, Copy)]
enum Asked {
    Report,
    Verdicts,
    Decisions,
    /// The first cell that is allowed, which is cell 0.
    First,
    /// The same where nobody has a policy.
    Nothing,
}

const EACH: [Asked; 3] = [Asked::Report, Asked::Verdicts, Asked::Decisions];

/// Whether so many workers bring it, in tiles of one cell.
fn is_brought<R: Threads + Sync, G: Gate + Sync>(
    rt: &R,
    alloc: Global,
    asked: Asked,
    workers: u32,
    gate: &G,
) -> Result<bool, Fail> {
    let document = match asked {
        Asked::Nothing => DENIED,
        _ => HOME,
    };
    let world = World::read(alloc, document.as_bytes())?;
    let cut = Cut::even(alloc, 1, world.cells())?;
    is_brought_of(rt, alloc, asked, &world, &cut, workers, gate)
}

fn is_brought_of<R: Threads + Sync, G: Gate + Sync>(
    rt: &R,
    alloc: Global,
    asked: Asked,
    world: &World,
    cut: &Cut,
    workers: u32,
    gate: &G,
) -> Result<bool, Fail>
    requires { sum cut.now ≡ world_cells world.now }
{
    match asked {
        Asked::Report => is_report(rt, alloc, world, cut, workers, gate),
        Asked::Verdicts => Ok(are_verdicts(&matrix(rt, alloc, world, cut, workers, gate)?)),
        Asked::Decisions => {
            let decisions = matrix_brief(rt, alloc, world, cut, workers, gate)?;
            Ok(are_decisions(&decisions))
        }
        Asked::First => Ok(first(rt, alloc, world, cut, workers, gate)? == Some(0)),
        Asked::Nothing => Ok(first(rt, alloc, world, cut, workers, gate)?.is_none()),
    }
}

fn is_report<R: Threads + Sync, G: Gate + Sync>(
    rt: &R,
    alloc: Global,
    world: &World,
    cut: &Cut,
    workers: u32,
    gate: &G,
) -> Result<bool, Fail>
    requires { sum cut.now ≡ world_cells world.now }
{
    let report = matrix_report(rt, alloc, world, cut, workers, gate, Format::Csv, false)?;
    let mut text = Vec::new(alloc);
    let mut kept = Vec::new(alloc);
    report.write_to(&mut text, &mut kept)?;
    Ok(text.as_slice() == CSV.as_bytes())
}

#[test]
fn one_worker_halves_its_runs_and_takes_them_from_the_front(rt: HostRuntime) -> Result<(), Fail> {
    let order = [0, 6, 3, 1, 9, 7, 4, 2, 10, 8, 5, 11];
    for asked in EACH {
        let gate = Record::of(&rt, rt.alloc(), 1);
        assert!(rt; is_brought(&rt, rt.alloc(), asked, 1, &gate)?);
        assert_eq!(rt; gate.tiles.lock(&rt).as_slice(), order.as_slice());
    }
    Ok(())
}

/// Whether so many workers tell the gate of each tile once.
fn is_told_once<R: Threads + Wait + Sync>(
    rt: &R,
    alloc: Global,
    asked: Asked,
    workers: u32,
) -> Result<bool, Fail> {
    let gate = Record::of(rt, alloc, 1);
    let is_right = is_brought(rt, alloc, asked, workers, &gate)?;
    let mut tiles = gate.tiles.lock(rt);
    tiles.sort_unstable();
    Ok(is_right && tiles.as_slice() == [0, 1, 2, 3, 4, 5, 6, 7, 8, 9, 10, 11].as_slice())
}

#[test]
fn the_gate_is_told_of_each_tile_once(rt: HostRuntime) -> Result<(), Fail> {
    for workers in [1, 4, 64] {
        for asked in EACH {
            assert!(rt; is_told_once(&rt, rt.alloc(), asked, workers)?);
        }
    }
    Ok(())
}

/// Whether so many workers begin with these tiles, all at once, in one of three runs.
fn do_begin_at<R: Threads + Wait + Sync>(
    rt: &R,
    alloc: Global,
    workers: u32,
    tiles: &[u64],
) -> Result<bool, Fail> {
    for _run in 0..3 {
        let gate = Record::of(rt, alloc, u64::from(workers));
        if !is_brought(rt, alloc, Asked::Report, workers, &gate)? {
            return Ok(false);
        }
        let mut begun = gate.tiles.lock(rt);
        begun.truncate(tiles.len());
        begun.sort_unstable();
        if begun.as_slice() == tiles {
            return Ok(true);
        }
    }
    Ok(false)
}

#[test]
fn each_worker_begins_with_a_run_of_its_own(rt: HostRuntime) -> Result<(), Fail> {
    let firsts: [(u32, &[u64]); 2] = [(2, &[0, 6]), (4, &[0, 3, 6, 9])];
    for (workers, tiles) in firsts {
        assert!(rt; do_begin_at(&rt, rt.alloc(), workers, tiles)?);
    }
    Ok(())
}

/// Whether so many workers begin the awaited tiles while the held ones wait, in one of three runs.
fn are_stolen<R: Threads + Sync>(
    rt: &R,
    alloc: Global,
    asked: Asked,
    workers: u32,
    held: [u64; 2],
    awaited: [u64; 2],
) -> Result<bool, Fail> {
    let mut is_met = false;
    for _run in 0..3 {
        let gate = Hold::of(held, awaited);
        if !is_brought(rt, alloc, asked, workers, &gate)? {
            return Ok(false);
        }
        is_met |= gate.is_met();
    }
    Ok(is_met)
}

#[test]
fn tiles_of_workers_that_wait_are_stolen_by_another(rt: HostRuntime) -> Result<(), Fail> {
    for asked in EACH {
        assert!(rt; are_stolen(&rt, rt.alloc(), asked, 2, [0, 1], [0, 1])?);
        assert!(rt; are_stolen(&rt, rt.alloc(), asked, 3, [0, 8], [1, 9])?);
    }
    Ok(())
}

#[test]
fn tiles_of_a_search_that_waits_are_stolen_by_the_other(rt: HostRuntime) -> Result<(), Fail> {
    assert!(rt; are_stolen(&rt, rt.alloc(), Asked::Nothing, 2, [0, 1], [0, 1])?);
    Ok(())
}

/// Whether a search tells the gate of other tiles while one that has the first cell waits, in one of three runs.
fn is_told_before<R: Threads + Sync>(rt: &R, alloc: Global) -> Result<bool, Fail> {
    let mut is_met = false;
    for _run in 0..3 {
        let gate = Ahead::new();
        if !is_brought(rt, alloc, Asked::First, 2, &gate)? {
            return Ok(false);
        }
        is_met |= gate.is_met();
    }
    Ok(is_met)
}

// Were it told once the cell of tile 0 is found, the other worker would pass over all that lies behind.
#[test]
fn the_gate_is_told_before_a_tile_is_searched(rt: HostRuntime) -> Result<(), Fail> {
    assert!(rt; is_told_before(&rt, rt.alloc())?);
    Ok(())
}

#[test]
fn a_search_skips_what_lies_behind_an_allowed_cell(rt: HostRuntime) -> Result<(), Fail> {
    let gate = Record::of(&rt, rt.alloc(), 1);
    assert!(rt; is_brought(&rt, rt.alloc(), Asked::First, 1, &gate)?);
    assert_eq!(rt; gate.tiles.lock(&rt).as_slice(), [0].as_slice());
    Ok(())
}
