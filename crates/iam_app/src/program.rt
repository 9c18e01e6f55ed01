// A run: the input is read, the world asked for, the report made and written.
ghost use Rattle.std.specs.Prelude.{◌≡◌, ◌≢◌, ◌↔◌, ℕ, IsTrue, IfOk, IfErr, OnOk, length, string_bytes};
ghost use Rattle.std.specs.Io.KnownBytes.{Appends};
ghost use Rattle.iam_layers.specs.Cell.{IsCell};
ghost use Rattle.iam_world.specs.World.{world_cells, world_statements};
ghost use Rattle.iam_app.specs.Code.Pieces.{report_text};
ghost use Rattle.iam_app.specs.Code.Cells.{HasTriple};
ghost use Rattle.iam_app.specs.Output.{EndsBy, HasOutput, IsAnswer, IsOutput, IsRefusal, IsReportOf, IsWorldRefusal, counts_text};
ghost use Rattle.iam_app.specs.Streams.{ConsumesAtMost};
ghost use Rattle.iam_app.specs.declared.fault.RunFault.TheVariants as f;

use crate::OutOfMemory;
use crate::cells::{first, matrix};
use crate::fault::RunFault;
use crate::input::read_input;
use crate::output::{Report, write_report};
use iam_layers::World;
use iam_matrix::csv_row;
use iam_options::{Options, Task};
use iam_report::buffer;
use std::alloc::Global;
use std::io::{Read, Write};
use std::mem;
use std::thread::Threads;

fn has_triple(world: &World, p: u64, a: u64, r: u64) -> bool
    ensures { IsTrue result ↔ HasTriple world.now p a r }
{
    p < world.principals() && a < world.actions() && r < world.resources()
}

/// The report of one cell.
fn decide(alloc: Global, world: &World, p: u64, a: u64, r: u64) -> Result<Vec<u8>, RunFault>
    ensures ok { IfOk result (λ text. IsAnswer world.now p a r text.items) }
    ensures fault { IfErr result (λ fault. fault ≢ f.OutOfMemory → (fault ≡ f.NoSuchCell) × ((cell : ℕ) → ¬ IsCell world.now cell p a r)) }
{
    if !has_triple(world, p, a, r) {
        return Err(RunFault::NoSuchCell);
    }
    let verdict = world.decide_plain(alloc, p, a, r)?;
    Ok(csv_row(alloc, world, world.cell(p, a, r), &verdict)?)
}

/// The line of `check`, from how many there are of each.
#[tactic(auto, unfolding(crate::specs::Output::counts_text))]
fn counts_line(
    alloc: Global,
    principals: u64,
    actions: u64,
    resources: u64,
    cells: u64,
    statements: u64,
) -> Result<String, OutOfMemory>
    ensures { IfOk result (λ line. string_bytes line ≡ counts_text principals actions resources cells statements) }
{
    format!(in alloc;
        "ok principals {principals} actions {actions} resources {resources} cells {cells} statements {statements}\n"
    )
}

/// How many of each the world has.
fn check(alloc: Global, world: &World) -> Result<Vec<u8>, OutOfMemory>
    ensures { IfOk result (λ text. text.items ≡ counts_text (length world.now.principals) (length world.now.actions) (length world.now.resources)
        (world_cells world.now) (world_statements world.now)) }
{
    let line = counts_line(
        alloc,
        world.principals(),
        world.actions(),
        world.resources(),
        world.cells(),
        world.statements(),
    )?;
    Ok(line.into_bytes())
}

/// The report that the options ask for, of this world.
pub fn report<T: Threads + Sync>(
    rt: &T,
    alloc: Global,
    options: &Options,
    world: &World,
) -> Result<Report, RunFault>
    ensures ok { IfOk result (λ report. IsReportOf options.now.task options.now world.now (report_text report)) }
    ensures fault { IfErr result (λ fault. IsWorldRefusal options.now.task options.now world.now fault) }
{
    match options.task {
        Task::Check => Ok(Report::Whole(check(alloc, world)?)),
        Task::Decide(p, a, r) => Ok(Report::Whole(decide(alloc, world, p, a, r)?)),
        Task::Matrix => matrix(rt, alloc, options, world),
        Task::First => first(rt, alloc, options, world),
    }
}

/// The report that the options ask for, of the world of these bytes.
fn answer<T: Threads + Sync>(
    rt: &T,
    alloc: Global,
    options: &Options,
    bytes: Vec<u8>,
) -> Result<Report, RunFault>
    ensures ok { IfOk result (λ report. IsOutput options.now bytes.items (report_text report)) }
    ensures fault { IfErr result (λ fault. IsRefusal options.now bytes.items fault) }
{
    match World::from_vec_leaking(alloc, bytes) {
        Ok(world) => {
            let report = report(rt, alloc, options, &world);
            // The run ends soon: letting go of each piece of the world would cost a tenth of its reading.
            mem::forget(world);
            report
        }
        Err(fault) => Err(RunFault::World(fault)),
    }
}

/// Reads a world, and writes the report that the options ask for: the whole report is made before its first byte is
/// written. At most 8,388,609 bytes are read. The first fault in this order ends the run: `Read`, `World`, `NoSuchCell`,
/// `Cut`, `Matrix`, `Write`; that there is no memory can come at any point before the writing: as `World` while the world is
/// read, as `Cut` while the cells are cut, as `Matrix` while the matrix or the first allowed cell and its text are made,
/// as `OutOfMemory` elsewhere. After every fault except `Write` nothing was written; after `Write` a beginning of the
/// report. `Matrix` and `First` start threads, and wait for their end. The memory of the world is not given back, since a run
/// mostly ends its process.
pub fn run<T: Threads + Sync, R: Read, W: Write>(
    rt: &T,
    alloc: Global,
    options: &Options,
    reader: &mut R,
    writer: &mut W,
) -> Result<(), RunFault>
    ensures most { ConsumesAtMost (R.remaining reader.old) (R.remaining reader.new) 8388609 }
    ensures done { OnOk result (HasOutput options.now (R.remaining reader.old) (Appends (W.contents writer.old) (W.contents writer.new))) }
    ensures fault { IfErr result (λ fault. EndsBy options.now (R.remaining reader.old) (W.contents writer.old) (W.contents writer.new) fault) }
{
    let bytes = read_input(alloc, reader)?;
    let report = answer(rt, alloc, options, bytes)?;
    let mut kept = buffer(alloc)?;
    write_report(writer, &mut kept, &report).map_err(|_| RunFault::Write)
}
