// Runs on requests of a world, whatever values the keys have that nothing gives.
ghost use Rattle.std.specs.Prelude.{◌≡◌, ◌≢◌, ◌↔◌, IfErr, IfOk, IsTrue, [], map};
ghost use Rattle.std.specs.Io.KnownBytes.{Appends};
ghost use Rattle.std.specs.List.{AllZip};
ghost use Rattle.iam_matrix.specs.Workers.{IsUnlawful};
ghost use Rattle.iam_open.specs.Asked.{asked_of};
ghost use Rattle.iam_open.specs.Rows.{word_text};
ghost use Rattle.iam_open.specs.declared.asked.Word.{Word};
ghost use Rattle.iam_app.specs.AnyKey.{AsksAbout, EndsTurnedBy, HasTurned, IsAnyKeyReport, MeansWord, asked_by, selected_by};
ghost use Rattle.iam_app.specs.Code.Pieces.{report_text};
ghost use Rattle.iam_app.specs.Code.Turning.{IsAnswerOf, IsUnturned, NotTurned, WritesTurned};
ghost use Rattle.iam_app.specs.Streams.{ConsumesAtMost};

use crate::OutOfMemory;
use crate::ask::read_world;
use crate::cells::format_in;
use crate::fault::RunFault;
use crate::output::{Report, write_report};
use crate::selected::patterns;
use iam_layers::World;
use iam_matrix::{MatrixFault, Open, is_unlawful};
use iam_open::{Asked as AnyKeyAsked, Word, first_turned_report, turned_report};
use iam_options::{AnyKeyCommand, Asked};
use iam_report::buffer;
use iam_selection::{Selection, selects_some};
use iam_text::Items;
use std::alloc::Global;
use std::io::{Read, Write};
use std::mem;
use std::thread::Threads;

/// A report, and whether some request was asked about.
#[derive(Drop)]
struct TurnedAnswer {
    report: Report,
    some: bool,
}

/// What a word says; a text that is none of the four stands for what is not known.
fn word(text: &str) -> Word
    ensures means { (said : Word) → text.now ≡ word_text said → result ≡ said }
    ensures other { ((said : Word) → text.now ≢ word_text said) → result ≡ Word.Open }
{
    match text {
        "always" => Word::Always,
        "never" => Word::Never,
        "possible" => Word::Possible,
        _ => Word::Open,
    }
}

/// What these words say.
pub fn words(alloc: Global, texts: &[String]) -> Result<Vec<Word>, OutOfMemory>
    ensures { IfOk result (λ words. AllZip MeansWord texts.now words.items) }
{
    let mut words = Vec::new(alloc);
    for text in texts {
        words.push(word(text.as_str()))?;
    }
    Ok(words)
}

/// The requests that the words of a command line select, whatever their decisions.
fn selection(alloc: Global, asked: &Asked) -> Result<Selection, OutOfMemory>
    ensures { IfOk result (λ selection. selection ≡ selected_by asked.now) }
{
    Ok(Selection {
        principals: patterns(alloc, asked.principals.as_slice())?,
        actions: patterns(alloc, asked.actions.as_slice())?,
        resources: patterns(alloc, asked.resources.as_slice())?,
        decisions: Items::from_vec(Vec::new(alloc)),
    })
}

/// These requests and these words, lent.
fn lent<'a>(selection: &'a Selection, words: &'a [Word]) -> AnyKeyAsked<'a>
    requires { selection.now.decisions ≡ [] }
    ensures { asked_of result ≡ record { selection = selection.entry.now; words = words.entry.now } }
{
    AnyKeyAsked {
        principals: selection.principals.as_slice(),
        actions: selection.actions.as_slice(),
        resources: selection.resources.as_slice(),
        words,
    }
}

/// Whether some request is asked about.
fn is_asked(
    alloc: Global,
    world: &World,
    asked: &Asked,
    selection: &Selection,
) -> Result<bool, OutOfMemory>
    requires { selection.now ≡ selected_by asked.now }
    ensures { IfOk result (λ some. IsTrue some ↔ AsksAbout asked.now world.now) }
{
    if asked.is_nothing() {
        return Ok(true);
    }
    selects_some(alloc, world, selection)
}

/// The report that the command asks for, of this world.
fn report_of<T: Threads + Sync>(
    rt: &T,
    alloc: Global,
    command: &AnyKeyCommand,
    world: &World,
    asked: AnyKeyAsked<'_>,
) -> Result<Report, OutOfMemory>
    requires { ¬ IsUnlawful command.now.options.workers }
    ensures { IfOk result (λ report. IsAnyKeyReport command.now (asked_of asked.entry) world.now (report_text report)) }
{
    let workers = command.options.workers;
    if command.is_first {
        let text = first_turned_report(rt, alloc, world, asked, workers, &Open)?;
        return Ok(Report::Whole(text.into_bytes()));
    }
    let text = turned_report(
        rt,
        alloc,
        world,
        asked,
        workers,
        &Open,
        format_in(command.options.json),
        command.options.brief,
    )?;
    Ok(Report::Whole(text.into_bytes()))
}

/// The report that the command asks for, of this world, and whether some request is asked about.
fn answer_of<T: Threads + Sync>(
    rt: &T,
    alloc: Global,
    command: &AnyKeyCommand,
    world: &World,
) -> Result<TurnedAnswer, RunFault>
    ensures ok { IfOk result (IsAnswerOf command.now world.now) }
    ensures fault { IfErr result (NotTurned command.now.options) }
{
    if is_unlawful(command.options.workers) {
        return Err(RunFault::Matrix(MatrixFault::Workers));
    }
    let selection = selection(alloc, &command.asked)?;
    let words = words(alloc, command.asked.decisions.as_slice())?;
    let some = is_asked(alloc, world, &command.asked, &selection)?;
    let asked = lent(&selection, words.as_slice());
    let report = report_of(rt, alloc, command, world, asked)?;
    Ok(TurnedAnswer { report, some })
}

/// Writes the report that the command asks for, of this world, and tells whether some request is asked about.
fn answer<T: Threads + Sync, W: Write>(
    rt: &T,
    alloc: Global,
    command: &AnyKeyCommand,
    world: &World,
    writer: &mut W,
) -> Result<bool, RunFault>
    ensures done { IfOk result (WritesTurned command.now world.now (W.contents writer.old) (W.contents writer.new)) }
    ensures fault { IfErr result (IsUnturned command.now world.now (W.contents writer.old) (W.contents writer.new)) }
{
    let answer = answer_of(rt, alloc, command, world)?;
    let mut kept = buffer(alloc)?;
    match write_report(writer, &mut kept, &answer.report) {
        Ok(()) => Ok(answer.some),
        Err(_) => Err(RunFault::Write),
    }
}

/// Reads a world, and writes of each of its requests that is selected, in order, a row that says whether it is allowed whatever values the
/// keys have that nothing gives: in each of the contexts in question, in none of them, or in one that is shown; or that it is not known; of
/// these the rows that have a word that is asked for. Or it writes in brief the first one that is not told to be never allowed. It is told
/// whether some request is asked about. The whole report is made before its first byte is written. At most 8,388,609 bytes are read. The
/// first fault in this order ends the run: `Read`, `World`, `Matrix` for the number of workers, `Write`. That there is no memory can come at
/// any point before the writing. After every fault except `Write` nothing was written; after `Write` a beginning of the report.
pub fn run_any_key<T: Threads + Sync, R: Read, W: Write>(
    rt: &T,
    alloc: Global,
    command: &AnyKeyCommand,
    input: &mut R,
    writer: &mut W,
) -> Result<bool, RunFault>
    ensures most { ConsumesAtMost (R.remaining input.old) (R.remaining input.new) 8388609 }
    ensures done { IfOk result (HasTurned command.now (R.remaining input.old) (Appends (W.contents writer.old) (W.contents writer.new))) }
    ensures fault { IfErr result (EndsTurnedBy command.now (R.remaining input.old) (W.contents writer.old) (W.contents writer.new)) }
{
    let world = read_world(alloc, input)?;
    let answered = answer(rt, alloc, command, &world, writer);
    // The run ends soon, as one of all cells.
    mem::forget(world);
    answered
}
