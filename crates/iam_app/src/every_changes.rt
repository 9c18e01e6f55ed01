// A run of two worlds for all names: worlds and lines are read, the report is made and written.
ghost use Rattle.std.specs.Prelude.{◌≡◌, ◌||◌, ◌<◌, IfErr, IfOk, MatchResult, if◌then◌else◌, map};
ghost use Rattle.std.specs.Io.KnownBytes.{Appends};
ghost use Rattle.iam_decision.specs.Matched.{Selects};
ghost use Rattle.iam_asked.specs.Before.{AreLinesBefore};
ghost use Rattle.iam_asked.specs.TextLines.{text_line_of};
ghost use Rattle.iam_every_changes.specs.Compared.{compared_of, who_of};
ghost use Rattle.iam_every_changes.specs.States.{AreApart};
ghost use Rattle.iam_matrix.specs.Workers.{IsUnlawful};
ghost use Rattle.iam_app.specs.ChangesFault.{fails_on};
ghost use Rattle.iam_app.specs.Code.Comparing.{CanCompareNames, EndsAllBy, EndsComparisonBy, HasComparison, HasNoComparison, IsNotCompared, IsNotRead, IsUnknownBefore, WritesAll, WritesComparison};
ghost use Rattle.iam_app.specs.Code.Naming.{AreKnown};
ghost use Rattle.iam_app.specs.EveryChanges.{AreLines, AreWhosMeant, EndsNamesChangesBy, HasNamesChanges, IsNamesComparison, IsOfNoBefore, IsOfNoWorlds, IsWhoMeant, kinds_of};
ghost use Rattle.iam_app.specs.EveryChangesFault.{fault_before};
ghost use Rattle.iam_app.specs.Streams.{ConsumesAtMost};

use crate::OutOfMemory;
use crate::cells::format_in;
use crate::changes::{fails_on, of_before, read_side};
use crate::changes_fault::Side;
use crate::command::NOTHING_ASKED;
use crate::every::{NOT_SHOWN, action_pattern, is_meant, lent_lines, patterns_of, which_of};
use crate::every_changes_fault::EveryChangesFault;
use crate::fault::RunFault;
use crate::input::read_input;
use crate::output::{Report, write_report};
use crate::selected::patterns;
use iam_asked::{FaultyText, TextFault, TextLine, lines_before, read_texts};
use iam_changes::Kinds;
use iam_every::Asked;
use iam_every_changes::{
    ChangesAnswer, ChangesTold, Compared, Who, every_changes_report, principals_of,
};
use iam_layers::World;
use iam_matrix::{MatrixFault, Open, is_unlawful};
use iam_options::{EveryChangesCommand, FailOn};
use iam_report::buffer;
use iam_text::Glob;
use std::alloc::Global;
use std::io::{Read, Write};
use std::mem;
use std::thread::Threads;

/// Those of the principals that are meant.
fn meant_of<'a>(
    alloc: Global,
    patterns: &[Glob],
    all: &[Who<'a>],
) -> Result<Vec<Who<'a>>, OutOfMemory>
    ensures { IfOk result (λ whos. Selects (IsWhoMeant patterns.now) (map who_of all.now) (map who_of whos.items)) }
{
    let mut whos = Vec::new(alloc);
    for &who in all {
        if is_meant(patterns, who.text) {
            whos.push(who)?;
        }
    }
    Ok(whos)
}

/// The principals of both worlds that are meant.
fn whos_of<'a>(
    alloc: Global,
    before: &'a World,
    after: &'a World,
    patterns: &[Glob],
) -> Result<Vec<Who<'a>>, OutOfMemory>
    ensures { IfOk result (λ whos. AreWhosMeant patterns.now before.entry.now after.entry.now (map who_of whos.items)) }
{
    let all = principals_of(alloc, before, after)?;
    meant_of(alloc, patterns, all.as_slice())
}

/// The report that the command asks for, of this.
fn report_on<T: Threads + Sync>(
    rt: &T,
    alloc: Global,
    command: &EveryChangesCommand,
    compared: Compared<'_>,
) -> Result<ChangesAnswer, EveryChangesFault>
    requires compared { CanCompareNames (compared_of compared) }
    requires workers { ¬ IsUnlawful command.now.options.workers }
    ensures ok { IfOk result (λ answer. IsNamesComparison command.now compared.entry.before.world.now compared.entry.after.world.now
        (compared_of compared.entry) answer.text.items answer.told) }
    ensures fault { IfErr result (IsNotCompared command.now (compared_of compared.entry)) }
{
    let meant = patterns(alloc, command.principals.as_slice())?;
    let (before, after) = (compared.before.world, compared.after.world);
    let whos = whos_of(alloc, before, after, meant.as_slice())?;
    let answer = every_changes_report(
        rt,
        alloc,
        compared,
        whos.as_slice(),
        command.options.workers,
        &Open,
        format_in(command.options.json),
        command.options.brief,
    )?;
    Ok(answer)
}

/// The report that the command asks for, of the worlds and these lines, which say the same in both.
fn report_of<T: Threads + Sync>(
    rt: &T,
    alloc: Global,
    command: &EveryChangesCommand,
    before: &World,
    after: &World,
    lines: &[TextLine],
    were: &[TextLine],
) -> Result<ChangesAnswer, EveryChangesFault>
    requires apart_before { AreApart before.now }
    requires apart_after { AreApart after.now }
    requires known { AreKnown after.now (map text_line_of lines.now) }
    requires said { AreLinesBefore before.now after.now (map text_line_of lines.now) (map text_line_of were.now) }
    ensures ok { IfOk result (λ answer. HasComparison command.now before.now after.now (map text_line_of lines.now) answer.text.items answer.told) }
    ensures fault { IfErr result (HasNoComparison command.now before.now after.now (map text_line_of lines.now)) }
{
    if is_unlawful(command.options.workers) {
        let fault = RunFault::Matrix(MatrixFault::Workers);
        return Err(EveryChangesFault::from(fault));
    }
    let texts = patterns_of(alloc, lines)?;
    let was = lent_lines(alloc, were, texts.as_slice())?;
    let now = lent_lines(alloc, lines, texts.as_slice())?;
    let action = action_pattern(alloc, &command.action)?;
    let compared = Compared {
        before: Asked {
            world: before,
            lines: was.as_slice(),
            actions: which_of(&action),
        },
        after: Asked {
            world: after,
            lines: now.as_slice(),
            actions: which_of(&action),
        },
    };
    report_on(rt, alloc, command, compared)
}

/// Writes the report that the command asks for, of the worlds and these lines.
fn answer<T: Threads + Sync, W: Write>(
    rt: &T,
    alloc: Global,
    command: &EveryChangesCommand,
    before: &World,
    after: &World,
    lines: &[TextLine],
    were: &[TextLine],
    writer: &mut W,
) -> Result<ChangesTold, EveryChangesFault>
    requires apart_before { AreApart before.now }
    requires apart_after { AreApart after.now }
    requires known { AreKnown after.now (map text_line_of lines.now) }
    requires said { AreLinesBefore before.now after.now (map text_line_of lines.now) (map text_line_of were.now) }
    ensures done { IfOk result (WritesComparison command.now before.now after.now (map text_line_of lines.now) (W.contents writer.old) (W.contents writer.new)) }
    ensures fault { IfErr result (EndsComparisonBy command.now before.now after.now (map text_line_of lines.now) (W.contents writer.old) (W.contents writer.new)) }
{
    let ChangesAnswer { text, told } = report_of(rt, alloc, command, before, after, lines, were)?;
    let mut kept = buffer(alloc)?;
    if write_report(writer, &mut kept, &Report::Whole(text)).is_err() {
        return Err(EveryChangesFault::from(RunFault::Write));
    }
    Ok(told)
}

/// What is said of texts by the lines of the file, of the world after.
fn read_lines<F: Read>(
    alloc: Global,
    after: &World,
    file: &mut F,
) -> Result<Vec<TextLine>, EveryChangesFault>
    ensures ok { IfOk result (λ lines. AreLines (F.remaining file.old) after.now (map text_line_of lines.items)) }
    ensures fault { IfErr result (IsNotRead after.now (F.remaining file.old)) }
    ensures most { ConsumesAtMost (F.remaining file.old) (F.remaining file.new) 8388609 }
{
    let bytes = read_input(alloc, file)?;
    Ok(read_texts(alloc, after, bytes.as_slice())?)
}

/// The fault of a line that can't be said of the world before.
fn fault_before(faulty: FaultyText) -> EveryChangesFault
    ensures { result ≡ fault_before faulty }
{
    match faulty.fault {
        TextFault::OutOfMemory => EveryChangesFault::from(RunFault::OutOfMemory),
        _ => EveryChangesFault::BeforeTexts(faulty),
    }
}

/// What lines of the world after say, said of the world before.
fn known_before(
    alloc: Global,
    before: &World,
    after: &World,
    lines: &[TextLine],
) -> Result<Vec<TextLine>, EveryChangesFault>
    requires known { AreKnown after.now (map text_line_of lines.now) }
    ensures ok { IfOk result (λ were. AreLinesBefore before.now after.now (map text_line_of lines.now) (map text_line_of were.items)) }
    ensures fault { IfErr result (IsUnknownBefore before.now after.now (map text_line_of lines.now)) }
{
    match lines_before(alloc, before, after, lines) {
        Ok(were) => Ok(were),
        Err(faulty) => Err(fault_before(faulty)),
    }
}

/// Reads the lines, and writes the report of them.
fn tell<T: Threads + Sync, F: Read, W: Write>(
    rt: &T,
    alloc: Global,
    command: &EveryChangesCommand,
    before: &World,
    after: &World,
    file: &mut F,
    writer: &mut W,
) -> Result<ChangesTold, EveryChangesFault>
    requires apart_before { AreApart before.now }
    requires apart_after { AreApart after.now }
    ensures done { IfOk result (WritesAll command.now before.now after.now (F.remaining file.old) (W.contents writer.old) (W.contents writer.new)) }
    ensures fault { IfErr result (EndsAllBy command.now before.now after.now (F.remaining file.old) (W.contents writer.old) (W.contents writer.new)) }
    ensures most { ConsumesAtMost (F.remaining file.old) (F.remaining file.new) 8388609 }
{
    let lines = read_lines(alloc, after, file)?;
    let lines = lines.as_slice();
    let were = known_before(alloc, before, after, lines)?;
    answer(
        rt,
        alloc,
        command,
        before,
        after,
        lines,
        were.as_slice(),
        writer,
    )
}

/// Reads two worlds and lines that say something of texts, and writes where the access of principals differs between the worlds, for all
/// names of actions and of resources that the lines speak of; what is told beside the report. The whole report is made before its first
/// byte is written. At most 8,388,609 bytes are read of each input. The first fault in this order ends the run: of the world before
/// `Read`, `Before`, `Twice`; of the world after `Read`, `World`, `Twice`; of the lines `Read`, `LongTexts`, `Texts`, `BeforeTexts`; then
/// `Matrix`, `Kinds`, `Write`. That there is no memory can come at any point before the writing. After every fault except `Write` nothing
/// was written; after `Write` a beginning of the report. After `Before` and `Twice` of the world before, nothing was read of the world
/// after, and after these of either world nothing of the lines.
pub fn run_every_changes<T: Threads + Sync, R: Read, S: Read, F: Read, W: Write>(
    rt: &T,
    alloc: Global,
    command: &EveryChangesCommand,
    before: &mut R,
    after: &mut S,
    file: &mut F,
    writer: &mut W,
) -> Result<ChangesTold, EveryChangesFault>
    ensures most_before { ConsumesAtMost (R.remaining before.old) (R.remaining before.new) 8388609 }
    ensures most_after { ConsumesAtMost (S.remaining after.old) (S.remaining after.new) 8388609 }
    ensures most_lines { ConsumesAtMost (F.remaining file.old) (F.remaining file.new) 8388609 }
    ensures done { IfOk result (HasNamesChanges command.now (R.remaining before.old) (S.remaining after.old) (F.remaining file.old)
        (Appends (W.contents writer.old) (W.contents writer.new))) }
    ensures fault { IfErr result (EndsNamesChangesBy command.now (R.remaining before.old) (S.remaining after.old) (F.remaining file.old)
        (W.contents writer.old) (W.contents writer.new)) }
    ensures unread { IfErr result (λ fault. IsOfNoBefore fault → S.remaining after.new ≡ S.remaining after.old) }
    ensures unread_lines { IfErr result (λ fault. IsOfNoWorlds fault → F.remaining file.new ≡ F.remaining file.old) }
{
    let before = match read_side(alloc, before, Side::Before) {
        Ok(world) => world,
        Err(fault) => return Err(EveryChangesFault::Changes(of_before(fault))),
    };
    let after = match read_side(alloc, after, Side::After) {
        Ok(world) => world,
        Err(fault) => return Err(EveryChangesFault::Changes(fault)),
    };
    let told = tell(rt, alloc, command, &before, &after, file, writer);
    // The run ends soon, as one of a single world.
    mem::forget(before);
    mem::forget(after);
    told
}

/// The kinds of changes that a report has.
fn kinds_of(told: &ChangesTold) -> Kinds
    ensures { result ≡ kinds_of told.now }
{
    Kinds {
        gained: told.gained,
        lost: told.lost,
        differs: false,
    }
}

/// The exit status of a run of two worlds for all names: 0 done, 1 a fault, 3 done with a row of the kind that is asked about, else 5 done
/// with a line that could not be shown, else 4 done with nothing looked at, unless this is allowed.
pub fn every_changes_status(
    outcome: &Result<ChangesTold, EveryChangesFault>,
    fail_on: Option<FailOn>,
    allow_empty: bool,
) -> u8
    ensures { MatchResult outcome.now (λ told. result ≡ (if fails_on fail_on (kinds_of told) then 3
        else (if told.unshown then 5 else (if told.some || allow_empty then 0 else 4)))) (λ _. result ≡ 1) }
{
    match outcome {
        Ok(told) if fails_on(fail_on, kinds_of(told)) => 3,
        Ok(told) if told.unshown => NOT_SHOWN,
        Ok(told) if told.some || allow_empty => 0,
        Ok(_) => NOTHING_ASKED,
        Err(_) => 1,
    }
}
