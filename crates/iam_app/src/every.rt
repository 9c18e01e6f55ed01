// A run about all names, by the keys that are given, or whatever values the others have: the world and the lines are read, the report is
// made and written.
ghost use Rattle.std.specs.Prelude.{◌≡◌, ◌↔◌, ◌<◌, ◌∷◌, [], ◌||◌, All, chars, IfErr, IfOk, IsTrue, MatchResult, codes, if◌then◌else◌, length, map, option_map, string_bytes, unwrap_or};
ghost use Rattle.std.specs.Io.KnownBytes.{Appends};
ghost use Rattle.std.specs.List.{AllZip};
ghost use Rattle.iam_glob.specs.Glob.{Matches};
ghost use Rattle.iam_asked.specs.TextLines.{said_value, text_line_of};
ghost use Rattle.iam_every.specs.Every.{AreThere, every_of, line_of, pattern_in, written_in};
ghost use Rattle.iam_every.specs.declared.report.EveryFault.TheVariants as e;
ghost use Rattle.iam_matrix.specs.Workers.{IsUnlawful};
ghost use Rattle.iam_selection.specs.Selection.{IsMeant, pattern_of};
ghost use Rattle.iam_app.specs.AnyKeyNames.{IsAnyKeyNames, IsLongAnyKey};
ghost use Rattle.iam_app.specs.Code.Naming.{AreKnown, EndsLinesBy, EndsReportBy, IsNoLine, IsNoLines, IsLent, IsNoReport, IsNoReportOf, NamesAll, OfAsked, WritesNames, patterns_of, told_of};
ghost use Rattle.iam_app.specs.Names.{ArePrincipalsMeant, AreSaid, EndsNamesBy, HasNamesOutput, IsAskedOf, IsGivenNames, IsLineOf, IsLongGiven, IsNamesReport, IsOfNoWorld, IsOneLine, IsUnnamedOf, ReadsOfFile};
ghost use Rattle.iam_app.specs.Streams.{ConsumesAtMost};

use crate::OutOfMemory;
use crate::any_key::words;
use crate::ask::read_world;
use crate::cells::format_in;
use crate::command::NOTHING_ASKED;
use crate::fault::RunFault;
use crate::input::read_input;
use crate::names_fault::NamesFault;
use crate::output::write_names;
use crate::selected::{decisions, patterns};
use iam_asked::{FaultyText, SaidOf, TextLine, check_said, read_texts};
use iam_every::{Asked, EveryAnswer, EveryFault, Line, Which, every_report};
use iam_layers::{Unnamed, World};
use iam_matrix::{MatrixFault, Open, is_unlawful};
use iam_open_every::open_every_report;
use iam_options::{EveryCommand, Texts};
use iam_report::buffer;
use iam_selection::pattern_of;
use iam_text::Glob;
use std::alloc::Global;
use std::io::{Read, Write};
use std::mem;
use std::thread::Threads;

/// The exit status of a run in which a line could not be shown.
pub const NOT_SHOWN: u8 = 5;

/// What is told beside a report on all names.
#[derive(Clone, Copy, Debug, PartialEq, Eq)]
pub struct Told {
    /// Whether something was asked about: whether there are rows, whatever their decisions.
    pub some: bool,
    /// Whether a line could not be shown for a principal.
    pub unshown: bool,
}

/// This line alone.
fn list_of(alloc: Global, line: TextLine) -> Result<Vec<TextLine>, OutOfMemory>
    ensures { IfOk result (λ lines. lines.items ≡ line ∷ []) }
{
    let mut lines = Vec::with_capacity(alloc, 1)?;
    lines.push(line)?;
    Ok(lines)
}

/// The one line that says this of the texts that the pattern matches.
fn one_line(
    alloc: Global,
    world: &World,
    pattern: &str,
    said: SaidOf,
) -> Result<Vec<TextLine>, NamesFault>
    ensures ok { IfOk result (λ lines. IsOneLine world.now pattern.now (said_value said) (map text_line_of lines.items)) }
    ensures fault { IfErr result (IsNoLine world.now (said_value said)) }
{
    if let Err(fault) = check_said(world, &said) {
        return Err(NamesFault::Texts(FaultyText { line: 0, fault }));
    }
    let pattern = String::from_str(alloc, pattern)?;
    Ok(list_of(alloc, TextLine { pattern, said })?)
}

/// What is said of texts: by the lines of a file, or by the one of the command line.
fn lines_in<S: Read>(
    alloc: Global,
    texts: &Texts,
    world: &World,
    file: &mut S,
) -> Result<Vec<TextLine>, NamesFault>
    ensures ok { IfOk result (λ lines. AreSaid texts.now (S.remaining file.old) world.now (map text_line_of lines.items)) }
    ensures fault { IfErr result (IsNoLines texts.now (S.remaining file.old) world.now) }
    ensures most { ReadsOfFile texts.now (S.remaining file.old) (S.remaining file.new) }
{
    match texts {
        Texts::File(_) => {
            let bytes = read_input(alloc, file)?;
            Ok(read_texts(alloc, world, bytes.as_slice())?)
        }
        Texts::Like(pattern, number) => {
            one_line(alloc, world, pattern.as_str(), SaidOf::Like(*number))
        }
        Texts::Account(pattern, id) => {
            let said = SaidOf::Account(String::from_str(alloc, id.as_str())?);
            one_line(alloc, world, pattern.as_str(), said)
        }
    }
}

/// The patterns of lines.
pub fn patterns_of(alloc: Global, lines: &[TextLine]) -> Result<Vec<Glob>, OutOfMemory>
    ensures { IfOk result (λ patterns. patterns.items ≡ patterns_of lines.now) }
{
    let mut patterns = Vec::with_capacity(alloc, lines.len())?;
    for line in lines {
        patterns.push(pattern_of(alloc, line.pattern.as_str())?)?;
    }
    Ok(patterns)
}

/// What a line says of texts, lent.
fn lent(said: &SaidOf) -> Unnamed<'_>
    ensures { IsUnnamedOf (said_value said.entry.now) result }
{
    match said {
        SaidOf::Like(number) => Unnamed::Like(*number),
        SaidOf::Account(id) => Unnamed::Of(id.as_str()),
    }
}

/// A line with its pattern, lent.
fn lent_line<'a>(line: &'a TextLine, pattern: &'a Glob) -> Line<'a>
    requires { pattern.now ≡ pattern_of (string_bytes line.now.pattern) }
    ensures { IsLineOf (text_line_of line.entry.now) (line_of result) }
{
    Line {
        pattern,
        text: line.pattern.as_str(),
        unnamed: lent(&line.said),
    }
}

/// Lines with their patterns, lent.
pub fn lent_lines<'a>(
    alloc: Global,
    lines: &'a [TextLine],
    patterns: &'a [Glob],
) -> Result<Vec<Line<'a>>, OutOfMemory>
    requires { patterns.now ≡ patterns_of lines.now }
    ensures { IfOk result (λ lent. AllZip IsLent lines.entry.now lent.items) }
{
    let mut lent = Vec::with_capacity(alloc, lines.len())?;
    for i in 0..lines.len() {
        lent.push(lent_line(&lines[i], &patterns[i]))?;
    }
    Ok(lent)
}

/// Whether the principal's text matches one of the patterns, where there are any.
pub fn is_meant(patterns: &[Glob], text: &str) -> bool
    ensures { IsTrue result ↔ IsMeant (λ pattern. Matches pattern (chars text.now)) patterns.now }
{
    patterns.is_empty() || patterns.iter().any(|pattern| pattern.matches(text))
}

/// The principals that are meant.
fn principals_of(alloc: Global, world: &World, patterns: &[Glob]) -> Result<Vec<u64>, OutOfMemory>
    ensures meant { IfOk result (λ principals. ArePrincipalsMeant patterns.now world.now principals.items) }
    ensures known { IfOk result (λ principals. All (λ p. p < length world.now.principals) principals.items) }
{
    let mut principals = Vec::new(alloc);
    for p in 0..world.principals() {
        if is_meant(patterns, world.principal_text(p)) {
            principals.push(p)?;
        }
    }
    Ok(principals)
}

/// The pattern of the actions that are asked about, and how it is written, if there is one.
pub fn action_pattern<'a>(
    alloc: Global,
    action: &'a Option<String>,
) -> Result<Option<(Glob, &'a str)>, OutOfMemory>
    ensures pattern { IfOk result (λ read. option_map (λ it. it.0) read ≡ option_map (λ text. pattern_of (string_bytes text)) action.entry.now) }
    ensures text { IfOk result (λ read. option_map (λ it. it.1.now) read ≡ option_map string_bytes action.entry.now) }
{
    match action {
        Some(text) => {
            let text = text.as_str();
            Ok(Some((pattern_of(alloc, text)?, text)))
        }
        None => Ok(None),
    }
}

/// The actions that are asked about: those that match this pattern, which is written so; or those of the world.
pub fn which_of<'a>(action: &'a Option<(Glob, &'a str)>) -> Which<'a>
    ensures pattern { pattern_in result ≡ option_map (λ it. it.0) action.entry.now }
    ensures text { written_in result ≡ unwrap_or (option_map (λ it. it.1.now) action.entry.now) (codes "*") }
{
    match action {
        Some((pattern, text)) => Which::Matching(pattern, text),
        None => Which::OfWorld,
    }
}

/// The report of these principals, by the keys that are given.
fn given_report<T: Threads + Sync>(
    rt: &T,
    alloc: Global,
    command: &EveryCommand,
    asked: Asked<'_>,
    principals: &[u64],
) -> Result<EveryAnswer, EveryFault>
    requires principals { All (λ p. p < length asked.world.now.principals) principals.now }
    requires there { AreThere (every_of asked) }
    requires workers { ¬ IsUnlawful command.now.options.workers }
    ensures ok { IfOk result (λ answer. IsGivenNames command.now (every_of asked.entry) principals.now answer.text (told_of answer)) }
    ensures many { IfErr result (λ fault. fault ≡ e.TooMany → IsLongGiven command.now (every_of asked.entry) principals.now) }
{
    let decisions = decisions(alloc, command.decisions.as_slice())?;
    let answer = every_report(
        rt,
        alloc,
        asked,
        principals,
        decisions.as_slice(),
        command.options.workers,
        &Open,
        format_in(command.options.json),
        command.options.brief,
    )?;
    Ok(answer)
}

/// The report of these principals, whatever values the keys have that nothing gives.
fn any_key_report<T: Threads + Sync>(
    rt: &T,
    alloc: Global,
    command: &EveryCommand,
    asked: Asked<'_>,
    principals: &[u64],
) -> Result<EveryAnswer, EveryFault>
    requires principals { All (λ p. p < length asked.world.now.principals) principals.now }
    requires there { AreThere (every_of asked) }
    requires workers { ¬ IsUnlawful command.now.options.workers }
    ensures ok { IfOk result (λ answer. IsAnyKeyNames command.now (every_of asked.entry) principals.now answer.text (told_of answer)) }
    ensures many { IfErr result (λ fault. fault ≡ e.TooMany → IsLongAnyKey command.now (every_of asked.entry) principals.now) }
{
    let words = words(alloc, command.decisions.as_slice())?;
    let answer = open_every_report(
        rt,
        alloc,
        asked,
        principals,
        words.as_slice(),
        command.options.workers,
        &Open,
        format_in(command.options.json),
        command.options.brief,
    )?;
    Ok(answer)
}

/// The report that the command asks for, of this.
fn report_on<T: Threads + Sync>(
    rt: &T,
    alloc: Global,
    command: &EveryCommand,
    asked: Asked<'_>,
) -> Result<EveryAnswer, NamesFault>
    requires there { AreThere (every_of asked) }
    requires workers { ¬ IsUnlawful command.now.options.workers }
    ensures ok { IfOk result (λ answer. IsNamesReport command.now (every_of asked.entry) answer.text (told_of answer)) }
    ensures fault { IfErr result (IsNoReportOf command.now (every_of asked.entry)) }
{
    let meant = patterns(alloc, command.principals.as_slice())?;
    let principals = principals_of(alloc, asked.world, meant.as_slice())?;
    if command.any_key {
        return Ok(any_key_report(rt, alloc, command, asked, principals.as_slice())?);
    }
    Ok(given_report(rt, alloc, command, asked, principals.as_slice())?)
}

/// The report that the command asks for, of the world and these lines.
fn report_of<T: Threads + Sync>(
    rt: &T,
    alloc: Global,
    command: &EveryCommand,
    world: &World,
    lines: &[TextLine],
) -> Result<EveryAnswer, NamesFault>
    requires known { AreKnown world.now (map text_line_of lines.now) }
    ensures ok { IfOk result (λ answer. OfAsked command.now world.now (map text_line_of lines.now)
        (λ every. IsNamesReport command.now every answer.text (told_of answer))) }
    ensures fault { IfErr result (IsNoReport command.now world.now (map text_line_of lines.now)) }
{
    if is_unlawful(command.options.workers) {
        return Err(NamesFault::Run(RunFault::Matrix(MatrixFault::Workers)));
    }
    let texts = patterns_of(alloc, lines)?;
    let lent = lent_lines(alloc, lines, texts.as_slice())?;
    let action = action_pattern(alloc, &command.action)?;
    let asked = Asked {
        world,
        lines: lent.as_slice(),
        actions: which_of(&action),
    };
    report_on(rt, alloc, command, asked)
}

/// Writes the report that the command asks for, of the world and these lines.
fn answer<T: Threads + Sync, W: Write>(
    rt: &T,
    alloc: Global,
    command: &EveryCommand,
    world: &World,
    lines: &[TextLine],
    writer: &mut W,
) -> Result<Told, NamesFault>
    requires known { AreKnown world.now (map text_line_of lines.now) }
    ensures done { IfOk result (WritesNames command.now world.now (map text_line_of lines.now) (W.contents writer.old) (W.contents writer.new)) }
    ensures fault { IfErr result (EndsReportBy command.now world.now (map text_line_of lines.now) (W.contents writer.old) (W.contents writer.new)) }
{
    let answer = report_of(rt, alloc, command, world, lines)?;
    let mut kept = buffer(alloc)?;
    if write_names(writer, &mut kept, &answer.text).is_err() {
        return Err(NamesFault::Run(RunFault::Write));
    }
    Ok(Told {
        some: answer.some,
        unshown: answer.unshown,
    })
}

/// Reads the lines, and writes the report of them.
fn tell<T: Threads + Sync, S: Read, W: Write>(
    rt: &T,
    alloc: Global,
    command: &EveryCommand,
    world: &World,
    file: &mut S,
    writer: &mut W,
) -> Result<Told, NamesFault>
    ensures done { IfOk result (NamesAll command.now world.now (S.remaining file.old) (W.contents writer.old) (W.contents writer.new)) }
    ensures fault { IfErr result (EndsLinesBy command.now world.now (S.remaining file.old) (W.contents writer.old) (W.contents writer.new)) }
    ensures most { ReadsOfFile command.now.texts (S.remaining file.old) (S.remaining file.new) }
{
    let lines = lines_in(alloc, &command.texts, world, file)?;
    answer(rt, alloc, command, world, lines.as_slice(), writer)
}

/// Reads a world and lines that say something of texts, where a file has them, and writes the report on all names that they speak of: of
/// each principal that is asked for, and each action, the resources of the world and one text of each kind that decisions tell apart, by
/// the keys that are given, or whatever values the others have; and whether there are rows, and whether a line could not be shown. The
/// whole report is made before its first byte is written. At most 8,388,609 bytes are read of the world, and of the lines. The first
/// fault in this order ends the run: of the world `Read`, `World`; of the lines `Read`, `Texts`; then `Matrix`, `Kinds`, `Write`. That
/// there is no memory can come at any point before the writing. After every fault except `Write` nothing was written; after `Write` a
/// beginning of the report. After `World`, and where the command line has the line, nothing is read of the file.
pub fn run_every<T: Threads + Sync, R: Read, S: Read, W: Write>(
    rt: &T,
    alloc: Global,
    command: &EveryCommand,
    input: &mut R,
    file: &mut S,
    writer: &mut W,
) -> Result<Told, NamesFault>
    ensures most { ConsumesAtMost (R.remaining input.old) (R.remaining input.new) 8388609 }
    ensures most_lines { ReadsOfFile command.now.texts (S.remaining file.old) (S.remaining file.new) }
    ensures done { IfOk result (HasNamesOutput command.now (R.remaining input.old) (S.remaining file.old) (Appends (W.contents writer.old) (W.contents writer.new))) }
    ensures fault { IfErr result (EndsNamesBy command.now (R.remaining input.old) (S.remaining file.old) (W.contents writer.old) (W.contents writer.new)) }
    ensures unread { IfErr result (λ fault. IsOfNoWorld fault → S.remaining file.new ≡ S.remaining file.old) }
{
    let world = read_world(alloc, input)?;
    let told = tell(rt, alloc, command, &world, file, writer);
    // The run ends soon, as one of all cells.
    mem::forget(world);
    told
}

/// The exit status of a run about all names: 0 done, 1 a fault, 5 done with a line that could not be shown, 4 done with no row whatever
/// the decisions, unless this is allowed.
pub fn every_status(outcome: &Result<Told, NamesFault>, allow_empty: bool) -> u8
    ensures { MatchResult outcome.now (λ told. result ≡ (if told.unshown then 5 else (if told.some || allow_empty then 0 else 4))) (λ _. result ≡ 1) }
{
    match outcome {
        Ok(told) if told.unshown => NOT_SHOWN,
        Ok(told) if told.some || allow_empty => 0,
        Ok(_) => NOTHING_ASKED,
        Err(_) => 1,
    }
}
