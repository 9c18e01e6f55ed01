// What a command line may hold: the commands, and the options of each.
use clap::{Arg, ArgAction, Command as Parser, value_parser};
use std::alloc::{AllocError, Global};

/// The version that `--version` tells.
const VERSION: &str = "0.1.0";

const ABOUT: &str =
    "Answers who may do what in AWS, from policy documents alone, before they are put in force.
The world comes on standard input: one JSON document with the accounts, the principals, the
actions, the resources and their policies. The answer goes to standard output.";

const INPUT: &str = "The world comes on standard input, as in: iamsim check < world.json";

/// The formats of a report.
static FORMATS: [&str; 2] = ["csv", "json"];

/// The parser of command lines whose world comes on standard input.
pub fn iamsim<'a>(alloc: Global) -> Result<Parser<'a>, AllocError> {
    let parser = with(named(alloc, ABOUT), Ok(check(alloc)));
    let parser = with(parser, decide(alloc));
    let parser = with(parser, matrix(alloc));
    with(parser, first(alloc))
}

/// The parser with this command too.
pub fn with<'a>(
    parser: Result<Parser<'a>, AllocError>,
    command: Result<Parser<'a>, AllocError>,
) -> Result<Parser<'a>, AllocError> {
    match parser {
        Ok(parser) => parser.subcommand(command?),
        Err(refused) => Err(refused),
    }
}

/// The parser without its commands.
pub fn named<'a>(alloc: Global, about: &'static str) -> Result<Parser<'a>, AllocError> {
    Parser::new(alloc, "iamsim")
        .no_binary_name(true)
        .version(VERSION)
        .about(about)
        .subcommand_required(true)
        .bin_name("iamsim")
}

/// A command that reads a world.
fn reading<'a>(alloc: Global, name: &'static str, about: &'static str) -> Parser<'a> {
    Parser::new(alloc, name).about(about).after_help(INPUT)
}

pub fn check<'a>(alloc: Global) -> Parser<'a> {
    reading(alloc, "check", "Read the world, and count what it has")
}

pub fn decide<'a>(alloc: Global) -> Result<Parser<'a>, AllocError> {
    let about = "Decide one request: may principal P do action A on resource R?";
    reading(alloc, "decide", about)
        .arg(number(alloc, "P", "The principal's number in the world, from 0"))?
        .arg(number(alloc, "A", "The action's number in the world, from 0"))?
        .arg(number(alloc, "R", "The resource's number in the world, from 0"))
}

pub fn matrix<'a>(alloc: Global) -> Result<Parser<'a>, AllocError> {
    run(alloc, "matrix", "Decide all requests, and report each")?
        .arg(format(alloc))?
        .arg(brief(alloc))
}

pub fn first<'a>(alloc: Global) -> Result<Parser<'a>, AllocError> {
    run(
        alloc,
        "first",
        "Find the first request that is allowed, in the order of the matrix",
    )
}

/// A command that decides many requests.
pub fn run<'a>(
    alloc: Global,
    name: &'static str,
    about: &'static str,
) -> Result<Parser<'a>, AllocError> {
    working(alloc, name, about)?.arg(tile(alloc))
}

/// A command with workers.
pub fn working<'a>(
    alloc: Global,
    name: &'static str,
    about: &'static str,
) -> Result<Parser<'a>, AllocError> {
    reading(alloc, name, about).arg(workers(alloc))
}

fn workers<'a>(alloc: Global) -> Arg<'a> {
    Arg::new(alloc, "workers")
        .long("workers")
        .value_name("N")
        .value_parser(value_parser!(u32))
        .default_value("4")
        .help("How many threads decide, from 1 to 64")
}

fn tile<'a>(alloc: Global) -> Arg<'a> {
    Arg::new(alloc, "tile")
        .long("tile")
        .value_name("N")
        .value_parser(value_parser!(u64))
        .help("How many requests a thread takes at once [default: 1/256 of all, rounded up]")
}

pub fn format<'a>(alloc: Global) -> Arg<'a> {
    Arg::new(alloc, "format")
        .long("format")
        .value_name("FORMAT")
        .value_parser(FORMATS.as_slice())
        .default_value("csv")
        .help("The format of the report")
}

pub fn brief<'a>(alloc: Global) -> Arg<'a> {
    Arg::new(alloc, "brief")
        .long("brief")
        .action(ArgAction::SetTrue)
        .help("Report the decisions alone, without statements and lacks")
}

fn number<'a>(alloc: Global, name: &'static str, help: &'static str) -> Arg<'a> {
    Arg::new(alloc, name)
        .required(true)
        .value_parser(value_parser!(u64))
        .help(help)
}
