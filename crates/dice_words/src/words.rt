//! Which command the words of the command line name.
ghost use Rattle.std.specs.Prelude.{◌≡◌, false, IfOk, IfErr, IsErrOf, IsSomeAnd, codes, map};
ghost use Rattle.clap.specs.declared.builder.command.Command.{out-Command};
ghost use Rattle.clap.specs.Words.{app_of, found_of, kind_of, rows_of, rule_of, subcommand_rows_of};
ghost use Rattle.dice_words.specs.Accepted.{bulk, dice, dice_alone, run, targets, trace, workers, IsAccepted, Asks, HasBulk, HasRun, IsComplete, IsOf, IsWithin};

use clap::error::ErrorKind;
use clap::{ArgAction, ArgMatches, value_parser};
use std::alloc::{AllocError, Global};
use std::error::Error;
use std::fmt;

/// What the program is told to do.
#[derive(Clone, Copy, Debug, PartialEq, Eq, Drop)]
pub enum Command {
    /// Reads a script from standard input and runs it.
    Run {
        /// How many workers help the driver, from 0 to 64.
        workers: u32,
        /// Whether the journal of the run follows the output.
        trace: bool,
    },
    /// Makes a script of many requests by itself and runs it.
    Bulk {
        /// How many targets the script is about, from 1 to 10,000.
        targets: u32,
        /// How many workers help the driver, from 0 to 64.
        workers: u32,
    },
}

/// Why the words name no command: they are refused, a call for help among them, or memory was.
#[derive(Clone, Copy, Debug, PartialEq, Eq, Drop)]
pub enum WordsFail {
    /// The words name no command.
    Refused,
    /// Memory was refused.
    NoMemory,
}

impl fmt::Display for WordsFail {
    ghost use Rattle.std.specs.Prelude.{Some};
    ghost use Rattle.dice_words.specs.Faults.{words_fail_text};

    ghost output = { λ fail. Some (words_fail_text fail) };

    fn fmt<W: fmt::Write>(&self, f: &mut fmt::Formatter<W>) -> fmt::Result {
        f.write_str(match self {
            WordsFail::Refused => "words refused",
            WordsFail::NoMemory => "no memory",
        })
    }
}

impl Error for WordsFail {}

impl From<AllocError> for WordsFail {
    ghost use Rattle.std.specs.Prelude.{◌≡◌};
    ghost use Rattle.dice_words.specs.declared.words.WordsFail.TheVariants as fail;

    ghost from_gives = { λ _ e. e ≡ fail.NoMemory };

    fn from(_error: AllocError) -> WordsFail {
        WordsFail::NoMemory
    }
}

impl From<clap::Error> for WordsFail {
    ghost use Rattle.std.specs.Prelude.{◌≡◌, ◌↔◌};
    ghost use Rattle.clap.specs.Words.{kind_of};
    ghost use Rattle.clap.specs.declared.error.ErrorKind.TheVariants as kind;
    ghost use Rattle.dice_words.specs.declared.words.WordsFail.TheVariants as fail;

    ghost from_gives = { λ error e. (e ≡ fail.NoMemory) ↔ (kind_of error ≡ kind.OutOfMemory) };

    fn from(error: clap::Error) -> WordsFail {
        match error.kind() {
            ErrorKind::OutOfMemory => WordsFail::NoMemory,
            _ => WordsFail::Refused,
        }
    }
}

// `--workers W`: a number from 0 to 64, and 4 if it is left out.
fn workers_option<'a>(alloc: Global) -> clap::Arg<'a>
    ensures rule { rule_of result ≡ workers }
    ensures local { result.global ≡ false }
{
    clap::Arg::new(alloc, "workers")
        .long("workers")
        .value_name("W")
        .value_parser(value_parser!(u32).range(0..=64))
        .default_value("4")
        .help("How many workers help the driver, from 0 to 64")
}

// `--trace`: a flag.
fn trace_flag<'a>(alloc: Global) -> clap::Arg<'a>
    ensures rule { rule_of result ≡ trace }
    ensures local { result.global ≡ false }
{
    clap::Arg::new(alloc, "trace")
        .long("trace")
        .action(ArgAction::SetTrue)
        .help("Writes the journal of the run behind the output")
}

// `N`: a number from 1 to 10,000, which must be given.
fn targets_argument<'a>(alloc: Global) -> clap::Arg<'a>
    ensures rule { rule_of result ≡ targets }
    ensures local { result.global ≡ false }
{
    clap::Arg::new(alloc, "targets")
        .value_name("N")
        .value_parser(value_parser!(u32).range(1..=10_000))
        .required(true)
        .help("How many targets the script is about, from 1 to 10000")
}

// `dice run`.
fn run_command<'a>(alloc: Global) -> Result<clap::Command<'a>, AllocError>
    ensures shape { IfOk result (λ c. app_of c ≡ run) }
    ensures local { IfOk result (λ c. (out-Command c).has_globals ≡ false) }
{
    clap::Command::new(alloc, "run")
        .about("Reads a script from standard input and writes what it asks for")
        .arg(workers_option(alloc))?
        .arg(trace_flag(alloc))
}

// `dice bulk`.
fn bulk_command<'a>(alloc: Global) -> Result<clap::Command<'a>, AllocError>
    ensures shape { IfOk result (λ c. app_of c ≡ bulk) }
    ensures local { IfOk result (λ c. (out-Command c).has_globals ≡ false) }
{
    clap::Command::new(alloc, "bulk")
        .about("Makes a script of many requests, runs it and writes a summary")
        .arg(targets_argument(alloc))?
        .arg(workers_option(alloc))
}

// `dice` without its subcommands, of which one is required.
fn dice_command<'a>(alloc: Global) -> clap::Command<'a>
    ensures shape { app_of result ≡ dice_alone }
    ensures local { (out-Command result).has_globals ≡ false }
{
    clap::Command::new(alloc, "dice")
        .about("Builds targets incrementally")
        .subcommand_required(true)
        .disable_help_subcommand(true)
}

// The command line of the program: `dice` with its two subcommands.
fn command_line<'a>(alloc: Global) -> Result<clap::Command<'a>, AllocError>
    ensures { IfOk result (λ c. app_of c ≡ dice) }
{
    let run = run_command(alloc)?;
    let bulk = bulk_command(alloc)?;
    dice_command(alloc).subcommand(run)?.subcommand(bulk)
}

// `dice run` by its matches.
fn run_of(matches: &ArgMatches) -> Option<Command>
    ensures { HasRun (rows_of (found_of matches.now))
        → IsSomeAnd result
        (λ c. IsOf c (codes "run", rows_of (found_of matches.now)) × IsWithin c) }
{
    let workers = matches.get_one::<u32>("workers")?;
    let trace = matches.get_flag("trace");
    Some(Command::Run { workers, trace })
}

// `dice bulk` by its matches.
fn bulk_of(matches: &ArgMatches) -> Option<Command>
    ensures { HasBulk (rows_of (found_of matches.now))
        → IsSomeAnd result
        (λ c. IsOf c (codes "bulk", rows_of (found_of matches.now)) × IsWithin c) }
{
    let targets = matches.get_one::<u32>("targets")?;
    let workers = matches.get_one::<u32>("workers")?;
    Some(Command::Bulk { targets, workers })
}

// What the matches ask for, if each argument has what its rule wants.
fn asked(matches: &ArgMatches) -> Option<Command>
    ensures { IsSomeAnd (subcommand_rows_of matches.now) IsComplete
        → IsSomeAnd result (λ c. IsSomeAnd (subcommand_rows_of matches.now) (IsOf c) × IsWithin c) }
{
    match matches.subcommand_matches("run") {
        Some(run) => run_of(run),
        None => bulk_of(matches.subcommand_matches("bulk")?),
    }
}

/// Reads the words, of which the first is the program's name.
///
/// `Refused` comes exactly if `clap` refuses the words for a cause other than memory. A number
/// is what `clap` takes for one: a plus or zeros may stand before its digits.
pub fn read_words(alloc: Global, words: &[&str]) -> Result<Command, WordsFail>
    ensures accepted { IfOk result (λ c. IsAccepted (map (λ w. w.now) words.now)) }
    ensures named { IfOk result (λ c. Asks (map (λ w. w.now) words.now) c) }
    ensures within { IfOk result IsWithin }
    ensures refused { IsErrOf result WordsFail.Refused → IsAccepted (map (λ w. w.now) words.now)
        → ⊥ }
{
    let matches = command_line(alloc)?.try_get_matches_from(words)?;
    asked(&matches).ok_or(WordsFail::Refused)
}
