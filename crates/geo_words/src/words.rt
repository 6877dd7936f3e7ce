//! The words of the command line.
ghost use Rattle.std.specs.Prelude.{◌≡◌, Err, IfOk, map, string_bytes};
ghost use Rattle.clap.specs.Words.{FailsBy, app_of, fault_of, found_of, kind_of, matches_of, rows_of};
ghost use Rattle.geo_words.specs.CommandLine.{comb_command, has_dashes};
ghost use Rattle.geo_words.specs.Fault.{refusal_of};
ghost use Rattle.geo_words.specs.Words.{IsAskedBy, IsTaken};

use clap::error::ErrorKind;
use clap::{Arg, ArgMatches, Command, Error, value_parser};
use geo_gen::MAX_TEETH;
use std::alloc::{AllocError, Global};

/// What a run is asked for.
#[derive(Clone, Copy, Debug, PartialEq, Eq)]
pub enum Asked {
    /// The answers to a script.
    Script,
    /// The comb with this many teeth.
    Comb(u32),
}

/// Why words are refused.
#[derive(Clone, Copy, Debug, PartialEq, Eq)]
pub enum WordsFault {
    /// They ask for nothing.
    Usage,
    /// Memory was wanted.
    Memory,
}

/// What the words of the command line ask for, those after the program's name: none ask for the answers to a script, and
/// `--comb K` or `--comb=K` for the comb of K. Others are refused.
pub fn read_words(alloc: Global, words: &[String]) -> Result<Asked, WordsFault>
    ensures ok { IfOk result (IsAskedBy (map string_bytes words.now)) }
    ensures usage { result ≡ Err WordsFault.Usage → ¬ IsTaken (map string_bytes words.now) }
{
    if has_dashes(words) {
        return Err(WordsFault::Usage);
    }
    let matches = parse(alloc, words)?;
    match matches.get_one::<u32>("comb") {
        Some(k) => Ok(Asked::Comb(k)),
        None => Ok(Asked::Script),
    }
}

// Whether one of the words is `--`, after which the parser would take none for an option.
fn has_dashes(words: &[String]) -> bool
    ensures { result ≡ has_dashes (map string_bytes words.now) }
{
    words.iter().any(|word| word.as_str() == "--")
}

// The options that are used.
fn parse<'a>(alloc: Global, words: &'a [String]) -> Result<ArgMatches<'a>, Error>
    ensures fails { FailsBy (fault_of comb_command (map string_bytes words.now)) result }
    ensures matches { IfOk result (λ m. rows_of (found_of m) ≡ matches_of comb_command (map string_bytes words.now)) }
{
    comb_command(alloc)?.try_get_matches_from(words)
}

// One option `--comb`, and neither `--help` nor `--version`.
fn comb_command<'a>(alloc: Global) -> Result<Command<'a>, AllocError>
    ensures { IfOk result (λ command. app_of command ≡ comb_command) }
{
    let comb = Arg::new(alloc, "comb")
        .long("comb")
        .value_parser(value_parser!(u32).range(1..i64::from(MAX_TEETH) + 1));
    Command::new(alloc, "geo")
        .no_binary_name(true)
        .disable_help_flag(true)
        .disable_version_flag(true)
        .arg(comb)
}

impl From<Error> for WordsFault {
    ghost from_gives = { λ error fault. fault ≡ refusal_of (kind_of error) };

    fn from(error: Error) -> WordsFault {
        match error.kind() {
            ErrorKind::OutOfMemory => WordsFault::Memory,
            _ => WordsFault::Usage,
        }
    }
}
