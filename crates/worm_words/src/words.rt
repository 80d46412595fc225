//! The words of the command line of `wormrun`.

ghost use Rattle.clap.specs.Words.{app_of, fault_of, found_of, kind_of, matches_of, rows_of, rule_of, takes};
ghost use Rattle.clap.specs.Walk.{texts};
ghost use Rattle.std.specs.IoError.{error_kind};
ghost use Rattle.std.specs.Prelude.{◌≡◌, ◌<◌, [], length, true, false, IfOk, IfErr, OnOk};
ghost use Rattle.worm_words.specs.Commands.{command, file, number, IsComplete, IsRefused, Say};
ghost use Rattle.worm_words.specs.Faults.{parser_fault, list_fault, IsNoList, IsNoCommand};
ghost use Rattle.worm_words.specs.Ranges.{InRange};

use crate::named::Named;
use clap::builder::ValueParser;
use clap::error::ErrorKind;
use clap::{Arg, ArgAction, ArgMatches, Command, Error, value_parser};
use std::alloc::{AllocError, Global};
use std::io;
use std::rt::Env;

/// How to run.
#[derive(Clone, Copy, PartialEq, Eq, Debug)]
pub struct Options {
    /// How many turns to take with the traffic, 0 to 1,000,000.
    pub turns: u64,
    /// How many threads take turns, 1 to 16.
    pub workers: usize,
    /// How many turns more to take at most until nothing is under way, 0 to 1,000,000.
    pub drain: u64,
}

/// What the words of the command line say.
#[derive(Drop, Debug)]
pub struct Words<'a> {
    /// The file of the network text.
    pub network: &'a str,
    /// The file of the traffic text.
    pub traffic: &'a str,
    /// How to run them.
    pub options: Options,
}

/// Why the words were not read.
#[derive(Drop, Debug)]
pub enum WordsFault {
    /// They are not those that the program knows, or a number is out of its range.
    Words(Error),
    /// There was no memory.
    NoMemory,
    /// One of them is not UTF-8.
    NotText,
}

impl From<AllocError> for WordsFault {
    ghost use Rattle.worm_words.specs.declared.words.WordsFault.TheVariants.{NoMemory};

    ghost from_gives = { λ _ fault. fault ≡ NoMemory };

    fn from(_error: AllocError) -> WordsFault {
        WordsFault::NoMemory
    }
}

impl From<Error> for WordsFault {
    ghost from_gives = { λ error fault. fault ≡ parser_fault (kind_of error) error };

    fn from(error: Error) -> WordsFault {
        match error.kind() {
            ErrorKind::OutOfMemory => WordsFault::NoMemory,
            _ => WordsFault::Words(error),
        }
    }
}

impl From<io::Error> for WordsFault {
    ghost from_gives = { λ error fault. fault ≡ list_fault (error_kind error) };

    fn from(error: io::Error) -> WordsFault {
        match error.kind() {
            io::ErrorKind::OutOfMemory => WordsFault::NoMemory,
            _ => WordsFault::NotText,
        }
    }
}

/// The words of the command line after the name `wormrun`, whatever the system calls the program. `NotText` where one
/// is not UTF-8, `NoMemory` where there is none for the list.
pub fn all_words<R: Env + AllocGlobal>(rt: &R) -> Result<Vec<String>, WordsFault>
    ensures { IfErr result IsNoList }
{
    let named = (Named::new(rt, "wormrun"), rt.alloc());
    let words = std::env::args(&named)?.collect::<Vec<String>>(rt.alloc())?;
    Ok(words)
}

fn file<'a>(alloc: Global, name: &'a str) -> Arg<'a>
    ensures rule { rule_of result ≡ file name.entry.now }
    ensures local { result.global ≡ false }
{
    Arg::new(alloc, name).required(true).action(ArgAction::Set)
}

fn number<'a>(alloc: Global, name: &'a str, range: ValueParser<'a>) -> Arg<'a>
    ensures rule { rule_of result ≡ number name.entry.now range.entry }
    ensures local { result.global ≡ false }
{
    Arg::new(alloc, name)
        .long(name)
        .action(ArgAction::Set)
        .value_parser(range)
}

fn command<'a>(alloc: Global) -> Result<Command<'a>, AllocError>
    ensures { IfOk result (λ c. app_of c ≡ command) }
{
    let turns = number(alloc, "turns", value_parser!(u64).range(0..=1_000_000));
    let workers = number(alloc, "workers", value_parser!(usize).range(1..=16));
    let drain = number(alloc, "drain", value_parser!(u64).range(0..=1_000_000));
    Command::new(alloc, "wormrun")
        .disable_help_flag(true)
        .disable_version_flag(true)
        .arg(file(alloc, "NETWORK"))?
        .arg(file(alloc, "TRAFFIC"))?
        .arg(turns.required(true))?
        .arg(workers.default_value("1"))?
        .arg(drain.default_value("0"))
}

fn words_in<'a>(matches: &ArgMatches<'a>) -> Words<'a>
    requires { IsComplete (rows_of (found_of matches.now)) }
    ensures said { Say (rows_of (found_of matches.now)) result }
    ensures range { InRange result.options }
{
    Words {
        network: matches.get_str("NETWORK").unwrap(),
        traffic: matches.get_str("TRAFFIC").unwrap(),
        options: Options {
            turns: matches.get_one("turns").unwrap(),
            workers: matches.get_one("workers").unwrap(),
            drain: matches.get_one("drain").unwrap(),
        },
    }
}

/// Reads the words, the program's name first: `NETWORK TRAFFIC --turns T [--workers W] [--drain M]`, in any order.
/// `Words` where one is unknown, missing or out of its range; `NoMemory` where there is none for the parser.
pub fn read_words<'a>(alloc: Global, words: &'a [&'a str]) -> Result<Words<'a>, WordsFault>
    requires { 0 < length words.now }
    ensures said { IfOk result (Say (matches_of command (texts words.now))) }
    ensures ok { IfOk result (λ w. InRange w.options) }
    ensures faultless { OnOk result (fault_of command (texts words.now) ≡ []) }
    ensures err { IfErr result IsNoCommand }
    ensures refused { IfErr result (IsRefused (fault_of command (texts words.now))) }
    ensures taken { IfErr result
        (λ fault. takes command (texts words.now) ≡ true → fault ≡ WordsFault.NoMemory) }
{
    let matches = command(alloc)?.try_get_matches_from(words)?;
    Ok(words_in(&matches))
}
