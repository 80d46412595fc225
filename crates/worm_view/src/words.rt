//! The words of the command line.

ghost use Rattle.clap.specs.Words.{app_of, fault_of, first_of, found_of, kind_of, matches_of, rows_of, rule_of};
ghost use Rattle.clap.specs.Walk.{texts};
ghost use Rattle.std.specs.IoError.{error_kind};
ghost use Rattle.std.specs.Prelude.{◌≡◌, [], codes, false, IfOk, IfErr, IsSome, OnOk};
ghost use Rattle.worm_view.specs.Commands.{command, described, is_set, network_word, text_word, waits_word};
ghost use Rattle.worm_view.specs.Commands.{AskBoth, IsRefusal, RefusesTaken, Say};
ghost use Rattle.worm_view.specs.Faults.{list_fault, parser_fault, IsNoCommand, IsNoList};

use crate::form::{Form, form_of};
use clap::error::ErrorKind;
use clap::{Arg, ArgAction, ArgMatches, Command, Error};
use std::alloc::{AllocError, Global};
use std::io;
use std::rt::Env;
use worm_words::Named;

/// What the words of the command line say.
#[derive(Drop)]
pub struct Words<'a> {
    /// The file of the network text.
    pub network: &'a str,
    /// What is wanted of the report.
    pub form: Form,
}

/// Why the words were not read.
#[derive(Drop)]
pub enum WordsFault {
    /// They ask for help, or for the version.
    Asked(Error),
    /// They are not those that the program knows.
    Words(Error),
    /// They ask for a map and for who waits for whom.
    Both,
    /// One of them is not UTF-8.
    NotText,
    /// There was no memory.
    NoMemory,
}

impl From<AllocError> for WordsFault {
    ghost use Rattle.worm_view.specs.declared.words.WordsFault.TheVariants.{NoMemory};

    ghost from_gives = { λ _ fault. fault ≡ NoMemory };

    fn from(_error: AllocError) -> WordsFault {
        WordsFault::NoMemory
    }
}

impl From<Error> for WordsFault {
    ghost from_gives = { λ error fault. fault ≡ parser_fault (kind_of error) error };

    fn from(error: Error) -> WordsFault {
        match error.kind() {
            ErrorKind::OutOfMemory => WordsFault::NoMemory,
            ErrorKind::DisplayHelp | ErrorKind::DisplayVersion => WordsFault::Asked(error),
            _ => WordsFault::Words(error),
        }
    }
}

impl From<io::Error> for WordsFault {
    ghost from_gives = { λ error fault. fault ≡ list_fault (error_kind error) };

    fn from(error: io::Error) -> WordsFault {
        match error.kind() {
            io::ErrorKind::OutOfMemory => WordsFault::NoMemory,
            _ => WordsFault::NotText,
        }
    }
}

/// The words of the command line after the name `wormview`, whatever the system calls the program. `NotText` where
/// one is not UTF-8, `NoMemory` where there is none for the list.
pub fn all_words<R: Env + AllocGlobal>(rt: &R) -> Result<Vec<String>, WordsFault>
    ensures { IfErr result IsNoList }
{
    let named = (Named::new(rt, "wormview"), rt.alloc());
    let words = std::env::args(&named)?.collect::<Vec<String>>(rt.alloc())?;
    Ok(words)
}

fn network_word<'a>(alloc: Global) -> Arg<'a>
    ensures rule { rule_of result ≡ network_word }
    ensures local { result.global ≡ false }
{
    Arg::new(alloc, "NETWORK")
        .required(true)
        .help("the file of the network text that the report is of")
        .action(ArgAction::Set)
}

fn text_word<'a>(alloc: Global) -> Arg<'a>
    ensures rule { rule_of result ≡ text_word }
    ensures local { result.global ≡ false }
{
    Arg::new(alloc, "text")
        .long("text")
        .help("print a map for a terminal, and not an SVG picture")
        .action(ArgAction::SetTrue)
}

fn waits_word<'a>(alloc: Global) -> Arg<'a>
    ensures rule { rule_of result ≡ waits_word }
    ensures local { result.global ≡ false }
{
    Arg::new(alloc, "waits")
        .long("waits")
        .help("print which packets cannot go on, and who waits for whom")
        .action(ArgAction::SetTrue)
}

fn described<'a>(alloc: Global) -> Command<'a>
    ensures { app_of result ≡ described }
{
    Command::new(alloc, "wormview").version("1").about(
        "Reads a report of wormrun on the standard input and draws it on the standard output",
    )
}

fn command<'a>(alloc: Global) -> Result<Command<'a>, AllocError>
    ensures { IfOk result (λ c. app_of c ≡ command) }
{
    described(alloc)
        .arg(network_word(alloc))?
        .arg(text_word(alloc))?
        .arg(waits_word(alloc))
}

fn is_given<'a>(matches: &ArgMatches<'a>, name: &str) -> bool
    ensures { result ≡ is_set name.now (rows_of (found_of matches.now)) }
{
    // Not `get_flag`, whose clauses leave out a text that is neither `true` nor `false`.
    matches.get_one::<bool>(name).unwrap_or(false)
}

fn words_in<'a>(matches: &ArgMatches<'a>) -> Result<Words<'a>, WordsFault>
    requires { IsSome (first_of (codes "NETWORK") (rows_of (found_of matches.now))) }
    ensures said { IfOk result (Say (rows_of (found_of matches.now))) }
    ensures both { IfErr result (λ fault. (fault ≡ WordsFault.Both) × AskBoth (rows_of (found_of matches.now))) }
{
    match form_of(is_given(matches, "text"), is_given(matches, "waits")) {
        Some(form) => Ok(Words {
            network: matches.get_str("NETWORK").unwrap(),
            form,
        }),
        None => Err(WordsFault::Both),
    }
}

/// Reads the words, the program's name first: `NETWORK [--text | --waits]`, in any order. `Asked` for `--help` and
/// `--version`, `Words` where one is unknown or missing, `Both` for both flags, `NoMemory` where the parser has none.
pub fn read_words<'a>(alloc: Global, words: &'a [&'a str]) -> Result<Words<'a>, WordsFault>
    ensures said { IfOk result (Say (matches_of command (texts words.now))) }
    ensures faultless { OnOk result (fault_of command (texts words.now) ≡ []) }
    ensures err { IfErr result IsNoCommand }
    ensures refused { IfErr result (IsRefusal (texts words.now)) }
    ensures taken { IfErr result (RefusesTaken (texts words.now)) }
{
    let matches = command(alloc)?.try_get_matches_from(words)?;
    words_in(&matches)
}
