use crate::run::cases::are_equal;
use std::alloc::Global;
use std::process::Abort;
use worm_program::{Options, Words, WordsFault, read_words};

/// What the words say.
fn said<'a>(rt: &impl Abort, alloc: Global, words: &'a [&'a str]) -> Result<Words<'a>, WordsFault> {
    assert!(rt; !words.is_empty());
    read_words(alloc, words)
}

/// What the words say, which are accepted.
fn accepted<'a>(rt: &impl Abort, alloc: Global, words: &'a [&'a str]) -> Words<'a> {
    match said(rt, alloc, words) {
        Ok(words) => words,
        Err(fault) => panic!(rt; "{fault:?}"),
    }
}

/// Why the words are refused.
fn refused<'a>(rt: &impl Abort, alloc: Global, words: &'a [&'a str]) -> WordsFault {
    match said(rt, alloc, words) {
        Ok(_) => panic!(rt; "accepted {words:?}"),
        Err(fault) => fault,
    }
}

fn refuses<'a>(rt: &impl Abort, alloc: Global, words: &'a [&'a str]) {
    match refused(rt, alloc, words) {
        WordsFault::Words(error) => are_equal(rt, error.exit_code(), 2),
        fault => panic!(rt; "{fault:?}"),
    }
}

/// The options are these.
fn are_options(rt: &impl Abort, options: Options, turns: u64, workers: usize, drain: u64) {
    let wanted = Options {
        turns,
        workers,
        drain,
    };
    are_equal(rt, options, wanted);
}

const ONE_TURN: &[&str] = &["wormrun", "n", "t", "--turns", "1"];

/// All options, and in an order of their own.
const ALL_OPTIONS: &[&str] = &[
    "wormrun",
    "--drain",
    "1000000",
    "n",
    "--workers=16",
    "t",
    "--turns",
    "0",
];

/// The most turns, and the least of all else.
const MOST_TURNS: &[&str] = &[
    "wormrun",
    "n",
    "t",
    "--turns",
    "1000000",
    "--workers",
    "1",
    "--drain",
    "0",
];

#[test]
fn words_are_read(rt: HostRuntime) {
    let words = accepted(&rt, rt.alloc(), ONE_TURN);
    assert!(rt; words.network == "n" && words.traffic == "t");
    are_options(&rt, words.options, 1, 1, 0);
    let words = accepted(&rt, rt.alloc(), ALL_OPTIONS);
    are_options(&rt, words.options, 0, 16, 1_000_000);
    let words = accepted(&rt, rt.alloc(), MOST_TURNS);
    are_options(&rt, words.options, 1_000_000, 1, 0);
}

/// Words that are not the program's.
const WRONG: &[&[&str]] = &[
    &["wormrun", "--turns", "1"],
    &["wormrun", "n", "--turns", "1"],
    &["wormrun", "n", "t", "u", "--turns", "1"],
    &["wormrun", "n", "t"],
    &["wormrun", "n", "t", "--turns"],
    &["wormrun", "n", "t", "--turns", "1000001"],
    &["wormrun", "n", "t", "--turns", "-1"],
    &["wormrun", "n", "t", "--turns", "x"],
    &["wormrun", "n", "t", "--turns", "1", "--turns", "2"],
    &["wormrun", "n", "t", "--turns", "1", "--workers", "0"],
    &["wormrun", "n", "t", "--turns", "1", "--workers", "17"],
    &["wormrun", "n", "t", "--turns", "1", "--drain", "1000001"],
    &["wormrun", "n", "t", "--turns", "1", "--speed", "1"],
    &["wormrun", "--help"],
    &["wormrun", "-h"],
    &["wormrun", "--version"],
];

#[test]
fn wrong_words_are_refused(rt: HostRuntime) {
    for words in WRONG {
        refuses(&rt, rt.alloc(), words);
    }
}
