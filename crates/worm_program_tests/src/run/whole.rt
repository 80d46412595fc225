//! The whole program on a runtime of the tests' own: what it opens, prints and says, and its status.

use crate::run::cases::are_equal;
use std::alloc::Global;
use std::cell::RefCell;
use std::process::{Abort, ExitCode};
use std::sync::Wait;
use std::test::Fail;
use std::thread::Threads;
use worm_cases::{Desk, TWO_NODES, TWO_NODES_AND_WORDS, TWO_WORDS};
use worm_program::run;

/// The network and the traffic, and a text that is neither.
const FILES: &[(&str, &[u8])] = &[("n", TWO_NODES), ("t", TWO_WORDS), ("x", b"x\n")];

const ONE_TURN: &str = "wormreport 1\n\
     turns 1 workers 1 drain 0\n\
     delivered 1 from 0 class 0 packet 0 flit 0 word 17\n\
     underway 0 1 class 0 packet 0 flit 1 source\n\
     not offered 0\n\
     total injected 2 delivered 1 underway 1\n";

const A_HUNDRED_TURNS: &str = "wormreport 1\n\
     turns 100 workers 1 drain 0\n\
     delivered 1 from 0 class 0 packet 0 flit 0 word 17\n\
     delivered 1 from 0 class 0 packet 0 flit 1 word 18\n\
     not offered 0\n\
     total injected 2 delivered 2 underway 0\n";

/// The program on the desk ends with this status.
fn ends_with(rt: &(impl Abort + Threads + Wait + Sync), desk: &Desk, status: u8) {
    are_equal(rt, run(desk, rt), ExitCode::from(status));
}

/// The program on these words, and on both texts as its standard input, ends with this status, and opens, prints and
/// says this.
fn ends(
    rt: &(impl Abort + Threads + Wait + Sync),
    alloc: Global,
    words: &'static [&'static [u8]],
    status: u8,
    opened: &str,
    printed: &str,
    said: &str,
) {
    let desk = Desk::new(alloc, words, FILES, TWO_NODES_AND_WORDS);
    ends_with(rt, &desk, status);
    kept(rt, &desk.opened, opened);
    kept(rt, &desk.printed, printed);
    kept(rt, &desk.said, said);
}

/// What was kept is this text.
fn kept(rt: &impl Abort, kept: &RefCell<Vec<u8>>, wanted: &str) {
    match kept.try_borrow() {
        Ok(kept) => are_equal(rt, kept.as_slice(), wanted.as_bytes()),
        Err(_) => panic!(rt; "in use"),
    }
}

/// How many bytes were kept.
fn count_kept(rt: &impl Abort, kept: &RefCell<Vec<u8>>) -> usize {
    match kept.try_borrow() {
        Ok(kept) => kept.as_slice().len(),
        Err(_) => panic!(rt; "in use"),
    }
}

#[test]
fn two_files_are_run(rt: HostRuntime) {
    let words: &[&[u8]] = &[b"wormrun", b"n", b"t", b"--turns", b"1"];
    ends(&rt, rt.alloc(), words, 0, "n\nt\n", ONE_TURN, "");
    let words: &[&[u8]] = &[b"wormrun", b"--turns", b"100", b"n", b"t"];
    ends(&rt, rt.alloc(), words, 0, "n\nt\n", A_HUNDRED_TURNS, "");
}

const TWO_WORKERS: &str = "wormreport 1\n\
     turns 1 workers 2 drain 1000\n\
     delivered 1 from 0 class 0 packet 0 flit 0 word 17\n\
     delivered 1 from 0 class 0 packet 0 flit 1 word 18\n\
     not offered 0\n\
     total injected 2 delivered 2 underway 0\n";

#[test]
fn two_workers_run_two_files(rt: HostRuntime) {
    let words: &[&[u8]] = &[
        b"wormrun",
        b"n",
        b"t",
        b"--turns",
        b"1",
        b"--workers",
        b"2",
        b"--drain",
        b"1000",
    ];
    ends(&rt, rt.alloc(), words, 0, "n\nt\n", TWO_WORKERS, "");
}

#[test]
fn no_words_run_the_joined_input(rt: HostRuntime) {
    ends(&rt, rt.alloc(), &[b"wormrun"], 0, "", A_HUNDRED_TURNS, "");
    ends(&rt, rt.alloc(), &[], 0, "", A_HUNDRED_TURNS, "");
}

/// The name that the system gives may be no text: nothing of it is read.
#[test]
fn a_name_that_is_no_text(rt: HostRuntime) {
    ends(
        &rt,
        rt.alloc(),
        &[b"jos\xe9/wormrun"],
        0,
        "",
        A_HUNDRED_TURNS,
        "",
    );
    let words: &[&[u8]] = &[b"jos\xe9/wormrun", b"n", b"t", b"--turns", b"1"];
    ends(&rt, rt.alloc(), words, 0, "n\nt\n", ONE_TURN, "");
}

/// The program on these words ends with this status, opens and says this, and prints nothing.
fn fails(
    rt: &(impl Abort + Threads + Wait + Sync),
    alloc: Global,
    words: &'static [&'static [u8]],
    status: u8,
    opened: &str,
    said: &str,
) {
    ends(rt, alloc, words, status, opened, "", said);
}

const NETWORK_REFUSED: &str = "wormrun: network line 1: header\n";

const TRAFFIC_REFUSED: &str = "wormrun: traffic line 1: header\n";

#[test]
fn files_that_are_not_there(rt: HostRuntime) {
    let words: &[&[u8]] = &[b"wormrun", b"m", b"t", b"--turns", b"1"];
    fails(
        &rt,
        rt.alloc(),
        words,
        5,
        "m\n",
        "wormrun: cannot read network\n",
    );
    let words: &[&[u8]] = &[b"wormrun", b"n", b"m", b"--turns", b"1"];
    fails(
        &rt,
        rt.alloc(),
        words,
        5,
        "n\nm\n",
        "wormrun: cannot read traffic\n",
    );
}

#[test]
fn texts_that_are_refused(rt: HostRuntime) {
    let words: &[&[u8]] = &[b"wormrun", b"x", b"t", b"--turns", b"1"];
    fails(&rt, rt.alloc(), words, 3, "x\nt\n", NETWORK_REFUSED);
    let words: &[&[u8]] = &[b"wormrun", b"n", b"x", b"--turns", b"1"];
    fails(&rt, rt.alloc(), words, 4, "n\nx\n", TRAFFIC_REFUSED);
    let words: &[&[u8]] = &[b"wormrun", b"t", b"n", b"--turns", b"1"];
    fails(&rt, rt.alloc(), words, 3, "t\nn\n", NETWORK_REFUSED);
}

#[test]
fn texts_that_are_refused_for_two_workers(rt: HostRuntime) {
    let words: &[&[u8]] = &[b"wormrun", b"x", b"t", b"--turns", b"1", b"--workers", b"2"];
    fails(&rt, rt.alloc(), words, 3, "x\nt\n", NETWORK_REFUSED);
    let words: &[&[u8]] = &[b"wormrun", b"n", b"x", b"--turns", b"1", b"--workers", b"2"];
    fails(&rt, rt.alloc(), words, 4, "n\nx\n", TRAFFIC_REFUSED);
}

#[test]
fn a_word_that_is_no_text(rt: HostRuntime) {
    let said = "wormrun: a word is not UTF-8\n";
    let words: &[&[u8]] = &[b"wormrun", b"n", b"\xff", b"--turns", b"1"];
    fails(&rt, rt.alloc(), words, 2, "", said);
    fails(&rt, rt.alloc(), &[b"wormrun", b"\xc3"], 2, "", said);
}

/// Words that are not the program's.
const UNKNOWN: &[&[&[u8]]] = &[
    &[b"wormrun", b"n"],
    &[b"wormrun", b"n", b"t", b"--turns", b"1", b"--speed", b"1"],
    &[b"wormrun", b"n", b"t", b"--turns", b"x"],
];

/// Words that are not the program's: status 2, something is said, nothing is opened or printed.
#[test]
fn words_that_are_not_known(rt: HostRuntime) {
    for words in UNKNOWN {
        let desk = Desk::new(rt.alloc(), words, FILES, TWO_NODES_AND_WORDS);
        ends_with(&rt, &desk, 2);
        kept(&rt, &desk.opened, "");
        kept(&rt, &desk.printed, "");
        assert!(rt; count_kept(&rt, &desk.said) > 0);
    }
}

/// Words of two files, and none.
const BOTH_WAYS: &[&[&[u8]]] = &[&[b"wormrun", b"n", b"t", b"--turns", b"1"], &[b"wormrun"]];

#[test]
fn an_output_that_is_full(rt: HostRuntime) -> Result<(), Fail> {
    for words in BOTH_WAYS {
        let desk = Desk::new(rt.alloc(), words, FILES, TWO_NODES_AND_WORDS);
        desk.room.set(20);
        ends_with(&rt, &desk, 8);
        kept(&rt, &desk.said, "wormrun: report not written\n");
        are_equal(&rt, count_kept(&rt, &desk.printed), 20);
    }
    Ok(())
}
