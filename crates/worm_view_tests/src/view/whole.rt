//! The whole program on a runtime of the tests' own: what it opens, prints and says, and its status.

use crate::view::{MAP, REPORT, are_equal, drawing};
use std::alloc::Global;
use std::cell::RefCell;
use std::process::{Abort, ExitCode};
use worm_cases::{Desk, TWO_NODES};
use worm_view::run;

/// The network, and a text that is none.
const FILES: &[(&str, &[u8])] = &[("n", TWO_NODES), ("x", b"x\n")];

const A_PICTURE: &[&[u8]] = &[b"wormview", b"n"];

const A_MAP: &[&[u8]] = &[b"wormview", b"n", b"--text"];

/// What was kept are these bytes.
fn are_kept(rt: &impl Abort, kept: &RefCell<Vec<u8>>, wanted: &[u8]) {
    match kept.try_borrow() {
        Ok(kept) => are_equal(rt, kept.as_slice(), wanted),
        Err(_) => panic!(rt; "in use"),
    }
}

/// What was kept is this text.
fn kept(rt: &impl Abort, kept: &RefCell<Vec<u8>>, wanted: &str) {
    are_kept(rt, kept, wanted.as_bytes());
}

/// What was kept begins with this text.
fn begins(rt: &impl Abort, kept: &RefCell<Vec<u8>>, wanted: &str) {
    match kept.try_borrow() {
        Ok(kept) => assert!(rt; kept.as_slice().starts_with(wanted.as_bytes()), "{wanted}"),
        Err(_) => panic!(rt; "in use"),
    }
}

/// A desk with these words, and this report on its standard input.
fn desk_with(alloc: Global, words: &'static [&'static [u8]], report: &'static [u8]) -> Desk {
    Desk::new(alloc, words, FILES, report)
}

/// The program on the desk ends with this status.
fn ends_with(rt: &impl Abort, desk: &Desk, status: u8) {
    are_equal(rt, run(desk), ExitCode::from(status));
}

/// The program on the desk ends with this status, and opens, prints and says this.
fn ends(rt: &impl Abort, desk: &Desk, status: u8, opened: &str, printed: &str, said: &str) {
    ends_with(rt, desk, status);
    kept(rt, &desk.opened, opened);
    kept(rt, &desk.printed, printed);
    kept(rt, &desk.said, said);
}

#[test]
fn a_report_is_drawn(rt: HostRuntime) {
    let alloc = rt.alloc();
    let picture = drawing(&rt, alloc, false);
    let desk = desk_with(alloc, A_PICTURE, REPORT);
    ends(&rt, &desk, 0, "n\n", picture.as_str(), "");
}

/// Words that ask for a map, in either order.
const MAPS: &[&[&[u8]]] = &[A_MAP, &[b"wormview", b"--text", b"n"]];

#[test]
fn the_word_text_gives_the_map(rt: HostRuntime) {
    for words in MAPS {
        let desk = desk_with(rt.alloc(), words, REPORT);
        ends(&rt, &desk, 0, "n\n", MAP, "");
    }
}

/// In the report of two nodes nobody waits: the flit in the buffer may go on.
#[test]
fn the_word_waits_gives_who_waits(rt: HostRuntime) {
    let desk = desk_with(rt.alloc(), &[b"wormview", b"--waits", b"n"], REPORT);
    let nobody = "Fronts that cannot go on:\n\nChains, the longest first:\n";
    ends(&rt, &desk, 0, "n\n", nobody, "");
}

#[test]
fn a_map_and_the_waits_are_too_much(rt: HostRuntime) {
    let words: &[&[u8]] = &[b"wormview", b"--text", b"n", b"--waits"];
    let desk = desk_with(rt.alloc(), words, REPORT);
    ends(&rt, &desk, 2, "", "", "wormview: both --text and --waits\n");
}

#[test]
fn the_version_is_said(rt: HostRuntime) {
    let desk = desk_with(rt.alloc(), &[b"wormview", b"--version"], REPORT);
    ends(&rt, &desk, 0, "", "wormview 1\n", "");
}

#[test]
fn help_is_given(rt: HostRuntime) {
    let about =
        "Reads a report of wormrun on the standard input and draws it on the standard output\n\n\
         Usage: wormview [OPTIONS] <NETWORK>\n";
    let desk = desk_with(rt.alloc(), &[b"wormview", b"--help"], REPORT);
    ends_with(&rt, &desk, 0);
    kept(&rt, &desk.opened, "");
    begins(&rt, &desk.printed, about);
    kept(&rt, &desk.said, "");
}

/// The program refuses these words with a text that begins like this, and opens and prints nothing.
fn refuses(rt: &impl Abort, alloc: Global, words: &'static [&'static [u8]], said: &str) {
    let desk = desk_with(alloc, words, REPORT);
    ends_with(rt, &desk, 2);
    kept(rt, &desk.opened, "");
    kept(rt, &desk.printed, "");
    begins(rt, &desk.said, said);
}

#[test]
fn words_that_are_not_known(rt: HostRuntime) {
    let unknown = "error: unexpected argument '--speed' found\n";
    let words: &[&[u8]] = &[b"wormview", b"n", b"--speed"];
    refuses(&rt, rt.alloc(), words, unknown);
    let missing = "error: the following required arguments were not provided:\n  <NETWORK>\n";
    refuses(&rt, rt.alloc(), &[b"wormview", b"--text"], missing);
    refuses(&rt, rt.alloc(), &[b"wormview"], missing);
}

/// The name that the system gives may be no text: nothing of it is read.
#[test]
fn a_name_that_is_no_text(rt: HostRuntime) {
    let words: &[&[u8]] = &[b"jos\xe9/wormview", b"n", b"--text"];
    let desk = desk_with(rt.alloc(), words, REPORT);
    ends(&rt, &desk, 0, "n\n", MAP, "");
}

/// Words of which one is no text.
const NO_TEXTS: &[&[&[u8]]] = &[
    &[b"wormview", b"\xff", b"--text"],
    &[b"wormview", b"n", b"\xc3"],
];

#[test]
fn a_word_that_is_no_text(rt: HostRuntime) {
    for words in NO_TEXTS {
        let desk = desk_with(rt.alloc(), words, REPORT);
        ends(&rt, &desk, 2, "", "", "wormview: a word is not UTF-8\n");
    }
}

#[test]
fn a_file_that_is_not_there(rt: HostRuntime) {
    let desk = desk_with(rt.alloc(), &[b"wormview", b"m"], REPORT);
    ends(&rt, &desk, 5, "m\n", "", "wormview: cannot read network\n");
}

#[test]
fn texts_that_are_refused(rt: HostRuntime) {
    let alloc = rt.alloc();
    let no_network = desk_with(alloc, &[b"wormview", b"x"], REPORT);
    let said = "wormview: network line 1: header\n";
    ends(&rt, &no_network, 3, "x\n", "", said);
    let no_report = desk_with(alloc, A_PICTURE, b"");
    let said = "wormview: report line 1: no end\n";
    ends(&rt, &no_report, 4, "n\n", "", said);
}

/// An output that takes so many bytes of the map, and then none, has taken a first part of it, however much that is.
fn is_cut_short(rt: &impl Abort, alloc: Global, map: &str) {
    for room in 0..map.len() {
        let desk = desk_with(alloc, A_MAP, REPORT);
        desk.room.set(room);
        ends_with(rt, &desk, 8);
        kept(rt, &desk.said, "wormview: picture not written\n");
        are_kept(rt, &desk.printed, &map.as_bytes()[..room]);
    }
}

#[test]
fn an_output_that_is_full(rt: HostRuntime) {
    is_cut_short(&rt, rt.alloc(), MAP);
}
