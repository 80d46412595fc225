//! Networks that are read, and the faults of their texts.

use crate::cases::{are_equal, network};
use std::alloc::Global;
use std::process::Abort;
use std::test::Fail;
use worm_cases::{THREE_BY_TWO, TWO_NODES};
use worm_core::Config;
use worm_text::{TextFault, Why};

/// The text has this fault.
fn is_refused(rt: &impl Abort, text: &[u8], line: u32, why: Why) {
    let fault = network(text).err();
    are_equal(rt, (text, fault), (text, Some(TextFault { line, why })));
}

/// Each text has its fault.
fn are_refused(rt: &impl Abort, faulty: &[(&str, u32, Why)]) {
    for (text, line, why) in faulty {
        is_refused(rt, text.as_bytes(), *line, *why);
    }
}

/// The network has these radices, this depth and classes of so many channels.
fn has(rt: &impl Abort, config: &Config, radices: &[u8], depth: u8, channels: &[u8]) {
    are_equal(rt, config.radices.as_slice(), radices);
    are_equal(rt, config.depth, depth);
    are_equal(rt, config.channels.as_slice(), channels);
    are_equal(rt, config.classes.len(), channels.len());
}

/// The text is of such a network.
fn is_accepted(rt: &impl Abort, text: &[u8], radices: &[u8], depth: u8, channels: &[u8]) {
    match network(text) {
        Ok(config) => has(rt, &config, radices, depth, channels),
        Err(fault) => assert!(rt; false, "refused {text:?} {fault:?}"),
    }
}

#[test]
fn networks_of_format_one(rt: HostRuntime) {
    is_accepted(&rt, TWO_NODES, &[2], 2, &[1]);
    is_accepted(
        &rt,
        b"wormnet 1\nradix 16\ndims 2\ndepth 2\nclass data\nend\n",
        &[16, 16],
        2,
        &[1],
    );
    is_accepted(
        &rt,
        b"wormnet 1\nradix 2\ndims 1\ndepth 16\nclass data\nend\n",
        &[2],
        16,
        &[1],
    );
    is_accepted(
        &rt,
        b"wormnet 1\nradix 3\ndims 2\ndepth 2\nclass end\nclass class\nclass a\nclass abcdefghijklmn09\nend\n",
        &[3, 3],
        2,
        &[1, 1, 1, 1],
    );
}

#[test]
fn networks_of_format_two(rt: HostRuntime) {
    is_accepted(
        &rt,
        b"wormnet 2\ndims 1\nradix 2\ndepth 2\nclass data channels 2\nend\n",
        &[2],
        2,
        &[2],
    );
    is_accepted(
        &rt,
        b"wormnet 2\ndims 1\nradix 2\ndepth 2\nclass a channels 5\nclass b channels 3\nend\n",
        &[2],
        2,
        &[5, 3],
    );
    is_accepted(
        &rt,
        b"wormnet 2\ndims 3\nradix 16 8 2\ndepth 2\nclass data channels 1\nend\n",
        &[16, 8, 2],
        2,
        &[1],
    );
    is_accepted(
        &rt,
        b"wormnet 2\ndims 2\nradix 3 2\ndepth 2\nclass channels channels 8\nend\n",
        &[3, 2],
        2,
        &[8],
    );
}

/// The classes have these names.
fn are_named(rt: &impl Abort, config: &Config, names: &[&str]) {
    are_equal(rt, config.classes.len(), names.len());
    for (name, wanted) in config.classes.as_slice().iter().zip(names) {
        are_equal(rt, name.as_str(), *wanted);
    }
}

#[test]
fn names_are_kept(rt: HostRuntime) -> Result<(), Fail> {
    let text = b"wormnet 1\nradix 2\ndims 1\ndepth 2\nclass data\nclass b7\nend\n";
    are_named(&rt, &network(text)?, &["data", "b7"]);
    Ok(())
}

/// Texts in format 1, each with the line of its fault, and what that is.
const FAULTS_OF_FORMAT_ONE: &[(&str, u32, Why)] = &[
    ("", 1, Why::NoEnd),
    (
        "wormnet 1 \nradix 2\ndims 1\ndepth 2\nclass data\nend\n",
        1,
        Why::Header,
    ),
    (
        "wormnet 1\ndims 1\ndepth 2\nclass data\nend\n",
        2,
        Why::Missing,
    ),
    (
        "wormnet 1\nradix\ndims 1\ndepth 2\nclass data\nend\n",
        2,
        Why::Missing,
    ),
    (
        "wormnet 1\nradix 02\ndims 1\ndepth 2\nclass data\nend\n",
        2,
        Why::Number,
    ),
    (
        "wormnet 1\nradix  2\ndims 1\ndepth 2\nclass data\nend\n",
        2,
        Why::Number,
    ),
    (
        "wormnet 1\nradix 1\ndims 1\ndepth 2\nclass data\nend\n",
        2,
        Why::Range,
    ),
    (
        "wormnet 1\nradix 17\ndims 1\ndepth 2\nclass data\nend\n",
        2,
        Why::Range,
    ),
    (
        "wormnet 1\nradix 2 3\ndims 1\ndepth 2\nclass data\nend\n",
        2,
        Why::TooMany,
    ),
    (
        "wormnet 1\nradix 7\ndims 3\ndepth 2\nclass data\nend\n",
        3,
        Why::Range,
    ),
    (
        "wormnet 1\nradix 2\nradix 2\ndepth 2\nclass data\nend\n",
        3,
        Why::Repeated,
    ),
    (
        "wormnet 1\nradix 2\nsize 2\ndepth 2\nclass data\nend\n",
        3,
        Why::UnknownWord,
    ),
    (
        "wormnet 1\nradix 2\ndims 1\ndepth 17\nclass data\nend\n",
        4,
        Why::Range,
    ),
    (
        "wormnet 1\nradix 2\ndims 1\ndepth 2\nclass Data\nend\n",
        5,
        Why::Name,
    ),
    (
        "wormnet 1\nradix 2\ndims 1\ndepth 2\nend\n",
        5,
        Why::Missing,
    ),
    (
        "wormnet 1\nradix 2\ndims 1\ndepth 2\nclass data\nclass data\nend\n",
        6,
        Why::Repeated,
    ),
    (
        "wormnet 1\nradix 2\ndims 1\ndepth 2\nclass a\nclass b\nclass c\nclass d\nclass e\nend\n",
        9,
        Why::TooMany,
    ),
    (
        "wormnet 1\nradix 2\ndims 1\ndepth 2\nclass data\nend",
        6,
        Why::NoEnd,
    ),
    (
        "wormnet 1\nradix 2\ndims 1\ndepth 2\nclass data\nend\n\n",
        7,
        Why::AfterEnd,
    ),
];

#[test]
fn worked_faults_of_format_one(rt: HostRuntime) {
    are_refused(&rt, FAULTS_OF_FORMAT_ONE);
}

/// The same in format 2.
const FAULTS_OF_FORMAT_TWO: &[(&str, u32, Why)] = &[
    (
        "wormnet 3\ndims 1\nradix 2\ndepth 2\nclass data channels 2\nend\n",
        1,
        Why::Header,
    ),
    (
        "wormnet 2\ndims 1\nradix 2\ndepth 2\nclass data\nend\n",
        5,
        Why::Missing,
    ),
    (
        "wormnet 2\ndims 1\nradix 2\ndepth 2\nclass data lanes 2\nend\n",
        5,
        Why::UnknownWord,
    ),
    (
        "wormnet 2\ndims 1\nradix 2\ndepth 2\nclass data channels 0\nend\n",
        5,
        Why::Range,
    ),
    (
        "wormnet 2\ndims 1\nradix 2\ndepth 2\nclass data channels 9\nend\n",
        5,
        Why::Range,
    ),
    (
        "wormnet 2\ndims 1\nradix 2\ndepth 2\nclass a channels 5\nclass b channels 4\nend\n",
        6,
        Why::Range,
    ),
    (
        "wormnet 2\ndims 2\nradix 2\ndepth 2\nclass data channels 2\nend\n",
        3,
        Why::Missing,
    ),
    (
        "wormnet 2\ndims 1\nradix 2 2\ndepth 2\nclass data channels 2\nend\n",
        3,
        Why::TooMany,
    ),
    (
        "wormnet 1\nradix 2\ndims 1\ndepth 2\nclass data channels 1\nend\n",
        5,
        Why::TooMany,
    ),
    (
        "wormnet 2\ndims 3\nradix 16 16 2\ndepth 2\nclass data channels 1\nend\n",
        3,
        Why::Range,
    ),
];

#[test]
fn worked_faults_of_format_two(rt: HostRuntime) {
    are_refused(&rt, FAULTS_OF_FORMAT_TWO);
}

/// Texts with several faults, and the first of them.
const FIRST_FAULTS: &[(&str, u32, Why)] = &[
    ("wormnet 1\nradix 17 3\n", 2, Why::Range),
    ("wormnet 1\nradix 2 \n", 2, Why::TooMany),
    ("wormnet 1\n\n", 2, Why::UnknownWord),
    ("\n", 1, Why::Header),
    (
        "wormnet 1\nradix 2\ndims 1\ndepth 2\nclass \n",
        5,
        Why::Name,
    ),
    (
        "wormnet 1\nradix 2\ndims 1\ndepth 2\nend x\n",
        5,
        Why::Missing,
    ),
    (
        "wormnet 1\nradix 2\ndims 1\ndepth 2\nclass data\nend \n",
        6,
        Why::TooMany,
    ),
    (
        "wormnet 1\nradix 2\ndims 1\ndepth 2\nclass abcdefghijklmnopq\n",
        5,
        Why::Name,
    ),
    (
        "wormnet 1\nradix 2\ndims 1\ndepth 2\nclass a\nclass b\nclass c\nclass d\nclass E\n",
        9,
        Why::TooMany,
    ),
    (
        "wormnet 1\nradix 2\ndims 1\ndepth 2\nclass data\ndepth 2\n",
        6,
        Why::Repeated,
    ),
    ("wormnet 2\nradix 2\n", 2, Why::Missing),
    (
        "wormnet 2\ndims 1\nradix 2\ndepth 2\nclass Data lanes 9\n",
        5,
        Why::Name,
    ),
    (
        "wormnet 2\ndims 1\nradix 2\ndepth 2\nclass a channels 5\nclass b channels 4 4\n",
        6,
        Why::Range,
    ),
];

/// Fields are judged from the left, each wholly before the next is asked for.
#[test]
fn the_first_of_several_faults(rt: HostRuntime) {
    are_refused(&rt, FIRST_FAULTS);
}

/// Each first part of the text has no end, at the line in which it was cut, or that would come next.
fn is_cut(rt: &impl Abort, text: &[u8]) {
    let mut line = 1;
    for (at, byte) in text.iter().enumerate() {
        is_refused(rt, &text[..at], line, Why::NoEnd);
        if *byte == b'\n' {
            line = line.saturating_add(1);
        }
    }
}

#[test]
fn a_text_that_is_cut_off_has_no_end(rt: HostRuntime) {
    is_cut(&rt, TWO_NODES);
    is_cut(&rt, THREE_BY_TWO);
}

/// Texts with bytes that no text has, each with the line of its fault, and what that is.
const STRANGE: &[(&[u8], u32, Why)] = &[
    (b"wormnet 1\r\nradix 2\r\n", 1, Why::Header),
    (b"wormnet 1\nradix 2\r\n", 2, Why::Number),
    (b"wormnet 1\n\x00\n", 2, Why::UnknownWord),
    (b"wormnet 1\nradix \xff\n", 2, Why::Number),
    (
        b"wormnet 1\nradix 2\ndims 1\ndepth 2\nclass a\x00\n",
        5,
        Why::Name,
    ),
];

#[test]
fn bytes_that_no_text_has(rt: HostRuntime) {
    for (text, line, why) in STRANGE {
        is_refused(&rt, text, *line, *why);
    }
}

/// Each fault, and the words for it.
const WORDS: &[(Why, &str)] = &[
    (Why::Header, "header"),
    (Why::Missing, "missing"),
    (Why::Number, "number"),
    (Why::Range, "range"),
    (Why::Name, "name"),
    (Why::Repeated, "repeated"),
    (Why::UnknownWord, "unknown word"),
    (Why::OrderOfTurns, "order of turns"),
    (Why::LaneClosed, "lane closed"),
    (Why::TooMany, "too many"),
    (Why::NoEnd, "no end"),
    (Why::AfterEnd, "after end"),
    (Why::ManyChannels, "many channels"),
];

/// The fault is said in these words.
fn is_said(rt: &impl Abort, alloc: Global, why: Why, words: &str) -> Result<(), Fail> {
    let said = format!(in alloc; "{why}")?;
    are_equal(rt, said.as_str(), words);
    Ok(())
}

#[test]
fn faults_in_words(rt: HostRuntime) -> Result<(), Fail> {
    for (why, words) in WORDS {
        is_said(&rt, rt.alloc(), *why, words)?;
    }
    Ok(())
}
