//! Traffic that is read, and the faults of its texts.

use crate::cases::{are_equal, traffic};
use std::alloc::Global;
use std::process::Abort;
use std::test::Fail;
use worm_cases::{TWO_CHANNELS, TWO_NODES, TWO_WORDS};
use worm_core::{Act, Entry, Script};
use worm_flit::Lane;
use worm_text::{TextFault, Why};

/// How many entries the text has for a network, or its fault.
fn counted(alloc: Global, network: &[u8], text: &[u8]) -> Result<Result<usize, TextFault>, Fail> {
    Ok(match traffic(alloc, network, text)? {
        Ok(script) => Ok(script.len()),
        Err(fault) => Err(fault),
    })
}

/// The text has this fault, for two nodes with one channel.
fn is_refused(
    rt: &impl Abort,
    alloc: Global,
    text: &[u8],
    line: u32,
    why: Why,
) -> Result<(), Fail> {
    let told = counted(alloc, TWO_NODES, text)?;
    are_equal(rt, told, Err(TextFault { line, why }));
    Ok(())
}

/// Each text has its fault.
fn are_refused(rt: &impl Abort, alloc: Global, faulty: &[(&str, u32, Why)]) -> Result<(), Fail> {
    for (text, line, why) in faulty {
        is_refused(rt, alloc, text.as_bytes(), *line, *why)?;
    }
    Ok(())
}

/// The text has so many entries.
fn is_accepted(rt: &impl Abort, alloc: Global, text: &[u8], count: usize) -> Result<(), Fail> {
    are_equal(rt, counted(alloc, TWO_NODES, text)?, Ok(count));
    Ok(())
}

/// The entry offers a packet of these words.
fn offers(rt: &impl Abort, entry: &Entry, turn: u32, lane: Lane, words: &[u32]) {
    let offered = match &entry.act {
        Act::Offer(packet) => Some((packet.lane(), packet.words())),
        Act::Close(_) => None,
    };
    are_equal(rt, (entry.turn, offered), (turn, Some((lane, words))));
}

/// The entry closes the lane.
fn closes(rt: &impl Abort, entry: &Entry, turn: u32, lane: Lane) {
    let closed = match &entry.act {
        Act::Close(closed) => Some(*closed),
        Act::Offer(_) => None,
    };
    are_equal(rt, (entry.turn, closed), (turn, Some(lane)));
}

/// The lane from one node to another.
fn lane(src: u8, dst: u8) -> Lane {
    Lane { src, dst, class: 0 }
}

/// The entries are a packet of two words, and a close.
fn are_kept(rt: &impl Abort, entries: &[Entry]) {
    match entries {
        [first, second] => {
            offers(rt, first, 0, lane(0, 1), &[17, 4294967295]);
            closes(rt, second, 3, lane(1, 0));
        }
        _ => assert!(rt; false, "not two entries"),
    }
}

#[test]
fn entries_are_kept(rt: HostRuntime) -> Result<(), Fail> {
    let text = b"wormtraffic 1\nsend 0 0 1 data 17 4294967295\nclose 3 1 0 data\nend\n";
    let script = traffic(rt.alloc(), TWO_NODES, text)??;
    are_kept(&rt, script.entries());
    Ok(())
}

#[test]
fn worked_texts(rt: HostRuntime) -> Result<(), Fail> {
    is_accepted(&rt, rt.alloc(), b"wormtraffic 1\nend\n", 0)?;
    let most_word = b"wormtraffic 1\nsend 0 0 1 data 4294967295\nend\n";
    is_accepted(&rt, rt.alloc(), most_word, 1)?;
    let most_turn = b"wormtraffic 1\nsend 1000000 1 1 data 0\nend\n";
    is_accepted(&rt, rt.alloc(), most_turn, 1)?;
    is_accepted(&rt, rt.alloc(), TWO_WORDS, 1)
}

/// Texts, each with the line of its fault, and what that is.
const FAULTS: &[(&str, u32, Why)] = &[
    ("", 1, Why::NoEnd),
    ("wormtraffic 2\nend\n", 1, Why::Header),
    ("wormtraffic 1\nsend 0 0 1 data\nend\n", 2, Why::Missing),
    (
        "wormtraffic 1\nsend 0 0 1 data 4294967296\nend\n",
        2,
        Why::Range,
    ),
    (
        "wormtraffic 1\nsend 1000001 0 1 data 1\nend\n",
        2,
        Why::Range,
    ),
    ("wormtraffic 1\nsend 0 0 2 data 1\nend\n", 2, Why::Range),
    ("wormtraffic 1\nsend 0 0 1 ctl 1\nend\n", 2, Why::Name),
    ("wormtraffic 1\nsend 0 0 1 data x\nend\n", 2, Why::Number),
    (
        "wormtraffic 1\nsend 3 0 1 data 1\nsend 2 0 1 data 1\nend\n",
        3,
        Why::OrderOfTurns,
    ),
    (
        "wormtraffic 1\nclose 0 0 1 data\nclose 0 0 1 data\nend\n",
        3,
        Why::LaneClosed,
    ),
    (
        "wormtraffic 1\nclose 0 0 1 data\nsend 0 0 1 data 5\nend\n",
        3,
        Why::LaneClosed,
    ),
    ("wormtraffic 1\nclose 0 0 1 data 5\nend\n", 2, Why::TooMany),
    ("wormtraffic 1\nrecv 0 0 1 data\nend\n", 2, Why::UnknownWord),
    (
        "wormtraffic 1\nsend 0 0 1 data 1 1 1 1 1 1 1 1 1 1 1 1 1 1 1 1 1 1 1 1 1 1 1 1 1 1 1 1 1 1 1 1 1\nend\n",
        2,
        Why::TooMany,
    ),
    ("wormtraffic 1\nend\n\n", 3, Why::AfterEnd),
];

#[test]
fn worked_faults(rt: HostRuntime) -> Result<(), Fail> {
    are_refused(&rt, rt.alloc(), FAULTS)
}

/// Texts with several faults, and the first of them.
const FIRST_FAULTS: &[(&str, u32, Why)] = &[
    (
        "wormtraffic 1\nsend 3 0 1 data 1\nsend 2\n",
        3,
        Why::OrderOfTurns,
    ),
    ("wormtraffic 1\nsend 0 0 1 data \n", 2, Why::Number),
    (
        "wormtraffic 1\nsend 0 0 1 data 1 1 1 1 1 1 1 1 1 1 1 1 1 1 1 1 1 1 1 1 1 1 1 1 1 1 1 1 1 1 1 1 x\n",
        2,
        Why::TooMany,
    ),
    (
        "wormtraffic 1\nsend 0 0 1 data x 1 1 1 1 1 1 1 1 1 1 1 1 1 1 1 1 1 1 1 1 1 1 1 1 1 1 1 1 1 1 1 1 1\n",
        2,
        Why::Number,
    ),
    (
        "wormtraffic 1\nclose 0 0 1 data\nclose 0 0 1 data 5\n",
        3,
        Why::LaneClosed,
    ),
    ("wormtraffic 1\nend \n", 2, Why::TooMany),
    ("wormtraffic 1\n\n", 2, Why::UnknownWord),
];

/// Fields are judged from the left, each wholly before the next is asked for.
#[test]
fn the_first_of_several_faults(rt: HostRuntime) -> Result<(), Fail> {
    are_refused(&rt, rt.alloc(), FIRST_FAULTS)
}

/// The close in line 2 of the text is refused, for two nodes with two channels.
fn is_not_closed(rt: &impl Abort, alloc: Global, text: &[u8]) -> Result<(), Fail> {
    let why = Why::ManyChannels;
    let told = counted(alloc, TWO_CHANNELS, text)?;
    are_equal(rt, told, Err(TextFault { line: 2, why }));
    Ok(())
}

#[test]
fn a_lane_of_several_channels_is_not_closed(rt: HostRuntime) -> Result<(), Fail> {
    let whole = b"wormtraffic 1\nclose 0 0 1 data\nend\n";
    is_not_closed(&rt, rt.alloc(), whole)?;
    let begun = b"wormtraffic 1\nclose 0 0 1 data 5\n";
    is_not_closed(&rt, rt.alloc(), begun)
}

/// At the line in which the text was cut, or that would come next.
#[test]
fn a_text_that_is_cut_off_has_no_end(rt: HostRuntime) -> Result<(), Fail> {
    let mut line = 1;
    for (at, byte) in TWO_WORDS.iter().enumerate() {
        is_refused(&rt, rt.alloc(), &TWO_WORDS[..at], line, Why::NoEnd)?;
        if *byte == b'\n' {
            line = line.saturating_add(1);
        }
    }
    Ok(())
}

/// The traffic of ten thousand entries, and then this line.
fn ten_thousand(alloc: Global, last: &[u8]) -> Result<Vec<u8>, Fail> {
    let mut text = Vec::from_slice(alloc, b"wormtraffic 1\n")?;
    for _entry in 0..10_000 {
        text.extend_from_slice(b"send 0 0 1 data 1\n")?;
    }
    text.extend_from_slice(last)?;
    Ok(text)
}

/// Ten thousand entries are accepted, and one more is refused at its first field.
#[test]
fn ten_thousand_entries(rt: HostRuntime) -> Result<(), Fail> {
    let full = ten_thousand(rt.alloc(), b"end\n")?;
    is_accepted(&rt, rt.alloc(), full.as_slice(), 10_000)?;
    let more = ten_thousand(rt.alloc(), b"send 0 0 1 data 1\nend\n")?;
    is_refused(&rt, rt.alloc(), more.as_slice(), 10_002, Why::TooMany)?;
    let faulty = ten_thousand(rt.alloc(), b"send 5 x\n")?;
    is_refused(&rt, rt.alloc(), faulty.as_slice(), 10_002, Why::TooMany)
}

/// There was no room for one of the two entries, and the answer says so, at its line.
fn ran_out(rt: &impl Abort, fault: TextFault) {
    assert!(rt; fault.why == Why::NoMemory && (fault.line == 2 || fault.line == 3));
}

/// Where an allocation is refused the answer says so, at the line of the entry for which there was no room.
#[test]
fn memory_may_run_out(rt: HostRuntime) -> Result<(), Fail> {
    let text = b"wormtraffic 1\nsend 0 0 1 data 17\nclose 0 0 1 data\nend\n";
    match counted(rt.alloc(), TWO_NODES, text)? {
        Ok(count) => are_equal(&rt, count, 2),
        Err(fault) => ran_out(&rt, fault),
    }
    Ok(())
}
