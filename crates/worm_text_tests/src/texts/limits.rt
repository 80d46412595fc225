//! What both readers say of texts that are cut, at their limits and past them, or huge.

use crate::cases::{Told, is_told, joined, network_fault, traffic_fault};
use std::alloc::Global;
use std::process::Abort;
use std::test::Fail;
use worm_cases::{SIXTEEN_NODES, THREE_BY_TWO, TWO_NODES, TWO_WORDS, WORD_AND_MARK};
use worm_text::Why;

/// As many nodes as there may be.
const MOST_NODES: &[u8] = b"wormnet 1\nradix 16\ndims 2\ndepth 2\nclass data\nend\n";

/// As many, in three dimensions.
const MOST_IN_THREE: &[u8] =
    b"wormnet 2\ndims 3\nradix 16 8 2\ndepth 2\nclass data channels 1\nend\n";

/// Where the line of this number ends: the place of its line feed.
fn end_of(text: &[u8], number: usize) -> usize {
    let mut ended = 0usize;
    for (at, byte) in text.iter().enumerate() {
        if *byte == b'\n' {
            ended = ended.saturating_add(1);
        }
        if ended == number {
            return at;
        }
    }
    text.len()
}

/// The text with another line in the place of that of this number, which is not the first.
fn with_line(alloc: Global, text: &[u8], number: usize, line: &str) -> Result<Vec<u8>, Fail> {
    let (front, _) = text.split_at(end_of(text, number.saturating_sub(1)).min(text.len()));
    let (_, back) = text.split_at(end_of(text, number).min(text.len()));
    joined(alloc, &[front, b"\n", line.as_bytes(), back])
}

/// What the reader says of a network's text with this line in the place of another.
fn network_with(alloc: Global, text: &[u8], number: usize, line: &str) -> Result<Told, Fail> {
    let changed = with_line(alloc, text, number, line)?;
    Ok(network_fault(changed.as_slice()))
}

/// What the reader says of traffic with this line in the place of its only entry.
fn traffic_with(alloc: Global, network: &[u8], line: &str) -> Result<Told, Fail> {
    let changed = with_line(alloc, TWO_WORDS, 2, line)?;
    traffic_fault(alloc, network, changed.as_slice())
}

/// The line that sends the three words of a node to another.
fn words_line(alloc: Global, src: u8, dst: u8) -> Result<String, Fail> {
    let first = u32::from(src);
    let (second, third) = (100 + first, 200 + first);
    Ok(format!(in alloc; "send 0 {src} {dst} data {first} {second} {third}\n")?)
}

/// The traffic of sixteen nodes that each send three words to the node opposite.
fn opposite(alloc: Global) -> Result<Vec<u8>, Fail> {
    let mut text = Vec::from_slice(alloc, b"wormtraffic 1\n")?;
    for src in 0u8..16 {
        text.extend_from_slice(words_line(alloc, src, 15 - src)?.as_bytes())?;
    }
    text.extend_from_slice(b"end\n")?;
    Ok(text)
}

/// Each first part of the traffic has no end, at the line in which it was cut, or that would come next.
fn is_cut(rt: &impl Abort, alloc: Global, network: &[u8], text: &[u8]) -> Result<(), Fail> {
    is_told(rt, traffic_fault(alloc, network, text)?, None, "whole");
    let mut line = 1u32;
    for (length, byte) in text.iter().enumerate() {
        let told = traffic_fault(alloc, network, &text[..length])?;
        is_told(rt, told, Some((line, Why::NoEnd)), "cut");
        if *byte == b'\n' {
            line = line.saturating_add(1);
        }
    }
    Ok(())
}

#[test]
fn traffic_that_is_cut_off_has_no_end(rt: HostRuntime) -> Result<(), Fail> {
    is_cut(&rt, rt.alloc(), TWO_NODES, WORD_AND_MARK)?;
    let text = opposite(rt.alloc())?;
    is_cut(&rt, rt.alloc(), SIXTEEN_NODES, text.as_slice())
}

/// Texts of networks, the number of a line, another line in its place, and what the reader says then.
const LIMITS_OF_A_NETWORK: &[(&[u8], usize, &str, Told)] = &[
    (TWO_NODES, 2, "radix 0", Some((2, Why::Range))),
    (TWO_NODES, 2, "radix 1", Some((2, Why::Range))),
    (TWO_NODES, 2, "radix 2", None),
    (TWO_NODES, 2, "radix 16", None),
    (TWO_NODES, 2, "radix 17", Some((2, Why::Range))),
    (TWO_NODES, 3, "dims 0", Some((3, Why::Range))),
    (TWO_NODES, 3, "dims 3", None),
    (TWO_NODES, 3, "dims 4", Some((3, Why::Range))),
    (TWO_NODES, 4, "depth 0", Some((4, Why::Range))),
    (TWO_NODES, 4, "depth 1", None),
    (TWO_NODES, 4, "depth 16", None),
    (TWO_NODES, 4, "depth 17", Some((4, Why::Range))),
    (TWO_NODES, 5, "class abcdefghijklmnop", None),
    (
        TWO_NODES,
        5,
        "class abcdefghijklmnopq",
        Some((5, Why::Name)),
    ),
    (MOST_NODES, 3, "dims 3", Some((3, Why::Range))),
    (THREE_BY_TWO, 2, "dims 0", Some((2, Why::Range))),
    (THREE_BY_TWO, 2, "dims 4", Some((2, Why::Range))),
    (THREE_BY_TWO, 3, "radix 16 16", None),
    (THREE_BY_TWO, 3, "radix 2 17", Some((3, Why::Range))),
    (THREE_BY_TWO, 3, "radix 1 2", Some((3, Why::Range))),
    (THREE_BY_TWO, 4, "depth 0", Some((4, Why::Range))),
    (THREE_BY_TWO, 4, "depth 1", None),
    (THREE_BY_TWO, 4, "depth 16", None),
    (THREE_BY_TWO, 4, "depth 17", Some((4, Why::Range))),
    (
        THREE_BY_TWO,
        5,
        "class data channels 0",
        Some((5, Why::Range)),
    ),
    (THREE_BY_TWO, 5, "class data channels 8", None),
    (
        THREE_BY_TWO,
        5,
        "class data channels 9",
        Some((5, Why::Range)),
    ),
    (THREE_BY_TWO, 5, "class  channels 1", Some((5, Why::Name))),
    (THREE_BY_TWO, 5, "class abcdefghijklmnop channels 1", None),
    (
        THREE_BY_TWO,
        5,
        "class abcdefghijklmnopq channels 1",
        Some((5, Why::Name)),
    ),
    // 256 nodes, and the least number past it that is a product of radices, 260, in two ways.
    (MOST_IN_THREE, 3, "radix 16 8 2", None),
    (MOST_IN_THREE, 3, "radix 2 10 13", Some((3, Why::Range))),
    (MOST_IN_THREE, 3, "radix 4 5 13", Some((3, Why::Range))),
];

/// Texts of no class, of as many classes and channels as there may be, each with one more, and what the reader says of
/// them.
const CLASSES: &[(&str, Told)] = &[
    (
        "wormnet 1\nradix 2\ndims 1\ndepth 2\nend\n",
        Some((5, Why::Missing)),
    ),
    (
        "wormnet 2\ndims 1\nradix 2\ndepth 2\nend\n",
        Some((5, Why::Missing)),
    ),
    (
        "wormnet 1\nradix 2\ndims 1\ndepth 2\nclass a\nclass b\nclass c\nclass d\nend\n",
        None,
    ),
    (
        "wormnet 1\nradix 2\ndims 1\ndepth 2\nclass a\nclass b\nclass c\nclass d\nclass e\nend\n",
        Some((9, Why::TooMany)),
    ),
    (
        "wormnet 2\ndims 1\nradix 2\ndepth 2\nclass a channels 2\nclass b channels 2\nclass c channels 2\n\
         class d channels 2\nend\n",
        None,
    ),
    (
        "wormnet 2\ndims 1\nradix 2\ndepth 2\nclass a channels 2\nclass b channels 2\nclass c channels 2\n\
         class d channels 3\nend\n",
        Some((8, Why::Range)),
    ),
    (
        "wormnet 2\ndims 1\nradix 2\ndepth 2\nclass a channels 1\nclass b channels 1\nclass c channels 1\n\
         class d channels 1\nclass e channels 1\nend\n",
        Some((9, Why::TooMany)),
    ),
];

#[test]
fn limits_of_a_network(rt: HostRuntime) -> Result<(), Fail> {
    for (base, number, line, wanted) in LIMITS_OF_A_NETWORK {
        let told = network_with(rt.alloc(), base, *number, line)?;
        is_told(&rt, told, *wanted, line);
    }
    Ok(())
}

#[test]
fn limits_of_classes_and_channels(rt: HostRuntime) {
    for (text, wanted) in CLASSES {
        is_told(&rt, network_fault(text.as_bytes()), *wanted, text);
    }
}

/// Texts of networks, a line of traffic for each, and what the reader says of it.
const LIMITS_OF_TRAFFIC: &[(&[u8], &str, Told)] = &[
    (TWO_NODES, "send 0 2 0 data 1", Some((2, Why::Range))),
    (TWO_NODES, "close 0 0 2 data", Some((2, Why::Range))),
    (TWO_NODES, "close 1000000 1 1 data", None),
    (TWO_NODES, "close 1000001 1 1 data", Some((2, Why::Range))),
    (
        TWO_NODES,
        "send 0 0 1 data 1 1 1 1 1 1 1 1 1 1 1 1 1 1 1 1 1 1 1 1 1 1 1 1 1 1 1 1 1 1 1 1",
        None,
    ),
    (
        TWO_NODES,
        "send 0 0 1 data 1 1 1 1 1 1 1 1 1 1 1 1 1 1 1 1 1 1 1 1 1 1 1 1 1 1 1 1 1 1 1 1 1",
        Some((2, Why::TooMany)),
    ),
    (MOST_NODES, "send 0 255 255 data 4294967295", None),
    (MOST_NODES, "send 0 256 0 data 1", Some((2, Why::Range))),
    (MOST_NODES, "send 0 0 256 data 1", Some((2, Why::Range))),
    (THREE_BY_TWO, "send 0 5 5 data 1", None),
    (THREE_BY_TWO, "send 0 6 0 data 1", Some((2, Why::Range))),
    (THREE_BY_TWO, "send 0 0 6 data 1", Some((2, Why::Range))),
];

#[test]
fn limits_of_traffic(rt: HostRuntime) -> Result<(), Fail> {
    for (network, line, wanted) in LIMITS_OF_TRAFFIC {
        let told = traffic_with(rt.alloc(), network, line)?;
        is_told(&rt, told, *wanted, line);
    }
    Ok(())
}

/// A line with a number of a thousand digits.
fn long_line(alloc: Global, front: &str, back: &str) -> Result<String, Fail> {
    let mut line = String::from_str(alloc, front)?;
    for _digit in 0..1000 {
        line.push('7')?;
    }
    line.push_str(back)?;
    Ok(line)
}

/// What the reader says of a network's text with such a line in the place of another.
fn network_with_long(alloc: Global, text: &[u8], number: usize, front: &str) -> Result<Told, Fail> {
    let line = long_line(alloc, front, "")?;
    network_with(alloc, text, number, line.as_str())
}

/// What the reader says of traffic of two nodes whose only entry is such a line.
fn traffic_with_long(alloc: Global, front: &str, back: &str) -> Result<Told, Fail> {
    let line = long_line(alloc, front, back)?;
    traffic_with(alloc, TWO_NODES, line.as_str())
}

/// Texts of networks and numbers of lines of them, with the fields before such a number.
const NUMBERS_OF_A_NETWORK: &[(&[u8], usize, u32, &str)] = &[
    (TWO_NODES, 2, 2, "radix "),
    (TWO_NODES, 3, 3, "dims "),
    (TWO_NODES, 4, 4, "depth "),
    (THREE_BY_TWO, 2, 2, "dims "),
    (THREE_BY_TWO, 3, 3, "radix "),
    (THREE_BY_TWO, 3, 3, "radix 3 "),
    (THREE_BY_TWO, 4, 4, "depth "),
    (THREE_BY_TWO, 5, 5, "class data channels "),
];

/// The fields of an entry before such a number, and behind it.
const NUMBERS_OF_TRAFFIC: &[(&str, &str)] = &[
    ("send ", " 0 1 data 1"),
    ("send 0 ", " 1 data 1"),
    ("send 0 0 ", " data 1"),
    ("send 0 0 1 data ", " 1"),
    ("send 0 0 1 data 1 ", ""),
    ("close ", " 0 1 data"),
    ("close 0 ", " 1 data"),
    ("close 0 0 ", " data"),
];

/// Such a number of a network is out of range.
fn long_in_a_network(rt: &impl Abort, alloc: Global) -> Result<(), Fail> {
    for (text, number, line, front) in NUMBERS_OF_A_NETWORK {
        let told = network_with_long(alloc, text, *number, front)?;
        is_told(rt, told, Some((*line, Why::Range)), front);
    }
    Ok(())
}

/// Such a number of traffic is out of range.
fn long_in_traffic(rt: &impl Abort, alloc: Global) -> Result<(), Fail> {
    for (front, back) in NUMBERS_OF_TRAFFIC {
        let told = traffic_with_long(alloc, front, back)?;
        is_told(rt, told, Some((2, Why::Range)), front);
    }
    Ok(())
}

#[test]
fn numbers_of_a_thousand_digits_are_out_of_range(rt: HostRuntime) -> Result<(), Fail> {
    long_in_a_network(&rt, rt.alloc())?;
    long_in_traffic(&rt, rt.alloc())
}

/// As many bytes as a text may have, without a line end.
#[test]
fn a_huge_line_has_no_end(rt: HostRuntime) -> Result<(), Fail> {
    let text = vec![in rt.alloc(); b'x'; 8_388_608]?;
    let wanted = Some((1, Why::NoEnd));
    is_told(&rt, network_fault(text.as_slice()), wanted, "network");
    let told = traffic_fault(rt.alloc(), TWO_NODES, text.as_slice())?;
    is_told(&rt, told, wanted, "traffic");
    Ok(())
}
