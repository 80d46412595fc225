//! Each byte of a text replaced by each other one: what is still accepted is the text of what was read, written here
//! from the rules.

use crate::cases::{are_equal, network, traffic};
use std::alloc::Global;
use std::fmt::Display;
use std::process::Abort;
use std::test::Fail;
use worm_cases::{THREE_BY_TWO, TWO_NODES, TWO_WORDS};
use worm_core::{Act, Config, Entry, Script};
use worm_flit::{Lane, Packet};

/// What a text says.
#[derive(Clone, Copy)]
enum Kind {
    /// A network in format 1.
    FirstFormat,
    /// A network in format 2.
    SecondFormat,
    /// Traffic of two nodes.
    Traffic,
    /// Traffic of three nodes by two.
    TrafficOfSix,
}

/// The fields, each behind a space.
fn spaced<T: Display>(alloc: Global, fields: &[T]) -> Result<String, Fail> {
    let mut text = String::new(alloc);
    for field in fields {
        write!(text, " {field}")?;
    }
    Ok(text)
}

/// The lines of the classes in format 2.
fn second_classes(alloc: Global, config: &Config) -> Result<String, Fail> {
    let mut text = String::new(alloc);
    for (name, count) in config.classes.iter().zip(&config.channels) {
        let name = name.as_str();
        write!(text, "class {name} channels {count}\n")?;
    }
    Ok(text)
}

/// The text of a network in format 2.
fn second_text(alloc: Global, config: &Config) -> Result<String, Fail> {
    let dims = config.radices.len();
    let radices = spaced(alloc, config.radices.as_slice())?;
    let depth = config.depth;
    let classes = second_classes(alloc, config)?;
    let text = format!(in alloc;
        "wormnet 2\ndims {dims}\nradix{radices}\ndepth {depth}\n{classes}end\n"
    )?;
    Ok(text)
}

/// The lines of the classes in format 1.
fn first_classes(alloc: Global, config: &Config) -> Result<String, Fail> {
    let mut text = String::new(alloc);
    for name in &config.classes {
        let name = name.as_str();
        write!(text, "class {name}\n")?;
    }
    Ok(text)
}

/// The text of a network in format 1.
fn first_text(alloc: Global, config: &Config) -> Result<String, Fail> {
    let radix = config.radices.as_slice().first().copied().unwrap_or(0);
    let dims = config.radices.len();
    let depth = config.depth;
    let classes = first_classes(alloc, config)?;
    let text = format!(in alloc;
        "wormnet 1\nradix {radix}\ndims {dims}\ndepth {depth}\n{classes}end\n"
    )?;
    Ok(text)
}

/// The line that offers a packet.
fn send_line(alloc: Global, turn: u32, packet: &Packet) -> Result<String, Fail> {
    let Lane { src, dst, .. } = packet.lane();
    let words = spaced(alloc, packet.words())?;
    Ok(format!(in alloc; "send {turn} {src} {dst} data{words}\n")?)
}

/// The line of an entry.
fn entry_line(alloc: Global, entry: &Entry) -> Result<String, Fail> {
    let turn = entry.turn;
    match &entry.act {
        Act::Offer(packet) => send_line(alloc, turn, packet),
        Act::Close(lane) => {
            let (src, dst) = (lane.src, lane.dst);
            Ok(format!(in alloc; "close {turn} {src} {dst} data\n")?)
        }
    }
}

/// The lines of all entries.
fn entry_lines(alloc: Global, script: &Script) -> Result<String, Fail> {
    let mut text = String::new(alloc);
    for entry in script.entries() {
        text.push_str(entry_line(alloc, entry)?.as_str())?;
    }
    Ok(text)
}

/// The text of traffic for a network whose only class is `data`.
fn traffic_text(alloc: Global, script: &Script) -> Result<String, Fail> {
    let entries = entry_lines(alloc, script)?;
    Ok(format!(in alloc; "wormtraffic 1\n{entries}end\n")?)
}

/// The text of what is read from traffic of this network; `None` where it is refused.
fn traffic_back(alloc: Global, network: &[u8], text: &[u8]) -> Result<Option<String>, Fail> {
    match traffic(alloc, network, text)? {
        Ok(script) => Ok(Some(traffic_text(alloc, &script)?)),
        Err(_) => Ok(None),
    }
}

/// The text of what is read from a text; `None` where it is refused.
fn read_back(alloc: Global, kind: Kind, text: &[u8]) -> Result<Option<String>, Fail> {
    Ok(match kind {
        Kind::FirstFormat => match network(text) {
            Ok(config) => Some(first_text(alloc, &config)?),
            Err(_) => None,
        },
        Kind::SecondFormat => match network(text) {
            Ok(config) => Some(second_text(alloc, &config)?),
            Err(_) => None,
        },
        Kind::Traffic => traffic_back(alloc, TWO_NODES, text)?,
        Kind::TrafficOfSix => traffic_back(alloc, THREE_BY_TWO, text)?,
    })
}

/// Whether the text is accepted. It is the text of what is read then.
fn is_accepted(rt: &impl Abort, alloc: Global, kind: Kind, text: &[u8]) -> Result<bool, Fail> {
    let Some(back) = read_back(alloc, kind, text)? else {
        return Ok(false);
    };
    are_equal(rt, back.as_bytes(), text);
    Ok(true)
}

/// How many bytes, its own among them, may stand at this place of the text.
fn accepted_at(
    rt: &impl Abort,
    alloc: Global,
    kind: Kind,
    text: &[u8],
    at: usize,
) -> Result<u64, Fail> {
    let mut changed = Vec::from_slice(alloc, text)?;
    let mut accepted = 0u64;
    for byte in 0..256u16 {
        assert!(rt; at < changed.len());
        changed[at] = byte as u8;
        if is_accepted(rt, alloc, kind, changed.as_slice())? {
            accepted = accepted.saturating_add(1);
        }
    }
    Ok(accepted)
}

/// The sum of these over all places.
fn accepted(rt: &impl Abort, alloc: Global, kind: Kind, text: &[u8]) -> Result<u64, Fail> {
    let mut accepted = 0u64;
    for at in 0..text.len() {
        accepted = accepted.saturating_add(accepted_at(rt, alloc, kind, text, at)?);
    }
    Ok(accepted)
}

/// A digit of radix, dims or depth within its range, or another name: 7, 2, 8 and 25 + 3 * 35 ways.
#[test]
fn a_byte_of_a_network_is_replaced(rt: HostRuntime) -> Result<(), Fail> {
    let accepted = accepted(&rt, rt.alloc(), Kind::FirstFormat, TWO_NODES)?;
    are_equal(&rt, accepted, 48 + 147);
    Ok(())
}

/// A digit of a radix, of depth or of channels within its range, or another name: 7 and 7, 8, 7 and 25 + 3 * 35 ways.
#[test]
fn a_byte_of_a_network_of_two_radices_is_replaced(rt: HostRuntime) -> Result<(), Fail> {
    let accepted = accepted(&rt, rt.alloc(), Kind::SecondFormat, THREE_BY_TWO)?;
    are_equal(&rt, accepted, 61 + 159);
    Ok(())
}

/// Another turn, node or word, or two words joined by a digit: 9, 1 and 1, 8 + 9 twice, and 10 ways.
#[test]
fn a_byte_of_traffic_is_replaced(rt: HostRuntime) -> Result<(), Fail> {
    let accepted = accepted(&rt, rt.alloc(), Kind::Traffic, TWO_WORDS)?;
    are_equal(&rt, accepted, 40 + 55);
    Ok(())
}

/// Another turn, node or word: 9, 5 and 5, and 9 ways.
#[test]
fn a_byte_of_traffic_of_two_radices_is_replaced(rt: HostRuntime) -> Result<(), Fail> {
    let text = b"wormtraffic 1\nsend 0 0 5 data 9\nend\n";
    let accepted = accepted(&rt, rt.alloc(), Kind::TrafficOfSix, text)?;
    are_equal(&rt, accepted, 36 + 28);
    Ok(())
}
