//! What both readers say of texts with bytes that no field has: in each field, and at each end of a line.

use crate::cases::{Told, are_equal, is_told, joined, network_fault, traffic_fault};
use std::alloc::Global;
use std::process::Abort;
use std::test::Fail;
use worm_cases::{THREE_BY_TWO, TWO_NODES, TWO_WORDS, WORD_AND_MARK};
use worm_text::Why;

/// The text with a byte more at this place.
fn with_byte(alloc: Global, text: &[u8], place: usize, byte: u8) -> Result<Vec<u8>, Fail> {
    let (front, back) = text.split_at(place.min(text.len()));
    joined(alloc, &[front, &[byte], back])
}

/// What is wrong with a field of two nodes' text that has a byte too many, by line and by place in the line.
fn network_why(line: u32, field: u32) -> Why {
    match (line, field) {
        (1, _) => Why::Header,
        (_, 0) => Why::UnknownWord,
        (5, _) => Why::Name,
        (_, _) => Why::Number,
    }
}

/// The same of the text of three by two nodes.
fn uneven_why(line: u32, field: u32) -> Why {
    match (line, field) {
        (1, _) => Why::Header,
        (_, 0) | (5, 2) => Why::UnknownWord,
        (5, 1) => Why::Name,
        (_, _) => Why::Number,
    }
}

/// The same of traffic.
fn traffic_why(line: u32, field: u32) -> Why {
    match (line, field) {
        (1, _) => Why::Header,
        (_, 0) => Why::UnknownWord,
        (_, 4) => Why::Name,
        (_, _) => Why::Number,
    }
}

/// A place of a text where a field begins or ends, with its line and its place in the line, counted from 0.
type Border = (usize, u32, u32);

/// Where fields of a text begin and end.
fn borders(alloc: Global, text: &[u8]) -> Result<Vec<Border>, Fail> {
    let mut found = Vec::new(alloc);
    let (mut line, mut field) = (1u32, 0u32);
    let mut begins = true;
    for (at, byte) in text.iter().enumerate() {
        let ends = *byte == b' ' || *byte == b'\n';
        if begins || ends {
            found.push((at, line, field))?;
        }
        match *byte {
            b'\n' => {
                line = line.saturating_add(1);
                field = 0;
            }
            b' ' => field = field.saturating_add(1),
            _ => (),
        }
        begins = ends;
    }
    Ok(found)
}

/// The reader says of a text with the byte at the place what is wanted.
fn is_told_at(rt: &impl Abort, told: Told, wanted: Told, byte: u8, at: usize) {
    are_equal(rt, (byte, at, told), (byte, at, wanted));
}

/// What the reader says of a network's text with the byte there.
fn network_with_byte(alloc: Global, text: &[u8], at: usize, byte: u8) -> Result<Told, Fail> {
    let text = with_byte(alloc, text, at, byte)?;
    Ok(network_fault(text.as_slice()))
}

/// What the reader says of traffic of two nodes with the byte there.
fn traffic_with_byte(alloc: Global, text: &[u8], at: usize, byte: u8) -> Result<Told, Fail> {
    let text = with_byte(alloc, text, at, byte)?;
    traffic_fault(alloc, TWO_NODES, text.as_slice())
}

/// No field of two nodes' text has this byte.
fn network_has_no(rt: &impl Abort, alloc: Global, byte: u8) -> Result<(), Fail> {
    for (at, line, field) in borders(alloc, TWO_NODES)? {
        let told = network_with_byte(alloc, TWO_NODES, at, byte)?;
        is_told_at(rt, told, Some((line, network_why(line, field))), byte, at);
    }
    Ok(())
}

/// No field of the text of three by two nodes has this byte.
fn uneven_has_no(rt: &impl Abort, alloc: Global, byte: u8) -> Result<(), Fail> {
    for (at, line, field) in borders(alloc, THREE_BY_TWO)? {
        let told = network_with_byte(alloc, THREE_BY_TWO, at, byte)?;
        is_told_at(rt, told, Some((line, uneven_why(line, field))), byte, at);
    }
    Ok(())
}

/// No field of the traffic of two nodes has this byte.
fn traffic_has_no(rt: &impl Abort, alloc: Global, text: &[u8], byte: u8) -> Result<(), Fail> {
    for (at, line, field) in borders(alloc, text)? {
        let told = traffic_with_byte(alloc, text, at, byte)?;
        is_told_at(rt, told, Some((line, traffic_why(line, field))), byte, at);
    }
    Ok(())
}

#[test]
fn bytes_that_no_field_has(rt: HostRuntime) -> Result<(), Fail> {
    for byte in [0u8, 13, 255] {
        network_has_no(&rt, rt.alloc(), byte)?;
        uneven_has_no(&rt, rt.alloc(), byte)?;
        traffic_has_no(&rt, rt.alloc(), TWO_WORDS, byte)?;
        traffic_has_no(&rt, rt.alloc(), WORD_AND_MARK, byte)?;
    }
    Ok(())
}

/// The text with a carriage return at each end of a line.
fn with_returns(alloc: Global, text: &[u8]) -> Result<Vec<u8>, Fail> {
    let mut changed = Vec::new(alloc);
    for byte in text {
        if *byte == b'\n' {
            changed.push(13)?;
        }
        changed.push(*byte)?;
    }
    Ok(changed)
}

/// What the reader says of a network's text with those.
fn network_with_returns(alloc: Global, text: &[u8]) -> Result<Told, Fail> {
    let text = with_returns(alloc, text)?;
    Ok(network_fault(text.as_slice()))
}

/// What the reader says of the text of two words with those.
fn traffic_with_returns(alloc: Global) -> Result<Told, Fail> {
    let text = with_returns(alloc, TWO_WORDS)?;
    traffic_fault(alloc, TWO_NODES, text.as_slice())
}

#[test]
fn lines_that_end_with_a_carriage_return(rt: HostRuntime) -> Result<(), Fail> {
    let wanted = Some((1, Why::Header));
    let told = network_with_returns(rt.alloc(), TWO_NODES)?;
    is_told(&rt, told, wanted, "a network");
    let told = network_with_returns(rt.alloc(), THREE_BY_TWO)?;
    is_told(&rt, told, wanted, "a network of two radices");
    let told = traffic_with_returns(rt.alloc())?;
    is_told(&rt, told, wanted, "traffic");
    Ok(())
}
