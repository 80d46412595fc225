//! What compares, and what the readers say of a text.
//!
//! Each call of a reader stands in a function of its own that promises nothing. What a reader promises is long, and a
//! test that knew it of each text that it reads would take a minute to prove.

use std::alloc::Global;
use std::fmt::Debug;
use std::process::Abort;
use std::test::Fail;
use worm_core::{Config, Script};
use worm_text::{TextFault, Why, read_network, read_traffic};

/// What is found is what is wanted. An `assert_eq!` is proved with all that its function holds, so that one here costs
/// less than several there.
pub fn are_equal<T: PartialEq + Debug + Drop>(rt: &impl Abort, found: T, wanted: T) {
    assert_eq!(rt; found, wanted);
}

/// The network of a text, or the text's fault.
pub fn network(text: &[u8]) -> Result<Config, TextFault> {
    read_network(text)
}

/// The traffic of a text for the network of another, or the text's fault.
pub fn traffic(
    alloc: Global,
    network: &[u8],
    text: &[u8],
) -> Result<Result<Script, TextFault>, Fail> {
    let config = read_network(network)?;
    Ok(read_traffic(alloc, text, &config))
}

/// The line of a fault, and what is wrong with it.
pub type Told = Option<(u32, Why)>;

/// What the reader says of a network's text.
pub fn network_fault(text: &[u8]) -> Told {
    match read_network(text) {
        Ok(_) => None,
        Err(fault) => Some((fault.line, fault.why)),
    }
}

/// What the reader says of traffic for a network.
pub fn traffic_fault(alloc: Global, network: &[u8], text: &[u8]) -> Result<Told, Fail> {
    let Ok(config) = read_network(network) else {
        return Err("no network".into());
    };
    match read_traffic(alloc, text, &config) {
        Ok(_) => Ok(None),
        Err(fault) => Ok(Some((fault.line, fault.why))),
    }
}

/// The reader says what is wanted, of a text that is named by this.
pub fn is_told(rt: &impl Abort, told: Told, wanted: Told, text: &str) {
    are_equal(rt, (text, told), (text, wanted));
}

/// The parts of a text, joined.
pub fn joined(alloc: Global, parts: &[&[u8]]) -> Result<Vec<u8>, Fail> {
    let mut whole = Vec::new(alloc);
    for part in parts {
        whole.extend_from_slice(part)?;
    }
    Ok(whole)
}
