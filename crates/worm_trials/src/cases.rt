//! Worked cases: networks, and what is offered to them.

ghost use Rattle.std.specs.Prelude.{◌≡◌, ◌<◌, IfErr, IfOk, length};
ghost use Rattle.worm_region.specs.NewNet.{IsConfig, IsFresh};
ghost use Rattle.worm_region.specs.State.{texts_of};

use crate::seen::Seen;
use std::alloc::Global;
use worm_core::{Act, Config, Entry, Net, NetFault, Script, ScriptFault};
use worm_flit::{Lane, Packet};
use worm_text::{TextFault, Why, read_network, read_traffic};

/// Two nodes, one class with one channel.
pub const TWO_NODES: &[u8] = b"wormnet 1\nradix 2\ndims 1\ndepth 2\nclass data\nend\n";

/// Three nodes by three.
pub const NINE_NODES: &[u8] = b"wormnet 1\nradix 3\ndims 2\ndepth 2\nclass data\nend\n";

/// Four nodes by four.
pub const SIXTEEN_NODES: &[u8] = b"wormnet 1\nradix 4\ndims 2\ndepth 2\nclass data\nend\n";

/// A packet of two words, from node 0 to node 1 of two.
pub const TWO_WORDS: &[u8] = b"wormtraffic 1\nsend 0 0 1 data 17 18\nend\n";

/// The lane from one node to another.
pub fn lane(src: u8, dst: u8) -> Lane {
    Lane { src, dst, class: 0 }
}

/// A network and its script, with nothing offered yet.
pub struct Case {
    pub net: Net,
    pub script: Script,
}

impl Drop for Case {
    /// Written out, so that a trial that ends calls it: a derived one stands in each trial, part by part.
    fn drop(self) {
        let Case { net: _, script: _ } = self;
    }
}

impl Case {
    /// The network and the script by themselves.
    pub fn into_inner(self) -> (Net, Script) {
        let Case { net, script } = self;
        (net, script)
    }
}

/// The network of a configuration. In range it is refused for want of memory alone.
fn made(alloc: Global, config: &Config) -> Result<Net, Seen>
    ensures fresh { IfOk result (IsFresh config.now.radices.items config.now.channels.items config.now.depth
        (texts_of config.now.classes.items)) }
    ensures refused { IfErr result (λ seen. IsConfig config.now.radices.items config.now.channels.items
        config.now.depth (length config.now.classes.items) → seen ≡ Seen.Refused) }
{
    match Net::new(alloc, config) {
        Ok(net) => Ok(net),
        Err(NetFault::NoMemory) => Err(Seen::Refused),
        Err(NetFault::BadConfig) => Err(Seen::Wrong),
    }
}

/// The network of a text.
pub fn network(alloc: Global, text: &[u8]) -> Result<Net, Seen> {
    match read_network(text) {
        Ok(config) => made(alloc, &config),
        Err(_) => Err(Seen::Wrong),
    }
}

/// The network of a text, with this script.
fn with_script(alloc: Global, text: &[u8], script: Script) -> Result<Case, Seen> {
    match network(alloc, text) {
        Ok(net) => Ok(Case { net, script }),
        Err(seen) => Err(seen),
    }
}

/// The script that was read, or what was seen in its place.
fn script_in(read: Result<Script, TextFault>) -> Result<Script, Seen> {
    match read {
        Ok(script) => Ok(script),
        Err(fault) if fault.why == Why::NoMemory => Err(Seen::Refused),
        Err(_) => Err(Seen::Wrong),
    }
}

/// The script of two words for the second of two nodes.
fn script_of_two(alloc: Global) -> Result<Script, Seen> {
    match read_network(TWO_NODES) {
        Ok(config) => script_in(read_traffic(alloc, TWO_WORDS, &config)),
        Err(_) => Err(Seen::Wrong),
    }
}

/// Two nodes, and two words for the second.
pub fn two_words(alloc: Global) -> Result<Case, Seen> {
    with_script(alloc, TWO_NODES, script_of_two(alloc)?)
}

/// The words that node `src` of sixteen sends.
pub fn words_of(src: u8) -> [u32; 3] {
    let word = u32::from(src);
    [word, 100 + word, 200 + word]
}

/// In turn 0 the node is offered three words for the node opposite.
fn offer_of(src: u8) -> Result<Entry, Seen>
    requires { src < 16 }
{
    match Packet::new(lane(src, 15 - src), &words_of(src)) {
        Ok(packet) => Ok(Entry {
            turn: 0,
            act: Act::Offer(packet),
        }),
        Err(_) => Err(Seen::Wrong),
    }
}

/// Adds the entry to the script.
fn add(script: &mut Script, entry: Entry) -> Result<(), Seen> {
    match script.push(entry) {
        Ok(()) => Ok(()),
        Err(ScriptFault::NoMemory) => Err(Seen::Refused),
        Err(ScriptFault::TurnFalls) => Err(Seen::Wrong),
    }
}

/// The script of sixteen nodes that are offered three words each.
fn script_of_sixteen(alloc: Global) -> Result<Script, Seen> {
    let mut script = Script::empty(alloc);
    for src in 0u8..16 {
        add(&mut script, offer_of(src)?)?;
    }
    Ok(script)
}

/// Sixteen nodes, each with three words for the node opposite.
pub fn opposite(alloc: Global) -> Result<Case, Seen> {
    with_script(alloc, SIXTEEN_NODES, script_of_sixteen(alloc)?)
}
