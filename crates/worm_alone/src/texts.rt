//! The two texts: how they are read, what they say, and the network that they open.

ghost use Rattle.std.specs.Prelude.{IfOk, IfErr, IfSome};
ghost use Rattle.worm_region.specs.NewNet.{IsFresh};
ghost use Rattle.worm_region.specs.State.{texts_of};
ghost use Rattle.worm_script.specs.Script.{AreInOrder};
ghost use Rattle.worm_text.specs.Network.{view, Keeps as KeepsRules};
ghost use Rattle.worm_text.specs.ScriptView.{said_of};
ghost use Rattle.worm_text.specs.declared.format.Format.{Format};
ghost use Rattle.worm_alone.specs.Programs.{GaveBoth, IsNotAccepted, ReadsNot, SaysNetwork, SaysTraffic, stream};

use crate::fault::ProgramFault;
use std::alloc::Global;
use std::io::Read;
use worm_core::{Config, Net, NetFault, Script};
use worm_text::{ReadFault, Why, read_network, read_text, read_traffic};

/// The most bytes that a text may have: 8 MiB.
pub const MOST_BYTES: usize = 8_388_608;

/// Both texts, as bytes.
#[derive(Drop)]
pub struct Texts {
    /// The network text.
    pub network: Vec<u8>,
    /// The traffic text.
    pub traffic: Vec<u8>,
}

/// What two accepted texts say.
#[derive(Drop)]
pub struct Accepted {
    /// What the network is made from.
    pub config: Config,
    /// What its sources are asked, turn by turn.
    pub script: Script,
}

/// Reads both texts to their end, the network first. `ReadNetwork` and `ReadTraffic` where that reader failed or gave
/// over 8,388,608 bytes, be there memory or not; else `NoMemory` where there was none for a text.
pub fn read_texts<N: Read, F: Read>(
    alloc: Global,
    network: &mut N,
    traffic: &mut F,
) -> Result<Texts, ProgramFault>
    ensures ok { IfOk result (λ t. GaveBoth (stream (N.remaining network.old) (N.remaining network.new))
        (stream (F.remaining traffic.old) (F.remaining traffic.new)) t.network.items t.traffic.items) }
    ensures err { IfErr result
        (ReadsNot (stream (N.remaining network.old) (N.remaining network.new))
        (stream (F.remaining traffic.old) (F.remaining traffic.new))) }
{
    let network = match read_text(alloc, network, MOST_BYTES) {
        Ok(text) => text,
        Err(ReadFault::Unreadable) => return Err(ProgramFault::ReadNetwork),
        Err(ReadFault::NoMemory) => return Err(ProgramFault::NoMemory),
    };
    let traffic = match read_text(alloc, traffic, MOST_BYTES) {
        Ok(text) => text,
        Err(ReadFault::Unreadable) => return Err(ProgramFault::ReadTraffic),
        Err(ReadFault::NoMemory) => return Err(ProgramFault::NoMemory),
    };
    Ok(Texts { network, traffic })
}

/// What both texts say. `Network`, or else `Traffic`, where that text is refused: its first fault and line. `NoMemory`
/// where there was none for an entry of the traffic text.
pub fn accept(alloc: Global, network: &[u8], traffic: &[u8]) -> Result<Accepted, ProgramFault>
    ensures network { IfOk result (λ a. SaysNetwork network.now (view a.config)) }
    ensures traffic { IfOk result (λ a. SaysTraffic (view a.config) traffic.now (said_of a.script)) }
    ensures in_order { IfOk result (λ a. AreInOrder a.script) }
    ensures err { IfErr result (IsNotAccepted network.now traffic.now) }
{
    let config = match read_network(network) {
        Ok(config) => config,
        Err(fault) => return Err(ProgramFault::Network(fault)),
    };
    match read_traffic(alloc, traffic, &config) {
        Ok(script) => {
            script.recall();
            Ok(Accepted { config, script })
        }
        Err(fault) if fault.why == Why::NoMemory => Err(ProgramFault::NoMemory),
        Err(fault) => Err(ProgramFault::Traffic(fault)),
    }
}

/// The network of a configuration that a network text says, with nothing offered; `None` where there is no memory.
pub fn open(alloc: Global, config: &Config) -> Option<Net>
    requires { (format : Format) × KeepsRules format (view config.now) }
    ensures { IfSome result (IsFresh config.now.radices.items config.now.channels.items config.now.depth
        (texts_of config.now.classes.items)) }
{
    match Net::new(alloc, config) {
        Ok(net) => Some(net),
        Err(NetFault::NoMemory) => None,
        Err(NetFault::BadConfig) => unreachable!(),
    }
}
