//! How who waits for whom is written.

ghost use Rattle.std.specs.Prelude.{◌≡◌, ◌++◌, IfOk, OnOk, Some, string_bytes};
ghost use Rattle.std.specs.List.{flat_map};
ghost use Rattle.worm_waits.specs.Chains as chain;
ghost use Rattle.worm_waits.specs.Text as spec;
ghost use Rattle.worm_waits.specs.Text.{TellsWaits};

use crate::chains::{Chain, cause, chains, next};
use crate::scene::Scene;
use crate::waits::{Reason, Wait};
use std::alloc::{AllocError, Global};
use std::fmt;
use std::fmt::Write;
use worm_flit::ClassChannels;
use worm_picture::{Packets, node_views};
use worm_rows::{PacketId, Row, Shape};

/// A packet, as it is written.
#[derive(Clone, Copy, Debug, PartialEq, Eq)]
pub struct Name {
    /// The packet.
    pub packet: PacketId,
}

impl fmt::Display for Name {
    ghost output = { λ name. Some (spec.packet_text name.packet) };

    fn fmt<W: fmt::Write>(&self, f: &mut fmt::Formatter<W>) -> fmt::Result {
        let src = self.packet.lane.src;
        let dst = self.packet.lane.dst;
        let class = self.packet.lane.class;
        let number = self.packet.number;
        write!(f, "lane {src} to {dst} class {class} packet {number}")
    }
}

impl fmt::Display for Reason {
    ghost output = { λ reason. Some (spec.reason_text reason) };

    fn fmt<W: fmt::Write>(&self, f: &mut fmt::Formatter<W>) -> fmt::Result {
        match *self {
            Reason::Held(packet) => {
                let name = Name { packet };
                write!(f, "held by {name}")
            }
            Reason::NoCredit(packet) => {
                let name = Name { packet };
                write!(f, "no credit behind {name}")
            }
        }
    }
}

fn put(text: &mut String, more: &str) -> Result<(), AllocError>
    ensures { OnOk result (string_bytes text.new ≡ string_bytes text.old ++ more.now) }
{
    text.push_str(more)
}

fn add_wait(text: &mut String, wait: &Wait) -> Result<(), AllocError>
    ensures { OnOk result (string_bytes text.new ≡ string_bytes text.old ++ spec.wait_line wait.now) }
{
    let node = wait.flit.spot.node;
    let entered = wait.flit.spot.port;
    let vc = wait.flit.spot.vc;
    let name = Name {
        packet: wait.flit.packet,
    };
    let index = wait.flit.index;
    let port = wait.port;
    let reason = wait.reason;
    write!(
        text,
        "node {node} port {entered} channel {vc}: {name} flit {index} wants port {port}, {reason}\n"
    )
}

fn add_waits(text: &mut String, waits: &[Wait]) -> Result<(), AllocError>
    ensures { OnOk result (string_bytes text.new ≡ string_bytes text.old ++ flat_map spec.wait_line waits.now) }
{
    for wait in waits {
        add_wait(text, wait)?;
    }
    Ok(())
}

fn add_next(text: &mut String, packet: PacketId) -> Result<(), AllocError>
    ensures { OnOk result (string_bytes text.new ≡ string_bytes text.old ++ spec.next_text packet) }
{
    let name = Name { packet };
    write!(text, " waits for {name}")
}

fn add_behind(text: &mut String, waits: &[Wait], wait: &Wait) -> Result<(), AllocError>
    ensures { OnOk result (string_bytes text.new
        ≡ string_bytes text.old ++ flat_map spec.next_text (chain.behind waits.now wait.now)) }
{
    let mut at = Some(cause(wait));
    for _step in 0..waits.len() {
        match at {
            Some(packet) => {
                add_next(text, packet)?;
                at = next(waits, packet);
            }
            None => {}
        }
    }
    Ok(())
}

fn add_chain(text: &mut String, waits: &[Wait], wait: &Wait) -> Result<(), AllocError>
    ensures { OnOk result (string_bytes text.new ≡ string_bytes text.old ++ spec.chain_line waits.now wait.now) }
{
    let name = Name {
        packet: wait.flit.packet,
    };
    write!(text, "{name}")?;
    add_behind(text, waits, wait)?;
    put(text, "\n")
}

fn add_if_of(
    text: &mut String,
    waits: &[Wait],
    chain: &Chain,
    behind: usize,
) -> Result<(), AllocError>
    ensures { OnOk result (string_bytes text.new
        ≡ string_bytes text.old ++ spec.line_if_of waits.now behind chain.now) }
{
    if chain.behind == behind {
        add_chain(text, waits, &chain.wait)
    } else {
        Ok(())
    }
}

fn add_chains_of(
    text: &mut String,
    waits: &[Wait],
    chains: &[Chain],
    behind: usize,
) -> Result<(), AllocError>
    ensures { OnOk result (string_bytes text.new
        ≡ string_bytes text.old ++ flat_map (spec.line_if_of waits.now behind) chains.now) }
{
    for chain in chains {
        add_if_of(text, waits, chain, behind)?;
    }
    Ok(())
}

fn add_chains(text: &mut String, waits: &[Wait], chains: &[Chain]) -> Result<(), AllocError>
    ensures { OnOk result (string_bytes text.new
        ≡ string_bytes text.old ++ spec.chain_lines waits.now chains.now) }
{
    let most = waits.len();
    for less in 0..most {
        add_chains_of(text, waits, chains, most - less)?;
    }
    Ok(())
}

fn waits_text(alloc: Global, waits: &[Wait]) -> Result<String, AllocError>
    ensures { IfOk result (λ text. string_bytes text ≡ spec.waits_text waits.now) }
{
    let chains = chains(alloc, waits)?;
    let mut text = String::new(alloc);
    put(&mut text, "Fronts that cannot go on:\n")?;
    add_waits(&mut text, waits)?;
    put(&mut text, "\nChains, the longest first:\n")?;
    add_chains(&mut text, waits, chains.as_slice())?;
    Ok(text)
}

/// Who waits for whom in the network of a report's rows, with buffers of `depth` flits, 1 to 16.
///
/// A line for each front of a buffer that cannot go on, by node, port and channel: its packet and flit, the port that
/// it wants, and the packet that holds its way or is first in the channel that lacks a credit. Then a line for each
/// chain, the longest first: a packet, the one for which it waits, and so on.
pub fn who_waits(
    alloc: Global,
    shape: &Shape,
    channels: &ClassChannels,
    depth: u8,
    rows: &[Row],
) -> Result<String, AllocError>
    ensures { IfOk result (λ text. TellsWaits shape.now channels.now depth rows.now (string_bytes text)) }
{
    let packets = Packets::of(alloc, rows)?;
    let views = node_views(alloc, shape, rows, &packets)?;
    let scene = Scene {
        shape,
        channels,
        depth,
        rows,
        packets: &packets,
        views: views.as_slice(),
    };
    let waits = scene.waits(alloc)?;
    waits_text(alloc, waits.as_slice())
}
