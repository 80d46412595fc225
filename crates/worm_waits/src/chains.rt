//! How waits make chains.

ghost use Rattle.std.specs.Prelude.{◌≡◌, ◌≤◌, IfOk, length};
ghost use Rattle.std.specs.List.{find, list_any};
ghost use Rattle.worm_waits.specs.Chains as spec;

use crate::waits::{Reason, Wait};
use std::alloc::{AllocError, Global};
use worm_rows::PacketId;

/// A front at which a chain begins.
#[derive(Clone, Copy, Debug, PartialEq, Eq)]
pub struct Chain {
    /// The front.
    pub wait: Wait,
    /// How many packets follow the front's in it, at most as many as there are waits.
    pub behind: usize,
}

/// The packet that is waited for.
pub fn cause(wait: &Wait) -> PacketId
    ensures { result ≡ spec.cause wait.now.reason }
{
    match wait.reason {
        Reason::Held(packet) | Reason::NoCredit(packet) => packet,
    }
}

fn is_for_another(wait: &Wait) -> bool
    ensures { result ≡ spec.is_for_another wait.now }
{
    cause(wait) != wait.flit.packet
}

fn waits_as(wait: &Wait, packet: PacketId) -> bool
    ensures { result ≡ spec.waits_as packet wait.now }
{
    wait.flit.packet == packet && is_for_another(wait)
}

fn waits_for(wait: &Wait, packet: PacketId) -> bool
    ensures { result ≡ spec.waits_for packet wait.now }
{
    cause(wait) == packet && is_for_another(wait)
}

fn first_of(waits: &[Wait], packet: PacketId) -> Option<Wait>
    ensures { result ≡ find (spec.waits_as packet) waits.now }
{
    waits.iter().copied().find(|wait| waits_as(wait, packet))
}

/// The packet for which a packet waits, if it waits for another.
pub fn next(waits: &[Wait], packet: PacketId) -> Option<PacketId>
    ensures { result ≡ spec.next waits.now packet }
{
    match first_of(waits, packet) {
        Some(wait) => Some(cause(&wait)),
        None => None,
    }
}

fn is_waited_for(waits: &[Wait], packet: PacketId) -> bool
    ensures { result ≡ list_any (spec.waits_for packet) waits.now }
{
    waits.iter().any(|wait| waits_for(wait, packet))
}

fn begins(waits: &[Wait], wait: &Wait) -> bool
    ensures { result ≡ spec.begins waits.now wait.now }
{
    is_for_another(wait) && !is_waited_for(waits, wait.flit.packet)
}

fn count_behind(waits: &[Wait], wait: &Wait) -> usize
    ensures value { result ≡ length (spec.behind waits.now wait.now) }
    ensures few { result ≤ length waits.now }
{
    let mut count = 0usize;
    let mut at = Some(cause(wait));
    for _step in 0..waits.len() {
        match at {
            Some(packet) => {
                count += 1;
                at = next(waits, packet);
            }
            None => {}
        }
    }
    count
}

fn chain_of(waits: &[Wait], wait: &Wait) -> Chain
    ensures { result ≡ spec.chain_of waits.now wait.now }
{
    Chain {
        wait: *wait,
        behind: count_behind(waits, wait),
    }
}

/// All chains, in the order of their fronts.
pub fn chains(alloc: Global, waits: &[Wait]) -> Result<Vec<Chain>, AllocError>
    ensures { IfOk result (λ chains. chains.items ≡ spec.chains waits.now) }
{
    waits
        .iter()
        .filter(|wait| begins(waits, wait))
        .map(|wait| chain_of(waits, wait))
        .collect(alloc)
}
