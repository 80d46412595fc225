//! How many flits and packets all sources accepted, and how many flits all sinks took.

ghost use Rattle.std.specs.Prelude.{◌≡◌, ◌==◌, ◌<◌, ◌≤◌, ◌*◌, ◌^◌, length};
ghost use Rattle.worm_mesh.specs.Address.{node_count};
ghost use Rattle.worm_theory.specs.Steps.{packets_in};
ghost use Rattle.worm_region.specs.State.{sink_at};
ghost use Rattle.worm_region.specs.Totals.{accepted_below, accepted_total, delivered_total, injected_below};
ghost use Rattle.worm_region.specs.Totals.{injected_total};

use crate::Net;
use worm_flit::{Flit, is_closing};

/// The flits that all sources accepted and all sinks took, and the packets and marks that all sources accepted.
#[derive(Clone, Copy, Debug, PartialEq, Eq)]
pub struct Totals {
    /// Flits accepted, a mark as one.
    pub injected: u128,
    /// Flits delivered, a mark as one.
    pub delivered: u128,
    /// Packets accepted, and marks.
    pub accepted: u128,
}

fn packets_ended(flits: &[Flit]) -> u64
    ensures value { result ≡ packets_in flits.now }
    ensures bound { result ≤ length flits.now }
{
    let mut ended = 0u64;
    for flit in flits {
        if is_closing(flit.kind) {
            ended += 1;
        }
    }
    ended
}

impl Net {
    /// The sums over all sources and sinks.
    pub fn totals(&self) -> Totals
        ensures injected { result.injected ≡ injected_total self.now }
        ensures delivered { result.delivered ≡ delivered_total self.now }
        ensures accepted { result.accepted ≡ accepted_total self.now }
    {
        let mut totals = Totals {
            injected: 0,
            delivered: 0,
            accepted: 0,
        };
        for node in 0..self.nodes() {
            let here = self.node_totals(node as u8);
            totals = Totals {
                injected: totals.injected + here.injected,
                delivered: totals.delivered + here.delivered,
                accepted: totals.accepted + here.accepted,
            };
        }
        totals
    }

    /// Whether as many flits were delivered as accepted, so that a drain is over. Reads one count, or lengths alone.
    pub fn is_drained(&self) -> bool
        ensures { result ≡ (injected_total self.now == delivered_total self.now) }
    {
        if let Some(under_way) = self.fabric().under_way() {
            return under_way == 0;
        }
        let (injected, delivered) = self.flits();
        injected == delivered
    }

    fn flits(&self) -> (u128, u128)
        ensures injected { result.0 ≡ injected_total self.now }
        ensures delivered { result.1 ≡ delivered_total self.now }
    {
        let mut injected = 0u128;
        let mut delivered = 0u128;
        for node in 0..self.nodes() {
            injected += self.node_injected(node as u8);
            delivered += self.delivered(node as u8).len() as u128;
        }
        (injected, delivered)
    }

    fn node_injected(&self, node: u8) -> u128
        requires { node < node_count self.now.mesh }
        ensures value { result ≡ injected_below self.now node (length self.now.channels) }
        ensures few { result ≤ 4 * 2 ^ 64 }
    {
        let mut injected = 0u128;
        for class in 0..self.classes() {
            injected += self.accepted_flits(node, class).len() as u128;
        }
        injected
    }

    fn node_totals(&self, node: u8) -> Totals
        requires { node < node_count self.now.mesh }
        ensures injected { result.injected ≡ injected_below self.now node (length self.now.channels) }
        ensures delivered { result.delivered ≡ length (sink_at self.now node).delivered }
        ensures accepted { result.accepted ≡ accepted_below self.now node (length self.now.channels) }
        ensures few_injected { result.injected ≤ 4 * 2 ^ 64 }
        ensures few_delivered { result.delivered ≤ 2 ^ 64 }
        ensures few_accepted { result.accepted ≤ 4 * 2 ^ 64 }
    {
        let delivered = self.delivered(node).len() as u128;
        let mut accepted = 0u128;
        for class in 0..self.classes() {
            accepted += u128::from(packets_ended(self.accepted_flits(node, class)));
        }
        Totals {
            injected: self.node_injected(node),
            delivered,
            accepted,
        }
    }
}
