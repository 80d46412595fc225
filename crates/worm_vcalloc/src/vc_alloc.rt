ghost use Rattle.std.specs.Prelude.{◌≡◌, ◌*◌, ◌<◌, ◌≤◌, None, List, Option, replicate};
ghost use Rattle.worm_vcalloc.specs.Asked.{IsFiled};
ghost use Rattle.worm_vcalloc.specs.VcAlloc.{VcAllocState, IsChannelMatching, offered, port_pass, vc_pass};
ghost use Rattle.worm_vcalloc.specs.declared.request.VcRequest.{VcRequest};

use crate::asked::Asked;
use crate::channel_map::ChannelMap;
use crate::request::{VcRequest, VcRequests};
use std::marker::Model;

/// Whether each output channel is free, by port and channel.
pub type FreeChannels = [[bool; 8]; 7];

/// The output channel that each input channel is granted, if any, by port and channel.
pub type VcGrants = [[Option<u8>; 8]; 7];

/// The allocator of output channels to the input channels that wait for one (Dally and Towles, chapter 19). Each
/// output channel's arbiter is kept as the place that it asks last. Places are bits of a set, in line order.
///
/// ```text
/// let mut alloc = VcAlloc::new(5, 2);
/// let grants = alloc.grant(&waiting, &free); // grants[0][1] is what channel 1 of input port 0 is granted
/// ```
#[derive(Drop)]
pub struct VcAlloc {
    ports: u8,
    vcs: u8,
    /// For each output channel, the place `8 * port + vc` of the input channel that it asks last.
    places: [[u8; 8]; 7],
}

impl Model for VcAlloc {
    ghost use Rattle.worm_vcalloc.specs.Places.{IsPlaced, arbiters_at};
    ghost use Rattle.worm_vcalloc.specs.VcAlloc.{VcAllocState};

    ghost Value = { VcAllocState };

    ghost view = { λ a. record {
      ports = a.ports;
      vcs = a.vcs;
      arbiters = arbiters_at a.ports a.vcs a.places;
    } };

    ghost invariant = { λ a. IsPlaced a.ports a.vcs a.places };
}

impl VcAlloc {
    /// An allocator for a router of so many ports, 1 to 7, and channels a port, 1 to 8.
    pub fn new(ports: u8, vcs: u8) -> Self
        requires some_port { 0 < ports }
        requires few_ports { ports ≤ 7 }
        requires some_channel { 0 < vcs }
        requires few_channels { vcs ≤ 8 }
        ensures { result ≡ record {
          ports = ports;
          vcs = vcs;
          arbiters = replicate 7 (replicate 8 (record { width = ports * vcs; pointer = 0 }));
        } }
    {
        VcAlloc {
            ports,
            vcs,
            places: [[8 * (ports - 1) + (vcs - 1); 8]; 7],
        }
    }

    /// One pass: each free output channel, by rising port and channel, goes to the requester that its arbiter picks.
    pub fn grant(
        &mut self,
        waiting: &[[Option<VcRequest>; 8]; 7],
        free: &[[bool; 8]; 7],
    ) -> VcGrants
        ensures pass { record {
          alloc = self.new;
          grants = result;
        } ≡ vc_pass waiting.now free.now (record { alloc = self.old; grants = replicate 7 (replicate 8 None) }) }
        ensures matching { IsChannelMatching self.old.ports self.old.vcs waiting.now free.now result }
        ensures ports { self.new.ports ≡ self.old.ports }
        ensures vcs { self.new.vcs ≡ self.old.vcs }
    {
        let requests = VcRequests::from_rows(waiting);
        let mut grants = ChannelMap::new();
        self.grant_waiting(&requests, free, &mut grants);
        grants.to_rows()
    }

    /// The same pass for a caller that keeps what waits: it looks at no other channel, and adds its grants to a map.
    pub fn grant_waiting(
        &mut self,
        waiting: &VcRequests,
        free: &FreeChannels,
        grants: &mut ChannelMap,
    )
        ensures pass { record {
          alloc = self.new;
          grants = grants.new;
        } ≡ vc_pass waiting.now free.now (record { alloc = self.old; grants = grants.old }) }
        ensures matching { grants.old ≡ replicate 7 (replicate 8 None)
            → IsChannelMatching self.old.ports self.old.vcs waiting.now free.now grants.new }
        ensures ports { self.new.ports ≡ self.old.ports }
        ensures vcs { self.new.vcs ≡ self.old.vcs }
    {
        let mut asked = Asked::new();
        asked.file(waiting, self.ports, self.vcs);
        let mut left = asked.ports();
        while let Some(out) = left.pop_first() {
            self.grant_port(out, &asked, free, grants);
        }
    }

    fn grant_port(&mut self, out: u8, asked: &Asked, free: &FreeChannels, grants: &mut ChannelMap)
        requires out { out < self.old.ports }
        requires filed { (waiting : List (List (Option VcRequest)))
            × IsFiled waiting self.old.ports self.old.vcs asked.now }
        ensures pass { (waiting : List (List (Option VcRequest)))
            → IsFiled waiting self.old.ports self.old.vcs asked.now
            → record { alloc = self.new; grants = grants.new }
            ≡ port_pass waiting free.now (record { alloc = self.old; grants = grants.old }) out }
        ensures ports { self.new.ports ≡ self.old.ports }
        ensures vcs { self.new.vcs ≡ self.old.vcs }
    {
        let vcs = self.vcs;
        for channel in 0..vcs {
            if free[out as usize][channel as usize] {
                self.offer(out, channel, asked, grants);
            }
        }
    }

    fn offer(&mut self, out: u8, channel: u8, asked: &Asked, grants: &mut ChannelMap)
        requires out { out < self.old.ports }
        requires channel { channel < self.old.vcs }
        requires filed { (waiting : List (List (Option VcRequest)))
            × IsFiled waiting self.old.ports self.old.vcs asked.now }
        ensures pass { (waiting : List (List (Option VcRequest)))
            → IsFiled waiting self.old.ports self.old.vcs asked.now
            → record { alloc = self.new; grants = grants.new }
            ≡ offered waiting (record { alloc = self.old; grants = grants.old }) out channel }
        ensures ports { self.new.ports ≡ self.old.ports }
        ensures vcs { self.new.vcs ≡ self.old.vcs }
    {
        let last = self.places[out as usize][channel as usize];
        let asking = asked
            .asking(out, channel, self.vcs)
            .difference(&grants.keys());
        if let Some((port, vc)) = asking.first_from(last + 1) {
            let row = &mut self.places[out as usize];
            row[channel as usize] = 8 * port + vc;
            grants.set(port, vc, Some(channel));
        }
    }
}
