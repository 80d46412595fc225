ghost use Rattle.std.specs.Prelude.{◌≡◌, ◌<◌, None, Some, replicate, slice_index_or};
ghost use Rattle.worm_swalloc.specs.SwAlloc.{AreChannelsBelow, AreRequested, AreGranted, granted_of, sole_named};

use std::marker::Model;
use worm_vcalloc::{ChannelMap, ChannelSet};

/// What an input port may send: a channel of it, and the output port that its flit leaves by.
#[derive(Clone, Copy, PartialEq, Eq, Debug)]
pub struct SwGrant {
    /// The channel of the input port, from 0.
    pub vc: u8,
    /// The output port, from 0.
    pub out: u8,
}

/// The output port that each input channel would send to, by port and channel.
pub type ReadyOuts = ChannelMap;

/// What each input port is granted, if anything.
pub type SwGrants = [Option<SwGrant>; 7];

/// The grants of a pass: what each port named, and the set of those granted. Whoever sends takes the set alone.
///
/// ```text
/// let mut left = grants.granted();
/// while let Some((port, vc)) = left.pop_first() { .. }
/// ```
#[derive(Drop)]
pub struct SwMatching {
    requests: [Option<SwGrant>; 7],
    granted: ChannelSet,
}

impl Model for SwMatching {
    ghost use Rattle.std.specs.Prelude.{List, Option};
    ghost use Rattle.worm_swalloc.specs.SwAlloc.{AreChannelsBelow, AreRequested, granted_of};
    ghost use Rattle.worm_swalloc.specs.declared.grant.SwGrant.{SwGrant};

    ghost Value = { List (Option SwGrant) };

    ghost view = { λ g. granted_of g.requests g.granted };

    ghost invariant = { λ g. AreChannelsBelow 8 g.requests × AreRequested g.requests g.granted };
}

impl SwMatching {
    /// No input port may send anything.
    pub fn new() -> SwMatching
        ensures { result ≡ replicate 7 None }
    {
        let granted = ChannelSet::new();
        SwMatching {
            requests: [None; 7],
            granted,
        }
    }

    pub(crate) fn among(requests: [Option<SwGrant>; 7], granted: ChannelSet) -> SwMatching
        requires below { AreChannelsBelow 8 requests }
        requires requested { AreRequested requests granted }
        ensures { result ≡ granted_of requests granted }
    {
        SwMatching { requests, granted }
    }

    pub(crate) fn sole(port: u8, grant: SwGrant) -> SwMatching
        requires port { port < 7 }
        requires channel { grant.vc < 8 }
        ensures { result ≡ sole_named port (Some grant) }
    {
        let mut requests = [None; 7];
        requests[port as usize] = Some(grant);
        let mut granted = ChannelSet::new();
        granted.put(port, grant.vc, true);
        SwMatching::among(requests, granted)
    }

    /// What an input port may send, if anything.
    pub fn get(&self, port: u8) -> Option<SwGrant>
        requires { port < 7 }
        ensures { result ≡ slice_index_or self.now port None }
    {
        let request = self.requests[port as usize]?;
        self.granted.contains(port, request.vc).then_some(request)
    }

    /// What each input port may send, as an array.
    pub fn to_array(&self) -> SwGrants
        ensures { result ≡ self.now }
    {
        // The proof needs how many ports are kept.
        let _ = &self.granted;
        let mut grants = [None; 7];
        for port in 0..7u8 {
            grants[port as usize] = self.get(port);
        }
        grants
    }

    /// The channels that may send, at most one of each input port.
    pub fn granted(&self) -> ChannelSet
        ensures { AreGranted self.now result }
    {
        self.granted
    }
}
