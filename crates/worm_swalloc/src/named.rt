ghost use Rattle.std.specs.Prelude.{◌≡◌, ◌<◌, None, Some, replicate, slice_index_or, slice_set};
ghost use Rattle.worm_swalloc.specs.SwAlloc.{AreAskers};

use crate::grant::SwGrant;
use std::marker::Model;
use worm_vcalloc::ChannelSet;

/// What the input ports name in the first half of a pass, filed by output port: the second half skips the others.
#[derive(Drop)]
pub(crate) struct Named {
    requests: [Option<SwGrant>; 7],
    /// The input ports that ask for each output port: a channel stands for an input port here.
    askers: ChannelSet,
}

impl Model for Named {
    ghost use Rattle.std.specs.Prelude.{List, Option};
    ghost use Rattle.worm_swalloc.specs.SwAlloc.{AreAskers};
    ghost use Rattle.worm_swalloc.specs.declared.grant.SwGrant.{SwGrant};

    ghost Value = { List (Option SwGrant) };

    ghost view = { λ n. n.requests };

    ghost invariant = { λ n. AreAskers n.requests n.askers };
}

impl Named {
    pub(crate) fn new() -> Named
        ensures { result ≡ replicate 7 None }
    {
        Named {
            requests: [None; 7],
            askers: ChannelSet::new(),
        }
    }

    /// A request for an output port past the seventh is kept and never met.
    pub(crate) fn put(&mut self, port: u8, request: SwGrant)
        requires port { port < 7 }
        requires none { slice_index_or self.old port None ≡ None }
        ensures { self.new ≡ slice_set self.old port (Some request) }
    {
        self.requests[port as usize] = Some(request);
        if request.out < 7 {
            self.askers.put(request.out, port, true);
        }
    }

    pub(crate) fn get(&self, port: u8) -> Option<SwGrant>
        requires { port < 7 }
        ensures { result ≡ slice_index_or self.now port None }
    {
        self.requests[usize::from(port)]
    }

    pub(crate) fn into_requests(self) -> [Option<SwGrant>; 7]
        ensures { result ≡ self }
    {
        self.requests
    }

    pub(crate) fn askers(&self) -> ChannelSet
        ensures { AreAskers self.now result }
    {
        self.askers
    }
}
