//! One pass of each allocator, over what the records state.

ghost use Rattle.std.specs.Prelude.{◌≡◌, ◌+◌, true};
ghost use Rattle.worm_vcalloc.specs.VcAlloc.{IsChannelMatching};
ghost use Rattle.worm_swalloc.specs.SwAlloc.{AreApart, IsSwitchMatching, sw_after, sw_grants};
ghost use Rattle.worm_router.specs.Router.{terminal, width};
ghost use Rattle.worm_router.specs.Allocation.{requests, free_channels, channel_pass, after_allocate, IsSameSize};
ghost use Rattle.worm_router.specs.Allocation.{AreHeld, LeavesRest, ready_outs, switch_grants, after_choose};

use crate::router::Router;
use worm_records::InRecord;
use worm_swalloc::{Ready, SwAlloc, SwGrants, SwMatching};
use worm_vcalloc::{ChannelMap, VcGrants};

fn pass(alloc: &mut SwAlloc, ready: &Ready<'_>, apart: bool) -> SwMatching
    requires { apart ≡ true → AreApart alloc.old ready.now }
    ensures grants { result ≡ sw_grants alloc.old ready.now }
    ensures after { alloc.new ≡ sw_after alloc.old ready.now }
    ensures matching { IsSwitchMatching alloc.old ready.now result }
{
    if apart {
        alloc.grant_each(ready)
    } else {
        alloc.grant_ready(ready)
    }
}

impl Router {
    /// One pass of the channel allocator; each grant goes into both records (Dally and Towles, chapters 16 and 19).
    pub fn allocate(&mut self) -> VcGrants
        ensures grants { result ≡ (channel_pass self.old).grants }
        ensures after { self.new ≡ after_allocate self.old }
        ensures same { IsSameSize self.old self.new }
        ensures matching { IsChannelMatching (terminal self.old + 1) (width self.old) (requests self.old)
            (free_channels self.old) result }
        ensures held { AreHeld self.old self.new result }
        ensures rest { LeavesRest self.old self.new result }
    {
        self.grant_waiting().to_rows()
    }

    /// The same pass for a caller that goes over the granted channels alone.
    pub fn grant_waiting(&mut self) -> ChannelMap
        ensures grants { result ≡ (channel_pass self.old).grants }
        ensures after { self.new ≡ after_allocate self.old }
        ensures same { IsSameSize self.old self.new }
        ensures matching { IsChannelMatching (terminal self.old + 1) (width self.old) (requests self.old)
            (free_channels self.old) result }
        ensures held { AreHeld self.old self.new result }
        ensures rest { LeavesRest self.old self.new result }
    {
        if self.allocates_nothing() {
            return ChannelMap::new();
        }
        let mut grants = ChannelMap::new();
        let (requests, free) = (self.demand.requests(), self.demand.free());
        self.channel_alloc
            .grant_waiting(requests, free, &mut grants);
        let mut left = grants.keys();
        // A pass grants what is asked for and free, and nothing twice, so a grant is written without a test of that.
        while let Some((port, vc)) = left.pop_first() {
            let out_vc = grants.number(port, vc);
            let InRecord::Waiting { out } = self.in_record(port, vc) else {
                unreachable!()
            };
            self.hold(port, vc, out, out_vc);
        }
        // Whoever asks for a channel that was free was granted one, or another was granted that channel.
        self.demand.set_grants_nothing();
        grants
    }

    /// One pass of the switch allocator over what may send now (Dally and Towles, chapter 19). Nothing is sent.
    pub fn choose(&mut self) -> SwGrants
        ensures grants { result ≡ switch_grants self.old }
        ensures after { self.new ≡ after_choose self.old }
        ensures matching { IsSwitchMatching self.old.switch_alloc (ready_outs self.old) result }
    {
        self.grant_ready().to_array()
    }

    /// The same pass for a caller that goes over the granted channels alone.
    pub fn grant_ready(&mut self) -> SwMatching
        ensures grants { result ≡ switch_grants self.old }
        ensures after { self.new ≡ after_choose self.old }
        ensures matching { IsSwitchMatching self.old.switch_alloc (ready_outs self.old) result }
    {
        let among = self.busy.ready();
        let ready = Ready::new(&self.busy.outs, among);
        // Where each port has one channel, no two ask for one output port: each holds the channel that it asks for.
        pass(&mut self.switch_alloc, &ready, self.classes.total() == 1)
    }
}
