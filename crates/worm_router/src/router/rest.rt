//! Whether a turn may pass a router over.

ghost use Rattle.std.specs.Prelude.{◌≡◌, IsTrue, None, replicate};
ghost use Rattle.worm_router.specs.Allocation.{requests, free_channels, after_allocate, switch_grants, after_choose};
ghost use Rattle.worm_router.specs.Demand.{GrantsNothing};
ghost use Rattle.worm_router.specs.Rest.{RoutesNothing, SendsNothing, OwesNothing, IsAtRest};

use crate::router::Router;

impl Router {
    /// True only where a turn would leave the router as it is, as long as no flit and no credit comes.
    pub fn is_at_rest(&self) -> bool
        ensures { IsTrue result → IsAtRest self.now }
    {
        self.routes_nothing()
            && self.allocates_nothing()
            && self.sends_nothing()
            && self.owes_nothing()
    }

    fn routes_nothing(&self) -> bool
        ensures { IsTrue result → RoutesNothing self.now }
    {
        self.unrouted().is_empty()
    }

    pub(super) fn allocates_nothing(&self) -> bool
        ensures asked { IsTrue result → GrantsNothing (requests self.now) (free_channels self.now) }
        ensures after { IsTrue result → after_allocate self.now ≡ self.now }
    {
        self.waiting().is_empty() || self.demand.grants_nothing()
    }

    /// True only where no channel may send: a pass of the switch allocator then grants nothing and changes nothing.
    pub fn sends_nothing(&self) -> bool
        ensures nothing { IsTrue result → SendsNothing self.now }
        ensures chooses { IsTrue result → after_choose self.now ≡ self.now }
        ensures grants { IsTrue result → switch_grants self.now ≡ replicate 7 None }
    {
        self.busy.ready().is_empty()
    }

    fn owes_nothing(&self) -> bool
        ensures { IsTrue result → OwesNothing self.now }
    {
        self.owing().is_empty()
    }
}
