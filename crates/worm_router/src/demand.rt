//! What the channel allocator goes over, kept as it comes.

ghost use Rattle.std.specs.Prelude.{◌≡◌, ◌<◌, ◌≤◌, Some, None, IsTrue, false, true, replicate};
ghost use Rattle.worm_vcalloc.specs.Table.{IsTable, with_cell};
ghost use Rattle.worm_router.specs.Tables.{PutsRow, PutsRows};
ghost use Rattle.worm_router.specs.Demand.{GrantsNothing};

use std::marker::Model;
use worm_vcalloc::{FreeChannels, VcRequest, VcRequests};

/// Who asks for an output channel, and which are free.
#[derive(Drop)]
pub struct Demand {
    grants_nothing: bool,
    requests: VcRequests,
    free: FreeChannels,
}

impl Model for Demand {
    ghost use Rattle.std.specs.Prelude.{IsTrue};
    ghost use Rattle.worm_router.specs.Demand.{DemandView, GrantsNothing};

    ghost Value = { DemandView };

    ghost view = { λ d. record { requests = d.requests; free = d.free } };

    ghost invariant = { λ d. IsTrue d.grants_nothing → GrantsNothing d.requests d.free };
}

fn free_port(free: &mut FreeChannels, port: u8, vcs: u8)
    requires port { port < 7 }
    requires vcs { vcs ≤ 8 }
    requires shape { IsTable free.old }
    ensures { PutsRow false (λ channel. true) vcs port free.old free.new }
{
    for channel in 0..vcs {
        free[usize::from(port)][usize::from(channel)] = true;
    }
}

fn all_free(ports: u8, vcs: u8) -> FreeChannels
    requires ports { ports ≤ 7 }
    requires vcs { vcs ≤ 8 }
    ensures { PutsRows false (λ port channel. true) vcs ports result }
{
    let mut free = [[false; 8]; 7];
    for port in 0..ports {
        free_port(&mut free, port, vcs);
    }
    free
}

impl Demand {
    /// No request, and all channels of so many ports free.
    pub fn new(ports: u8, vcs: u8) -> Demand
        requires ports { ports ≤ 7 }
        requires vcs { vcs ≤ 8 }
        ensures requests { result.requests ≡ replicate 7 (replicate 8 None) }
        ensures free { PutsRows false (λ port channel. true) vcs ports result.free }
    {
        Demand {
            requests: VcRequests::new(),
            free: all_free(ports, vcs),
            grants_nothing: true,
        }
    }

    /// What the waiting input channels ask for.
    pub fn requests(&self) -> &VcRequests
        ensures { result.now ≡ self.now.requests }
    {
        &self.requests
    }

    /// Which output channels are free.
    pub fn free(&self) -> &FreeChannels
        ensures { result.now ≡ self.now.free }
    {
        &self.free
    }

    /// From now on the input channel asks for this.
    pub fn ask(&mut self, port: u8, vc: u8, request: VcRequest)
        requires port { port < 7 }
        requires vc { vc < 8 }
        ensures { self.new ≡ record self.old { requests = with_cell self.old.requests port vc (Some request) } }
    {
        self.requests.add(port, vc, request);
        self.grants_nothing = false;
    }

    /// The input channel has got this output channel: it asks no more, and that is free no more.
    pub fn meet(&mut self, port: u8, vc: u8, out: u8, out_vc: u8)
        requires port { port < 7 }
        requires vc { vc < 8 }
        requires out { out < 7 }
        requires out_vc { out_vc < 8 }
        ensures { self.new ≡ record {
          requests = with_cell self.old.requests port vc None;
          free = with_cell self.old.free out out_vc false;
        } }
    {
        self.requests.remove(port, vc);
        self.free[usize::from(out)][usize::from(out_vc)] = false;
        self.grants_nothing = false;
    }

    /// The output channel is free again.
    pub fn release(&mut self, out: u8, out_vc: u8)
        requires out { out < 7 }
        requires out_vc { out_vc < 8 }
        ensures { self.new ≡ record self.old { free = with_cell self.old.free out out_vc true } }
    {
        self.free[usize::from(out)][usize::from(out_vc)] = true;
        self.grants_nothing = false;
    }

    /// Whether a pass is known to grant nothing: no request is for a free channel. False tells nothing.
    pub fn grants_nothing(&self) -> bool
        ensures { IsTrue result → GrantsNothing self.now.requests self.now.free }
    {
        self.grants_nothing
    }

    /// Keeps it that a pass grants nothing, until that may change.
    pub fn set_grants_nothing(&mut self)
        requires { GrantsNothing self.old.requests self.old.free }
        ensures { self.new ≡ self.old }
    {
        self.grants_nothing = true;
    }
}
