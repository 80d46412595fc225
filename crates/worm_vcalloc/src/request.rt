ghost use Rattle.std.specs.Prelude.{◌≡◌, ℕ, ◌<◌, Some, None, is_some, replicate, true};
ghost use Rattle.worm_vcalloc.specs.ChannelSet.{has};
ghost use Rattle.worm_vcalloc.specs.Table.{cell, with_cell};

use crate::channel_set::ChannelSet;
use crate::rows::entry;
use std::marker::Model;

/// What an input channel waits for: one of some channels of an output port.
#[derive(Clone, Copy, PartialEq, Eq, Debug)]
pub struct VcRequest {
    /// The output port, from 0.
    pub out: u8,
    /// The channels that will do, a bit per channel.
    pub allowed: u8,
}

/// What the input channels wait for, by port and channel. A row's entry at a channel that does not wait is left over.
///
/// ```text
/// let mut waiting = VcRequests::new();
/// waiting.add(0, 1, VcRequest { out: 2, allowed: 0b11 });
/// ```
#[derive(Drop)]
pub struct VcRequests {
    waiting: ChannelSet,
    table: RequestTable,
}

/// A struct of its own: a struct that is seen as a value cannot yet be made with an array of arrays of structs.
#[derive(Drop)]
struct RequestTable {
    rows: [[VcRequest; 8]; 7],
}

impl Model for VcRequests {
    ghost use Rattle.std.specs.Prelude.{List, Option};
    ghost use Rattle.worm_vcalloc.specs.declared.request.VcRequest.{VcRequest};
    ghost use Rattle.worm_vcalloc.specs.Table.{keyed, IsTable};
    ghost use Rattle.worm_vcalloc.specs.VcRequest.{blank};

    ghost Value = { List (List (Option VcRequest)) };

    ghost view = { λ r. keyed blank r.waiting r.table.rows };

    ghost invariant = { λ r. IsTable r.table.rows };
}

impl VcRequests {
    /// No request.
    pub fn new() -> Self
        ensures { result ≡ replicate 7 (replicate 8 None) }
    {
        VcRequests {
            waiting: ChannelSet::new(),
            table: RequestTable {
                rows: [[VcRequest { out: 0, allowed: 0 }; 8]; 7],
            },
        }
    }

    /// The requests of an array by port and channel.
    pub fn from_rows(rows: &[[Option<VcRequest>; 8]; 7]) -> Self
        ensures { result ≡ rows.now }
    {
        let mut requests = VcRequests::new();
        for place in 0..56u8 {
            let (port, vc) = (place / 8, place % 8);
            let row = &rows[port as usize];
            requests.set(port, vc, entry(row, vc));
        }
        requests
    }

    fn set(&mut self, port: u8, vc: u8, request: Option<VcRequest>)
        requires port { port < 7 }
        requires vc { vc < 8 }
        ensures { self.new ≡ with_cell self.old port vc request }
    {
        match request {
            Some(request) => self.add(port, vc, request),
            None => self.remove(port, vc),
        }
    }

    /// What an input channel waits for, if anything.
    pub fn get(&self, port: u8, vc: u8) -> Option<VcRequest>
        requires port { port < 7 }
        requires vc { vc < 8 }
        ensures { result ≡ cell self.now port vc None }
    {
        if self.waiting.contains(port, vc) {
            Some(*self.request(port, vc))
        } else {
            None
        }
    }

    /// By reference, so that a pass reads byte by byte: a read of both right after two byte stores is not forwarded.
    pub(crate) fn request(&self, port: u8, vc: u8) -> &VcRequest
        requires port { port < 7 }
        requires vc { vc < 8 }
        requires waits { is_some (cell self.now port vc None) ≡ true }
        ensures { Some result.now ≡ cell self.now port vc None }
    {
        &self.table.rows[port as usize][vc as usize]
    }

    /// The input channel waits for this. A request for a port or channel that the router lacks is kept and never met.
    pub fn add(&mut self, port: u8, vc: u8, request: VcRequest)
        requires port { port < 7 }
        requires vc { vc < 8 }
        ensures { self.new ≡ with_cell self.old port vc (Some request) }
    {
        self.waiting.put(port, vc, true);
        let row = &mut self.table.rows[port as usize];
        row[vc as usize] = request;
    }

    /// The input channel waits no more.
    pub fn remove(&mut self, port: u8, vc: u8)
        requires port { port < 7 }
        requires vc { vc < 8 }
        ensures { self.new ≡ with_cell self.old port vc None }
    {
        self.waiting.put(port, vc, false);
    }

    /// The input channels that wait.
    pub fn waiting(&self) -> ChannelSet
        ensures { (p v : ℕ) → p < 7 → v < 8 → has result p v ≡ is_some (cell self.now p v None) }
    {
        self.waiting
    }
}
