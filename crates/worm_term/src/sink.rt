ghost use Rattle.std.specs.Prelude.{◌≡◌, [], ◌&&◌, OnOk, IfErr};
ghost use Rattle.worm_flit.specs.Kinds.{is_mark};
ghost use Rattle.worm_flit.specs.Stamps.{is_of_lane};
ghost use Rattle.worm_term.specs.Sink.{after_take, has_mark};

use std::alloc::Global;
use std::marker::Model;
use worm_flit::{Flit, Kind, Lane};

/// Where the packets for a node come out: the list of what arrived.
#[derive(Drop)]
pub struct Sink {
    node: u8,
    delivered: Vec<Flit>,
}

impl Model for Sink {
    ghost use Rattle.worm_term.specs.Sink.{SinkState};

    ghost Value = { SinkState };

    ghost view = { λ s. record { node = s.node; delivered = s.delivered.items } };
}

fn is_mark_of(flit: Flit, lane: Lane) -> bool
    ensures { result ≡ (is_mark flit.kind && is_of_lane lane flit) }
{
    matches!(flit.kind, Kind::Close)
        && flit.lane.src == lane.src
        && flit.lane.dst == lane.dst
        && flit.lane.class == lane.class
}

impl Sink {
    /// The sink of a node, at which nothing has arrived.
    pub fn new(alloc: Global, node: u8) -> Sink
        ensures { result ≡ record { node = node; delivered = [] } }
    {
        Sink {
            node,
            delivered: Vec::new(alloc),
        }
    }

    /// Takes a flit for this node in. Where memory was refused it comes back, and the sink is as it was.
    pub fn take(&mut self, flit: Flit) -> Result<(), Flit>
        requires { flit.lane.dst ≡ self.old.node }
        ensures ok { OnOk result (self.new ≡ after_take self.old flit) }
        ensures err { IfErr result (λ f. (f ≡ flit) × (self.new ≡ self.old)) }
    {
        match self.delivered.push(flit) {
            Ok(()) => Ok(()),
            Err(failed) => Err(failed.value),
        }
    }

    /// The flits that arrived, in order of arrival.
    pub fn delivered(&self) -> &[Flit]
        ensures { result.now ≡ self.now.delivered }
    {
        self.delivered.as_slice()
    }

    /// Whether the lane's close mark has arrived here.
    pub fn closed(&self, lane: Lane) -> bool
        ensures { result ≡ has_mark self.now lane }
    {
        self.delivered.iter().any(|flit| is_mark_of(*flit, lane))
    }
}
