//! Steps of the core, of which one wants memory.

use crate::cases::{NINE_NODES, TWO_NODES, lane, network};
use crate::seen::Seen;
use crate::turns::view;
use std::alloc::Global;
use worm_core::{LaneView, Net, OfferFault, Place, RunSoFar, Step, StepFault};
use worm_flit::{Lane, Packet};

/// A network whose steps are tried, and what was seen of it.
struct Ground {
    alloc: Global,
    net: Net,
    seen: Seen,
}

impl Drop for Ground {
    /// Written out, so that a trial that ends calls it: a derived one stands in each trial, part by part.
    fn drop(self) {
        let Ground {
            alloc: _,
            net: _,
            seen: _,
        } = self;
    }
}

impl Ground {
    /// The network of a text, or what was seen in its place.
    fn new(alloc: Global, text: &[u8]) -> Result<Ground, Seen> {
        match network(alloc, text) {
            Ok(net) => Ok(Ground {
                alloc,
                net,
                seen: Seen::Whole,
            }),
            Err(seen) => Err(seen),
        }
    }

    /// This was seen, too.
    fn note(&mut self, seen: Seen) {
        self.seen = self.seen.and(seen);
    }

    /// How far a run of the steps came.
    fn tried(&mut self, steps: &[Step]) -> RunSoFar {
        self.net.run(steps)
    }

    /// All of the steps are taken, once there is memory again.
    fn take_rest(&mut self, steps: &[Step]) -> Seen {
        let so_far = self.tried(steps);
        Seen::Refused.only_if(so_far.fault.is_none() && so_far.done == steps.len())
    }

    /// Takes the steps, and those that memory stopped once more.
    fn take(&mut self, steps: &[Step]) {
        let so_far = self.tried(steps);
        let seen = match so_far.fault {
            None => Seen::Whole.only_if(so_far.done == steps.len()),
            Some(StepFault::NoMemory) if so_far.done < steps.len() => {
                self.take_rest(&steps[so_far.done..])
            }
            Some(_) => Seen::Wrong,
        };
        self.note(seen);
    }

    /// The flit of word 7 from node 0 to node 8 stands there.
    fn stands_at(&mut self, place: Place) {
        let seen = match view(self.alloc, &self.net, lane(0, 8)) {
            Ok((view, seen)) => seen.only_if(is_only_at(&view, place)),
            Err(seen) => seen,
        };
        self.note(seen);
    }

    /// The lane's source is asked to close it and then for a packet on it, which it refuses, since the lane was closed.
    fn close_and_send(&mut self, lane: Lane) {
        let Ok(packet) = Packet::new(lane, &[5]) else {
            return self.note(Seen::Wrong);
        };
        let node = lane.src;
        let steps = [Step::Close { node, lane }, Step::Offer { node, packet }];
        let mut so_far = self.tried(&steps);
        if so_far.fault == Some(StepFault::NoMemory) {
            self.note(Seen::Refused.only_if(so_far.done == 0));
            so_far = self.tried(&steps);
        }
        let closed = Some(StepFault::Refused(OfferFault::LaneClosed));
        self.note(Seen::Whole.only_if(so_far.done == 1 && so_far.fault == closed));
    }

    /// One flit was accepted.
    fn has_one(&mut self) {
        let one = self.net.totals().injected == 1;
        self.note(Seen::Whole.only_if(one));
    }
}

/// A flit of word 7, which stands there, is all that is under way, and nothing was delivered.
fn is_only_at(view: &LaneView, place: Place) -> bool {
    match view.underway.as_slice() {
        [held] => view.delivered == 0 && held.place == place && held.flit.word == 7,
        _ => false,
    }
}

/// A place in an input buffer, on channel 0.
fn buffer(node: u8, port: u8) -> Place {
    Place::Buffer { node, port, vc: 0 }
}

/// A place on a link, on channel 0.
fn link(node: u8, port: u8) -> Place {
    Place::Link { node, port, vc: 0 }
}

/// The channel 0 of this port of the node is routed.
fn route(node: u8, port: u8) -> Step {
    Step::Route { node, port, vc: 0 }
}

/// It is granted channel 0.
fn grant(node: u8, port: u8) -> Step {
    let (vc, out_vc) = (0, 0);
    Step::Grant {
        node,
        port,
        vc,
        out_vc,
    }
}

/// Its front flit is let out.
fn send(node: u8, port: u8) -> Step {
    Step::Send { node, port, vc: 0 }
}

/// The flit on the link into this port of the node is taken.
fn take(node: u8, port: u8) -> Step {
    Step::Take { node, port }
}

/// From node 0 by node 1 into the buffer of node 2, at the corner.
fn go_to_the_corner(ground: &mut Ground) {
    let Ok(packet) = Packet::new(lane(0, 8), &[7]) else {
        return ground.note(Seen::Wrong);
    };
    ground.take(&[
        Step::Offer { node: 0, packet },
        Step::Feed { node: 0, class: 0 },
        route(0, 4),
        grant(0, 4),
        send(0, 4),
        take(1, 0),
        route(1, 0),
        grant(1, 0),
        send(1, 0),
        take(2, 0),
    ]);
}

/// From node 0 by nodes 1 and 2 to node 5.
fn go_round(ground: &mut Ground) {
    go_to_the_corner(ground);
    ground.stands_at(buffer(2, 0));
    ground.take(&[route(2, 0), grant(2, 0), send(2, 0)]);
    ground.stands_at(link(2, 3));
    ground.take(&[take(5, 2)]);
    ground.stands_at(buffer(5, 2));
}

/// A flit goes round the corner of three nodes by three.
pub fn round_the_corner(alloc: Global) -> Seen {
    match Ground::new(alloc, NINE_NODES) {
        Ok(mut ground) => {
            go_round(&mut ground);
            ground.seen
        }
        Err(seen) => seen,
    }
}

/// A lane that was closed takes no packet.
pub fn closed_lane(alloc: Global) -> Seen {
    match Ground::new(alloc, TWO_NODES) {
        Ok(mut ground) => {
            ground.close_and_send(lane(0, 1));
            ground.has_one();
            ground.seen
        }
        Err(seen) => seen,
    }
}
