//! Networks step by step and turn by turn: what arrives, what is refused, and what is counted.

mod parts;
mod turns;
mod view;

use crate::cases::two_nodes;
use crate::steps::{buffer, close, feed, grant, link, offer, route, send, take};
use crate::trial::{Trial, is_refused};
use worm_cases::lane;
use worm_core::{Moved, NetFault, OfferFault, RunSoFar, StepFault, Totals};

/// The sums of a network that accepted a mark alone, which has not arrived.
const A_MARK: Totals = Totals {
    injected: 1,
    delivered: 0,
    accepted: 1,
};

/// The sums of a network that accepted nothing.
const NOTHING: Totals = Totals {
    injected: 0,
    delivered: 0,
    accepted: 0,
};

#[test]
fn a_line_delivers_in_order(rt: HostRuntime) {
    let mut trial = Trial::new(rt, &[3], 2, &[1]);
    trial.offer_at(0, lane(0, 2, 0), &[1, 2]);
    trial.offer_at(0, lane(1, 2, 0), &[3, 4]);
    trial.takes_turns(0, 4);
    trial.has_words(2, &[1, 2, 3, 4]);
}

#[test]
fn two_classes_take_turns(rt: HostRuntime) {
    let mut trial = Trial::new(rt, &[3], 2, &[1, 1]);
    trial.offer_at(0, lane(0, 2, 0), &[1, 2]);
    trial.offer_at(0, lane(1, 2, 1), &[3, 4]);
    trial.takes_turns(0, 4);
    trial.has_words(2, &[1, 3, 2, 4]);
}

#[test]
fn a_closed_lane_refuses_a_packet(rt: HostRuntime) {
    let mut trial = Trial::new(rt, &[2], 2, &[1]);
    let over = lane(0, 1, 0);
    trial.does([close(over)]);
    let closed = Err(StepFault::Refused(OfferFault::LaneClosed));
    trial.answers([offer(&rt, over, &[5])], closed);
    trial.has_totals(A_MARK);
}

/// A run ends at the step that is refused: the mark before it stands, and what is behind it was never asked.
#[test]
fn a_run_ends_at_a_closed_lane(rt: HostRuntime) {
    let mut trial = Trial::new(rt, &[2], 2, &[1]);
    let over = lane(0, 1, 0);
    let closed = StepFault::Refused(OfferFault::LaneClosed);
    let steps = [
        close(over),
        offer(&rt, over, &[5]),
        offer(&rt, lane(1, 0, 0), &[6]),
    ];
    let so_far = RunSoFar {
        done: 1,
        fault: Some(closed),
    };
    trial.runs(steps, so_far);
    trial.has_totals(A_MARK);
}

/// By a port without a neighbour, on a channel and at a node that are not there, and from the terminal, into which no
/// link leads. Nothing changes.
#[test]
fn places_that_are_not_there(rt: HostRuntime) {
    let mut trial = Trial::new(rt, &[2], 2, &[1]);
    let steps = [
        take(0, 0),
        send(0, 0, 0),
        send(0, 2, 1),
        feed(2, 0),
        take(0, 2),
    ];
    trial.answers(steps, Err(StepFault::NoSuchPlace));
    trial.has_totals(NOTHING);
}

#[test]
fn buffers_of_seventeen_flits_are_refused(rt: HostRuntime) {
    is_refused(&rt, rt.alloc(), &two_nodes(17), NetFault::BadConfig);
}

/// The first flit of a packet takes the one credit of its link: the second waits in its buffer, and no flit comes back.
#[test]
fn a_flit_waits_for_a_credit(rt: HostRuntime) {
    let mut trial = Trial::new(rt, &[2], 1, &[1]);
    let over = lane(0, 1, 0);
    trial.does([
        offer(&rt, over, &[17, 18]),
        feed(0, 0),
        route(0, 2, 0),
        grant(0, 2, 0, 0),
        send(0, 2, 0),
        feed(0, 0),
    ]);
    trial.answers([send(0, 2, 0), take(0, 1)], Ok(Moved::Idle));
    trial.stands(over, &[(0, 0, link(0, 1, 0)), (0, 1, buffer(0, 2, 0))]);
}

#[test]
fn a_run_counts_idle_steps(rt: HostRuntime) {
    let mut trial = Trial::new(rt, &[2], 1, &[1]);
    let steps = [
        offer(&rt, lane(0, 1, 0), &[17, 18]),
        feed(0, 0),
        route(0, 2, 0),
        grant(0, 2, 0, 0),
        send(0, 2, 0),
        feed(0, 0),
        send(0, 2, 0),
        take(0, 1),
    ];
    let so_far = RunSoFar {
        done: 8,
        fault: None,
    };
    trial.runs(steps, so_far);
}
