//! A network taken apart and put together again.

use crate::steps::{buffer, feed, give, grant, link, offer, route, send, take};
use crate::trial::{Shape, Trial};
use worm_cases::lane;

/// Three by two nodes, buffers of two flits, and three channels in two classes.
const SHAPE: Shape = Shape {
    radices: &[3, 2],
    depth: 2,
    channels: &[1, 2],
    nodes: 6,
    links: 14,
    room: 6,
};

#[test]
fn parts_make_the_same_network(rt: HostRuntime) {
    let mut trial = Trial::new(rt, SHAPE.radices, SHAPE.depth, SHAPE.channels);
    let far = lane(0, 5, 1);
    trial.run([offer(&rt, far, &[9]), feed(0, 1)]);
    let trial = trial.through_parts(&SHAPE);
    trial.has_classes(2);
    trial.has_names(2);
    trial.has_under_way(far, 1);
}

/// A flit alone on a link is still on it, and comes in.
#[test]
fn what_is_on_a_link_goes_through_parts(rt: HostRuntime) {
    let mut trial = Trial::new(rt, SHAPE.radices, SHAPE.depth, SHAPE.channels);
    let near = lane(0, 1, 0);
    trial.does([
        offer(&rt, near, &[9]),
        feed(0, 0),
        route(0, 4, 0),
        grant(0, 4, 0, 0),
        send(0, 4, 0),
    ]);
    let mut trial = trial.through_parts(&SHAPE);
    trial.stands(near, &[(0, 0, link(0, 1, 0))]);
    trial.does([take(1, 0)]);
    trial.stands(near, &[(0, 0, buffer(1, 0, 0))]);
}

/// What is on a link is two lists: the flits, and the credits on their way back.
#[test]
fn a_link_is_its_two_lists(rt: HostRuntime) {
    let mut trial = Trial::new(rt, SHAPE.radices, SHAPE.depth, SHAPE.channels);
    let near = lane(0, 1, 0);
    trial.does([
        offer(&rt, near, &[9]),
        feed(0, 0),
        route(0, 4, 0),
        grant(0, 4, 0, 0),
        send(0, 4, 0),
    ]);
    let mut trial = trial.through_lists(0, 1, 0);
    trial.does([
        take(1, 0),
        route(1, 0, 0),
        grant(1, 0, 0, 0),
        send(1, 0, 0),
        give(1, 0, 0),
    ]);
    let trial = trial.through_lists(0, 0, 1);
    trial.has_come(near, 1);
}
