//! A router of a line of two nodes: what its calls do to a packet, and what it tells of itself.

ghost use Rattle.std.specs.Prelude.{◌<◌, ◌≤◌};

mod trial;

use self::trial::{Trial, flit};
use crate::swalloc::sends;
use worm_records::InRecord;
use worm_router::TooMany;

#[test]
fn a_flit_passes_to_the_terminal(rt: HostRuntime) {
    let mut trial = Trial::new(rt, 1, &[1], 1);
    trial.accepts(0, flit(0, 0));
    trial.refuses(0, flit(1, 0));
    trial.routes(0, 0);
    trial.has_input(0, 0, InRecord::Waiting { out: 2 });
    trial.grants(0, 0, 0);
    trial.is_held(2, 0, (0, 0));
    trial.is_ready(0, 0, 2, flit(0, 0));
    trial.left_last(0, 0, None);
    trial.sends(0, 0);
    trial.left_last(0, 0, Some(flit(0, 0)));
    trial.owes(0, 0, 1);
    trial.owes_first(0, Some(0));
    trial.gives(0, 0);
    trial.owes_first(0, None);
    trial.takes_credit(0, 0, Err(TooMany));
}

/// It is granted the other channel of its class, and so is what stays behind.
#[test]
fn what_left_last_has_the_channel_that_it_was_granted(rt: HostRuntime) {
    let mut trial = Trial::new(rt, 1, &[2], 1);
    trial.accepts(0, flit(0, 0));
    trial.routes(0, 0);
    trial.grants(0, 0, 1);
    trial.sends(0, 0);
    trial.left_last(0, 0, Some(flit(0, 1)));
    trial.left_last(0, 1, None);
}

#[test]
fn a_ring_keeps_its_order(rt: HostRuntime) {
    let mut trial = Trial::new(rt, 1, &[1], 3);
    trial.accepts(0, flit(0, 0));
    trial.accepts(0, flit(1, 0));
    trial.accepts(0, flit(2, 0));
    trial.routes(0, 0);
    trial.grants(0, 0, 0);
    trial.sends(0, 0);
    trial.accepts(0, flit(3, 0));
    trial.refuses(0, flit(4, 0));
    trial.has_flit(0, 0, 0, Some(flit(1, 0)));
    trial.has_flit(0, 0, 1, Some(flit(2, 0)));
    trial.has_flit(0, 0, 2, Some(flit(3, 0)));
    trial.has_flit(0, 0, 3, None);
}

/// The lower line wins the lower channel; once the arbiter has moved on, the other channel sends.
#[test]
fn a_pass_grants_and_chooses(rt: HostRuntime) {
    let mut trial = Trial::new(rt, 1, &[2], 2);
    trial.accepts(0, flit(0, 0));
    trial.accepts(2, flit(0, 1));
    trial.routes(0, 0);
    trial.routes(2, 1);
    trial.allocates(&[(0, 0, Some(0)), (2, 1, Some(1))]);
    trial.has_input(2, 1, InRecord::Active { out: 2, out_vc: 1 });
    trial.is_held(2, 1, (2, 1));
    trial.chooses(&[(0, sends(0, 2)), (2, None)]);
    trial.chooses(&[(0, None), (2, sends(1, 2))]);
}

/// Each port has one channel, and the packets go opposite ways: both are granted in one pass.
#[test]
fn packets_that_pass_each_other_are_both_chosen(rt: HostRuntime) {
    let mut trial = Trial::new(rt, 0, &[1], 1);
    let mut home = flit(0, 0);
    home.lane.dst = 0;
    trial.accepts(1, home);
    trial.accepts(2, flit(1, 0));
    trial.routes(1, 0);
    trial.routes(2, 0);
    trial.allocates(&[(1, 0, Some(0)), (2, 0, Some(0))]);
    trial.chooses(&[(0, None), (1, sends(0, 2)), (2, sends(0, 1))]);
}

#[test]
fn sets_follow_a_packet(rt: HostRuntime) {
    let mut trial = Trial::new(rt, 1, &[1], 1);
    trial.has_occupied(&[]);
    trial.accepts(0, flit(0, 0));
    trial.has_occupied(&[(0, 0)]);
    trial.routes(0, 0);
    trial.has_waiting(&[(0, 0)]);
    trial.allocates(&[]);
    trial.has_waiting(&[]);
    trial.has_active(&[(0, 0)]);
    trial.sends(0, 0);
    trial.has_active(&[]);
    trial.has_occupied(&[]);
    trial.has_owing(&[(0, 0)]);
    trial.gives(0, 0);
    trial.has_owing(&[]);
}

/// Port 1 of node 1 of two faces no link, so nobody is owed a credit for what came in there; nor at the terminal.
#[test]
fn a_port_without_a_link_owes_nothing(rt: HostRuntime) {
    let mut trial = Trial::new(rt, 1, &[1], 1);
    for port in [1, 2] {
        trial.accepts(port, flit(0, 0));
        trial.routes(port, 0);
        trial.allocates(&[(port, 0, Some(0))]);
        trial.sends(port, 0);
        trial.owes(port, 0, 0);
        trial.has_owing(&[]);
    }
}

/// A router that owes a credit is not at rest.
#[test]
fn room_and_rest_are_told(rt: HostRuntime) {
    let mut trial = Trial::new(rt, 1, &[1], 1);
    trial.is_at_rest(true);
    trial.has_room(0, 0, true);
    trial.accepts(0, flit(0, 0));
    trial.has_room(0, 0, false);
    trial.is_at_rest(false);
    trial.routes(0, 0);
    trial.allocates(&[]);
    trial.sends(0, 0);
    trial.has_room(0, 0, true);
    trial.is_at_rest(false);
    trial.gives(0, 0);
    trial.is_at_rest(true);
}

#[test]
fn a_freed_channel_is_granted_again(rt: HostRuntime) {
    let mut trial = Trial::new(rt, 1, &[1], 2);
    trial.accepts(0, flit(0, 0));
    trial.accepts(2, flit(1, 0));
    trial.routes(0, 0);
    trial.routes(2, 0);
    trial.allocates(&[(0, 0, Some(0))]);
    trial.allocates(&[(2, 0, None)]);
    trial.allocates(&[(2, 0, None)]);
    trial.sends(0, 0);
    trial.allocates(&[(2, 0, Some(0))]);
}

/// The way from node 0 to node 1 is port 1. With its one credit spent the second flit waits, and the router rests.
#[test]
fn a_credit_lets_a_flit_out(rt: HostRuntime) {
    let mut trial = Trial::new(rt, 0, &[1], 1);
    trial.accepts(2, flit(0, 0));
    trial.routes(2, 0);
    trial.allocates(&[]);
    trial.chooses(&[(2, sends(0, 1))]);
    trial.sends(2, 0);
    trial.accepts(2, flit(1, 0));
    trial.routes(2, 0);
    trial.allocates(&[]);
    trial.chooses(&[(2, None)]);
    trial.is_at_rest(true);
    trial.takes_credit(1, 0, Ok(()));
    trial.is_at_rest(false);
    trial.chooses(&[(2, sends(0, 1))]);
}

/// The second flit waits while the channel owes as many credits as it may.
#[test]
fn a_credit_given_lets_a_flit_out(rt: HostRuntime) {
    let mut trial = Trial::new(rt, 1, &[1], 1);
    trial.accepts(0, flit(0, 0));
    trial.routes(0, 0);
    trial.allocates(&[]);
    trial.sends(0, 0);
    trial.accepts(0, flit(1, 0));
    trial.routes(0, 0);
    trial.allocates(&[]);
    trial.chooses(&[(0, None)]);
    trial.gives(0, 0);
    trial.chooses(&[(0, sends(0, 2))]);
}
