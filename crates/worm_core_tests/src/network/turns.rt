//! Turns: who is asked, what moves in which turn, and what a refusal leaves.

use crate::cases::{are_equal, config, to_offer};
use crate::steps::{buffer, feed, grant, link, offer, route, send, take, take_credit};
use crate::trial::{Standing, Trial, made};
use std::alloc::Global;
use std::process::Abort;
use worm_cases::lane;
use worm_core::{Moved, Net, NetFault, OfferFault, Place, ScriptFault, StepFault};

/// Three nodes in a line and two classes: node 0 has two words for node 2, and node 1 has two of the other class.
fn two_lanes<R: Abort + AllocGlobal + Copy>(rt: R) -> Trial<R> {
    let mut trial = Trial::new(rt, &[3], 2, &[1, 1]);
    trial.offer_at(0, lane(0, 2, 0), &[1, 2]);
    trial.offer_at(0, lane(1, 2, 1), &[3, 4]);
    trial
}

/// Takes a turn. Node 2 then has these words, and these flits of the two lanes are under way.
fn takes_turn<R: Abort + AllocGlobal + Copy>(
    trial: &mut Trial<R>,
    turn: u64,
    arrived: &[u32],
    first: &[Standing],
    second: &[Standing],
) {
    trial.takes_turn(turn);
    trial.has_words(2, arrived);
    trial.stands(lane(0, 2, 0), first);
    trial.stands(lane(1, 2, 1), second);
}

/// In the first turn both lanes' heads are ready at node 1 for its plus port: the arbiter stands at the lower input
/// port, and then takes the two in turn. A flit moves over each link in the turn in which it is sent, as the nodes go
/// by rising number.
#[test]
fn an_arbiter_serves_two_lanes_in_turn(rt: HostRuntime) {
    let mut trial = two_lanes(rt);
    let source = (0, 1, Place::Source);
    let head = (0, 0, buffer(1, 2, 1));
    let tail = (0, 1, buffer(1, 2, 1));
    let passing = (0, 1, buffer(1, 0, 0));
    takes_turn(&mut trial, 0, &[1], &[source], &[head, source]);
    takes_turn(&mut trial, 1, &[1, 3], &[passing], &[tail]);
    takes_turn(&mut trial, 2, &[1, 3, 2], &[], &[tail]);
    assert!(rt; !trial.is_drained());
    takes_turn(&mut trial, 3, &[1, 3, 2, 4], &[], &[]);
    assert!(rt; trial.is_drained());
}

/// In the first turn node 1 grants both heads their channels, so that the second can leave, too. It gives back a credit
/// for the first.
#[test]
fn both_lanes_are_granted_in_one_turn(rt: HostRuntime) {
    let mut trial = two_lanes(rt);
    trial.takes_turn(0);
    trial.does([send(1, 2, 1), take_credit(0, 1)]);
    let left = [(0, 0, link(1, 1, 1)), (0, 1, Place::Source)];
    trial.stands(lane(1, 2, 1), &left);
}

/// In the second turn and in the third the channel that is not served is ready, too: it can send right after the turn.
#[test]
fn who_is_not_served_stays_ready(rt: HostRuntime) {
    let mut first = two_lanes(rt);
    first.takes_turns(0, 2);
    first.does([send(1, 0, 0)]);
    let mut second = two_lanes(rt);
    second.takes_turns(0, 3);
    second.does([send(1, 2, 1)]);
}

/// Node 0 takes that credit in the second turn, in which node 1 gives none.
#[test]
fn a_credit_is_taken_in_the_next_turn(rt: HostRuntime) {
    let mut trial = two_lanes(rt);
    trial.takes_turns(0, 2);
    trial.answers([take_credit(0, 1)], Ok(Moved::Idle));
}

/// After the fourth turn the arbiter stands at the lower input port again: of two more words its own goes first.
#[test]
fn an_arbiter_comes_back_to_the_lower_port(rt: HostRuntime) {
    let mut trial = two_lanes(rt);
    trial.offer_at(4, lane(0, 2, 0), &[5]);
    trial.offer_at(4, lane(1, 2, 1), &[6]);
    trial.takes_turns(0, 5);
    trial.has_words(2, &[1, 3, 2, 4, 5]);
}

/// Against the order of the nodes a flit gets one link far in a turn.
#[test]
fn a_flit_against_the_order_waits_on_the_link(rt: HostRuntime) {
    let mut trial = Trial::new(rt, &[2], 2, &[1]);
    let back = lane(1, 0, 0);
    trial.offer_at(0, back, &[17, 18]);
    trial.takes_turn(0);
    let expected = [(0, 0, link(1, 0, 0)), (0, 1, Place::Source)];
    trial.stands(back, &expected);
}

/// A refusal ends the turn: the entry before it was accepted, and nothing was fed. An entry of a node that is not there
/// is never asked.
#[test]
fn a_refused_entry_ends_the_turn(rt: HostRuntime) {
    let mut trial = Trial::new(rt, &[2], 2, &[1]);
    trial.offer_at(0, lane(9, 0, 0), &[1]);
    trial.offer_at(1, lane(0, 1, 0), &[5]);
    trial.offer_at(1, lane(0, 5, 0), &[6]);
    trial.offer_at(1, lane(1, 0, 0), &[7]);
    trial.takes_turn(0);
    trial.has_accepted(0);
    let refused = Err(StepFault::Refused(OfferFault::NoSuchNode));
    are_equal(&rt, trial.turn(1), refused);
    trial.has_accepted(1);
    trial.stands(lane(0, 1, 0), &[(0, 0, Place::Source)]);
}

#[test]
fn a_mark_arrives_last(rt: HostRuntime) {
    let mut trial = Trial::new(rt, &[2], 2, &[1]);
    let over = lane(0, 1, 0);
    trial.offer_at(0, over, &[5]);
    trial.close_at(0, over);
    trial.takes_turn(0);
    trial.has_nodes(2);
    assert!(rt; !trial.is_closed(1, over));
    trial.takes_turn(1);
    trial.has_nodes(2);
    assert!(rt; trial.is_closed(1, over));
    trial.has_delivered(2);
}

/// The numbers below the count.
fn counted(rt: &impl Abort, alloc: Global, count: u32) -> Vec<u32> {
    let mut words = Vec::new(alloc);
    for word in 0..count {
        words.push(word).expect(rt, "memory");
    }
    words
}

/// The most nodes, the deepest buffers, the most channels and the longest packet, over the longest way. A flit is fed
/// each turn, and goes all the way in it, as the nodes on it rise.
#[test]
fn the_widest_network_delivers_the_longest_packet(rt: HostRuntime) {
    let mut trial = Trial::new(rt, &[16, 8, 2], 16, &[2, 2, 2, 2]);
    let sent = counted(&rt, rt.alloc(), 32);
    trial.offer_at(0, lane(0, 255, 3), sent.as_slice());
    trial.takes_turns(0, 32);
    trial.has_words(255, sent.as_slice());
}

/// A channel that another packet holds is granted to nobody.
#[test]
fn a_held_channel_is_not_granted(rt: HostRuntime) {
    let mut trial = Trial::new(rt, &[3], 1, &[1]);
    trial.does([
        offer(&rt, lane(0, 2, 0), &[1, 2]),
        feed(0, 0),
        route(0, 2, 0),
        grant(0, 2, 0, 0),
        send(0, 2, 0),
        take(1, 0),
        route(1, 0, 0),
        grant(1, 0, 0, 0),
        offer(&rt, lane(1, 2, 0), &[3]),
        feed(1, 0),
        route(1, 2, 0),
    ]);
    trial.answers([grant(1, 2, 0, 0)], Ok(Moved::Idle));
}

/// A network of two nodes. None for want of memory.
fn net_in_want<R: Abort + AllocGlobal + Copy>(rt: R) -> Option<Net> {
    match made(rt.alloc(), &config(&[2], 1, &[1])) {
        Ok(net) => Some(net),
        Err(fault) => {
            are_equal(&rt, fault, NetFault::NoMemory);
            None
        }
    }
}

/// Adds a packet of three words for the second of two nodes. False for want of memory.
fn is_offered_in_want<R: Abort + AllocGlobal + Copy>(rt: R, trial: &mut Trial<R>) -> bool {
    match trial.add(to_offer(&rt, 0, lane(0, 1, 0), &[1, 2, 3])) {
        Ok(()) => true,
        Err(fault) => {
            are_equal(&rt, fault, ScriptFault::NoMemory);
            false
        }
    }
}

/// Takes the turn, which ends whole or for want of memory.
fn takes_turn_in_want<R: Abort + AllocGlobal + Copy>(rt: R, trial: &mut Trial<R>, turn: u64) {
    if let Err(fault) = trial.turn(turn) {
        are_equal(&rt, fault, StepFault::NoMemory);
    }
}

/// Takes the turns below the count.
fn takes_turns_in_want<R: Abort + AllocGlobal + Copy>(rt: R, trial: &mut Trial<R>, count: u64) {
    for turn in 0..count {
        takes_turn_in_want(rt, trial, turn);
    }
}

/// Once its packet was offered, twelve turns bring what was accepted.
fn arrives_in_want<R: Abort + AllocGlobal + Copy>(rt: R, trial: &mut Trial<R>) {
    takes_turns_in_want(rt, trial, 12);
    assert!(rt; trial.is_drained());
    if trial.totals().accepted == 1 {
        trial.has_delivered(3);
    }
}

/// Wherever memory is refused, the answer says so, what was accepted stays, and it arrives once there is memory again.
#[test]
fn want_of_memory_loses_nothing(rt: HostRuntime) {
    if let Some(net) = net_in_want(rt) {
        let mut trial = Trial::of(rt, net);
        if is_offered_in_want(rt, &mut trial) {
            arrives_in_want(rt, &mut trial);
        }
    }
}

/// Once nothing can move, turns change nothing, until a step or an entry asks something of a source: then it arrives.
#[test]
fn an_idle_network_is_woken(rt: HostRuntime) {
    let mut trial = Trial::new(rt, &[2], 2, &[1]);
    trial.offer_at(5, lane(1, 0, 0), &[17]);
    trial.offer_at(30, lane(0, 1, 0), &[19]);
    trial.takes_turns(0, 20);
    trial.has_words(0, &[17]);
    trial.does([offer(&rt, lane(1, 0, 0), &[18])]);
    trial.takes_turns(20, 30);
    trial.has_words(0, &[17, 18]);
    trial.takes_turns(30, 40);
    trial.has_words(1, &[19]);
    assert!(rt; trial.is_drained());
}
