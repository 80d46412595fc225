//! Sets of channels, arbiters, and the allocator of output channels.

ghost use Rattle.std.specs.Prelude.{◌<◌};

use crate::cases::are_equal;
use std::process::Abort;
use worm_vcalloc::{
    Arbiter, ChannelMap, ChannelSet, FreeChannels, VcAlloc, VcGrants, VcRequest, VcRequests,
};

/// Each channel comes into the set, or goes out of it where it is false.
fn put_all(rt: &impl Abort, set: &mut ChannelSet, changes: &[(u8, u8, bool)]) {
    for (port, channel, within) in changes {
        assert!(rt; *port < 7 && *channel < 8);
        set.put(*port, *channel, *within);
    }
}

/// Whether the channel is in the set.
fn holds(rt: &impl Abort, set: &ChannelSet, port: u8, channel: u8, within: bool) {
    assert!(rt; port < 7 && channel < 8);
    are_equal(
        rt,
        (port, channel, set.contains(port, channel)),
        (port, channel, within),
    );
}

/// The first channel of the set is this, and goes out of it; none where the set is empty.
fn gives(rt: &impl Abort, set: &mut ChannelSet, place: Option<(u8, u8)>) {
    are_equal(rt, set.pop_first(), place);
}

/// The first port of the set is this, and its channels go out of it; none where the set is empty.
fn gives_port(rt: &impl Abort, set: &mut ChannelSet, port: Option<u8>) {
    are_equal(rt, set.pop_port(), port);
}

/// These are the channels of the set, in this order.
pub fn has_channels(rt: &impl Abort, mut set: ChannelSet, places: &[(u8, u8)]) {
    for place in places {
        gives(rt, &mut set, Some(*place));
    }
    gives(rt, &mut set, None);
}

#[test]
fn channels_come_out_in_order(rt: HostRuntime) {
    let mut set = ChannelSet::new();
    assert!(rt; set.is_empty());
    let changes = [(4, 1, true), (0, 6, true), (4, 0, true), (4, 0, false)];
    put_all(&rt, &mut set, &changes);
    holds(&rt, &set, 4, 1, true);
    holds(&rt, &set, 4, 0, false);
    has_channels(&rt, set, &[(0, 6), (4, 1)]);
}

#[test]
fn ports_come_out_in_order(rt: HostRuntime) {
    let mut set = ChannelSet::new();
    put_all(&rt, &mut set, &[(4, 1, true), (4, 7, true), (6, 0, true)]);
    gives_port(&rt, &mut set, Some(4));
    holds(&rt, &set, 6, 0, true);
    gives_port(&rt, &mut set, Some(6));
    gives_port(&rt, &mut set, None);
    put_all(&rt, &mut set, &[(3, 2, true), (3, 5, true)]);
    are_equal(
        &rt,
        (set.pop_port_lowest(), set.pop_port_lowest()),
        (Some((3, 2)), None),
    );
}

/// A channel comes in where it comes and goes out where it goes, and else the set stays as it is.
#[test]
fn channels_come_and_go_where_told(rt: HostRuntime) {
    let mut set = ChannelSet::new();
    set.insert_if(5, 3, false);
    assert!(rt; set.is_empty());
    set.insert_if(5, 3, true);
    set.insert_if(5, 4, true);
    set.insert_if(5, 3, false);
    set.remove_if(5, 3, false);
    set.remove_if(5, 4, true);
    set.remove_if(6, 7, true);
    has_channels(&rt, set, &[(5, 3)]);
}

/// What two sets have both, and what one has beyond the other.
#[test]
fn sets_are_held_against_each_other(rt: HostRuntime) {
    let mut some = ChannelSet::new();
    put_all(&rt, &mut some, &[(0, 1, true), (1, 0, true), (2, 2, true)]);
    let mut other = ChannelSet::new();
    put_all(&rt, &mut other, &[(1, 0, true)]);
    are_equal(&rt, some.row(2, 3), 0b100);
    has_channels(&rt, some.intersection(&other), &[(1, 0)]);
    has_channels(&rt, some.difference(&other), &[(0, 1), (2, 2)]);
}

/// The arbiter was seen to choose this line.
fn is_line(rt: &impl Abort, chosen: Option<u8>, line: Option<u8>) {
    are_equal(rt, chosen, line);
}

/// The arbiter asks this line first.
fn points_to(rt: &impl Abort, arbiter: &Arbiter, line: u8) {
    are_equal(rt, arbiter.pointer(), line);
}

#[test]
fn winners_go_round(rt: HostRuntime) {
    let mut arbiter = Arbiter::new(3);
    is_line(&rt, arbiter.pick(0b101), Some(0));
    points_to(&rt, &arbiter, 1);
    is_line(&rt, arbiter.peek(0b101), Some(2));
    is_line(&rt, arbiter.pick(0b101), Some(2));
    points_to(&rt, &arbiter, 0);
    is_line(&rt, arbiter.pick(0), None);
    points_to(&rt, &arbiter, 0);
    is_line(&rt, arbiter.pick(0b010), Some(1));
    points_to(&rt, &arbiter, 2);
    arbiter.move_past(2);
    points_to(&rt, &arbiter, 0);
    arbiter.move_past(0);
    points_to(&rt, &arbiter, 1);
}

/// These input channels, each by port and channel, wait for one of the allowed channels of an output port.
fn waiting_of(rt: &impl Abort, asks: &[(u8, u8, VcRequest)]) -> [[Option<VcRequest>; 8]; 7] {
    let mut waiting = [[None; 8]; 7];
    for (port, vc, request) in asks {
        assert!(rt; *port < 7 && *vc < 8);
        waiting[usize::from(*port)][usize::from(*vc)] = Some(*request);
    }
    waiting
}

/// A request for one of the allowed channels of the output port.
fn asks(out: u8, allowed: u8) -> VcRequest {
    VcRequest { out, allowed }
}

/// These channels of the output port are free, and no others.
fn free_of(rt: &impl Abort, out: u8, numbers: &[u8]) -> FreeChannels {
    let mut free = [[false; 8]; 7];
    assert!(rt; out < 7);
    for channel in numbers {
        assert!(rt; *channel < 8);
        free[usize::from(out)][usize::from(*channel)] = true;
    }
    free
}

/// Each of these input channels was granted this channel, or none.
pub fn are_granted(rt: &impl Abort, grants: &VcGrants, granted: &[(u8, u8, Option<u8>)]) {
    for (port, vc, channel) in granted {
        assert!(rt; *port < 7 && *vc < 8);
        let row = &grants[usize::from(*port)];
        are_equal(rt, (port, vc, row[usize::from(*vc)]), (port, vc, *channel));
    }
}

/// In one pass each of these input channels is granted this channel, or none.
fn passes(
    rt: &impl Abort,
    alloc: &mut VcAlloc,
    waiting: &[[Option<VcRequest>; 8]; 7],
    free: &FreeChannels,
    granted: &[(u8, u8, Option<u8>)],
) {
    are_granted(rt, &alloc.grant(waiting, free), granted);
}

#[test]
fn one_channel_goes_round(rt: HostRuntime) {
    let mut alloc = VcAlloc::new(3, 2);
    let request = asks(1, 1);
    let asking = [(0, 0, request), (0, 1, request), (2, 0, request)];
    let waiting = waiting_of(&rt, &asking);
    let free = free_of(&rt, 1, &[0]);
    let first = [(0, 0, Some(0)), (0, 1, None), (2, 0, None)];
    passes(&rt, &mut alloc, &waiting, &free, &first);
    passes(&rt, &mut alloc, &waiting, &free, &[(0, 1, Some(0))]);
    passes(&rt, &mut alloc, &waiting, &free, &[(2, 0, Some(0))]);
    passes(&rt, &mut alloc, &waiting, &free, &[(0, 0, Some(0))]);
}

/// Where a port has one channel alone, whoever asks for that gets it, and nobody who asks for another.
#[test]
fn one_channel_a_port_is_enough(rt: HostRuntime) {
    let mut alloc = VcAlloc::new(3, 1);
    let waiting = waiting_of(&rt, &[(0, 0, asks(1, 0b10)), (2, 0, asks(1, 0b01))]);
    let free = free_of(&rt, 1, &[0, 1]);
    passes(
        &rt,
        &mut alloc,
        &waiting,
        &free,
        &[(0, 0, None), (2, 0, Some(0))],
    );
}

/// A pass answers one array, which has each grant and nothing else.
#[test]
fn a_pass_answers_an_array(rt: HostRuntime) {
    let mut alloc = VcAlloc::new(3, 2);
    let waiting = waiting_of(&rt, &[(0, 1, asks(2, 0b10)), (1, 0, asks(2, 0b11))]);
    let mut wanted = [[None; 8]; 7];
    wanted[0][1] = Some(1);
    wanted[1][0] = Some(0);
    assert!(rt; alloc.grant(&waiting, &[[true; 8]; 7]) == wanted);
}

/// Of two classes with a channel each, a packet gets no channel but that of its own.
#[test]
fn no_channel_of_another_class_is_granted(rt: HostRuntime) {
    let mut alloc = VcAlloc::new(3, 2);
    let waiting = waiting_of(&rt, &[(0, 0, asks(1, 0b01)), (0, 1, asks(1, 0b10))]);
    let free = free_of(&rt, 1, &[1]);
    passes(
        &rt,
        &mut alloc,
        &waiting,
        &free,
        &[(0, 0, None), (0, 1, Some(1))],
    );
}

/// What a map of grants holds already stays, and gets nothing more.
#[test]
fn grants_stay(rt: HostRuntime) {
    let mut alloc = VcAlloc::new(3, 2);
    let waiting = waiting_of(&rt, &[(0, 0, asks(1, 1)), (2, 1, asks(1, 1))]);
    let mut grants = ChannelMap::new();
    grants.set(0, 0, Some(1));
    let requests = VcRequests::from_rows(&waiting);
    alloc.grant_waiting(&requests, &free_of(&rt, 1, &[0]), &mut grants);
    are_granted(&rt, &grants.to_rows(), &[(0, 0, Some(1)), (2, 1, Some(0))]);
}

#[test]
fn a_granted_channel_gets_no_second(rt: HostRuntime) {
    let mut alloc = VcAlloc::new(3, 2);
    let waiting = waiting_of(&rt, &[(0, 0, asks(1, 3)), (2, 1, asks(1, 3))]);
    let free = [[true; 8]; 7];
    let granted = [(0, 0, Some(0)), (2, 1, Some(1))];
    passes(&rt, &mut alloc, &waiting, &free, &granted);
}

/// Of those that wait, a fresh allocator finds these for the free channels of the output port, and no others.
fn finds(rt: &impl Abort, waiting: &VcRequests, out: u8, numbers: &[u8], found: &[(u8, u8)]) {
    let mut alloc = VcAlloc::new(7, 8);
    let mut grants = ChannelMap::new();
    alloc.grant_waiting(waiting, &free_of(rt, out, numbers), &mut grants);
    has_channels(rt, grants.keys(), found);
}

/// The input channel waits for this; none where it waits for nothing.
fn waits_for(rt: &impl Abort, waiting: &VcRequests, port: u8, vc: u8, request: Option<VcRequest>) {
    assert!(rt; port < 7 && vc < 8);
    are_equal(rt, waiting.get(port, vc), request);
}

/// The input channel takes back what it asked for.
fn takes_back(rt: &impl Abort, waiting: &mut VcRequests, port: u8, vc: u8) {
    assert!(rt; port < 7 && vc < 8);
    waiting.remove(port, vc);
}

/// An allocator finds a waiting channel at the port that it asks for, and there by the channels that it takes.
#[test]
fn requests_are_found_by_what_they_ask(rt: HostRuntime) {
    let request = asks(2, 0b10);
    let rows = waiting_of(&rt, &[(1, 3, request), (0, 5, asks(2, 0b01))]);
    let mut waiting = VcRequests::from_rows(&rows);
    waits_for(&rt, &waiting, 1, 3, Some(request));
    finds(&rt, &waiting, 3, &[0, 1, 2, 3, 4, 5, 6, 7], &[]);
    finds(&rt, &waiting, 2, &[1], &[(1, 3)]);
    finds(&rt, &waiting, 2, &[0, 1], &[(0, 5), (1, 3)]);
    takes_back(&rt, &mut waiting, 1, 3);
    finds(&rt, &waiting, 2, &[0, 1], &[(0, 5)]);
    gives(&rt, &mut waiting.waiting(), Some((0, 5)));
}
