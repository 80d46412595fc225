//! The allocator of the switch.

ghost use Rattle.std.specs.Prelude.{◌<◌};

use crate::cases::are_equal;
use crate::vcalloc::has_channels;
use std::process::Abort;
use worm_swalloc::{Ready, ReadyOuts, SwAlloc, SwGrant, SwGrants};

/// These input channels, each by port and channel, would send to these output ports.
fn ready_of(rt: &impl Abort, senders: &[(u8, u8, u8)]) -> [[Option<u8>; 8]; 7] {
    let mut ready = [[None; 8]; 7];
    for (port, vc, out) in senders {
        assert!(rt; *port < 7 && *vc < 8);
        ready[usize::from(*port)][usize::from(*vc)] = Some(*out);
    }
    ready
}

/// The channel may send to the output port.
pub fn sends(vc: u8, out: u8) -> Option<SwGrant> {
    Some(SwGrant { vc, out })
}

/// Each of these input ports was granted this, or nothing.
pub fn are_chosen(rt: &impl Abort, grants: &SwGrants, granted: &[(u8, Option<SwGrant>)]) {
    for (port, grant) in granted {
        assert!(rt; *port < 7);
        are_equal(rt, (port, grants[usize::from(*port)]), (port, *grant));
    }
}

/// In one pass each of these input ports is granted this, or nothing.
fn passes(
    rt: &impl Abort,
    alloc: &mut SwAlloc,
    ready: &[[Option<u8>; 8]; 7],
    granted: &[(u8, Option<SwGrant>)],
) {
    are_chosen(rt, &alloc.grant(ready), granted);
}

/// The grants of one port alone.
fn alone(rt: &impl Abort, port: u8, grant: Option<SwGrant>) -> SwGrants {
    assert!(rt; port < 7);
    let mut grants = [None; 7];
    grants[usize::from(port)] = grant;
    grants
}

/// One pass grants this port alone.
fn grants_one(
    rt: &impl Abort,
    alloc: &mut SwAlloc,
    ready: &[[Option<u8>; 8]; 7],
    port: u8,
    grant: Option<SwGrant>,
) {
    assert!(rt; alloc.grant(ready) == alone(rt, port, grant));
}

/// Channels 0 and 1 of port 0 and channel 0 of port 2 are ready for output port 1, three times.
#[test]
fn grants_go_round(rt: HostRuntime) {
    let mut alloc = SwAlloc::new(3, 2);
    let ready = ready_of(&rt, &[(0, 0, 1), (0, 1, 1), (2, 0, 1)]);
    grants_one(&rt, &mut alloc, &ready, 0, sends(0, 1));
    grants_one(&rt, &mut alloc, &ready, 2, sends(0, 1));
    grants_one(&rt, &mut alloc, &ready, 0, sends(1, 1));
}

/// With all three ports ready for output port 1, this one would send: the pointer of that output port's arbiter is its
/// number. The allocator is a copy, and the other does not move.
fn points_to(rt: &impl Abort, mut alloc: SwAlloc, port: u8) {
    let ready = ready_of(rt, &[(0, 0, 1), (1, 0, 1), (2, 0, 1)]);
    grants_one(rt, &mut alloc, &ready, port, sends(0, 1));
}

/// Channel 0 of port 0 and channel 1 of port 2 are ready for output port 1 in three passes, and then the latter alone.
#[test]
fn a_pointer_goes_one_past_each_winner(rt: HostRuntime) {
    let mut alloc = SwAlloc::new(3, 2);
    let both = ready_of(&rt, &[(0, 0, 1), (2, 1, 1)]);
    points_to(&rt, alloc, 0);
    grants_one(&rt, &mut alloc, &both, 0, sends(0, 1));
    points_to(&rt, alloc, 1);
    grants_one(&rt, &mut alloc, &both, 2, sends(1, 1));
    points_to(&rt, alloc, 0);
    grants_one(&rt, &mut alloc, &both, 0, sends(0, 1));
    points_to(&rt, alloc, 1);
    let last = ready_of(&rt, &[(2, 1, 1)]);
    grants_one(&rt, &mut alloc, &last, 2, sends(1, 1));
    points_to(&rt, alloc, 0);
}

/// Ports 0 and 2 both ask for output port 1, and port 1 for output port 0.
#[test]
fn each_output_port_is_granted_once(rt: HostRuntime) {
    let mut alloc = SwAlloc::new(3, 2);
    let ready = ready_of(&rt, &[(0, 1, 1), (1, 0, 0), (2, 0, 1)]);
    let granted = [(0, sends(1, 1)), (1, sends(0, 0)), (2, None)];
    passes(&rt, &mut alloc, &ready, &granted);
    let granted = [(0, None), (1, sends(0, 0)), (2, sends(0, 1))];
    passes(&rt, &mut alloc, &ready, &granted);
}

/// The same pass over a map of output ports tells the granted channels as a set.
#[test]
fn a_pass_over_a_map_tells_a_set(rt: HostRuntime) {
    let mut alloc = SwAlloc::new(3, 2);
    let outs = ReadyOuts::from_rows(&ready_of(&rt, &[(0, 1, 1), (1, 0, 0), (2, 0, 1)]));
    let first = alloc.grant_ready(&Ready::new(&outs, outs.keys()));
    has_channels(&rt, first.granted(), &[(0, 1), (1, 0)]);
    let granted = [(0, sends(1, 1)), (1, sends(0, 0)), (2, None)];
    are_chosen(&rt, &first.to_array(), &granted);
}

/// Both arbiters move: after it output port 1 prefers port 2, and port 0 its channel 1.
#[test]
fn a_sole_ready_channel_is_granted(rt: HostRuntime) {
    let mut alloc = SwAlloc::new(3, 2);
    passes(&rt, &mut alloc, &ready_of(&rt, &[]), &[(0, None)]);
    let sole = ready_of(&rt, &[(0, 0, 1)]);
    passes(&rt, &mut alloc, &sole, &[(0, sends(0, 1))]);
    let ready = ready_of(&rt, &[(0, 0, 1), (0, 1, 1), (2, 0, 1)]);
    passes(&rt, &mut alloc, &ready, &[(2, sends(0, 1))]);
    passes(&rt, &mut alloc, &ready, &[(0, sends(1, 1))]);
}

/// With both channels ready and no rival, port 0 would send this one: its arbiter asks that first. The allocator is a
/// copy, and the other does not move.
fn prefers(rt: &impl Abort, mut alloc: SwAlloc, vc: u8) {
    let ready = ready_of(rt, &[(0, 0, 1), (0, 1, 1)]);
    passes(rt, &mut alloc, &ready, &[(0, sends(vc, 1))]);
}

/// Port 0 names its channel 1, which is not granted while port 2 sends, and names it again in the next pass: with its
/// pointer moved it would name channel 0.
#[test]
fn an_ungranted_request_is_named_again(rt: HostRuntime) {
    let mut alloc = SwAlloc::new(3, 2);
    let mut ready = ready_of(&rt, &[(0, 0, 1), (0, 1, 1), (2, 0, 1)]);
    passes(&rt, &mut alloc, &ready, &[]);
    prefers(&rt, alloc, 1);
    passes(&rt, &mut alloc, &ready, &[(0, None)]);
    prefers(&rt, alloc, 1);
    ready[2][0] = None;
    passes(&rt, &mut alloc, &ready, &[(0, sends(1, 1))]);
}
