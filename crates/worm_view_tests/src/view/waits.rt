//! Who waits for whom, in reports of which each wait was worked out by hand.

use crate::view::are_equal;
use std::alloc::Global;
use std::process::Abort;
use worm_view::{Form, run_view};

/// Three by three nodes with buffers of one flit. Node (x, y) is x + 3y, port 1 leads to a greater x, port 3 to a
/// greater y, and port 4 is the terminal.
const NINE_NODES: &[u8] = b"wormnet 1\nradix 3\ndims 2\ndepth 1\nclass data\nend\n";

/// To node 8 go three packets: that from 6 is being delivered, that from 2 stands in front of the sink, and that from 3
/// in front of the column that the one from 2 holds. The packet from 4 wants the row that the one from 3 holds. The
/// packet from 0 stands in front of a buffer that the packet from 1 to 2 fills, which may go into its sink.
const IN_A_ROW: &[u8] = b"wormreport 1\n\
      turns 9 workers 1 drain 0\n\
      delivered 8 from 6 class 0 packet 0 flit 0 word 60\n\
      underway 0 2 class 0 packet 0 flit 0 buffer 1 0 0\n\
      underway 1 2 class 0 packet 0 flit 0 buffer 2 0 0\n\
      underway 2 8 class 0 packet 0 flit 0 buffer 8 2 0\n\
      underway 2 8 class 0 packet 0 flit 1 buffer 5 2 0\n\
      underway 2 8 class 0 packet 0 flit 2 buffer 2 4 0\n\
      underway 3 8 class 0 packet 0 flit 0 buffer 5 0 0\n\
      underway 3 8 class 0 packet 0 flit 1 buffer 4 0 0\n\
      underway 4 5 class 0 packet 0 flit 0 buffer 4 4 0\n\
      underway 6 8 class 0 packet 0 flit 1 buffer 8 0 0\n\
      underway 6 8 class 0 packet 0 flit 2 buffer 7 0 0\n\
      not offered 0\n\
      total injected 11 delivered 1 underway 10\n";

/// Of ten fronts that of the packet from 1 and flit 1 of that from 6 may go into the sinks; each other waits.
const WAITS_IN_A_ROW: &[u8] = b"Fronts that cannot go on:\n\
      node 1 port 0 channel 0: lane 0 to 2 class 0 packet 0 flit 0 wants port 1, \
      no credit behind lane 1 to 2 class 0 packet 0\n\
      node 2 port 4 channel 0: lane 2 to 8 class 0 packet 0 flit 2 wants port 3, \
      no credit behind lane 2 to 8 class 0 packet 0\n\
      node 4 port 0 channel 0: lane 3 to 8 class 0 packet 0 flit 1 wants port 1, \
      no credit behind lane 3 to 8 class 0 packet 0\n\
      node 4 port 4 channel 0: lane 4 to 5 class 0 packet 0 flit 0 wants port 1, \
      held by lane 3 to 8 class 0 packet 0\n\
      node 5 port 0 channel 0: lane 3 to 8 class 0 packet 0 flit 0 wants port 3, \
      held by lane 2 to 8 class 0 packet 0\n\
      node 5 port 2 channel 0: lane 2 to 8 class 0 packet 0 flit 1 wants port 3, \
      no credit behind lane 2 to 8 class 0 packet 0\n\
      node 7 port 0 channel 0: lane 6 to 8 class 0 packet 0 flit 2 wants port 1, \
      no credit behind lane 6 to 8 class 0 packet 0\n\
      node 8 port 2 channel 0: lane 2 to 8 class 0 packet 0 flit 0 wants port 4, \
      held by lane 6 to 8 class 0 packet 0\n\
      \nChains, the longest first:\n\
      lane 4 to 5 class 0 packet 0 waits for lane 3 to 8 class 0 packet 0 waits for \
      lane 2 to 8 class 0 packet 0 waits for lane 6 to 8 class 0 packet 0\n\
      lane 0 to 2 class 0 packet 0 waits for lane 1 to 2 class 0 packet 0\n";

/// Four nodes in a line with buffers of two flits, and one class with two channels.
const TWO_CHANNELS: &[u8] = b"wormnet 2\ndims 1\nradix 4\ndepth 2\nclass data channels 2\nend\n";

/// The opening in channel 1 of node 1 wants one of the two channels to node 2: one is held by the packet from 1, the
/// other by that from 0 to 3, whose opening is on the link. Both go on, since there are credits.
const BOTH_HELD: &[u8] = b"wormreport 1\n\
      turns 5 workers 1 drain 0\n\
      underway 0 2 class 0 packet 0 flit 0 buffer 1 0 1\n\
      underway 0 3 class 0 packet 0 flit 0 link 1 1 1\n\
      underway 0 3 class 0 packet 0 flit 1 buffer 1 0 0\n\
      underway 1 3 class 0 packet 0 flit 0 buffer 2 0 0\n\
      underway 1 3 class 0 packet 0 flit 1 buffer 1 2 0\n\
      not offered 0\n\
      total injected 5 delivered 0 underway 5\n";

const WAITS_BOTH_HELD: &[u8] = b"Fronts that cannot go on:\n\
      node 1 port 0 channel 1: lane 0 to 2 class 0 packet 0 flit 0 wants port 1, \
      held by lane 1 to 3 class 0 packet 0\n\
      \nChains, the longest first:\n\
      lane 0 to 2 class 0 packet 0 waits for lane 1 to 3 class 0 packet 0\n";

/// The same, but the packet on the link is one flit: its channel is free, and has a credit left.
const ONE_FREE: &[u8] = b"wormreport 1\n\
      turns 5 workers 1 drain 0\n\
      underway 0 2 class 0 packet 0 flit 0 buffer 1 0 1\n\
      underway 0 3 class 0 packet 0 flit 0 link 1 1 1\n\
      underway 1 3 class 0 packet 0 flit 0 buffer 2 0 0\n\
      underway 1 3 class 0 packet 0 flit 1 buffer 1 2 0\n\
      not offered 0\n\
      total injected 4 delivered 0 underway 4\n";

const NOBODY_WAITS: &[u8] = b"Fronts that cannot go on:\n\nChains, the longest first:\n";

/// The waits of the report are these.
fn are_waits(rt: &impl Abort, alloc: Global, mut network: &[u8], mut report: &[u8], wanted: &[u8]) {
    let mut out = Vec::new(alloc);
    let ended = run_view(alloc, &mut network, &mut report, Form::Waits, &mut out);
    are_equal(rt, ended, Ok(()));
    are_equal(rt, out.as_slice(), wanted);
}

#[test]
fn packets_in_a_row(rt: HostRuntime) {
    are_waits(&rt, rt.alloc(), NINE_NODES, IN_A_ROW, WAITS_IN_A_ROW);
}

#[test]
fn two_channels_that_are_held(rt: HostRuntime) {
    are_waits(&rt, rt.alloc(), TWO_CHANNELS, BOTH_HELD, WAITS_BOTH_HELD);
}

#[test]
fn a_channel_that_is_free(rt: HostRuntime) {
    are_waits(&rt, rt.alloc(), TWO_CHANNELS, ONE_FREE, NOBODY_WAITS);
}
