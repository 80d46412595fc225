//! The records of an input channel and of an output channel, through one packet.

use crate::cases::are_equal;
use std::process::Abort;
use worm_records::{InRecord, OutRecord};

/// The record is this one.
fn is_input(rt: &impl Abort, record: InRecord, expected: InRecord) {
    are_equal(rt, record, expected);
}

#[test]
fn a_packet_passes(rt: HostRuntime) {
    let mut input = InRecord::Idle;
    input.route_to(3);
    is_input(&rt, input, InRecord::Waiting { out: 3 });
    input.grant(1);
    is_input(&rt, input, InRecord::Active { out: 3, out_vc: 1 });
    input.release();
    is_input(&rt, input, InRecord::Idle);
}

/// The record has this holder and so many credits.
fn is_output(rt: &impl Abort, record: OutRecord, holder: Option<(u8, u8)>, credits: u8) {
    are_equal(rt, record, OutRecord { holder, credits });
}

#[test]
fn an_output_channel_is_used(rt: HostRuntime) {
    let mut output = OutRecord {
        holder: None,
        credits: 2,
    };
    output.grant(4, 1);
    output.spend_credit();
    is_output(&rt, output, Some((4, 1)), 1);
    output.release();
    output.add_credit(2);
    is_output(&rt, output, None, 2);
}
