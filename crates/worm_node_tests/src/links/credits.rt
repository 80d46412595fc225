//! What goes onto a line of credits comes out of it, in order.

ghost use Rattle.std.specs.Prelude.{◌≡◌, ◌<◌};

use crate::cases::are_equal;
use crate::links::pair;
use std::alloc::Global;
use std::process::Abort;
use std::sync::Wait;
use std::thread;
use worm_links::{CreditEnds, CreditRx, CreditTx, credit_line, reunite_credits};

/// The ends of the credit line of a link with so many channels, and room for so many credits of each.
fn ends_of(rt: &impl Abort, alloc: Global, channels: u8, depth: u8) -> (CreditTx, CreditRx)
    ensures channels { result.0.link.channels ≡ channels }
    ensures queue { result.0.queue ≡ result.1.queue }
{
    assert!(rt; 0 < channels && channels <= 8 && 0 < depth && depth <= 17);
    credit_line(alloc, pair(rt, channels, depth)).expect(rt, "memory")
}

/// The sender's end takes the credit.
fn sends<R: Abort + Wait>(rt: &R, tx: &mut CreditTx, channel: u8)
    requires { channel < tx.old.link.channels }
    ensures channels { tx.new.link.channels ≡ tx.old.link.channels }
    ensures queue { tx.new.queue ≡ tx.old.queue }
{
    match tx.push(rt, channel) {
        Ok(()) => {}
        Err(back) => panic!(rt; "credit {back} came back"),
    }
}

/// The line is full for the credit, which comes back.
fn is_full<R: Abort + Wait>(rt: &R, tx: &mut CreditTx, channel: u8)
    requires { channel < tx.old.link.channels }
    ensures { tx.new.link.channels ≡ tx.old.link.channels }
{
    are_equal(rt, tx.push(rt, channel), Err(channel));
}

/// This credit comes next; none where none stands in the line.
fn comes(rt: &impl Abort, rx: &mut CreditRx, channel: Option<u8>)
    ensures { rx.new.queue ≡ rx.old.queue }
{
    match rx.pop() {
        Some(found) => are_equal(rt, Some(found), channel),
        None => are_equal(rt, None, channel),
    }
}

/// This credit is left; none where all was taken.
fn is_left<R: Abort + Wait>(rt: &R, ends: &mut CreditEnds, channel: Option<u8>) {
    are_equal(rt, ends.pop_rest(rt), channel);
}

#[test]
fn credits_of_one_channel_of_depth_one(rt: HostRuntime) {
    let (mut tx, mut rx) = ends_of(&rt, rt.alloc(), 1, 1);
    sends(&rt, &mut tx, 0);
    is_full(&rt, &mut tx, 0);
    comes(&rt, &mut rx, Some(0));
    comes(&rt, &mut rx, None);
}

#[test]
fn a_full_line_takes_a_credit_once_one_was_popped(rt: HostRuntime) {
    let (mut tx, mut rx) = ends_of(&rt, rt.alloc(), 1, 1);
    sends(&rt, &mut tx, 0);
    is_full(&rt, &mut tx, 0);
    comes(&rt, &mut rx, Some(0));
    sends(&rt, &mut tx, 0);
    comes(&rt, &mut rx, Some(0));
    comes(&rt, &mut rx, None);
}

/// The sender's end takes so many credits, of eight channels in turn.
fn send_all<R: Abort + Wait>(rt: &R, tx: &mut CreditTx, count: u8)
    requires { tx.old.link.channels ≡ 8 }
    ensures { tx.new.link.channels ≡ 8 }
{
    for credit in 0..count {
        sends(rt, tx, credit % 8);
    }
}

/// So many credits come, of eight channels in turn.
fn come_all(rt: &impl Abort, rx: &mut CreditRx, count: u8) {
    for credit in 0..count {
        comes(rt, rx, Some(credit % 8));
    }
}

/// The widest and deepest link: its queue has room for 8 times 17 credits.
#[test]
fn credits_of_eight_channels_of_depth_seventeen(rt: HostRuntime) {
    let (mut tx, mut rx) = ends_of(&rt, rt.alloc(), 8, 17);
    send_all(&rt, &mut tx, 136);
    is_full(&rt, &mut tx, 0);
    come_all(&rt, &mut rx, 136);
    comes(&rt, &mut rx, None);
}

/// Sends a credit of one of two channels, with a yield after each failed try. False where the tries run out.
fn offer<R: Wait>(rt: &R, tx: &mut CreditTx, channel: u8, tries: &mut u32) -> bool
    requires { (tx.old.link.channels ≡ 2) × (channel < 2) }
    ensures { tx.new.link.channels ≡ 2 }
{
    while *tries > 0 {
        *tries -= 1;
        if tx.push(rt, channel).is_ok() {
            return true;
        }
        thread::yield_now();
    }
    false
}

/// Sends so many credits, two of channel 0 to each of channel 1. False where the tries run out.
fn offer_all<R: Wait>(rt: &R, mut tx: CreditTx, credits: u16) -> bool
    requires { tx.link.channels ≡ 2 }
{
    let mut tries = 10_000_000;
    for credit in 0..credits {
        if !offer(rt, &mut tx, (credit % 3 / 2) as u8, &mut tries) {
            return false;
        }
    }
    true
}

/// How many of so many credits come, each as it was sent, until the tries run out.
fn take_all(rt: &impl Abort, mut rx: CreditRx, credits: u16) -> u16 {
    let mut taken = 0;
    for _ in 0..10_000_000u32 {
        if taken >= credits {
            break;
        }
        match rx.pop() {
            Some(channel) => {
                are_equal(rt, u16::from(channel), taken % 3 / 2);
                taken += 1;
            }
            None => thread::yield_now(),
        }
    }
    taken
}

#[test]
fn credits_between_two_threads(rt: HostRuntime) {
    let (tx, rx) = ends_of(&rt, rt.alloc(), 2, 2);
    let started = thread::spawn(&rt, move || offer_all(&rt, tx, 1000));
    let pusher = started.expect(&rt, "a thread");
    let taken = take_all(&rt, rx, 1000);
    assert!(rt; pusher.join(&rt));
    are_equal(&rt, taken, 1000);
}

#[test]
fn two_credits_left_at_the_reunion(rt: HostRuntime) {
    let (mut tx, mut rx) = ends_of(&rt, rt.alloc(), 2, 2);
    sends(&rt, &mut tx, 1);
    sends(&rt, &mut tx, 0);
    sends(&rt, &mut tx, 1);
    comes(&rt, &mut rx, Some(1));
    let mut ends = reunite_credits(tx, rx);
    is_left(&rt, &mut ends, Some(0));
    is_left(&rt, &mut ends, Some(1));
    is_left(&rt, &mut ends, None);
}

#[test]
fn ends_of_different_links_lie_in_one_list(rt: HostRuntime) {
    let (_, narrow) = ends_of(&rt, rt.alloc(), 1, 1);
    let (mut tx, wide) = ends_of(&rt, rt.alloc(), 2, 2);
    let made = Vec::from_array(rt.alloc(), [narrow, wide]);
    let mut lines = made.expect(&rt, "memory");
    sends(&rt, &mut tx, 1);
    comes(&rt, &mut lines[0], None);
    comes(&rt, &mut lines[1], Some(1));
}
