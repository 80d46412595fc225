//! The ends of lanes: sources and sinks.

ghost use Rattle.std.specs.Prelude.{◌≡◌, ◌<◌, length};

use crate::cases::are_equal;
use std::alloc::Global;
use std::process::Abort;
use worm_cases::{lane, single};
use worm_flit::{Flit, Kind, Lane, Packet, are_channels};
use worm_term::{OfferFault, Sink, Source};

/// The source of the node with lanes to so many nodes, and so many channels for each class.
fn source_to(rt: &impl Abort, alloc: Global, node: u8, nodes: u16, channels: &[u8]) -> Source
    ensures { result.channels ≡ channels.now }
{
    assert!(rt; are_channels(channels));
    Source::new(alloc, node, nodes, channels).expect(rt, "a source")
}

/// The source of the node, one of two, with so many channels for each class.
fn source_of(rt: &impl Abort, alloc: Global, node: u8, channels: &[u8]) -> Source
    ensures { result.channels ≡ channels.now }
{
    source_to(rt, alloc, node, 2, channels)
}

/// A packet of these words on the lane.
fn packet_of(rt: &impl Abort, lane: Lane, words: &[u32]) -> Packet {
    Packet::new(lane, words).expect(rt, "1 to 32 words")
}

/// The source numbers packets of one lane up to the last number of all.
fn accepts_all(rt: &impl Abort, source: &mut Source) {
    let packet = packet_of(rt, lane(0, 1, 0), &[7]);
    for number in 0..65_535u16 {
        are_equal(rt, source.offer(&packet), Ok(number));
    }
}

/// The source refuses a packet of the lane, for this fault.
fn refuses(rt: &impl Abort, source: &mut Source, lane: Lane, fault: OfferFault) {
    are_equal(rt, source.offer(&packet_of(rt, lane, &[7])), Err(fault));
}

/// The source gives this answer where it is asked to close the lane.
fn closes(rt: &impl Abort, source: &mut Source, lane: Lane, answer: Result<u16, OfferFault>) {
    are_equal(rt, source.close(lane), answer);
}

#[test]
fn a_lane_has_65535_numbers(rt: HostRuntime) {
    let mut source = source_of(&rt, rt.alloc(), 0, &[1]);
    accepts_all(&rt, &mut source);
    refuses(&rt, &mut source, lane(0, 1, 0), OfferFault::LaneFull);
    closes(&rt, &mut source, lane(0, 1, 0), Err(OfferFault::LaneFull));
    refuses(&rt, &mut source, lane(1, 0, 0), OfferFault::WrongSource);
    refuses(&rt, &mut source, lane(0, 2, 0), OfferFault::NoSuchNode);
    refuses(&rt, &mut source, lane(0, 1, 1), OfferFault::NoSuchClass);
    let mut fresh = source_of(&rt, rt.alloc(), 1, &[1]);
    closes(&rt, &mut fresh, lane(1, 0, 0), Ok(0));
    closes(&rt, &mut fresh, lane(1, 0, 0), Err(OfferFault::LaneClosed));
}

/// Where a close has several faults the first is told: the lane's source, its destination, its class, and then that the
/// class has two channels.
#[test]
fn faults_of_a_close_come_in_order(rt: HostRuntime) {
    let mut wide = source_of(&rt, rt.alloc(), 0, &[2]);
    closes(&rt, &mut wide, lane(1, 2, 1), Err(OfferFault::WrongSource));
    closes(&rt, &mut wide, lane(0, 2, 1), Err(OfferFault::NoSuchNode));
    closes(&rt, &mut wide, lane(0, 1, 1), Err(OfferFault::NoSuchClass));
    closes(&rt, &mut wide, lane(0, 1, 0), Err(OfferFault::ManyChannels));
}

/// The sink takes the flit.
fn takes(rt: &impl Abort, sink: &mut Sink, flit: Flit)
    requires { flit.lane.dst ≡ sink.old.node }
    ensures { sink.new.node ≡ sink.old.node }
{
    match sink.take(flit) {
        Ok(()) => {}
        Err(_) => panic!(rt; "memory"),
    }
}

/// The only flit of a packet, for which no memory was taken ahead.
#[test]
fn a_sink_takes_a_flit(rt: HostRuntime) {
    let mut sink = Sink::new(rt.alloc(), 1);
    assert!(rt; sink.delivered().is_empty());
    takes(&rt, &mut sink, single(0, 5));
    are_equal(&rt, sink.delivered(), [single(0, 5)].as_slice());
}

/// The mark of the lane from node 0 to node 1, behind its first packet.
fn mark() -> Flit
    ensures { result.lane.dst ≡ 1 }
{
    Flit {
        lane: lane(0, 1, 0),
        packet: 1,
        index: 0,
        kind: Kind::Close,
        vc: 0,
        word: 0,
    }
}

#[test]
fn a_sink_keeps_what_comes(rt: HostRuntime) {
    let mut sink = Sink::new(rt.alloc(), 1);
    takes(&rt, &mut sink, single(0, 17));
    are_equal(&rt, sink.delivered(), [single(0, 17)].as_slice());
    assert!(rt; !sink.closed(lane(0, 1, 0)));
    takes(&rt, &mut sink, mark());
    are_equal(&rt, sink.delivered(), [single(0, 17), mark()].as_slice());
    assert!(rt; sink.closed(lane(0, 1, 0)));
}

/// The source gives the packet this number.
fn accepts(rt: &impl Abort, source: &mut Source, packet: &Packet, number: u16)
    ensures { source.new.channels ≡ source.old.channels }
{
    match source.offer(packet) {
        Ok(given) => are_equal(rt, given, number),
        Err(fault) => panic!(rt; "{fault:?}"),
    }
}

/// Any node has a source with lanes to any number of nodes, whether it is one of them or not.
#[test]
fn sources_of_any_node(rt: HostRuntime) {
    let mut past = source_to(&rt, rt.alloc(), 7, 2, &[1]);
    refuses(&rt, &mut past, lane(0, 1, 0), OfferFault::WrongSource);
    accepts(&rt, &mut past, &packet_of(&rt, lane(7, 1, 0), &[7]), 0);
    accepts(&rt, &mut past, &packet_of(&rt, lane(7, 1, 0), &[7]), 1);
    refuses(&rt, &mut past, lane(7, 2, 0), OfferFault::NoSuchNode);
    let mut alone = source_to(&rt, rt.alloc(), 0, 0, &[1]);
    refuses(&rt, &mut alone, lane(0, 0, 0), OfferFault::NoSuchNode);
    let mut widest = source_to(&rt, rt.alloc(), 255, 65_535, &[1, 1, 1, 1]);
    accepts(
        &rt,
        &mut widest,
        &packet_of(&rt, lane(255, 255, 3), &[7]),
        0,
    );
}

/// The class's next flit has this word, and would be fed on this channel.
fn is_next(rt: &impl Abort, source: &Source, class: u8, word: u32, vc: u8)
    requires { class < length source.now.channels }
{
    let front = source.front(class).expect(rt, "a flit waits");
    are_equal(rt, (front.word, front.vc), (word, vc));
    are_equal(rt, source.next_channel(class), Some(vc));
}

/// No flit of the class waits.
fn has_none(rt: &impl Abort, source: &Source, class: u8)
    requires { class < length source.now.channels }
{
    are_equal(
        rt,
        (source.front(class), source.next_channel(class)),
        (None, None),
    );
}

/// The class's front is fed.
fn feed(rt: &impl Abort, source: &mut Source, class: u8)
    requires { class < length source.old.channels }
    ensures { source.new.channels ≡ source.old.channels }
{
    assert!(rt; source.front(class).is_some());
    source.fed(class);
}

/// So many flits of the class were fed, of so many that were accepted.
fn has_fed(rt: &impl Abort, source: &Source, class: u8, fed: usize, accepted: usize)
    requires { class < length source.now.channels }
{
    are_equal(rt, source.fed_count(class), fed);
    are_equal(rt, source.injected(class).len(), accepted);
}

#[test]
fn packets_are_fed_in_order(rt: HostRuntime) {
    let mut source = source_of(&rt, rt.alloc(), 0, &[2, 3]);
    let first = packet_of(&rt, lane(0, 1, 1), &[1, 2]);
    has_none(&rt, &source, 1);
    accepts(&rt, &mut source, &first, 0);
    accepts(&rt, &mut source, &packet_of(&rt, lane(0, 0, 1), &[3]), 0);
    accepts(&rt, &mut source, &first, 1);
    has_none(&rt, &source, 0);
    is_next(&rt, &source, 1, 1, 2);
    feed(&rt, &mut source, 1);
    is_next(&rt, &source, 1, 2, 2);
    feed(&rt, &mut source, 1);
    is_next(&rt, &source, 1, 3, 2);
    has_fed(&rt, &source, 1, 2, 5);
    has_fed(&rt, &source, 0, 0, 0);
    closes(
        &rt,
        &mut source,
        lane(0, 1, 1),
        Err(OfferFault::ManyChannels),
    );
}
