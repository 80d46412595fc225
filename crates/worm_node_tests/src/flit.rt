//! Packets and what they are cut into, the words of flits, the channels of classes, and sets of small numbers.

ghost use Rattle.std.specs.Prelude.{◌<◌};

use crate::cases::{are_equal, reads};
use std::process::Abort;
use worm_cases::lane;
use worm_flit::{
    ClassChannels, Flit, Kind, Lane, Packet, PacketFault, SmallSet, are_channels, close_flit,
    flit_at, is_closing, is_opening, pack, unpack,
};

/// The flit of the lane (2, 5, 1) whose numbers are the largest of their kinds.
const FAR: Flit = Flit {
    lane: Lane {
        src: 2,
        dst: 5,
        class: 1,
    },
    packet: 258,
    index: 31,
    kind: Kind::Tail,
    vc: 1,
    word: 4_294_967_295,
};

/// Words make no packet, for this fault.
fn are_refused(rt: &impl Abort, words: &[u32], fault: PacketFault) {
    are_equal(rt, Packet::new(lane(0, 1, 0), words).err(), Some(fault));
}

/// The packet of these words from node 0 to node 1.
fn packet_of(rt: &impl Abort, words: &[u32]) -> Packet {
    Packet::new(lane(0, 1, 0), words).expect(rt, "1 to 32 words")
}

/// The packet has so many words, and its lane.
fn is_kept(rt: &impl Abort, packet: &Packet, count: usize) {
    are_equal(rt, packet.words().len(), count);
    are_equal(rt, packet.lane(), lane(0, 1, 0));
}

#[test]
fn packets_have_one_to_thirty_two_words(rt: HostRuntime) {
    let words = [7; 33];
    are_refused(&rt, &[], PacketFault::Empty);
    are_refused(&rt, &words, PacketFault::TooLong);
    is_kept(&rt, &packet_of(&rt, &words[..32]), 32);
}

#[test]
fn faults_have_their_names_as_texts(rt: HostRuntime) {
    reads(
        &rt,
        format!(in rt.alloc(); "{}", PacketFault::Empty),
        "Empty",
    );
    reads(
        &rt,
        format!(in rt.alloc(); "{}", PacketFault::TooLong),
        "TooLong",
    );
}

/// The place's flit of a packet that has this number in its lane.
fn has_flit(rt: &impl Abort, packet: &Packet, number: u16, index: u8, kind: Kind, word: u32) {
    let flit = Flit {
        lane: lane(0, 1, 0),
        packet: number,
        index,
        kind,
        vc: 0,
        word,
    };
    assert!(rt; usize::from(index) < packet.words().len());
    are_equal(rt, flit_at(packet, number, index), flit);
}

#[test]
fn a_packet_is_cut_into_flits(rt: HostRuntime) {
    let packet = packet_of(&rt, &[17, 18, 19]);
    has_flit(&rt, &packet, 6, 0, Kind::Head, 17);
    has_flit(&rt, &packet, 6, 1, Kind::Body, 18);
    has_flit(&rt, &packet, 6, 2, Kind::Tail, 19);
    has_flit(&rt, &packet_of(&rt, &[5]), 0, 0, Kind::Single, 5);
    let mark = Flit {
        kind: Kind::Close,
        packet: 9,
        index: 0,
        word: 0,
        ..FAR
    };
    are_equal(&rt, close_flit(FAR.lane, 9), mark);
}

/// Whether a flit of this kind is the first of its packet, and whether it is the last.
fn is_kind(rt: &impl Abort, kind: Kind, opens: bool, closes: bool) {
    are_equal(rt, (is_opening(kind), is_closing(kind)), (opens, closes));
}

#[test]
fn kinds_open_and_close(rt: HostRuntime) {
    is_kind(&rt, Kind::Head, true, false);
    is_kind(&rt, Kind::Body, false, false);
    is_kind(&rt, Kind::Tail, false, true);
    is_kind(&rt, Kind::Single, true, true);
    is_kind(&rt, Kind::Close, true, true);
}

/// The word stands for the flit.
fn is_word_of(rt: &impl Abort, flit: Flit, word: u128) {
    are_equal(rt, pack(flit), word);
    are_equal(rt, unpack(word), Some(flit));
}

/// The word stands for no flit.
fn is_no_word(rt: &impl Abort, word: u128) {
    are_equal(rt, unpack(word), None);
}

#[test]
fn words_stand_for_flits(rt: HostRuntime) {
    let head = Flit {
        lane: lane(0, 1, 0),
        packet: 0,
        index: 0,
        kind: Kind::Head,
        vc: 0,
        word: 17,
    };
    is_word_of(&rt, head, 0x0000_0000_0001_0000_0000_0000_0000_0011);
    is_word_of(&rt, FAR, 0x0000_0000_0205_0101_021f_0201_ffff_ffff);
    // Of kind 5.
    is_no_word(&rt, 0x0000_0000_0000_0000_0000_0500_0000_0000);
    // With bit 96.
    is_no_word(&rt, 0x0000_0001_0000_0000_0000_0000_0000_0000);
}

/// The numbers are not those of the channels that classes own.
fn are_no_channels(rt: &impl Abort, counts: &[u8]) {
    assert!(rt; !are_channels(counts), "{counts:?}");
}

/// The channels of classes that own so many each.
fn channels_of(rt: &impl Abort, counts: &[u8]) -> ClassChannels {
    assert!(rt; are_channels(counts));
    ClassChannels::new(counts)
}

/// The class owns so many channels, from this one on.
fn has_class(rt: &impl Abort, classes: &ClassChannels, class: u8, first: u8, count: u8) {
    assert!(rt; class < classes.classes());
    are_equal(
        rt,
        (classes.first(class), classes.count(class)),
        (first, count),
    );
}

/// The channel is the class's.
fn is_owned(rt: &impl Abort, classes: &ClassChannels, channel: u8, class: u8) {
    assert!(rt; channel < classes.total());
    are_equal(rt, classes.owner(channel), class);
}

#[test]
fn classes_own_channels(rt: HostRuntime) {
    are_no_channels(&rt, &[0, 1]);
    are_no_channels(&rt, &[9]);
    are_no_channels(&rt, &[5, 4]);
    are_no_channels(&rt, &[1, 1, 1, 1, 1]);
    are_no_channels(&rt, &[]);
    let classes = channels_of(&rt, &[5, 3]);
    are_equal(&rt, (classes.classes(), classes.total()), (2, 8));
    has_class(&rt, &classes, 0, 0, 5);
    has_class(&rt, &classes, 1, 5, 3);
    is_owned(&rt, &classes, 4, 0);
    is_owned(&rt, &classes, 5, 1);
    assert!(rt; classes.owns(1, 7) && !classes.owns(0, 7) && !classes.owns(2, 7));
}

/// Each number comes into the set, or goes out of it where it is false.
fn put_all(rt: &impl Abort, set: &mut SmallSet, changes: &[(u8, bool)]) {
    for (number, within) in changes {
        assert!(rt; *number < 8);
        set.put(*number, *within);
    }
}

/// The least number of the set is this, and goes out of it; none where the set is empty.
fn gives(rt: &impl Abort, set: &mut SmallSet, number: Option<u8>) {
    are_equal(rt, set.pop_first(), number);
}

#[test]
fn small_numbers_go_in_and_out(rt: HostRuntime) {
    let mut set = SmallSet::new();
    assert!(rt; set.is_empty());
    let changes = [(5, true), (0, true), (7, true), (5, false), (3, true)];
    put_all(&rt, &mut set, &changes);
    assert!(rt; set.contains(7) && !set.contains(5));
    let mut other = SmallSet::new();
    put_all(&rt, &mut other, &[(0, true), (1, true), (7, true)]);
    let mut rest = set.difference(&other);
    gives(&rt, &mut rest, Some(3));
    gives(&rt, &mut rest, None);
    gives(&rt, &mut set, Some(0));
    gives(&rt, &mut set, Some(3));
    assert!(rt; !set.is_empty());
    gives(&rt, &mut set, Some(7));
    gives(&rt, &mut set, None);
}
