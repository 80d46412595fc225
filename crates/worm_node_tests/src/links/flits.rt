//! What goes onto a link comes out of it, in order: flit by flit, in two threads, and at the reunion of its ends.

ghost use Rattle.std.specs.Prelude.{◌≡◌, ◌-◌, ◌<◌, ◌++◌, ◌∷◌, [], true, false, IfOk};
ghost use Rattle.worm_flit.specs.Kinds.{opens, closes};
ghost use Rattle.worm_flit.specs.Worms.{MayFollow};
ghost use Rattle.worm_links.specs.Links.{AreWorms, MayCross};
ghost use Rattle.worm_links.specs.Trial.{pair_link, trial_flit, last_on, IsReady, IsOpen};

use crate::cases::are_equal;
use crate::links::pair;
use std::alloc::Global;
use std::marker::Brand;
use std::process::Abort;
use std::sync::Wait;
use std::thread;
use worm_cases::lane;
use worm_flit::{Flit, Kind};
use worm_links::{Ends, FlitRx, FlitTx, LinkCfg, LinkFault, Opening, link, link_after, reunite};

/// A flit from node 0 to node 1, which carries its packet's number.
fn flit(packet: u16, index: u8, kind: Kind, vc: u8) -> Flit
    ensures { result ≡ trial_flit packet index kind vc }
{
    Flit {
        lane: lane(0, 1, 0),
        packet,
        index,
        kind,
        vc,
        word: u32::from(packet),
    }
}

/// The ends of a new link with so many channels, and room for so many flits on each.
fn ends_of(rt: &impl Abort, alloc: Global, channels: u8, depth: u8) -> (FlitTx, FlitRx)
    ensures link { result.0.link ≡ pair_link channels depth }
    ensures ready { IsReady channels result.0 }
    ensures queue { result.0.queue ≡ result.1.queue }
{
    assert!(rt; 0 < channels && channels <= 8 && 0 < depth && depth <= 17);
    link(alloc, pair(rt, channels, depth)).expect(rt, "memory")
}

/// This flit comes next; none where none stands in the queue.
fn comes(rt: &impl Abort, rx: &mut FlitRx, flit: Option<Flit>)
    ensures { rx.new.queue ≡ rx.old.queue }
{
    match rx.pop() {
        Some(found) => are_equal(rt, Some(found), flit),
        None => are_equal(rt, None, flit),
    }
}

/// This flit is left; none where all was taken.
fn is_left<R: Abort + Wait>(rt: &R, ends: &mut Ends, flit: Option<Flit>) {
    are_equal(rt, ends.pop_rest(rt), flit);
}

#[test]
fn one_channel_of_depth_one(rt: HostRuntime) {
    let (mut tx, mut rx) = ends_of(&rt, rt.alloc(), 1, 1);
    let first = flit(0, 0, Kind::Single, 0);
    let second = flit(1, 0, Kind::Single, 0);
    are_equal(&rt, push_single(&rt, &mut tx, 1, 0, 0), Ok(()));
    are_equal(&rt, push_single(&rt, &mut tx, 1, 1, 0), Err(second));
    comes(&rt, &mut rx, Some(first));
    comes(&rt, &mut rx, None);
}

#[test]
fn a_full_link_takes_a_flit_once_one_was_popped(rt: HostRuntime) {
    let (mut tx, mut rx) = ends_of(&rt, rt.alloc(), 1, 1);
    let second = flit(1, 0, Kind::Single, 0);
    are_equal(&rt, push_single(&rt, &mut tx, 1, 0, 0), Ok(()));
    are_equal(&rt, push_single(&rt, &mut tx, 1, 1, 0), Err(second));
    comes(&rt, &mut rx, Some(flit(0, 0, Kind::Single, 0)));
    are_equal(&rt, push_single(&rt, &mut tx, 1, 1, 0), Ok(()));
    comes(&rt, &mut rx, Some(second));
    comes(&rt, &mut rx, None);
}

/// Pushes the flit, with a yield after each failed try. False where the tries run out.
fn offer<R: Wait>(rt: &R, tx: &mut FlitTx, flit: Flit, tries: &mut u32) -> bool
    requires next { MayFollow (last_on flit.vc tx.old) flit }
    requires crossing { MayCross tx.old.link flit }
    ensures landed { result ≡ true → tx.new ≡ record tx.old { sent = tx.old.sent ++ flit ∷ [] } }
    ensures queue { tx.new.queue ≡ tx.old.queue }
{
    while *tries > 0 {
        *tries -= 1;
        tx.history();
        if tx.push(rt, flit).is_ok() {
            return true;
        }
        thread::yield_now();
    }
    false
}

/// Pushes the only flit of a packet, on the channel.
fn push_single<R: Wait>(
    rt: &R,
    tx: &mut FlitTx,
    channels: u8,
    packet: u16,
    vc: u8,
) -> Result<(), Flit>
    requires channel { (vc < channels) × (vc < 8) }
    requires ready { IsReady channels tx.old }
    ensures { IsReady channels tx.new }
{
    let single = flit(packet, 0, Kind::Single, vc);
    tx.history();
    match tx.push(rt, single) {
        Ok(()) => Ok(()),
        Err(back) => Err(back),
    }
}

/// Pushes packets of one flit, on eight channels in turn. How many landed before one came back.
fn fill<R: Wait>(rt: &R, tx: &mut FlitTx, packets: u16) -> u16
    requires { IsReady 8 tx.old }
{
    for packet in 0..packets {
        if push_single(rt, tx, 8, packet, (packet % 8) as u8).is_err() {
            return packet;
        }
    }
    packets
}

/// Pushes the first flit of a packet.
fn begin<R: Wait>(rt: &R, tx: &mut FlitTx, packet: u16, kind: Kind, vc: u8, tries: &mut u32) -> bool
    requires channel { vc < 2 }
    requires first { opens kind ≡ true }
    requires ready { IsReady 2 tx.old }
    ensures landed { result ≡ true → IsOpen 2 tx.new (trial_flit packet 0 kind vc) }
    ensures queue { tx.new.queue ≡ tx.old.queue }
{
    offer(rt, tx, flit(packet, 0, kind, vc), tries)
}

/// Pushes a packet's next flit.
fn follow<R: Wait>(
    rt: &R,
    tx: &mut FlitTx,
    packet: u16,
    index: u8,
    before: Kind,
    kind: Kind,
    vc: u8,
    tries: &mut u32,
) -> bool
    requires channel { vc < 2 }
    requires index { 0 < index }
    requires kinds { (closes before ≡ false) × (opens kind ≡ false) }
    requires was { IsOpen 2 tx.old (trial_flit packet (index - 1) before vc) }
    ensures landed { result ≡ true → IsOpen 2 tx.new (trial_flit packet index kind vc) }
    ensures queue { tx.new.queue ≡ tx.old.queue }
{
    let _ = before;
    offer(rt, tx, flit(packet, index, kind, vc), tries)
}

/// Pushes the flits of a packet of 1 to 3 flits.
fn offer_packet<R: Wait>(
    rt: &R,
    tx: &mut FlitTx,
    packet: u16,
    length: u16,
    vc: u8,
    tries: &mut u32,
) -> bool
    requires channel { vc < 2 }
    requires ready { IsReady 2 tx.old }
    ensures landed { result ≡ true → IsReady 2 tx.new }
    ensures queue { tx.new.queue ≡ tx.old.queue }
{
    if length == 1 {
        return begin(rt, tx, packet, Kind::Single, vc, tries);
    }
    if !begin(rt, tx, packet, Kind::Head, vc, tries) {
        return false;
    }
    if length == 2 {
        return follow(rt, tx, packet, 1, Kind::Head, Kind::Tail, vc, tries);
    }
    if !follow(rt, tx, packet, 1, Kind::Head, Kind::Body, vc, tries) {
        return false;
    }
    follow(rt, tx, packet, 2, Kind::Body, Kind::Tail, vc, tries)
}

/// Pushes packets, on channels 0 and 1 in turn. False where the tries run out.
fn offer_all<R: Wait>(rt: &R, mut tx: FlitTx, packets: u16) -> bool
    requires { IsReady 2 tx }
{
    let mut tries = 10_000_000;
    for packet in 0..packets {
        if !offer_packet(
            rt,
            &mut tx,
            packet,
            packet % 3 + 1,
            (packet % 2) as u8,
            &mut tries,
        ) {
            return false;
        }
    }
    true
}

/// Pops this many flits, or fewer where the tries run out.
fn take_all(rt: &impl Abort, alloc: Global, mut rx: FlitRx, flits: usize) -> Vec<Flit> {
    let mut taken = Vec::new(alloc);
    for _ in 0..10_000_000u32 {
        if taken.len() >= flits {
            break;
        }
        match rx.pop() {
            Some(flit) => taken.push(flit).expect(rt, "memory"),
            None => thread::yield_now(),
        }
    }
    taken
}

/// The kind of a flit of a packet of so many.
fn kind_of(index: u8, length: u8) -> Kind
    requires { index < length }
{
    if length == 1 {
        Kind::Single
    } else if index == 0 {
        Kind::Head
    } else if index + 1 == length {
        Kind::Tail
    } else {
        Kind::Body
    }
}

/// The flits of the packets on one channel of two.
fn sent_on(rt: &impl Abort, alloc: Global, packets: u16, vc: u8) -> Vec<Flit> {
    let mut flits = Vec::new(alloc);
    for packet in 0..packets {
        if packet % 2 != u16::from(vc) {
            continue;
        }
        let length = (packet % 3 + 1) as u8;
        for index in 0..length {
            let sent = flit(packet, index, kind_of(index, length), vc);
            flits.push(sent).expect(rt, "memory");
        }
    }
    flits
}

/// Those of the flits that are on one channel.
fn on_one(rt: &impl Abort, alloc: Global, flits: &[Flit], vc: u8) -> Vec<Flit> {
    let mut found = Vec::new(alloc);
    for flit in flits {
        if flit.vc == vc {
            found.push(*flit).expect(rt, "memory");
        }
    }
    found
}

/// On this channel of two, the flits of so many packets were taken.
fn are_all(rt: &impl Abort, alloc: Global, taken: &[Flit], packets: u16, vc: u8) {
    let wanted = sent_on(rt, alloc, packets, vc);
    let found = on_one(rt, alloc, taken, vc);
    are_equal(rt, found.as_slice(), wanted.as_slice());
}

/// The only flits of so many packets come, on eight channels in turn.
fn come_all(rt: &impl Abort, rx: &mut FlitRx, packets: u16) {
    for packet in 0..packets {
        let wanted = flit(packet, 0, Kind::Single, (packet % 8) as u8);
        comes(rt, rx, Some(wanted));
    }
}

/// The widest and deepest link: its queue has room for 8 times 17 flits.
#[test]
fn eight_channels_of_depth_seventeen(rt: HostRuntime) {
    let (mut tx, mut rx) = ends_of(&rt, rt.alloc(), 8, 17);
    are_equal(&rt, fill(&rt, &mut tx, 137), 136);
    come_all(&rt, &mut rx, 136);
    comes(&rt, &mut rx, None);
}

#[test]
fn two_threads_lose_nothing(rt: HostRuntime) {
    let alloc: Global = rt.alloc();
    let (tx, rx) = ends_of(&rt, alloc, 2, 2);
    let started = thread::spawn(&rt, move || offer_all(&rt, tx, 1000));
    let pusher = started.expect(&rt, "a thread");
    let taken = take_all(&rt, alloc, rx, 1999);
    assert!(rt; pusher.join(&rt));
    are_equal(&rt, taken.len(), 1999);
    are_all(&rt, alloc, taken.as_slice(), 1000, 0);
    are_all(&rt, alloc, taken.as_slice(), 1000, 1);
}

#[test]
fn three_flits_left_at_the_reunion(rt: HostRuntime) {
    let (mut tx, mut rx) = ends_of(&rt, rt.alloc(), 2, 2);
    let mut tries = 4;
    assert!(rt; offer_packet(&rt, &mut tx, 0, 1, 0, &mut tries));
    assert!(rt; offer_packet(&rt, &mut tx, 1, 3, 1, &mut tries));
    comes(&rt, &mut rx, Some(flit(0, 0, Kind::Single, 0)));
    let mut ends = reunite(tx, rx);
    is_left(&rt, &mut ends, Some(flit(1, 0, Kind::Head, 1)));
    is_left(&rt, &mut ends, Some(flit(1, 1, Kind::Body, 1)));
    is_left(&rt, &mut ends, Some(flit(1, 2, Kind::Tail, 1)));
    is_left(&rt, &mut ends, None);
}

/// The link whose ends know that these flits went over it.
fn resume<B: Opening>(
    alloc: Global,
    cfg: LinkCfg,
    past: &[Flit],
) -> Result<(FlitTx, FlitRx), LinkFault>
    requires cfg { cfg ≡ pair_link 2 2 }
    requires past { past.now ≡ B.past }
    requires worms { AreWorms past.now }
    ensures tx { IfOk result (λ ends. (ends.0.link ≡ cfg) × (ends.0.past ≡ past.now) × (ends.0.sent ≡ [])) }
    ensures queue { IfOk result (λ ends. ends.0.queue ≡ ends.1.queue) }
{
    let _ = past;
    link_after::<B>(alloc, cfg)
}

/// The ends of a link over which the head of packet 7 went before, on channel 1.
fn resumed(rt: &impl Abort, alloc: Global) -> (FlitTx, FlitRx)
    ensures open { IsOpen 2 result.0 (trial_flit 7 0 Kind.Head 1) }
    ensures queue { result.0.queue ≡ result.1.queue }
{
    let past = [flit(7, 0, Kind::Head, 1)];
    resume::<Brand>(alloc, pair(rt, 2, 2), &past).expect(rt, "memory")
}

/// A packet whose head went over the link before: its body and tail are the first flits that are sent.
#[test]
fn an_opening_history_is_continued(rt: HostRuntime) {
    let (mut tx, mut rx) = resumed(&rt, rt.alloc());
    let mut tries = 2;
    assert!(rt; follow(&rt, &mut tx, 7, 1, Kind::Head, Kind::Body, 1, &mut tries));
    assert!(rt; follow(&rt, &mut tx, 7, 2, Kind::Body, Kind::Tail, 1, &mut tries));
    comes(&rt, &mut rx, Some(flit(7, 1, Kind::Body, 1)));
    let mut ends = reunite(tx, rx);
    is_left(&rt, &mut ends, Some(flit(7, 2, Kind::Tail, 1)));
    is_left(&rt, &mut ends, None);
}
