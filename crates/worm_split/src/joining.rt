//! The parts of a network joined again.

ghost use Rattle.std.specs.Prelude.{◌≡◌, ◌<◌, ◌≤◌, ◌++◌, ◌∷◌, ◌%◌, ◌==◌, [], ℕ, false, length, true};
ghost use Rattle.worm_core.specs.Headline.{DeliversInOrder};
ghost use Rattle.worm_split.specs.Ends.{pair_at};
ghost use Rattle.worm_split.specs.Apart.{ArePaired, IsPutBack, with_lists};
ghost use Rattle.worm_split.specs.Joins.{AreEmptied, AreOfOne, AreParts, CreditsEmptied, FlitsEmptied, IsBetween};
ghost use Rattle.worm_split.specs.Joins.{IsEmptied, IsGathered, IsJoinOf, IsLaterThan};
ghost use Rattle.worm_split.specs.Splits.{part_at};

use crate::apart::TakenApart;
use crate::ends::{End, EndPair};
use crate::part::{Part, Pieces};
use std::mem::replace;
use std::sync::Wait;
use worm_core::{LinkState, Net, NetParts, Region};
use worm_flit::Flit;
use worm_links::{CreditRx, CreditTx, FlitRx, FlitTx, reunite, reunite_credits};
use worm_mesh::LinkEnds;

fn put_behind(link: &mut LinkState, flit: Flit)
    ensures fits { length link.old.flits < link.old.room →
        link.new ≡ record link.old { flits = link.old.flits ++ flit ∷ [] } }
    ensures full { link.old.room ≤ length link.old.flits → link.new ≡ link.old }
{
    if link.count() < link.room() {
        link.push(flit);
    }
}

fn put_credit_behind(link: &mut LinkState, vc: u8)
    ensures fits { length link.old.credits < link.old.room →
        link.new ≡ record link.old { credits = link.old.credits ++ vc ∷ [] } }
    ensures full { link.old.room ≤ length link.old.credits → link.new ≡ link.old }
{
    if link.credit_count() < link.room() {
        link.push_credit(vc);
    }
}

/// There is room, but that is known only of all links together, once all queues are empty; so it is asked.
fn empty_flits<R: Wait>(rt: &R, tx: FlitTx, rx: FlitRx, link: &mut LinkState)
    requires { tx.queue ≡ rx.queue }
    ensures { FlitsEmptied tx.sent rx.taken link.old link.new }
{
    let mut ends = reunite(tx, rx);
    while let Some(flit) = ends.pop_rest(rt) {
        put_behind(link, flit);
    }
}

fn empty_credits<R: Wait>(rt: &R, tx: CreditTx, rx: CreditRx, link: &mut LinkState)
    requires { tx.queue ≡ rx.queue }
    ensures { CreditsEmptied tx.sent rx.taken link.old link.new }
{
    let mut ends = reunite_credits(tx, rx);
    while let Some(vc) = ends.pop_rest(rt) {
        put_credit_behind(link, vc);
    }
}

fn empty_pair<R: Wait>(rt: &R, pair: EndPair, link: &mut LinkState)
    requires { AreOfOne pair.out pair.into }
    ensures { IsEmptied pair.out pair.into link.old link.new }
{
    let EndPair { out, into } = pair;
    let End::Leaving(tx, back) = out else {
        return;
    };
    let End::Entering(rx, give) = into else {
        return;
    };
    empty_flits(rt, tx, rx, link);
    empty_credits(rt, give, back, link);
}

fn empty_between<R: Wait>(rt: &R, pair: &mut EndPair, link: &mut LinkState, within: bool)
    requires { within ≡ false → AreOfOne pair.old.out pair.old.into }
    ensures between { within ≡ false → IsEmptied pair.old.out pair.old.into link.old link.new }
    ensures within { within ≡ true → link.new ≡ link.old }
{
    if within {
        return;
    }
    let none = EndPair {
        out: End::Inner,
        into: End::Inner,
    };
    empty_pair(rt, replace(pair, none), link);
}

fn is_within(way: LinkEnds, workers: usize) -> bool
    requires { 0 < workers }
    ensures { result ≡ (way.from % workers == way.to % workers) }
{
    usize::from(way.from) % workers == usize::from(way.to) % workers
}

impl TakenApart {
    fn put_back(&mut self, region: Region, mut ends: Vec<End>)
        requires workers { 0 < region.own.workers }
        requires paired { ArePaired self.old region.nodes region.links ends.items }
        ensures { IsPutBack region.own self.old self.new region.nodes region.links ends.items }
    {
        let own = region.own();
        let NetParts {
            config: _,
            mut nodes,
            mut links,
            inboxes: _,
        } = region.into_parts();
        self.exchange(&mut nodes, &mut links, &mut ends, own);
    }

    fn empty_pairs<R: Wait>(&mut self, rt: &R, workers: usize)
        requires workers { 0 < workers }
        requires queues { (k : ℕ) → IsBetween workers self.old.ways k →
            AreOfOne (pair_at self.old.pairs k).out (pair_at self.old.pairs k).into }
        ensures links { AreEmptied workers (length self.old.ways) self.old.ways self.old.pairs self.old.net.links
            self.new.net.links }
        ensures rest { self.new.net ≡ with_lists self.old.net self.old.net.nodes self.new.net.links }
    {
        for k in 0..self.ways.len() {
            let within = is_within(self.ways[k], workers);
            empty_between(rt, &mut self.pairs[k], &mut self.links[k], within);
        }
    }
}

fn gather(mut parts: Vec<Part>) -> TakenApart
    requires { AreParts parts.items }
    ensures { IsGathered parts.items 0 result }
{
    let Some(last) = parts.pop() else {
        unreachable!()
    };
    let Pieces { region, ends, kept } = last.into_pieces();
    let Some(mut whole) = kept else {
        unreachable!()
    };
    region.recall();
    whole.recall();
    whole.put_back(region, ends);
    while let Some(part) = parts.pop() {
        let Pieces {
            region,
            ends,
            kept: _,
        } = part.into_pieces();
        region.recall();
        whole.put_back(region, ends);
    }
    whole
}

/// Joins all parts of one split, in rising number of their workers: each node as its owner has it, each link as the
/// owner of its far end has it, and then what its queue still held. It takes no memory.
pub fn join<R: Wait>(rt: &R, parts: Vec<Part>) -> Net
    requires { AreParts parts.items }
    ensures joined { IsJoinOf parts.items result }
    ensures later { IsLaterThan (part_at parts.items 0).opening result }
    ensures delivers { DeliversInOrder result }
{
    let workers = parts.len();
    let mut whole = gather(parts);
    whole.empty_pairs(rt, workers);
    let TakenApart {
        config,
        ways: _,
        nodes,
        links,
        inboxes,
        pairs: _,
    } = whole;
    let lists = NetParts {
        config,
        nodes,
        links,
        inboxes,
    };
    Net::from_parts(lists)
}
