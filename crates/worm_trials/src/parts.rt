//! A network taken apart, split among workers and joined again, where the split may want memory.

ghost use Rattle.std.specs.Prelude.{◌≡◌, ◌≤◌, true};
ghost use Rattle.worm_core.specs.Headline.{DeliversInOrder};

use crate::cases::{Case, opposite, words_of};
use crate::reports::{report, summary};
use crate::seen::Seen;
use crate::turns::take_all;
use std::alloc::Global;
use std::sync::Wait;
use worm_core::{Net, NoMemory};
use worm_flit::Flit;
use worm_split::{join, split};

/// The network taken apart and put together, for which no memory is needed.
fn rebuilt(net: Net) -> Net
    ensures { result ≡ net }
{
    Net::from_parts(net.into_parts())
}

/// The network split among so many workers and joined at once. Whether memory was refused.
fn split_and_joined<R: Wait>(rt: &R, alloc: Global, net: Net, workers: usize) -> (Net, bool)
    requires some { 1 ≤ workers }
    requires few { workers ≤ 16 }
    ensures refused { result.1 ≡ true → result.0 ≡ net }
    ensures delivers { DeliversInOrder result.0 }
{
    match split(alloc, net, workers) {
        Ok(parts) => (join(rt, parts), false),
        Err((net, NoMemory)) => {
            net.recall();
            (net, true)
        }
    }
}

/// The case whose network was taken apart, split among so many workers and joined.
fn through_parts<R: Wait>(rt: &R, alloc: Global, case: Case, workers: usize) -> (Case, Seen)
    requires some { 1 ≤ workers }
    requires few { workers ≤ 16 }
{
    let (net, script) = case.into_inner();
    let (net, refused) = split_and_joined(rt, alloc, rebuilt(net), workers);
    (Case { net, script }, Seen::of(refused))
}

/// The flits are those of the words that the node sent.
fn are_from(flits: &[Flit], src: u8) -> bool {
    let sent = flits.iter().all(|flit| flit.lane.src == src);
    let words = flits.iter().map(|flit| flit.word);
    sent && words.eq(words_of(src).iter().copied())
}

/// Each of sixteen nodes has the words of the node opposite.
fn have_arrived(net: &Net) -> bool {
    if net.nodes() != 16 {
        return false;
    }
    for node in 0u8..16 {
        if !are_from(net.delivered(node), 15 - node) {
            return false;
        }
    }
    true
}

/// The turns after the third deliver all.
fn go_on(case: &mut Case) -> Seen {
    let late = take_all(&mut case.net, 3, 21, &case.script);
    late.only_if(have_arrived(&case.net))
}

/// Split among so many workers and joined, a network has the same report, and goes on to deliver all.
fn judge<R: Wait>(rt: &R, alloc: Global, case: Case, workers: usize) -> Seen
    requires some { 1 ≤ workers }
    requires few { workers ≤ 16 }
{
    let said = summary(3, workers, 0);
    let before = report(alloc, &case.net, &said);
    let (mut case, split) = through_parts(rt, alloc, case, workers);
    let after = report(alloc, &case.net, &said);
    split.and(before.is_again(&after)).and(go_on(&mut case))
}

/// The same of a network in full use: after three turns, of which memory may stop one.
fn judge_in_use<R: Wait>(rt: &R, alloc: Global, mut case: Case, workers: usize) -> Seen
    requires some { 1 ≤ workers }
    requires few { workers ≤ 16 }
{
    let early = take_all(&mut case.net, 0, 3, &case.script);
    if early.is_whole() {
        judge(rt, alloc, case, workers)
    } else {
        early
    }
}

/// A network in full use is split among so many workers and joined.
pub fn split_among<R: Wait>(rt: &R, alloc: Global, workers: usize) -> Seen
    requires some { 1 ≤ workers }
    requires few { workers ≤ 16 }
{
    match opposite(alloc) {
        Ok(case) => judge_in_use(rt, alloc, case, workers),
        Err(seen) => seen,
    }
}
