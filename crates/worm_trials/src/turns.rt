//! Turns and views, of which one wants memory.

ghost use Rattle.std.specs.Prelude.{◌≡◌, IfOk, None};
ghost use Rattle.worm_core.specs.LaneView.{IsLaneCut};
ghost use Rattle.worm_script.specs.Script.{due};
ghost use Rattle.worm_region.specs.Turns.{Reaches, Turn};

use crate::cases::{Case, lane, two_words};
use crate::seen::Seen;
use std::alloc::Global;
use worm_core::{Held, LaneView, Net, NoMemory, Place, Script, StepFault};
use worm_flit::{Flit, Lane};

/// Takes the turn, which memory may stop.
pub fn take(net: &mut Net, turn: u64, script: &Script) -> Seen
    ensures done { result ≡ Seen.Whole → Turn (due turn script.now) net.old None net.new }
    ensures reaches { Reaches net.old net.new }
{
    match net.turn(turn, script) {
        Ok(()) => Seen::Whole,
        Err(StepFault::NoMemory) => Seen::Refused,
        Err(_) => Seen::Wrong,
    }
}

/// Takes the turns from one on and below another. Memory may stop one of them, after which the others are taken, too.
pub fn take_all(net: &mut Net, from: u64, below: u64, script: &Script) -> Seen {
    let mut seen = Seen::Whole;
    for turn in from..below {
        seen = seen.and(take(net, turn, script));
    }
    seen
}

/// The view of the lane, where memory is refused by a second call, and whether it was.
pub fn view(alloc: Global, net: &Net, lane: Lane) -> Result<(LaneView, Seen), Seen>
    ensures { IfOk result (λ seen. IsLaneCut net.now lane seen.0.underway.items) }
{
    if !net.has_lane(lane) {
        return Err(Seen::Wrong);
    }
    match net.lane_view(alloc, lane) {
        Ok(view) => Ok((view, Seen::Whole)),
        Err(NoMemory) => match net.lane_view(alloc, lane) {
            Ok(view) => Ok((view, Seen::Refused)),
            Err(NoMemory) => Err(Seen::Wrong),
        },
    }
}

/// What arrived, followed by what is under way, are these words.
pub fn words_are(flits: &[Flit], held: &[Held], words: &[u32]) -> bool {
    let arrived = flits.iter().map(|flit| flit.word);
    let underway = held.iter().map(|held| held.flit.word);
    arrived.chain(underway).eq(words.iter().copied())
}

/// What arrived at node 1, followed by what is under way, is what was offered: both words, or none.
fn is_cut(net: &Net, view: &LaneView) -> bool {
    if net.nodes() < 2 {
        return false;
    }
    let arrived = net.delivered(1);
    let offered: &[u32] = match net.totals().injected {
        0 => &[],
        _ => &[17, 18],
    };
    view.delivered == arrived.len() as u64 && words_are(arrived, view.underway.as_slice(), offered)
}

/// The first word arrives in the first turn, and the second waits in its source.
fn is_half_way(view: &LaneView) -> bool {
    match view.underway.as_slice() {
        [held] => view.delivered == 1 && held.flit.word == 18 && held.place == Place::Source,
        _ => false,
    }
}

/// After the first turn the lane is cut, and half of it has arrived where the turn was whole.
fn see_first(alloc: Global, net: &Net, turn: Seen) -> Seen {
    match view(alloc, net, lane(0, 1)) {
        Ok((first, seen)) => {
            let known = !turn.is_whole() || is_half_way(&first);
            seen.only_if(known && is_cut(net, &first))
        }
        Err(seen) => seen,
    }
}

/// After the last turn the lane is cut, and nothing of it is under way.
fn see_last(alloc: Global, net: &Net) -> Seen {
    match view(alloc, net, lane(0, 1)) {
        Ok((last, seen)) => seen.only_if(last.underway.is_empty() && is_cut(net, &last)),
        Err(seen) => seen,
    }
}

/// A turn that wants memory leaves the lane cut, and the turns after it deliver what was offered.
fn arrive(alloc: Global, case: &mut Case) -> Seen {
    let turn = take(&mut case.net, 0, &case.script);
    let first = see_first(alloc, &case.net, turn);
    let late = take_all(&mut case.net, 1, 5, &case.script);
    let last = see_last(alloc, &case.net);
    turn.and(first).and(late).and(last)
}

/// Two words go from node 0 to node 1.
pub fn two_arrive(alloc: Global) -> Seen {
    match two_words(alloc) {
        Ok(mut case) => arrive(alloc, &mut case),
        Err(seen) => seen,
    }
}
