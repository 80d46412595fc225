//! A network split at its links among workers.

ghost use Rattle.std.specs.Prelude.{◌≡◌, ◌<◌, ◌≤◌, IfErr, IfOk, vec_capacity};
ghost use Rattle.worm_region.specs.State.{IsNet};
ghost use Rattle.worm_region.specs.Workable.{IsWorkable};
ghost use Rattle.worm_split.specs.PartState.{IsPart};
ghost use Rattle.worm_split.specs.Apart.{IsKept};
ghost use Rattle.worm_split.specs.Splits.{AreSeats, IsOpened, IsSplitOf, seat_state};

use crate::apart::TakenApart;
use crate::ends::EndPair;
use crate::memory::{Rooms, Seat, make_rooms};
use crate::part::Part;
use std::alloc::Global;
use std::snapshot::Snapshot;
use worm_core::{Net, NetParts, NoMemory, Owner, Region};

fn part_of(seat: Seat, own: Owner, kept: Option<TakenApart>) -> Part
    requires works { IsWorkable (seat_state seat own).net }
    requires part { IsPart (seat_state seat own) }
    requires kept { IsKept seat.opening.value own kept }
    ensures { result ≡ seat_state seat own }
{
    let Seat {
        config,
        nodes,
        links,
        inboxes,
        ends,
        opening,
        pairs,
    } = seat;
    let parts = NetParts {
        config,
        nodes,
        links,
        inboxes,
    };
    Part {
        region: Region::from_parts(parts, own),
        ends,
        opening,
        pairs,
        kept,
    }
}

fn deal(
    mut whole: TakenApart,
    mut seats: Vec<Seat>,
    mut parts: Vec<Part>,
    workers: u16,
    opening: &Snapshot<Net>,
    pairs: &Snapshot<Vec<EndPair>>,
) -> Vec<Part>
    requires workers { (0 < workers) × (workers ≤ 16) }
    requires net { IsNet opening.now.value }
    requires whole { IsOpened opening.now.value workers pairs.now.value.items whole }
    requires seats { AreSeats opening.now.value pairs.now.value.items workers seats.items parts.items (vec_capacity
        parts) }
    ensures { IsSplitOf opening.now.value workers result.items }
{
    for worker in 0..workers - 1 {
        let Some(mut seat) = seats.pop() else {
            unreachable!()
        };
        let own = Owner { worker, workers };
        whole.exchange(&mut seat.nodes, &mut seat.links, &mut seat.ends, own);
        let _room = parts.push(part_of(seat, own, None));
    }
    let Some(mut seat) = seats.pop() else {
        unreachable!()
    };
    let own = Owner {
        worker: workers - 1,
        workers,
    };
    whole.exchange(&mut seat.nodes, &mut seat.links, &mut seat.ends, own);
    let _room = parts.push(part_of(seat, own, Some(whole)));
    parts
}

/// Splits the network at its links among 1 to 16 workers: a part for each, in rising number. The nodes go to them in
/// turn, and a worker past the last node gets none. `Err` gives the network back as it was, where memory is refused.
///
/// ```text
/// let parts = split(alloc, net, 4)?;
/// let net = join(rt, parts);
/// ```
pub fn split(alloc: Global, net: Net, workers: usize) -> Result<Vec<Part>, (Net, NoMemory)>
    requires some { 1 ≤ workers }
    requires few { workers ≤ 16 }
    ensures parts { IfOk result (λ parts. IsSplitOf net workers parts.items) }
    ensures back { IfErr result (λ e. e.0 ≡ net) }
{
    let Ok(rooms) = make_rooms(alloc, &net, workers as u16) else {
        return Err((net, NoMemory));
    };
    let Rooms {
        ways,
        pairs,
        seats,
        parts,
    } = rooms;
    let opening = Snapshot::of(&net);
    let made = Snapshot::of(&pairs);
    let NetParts {
        config,
        nodes,
        links,
        inboxes,
    } = net.into_parts();
    let whole = TakenApart {
        config,
        ways,
        nodes,
        links,
        inboxes,
        pairs,
    };
    Ok(deal(whole, seats, parts, workers as u16, &opening, &made))
}
