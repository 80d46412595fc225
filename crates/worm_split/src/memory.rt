//! All that the parts of a network need, made before the network is taken apart.

ghost use Rattle.std.specs.Prelude.{◌≡◌, ◌<◌, ◌*◌, All, IfOk, length, replicate, sum, ℕ, slice_get, Some};
ghost use Rattle.worm_flit.specs.Channels.{AreChannels, owner_of};
ghost use Rattle.worm_mesh.specs.Address.{Joins};
ghost use Rattle.worm_mesh.specs.Links.{link_count};
ghost use Rattle.worm_theory.specs.Openings.{past_of};
ghost use Rattle.worm_region.specs.State.{network_of, shape};
ghost use Rattle.worm_region.specs.Parts.{IsConfigOf};
ghost use Rattle.worm_split.specs.Ends.{AreEndsMade, IsLinkOf};
ghost use Rattle.worm_split.specs.declared.ends.End.TheVariants.{Inner};
ghost use Rattle.worm_split.specs.Apart.{AreWays};
ghost use Rattle.worm_split.specs.Splits.{ArePairsMade, AreRooms, IsPairMade, IsSeat};

use crate::ends::{End, EndPair};
use crate::part::Part;
use std::alloc::{AllocError, Global};
use std::marker::Brand;
use std::snapshot::Snapshot;
use worm_core::{Config, Inboxes, LinkState, Net, Node, fresh_links, fresh_nodes};
use worm_flit::ClassChannels;
use worm_links::{LinkCfg, Opening, credit_line, link_after};
use worm_mesh::{LinkEnds, Mesh};

/// A worker's lists before it has anything: fresh nodes, empty links, no ends.
#[derive(Drop)]
pub struct Seat {
    pub(crate) config: Config,
    pub(crate) nodes: Vec<Node>,
    pub(crate) links: Vec<LinkState>,
    pub(crate) inboxes: Inboxes,
    pub(crate) ends: Vec<End>,
    pub(crate) opening: Snapshot<Net>,
    pub(crate) pairs: Snapshot<Vec<EndPair>>,
}

#[derive(Drop)]
pub(crate) struct Rooms {
    pub(crate) ways: Vec<LinkEnds>,
    pub(crate) pairs: Vec<EndPair>,
    pub(crate) seats: Vec<Seat>,
    pub(crate) parts: Vec<Part>,
}

fn make_ways(alloc: Global, mesh: &Mesh) -> Result<Vec<LinkEnds>, AllocError>
    ensures { IfOk result (λ ways. AreWays mesh.now ways.items) }
{
    let mut ways = Vec::with_capacity(alloc, usize::from(mesh.links()))?;
    for number in 0..mesh.links() {
        let Some(ends) = mesh.link_ends(number) else {
            unreachable!()
        };
        ways.push(ends)?;
    }
    Ok(ways)
}

fn owners_of(classes: &ClassChannels) -> [u8; 8]
    ensures { (v : ℕ) → v < sum classes.now → slice_get result v ≡ Some (owner_of classes.now v) }
{
    let mut owners = [0u8; 8];
    for channel in 0..classes.total() {
        owners[usize::from(channel)] = classes.owner(channel);
    }
    owners
}

/// The two ends of a link, over which what is on it now is held to have gone before.
fn make_pair<B: Opening>(
    alloc: Global,
    net: &Net,
    way: LinkEnds,
    cfg: &LinkCfg,
) -> Result<EndPair, AllocError>
    requires link { IsLinkOf net.now.mesh net.now.channels way.from way.out_port cfg.now }
    requires depth { cfg.now.depth ≡ net.now.depth }
    requires joined { Joins net.now.mesh way.from way.out_port way.to }
    requires past { B.past ≡ past_of (shape net.now) (network_of net.now) way.from way.out_port way.to }
    ensures { IfOk result (λ pair. AreEndsMade net.now.mesh net.now.channels net.now.depth way.from way.out_port
        (past_of (shape net.now) (network_of net.now) way.from way.out_port way.to) pair.out pair.into) }
{
    net.recall();
    let Ok((tx, rx)) = link_after::<B>(alloc, *cfg) else {
        return Err(AllocError);
    };
    let Ok((give, back)) = credit_line(alloc, *cfg) else {
        return Err(AllocError);
    };
    Ok(EndPair {
        out: End::Leaving(tx, back),
        into: End::Entering(rx, give),
    })
}

fn make_pair_of(
    alloc: Global,
    net: &Net,
    way: LinkEnds,
    cfg: &LinkCfg,
    workers: u16,
) -> Result<EndPair, AllocError>
    requires workers { 0 < workers }
    requires link { IsLinkOf net.now.mesh net.now.channels way.from way.out_port cfg.now }
    requires depth { cfg.now.depth ≡ net.now.depth }
    requires joined { Joins net.now.mesh way.from way.out_port way.to }
    ensures { IfOk result (λ pair. IsPairMade net.now workers way pair) }
{
    if u16::from(way.from) % workers == u16::from(way.to) % workers {
        return Ok(EndPair {
            out: End::Inner,
            into: End::Inner,
        });
    }
    make_pair::<Brand>(alloc, net, way, cfg)
}

fn make_pairs(
    alloc: Global,
    net: &Net,
    config: &Config,
    mesh: &Mesh,
    ways: &Vec<LinkEnds>,
    workers: u16,
) -> Result<Vec<EndPair>, AllocError>
    requires workers { 0 < workers }
    requires mesh { mesh.now ≡ net.now.mesh }
    requires config { IsConfigOf net.now config.now }
    requires classes { AreChannels net.now.channels }
    requires ways { AreWays net.now.mesh ways.now.items }
    ensures { IfOk result (λ pairs. ArePairsMade net.now workers ways.now.items pairs.items) }
{
    let classes = ClassChannels::new(config.channels.as_slice());
    let owners = owners_of(&classes);
    let mut pairs = Vec::with_capacity(alloc, ways.len())?;
    for k in 0..ways.len() {
        let way = ways[k];
        let cfg = LinkCfg {
            mesh: *mesh,
            node: way.from,
            port: way.out_port,
            channels: classes.total(),
            depth: config.depth,
            owners,
        };
        pairs.push(make_pair_of(alloc, net, way, &cfg, workers)?)?;
    }
    Ok(pairs)
}

/// Room in each worker's list of ends for 128 bytes that stay empty, so that no two workers write one cache line.
const APART: usize = 8;

fn make_ends(alloc: Global, count: u16) -> Result<Vec<End>, AllocError>
    ensures { IfOk result (λ v. v.items ≡ replicate count Inner) }
{
    let mut ends = Vec::with_capacity(alloc, usize::from(count) + APART)?;
    for _number in 0..count {
        ends.push(End::Inner)?;
    }
    Ok(ends)
}

fn make_seat(
    alloc: Global,
    net: &Net,
    pairs: &Vec<EndPair>,
    count: u16,
    room: u16,
) -> Result<Seat, AllocError>
    requires count { count ≡ link_count net.now.mesh }
    requires room { room ≡ sum net.now.channels * net.now.depth }
    ensures { IfOk result (λ seat. IsSeat net.now pairs.now.items seat) }
{
    net.recall();
    let config = net.config();
    let nodes = fresh_nodes(alloc, &config)?;
    let links = fresh_links(alloc, count, room)?;
    let inboxes = Inboxes::new(alloc)?;
    let ends = make_ends(alloc, count)?;
    Ok(Seat {
        config,
        nodes,
        links,
        inboxes,
        ends,
        opening: Snapshot::of(net),
        pairs: Snapshot::of(pairs),
    })
}

fn make_seats(
    alloc: Global,
    net: &Net,
    pairs: &Vec<EndPair>,
    count: u16,
    room: u16,
    workers: u16,
) -> Result<Vec<Seat>, AllocError>
    requires count { count ≡ link_count net.now.mesh }
    requires room { room ≡ sum net.now.channels * net.now.depth }
    ensures all { IfOk result (λ seats. All (IsSeat net.now pairs.now.items) seats.items) }
    ensures number { IfOk result (λ seats. length seats.items ≡ workers) }
{
    let mut seats = Vec::with_capacity(alloc, usize::from(workers))?;
    for _worker in 0..workers {
        seats.push(make_seat(alloc, net, pairs, count, room)?)?;
    }
    Ok(seats)
}

pub(crate) fn make_rooms(alloc: Global, net: &Net, workers: u16) -> Result<Rooms, AllocError>
    requires workers { 0 < workers }
    ensures { IfOk result (λ rooms. AreRooms net.now workers rooms) }
{
    net.recall();
    let config = net.config();
    let Ok(mesh) = Mesh::new(config.radices.as_slice()) else {
        unreachable!()
    };
    let ways = make_ways(alloc, &mesh)?;
    let pairs = make_pairs(alloc, net, &config, &mesh, &ways, workers)?;
    let classes = ClassChannels::new(config.channels.as_slice());
    let room = u16::from(classes.total()) * u16::from(config.depth);
    let seats = make_seats(alloc, net, &pairs, mesh.links(), room, workers)?;
    let parts = Vec::with_capacity(alloc, usize::from(workers))?;
    Ok(Rooms {
        ways,
        pairs,
        seats,
        parts,
    })
}
