ghost use Rattle.std.specs.Prelude.{ℕ, ◌≡◌, ◌≤◌, ◌<◌, length, IfOk, IfErr, OnOk, IsSome, None, Some};
ghost use Rattle.std.specs.Prelude.{true, false, replicate, All, option_map};
ghost use Rattle.worm_flit.specs.Channels.{AreChannels, first_channel};
ghost use Rattle.worm_term.specs.Queue.{empty_queue, waiting};
ghost use Rattle.worm_flit.specs.Stamps.{of_lane};
ghost use Rattle.worm_flit.specs.Packets.{History};
ghost use Rattle.worm_term.specs.Lanes.{lane_of};
ghost use Rattle.worm_term.specs.Source.{SourceState, fresh_lane, fresh_source, lane_at, lane_line, queue_at, refusal};
ghost use Rattle.worm_term.specs.Source.{next_number, after_offer, after_close, front_of, after_fed, classes, IsOpen};
ghost use Rattle.worm_term.specs.Source.{AreFirsts, AreUnfed, IsAnswered, IsFrom};

use crate::fault::{NoMemory, OfferFault};
use crate::queue::Queue;
use std::alloc::{AllocError, Global};
use std::marker::Model;
use worm_flit::{ClassChannels, Flit, Lane, Packet, SmallSet, close_flit};

/// How far a lane has come.
#[derive(Clone, Copy, Debug, PartialEq, Eq)]
pub struct LaneState {
    /// How many packets and marks were accepted, 0 to 65,535: the number of the next one.
    pub next: u16,
    /// Whether the mark was accepted.
    pub closed: bool,
}

/// Where a node's packets come in: what it accepted, and how much of it was fed.
#[derive(Drop)]
pub struct Source {
    node: u8,
    nodes: u16,
    classes: ClassChannels,
    queues: Vec<Queue>,
    /// The lanes by destination, then class.
    lanes: Vec<LaneState>,
    // The last two stand next to the router, which a turn reads after them.
    /// The first channel of each class.
    firsts: [u8; 4],
    /// The classes of which a flit was not fed yet.
    unfed: SmallSet,
}

impl Model for Source {
    ghost use Rattle.worm_term.specs.Source.{SourceState, IsSource, AreFirsts, AreUnfed, source_state};

    ghost Value = { SourceState };

    ghost view = { λ s. source_state s.node s.nodes s.classes s.queues.items s.lanes.items };

    ghost invariant = { λ s. IsSource (source_state s.node s.nodes s.classes s.queues.items s.lanes.items)
        × AreFirsts s.classes s.firsts × AreUnfed s.queues.items s.unfed };
}

fn first_channels(classes: &ClassChannels) -> [u8; 4]
    ensures { AreFirsts classes.now result }
{
    let mut firsts = [0u8; 4];
    for class in 0..classes.classes() {
        firsts[usize::from(class)] = classes.first(class);
    }
    firsts
}

fn make_queues(alloc: Global, count: u8) -> Result<Vec<Queue>, AllocError>
    ensures { IfOk result (λ v. v.items ≡ replicate count empty_queue) }
{
    let mut queues = Vec::with_capacity(alloc, usize::from(count))?;
    for _i in 0..count {
        queues.push(Queue::new(alloc))?;
    }
    Ok(queues)
}

fn make_lanes(alloc: Global, count: usize) -> Result<Vec<LaneState>, AllocError>
    ensures { IfOk result (λ v. v.items ≡ replicate count fresh_lane) }
{
    let fresh = LaneState {
        next: 0,
        closed: false,
    };
    vec![in alloc; fresh; count]
}

impl Source {
    /// The source of a node, with lanes to so many nodes. `NoMemory` where there is none for its lists.
    pub fn new(alloc: Global, node: u8, nodes: u16, channels: &[u8]) -> Result<Source, NoMemory>
        requires { AreChannels channels.now }
        ensures { IfOk result (λ s. s ≡ fresh_source node nodes channels.now) }
    {
        let classes = ClassChannels::new(channels);
        let firsts = first_channels(&classes);
        let count = classes.classes();
        let queues = make_queues(alloc, count)?;
        let lanes = make_lanes(alloc, usize::from(nodes) * usize::from(count))?;
        Ok(Source {
            node,
            nodes,
            classes,
            queues,
            lanes,
            firsts,
            unfed: SmallSet::new(),
        })
    }

    fn line(&self, lane: Lane) -> usize
        requires dst { lane.dst < self.now.nodes }
        requires class { lane.class < classes self.now }
        ensures value { result ≡ lane_line self.now lane }
        ensures bound { result < length self.now.lanes }
    {
        usize::from(lane.dst) * usize::from(self.classes.classes()) + usize::from(lane.class)
    }

    fn admit(&self, lane: Lane, is_mark: bool) -> Result<usize, OfferFault>
        ensures value { IfOk result (λ i. i ≡ lane_line self.now lane) }
        ensures bound { IfOk result (λ i. i < length self.now.lanes) }
        ensures open { OnOk result (IsOpen self.now lane) }
        ensures taken { OnOk result (refusal self.now lane is_mark ≡ None) }
        ensures fault { IfErr result (λ e. refusal self.now lane is_mark ≡ Some e) }
    {
        if lane.src != self.node {
            return Err(OfferFault::WrongSource);
        }
        if u16::from(lane.dst) >= self.nodes {
            return Err(OfferFault::NoSuchNode);
        }
        if lane.class >= self.classes.classes() {
            return Err(OfferFault::NoSuchClass);
        }
        if is_mark && self.classes.count(lane.class) > 1 {
            return Err(OfferFault::ManyChannels);
        }
        let i = self.line(lane);
        let state = self.lanes[i];
        if state.closed {
            return Err(OfferFault::LaneClosed);
        }
        if state.next >= 65_535 {
            return Err(OfferFault::LaneFull);
        }
        Ok(i)
    }

    /// Accepts all flits of the packet or none, and answers its number in its lane. Refused, with nothing changed, in
    /// this order: `WrongSource`, `NoSuchNode`, `NoSuchClass`, `LaneClosed`, `LaneFull`, `NoMemory`.
    pub fn offer(&mut self, packet: &Packet) -> Result<u16, OfferFault>
        ensures answer { IsAnswered (refusal self.old packet.now.lane false) result self.old
            (after_offer self.old packet.now) self.new }
        ensures number { IfOk result (λ n. n ≡ next_number self.old packet.now.lane) }
        ensures there { OnOk result (packet.now.lane.class < length self.old.queues) }
    {
        let lane = packet.lane();
        let i = self.admit(lane, false)?;
        let number = self.lanes[i].next;
        let queue = &mut self.queues[usize::from(lane.class)];
        if queue.append_packet(packet, number).is_err() {
            return Err(OfferFault::NoMemory);
        }
        self.unfed.put(lane.class, true);
        self.lanes[i] = LaneState {
            next: number + 1,
            closed: false,
        };
        Ok(number)
    }

    /// Closes the lane with its mark, and answers the mark's number. Refused, with nothing changed, in this order:
    /// `WrongSource`, `NoSuchNode`, `NoSuchClass`, `ManyChannels`, `LaneClosed`, `LaneFull`, `NoMemory`.
    pub fn close(&mut self, lane: Lane) -> Result<u16, OfferFault>
        ensures answer { IsAnswered (refusal self.old lane true) result self.old (after_close self.old lane) self.new }
        ensures number { IfOk result (λ n. n ≡ next_number self.old lane) }
        ensures there { OnOk result (lane.class < length self.old.queues) }
    {
        let i = self.admit(lane, true)?;
        let number = self.lanes[i].next;
        let queue = &mut self.queues[usize::from(lane.class)];
        if queue.append(close_flit(lane, number)).is_err() {
            return Err(OfferFault::NoMemory);
        }
        self.unfed.put(lane.class, true);
        self.lanes[i] = LaneState {
            closed: true,
            next: number + 1,
        };
        Ok(number)
    }

    fn first_channel(&self, class: u8) -> u8
        requires { class < classes self.now }
        ensures { result ≡ first_channel self.now.channels class }
    {
        self.firsts[usize::from(class)]
    }

    /// The classes that have a flit that was not fed.
    pub fn unfed(&self) -> SmallSet
        ensures { AreUnfed self.now.queues result }
    {
        self.unfed
    }

    /// The channel on which the class's next flit would be fed, 0 to 7; `None` where all were fed.
    pub fn next_channel(&self, class: u8) -> Option<u8>
        requires { class < classes self.now }
        ensures { result ≡ option_map (λ f. f.vc) (front_of self.now class) }
    {
        if !self.unfed.contains(class) {
            return None;
        }
        Some(self.first_channel(class))
    }

    /// The class's first flit that is not fed, on the class's first channel: the one to go into the injection buffer.
    pub fn front(&self, class: u8) -> Option<Flit>
        requires { class < classes self.now }
        ensures { result ≡ front_of self.now class }
    {
        let vc = self.first_channel(class);
        let queue = &self.queues[usize::from(class)];
        queue.front().map(|flit| Flit { vc, ..flit })
    }

    /// The class's front has gone into the injection buffer.
    pub fn fed(&mut self, class: u8)
        requires class { class < classes self.old }
        requires front { IsSome (waiting (queue_at self.old class)) }
        ensures { self.new ≡ after_fed self.old class }
    {
        let queue = &mut self.queues[usize::from(class)];
        let has_more = queue.feed();
        self.unfed.put(class, has_more);
    }

    /// All flits of the class that were accepted, in order.
    pub fn injected(&self, class: u8) -> &[Flit]
        requires { class < classes self.now }
        ensures value { result.now ≡ (queue_at self.now class).injected }
        ensures owned { All (IsFrom self.now.node self.now.nodes class) result.now }
        ensures in_order { (dst : ℕ) → dst < self.now.nodes
            → History (lane_of self.now.node dst class) (next_number self.now (lane_of self.now.node dst class))
            (lane_at self.now (lane_of self.now.node dst class)).closed
            (of_lane (lane_of self.now.node dst class) result.now) }
    {
        let queue = &self.queues[usize::from(class)];
        queue.injected()
    }

    /// How many of them were fed.
    pub fn fed_count(&self, class: u8) -> usize
        requires { class < classes self.now }
        ensures value { result ≡ (queue_at self.now class).fed }
        ensures bound { result ≤ length (queue_at self.now class).injected }
    {
        let queue = &self.queues[usize::from(class)];
        queue.fed()
    }
}
