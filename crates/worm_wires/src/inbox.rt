//! The inboxes of the nodes: at each mesh port the flit that comes in next, and the credit that comes back next.

ghost use Rattle.std.specs.Prelude.{◌≡◌, ◌<◌, ◌∷◌, ◌++◌, [], drop, is_some, length, option_copied, slice_get};
ghost use Rattle.std.specs.Prelude.{true, Some, false};
ghost use Rattle.std.specs.VecDeque.{deque_capacity};
ghost use Rattle.worm_flit.specs.SmallSet.{has};
ghost use Rattle.worm_wires.specs.Arrivals.{has_front};
ghost use Rattle.worm_wires.specs.Inbox.{IsFiled, IsWayOf, front_of, tray_of, whole};

use std::alloc::{AllocError, Global};
use std::collections::VecDeque;
use std::marker::Model;
use worm_flit::{Flit, Kind, Lane, SmallSet};

const NO_FLIT: Flit = Flit {
    lane: Lane {
        src: 0,
        dst: 0,
        class: 0,
    },
    vc: 0,
    packet: 0,
    index: 0,
    kind: Kind::Single,
    word: 0,
};

/// The mesh ports of a node at which something comes in. Those of all nodes stand together: a turn looks at each.
#[derive(Clone, Copy)]
pub struct Arrivals {
    /// Those at which a flit comes in.
    pub flits: SmallSet,
    /// Those at which a credit comes back.
    pub credits: SmallSet,
}

impl Arrivals {
    pub(crate) fn new() -> Arrivals
        ensures flits { result.flits ≡ 0 }
        ensures credits { result.credits ≡ 0 }
    {
        Arrivals {
            flits: SmallSet::new(),
            credits: SmallSet::new(),
        }
    }
}

/// What comes in of one kind, flits or credits, at the mesh ports of a node (Dally and Towles, chapter 13).
#[derive(Clone, Copy)]
pub struct Fronts<T> {
    /// The ports at which one comes in and whose link has a list of them, since it has or had several.
    pub more: SmallSet,
    /// The one that comes in next, by port.
    pub front: [T; 6],
}

impl<T: Copy> Fronts<T> {
    pub(crate) fn new(blank: T) -> Fronts<T>
        ensures { result.more ≡ 0 }
    {
        Fronts {
            more: SmallSet::new(),
            front: [blank; 6],
        }
    }

    #[inline(always)]
    pub(crate) fn front_at(&self, here: &SmallSet, port: u8) -> Option<&T>
        requires { port < 6 }
        ensures value { option_copied result ≡ front_of (tray_of here.now self.now) port }
        ensures variant { is_some result ≡ is_some (front_of (tray_of here.now self.now) port) }
    {
        if !here.contains(port) {
            return None;
        }
        Some(&self.front[usize::from(port)])
    }

    #[inline(always)]
    pub(crate) fn put(&mut self, here: &mut SmallSet, port: u8, item: T)
        requires port { port < 6 }
        requires alone { has self.old.more port ≡ false }
        ensures { IsFiled (tray_of here.old self.old) (tray_of here.new self.new) port true false (Some item) }
    {
        here.put(port, true);
        self.front[usize::from(port)] = item;
    }

    #[inline(always)]
    pub(crate) fn file(&mut self, here: &mut SmallSet, port: u8, front: Option<T>)
        requires { port < 6 }
        ensures { IsFiled (tray_of here.old self.old) (tray_of here.new self.new) port (is_some front) (is_some front)
            front }
    {
        here.put(port, front.is_some());
        self.more.put(port, front.is_some());
        if let Some(first) = front {
            self.front[usize::from(port)] = first;
        }
    }

    /// Moves what comes in by the port into the list of its link, where it is in the inbox alone.
    pub(crate) fn spill(&mut self, here: &SmallSet, port: u8, list: &mut VecDeque<T>)
        requires port { port < 6 }
        requires way { IsWayOf (tray_of here.now self.old) port list.old.items (deque_capacity list.old) }
        ensures list { list.new.items ≡ whole (has here.now port) (slice_get self.old.front port) list.old.items }
        ensures room { deque_capacity list.new ≡ deque_capacity list.old }
        ensures filed { IsFiled (tray_of here.now self.old) (tray_of here.now self.new) port (has here.now port)
            (has here.now port) (slice_get self.old.front port) }
    {
        if here.contains(port) == self.more.contains(port) {
            return;
        }
        list.push_back_reserved(self.front[usize::from(port)]);
        self.more.put(port, true);
    }

    /// Puts one more after what comes in by the port.
    pub(crate) fn push_listed(&mut self, here: &SmallSet, port: u8, list: &mut VecDeque<T>, item: T)
        requires port { port < 6 }
        requires way { IsWayOf (tray_of here.now self.old) port list.old.items (deque_capacity list.old) }
        requires room { length (whole (has here.now port) (slice_get self.old.front port) list.old.items)
            < deque_capacity list.old }
        ensures list { list.new.items
            ≡ whole (has here.now port) (slice_get self.old.front port) list.old.items ++ item ∷ [] }
        ensures room { deque_capacity list.new ≡ deque_capacity list.old }
        ensures filed { IsFiled (tray_of here.now self.old) (tray_of here.now self.new) port (has here.now port)
            (has here.now port) (slice_get self.old.front port) }
    {
        self.spill(here, port, list);
        list.push_back_reserved(item);
    }

    /// Drops the front of the list of the port's link, and files the next.
    pub(crate) fn pop_listed(&mut self, here: &mut SmallSet, port: u8, list: &mut VecDeque<T>)
        requires { port < 6 }
        ensures list { list.new.items ≡ drop 1 list.old.items }
        ensures room { deque_capacity list.new ≡ deque_capacity list.old }
        ensures filed { IsFiled (tray_of here.old self.old) (tray_of here.new self.new) port
            (has_front list.new.items) (has_front list.new.items) (slice_get list.new.items 0) }
    {
        let _dropped = list.pop_front();
        self.file(here, port, list.front().copied());
    }
}

/// What comes in next at the mesh ports of a node.
#[derive(Clone, Copy)]
pub struct NodeFronts {
    /// The flits, each over the link into the port.
    pub flits: Fronts<Flit>,
    /// The channels whose credits come back, each over the link out of the port.
    pub credits: Fronts<u8>,
}

impl NodeFronts {
    pub(crate) fn new() -> NodeFronts
        ensures flits { result.flits.more ≡ 0 }
        ensures credits { result.credits.more ≡ 0 }
    {
        NodeFronts {
            flits: Fronts::new(NO_FLIT),
            credits: Fronts::new(0),
        }
    }
}

/// Memory for the inboxes of 256 nodes. It goes with a network's lists, so that making links of those takes none.
#[derive(Drop)]
pub struct Inboxes {
    pub(crate) list: Vec<NodeFronts>,
}

impl Model for Inboxes {
    ghost use Rattle.std.specs.Prelude.{◌≡◌, length};

    ghost Value = { Unit {0} };

    ghost view = { λ _. tt };

    ghost invariant = { λ i. length i.list.items ≡ 256 };
}

impl Inboxes {
    /// Memory in which nothing is yet.
    pub fn new(alloc: Global) -> Result<Inboxes, AllocError> {
        Ok(Inboxes {
            list: vec![in alloc; NodeFronts::new(); 256]?,
        })
    }
}
