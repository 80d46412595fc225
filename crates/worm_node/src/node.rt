//! A node by itself: what passes between its source, its router and its sink.

ghost use Rattle.std.specs.Prelude.{ℕ, ◌≡◌, ◌<◌, Some, if◌then◌else◌};
ghost use Rattle.worm_router.specs.Router.{IsPlace, terminal, leaving};
ghost use Rattle.worm_term.specs.Source.{classes, front_of};
ghost use Rattle.worm_node.specs.Node.{AreToFeed, FrontFits, can_enter, delivered_node, fed_node};

use worm_flit::{Flit, SmallSet};
use worm_router::Router;
use worm_term::{Sink, Source};

/// One node: its router, and the two ends of its lanes.
#[derive(Drop)]
pub struct Node {
    /// Where the packets of this node's lanes come in.
    pub source: Source,
    /// The router, whose terminal port is fed by the source and drained by the sink.
    pub router: Router,
    /// Where the flits for this node come out.
    pub sink: Sink,
}

impl Node {
    /// Moves the source's next flit of the class into the injection buffer, where there is one and that has room. Where
    /// it has none the router keeps that.
    pub fn feed(&mut self, class: u8, port: u8) -> bool
        requires same { self.old.source.channels ≡ self.old.router.channels }
        requires class { class < classes self.old.source }
        requires port { port ≡ terminal self.old.router }
        requires front { FrontFits self.old.router (terminal self.old.router) (front_of self.old.source class) }
        ensures enabled { result ≡ can_enter self.old.router (terminal self.old.router)
            (front_of self.old.source class) }
        ensures after { self.new ≡ (if result then fed_node self.old class (front_of self.old.source class)
            else self.old) }
    {
        let Some(vc) = self.source.next_channel(class) else {
            return false;
        };
        if !self.router.has_room(port, vc) {
            self.router.keep_full(class);
            return false;
        }
        let Some(flit) = self.source.front(class) else {
            unreachable!()
        };
        let Ok(()) = self.router.accept(port, flit) else {
            unreachable!()
        };
        self.source.fed(class);
        true
    }

    /// Whether the source has a flit of the class for which the injection buffer has room.
    pub fn can_feed(&self, class: u8, port: u8) -> bool
        requires class { class < classes self.now.source }
        requires port { port ≡ terminal self.now.router }
        requires front { FrontFits self.now.router (terminal self.now.router) (front_of self.now.source class) }
        ensures { result ≡ can_enter self.now.router (terminal self.now.router) (front_of self.now.source class) }
    {
        match self.source.next_channel(class) {
            None => false,
            Some(vc) => self.router.has_room(port, vc),
        }
    }

    /// The classes of which the source has a flit that was not fed, but for those whose injection buffer is known to be
    /// full.
    pub fn unfed(&self) -> SmallSet
        requires { self.now.source.channels ≡ self.now.router.channels }
        ensures { AreToFeed self.now result }
    {
        self.router.unfilled(self.source.unfed())
    }

    /// Lets the flit that is ready at this place out into the sink, if the sink can take it.
    pub fn deliver(&mut self, port: u8, vc: u8, flit: Flit) -> bool
        requires place { IsPlace self.old.router port vc }
        requires ready { (out : ℕ) × (leaving self.old.router port vc ≡ Some (out, flit)) }
        requires home { flit.lane.dst ≡ self.old.sink.node }
        ensures after { self.new ≡ (if result then delivered_node self.old port vc flit else self.old) }
    {
        if self.sink.take(flit).is_err() {
            return false;
        }
        self.router.sent(port, vc);
        true
    }
}
