//! What a pass of a link's queue knows.

use crate::LinkCfg;
use crossbeam_queue::protocol::{Join, Split};
use std::collections::LinkedList;
use std::marker::{Brand, PhantomData};
use worm_flit::Flit;

/// A link, and the flits that are held to have gone over it before. No value of it is made.
pub struct Opened {
    /// The link.
    pub cfg: LinkCfg,
    /// What its first flits continue.
    pub past: LinkedList<Flit>,
}

/// Which link it is, what a pass may do, what it has pushed and what it has popped. No value of it is made.
pub struct Known<C, X> {
    /// The link that the queue is of.
    pub link: C,
    /// Whether the pass may push.
    pub pushes: bool,
    /// Whether the pass may pop.
    pub pops: bool,
    /// Where it may push: all that was pushed.
    pub sent: LinkedList<X>,
    /// Where it may pop: all that was popped.
    pub taken: LinkedList<X>,
}

/// The link that a call divides a queue for: its proof names it.
pub trait Naming {
    ghost use Rattle.worm_links.specs.declared.history.Opened.{Opened};

    ghost link: { Opened };
}

impl Naming for Brand {
    ghost use Rattle.worm_links.specs.Links.{no_link};

    ghost link = { no_link };
}

/// An end for the sender and one for the taker, of the link that `B` names.
pub struct Roles<B> {
    link: PhantomData<B>,
}

impl<B: Naming, X> Split<Known<Opened, X>> for Roles<B> {
    ghost use Rattle.std.specs.Prelude.{[]};
    ghost use Rattle.worm_links.specs.History.{sender, taker};

    ghost left = { λ v. sender B.link [] };

    ghost right = { λ v. taker B.link [] };
}

/// The taker learns what was sent, and from the sender over which link.
pub struct Reunion;

impl<X> Join<Known<Opened, X>> for Reunion {
    ghost use Rattle.std.specs.Prelude.{[], false};
    ghost use Rattle.worm_links.specs.History.{known, whole};
    ghost use Rattle.worm_links.specs.Links.{no_link};

    ghost both = { λ v w. whole w.link w.sent v.taken };

    ghost spent = { known no_link false false [] [] };
}
