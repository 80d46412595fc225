//! What is on a link.

ghost use Rattle.worm_wires.specs.Links.{empty_link};
ghost use Rattle.std.specs.Prelude.{◌≡◌, [], ◌∷◌, ◌++◌, ◌<◌, ◌≤◌, length, min, IfOk};

use std::alloc::{AllocError, Global};
use std::collections::VecDeque;
use std::marker::Model;
use std::mem::swap;
use worm_flit::Flit;

/// What is on a link from one node to the next, front first (Dally and Towles, chapter 13).
///
/// ```text
/// let mut link = LinkState::new(alloc, 2)?;
/// link.push(flit);
/// let front = link.flits.front();
/// ```
#[derive(Drop)]
pub struct LinkState {
    /// The flits, in the order in which they were sent, on whatever channels.
    pub flits: VecDeque<Flit>,
    /// The channels whose credits are on their way back.
    pub credits: VecDeque<u8>,
}

impl Model for LinkState {
    ghost use Rattle.std.specs.Prelude.{min};
    ghost use Rattle.std.specs.VecDeque.{deque_capacity};
    ghost use Rattle.worm_wires.specs.Links.{LinkView};

    ghost Value = { LinkView };

    ghost view = { λ l. record {
      flits = l.flits.items;
      credits = l.credits.items;
      room = min (deque_capacity l.flits) (deque_capacity l.credits);
    } };
}

impl LinkState {
    /// A link with nothing on it, and room for so many flits and so many credits.
    pub fn new(alloc: Global, room: u16) -> Result<LinkState, AllocError>
        ensures { IfOk result (λ l. l ≡ empty_link room) }
    {
        let flits = VecDeque::with_capacity(alloc, usize::from(room))?;
        let credits = VecDeque::with_capacity(alloc, usize::from(room))?;
        Ok(LinkState { flits, credits })
    }

    /// How many flits, and how many credits, fit without growing.
    pub fn room(&self) -> usize
        ensures { result ≡ self.now.room }
    {
        self.flits.capacity().min(self.credits.capacity())
    }

    /// How many flits are on it.
    pub fn count(&self) -> usize
        ensures { result ≡ length self.now.flits }
    {
        self.flits.len()
    }

    /// Puts the flit at the end.
    pub fn push(&mut self, flit: Flit)
        requires { length self.old.flits < self.old.room }
        ensures { self.new ≡ record self.old { flits = self.old.flits ++ flit ∷ [] } }
    {
        self.flits.push_back_reserved(flit);
    }

    /// How many credits are on their way back over it.
    pub fn credit_count(&self) -> usize
        ensures { result ≡ length self.now.credits }
    {
        self.credits.len()
    }

    /// Puts a credit of the channel at the end.
    pub fn push_credit(&mut self, vc: u8)
        requires { length self.old.credits < self.old.room }
        ensures { self.new ≡ record self.old { credits = self.old.credits ++ vc ∷ [] } }
    {
        self.credits.push_back_reserved(vc);
    }

    /// Exchanges the flits on the two links, each with its room.
    pub fn swap_flits(&mut self, other: &mut LinkState)
        ensures this { self.new ≡ record self.old { flits = other.old.flits; room = self.new.room } }
        ensures that { other.new ≡ record other.old { flits = self.old.flits; room = other.new.room } }
        ensures room { min self.old.room other.old.room ≤ self.new.room }
        ensures other_room { min self.old.room other.old.room ≤ other.new.room }
    {
        swap(&mut self.flits, &mut other.flits);
    }

    /// Exchanges the credits on their way back over the two links, each with its room.
    pub fn swap_credits(&mut self, other: &mut LinkState)
        ensures this { self.new ≡ record self.old { credits = other.old.credits; room = self.new.room } }
        ensures that { other.new ≡ record other.old { credits = self.old.credits; room = other.new.room } }
        ensures room { min self.old.room other.old.room ≤ self.new.room }
        ensures other_room { min self.old.room other.old.room ≤ other.new.room }
    {
        swap(&mut self.credits, &mut other.credits);
    }
}
