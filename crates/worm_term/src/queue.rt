ghost use Rattle.std.specs.Prelude.{◌≡◌, ◌+◌, ◌≤◌, [], ◌∷◌, ◌++◌, length, OnOk, OnErr, IsSome, is_some};
ghost use Rattle.worm_flit.specs.Packets.{packet_flits};
ghost use Rattle.worm_term.specs.Queue.{empty_queue, appended, waiting, one_fed};

use std::alloc::{AllocError, Global};
use std::marker::Model;
use worm_flit::{Flit, Packet, flit_at};

/// The flits of one class, as accepted, and how many of them were fed.
#[derive(Drop)]
pub struct Queue {
    injected: Vec<Flit>,
    fed: usize,
}

impl Model for Queue {
    ghost use Rattle.std.specs.Prelude.{◌≤◌, length};
    ghost use Rattle.worm_term.specs.Queue.{QueueState};

    ghost Value = { QueueState };

    ghost view = { λ q. record { injected = q.injected.items; fed = q.fed } };

    ghost invariant = { λ q. q.fed ≤ length q.injected.items };
}

/// Room for all of them is made first: without it nothing is appended.
fn push_flits(flits: &mut Vec<Flit>, packet: &Packet, number: u16) -> Result<(), AllocError>
    ensures ok { OnOk result (flits.new.items ≡ flits.old.items
        ++ packet_flits packet.now.lane number packet.now.words) }
    ensures err { OnErr result (flits.new.items ≡ flits.old.items) }
    ensures some { 1 ≤ length packet.now.words }
    ensures few { length packet.now.words ≤ 32 }
{
    let count = packet.words().len() as u8;
    flits.reserve(usize::from(count))?;
    for i in 0..count {
        let _ = flits.push(flit_at(packet, number, i));
    }
    Ok(())
}

impl Queue {
    /// A queue without a flit.
    pub fn new(alloc: Global) -> Queue
        ensures { result ≡ empty_queue }
    {
        Queue {
            injected: Vec::new(alloc),
            fed: 0,
        }
    }

    /// Appends the packet's flits, or nothing.
    pub fn append_packet(&mut self, packet: &Packet, number: u16) -> Result<(), AllocError>
        ensures ok { OnOk result (self.new ≡ appended self.old (packet_flits packet.now.lane number packet.now.words)) }
        ensures err { OnErr result (self.new ≡ self.old) }
        ensures waits { OnOk result (IsSome (waiting self.new)) }
        ensures some { 1 ≤ length packet.now.words }
        ensures few { length packet.now.words ≤ 32 }
    {
        push_flits(&mut self.injected, packet, number)
    }

    /// Appends one flit, or nothing.
    pub fn append(&mut self, flit: Flit) -> Result<(), AllocError>
        ensures ok { OnOk result (self.new ≡ appended self.old (flit ∷ [])) }
        ensures err { OnErr result (self.new ≡ self.old) }
        ensures waits { OnOk result (IsSome (waiting self.new)) }
    {
        self.injected.push(flit)?;
        Ok(())
    }

    /// The first flit that is not fed.
    pub fn front(&self) -> Option<Flit>
        ensures { result ≡ waiting self.now }
    {
        self.injected.get(self.fed).copied()
    }

    /// The first flit that was not fed is fed. Whether one is left.
    pub fn feed(&mut self) -> bool
        requires { IsSome (waiting self.old) }
        ensures after { self.new ≡ one_fed self.old }
        ensures left { result ≡ is_some (waiting self.new) }
    {
        self.fed += 1;
        self.fed < self.injected.len()
    }

    /// All flits that were accepted.
    pub fn injected(&self) -> &[Flit]
        ensures { result.now ≡ self.now.injected }
    {
        self.injected.as_slice()
    }

    /// How many were fed.
    pub fn fed(&self) -> usize
        ensures value { result ≡ self.now.fed }
        ensures bound { result ≤ length self.now.injected }
    {
        self.fed
    }
}
