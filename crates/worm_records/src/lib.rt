//! The channel records of a router: what it knows of each input and output channel (Dally and Towles, chapter 16).
//!
//! A router's step is one move of each record that it touches. Each move gives the record after it exactly. That
//! holder and held channel name each other is the router's to keep. The book's finer states (routing, and active
//! without a credit) are not kept: a credit count and a buffer tell them.
#![tactic(auto)]

ghost use Rattle.std.specs.Prelude.{◌≡◌, ◌+◌, ◌-◌, ◌<◌, ℕ, Some, None, IsSome};

/// What an input channel does with the packet at its front.
#[derive(Clone, Copy, PartialEq, Eq, Debug)]
pub enum InRecord {
    /// No packet is routed: the buffer is empty, or a packet at its front has yet to be routed.
    Idle,
    /// A routed packet waits for a channel of an output port.
    Waiting {
        /// The output port, from 0.
        out: u8,
    },
    /// A packet goes out by the channel that it was granted.
    Active {
        /// The output port, from 0.
        out: u8,
        /// The channel of that port, from 0.
        out_vc: u8,
    },
}

impl InRecord {
    ghost use Rattle.worm_records.specs.InRecord.{IsWaiting, IsActive};

    /// The packet at the front will leave by the output port `out`.
    pub fn route_to(&mut self, out: u8)
        requires { self.old ≡ InRecord.Idle }
        ensures { self.new ≡ InRecord.Waiting out }
    {
        *self = InRecord::Waiting { out };
    }

    /// The packet gets channel `out_vc` of the port that it waits for.
    pub fn grant(&mut self, out_vc: u8)
        requires { IsWaiting self.old }
        ensures { (out : ℕ) → self.old ≡ InRecord.Waiting out → self.new ≡ InRecord.Active out out_vc }
    {
        if let InRecord::Waiting { out } = *self {
            *self = InRecord::Active { out, out_vc };
        }
    }

    /// The packet's last flit has left.
    pub fn release(&mut self)
        requires { IsActive self.old }
        ensures { self.new ≡ InRecord.Idle }
    {
        *self = InRecord::Idle;
    }
}

/// Who holds an output channel, and how many flits it may still send.
#[derive(Clone, Copy, PartialEq, Eq, Debug)]
pub struct OutRecord {
    /// The input channel that holds this output channel, as its port and channel; None while it is free.
    pub holder: Option<(u8, u8)>,
    /// How many flits may still be sent, 0 to the depth of the buffer at the far end; at the terminal always the depth.
    pub credits: u8,
}

impl OutRecord {
    /// The input channel `(port, vc)` gets this output channel.
    pub fn grant(&mut self, port: u8, vc: u8)
        requires { self.old.holder ≡ None }
        ensures { self.new ≡ record self.old { holder = Some (port, vc) } }
    {
        self.holder = Some((port, vc));
    }

    /// The closing flit of the holder's packet has left, so the channel is free again.
    pub fn release(&mut self)
        requires { IsSome self.old.holder }
        ensures { self.new ≡ record self.old { holder = None } }
    {
        self.holder = None;
    }

    /// A flit goes out and takes a place of the buffer at the far end.
    pub fn spend_credit(&mut self)
        requires { 0 < self.old.credits }
        ensures { self.new ≡ record self.old { credits = self.old.credits - 1 } }
    {
        self.credits -= 1;
    }

    /// A credit comes back: the buffer at the far end, of `depth` places, has one more free.
    pub fn add_credit(&mut self, depth: u8)
        requires { self.old.credits < depth }
        ensures { self.new ≡ record self.old { credits = self.old.credits + 1 } }
    {
        self.credits += 1;
    }
}
