//! The ends of a credit line, the queue on which channel numbers go back as credits (Dally and Towles, chapter 13).
ghost use Rattle.std.specs.Prelude.{◌≡◌, ◌<◌, ◌≤◌, [], ◌∷◌, ◌++◌, length, List, IfOk, IfErr, IfSome, IfNone};
ghost use Rattle.crossbeam_queue.specs.Passes.{view, IsPassOf, IsSamePass};
ghost use Rattle.worm_links.specs.History.{sender, taker, whole};
ghost use Rattle.worm_links.specs.Links.{no_link, opened, link_capacity, IsCreditHistory};

use crate::apart::Apart;
use crate::history::{Known, Naming, Opened, Reunion, Roles};
use crate::{LinkCfg, LinkFault};
use crossbeam_queue::protocol::{Lesson, Outcome, Protocol};
use crossbeam_queue::{Pass, RuledArrayQueue};
use std::alloc::Global;
use std::marker::{Brand, Model};
use std::sync::{Arc, Wait};

type CreditKnown = Known<Opened, u8>;

type CreditLine = RuledArrayQueue<u8, CreditKnown, CreditRule>;

// What an end may do with the queue, and knows of it.
type CreditPass = Pass<u8, CreditKnown>;

/// What was sent is what was taken, and then what the queue holds.
pub struct CreditRule;

impl Protocol<u8, CreditKnown> for CreditRule {
    ghost use Rattle.std.specs.Prelude.{[], ⊤};
    ghost use Rattle.worm_links.specs.History.{IsKept, whole};
    ghost use Rattle.worm_links.specs.Links.{no_link, IsCreditHistory};

    ghost holds = { IsKept (λ c. c) (λ c. ⊤) IsCreditHistory };

    ghost first = { whole no_link [] [] };
}

struct Sends;

impl Outcome<u8, CreditKnown> for Sends {
    ghost use Rattle.std.specs.Prelude.{⊤};
    ghost use Rattle.worm_links.specs.History.{Pushed};
    ghost use Rattle.worm_links.specs.Links.{IsCreditHistory};

    ghost then = { Pushed (λ c. c) (λ c. ⊤) IsCreditHistory };
}

impl Lesson<u8, CreditKnown> for Sends {
    ghost use Rattle.std.specs.Prelude.{⊤};
    ghost use Rattle.worm_links.specs.History.{HoldsSent};
    ghost use Rattle.worm_links.specs.Links.{IsCreditHistory};

    ghost fact = { HoldsSent (λ c. c) (λ c. ⊤) IsCreditHistory };
}

struct Takes;

impl Outcome<u8, CreditKnown> for Takes {
    ghost use Rattle.std.specs.Prelude.{⊤};
    ghost use Rattle.worm_links.specs.History.{Popped};
    ghost use Rattle.worm_links.specs.Links.{IsCreditHistory};

    ghost then = { Popped (λ c. c) (λ c. ⊤) IsCreditHistory };
}

impl Lesson<u8, CreditKnown> for Takes {
    ghost use Rattle.std.specs.Prelude.{⊤};
    ghost use Rattle.worm_links.specs.History.{HoldsRest};
    ghost use Rattle.worm_links.specs.Links.{IsCreditHistory};

    ghost fact = { HoldsRest (λ c. c) (λ c. ⊤) IsCreditHistory };
}

/// The sender's end of a credit line. It may lie in a `Vec` and go to another thread.
///
/// ```
/// let (mut tx, mut rx) = credit_line(alloc, cfg)?;
/// assert_eq!(rt; tx.push(&rt, 0), Ok(()));
/// assert_eq!(rt; rx.pop(), Some(0));
/// ```
#[derive(Drop)]
pub struct CreditTx {
    line: Arc<Apart<CreditLine>>,
    pass: CreditPass,
}

impl Model for CreditTx {
    ghost use Rattle.std.specs.Arc.{arc_value};
    ghost use Rattle.crossbeam_queue.specs.Passes.{view as knows};
    ghost use Rattle.worm_links.specs.History.{queue_of};
    ghost use Rattle.worm_links.specs.Roles.{IsSender};
    ghost use Rattle.worm_links.specs.Links.{CreditTxView, link_capacity, IsCreditHistory};

    ghost Value = { CreditTxView };

    ghost view = { λ t. record {
      link = (knows t.pass).link.cfg;
      queue = queue_of t.pass;
      sent = (knows t.pass).sent;
    } };

    ghost invariant = { λ t. IsSender IsCreditHistory (arc_value t.line).queue t.pass
        (link_capacity (knows t.pass).link.cfg) };
}

/// The taker's end of a credit line. It may lie in a `Vec` and go to another thread.
///
/// ```
/// while let Some(channel) = rx.pop() {
///     credits[usize::from(channel)] += 1;
/// }
/// ```
#[derive(Drop)]
pub struct CreditRx {
    line: Arc<Apart<CreditLine>>,
    pass: CreditPass,
}

impl Model for CreditRx {
    ghost use Rattle.std.specs.Arc.{arc_value};
    ghost use Rattle.crossbeam_queue.specs.Passes.{view as knows};
    ghost use Rattle.worm_links.specs.History.{queue_of};
    ghost use Rattle.worm_links.specs.Roles.{IsTaker};
    ghost use Rattle.worm_links.specs.Links.{CreditRxView, IsCreditHistory};

    ghost Value = { CreditRxView };

    ghost view = { λ t. record {
      link = (knows t.pass).link.cfg;
      queue = queue_of t.pass;
      taken = (knows t.pass).taken;
    } };

    ghost invariant = { λ t. IsTaker IsCreditHistory (arc_value t.line).queue t.pass };
}

/// Both ends of a credit line, together again.
///
/// ```
/// let mut ends = reunite_credits(tx, rx);
/// assert_eq!(rt; ends.pop_rest(&rt), None);
/// ```
#[derive(Drop)]
pub struct CreditEnds {
    line: Arc<Apart<CreditLine>>,
    whole: CreditPass,
}

impl Model for CreditEnds {
    ghost use Rattle.std.specs.Arc.{arc_value};
    ghost use Rattle.crossbeam_queue.specs.Passes.{view as knows};
    ghost use Rattle.worm_links.specs.History.{queue_of};
    ghost use Rattle.worm_links.specs.Roles.{IsWhole};
    ghost use Rattle.worm_links.specs.Links.{CreditEndsView, IsCreditHistory};

    ghost Value = { CreditEndsView };

    ghost view = { λ t. record {
      link = (knows t.whole).link.cfg;
      queue = queue_of t.whole;
      sent = (knows t.whole).sent;
      taken = (knows t.whole).taken;
    } };

    ghost invariant = { λ t. IsWhole IsCreditHistory (arc_value t.line).queue t.whole };
}

fn divide<B: Naming>(line: &CreditLine, pass: &mut CreditPass, cfg: LinkCfg) -> CreditPass
    requires link { opened cfg [] ≡ B.link }
    requires queue { IsPassOf line.now pass.old × (view pass.old ≡ whole no_link [] []) }
    ensures queue { IsSamePass pass.old pass.new × IsPassOf line.now result }
    ensures views { (view pass.new ≡ sender (opened cfg []) []) × (view result ≡ taker (opened cfg []) []) }
{
    let _ = cfg;
    line.another::<Roles<B>>(pass)
}

/// The ends of a new credit line of the link, whose queue has room for channels times depth credits.
pub fn credit_line(alloc: Global, cfg: LinkCfg) -> Result<(CreditTx, CreditRx), LinkFault>
    requires channels { (0 < cfg.channels) × (cfg.channels ≤ 8) }
    requires depth { (0 < cfg.depth) × (cfg.depth ≤ 17) }
    ensures link { IfOk result (λ ends. (ends.0.link ≡ cfg) × (ends.1.link ≡ cfg)) }
    ensures empty { IfOk result (λ ends. (ends.0.sent ≡ []) × (ends.1.taken ≡ [])) }
    ensures queue { IfOk result (λ ends. ends.0.queue ≡ ends.1.queue) }
{
    let capacity = usize::from(cfg.channels) * usize::from(cfg.depth);
    let (line, mut tx) = CreditLine::ruled(alloc, capacity)?;
    let rx = divide::<Brand>(&line, &mut tx, cfg);
    let Ok(line) = Arc::new(alloc, Apart::new(line)) else {
        return Err(LinkFault::NoMemory);
    };
    let theirs = Arc::try_clone(&line)?;
    let sender = CreditTx { line, pass: tx };
    let taker = CreditRx {
        line: theirs,
        pass: rx,
    };
    Ok((sender, taker))
}

impl CreditTx {
    /// Each credit that was sent is for a channel of the link. It costs nothing to ask.
    pub fn history(&self)
        ensures { IsCreditHistory (opened self.now.link []) self.now.sent }
    {
        let _ = &self.pass;
    }

    /// Sends a credit for the channel. `Err` gives it back: the queue is full.
    pub fn push<R: Wait>(&mut self, rt: &R, channel: u8) -> Result<(), u8>
        requires { channel < self.old.link.channels }
        ensures sent { IfOk result (λ _. self.new ≡ record self.old { sent = self.old.sent ++ channel ∷ [] }) }
        ensures back { IfErr result (λ back. (back ≡ channel) × (self.new ≡ self.old)) }
        ensures full { IfErr result (λ _. link_capacity self.old.link ≤ length self.old.sent) }
    {
        let queue = &self.line.queue;
        queue.push_as::<Sends, R>(rt, &mut self.pass, channel)
    }
}

impl CreditRx {
    /// Each credit that was taken is for a channel of the link. It costs nothing to ask.
    pub fn history(&self)
        ensures { IsCreditHistory (opened self.now.link []) self.now.taken }
    {
        let _ = &self.pass;
    }

    /// The channel of the next credit that was sent; `None` where none stands in the queue yet. It waits for nothing.
    pub fn pop(&mut self) -> Option<u8>
        ensures none { IfNone result (self.new ≡ self.old) }
        ensures taken { IfSome result (λ channel. self.new
            ≡ record self.old { taken = self.old.taken ++ channel ∷ [] }) }
        ensures channel { IfSome result (λ channel. channel < self.old.link.channels) }
    {
        self.line.queue.try_pop_as::<Takes>(&mut self.pass)
    }
}

/// Both ends of one credit line, together again.
pub fn reunite_credits(tx: CreditTx, rx: CreditRx) -> CreditEnds
    requires { tx.queue ≡ rx.queue }
    ensures { result ≡ record { link = tx.link; queue = rx.queue; sent = tx.sent; taken = rx.taken } }
{
    let CreditTx {
        line: _,
        pass: sent,
    } = tx;
    let CreditRx {
        line,
        pass: mut taken,
    } = rx;
    line.queue.absorb::<Reunion>(&mut taken, sent);
    line.queue.learn_as::<Takes>(&mut taken);
    CreditEnds { line, whole: taken }
}

impl CreditEnds {
    /// Each credit sent is for a channel of the link, and those taken are the first of them. It costs nothing to ask.
    pub fn history(&self)
        ensures sent { IsCreditHistory (opened self.now.link []) self.now.sent }
        ensures taken { (rest : List _) × (self.now.sent ≡ self.now.taken ++ rest) }
    {
        let _ = &self.whole;
    }

    /// The channel of the next credit that was sent and not taken; `None` only where all was taken.
    pub fn pop_rest<R: Wait>(&mut self, rt: &R) -> Option<u8>
        ensures none { IfNone result ((self.new ≡ self.old) × (self.old.taken ≡ self.old.sent)) }
        ensures taken { IfSome result (λ channel. self.new
            ≡ record self.old { taken = self.old.taken ++ channel ∷ [] }) }
        ensures sent { IfSome result (λ channel. (rest : List _) × (self.old.sent ≡ self.new.taken ++ rest)) }
        ensures channel { IfSome result (λ channel. channel < self.old.link.channels) }
    {
        self.line.queue.pop_as::<Takes, R>(rt, &mut self.whole)
    }
}
