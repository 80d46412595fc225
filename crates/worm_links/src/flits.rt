//! The ends of a link: the queue on which flits go from a router to its neighbour (Dally and Towles, chapter 13).
ghost use Rattle.std.specs.Prelude.{◌≡◌, ◌<◌, ◌≤◌, [], ◌∷◌, ◌++◌, length, List, IfOk, IfErr, IfSome, IfNone};
ghost use Rattle.std.specs.Prelude.{MatchResult};
ghost use Rattle.crossbeam_queue.specs.Passes.{view, IsPassOf, IsSamePass, ruled_capacity};
ghost use Rattle.worm_flit.specs.Packing.{flit_of};
ghost use Rattle.worm_flit.specs.Stamps.{on_channel};
ghost use Rattle.worm_flit.specs.Worms.{Continues};
ghost use Rattle.worm_links.specs.History.{sender, taker, whole};
ghost use Rattle.worm_links.specs.Links.{no_link, opened, link_capacity, AreWorms, IsWord, MayCross, IsLinkHistory};

use crate::apart::Apart;
use crate::history::{Known, Naming, Opened, Reunion, Roles};
use crate::{LinkCfg, LinkFault};
use crossbeam_queue::protocol::{Lesson, Outcome, Protocol};
use crossbeam_queue::{Pass, RuledArrayQueue};
use std::alloc::Global;
use std::marker::{Brand, Model};
use std::sync::{Arc, Wait};
use worm_flit::{Flit, pack, unpack};

type FlitKnown = Known<Opened, Flit>;

type FlitLine = RuledArrayQueue<u128, FlitKnown, FlitRule>;

// What an end may do with the queue, and knows of it.
type FlitPass = Pass<u128, FlitKnown>;

/// What was sent is what was taken, and then the flits of the words that the queue holds.
pub struct FlitRule;

impl Protocol<u128, FlitKnown> for FlitRule {
    ghost use Rattle.std.specs.Prelude.{[]};
    ghost use Rattle.worm_links.specs.History.{IsKept, whole};
    ghost use Rattle.worm_flit.specs.Packing.{flit_of};
    ghost use Rattle.worm_links.specs.Links.{no_link, IsWord, IsLinkHistory};

    ghost holds = { IsKept flit_of IsWord IsLinkHistory };

    ghost first = { whole no_link [] [] };
}

struct Sends;

impl Outcome<u128, FlitKnown> for Sends {
    ghost use Rattle.worm_links.specs.History.{Pushed};
    ghost use Rattle.worm_flit.specs.Packing.{flit_of};
    ghost use Rattle.worm_links.specs.Links.{IsWord, IsLinkHistory};

    ghost then = { Pushed flit_of IsWord IsLinkHistory };
}

impl Lesson<u128, FlitKnown> for Sends {
    ghost use Rattle.worm_links.specs.History.{HoldsSent};
    ghost use Rattle.worm_flit.specs.Packing.{flit_of};
    ghost use Rattle.worm_links.specs.Links.{IsWord, IsLinkHistory};

    ghost fact = { HoldsSent flit_of IsWord IsLinkHistory };
}

struct Takes;

impl Outcome<u128, FlitKnown> for Takes {
    ghost use Rattle.worm_links.specs.History.{Popped};
    ghost use Rattle.worm_flit.specs.Packing.{flit_of};
    ghost use Rattle.worm_links.specs.Links.{IsWord, IsLinkHistory};

    ghost then = { Popped flit_of IsWord IsLinkHistory };
}

impl Lesson<u128, FlitKnown> for Takes {
    ghost use Rattle.worm_links.specs.History.{HoldsRest};
    ghost use Rattle.worm_flit.specs.Packing.{flit_of};
    ghost use Rattle.worm_links.specs.Links.{IsWord, IsLinkHistory};

    ghost fact = { HoldsRest flit_of IsWord IsLinkHistory };
}

/// The sender's end of a link. It may lie in a `Vec` and go to another thread.
///
/// ```
/// let (mut tx, mut rx) = link(alloc, cfg)?;
/// assert_eq!(rt; tx.push(&rt, flit), Ok(()));
/// assert_eq!(rt; rx.pop(), Some(flit));
/// ```
#[derive(Drop)]
pub struct FlitTx {
    line: Arc<Apart<FlitLine>>,
    pass: FlitPass,
}

impl Model for FlitTx {
    ghost use Rattle.std.specs.Arc.{arc_value};
    ghost use Rattle.crossbeam_queue.specs.Passes.{view as knows};
    ghost use Rattle.worm_links.specs.History.{queue_of};
    ghost use Rattle.worm_links.specs.Roles.{IsSender};
    ghost use Rattle.worm_links.specs.Links.{TxView, link_capacity, IsLinkHistory};

    ghost Value = { TxView };

    ghost view = { λ t. record {
      link = (knows t.pass).link.cfg;
      past = (knows t.pass).link.past;
      queue = queue_of t.pass;
      sent = (knows t.pass).sent;
    } };

    ghost invariant = { λ t. IsSender IsLinkHistory (arc_value t.line).queue t.pass
        (link_capacity (knows t.pass).link.cfg) };
}

/// The taker's end of a link. It may lie in a `Vec` and go to another thread.
///
/// ```
/// while let Some(flit) = rx.pop() {
///     flits.push(flit)?;
/// }
/// ```
#[derive(Drop)]
pub struct FlitRx {
    line: Arc<Apart<FlitLine>>,
    pass: FlitPass,
}

impl Model for FlitRx {
    ghost use Rattle.std.specs.Arc.{arc_value};
    ghost use Rattle.crossbeam_queue.specs.Passes.{view as knows};
    ghost use Rattle.worm_links.specs.History.{queue_of};
    ghost use Rattle.worm_links.specs.Roles.{IsTaker};
    ghost use Rattle.worm_links.specs.Links.{RxView, IsLinkHistory};

    ghost Value = { RxView };

    ghost view = { λ t. record {
      link = (knows t.pass).link.cfg;
      past = (knows t.pass).link.past;
      queue = queue_of t.pass;
      taken = (knows t.pass).taken;
    } };

    ghost invariant = { λ t. IsTaker IsLinkHistory (arc_value t.line).queue t.pass };
}

/// Both ends of a link, together again.
///
/// ```
/// let mut ends = reunite(tx, rx);
/// assert_eq!(rt; ends.pop_rest(&rt), None);
/// ```
#[derive(Drop)]
pub struct Ends {
    line: Arc<Apart<FlitLine>>,
    whole: FlitPass,
}

impl Model for Ends {
    ghost use Rattle.std.specs.Arc.{arc_value};
    ghost use Rattle.crossbeam_queue.specs.Passes.{view as knows};
    ghost use Rattle.worm_links.specs.History.{queue_of};
    ghost use Rattle.worm_links.specs.Roles.{IsWhole};
    ghost use Rattle.worm_links.specs.Links.{EndsView, IsLinkHistory};

    ghost Value = { EndsView };

    ghost view = { λ t. record {
      link = (knows t.whole).link.cfg;
      past = (knows t.whole).link.past;
      queue = queue_of t.whole;
      sent = (knows t.whole).sent;
      taken = (knows t.whole).taken;
    } };

    ghost invariant = { λ t. IsWhole IsLinkHistory (arc_value t.line).queue t.whole };
}

/// What a link's first flits continue, channel by channel: the proof of a call of [`link_after`] picks it.
pub trait Opening {
    ghost use Rattle.std.specs.Prelude.{List};
    ghost use Rattle.worm_flit.specs.declared.Flit.{Flit};

    ghost past: { List Flit };
}

impl Opening for Brand {
    ghost use Rattle.std.specs.Prelude.{[]};

    ghost past = { [] };
}

fn divide<B: Naming>(line: &FlitLine, pass: &mut FlitPass, cfg: LinkCfg) -> FlitPass
    requires link { cfg ≡ B.link.cfg }
    requires past { AreWorms B.link.past }
    requires queue { IsPassOf line.now pass.old × (view pass.old ≡ whole no_link [] []) }
    ensures queue { IsSamePass pass.old pass.new × IsPassOf line.now result }
    ensures views { (view pass.new ≡ sender B.link []) × (view result ≡ taker B.link []) }
{
    let _ = cfg;
    line.another::<Roles<B>>(pass)
}

/// The ends of a new link, whose queue holds channels times depth flits. The first flit of a channel may be any.
pub fn link(alloc: Global, cfg: LinkCfg) -> Result<(FlitTx, FlitRx), LinkFault>
    requires channels { (0 < cfg.channels) × (cfg.channels ≤ 8) }
    requires depth { (0 < cfg.depth) × (cfg.depth ≤ 17) }
    ensures link { IfOk result (λ ends. (ends.0.link ≡ cfg) × (ends.1.link ≡ cfg)) }
    ensures past { IfOk result (λ ends. (ends.0.past ≡ []) × (ends.1.past ≡ [])) }
    ensures empty { IfOk result (λ ends. (ends.0.sent ≡ []) × (ends.1.taken ≡ [])) }
    ensures queue { IfOk result (λ ends. ends.0.queue ≡ ends.1.queue) }
{
    link_after::<Brand>(alloc, cfg)
}

/// The ends of a new link over which the flits of `B` are held to have gone before: each channel's first flit
/// continues the last of those. They exist for contracts alone: nothing is pushed, and no memory is taken for them.
pub fn link_after<B: Opening>(alloc: Global, cfg: LinkCfg) -> Result<(FlitTx, FlitRx), LinkFault>
    requires channels { (0 < cfg.channels) × (cfg.channels ≤ 8) }
    requires depth { (0 < cfg.depth) × (cfg.depth ≤ 17) }
    requires past { AreWorms B.past }
    ensures link { IfOk result (λ ends. (ends.0.link ≡ cfg) × (ends.1.link ≡ cfg)) }
    ensures past { IfOk result (λ ends. (ends.0.past ≡ B.past) × (ends.1.past ≡ B.past)) }
    ensures empty { IfOk result (λ ends. (ends.0.sent ≡ []) × (ends.1.taken ≡ [])) }
    ensures queue { IfOk result (λ ends. ends.0.queue ≡ ends.1.queue) }
{
    let capacity = usize::from(cfg.channels) * usize::from(cfg.depth);
    let (line, mut tx) = FlitLine::ruled(alloc, capacity)?;
    let rx = divide::<Brand>(&line, &mut tx, cfg);
    let Ok(line) = Arc::new(alloc, Apart::new(line)) else {
        return Err(LinkFault::NoMemory);
    };
    let theirs = Arc::try_clone(&line)?;
    let sender = FlitTx { line, pass: tx };
    let taker = FlitRx {
        line: theirs,
        pass: rx,
    };
    Ok((sender, taker))
}

fn send<R: Wait>(rt: &R, line: &FlitLine, pass: &mut FlitPass, flit: Flit) -> Result<(), Flit>
    requires queue { IsPassOf line.now pass.old × (view pass.old ≡ sender (view pass.old).link (view pass.old).sent) }
    requires continues { Continues (on_channel flit.vc ((view pass.old).link.past ++ (view pass.old).sent)) flit }
    requires crossing { MayCross (view pass.old).link.cfg flit }
    ensures queue { IsSamePass pass.old pass.new }
    ensures landed { MatchResult result (λ _. view pass.new
        ≡ sender (view pass.old).link ((view pass.old).sent ++ flit ∷ []))
        (λ back. (back ≡ flit) × (view pass.new ≡ view pass.old)
        × (ruled_capacity line.now ≤ length (view pass.old).sent)) }
{
    match line.push_as::<Sends, R>(rt, pass, pack(flit)) {
        Ok(()) => Ok(()),
        Err(_) => Err(flit),
    }
}

fn flit_in(word: u128) -> Flit
    requires { IsWord word }
    ensures { result ≡ flit_of word }
{
    match unpack(word) {
        Some(flit) => flit,
        None => unreachable!(),
    }
}

impl FlitTx {
    /// What was sent is a history of the link. It costs nothing to ask.
    pub fn history(&self)
        ensures { IsLinkHistory (opened self.now.link self.now.past) self.now.sent }
    {
        let _ = &self.pass;
    }

    /// Sends the flit. `Err` gives it back: the queue is full.
    pub fn push<R: Wait>(&mut self, rt: &R, flit: Flit) -> Result<(), Flit>
        requires continues { Continues (on_channel flit.vc (self.old.past ++ self.old.sent)) flit }
        requires crossing { MayCross self.old.link flit }
        ensures sent { IfOk result (λ _. self.new ≡ record self.old { sent = self.old.sent ++ flit ∷ [] }) }
        ensures back { IfErr result (λ back. (back ≡ flit) × (self.new ≡ self.old)) }
        ensures full { IfErr result (λ _. link_capacity self.old.link ≤ length self.old.sent) }
    {
        send(rt, &self.line.queue, &mut self.pass, flit)
    }
}

impl FlitRx {
    /// What was taken is a history of the link. It costs nothing to ask.
    pub fn history(&self)
        ensures { IsLinkHistory (opened self.now.link self.now.past) self.now.taken }
    {
        let _ = &self.pass;
    }

    /// The next flit that was sent; `None` where none stands in the queue yet. It waits for nothing.
    pub fn pop(&mut self) -> Option<Flit>
        ensures none { IfNone result (self.new ≡ self.old) }
        ensures taken { IfSome result (λ flit. self.new ≡ record self.old { taken = self.old.taken ++ flit ∷ [] }) }
        ensures continues { IfSome result (λ flit. Continues
            (on_channel flit.vc (self.old.past ++ self.old.taken)) flit) }
        ensures crossing { IfSome result (λ flit. MayCross self.old.link flit) }
    {
        let word = self.line.queue.try_pop_as::<Takes>(&mut self.pass)?;
        Some(flit_in(word))
    }
}

/// Both ends of one link, together again.
pub fn reunite(tx: FlitTx, rx: FlitRx) -> Ends
    requires { tx.queue ≡ rx.queue }
    ensures { result ≡ record { link = tx.link; past = tx.past; queue = rx.queue; sent = tx.sent; taken = rx.taken } }
{
    let FlitTx {
        line: _,
        pass: sent,
    } = tx;
    let FlitRx {
        line,
        pass: mut taken,
    } = rx;
    line.queue.absorb::<Reunion>(&mut taken, sent);
    line.queue.learn_as::<Takes>(&mut taken);
    Ends { line, whole: taken }
}

impl Ends {
    /// What was sent is a history of the link, and what was taken is its beginning. It costs nothing to ask.
    pub fn history(&self)
        ensures sent { IsLinkHistory (opened self.now.link self.now.past) self.now.sent }
        ensures taken { (rest : List _) × (self.now.sent ≡ self.now.taken ++ rest) }
    {
        let _ = &self.whole;
    }

    /// The next flit that was sent and not taken; `None` only where all was taken.
    pub fn pop_rest<R: Wait>(&mut self, rt: &R) -> Option<Flit>
        ensures none { IfNone result ((self.new ≡ self.old) × (self.old.taken ≡ self.old.sent)) }
        ensures taken { IfSome result (λ flit. self.new ≡ record self.old { taken = self.old.taken ++ flit ∷ [] }) }
        ensures sent { IfSome result (λ flit. (rest : List _) × (self.old.sent ≡ self.new.taken ++ rest)) }
        ensures continues { IfSome result (λ flit. Continues
            (on_channel flit.vc (self.old.past ++ self.old.taken)) flit) }
        ensures crossing { IfSome result (λ flit. MayCross self.old.link flit) }
    {
        let next = self.line.queue.pop_as::<Takes, R>(rt, &mut self.whole)?;
        Some(flit_in(next))
    }
}
