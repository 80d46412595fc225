//! A worker's ends of the links that it shares with others.

ghost use Rattle.std.specs.Prelude.{◌≡◌, IfNone, IfSome};
ghost use Rattle.worm_split.specs.Ends.{leaves_by, enters_by, CreditPopped, FlitPopped, FlitPushed, CreditPushed};
ghost use Rattle.worm_split.specs.Ends.{MayGo, MayGive};

use std::sync::Wait;
use worm_flit::Flit;
use worm_links::{CreditRx, CreditTx, FlitRx, FlitTx};

/// A worker's end of a link.
#[derive(Drop)]
pub enum End {
    /// Both of its nodes are the worker's, or neither is.
    Inner,
    /// The link leaves the worker's nodes: where its flits go, and where their credits come back.
    Leaving(FlitTx, CreditRx),
    /// The link enters them: where its flits come from, and where their credits go.
    Entering(FlitRx, CreditTx),
}

/// Both ends of a link between two workers; of any other link two that are no ends.
#[derive(Drop)]
pub struct EndPair {
    /// The end of the worker whose node the link leaves.
    pub out: End,
    /// The end of the worker whose node the link enters.
    pub into: End,
}

/// The next credit that came back by the end. None where there is none, or no credits come back by it.
pub fn pop_credit(end: &mut End) -> Option<u8>
    ensures none { IfNone result (end.new ≡ end.old) }
    ensures some { IfSome result (λ c. CreditPopped end.old c end.new) }
{
    match end {
        End::Leaving(_tx, back) => back.pop(),
        _ => None,
    }
}

/// The next flit that came by the end. None where there is none, or no flits come by it.
pub fn pop_flit(end: &mut End) -> Option<Flit>
    ensures none { IfNone result (end.new ≡ end.old) }
    ensures some { IfSome result (λ flit. FlitPopped end.old flit end.new) }
{
    match end {
        End::Entering(rx, _give) => rx.pop(),
        _ => None,
    }
}

/// Whether flits leave by the end.
pub fn is_leaving(end: &End) -> bool
    ensures { result ≡ leaves_by end.now }
{
    matches!(end, End::Leaving(_, _))
}

/// Whether flits enter by the end.
pub fn is_entering(end: &End) -> bool
    ensures { result ≡ enters_by end.now }
{
    matches!(end, End::Entering(_, _))
}

/// Sends a flit by the end. False where the queue is full, or no flits leave by it; then nothing changed.
pub fn push_flit<R: Wait>(rt: &R, end: &mut End, flit: Flit) -> bool
    requires { MayGo end.old flit }
    ensures { FlitPushed end.old flit result end.new }
{
    match end {
        End::Leaving(tx, _back) => tx.push(rt, flit).is_ok(),
        _ => false,
    }
}

/// Gives a credit by the end. False where the credit line is full, or no credits go by it; then nothing changed.
pub fn push_credit<R: Wait>(rt: &R, end: &mut End, vc: u8) -> bool
    requires { MayGive end.old vc }
    ensures { CreditPushed end.old vc result end.new }
{
    match end {
        End::Entering(_rx, give) => give.push(rt, vc).is_ok(),
        _ => false,
    }
}
