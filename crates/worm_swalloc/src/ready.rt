ghost use Rattle.std.specs.Prelude.{◌≡◌, ℕ, ◌<◌, Some, None, is_some, true};
ghost use Rattle.worm_vcalloc.specs.ChannelSet.{has};
ghost use Rattle.worm_vcalloc.specs.Table.{cell, table};
ghost use Rattle.worm_swalloc.specs.Ready.{HaveOuts, ready_at};

use crate::grant::ReadyOuts;
use std::marker::Model;
use worm_vcalloc::ChannelSet;

/// The channels of a set, which may send, each with the output port that a map gives it. The map may have others too.
#[derive(Drop)]
pub struct Ready<'a> {
    outs: &'a ReadyOuts,
    among: ChannelSet,
}

impl<'a> Model for Ready<'a> {
    ghost use Rattle.std.specs.Prelude.{ℕ, List, Option};
    ghost use Rattle.worm_swalloc.specs.Ready.{HaveOuts, ready_at};
    ghost use Rattle.worm_vcalloc.specs.Table.{table};

    ghost Value = { List (List (Option ℕ)) };

    ghost view = { λ r. table (ready_at r.outs.now r.among) };

    ghost invariant = { λ r. HaveOuts r.outs.now r.among };
}

impl<'a> Ready<'a> {
    /// The channels of this set may send, each to the output port that the map gives it.
    pub fn new(outs: &'a ReadyOuts, among: ChannelSet) -> Ready<'a>
        requires { HaveOuts outs.now among }
        ensures { result ≡ table (ready_at outs.now among) }
    {
        Ready { outs, among }
    }

    /// The channels that may send.
    pub fn keys(&self) -> ChannelSet
        ensures { (p c : ℕ) → p < 7 → c < 8 → has result p c ≡ is_some (cell self.now p c None) }
    {
        self.among
    }

    /// The output port of a channel that may send.
    pub fn out_port(&self, port: u8, channel: u8) -> u8
        requires port { port < 7 }
        requires channel { channel < 8 }
        requires within { is_some (cell self.now port channel None) ≡ true }
        ensures { Some result ≡ cell self.now port channel None }
    {
        let outs = self.outs;
        outs.number(port, channel)
    }
}
