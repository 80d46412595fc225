//! What of a router can be seen: the sets of its channels, and what stands at a place.

ghost use Rattle.std.specs.Prelude.{◌≡◌, ◌<◌, length, nat_lt, slice_get};
ghost use Rattle.worm_router.specs.Router.{IsPlace, IsRouter, input_at, line, output_at, terminal};
ghost use Rattle.worm_router.specs.Busy.{IsSetOf, OweByLinks, is_active, is_occupied, is_waiting, lacks_route, owes};

use crate::router::Router;
use worm_flit::Flit;
use worm_records::{InRecord, OutRecord};
use worm_vcalloc::ChannelSet;

impl Router {
    /// The input channels that have a flit.
    pub fn occupied(&self) -> ChannelSet
        ensures { IsSetOf is_occupied self.now result }
    {
        self.busy.occupied
    }

    /// The input channels that wait for an output channel.
    pub fn waiting(&self) -> ChannelSet
        ensures { IsSetOf is_waiting self.now result }
    {
        self.demand.requests().waiting()
    }

    /// The input channels that hold an output channel.
    pub fn active(&self) -> ChannelSet
        ensures { IsSetOf is_active self.now result }
    {
        self.busy.outs.keys()
    }

    /// The input channels with a flit that lack a route; no other has anything to route.
    pub fn unrouted(&self) -> ChannelSet
        ensures { IsSetOf lacks_route self.now result }
    {
        let flits = &self.busy.occupied;
        flits.difference(&self.waiting()).difference(&self.active())
    }

    /// The input channels that owe a credit. Their ports face links.
    pub fn owing(&self) -> ChannelSet
        ensures owing { IsSetOf owes self.now result }
        ensures links { OweByLinks self.now.mesh self.now.node result }
    {
        self.busy.owing
    }

    pub(crate) fn line(&self, port: u8, vc: u8) -> usize
        requires { IsPlace self.now port vc }
        ensures value { result ≡ line self.now port vc }
        ensures in_inputs { result < length self.now.inputs }
        ensures in_outputs { result < length self.now.outputs }
        ensures few_ports { port < 7 }
        ensures few_channels { vc < 8 }
    {
        usize::from(port) * usize::from(self.classes.total()) + usize::from(vc)
    }

    /// The flit at place `i` of an input buffer, counted from the front.
    pub fn buffer_at(&self, port: u8, vc: u8, i: usize) -> Option<Flit>
        requires { IsPlace self.now port vc }
        ensures value { result ≡ slice_get (input_at self.now port vc).buffer i }
        ensures sound { IsRouter self.now }
    {
        let channel = &self.inputs[self.line(port, vc)];
        channel.flit_at(i)
    }

    /// What the input channel does with the packet at its front.
    pub fn in_record(&self, port: u8, vc: u8) -> InRecord
        requires { IsPlace self.now port vc }
        ensures { result ≡ (input_at self.now port vc).state }
    {
        let channel = &self.inputs[self.line(port, vc)];
        channel.state()
    }

    /// Who holds the output channel, and how many credits it has.
    pub fn out_record(&self, port: u8, vc: u8) -> OutRecord
        requires { IsPlace self.now port vc }
        ensures value { result ≡ output_at self.now port vc }
        ensures terminal { port ≡ terminal self.now → result.credits ≡ self.now.depth }
    {
        self.outputs[self.line(port, vc)]
    }

    /// The flit that left this input channel last, as it left; none before any has.
    pub fn last_out(&self, port: u8, vc: u8) -> Option<Flit>
        requires { IsPlace self.now port vc }
        ensures { result ≡ (input_at self.now port vc).last_out }
    {
        let channel = &self.inputs[self.line(port, vc)];
        channel.last_out()
    }

    /// How many credits this input channel owes.
    pub fn owed_count(&self, port: u8, vc: u8) -> u8
        requires { IsPlace self.now port vc }
        ensures { result ≡ (input_at self.now port vc).owed }
    {
        let channel = &self.inputs[self.line(port, vc)];
        channel.owed()
    }

    /// Whether the buffer of this input channel has room for one more flit, as `accept` needs.
    pub fn has_room(&self, port: u8, vc: u8) -> bool
        requires { IsPlace self.now port vc }
        ensures { result ≡ nat_lt (length (input_at self.now port vc).buffer) self.now.depth }
    {
        let channel = &self.inputs[self.line(port, vc)];
        channel.has_room()
    }
}
