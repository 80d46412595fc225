ghost use Rattle.std.specs.Prelude.{◌≡◌, ◌≤◌, ◌<◌, ◌↔◌, length, IfOk, IfErr, OnOk, OnErr, IsOk, IsErr, IsSome, IfSome};
ghost use Rattle.std.specs.Prelude.{IfNone, None, Some, ℕ, is_some, nat_lt, ◌-◌, ◌&&◌, if◌then◌else◌, is_none};
ghost use Rattle.worm_flit.specs.Channels.{AreChannels, class_bits, owns};
ghost use Rattle.worm_mesh.specs.Address.{node_count};
ghost use Rattle.worm_records.specs.declared.InRecord.TheVariants.{Waiting};
ghost use Rattle.worm_router.specs.Router.{IsPlace, fresh_router, input_at, output_at, terminal, width, after_accept};
ghost use Rattle.worm_router.specs.Router.{can_route, after_route, can_grant, after_grant, after_granting, leaving};
ghost use Rattle.worm_router.specs.Router.{MayLeave, credit_of, owed_for, after_send, after_gave, after_credit};

mod allocation;
mod fresh;
mod full;
mod readers;
mod rest;

use crate::busy::BusyChannels;
use crate::channel::InputChannel;
use crate::demand::Demand;
use crate::fault::{RouterFault, TooMany};
use crate::router::fresh::{class_masks, make_inputs, make_outputs};
use crate::routes::Routes;
use std::alloc::Global;
use std::marker::Model;
use worm_flit::{ClassChannels, Flit, is_closing, is_opening};
use worm_mesh::Mesh;
use worm_records::{InRecord, OutRecord};
use worm_swalloc::SwAlloc;
use worm_vcalloc::{VcAlloc, VcRequest};

/// The router of one node: its input channels and its output channels, each by rising port, then channel.
///
/// ```text
/// router.accept(0, flit)?;            // a flit comes in by port 0
/// router.route(0, flit.vc);           // the front packet's output port is found
/// let grants = router.allocate();     // it gets a channel there
/// if let Some((out, flit)) = router.ready(0, 0) { router.sent(0, 0); .. }
/// ```
#[derive(Drop)]
pub struct Router {
    routes: Routes,
    classes: ClassChannels,
    /// `ClassChannels::mask` of each class.
    masks: [u8; 4],
    depth: u8,
    inputs: Vec<InputChannel>,
    /// The terminal's always have `depth` credits.
    outputs: Vec<OutRecord>,
    switch_alloc: SwAlloc,
    busy: BusyChannels,
    demand: Demand,
    /// It stands last: a turn mostly reads what is before it, and seldom this.
    channel_alloc: VcAlloc,
}

impl Model for Router {
    ghost use Rattle.worm_router.specs.Router.{RouterState, router_state};
    ghost use Rattle.worm_router.specs.Busy.{IsKept};

    ghost Value = { RouterState };

    ghost view = { λ r. router_state r.routes.mesh r.routes.node r.classes r.depth r.inputs.items r.outputs.items
        r.channel_alloc r.switch_alloc };

    ghost invariant = { λ r. IsKept (router_state r.routes.mesh r.routes.node r.classes r.depth r.inputs.items
        r.outputs.items r.channel_alloc r.switch_alloc) r.busy r.demand r.masks };
}

fn spend(output: &mut OutRecord, cost: u8)
    requires one { cost ≤ 1 }
    requires there { cost ≤ output.old.credits }
    ensures { output.new ≡ record output.old { credits = output.old.credits - cost } }
{
    if cost > 0 {
        output.spend_credit();
    }
}

impl Router {
    /// The router of a node of the mesh, with so many channels for each class and buffers of this depth, 1 to 16. No
    /// other call takes memory. `NoMemory` where there is none.
    pub fn new(
        alloc: Global,
        mesh: &Mesh,
        node: u8,
        channels: &[u8],
        depth: u8,
    ) -> Result<Router, RouterFault>
        requires node { node < node_count mesh.now }
        requires channels { AreChannels channels.now }
        requires depth { (1 ≤ depth) × (depth ≤ 16) }
        ensures { IfOk result (λ r. r ≡ fresh_router mesh.now node channels.now depth) }
    {
        let classes = ClassChannels::new(channels);
        let masks = class_masks(&classes);
        let ports = 2 * mesh.dims() + 1;
        let total = classes.total();
        let count = usize::from(ports) * usize::from(total);
        // The outputs come last: room is left after them.
        let routes = Routes::from_node(alloc, mesh, node)?;
        let inputs = make_inputs(alloc, count, depth)?;
        let outputs = make_outputs(alloc, count, depth)?;
        Ok(Router {
            routes,
            classes,
            masks,
            depth,
            inputs,
            outputs,
            channel_alloc: VcAlloc::new(ports, total),
            switch_alloc: SwAlloc::new(ports, total),
            busy: BusyChannels::new(),
            demand: Demand::new(ports, total),
        })
    }

    /// The terminal port.
    pub fn terminal(&self) -> u8
        ensures value { result ≡ terminal self.now }
        ensures bound { result ≤ 6 }
    {
        self.routes.terminal()
    }

    fn owed_for(&self, port: u8) -> u8
        requires { port ≤ terminal self.now }
        ensures value { result ≡ owed_for self.now port }
        ensures bound { result ≤ 1 }
    {
        if self.routes.is_linked(port) { 1 } else { 0 }
    }

    fn credit_of(&self, port: u8) -> u8
        ensures value { result ≡ credit_of self.now port }
        ensures bound { result ≤ 1 }
    {
        if port == self.terminal() { 0 } else { 1 }
    }

    /// Puts a flit that came in by the port into its channel's buffer. It comes back exactly where that is full.
    #[inline(always)]
    pub fn accept(&mut self, port: u8, flit: Flit) -> Result<(), Flit>
        requires place { IsPlace self.old port flit.vc }
        requires node { flit.lane.dst < node_count self.old.mesh }
        ensures variant { IsOk result ↔ (length (input_at self.old port flit.vc).buffer < self.old.depth) }
        ensures ok { OnOk result (self.new ≡ after_accept self.old port flit) }
        ensures err { IfErr result (λ f. (f ≡ flit) × (self.new ≡ self.old)) }
    {
        if self.put(port, &flit) {
            Ok(())
        } else {
            Err(flit)
        }
    }

    #[inline(always)]
    fn put(&mut self, port: u8, flit: &Flit) -> bool
        requires place { IsPlace self.old port flit.now.vc }
        requires node { flit.now.lane.dst < node_count self.old.mesh }
        ensures room { result ≡ nat_lt (length (input_at self.old port flit.now.vc).buffer) self.old.depth }
        ensures after { self.new ≡ (if result then after_accept self.old port flit.now else self.old) }
    {
        let i = self.line(port, flit.vc);
        let channel = &mut self.inputs[i];
        let came = channel.put(*flit);
        self.busy.occupied.insert_if(port, flit.vc, came);
        came
    }

    fn mask(&self, class: u8) -> u8
        ensures { result ≡ class_bits self.now.channels class }
    {
        match self.masks.get(usize::from(class)) {
            Some(mask) => *mask,
            None => 0,
        }
    }

    /// Route computation: an idle channel with an opening flit in front then waits for its output port. Else false.
    pub fn route(&mut self, port: u8, vc: u8) -> bool
        requires { IsPlace self.old port vc }
        ensures enabled { result ≡ can_route self.old port vc }
        ensures after { self.new ≡ (if result then after_route self.old port vc else self.old) }
    {
        let i = self.line(port, vc);
        let channel = &self.inputs[i];
        if !matches!(channel.state(), InRecord::Idle) {
            return false;
        }
        let Some(front) = channel.flit_at(0) else {
            return false;
        };
        if !is_opening(front.kind) {
            return false;
        }
        let out = self.routes.port(front.lane.dst);
        let allowed = self.mask(front.lane.class);
        let channel = &mut self.inputs[i];
        channel.route_to(out);
        self.demand.ask(port, vc, VcRequest { out, allowed });
        true
    }

    fn is_free_for(&self, class: u8, out: u8, out_vc: u8) -> bool
        requires { IsPlace self.now out out_vc }
        ensures { result
            ≡ (is_none (output_at self.now out out_vc).holder && owns self.now.channels class out_vc) }
    {
        let is_free = self.outputs[self.line(out, out_vc)].holder.is_none();
        let is_its = self.classes.owns(class, out_vc);
        is_free & is_its
    }

    fn grantable(&self, port: u8, vc: u8, out_vc: u8) -> Option<u8>
        requires place { IsPlace self.now port vc }
        requires out_channel { out_vc < width self.now }
        ensures value { result ≡ can_grant self.now port vc out_vc }
        ensures there { IfSome result (λ out. out ≤ terminal self.now) }
        ensures waits { IfSome result (λ out. (input_at self.now port vc).state ≡ Waiting out) }
        ensures free { IfSome result (λ out. (output_at self.now out out_vc).holder ≡ None) }
    {
        let channel = &self.inputs[self.line(port, vc)];
        let InRecord::Waiting { out } = channel.state() else {
            return None;
        };
        let front = channel.flit_at(0)?;
        if self.is_free_for(front.lane.class, out, out_vc) {
            Some(out)
        } else {
            None
        }
    }

    fn hold(&mut self, port: u8, vc: u8, out: u8, out_vc: u8)
        requires place { IsPlace self.old port vc }
        requires out_place { IsPlace self.old out out_vc }
        requires waits { (input_at self.old port vc).state ≡ Waiting out }
        requires free { (output_at self.old out out_vc).holder ≡ None }
        ensures { self.new ≡ after_granting self.old port vc out_vc (Some out) }
    {
        let i = self.line(port, vc);
        let o = self.line(out, out_vc);
        let cost = self.credit_of(out);
        let channel = &mut self.inputs[i];
        channel.activate(out_vc);
        self.busy.outs.set(port, vc, Some(out));
        self.demand.meet(port, vc, out, out_vc);
        let output = &mut self.outputs[o];
        output.grant(port, vc);
        self.busy.no_credit.put(port, vc, output.credits < cost);
    }

    /// Gives a waiting channel `out_vc` of its output port, if free and owned by its packet's class. Else false.
    pub fn grant(&mut self, port: u8, vc: u8, out_vc: u8) -> bool
        requires place { IsPlace self.old port vc }
        requires out_channel { out_vc < width self.old }
        ensures enabled { result ≡ is_some (can_grant self.old port vc out_vc) }
        ensures after { self.new ≡ after_grant self.old port vc out_vc }
    {
        match self.grantable(port, vc, out_vc) {
            None => false,
            Some(out) => {
                self.hold(port, vc, out, out_vc);
                true
            }
        }
    }

    fn may_send(&self, port: u8, vc: u8) -> bool
        requires { IsPlace self.now port vc }
        ensures { result ≡ is_some (leaving self.now port vc) }
    {
        self.busy.ready().contains(port, vc)
    }

    #[inline(always)]
    fn next_out(&self, port: u8, vc: u8) -> (u8, Flit)
        requires place { IsPlace self.now port vc }
        requires ready { IsSome (leaving self.now port vc) }
        ensures leaves { Some result ≡ leaving self.now port vc }
        ensures room { MayLeave self.now port vc result }
    {
        let channel = &self.inputs[self.line(port, vc)];
        let InRecord::Active { out, out_vc } = channel.state() else {
            unreachable!()
        };
        let Some(mut flit) = channel.flit_at(0) else {
            unreachable!()
        };
        flit.vc = out_vc;
        (out, flit)
    }

    /// The output port and the flit that may leave, on its granted channel: there is a credit, and room to owe one.
    #[inline(always)]
    pub fn ready(&self, port: u8, vc: u8) -> Option<(u8, Flit)>
        requires { IsPlace self.now port vc }
        ensures leaves { result ≡ leaving self.now port vc }
        ensures room { IfSome result (MayLeave self.now port vc) }
    {
        if !self.may_send(port, vc) {
            return None;
        }
        Some(self.next_out(port, vc))
    }

    /// The flit that `ready` names has left. A credit is spent, except at the terminal, and one is owed where its
    /// input port has a link. A closing flit frees both channels.
    #[inline(always)]
    pub fn sent(&mut self, port: u8, vc: u8)
        requires place { IsPlace self.old port vc }
        requires ready { IsSome (leaving self.old port vc) }
        ensures { self.new ≡ after_send self.old port vc }
    {
        let (out, flit) = self.next_out(port, vc);
        let i = self.line(port, vc);
        let o = self.line(out, flit.vc);
        let more_owed = self.owed_for(port);
        let fed = port == self.terminal();
        let spent = self.credit_of(out);
        let channel = &mut self.inputs[i];
        channel.let_out(flit, more_owed);
        let output = &mut self.outputs[o];
        spend(output, spent);
        self.busy
            .occupied
            .remove_if(port, vc, !channel.is_occupied());
        // Who owed before owes still, so this needs no look at the count.
        self.busy.owing.insert_if(port, vc, more_owed > 0);
        // `owed` has grown already: there is no room for one more.
        let owes_all = channel.owed() + more_owed > self.depth;
        self.busy.owes_all.insert_if(port, vc, owes_all);
        self.busy.forget_full(fed);
        if is_closing(flit.kind) {
            channel.close();
            output.release();
            self.busy.outs.set(port, vc, None);
            self.demand.release(out, flit.vc);
        } else {
            self.busy
                .no_credit
                .insert_if(port, vc, output.credits < spent);
        }
    }

    /// The lowest channel of the port that owes a credit upstream.
    pub fn owed(&self, port: u8) -> Option<u8>
        requires { port ≤ terminal self.now }
        ensures found { IfSome result (λ vc. (vc < width self.now) × (0 < (input_at self.now port vc).owed)) }
        ensures lowest { IfSome result (λ vc. (k : ℕ) → k < vc → (input_at self.now port k).owed ≡ 0) }
        ensures none { IfNone result ((k : ℕ) → k < width self.now → (input_at self.now port k).owed ≡ 0) }
    {
        let lines = self.owing().row(port, self.classes.total());
        if lines == 0 {
            return None;
        }
        Some(lines.trailing_zeros() as u8)
    }

    /// A credit that this channel owed has gone out.
    #[inline(always)]
    pub fn gave(&mut self, port: u8, vc: u8)
        requires place { IsPlace self.old port vc }
        requires owed { 0 < (input_at self.old port vc).owed }
        ensures { self.new ≡ after_gave self.old port vc }
    {
        let i = self.line(port, vc);
        let channel = &mut self.inputs[i];
        channel.give();
        self.busy.owing.remove_if(port, vc, channel.owed() == 0);
        self.busy.owes_all.put(port, vc, false);
    }

    /// A credit came back for this output channel. `TooMany` exactly where it has all `depth`, as at the terminal.
    pub fn credit(&mut self, out_port: u8, vc: u8) -> Result<(), TooMany>
        requires { IsPlace self.old out_port vc }
        ensures full { IsErr result ↔ ((output_at self.old out_port vc).credits ≡ self.old.depth) }
        ensures ok { OnOk result (self.new ≡ after_credit self.old out_port vc) }
        ensures err { OnErr result (self.new ≡ self.old) }
    {
        let o = self.line(out_port, vc);
        let depth = self.depth;
        if self.outputs[o].credits == depth {
            return Err(TooMany);
        }
        let output = &mut self.outputs[o];
        output.add_credit(depth);
        if let Some((in_port, in_vc)) = output.holder {
            self.busy.no_credit.put(in_port, in_vc, false);
        }
        Ok(())
    }
}
