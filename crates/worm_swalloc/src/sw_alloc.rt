ghost use Rattle.std.specs.Prelude.{◌≡◌, ℕ, ◌^◌, ◌<◌, ◌≤◌, IfSome, None, is_some, replicate, true, slice_index_or};
ghost use Rattle.std.specs.Prelude.{Some, slice_set};
ghost use Rattle.worm_vcalloc.specs.Arbiter.{no_arbiter, line_requests, after_pick};
ghost use Rattle.worm_vcalloc.specs.ChannelSet.{IsPut};
ghost use Rattle.worm_vcalloc.specs.Table.{cell};
ghost use Rattle.worm_swalloc.specs.Front.{with_front};
ghost use Rattle.worm_swalloc.specs.SwAlloc.{SwAllocState, IsSwAlloc, IsSwitchMatching, AreChannelsBelow};
ghost use Rattle.worm_swalloc.specs.SwAlloc.{named, all_named, sole_named, IsSolePort, is_for, chosen};
ghost use Rattle.worm_swalloc.specs.SwAlloc.{granted, sw_grants, sw_after, output_after, after_grant, with_choice};
ghost use Rattle.worm_swalloc.specs.SwAlloc.{with_move, AreApart, AreRequested, after_granting, granted_of};

use crate::grant::{ReadyOuts, SwGrant, SwGrants, SwMatching};
use crate::named::Named;
use crate::ready::Ready;
use std::marker::Model;
use worm_vcalloc::{Arbiter, ChannelSet};

/// The allocator of the switch, separable and input first (Dally and Towles, chapter 19).
///
/// ```text
/// let mut alloc = SwAlloc::new(5, 2);
/// ready[0][1] = Some(3); // channel 1 of input port 0 would send to output port 3
/// let grants = alloc.grant(&ready); // grants[0] is what input port 0 may send
/// ```
#[derive(Clone, Copy)]
pub struct SwAlloc {
    ports: u8,
    vcs: u8,
    /// The arbiter of each input port, a line for each of its channels.
    inputs: [Arbiter; 7],
    /// The arbiter of each output port, a line for each input port.
    outputs: [Arbiter; 7],
}

impl Model for SwAlloc {
    ghost Value = { SwAllocState };

    ghost view = { λ a. record { ports = a.ports; vcs = a.vcs; inputs = a.inputs; outputs = a.outputs } };

    ghost invariant = { λ a. IsSwAlloc a.ports a.vcs a.inputs a.outputs };

    ghost inverse = { λ v. record { ports = v.ports; vcs = v.vcs; inputs = v.inputs; outputs = v.outputs } };
}

impl SwAlloc {
    /// An allocator for a router of so many ports, 1 to 7, and channels a port, 1 to 8.
    pub fn new(ports: u8, vcs: u8) -> Self
        requires some_port { 0 < ports }
        requires few_ports { ports ≤ 7 }
        requires some_channel { 0 < vcs }
        requires few_channels { vcs ≤ 8 }
        ensures { result ≡ record {
          ports = ports;
          vcs = vcs;
          inputs = replicate 7 (record { width = vcs; pointer = 0 });
          outputs = replicate 7 (record { width = ports; pointer = 0 });
        } }
    {
        SwAlloc {
            ports,
            vcs,
            inputs: [Arbiter::new(vcs); 7],
            outputs: [Arbiter::new(ports); 7],
        }
    }

    /// One pass over an array by port and channel, which has the output port of each ready channel.
    pub fn grant(&mut self, ready: &[[Option<u8>; 8]; 7]) -> SwGrants
        ensures grants { result ≡ sw_grants self.old ready.now }
        ensures after { self.new ≡ sw_after self.old ready.now }
        ensures matching { IsSwitchMatching self.old ready.now result }
    {
        let outs = ReadyOuts::from_rows(ready);
        let matching = self.grant_ready(&Ready::new(&outs, outs.keys()));
        matching.to_array()
    }

    /// The same pass for a caller that keeps what is ready: it looks at no channel that is not.
    pub fn grant_ready(&mut self, ready: &Ready<'_>) -> SwMatching
        ensures grants { result ≡ sw_grants self.old ready.now }
        ensures after { self.new ≡ sw_after self.old ready.now }
        ensures matching { IsSwitchMatching self.old ready.now result }
    {
        // The proof of the first answer needs the widths of the arbiters.
        let _ = &self.ports;
        if ready.keys().is_empty() {
            return SwMatching::new();
        }
        if let Some(port) = self.sole_port(ready) {
            let request = self.request(port, ready);
            return self.grant_sole(port, request);
        }
        let mut named = Named::new();
        self.gather(ready, &mut named);
        let granted = self.grant_named(&named);
        SwMatching::among(named.into_requests(), granted)
    }

    /// The same pass where no two ready channels share an input or output port: each is granted, no arbiter is asked.
    pub fn grant_each(&mut self, ready: &Ready<'_>) -> SwMatching
        requires apart { AreApart self.old ready.now }
        ensures grants { result ≡ sw_grants self.old ready.now }
        ensures after { self.new ≡ sw_after self.old ready.now }
        ensures matching { IsSwitchMatching self.old ready.now result }
    {
        // The proof needs the widths of the arbiters.
        let _ = &self.ports;
        let among = ready.keys();
        let mut requests = [None; 7];
        let mut left = among;
        while let Some((port, vc)) = left.pop_first() {
            let out = ready.out_port(port, vc);
            let grant = SwGrant { vc, out };
            requests[port as usize] = Some(grant);
            self.move_past(port, grant);
        }
        SwMatching::among(requests, among)
    }

    fn move_past(&mut self, port: u8, grant: SwGrant)
        requires port { port < self.old.ports }
        requires channel { grant.vc < self.old.vcs }
        requires out { grant.out < self.old.ports }
        ensures { self.new ≡ after_granting self.old port grant }
    {
        self.outputs[grant.out as usize].move_past(port);
        self.inputs[port as usize].move_past(grant.vc);
    }

    fn sole_port(&self, ready: &Ready<'_>) -> Option<u8>
        ensures within { IfSome result (λ port. port < self.now.ports) }
        ensures sole { IfSome result (IsSolePort ready.now) }
    {
        let mut left = ready.keys();
        let port = left.pop_port()?;
        if left.is_empty() && port < self.ports {
            Some(port)
        } else {
            None
        }
    }

    fn gather(&self, ready: &Ready<'_>, asked: &mut Named)
        requires { asked.old ≡ replicate 7 None }
        ensures named { asked.new ≡ all_named self.now ready.now }
        ensures ready { IsSwAlloc self.now.ports self.now.vcs self.now.inputs self.now.outputs }
    {
        let ports = self.ports;
        let mut left = ready.keys();
        while let Some(port) = left.pop_port() {
            if port < ports {
                self.ask(port, ready, asked);
            }
        }
    }

    fn ask(&self, port: u8, ready: &Ready<'_>, asked: &mut Named)
        requires port { port < self.now.ports }
        requires few { port < 7 }
        requires none { slice_index_or asked.old port None ≡ None }
        ensures { asked.new ≡ slice_set asked.old port (named self.now ready.now port) }
    {
        if let Some(request) = self.request(port, ready) {
            asked.put(port, request);
        }
    }

    fn request(&self, port: u8, ready: &Ready<'_>) -> Option<SwGrant>
        requires { port < self.now.ports }
        ensures { result ≡ named self.now ready.now port }
    {
        let lines = ready_lines(ready, port, self.vcs);
        let vc = self.inputs[port as usize].peek(lines)?;
        let out = ready.out_port(port, vc);
        Some(SwGrant { vc, out })
    }

    fn grant_named(&mut self, named: &Named) -> ChannelSet
        requires { AreChannelsBelow self.old.vcs named.now }
        ensures requested { AreRequested named.now result }
        ensures grants { granted_of named.now result
            ≡ with_front self.old.ports (granted self.old named.now self.old.ports) (replicate 7 None) }
        ensures after { self.new ≡ record self.old {
          inputs = with_front self.old.ports (after_grant self.old (granted_of named.now result)) self.old.inputs;
          outputs = with_front self.old.ports (output_after self.old named.now) self.old.outputs;
        } }
    {
        let ports = self.ports;
        let askers = named.askers();
        let mut granted = ChannelSet::new();
        let mut left = askers;
        while let Some(out) = left.pop_port() {
            if out < ports {
                self.choose_for(out, askers.row(out, ports), named, &mut granted);
            }
        }
        granted
    }

    fn grant_sole(&mut self, port: u8, request: Option<SwGrant>) -> SwMatching
        requires port { port < self.old.ports }
        requires channel { IfSome request (λ g. g.vc < self.old.vcs) }
        ensures grants { result ≡ with_front self.old.ports (granted self.old (sole_named port request) self.old.ports)
            (replicate 7 None) }
        ensures after { self.new ≡ record self.old {
          inputs = with_front self.old.ports (after_grant self.old result) self.old.inputs;
          outputs = with_front self.old.ports (output_after self.old (sole_named port request)) self.old.outputs;
        } }
    {
        let ports = self.ports;
        let Some(grant) = request else {
            return SwMatching::new();
        };
        if grant.out >= ports {
            return SwMatching::new();
        }
        self.move_past(port, grant);
        SwMatching::sole(port, grant)
    }

    fn choose_for(&mut self, out: u8, lines: u64, named: &Named, granted: &mut ChannelSet)
        requires out { out < self.old.ports }
        requires below { AreChannelsBelow self.old.vcs named.now }
        requires few { lines < 2 ^ self.old.ports }
        requires lines { (line : ℕ) → line < self.old.ports
            → line_requests lines line ≡ is_for (slice_index_or named.now line None) out }
        requires requested { AreRequested named.now granted.old }
        ensures requested { AreRequested named.now granted.new }
        ensures grants { granted_of named.now granted.new
            ≡ with_choice (granted_of named.now granted.old) named.now (chosen self.old named.now out) }
        ensures after { self.new ≡ record self.old {
          inputs = with_move self.old.inputs named.now (chosen self.old named.now out);
          outputs = slice_set self.old.outputs out (output_after self.old named.now out);
        } }
    {
        let Some(port) = self.outputs[out as usize].pick(lines) else {
            return;
        };
        let Some(request) = named.get(port) else {
            return;
        };
        self.commit(port, request.vc, granted);
    }

    fn commit(&mut self, port: u8, vc: u8, granted: &mut ChannelSet)
        requires port { port < self.old.ports }
        requires channel { vc < self.old.vcs }
        ensures granted { IsPut granted.old granted.new port vc true }
        ensures after { self.new ≡ record self.old {
          inputs = slice_set self.old.inputs port
              (after_pick (slice_index_or self.old.inputs port no_arbiter) (Some vc));
        } }
    {
        self.inputs[port as usize].move_past(vc);
        granted.put(port, vc, true);
    }
}

fn ready_lines(ready: &Ready<'_>, port: u8, vcs: u8) -> u64
    requires port { port < 7 }
    requires vcs { vcs ≤ 8 }
    ensures few { result < 2 ^ vcs }
    ensures lines { (line : ℕ) → line < vcs → line_requests result line ≡ is_some (cell ready.now port line None) }
{
    ready.keys().row(port, vcs)
}
