//! What enters and leaves a part over links shared with other workers (Dally and Towles, chapter 13).

ghost use Rattle.std.specs.Prelude.{◌≡◌, ◌<◌, ◌↔◌, [], false, IsSome, Some, sum};
ghost use Rattle.worm_theory.specs.Steps.{IsThere, Step as Event};
ghost use Rattle.worm_region.specs.Edges.{ArrivesBy, ComesBackBy, LetsGive, LetsOut};
ghost use Rattle.worm_region.specs.Moves.{link_into, link_out};
ghost use Rattle.worm_region.specs.State.{link_at, router_at, shape};
ghost use Rattle.worm_region.specs.Workable.{EndsElsewhere, owned};
ghost use Rattle.worm_mesh.specs.Address.{neighbour_of, node_count};
ghost use Rattle.worm_router.specs.Router.{input_at, leaving};

use super::Region;
use worm_flit::Flit;

impl Region {
    /// By which port the front flit of a channel may leave now, and as which flit.
    #[inline(always)]
    pub fn ready(&self, node: u8, port: u8, vc: u8) -> Option<(u8, Flit)>
        requires { IsThere (shape self.now) (Event.Send node port vc) }
        ensures { result ≡ leaving (router_at self.now node) port vc }
    {
        self.fabric.node(node).router.ready(port, vc)
    }

    /// The ready flit left by the output port `out` for another worker's node: a Send but for the link.
    pub fn sent(&mut self, node: u8, port: u8, vc: u8, out: u8, flit: Flit)
        requires there { IsThere (shape self.old) (Event.Send node port vc) }
        requires ready { leaving (router_at self.old node) port vc ≡ Some (out, flit) }
        requires crosses { EndsElsewhere (shape self.old) (owned self.old) node out }
        ensures { LetsOut self.old node port vc self.new }
    {
        self.fabric.router_mut(node).sent(port, vc);
    }

    /// The input channel owes one credit less, which goes to another worker's node: a GiveCredit but for the link.
    pub fn gave(&mut self, node: u8, port: u8, vc: u8)
        requires there { IsThere (shape self.old) (Event.GiveCredit node port vc) }
        requires owed { 0 < (input_at (router_at self.old node) port vc).owed }
        requires crosses { EndsElsewhere (shape self.old) (owned self.old) node port }
        ensures { LetsGive self.old node port vc self.new }
    {
        self.fabric.router_mut(node).gave(port, vc);
    }

    /// Whether a flit comes in by this port. One from another worker's node is taken off its queue where none does.
    pub fn has_flit_in(&self, node: u8, port: u8) -> bool
        requires { IsSome (neighbour_of self.now.mesh node port) }
        ensures { (result ≡ false) ↔ ((link_at self.now (link_into self.now node port)).flits ≡ []) }
    {
        self.fabric.wires().flits_in(node).contains(port)
    }

    /// Whether a credit comes back over the link out of this port.
    pub fn has_credit_back(&self, node: u8, port: u8) -> bool
        requires { IsSome (neighbour_of self.now.mesh node port) }
        ensures { (result ≡ false) ↔ ((link_at self.now (link_out self.now node port)).credits ≡ []) }
    {
        self.fabric.wires().credits_in(node).contains(port)
    }

    /// The flit comes in by this port, over a link from another worker's node on which there is none.
    pub fn arrive(&mut self, node: u8, port: u8, flit: Flit)
        requires crosses { EndsElsewhere (shape self.old) (owned self.old) node port }
        requires empty { (link_at self.old (link_into self.old node port)).flits ≡ [] }
        requires channel { flit.vc < sum self.old.channels }
        requires goal { flit.lane.dst < node_count self.old.mesh }
        ensures { ArrivesBy self.old node port flit self.new }
    {
        self.fabric.links.bring_flit(node, port, flit);
    }

    /// A credit of the channel, given by another worker's node, comes back by this port, by which none does.
    pub fn arrive_credit(&mut self, node: u8, port: u8, vc: u8)
        requires crosses { EndsElsewhere (shape self.old) (owned self.old) node port }
        requires empty { (link_at self.old (link_out self.old node port)).credits ≡ [] }
        requires channel { vc < sum self.old.channels }
        ensures { ComesBackBy self.old node port vc self.new }
    {
        self.fabric.links.bring_credit(node, port, vc);
    }
}
