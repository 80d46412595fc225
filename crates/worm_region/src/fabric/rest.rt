//! Whether a node rests: its source has nothing to feed, and its router has nothing to do.

ghost use Rattle.std.specs.Prelude.{ℕ, ◌≡◌, ◌<◌, IsTrue, false, length};
ghost use Rattle.worm_mesh.specs.Address.{node_count};
ghost use Rattle.worm_router.specs.Router.{terminal};
ghost use Rattle.worm_term.specs.Source.{front_of};
ghost use Rattle.worm_node.specs.Node.{can_enter};
ghost use Rattle.worm_region.specs.State.{router_at, source_at};
ghost use Rattle.worm_region.specs.Workable.{IsWorkable};
ghost use Rattle.worm_region.specs.Resting.{IsResting, nth_node};

use super::Fabric;

impl Fabric {
    fn feeds_nothing(&self, node: u8) -> bool
        requires sound { IsWorkable self.now }
        requires node { node < node_count self.now.mesh }
        ensures { IsTrue result → (k : ℕ) → k < length self.now.channels →
            can_enter (router_at self.now node) (terminal (router_at self.now node))
            (front_of (source_at self.now node) k) ≡ false }
    {
        let terminal = self.terminal();
        let here = self.node(node);
        for class in 0..self.classes.classes() {
            if here.can_feed(class, terminal) {
                return false;
            }
        }
        true
    }

    /// Whether the node is at rest. False tells nothing. What is found is kept until the node changes.
    pub(crate) fn is_resting(&mut self, node: u8) -> bool
        requires sound { IsWorkable self.old }
        requires node { node < node_count self.old.mesh }
        ensures resting { IsTrue result → IsResting (nth_node self.old.nodes node) }
        ensures same { self.new ≡ self.old }
    {
        if self.nodes.is_resting(node) {
            return true;
        }
        if !self.node(node).router.is_at_rest() || !self.feeds_nothing(node) {
            return false;
        }
        self.nodes.keep_resting(node);
        true
    }
}
