//! The configuration of a fabric. Its lists have room in themselves, so it takes no memory.

ghost use Rattle.std.specs.Prelude.{◌≡◌};
ghost use Rattle.worm_region.specs.Parts.{IsConfigOf};

use super::Fabric;
use crate::Config;
use crate::config::copy_names;
use arrayvec::ArrayVec;
use worm_flit::ClassChannels;
use worm_mesh::Mesh;

pub(crate) fn radices_of(mesh: &Mesh) -> ArrayVec<u8, 3>
    ensures { result.items ≡ mesh.now }
{
    let mut radices = ArrayVec::new();
    for d in 0..mesh.dims() {
        radices.push(mesh.radix(d));
    }
    radices
}

pub(crate) fn counts_of(classes: &ClassChannels) -> ArrayVec<u8, 4>
    ensures { result.items ≡ classes.now }
{
    let mut counts = ArrayVec::new();
    for class in 0..classes.classes() {
        counts.push(classes.count(class));
    }
    counts
}

impl Fabric {
    /// The configuration.
    pub fn config(&self) -> Config
        ensures { IsConfigOf self.now result }
    {
        Config {
            radices: radices_of(self.links.wiring().mesh()),
            depth: self.depth,
            classes: copy_names(&self.names),
            channels: counts_of(&self.classes),
        }
    }
}
