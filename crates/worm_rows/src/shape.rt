//! What a report is held against of a network.

ghost use Rattle.std.specs.Prelude.{◌≡◌, ◌≤◌, sum};
ghost use Rattle.worm_mesh.specs.Address.{node_count};

use worm_core::Config;
use worm_mesh::Mesh;

/// The shape of a network: its mesh, and how many classes and channels it has.
#[derive(Clone, Copy, Debug)]
pub struct Shape {
    /// The nodes, and which of them are neighbours.
    pub mesh: Mesh,
    /// The classes, 1 to 4.
    pub classes: u8,
    /// The channels of all classes on every link, 1 to 8.
    pub vcs: u8,
    pub ghost few_nodes: { node_count mesh ≤ 256 },
    pub ghost few_classes: { classes ≤ 4 },
    pub ghost few_channels: { vcs ≤ 8 },
}

fn total(channels: &[u8]) -> u8
    requires few { sum channels.now ≤ 8 }
    ensures { result ≡ sum channels.now }
{
    channels.iter().map(|m| u32::from(*m)).sum::<u32>() as u8
}

impl Shape {
    ghost use Rattle.std.specs.Prelude.{◌≡◌, length};
    ghost use Rattle.worm_text.specs.Network.{Keeps, view};
    ghost use Rattle.worm_text.specs.declared.format.Format.{Format};

    /// The shape of the network that a network text says.
    pub fn of(config: &Config) -> Shape
        requires { (f : Format) × Keeps f (view config.now) }
        ensures mesh { result.mesh ≡ config.now.radices.items }
        ensures classes { result.classes ≡ length config.now.classes.items }
        ensures vcs { result.vcs ≡ sum config.now.channels.items }
    {
        let mesh = match Mesh::new(config.radices.as_slice()) {
            Ok(mesh) => mesh,
            Err(_) => unreachable!(),
        };
        let _nodes = mesh.nodes();
        Shape {
            mesh,
            classes: config.classes.len() as u8,
            vcs: total(config.channels.as_slice()),
        }
    }
}
