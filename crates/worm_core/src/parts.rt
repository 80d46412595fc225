//! A network taken apart into its nodes and links, as its workers hold them, and put together again.

ghost use Rattle.std.specs.Prelude.{◌≡◌};
ghost use Rattle.worm_region.specs.Parts.{IsConfigOf, parts_state};
ghost use Rattle.worm_region.specs.State.{IsNet};

use crate::{Config, Net, NetParts, Owner};
use worm_region::Region;

impl Net {
    /// The configuration that the network was made from.
    pub fn config(&self) -> Config
        ensures { IsConfigOf self.now result }
    {
        self.fabric().config()
    }

    /// The network's parts. It takes no memory.
    pub fn into_parts(self) -> NetParts
        ensures parts { parts_state result ≡ self }
        ensures sound { IsNet (parts_state result) }
    {
        self.into_region().into_parts()
    }

    /// The network of these parts, all together sound, as `into_parts` gives them. It takes no memory.
    pub fn from_parts(parts: NetParts) -> Net
        requires { IsNet (parts_state parts) }
        ensures { result ≡ parts_state parts }
    {
        Net::of(Region::from_parts(parts, Owner::sole()))
    }
}
