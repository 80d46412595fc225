//! The configuration that a network is made from.

ghost use Rattle.std.specs.Prelude.{◌≡◌};
ghost use Rattle.worm_region.specs.State.{texts_of};

use arrayvec::{ArrayString, ArrayVec};

/// The name of a message class: a lower-case letter, then at most 15 lower-case letters or digits.
pub type Name = ArrayString<16>;

/// What a network is made from (Dally and Towles, chapters 5 and 13).
#[derive(Debug, Drop)]
pub struct Config {
    /// How many nodes there are along each dimension, each 2 to 16, the lowest dimension first: at most 256 in all.
    pub radices: ArrayVec<u8, 3>,
    /// How many flits each buffer holds, 1 to 16.
    pub depth: u8,
    /// The names of the message classes, 1 to 4 of them. A text in which two are the same is refused; here none looks.
    pub classes: ArrayVec<Name, 4>,
    /// How many channels each class owns on every link, one number for each class, each 1 to 8, at most 8 in all.
    pub channels: ArrayVec<u8, 4>,
}

pub(crate) fn copy_names(names: &ArrayVec<Name, 4>) -> ArrayVec<Name, 4>
    ensures { texts_of result.items ≡ texts_of names.now.items }
{
    let mut copies = ArrayVec::new();
    for name in names.as_slice() {
        let mut copy = Name::new();
        copy.push_str(name.as_str());
        copies.push(copy);
    }
    copies
}
