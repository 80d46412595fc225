//! What one worker has of a network: its own nodes, and its ends of the links that it shares with other workers.

ghost use Rattle.std.specs.Prelude.{◌≡◌};
ghost use Rattle.worm_split.specs.Apart.{IsKept};
ghost use Rattle.worm_split.specs.PartState.{IsPart};

use crate::apart::TakenApart;
use crate::ends::{End, EndPair};
use std::marker::Model;
use std::snapshot::Snapshot;
use worm_core::{Net, Region};

/// What one worker has of a network that was split.
pub struct Part {
    /// The network of its nodes. Fresh ones stand in the places of those of other workers, and are not looked at.
    pub(crate) region: Region,
    /// Its ends by link number.
    pub(crate) ends: Vec<End>,
    /// The network that was split.
    pub(crate) opening: Snapshot<Net>,
    /// Both ends of each link, as they were made.
    pub(crate) pairs: Snapshot<Vec<EndPair>>,
    /// The network taken apart, which the last worker keeps till it is joined.
    pub(crate) kept: Option<TakenApart>,
}

impl Drop for Part {
    /// Written out, so that who lets a part go calls this: a derived one is proved anew in each crate.
    fn drop(self) {
        let Part {
            region: _,
            ends: _,
            opening: _,
            pairs: _,
            kept: _,
        } = self;
    }
}

/// A part taken apart.
#[derive(Drop)]
pub(crate) struct Pieces {
    pub(crate) region: Region,
    pub(crate) ends: Vec<End>,
    pub(crate) kept: Option<TakenApart>,
}

impl Part {
    pub(crate) fn into_pieces(self) -> Pieces
        ensures net { result.region ≡ self.net }
        ensures ends { result.ends.items ≡ self.ends }
        ensures part { IsPart self }
        ensures kept { IsKept self.opening self.net.own result.kept }
    {
        let Part {
            region,
            ends,
            opening: _,
            pairs: _,
            kept,
        } = self;
        Pieces { region, ends, kept }
    }
}

impl Model for Part {
    ghost use Rattle.worm_split.specs.PartState.{PartState, IsPart, part_state};
    ghost use Rattle.worm_split.specs.Apart.{IsKept};

    ghost Value = { PartState };

    ghost view = { λ p. part_state p.region p.ends.items p.opening.value p.pairs.value.items };

    ghost invariant = { λ p. IsPart (part_state p.region p.ends.items p.opening.value p.pairs.value.items) ×
        IsKept p.opening.value p.region.own p.kept };
}
