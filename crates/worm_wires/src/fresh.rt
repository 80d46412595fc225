//! The links of a new network.

ghost use Rattle.std.specs.Prelude.{◌≡◌, IfOk, replicate};
ghost use Rattle.worm_wires.specs.Links.{empty_link};

use crate::LinkState;
use std::alloc::{AllocError, Global};

/// `count` links with nothing on them, each with room for `room` flits and `room` credits.
pub fn fresh_links(alloc: Global, count: u16, room: u16) -> Result<Vec<LinkState>, AllocError>
    ensures { IfOk result (λ v. v.items ≡ replicate count (empty_link room)) }
{
    let mut links = Vec::with_capacity(alloc, usize::from(count))?;
    for _number in 0..count {
        links.push(LinkState::new(alloc, room)?)?;
    }
    Ok(links)
}
