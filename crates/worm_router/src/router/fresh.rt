//! What a fresh router is made of: its lists, and what is worked out of the classes once.

ghost use Rattle.std.specs.Prelude.{◌≡◌, IfOk, replicate};
ghost use Rattle.worm_flit.specs.Channels.{AreChannels};
ghost use Rattle.worm_router.specs.Busy.{AreMasks};
ghost use Rattle.worm_router.specs.Router.{fresh_channel, free_output};

use crate::channel::InputChannel;
use std::alloc::{AllocError, Global};
use worm_flit::ClassChannels;
use worm_records::OutRecord;

/// For how many records more the last list has room: 128 bytes stay empty, since a processor may fetch two cache
/// lines together. The router made next may go to another worker, and no two workers write one line.
const APART: usize = 32;

pub(super) fn make_inputs(
    alloc: Global,
    count: usize,
    depth: u8,
) -> Result<Vec<InputChannel>, AllocError>
    ensures { IfOk result (λ v. v.items ≡ replicate count (fresh_channel depth)) }
{
    let mut inputs = Vec::with_capacity(alloc, count)?;
    for _i in 0..count {
        inputs.push(InputChannel::new(alloc, depth)?)?;
    }
    Ok(inputs)
}

pub(super) fn make_outputs(
    alloc: Global,
    count: usize,
    depth: u8,
) -> Result<Vec<OutRecord>, AllocError>
    ensures { IfOk result (λ v. v.items ≡ replicate count (free_output depth)) }
{
    let mut outputs = Vec::with_capacity(alloc, count.saturating_add(APART))?;
    for _i in 0..count {
        outputs.push(OutRecord {
            holder: None,
            credits: depth,
        })?;
    }
    Ok(outputs)
}

pub(super) fn class_masks(classes: &ClassChannels) -> [u8; 4]
    requires { AreChannels classes.now }
    ensures { AreMasks classes.now result }
{
    let mut masks = [0u8; 4];
    for class in 0..4u8 {
        masks[usize::from(class)] = classes.mask(class);
    }
    masks
}
