//! Round-robin arbiters, and on them the allocator of output channels (Dally and Towles, chapters 18 and 19).
//!
//! [`VcAlloc`] makes one pass over the output ports and their channels, both rising. Each free one goes to the
//! requester that its [`Arbiter`] picks. The code files those that wait by output port and by channel, a word each,
//! and goes to these ports alone. A pass need not be fair over turns, nor its matching a largest one.
#![tactic(auto)]

mod arbiter;
mod asked;
mod channel_map;
mod channel_set;
mod request;
mod rows;
mod vc_alloc;

pub use arbiter::Arbiter;
pub use channel_map::ChannelMap;
pub use channel_set::ChannelSet;
pub use request::{VcRequest, VcRequests};
pub use vc_alloc::{FreeChannels, VcAlloc, VcGrants};
