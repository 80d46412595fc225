//! The allocator of the switch: which ready input channels send in a turn (Dally and Towles, chapter 19).
//!
//! It is separable and input first: the arbiter of each input port names one ready channel, then the arbiter of each
//! output port chooses among the input ports that named it. An output arbiter moves at its choice, an input arbiter
//! only where it was granted: a channel named in vain is named again. A pass looks only at what is ready and asked
//! for. There is no second pass for the ports left over, so the matching need not be a largest one.
#![tactic(auto)]

mod grant;
mod named;
mod ready;
mod sw_alloc;

pub use grant::{ReadyOuts, SwGrant, SwGrants, SwMatching};
pub use ready::Ready;
pub use sw_alloc::SwAlloc;
