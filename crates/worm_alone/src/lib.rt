//! What `wormrun` does on one thread: both texts are read and accepted, their script is run on their network, and the
//! report goes out, over readers and a writer.
//!
//! It stands beside the crates of several workers and names none of them. A run by workers reads, accepts, drains and
//! reports by the calls here too.
#![tactic(auto)]

mod alone;
mod fault;
mod joined;
mod texts;
mod turns;

pub use alone::{not_offered, report_run, run_alone, run_joined};
pub use fault::ProgramFault;
pub use joined::network_end;
pub use texts::{Accepted, MOST_BYTES, Texts, accept, open, read_texts};
pub use turns::drain;
