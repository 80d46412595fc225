//! The texts that a run begins from, read from bytes: a network of the mesh (Dally and Towles, chapters 5 and 13) in
//! two formats, and the traffic that its sources are to offer. Nothing here opens a file or joins texts.
//!
//! A text is lines, each ended by a line feed; a line is fields, parted by single spaces. What is said has at most
//! one text in a format, and a text is accepted exactly where it is a text of the answer. Else, unless memory runs
//! out, the answer is the first fault, fields taken from the left, and its line.
//!
//! The crate says twice what a text is, and proves that both agree. `specs/Network` and `specs/TrafficText` write the
//! text of a value. `specs/Stages` and `specs/Traffic` judge one line after another, as the code does.
#![tactic(auto)]

mod fault;
mod fields;
mod format;
mod key;
mod network;
mod reading;
mod traffic;

pub use fault::{TextFault, Why};
pub use fields::{Fields, cut_first};
pub use format::Format;
pub use network::read_network;
pub use reading::{ReadFault, read_text};
pub use traffic::read_traffic;
