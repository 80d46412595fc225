//! Reports, read from their text: the rows of a run of a network, each a line.
//!
//! What rows say has one text. So a text is accepted exactly where it is the text of the answer, and the answer is a
//! report of a network of this shape. Else, unless memory runs out, the answer is the first fault and its line.
//!
//! `specs/Rows` writes the text of rows. `specs/Rules` says which are a report: their order, ranges, places and sums.
//! `specs/Reading` judges one line after another, as the code does. No reader can know that a report is of a run, or
//! of this network and not of another of its shape.
#![tactic(auto)]

mod fields;
mod lines;
mod report;
mod rows;
mod shape;
mod standing;

pub use report::read_report;
pub use rows::{Load, PacketId, Row};
pub use shape::Shape;
