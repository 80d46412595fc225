//! The report of a network and of the run that led to it, as text: each flit that arrived, each flit under way and
//! where, and the sums (Dally and Towles, chapters 5, 12 and 13).
//!
//! A report is a list of rows, each a line. `specs/Report` lists the rows of a network, `specs/Rows` has the text of
//! each, and the code makes the same rows one after another. So a proof about the text is one about a list.
//!
//! Where a writer fails or memory runs out, a first part of the text has gone out; where both do, the answer is
//! `Write`. Only tests show that `Write` comes from a writer that failed: a writer says nothing of its failures.
#![tactic(auto)]

mod line;
mod page;
mod report;
mod row;
mod summary;
mod writing;

pub use report::write_report;
pub use summary::{ReportFault, Summary};
pub use writing::write_bytes;
