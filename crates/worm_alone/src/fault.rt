//! How the program can fail.

ghost use Rattle.std.specs.Prelude.{◌≡◌, Some};
ghost use Rattle.worm_alone.specs.Faults.{line_of, status_of};

use std::fmt;
use worm_text::TextFault;

/// What ends the program before its report is out.
#[derive(Clone, Copy, Debug, PartialEq, Eq)]
pub enum ProgramFault {
    /// There are more workers than nodes.
    Workers,
    /// The network text was refused.
    Network(TextFault),
    /// The traffic text was refused.
    Traffic(TextFault),
    /// The network text could not be read to its end, or was too long.
    ReadNetwork,
    /// The traffic text could not be read to its end, or was too long.
    ReadTraffic,
    /// There was no memory, and no writer failed.
    NoMemory,
    /// The thread of this worker, counted from 0, could not be started.
    NotStarted { worker: usize },
    /// The writer failed or took nothing: a first part of the report has gone out.
    Write,
}

impl fmt::Display for ProgramFault {
    ghost output = { λ fault. Some (line_of fault) };

    fn fmt<W: fmt::Write>(&self, f: &mut fmt::Formatter<W>) -> fmt::Result {
        match self {
            ProgramFault::Workers => write!(f, "wormrun: more workers than nodes"),
            ProgramFault::Network(fault) => {
                let TextFault { line, why } = *fault;
                write!(f, "wormrun: network line {line}: {why}")
            }
            ProgramFault::Traffic(fault) => {
                let TextFault { line, why } = *fault;
                write!(f, "wormrun: traffic line {line}: {why}")
            }
            ProgramFault::ReadNetwork => write!(f, "wormrun: cannot read network"),
            ProgramFault::ReadTraffic => write!(f, "wormrun: cannot read traffic"),
            ProgramFault::NoMemory => write!(f, "wormrun: out of memory"),
            ProgramFault::NotStarted { worker } => {
                let worker = *worker;
                write!(f, "wormrun: worker {worker} not started")
            }
            ProgramFault::Write => write!(f, "wormrun: report not written"),
        }
    }
}

impl ProgramFault {
    /// The status that the program ends with, 2 to 8.
    pub fn status(&self) -> u8
        ensures { result ≡ status_of self.now }
    {
        match self {
            ProgramFault::Workers => 2,
            ProgramFault::Network(_) => 3,
            ProgramFault::Traffic(_) => 4,
            ProgramFault::ReadNetwork | ProgramFault::ReadTraffic => 5,
            ProgramFault::NoMemory => 6,
            ProgramFault::NotStarted { .. } => 7,
            ProgramFault::Write => 8,
        }
    }
}
