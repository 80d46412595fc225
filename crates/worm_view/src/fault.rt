//! How the program can fail.

ghost use Rattle.std.specs.Prelude.{◌≡◌, Some};
ghost use Rattle.worm_view.specs.Faults.{line_of, status_of};

use std::alloc::AllocError;
use std::fmt;
use worm_text::TextFault;

/// What ends the program before its picture is out.
#[derive(Clone, Copy, Debug, PartialEq, Eq)]
pub enum ViewFault {
    /// The network text was refused.
    Network(TextFault),
    /// The report was refused.
    Report(TextFault),
    /// The network text could not be read to its end, or was too long.
    ReadNetwork,
    /// The report could not be read to its end, or was too long.
    ReadReport,
    /// There was no memory.
    NoMemory,
    /// The writer failed or took nothing: a first part of what was drawn has gone out.
    Write,
}

impl From<AllocError> for ViewFault {
    ghost use Rattle.worm_view.specs.declared.fault.ViewFault.TheVariants.{NoMemory};

    ghost from_gives = { λ _ fault. fault ≡ NoMemory };

    fn from(_error: AllocError) -> ViewFault {
        ViewFault::NoMemory
    }
}

impl fmt::Display for ViewFault {
    ghost output = { λ fault. Some (line_of fault) };

    fn fmt<W: fmt::Write>(&self, f: &mut fmt::Formatter<W>) -> fmt::Result {
        match self {
            ViewFault::Network(fault) => {
                let TextFault { line, why } = *fault;
                write!(f, "wormview: network line {line}: {why}")
            }
            ViewFault::Report(fault) => {
                let TextFault { line, why } = *fault;
                write!(f, "wormview: report line {line}: {why}")
            }
            ViewFault::ReadNetwork => write!(f, "wormview: cannot read network"),
            ViewFault::ReadReport => write!(f, "wormview: cannot read report"),
            ViewFault::NoMemory => write!(f, "wormview: out of memory"),
            ViewFault::Write => write!(f, "wormview: picture not written"),
        }
    }
}

impl ViewFault {
    /// The status that the program ends with, 3 to 8.
    pub fn status(&self) -> u8
        ensures { result ≡ status_of self.now }
    {
        match self {
            ViewFault::Network(_) => 3,
            ViewFault::Report(_) => 4,
            ViewFault::ReadNetwork | ViewFault::ReadReport => 5,
            ViewFault::NoMemory => 6,
            ViewFault::Write => 8,
        }
    }
}
