//! The lines that wait to be written together: a writer is called once a page, and not once a line.

ghost use Rattle.std.specs.Prelude.{◌≡◌, ◌++◌, [], List, ℕ, IfOk, IfErr, OnOk, OnErr, length, nat_le};
ghost use Rattle.worm_report.specs.Rows.{row_text};

use crate::line::{Line, ROOM};
use crate::row::Row;
use crate::summary::ReportFault;
use std::alloc::Global;
use std::marker::Model;

const FULL: usize = 32768;

/// Lines that the writer has yet to be given.
#[derive(Drop)]
pub struct Page {
    bytes: Vec<u8>,
    line: Line,
}

impl Model for Page {
    ghost Value = { List ℕ };

    ghost view = { λ s. s.bytes.items };
}

impl Page {
    /// An empty page. It has room for a full page and one line more, so that lines put on it ask for no memory.
    pub fn new(alloc: Global) -> Result<Page, ReportFault>
        ensures ok { IfOk result (λ page. page ≡ []) }
        ensures err { IfErr result (λ fault. fault ≡ ReportFault.NoMemory) }
    {
        match Vec::with_capacity(alloc, FULL + ROOM) {
            Ok(bytes) => Ok(Page {
                bytes,
                line: Line::new(),
            }),
            Err(_) => Err(ReportFault::NoMemory),
        }
    }

    /// Its bytes.
    pub fn as_bytes(&self) -> &[u8]
        ensures { result.now ≡ self.now }
    {
        self.bytes.as_slice()
    }

    /// Whether it is to be written before the next line.
    pub fn is_full(&self) -> bool
        ensures { result ≡ nat_le 32768 (length self.now) }
    {
        self.bytes.len() >= FULL
    }

    /// An empty page again, in the same room.
    pub fn clear(&mut self)
        ensures { self.new ≡ [] }
    {
        self.bytes.clear();
    }

    /// Puts the line of a row after the others. `NoMemory` where there is no room for it.
    pub fn add(&mut self, row: Row) -> Result<(), ReportFault>
        ensures ok { OnOk result (self.new ≡ self.old ++ row_text row) }
        ensures err { OnErr result (self.new ≡ self.old) }
        ensures fault { IfErr result (λ fault. fault ≡ ReportFault.NoMemory) }
    {
        self.line.set(row);
        match self.bytes.extend_from_slice(self.line.as_bytes()) {
            Ok(()) => Ok(()),
            Err(_) => Err(ReportFault::NoMemory),
        }
    }
}
