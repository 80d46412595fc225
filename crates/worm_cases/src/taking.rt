//! A writer that takes little in a call, and fails.

use std::io;
use std::io::{ErrorKind, Write};

/// Takes more bytes in each call, or one, and fails once it has taken all that it has room for.
#[derive(Drop)]
pub struct Taking {
    /// What it has taken.
    pub taken: Vec<u8>,
    /// How many bytes more there is room for.
    pub room: usize,
    /// How many bytes the next call takes at most.
    pub next: usize,
    /// How many more each call takes than the one before.
    pub more: usize,
}

impl Write for Taking {
    fn write(&mut self, buf: &[u8]) -> io::Result<usize> {
        if self.room == 0 {
            return Err(io::Error::from(ErrorKind::Interrupted));
        }
        let count = self.next.min(self.room).min(buf.len());
        self.next = self.next.saturating_add(self.more);
        match self.taken.extend_from_slice(&buf[..count]) {
            Ok(()) => {
                self.room -= count;
                Ok(count)
            }
            Err(_) => Err(io::Error::from(ErrorKind::OutOfMemory)),
        }
    }

    fn flush(&mut self) -> io::Result<()> {
        Ok(())
    }
}
