//! What the standard input asks for.

use crate::trials::Trial;
use std::io::Read;

/// Reads the line with the trial's name, without a request for memory.
pub fn read_asked<R: Input>(rt: &R) -> Option<Trial> {
    let mut line = [0u8; 64];
    let mut input = rt.reader();
    let count = input.read(&mut line).ok()?;
    Trial::named(str::from_utf8(&line[..count]).ok()?.trim_end())
}
