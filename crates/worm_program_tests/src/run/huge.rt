//! Texts of as many bytes as are read, and of one byte more.

use crate::run::cases::{Ran, are_equal, is_refusal, run_reader, run_readers};
use std::alloc::Global;
use std::io;
use std::io::Read;
use std::process::Abort;
use std::test::Fail;
use worm_cases::{TWO_NODES, TWO_WORDS};
use worm_program::MOST_BYTES;
use worm_text::{ReadFault, read_text};

/// The most bytes that a text may have.
const MOST: usize = 8_388_608;

/// Gives a number of bytes `x`.
#[derive(Drop)]
struct Crosses {
    left: usize,
}

impl Read for Crosses {
    fn read(&mut self, buf: &mut [u8]) -> io::Result<usize> {
        let count = self.left.min(buf.len());
        buf[..count].fill(b'x');
        self.left -= count;
        Ok(count)
    }
}

/// How many bytes are read of a reader that has so many.
fn length_read(alloc: Global, left: usize) -> Result<usize, ReadFault> {
    let text = read_text(alloc, &mut Crosses { left }, MOST_BYTES)?;
    Ok(text.len())
}

/// A reader that has so many bytes is read with this end.
fn reads(rt: &impl Abort, alloc: Global, left: usize, wanted: Result<usize, ReadFault>) {
    are_equal(rt, length_read(alloc, left), wanted);
}

#[test]
fn as_many_bytes_as_a_text_may_have_are_read(rt: HostRuntime) {
    reads(&rt, rt.alloc(), MOST, Ok(MOST));
    reads(&rt, rt.alloc(), MOST + 1, Err(ReadFault::Unreadable));
}

/// A run of a network's text of so many bytes.
fn run_network(alloc: Global, left: usize) -> Ran {
    let mut traffic = TWO_WORDS;
    run_readers(alloc, &mut Crosses { left }, &mut traffic, (1, 0))
}

#[test]
fn a_network_of_one_line(rt: HostRuntime) -> Result<(), Fail> {
    let ran = run_network(rt.alloc(), MOST);
    is_refusal(&rt, rt.alloc(), &ran, 3, "wormrun: network line 1: no end")?;
    let ran = run_network(rt.alloc(), MOST + 1);
    is_refusal(&rt, rt.alloc(), &ran, 5, "wormrun: cannot read network")
}

/// A run of traffic of so many bytes on two nodes.
fn run_traffic(alloc: Global, left: usize) -> Ran {
    let mut network = TWO_NODES;
    run_readers(alloc, &mut network, &mut Crosses { left }, (1, 0))
}

#[test]
fn traffic_of_one_line(rt: HostRuntime) -> Result<(), Fail> {
    let ran = run_traffic(rt.alloc(), MOST);
    is_refusal(&rt, rt.alloc(), &ran, 4, "wormrun: traffic line 1: no end")?;
    let ran = run_traffic(rt.alloc(), MOST + 1);
    is_refusal(&rt, rt.alloc(), &ran, 5, "wormrun: cannot read traffic")
}

#[test]
fn a_joined_input_of_one_line(rt: HostRuntime) -> Result<(), Fail> {
    let ran = run_reader(rt.alloc(), &mut Crosses { left: MOST });
    is_refusal(&rt, rt.alloc(), &ran, 3, "wormrun: network line 1: no end")?;
    let ran = run_reader(rt.alloc(), &mut Crosses { left: MOST + 1 });
    is_refusal(&rt, rt.alloc(), &ran, 5, "wormrun: cannot read network")
}
