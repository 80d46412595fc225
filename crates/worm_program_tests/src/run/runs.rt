//! Runs of two texts on this thread, texts that are refused, and where two texts in one input are cut.

use crate::run::cases::{SHALLOW, are_equal, gives, has_status, is_refused, reports, run_reader};
use std::io;
use std::io::Read;
use std::test::Fail;
use worm_cases::{TWO_NODES, TWO_WORDS};
use worm_program::{ProgramFault, network_end};

/// Fails at its first read.
#[derive(Drop)]
struct Broken;

impl Read for Broken {
    fn read(&mut self, _buf: &mut [u8]) -> io::Result<usize> {
        Err(io::Error::from(io::ErrorKind::Interrupted))
    }
}

/// The place where two texts in one input are cut.
fn cut_of(text: &[u8]) -> usize {
    network_end(text)
}

#[test]
fn no_turn_offers_nothing(rt: HostRuntime) {
    reports(
        &rt,
        rt.alloc(),
        TWO_NODES,
        TWO_WORDS,
        (0, 0),
        "wormreport 1\nturns 0 workers 1 drain 0\nnot offered 1\ntotal injected 0 delivered 0 underway 0\n",
    );
}

#[test]
fn the_first_flit_arrives_in_the_first_turn(rt: HostRuntime) {
    reports(
        &rt,
        rt.alloc(),
        TWO_NODES,
        TWO_WORDS,
        (1, 0),
        "wormreport 1\n\
         turns 1 workers 1 drain 0\n\
         delivered 1 from 0 class 0 packet 0 flit 0 word 17\n\
         underway 0 1 class 0 packet 0 flit 1 source\n\
         not offered 0\n\
         total injected 2 delivered 1 underway 1\n",
    );
    reports(
        &rt,
        rt.alloc(),
        TWO_NODES,
        TWO_WORDS,
        (1, 5),
        "wormreport 1\n\
         turns 1 workers 1 drain 5\n\
         delivered 1 from 0 class 0 packet 0 flit 0 word 17\n\
         delivered 1 from 0 class 0 packet 0 flit 1 word 18\n\
         not offered 0\n\
         total injected 2 delivered 2 underway 0\n",
    );
}

#[test]
fn a_flit_waits_on_the_link_for_a_lower_node(rt: HostRuntime) {
    reports(
        &rt,
        rt.alloc(),
        TWO_NODES,
        b"wormtraffic 1\nsend 0 1 0 data 17 18\nend\n",
        (1, 0),
        "wormreport 1\n\
         turns 1 workers 1 drain 0\n\
         underway 1 0 class 0 packet 0 flit 0 link 1 0 0\n\
         underway 1 0 class 0 packet 0 flit 1 source\n\
         not offered 0\n\
         total injected 2 delivered 0 underway 2\n",
    );
}

#[test]
fn four_words_pass_buffers_of_one_flit(rt: HostRuntime) {
    reports(
        &rt,
        rt.alloc(),
        SHALLOW,
        b"wormtraffic 1\nsend 0 0 1 data 1 2 3 4\nend\n",
        (4, 0),
        "wormreport 1\n\
         turns 4 workers 1 drain 0\n\
         delivered 1 from 0 class 0 packet 0 flit 0 word 1\n\
         delivered 1 from 0 class 0 packet 0 flit 1 word 2\n\
         delivered 1 from 0 class 0 packet 0 flit 2 word 3\n\
         delivered 1 from 0 class 0 packet 0 flit 3 word 4\n\
         not offered 0\n\
         total injected 4 delivered 4 underway 0\n",
    );
}

#[test]
fn a_packet_for_its_own_node_arrives(rt: HostRuntime) {
    reports(
        &rt,
        rt.alloc(),
        TWO_NODES,
        b"wormtraffic 1\nsend 0 1 1 data 5\nend\n",
        (1, 0),
        "wormreport 1\n\
         turns 1 workers 1 drain 0\n\
         delivered 1 from 1 class 0 packet 0 flit 0 word 5\n\
         not offered 0\n\
         total injected 1 delivered 1 underway 0\n",
    );
}

/// Two texts of which one is refused, with the status and the line of the fault.
struct Refused {
    network: &'static [u8],
    traffic: &'static [u8],
    status: u8,
    line: &'static str,
}

const REFUSED: &[Refused] = &[
    Refused {
        network: b"",
        traffic: TWO_WORDS,
        status: 3,
        line: "wormrun: network line 1: no end",
    },
    // The last line has no line feed.
    Refused {
        network: b"wormnet 1\nradix 2\ndims 1\ndepth 2\nclass data\nend",
        traffic: TWO_WORDS,
        status: 3,
        line: "wormrun: network line 6: no end",
    },
    Refused {
        network: b"wormnet 1\nradix 2\ndims 1\ndepth 2\nclass data\nend\n\n",
        traffic: TWO_WORDS,
        status: 3,
        line: "wormrun: network line 7: after end",
    },
    Refused {
        network: TWO_NODES,
        traffic: b"wormtraffic 1\nclose 0 0 1 data\nsend 0 0 1 data 5\nend\n",
        status: 4,
        line: "wormrun: traffic line 3: lane closed",
    },
    Refused {
        network: TWO_NODES,
        traffic: b"wormtraffic 1\nsend 0 0 2 data 1\nend\n",
        status: 4,
        line: "wormrun: traffic line 2: range",
    },
    Refused {
        network: TWO_NODES,
        traffic: b"wormtraffic 1\nrecv 0 0 1 data\nend\n",
        status: 4,
        line: "wormrun: traffic line 2: unknown word",
    },
];

#[test]
fn faults_have_status_and_line(rt: HostRuntime) -> Result<(), Fail> {
    for case in REFUSED {
        let (status, line) = (case.status, case.line);
        is_refused(&rt, rt.alloc(), case.network, case.traffic, status, line)?;
    }
    Ok(())
}

#[test]
fn readers_that_fail_give_nothing(rt: HostRuntime) {
    let ran = run_reader(rt.alloc(), &mut Broken);
    gives(&rt, &ran, Err(ProgramFault::ReadNetwork), b"");
    has_status(&rt, ProgramFault::ReadNetwork, 5);
}

/// Two texts in one input, and the place where they are cut.
const JOINED: &[(&[u8], usize)] = &[
    (b"a\nend\nb\nend\n", 6),
    (b"end\nend\n", 4),
    (b"a\nend \n", 7),
    (b"a\nend", 5),
    (b"", 0),
];

#[test]
fn joined_texts_are_cut(rt: HostRuntime) {
    for (text, cut) in JOINED {
        are_equal(&rt, cut_of(text), *cut);
    }
}
