//! Worked runs, their reports known from the rules of the network.

use crate::run::cases::{answers, are_equal, gives, is_refused, reports, run_pair, run_reader};
use std::alloc::{AllocError, Global};
use std::io::Write;
use std::process::Abort;
use std::sync::Wait;
use std::test::Fail;
use std::thread::Threads;
use worm_cases::{
    THREE_BY_TWO, TWO_CHANNELS, TWO_NODES, TWO_NODES_AND_WORDS, TWO_WORDS, WORD_AND_MARK,
};
use worm_program::{ProgramFault, run_alone};

#[test]
fn two_sources_share_a_channel_packet_by_packet(rt: HostRuntime) {
    reports(
        &rt,
        rt.alloc(),
        b"wormnet 1\nradix 3\ndims 1\ndepth 2\nclass data\nend\n",
        b"wormtraffic 1\nsend 0 0 2 data 1 2\nsend 0 1 2 data 3 4\nend\n",
        (4, 0),
        "wormreport 1\n\
         turns 4 workers 1 drain 0\n\
         delivered 2 from 0 class 0 packet 0 flit 0 word 1\n\
         delivered 2 from 0 class 0 packet 0 flit 1 word 2\n\
         delivered 2 from 1 class 0 packet 0 flit 0 word 3\n\
         delivered 2 from 1 class 0 packet 0 flit 1 word 4\n\
         not offered 0\n\
         total injected 4 delivered 4 underway 0\n",
    );
}

#[test]
fn two_classes_share_a_link_flit_by_flit(rt: HostRuntime) {
    reports(
        &rt,
        rt.alloc(),
        b"wormnet 1\nradix 3\ndims 1\ndepth 2\nclass a\nclass b\nend\n",
        b"wormtraffic 1\nsend 0 0 2 a 1 2\nsend 0 1 2 b 3 4\nend\n",
        (4, 0),
        "wormreport 1\n\
         turns 4 workers 1 drain 0\n\
         delivered 2 from 0 class 0 packet 0 flit 0 word 1\n\
         delivered 2 from 1 class 1 packet 0 flit 0 word 3\n\
         delivered 2 from 0 class 0 packet 0 flit 1 word 2\n\
         delivered 2 from 1 class 1 packet 0 flit 1 word 4\n\
         not offered 0\n\
         total injected 4 delivered 4 underway 0\n",
    );
}

#[test]
fn a_close_mark_arrives_last(rt: HostRuntime) {
    reports(
        &rt,
        rt.alloc(),
        TWO_NODES,
        WORD_AND_MARK,
        (1, 0),
        "wormreport 1\n\
         turns 1 workers 1 drain 0\n\
         delivered 1 from 0 class 0 packet 0 flit 0 word 5\n\
         underway 0 1 class 0 packet 1 flit 0 source\n\
         not offered 0\n\
         total injected 2 delivered 1 underway 1\n",
    );
    reports(
        &rt,
        rt.alloc(),
        TWO_NODES,
        WORD_AND_MARK,
        (2, 0),
        "wormreport 1\n\
         turns 2 workers 1 drain 0\n\
         delivered 1 from 0 class 0 packet 0 flit 0 word 5\n\
         delivered 1 from 0 class 0 packet 1 close\n\
         not offered 0\n\
         total injected 2 delivered 2 underway 0\n",
    );
}

#[test]
fn packets_of_a_class_with_two_channels_arrive(rt: HostRuntime) -> Result<(), Fail> {
    reports(
        &rt,
        rt.alloc(),
        TWO_CHANNELS,
        b"wormtraffic 1\nsend 0 0 1 data 1 2\nsend 0 0 1 data 3\nend\n",
        (3, 0),
        "wormreport 1\n\
         turns 3 workers 1 drain 0\n\
         delivered 1 from 0 class 0 packet 0 flit 0 word 1\n\
         delivered 1 from 0 class 0 packet 0 flit 1 word 2\n\
         delivered 1 from 0 class 0 packet 1 flit 0 word 3\n\
         not offered 0\n\
         total injected 3 delivered 3 underway 0\n",
    );
    is_refused(
        &rt,
        rt.alloc(),
        TWO_CHANNELS,
        b"wormtraffic 1\nclose 0 0 1 data\nend\n",
        4,
        "wormrun: traffic line 2: many channels",
    )
}

#[test]
fn dimensions_have_radices_of_their_own(rt: HostRuntime) {
    reports(
        &rt,
        rt.alloc(),
        THREE_BY_TWO,
        b"wormtraffic 1\nsend 0 0 5 data 9\nend\n",
        (1, 0),
        "wormreport 1\n\
         turns 1 workers 1 drain 0\n\
         delivered 5 from 0 class 0 packet 0 flit 0 word 9\n\
         not offered 0\n\
         total injected 1 delivered 1 underway 0\n",
    );
    reports(
        &rt,
        rt.alloc(),
        THREE_BY_TWO,
        b"wormtraffic 1\nsend 0 5 0 data 9\nend\n",
        (1, 0),
        "wormreport 1\n\
         turns 1 workers 1 drain 0\n\
         underway 5 0 class 0 packet 0 flit 0 link 5 0 0\n\
         not offered 0\n\
         total injected 1 delivered 0 underway 1\n",
    );
}

#[test]
fn a_joined_input_runs_a_hundred_turns(rt: HostRuntime) {
    let mut input = TWO_NODES_AND_WORDS;
    let ran = run_reader(rt.alloc(), &mut input);
    gives(
        &rt,
        &ran,
        Ok(()),
        b"wormreport 1\n\
          turns 100 workers 1 drain 0\n\
          delivered 1 from 0 class 0 packet 0 flit 0 word 17\n\
          delivered 1 from 0 class 0 packet 0 flit 1 word 18\n\
          not offered 0\n\
          total injected 2 delivered 2 underway 0\n",
    );
}

/// The line in which, or before which, a text of these bytes was cut.
fn cut_line(bytes: &[u8]) -> usize {
    let mut line: usize = 1;
    for byte in bytes {
        if *byte == b'\n' {
            line = line.saturating_add(1);
        }
    }
    line
}

/// What the program says of a text that is cut to these bytes.
fn no_end(alloc: Global, text: &str, cut: &[u8]) -> Result<String, AllocError> {
    let line = cut_line(cut);
    format!(in alloc; "wormrun: {text} line {line}: no end")
}

/// The network text that is cut before its end is refused.
fn cut_networks_are_refused(
    rt: &(impl Abort + Threads + Wait + Sync),
    alloc: Global,
) -> Result<(), Fail> {
    for length in 0..TWO_NODES.len() {
        let cut = &TWO_NODES[..length];
        let line = no_end(alloc, "network", cut)?;
        is_refused(rt, alloc, cut, TWO_WORDS, 3, line.as_str())?;
    }
    Ok(())
}

/// The traffic text that is cut before its end is refused.
fn cut_traffic_is_refused(
    rt: &(impl Abort + Threads + Wait + Sync),
    alloc: Global,
) -> Result<(), Fail> {
    for length in 0..TWO_WORDS.len() {
        let cut = &TWO_WORDS[..length];
        let line = no_end(alloc, "traffic", cut)?;
        is_refused(rt, alloc, TWO_NODES, cut, 4, line.as_str())?;
    }
    Ok(())
}

#[test]
fn a_cut_text_has_no_end(rt: HostRuntime) -> Result<(), Fail> {
    cut_networks_are_refused(&rt, rt.alloc())?;
    cut_traffic_is_refused(&rt, rt.alloc())
}

/// What a run of one turn answers to this writer.
fn run_into<W: Write>(alloc: Global, out: &mut W) -> Result<(), ProgramFault> {
    let mut network = TWO_NODES;
    let mut traffic = TWO_WORDS;
    run_alone(alloc, &mut network, &mut traffic, 1, 0, out)
}

#[test]
fn each_short_writer_takes_what_fits(rt: HostRuntime) {
    let whole = run_pair(rt.alloc(), TWO_NODES, TWO_WORDS, (1, 0));
    answers(&rt, whole.answer, Ok(()));
    let mut room = [0u8; 200];
    for taken in 0..whole.report.len().min(200) {
        let mut out = &mut room[..taken];
        let answer = run_into(rt.alloc(), &mut out);
        answers(&rt, answer, Err(ProgramFault::Write));
        are_equal(&rt, &room[..taken], &whole.report.as_slice()[..taken]);
    }
}
