//! Workers that wait for those beside them.

use crate::cases::opposite;
use worm_run::{Gate, Paced};

#[test]
fn two_paced_workers_end_all_turns(rt: HostRuntime) {
    let gate = Paced::new(&rt, 2);
    let ran = opposite(rt, &[4, 4], 15).run(2, 50, &gate);
    ran.ended(&[], &[50, 50]).settled().has_delivered(48);
}

#[test]
fn sixteen_paced_workers_end_all_turns(rt: HostRuntime) {
    let gate = Paced::new(&rt, 16);
    let ran = opposite(rt, &[4, 4], 15).run(16, 50, &gate);
    ran.ended(&[], &[50; 16]).settled().has_delivered(48);
}

#[test]
fn a_worker_passes_where_no_other_comes(rt: HostRuntime) {
    let gate = Paced::new(&rt, 16);
    for turn in 0u64..5 {
        assert!(rt; gate.pass(3, turn));
    }
}
