//! The theory of wormhole networks with virtual channels (Dally and Towles, chapters 5, 8, 12, 13 and 16).
//!
//! One idea carries it: a channel stands between two packets, or within one whose last flit so far is known. A buffer
//! followed by what its link holds of the channel leads from where the buffer's reader stands to where the link's
//! writer stands. `Sound` says this and all else that each step keeps, place by place. The functions have empty
//! bodies: their contracts are the theorems. Arbiters, memory, threads and time are not known here.
#![tactic(auto)]

mod meshes;
mod networks;
mod parts;

pub use meshes::{
    is_a_mesh, lanes_move_once, packets_are_cut, places_are_entered, stays_cut, test_is_exact,
};
pub use networks::{
    buffers_fit, empty_is_sound, ends_only_grow, lanes_stay_cut, links_hold_worms, marks_come_last,
    others_stay_idle, packets_stay_cut, records_fit_open_packets, records_fit_their_channels,
    stays_sound, steps_lead_to_one,
};
pub use parts::{
    goes_between_parts, holds_again, joins, makes_a_whole, splits, stays_a_part, stays_in_parts,
};
