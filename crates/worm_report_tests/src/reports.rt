//! Whole reports of worked networks, and writers that stop.

mod networks;
mod steps;
mod uneven;
mod whole;
mod writers;
