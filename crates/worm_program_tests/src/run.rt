//! `wormrun`: worked runs with their whole reports, faults with their statuses and lines, the words of the command
//! line, readers and writers that fail or give and take little, and the whole program.

mod cases;
mod faults;
mod huge;
mod runs;
mod stopped;
mod whole;
mod words;
mod worked;
mod workers;
mod writers;
