// The sections of a job file: its big-endian numbers, where sections end, the tests of reading, and what a file holds.
#![tactic(auto)]

pub mod numbers;
pub mod reading;
pub mod sizes;
