// The first overlap of a stack: by whole bytes where there is none, and then by bits. And what all searches of the checker share.
#![tactic(auto)]

pub mod bits;
pub mod overlaps;
