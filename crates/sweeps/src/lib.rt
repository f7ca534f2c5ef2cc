// Rings by sweeps: marked pixels tell their neighbours, row by row, until no mark is left.
#![tactic(auto)]

pub mod levels;
pub mod marks;
pub mod sweeps;
pub mod visits;
