// The first bad ring and the first unheld pixel of a stack: pair by pair, and only where the quick test is not sure pixel by pixel.
#![tactic(auto)]

pub mod leaning;
pub mod pixels;
pub mod search;
