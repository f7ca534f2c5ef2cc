// Rows of up to 256 pixels as four words of 64 bits, column 0 being the highest bit of the first word.
#![tactic(auto)]

pub mod bytes;
pub mod ones;
pub mod rows;
pub mod single;

// A row of up to 256 pixels; what is behind its end is 0.
#[derive(Clone, Copy)]
pub struct Row {
    pub a: u64,
    pub b: u64,
    pub c: u64,
    pub d: u64,
}

// The same row of two layers.
#[derive(Clone, Copy)]
pub struct Two {
    pub low: Row,
    pub up: Row,
}
