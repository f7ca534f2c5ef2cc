// Whether the rings of a row are good by themselves: ring 1 on one of the first pixels, a larger one beside the ring before it.
#![tactic(auto)]

pub mod bits;
pub mod eights;
pub mod marks;
pub mod steps;
pub mod words64;

// What 64 pixels whose rings are good tell: which of them have one, and a number that none of them exceeds.
#[derive(Clone, Copy)]
pub struct Told {
    pub got: u64,
    pub most: u16,
}

// What a row tells whose rings are good but for nearness: whether each pixel that hangs has one, and a number that none exceeds.
#[derive(Clone, Copy)]
pub struct Line {
    pub held: bool,
    pub most: u16,
}
