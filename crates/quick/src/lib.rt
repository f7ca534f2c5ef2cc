// Whether a pair of layers, or a stack, has no bad ring and no unheld pixel: by rows of words, without telling where. Only a yes is relied
// on: after a no the pixels are looked at one by one.
#![tactic(auto)]

pub mod layers;
pub mod looks;
pub mod pair;
pub mod rows;
pub mod stack;

use words::Row;

// What is sure of a pair: that no ring is bad, and that nothing is unheld.
#[derive(Clone, Copy)]
pub struct Sure {
    pub rings: bool,
    pub held: bool,
}

// What the bytes of a pair tell, joined: its shadow, and the support that hangs over neither part nor support.
#[derive(Clone, Copy)]
pub struct Seen {
    pub shadow: u8,
    pub hung: u8,
}

// What a row tells whose rings are good but for nearness: whether each pixel that hangs has one, and in `far` the pixels whose ring may be
// far.
#[derive(Clone, Copy)]
pub struct Passed {
    pub held: bool,
    pub far: Row,
}
