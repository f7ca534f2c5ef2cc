// Waves: the pixels of ring 1, then those of ring 2, and so on, by the rows that have something left.
#![tactic(auto)]

pub mod rows;
pub mod waves;

// What a wave did in a row: whether there are new pixels, and whether more are left.
#[derive(Clone, Copy)]
pub struct Gone {
    pub new: bool,
    pub more: bool,
}
