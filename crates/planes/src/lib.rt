// Planes in scratch: rows of words with empty rows above and below. A plane has 1,610 words, 322 rows of five; row 33 is the image's
// first.
#![tactic(auto)]

pub mod nearness;
pub mod rows;
