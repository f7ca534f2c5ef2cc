// Cleaning: planned support in which thin gaps are closed, for filament machines. The call refuses, or plans and cleans, and answers.
#![tactic(auto)]

pub mod closing;
pub mod far;
pub mod stack;

ghost use Rattle.rules.specs.Outcomes.{Cleans};
ghost use Rattle.clean.specs.Layers.{Early};

use rules::{Pixels, Planned, Settings};

// How far down the rows that are looked at reach by the radius of the disc: those with a pixel before row `some`, those that are full before
// row `full`.
#[derive(Clone, Copy)]
pub struct Till {
    pub some: usize,
    pub full: usize,
}

// Of a layer's support: whether it is that of the layer above, and whether it is empty.
#[derive(Clone, Copy)]
pub struct Compared {
    pub same: bool,
    pub empty: bool,
}

// The refusals that come before what planning tests: 1 to 3, 18 for the radius, 4, and 5 for the cleaned support's length; 0 for none.
fn refusal(s: Settings, c: Pixels, part: usize, clean: usize) -> u8
    ensures { Early s c part clean result }
{
    let a = limits::settings_refusal(s);
    if a != 0 {
        return a;
    }
    if 32 < c.0 {
        return 18;
    }
    let bytes = limits::stack_bytes(s);
    if part != bytes {
        return 4;
    }
    if clean != bytes {
        return 5;
    }
    0
}

// Plans a part, as the planning call does, and cleans its support: fills support, rings and cleaned support, or refuses and leaves all three as they were.
pub fn clean(
    s: Settings,
    c: Pixels,
    part: &[u8],
    support: &mut [u8],
    rings: &mut [u16],
    clean: &mut [u8],
) -> Planned
    ensures { Cleans s c part.now support.old rings.old clean.old result support.new rings.new clean.new }
{
    let k = refusal(s, c, part.len(), clean.len());
    if k != 0 {
        return Planned::Refused(limits::with_part_row(k, s, part));
    }
    let m = plan::fill(s, part, support, rings);
    if m != 0 {
        return Planned::Refused(limits::with_part_row(m, s, part));
    }
    let rb = limits::row_bytes(s.w);
    crate::stack::stack(part, support, clean, s.w, s.h, s.n, rb, c);
    Planned::Done
}
