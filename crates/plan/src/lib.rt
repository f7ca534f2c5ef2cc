// Planning: support and ring numbers of a stack, from the top layer down. The call refuses, or works, and answers.
#![tactic(auto)]

pub mod stack;

ghost use Rattle.rules.specs.Outcomes.{Plans};
ghost use Rattle.plan.specs.CallLaws.{Planning};

use rules::{Planned, Settings};

// Plans a part: fills support and rings, or leaves both as they were; the number of the refusal, 0 for none.
pub fn fill(s: Settings, part: &[u8], support: &mut [u8], rings: &mut [u16]) -> u8
    ensures { Planning s part.now support.old rings.old result support.new rings.new }
{
    let k = limits::stack_refusal(s, true, part, support.len(), rings.len());
    if k != 0 {
        return k;
    }
    let q = limits::bound_of(s);
    let rb = limits::row_bytes(s.w);
    crate::stack::stack(part, support, rings, s.w, s.h, s.n, rb, q, true);
    0
}

// Plans a part: fills support and rings, or refuses and leaves both as they were.
pub fn plan(s: Settings, part: &[u8], support: &mut [u8], rings: &mut [u16]) -> Planned
    ensures { Plans s part.now support.old rings.old result support.new rings.new }
{
    let number = fill(s, part, support, rings);
    if number != 0 {
        return Planned::Refused(limits::with_part_row(number, s, part));
    }
    Planned::Done
}
