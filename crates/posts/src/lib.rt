// Posts: single pixels that hold a part from below, for resin machines. The call refuses, or works, and answers.
#![tactic(auto)]

pub mod layer;
pub mod scan;
pub mod stack;
pub mod taking;

ghost use Rattle.std.specs.Prelude.{◌≡◌, length};
ghost use Rattle.rules.specs.Calls.{posts_refusal};
ghost use Rattle.rules.specs.Outcomes.{Posts};

use rules::{Micrometres, Planned, Settings};

// The refusals of posts: 1 to 3, 20 for the radius, 4, 5 for the length of the posts, 7; 0 for none.
fn refusal(s: Settings, radius: Micrometres, part: &[u8], posts: usize) -> u8
    ensures { result ≡ posts_refusal s radius part.now posts }
{
    let a = limits::settings_refusal(s);
    if a != 0 {
        return a;
    }
    let pitch = s.pitch;
    if limits::reach_refusal(pitch, radius) != 0 {
        return 20;
    }
    let bytes = limits::stack_bytes(s);
    if part.len() != bytes {
        return 4;
    }
    if posts != bytes {
        return 5;
    }
    limits::padding_refusal(part, s.w, limits::rows_of(s), 7)
}

// Fills the posts of a part, or refuses and leaves the lent memory as it was.
pub fn posts(s: Settings, radius: Micrometres, part: &[u8], posts: &mut [u8]) -> Planned
    ensures { Posts s radius part.now posts.old result posts.new }
{
    let k = refusal(s, radius, part, posts.len());
    if k != 0 {
        return Planned::Refused(limits::with_part_row(k, s, part));
    }
    let q = limits::bound_of(s);
    let pitch = s.pitch;
    let r = limits::bound_by(pitch, radius);
    let rb = limits::row_bytes(s.w);
    crate::stack::stack(part, posts, s.w, s.h, s.n, rb, q, r);
    Planned::Done
}
