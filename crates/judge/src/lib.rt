// The checker: the call and its verdict.
#![tactic(auto)]

ghost use Rattle.std.specs.Prelude.{◌≡◌, false, ◌-◌, ◌*◌, ◌/◌, ◌%◌, ◌<◌, ◌≤◌, length};
ghost use Rattle.rules.specs.Images.{rows_of, stack_bytes, padding_set, rings_in, pixel};
ghost use Rattle.rules.specs.Reach.{bound_of};
ghost use Rattle.rules.specs.Judging.{unheld_number, place_of, verdict_of};
ghost use Rattle.rules.specs.Outcomes.{Judges};
ghost use Rattle.laws.specs.Limits.{Ranged};
ghost use Rattle.places.specs.Search.{Sized};

use rules::{Judged, Place, Refusal, Settings};

fn place_of(x: usize, w: usize, h: usize, up: usize) -> Place
    requires { Sized w h × ((x < 4294967296) × (up ≤ 1)) }
    ensures { result ≡ place_of w h up x }
{
    Place {
        layer: x / (h * w) + up,
        row: x / w % h,
        column: x % w,
    }
}

// The number of an unheld pixel, read off the part in the layer that is told: 11 where it is of the part, and 19 where it is of the support.
fn unheld_number(s: Settings, part: &[u8], u: usize) -> u8
    requires { Ranged s × ((length part.now ≡ stack_bytes s) × (u < (s.n - 1) * (s.h * s.w))) }
    ensures { result ≡ unheld_number (pixel s.w s.h part.now) (u / (s.h * s.w)) (u % (s.h * s.w)) }
{
    let w = s.w;
    let row = u / w + s.h;
    if places::bits::pixel_at(part, row * limits::row_bytes(w), u % w) {
        11
    } else {
        19
    }
}

// What is found in a stack that is not refused: overlap anywhere before any bad ring, and any bad ring before any unheld pixel.
// Most stacks are accepted by the quick test; only where it is not sure the two searches are made.
fn verdict(s: Settings, part: &[u8], support: &[u8], rings: &[u16]) -> Judged
    requires { Ranged s × ((length part.now ≡ stack_bytes s)
        × ((length support.now ≡ stack_bytes s) × ((padding_set s.w (rows_of s) part.now ≡ false) × (length rings.now ≡ rings_in s)))) }
    ensures { result ≡ verdict_of s.w s.h s.n (bound_of s) part.now support.now rings.now }
{
    let w = s.w;
    let h = s.h;
    let n = s.n;
    if let Some(p) = places::overlaps::overlap_at(part, support, w, h, n) {
        return Judged::Refused(Refusal::AtPixel(9, place_of(p, w, h, 0)));
    }
    let q = limits::bound_of(s);
    if quick::stack::sure(part, support, rings, w, h, n, q) {
        return Judged::Accepted;
    }
    if let Some(p) = chains::search::first(part, support, rings, w, h, n, q, true) {
        return Judged::Refused(Refusal::AtPixel(10, place_of(p, w, h, 1)));
    }
    if let Some(p) = chains::search::first(part, support, rings, w, h, n, q, false) {
        let k = unheld_number(s, part, p);
        return Judged::Refused(Refusal::AtPixel(k, place_of(p, w, h, 1)));
    }
    Judged::Accepted
}

// Whether the support holds the part: accepted, or the lowest refusal, with its first place where it has one.
pub fn judge(s: Settings, part: &[u8], support: &[u8], rings: &[u16]) -> Judged
    ensures { Judges s part.now support.now rings.now result }
{
    let a = limits::both_refusal(s, true, part, support, rings.len());
    if a != 0 {
        return Judged::Refused(limits::with_rows(a, s, part, support));
    }
    verdict(s, part, support, rings)
}
