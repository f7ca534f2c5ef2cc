// The first pixel at which something is amiss: the first bad ring, where rings are looked for, and else the first unheld pixel.
ghost use Rattle.std.specs.Prelude.{◌≡◌, true, unwrap_or, IfSome, ℕ, ◌+◌, ◌-◌, ◌*◌, ◌<◌, ◌≤◌, length};
ghost use Rattle.rules.specs.Planning.{near};
ghost use Rattle.rules.specs.Reach.{most_bound};
ghost use Rattle.laws.specs.Discs.{Halves};
ghost use Rattle.image.specs.Rows.{packed, Clean};
ghost use Rattle.words.specs.Words.{word_bit, Ones};
ghost use Rattle.planes.specs.Scratch.{Drawn};
ghost use Rattle.places.specs.Search.{FirstOf, flat, Sized};
ghost use Rattle.quick.specs.Sureness.{Whole};
ghost use Rattle.chains.specs.Amiss.{amiss_here, amiss_in, sure_of, Planes};

use quick::Sure;
use rules::Bound;

// The first of a row, whose near pixels are those of `close`.
fn in_columns(
    low: &[u8],
    up: &[u8],
    below: &[u8],
    above: &[u8],
    rings: &[u16],
    close: &[u64],
    w: usize,
    h: usize,
    r: usize,
    ringed: bool,
) -> Option<usize>
    requires fits { Sized w h × (r < h) }
    requires planes { Planes w h low.now up.now below.now above.now rings.now × (length close.now ≡ 4) }
    ensures first { (q : ℕ) → ((c : ℕ) → c < w → word_bit close.now c ≡ near w h q (packed w low.now) (r * w + c)) →
        FirstOf 0 w (λ c. amiss_here ringed w h q low.now up.now below.now above.now rings.now (r * w + c)) (unwrap_or result w) }
    ensures inside { IfSome result (λ c. c < w) }
{
    for c in 0..w {
        if crate::pixels::amiss(low, up, below, above, rings, close, w, h, r, c, ringed) {
            return Some(c);
        }
    }
    None
}

// The first of a row; the lower layer is in scratch as well.
fn in_row(
    low: &[u8],
    up: &[u8],
    below: &[u8],
    above: &[u8],
    rings: &[u16],
    disc: &[u64],
    halves: &[usize],
    w: usize,
    h: usize,
    r: usize,
    q: Bound,
    ringed: bool,
) -> Option<usize>
    requires fits { (Sized w h × (r < h)) × (q.0 ≤ most_bound) }
    requires planes { Planes w h low.now up.now below.now above.now rings.now × Drawn w h (packed w low.now) disc.now }
    requires table { Halves q.0 halves.now }
    ensures first { FirstOf 0 w (λ c. amiss_here ringed w h q.0 low.now up.now below.now above.now rings.now (r * w + c)) (unwrap_or result w) }
    ensures inside { IfSome result (λ c. c < w) }
{
    let mut close = [0u64; 4];
    words::rows::put(
        &mut close,
        0,
        planes::nearness::near_row(disc, r, halves, q),
    );
    in_columns(low, up, below, above, rings, &close, w, h, r, ringed)
}

// The first of a pair, row by row.
fn in_rows(
    low: &[u8],
    up: &[u8],
    below: &[u8],
    above: &[u8],
    rings: &[u16],
    disc: &[u64],
    halves: &[usize],
    w: usize,
    h: usize,
    q: Bound,
    ringed: bool,
) -> Option<usize>
    requires fits { Sized w h × (q.0 ≤ most_bound) }
    requires planes { Planes w h low.now up.now below.now above.now rings.now × Drawn w h (packed w low.now) disc.now }
    requires table { Halves q.0 halves.now }
    ensures first { FirstOf 0 (h * w) (amiss_here ringed w h q.0 low.now up.now below.now above.now rings.now) (unwrap_or result (h * w)) }
    ensures inside { IfSome result (λ p. p < h * w) }
{
    for r in 0..h {
        if let Some(c) = in_row(
            low, up, below, above, rings, disc, halves, w, h, r, q, ringed,
        ) {
            return Some(r * w + c);
        }
    }
    None
}

#[tactic(auto, unfolding(crate::specs::Amiss::sure_of))]
fn sure(s: Sure, ringed: bool) -> bool
    ensures { result ≡ sure_of s ringed }
{
    if ringed { s.rings } else { s.held }
}

// The first of a pair. Where the quick test is sure there is none.
fn in_pair(
    low: &[u8],
    up: &[u8],
    below: &[u8],
    above: &[u8],
    rings: &[u16],
    ones: &[u16],
    halves: &[usize],
    w: usize,
    h: usize,
    q: Bound,
    t: u16,
    ringed: bool,
) -> Option<usize>
    requires fits { (Sized w h × ((2 * (t * t) ≤ q.0) × (q.0 ≤ most_bound))) × Clean w h low.now }
    requires planes { Planes w h low.now up.now below.now above.now rings.now × (Ones ones.now × Halves q.0 halves.now) }
    ensures first { FirstOf 0 (h * w) (amiss_here ringed w h q.0 low.now up.now below.now above.now rings.now) (unwrap_or result (h * w)) }
    ensures inside { IfSome result (λ p. p < h * w) }
{
    let s = quick::pair::pair(low, up, below, above, rings, ones, halves, w, h, q, t);
    if sure(s, ringed) {
        return None;
    }
    let mut disc = [0u64; 1610];
    quick::layers::read(low, &mut disc, w, h);
    in_rows(low, up, below, above, rings, &disc, halves, w, h, q, ringed)
}

// The first of the stack, pair by pair.
fn in_pairs(
    part: &[u8],
    sup: &[u8],
    rings: &[u16],
    ones: &[u16],
    halves: &[usize],
    w: usize,
    h: usize,
    n: usize,
    q: Bound,
    t: u16,
    ringed: bool,
) -> Option<usize>
    requires fits { Whole w h n part.now sup.now rings.now }
    requires scratch { (Ones ones.now × Halves q.0 halves.now) × ((2 * (t * t) ≤ q.0) × (q.0 ≤ most_bound)) }
    ensures first { FirstOf 0 ((n - 1) * (h * w)) (flat w h (amiss_in ringed w h q.0 part.now sup.now rings.now)) (unwrap_or result ((n - 1) * (h * w))) }
    ensures inside { IfSome result (λ x. x < (n - 1) * (h * w)) }
{
    let bytes = h * limits::row_bytes(w);
    let area = h * w;
    for i in 0..n - 1 {
        let at = i * bytes;
        let mid = at + bytes;
        let end = mid + bytes;
        let x = i * area;
        let next = x + area;
        if let Some(p) = in_pair(
            &part[at..mid],
            &part[mid..end],
            &sup[at..mid],
            &sup[mid..end],
            &rings[x..next],
            ones,
            halves,
            w,
            h,
            q,
            t,
            ringed,
        ) {
            return Some(x + p);
        }
    }
    None
}

// The first of the stack.
pub fn first(
    part: &[u8],
    sup: &[u8],
    rings: &[u16],
    w: usize,
    h: usize,
    n: usize,
    q: Bound,
    ringed: bool,
) -> Option<usize>
    requires { Whole w h n part.now sup.now rings.now × (q.0 ≤ most_bound) }
    ensures first { FirstOf 0 ((n - 1) * (h * w)) (flat w h (amiss_in ringed w h q.0 part.now sup.now rings.now)) (unwrap_or result ((n - 1) * (h * w))) }
    ensures inside { IfSome result (λ x. x < (n - 1) * (h * w)) }
{
    let mut ones = [0u16; 2048];
    words::ones::fill(&mut ones);
    let mut halves = [0usize; 33];
    roots::halves(q.0, &mut halves);
    in_pairs(
        part,
        sup,
        rings,
        &ones,
        &halves,
        w,
        h,
        n,
        q,
        quick::stack::trusted(q),
        ringed,
    )
}
