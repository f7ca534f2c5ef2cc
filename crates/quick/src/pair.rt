// What is sure of a pair: row by row, and only where there is shadow.
ghost use Rattle.std.specs.Prelude.{◌≡◌, true, false, ℕ, ◌+◌, ◌*◌, ◌<◌, ◌≤◌, length, get_or, IfSome, MatchOption};
ghost use Rattle.rules.specs.Images.{row_bytes};
ghost use Rattle.rules.specs.Planning.{near};
ghost use Rattle.rules.specs.Reach.{most_bound};
ghost use Rattle.laws.specs.Discs.{Halves};
ghost use Rattle.image.specs.Rows.{packed, Clean};
ghost use Rattle.words.specs.Words.{column, word_bit, Ones};
ghost use Rattle.planes.specs.Scratch.{Ready, Drawn};
ghost use Rattle.places.specs.Search.{Sized, bad_here, unheld_here};
ghost use Rattle.leans.specs.Leaning.{Bare};
ghost use Rattle.quick.specs.Sureness.{Long, Shadeless, RowSound, RowGood, RowHeld};

use crate::{Passed, Sure};
use rules::Bound;
use words::Row;

// What row r tells, where its rings are good but for nearness. Rings of at most t are near by themselves.
fn shaded_row(
    low: &[u8],
    up: &[u8],
    below: &[u8],
    rings: &[u16],
    ones: &[u16],
    w: usize,
    h: usize,
    r: usize,
    t: u16,
) -> Option<Passed>
    requires fits { (Sized w h × (r < h)) × (Clean w h low.now × (Long (h * row_bytes w) low.now up.now below.now below.now × (length rings.now ≡ h * w))) }
    requires table { Ones ones.now }
    ensures row_sound { IfSome result (λ s. RowSound w h t (column s.far) low.now up.now rings.now r) }
    ensures row_held { IfSome result (λ s. s.held ≡ true → RowHeld w low.now up.now below.now rings.now r) }
{
    let rb = limits::row_bytes(w);
    let above = r.saturating_sub(1);
    let under = (r + 1).min(h - 1);
    let seed = crate::rows::seed_rows(low, up, above * rb, r * rb, under * rb, rb);
    let shadow = crate::rows::shadow_row(low, up, r * rb, rb);
    let mut firsts = [0u64; 4];
    words::rows::put(&mut firsts, 0, crate::rows::first_row(seed, shadow));
    let mut frees = [0u64; 4];
    words::rows::put(&mut frees, 0, shadow);
    let mut hangs = [0u64; 4];
    words::rows::put(
        &mut hangs,
        0,
        crate::rows::not_in(shadow, below, r * rb, rb),
    );
    let mut got = [0u64; 4];
    let s = leans::words64::row(rings, ones, &frees, &firsts, &hangs, &mut got, w, h, r)?;
    Some(Passed {
        held: s.held,
        far: far_of(&got, s.most, t),
    })
}

// The pixels of `got` where a ring may be larger than t, and else none.
fn far_of(got: &[u64], most: u16, t: u16) -> Row
    requires { length got.now ≡ 4 }
    ensures { t < most → (c : ℕ) → c < 256 → word_bit got.now c ≡ true → column result c ≡ true }
{
    if t < most {
        return words::rows::get(got, 0);
    }
    words::rows::none()
}

// The first row from row `from` on that has shadow.
fn shaded(low: &[u8], up: &[u8], w: usize, h: usize, from: usize) -> Option<usize>
    requires { Sized w h × ((from ≤ h) × Long (h * row_bytes w) low.now up.now low.now low.now) }
    ensures { MatchOption result ((y : ℕ) → from ≤ y → y < h → Shadeless w low.now up.now y)
        (λ r. (from ≤ r) × (r < h) × ((y : ℕ) → from ≤ y → y < r → Shadeless w low.now up.now y)) }
{
    let rb = limits::row_bytes(w);
    for r in from..h {
        if crate::looks::shaded(low, up, r * rb, rb) {
            return Some(r);
        }
    }
    None
}

// The same of row r, which may have shadow, and of the rows from row `from` on before it, which have none and so no ring.
fn row(
    low: &[u8],
    up: &[u8],
    below: &[u8],
    rings: &[u16],
    ones: &[u16],
    w: usize,
    h: usize,
    from: usize,
    r: usize,
    t: u16,
) -> Option<Passed>
    requires fits { (Sized w h × (r < h)) × (Clean w h low.now × (Long (h * row_bytes w) low.now up.now below.now below.now × (length rings.now ≡ h * w))) }
    requires table { Ones ones.now × (from ≤ r) }
    ensures bare { IfSome result (λ _. (y : ℕ) → from ≤ y → y < r → Bare w rings.now y) }
    ensures row_sound { IfSome result (λ s. RowSound w h t (column s.far) low.now up.now rings.now r) }
    ensures row_held { IfSome result (λ s. s.held ≡ true → RowHeld w low.now up.now below.now rings.now r) }
{
    if !leans::marks::bare(rings, from, r, w) {
        return None;
    }
    shaded_row(low, up, below, rings, ones, w, h, r, t)
}

// The lower layer in scratch, where it is not there yet.
fn draw(low: &[u8], disc: &mut [u64], w: usize, h: usize, drawn: bool)
    requires { Sized w h × (Clean w h low.now × (Ready w h disc.old × (drawn ≡ true → Drawn w h (packed w low.now) disc.old))) }
    ensures { Drawn w h (packed w low.now) disc.new }
{
    if drawn {
        return;
    }
    crate::layers::read(low, disc, w, h);
}

// Whether the lower layer is drawn in scratch by now, where the pixels of `far`, in row r, are near. It is drawn when it is first needed.
fn near_all(
    low: &[u8],
    disc: &mut [u64],
    halves: &[usize],
    far: Row,
    w: usize,
    h: usize,
    r: usize,
    q: Bound,
    drawn: bool,
) -> Option<bool>
    requires fits { (Sized w h × (r < h)) × (Clean w h low.now × (Halves q.0 halves.now × (q.0 ≤ most_bound))) }
    requires scratch { Ready w h disc.old × (drawn ≡ true → Drawn w h (packed w low.now) disc.old) }
    ensures nearby { IfSome result (λ _. (c : ℕ) → c < w → column far c ≡ true → near w h q.0 (packed w low.now) (r * w + c) ≡ true) }
    ensures ready { Ready w h disc.new × IfSome result (λ drawn. drawn ≡ true → Drawn w h (packed w low.now) disc.new) }
{
    if !words::rows::any(far) {
        return Some(drawn);
    }
    draw(low, disc, w, h, drawn);
    let close = planes::nearness::near_row(disc, r, halves, q);
    if words::rows::any(words::rows::but_not(far, close)) {
        return None;
    }
    Some(true)
}

// All rows. Those with far rings are held against the plane `disc`.
fn rows(
    low: &[u8],
    up: &[u8],
    below: &[u8],
    rings: &[u16],
    ones: &[u16],
    disc: &mut [u64],
    halves: &[usize],
    w: usize,
    h: usize,
    q: Bound,
    t: u16,
) -> Sure
    requires fits { Sized w h × (Clean w h low.now × (Long (h * row_bytes w) low.now up.now below.now below.now × (length rings.now ≡ h * w))) }
    requires scratch { (Ones ones.now × Halves q.0 halves.now) × (Ready w h disc.old × (q.0 ≤ most_bound)) }
    ensures row_good { result.rings ≡ true → (r : ℕ) → r < h → RowGood w h q.0 t low.now up.now rings.now r }
    ensures row_held { result.held ≡ true → (r : ℕ) → r < h → RowHeld w low.now up.now below.now rings.now r }
{
    let unsure = Sure {
        rings: false,
        held: false,
    };
    let mut held = true;
    let mut drawn = false;
    let mut from = 0;
    while let Some(r) = shaded(low, up, w, h, from) {
        let Some(s) = row(low, up, below, rings, ones, w, h, from, r, t) else {
            return unsure;
        };
        let Some(now) = near_all(low, disc, halves, s.far, w, h, r, q, drawn) else {
            return unsure;
        };
        drawn = now;
        held = held && s.held;
        from = r + 1;
    }
    Sure {
        rings: leans::marks::bare(rings, from, h, w),
        held,
    }
}

// A pair in which nothing is near but part itself: no ring can be good, and only part and support hold.
fn ringless(low: &[u8], up: &[u8], below: &[u8], rings: &[u16], w: usize, h: usize) -> Sure
    requires { Sized w h × (Long (h * row_bytes w) low.now up.now below.now below.now × (length rings.now ≡ h * w)) }
    ensures bare { result.rings ≡ true → (r : ℕ) → r < h → Bare w rings.now r }
    ensures row_held { result.held ≡ true → (r : ℕ) → r < h → RowHeld w low.now up.now below.now rings.now r }
{
    let seen = crate::looks::look(low, up, below, up, h * limits::row_bytes(w));
    Sure {
        rings: leans::marks::bare(rings, 0, h, w),
        held: seen.hung == 0,
    }
}

// A pair that has shadow.
fn shaded_pair(
    low: &[u8],
    up: &[u8],
    below: &[u8],
    rings: &[u16],
    ones: &[u16],
    halves: &[usize],
    w: usize,
    h: usize,
    q: Bound,
    t: u16,
) -> Sure
    requires fits { Sized w h × (Clean w h low.now × (Long (h * row_bytes w) low.now up.now below.now below.now × (length rings.now ≡ h * w))) }
    requires tables { (Ones ones.now × Halves q.0 halves.now) × (q.0 ≤ most_bound) }
    ensures row_good { result.rings ≡ true → (r : ℕ) → r < h → RowGood w h q.0 t low.now up.now rings.now r }
    ensures row_held { result.held ≡ true → (r : ℕ) → r < h → RowHeld w low.now up.now below.now rings.now r }
{
    if q.0 == 0 {
        return ringless(low, up, below, rings, w, h);
    }
    let mut disc = [0u64; 1610];
    rows(low, up, below, rings, ones, &mut disc, halves, w, h, q, t)
}

// A pair. Rings of at most t are near by themselves.
pub fn pair(
    low: &[u8],
    up: &[u8],
    below: &[u8],
    above: &[u8],
    rings: &[u16],
    ones: &[u16],
    halves: &[usize],
    w: usize,
    h: usize,
    q: Bound,
    t: u16,
) -> Sure
    requires fits { (Sized w h × ((2 * (t * t) ≤ q.0) × (q.0 ≤ most_bound))) × (Clean w h low.now × (length rings.now ≡ h * w)) }
    requires planes { Long (h * row_bytes w) low.now up.now below.now above.now × (Ones ones.now × Halves q.0 halves.now) }
    ensures good { result.rings ≡ true → (p : ℕ) → p < h * w → bad_here w h q.0 (packed w low.now) (packed w up.now) (λ o. get_or rings.now o 0) p ≡ false }
    ensures held { result.held ≡ true → (p : ℕ) → p < h * w →
        unheld_here (packed w low.now) (packed w up.now) (packed w below.now) (packed w above.now) (λ o. get_or rings.now o 0) p ≡ false }
{
    let seen = crate::looks::look(low, up, below, above, h * limits::row_bytes(w));
    if seen.shadow == 0 {
        return Sure {
            rings: leans::marks::quiet(rings, 0, h * w),
            held: seen.hung == 0,
        };
    }
    let s = shaded_pair(low, up, below, rings, ones, halves, w, h, q, t);
    Sure {
        rings: s.rings,
        held: s.held && seen.hung == 0,
    }
}
