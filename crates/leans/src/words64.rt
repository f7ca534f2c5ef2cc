// Rings that are good, by words: 64 columns without a free pixel are passed over at once, and so are eight whose rings are 1 at the first
// pixels and else 0.
ghost use Rattle.std.specs.Prelude.{◌≡◌, true, ℕ, min, ◌+◌, ◌-◌, ◌*◌, ◌<◌, ◌≤◌, length, get_or, IfSome};
ghost use Rattle.words.specs.Words.{word_bit, Ones};
ghost use Rattle.places.specs.Search.{Sized};
ghost use Rattle.leans.specs.Leaning.{Good, Tells};

use crate::{Line, Told};

// The word at column x, of which the image has n columns: the bytes whose rings are not alike, pixel by pixel.
fn eights(
    rings: &[u16],
    ones: &[u16],
    w: usize,
    h: usize,
    r: usize,
    x: usize,
    n: usize,
    free: u64,
    first: u64,
) -> Option<Told>
    requires { (Sized w h × (length rings.now ≡ h * w)) × ((r < h) × ((x < w) × ((n ≡ min (w - x) 64) × Ones ones.now))) }
    ensures { IfSome result (Tells w h rings.now r x 0 64 free first) }
{
    let at = r * w + x;
    let bytes = first.to_be_bytes();
    let mut got = first;
    let mut most: u16 = 1;
    for b in 0..(n + 7) / 8 {
        if 8 * b + 8 <= n && crate::eights::alike(rings, ones, at + 8 * b, bytes[b]) {
            continue;
        }
        let end = (8 * b + 8).min(n);
        let t = crate::steps::pixels(rings, w, h, r, x, 8 * b, end, free, first)?;
        got = crate::bits::patched(got, t.got, b);
        most |= t.most;
    }
    Some(Told { got, most })
}

// The word at column x, of which the image may have all columns, some or none.
fn word(
    rings: &[u16],
    ones: &[u16],
    w: usize,
    h: usize,
    r: usize,
    x: usize,
    free: u64,
    first: u64,
) -> Option<Told>
    requires { (Sized w h × (length rings.now ≡ h * w)) × ((r < h) × ((x < 256) × Ones ones.now)) }
    ensures { IfSome result (Tells w h rings.now r x 0 64 free first) }
{
    let bare = Told { got: 0, most: 0 };
    if w <= x {
        return Some(bare);
    }
    let n = (w - x).min(64);
    if free == 0 {
        return crate::marks::none(rings, r * w + x, n).then_some(bare);
    }
    eights(rings, ones, w, h, r, x, n, free, first)
}

// What row r tells, where its rings are good by its free and its first pixels; and whether each pixel of `hang` has one. Those that have one
// go to `got`.
pub fn row(
    rings: &[u16],
    ones: &[u16],
    free: &[u64],
    first: &[u64],
    hang: &[u64],
    got: &mut [u64],
    w: usize,
    h: usize,
    r: usize,
) -> Option<Line>
    requires fits { (Sized w h × (length rings.now ≡ h * w)) × ((r < h) × Ones ones.now) }
    requires rows { (length free.now ≡ 4) × ((length first.now ≡ 4) × ((length hang.now ≡ 4) × (length got.old ≡ 4))) }
    ensures good { IfSome result (λ _. (c : ℕ) → c < w → Good w h (word_bit free.now c) (word_bit first.now c) rings.now r c) }
    ensures held { IfSome result (λ l. l.held ≡ true → (c : ℕ) → c < w → word_bit hang.now c ≡ true → 0 < get_or rings.now (r * w + c) 0) }
    ensures told { IfSome result (λ l. (c : ℕ) → c < w → (get_or rings.now (r * w + c) 0 ≤ l.most)
        × (0 < get_or rings.now (r * w + c) 0 → word_bit got.new c ≡ true)) }
{
    let mut bare: u64 = 0;
    let mut most: u16 = 0;
    for i in 0..4 {
        let t = word(rings, ones, w, h, r, i * 64, free[i], first[i])?;
        bare |= hang[i] & !t.got;
        most |= t.most;
        got[i] = t.got;
    }
    Some(Line {
        held: bare == 0,
        most,
    })
}
