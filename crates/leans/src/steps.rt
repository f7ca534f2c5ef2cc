// Rings that are good, pixel by pixel: in the free pixels and the first pixels of a word.
ghost use Rattle.std.specs.Prelude.{◌≡◌, true, ℕ, ◌+◌, ◌-◌, ◌*◌, ◌<◌, ◌≤◌, length, get_or, slice_index, IfSome};
ghost use Rattle.words.specs.Words.{bit_of_word};
ghost use Rattle.places.specs.Search.{Sized};
ghost use Rattle.leans.specs.Leaning.{About, Step, Good, Tells};

use crate::Told;

// The rows or columns before, at and behind x, of n in all; x stands in for one that the image lacks.
fn three(x: usize, n: usize) -> [usize; 3]
    requires { (x < n) × (n ≤ 256) }
    ensures { About x n result }
{
    [x.saturating_sub(1), x, (x + 1).min(n - 1)]
}

// Whether there is a row or column on both sides of x, of n in all.
fn inside(x: usize, n: usize) -> bool
    requires { x < n }
    ensures { result ≡ true → (0 < x) × (x + 1 < n) }
{
    0 < x && x < n - 1
}

// Whether one of the pixels in these rows and columns has ring v.
fn among(rings: &[u16], w: usize, rows: [usize; 3], columns: [usize; 3], v: u16) -> bool
    requires { (i j : ℕ) → i < 3 → j < 3 → slice_index rows i * w + slice_index columns j < length rings.now }
    ensures { result ≡ true → (h r c : ℕ) → About r h rows → About c w columns → Step w h rings.now r c v }
{
    let mut found = false;
    'rows: for y in rows {
        for x in columns {
            if rings[y * w + x] == v {
                found = true;
                break 'rows;
            }
        }
    }
    found
}

// Whether a neighbour has ring v, which the pixel itself has not, in the first or last column. It stays a call: else the compiler keeps ready
// for every pixel what only those two columns need.
#[cold]
#[inline(never)]
fn steps_at_edge(rings: &[u16], w: usize, h: usize, r: usize, c: usize, v: u16) -> bool
    requires { (Sized w h × (length rings.now ≡ h * w)) × ((r < h) × (c < w)) }
    ensures { result ≡ true → Step w h rings.now r c v }
{
    among(rings, w, three(r, h), three(c, w), v)
}

// The same in any column. Most have one on both sides, whose places the compiler then knows.
fn steps(rings: &[u16], w: usize, h: usize, r: usize, c: usize, v: u16) -> bool
    requires { (Sized w h × (length rings.now ≡ h * w)) × ((r < h) × (c < w)) }
    ensures { result ≡ true → Step w h rings.now r c v }
{
    if inside(c, w) {
        return among(rings, w, three(r, h), [c - 1, c, c + 1], v);
    }
    steps_at_edge(rings, w, h, r, c, v)
}

// Whether the pixel at bit k of the word at column x may carry its ring v.
fn good(
    rings: &[u16],
    w: usize,
    h: usize,
    r: usize,
    x: usize,
    k: usize,
    v: u16,
    free: u64,
    first: u64,
) -> bool
    requires fits { (Sized w h × (length rings.now ≡ h * w)) × ((r < h) × ((k < 64) × (x + k < w))) }
    requires own { (0 < v) × (v ≡ get_or rings.now (r * w + (x + k)) 0) }
    ensures { result ≡ true → Good w h (bit_of_word free k) (bit_of_word first k) rings.now r (x + k) }
{
    if v == 1 {
        return crate::bits::bit(first, k);
    }
    crate::bits::bit(free, k) && steps(rings, w, h, r, x + k, v - 1)
}

// What the bits from `from` on and before `to` of the word at column x tell, where their rings are good.
pub fn pixels(
    rings: &[u16],
    w: usize,
    h: usize,
    r: usize,
    x: usize,
    from: usize,
    to: usize,
    free: u64,
    first: u64,
) -> Option<Told>
    requires { (Sized w h × (length rings.now ≡ h * w)) × ((r < h) × ((from ≤ to) × ((to ≤ 64) × (x + to ≤ w)))) }
    ensures { IfSome result (Tells w h rings.now r x from to free first) }
{
    let at = r * w + x;
    let mut got: u64 = 0;
    let mut most: u16 = 0;
    for k in from..to {
        let v = rings[at + k];
        if v != 0 {
            if !good(rings, w, h, r, x, k, v, free, first) {
                return None;
            }
            got |= words::single::bit(k);
            most |= v;
        }
    }
    Some(Told { got, most })
}
