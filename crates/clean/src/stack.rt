// The stack from the top layer down. A layer has the cleaned layer above it and the closing of its own support.
ghost use Rattle.std.specs.Prelude.{◌≡◌, true, false, ℕ, suc, ◌+◌, ◌-◌, ◌*◌, ◌<◌, ◌≤◌, ltb, length};
ghost use Rattle.rules.specs.Cleaning.{most_gap, closed};
ghost use Rattle.rules.specs.Images.{row_bytes, pixel, bytes_of, padding_set};
ghost use Rattle.laws.specs.Discs.{Halves};
ghost use Rattle.image.specs.Filling.{Filling};
ghost use Rattle.image.specs.Rows.{Packs};
ghost use Rattle.image.specs.Scratch.{bit_of};
ghost use Rattle.words.specs.Words.{column};
ghost use Rattle.planes.specs.Scratch.{Ready};
ghost use Rattle.pair.specs.Found.{Sized};
ghost use Rattle.clean.specs.Layers.{joined_bit, Lent, Down, clean_by};

use crate::Compared;
use rules::Pixels;
use words::Row;

// Compares the `size` bytes from `at` on with those behind them, and with 0.
fn compare(s: &[u8], at: usize, size: usize) -> Compared
    requires { at + size + size ≤ length s.now }
    ensures same { result.same ≡ true → (j : ℕ) → j < size * 8 → bit_of s.now (at * 8 + j) ≡ bit_of s.now ((at + size) * 8 + j) }
    ensures empty { result.empty ≡ true → (j : ℕ) → j < size * 8 → bit_of s.now (at * 8 + j) ≡ false }
{
    let mut other: u8 = 0;
    let mut all: u8 = 0;
    let mut i = 0;
    while i < size {
        let x = s[at + i];
        let y = s[at + size + i];
        other = other | (x & !y) | (y & !x);
        all = all | x;
        i += 1;
    }
    Compared {
        same: other == 0,
        empty: all == 0,
    }
}

// The cleaned layer from `at` on, by that behind it: with the closing, without the part, and without the shadow that has no support, which is
// what is excused.
fn join(part: &[u8], support: &[u8], wide: &[u8], clean: &mut [u8], at: usize, size: usize)
    requires { (at + size + size ≤ length part.now) × (at + size ≤ length support.now) × (size ≤ length wide.now) × (at + size + size ≤ length clean.old) }
    ensures { Filling at (at + size) (joined_bit at size part.now support.now wide.now clean.old) clean.new clean.old }
{
    let mut i = 0;
    while i < size {
        let k = at + i;
        let up = k + size;
        clean[k] = (clean[up] | wide[i]) & !part[k] & (!part[up] | support[k]);
        i += 1;
    }
}

// The closing of the support of layer i into `wide`, which has that of layer i + 1: the same where the supports are, and empty where the support is.
fn widen(
    support: &[u8],
    wide: &mut [u8],
    a: &mut [u64],
    b: &mut [u64],
    w: usize,
    h: usize,
    n: usize,
    rb: usize,
    c: Pixels,
    i: usize,
    all: Row,
    half: &[usize],
)
    requires sized { Sized w h rb × (suc i < n) × (c.0 ≤ most_gap) × Halves (c.0 * c.0) half.now × ((j : ℕ) → column all j ≡ ltb j w) }
    requires lent { (length support.now ≡ n * h * row_bytes w) × (padding_set w (n * h) support.now ≡ false) × Ready w h a.old × Ready w h b.old }
    requires packs { Packs w h (closed w h (c.0 * c.0) (pixel w h support.now (suc i))) wide.old }
    ensures { Packs w h (closed w h (c.0 * c.0) (pixel w h support.now i)) wide.new × Ready w h a.new × Ready w h b.new }
{
    let size = h * rb;
    let at = i * size;
    let l = compare(support, at, size);
    if l.same {
        return;
    }
    if l.empty {
        crate::closing::zero(wide);
        return;
    }
    crate::closing::close(&support[at..at + size], wide, a, b, w, h, rb, c, all, half);
}

// Layer i of a stack that is cleaned from layer i + 1 on; wide is the closing of the support of layer i + 1, and then that of layer i.
fn layer_at(
    part: &[u8],
    support: &[u8],
    clean: &mut [u8],
    wide: &mut [u8],
    a: &mut [u64],
    b: &mut [u64],
    w: usize,
    h: usize,
    n: usize,
    rb: usize,
    c: Pixels,
    i: usize,
    all: Row,
    half: &[usize],
)
    requires sized { Sized w h rb × (suc i < n) × (c.0 ≤ most_gap) × Halves (c.0 * c.0) half.now × ((j : ℕ) → column all j ≡ ltb j w) }
    requires lent { Lent w h n part.now support.now clean.old × Ready w h a.old × Ready w h b.old }
    requires down { Down w h n (c.0 * c.0) (suc i) part.now support.now clean.old wide.old }
    ensures { Down w h n (c.0 * c.0) i part.now support.now clean.new wide.new × Ready w h a.new × Ready w h b.new }
{
    widen(support, wide, a, b, w, h, n, rb, c, i, all, half);
    let size = h * rb;
    join(part, support, wide, clean, i * size, size);
}

// All layers below the top one, downward.
fn layers(
    part: &[u8],
    support: &[u8],
    clean: &mut [u8],
    wide: &mut [u8],
    a: &mut [u64],
    b: &mut [u64],
    w: usize,
    h: usize,
    n: usize,
    rb: usize,
    c: Pixels,
    all: Row,
    half: &[usize],
)
    requires sized { Sized w h rb × (0 < n) × (c.0 ≤ most_gap) × Halves (c.0 * c.0) half.now × ((j : ℕ) → column all j ≡ ltb j w) }
    requires lent { Lent w h n part.now support.now clean.old × Ready w h a.old × Ready w h b.old }
    requires down { Down w h n (c.0 * c.0) (n - 1) part.now support.now clean.old wide.old }
    ensures { clean.new ≡ bytes_of w h n (clean_by w h n (c.0 * c.0) (pixel w h part.now) (pixel w h support.now)) }
{
    let mut i = n - 1;
    while 0 < i {
        i -= 1;
        layer_at(
            part, support, clean, wide, a, b, w, h, n, rb, c, i, all, half,
        );
    }
}

// The whole stack, where the top layer has no support. Scratch and the half-widths of the disc are made here and lent down.
pub fn stack(
    part: &[u8],
    support: &[u8],
    clean: &mut [u8],
    w: usize,
    h: usize,
    n: usize,
    rb: usize,
    c: Pixels,
)
    requires sized { Sized w h rb × (0 < n) × (c.0 ≤ most_gap) }
    requires lent { Lent w h n part.now support.now clean.old × ((p : ℕ) → p < h * w → pixel w h support.now (n - 1) p ≡ false) }
    ensures { clean.new ≡ bytes_of w h n (clean_by w h n (c.0 * c.0) (pixel w h part.now) (pixel w h support.now)) }
{
    let size = h * rb;
    let mut wide = [0u8; 8192];
    plan::stack::top(clean, &wide[..size], w, h, n, rb);
    let mut a = [0u64; 1610];
    let mut b = [0u64; 1610];
    let mut half = [0usize; 33];
    roots::halves(c.0 * c.0, &mut half);
    let all = words::rows::full(w);
    layers(
        part,
        support,
        clean,
        &mut wide[..size],
        &mut a,
        &mut b,
        w,
        h,
        n,
        rb,
        c,
        all,
        &half,
    );
}
