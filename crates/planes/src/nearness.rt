// The near pixels of a row, by the rows of its disc: from the row itself outward, wider by what the next row of the disc is narrower.
ghost use Rattle.std.specs.Prelude.{◌≡◌, ◌||◌, ℕ, ◌+◌, ◌-◌, ◌*◌, ◌<◌, ◌≤◌, length};
ghost use Rattle.rules.specs.Planning.{near};
ghost use Rattle.rules.specs.Reach.{half_width, most_bound, most_rows};
ghost use Rattle.laws.specs.Discs.{Halves};
ghost use Rattle.words.specs.Words.{column};
ghost use Rattle.planes.specs.Scratch.{Sizes, Framed, seen};
ghost use Rattle.planes.specs.Nearness.{NearTo};

use rules::{Bound, Pixels};
use words::Row;

// One row of the disc further: x is what the rows up to d - 1 away reach, and half has the half-widths of the disc.
fn further(low: &[u64], k: usize, x: Row, half: &[usize], q: Bound, d: usize) -> Row
    requires { (length low.now ≡ 1610) × (k < 289) × (33 ≤ k) × (0 < d) × (d < most_rows) × (d * d ≤ q.0) × (q.0 ≤ most_bound) × Halves q.0 half.now }
    ensures { NearTo q.0 k (d - 1) (half_width q.0 (d - 1)) low.now (column x) → NearTo q.0 k d (half_width q.0 d) low.now (column result) }
{
    let by = half[d - 1] - half[d];
    let wide = words::rows::widen(x, Pixels(by));
    let beside = words::rows::either(crate::rows::row(low, k - d), crate::rows::row(low, k + d));
    words::rows::either(wide, beside)
}

// The pixels of row y that are near: those with a pixel of low at squared distance at most q. half has the half-widths of the disc, which in
// its middle row runs as far as it does up and down.
pub fn near_row(low: &[u64], y: usize, half: &[usize], q: Bound) -> Row
    requires { (length low.now ≡ 1610) × (y < 256) × (q.0 ≤ most_bound) × Halves q.0 half.now }
    ensures { (w h : ℕ) → Sizes w h → Framed w h low.now → y < h → (c : ℕ) → c < w → column result c ≡ near w h q.0 (seen w low.now) (y * w + c) }
{
    let reach = half[0];
    let k = y + 33;
    let mut x = crate::rows::row(low, k);
    let mut d: usize = 0;
    while d < reach {
        d += 1;
        x = further(low, k, x, half, q, d);
    }
    words::rows::widen(x, Pixels(half[d]))
}
