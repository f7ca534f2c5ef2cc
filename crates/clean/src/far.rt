// The pixels of the image that are far from a plane, with none of its pixels within the disc. Closing is to be far from what is far.
ghost use Rattle.std.specs.Prelude.{◌≡◌, not, ℕ, ◌+◌, ◌*◌, ◌<◌, ◌≤◌, ltb, length};
ghost use Rattle.rules.specs.Cleaning.{most_gap};
ghost use Rattle.rules.specs.Planning.{near};
ghost use Rattle.laws.specs.Discs.{Halves};
ghost use Rattle.words.specs.Words.{column};
ghost use Rattle.planes.specs.Scratch.{Sizes, Framed, Ready, Drawn, seen};
ghost use Rattle.clean.specs.Far.{Ahead, FarRow};

use crate::Till;
use rules::{Bound, Pixels};
use words::Row;

// Looks at row k: the rows up to c below it have it within the disc.
fn look(from: &[u64], k: usize, c: Pixels, all: Row, was: Till) -> Till
    requires { (length from.now ≡ 1610) × (k < 288) × (c.0 ≤ most_gap) }
    ensures { (w : ℕ) → ((j : ℕ) → column all j ≡ ltb j w) → Ahead w c.0 k from.now was → Ahead w c.0 (k + 1) from.now result }
{
    let x = planes::rows::row(from, k + 33);
    if !words::rows::any(x) {
        return was;
    }
    let till = k + c.0 + 1;
    if words::rows::any(words::rows::but_not(all, x)) {
        return Till {
            some: till,
            full: was.full,
        };
    }
    Till {
        some: till,
        full: till,
    }
}

// The far pixels of row y, where the rows up to c below it are looked at; half has the half-widths of the disc.
fn far_row(from: &[u64], y: usize, c: Pixels, all: Row, half: &[usize], t: Till) -> Row
    requires { (length from.now ≡ 1610) × (y < 256) × (c.0 ≤ most_gap) × Halves (c.0 * c.0) half.now }
    ensures { (w h : ℕ) → Sizes w h → Framed w h from.now → y < h → ((j : ℕ) → column all j ≡ ltb j w) → Ahead w c.0 (y + c.0 + 1) from.now t →
        FarRow w h (c.0 * c.0) y from.now (column result) }
{
    if y < t.full {
        return words::rows::none();
    }
    if t.some <= y {
        return all;
    }
    words::rows::but_not(
        all,
        planes::nearness::near_row(from, y, half, Bound(c.0 * c.0)),
    )
}

// Looks at the rows that come before row c.
fn begin(from: &[u64], c: Pixels, all: Row) -> Till
    requires { (length from.now ≡ 1610) × (c.0 ≤ most_gap) }
    ensures { (w : ℕ) → ((j : ℕ) → column all j ≡ ltb j w) → Ahead w c.0 c.0 from.now result }
{
    let mut t = Till { some: 0, full: 0 };
    let mut k = 0;
    while k < c.0 {
        t = look(from, k, c, all, t);
        k += 1;
    }
    t
}

// The far pixels of a plane, into `to`; `all` are the columns of the image, half has the half-widths of the disc. The row that enters the disc
// is looked at before a row is worked on.
pub fn far(from: &[u64], to: &mut [u64], w: usize, h: usize, c: Pixels, all: Row, half: &[usize])
    requires sizes { Sizes w h × Ready w h from.now × Ready w h to.old × (c.0 ≤ most_gap) × Halves (c.0 * c.0) half.now }
    requires row_whole { (j : ℕ) → column all j ≡ ltb j w }
    ensures { Drawn w h (λ p. not (near w h (c.0 * c.0) (seen w from.now) p)) to.new }
{
    let mut t = begin(from, c, all);
    let mut y = 0;
    while y < h {
        t = look(from, y + c.0, c, all, t);
        planes::rows::put(to, y + 33, far_row(from, y, c, all, half, t));
        y += 1;
    }
}
