// The rows that a row of rings is held against, in words: its shadow, the first pixels of it, and what hangs over it.
ghost use Rattle.std.specs.Prelude.{◌≡◌, true, not, ◌&&◌, ◌||◌, ℕ, ◌+◌, ◌<◌, ◌≤◌, length};
ghost use Rattle.words.specs.Words.{column, row_part, beside};
ghost use Rattle.quick.specs.Sureness.{seed_part, shadow_part};

use rules::Pixels;
use words::Row;

// The row of n bytes that starts at byte a. It is put in place of each call, so that what is done with its words joins the reading of them.
// Kept: by `words::rows::read`, which is called, a row of seeds takes 40 instructions; where its words are read in place, 17.
#[inline(always)]
fn row(s: &[u8], a: usize, n: usize) -> Row
    requires { (n ≤ 32) × (a + n ≤ length s.now) }
    ensures { (c : ℕ) → column result c ≡ row_part s.now a n c }
{
    if n == 32 {
        return Row {
            a: words::bytes::word(s, a),
            b: words::bytes::word(s, a + 8),
            c: words::bytes::word(s, a + 16),
            d: words::bytes::word(s, a + 24),
        };
    }
    words::rows::read_short(s, a, n)
}

// Its seeds, by the rows of both layers.
#[inline(always)]
fn seed_row(low: &[u8], up: &[u8], a: usize, n: usize) -> Row
    requires { (n ≤ 32) × ((a + n ≤ length low.now) × (a + n ≤ length up.now)) }
    ensures { (c : ℕ) → column result c ≡ seed_part low.now up.now a n c }
{
    words::rows::both(row(low, a, n), row(up, a, n))
}

// The seeds of three rows joined, n bytes each, that start at bytes a, m and z.
pub fn seed_rows(low: &[u8], up: &[u8], a: usize, m: usize, z: usize, n: usize) -> Row
    requires low { (n ≤ 32) × ((a + n ≤ length low.now) × ((m + n ≤ length low.now) × (z + n ≤ length low.now))) }
    requires up { (a + n ≤ length up.now) × ((m + n ≤ length up.now) × (z + n ≤ length up.now)) }
    ensures { (c : ℕ) → column result c ≡ ((seed_part low.now up.now a n c || seed_part low.now up.now m n c)
        || seed_part low.now up.now z n c) }
{
    let two = words::rows::either(seed_row(low, up, a, n), seed_row(low, up, m, n));
    words::rows::either(two, seed_row(low, up, z, n))
}

// The shadow pixels of the row of n bytes that starts at byte a.
pub fn shadow_row(low: &[u8], up: &[u8], a: usize, n: usize) -> Row
    requires { (n ≤ 32) × ((a + n ≤ length low.now) × (a + n ≤ length up.now)) }
    ensures { (c : ℕ) → column result c ≡ shadow_part low.now up.now a n c }
{
    words::rows::but_not(row(up, a, n), row(low, a, n))
}

// The pixels of x that are not in the row of n bytes that starts at byte a.
pub fn not_in(x: Row, s: &[u8], a: usize, n: usize) -> Row
    requires { (n ≤ 32) × (a + n ≤ length s.now) }
    ensures { (c : ℕ) → column result c ≡ (column x c && not (row_part s.now a n c)) }
{
    words::rows::but_not(x, row(s, a, n))
}

// Those of the shadow pixels that are beside a seed.
pub fn first_row(seed: Row, shadow: Row) -> Row
    ensures { (c : ℕ) → column result c ≡ true → (column shadow c ≡ true) × (beside 1 (column seed) c ≡ true) }
{
    words::rows::both(words::rows::wide(seed, Pixels(1)), shadow)
}
