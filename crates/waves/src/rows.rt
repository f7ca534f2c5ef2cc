// One row of a wave.
ghost use Rattle.std.specs.Prelude.{◌≡◌, true, false, not, ◌&&◌, ◌||◌, ℕ, ◌+◌, ◌*◌, ◌<◌, ◌≤◌, length};
ghost use Rattle.words.specs.Words.{Ones, column, word_bit};
ghost use Rattle.planes.specs.Scratch.{fresh};
ghost use Rattle.waves.specs.Rows.{RowBits, RowNumbers, RowWave};

use crate::Gone;
use words::Row;

// Whether a row has many pixels, and its 256 places from `at` on lie in a list of n. Its first and its last word tell.
fn many(x: Row, at: usize, n: usize) -> bool
    ensures { result ≡ true → at + 256 ≤ n }
{
    if !words::single::quarters(x.a) {
        return false;
    }
    if !words::single::quarters(x.d) {
        return false;
    }
    if n < 256 {
        return false;
    }
    at <= n - 256
}

// Eight places at a time: no branches, where their outcome could not be foreseen.
fn number_many(ring: &mut [u16], at: usize, x: Row, v: u16, ones: &[u16])
    requires { (at + 256 ≤ length ring.old) × Ones ones.now }
    ensures { RowNumbers at v (column x) ring.old ring.new }
{
    words::ones::eights(ring, at, x.a, v, ones);
    words::ones::eights(ring, at + 64, x.b, v, ones);
    words::ones::eights(ring, at + 128, x.c, v, ones);
    words::ones::eights(ring, at + 192, x.d, v, ones);
}

fn number_few(ring: &mut [u16], at: usize, x: Row, v: u16)
    requires { ((c : ℕ) → column x c ≡ true → at + c < length ring.old) × (at ≤ 65536) }
    ensures { RowNumbers at v (column x) ring.old ring.new }
{
    words::single::number(ring, at, x.a, v);
    words::single::number(ring, at + 64, x.b, v);
    words::single::number(ring, at + 128, x.c, v);
    words::single::number(ring, at + 192, x.d, v);
}

// Writes v at the pixels of a row; column 0 is place `at`.
fn number_row(ring: &mut [u16], at: usize, x: Row, v: u16, ones: &[u16])
    requires { ((c : ℕ) → column x c ≡ true → at + c < length ring.old) × (at ≤ 65536) × Ones ones.now }
    ensures { RowNumbers at v (column x) ring.old ring.new }
{
    if many(x, at, ring.len()) {
        number_many(ring, at, x, v, ones);
        return;
    }
    number_few(ring, at, x, v);
}

// Row y: what is left and touches `from` gets ring v and goes from left to got, and to `to`.
pub fn wave_row(
    ring: &mut [u16],
    from: &[u64],
    to: &mut [u64],
    left: &mut [u64],
    got: &mut [u64],
    w: usize,
    y: usize,
    v: u16,
    ones: &[u16],
) -> Gone
    requires sizes { (length from.now ≡ 1610) × (length to.old ≡ 1610) × (length left.old ≡ 1610) × (length got.old ≡ 1610) × (y < 256) × (w ≤ 256) × Ones ones.now }
    requires inside { (c : ℕ) → c < 256 → word_bit left.old ((y + 33) * 320 + c) ≡ true → y * w + c < length ring.old }
    ensures { RowWave w y v result.new result.more from.now to.old to.new left.old left.new got.old got.new
        ring.old ring.new }
{
    let k = y + 33;
    let own = planes::rows::row(left, k);
    if !words::rows::any(own) {
        planes::rows::put(to, k, words::rows::none());
        return Gone {
            new: false,
            more: false,
        };
    }
    let now = planes::rows::fresh_row(from, left, k);
    planes::rows::put(to, k, now);
    if !words::rows::any(now) {
        return Gone {
            new: false,
            more: true,
        };
    }
    let rest = words::rows::but_not(own, now);
    planes::rows::put(left, k, rest);
    let all = words::rows::either(planes::rows::row(got, k), now);
    planes::rows::put(got, k, all);
    number_row(ring, y * w, now, v, ones);
    Gone {
        new: true,
        more: words::rows::any(rest),
    }
}
