// Rows of planes.
ghost use Rattle.std.specs.Prelude.{◌≡◌, ℕ, ◌+◌, ◌*◌, ◌<◌, ◌≤◌, length};
ghost use Rattle.words.specs.Words.{column};
ghost use Rattle.planes.specs.Scratch.{RowPut, row_bit, fresh};

use rules::Pixels;
use words::Row;

// Row k, counted from the first row of the plane.
pub fn row(l: &[u64], k: usize) -> Row
    requires { (length l.now ≡ 1610) × (k < 322) }
    ensures { (c : ℕ) → column result c ≡ row_bit l.now k c }
{
    words::rows::get(l, k * 5)
}

// Puts a row at row k.
pub fn put(l: &mut [u64], k: usize, x: Row)
    requires { (length l.old ≡ 1610) × (k < 322) }
    ensures { RowPut k (column x) l.old l.new }
{
    words::rows::put(l, k * 5, x);
}

// The pixels of row k of `left` that touch one of `from`, or are one.
pub fn fresh_row(from: &[u64], left: &[u64], k: usize) -> Row
    requires { (length from.now ≡ 1610) × (length left.now ≡ 1610) × (0 < k) × (k + 1 < 322) }
    ensures { (c : ℕ) → c < 256 → column result c ≡ fresh from.now left.now (k * 320 + c) }
{
    let three = words::rows::either(
        words::rows::either(row(from, k - 1), row(from, k)),
        row(from, k + 1),
    );
    words::rows::both(words::rows::wide(three, Pixels(1)), row(left, k))
}
