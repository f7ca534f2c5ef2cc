// Rings set back to 0 where they are not wanted, by the rows that have some.
ghost use Rattle.std.specs.Prelude.{◌≡◌, [], ◌∷◌, true, false, ℕ, ◌+◌, ◌*◌, ◌<◌, ◌≤◌, ltb, length, get_or};
ghost use Rattle.words.specs.Words.{column, word_bit};
ghost use Rattle.planes.specs.Scratch.{Sizes, seen};
ghost use Rattle.waves.specs.Rows.{Aheads, Room};
ghost use Rattle.pair.specs.BareLaws.{Bared};

use words::Row;

// n places from `at` on.
fn stretch(ring: &mut [u16], at: usize, n: usize)
    requires { at + n ≤ length ring.old }
    ensures { ((p : ℕ) → get_or ring.old p 0 ≡ 0 → get_or ring.new p 0 ≡ 0) × ((p : ℕ) → at ≤ p → p < at + n → get_or ring.new p 0 ≡ 0) }
{
    let mut i = 0;
    while i < n {
        ring[at + i] = 0;
        i += 1;
    }
}

// The places of the pixels of a row, one by one.
fn few(ring: &mut [u16], at: usize, a: u64, b: u64, c: u64, d: u64)
    requires { ((k : ℕ) → word_bit (a ∷ b ∷ c ∷ d ∷ []) k ≡ true → at + k < length ring.old) × (at ≤ 65536) }
    ensures { Bared at (word_bit (a ∷ b ∷ c ∷ d ∷ [])) ring.old ring.new }
{
    words::single::number(ring, at, a, 0);
    words::single::number(ring, at + 64, b, 0);
    words::single::number(ring, at + 128, c, 0);
    words::single::number(ring, at + 192, d, 0);
}

// The pixels of a row of w columns that begins at `at`. A row whose first word has many is set to 0 whole.
fn row(ring: &mut [u16], at: usize, w: usize, x: Row)
    requires { ((c : ℕ) → column x c ≡ true → c < w) × (at + w ≤ length ring.old) × (at ≤ 65536) }
    ensures { Bared at (column x) ring.old ring.new }
{
    if words::single::quarters(x.a) {
        stretch(ring, at, w);
        return;
    }
    few(ring, at, x.a, x.b, x.c, x.d);
}

// All rings, where got has the pixels with one.
fn rows(ring: &mut [u16], got: &[u64], ahead: &[usize], w: usize, h: usize)
    requires sizes { Sizes w h × Aheads h ahead.now × Room w h ahead.now got.now × (length ring.old ≡ h * w) }
    requires rings_seen { (p : ℕ) → p < h * w → seen w got.now p ≡ ltb 0 (get_or ring.old p 0) }
    ensures { (p : ℕ) → p < h * w → get_or ring.new p 0 ≡ 0 }
{
    let mut y = ahead[0];
    while y < h {
        row(ring, y * w, w, planes::rows::row(got, y + 33));
        y = ahead[y + 1];
    }
}

// Unless they are wanted, and then they stay.
pub fn unless(wanted: bool, ring: &mut [u16], got: &[u64], ahead: &[usize], w: usize, h: usize)
    requires sizes { Sizes w h × Aheads h ahead.now × Room w h ahead.now got.now × (length ring.old ≡ h * w) }
    requires rings_seen { (p : ℕ) → p < h * w → seen w got.now p ≡ ltb 0 (get_or ring.old p 0) }
    ensures { (wanted ≡ true → ring.new ≡ ring.old) × (wanted ≡ false → (p : ℕ) → p < h * w → get_or ring.new p 0 ≡ 0) }
{
    if !wanted {
        rows(ring, got, ahead, w, h);
    }
}
