// A visit: a marked pixel tells its neighbours their rings.
ghost use Rattle.std.specs.Prelude.{◌≡◌, ℕ, ◌+◌, ◌*◌, ◌<◌, ◌≤◌, Bool, true, length, slice_index};
ghost use Rattle.words.specs.Words.{word_bit};
ghost use Rattle.planes.specs.Scratch.{spot};
ghost use Rattle.sweeps.specs.Marks.{SweepPlanes, MarkedPixel, Onward};
ghost use Rattle.sweeps.specs.Rings.{level};
ghost use Rattle.sweeps.specs.Telling.{Inside, Aimed, Lowers, Told, Around, Falls};

// Gives ring v + 1 to pixel p, bit k of word i, where it has none or a larger one, and marks it.
fn tell_pixel(
    ring: &mut [u16],
    marks: &mut [u64],
    got: &mut [u64],
    p: usize,
    i: usize,
    k: usize,
    v: u16,
)
    requires { (i < length marks.old) × (i < length got.old) × (k < 64) × (p < length ring.old) }
    ensures lowers { (at : ℕ → ℕ) (B : ℕ → Bool) → B (i * 64 + k) ≡ true → at (i * 64 + k) ≡ p →
        Lowers at v B ring.old marks.old got.old ring.new marks.new got.new }
    ensures ring { level (slice_index ring.new p) ≤ v + 1 }
{
    if crate::levels::above(ring, p, v) {
        ring[p] = v + 1;
        crate::marks::set_bit(marks, i, k);
        crate::marks::set_bit(got, i, k);
    }
}

// The same of those pixels of word i in mask that may be told a ring (cand). Bit k of the word is pixel x + k - less.
fn tell(
    ring: &mut [u16],
    marks: &mut [u64],
    got: &mut [u64],
    cand: &[u64],
    i: usize,
    mask: u64,
    x: usize,
    less: usize,
    v: u16,
)
    requires { (i < length marks.old) × (i < length got.old) × (i < length cand.now) × (x < 131072) × Inside i mask x less cand.now (length ring.old) }
    ensures { (at : ℕ → ℕ) (B : ℕ → Bool) → Aimed at B i mask x less cand.now →
        Lowers at v B ring.old marks.old got.old ring.new marks.new got.new
        × Told at i mask v cand.now ring.new }
{
    let mut left = cand[i] & mask;
    while left != 0 {
        let k = words::single::last(left);
        tell_pixel(ring, marks, got, x + k - less, i, k, v);
        left = words::single::without_last(left);
    }
}

// The same in three rows, of which the first has word i, with a mask of its own for the one in the middle, where bit k is pixel x + k - 64.
fn tell_rows(
    ring: &mut [u16],
    marks: &mut [u64],
    got: &mut [u64],
    cand: &[u64],
    w: usize,
    i: usize,
    mask: u64,
    middle: u64,
    x: usize,
    v: u16,
)
    requires { (i + 10 < length marks.old) × (i + 10 < length got.old) × (i + 10 < length cand.now) × (x < 130000) × (w ≤ 256) × (mask ≡ 0 → middle ≡ 0)
        × Inside i mask x (w + 64) cand.now (length ring.old) × Inside (i + 5) middle x 64 cand.now (length ring.old)
        × Inside (i + 10) mask (x + w) 64 cand.now (length ring.old) }
    ensures { (at : ℕ → ℕ) (B : ℕ → Bool) → Aimed at B i mask x (w + 64) cand.now → Aimed at B (i + 5) middle x 64 cand.now →
        Aimed at B (i + 10) mask (x + w) 64 cand.now →
        Lowers at v B ring.old marks.old got.old ring.new marks.new got.new
        × Told at i mask v cand.now ring.new × Told at (i + 5) middle v cand.now ring.new
        × Told at (i + 10) mask v cand.now ring.new }
{
    // only at the edge of a word has a pixel neighbours in the next one
    if mask == 0 {
        return;
    }
    tell(ring, marks, got, cand, i, mask, x, w + 64, v);
    tell(ring, marks, got, cand, i + 5, middle, x, 64, v);
    tell(ring, marks, got, cand, i + 10, mask, x + w, 64, v);
}

// Tells the neighbours of the marked pixel in bit k of word q of row r, and takes its mark.
pub fn visit(
    ring: &mut [u16],
    marks: &mut [u64],
    got: &mut [u64],
    cand: &[u64],
    w: usize,
    h: usize,
    r: usize,
    q: usize,
    k: usize,
)
    requires { MarkedPixel w h ring.old marks.old got.old cand.now r q k }
    ensures planes { SweepPlanes w h ring.new marks.new got.new cand.now }
    ensures falls { Falls ring.new ring.old
        (((j : ℕ) → word_bit marks.new j ≡ true → word_bit marks.old j ≡ true)
        × (slice_index marks.new ((r + 33) * 5 + q) < slice_index marks.old ((r + 33) * 5 + q))) }
    ensures around { Around (spot r (q * 64 + k)) marks.new marks.old }
    ensures onward { Onward w h ring.new ring.old marks.new marks.old got.new got.old cand.now }
{
    // a row is five words; 64 more are added to x than are meant, and taken off in `tell`, so that nothing falls below 0
    let i = (r + 33) * 5 + q;
    let x = r * w + q * 64;
    let v = ring[x + k];
    let b = words::single::bit(k);
    let own = words::rows::spread(0, b, 0, 1);
    tell_rows(ring, marks, got, cand, w, i - 5, own, own & !b, x + 64, v);
    let before = words::rows::spread(0, 0, b, 1);
    tell_rows(ring, marks, got, cand, w, i - 6, before, before, x, v);
    let after = words::rows::spread(b, 0, 0, 1);
    tell_rows(ring, marks, got, cand, w, i - 4, after, after, x + 128, v);
    crate::marks::clear_bit(marks, i, k);
}
