// Sweeps over the marked pixels, down and up in turn, until no mark is left.
ghost use Rattle.std.specs.Prelude.{◌≡◌, ℕ, ◌+◌, ◌-◌, ◌*◌, ◌<◌, Bool, true, false, ◌⊎◌, length, nat_lt, slice_index};
ghost use Rattle.rules.specs.Planning.{touch, grown};
ghost use Rattle.words.specs.Words.{word_bit};
ghost use Rattle.planes.specs.Scratch.{seen};
ghost use Rattle.sweeps.specs.Marks.{SweepPlanes, Grows, Onward};
ghost use Rattle.sweeps.specs.Rings.{sum_by, level};
ghost use Rattle.sweeps.specs.Telling.{Falls, Unmarked, Nearby, turned, behind_row};

// Visits the marked pixels of row r until it has none.
fn settle_row(
    ring: &mut [u16],
    marks: &mut [u64],
    got: &mut [u64],
    cand: &[u64],
    w: usize,
    h: usize,
    r: usize,
)
    requires { SweepPlanes w h ring.old marks.old got.old cand.now × (r < h) }
    ensures planes { SweepPlanes w h ring.new marks.new got.new cand.now }
    ensures falls { Falls ring.new ring.old ((j : ℕ) → word_bit marks.new j ≡ true → word_bit marks.old j ≡ true) }
    ensures unmarked { Unmarked marks.new (r + 33) × Nearby (r + 33) marks.new marks.old }
    ensures onward { Onward w h ring.new ring.old marks.new marks.old got.new got.old cand.now }
{
    let i = (r + 33) * 5;
    let mut q: usize = 0;
    while q < 4 {
        let m = marks[i + q];
        if m == 0 {
            q += 1;
        } else {
            let k = words::single::last(m);
            crate::visits::visit(ring, marks, got, cand, w, h, r, q, k);
            // the visit may have marked a pixel of the word before
            q = before(q);
        }
    }
}

// The word before word q, and q where there is none.
fn before(q: usize) -> usize
    ensures { result ≡ q - 1 }
{
    if 0 < q { q - 1 } else { q }
}

// The row that comes after r others, from the top or from the bottom.
fn in_turn(up: bool, h: usize, r: usize) -> usize
    requires { r < h }
    ensures { result ≡ turned up h r }
{
    if up { h - 1 - r } else { r }
}

// The row of the plane that a sweep passed just before row y of the image.
fn row_behind(up: bool, y: usize) -> usize
    requires { y < 256 }
    ensures { result ≡ behind_row up y }
{
    if up { y + 34 } else { y + 32 }
}

// Goes through the rows once, downward or upward, and tells whether marks are left behind.
fn sweep(
    ring: &mut [u16],
    marks: &mut [u64],
    got: &mut [u64],
    cand: &[u64],
    w: usize,
    h: usize,
    up: bool,
) -> bool
    requires { SweepPlanes w h ring.old marks.old got.old cand.now }
    ensures planes { SweepPlanes w h ring.new marks.new got.new cand.now }
    ensures ends { (result ≡ false → (j : ℕ) → word_bit marks.new j ≡ false) × (result ≡ true → sum_by level ring.new < sum_by level ring.old) }
    ensures onward { Onward w h ring.new ring.old marks.new marks.old got.new got.old cand.now }
{
    let mut behind = false;
    let mut r: usize = 0;
    while r < h {
        let y = in_turn(up, h, r);
        r += 1;
        if words::rows::any(planes::rows::row(marks, y + 33)) {
            settle_row(ring, marks, got, cand, w, h, y);
            if words::rows::any(planes::rows::row(marks, row_behind(up, y))) {
                behind = true;
            }
        }
    }
    behind
}

// The plane p into `to`.
fn copy(p: &[u64], to: &mut [u64])
    requires { length to.old ≡ length p.now }
    ensures { to.new ≡ p.now }
{
    let mut i: usize = 0;
    while i < to.len() {
        to[i] = p[i];
        i += 1;
    }
}

// Sweeps from the pixels of front on, down and up in turn, until no mark is left: then every pixel has its ring, and got has those with one.
pub fn settle(
    ring: &mut [u16],
    front: &[u64],
    marks: &mut [u64],
    got: &mut [u64],
    cand: &[u64],
    w: usize,
    h: usize,
)
    requires { SweepPlanes w h ring.old front.now got.old cand.now × (length marks.old ≡ 1610) }
    ensures unmarked { (j : ℕ) → word_bit marks.new j ≡ false }
    ensures got_from { (j : ℕ) → word_bit got.new j ≡ true → (word_bit got.old j ≡ true) ⊎ (word_bit cand.now j ≡ true) }
    ensures grown { (free seed known : ℕ → Bool) → Grows w h free seed known ring.old front.now got.old cand.now
        → (ring.new ≡ grown (h * w) (touch w) free seed (h * w)) × ((p : ℕ) → p < h * w → seen w got.new p ≡ nat_lt 0 (slice_index ring.new p)) }
{
    copy(front, marks);
    // two calls on purpose: called once, `sweep` is compiled into its caller and finds no registers
    while sweep(ring, marks, got, cand, w, h, false) {
        if !sweep(ring, marks, got, cand, w, h, true) {
            return;
        }
    }
}
