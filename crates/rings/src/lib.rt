// Rings of one pair of layers: over the near shadow pixels, from the seeds.
#![tactic(auto)]

pub mod far;

ghost use Rattle.std.specs.Prelude.{◌≡◌, Bool, true, ℕ, ◌*◌, ◌<◌, ◌≤◌};
ghost use Rattle.rules.specs.Images.{row_bytes};
ghost use Rattle.rules.specs.Reach.{most_bound};
ghost use Rattle.laws.specs.Discs.{Halves};
ghost use Rattle.image.specs.Rows.{packed, Clean};
ghost use Rattle.words.specs.Words.{Ones};
ghost use Rattle.waves.specs.Fronts.{WavePlanes, Waved};
ghost use Rattle.waves.specs.Rows.{Room};
ghost use Rattle.rings.specs.NearRings.{Apart, NearWaves, NearBy, Rooms, Whole, near_in};

use rules::Bound;

// The rings of what is left, by sweeps, from where the last wave stood.
fn finish(
    ring: &mut [u16],
    front: &[u64],
    marks: &mut [u64],
    left: &[u64],
    got: &mut [u64],
    ahead: &[usize],
    w: usize,
    h: usize,
)
    requires planes { WavePlanes w h ahead.now front.now left.now got.old ring.old }
    requires room { Room w h ahead.now marks.old }
    ensures room { Room w h ahead.now marks.new × Room w h ahead.now got.new }
    ensures whole { (k : ℕ) → (over seed : ℕ → Bool) → 0 < k → Apart w h over seed → Waved w h k over seed front.now left.now got.old ring.old →
        Whole w h over seed got.new ring.new }
{
    sweeps::sweeps::settle(ring, front, marks, got, left, w, h);
}

// Drops what is far, and goes on after k waves: by waves while each has new pixels in 6 rows or more, and then by sweeps.
fn farther(
    low: &[u8],
    ring: &mut [u16],
    front: &mut [u64],
    next: &mut [u64],
    left: &mut [u64],
    got: &mut [u64],
    lower: &mut [u64],
    ahead: &[usize],
    w: usize,
    h: usize,
    n: usize,
    q: Bound,
    k: usize,
    half: &[usize],
    ones: &[u16],
)
    requires planes { WavePlanes w h ahead.now front.old left.old got.old ring.old }
    requires rooms { Rooms w h ahead.now left.old got.old front.old next.old lower.old }
    requires sizes { (n ≡ row_bytes w) × Clean w h low.now × (q.0 ≤ most_bound) × (0 < k) × (k < 65536) × Halves q.0 half.now × Ones ones.now }
    ensures rooms { Rooms w h ahead.now left.new got.new front.new next.new lower.new }
    ensures whole { (over seed : ℕ → Bool) → NearWaves w h q.0 k (packed w low.now) over seed front.old left.old got.old ring.old
        → Whole w h (near_in w h q.0 (packed w low.now) over) seed got.new ring.new }
{
    crate::far::read_plane(low, lower, w, h, n);
    crate::far::drop_far(lower, left, ahead, w, h, q, half);
    let r = waves::waves::waves(ring, front, next, left, got, ahead, w, h, k, 65535, 6, ones);
    if r == 0 {
        return;
    }
    finish(ring, front, next, left, got, ahead, w, h);
}

// The rings over the near pixels of what is left, where what at most t waves over it reach is near.
fn waves_first(
    low: &[u8],
    ring: &mut [u16],
    seed: &[u64],
    front: &mut [u64],
    next: &mut [u64],
    left: &mut [u64],
    got: &mut [u64],
    lower: &mut [u64],
    ahead: &[usize],
    w: usize,
    h: usize,
    n: usize,
    q: Bound,
    t: usize,
    half: &[usize],
    ones: &[u16],
)
    requires planes { WavePlanes w h ahead.now seed.now left.old got.old ring.old }
    requires rooms { Rooms w h ahead.now left.old got.old front.old next.old lower.old }
    requires sizes { (n ≡ row_bytes w) × Clean w h low.now × (q.0 ≤ most_bound) × (0 < t) × (t ≤ 32) × Halves q.0 half.now × Ones ones.now }
    ensures rooms { Rooms w h ahead.now left.new got.new front.new next.new lower.new }
    ensures whole { (shadow seeds : ℕ → Bool) → Waved w h 0 shadow seeds seed.now left.old got.old ring.old → Apart w h shadow seeds
        → NearBy w h q.0 t (packed w low.now) shadow seeds → Whole w h (near_in w h q.0 (packed w low.now) shadow) seeds got.new ring.new }
{
    let a = waves::waves::wave(ring, seed, front, left, got, ahead, w, h, 1, ones);
    if a == 0 {
        return;
    }
    let k = waves::waves::waves(ring, front, next, left, got, ahead, w, h, 1, t, 1, ones);
    if k == 0 {
        return;
    }
    farther(
        low, ring, front, next, left, got, lower, ahead, w, h, n, q, k, half, ones,
    );
}

// The rings of a pair by its shadow, which is what is left, and its seeds, which are part below; got has the pixels with a ring. Where
// no ring is near by itself, the near shadow pixels are found first.
pub fn rings(
    low: &[u8],
    ring: &mut [u16],
    seed: &[u64],
    front: &mut [u64],
    next: &mut [u64],
    left: &mut [u64],
    got: &mut [u64],
    lower: &mut [u64],
    ahead: &[usize],
    w: usize,
    h: usize,
    n: usize,
    q: Bound,
    half: &[usize],
    ones: &[u16],
)
    requires planes { WavePlanes w h ahead.now seed.now left.old got.old ring.old }
    requires rooms { Rooms w h ahead.now left.old got.old front.old next.old lower.old }
    requires sizes { (n ≡ row_bytes w) × Clean w h low.now × (q.0 ≤ most_bound) × Halves q.0 half.now × Ones ones.now }
    ensures rooms { Rooms w h ahead.now left.new got.new front.new next.new lower.new }
    ensures whole { (shadow seeds : ℕ → Bool) → Waved w h 0 shadow seeds seed.now left.old got.old ring.old → Apart w h shadow seeds
        → ((p : ℕ) → p < h * w → seeds p ≡ true → packed w low.now p ≡ true) →
        Whole w h (near_in w h q.0 (packed w low.now) shadow) seeds got.new ring.new }
{
    if q.0 < 2 {
        crate::far::read_plane(low, lower, w, h, n);
        crate::far::drop_far(lower, left, ahead, w, h, q, half);
        waves_first(
            low, ring, seed, front, next, left, got, lower, ahead, w, h, n, q, 1, half, ones,
        );
        return;
    }
    let t = roots::root(q.0 / 2);
    waves_first(
        low, ring, seed, front, next, left, got, lower, ahead, w, h, n, q, t, half, ones,
    );
}
