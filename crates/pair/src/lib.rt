// One pair of layers: its rings, and the support of its lower layer.
#![tactic(auto)]

pub mod bare;
pub mod rows;

ghost use Rattle.std.specs.Prelude.{◌≡◌, true, false, not, ◌&&◌, ◌||◌, ℕ, ◌*◌, ◌<◌, ◌≤◌, length, get_or};
ghost use Rattle.rules.specs.Images.{row_bytes};
ghost use Rattle.rules.specs.Reach.{most_bound};
ghost use Rattle.laws.specs.Discs.{Halves};
ghost use Rattle.image.specs.Loops.{Bits, but_not};
ghost use Rattle.image.specs.Rows.{packed, Clean, Packs};
ghost use Rattle.image.specs.Scratch.{bit_of};
ghost use Rattle.words.specs.Words.{Ones};
ghost use Rattle.planes.specs.Scratch.{Sizes};
ghost use Rattle.pair.specs.Found.{Spare};
ghost use Rattle.pair.specs.HangLaws.{Excused};
ghost use Rattle.pair.specs.Pairs.{pair_rings, pair_support};

use rules::Bound;

// Sets every ring to 0.
fn zero(ring: &mut [u16])
    ensures { (p : ℕ) → p < length ring.old → get_or ring.new p 0 ≡ 0 }
{
    let mut i = 0;
    while i < ring.len() {
        ring[i] = 0;
        i += 1;
    }
}

// Rings that are wanted begin as 0; others are 0 already.
fn begin(wanted: bool, ring: &mut [u16])
    requires { wanted ≡ false → (p : ℕ) → p < length ring.old → get_or ring.old p 0 ≡ 0 }
    ensures { (p : ℕ) → p < length ring.old → get_or ring.new p 0 ≡ 0 }
{
    if wanted {
        zero(ring);
    }
}

// The support of a layer into `out` where every pixel that hangs needs it, with the support of the layer above; true where a pixel hangs:
// one of the upper layer with none of the lower one below it.
fn support(up: &[u8], low: &[u8], above: &[u8], out: &mut [u8]) -> bool
    requires { (length up.now ≡ length out.old) × (length low.now ≡ length out.old) × (length above.now ≡ length out.old) }
    ensures bits { Bits (length out.old) (λ j. (bit_of up.now j || bit_of above.now j) && not (bit_of low.now j)) out.new }
    ensures none { result ≡ false → (j : ℕ) → j < length low.now * 8 → but_not (bit_of up.now j) (bit_of low.now j) ≡ false }
{
    let mut all: u8 = 0;
    let mut i = 0;
    while i < out.len() {
        all = all | (up[i] & !low[i]);
        out[i] = (up[i] | above[i]) & !low[i];
        i += 1;
    }
    all != 0
}

// The rings of a pair with shadow; its excused pixels are taken off the support. Rings that are not wanted are 0 again afterwards.
fn hanging(
    low: &[u8],
    up: &[u8],
    out: &mut [u8],
    ring: &mut [u16],
    left: &mut [u64],
    got: &mut [u64],
    front: &mut [u64],
    next: &mut [u64],
    seed: &mut [u64],
    lower: &mut [u64],
    ahead: &mut [usize],
    w: usize,
    h: usize,
    n: usize,
    q: Bound,
    half: &[usize],
    ones: &[u16],
    wanted: bool,
)
    requires sizes { Sizes w h × (n ≡ row_bytes w) × (q.0 ≤ most_bound) × Halves q.0 half.now × Ones ones.now }
    requires clean { Clean w h low.now × Clean w h up.now × (length out.old ≡ h * row_bytes w) × (length ring.old ≡ h * w) × ((p : ℕ) → p < h * w → get_or ring.old p 0 ≡ 0) }
    requires spare { Spare w h left.old got.old front.old next.old seed.old lower.old ahead.old }
    ensures rings { (wanted ≡ true → ring.new ≡ pair_rings w h q.0 (packed w low.now) (packed w up.now)) × (wanted ≡ false → (p : ℕ) → p < h * w → get_or ring.new p 0 ≡ 0) }
    ensures excused { Excused w h (pair_rings w h q.0 (packed w low.now) (packed w up.now)) out.old out.new }
    ensures spare { Spare w h left.new got.new front.new next.new seed.new lower.new ahead.new }
{
    crate::rows::find(low, up, left, seed, ahead, w, h, n);
    rings::rings(
        low, ring, seed, front, next, left, got, lower, ahead, w, h, n, q, half, ones,
    );
    crate::rows::excuse(out, got, ahead, w, h, n);
    crate::bare::unless(wanted, ring, got, ahead, w, h);
    crate::rows::empty(left, got, front, next, ahead, w, h);
}

// The rings of a pair, and the support of its lower layer; above is that of its upper layer, which has no pixel of that layer. half has the half-widths of the
// disc, and ones the bits of every byte as numbers. The other planes are scratch, empty between pairs. Where rings are not wanted, ring is scratch too, 0 between
// pairs.
pub fn layer(
    low: &[u8],
    up: &[u8],
    above: &[u8],
    out: &mut [u8],
    ring: &mut [u16],
    left: &mut [u64],
    got: &mut [u64],
    front: &mut [u64],
    next: &mut [u64],
    seed: &mut [u64],
    lower: &mut [u64],
    ahead: &mut [usize],
    w: usize,
    h: usize,
    n: usize,
    q: Bound,
    half: &[usize],
    ones: &[u16],
    wanted: bool,
)
    requires sizes { Sizes w h × (n ≡ row_bytes w) × (q.0 ≤ most_bound) × Halves q.0 half.now × Ones ones.now }
    requires clean { Clean w h low.now × Clean w h up.now × Clean w h above.now × (length out.old ≡ h * row_bytes w) × (length ring.old ≡ h * w) }
    requires apart { (p : ℕ) → p < h * w → packed w above.now p ≡ true → packed w up.now p ≡ true → ⊥ }
    requires spare { Spare w h left.old got.old front.old next.old seed.old lower.old ahead.old }
    requires unasked { wanted ≡ false → (p : ℕ) → p < h * w → get_or ring.old p 0 ≡ 0 }
    ensures rings { (wanted ≡ true → ring.new ≡ pair_rings w h q.0 (packed w low.now) (packed w up.now)) × (wanted ≡ false → (p : ℕ) → p < h * w → get_or ring.new p 0 ≡ 0) }
    ensures packs { Packs w h (pair_support w h q.0 (packed w low.now) (packed w up.now) (packed w above.now)) out.new }
    ensures spare { Spare w h left.new got.new front.new next.new seed.new lower.new ahead.new }
{
    begin(wanted, ring);
    if !support(up, low, above, out) {
        return;
    }
    hanging(
        low, up, out, ring, left, got, front, next, seed, lower, ahead, w, h, n, q, half, ones,
        wanted,
    );
}
