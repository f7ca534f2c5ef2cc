// The stack from the top layer down. Each layer is worked on in its own stretches of the lent buffers.
ghost use Rattle.std.specs.Prelude.{◌≡◌, true, false, cond, ℕ, suc, ◌+◌, ◌-◌, ◌*◌, ◌<◌, ◌≤◌, length, get_or};
ghost use Rattle.rules.specs.Images.{row_bytes, padding_set};
ghost use Rattle.rules.specs.Planning.{planned_rings, planned_bytes};
ghost use Rattle.rules.specs.Reach.{most_bound};
ghost use Rattle.laws.specs.Discs.{Halves};
ghost use Rattle.words.specs.Words.{Ones};
ghost use Rattle.image.specs.Rows.{Packs, plane, OnlyPlane};
ghost use Rattle.pair.specs.Found.{Sized, Spare};
ghost use Rattle.plan.specs.Stacks.{Buffers, Down};

use rules::Bound;

// Copies a plane.
pub fn put(from: &[u8], to: &mut [u8])
    requires { length to.old ≡ length from.now }
    ensures { to.new ≡ from.now }
{
    let mut i = 0;
    while i < from.len() {
        to[i] = from[i];
        i += 1;
    }
}

// From the rings of one pair to those of the next: a plane, or none where all pairs share one.
fn plane_step(keep: bool, area: usize) -> usize
    ensures { result ≡ cond keep area 0 }
{
    if keep { area } else { 0 }
}

// Layer i of a stack that is planned from layer i + 1 on; above is the support of layer i + 1, and then that of layer i.
fn layer_at(
    part: &[u8],
    support: &mut [u8],
    rings: &mut [u16],
    above: &mut [u8],
    left: &mut [u64],
    got: &mut [u64],
    front: &mut [u64],
    next: &mut [u64],
    seed: &mut [u64],
    lower: &mut [u64],
    ahead: &mut [usize],
    w: usize,
    h: usize,
    n: usize,
    rb: usize,
    q: Bound,
    i: usize,
    half: &[usize],
    ones: &[u16],
    keep: bool,
)
    requires sized { Sized w h rb × (q.0 ≤ most_bound) × (suc i < n) × Halves q.0 half.now × Ones ones.now }
    requires buffers { Buffers keep w h n part.now support.old rings.old }
    requires down { Down keep w h n q.0 (i + 1) part.now support.old rings.old above.old }
    requires spare { Spare w h left.old got.old front.old next.old seed.old lower.old ahead.old }
    ensures down { Down keep w h n q.0 i part.now support.new rings.new above.new }
    ensures spare { Spare w h left.new got.new front.new next.new seed.new lower.new ahead.new }
{
    let size = h * rb;
    let area = h * w;
    let a = i * size;
    let m = a + size;
    let step = plane_step(keep, area);
    let x = i * step;
    pair::layer(
        &part[a..m],
        &part[m..m + size],
        above,
        &mut support[a..m],
        &mut rings[x..x + area],
        left,
        got,
        front,
        next,
        seed,
        lower,
        ahead,
        w,
        h,
        rb,
        q,
        half,
        ones,
        keep,
    );
    put(&support[a..m], above);
}

// All layers below the top one, downward.
fn layers(
    part: &[u8],
    support: &mut [u8],
    rings: &mut [u16],
    above: &mut [u8],
    left: &mut [u64],
    got: &mut [u64],
    front: &mut [u64],
    next: &mut [u64],
    seed: &mut [u64],
    lower: &mut [u64],
    ahead: &mut [usize],
    w: usize,
    h: usize,
    n: usize,
    rb: usize,
    q: Bound,
    half: &[usize],
    ones: &[u16],
    keep: bool,
)
    requires sized { Sized w h rb × (q.0 ≤ most_bound) × (0 < n) × Halves q.0 half.now × Ones ones.now }
    requires buffers { Buffers keep w h n part.now support.old rings.old }
    requires down { Down keep w h n q.0 (n - 1) part.now support.old rings.old above.old }
    requires spare { Spare w h left.old got.old front.old next.old seed.old lower.old ahead.old }
    ensures support_planned { support.new ≡ planned_bytes w h n (λ k. q.0) part.now }
    ensures rings_planned { (keep ≡ true → rings.new ≡ planned_rings w h n (λ k. q.0) part.now) × (keep ≡ false → (p : ℕ) → p < h * w → get_or rings.new p 0 ≡ 0) }
{
    let mut i = n - 1;
    while 0 < i {
        i -= 1;
        layer_at(
            part, support, rings, above, left, got, front, next, seed, lower, ahead, w, h, n, rb,
            q, i, half, ones, keep,
        );
    }
}

// The top layer has no support.
pub fn top(support: &mut [u8], above: &[u8], w: usize, h: usize, n: usize, rb: usize)
    requires sized { Sized w h rb × (0 < n) }
    requires lent { (length support.old ≡ n * h * row_bytes w) × Packs w h (λ p. false) above.now }
    ensures { (plane (h * row_bytes w) (n - 1) support.new ≡ above.now) × OnlyPlane (h * row_bytes w) (n - 1) support.new support.old }
{
    let size = h * rb;
    let a = (n - 1) * size;
    put(above, &mut support[a..a + size]);
}

// The whole stack, for the bound q on squared distances. rings has a plane for each pair, or without `keep` one plane for all of them, which is 0 before and
// afterwards. The tables and the scratch of its pairs are made here and lent down.
pub fn stack(
    part: &[u8],
    support: &mut [u8],
    rings: &mut [u16],
    w: usize,
    h: usize,
    n: usize,
    rb: usize,
    q: Bound,
    keep: bool,
)
    requires sized { Sized w h rb × (q.0 ≤ most_bound) × (0 < n) }
    requires buffers { Buffers keep w h n part.now support.old rings.old }
    ensures support_planned { support.new ≡ planned_bytes w h n (λ k. q.0) part.now }
    ensures rings_planned { (keep ≡ true → rings.new ≡ planned_rings w h n (λ k. q.0) part.now) × (keep ≡ false → (p : ℕ) → p < h * w → get_or rings.new p 0 ≡ 0) }
{
    let size = h * rb;
    let mut above = [0u8; 8192];
    top(support, &above[..size], w, h, n, rb);
    let mut left = [0u64; 1610];
    let mut got = [0u64; 1610];
    let mut front = [0u64; 1610];
    let mut next = [0u64; 1610];
    let mut seed = [0u64; 1610];
    let mut lower = [0u64; 1610];
    let mut ahead = [0usize; 257];
    let mut half = [0usize; 33];
    roots::halves(q.0, &mut half);
    let mut ones = [0u16; 2048];
    words::ones::fill(&mut ones);
    layers(
        part,
        support,
        rings,
        &mut above[..size],
        &mut left,
        &mut got,
        &mut front,
        &mut next,
        &mut seed,
        &mut lower,
        &mut ahead,
        w,
        h,
        n,
        rb,
        q,
        &half,
        &ones,
        keep,
    );
}
