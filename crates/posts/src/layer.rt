// The posts of one layer, by those of the layer above and the planner's support of the layer.
ghost use Rattle.std.specs.Prelude.{◌≡◌, true, false, not, ◌&&◌, ◌||◌, ℕ, ◌*◌, ◌<◌, ◌≤◌, length};
ghost use Rattle.rules.specs.Posts.{posts_below, gone_down, plane_of};
ghost use Rattle.rules.specs.Reach.{most_bound};
ghost use Rattle.laws.specs.Discs.{Halves};
ghost use Rattle.image.specs.Loops.{Bits};
ghost use Rattle.image.specs.Rows.{packed, Clean, Packs};
ghost use Rattle.image.specs.Scratch.{bit_of};
ghost use Rattle.pair.specs.Found.{Sized};
ghost use Rattle.posts.specs.Stacks.{Scratch};

use rules::Bound;

// Whether a plane has a pixel.
fn any(s: &[u8]) -> bool
    ensures { result ≡ false → (j : ℕ) → j < length s.now * 8 → bit_of s.now j ≡ false }
{
    let mut all: u8 = 0;
    let mut i = 0;
    while i < s.len() {
        all = all | s[i];
        i += 1;
    }
    all != 0
}

// Whether two planes have a pixel in common.
fn meet(s: &[u8], up: &[u8]) -> bool
    requires { length up.now ≡ length s.now }
    ensures { result ≡ false → (j : ℕ) → j < length s.now * 8 → (bit_of s.now j && bit_of up.now j) ≡ false }
{
    let mut both: u8 = 0;
    let mut i = 0;
    while i < s.len() {
        both = both | (s[i] & up[i]);
        i += 1;
    }
    both != 0
}

// The posts that go down.
fn carry(above: &[u8], low: &[u8], out: &mut [u8])
    requires { (length above.now ≡ length out.old) × (length low.now ≡ length out.old) }
    ensures { Bits (length out.old) (λ j. bit_of above.now j && not (bit_of low.now j)) out.new }
{
    let mut i = 0;
    while i < out.len() {
        out[i] = above[i] & !low[i];
        i += 1;
    }
}

// What the overhang leaves of the support s, which is part of the layer above, and the posts that go down.
fn join(s: &[u8], up: &[u8], above: &[u8], low: &[u8], to: &mut [u8])
    requires { (length s.now ≡ length to.old) × (length up.now ≡ length to.old) × (length above.now ≡ length to.old) × (length low.now ≡ length to.old) }
    ensures { Bits (length to.old) (λ j. (bit_of s.now j && bit_of up.now j) || (bit_of above.now j && not (bit_of low.now j))) to.new }
{
    let mut i = 0;
    while i < to.len() {
        to[i] = (s[i] & up[i]) | (above[i] & !low[i]);
        i += 1;
    }
}

// What is left where posts go down: of the support in `out`, what the overhang leaves is what is part of the layer above. Of that, posts hold what the
// planner excuses in a stack of two layers, where they are the lower part, the upper part has them and what is left, and the radius is the overhang.
// What then remains is scanned.
fn thin(
    low: &[u8],
    up: &[u8],
    above: &[u8],
    out: &mut [u8],
    two: &mut [u8],
    held: &mut [u8],
    ring: &mut [u16],
    got: &mut [u64],
    plane: &mut [u64],
    w: usize,
    h: usize,
    n: usize,
    r: Bound,
    wide: &[usize],
)
    requires sized { Sized w h n × (r.0 ≤ most_bound) × Halves r.0 wide.now }
    requires clean { Clean w h low.now × Clean w h up.now × Clean w h above.now × Clean w h out.old }
    requires apart { (p : ℕ) → p < h * w → packed w above.now p ≡ true → packed w up.now p ≡ true → ⊥ }
    requires scratch { Scratch w h two.old held.old ring.old got.old plane.old }
    ensures packs { Packs w h (plane_of (posts_below w h r.0 (λ p. packed w out.old p && packed w up.now p) (gone_down (packed w low.now) (packed w above.now)))) out.new }
    ensures scratch { Scratch w h two.new held.new ring.new got.new plane.new }
{
    let size = h * n;
    join(out, up, above, low, &mut two[size..size + size]);
    carry(above, low, out);
    plan::stack::put(out, &mut two[0..size]);
    plan::stack::stack(two, held, ring, w, h, 2, n, r, false);
    rings::far::read_plane(&held[0..size], plane, w, h, n);
    crate::scan::scan(plane, got, out, w, h, n, r, wide);
}

// The posts of the layer whose part is `low` into `out`, which has the planner's support of the layer; above are the posts of the layer above, which
// have none of its part `up`, and go down within the support. The others are scratch.
pub fn layer(
    low: &[u8],
    up: &[u8],
    above: &[u8],
    out: &mut [u8],
    two: &mut [u8],
    held: &mut [u8],
    ring: &mut [u16],
    got: &mut [u64],
    plane: &mut [u64],
    w: usize,
    h: usize,
    n: usize,
    r: Bound,
    wide: &[usize],
)
    requires sized { Sized w h n × (r.0 ≤ most_bound) × Halves r.0 wide.now }
    requires clean { Clean w h low.now × Clean w h up.now × Clean w h above.now × Clean w h out.old }
    requires apart { (p : ℕ) → p < h * w → packed w above.now p ≡ true → packed w up.now p ≡ true → ⊥ }
    requires gone_down_in { (p : ℕ) → p < h * w → gone_down (packed w low.now) (packed w above.now) p ≡ true → packed w out.old p ≡ true }
    requires scratch { Scratch w h two.old held.old ring.old got.old plane.old }
    ensures packs { Packs w h (plane_of (posts_below w h r.0 (λ p. packed w out.old p && packed w up.now p) (gone_down (packed w low.now) (packed w above.now)))) out.new }
    ensures scratch { Scratch w h two.new held.new ring.new got.new plane.new }
{
    if !any(out) {
        return;
    }
    if !meet(out, up) {
        carry(above, low, out);
        return;
    }
    thin(
        low, up, above, out, two, held, ring, got, plane, w, h, n, r, wide,
    );
}
