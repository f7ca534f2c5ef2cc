// The stack from the top layer down. The lent posts have the planner's support first, and each layer is worked on in its own stretch of them.
ghost use Rattle.std.specs.Prelude.{◌≡◌, ℕ, suc, ◌+◌, ◌-◌, ◌*◌, ◌<◌, ◌≤◌, get_or, length};
ghost use Rattle.rules.specs.Planning.{planned_bytes};
ghost use Rattle.rules.specs.Posts.{posts_bytes};
ghost use Rattle.rules.specs.Reach.{most_bound};
ghost use Rattle.laws.specs.Discs.{Halves};
ghost use Rattle.pair.specs.Found.{Sized};
ghost use Rattle.posts.specs.Stacks.{Lent, Scratch, Down};

use rules::Bound;

// Layer i of a stack whose posts are there from layer i + 1 on; above are those of layer i + 1, and then those of layer i.
fn layer_at(
    part: &[u8],
    posts: &mut [u8],
    above: &mut [u8],
    two: &mut [u8],
    held: &mut [u8],
    ring: &mut [u16],
    got: &mut [u64],
    plane: &mut [u64],
    w: usize,
    h: usize,
    n: usize,
    rb: usize,
    q: Bound,
    r: Bound,
    i: usize,
    wide: &[usize],
)
    requires sized { Sized w h rb × (r.0 ≤ most_bound) × Halves r.0 wide.now × (suc i < n) }
    requires lent { Lent w h n part.now posts.old }
    requires down { Down w h n q.0 r.0 (i + 1) part.now posts.old above.old }
    requires scratch { Scratch w h two.old held.old ring.old got.old plane.old }
    ensures down { Down w h n q.0 r.0 i part.now posts.new above.new }
    ensures scratch { Scratch w h two.new held.new ring.new got.new plane.new }
{
    let size = h * rb;
    let a = i * size;
    let m = a + size;
    crate::layer::layer(
        &part[a..m],
        &part[m..m + size],
        above,
        &mut posts[a..m],
        two,
        held,
        ring,
        got,
        plane,
        w,
        h,
        rb,
        r,
        wide,
    );
    plan::stack::put(&posts[a..m], above);
}

// All layers below the top one, downward.
fn layers(
    part: &[u8],
    posts: &mut [u8],
    above: &mut [u8],
    two: &mut [u8],
    held: &mut [u8],
    ring: &mut [u16],
    got: &mut [u64],
    plane: &mut [u64],
    w: usize,
    h: usize,
    n: usize,
    rb: usize,
    q: Bound,
    r: Bound,
    wide: &[usize],
)
    requires sized { Sized w h rb × (r.0 ≤ most_bound) × Halves r.0 wide.now × (0 < n) }
    requires lent { Lent w h n part.now posts.old }
    requires down { Down w h n q.0 r.0 (n - 1) part.now posts.old above.old }
    requires scratch { Scratch w h two.old held.old ring.old got.old plane.old }
    ensures { posts.new ≡ posts_bytes w h n (λ k. q.0) r.0 part.now }
{
    let mut i = n - 1;
    while 0 < i {
        i -= 1;
        layer_at(
            part, posts, above, two, held, ring, got, plane, w, h, n, rb, q, r, i, wide,
        );
    }
}

// Thins the planner's support to posts. The table and the scratch of its layers are made here and lent down; ring is 0.
fn thinned(
    part: &[u8],
    posts: &mut [u8],
    ring: &mut [u16],
    w: usize,
    h: usize,
    n: usize,
    rb: usize,
    q: Bound,
    r: Bound,
)
    requires sized { Sized w h rb × (r.0 ≤ most_bound) × (0 < n) }
    requires lent { Lent w h n part.now posts.old × (length ring.old ≡ h * w) × ((p : ℕ) → p < h * w → get_or ring.old p 0 ≡ 0) }
    requires planned { posts.old ≡ planned_bytes w h n (λ k. q.0) part.now }
    ensures { posts.new ≡ posts_bytes w h n (λ k. q.0) r.0 part.now }
{
    let size = h * rb;
    let mut above = [0u8; 8192];
    let mut two = [0u8; 16384];
    let mut held = [0u8; 16384];
    let mut got = [0u64; 1610];
    let mut plane = [0u64; 1610];
    let mut wide = [0usize; 33];
    roots::halves(r.0, &mut wide);
    layers(
        part,
        posts,
        &mut above[..size],
        &mut two[..size + size],
        &mut held[..size + size],
        ring,
        &mut got,
        &mut plane,
        w,
        h,
        n,
        rb,
        q,
        r,
        &wide,
    );
}

// Plans the stack, and thins its support, where the radius reaches a pixel.
fn planned(
    part: &[u8],
    posts: &mut [u8],
    ring: &mut [u16],
    w: usize,
    h: usize,
    n: usize,
    rb: usize,
    q: Bound,
    r: Bound,
)
    requires sized { Sized w h rb × (q.0 ≤ most_bound) × (r.0 ≤ most_bound) × (0 < n) }
    requires lent { Lent w h n part.now posts.old × (length ring.old ≡ h * w) × ((p : ℕ) → p < h * w → get_or ring.old p 0 ≡ 0) }
    ensures { posts.new ≡ posts_bytes w h n (λ k. q.0) r.0 part.now }
{
    plan::stack::stack(part, posts, ring, w, h, n, rb, q, false);
    if r.0 == 0 {
        return;
    }
    thinned(part, posts, ring, w, h, n, rb, q, r);
}

// The whole stack, for the bounds q of the overhang and r of the radius.
pub fn stack(
    part: &[u8],
    posts: &mut [u8],
    w: usize,
    h: usize,
    n: usize,
    rb: usize,
    q: Bound,
    r: Bound,
)
    requires sized { Sized w h rb × (q.0 ≤ most_bound) × (r.0 ≤ most_bound) × (0 < n) }
    requires lent { Lent w h n part.now posts.old }
    ensures { posts.new ≡ posts_bytes w h n (λ k. q.0) r.0 part.now }
{
    let area = h * w;
    let mut ring = [0u16; 65536];
    planned(part, posts, &mut ring[..area], w, h, n, rb, q, r);
}
