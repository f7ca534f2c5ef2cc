// The rows of a pair: found before its rings grow, and emptied afterwards.
ghost use Rattle.std.specs.Prelude.{◌≡◌, ℕ, ◌+◌, ◌*◌, ◌<◌, ◌≤◌, length};
ghost use Rattle.rules.specs.Images.{row_bytes};
ghost use Rattle.rules.specs.Planning.{seeds, shadow};
ghost use Rattle.image.specs.Rows.{packed, Clean};
ghost use Rattle.planes.specs.Scratch.{Drawn, Ready, Sizes};
ghost use Rattle.waves.specs.Rows.{Aheads, Room};
ghost use Rattle.pair.specs.ExcuseLaws.{ExcusedTo};
ghost use Rattle.pair.specs.Found.{Empty, FoundRow};

// Row y: its seeds, and its shadow if it has some. Answers the first row from y on that has shadow; `last` is that from y + 1 on.
fn find_row(
    low: &[u8],
    up: &[u8],
    left: &mut [u64],
    seed: &mut [u64],
    y: usize,
    n: usize,
    last: usize,
) -> usize
    requires { (y * n + n ≤ length low.now) × (y * n + n ≤ length up.now) × (n ≤ 32) × (y < 256) × (length left.old ≡ 1610) × (length seed.old ≡ 1610) }
    ensures { FoundRow y n last result low.now up.now left.old left.new seed.old seed.new }
{
    let k = y + 33;
    let both = words::rows::read_two(low, up, y * n, n);
    let u = both.up;
    let l = both.low;
    planes::rows::put(seed, k, words::rows::both(l, u));
    let s = words::rows::but_not(u, l);
    if !words::rows::any(s) {
        return last;
    }
    planes::rows::put(left, k, s);
    y
}

// The shadow and the seeds of a pair, and in `ahead` the rows that have shadow.
pub fn find(
    low: &[u8],
    up: &[u8],
    left: &mut [u64],
    seed: &mut [u64],
    ahead: &mut [usize],
    w: usize,
    h: usize,
    n: usize,
)
    requires sizes { Sizes w h × (n ≡ row_bytes w) × Clean w h low.now × Clean w h up.now }
    requires empty { Empty left.old × Ready w h seed.old × (length ahead.old ≡ 257) }
    ensures aheads { Aheads h ahead.new × Room w h ahead.new left.new }
    ensures shadow_drawn { Drawn w h (shadow (packed w low.now) (packed w up.now)) left.new }
    ensures seeds_drawn { Drawn w h (seeds (packed w low.now) (packed w up.now)) seed.new }
{
    ahead[h] = h;
    let mut last = h;
    let mut y = h;
    while 0 < y {
        y -= 1;
        last = find_row(low, up, left, seed, y, n, last);
        ahead[y] = last;
    }
}

// Empties four planes in the rows that `ahead` leads to.
pub fn empty(
    a: &mut [u64],
    b: &mut [u64],
    c: &mut [u64],
    d: &mut [u64],
    ahead: &[usize],
    w: usize,
    h: usize,
)
    requires { Sizes w h × Aheads h ahead.now × Room w h ahead.now a.old × Room w h ahead.now b.old × Room w h ahead.now c.old × Room w h ahead.now d.old }
    ensures { Empty a.new × Empty b.new × Empty c.new × Empty d.new }
{
    let mut y = ahead[0];
    while y < h {
        let none = words::rows::none();
        planes::rows::put(a, y + 33, none);
        planes::rows::put(b, y + 33, none);
        planes::rows::put(c, y + 33, none);
        planes::rows::put(d, y + 33, none);
        y = ahead[y + 1];
    }
}

// Takes the excused pixels off the support of a layer, in the rows that `ahead` leads to.
pub fn excuse(out: &mut [u8], got: &[u64], ahead: &[usize], w: usize, h: usize, n: usize)
    requires { Sizes w h × Aheads h ahead.now × Room w h ahead.now got.now × (0 < n) × (n ≤ 32) × (length out.old ≡ h * n) }
    ensures { ExcusedTo n h got.now out.old out.new }
{
    let mut y = ahead[0];
    while y < h {
        let r = y;
        y = ahead[r + 1];
        let x = planes::rows::row(got, r + 33);
        if words::rows::any(x) {
            words::rows::take(out, r * n, n, x);
        }
    }
}
