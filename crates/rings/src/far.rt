// A plane read from packed bytes, and the far pixels of what is left.
ghost use Rattle.std.specs.Prelude.{◌≡◌, ℕ, ◌+◌, ◌*◌, ◌<◌, ◌≤◌, length};
ghost use Rattle.rules.specs.Images.{row_bytes};
ghost use Rattle.rules.specs.Reach.{most_bound};
ghost use Rattle.laws.specs.Discs.{Halves};
ghost use Rattle.image.specs.Rows.{packed, Clean};
ghost use Rattle.words.specs.Words.{word_bit};
ghost use Rattle.planes.specs.Scratch.{Sizes, Framed, Ready, Drawn};
ghost use Rattle.waves.specs.Rows.{Aheads, Room, RowBits};
ghost use Rattle.rings.specs.NearRings.{near_bits};

use rules::Bound;

// A packed plane into scratch; n is the number of bytes of a row.
pub fn read_plane(s: &[u8], out: &mut [u64], w: usize, h: usize, n: usize)
    requires { Sizes w h × (n ≡ row_bytes w) × Clean w h s.now × Ready w h out.old }
    ensures { Drawn w h (packed w s.now) out.new }
{
    let mut y = 0;
    while y < h {
        planes::rows::put(out, y + 33, words::rows::read(s, y * n, n));
        y += 1;
    }
}

// Drops the pixels of row y that are not near.
fn drop_row(low: &[u64], left: &mut [u64], y: usize, half: &[usize], q: Bound)
    requires { (length low.now ≡ 1610) × (length left.old ≡ 1610) × (y < 256) × (q.0 ≤ most_bound) × Halves q.0 half.now }
    ensures { (w h : ℕ) → Sizes w h → Framed w h low.now → Framed w h left.old → y < h →
        RowBits (y + 33) (near_bits w h q.0 low.now left.old) left.old left.new }
{
    let own = planes::rows::row(left, y + 33);
    if !words::rows::any(own) {
        return;
    }
    let close = planes::nearness::near_row(low, y, half, q);
    planes::rows::put(left, y + 33, words::rows::both(own, close));
}

// Drops the pixels that are not near to low, in the rows that `ahead` leads to, by the half-widths of the disc.
pub fn drop_far(
    low: &[u64],
    left: &mut [u64],
    ahead: &[usize],
    w: usize,
    h: usize,
    q: Bound,
    half: &[usize],
)
    requires { Sizes w h × Aheads h ahead.now × Ready w h low.now × Room w h ahead.now left.old × (q.0 ≤ most_bound) × Halves q.0 half.now }
    ensures { (j : ℕ) → word_bit left.new j ≡ near_bits w h q.0 low.now left.old j }
{
    let mut y = ahead[0];
    while y < h {
        drop_row(low, left, y, half, q);
        y = ahead[y + 1];
    }
}
