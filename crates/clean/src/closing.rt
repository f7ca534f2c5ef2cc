// The closing of a plane by a disc.
ghost use Rattle.std.specs.Prelude.{◌≡◌, ℕ, ◌*◌, ◌≤◌, ltb, length, get_or};
ghost use Rattle.rules.specs.Cleaning.{most_gap, closed};
ghost use Rattle.rules.specs.Images.{row_bytes};
ghost use Rattle.laws.specs.Discs.{Halves};
ghost use Rattle.image.specs.Rows.{packed, Clean, Packs};
ghost use Rattle.words.specs.Words.{column};
ghost use Rattle.planes.specs.Scratch.{Sizes, Ready, seen};

use rules::Pixels;
use words::Row;

// Sets every byte to 0.
pub fn zero(s: &mut [u8])
    ensures { (k : ℕ) → get_or s.new k 0 ≡ 0 }
{
    let mut i = 0;
    while i < s.len() {
        s[i] = 0;
        i += 1;
    }
}

// A plane in scratch as packed bytes; n is the number of bytes of a row.
fn pack(from: &[u64], out: &mut [u8], w: usize, h: usize, n: usize)
    requires { Sizes w h × (n ≡ row_bytes w) × Ready w h from.now × (length out.old ≡ h * row_bytes w) }
    ensures { Packs w h (seen w from.now) out.new }
{
    zero(out);
    let mut y = 0;
    while y < h {
        words::rows::lay(out, y * n, n, planes::rows::row(from, y + 33));
        y += 1;
    }
}

// The closing of a packed plane, into `out`: what is far from what is far from it. a and b are scratch.
pub fn close(
    s: &[u8],
    out: &mut [u8],
    a: &mut [u64],
    b: &mut [u64],
    w: usize,
    h: usize,
    n: usize,
    c: Pixels,
    all: Row,
    half: &[usize],
)
    requires sizes { Sizes w h × (n ≡ row_bytes w) × Clean w h s.now × (length out.old ≡ h * row_bytes w) × Ready w h a.old × Ready w h b.old }
    requires disc { (c.0 ≤ most_gap) × Halves (c.0 * c.0) half.now × ((j : ℕ) → column all j ≡ ltb j w) }
    ensures { Packs w h (closed w h (c.0 * c.0) (packed w s.now)) out.new × Ready w h a.new × Ready w h b.new }
{
    rings::far::read_plane(s, a, w, h, n);
    crate::far::far(a, b, w, h, c, all, half);
    crate::far::far(b, a, w, h, c, all, half);
    pack(a, out, w, h, n);
}
