// The scan: by row and column, the first pixel that remains becomes a post and takes away what grows from it, until none remains.
ghost use Rattle.std.specs.Prelude.{◌≡◌, true, false, ◌||◌, ℕ, ◌+◌, ◌*◌, ◌<◌, ◌≤◌, eqb, length};
ghost use Rattle.rules.specs.Images.{row_bytes};
ghost use Rattle.rules.specs.Posts.{scanned, listed};
ghost use Rattle.rules.specs.Reach.{most_bound};
ghost use Rattle.rules.specs.Tools.{each};
ghost use Rattle.laws.specs.Discs.{Halves};
ghost use Rattle.image.specs.Rows.{packed, Clean, Packs};
ghost use Rattle.image.specs.Scratch.{bit_of};
ghost use Rattle.planes.specs.Scratch.{Sizes, Ready, seen};
ghost use Rattle.pair.specs.Found.{Empty};
ghost use Rattle.posts.specs.Scanning.{ScanPlanes, Scanning};

use rules::Bound;

// Sets column c of the row whose bytes begin at `at`.
fn set_pixel(out: &mut [u8], at: usize, c: usize)
    requires { (c < 256) × (at * 8 + c < length out.old * 8) }
    ensures { (j : ℕ) → bit_of out.new j ≡ (bit_of out.old j || eqb (at * 8 + c) j) }
{
    let i = at + c / 8;
    out[i] = out[i] | (128u8 >> (c % 8));
}

// Row y, where nothing remains before it.
fn scan_row(
    rest: &mut [u64],
    got: &mut [u64],
    out: &mut [u8],
    w: usize,
    h: usize,
    n: usize,
    y: usize,
    q: Bound,
    half: &[usize],
)
    requires planes { ScanPlanes w h n rest.old got.old out.old × (y < h) × (q.0 ≤ most_bound) × Halves q.0 half.now }
    requires done { (p : ℕ) → p < y * w → seen w rest.old p ≡ false }
    ensures planes { ScanPlanes w h n rest.new got.new out.new }
    ensures scanning { Scanning w h q.0 rest.old out.old rest.new out.new }
    ensures done { (p : ℕ) → p < y * w + w → seen w rest.new p ≡ false }
{
    let at = y * n;
    let i = (y + 33) * 5;
    let mut k: usize = 0;
    while k < 4 {
        let m = rest[i + k];
        if m == 0 {
            k += 1;
        } else {
            let c = k * 64 + words::single::first(m);
            crate::taking::take(rest, got, w, h, y, c, q, half);
            set_pixel(out, at, c);
        }
    }
}

// All that remains: its posts are set in `out`, and nothing remains.
pub fn scan(
    rest: &mut [u64],
    got: &mut [u64],
    out: &mut [u8],
    w: usize,
    h: usize,
    n: usize,
    q: Bound,
    half: &[usize],
)
    requires sizes { Sizes w h × (n ≡ row_bytes w) × Ready w h rest.old × Empty got.old × Clean w h out.old }
    requires disc { (q.0 ≤ most_bound) × Halves q.0 half.now }
    ensures packs { Packs w h (λ p. packed w out.old p || listed (scanned w h q.0 (h * w) (each 0 (h * w) (seen w rest.old))) p) out.new }
    ensures ready { Ready w h rest.new × Empty got.new }
{
    let mut y = 0;
    while y < h {
        scan_row(rest, got, out, w, h, n, y, q, half);
        y += 1;
    }
}
