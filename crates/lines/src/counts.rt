// How many pixels of a layer are filled, and how many of a pair are excused.
ghost use Rattle.std.specs.Prelude.{◌≡◌, ℕ, ◌+◌, ◌-◌, ◌*◌, ◌<◌, ◌≤◌, length};
ghost use Rattle.rules.specs.Tools.{count};
ghost use Rattle.rules.specs.Tools as tools;
ghost use Rattle.rules.specs.Images as images;
ghost use Rattle.rules.specs.Images.{row_bytes, ring_at};
ghost use Rattle.rules.specs.Planning as planning;
ghost use Rattle.lines.specs.Counts.{Layer};

use limits::row_bytes;
use places::bits::bit;

// Pixel p of layer i.
fn pixel(s: &[u8], w: usize, h: usize, i: usize, p: usize) -> bool
    requires { Layer w h i s.now × (p < h * w) }
    ensures { result ≡ images.pixel w h s.now i p }
{
    let rb = row_bytes(w);
    let c = p % w;
    let row = i * h + p / w;
    bit(s[row * rb + c / 8], c % 8)
}

fn one(b: bool) -> usize
    ensures { (result ≡ tools.bit b) × (result < 2) }
{
    if b { 1 } else { 0 }
}

// The filled pixels of layer i.
pub fn filled(s: &[u8], w: usize, h: usize, i: usize) -> usize
    requires { Layer w h i s.now }
    ensures { (result ≡ count (h * w) (images.pixel w h s.now i)) × (result ≤ 65536) }
{
    let all = h * w;
    let mut n = 0;
    let mut p = 0;
    while p < all {
        n += one(pixel(s, w, h, i, p));
        p += 1;
    }
    n
}

// The excused pixels of pair i.
pub fn excused(rings: &[u16], w: usize, h: usize, i: usize) -> usize
    requires { (w ≤ 256) × ((h ≤ 256) × ((i < 512) × ((i + 1) * (h * w) ≤ length rings.now))) }
    ensures { (result ≡ count (h * w) (planning.excused (ring_at w h rings.now) i)) × (result ≤ 65536) }
{
    let all = h * w;
    let start = i * all;
    let mut n = 0;
    let mut p = 0;
    while p < all {
        n += one(0 < rings[start + p]);
        p += 1;
    }
    n
}
