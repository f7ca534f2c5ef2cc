// What a ring leans on: the search over the eight neighbours.
ghost use Rattle.std.specs.Prelude.{◌≡◌, ◌+◌, ◌*◌, ◌<◌, length, get_or};
ghost use Rattle.rules.specs.Images.{row_bytes};
ghost use Rattle.rules.specs.Planning.{touch, touching};
ghost use Rattle.image.specs.Rows.{packed};
ghost use Rattle.places.specs.Search.{Sized};
ghost use Rattle.chains.specs.Amiss.{lender};

// The pixel at row r, column c of a plane.
pub fn pixel(plane: &[u8], w: usize, h: usize, r: usize, c: usize) -> bool
    requires fits { Sized w h × ((r < h) × (c < w)) }
    requires plane { length plane.now ≡ h * row_bytes w }
    ensures { result ≡ packed w plane.now (r * w + c) }
{
    places::bits::pixel_at(plane, r * limits::row_bytes(w), c)
}

// Whether a pixel of ring k may lean on row y, column x: it has ring k - 1, and for ring 1 it is a seed.
#[tactic(auto, unfolding(crate::specs::Amiss::lender, rules::specs::Planning::source, rules::specs::Planning::seeds))]
fn lends(
    low: &[u8],
    up: &[u8],
    rings: &[u16],
    w: usize,
    h: usize,
    y: usize,
    x: usize,
    k: u16,
) -> bool
    requires fits { (0 < k) × (Sized w h × ((y < h) × (x < w))) }
    requires planes { (length rings.now ≡ h * w) × ((length low.now ≡ h * row_bytes w) × (length up.now ≡ h * row_bytes w)) }
    ensures { result ≡ lender w low.now up.now rings.now k (y * w + x) }
{
    rings[y * w + x] == k - 1 && (1 < k || pixel(low, w, h, y, x) && pixel(up, w, h, y, x))
}

// Whether one of the eight neighbours lends ring k. The pixel itself, which has ring k, does not.
pub fn touches(
    low: &[u8],
    up: &[u8],
    rings: &[u16],
    w: usize,
    h: usize,
    r: usize,
    c: usize,
    k: u16,
) -> bool
    requires fits { (0 < k) × (Sized w h × ((r < h) × (c < w))) }
    requires planes { (length rings.now ≡ h * w) × ((length low.now ≡ h * row_bytes w) × (length up.now ≡ h * row_bytes w)) }
    requires own { k ≡ get_or rings.now (r * w + c) 0 }
    ensures { result ≡ touching (h * w) (touch w) (lender w low.now up.now rings.now k) (r * w + c) }
{
    let left = c.saturating_sub(1);
    let right = (c + 2).min(w);
    let mut found = false;
    'rows: for y in r.saturating_sub(1)..(r + 2).min(h) {
        for x in left..right {
            if lends(low, up, rings, w, h, y, x, k) {
                found = true;
                break 'rows;
            }
        }
    }
    found
}
