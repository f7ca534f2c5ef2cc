// Overlap: the first pixel that is in both part and support.
ghost use Rattle.std.specs.Prelude.{◌≡◌, true, false, ◌&&◌, ℕ, ◌+◌, ◌*◌, ◌<◌, ◌≤◌, length, get_or, unwrap_or, IfSome};
ghost use Rattle.rules.specs.Images.{row_bytes, bit_at, pixel};
ghost use Rattle.rules.specs.Judging.{overlap};
ghost use Rattle.image.specs.Rows.{packed};
ghost use Rattle.places.specs.Search.{FirstOf, flat, overlap_here, overlap_in, Sized};

// Whether no pixel is in both, by whole bytes.
fn apart(part: &[u8], sup: &[u8], n: usize) -> bool
    requires { (n ≤ length part.now) × (n ≤ length sup.now) }
    ensures { result ≡ true → (j : ℕ) → j < n → (k : ℕ) → k < 8 → (bit_at (get_or sup.now j 0) k && bit_at (get_or part.now j 0) k) ≡ false }
{
    let mut all: u8 = 0;
    for j in 0..n {
        all |= sup[j] & part[j];
    }
    all == 0
}

fn overlap_row(part: &[u8], sup: &[u8], at: usize, w: usize) -> Option<usize>
    requires { (w ≤ 256) × ((at + row_bytes w ≤ length part.now) × (at + row_bytes w ≤ length sup.now)) }
    ensures first { FirstOf 0 w (overlap_in part.now sup.now at) (unwrap_or result w) }
    ensures inside { IfSome result (λ c. c < w) }
{
    for b in 0..limits::row_bytes(w) {
        let c = 8 * b;
        let end = (w - c).min(8);
        if let Some(k) = crate::bits::bit_from(sup[at + b] & part[at + b], 0, end) {
            return Some(c + k);
        }
    }
    None
}

// The first pixel of a plane that is in both. A plane without one is passed over by whole bytes.
fn overlap_plane(part: &[u8], sup: &[u8], w: usize, h: usize) -> Option<usize>
    requires { Sized w h × ((length part.now ≡ h * row_bytes w) × (length sup.now ≡ h * row_bytes w)) }
    ensures first { FirstOf 0 (h * w) (overlap_here (packed w part.now) (packed w sup.now)) (unwrap_or result (h * w)) }
    ensures inside { IfSome result (λ p. p < h * w) }
{
    let rb = limits::row_bytes(w);
    if apart(part, sup, h * rb) {
        return None;
    }
    for row in 0..h {
        if let Some(c) = overlap_row(part, sup, row * rb, w) {
            return Some(row * w + c);
        }
    }
    None
}

// The first pixel of the stack that is in both.
pub fn overlap_at(part: &[u8], sup: &[u8], w: usize, h: usize, n: usize) -> Option<usize>
    requires { (Sized w h × (n ≤ 512)) × ((length part.now ≡ n * h * row_bytes w) × (length sup.now ≡ n * h * row_bytes w)) }
    ensures first { FirstOf 0 (n * (h * w)) (flat w h (overlap (pixel w h part.now) (pixel w h sup.now))) (unwrap_or result (n * (h * w))) }
    ensures inside { IfSome result (λ x. x < n * (h * w)) }
{
    let bytes = h * limits::row_bytes(w);
    let area = h * w;
    for i in 0..n {
        let at = i * bytes;
        let end = at + bytes;
        if let Some(p) = overlap_plane(&part[at..end], &sup[at..end], w, h) {
            return Some(i * area + p);
        }
    }
    None
}
