// Whether a whole stack is sure.
ghost use Rattle.std.specs.Prelude.{◌≡◌, true, ℕ, ◌-◌, ◌*◌, ◌<◌, ◌≤◌};
ghost use Rattle.laws.specs.Discs.{Halves};
ghost use Rattle.words.specs.Words.{Ones};
ghost use Rattle.quick.specs.Sureness.{Whole, Fine};
ghost use Rattle.rules.specs.Reach.{most_bound};

use rules::Bound;

// Whether no ring of the stack is bad and nothing in it is unheld, pair by pair.
fn pairs(
    part: &[u8],
    sup: &[u8],
    rings: &[u16],
    ones: &[u16],
    halves: &[usize],
    w: usize,
    h: usize,
    n: usize,
    q: Bound,
    t: u16,
) -> bool
    requires fits { Whole w h n part.now sup.now rings.now }
    requires scratch { (Ones ones.now × Halves q.0 halves.now) × ((2 * (t * t) ≤ q.0) × (q.0 ≤ most_bound)) }
    ensures { result ≡ true → (x : ℕ) → x < (n - 1) * (h * w) → Fine w h q.0 part.now sup.now rings.now x }
{
    let bytes = h * limits::row_bytes(w);
    let area = h * w;
    for i in 0..n - 1 {
        let at = i * bytes;
        let mid = at + bytes;
        let end = mid + bytes;
        let x = i * area;
        let next = x + area;
        let s = crate::pair::pair(
            &part[at..mid],
            &part[mid..end],
            &sup[at..mid],
            &sup[mid..end],
            &rings[x..next],
            ones,
            halves,
            w,
            h,
            q,
            t,
        );
        if !(s.rings && s.held) {
            return false;
        }
    }
    true
}

// The largest ring that is near by itself, for the bound q on squared distances.
pub fn trusted(q: Bound) -> u16
    requires { q.0 ≤ most_bound }
    ensures { 2 * (result * result) ≤ q.0 }
{
    roots::root(q.0 / 2) as u16
}

// Whether no ring of the stack is bad and nothing in it is unheld. Only a yes is relied on.
pub fn sure(part: &[u8], sup: &[u8], rings: &[u16], w: usize, h: usize, n: usize, q: Bound) -> bool
    requires { Whole w h n part.now sup.now rings.now × (q.0 ≤ most_bound) }
    ensures { result ≡ true → (x : ℕ) → x < (n - 1) * (h * w) → Fine w h q.0 part.now sup.now rings.now x }
{
    let mut ones = [0u16; 2048];
    words::ones::fill(&mut ones);
    let mut halves = [0usize; 33];
    roots::halves(q.0, &mut halves);
    pairs(part, sup, rings, &ones, &halves, w, h, n, q, trusted(q))
}
