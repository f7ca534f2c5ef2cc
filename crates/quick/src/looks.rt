// The bytes of a pair: whether it has shadow, and whether support hangs in it.
ghost use Rattle.std.specs.Prelude.{◌≡◌, false, not, ◌&&◌, ◌||◌, ℕ, ◌+◌, ◌<◌, ◌≤◌, length};
ghost use Rattle.rules.specs.Images.{bit_at};
ghost use Rattle.quick.specs.Sureness.{Long, NoShadow, NoneHangs};

use crate::Seen;

fn shadow(low: u8, up: u8) -> u8
    ensures { (k : ℕ) → k < 8 → bit_at result k ≡ (bit_at up k && not (bit_at low k)) }
{
    up & !low
}

fn hanging(low: u8, below: u8, above: u8) -> u8
    ensures { (k : ℕ) → k < 8 → bit_at result k ≡ (bit_at above k && not (bit_at low k || bit_at below k)) }
{
    above & !(low | below)
}

// The shadow of the n bytes from byte a on, joined.
fn gathered(low: &[u8], up: &[u8], a: usize, n: usize) -> u8
    requires { (a + n ≤ length low.now) × (a + n ≤ length up.now) }
    ensures { result ≡ 0 → (j : ℕ) → j < n → NoShadow low.now up.now (a + j) }
{
    let mut shade: u8 = 0;
    for j in 0..n {
        shade |= shadow(low[a + j], up[a + j]);
    }
    shade
}

// Whether the row of n bytes from byte a on has shadow. A loop of a fixed length costs least.
pub fn shaded(low: &[u8], up: &[u8], a: usize, n: usize) -> bool
    requires { (a + n ≤ length low.now) × (a + n ≤ length up.now) }
    ensures { result ≡ false → (j : ℕ) → j < n → NoShadow low.now up.now (a + j) }
{
    if n == 32 {
        return gathered(low, up, a, 32) != 0;
    }
    gathered(low, up, a, n) != 0
}

// What n bytes tell.
pub fn look(low: &[u8], up: &[u8], below: &[u8], above: &[u8], n: usize) -> Seen
    requires { Long n low.now up.now below.now above.now }
    ensures no_shadow { result.shadow ≡ 0 → (j : ℕ) → j < n → NoShadow low.now up.now j }
    ensures none_hangs { result.hung ≡ 0 → (j : ℕ) → j < n → NoneHangs low.now below.now above.now j }
{
    let mut shade: u8 = 0;
    let mut hung: u8 = 0;
    for j in 0..n {
        shade |= shadow(low[j], up[j]);
        hung |= hanging(low[j], below[j], above[j]);
    }
    Seen {
        shadow: shade,
        hung,
    }
}
