// Whether pixels have rings.
ghost use Rattle.std.specs.Prelude.{◌≡◌, true, ℕ, ◌+◌, ◌*◌, ◌<◌, ◌≤◌, length, get_or};
ghost use Rattle.leans.specs.Leaning.{Bare};

// All rings of n pixels from pixel x on, joined: none is larger.
pub fn gather(rings: &[u16], x: usize, n: usize) -> u16
    requires { x + n ≤ length rings.now }
    ensures { (j : ℕ) → j < n → get_or rings.now (x + j) 0 ≤ result }
{
    let mut all: u16 = 0;
    for j in 0..n {
        all |= rings[x + j];
    }
    all
}

// Whether none of up to 64 pixels from pixel x on has a ring. A loop of a fixed length costs least.
pub fn none(rings: &[u16], x: usize, n: usize) -> bool
    requires { x + n ≤ length rings.now }
    ensures { result ≡ true → (j : ℕ) → j < n → get_or rings.now (x + j) 0 ≡ 0 }
{
    if n == 64 {
        return gather(rings, x, 64) == 0;
    }
    gather(rings, x, n) == 0
}

// The same of any number, by stretches of 256.
pub fn quiet(rings: &[u16], x: usize, n: usize) -> bool
    requires { x + n ≤ length rings.now }
    ensures { result ≡ true → (j : ℕ) → j < n → get_or rings.now (x + j) 0 ≡ 0 }
{
    let mut all: u16 = 0;
    for k in 0..n / 256 {
        all |= gather(rings, x + k * 256, 256);
    }
    all | gather(rings, x + n / 256 * 256, n % 256) == 0
}

// Whether no pixel of the rows from a up to b has a ring.
pub fn bare(rings: &[u16], a: usize, b: usize, w: usize) -> bool
    requires { (a ≤ b) × (b * w ≤ length rings.now) × (b * w ≤ 65536) }
    ensures { result ≡ true → (y : ℕ) → a ≤ y → y < b → Bare w rings.now y }
{
    quiet(rings, a * w, (b - a) * w)
}
