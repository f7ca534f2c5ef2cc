// Eight rings at once, held against the bits of a byte.
ghost use Rattle.std.specs.Prelude.{◌≡◌, true, ℕ, ◌+◌, ◌<◌, ◌≤◌, length, get_or};
ghost use Rattle.rules.specs.Tools.{bit};
ghost use Rattle.rules.specs.Images.{bit_at};
ghost use Rattle.words.specs.Words.{Ones};

// Whether the eight pixels from x on have ring 1 where m has a bit, and else none.
pub fn alike(rings: &[u16], ones: &[u16], x: usize, m: u8) -> bool
    requires { (x + 8 ≤ length rings.now) × Ones ones.now }
    ensures { result ≡ true → (k : ℕ) → k < 8 → get_or rings.now (x + k) 0 ≡ bit (bit_at m k) }
{
    let at = usize::from(m) * 8;
    let mut all: u16 = 0;
    for k in 0..8 {
        all |= rings[x + k] ^ ones[at + k];
    }
    all == 0
}
