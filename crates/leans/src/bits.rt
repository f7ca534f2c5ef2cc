// Bits, and those of words.
ghost use Rattle.std.specs.Prelude.{◌≡◌, not, ◌&&◌, ◌||◌, ℕ, ◌+◌, ◌*◌, ◌/◌, ◌<◌, eqb, length};
ghost use Rattle.rules.specs.Images.{bit_at};
ghost use Rattle.words.specs.Words.{bit_of_word, word_bit};

pub fn bit(x: u64, k: usize) -> bool
    requires { k < 64 }
    ensures { result ≡ bit_of_word x k }
{
    places::bits::digit(x, 63 - k)
}

// Bit c of a row of four words.
pub fn column_at(l: &[u64], c: usize) -> bool
    requires { (length l.now ≡ 4) × (c < 256) }
    ensures { result ≡ word_bit l.now c }
{
    bit(l[c / 64], c % 64)
}

// The bits of x outside byte b, and those of y.
pub fn patched(x: u64, y: u64, b: usize) -> u64
    requires { b < 8 }
    ensures { (k : ℕ) → k < 64 → bit_of_word result k ≡ ((bit_of_word x k && not (eqb (k / 8) b)) || bit_of_word y k) }
{
    (x & !(255u64 << (56 - 8 * b))) | y
}
