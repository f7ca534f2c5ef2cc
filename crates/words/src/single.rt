// The bits of a word, one by one.
ghost use Rattle.std.specs.Prelude.{◌≡◌, true, false, not, ◌&&◌, ℕ, ◌+◌, ◌<◌, length, eqb};
ghost use Rattle.words.specs.Words.{Digits, bit_of_word, last_bit, Numbered};

// The word with bit k alone.
pub fn bit(k: usize) -> u64
    requires { k < 64 }
    ensures { (a : ℕ) → Digits 64 result a (λ j. eqb j (a + k)) }
{
    1u64 << (63 - k)
}

// The first bit that is set.
pub fn first(x: u64) -> usize
    requires { 0 < x }
    ensures { (result < 64) × (bit_of_word x result ≡ true) × ((i : ℕ) → i < result → bit_of_word x i ≡ false) }
{
    u64::leading_zeros(x) as usize
}

// The last bit that is set: the cheapest to find.
pub fn last(x: u64) -> usize
    requires { 0 < x }
    ensures { (result ≡ last_bit x) × (result < 64) × (bit_of_word x result ≡ true) }
{
    63 - u64::trailing_zeros(x) as usize
}

// The word without its last bit.
pub fn without_last(x: u64) -> u64
    requires { 0 < x }
    ensures { ((i : ℕ) → i < 64 → bit_of_word result i ≡ bit_of_word x i && not (eqb i (last_bit x))) × (result < x) }
{
    x & (x - 1)
}

// Whether all four quarters of a word have a bit.
pub fn quarters(m: u64) -> bool {
    if m >> 48 == 0 {
        return false;
    }
    if (m >> 32) % 65536 == 0 {
        return false;
    }
    if (m >> 16) % 65536 == 0 {
        return false;
    }
    m % 65536 != 0
}

// The number v at the places of the set bits of m; bit 0 is place x.
pub fn number(l: &mut [u16], x: usize, m: u64, v: u16)
    requires { (k : ℕ) → k < 64 → bit_of_word m k ≡ true → x + k < length l.old }
    ensures { Numbered x m v l.old l.new }
{
    let mut left = m;
    while left != 0 {
        let k = last(left);
        l[x + k] = v;
        left = without_last(left);
    }
}
