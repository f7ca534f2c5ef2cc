// Words from packed bytes, and back.
ghost use Rattle.std.specs.Prelude.{◌≡◌, ◌+◌, ◌-◌, ◌*◌, ◌%◌, ◌<◌, ◌≤◌, length};
ghost use Rattle.image.specs.Scratch.{bit_of};
ghost use Rattle.words.specs.Words.{Digits, bit_of_word, row_part, Within};

fn long(b: u8) -> u64
    ensures { (result ≡ b) × (result < 256) }
{
    b as u64
}

// Eight bytes from `at` on. The compiler makes one load of this form; of `v << 8 | b` it does not.
pub fn word(s: &[u8], at: usize) -> u64
    requires { at + 8 ≤ length s.now }
    ensures { Digits 64 result (at * 8) (bit_of s.now) }
{
    let mut v: u64 = 0;
    let mut k = 0;
    while k < 8 {
        v = v | (long(s[at + k]) << (56 - 8 * k));
        k += 1;
    }
    v
}

// n bytes from `at` on, and 0 behind.
pub fn part(s: &[u8], at: usize, n: usize) -> u64
    requires { (n ≤ 8) × (at + n ≤ length s.now) }
    ensures { Digits 64 result 0 (row_part s.now at n) }
{
    let mut v: u64 = 0;
    let mut k = 0;
    while k < n {
        v = v | (long(s[at + k]) << (56 - 8 * k));
        k += 1;
    }
    v
}

fn low(x: u64) -> u8
    ensures { result ≡ x % 256 }
{
    (x & 255) as u8
}

// The first n bytes of a word, to `at` and behind.
pub fn put(out: &mut [u8], at: usize, n: usize, x: u64)
    requires { (n ≤ 8) × (at + n ≤ length out.old) }
    ensures { Within (at * 8) ((at + n) * 8) (λ j. bit_of_word x (j - at * 8)) (bit_of out.old) (bit_of out.new) }
{
    let mut k = 0;
    while k < n {
        out[at + k] = low(x >> (56 - 8 * k));
        k += 1;
    }
}
