// The bits of every byte as numbers, and by them a number at the places of a word with many bits, eight places at a time.
ghost use Rattle.std.specs.Prelude.{◌≡◌, cond, ℕ, ◌+◌, ◌*◌, ◌<◌, ◌≤◌, eqb, length, get_or};
ghost use Rattle.rules.specs.Tools.{bit};
ghost use Rattle.rules.specs.Images.{bit_at};
ghost use Rattle.words.specs.Words.{bit_of_word, Numbered, Ones, Placed};

fn set(m: u8, k: usize) -> bool
    requires { k < 8 }
    ensures { result ≡ bit_at m k }
{
    (m >> (7 - k)) & 1 == 1
}

fn digit(m: u8, k: usize) -> u16
    requires { k < 8 }
    ensures { result ≡ bit (bit_at m k) }
{
    if set(m, k) { 1 } else { 0 }
}

// The bits of every byte, each as a number.
pub fn fill(ones: &mut [u16])
    requires { length ones.old ≡ 2048 }
    ensures { Ones ones.new }
{
    let mut i = 0;
    while i < 2048 {
        ones[i] = digit((i / 8) as u8, i % 8);
        i += 1;
    }
}

// Byte b of a word.
fn byte(m: u64, b: usize) -> usize
    requires { b < 8 }
    ensures { (result < 256) × ((k : ℕ) → k < 8 → bit_at result k ≡ bit_of_word m (8 * b + k)) }
{
    ((m >> (56 - 8 * b)) % 256) as usize
}

fn pick(one: u16, v: u16, old: u16) -> u16
    ensures { result ≡ cond (eqb one 1) v old }
{
    if one == 1 { v } else { old }
}

fn put_eight(l: &mut [u16], x: usize, e: &[u16])
    requires { (x + 8 ≤ length l.old) × (length e.now ≡ 8) }
    ensures { Placed x 8 (λ k. get_or e.now k 0) l.old l.new }
{
    let mut k = 0;
    while k < 8 {
        l[x + k] = e[k];
        k += 1;
    }
}

// The number v at those of the eight places from x on whose entry of the table, from `at` on, is 1. They are made aside before one is
// written: then the compiler sees that no write changes what is read, and needs no branch for each.
fn eight(l: &mut [u16], x: usize, at: usize, v: u16, ones: &[u16])
    requires { (x + 8 ≤ length l.old) × (at + 8 ≤ length ones.now) }
    ensures { Placed x 8 (λ k. cond (eqb (get_or ones.now (at + k) 0) 1) v (get_or l.old (x + k) 0)) l.old l.new }
{
    let mut e = [0u16; 8];
    let mut k = 0;
    while k < 8 {
        e[k] = pick(ones[at + k], v, l[x + k]);
        k += 1;
    }
    put_eight(l, x, &e);
}

// The number v at the places of the set bits of m, all 64 of which lie in the list; bit 0 is place x.
pub fn eights(l: &mut [u16], x: usize, m: u64, v: u16, ones: &[u16])
    requires { (x + 64 ≤ length l.old) × Ones ones.now }
    ensures { Numbered x m v l.old l.new }
{
    let mut b = 0;
    while b < 8 {
        eight(l, x + 8 * b, byte(m, b) * 8, v, ones);
        b += 1;
    }
}
