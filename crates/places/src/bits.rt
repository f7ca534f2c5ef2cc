// Bits of bytes and pixels of rows, and the first of them that passes.
ghost use Rattle.std.specs.Prelude.{◌≡◌, ◌+◌, ◌-◌, ◌/◌, ◌%◌, ◌^◌, ◌<◌, ◌≤◌, eqb, length, unwrap_or, IfSome};
ghost use Rattle.rules.specs.Images.{bit_at};
ghost use Rattle.places.specs.Search.{FirstOf, bit_in};

// The binary digit of a number at place e, counted from the lowest.
pub fn digit(x: u64, e: usize) -> bool
    requires { e < 64 }
    ensures { result ≡ eqb (x / 2 ^ e % 2) 1 }
{
    (x >> e) & 1 == 1
}

pub fn bit(m: u8, k: usize) -> bool
    requires { k < 8 }
    ensures { result ≡ bit_at m k }
{
    digit(u64::from(m >> (7 - k)), 0) // shifted while it is a byte, which comes to one test of a mask
}

// The first bit that is set, from column `from` on and before `to`.
pub fn bit_from(m: u8, from: usize, to: usize) -> Option<usize>
    requires { (from ≤ to) × (to ≤ 8) }
    ensures first { FirstOf from to (λ k. bit_at m k) (unwrap_or result to) }
    ensures inside { IfSome result (λ k. k < to) }
{
    if m == 0 {
        return None;
    }
    for k in from..to {
        if bit(m, k) {
            return Some(k);
        }
    }
    None
}

// The pixel at column c of a row.
pub fn pixel_at(s: &[u8], at: usize, c: usize) -> bool
    requires { at + c / 8 < length s.now }
    ensures { result ≡ bit_in s.now at c }
{
    bit(s[at + c / 8], c % 8)
}
