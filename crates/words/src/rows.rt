// Rows: reading and writing them, and operations on all their columns at once.
ghost use Rattle.std.specs.Prelude.{◌≡◌, [], ◌∷◌, Bool, true, false, not, ◌&&◌, ◌||◌, ℕ, ◌+◌, ◌-◌, ◌*◌, ◌^◌, ◌<◌, ◌≤◌, ltb, length};
ghost use Rattle.std.specs.Int.Count.{ones};
ghost use Rattle.rules.specs.Tools.{count};
ghost use Rattle.image.specs.Scratch.{bit_of};
ghost use Rattle.words.specs.Words.{Digits, WordPart, BarePart, TakenPart, word_bit, column, row_part, row_at, beside, Widened, Within};

use crate::{Row, Two};
use rules::Pixels;

// The row without a pixel.
pub fn none() -> Row
    ensures { (c : ℕ) → column result c ≡ false }
{
    Row {
        a: 0,
        b: 0,
        c: 0,
        d: 0,
    }
}

// Word q of the row whose first w columns are filled.
fn full_word(w: usize, q: usize) -> u64
    requires { q < 4 }
    ensures { Digits 64 result (q * 64) (λ c. ltb c w) }
{
    let b = q * 64;
    if w <= b {
        return 0;
    }
    if b + 64 <= w {
        return 18446744073709551615;
    }
    !(18446744073709551615u64 >> (w - b))
}

// The row whose first w columns are filled: an image's.
pub fn full(w: usize) -> Row
    requires { w ≤ 256 }
    ensures { (c : ℕ) → column result c ≡ ltb c w }
{
    let a = full_word(w, 0);
    let b = full_word(w, 1);
    let c = full_word(w, 2);
    let d = full_word(w, 3);
    Row { a, b, c, d }
}

// Word q of the row of n bytes from `at` on.
fn word_of(s: &[u8], at: usize, n: usize, q: usize) -> u64
    requires { (at + n ≤ length s.now) × (q < 4) }
    ensures { Digits 64 result (q * 64) (row_part s.now at n) }
{
    let b = q * 8;
    if b + 8 <= n {
        return crate::bytes::word(s, at + b);
    }
    if n <= b {
        return 0;
    }
    crate::bytes::part(s, at + b, n - b)
}

// A row of n bytes from `at` on, where it is short of 32 bytes.
pub fn read_short(s: &[u8], at: usize, n: usize) -> Row
    requires { (at + n ≤ length s.now) × (n ≤ 32) }
    ensures { (c : ℕ) → column result c ≡ row_part s.now at n c }
{
    let a = word_of(s, at, n, 0);
    let b = word_of(s, at, n, 1);
    if n <= 16 {
        return Row { a, b, c: 0, d: 0 };
    }
    let c = word_of(s, at, n, 2);
    let d = word_of(s, at, n, 3);
    Row { a, b, c, d }
}

// A row of 32 bytes from `at` on.
fn whole(s: &[u8], at: usize) -> Row
    requires { at + 32 ≤ length s.now }
    ensures { (c : ℕ) → column result c ≡ row_part s.now at 32 c }
{
    let a = crate::bytes::word(s, at);
    let b = crate::bytes::word(s, at + 8);
    let c = crate::bytes::word(s, at + 16);
    let d = crate::bytes::word(s, at + 24);
    Row { a, b, c, d }
}

// A row of n bytes from `at` on.
pub fn read(s: &[u8], at: usize, n: usize) -> Row
    requires { (at + n ≤ length s.now) × (n ≤ 32) }
    ensures { (c : ℕ) → column result c ≡ row_part s.now at n c }
{
    if n == 32 {
        return whole(s, at);
    }
    read_short(s, at, n)
}

// The same row of two layers. Its two calls of `read_short` keep that one out of `read`, which is then small enough to be inlined.
pub fn read_two(low: &[u8], up: &[u8], at: usize, n: usize) -> Two
    requires { (at + n ≤ length low.now) × (at + n ≤ length up.now) × (n ≤ 32) }
    ensures { (c : ℕ) → (column result.low c ≡ row_part low.now at n c) × (column result.up c ≡ row_part up.now at n c) }
{
    if n == 32 {
        let l = whole(low, at);
        let u = whole(up, at);
        return Two { low: l, up: u };
    }
    let l = read_short(low, at, n);
    let u = read_short(up, at, n);
    Two { low: l, up: u }
}

// Those bytes of word q that a row of n bytes has.
fn write_word(out: &mut [u8], at: usize, n: usize, q: usize, x: u64)
    requires { (at + n ≤ length out.old) × (q < 4) }
    ensures { WordPart at n q x (bit_of out.old) (bit_of out.new) }
{
    let b = q * 8;
    if b + 8 <= n {
        crate::bytes::put(out, at + b, 8, x);
        return;
    }
    if n <= b {
        return;
    }
    crate::bytes::put(out, at + b, n - b, x);
}

// Those bytes of word q that a row of n bytes has, where they have no bit yet. Of the bytes of a word the compiler makes one store only where it stands between tests, such as that for
// none here: where stores of words follow each other, it leaves them as single bytes.
fn lay_word(out: &mut [u8], at: usize, n: usize, q: usize, x: u64)
    requires { (at + n ≤ length out.old) × (q < 4) }
    ensures { BarePart at n q (bit_of out.old) → WordPart at n q x (bit_of out.old) (bit_of out.new) }
{
    if x == 0 {
        return;
    }
    write_word(out, at, n, q, x);
}

fn lay_words(out: &mut [u8], at: usize, n: usize, a: u64, b: u64, c: u64, d: u64)
    requires { (n ≤ 32) × (at + n ≤ length out.old) }
    ensures { ((j : ℕ) → at * 8 ≤ j → j < (at + n) * 8 → bit_of out.old j ≡ false) → Within (at * 8) ((at + n) * 8) (λ j. word_bit (a ∷ b ∷ c ∷ d ∷ []) (j - at * 8)) (bit_of out.old) (bit_of out.new) }
{
    lay_word(out, at, n, 0, a);
    lay_word(out, at, n, 1, b);
    lay_word(out, at, n, 2, c);
    lay_word(out, at, n, 3, d);
}

// The first n bytes of a row, to `at` and behind, where no bit is set yet.
pub fn lay(out: &mut [u8], at: usize, n: usize, x: Row)
    requires { (n ≤ 32) × (at + n ≤ length out.old) }
    ensures { ((j : ℕ) → at * 8 ≤ j → j < (at + n) * 8 → bit_of out.old j ≡ false) → Within (at * 8) ((at + n) * 8) (λ j. column x (j - at * 8)) (bit_of out.old) (bit_of out.new) }
{
    lay_words(out, at, n, x.a, x.b, x.c, x.d);
}

// Takes the bits of x off word q of the row of n bytes from `at` on.
fn take_word(out: &mut [u8], at: usize, n: usize, q: usize, x: u64)
    requires { (at + n ≤ length out.old) × (q < 4) }
    ensures { TakenPart at n q x (bit_of out.old) (bit_of out.new) }
{
    if x == 0 {
        return;
    }
    let r = word_of(out, at, n, q);
    write_word(out, at, n, q, r & !x);
}

fn take_words(out: &mut [u8], at: usize, n: usize, a: u64, b: u64, c: u64, d: u64)
    requires { (n ≤ 32) × (at + n ≤ length out.old) }
    ensures { Within (at * 8) ((at + n) * 8) (λ j. bit_of out.old j && not (word_bit (a ∷ b ∷ c ∷ d ∷ []) (j - at * 8))) (bit_of out.old) (bit_of out.new) }
{
    take_word(out, at, n, 0, a);
    take_word(out, at, n, 1, b);
    take_word(out, at, n, 2, c);
    take_word(out, at, n, 3, d);
}

// Takes the pixels of x off the row of n bytes from `at` on.
pub fn take(out: &mut [u8], at: usize, n: usize, x: Row)
    requires { (n ≤ 32) × (at + n ≤ length out.old) }
    ensures { Within (at * 8) ((at + n) * 8) (λ j. bit_of out.old j && not (column x (j - at * 8))) (bit_of out.old) (bit_of out.new) }
{
    take_words(out, at, n, x.a, x.b, x.c, x.d);
}

// The row that stands at word i.
pub fn get(l: &[u64], i: usize) -> Row
    requires { i + 4 ≤ length l.now }
    ensures { (c : ℕ) → column result c ≡ row_at l.now i c }
{
    Row {
        a: l[i],
        b: l[i + 1],
        c: l[i + 2],
        d: l[i + 3],
    }
}

fn put_words(l: &mut [u64], i: usize, a: u64, b: u64, c: u64, d: u64)
    requires { i + 4 ≤ length l.old }
    ensures { Within (i * 64) ((i + 4) * 64) (λ j. word_bit (a ∷ b ∷ c ∷ d ∷ []) (j - i * 64)) (word_bit l.old) (word_bit l.new) }
{
    l[i] = a;
    l[i + 1] = b;
    l[i + 2] = c;
    l[i + 3] = d;
}

// Puts a row at word i.
pub fn put(l: &mut [u64], i: usize, x: Row)
    requires { i + 4 ≤ length l.old }
    ensures { Within (i * 64) ((i + 4) * 64) (λ j. column x (j - i * 64)) (word_bit l.old) (word_bit l.new) }
{
    put_words(l, i, x.a, x.b, x.c, x.d);
}

pub fn either(x: Row, y: Row) -> Row
    ensures { (c : ℕ) → column result c ≡ (column x c || column y c) }
{
    Row {
        a: x.a | y.a,
        b: x.b | y.b,
        c: x.c | y.c,
        d: x.d | y.d,
    }
}

pub fn both(x: Row, y: Row) -> Row
    ensures { (c : ℕ) → column result c ≡ (column x c && column y c) }
{
    Row {
        a: x.a & y.a,
        b: x.b & y.b,
        c: x.c & y.c,
        d: x.d & y.d,
    }
}

// In x and not in y.
pub fn but_not(x: Row, y: Row) -> Row
    ensures { (c : ℕ) → column result c ≡ (column x c && not (column y c)) }
{
    Row {
        a: x.a & !y.a,
        b: x.b & !y.b,
        c: x.c & !y.c,
        d: x.d & !y.d,
    }
}

fn any_words(a: u64, b: u64, c: u64, d: u64) -> bool
    ensures none { result ≡ false → (k : ℕ) → word_bit (a ∷ b ∷ c ∷ d ∷ []) k ≡ false }
    ensures some { result ≡ true → (k : ℕ) × (k < 256) × (word_bit (a ∷ b ∷ c ∷ d ∷ []) k ≡ true) }
{
    a | b | c | d != 0
}

// Whether there is a pixel.
pub fn any(x: Row) -> bool
    ensures none { result ≡ false → (c : ℕ) → column x c ≡ false }
    ensures some { result ≡ true → (c : ℕ) × (c < 256) × (column x c ≡ true) }
{
    any_words(x.a, x.b, x.c, x.d)
}

// How many bits of a word are set. That x is below 2^64 is told too: a proof about a row has no other way to know it of its words.
fn ones(x: u64) -> usize
    ensures { (result ≡ ones x) × (result ≤ 64) × (x < 2 ^ 64) }
{
    u64::count_ones(x) as usize
}

// How many pixels there are.
pub fn count(x: Row) -> usize
    ensures { result ≡ count 256 (column x) }
{
    ones(x.a) + ones(x.b) + ones(x.c) + ones(x.d)
}

// The word m between l and n: each bit, and those s columns beside it.
pub fn spread(l: u64, m: u64, n: u64, s: usize) -> u64
    requires { (0 < s) × (s < 64) }
    ensures { (a : ℕ) → (f : ℕ → Bool) → Digits 64 l a f → Digits 64 m (a + 64) f → Digits 64 n (a + 128) f → Digits 64 result (a + 64) (beside s f) }
{
    m | ((m << s) | (n >> (64 - s))) | ((l << (64 - s)) | (m >> s))
}

fn wide_words(a: u64, b: u64, c: u64, d: u64, s: usize) -> Row
    requires { (0 < s) × (s < 64) }
    ensures { (k : ℕ) → k < 256 → column result k ≡ beside s (word_bit (a ∷ b ∷ c ∷ d ∷ [])) k }
{
    Row {
        a: spread(0, a, b, s),
        b: spread(a, b, c, s),
        c: spread(b, c, d, s),
        d: spread(c, d, 0, s),
    }
}

// Each pixel, and those s columns beside it.
pub fn wide(x: Row, s: Pixels) -> Row
    requires { (0 < s.0) × (s.0 < 64) }
    ensures { (c : ℕ) → c < 256 → column result c ≡ beside s.0 (column x) c }
{
    wide_words(x.a, x.b, x.c, x.d, s.0)
}

// A row that is one column wider already made n columns wider to each side. A step is at most what was widened before and one more: a pixel at
// the edge of the image has no more columns beside it, and a longer step leaves a gap there.
fn widen_on(r: Row, n: usize) -> Row
    requires { (0 < n) × (n ≤ 32) }
    ensures { (x : ℕ → Bool) → ((c : ℕ) → 256 ≤ c → x c ≡ false) → Widened 1 x (column r) → Widened n x (column result) }
{
    let mut t = r;
    let mut done: usize = 1;
    while done < n {
        let s = numbers::lesser(done + 1, n - done);
        t = wide(t, Pixels(s));
        done += s;
    }
    t
}

// The row `by` columns wider to each side. The first column is a step by itself: most rows of a disc are wider by one column or none.
pub fn widen(x: Row, by: Pixels) -> Row
    requires { by.0 ≤ 32 }
    ensures { Widened by.0 (column x) (column result) }
{
    if by.0 == 0 {
        return x;
    }
    widen_on(wide(x, Pixels(1)), by.0)
}
