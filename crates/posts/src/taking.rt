// What a post takes away: all that grows from it through remaining pixels within the radius. Nothing remains before it, so only the rows from its
// own on are looked at, and in them the two words that the columns of its disc stand in.
ghost use Rattle.std.specs.Prelude.{◌≡◌, List, [], ◌∷◌, true, false, not, ◌&&◌, ◌||◌, ℕ, max, ◌+◌, ◌-◌, ◌*◌, ◌<◌, ◌≤◌, leb, ltb, eqb, length};
ghost use Rattle.rules.specs.Posts.{spared, plane_of};
ghost use Rattle.rules.specs.Reach.{most_bound};
ghost use Rattle.laws.specs.Discs.{Halves};
ghost use Rattle.words.specs.Words.{column, word_bit, beside, Within};
ghost use Rattle.planes.specs.Scratch.{Sizes, Ready, seen, spot};
ghost use Rattle.pair.specs.Found.{Empty};
ghost use Rattle.posts.specs.Taking.{three_of, Along, Looked, Taking, Ahead, Closed};

use rules::{Bound, Pixels};
use words::Row;

// The two words of l from word i on, as a row of 128 columns.
fn two(l: &[u64], i: usize) -> Row
    requires { i + 2 ≤ length l.now }
    ensures { (c : ℕ) → column result c ≡ (ltb c 128 && word_bit l.now (i * 64 + c)) }
{
    Row {
        a: l[i],
        b: l[i + 1],
        c: 0,
        d: 0,
    }
}

fn put_words(l: &mut [u64], i: usize, a: u64, b: u64)
    requires { i + 2 ≤ length l.old }
    ensures { (c d : ℕ) → Within (i * 64) (i * 64 + 128) (λ j. word_bit (a ∷ b ∷ c ∷ d ∷ []) (j - i * 64)) (word_bit l.old) (word_bit l.new) }
{
    l[i] = a;
    l[i + 1] = b;
}

// Puts the first 128 columns of a row there.
fn put_two(l: &mut [u64], i: usize, x: Row)
    requires { i + 2 ≤ length l.old }
    ensures { Within (i * 64) (i * 64 + 128) (λ j. column x (j - i * 64)) (word_bit l.old) (word_bit l.new) }
{
    put_words(l, i, x.a, x.b);
}

// The columns within `by` of column x.
fn about(x: usize, by: usize) -> Row
    requires { (x < 128) × (by ≤ 32) }
    ensures { (c : ℕ) → column result c ≡ (ltb c (x + by + 1) && not (ltb c (x - by))) }
{
    words::rows::but_not(
        words::rows::full(x + by + 1),
        words::rows::full(numbers::less(x, by)),
    )
}

// The pixels of a row that are joined along it to those of x, over free ones.
fn along(x: Row, free: Row) -> Row
    requires { (c : ℕ) → column x c ≡ true → column free c ≡ true }
    ensures { Along (column x) (column free) (column result) }
{
    let mut s = x;
    let mut more = words::rows::but_not(
        words::rows::both(words::rows::wide(s, Pixels(1)), free),
        s,
    );
    while words::rows::any(more) {
        s = words::rows::either(s, more);
        more = words::rows::but_not(words::rows::both(words::rows::wide(s, Pixels(1)), free), s);
    }
    s
}

// The free columns of the two words from word i on that touch what is got, or are got.
fn fresh(got: &[u64], i: usize, free: Row) -> Row
    requires { (5 ≤ i) × (i + 7 ≤ length got.now) }
    ensures { (c : ℕ) → c < 256 → column result c ≡ (beside 1 (three_of got.now i) c && column free c) }
{
    let three = words::rows::either(
        words::rows::either(two(got, i - 5), two(got, i)),
        two(got, i + 5),
    );
    words::rows::both(words::rows::wide(three, Pixels(1)), free)
}

// The columns s of the two words from word i on are got, and remain no longer.
fn get(rest: &mut [u64], got: &mut [u64], i: usize, s: Row)
    requires { (i + 2 ≤ length rest.old) × (i + 2 ≤ length got.old) }
    ensures rest_within { Within (i * 64) (i * 64 + 128) (λ j. word_bit rest.old j && not (column s (j - i * 64))) (word_bit rest.old) (word_bit rest.new) }
    ensures got_within { Within (i * 64) (i * 64 + 128) (λ j. word_bit got.old j || column s (j - i * 64)) (word_bit got.old) (word_bit got.new) }
{
    put_two(rest, i, words::rows::but_not(two(rest, i), s));
    put_two(got, i, words::rows::either(two(got, i), s));
}

// Looks at the two words from word i on: what remains there in the columns of the disc and is joined to what is got, is got too. Tells whether there
// was something.
fn look(rest: &mut [u64], got: &mut [u64], i: usize, disc: Row) -> bool
    requires { (length rest.old ≡ 1610) × (length got.old ≡ 1610) × (5 ≤ i) × (i + 7 ≤ 1610) }
    ensures { (k b : ℕ) → i ≡ k * 5 + b → b ≤ 2 → Looked k b (column disc) result rest.old got.old rest.new got.new }
{
    let free = words::rows::both(two(rest, i), disc);
    if !words::rows::any(free) {
        return false;
    }
    let new = fresh(got, i, free);
    if !words::rows::any(new) {
        return false;
    }
    get(rest, got, i, along(new, free));
    true
}

// The row before row d, and behind row 0 row 1.
fn back(d: usize) -> usize
    ensures { (0 < d → result + 1 ≡ d) × (d ≡ 0 → result ≡ 1) }
{
    if 0 < d { d - 1 } else { 1 }
}

fn greater(a: usize, b: usize) -> usize
    ensures { result ≡ max a b }
{
    if a < b { b } else { a }
}

// The first of the two words that have the columns within 32 of column c.
fn word_of(c: usize) -> usize
    requires { c < 256 }
    ensures { (result ≤ 2) × ((j : ℕ) → j < 256 → c ≤ j + 32 → j ≤ c + 32 → (result * 64 ≤ j) × (j < result * 64 + 128)) }
{
    numbers::lesser(numbers::less(c, 32) / 64, 2)
}

// Grows from the pixel in row y and column c, which is got already. Where a row changed, the one before it is looked at again: the rows before `sure` cannot
// change any more, but for row d. Answers how many rows have something.
fn grow(rest: &mut [u64], got: &mut [u64], y: usize, c: usize, q: Bound, half: &[usize]) -> usize
    requires { (length rest.old ≡ 1610) × (length got.old ≡ 1610) × (y < 256) × (c < 256) × (q.0 ≤ most_bound) × Halves q.0 half.now }
    ensures { ((was : List ℕ) → Ahead y c was → Taking q.0 y c 1 was rest.old got.old
        → Taking q.0 y c result was rest.new got.new × Closed q.0 y c rest.new got.new) × (result ≤ 33) }
{
    let b = word_of(c);
    let x = c - b * 64;
    let i = (y + 33) * 5 + b;
    let reach = half[0];
    let mut rows: usize = 1;
    let mut sure: usize = 0;
    let mut d: usize = 0;
    while d <= numbers::lesser(rows, reach) {
        if look(rest, got, i + 5 * d, about(x, half[d])) {
            rows = greater(rows, d + 1);
            sure = d + 1;
            d = back(d);
        } else {
            d = greater(sure, d + 1);
            sure = d;
        }
    }
    rows
}

// Empties the two words from word i on, and those below them, in so many rows.
fn wipe(got: &mut [u64], i: usize, rows: usize)
    requires { (length got.old ≡ 1610) × (rows ≤ 33) × (i + 5 * rows ≤ 1608) }
    ensures { (j : ℕ) → word_bit got.new j ≡ true → (word_bit got.old j ≡ true) × ((d : ℕ) → d < rows → i * 64 + d * 320 ≤ j → j < i * 64 + d * 320 + 128 → ⊥) }
{
    let mut d = 0;
    while d < rows {
        put_two(got, i + 5 * d, words::rows::none());
        d += 1;
    }
}

// The post in row y and column c takes away what grows from it, and its own pixel. Nothing remains before it; got is scratch, empty between posts.
pub fn take(
    rest: &mut [u64],
    got: &mut [u64],
    w: usize,
    h: usize,
    y: usize,
    c: usize,
    q: Bound,
    half: &[usize],
)
    requires sizes { Sizes w h × Ready w h rest.old × Empty got.old × (y < h) × (c < w) × (q.0 ≤ most_bound) × Halves q.0 half.now }
    requires first { (word_bit rest.old (spot y c) ≡ true) × ((p : ℕ) → p < y * w + c → seen w rest.old p ≡ false) }
    ensures ready { Ready w h rest.new × Empty got.new }
    ensures spared { (p : ℕ) → p < h * w → seen w rest.new p ≡ plane_of (spared w h q.0 (seen w rest.old) (eqb (y * w + c))) p }
{
    let i = (y + 33) * 5 + c / 64;
    sweeps::marks::clear_bit(rest, i, c % 64);
    sweeps::marks::set_bit(got, i, c % 64);
    let rows = grow(rest, got, y, c, q, half);
    wipe(got, (y + 33) * 5 + word_of(c), rows);
}
