// What calls test first: settings, lengths and padding. Reach and bound, the only ways from micrometres to pixels.
#![tactic(auto)]

ghost use Rattle.std.specs.Prelude.{◌≡◌, cond, [], ◌∷◌, ℕ, ◌+◌, ◌-◌, ◌*◌, ◌^◌, ◌<◌, ◌≤◌, length};
ghost use Rattle.rules.specs.Tools.{◌when◌, refusal};
ghost use Rattle.rules.specs.Images as images;
ghost use Rattle.rules.specs.Images.{row_bytes, rows_of, stack_bytes, rings_in, padding_set, first_padded};
ghost use Rattle.rules.specs.Reach as rule;
ghost use Rattle.rules.specs.Reach.{bound_of, most_bound};
ghost use Rattle.laws.specs.Limits.{Settable, Ranged};
ghost use Rattle.rules.specs.Calls.{reach_cases, setting_cases, length_cases, stack_cases, both_cases, tell_row, refused};
ghost use Rattle.laws.specs.StackTables.{Padded};
ghost use Rattle.rules.specs.Outcomes.{Reaches};
ghost use Rattle.limits.specs.Padding.{PaddingRow};

use rules::{Bound, Micrometres, Pixels, Reached, Refusal, RowPlace, Settings};

fn within(low: usize, high: usize, x: usize) -> bool
    ensures { result ≡ images.within low high x }
{
    if low <= x { x <= high } else { false }
}

// Whether W, H and N are in range.
fn sized(s: Settings) -> bool
    ensures { result ≡ images.sized s }
{
    if !within(1, 256, s.w) {
        return false;
    }
    if !within(1, 256, s.h) {
        return false;
    }
    within(1, 512, s.n)
}

// Whether pitch and overhang are in range.
fn settable(pitch: Micrometres, overhang: Micrometres) -> bool
    ensures { result ≡ rule.settable pitch overhang }
{
    if !within(10, 1000, pitch.0 as usize) {
        return false;
    }
    overhang.0 <= 10000
}

// The reach in whole pixels.
pub fn reach_of(pitch: Micrometres, overhang: Micrometres) -> Pixels
    requires { 0 < pitch.0 }
    ensures { result ≡ rule.reach_of pitch overhang }
{
    Pixels((overhang.0 / pitch.0) as usize)
}

// The bound on squared distances: the squares divided, for the reach squared would leave corners out. It is never over 1,088, and a test
// that tells the compiler so saves more in every pair than it costs.
pub fn bound_by(pitch: Micrometres, overhang: Micrometres) -> Bound
    requires { Settable pitch overhang }
    ensures { (result ≡ rule.bound_by pitch overhang) × (result.0 ≤ most_bound) }
{
    let p = pitch.0;
    let t = overhang.0;
    let q = ((t * t) / (p * p)) as usize;
    if 1088 <= q {
        return Bound(1088);
    }
    Bound(q)
}

// The bound of settings, the same for every pair of layers.
pub fn bound_of(s: Settings) -> Bound
    requires { Ranged s }
    ensures { (bound_of s ≡ (λ (i : ℕ). result.0)) × (result.0 ≤ most_bound) }
{
    let pitch = s.pitch;
    let overhang = s.overhang;
    bound_by(pitch, overhang)
}

// The refusal of a pitch and an overhang, 0 for none.
pub fn reach_refusal(pitch: Micrometres, overhang: Micrometres) -> u8
    ensures { result ≡ refusal (reach_cases pitch overhang) }
{
    if !settable(pitch, overhang) {
        return 2;
    }
    let reach = reach_of(pitch, overhang);
    if 32 < reach.0 {
        return 3;
    }
    0
}

// The reach call.
pub fn reach(pitch: Micrometres, overhang: Micrometres) -> Reached
    ensures { Reaches pitch overhang result }
{
    let k = reach_refusal(pitch, overhang);
    if k != 0 {
        return Reached::Refused(k);
    }
    Reached::By(reach_of(pitch, overhang))
}

// The refusals 1, 2 and 3 of a job's settings, 0 for none.
pub fn settings_refusal(s: Settings) -> u8
    ensures { result ≡ refusal (setting_cases s) }
{
    if !sized(s) {
        return 1;
    }
    let pitch = s.pitch;
    let overhang = s.overhang;
    reach_refusal(pitch, overhang)
}

// The bytes of a row.
pub fn row_bytes(w: usize) -> usize
    requires { w ≤ 256 }
    ensures { (result ≡ row_bytes w) × (result ≤ 32) }
{
    (w + 7) / 8
}

// The rows of a stack.
pub fn rows_of(s: Settings) -> usize
    requires { refusal (setting_cases s) ≡ 0 }
    ensures { (result ≡ rows_of s) × (result ≤ 131072) }
{
    s.n * s.h
}

// The bytes of a stack.
pub fn stack_bytes(s: Settings) -> usize
    requires { refusal (setting_cases s) ≡ 0 }
    ensures { (result ≡ stack_bytes s) × (result ≤ 4194304) }
{
    rows_of(s) * row_bytes(s.w)
}

// How many rings go with a stack.
pub fn rings_in(s: Settings) -> usize
    requires { refusal (setting_cases s) ≡ 0 }
    ensures { (result ≡ rings_in s) × (result ≤ 33488896) }
{
    (s.n - 1) * (s.h * s.w)
}

// The lowest `pad` bits of a byte.
fn pad_mask(pad: usize) -> u8
    requires { pad < 8 }
    ensures { result ≡ 2 ^ pad - 1 }
{
    (1u8 << pad) - 1
}

// The first of k rows that has a padding bit set, k where none has.
pub fn padding_row(s: &[u8], w: usize, k: usize) -> usize
    requires { (1 ≤ w) × ((w ≤ 256) × (k * row_bytes w ≤ length s.now)) }
    ensures { PaddingRow w k s.now result }
{
    let rb = row_bytes(w);
    let pad = rb * 8 - w;
    if pad == 0 {
        return k;
    }
    let mask = pad_mask(pad);
    let last = rb - 1;
    let mut row = 0;
    while row < k {
        if s[row * rb + last] & mask != 0 {
            return row;
        }
        row += 1;
    }
    k
}

// The refusal `number` where one of the first k rows has a padding bit set, 0 for none.
pub fn padding_refusal(s: &[u8], w: usize, k: usize, number: u8) -> u8
    requires { (1 ≤ w) × ((w ≤ 256) × (k * row_bytes w ≤ length s.now)) }
    ensures { result ≡ refusal ((number when padding_set w k s.now) ∷ []) }
{
    if padding_row(s, w, k) < k { number } else { 0 }
}

// A length where support is stored, and none where it is not.
fn where_stored(stored: bool, k: usize) -> usize
    ensures { result ≡ cond stored k 0 }
{
    if stored { k } else { 0 }
}

// The refusals 4, 5 and 6 by the lengths of part, support and rings, 0 for none.
fn length_refusal(s: Settings, stored: bool, part: usize, support: usize, rings: usize) -> u8
    requires { refusal (setting_cases s) ≡ 0 }
    ensures { result ≡ refusal (length_cases s stored part support rings) }
{
    let bytes = stack_bytes(s);
    if part != bytes {
        return 4;
    }
    if support != where_stored(stored, bytes) {
        return 5;
    }
    if rings != where_stored(stored, rings_in(s)) {
        return 6;
    }
    0
}

// The refusals 1 to 7 of a stack, the lowest first: settings, lengths and the part's padding; 0 for none.
pub fn stack_refusal(s: Settings, stored: bool, part: &[u8], support: usize, rings: usize) -> u8
    ensures { result ≡ refusal (stack_cases s stored part.now support rings) }
{
    let a = settings_refusal(s);
    if a != 0 {
        return a;
    }
    let b = length_refusal(s, stored, part.len(), support, rings);
    if b != 0 {
        return b;
    }
    padding_refusal(part, s.w, rows_of(s), 7)
}

// The refusals 1 to 8: those of a stack, and then its support's padding; 0 for none.
pub fn both_refusal(s: Settings, stored: bool, part: &[u8], support: &[u8], rings: usize) -> u8
    ensures { result ≡ refusal (both_cases s stored part.now support.now rings) }
{
    let a = stack_refusal(s, stored, part, support.len(), rings);
    if a != 0 {
        return a;
    }
    padding_refusal(support, s.w, where_stored(stored, rows_of(s)), 8)
}

// A refusal with the first row of a stack whose padding is set.
pub fn with_first_row(k: u8, s: Settings, stack: &[u8]) -> Refusal
    requires { Padded s stack.now }
    ensures { result ≡ tell_row s.h k (first_padded s stack.now) }
{
    let h = s.h;
    let row = padding_row(stack, s.w, rows_of(s));
    Refusal::InRow(
        k,
        RowPlace {
            layer: row / h,
            row: row % h,
        },
    )
}

// The refusal by a number of 1 to 7 of a stack. Its row is looked for only here, so that a call that refuses nothing pays nothing for it.
pub fn with_part_row(k: u8, s: Settings, part: &[u8]) -> Refusal
    requires { k ≡ 7 → Padded s part.now }
    ensures { result ≡ refused s part.now [] k }
{
    if k == 7 {
        return with_first_row(k, s, part);
    }
    Refusal::Number(k)
}

// The refusal by a number of 1 to 8 of a stack with its support.
pub fn with_rows(k: u8, s: Settings, part: &[u8], support: &[u8]) -> Refusal
    requires { (k ≡ 7 → Padded s part.now) × (k ≡ 8 → Padded s support.now) }
    ensures { result ≡ refused s part.now support.now k }
{
    if k == 8 {
        return with_first_row(k, s, support);
    }
    with_part_row(k, s, part)
}
