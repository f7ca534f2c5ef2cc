// Reading a job file from its first byte on. Each test answers 0 or the refusal.
ghost use Rattle.std.specs.Prelude.{◌≡◌, ◌+◌, ◌*◌, ◌≤◌, ◌<◌, ltb, eqb, length, cond};
ghost use Rattle.rules.specs.Tools.{refusal};
ghost use Rattle.rules.specs.Images.{row_bytes, rows_of};
ghost use Rattle.rules.specs.Jobs.{be32, head_end, part_end, support_count, support_end, ring_count, job_end, settings_in, part_in, support_in, layout_of};
ghost use Rattle.rules.specs.Calls.{setting_cases, section_cases, read_refusal, copy_cases, refused_in};
ghost use Rattle.laws.specs.Refusals.{or_else};
ghost use Rattle.laws.specs.JobFiles.{padding_refusal, rings_refusal, body_refusal};
ghost use Rattle.sections.specs.Reading.{one_of, Stored};

use crate::numbers::{get16, get32};
use crate::sizes::{HEAD_END, job_end, part_end, ring_count, support_end};
use limits::{padding_refusal, row_bytes, rows_of, settings_refusal, with_first_row};
use rules::{Layout, Micrometres, Refusal, Settings};

// Whether a count or a length is one of two.
fn allowed(c: usize, a: usize, b: usize) -> bool
    ensures { result ≡ one_of a b c }
{
    if c == a { true } else { c == b }
}

// The section whose count stands at `at` and is to be `a` or `b`, with units of `u` bytes.
fn section(f: &[u8], at: usize, a: usize, b: usize, u: usize) -> u8
    requires { (at ≤ 8388630) × (u ≤ 32) }
    ensures { result ≡ refusal (section_cases f.now at (one_of a b) u) }
{
    if f.len() < at + 4 {
        return 12;
    }
    let c = get32(f, at) as usize;
    if !allowed(c, a, b) {
        return 13;
    }
    if f.len() < at + 4 + c * u {
        return 12;
    }
    0
}

fn settings_section(f: &[u8]) -> u8
    ensures { result ≡ refusal (section_cases f.now 0 (eqb 5) 2) }
{
    section(f, 0, 5, 5, 2)
}

fn part_section(f: &[u8], s: Settings) -> u8
    requires { refusal (setting_cases s) ≡ 0 }
    ensures { result ≡ refusal (section_cases f.now head_end (eqb (rows_of s)) (row_bytes s.w)) }
{
    let rows = rows_of(s);
    section(f, HEAD_END, rows, rows, row_bytes(s.w))
}

fn support_section(f: &[u8], s: Settings) -> u8
    requires { refusal (setting_cases s) ≡ 0 }
    ensures { result ≡ refusal (section_cases f.now (part_end s) (support_count s) (row_bytes s.w)) }
{
    section(f, part_end(s), 0, rows_of(s), row_bytes(s.w))
}

fn rings_section(f: &[u8], s: Settings, c: usize) -> u8
    requires { (refusal (setting_cases s) ≡ 0) × (c ≤ 131072) }
    ensures { result ≡ refusal (section_cases f.now (support_end s c) (eqb (ring_count s c)) 2) }
{
    let rings = ring_count(s, c);
    section(f, support_end(s, c), rings, rings, 2)
}

// The settings, of a file whose section 1 is whole.
pub fn settings_in(f: &[u8]) -> Settings
    requires { 14 ≤ length f.now }
    ensures { result ≡ settings_in f.now }
{
    let w = get16(f, 4) as usize;
    let h = get16(f, 6) as usize;
    let n = get16(f, 8) as usize;
    let pitch = get16(f, 10) as u32;
    let overhang = get16(f, 12) as u32;
    Settings {
        w,
        h,
        n,
        pitch: Micrometres(pitch),
        overhang: Micrometres(overhang),
    }
}

// The count of section 3.
pub fn stored_in(f: &[u8], s: Settings) -> usize
    requires { (refusal (setting_cases s) ≡ 0) × (part_end s + 4 ≤ length f.now) }
    ensures { result ≡ be32 f.now (part_end s) }
{
    let at = part_end(s);
    get32(f, at) as usize
}

// The rows of the part, of a file that reaches beyond them.
pub fn part_in(f: &[u8], s: Settings) -> &[u8]
    requires { (refusal (setting_cases s) ≡ 0) × (s ≡ settings_in f.now) × (part_end s ≤ length f.now) }
    ensures { result.now ≡ part_in f.now }
{
    let from = HEAD_END + 4;
    let to = part_end(s);
    &f[from..to]
}

// The rows of the support.
pub fn support_in(f: &[u8], s: Settings, c: usize) -> &[u8]
    requires { Stored f.now s c }
    ensures { result.now ≡ support_in f.now }
{
    let from = part_end(s) + 4;
    let to = support_end(s, c);
    &f[from..to]
}

fn padding(f: &[u8], s: Settings, c: usize) -> u8
    requires { Stored f.now s c }
    ensures { result ≡ padding_refusal f.now s c }
{
    let w = s.w;
    let part = part_in(f, s);
    let k = padding_refusal(part, w, rows_of(s), 7);
    if k != 0 {
        return k;
    }
    let support = support_in(f, s, c);
    padding_refusal(support, w, c, 8)
}

// Bytes after section 4.
fn after_end(s: Settings, c: usize, length: usize) -> u8
    requires { (refusal (setting_cases s) ≡ 0) × (c ≤ 131072) }
    ensures { result ≡ cond (ltb (job_end s c) length) 14 0 }
{
    if job_end(s, c) < length { 14 } else { 0 }
}

// The first of two answers that refuses.
fn first_of(a: u8, b: u8) -> u8
    ensures { result ≡ or_else a b }
{
    if a == 0 { b } else { a }
}

// From section 4 on, where section 3 has the count `c` and is whole.
fn from_rings(f: &[u8], s: Settings, c: usize) -> u8
    requires { Stored f.now s c }
    ensures { result ≡ rings_refusal f.now s c }
{
    let k = rings_section(f, s, c);
    if k != 0 {
        return k;
    }
    let m = after_end(s, c, f.len());
    let p = padding(f, s, c);
    first_of(m, p)
}

// From section 2 on.
fn from_part(f: &[u8], s: Settings) -> u8
    requires { (refusal (setting_cases s) ≡ 0) × (s ≡ settings_in f.now) }
    ensures { result ≡ body_refusal f.now s }
{
    let k = part_section(f, s);
    if k != 0 {
        return k;
    }
    let m = support_section(f, s);
    if m != 0 {
        return m;
    }
    let c = stored_in(f, s);
    from_rings(f, s, c)
}

// The whole file.
pub fn read_refusal(f: &[u8]) -> u8
    ensures { result ≡ read_refusal f.now }
{
    let k = settings_section(f);
    if k != 0 {
        return k;
    }
    let s = settings_in(f);
    let m = settings_refusal(s);
    if m != 0 {
        return m;
    }
    from_part(f, s)
}

// Where the sections of an accepted file stand.
pub fn layout(f: &[u8]) -> Layout
    requires { read_refusal f.now ≡ 0 }
    ensures { result ≡ layout_of f.now }
{
    let s = settings_in(f);
    let c = stored_in(f, s);
    let support = part_end(s) + 4;
    let rings = support_end(s, c) + 4;
    Layout {
        settings: s,
        stored: c != 0,
        head: 4,
        part: HEAD_END + 4,
        support,
        rings,
    }
}

// Copying rings to a buffer with room for so many: 6 after everything that reading tests.
pub fn copy_refusal(f: &[u8], room: usize) -> u8
    ensures { result ≡ refusal (copy_cases f.now room) }
{
    let read = read_refusal(f);
    if read != 0 {
        return read;
    }
    let s = settings_in(f);
    let c = stored_in(f, s);
    if room != ring_count(s, c) {
        return 6;
    }
    0
}

// The refusal of a file by a number of reading or copying: 7 and 8 with the row of their stretch.
pub fn with_rows_in(f: &[u8], k: u8) -> Refusal
    requires { (k ≡ 7 → read_refusal f.now ≡ 7) × (k ≡ 8 → read_refusal f.now ≡ 8) }
    ensures { result ≡ refused_in f.now k }
{
    if k == 7 {
        let s = settings_in(f);
        return with_first_row(k, s, part_in(f, s));
    }
    if k == 8 {
        let s = settings_in(f);
        let c = stored_in(f, s);
        return with_first_row(k, s, support_in(f, s, c));
    }
    Refusal::Number(k)
}
