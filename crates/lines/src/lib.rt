// The text of the report: words and numbers in decimal, each written at a place of a lent buffer; and its lines.
#![tactic(auto)]

mod counts; // counts.rt: pixels counted
mod output; // output.rt: the whole output for an input

ghost use Rattle.std.specs.Prelude.{◌≡◌, [], ◌∷◌, ◌++◌, ◌+◌, ◌-◌, ◌*◌, ◌<◌, ◌≤◌, length};
ghost use Rattle.rules.specs.Jobs.{over};
ghost use Rattle.rules.specs.Report.{decimal, spaced, all_spaced, refused_line, job_line, excused_above};
ghost use Rattle.rules.specs.Calls.{says_refusal};
ghost use Rattle.rules.specs.Images.{ring_at};
ghost use Rattle.lines.specs.Lines.{line_of, job_of, Wrote};
ghost use Rattle.lines.specs.Whole.{Whole, Counted, Lined, lines_to};

use counts::{excused, filled};
use limits::reach_of;
pub use output::report;
use rules::{Refusal, Settings};

// A digit as the byte that prints it.
fn digit(x: usize) -> u8
    requires { x < 10 }
    ensures { result ≡ 48 + x }
{
    48 + (x as u8)
}

// Each of these writes from `at` on and answers where the text ends.

fn put_decimal(out: &mut [u8], at: usize, x: usize) -> usize
    requires { at + length (decimal x) ≤ length out.old }
    ensures { Wrote out.old at out.new result (decimal x) }
{
    if x < 10 {
        out[at] = digit(x);
        return at + 1;
    }
    let end = put_decimal(out, at, x / 10);
    out[end] = digit(x % 10);
    end + 1
}

// A space and a number.
fn put_spaced(out: &mut [u8], at: usize, x: usize) -> usize
    requires { at + length (spaced x) ≤ length out.old }
    ensures { Wrote out.old at out.new result (spaced x) }
{
    out[at] = 32;
    put_decimal(out, at + 1, x)
}

fn put_byte(out: &mut [u8], at: usize, b: u8) -> usize
    requires { at + 1 ≤ length out.old }
    ensures { Wrote out.old at out.new result (b ∷ []) }
{
    out[at] = b;
    at + 1
}

fn put_word(out: &mut [u8], at: usize, word: &[u8]) -> usize
    requires { at + length word.now ≤ length out.old }
    ensures { Wrote out.old at out.new result word.now }
{
    let mut i = 0;
    while i < word.len() {
        out[at + i] = word[i];
        i += 1;
    }
    at + i
}

// Two numbers, a space before each.
fn put_two(out: &mut [u8], at: usize, x: usize, y: usize) -> usize
    requires { at + (length (spaced x) + length (spaced y)) ≤ length out.old }
    ensures { Wrote out.old at out.new result (spaced x ++ spaced y) }
{
    let next = put_spaced(out, at, x);
    put_spaced(out, next, y)
}

// The number of a refusal, and behind it its place, a space before each part.
fn put_refusal(out: &mut [u8], at: usize, refusal: Refusal) -> usize
    requires { at + length (all_spaced (says_refusal refusal)) ≤ length out.old }
    ensures { Wrote out.old at out.new result (all_spaced (says_refusal refusal)) }
{
    match refusal {
        Refusal::Number(k) => put_spaced(out, at, numbers::wide(k)),
        Refusal::InRow(k, place) => {
            let number = put_spaced(out, at, numbers::wide(k));
            put_two(out, number, place.layer, place.row)
        }
        Refusal::AtPixel(k, place) => {
            let number = put_spaced(out, at, numbers::wide(k));
            let row = put_two(out, number, place.layer, place.row);
            put_spaced(out, row, place.column)
        }
    }
}

// The line of a refused job.
pub fn refused_line(out: &mut [u8], refusal: Refusal) -> usize
    requires { length (refused_line (says_refusal refusal)) ≤ length out.old }
    ensures { (result ≡ length (refused_line (says_refusal refusal))) × (out.new ≡ over out.old 0 (refused_line (says_refusal refusal))) }
{
    let word = put_word(out, 0, b"refused");
    let said = put_refusal(out, word, refusal);
    put_byte(out, said, 10)
}

// The first line, from its numbers: the room is asked piece by piece, so that each piece finds its own.
fn first_line(out: &mut [u8], w: usize, h: usize, n: usize, reach: usize) -> usize
    requires { 10 + length (spaced w) + length (spaced h) + length (spaced n) + length (spaced reach) ≤ length out.old }
    ensures { Wrote out.old 0 out.new result (job_of w h n reach) }
{
    let word = put_word(out, 0, b"job");
    let width = put_spaced(out, word, w);
    let height = put_spaced(out, width, h);
    let layers = put_spaced(out, height, n);
    let told = put_word(out, layers, b" reach");
    let number = put_spaced(out, told, reach);
    put_byte(out, number, 10)
}

// The first line: width, height, layers and reach.
pub fn job_line(out: &mut [u8], s: Settings) -> usize
    requires { (0 < s.pitch.0) × (length (job_line s) ≤ length out.old) }
    ensures { (result ≡ length (job_line s)) × (out.new ≡ over out.old 0 (job_line s)) }
{
    let pitch = s.pitch;
    let overhang = s.overhang;
    let reach = reach_of(pitch, overhang);
    first_line(out, s.w, s.h, s.n, reach.0)
}

// The line of a layer, its room asked in the same way.
fn layer_line(
    out: &mut [u8],
    at: usize,
    layer: usize,
    part: usize,
    support: usize,
    excused: usize,
) -> usize
    requires { at + (length (decimal layer) + length (spaced part) + length (spaced support) + length (spaced excused) + 1) ≤ length out.old }
    ensures { Wrote out.old at out.new result (line_of layer part support excused) }
{
    let first = put_decimal(out, at, layer);
    let second = put_spaced(out, first, part);
    let third = put_spaced(out, second, support);
    let fourth = put_spaced(out, third, excused);
    put_byte(out, fourth, 10)
}

fn excused_above(rings: &[u16], s: Settings, i: usize) -> usize
    requires { (i < s.n) × (i + 1 < s.n → (s.w ≤ 256) × ((s.h ≤ 256) × ((i < 512) × ((i + 1) * (s.h * s.w) ≤ length rings.now)))) }
    ensures { (result ≡ excused_above s (ring_at s.w s.h rings.now) i) × (result ≤ 65536) }
{
    if i + 1 < s.n {
        return excused(rings, s.w, s.h, i);
    }
    0
}

// The line of layer i, its pixels counted.
fn counted_line(
    out: &mut [u8],
    at: usize,
    s: Settings,
    part: &[u8],
    support: &[u8],
    rings: &[u16],
    i: usize,
) -> usize
    requires { Whole s part.now support.now rings.now × ((i < s.n) × (at + 24 ≤ length out.old)) }
    ensures { Counted s part.now support.now rings.now i at result out.new out.old }
{
    let a = filled(part, s.w, s.h, i);
    let b = filled(support, s.w, s.h, i);
    let c = excused_above(rings, s, i);
    layer_line(out, at, i, a, b, c)
}

// The lines of all layers, from the top down.
fn layer_lines(
    out: &mut [u8],
    start: usize,
    s: Settings,
    part: &[u8],
    support: &[u8],
    rings: &[u16],
) -> usize
    requires { Whole s part.now support.now rings.now × (start + 24 * s.n ≤ length out.old) }
    ensures { Lined s part.now support.now rings.now out.old out.new start result }
{
    let n = s.n;
    let mut at = start;
    let mut k = 0;
    while k < n {
        at = counted_line(out, at, s, part, support, rings, n - 1 - k);
        k += 1;
    }
    at
}

// The text of a job with its support and rings.
pub fn job_lines(out: &mut [u8], s: Settings, part: &[u8], support: &[u8], rings: &[u16]) -> usize
    requires { Whole s part.now support.now rings.now × (length out.old ≡ 16384) }
    ensures { Wrote out.old 0 out.new result (lines_to s part.now support.now rings.now s.n) }
{
    let at = job_line(out, s);
    layer_lines(out, at, s, part, support, rings)
}
