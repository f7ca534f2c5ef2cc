// Runs every bench piece of docs/RULES.md through the public calls, and then the ends of the limits. A planned piece shows its number, its
// support in hexadecimal and its rings; a cleaned one its number, its planned support and its cleaned; one with posts its number and them; a checked
// one its number and place.
#![tactic(auto)]

ghost use Rattle.std.specs.Prelude.{◌≤◌, ◌<◌};

use clean::clean;
use judge::judge;
use plan::plan;
use posts::posts;
use rules::{Judged, Micrometres, Pixels, Planned, Settings};
use shown::{say, show, show_refusal};
use std::io;

fn digit(n: u8) -> u8
    requires { n < 16 }
{
    if n < 10 { 48 + n } else { 55 + n }
}

// A byte as two hexadecimal digits, after a space.
fn show_byte(rt: &impl Print, b: u8) -> io::Result<()> {
    let mut text = [32u8; 3];
    text[1] = digit(b / 16);
    text[2] = digit(b % 16);
    say(rt, &text)
}

fn show_bytes(rt: &impl Print, s: &[u8]) -> io::Result<()> {
    for b in s {
        show_byte(rt, *b)?;
    }
    Ok(())
}

fn show_rings(rt: &impl Print, rings: &[u16]) -> io::Result<()> {
    for v in rings {
        show(rt, wide_ring(*v))?;
    }
    Ok(())
}

fn settings(w: usize, h: usize, n: usize, pitch: u32, overhang: u32) -> Settings {
    Settings {
        w,
        h,
        n,
        pitch: Micrometres(pitch),
        overhang: Micrometres(overhang),
    }
}

fn show_planned(rt: &impl Print, r: Planned) -> io::Result<()> {
    match r {
        Planned::Done => show(rt, 0),
        Planned::Refused(k) => show_refusal(rt, k),
    }
}

fn show_judged(rt: &impl Print, r: Judged) -> io::Result<()> {
    match r {
        Judged::Accepted => show(rt, 0)?,
        Judged::Refused(k) => show_refusal(rt, k)?,
    }
    say(rt, b"\n")
}

// Plans a piece, and has its result checked.
fn show_plan(
    rt: &impl Print,
    name: &[u8],
    s: Settings,
    part: &[u8],
    support: &mut [u8],
    rings: &mut [u16],
) -> io::Result<()> {
    say(rt, name)?;
    show_planned(rt, plan(s, part, support, rings))?;
    say(rt, b" support")?;
    show_bytes(rt, support)?;
    say(rt, b" rings")?;
    show_rings(rt, rings)?;
    say(rt, b" check")?;
    show_judged(rt, judge(s, part, support, rings))
}

// Checks piece b with another support or other rings.
fn show_check(rt: &impl Print, name: &[u8], support: &[u8], rings: &[u16]) -> io::Result<()> {
    let part = [0xE0u8, 0xFF];
    say(rt, name)?;
    show_judged(
        rt,
        judge(settings(8, 1, 2, 100, 200), &part, support, rings),
    )
}

// Plans one layer of eight pixels.
fn one_layer(rt: &impl Print, name: &[u8], part: &[u8]) -> io::Result<()> {
    let mut support = [0xAAu8; 1];
    let mut rings = [7u16; 0];
    show_plan(
        rt,
        name,
        settings(8, 1, 1, 100, 200),
        part,
        &mut support,
        &mut rings,
    )
}

// Plans two layers of eight pixels.
fn two_layers(rt: &impl Print, name: &[u8], part: &[u8], overhang: u32) -> io::Result<()> {
    let mut support = [0xAAu8; 2];
    let mut rings = [7u16; 8];
    show_plan(
        rt,
        name,
        settings(8, 1, 2, 100, overhang),
        part,
        &mut support,
        &mut rings,
    )
}

// Plans three layers of eight pixels.
fn three_layers(rt: &impl Print, name: &[u8], part: &[u8]) -> io::Result<()> {
    let mut support = [0xAAu8; 3];
    let mut rings = [7u16; 16];
    show_plan(
        rt,
        name,
        settings(8, 1, 3, 100, 200),
        part,
        &mut support,
        &mut rings,
    )
}

// Plans two layers of two rows of two pixels.
fn squares(rt: &impl Print, name: &[u8], part: &[u8], overhang: u32) -> io::Result<()> {
    let mut support = [0xAAu8; 4];
    let mut rings = [7u16; 4];
    show_plan(
        rt,
        name,
        settings(2, 2, 2, 100, overhang),
        part,
        &mut support,
        &mut rings,
    )
}

fn plans(rt: &impl Print) -> io::Result<()> {
    one_layer(rt, b"a", &[0xFF])?;
    two_layers(rt, b"b", &[0xE0, 0xFF], 200)?;
    two_layers(rt, b"c", &[0xE0, 0x1F], 200)?;
    two_layers(rt, b"d", &[0xE0, 0xF7], 300)?;
    two_layers(rt, b"e", &[0xE0, 0xFF], 99)?;
    three_layers(rt, b"f", &[0x00, 0xE0, 0xFF])?;
    three_layers(rt, b"g", &[0x01, 0xE0, 0xFF])?;
    squares(rt, b"h", &[0x80, 0x00, 0xC0, 0xC0], 100)?;
    squares(rt, b"h at 150", &[0x80, 0x00, 0xC0, 0xC0], 150)?;
    two_layers(rt, b"i zero", &[0x00, 0x00], 200)?;
    two_layers(rt, b"i equal", &[0xE7, 0xE7], 200)
}

fn checks(rt: &impl Print) -> io::Result<()> {
    let rings = [0u16, 0, 0, 1, 2, 0, 0, 0];
    show_check(rt, b"j", &[0x0F, 0x00], &rings)?;
    show_check(rt, b"k", &[0x07, 0x00], &[0, 0, 0, 1, 1, 0, 0, 0])?;
    show_check(rt, b"l", &[0x03, 0x00], &rings)?;
    show_check(rt, b"m", &[0x27, 0x00], &rings)
}

// Checks two layers of eight pixels without a ring, at reach 0.
fn show_hanging(rt: &impl Print, name: &[u8], part: &[u8], support: &[u8]) -> io::Result<()> {
    say(rt, name)?;
    show_judged(
        rt,
        judge(settings(8, 1, 2, 100, 0), part, support, &[0u16; 8]),
    )
}

// Plans and checks three layers of two rows with five pixels.
fn show_padded(rt: &impl Print, name: &[u8], part: &[u8], support: &[u8]) -> io::Result<()> {
    let s = settings(5, 2, 3, 100, 0);
    let mut planned = [0xAAu8; 6];
    let mut rings = [7u16; 20];
    say(rt, name)?;
    show_planned(rt, plan(s, part, &mut planned, &mut rings))?;
    say(rt, b" check")?;
    show_judged(rt, judge(s, part, support, &[0u16; 20]))
}

// What hangs, part or support, and the first row whose padding is set.
fn places(rt: &impl Print) -> io::Result<()> {
    show_hanging(rt, b"t", &[0x80, 0x80], &[0x00, 0x08])?;
    show_hanging(rt, b"u", &[0x80, 0x82], &[0x00, 0x08])?;
    show_hanging(rt, b"v", &[0x80, 0x88], &[0x00, 0x02])?;
    show_padded(rt, b"w", &[0, 0, 0, 4, 1, 0], &[0u8; 6])?;
    show_padded(rt, b"x", &[8u8; 6], &[0, 0, 0, 0, 2, 1])?;
    show_padded(rt, b"y", &[0, 0, 0, 0, 0, 7], &[7, 0, 0, 0, 0, 0])
}

// Cleans two layers of eight pixels, and has the result checked.
fn show_clean(rt: &impl Print, name: &[u8], part: &[u8], gap: usize) -> io::Result<()> {
    let s = settings(8, 1, 2, 100, 100);
    let mut support = [0xAAu8; 2];
    let mut rings = [7u16; 8];
    let mut cleaned = [0xAAu8; 2];
    say(rt, name)?;
    show_planned(
        rt,
        clean(s, Pixels(gap), part, &mut support, &mut rings, &mut cleaned),
    )?;
    say(rt, b" support")?;
    show_bytes(rt, &support)?;
    say(rt, b" cleaned")?;
    show_bytes(rt, &cleaned)?;
    say(rt, b" check")?;
    show_judged(rt, judge(s, part, &cleaned, &rings))
}

fn cleans(rt: &impl Print) -> io::Result<()> {
    show_clean(rt, b"n", &[0x00, 0xE7], 1)?;
    show_clean(rt, b"o", &[0x00, 0xC7], 1)?;
    show_clean(rt, b"p", &[0x00, 0xC7], 2)?;
    show_clean(rt, b"q", &[0x00, 0x7E], 1)?;
    show_clean(rt, b"r", &[0x10, 0xF7], 2)?;
    show_clean(rt, b"s", &[0x10, 0xF7], 0)?;
    show_clean(rt, b"s by 33", &[0x10, 0xF7], 33)
}

// Holds a piece by posts.
fn show_posts(
    rt: &impl Print,
    name: &[u8],
    s: Settings,
    radius: u32,
    part: &[u8],
    out: &mut [u8],
) -> io::Result<()> {
    say(rt, name)?;
    show_planned(rt, posts(s, Micrometres(radius), part, out))?;
    say(rt, b" posts")?;
    show_bytes(rt, out)?;
    say(rt, b"\n")
}

// Two layers of eight pixels.
fn two_on_posts(
    rt: &impl Print,
    name: &[u8],
    part: &[u8],
    overhang: u32,
    radius: u32,
) -> io::Result<()> {
    let mut out = [0xAAu8; 2];
    show_posts(
        rt,
        name,
        settings(8, 1, 2, 100, overhang),
        radius,
        part,
        &mut out,
    )
}

// Three layers of eight pixels.
fn three_on_posts(
    rt: &impl Print,
    name: &[u8],
    part: &[u8],
    overhang: u32,
    radius: u32,
) -> io::Result<()> {
    let mut out = [0xAAu8; 3];
    show_posts(
        rt,
        name,
        settings(8, 1, 3, 100, overhang),
        radius,
        part,
        &mut out,
    )
}

// Two layers of three rows with four pixels.
fn rows_on_posts(rt: &impl Print, name: &[u8], part: &[u8], radius: u32) -> io::Result<()> {
    let mut out = [0xAAu8; 6];
    show_posts(rt, name, settings(4, 3, 2, 100, 0), radius, part, &mut out)
}

// Two layers of two rows with two pixels.
fn squares_on_posts(rt: &impl Print, name: &[u8], part: &[u8], radius: u32) -> io::Result<()> {
    let mut out = [0xAAu8; 4];
    show_posts(rt, name, settings(2, 2, 2, 100, 0), radius, part, &mut out)
}

// Three layers of two rows with five pixels.
fn padded_on_posts(rt: &impl Print, name: &[u8], part: &[u8]) -> io::Result<()> {
    let mut out = [0xAAu8; 6];
    show_posts(rt, name, settings(5, 2, 3, 100, 0), 200, part, &mut out)
}

// The pieces of posts, a radius of 33 pixels, and piece w, whose padding is set.
fn held(rt: &impl Print) -> io::Result<()> {
    two_on_posts(rt, b"aa", &[0xE0, 0xFF], 200, 0)?;
    two_on_posts(rt, b"ab", &[0xE0, 0xFF], 200, 200)?;
    two_on_posts(rt, b"ac", &[0xE0, 0xFF], 200, 100)?;
    three_on_posts(rt, b"ad", &[0x04, 0xE0, 0xFF], 200, 200)?;
    three_on_posts(rt, b"ae", &[0x00, 0x70, 0x84], 0, 200)?;
    rows_on_posts(rt, b"af", &[0x00, 0x00, 0x00, 0xE0, 0x10, 0xE0], 224)?;
    rows_on_posts(rt, b"ag", &[0x00, 0x00, 0x00, 0x20, 0x20, 0x70], 200)?;
    three_on_posts(rt, b"ah", &[0x00, 0x00, 0x80], 0, 200)?;
    squares_on_posts(rt, b"ai", &[0x00, 0x00, 0x80, 0x40], 142)?;
    squares_on_posts(rt, b"ai at 141", &[0x00, 0x00, 0x80, 0x40], 141)?;
    two_on_posts(rt, b"ab by 3300", &[0xE0, 0xFF], 200, 3300)?;
    padded_on_posts(rt, b"w by posts", &[0, 0, 0, 4, 1, 0])
}

fn one(yes: bool) -> u64
    ensures { result ≤ 1 }
{
    if yes { 1 } else { 0 }
}

// How many bytes are not 0.
fn filled(s: &[u8]) -> u64 {
    let mut n = 0;
    for b in s {
        n += one(*b != 0);
    }
    n
}

fn larger(a: u16, b: u16) -> u16 {
    if a < b { b } else { a }
}

fn wide_ring(v: u16) -> u64 {
    v as u64
}

// How many rings there are, and the largest.
fn show_rings_in(rt: &impl Print, rings: &[u16]) -> io::Result<()> {
    let mut n = 0;
    let mut most: u16 = 0;
    for v in rings {
        n += one(*v != 0);
        most = larger(most, *v);
    }
    show(rt, n)?;
    show(rt, wide_ring(most))
}

// Plans a large piece and shows the filled bytes of its support, how many rings there are and the largest, and the check.
fn show_large(
    rt: &impl Print,
    name: &[u8],
    s: Settings,
    part: &[u8],
    support: &mut [u8],
    rings: &mut [u16],
) -> io::Result<()> {
    say(rt, name)?;
    show_planned(rt, plan(s, part, support, rings))?;
    show(rt, filled(support))?;
    show_rings_in(rt, rings)?;
    say(rt, b" check")?;
    show_judged(rt, judge(s, part, support, rings))
}

fn put(s: &mut [u8], at: usize) {
    if at < s.len() {
        s[at] = 0xFF;
    }
}

// Fills n bytes from `at` on.
fn fill(s: &mut [u8], at: usize, n: usize)
    requires { (at ≤ 65536) × (n ≤ 65536) }
{
    for i in 0..n {
        put(s, at + i);
    }
}

// The left half of 256 rows of 32 bytes.
fn fill_half(s: &mut [u8]) {
    for row in 0..256 {
        fill(s, row * 32, 16);
    }
}

// Two layers of 256 by 256 pixels.
fn wide_layers(
    rt: &impl Print,
    name: &[u8],
    part: &[u8],
    pitch: u32,
    overhang: u32,
) -> io::Result<()> {
    let mut support = [0xAAu8; 16384];
    let mut rings = [7u16; 65536];
    show_large(
        rt,
        name,
        settings(256, 256, 2, pitch, overhang),
        part,
        &mut support,
        &mut rings,
    )
}

fn full(rt: &impl Print) -> io::Result<()> {
    let mut part = [0u8; 16384];
    fill(&mut part, 0, 16384);
    wide_layers(rt, b"full", &part, 10, 320)
}

// A full layer over a half, for a reach of 32 and of 0.
fn half(rt: &impl Print) -> io::Result<()> {
    let mut part = [0u8; 16384];
    fill(&mut part, 8192, 8192);
    fill_half(&mut part);
    wide_layers(rt, b"half, reach 32", &part, 10, 320)?;
    wide_layers(rt, b"half, reach 0", &part, 10, 9)
}

// A full layer over its first pixel, for the bounds 1,024, 1,087 and 1,088.
fn disc(rt: &impl Print) -> io::Result<()> {
    let mut part = [0u8; 16384];
    fill(&mut part, 8192, 8192);
    part[0] = 0x80;
    wide_layers(rt, b"disc, bound 1024", &part, 66, 2112)?;
    wide_layers(rt, b"disc, bound 1087", &part, 66, 2176)?;
    wide_layers(rt, b"disc, bound 1088", &part, 66, 2177)
}

// 512 layers of one pixel, of which only the top one is filled.
fn tower(rt: &impl Print) -> io::Result<()> {
    let mut part = [0u8; 512];
    let mut support = [0xAAu8; 512];
    let mut rings = [7u16; 511];
    part[511] = 0x80;
    show_large(
        rt,
        b"tower",
        settings(1, 1, 512, 100, 200),
        &part,
        &mut support,
        &mut rings,
    )
}

// Two layers of two rows of nine pixels.
fn nines(rt: &impl Print) -> io::Result<()> {
    let mut support = [0xAAu8; 8];
    let mut rings = [7u16; 18];
    show_plan(
        rt,
        b"nine",
        settings(9, 2, 2, 100, 200),
        &[0x80, 0x00, 0x00, 0x00, 0xFF, 0x80, 0x00, 0x80],
        &mut support,
        &mut rings,
    )
}

fn main(rt: HostRuntime) -> io::Result<()> {
    plans(&rt)?;
    checks(&rt)?;
    cleans(&rt)?;
    places(&rt)?;
    held(&rt)?;
    full(&rt)?;
    half(&rt)?;
    disc(&rt)?;
    tower(&rt)?;
    nines(&rt)
}
