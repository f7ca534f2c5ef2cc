// Runs the calls on job files: every cut, wrong counts, bytes after the end, padding, single layers, and the longest job that
// 64 KiB hold, written, read back and written again. Each line has the numbers that the calls answered.
#![tactic(auto)]

ghost use Rattle.std.specs.Prelude.{◌≡◌, ◌≤◌, length};

use rules::{CopiedRings, Micrometres, ReadJob, Refusal, Settings, WrittenJob};
use shown::{say, show, show_refusal};
use std::io;

fn number(r: Refusal) -> u64 {
    match r {
        Refusal::Number(k) => k as u64,
        Refusal::InRow(k, _) => k as u64,
        Refusal::AtPixel(k, _) => k as u64,
    }
}

fn read_number(r: ReadJob) -> u64 {
    match r {
        ReadJob::Job(_) => 0,
        ReadJob::Refused(k) => number(k),
    }
}

fn show_copied(rt: &impl Print, r: CopiedRings) -> io::Result<()> {
    match r {
        CopiedRings::Copied => show(rt, 0),
        CopiedRings::Refused(k) => show_refusal(rt, k),
    }
}

fn show_read(rt: &impl Print, file: &[u8]) -> io::Result<()> {
    match job::read(file) {
        ReadJob::Job(_) => show(rt, 0),
        ReadJob::Refused(k) => show_refusal(rt, k),
    }
}

// How many cuts of a file are refused with 12.
fn cuts(file: &[u8]) -> u64 {
    let mut n = 0;
    for k in 0..file.len() {
        if read_number(job::read(&file[..k])) == 12 {
            n += 1;
        }
    }
    n
}

// Reads a file of 46 bytes whose count at `at` has the bytes `high` three times and `low`.
fn show_count(rt: &impl Print, file: &[u8], at: usize, high: u8, low: u8) -> io::Result<()>
    requires { (at ≤ 42) × (length file.now ≡ 46) }
{
    let mut changed = [0u8; 46];
    changed.copy_from_slice(file);
    changed[at] = high;
    changed[at + 1] = high;
    changed[at + 2] = high;
    changed[at + 3] = low;
    show_read(rt, &changed)
}

// The count at `at` is one less, one more, and near 2^32.
fn show_counts(rt: &impl Print, file: &[u8], at: usize, less: u8, more: u8) -> io::Result<()>
    requires { (at ≤ 42) × (length file.now ≡ 46) }
{
    show_count(rt, file, at, 0, less)?;
    show_count(rt, file, at, 0, more)?;
    show_count(rt, file, at, 255, 254)?;
    show_count(rt, file, at, 255, 255)
}

// Reads a file of 44 bytes, two layers of a row 7 pixels wide, with another row of part and of support in a layer.
fn show_padding(rt: &impl Print, file: &[u8], layer: usize, part: u8, support: u8) -> io::Result<()>
    requires { (layer ≤ 1) × (length file.now ≡ 44) }
{
    let mut changed = [0u8; 44];
    changed.copy_from_slice(file);
    changed[18 + layer] = part;
    changed[24 + layer] = support;
    show_read(rt, &changed)
}

fn told(yes: bool) -> u64 {
    if yes { 1 } else { 0 }
}

fn same_rings(a: &[u16], b: &[u16]) -> bool {
    if a.len() != b.len() {
        return false;
    }
    for i in 0..a.len() {
        if a[i] != b[i] {
            return false;
        }
    }
    true
}

// Rows whose three lowest bits, the padding of 181 pixels, are 0.
fn fill(rows: &mut [u8], from: usize)
    requires { from ≤ 32 }
{
    for i in 0..rows.len() {
        rows[i] = ((i % 32 + from) % 32 * 8) as u8;
    }
}

fn fill_rings(rings: &mut [u16]) {
    for i in 0..rings.len() {
        rings[i] = (i % 65536) as u16;
    }
}

// The length that writing answered, and 0 where it refused or has no such front.
fn written(r: WrittenJob, room: usize) -> usize
    ensures { result ≤ room }
{
    match r {
        WrittenJob::Length(n) => { if n <= room { n } else { 0 } }
        WrittenJob::Refused(_) => 0,
    }
}

// The numbers of reading a job and of copying its rings, and whether part, support and rings are what was written.
fn show_back(
    rt: &impl Print,
    file: &[u8],
    part: &[u8],
    support: &[u8],
    rings: &[u16],
    back: &mut [u16],
) -> io::Result<()> {
    show_read(rt, file)?;
    show_copied(rt, job::copy_rings(file, back))?;
    show(rt, told(job::part(file) == part))?;
    show(rt, told(job::support(file) == support))?;
    show(rt, told(same_rings(back, rings)))
}

// Whether a job that was read is written as the same bytes.
fn show_again(
    rt: &impl Print,
    s: Settings,
    file: &[u8],
    rings: &[u16],
    again: &mut [u8],
) -> io::Result<()> {
    let n = written(
        job::write(s, job::part(file), job::support(file), rings, again),
        again.len(),
    );
    show(rt, told(file == &again[..n]))
}

// Writes a job, reads it back and writes what was read.
fn round(
    rt: &impl Print,
    s: Settings,
    part: &[u8],
    support: &[u8],
    rings: &[u16],
    back: &mut [u16],
    out: &mut [u8],
    again: &mut [u8],
) -> io::Result<()> {
    let n = written(job::write(s, part, support, rings, out), out.len());
    show(rt, n as u64)?;
    show_back(rt, &out[..n], part, support, rings, back)?;
    show_again(rt, s, &out[..n], back, again)
}

// 181 by 5 pixels and 33 layers: 65,536 bytes with support and rings, the most that fit.
fn longest(rt: &impl Print) -> io::Result<()> {
    let mut part = [0u8; 3795];
    let mut support = [0u8; 3795];
    let mut rings = [0u16; 28960];
    let mut back = [0u16; 28960];
    let mut out = [0u8; 65536];
    let mut again = [0u8; 65536];
    fill(&mut part, 1);
    fill(&mut support, 2);
    fill_rings(&mut rings);
    let s = Settings {
        w: 181,
        h: 5,
        n: 33,
        pitch: Micrometres(100),
        overhang: Micrometres(200),
    };
    round(
        rt, s, &part, &support, &rings, &mut back, &mut out, &mut again,
    )
}

fn main(rt: HostRuntime) -> io::Result<()> {
    // piece b of docs/RULES.md, with its support and rings
    let piece =
        b"\x00\x00\x00\x05\x00\x08\x00\x01\x00\x02\x00\x64\x00\xC8\x00\x00\x00\x02\xE0\xFF\x00\x00\x00\x02\x07\x00\x00\x00\x00\x08\x00\x00\x00\x00\x00\x00\x00\x01\x00\x02\x00\x00\x00\x00\x00\x00";
    say(&rt, b"whole")?;
    show_read(&rt, piece)?;
    say(&rt, b"\ncut")?;
    show(&rt, cuts(piece))?;
    say(&rt, b"\ncounts")?;
    show_counts(&rt, piece, 0, 4, 6)?;
    show_counts(&rt, piece, 14, 1, 3)?;
    show_counts(&rt, piece, 20, 1, 3)?;
    show_counts(&rt, piece, 26, 7, 9)?;
    say(&rt, b"\nafter")?;
    show_read(
        &rt,
        b"\x00\x00\x00\x05\x00\x08\x00\x01\x00\x02\x00\x64\x00\xC8\x00\x00\x00\x02\xE0\xFF\x00\x00\x00\x00\x00\x00\x00\x00\x00",
    )?;
    say(&rt, b"\npadding")?;
    let narrow =
        b"\x00\x00\x00\x05\x00\x07\x00\x01\x00\x02\x00\x64\x00\xC8\x00\x00\x00\x02\xE0\xFE\x00\x00\x00\x02\x06\x00\x00\x00\x00\x07\x00\x00\x00\x00\x00\x00\x00\x01\x00\x02\x00\x00\x00\x00";
    show_padding(&rt, narrow, 0, 224, 6)?;
    show_padding(&rt, narrow, 0, 225, 6)?;
    show_padding(&rt, narrow, 0, 224, 7)?;
    show_padding(&rt, narrow, 1, 225, 7)?;
    show_padding(&rt, narrow, 1, 254, 1)?;
    say(&rt, b"\nsingle")?;
    show_read(
        &rt,
        b"\x00\x00\x00\x05\x00\x08\x00\x01\x00\x01\x00\x64\x00\xC8\x00\x00\x00\x01\xFF\x00\x00\x00\x00\x00\x00\x00\x00",
    )?;
    show_read(
        &rt,
        b"\x00\x00\x00\x05\x00\x08\x00\x01\x00\x01\x00\x64\x00\xC8\x00\x00\x00\x01\xFF\x00\x00\x00\x01\x00\x00\x00\x00\x00",
    )?;
    show_read(
        &rt,
        b"\x00\x00\x00\x05\x00\x08\x00\x01\x00\x01\x00\x64\x00\xC8\x00\x00\x00\x01\xFF\x00\x00\x00\x01\x00\x00\x00\x00\x08",
    )?;
    say(&rt, b"\nlongest")?;
    longest(&rt)?;
    say(&rt, b"\n")
}
