// Answers and what reading tells, as a C caller sees them: each packed into one number, or written to a row of numbers.
#![tactic(auto)]

ghost use Rattle.std.specs.Prelude.{◌≡◌, cond, ◌++◌, ◌+◌, ◌-◌, ◌*◌, ◌%◌, ◌<◌, ◌≤◌, length, take, drop};
ghost use Rattle.rules.specs.Tools.{bit};
ghost use Rattle.answers.specs.Packed as packed;
ghost use Rattle.answers.specs.Packed.{settings_of, pack_refusal, pack_reached, pack_planned, pack_judged, pack_copied, pack_written, told};

use rules::{
    CopiedRings, Judged, Layout, Micrometres, Planned, Reached, Refusal, Settings, WrittenJob,
};

fn above(v: usize) -> usize
    ensures { result ≡ packed.above v }
{
    v % 281474976710656 * 65536
}

pub fn pack_reached(r: Reached) -> usize
    ensures { result ≡ pack_reached r }
{
    match r {
        Reached::By(p) => above(p.0),
        Reached::Refused(k) => numbers::wide(k),
    }
}

// A place of two parts leaves the bits of the column 0.
pub fn pack_refusal(r: Refusal) -> usize
    ensures { result ≡ pack_refusal r }
{
    match r {
        Refusal::Number(k) => numbers::wide(k),
        Refusal::InRow(k, at) => {
            numbers::wide(k) + at.layer % 65536 * 65536 + at.row % 65536 * 4294967296
        }
        Refusal::AtPixel(k, at) => {
            numbers::wide(k)
                + at.layer % 65536 * 65536
                + at.row % 65536 * 4294967296
                + at.column % 65536 * 281474976710656
        }
    }
}

pub fn pack_planned(p: Planned) -> usize
    ensures { result ≡ pack_planned p }
{
    match p {
        Planned::Done => 0,
        Planned::Refused(r) => pack_refusal(r),
    }
}

pub fn pack_judged(j: Judged) -> usize
    ensures { result ≡ pack_judged j }
{
    match j {
        Judged::Accepted => 0,
        Judged::Refused(r) => pack_refusal(r),
    }
}

pub fn pack_copied(c: CopiedRings) -> usize
    ensures { result ≡ pack_copied c }
{
    match c {
        CopiedRings::Copied => 0,
        CopiedRings::Refused(r) => pack_refusal(r),
    }
}

pub fn pack_written(w: WrittenJob) -> usize
    ensures { result ≡ pack_written w }
{
    match w {
        WrittenJob::Length(n) => above(n),
        WrittenJob::Refused(r) => pack_refusal(r),
    }
}

pub fn settings(w: usize, h: usize, n: usize, pitch: u32, overhang: u32) -> Settings
    ensures { result ≡ settings_of w h n pitch overhang }
{
    Settings {
        w,
        h,
        n,
        pitch: Micrometres(pitch),
        overhang: Micrometres(overhang),
    }
}

fn flag(b: bool) -> usize
    ensures { result ≡ bit b }
{
    if b { 1 } else { 0 }
}

// Writes what reading tells, as much as there is room for.
pub fn write_layout(l: Layout, room: &mut [usize])
    ensures { room.new ≡ take (length room.old) (told l) ++ drop (length (told l)) room.old }
{
    let s = l.settings;
    let stored = flag(l.stored);
    let all = [
        s.w,
        s.h,
        s.n,
        s.pitch.0 as usize,
        s.overhang.0 as usize,
        stored,
        l.head,
        l.part,
        l.support,
        l.rings,
    ];
    let mut i = 0;
    while i < 10 {
        if room.len() <= i {
            return;
        }
        room[i] = all[i];
        i += 1;
    }
}

fn stretch(at: usize, n: usize) -> usize
    ensures { result ≡ packed.stretch at n }
{
    at % 4294967296 * 4294967296 + n % 4294967296
}

pub fn part_stretch(l: Layout) -> usize
    requires { l.part + 4 ≤ l.support }
    ensures { result ≡ packed.stretch l.part (l.support - 4 - l.part) }
{
    stretch(l.part, l.support - 4 - l.part)
}

pub fn support_stretch(l: Layout) -> usize
    requires { l.support + 4 ≤ l.rings }
    ensures { result ≡ cond l.stored (packed.stretch l.support (l.rings - 4 - l.support)) 0 }
{
    if l.stored {
        stretch(l.support, l.rings - 4 - l.support)
    } else {
        0
    }
}
