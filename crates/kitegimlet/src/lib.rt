// The public calls, for programs in C and in other languages: include/kitegimlet.h says how each is called. A number is passed as itself,
// a buffer as a pointer and its number of elements. Each call takes every input; its answer is packed into one number.
#![tactic(auto)]

ghost use Rattle.answers.specs.Packed.{settings_of, um, px, job_of};
ghost use Rattle.kitegimlet.specs.Outcomes.{KgReaches, KgPlans, KgCleans, KgPosts, KgJudges, KgReads, KgCopies, KgWrites, KgHandsPart, KgHandsSupport};

use clean::clean;
use job::{copy_rings, read, write};
use judge::judge;
use limits::reach;
use plan::plan;
use posts::posts;
use rules::{Micrometres, Pixels, ReadJob};

// The reach of an overhang.
#[unsafe(no_mangle)]
pub extern "C" fn kg_reach(pitch: u32, overhang: u32) -> usize
    ensures { KgReaches pitch overhang result }
{
    answers::pack_reached(reach(Micrometres(pitch), Micrometres(overhang)))
}

// Plans support and rings.
#[unsafe(no_mangle)]
pub extern "C" fn kg_plan(
    w: usize,
    h: usize,
    n: usize,
    pitch: u32,
    overhang: u32,
    part: &[u8],
    support: &mut [u8],
    rings: &mut [u16],
) -> usize
    ensures { KgPlans (settings_of w h n pitch overhang) part.now support.old rings.old result support.new rings.new }
{
    let s = answers::settings(w, h, n, pitch, overhang);
    answers::pack_planned(plan(s, part, support, rings))
}

// Plans support and rings, and cleans the support.
#[unsafe(no_mangle)]
pub extern "C" fn kg_clean(
    w: usize,
    h: usize,
    n: usize,
    pitch: u32,
    overhang: u32,
    gap: usize,
    part: &[u8],
    support: &mut [u8],
    rings: &mut [u16],
    cleaned: &mut [u8],
) -> usize
    ensures { KgCleans (settings_of w h n pitch overhang) (px gap) part.now support.old rings.old cleaned.old result support.new rings.new cleaned.new }
{
    let s = answers::settings(w, h, n, pitch, overhang);
    answers::pack_planned(clean(s, Pixels(gap), part, support, rings, cleaned))
}

// Posts that hold a part from below.
#[unsafe(no_mangle)]
pub extern "C" fn kg_posts(
    w: usize,
    h: usize,
    n: usize,
    pitch: u32,
    overhang: u32,
    radius: u32,
    part: &[u8],
    out: &mut [u8],
) -> usize
    ensures { KgPosts (settings_of w h n pitch overhang) (um radius) part.now out.old result out.new }
{
    let s = answers::settings(w, h, n, pitch, overhang);
    answers::pack_planned(posts(s, Micrometres(radius), part, out))
}

// Judges support that anyone made.
#[unsafe(no_mangle)]
pub extern "C" fn kg_check(
    w: usize,
    h: usize,
    n: usize,
    pitch: u32,
    overhang: u32,
    part: &[u8],
    support: &[u8],
    rings: &[u16],
) -> usize
    ensures { KgJudges (settings_of w h n pitch overhang) part.now support.now rings.now result }
{
    let s = answers::settings(w, h, n, pitch, overhang);
    answers::pack_judged(judge(s, part, support, rings))
}

// Reads a job file.
#[unsafe(no_mangle)]
pub extern "C" fn kg_read(file: &[u8], room: &mut [usize]) -> usize
    ensures { KgReads file.now room.old result room.new }
{
    match read(file) {
        ReadJob::Job(l) => {
            answers::write_layout(l, room);
            0
        }
        ReadJob::Refused(r) => answers::pack_refusal(r),
    }
}

// Copies the rings out of a job file.
#[unsafe(no_mangle)]
pub extern "C" fn kg_copy_rings(file: &[u8], rings: &mut [u16]) -> usize
    ensures { KgCopies file.now rings.old result rings.new }
{
    answers::pack_copied(copy_rings(file, rings))
}

// Writes a job.
#[unsafe(no_mangle)]
pub extern "C" fn kg_write(
    w: usize,
    h: usize,
    n: usize,
    pitch: u32,
    overhang: u32,
    part: &[u8],
    support: &[u8],
    rings: &[u16],
    out: &mut [u8],
) -> usize
    ensures { KgWrites (job_of (settings_of w h n pitch overhang) part.now support.now rings.now) out.old result out.new }
{
    let s = answers::settings(w, h, n, pitch, overhang);
    answers::pack_written(write(s, part, support, rings, out))
}

// The part's stretch of a job file.
#[unsafe(no_mangle)]
pub extern "C" fn kg_part(file: &[u8]) -> usize
    ensures { KgHandsPart file.now result }
{
    match read(file) {
        ReadJob::Job(l) => answers::part_stretch(l),
        ReadJob::Refused(_) => 0,
    }
}

// The support's stretch of a job file.
#[unsafe(no_mangle)]
pub extern "C" fn kg_support(file: &[u8]) -> usize
    ensures { KgHandsSupport file.now result }
{
    match read(file) {
        ReadJob::Job(l) => answers::support_stretch(l),
        ReadJob::Refused(_) => 0,
    }
}
