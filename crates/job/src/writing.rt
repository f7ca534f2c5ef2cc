// Writing a job: the tests first, each answering 0 or the refusal, and then its four sections.
ghost use Rattle.std.specs.Prelude.{◌≡◌, ◌++◌, ◌+◌, ◌*◌, ◌≤◌, length};
ghost use Rattle.rules.specs.Tools.{refusal};
ghost use Rattle.rules.specs.Jobs as jobs;
ghost use Rattle.rules.specs.Jobs.{stored_rows, head_of, file_of, file_length, over};
ghost use Rattle.rules.specs.Calls.{setting_cases, write_refusal};
ghost use Rattle.laws.specs.JobFiles.{Writable, write_room};
ghost use Rattle.job.specs.Writing.{job};

use limits::{both_refusal, rows_of};
use rules::Settings;
use sections::numbers::{put_bytes, put16, put16s, put32};
use sections::sizes::{HEAD_END, job_end, part_end, support_end};

// The count of section 3 for support of `k` bytes.
pub fn stored_rows(s: Settings, k: usize) -> usize
    requires { refusal (setting_cases s) ≡ 0 }
    ensures { (result ≡ stored_rows s k) × (result ≤ 131072) }
{
    if k == 0 { 0 } else { rows_of(s) }
}

fn room_refusal(length: usize, room: usize) -> u8
    ensures { result ≡ refusal (write_room length room) }
{
    if 4294967295 < length {
        return 15;
    }
    if room < length {
        return 16;
    }
    0
}

// Writing to a buffer with room for so many bytes.
pub fn write_refusal(s: Settings, part: &[u8], support: &[u8], rings: &[u16], room: usize) -> u8
    ensures { result ≡ write_refusal (job s part.now support.now rings.now) room }
{
    let k = both_refusal(s, support.len() != 0, part, support, rings.len());
    if k != 0 {
        return k;
    }
    let c = stored_rows(s, support.len());
    room_refusal(job_end(s, c), room)
}

// Section 1.
fn put_head(d: &mut [u8], s: Settings)
    requires { 14 ≤ length d.old }
    ensures { d.new ≡ over d.old 0 (head_of s) }
{
    let pitch = s.pitch;
    let overhang = s.overhang;
    put32(d, 0, 5);
    put16(d, 4, s.w);
    put16(d, 6, s.h);
    put16(d, 8, s.n);
    put16(d, 10, pitch.0 as usize);
    put16(d, 12, overhang.0 as usize);
}

// A section of rows, after its count.
fn put_rows(d: &mut [u8], at: usize, count: usize, src: &[u8])
    requires { at + 4 + length src.now ≤ length d.old }
    ensures { d.new ≡ over d.old at (jobs.put32 count ++ src.now) }
{
    put32(d, at, count);
    let from = at + 4;
    let to = from + src.len();
    put_bytes(&mut d[from..to], src);
}

// Section 4.
fn put_rings(d: &mut [u8], at: usize, src: &[u16])
    requires { at + 4 + length src.now * 2 ≤ length d.old }
    ensures { d.new ≡ over d.old at (jobs.put32 (length src.now) ++ jobs.put16s src.now) }
{
    put32(d, at, src.len());
    let from = at + 4;
    let to = from + src.len() * 2;
    put16s(&mut d[from..to], src);
}

// The four sections of a job that is not refused.
pub fn put_job(d: &mut [u8], s: Settings, part: &[u8], support: &[u8], rings: &[u16])
    requires { Writable (job s part.now support.now rings.now) × (file_length (job s part.now support.now rings.now) ≤ length d.old) }
    ensures { d.new ≡ over d.old 0 (file_of (job s part.now support.now rings.now)) }
{
    put_head(d, s);
    put_rows(d, HEAD_END, rows_of(s), part);
    let c = stored_rows(s, support.len());
    put_rows(d, part_end(s), c, support);
    put_rings(d, support_end(s, c), rings);
}
