// Job files: reading, the stretches of part and support, copying rings, writing. The rules are 'Jobs' and 'Calls' of crate rules.
#![tactic(auto)]

pub mod writing;

ghost use Rattle.rules.specs.Outcomes.{Reads, HandsPart, HandsSupport, Copies, Writes};

use crate::writing::{put_job, stored_rows, write_refusal};
use limits::with_rows;
use rules::{CopiedRings, ReadJob, Settings, WrittenJob};
use sections::numbers::get16s;
use sections::reading::{
    copy_refusal, layout, part_in, read_refusal, settings_in, stored_in, support_in, with_rows_in,
};
use sections::sizes::job_end;

// Reads a job file: where its sections stand, or the refusal.
pub fn read(file: &[u8]) -> ReadJob
    ensures { Reads file.now result }
{
    let k = read_refusal(file);
    if k != 0 {
        return ReadJob::Refused(with_rows_in(file, k));
    }
    ReadJob::Job(layout(file))
}

// The part's stretch of a job file, empty where the job is refused.
pub fn part(file: &[u8]) -> &[u8]
    ensures { HandsPart file.now result.now }
{
    if read_refusal(file) != 0 { // a refused job has no part
        return &file[..0];
    }
    let s = settings_in(file);
    part_in(file, s)
}

// The support's stretch of a job file, empty where none is stored or the job is refused.
pub fn support(file: &[u8]) -> &[u8]
    ensures { HandsSupport file.now result.now }
{
    if read_refusal(file) != 0 { // nor support
        return &file[..0];
    }
    let s = settings_in(file);
    let c = stored_in(file, s);
    support_in(file, s, c)
}

// Copies the rings of a job file, where `rings` has exactly their number.
pub fn copy_rings(file: &[u8], rings: &mut [u16]) -> CopiedRings
    ensures { Copies file.now rings.old result rings.new }
{
    let k = copy_refusal(file, rings.len());
    if k != 0 {
        return CopiedRings::Refused(with_rows_in(file, k));
    }
    let l = layout(file);
    let at = l.rings;
    get16s(file, at, rings);
    CopiedRings::Copied
}

// Writes a job to the front of `out`, and answers its length.
pub fn write(s: Settings, part: &[u8], support: &[u8], rings: &[u16], out: &mut [u8]) -> WrittenJob
    ensures { Writes (record { settings = s; part = part.now; support = support.now; rings = rings.now }) out.old result out.new }
{
    let k = write_refusal(s, part, support, rings, out.len());
    if k != 0 {
        return WrittenJob::Refused(with_rows(k, s, part, support));
    }
    put_job(out, s, part, support, rings);
    let c = stored_rows(s, support.len());
    WrittenJob::Length(job_end(s, c))
}
