// What the report program prints for an input: the lines of a job that is planned afresh, or the line of its refusal.
ghost use Rattle.std.specs.Prelude.{◌≡◌, cond, false, [], ◌∷◌, ◌+◌, ◌-◌, ◌*◌, ◌<◌, ◌≤◌, ltb, length};
ghost use Rattle.rules.specs.Images.{rings_in};
ghost use Rattle.rules.specs.Calls.{plan_refusal};
ghost use Rattle.rules.specs.Report.{plan_lines, refused_line};
ghost use Rattle.rules.specs.Outcomes.{Reports};
ghost use Rattle.lines.specs.Printed.{Printed, Room, Planable};

use crate::{job_lines, refused_line};
use plan::plan;
use rules::{ReadJob, Refusal, Settings};

// The lines of a part that is planned into buffers of the right lengths.
fn planned_lines(
    s: Settings,
    part: &[u8],
    support: &mut [u8],
    rings: &mut [u16],
    out: &mut [u8],
) -> usize
    requires { (plan_refusal s part.now (length support.old) (length rings.old) ≡ 0) × (Planable s part.now × (length out.old ≡ 16384)) }
    ensures { Printed (plan_lines s part.now) result out.new out.old }
{
    plan(s, part, support, rings);
    job_lines(out, s, part, support, rings)
}

// How many rings a job has.
fn ring_count(s: Settings) -> usize
    requires { (1 ≤ s.n) × ((s.n ≤ 512) × ((s.h ≤ 256) × (s.w ≤ 256))) }
    ensures { result ≡ rings_in s }
{
    (s.n - 1) * (s.h * s.w)
}

// The text for a job that was read: 17 where its rings have no room, or its lines.
fn job_text(
    s: Settings,
    part: &[u8],
    support: &mut [u8],
    rings: &mut [u16],
    out: &mut [u8],
) -> usize
    requires { Planable s part.now × Room support.old rings.old out.old }
    ensures { Printed (cond (ltb 32768 (rings_in s)) (refused_line (17 ∷ [])) (plan_lines s part.now)) result out.new out.old }
{
    let count = ring_count(s);
    if 32768 < count {
        return refused_line(out, Refusal::Number(17));
    }
    let bytes = part.len();
    planned_lines(s, part, &mut support[..bytes], &mut rings[..count], out)
}

// The same, with support and rings of its own.
fn read_text(s: Settings, part: &[u8], out: &mut [u8]) -> usize
    requires { Planable s part.now × (length out.old ≡ 16384) }
    ensures { Printed (cond (ltb 32768 (rings_in s)) (refused_line (17 ∷ [])) (plan_lines s part.now)) result out.new out.old }
{
    let mut support = [0u8; 65536];
    let mut rings = [0u16; 32768];
    job_text(s, part, &mut support, &mut rings, out)
}

// The whole output for an input that begins with `file`; `more` says that it goes on.
pub fn report(file: &[u8], more: bool, out: &mut [u8; 16384]) -> usize
    ensures { Reports file.now more out.old result out.new }
{
    if more {
        return refused_line(out, Refusal::Number(17)); // the first of the two places of 17
    }
    if 65536 < file.len() {
        return refused_line(out, Refusal::Number(17));
    }
    match job::read(file) {
        ReadJob::Refused(refusal) => refused_line(out, refusal),
        ReadJob::Job(l) => {
            let s = l.settings;
            read_text(s, job::part(file), out)
        }
    }
}
