// Where the sections of a job end, for settings that are in range.
ghost use Rattle.std.specs.Prelude.{◌≡◌, ◌≤◌};
ghost use Rattle.rules.specs.Tools.{refusal};
ghost use Rattle.rules.specs.Jobs as jobs;
ghost use Rattle.rules.specs.Calls.{setting_cases};

use limits::{rings_in, row_bytes, stack_bytes};
use rules::Settings;

// Where section 1 ends.
pub const HEAD_END: usize = 14;

// Where the part ends.
pub fn part_end(s: Settings) -> usize
    requires { refusal (setting_cases s) ≡ 0 }
    ensures { (result ≡ jobs.part_end s) × (result ≤ 4194322) }
{
    HEAD_END + 4 + stack_bytes(s)
}

// Where support of `c` rows ends.
pub fn support_end(s: Settings, c: usize) -> usize
    requires { (refusal (setting_cases s) ≡ 0) × (c ≤ 131072) }
    ensures { (result ≡ jobs.support_end s c) × (result ≤ 8388630) }
{
    part_end(s) + 4 + c * row_bytes(s.w)
}

// How many rings go with support of `c` rows.
pub fn ring_count(s: Settings, c: usize) -> usize
    requires { refusal (setting_cases s) ≡ 0 }
    ensures { (result ≡ jobs.ring_count s c) × (result ≤ 33488896) }
{
    if c == 0 {
        return 0;
    }
    rings_in(s)
}

// The job's length, where section 3 has count `c`.
pub fn job_end(s: Settings, c: usize) -> usize
    requires { (refusal (setting_cases s) ≡ 0) × (c ≤ 131072) }
    ensures { (result ≡ jobs.job_end s c) × (result ≤ 75366426) }
{
    support_end(s, c) + 4 + ring_count(s, c) * 2
}
