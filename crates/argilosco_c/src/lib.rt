// The static library: the three public calls, exported for C and Rust. Each is the library's call of the same name and promises the same.
#![tactic(auto)]

ghost use Rattle.argilosco.specs.Promise.{ExpandPromise, NormalisePromise, SchedulePromise};

use argilosco::{Scheduled, Written, expand, normalise, schedule};

// The job table that a pass table expands to, into the first bytes of the output.
#[unsafe(no_mangle)]
pub extern "C" fn argilosco_expand(passes: &[u8], out: &mut [u8]) -> Written
    ensures { ExpandPromise passes.now out.old result out.new }
{
    expand::argilosco_expand(passes, out)
}

// The normal form of the table, written to the start of the output; or the lowest of 1 to 5 and 7 to 9 that holds, and nothing written.
#[unsafe(no_mangle)]
pub extern "C" fn argilosco_normalise(jobs: &[u8], out: &mut [u8]) -> Written
    ensures { NormalisePromise jobs.now out.old result out.new }
{
    normalise::argilosco_normalise(jobs, out)
}

// The table's schedule, written to the start of the output; or the lowest of 1 to 5 and 7 to 11 that holds, and nothing written.
#[unsafe(no_mangle)]
pub extern "C" fn argilosco_schedule(jobs: &[u8], budget: u32, out: &mut [u8]) -> Scheduled
    ensures { SchedulePromise jobs.now budget out.old result out.new }
{
    schedule::argilosco_schedule(jobs, budget, out)
}
