// Expanding a pass table into a job table.
ghost use Rattle.passes.specs.Call.{expand};
ghost use Rattle.std.specs.Prelude.{length};
ghost use Rattle.argilosco.specs.Promise.{ExpandPromise};
ghost use Rattle.argilosco.specs.Answer.{Writes};

use crate::Written;
use passes::expand::{count_links, write_jobs, write_links};
use passes::judge::judge;
use records::refusal::Refusal;

// How many bytes the job table takes that a pass table expands to, written to the start of the output.
fn expand(passes: &[u8], out: &mut [u8]) -> Result<u32, Refusal>
    ensures { Writes (expand passes.now (length out.old)) out.old result out.new }
{
    let accepted = judge(passes)?;
    let middle = 12 * accepted.jobs;
    let room = middle + 12 * count_links(&accepted);
    if out.len() < room {
        return Err(Refusal::NoRoom);
    }
    write_jobs(out, &accepted.plan);
    write_links(&mut out[middle..], &accepted);
    Ok(room as u32)
}

// The job table that a pass table expands to, into the first bytes of the output.
pub fn argilosco_expand(passes: &[u8], out: &mut [u8]) -> Written
    ensures { ExpandPromise passes.now out.old result out.new }
{
    Written::from(expand(passes, out))
}
