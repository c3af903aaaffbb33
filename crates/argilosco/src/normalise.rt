// Normalising a job table.
ghost use Rattle.std.specs.Prelude.{length};
ghost use Rattle.normal.specs.Call.{normalise};
ghost use Rattle.argilosco.specs.Promise.{NormalisePromise};
ghost use Rattle.argilosco.specs.Answer.{Writes};

use crate::Written;
use crate::hold::hold;
use normal::choose::choose;
use normal::tighten::windows;
use normal::write::{count_jobs, count_links, write_normal};
use records::refusal::Refusal;

// How many bytes the normal form of a table takes, written to the start of the output.
fn normalise(jobs: &[u8], out: &mut [u8]) -> Result<u32, Refusal>
    ensures { Writes (normalise jobs.now (length out.old)) out.old result out.new }
{
    let mut square = [[0; 48]; 48];
    let held = hold(jobs, &mut square)?;
    let tight = windows(held, square);
    let links = choose(held, tight, square);
    let room = 12 * (count_jobs(held) + count_links(links));
    if out.len() < room {
        return Err(Refusal::NoRoom);
    }
    write_normal(out, held, tight, links);
    Ok(room as u32)
}

// The normal form of the table, written to the start of the output; or the lowest of 1 to 5 and 7 to 9 that holds, and nothing written.
pub fn argilosco_normalise(jobs: &[u8], out: &mut [u8]) -> Written
    ensures { NormalisePromise jobs.now out.old result out.new }
{
    Written::from(normalise(jobs, out))
}
