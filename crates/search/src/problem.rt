// What is searched, as all calls of a search share it.
ghost use Rattle.std.specs.Prelude.{◌≤◌};

use jobs::Jobs;

// The jobs and the links by number: `into[k][i]` is one more than the latency of the link from i to k, 0 where there is none. The job numbers are below `limit`,
// there are `count` jobs, and at most `budget` sequences are opened.
#[derive(Clone, Copy)]
pub struct Problem<'a> {
    pub jobs: &'a Jobs,
    pub into: &'a [[u16; 48]; 48],
    pub limit: usize,
    pub count: usize,
    pub budget: u32,
    pub ghost limit_in: { limit ≤ 48 },
    pub ghost count_in: { count ≤ 48 },
}
