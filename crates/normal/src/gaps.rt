// The longest gap between every two jobs: a square of gaps by value, 48 by 48. A cell of 0 says that no chain leads from i to j.
ghost use Rattle.std.specs.Prelude.{◌≡◌, ℕ, List, map, ◌≤◌, ◌<◌, min, max, get_or};
ghost use Rattle.records.specs.declared.JobRecord.{JobRecord};
ghost use Rattle.jobs.specs.Arrays.{jobs_of, links_of};
ghost use Rattle.normal.specs.Gaps as gaps;
ghost use Rattle.normal.specs.Arrays.{ceiling, capped, weighed, Within};

use jobs::Jobs;
use std::array;

// No cell of the square is larger: a gap as long as this misses every deadline.
const CEILING: u32 = 65535;

// What the strongest link weighs: the from job's cost and the latency, and 0 where there is no link.
fn link_cell(cost: u16, strongest: u16) -> u32
    ensures { result ≡ min ceiling (gaps.weight cost strongest) }
{
    if strongest == 0 {
        return 0;
    }
    let gap = u32::from(cost) + (u32::from(strongest) - 1);
    gap.min(CEILING)
}

// The links from one job.
fn link_row(cost: u16, links: &[u16; 48]) -> [u32; 48]
    ensures { result ≡ map (min ceiling) (map (gaps.weight cost) links.now) }
{
    array::from_fn(|j| link_cell(cost, links[j]))
}

// The square of the links.
fn link_square(cost: [u16; 48], links: [[u16; 48]; 48]) -> [[u32; 48]; 48]
    ensures { result ≡ capped ceiling (weighed cost links) }
{
    let mut square = [[0; 48]; 48];
    for i in 0..48 {
        square[i] = link_row(cost[i], &links[i]);
    }
    square
}

// A cell with the chain through a job: a leads to that job and b on from it, and c is the longest so far.
fn widened_cell(c: u32, a: u32, b: u32) -> u32
    requires { (c ≤ ceiling) × (0 < a) × (a ≤ ceiling) × (b ≤ ceiling) }
    ensures { result ≡ min ceiling (max c (gaps.joined a b)) }
{
    if b == 0 {
        return c;
    }
    c.max(a + b).min(CEILING)
}

// A row with the chains through a job: a is the row's own chain to that job, and `through` that job's row.
fn widened_row(a: u32, row: &[u32; 48], through: &[u32; 48]) -> [u32; 48]
    requires { (0 < a) × (a ≤ ceiling) × ((j : ℕ) → (get_or row.now j 0 ≤ ceiling) × (get_or through.now j 0 ≤ ceiling)) }
    ensures { result ≡ map (min ceiling) (gaps.widened a row.now through.now) }
{
    array::from_fn(|j| widened_cell(row[j], a, through[j]))
}

// The square with the chains through job k: a row from which no chain leads to k stays as it is.
fn round(k: usize, square: &mut [[u32; 48]; 48])
    requires { (k < 48) × Within ceiling square.old }
    ensures { square.new ≡ capped ceiling (gaps.round k square.old) }
{
    let through = square[k];
    for row in square {
        let a = row[k];
        if a != 0 {
            *row = widened_row(a, row, &through);
        }
    }
}

// The square of gaps: the rounds through the jobs, by rising number.
pub fn gaps(jobs: Jobs, links: [[u16; 48]; 48]) -> [[u32; 48]; 48]
    ensures { (table : List JobRecord) → jobs ≡ jobs_of table → links ≡ links_of table → result ≡ capped ceiling (gaps.gaps table) }
{
    let mut square = link_square(jobs.cost, links);
    for k in 0..48 {
        if jobs.present[k] {
            round(k, &mut square);
        }
    }
    square
}

// Whether the links form a ring: a chain leads from some job back to it.
pub fn ring_in(square: [[u32; 48]; 48]) -> bool
    ensures { result ≡ gaps.ring_in square }
{
    (0..48).any(|n| square[n][n] != 0)
}
