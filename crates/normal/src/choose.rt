// The choice of links: a pair joined by a chain is written exactly when its gap is over what the windows say.
ghost use Rattle.std.specs.Prelude.{◌≡◌, ℕ, get_or};
ghost use Rattle.normal.specs.Gaps.{cell};
ghost use Rattle.normal.specs.Chosen.{chosen_cell, chosen_row, chosen, Writable};

use crate::Windows;
use jobs::Jobs;
use std::array;

// One more than the latency of a pair that is written, and 0 of one that is not.
fn choose_cell(cost: u16, latest: u16, earliest: u16, gap: u32) -> u16
    requires { Writable cost gap }
    ensures { result ≡ chosen_cell cost latest earliest gap }
{
    if gap != 0 && u32::from(earliest) < gap + u32::from(latest) {
        (gap - u32::from(cost) + 1) as u16
    } else {
        0
    }
}

// The links from one job that are written.
fn choose_row(cost: u16, latest: u16, earliest: &[u16; 48], row: &[u32; 48]) -> [u16; 48]
    requires { (j : ℕ) → Writable cost (get_or row.now j 0) }
    ensures { result ≡ chosen_row cost latest earliest.now row.now }
{
    array::from_fn(|j| choose_cell(cost, latest, earliest[j], row[j]))
}

// All links that are written.
pub fn choose(jobs: Jobs, windows: Windows, square: [[u32; 48]; 48]) -> [[u16; 48]; 48]
    requires { (i j : ℕ) → Writable (get_or jobs.cost i 0) (cell square i j) }
    ensures { result ≡ chosen jobs windows square }
{
    let mut links = [[0; 48]; 48];
    for i in 0..48 {
        links[i] = choose_row(
            jobs.cost[i],
            windows.latest[i],
            &windows.earliest,
            &square[i],
        );
    }
    links
}
