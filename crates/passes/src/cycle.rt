// The cycle of the passes, the least common multiple of their periods, and how many instances and jobs they have in it.
ghost use Rattle.std.specs.Prelude.{◌≡◌, ◌<◌, ◌≤◌};
ghost use Rattle.passes.specs.Expand.{lcm, cycle_from, within_limit, job_count, first_job};
ghost use Rattle.passes.specs.Timely.{passes_at, period_at, in_order, AllTimely, all_timely_once};

use crate::Passes;

// The least common multiple of two numbers, the first of a, 2·a, .. that b divides, where it is at most 48,000.
#[tactic(auto, using(crate::proofs::Ceiling::multiples_tried))]
fn multiple(a: u32, b: u32) -> Option<u32>
    requires { (0 < a) × (a < 65536) × (0 < b) }
    ensures { result ≡ within_limit (lcm a b) }
{
    for m in (a..=48000).step_by(a as usize) {
        if m % b == 0 {
            return Some(m);
        }
    }
    None
}

// The least common multiple of a cycle and a period, where it is at most 48,000: of the larger one the fewest multiples are tried.
#[tactic(auto, using(crate::proofs::Multiples::lcm_comm))]
fn common(cycle: u32, period: u16) -> Option<u32>
    requires { (0 < cycle) × (cycle ≤ 48000) × (0 < period) }
    ensures { result ≡ within_limit (lcm cycle period) }
{
    let wide = u32::from(period);
    if cycle < wide {
        return multiple(wide, cycle);
    }
    multiple(cycle, wide)
}

// The cycle of the passes, where it is at most 48,000.
#[tactic(auto, using(crate::proofs::Ceiling::all_joined))]
pub(crate) fn cycle_of(passes: &Passes) -> Option<u32>
    requires { AllTimely passes.now }
    ensures { result ≡ within_limit (cycle_from 1 (in_order passes.now)) }
{
    let mut cycle = 1;
    for held in &passes.by_number {
        if let Some(pass) = held {
            cycle = common(cycle, pass.period)?;
        }
    }
    Some(cycle)
}

// The passes of a table and their cycle: each pass has a period, which its window lies within, and the cycle is at most 48,000 ticks.
#[derive(Clone, Copy)]
pub struct Plan {
    pub passes: Passes,
    pub cycle: u32,
    pub ghost timely: { AllTimely passes } by { all_timely_once passes },
    pub ghost short: { cycle ≤ 48000 },
}

impl Plan {
    // How many instances the pass with a number has: none where there is no such pass.
    #[tactic(auto, using(crate::proofs::Ceiling::instances_counted))]
    pub(crate) fn instances_of(&self, number: usize) -> usize
        requires { number < 24 }
        ensures { (result ≡ job_count self.now.cycle (passes_at self.now.passes number)) × (result ≤ 48000) }
    {
        let Some(pass) = self.passes.by_number[number] else {
            return 0;
        };
        (self.cycle / u32::from(pass.period)) as usize
    }

    // The period of the pass with a number: 0 where there is no such pass.
    #[tactic(auto, unfolding(crate::specs::Timely::period_at))]
    pub(crate) fn period_of(&self, number: usize) -> usize
        requires { number < 24 }
        ensures { result ≡ period_at self.now.passes number }
    {
        self.passes.by_number[number].map_or(0, |pass| usize::from(pass.period))
    }

    // How many jobs the passes have: as many as stand before the number 24.
    #[tactic(auto, using(crate::proofs::First::first_all))]
    pub fn job_count(&self) -> usize
        ensures { result ≡ job_count self.now.cycle (in_order self.now.passes) }
    {
        self.first_job(24)
    }

    // The number of the first job of the pass with a number: as many jobs stand before it as the passes of lower number have.
    pub(crate) fn first_job(&self, number: usize) -> usize
        requires { number ≤ 24 }
        ensures { result ≡ first_job self.now.cycle (in_order self.now.passes) number }
    {
        (0..number).map(|lower| self.instances_of(lower)).sum()
    }
}
