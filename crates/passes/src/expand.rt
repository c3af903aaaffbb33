// Expanding an accepted pass table: its jobs, and the links of its flows.
ghost use Rattle.std.specs.Prelude.{◌≡◌, map, ℕ, ◌+◌, ◌*◌, ◌<◌, ◌≤◌, length};
ghost use Rattle.laws.specs.Lists.{count, flat};
ghost use Rattle.records.specs.Record.{job_bytes};
ghost use Rattle.records.specs.Table.{encode};
ghost use Rattle.records.specs.Outcome.{overwrite};
ghost use Rattle.records.specs.declared.JobRecord.TheVariants.{J, L};
ghost use Rattle.passes.specs.Expand.{instance_of, jobs_from, job_count, flow_links, flows_of};
ghost use Rattle.passes.specs.Call.{pass_table};
ghost use Rattle.passes.specs.Timely.{passes_at, in_order};
ghost use Rattle.passes.specs.Arrays.{written_at};
ghost use Rattle.passes.specs.Ends.{ends_of, matches, matched, matched_links, record_links, EndsFit, FlowFits};

use crate::cycle::Plan;
use crate::judge::Accepted;
use records::write::write;
use records::{Flow, Job, JobRecord, Link, Pass, PassRecord};
use std::marker::Model;

// The job of a pass's instance that `before` others come before; the job of the first one is numbered `first`.
#[tactic(auto, unfolding(crate::specs::Expand::instance_of))]
fn instance_of(pass: Pass, first: usize, before: usize) -> Job
    requires { (first + before < 48) × ((before + 1) * pass.period ≤ 48000) × (pass.phase + pass.within ≤ pass.period) }
    ensures { result ≡ instance_of pass first (before + 1) }
{
    let release = before * usize::from(pass.period) + usize::from(pass.phase);
    Job {
        number: (first + before) as u8,
        cost: pass.cost,
        release: release as u16,
        deadline: (release + usize::from(pass.within)) as u16,
    }
}

// The jobs of the first `times` instances of a pass, each at the place of its number.
#[tactic(auto, using(crate::proofs::Instances::instances_written))]
fn write_instances(out: &mut [u8], first: usize, pass: Pass, times: usize)
    requires { (12 * (first + times) ≤ length out.old) × (first + times ≤ 48) × (times * pass.period ≤ 48000) × (pass.phase + pass.within ≤ pass.period) }
    ensures { out.new ≡ written_at out.old first (map J (map (instance_of pass first) (count 1 times))) }
{
    for before in 0..times {
        write(
            out,
            first + before,
            JobRecord::J(instance_of(pass, first, before)),
        );
    }
}

// The jobs of the pass with a number, if there is one, from the number `first` on: the number of the next job.
#[tactic(auto, using(crate::proofs::Instances::pass_written))]
fn write_pass(out: &mut [u8], first: usize, plan: &Plan, number: usize) -> usize
    requires known { number < 24 }
    requires room { let jobs = job_count plan.now.cycle (passes_at plan.now.passes number) in (first + jobs ≤ 48) × (12 * (first + jobs) ≤ length out.old) }
    ensures value { result ≡ first + job_count plan.now.cycle (passes_at plan.now.passes number) }
    ensures out_after { out.new ≡ written_at out.old first (map J (jobs_from plan.now.cycle first (passes_at plan.now.passes number))) }
{
    let Some(pass) = plan.passes.by_number[number] else {
        return first;
    };
    let times = plan.instances_of(number);
    write_instances(out, first, pass, times);
    first + times
}

// The jobs of all passes.
#[tactic(auto, using(crate::proofs::Instances::jobs_written))]
pub fn write_jobs(out: &mut [u8], plan: &Plan)
    requires few { job_count plan.now.cycle (in_order plan.now.passes) ≤ 48 }
    requires room { 12 * job_count plan.now.cycle (in_order plan.now.passes) ≤ length out.old }
    ensures { out.new ≡ overwrite (encode job_bytes (map J (jobs_from plan.now.cycle 0 (in_order plan.now.passes)))) out.old }
{
    let mut first = 0;
    for number in 0..24 {
        first = write_pass(out, first, plan, number);
    }
}

// What the links of a flow are made of: its source's and its target's first job and period, and how many instances the source has.
// The jobs that the links name are numbered below 48, and no instance is released past 48,000 ticks.
#[derive(Drop)]
struct Ends {
    from: usize,
    to: usize,
    source_period: usize,
    target_period: usize,
    instances: usize,
}

impl Model for Ends {
    ghost use Rattle.passes.specs.Ends.{FlowEnds, EndsFit};

    ghost Value = { FlowEnds };

    ghost view = { λ e. record { from = e.from; to = e.to; source_period = e.source_period; target_period = e.target_period; instances = e.instances } };

    ghost invariant = { λ e. EndsFit (record { from = e.from; to = e.to; source_period = e.source_period; target_period = e.target_period; instances = e.instances }) };
}

impl Ends {
    // The period of the source's instance that `before` others come before starts with a period of the target.
    #[tactic(auto, unfolding(crate::specs::Ends::matches))]
    fn is_matched(&self, before: usize) -> bool
        requires { before < self.now.instances }
        ensures { result ≡ matches self.now (before + 1) }
    {
        before * self.source_period % self.target_period == 0
    }

    // How many links the flow has.
    fn count(&self) -> usize
        ensures upper_bound { result ≤ 48 }
        ensures by_index { (latency : ℕ) → result ≡ length (matched_links self.now latency) }
    {
        (0..self.instances)
            .filter(|before| self.is_matched(*before))
            .count()
    }

    // The link of that instance at a place, if it has one: the next place.
    #[tactic(auto, using(crate::proofs::Matches::match_written))]
    fn write_matched(&self, out: &mut [u8], place: usize, latency: u16, before: usize) -> usize
        requires inside { before < self.now.instances }
        requires room { 12 * (place + length (matched self.now latency (before + 1))) ≤ length out.old }
        ensures value { result ≡ place + length (matched self.now latency (before + 1)) }
        ensures out_after { out.new ≡ written_at out.old place (map L (matched self.now latency (before + 1))) }
    {
        if !self.is_matched(before) {
            return place;
        }
        let link = Link {
            from: (self.from + before) as u8,
            to: (self.to + before * self.source_period / self.target_period) as u8,
            latency,
        };
        write(out, place, JobRecord::L(link));
        place + 1
    }

    // The links of the flow from a place on: the next place.
    #[tactic(auto, using(crate::proofs::Matches::links_written))]
    fn write(&self, out: &mut [u8], place: usize, latency: u16) -> usize
        requires { 12 * (place + length (matched_links self.now latency)) ≤ length out.old }
        ensures value { result ≡ place + length (matched_links self.now latency) }
        ensures out_after { out.new ≡ written_at out.old place (map L (matched_links self.now latency)) }
    {
        let mut next = place;
        for before in 0..self.instances {
            next = self.write_matched(out, next, latency, before);
        }
        next
    }
}

// What the links of a flow are made of.
#[tactic(auto, unfolding(crate::specs::Ends::ends_of))]
fn ends_of(plan: &Plan, flow: Flow) -> Ends
    requires { (flow.source < 24) × (flow.target < 24) × EndsFit (ends_of plan.now.passes plan.now.cycle flow) }
    ensures { result ≡ ends_of plan.now.passes plan.now.cycle flow }
{
    let source = usize::from(flow.source);
    let target = usize::from(flow.target);
    Ends {
        from: plan.first_job(source),
        to: plan.first_job(target),
        source_period: plan.period_of(source),
        target_period: plan.period_of(target),
        instances: plan.instances_of(source),
    }
}

// How many links the flow of a record has.
fn count_record(plan: &Plan, r: PassRecord) -> usize
    requires { FlowFits plan.now.passes plan.now.cycle r }
    ensures { (result ≡ length (record_links plan.now.passes plan.now.cycle r)) × (result ≤ 48) }
{
    match r {
        PassRecord::P(_) => 0,
        PassRecord::F(f) => ends_of(plan, f).count(),
    }
}

// How many links the flows of a table have.
pub fn count_links(accepted: &Accepted) -> usize
    ensures { result ≡ length (flat (flow_links (pass_table accepted.now.judged.table.bytes.now) accepted.now.plan.cycle) (flows_of (pass_table accepted.now.judged.table.bytes.now))) }
{
    let table = &accepted.judged.table;
    let mut links = 0;
    for place in 0..table.count() {
        links += count_record(&accepted.plan, table.at(place));
    }
    links
}

// The links of a record's flow from a place on: the next place.
#[tactic(auto, using(crate::proofs::Matches::flow_links_lem, crate::proofs::Matches::pass_links))]
fn write_record(out: &mut [u8], place: usize, plan: &Plan, r: PassRecord) -> usize
    requires fits { FlowFits plan.now.passes plan.now.cycle r }
    requires room { 12 * (place + length (record_links plan.now.passes plan.now.cycle r)) ≤ length out.old }
    ensures value { result ≡ place + length (record_links plan.now.passes plan.now.cycle r) }
    ensures out_after { out.new ≡ written_at out.old place (map L (record_links plan.now.passes plan.now.cycle r)) }
{
    match r {
        PassRecord::P(_) => place,
        PassRecord::F(f) => ends_of(plan, f).write(out, place, f.latency),
    }
}

// The links of all flows of a table, flow by flow as they stand in it.
pub fn write_links(out: &mut [u8], accepted: &Accepted)
    requires { 12 * length (flat (flow_links (pass_table accepted.now.judged.table.bytes.now) accepted.now.plan.cycle) (flows_of (pass_table accepted.now.judged.table.bytes.now))) ≤ length out.old }
    ensures { out.new ≡ overwrite (encode job_bytes (map L (flat (flow_links (pass_table accepted.now.judged.table.bytes.now) accepted.now.plan.cycle) (flows_of (pass_table accepted.now.judged.table.bytes.now))))) out.old }
{
    let table = &accepted.judged.table;
    let mut next = 0;
    for place in 0..table.count() {
        next = write_record(out, next, &accepted.plan, table.at(place));
    }
}
