//! Workers made of passes and runs, and passes and runs of workers.

ghost use Rattle.std.specs.Prelude.{◌≡◌, ◌≤◌, [], All, false, map, vec_len, vec_capacity};
ghost use Rattle.free_run.specs.Workers.{first_job};

use crate::board::RecordBoard;
use crate::worker::Job;
use crate::workers::{Worker, put};
use hart_run::HartRun;
use outside::{Clock, Console};
use turn_table::Pass;

/// A hart's run before its worker's first leg.
fn first_job(run: HartRun) -> Job
    ensures { result ≡ first_job run }
{
    let until = run.count();
    Job {
        run,
        until,
        legs: 0,
        refused: false,
    }
}

/// Each run with its pass, in their order.
pub(crate) fn pair<C: Console, K: Clock>(
    passes: &mut Vec<Pass<RecordBoard<C, K>>>,
    runs: &mut Vec<HartRun>,
    workers: Vec<Worker<C, K>>,
) -> Vec<Worker<C, K>>
    requires count { vec_len passes.old ≡ vec_len runs.old }
    requires empty { workers.items ≡ [] }
    requires none { vec_len workers ≡ 0 }
    requires room { vec_len runs.old ≤ vec_capacity workers }
    ensures passes { map (λ w. w.0) result.items ≡ passes.old.items }
    ensures jobs { map (λ w. w.1) result.items ≡ map first_job runs.old.items }
    ensures count { vec_len result ≡ vec_len runs.old }
    ensures capacity { vec_capacity workers ≤ vec_capacity result }
    ensures left { (passes.new.items ≡ []) × (runs.new.items ≡ []) }
    ensures none { (vec_len passes.new ≡ 0) × (vec_len runs.new ≡ 0) }
    ensures room { (vec_capacity passes.old ≤ vec_capacity passes.new)
        × (vec_capacity runs.old ≤ vec_capacity runs.new) }
{
    let Some(pass) = passes.pop() else {
        return workers;
    };
    let Some(run) = runs.pop() else {
        unreachable!()
    };
    let mut workers = pair(passes, runs, workers);
    put(&mut workers, (pass, first_job(run)));
    workers
}

/// The passes and the runs of workers, in their order. True where memory was refused to one of them.
pub(crate) fn unpair<C: Console, K: Clock>(
    mut workers: Vec<Worker<C, K>>,
    passes: &mut Vec<Pass<RecordBoard<C, K>>>,
    runs: &mut Vec<HartRun>,
) -> bool
    requires empty { (passes.old.items ≡ []) × (runs.old.items ≡ []) }
    requires none { (vec_len passes.old ≡ 0) × (vec_len runs.old ≡ 0) }
    requires room { (vec_len workers ≤ vec_capacity passes.old) × (vec_len workers ≤ vec_capacity runs.old) }
    ensures passes { passes.new.items ≡ map (λ w. w.0) workers.items }
    ensures runs { runs.new.items ≡ map (λ w. w.1.run) workers.items }
    ensures count { (vec_len passes.new ≡ vec_len workers) × (vec_len runs.new ≡ vec_len workers) }
    ensures room { (vec_capacity passes.old ≤ vec_capacity passes.new)
        × (vec_capacity runs.old ≤ vec_capacity runs.new) }
    ensures refused { result ≡ false → All (λ w. w.1.refused ≡ false) workers.items }
    ensures whole { All (λ w. w.1.refused ≡ false) workers.items → result ≡ false }
{
    let Some(worker) = workers.pop() else {
        return false;
    };
    let others = unpair(workers, passes, runs);
    let (pass, job) = worker;
    let Job { run, refused, .. } = job;
    put(passes, pass);
    put(runs, run);
    others || refused
}
