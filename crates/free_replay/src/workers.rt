//! A thread for each hart, and this thread for those that none can be started for.

ghost use Rattle.std.specs.Prelude.{◌≡◌, true, ◌<◌, ◌≤◌, ◌+◌, ◌++◌, [], ◌∷◌, All, vec_len, vec_capacity};
ghost use Rattle.std.specs.List.{AllZip};
ghost use Rattle.std.specs.Thread.{IsSync};
ghost use Rattle.free_replay.specs.ReplayLegs.{IsReady};
ghost use Rattle.free_replay.specs.Workers.{IsReadyWorker, HasWorked, Continues};

use crate::board::ReplayTurns;
use crate::worker::{Worker, step, work};
use free_run::{EventCount, Next, put};
use hart_run::HartRun;
use outside::Gate;
use std::snapshot::Snapshot;
use std::sync::Wait;
use std::sync::atomic::{AtomicBool, Ordering};
use std::thread;
use std::thread::{Promise, Threads};
use turn_table::{Pass, TurnTable};

/// What a thread hands back that was given a worker.
#[derive(Drop)]
struct Works {
    table: Snapshot<TurnTable<ReplayTurns>>,
    worker: Snapshot<Worker>,
}

impl Works {
    fn of(table: &TurnTable<ReplayTurns>, worker: &Worker) -> Works
        ensures table { result.table.value ≡ table.now }
        ensures worker { result.worker.value ≡ worker.now }
    {
        Works {
            table: Snapshot::of(table),
            worker: Snapshot::of(worker),
        }
    }
}

impl Promise<Worker> for Works {
    ghost kept_by = { λ p w. HasWorked p.table.value p.worker.value w };
}

/// One leg and one turn of each worker of this thread.
fn step_each<R: Wait, G: Gate>(
    wait: &R,
    table: &TurnTable<ReplayTurns>,
    gate: &G,
    events: &EventCount,
    mine: &mut [Worker],
) -> Next
    requires { All (IsReadyWorker table.now) mine.old }
    ensures { AllZip (HasWorked table.now) mine.old mine.new }
{
    let mut next = Next::Ends;
    for i in 0..mine.len() {
        next = next.with(step(wait, table, gate, events, &mut mine[i]));
    }
    next
}

/// The workers of this thread, one leg after another, until there is no more to do.
fn work_here<R: Wait, G: Gate>(
    wait: &R,
    table: &TurnTable<ReplayTurns>,
    gate: &G,
    events: &EventCount,
    mine: &mut [Worker],
)
    requires { All (IsReadyWorker table.now) mine.old }
    ensures { AllZip (HasWorked table.now) mine.old mine.new }
{
    for _ in wait.forever() {
        let read = events.read();
        match step_each(wait, table, gate, events, mine) {
            Next::Moves => {}
            Next::Waits => events.wait_beyond(wait, read),
            Next::Ends => return,
        }
    }
    unreachable!()
}

/// Passes and runs of those that threads were given, and the workers of this thread.
type Lists = (Vec<Pass<ReplayTurns>>, Vec<HartRun>, Vec<Worker>);

/// Puts a worker's pass and run behind the others.
fn with_last(lists: Lists, worker: Worker) -> Lists
    requires { (vec_len lists.0 < vec_capacity lists.0) × (vec_len lists.1 < vec_capacity lists.1) }
    ensures passes { result.0.items ≡ lists.0.items ++ worker.pass ∷ [] }
    ensures runs { result.1.items ≡ lists.1.items ++ worker.run ∷ [] }
    ensures mine { result.2 ≡ lists.2 }
    ensures count { (vec_len result.0 ≡ vec_len lists.0 + 1) × (vec_len result.1 ≡ vec_len lists.1 + 1) }
    ensures room { (vec_capacity lists.0 ≤ vec_capacity result.0) × (vec_capacity lists.1 ≤ vec_capacity result.1) }
{
    let (mut passes, mut runs, mine) = lists;
    let Worker { pass, run, .. } = worker;
    put(&mut passes, pass);
    put(&mut runs, run);
    (passes, runs, mine)
}

/// The worker of a pass and its run, before any leg of it.
fn worker_of(table: &TurnTable<ReplayTurns>, pass: Pass<ReplayTurns>, run: HartRun) -> Worker
    requires { IsReady table.now pass run }
    ensures ready { IsReadyWorker table.now result }
    ensures pass { result.pass ≡ pass }
{
    let until = run.count();
    Worker {
        pass,
        run,
        until,
        legs: 0,
    }
}

/// Legs and turns of the worker that a thread was given; without any, where no thread was to be had.
fn run_worker<R: Wait, G: Gate>(
    wait: &R,
    table: &TurnTable<ReplayTurns>,
    gate: &G,
    events: &EventCount,
    no_thread: bool,
    worker: Worker,
) -> Worker
    requires { IsReadyWorker table.now worker }
    ensures worked { HasWorked table.now worker result }
    ensures back { no_thread ≡ true → result ≡ worker }
{
    if no_thread {
        return worker;
    }
    work(wait, table, gate, events, worker)
}

/// The workers, and one more that no thread could be started for: it is one of this thread's meanwhile.
#[cycle(running)]
fn run_here<T: Threads + Wait + Sync, G: Gate>(
    rt: &T,
    table: &TurnTable<ReplayTurns>,
    gate: &G,
    events: &EventCount,
    passes: Vec<Pass<ReplayTurns>>,
    runs: Vec<HartRun>,
    mut mine: Vec<Worker>,
    worker: Worker,
) -> Lists
    requires ready { AllZip (IsReady table.now) passes.items runs.items }
    requires mine { All (IsReadyWorker table.now) mine.items }
    requires one { IsReadyWorker table.now worker }
    requires room { vec_len passes + 1 + vec_len mine ≤ vec_capacity mine }
    requires count { vec_len runs ≡ vec_len passes }
    requires spare { (vec_len passes < vec_capacity passes) × (vec_len runs < vec_capacity runs) }
    ensures ready { AllZip (IsReady table.now) result.0.items result.1.items }
    ensures continued { AllZip Continues (passes.items ++ worker.pass ∷ []) result.0.items }
    ensures mine { AllZip (HasWorked table.now) mine.items result.2.items }
    ensures passes { (vec_len result.0 ≡ vec_len passes + 1) × (vec_capacity passes ≤ vec_capacity result.0) }
    ensures runs { (vec_len result.1 ≡ vec_len runs + 1) × (vec_capacity runs ≤ vec_capacity result.1) }
    ensures mine_count { (vec_len result.2 ≡ vec_len mine) × (vec_capacity mine ≤ vec_capacity result.2) }
{
    put(&mut mine, worker);
    let (passes, runs, mut mine) = run_list(rt, table, gate, events, passes, runs, mine);
    let Some(worker) = mine.pop() else {
        unreachable!()
    };
    with_last((passes, runs, mine), worker)
}

/// The workers, and one more on a thread of its own, or on this one where none can be started for it.
#[cycle(running)]
fn run_last<T: Threads + Wait + Sync, G: Gate>(
    rt: &T,
    table: &TurnTable<ReplayTurns>,
    gate: &G,
    events: &EventCount,
    passes: Vec<Pass<ReplayTurns>>,
    runs: Vec<HartRun>,
    mine: Vec<Worker>,
    worker: Worker,
) -> Lists
    requires ready { AllZip (IsReady table.now) passes.items runs.items }
    requires mine { All (IsReadyWorker table.now) mine.items }
    requires one { IsReadyWorker table.now worker }
    requires room { vec_len passes + 1 + vec_len mine ≤ vec_capacity mine }
    requires count { vec_len runs ≡ vec_len passes }
    requires spare { (vec_len passes < vec_capacity passes) × (vec_len runs < vec_capacity runs) }
    ensures ready { AllZip (IsReady table.now) result.0.items result.1.items }
    ensures continued { AllZip Continues (passes.items ++ worker.pass ∷ []) result.0.items }
    ensures mine { AllZip (HasWorked table.now) mine.items result.2.items }
    ensures passes { (vec_len result.0 ≡ vec_len passes + 1) × (vec_capacity passes ≤ vec_capacity result.0) }
    ensures runs { (vec_len result.1 ≡ vec_len runs + 1) × (vec_capacity runs ≤ vec_capacity result.1) }
    ensures mine_count { (vec_len result.2 ≡ vec_len mine) × (vec_capacity mine ≤ vec_capacity result.2) }
{
    let no_thread = &AtomicBool::new(false);
    thread::scope(
        thread::scope_env(),
        rt,
        |scope| -> Lists
            requires sync { IsSync T.row × IsSync G.row }
            requires ready { AllZip (IsReady table.now) passes.items runs.items }
            requires mine { All (IsReadyWorker table.now) mine.items × IsReadyWorker table.now worker }
            requires room { vec_len passes + 1 + vec_len mine ≤ vec_capacity mine }
            requires count { vec_len runs ≡ vec_len passes }
            requires spare { (vec_len passes < vec_capacity passes) × (vec_len runs < vec_capacity runs) }
            ensures ready { AllZip (IsReady table.entry.now) result.0.items result.1.items }
            ensures continued { AllZip Continues (passes.items ++ worker.pass ∷ []) result.0.items }
            ensures mine { AllZip (HasWorked table.entry.now) mine.items result.2.items }
            ensures passes { (vec_len result.0 ≡ vec_len passes + 1) × (vec_capacity passes ≤ vec_capacity result.0) }
            ensures runs { (vec_len result.1 ≡ vec_len runs + 1) × (vec_capacity runs ≤ vec_capacity result.1) }
            ensures mine_count { (vec_len result.2 ≡ vec_len mine) × (vec_capacity mine ≤ vec_capacity result.2) }
        {
            let promise = Works::of(table, &worker);
            let run = move || -> Worker
                requires { IsReadyWorker table.now worker }
                ensures { HasWorked table.entry.now worker result }
            {
                let no_thread = no_thread.load(Ordering::SeqCst);
                run_worker(rt, table, gate, events, no_thread, worker)
            };
            match scope.spawn_with(promise, run) {
                Ok(child) => {
                    let lists = run_list(rt, table, gate, events, passes, runs, mine);
                    with_last(lists, child.join(rt))
                }
                Err(back) => {
                    no_thread.store(true, Ordering::SeqCst);
                    let worker = (back.value)();
                    run_here(rt, table, gate, events, passes, runs, mine, worker)
                }
            }
        },
    )
}

/// A thread for each pass with its run, and this thread for those that none can be started for. What is promised of
/// the last worker is promised of the others.
#[cycle(running)]
pub(crate) fn run_list<T: Threads + Wait + Sync, G: Gate>(
    rt: &T,
    table: &TurnTable<ReplayTurns>,
    gate: &G,
    events: &EventCount,
    mut passes: Vec<Pass<ReplayTurns>>,
    mut runs: Vec<HartRun>,
    mut mine: Vec<Worker>,
) -> Lists
    requires ready { AllZip (IsReady table.now) passes.items runs.items }
    requires mine { All (IsReadyWorker table.now) mine.items }
    requires room { vec_len passes + vec_len mine ≤ vec_capacity mine }
    requires count { vec_len runs ≡ vec_len passes }
    ensures ready { AllZip (IsReady table.now) result.0.items result.1.items }
    ensures continued { AllZip Continues passes.items result.0.items }
    ensures mine { AllZip (HasWorked table.now) mine.items result.2.items }
    ensures passes { (vec_len result.0 ≡ vec_len passes) × (vec_capacity passes ≤ vec_capacity result.0) }
    ensures runs { (vec_len result.1 ≡ vec_len runs) × (vec_capacity runs ≤ vec_capacity result.1) }
    ensures mine_count { (vec_len result.2 ≡ vec_len mine) × (vec_capacity mine ≤ vec_capacity result.2) }
{
    let Some(pass) = passes.pop() else {
        work_here(rt, table, gate, events, mine.as_mut_slice());
        return (passes, runs, mine);
    };
    let Some(run) = runs.pop() else {
        unreachable!()
    };
    let worker = worker_of(table, pass, run);
    run_last(rt, table, gate, events, passes, runs, mine, worker)
}
