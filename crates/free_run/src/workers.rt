//! A thread for each hart, and this thread for those that none can be started for.

ghost use Rattle.std.specs.Prelude.{◌≡◌, true, ◌<◌, ◌≤◌, ◌+◌, ◌++◌, [], ◌∷◌, vec_len, vec_capacity};
ghost use Rattle.std.specs.Thread.{IsSend, IsSync};
ghost use Rattle.free_run.specs.Workers.{AreReady, HasWorked, HaveWorked, IsReady};

use crate::board::RecordBoard;
use crate::events::EventCount;
use crate::next::Next;
use crate::worker::{Job, step, work};
use outside::{Clock, Console, Gate};
use std::alloc::Global;
use std::snapshot::Snapshot;
use std::sync::Wait;
use std::sync::atomic::{AtomicBool, Ordering};
use std::thread;
use std::thread::{Promise, Threads};
use turn_table::{Pass, TurnTable};

/// A hart's pass, and its run.
pub(crate) type Worker<C, K> = (Pass<RecordBoard<C, K>>, Job);

/// What a thread hands back that was given a worker.
#[derive(Drop)]
struct Works<C: Console, K: Clock> {
    table: Snapshot<TurnTable<RecordBoard<C, K>>>,
    pass: Snapshot<Pass<RecordBoard<C, K>>>,
}

impl<C: Console, K: Clock> Works<C, K> {
    fn of(table: &TurnTable<RecordBoard<C, K>>, worker: &Worker<C, K>) -> Works<C, K>
        ensures table { result.table.value ≡ table.now }
        ensures pass { result.pass.value ≡ worker.now.0 }
    {
        Works {
            table: Snapshot::of(table),
            pass: Snapshot::of(&worker.0),
        }
    }
}

impl<C: Console, K: Clock> Promise<Worker<C, K>> for Works<C, K> {
    ghost kept_by = { λ p w. HasWorked p.table.value p.pass.value w.0 w.1 };
}

/// One leg and one turn of each worker of this thread.
fn step_each<R: Wait, C: Console, K: Clock, G: Gate>(
    wait: &R,
    alloc: Global,
    table: &TurnTable<RecordBoard<C, K>>,
    gate: &G,
    events: &EventCount,
    mine: &mut [Worker<C, K>],
) -> Next
    requires { AreReady table.now mine.old }
    ensures { HaveWorked table.now mine.old mine.new }
{
    let mut next = Next::Ends;
    for i in 0..mine.len() {
        let (pass, job) = &mut mine[i];
        next = next.with(step(wait, alloc, table, gate, events, pass, job));
    }
    next
}

/// The workers of this thread, one leg after another, until there is no more to do.
fn work_here<R: Wait, C: Console, K: Clock, G: Gate>(
    wait: &R,
    alloc: Global,
    table: &TurnTable<RecordBoard<C, K>>,
    gate: &G,
    events: &EventCount,
    mine: &mut [Worker<C, K>],
)
    requires { AreReady table.now mine.old }
    ensures { HaveWorked table.now mine.old mine.new }
{
    for _ in wait.forever() {
        let read = events.read();
        match step_each(wait, alloc, table, gate, events, mine) {
            Next::Moves => {}
            Next::Waits => events.wait_beyond(wait, read),
            Next::Ends => return,
        }
    }
    unreachable!()
}

/// Adds one for which there is room.
pub fn put<X: Drop>(list: &mut Vec<X>, x: X)
    requires { vec_len list.old < vec_capacity list.old }
    ensures items { list.new.items ≡ list.old.items ++ x ∷ [] }
    ensures count { vec_len list.new ≡ vec_len list.old + 1 }
    ensures room { vec_capacity list.old ≤ vec_capacity list.new }
{
    let Ok(()) = list.push(x) else { unreachable!() };
}

/// Legs and turns of the worker that a thread was given; without any, where no thread was to be had.
fn run_worker<R: Wait, C: Console, K: Clock, G: Gate>(
    wait: &R,
    alloc: Global,
    table: &TurnTable<RecordBoard<C, K>>,
    gate: &G,
    events: &EventCount,
    no_thread: bool,
    worker: Worker<C, K>,
) -> Worker<C, K>
    requires { IsReady table.now worker.0 worker.1 }
    ensures worked { HasWorked table.now worker.0 result.0 result.1 }
    ensures back { no_thread ≡ true → result ≡ worker }
{
    if no_thread {
        return worker;
    }
    let (mut pass, mut job) = worker;
    work(wait, alloc, table, gate, events, &mut pass, &mut job);
    (pass, job)
}

/// Workers that threads were given, and those of this thread.
type Lists<C, K> = (Vec<Worker<C, K>>, Vec<Worker<C, K>>);

/// Puts a worker behind those that threads were given.
fn with_last<C: Console, K: Clock>(lists: Lists<C, K>, worker: Worker<C, K>) -> Lists<C, K>
    requires { vec_len lists.0 < vec_capacity lists.0 }
    ensures workers { result.0.items ≡ lists.0.items ++ worker ∷ [] }
    ensures mine { result.1 ≡ lists.1 }
    ensures count { vec_len result.0 ≡ vec_len lists.0 + 1 }
    ensures room { vec_capacity lists.0 ≤ vec_capacity result.0 }
{
    let (mut workers, mine) = lists;
    put(&mut workers, worker);
    (workers, mine)
}

/// The workers, and one more that no thread could be started for: it is one of this thread's meanwhile.
#[cycle(running)]
fn run_here<T: Threads + Wait + Sync, C: Console, K: Clock, G: Gate>(
    rt: &T,
    alloc: Global,
    table: &TurnTable<RecordBoard<C, K>>,
    gate: &G,
    events: &EventCount,
    workers: Vec<Worker<C, K>>,
    mut mine: Vec<Worker<C, K>>,
    worker: Worker<C, K>,
) -> Lists<C, K>
    requires ready { AreReady table.now workers.items }
    requires mine { AreReady table.now mine.items }
    requires one { IsReady table.now worker.0 worker.1 }
    requires spare { vec_len workers < vec_capacity workers }
    requires room { vec_len workers + 1 + vec_len mine ≤ vec_capacity mine }
    ensures worked { HaveWorked table.now (workers.items ++ worker ∷ []) result.0.items }
    ensures mine { HaveWorked table.now mine.items result.1.items }
    ensures count { (vec_len result.0 ≡ vec_len workers + 1) × (vec_capacity workers ≤ vec_capacity result.0) }
    ensures mine_count { (vec_len result.1 ≡ vec_len mine) × (vec_capacity mine ≤ vec_capacity result.1) }
{
    put(&mut mine, worker);
    let (workers, mut mine) = run_list(rt, alloc, table, gate, events, workers, mine);
    let Some(worker) = mine.pop() else {
        unreachable!()
    };
    with_last((workers, mine), worker)
}

/// A thread for each worker, and this thread for those that none can be started for. What is promised of the last
/// worker is promised of the others.
#[cycle(running)]
pub(crate) fn run_list<T: Threads + Wait + Sync, C: Console, K: Clock, G: Gate>(
    rt: &T,
    alloc: Global,
    table: &TurnTable<RecordBoard<C, K>>,
    gate: &G,
    events: &EventCount,
    mut workers: Vec<Worker<C, K>>,
    mut mine: Vec<Worker<C, K>>,
) -> Lists<C, K>
    requires ready { AreReady table.now workers.items }
    requires mine { AreReady table.now mine.items }
    requires room { vec_len workers + vec_len mine ≤ vec_capacity mine }
    ensures worked { HaveWorked table.now workers.items result.0.items }
    ensures mine { HaveWorked table.now mine.items result.1.items }
    ensures count { (vec_len result.0 ≡ vec_len workers) × (vec_capacity workers ≤ vec_capacity result.0) }
    ensures mine_count { (vec_len result.1 ≡ vec_len mine) × (vec_capacity mine ≤ vec_capacity result.1) }
{
    let Some(worker) = workers.pop() else {
        work_here(rt, alloc, table, gate, events, mine.as_mut_slice());
        return (workers, mine);
    };
    let no_thread = &AtomicBool::new(false);
    thread::scope(
        thread::scope_env(),
        rt,
        |scope| -> Lists<C, K>
            requires sync { IsSync T.row × IsSync G.row × IsSend C.row × IsSend K.row }
            requires one { IsReady table.now worker.0 worker.1 × (vec_len workers < vec_capacity workers) }
            requires ready { AreReady table.now workers.items × AreReady table.now mine.items }
            requires room { vec_len workers + 1 + vec_len mine ≤ vec_capacity mine }
            ensures worked { HaveWorked table.entry.now (workers.items ++ worker ∷ []) result.0.items }
            ensures mine { HaveWorked table.entry.now mine.items result.1.items }
            ensures count { (vec_len result.0 ≡ vec_len workers + 1) × (vec_capacity workers ≤ vec_capacity result.0) }
            ensures mine_count { (vec_len result.1 ≡ vec_len mine) × (vec_capacity mine ≤ vec_capacity result.1) }
        {
            let promise = Works::of(table, &worker);
            let run = move || -> Worker<C, K>
                requires { IsReady table.now worker.0 worker.1 }
                ensures { HasWorked table.entry.now worker.0 result.0 result.1 }
            {
                let no_thread = no_thread.load(Ordering::SeqCst);
                run_worker(rt, alloc, table, gate, events, no_thread, worker)
            };
            match scope.spawn_with(promise, run) {
                Ok(child) => {
                    let lists = run_list(rt, alloc, table, gate, events, workers, mine);
                    with_last(lists, child.join(rt))
                }
                Err(back) => {
                    no_thread.store(true, Ordering::SeqCst);
                    let worker = (back.value)();
                    run_here(rt, alloc, table, gate, events, workers, mine, worker)
                }
            }
        },
    )
}
