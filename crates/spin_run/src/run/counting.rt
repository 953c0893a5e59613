//! A count by workers, each a thread of its own, under one lock. Begin with [`count_with`].
ghost use Rattle.std.specs.Prelude.{◌≡◌, ◌+◌, ◌*◌, ◌^◌, ◌<◌, ◌≤◌, IfOk, vec_len};

use super::gate::{Passed, pass};
use super::locks::Lock;
use spin_barrier::gate::Gate;
use spin_history::quota::{Plan, Quota};
use std::alloc::{AllocError, Allocator};
use std::marker::Brand;
use std::sync::Wait;
use std::sync::ledger::{Blank, Share};
use std::thread;
use std::thread::{JoinHandle, Scope, Threads};

/// The most workers of one count.
pub const MAX_WORKERS: usize = 64;

/// The most additions of one worker.
pub const MAX_TIMES: u64 = 1_000_000;

/// The reason why a count has no total.
#[derive(Clone, Copy, Debug, PartialEq, Eq)]
pub enum CountError {
    /// A thread could not be started, or memory for it could not be allocated.
    Refused,
}

impl From<AllocError> for CountError {
    fn from(_refused: AllocError) -> CountError {
        CountError::Refused
    }
}

/// What a worker returns: its part of the book, on which no additions are left.
#[derive(Drop)]
struct Done<P: Plan> {
    share: Share<P>,
    ghost one_part: { share.parts ≡ 1 },
    ghost nothing_left: { share.amount ≡ 0 },
}

/// What all workers of one count share.
#[derive(Drop)]
struct Team<'a, P: Plan, G, R> {
    rt: &'a R,
    gate: &'a G,
    counter: Lock<Quota<P>>,
    times: u64,
}

impl<P: Plan + Send + Sync, G: Gate + Sync, R: Threads + Wait + Sync> Team<'_, P, G, R> {
    /// Does the work of one worker: it passes the gate, and then makes its additions.
    fn work(&self, worker: usize, share: Share<P>) -> Done<P>
        requires one_part { share.parts ≡ 1 }
        requires additions { share.amount ≡ self.now.times }
    {
        self.add_all(pass(self.gate, self.rt, worker), share)
    }

    /// Makes the additions of a worker that has passed its gate.
    fn add_all(&self, passed: Passed, mut share: Share<P>) -> Done<P>
        requires one_part { share.parts ≡ 1 }
        requires additions { share.amount ≡ self.now.times }
    {
        let _ = passed;
        for _done in 0..self.times {
            self.counter.lock(self.rt).add(&mut share, 1);
        }
        Done { share }
    }

    /// Joins the workers, and takes back their parts of the book.
    fn join_all<A: Allocator>(&self, mut running: Vec<JoinHandle<Done<P>>, A>, mine: &mut Share<P>)
        ensures parts { mine.new.parts ≡ mine.old.parts + vec_len running }
        ensures amount { mine.new.amount ≡ mine.old.amount }
    {
        while let Some(worker) = running.pop() {
            let Done { share } = worker.join(self.rt);
            mine.merge(share);
        }
    }

    /// Starts a thread for each worker. If a start fails, it joins the threads started before.
    fn start_all<'s, E, A: Allocator>(
        &'s self,
        scope: &Scope<'s, E>,
        alloc: A,
        workers: usize,
        mine: &mut Share<P>,
    ) -> Result<Vec<JoinHandle<Done<P>>, A>, CountError>
        requires parts { mine.old.parts ≡ workers + 1 }
        requires amount { mine.old.amount ≡ workers * self.now.times }
        ensures started { IfOk result (λ running. vec_len running ≡ workers) }
        ensures parts { IfOk result (λ running. mine.new.parts + vec_len running ≡ mine.old.parts) }
        ensures amount { IfOk result (λ _. mine.new.amount ≡ 0) }
    {
        let mut running = Vec::with_capacity(alloc, workers)?;
        for worker in 0..workers {
            let share = mine.split_off(1, self.times);
            let job = move || -> Done<P>
                requires { (share.parts ≡ 1) × (share.amount ≡ self.now.times) }
            { self.work(worker, share) };
            let Ok(started) = scope.spawn(job) else {
                self.join_all(running, mine);
                return Err(CountError::Refused);
            };
            running.push_reserved(started);
        }
        Ok(running)
    }

    /// Counts in a scope of threads, and reads the total once it has joined all of them.
    fn count<A: Allocator>(
        &self,
        alloc: A,
        workers: usize,
        mut mine: Share<P>,
    ) -> Result<u64, CountError>
        requires whole { mine.parts ≡ P.parts }
        requires parts { mine.parts ≡ workers + 1 }
        requires amount { mine.amount ≡ workers * self.now.times }
        ensures { IfOk result (λ total. total ≡ P.all) }
    {
        thread::scope(
            thread::scope_env(),
            self.rt,
            move |scope| -> Result<u64, CountError>
                requires { (mine.parts ≡ P.parts) × (mine.parts ≡ workers + 1) × (mine.amount ≡ workers * self.now.times) }
                ensures { IfOk result (λ total. total ≡ P.all) }
            {
                let running = self.start_all(scope, alloc, workers, &mut mine)?;
                self.join_all(running, &mut mine);
                Ok(self.counter.lock(self.rt).total(&mut mine))
            },
        )
    }
}

/// Counts with a book that has one part for each worker and one for the caller.
fn count_by<'a, P: Plan + Send + Sync, G: Gate + Sync, R: Threads + Wait + Sync, A: Allocator>(
    rt: &'a R,
    alloc: A,
    blank: Blank,
    gate: &'a G,
    workers: usize,
    times: u64,
) -> Result<u64, CountError>
    requires name { blank.name ≡ P.name }
    requires parts { blank.parts ≡ P.parts }
    requires one_more { blank.parts ≡ workers + 1 }
    requires additions { workers * times ≡ P.all }
    requires fits { P.all < 2 ^ 64 }
    ensures { IfOk result (λ total. total ≡ P.all) }
{
    let (quota, mine) = Quota::<P>::new(blank, workers as u64 * times);
    let team = Team {
        rt,
        gate,
        counter: Lock::new(quota),
        times,
    };
    team.count(alloc, workers, mine)
}

/// Counts by several threads, and returns the total.
///
/// Each worker from 0 to `workers - 1` is a thread of its own. It passes the gate once, even if `times` is 0.
/// Then it acquires one lock `times` times, and each time adds 1 to the number under the lock. The call joins all
/// threads before it returns. If starting a thread or allocating memory for it fails, the call joins the
/// threads started before and returns an error.
///
/// # Contract
/// There are at most `MAX_WORKERS` workers, with at most `MAX_TIMES` additions each. On `Ok` the total is exactly
/// `workers * times`. Whether and when the call returns is not promised, nor that workers run at the same time.
pub fn count_with<G: Gate + Sync, R: Threads + Wait + Sync, A: Allocator>(
    rt: &R,
    alloc: A,
    gate: &G,
    workers: usize,
    times: u64,
) -> Result<u64, CountError>
    requires workers { workers ≤ MAX_WORKERS }
    requires times { times ≤ MAX_TIMES }
    ensures { IfOk result (λ total. total ≡ workers * times) }
{
    count_by::<Brand, G, R, A>(
        rt,
        alloc,
        Blank::new(workers as u64 + 1),
        gate,
        workers,
        times,
    )
}
