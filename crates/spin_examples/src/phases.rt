//! Rounds of workers over a barrier. In each round every worker adds its gain to the round's result. The
//! leader of the round adds that result to the total before the next round begins. Begin with [`run_phases`].
//!
//! Each round is proved to be exact: its leader finds what all workers have added in it, no more and no less. A
//! ghost book counts what the present round has added, and each worker has one part of it. A worker
//! brings its part to the barrier, and the leader leaves with all. So nobody else adds until the leader has
//! given the parts back. A second book counts what is still to be added.
//!
//! A test shows that a worker which may go on finds a part for its next round.
ghost use Rattle.std.specs.Prelude.{◌≡◌, ℕ, ◌+◌, ◌*◌, ◌^◌, ◌<◌, ◌≤◌, true, IfOk, IfSome, max, vec_capacity, vec_len};
ghost use Rattle.spin_examples.specs.Phases.{IsSpent, Fresh, Planned, Rounds};

use spin_barrier::barrier::Barrier;
pub use spin_barrier::gate::{Gate, Open};
use spin_barrier::keep::Keeper;
use spin_barrier::pool::{Pool, Pooled};
use spin_core::relax::Yield;
use spin_mutex::mutex::Mutex;
use std::alloc::{AllocError, Allocator};
use std::marker::Brand;
use std::sync::Wait;
use std::sync::ledger::{Blank, Book, Ledger, Share};
use std::thread::{JoinHandle, Scope, Threads};
use std::{mem, thread};

/// The most workers of one run.
pub const MAX_WORKERS: usize = 64;

/// The reason why there is no total.
#[derive(Clone, Copy, Debug, PartialEq, Eq)]
pub enum PhasesError {
    /// Starting a thread failed, or allocating memory for it.
    Refused,
}

impl From<AllocError> for PhasesError {
    fn from(_refused: AllocError) -> PhasesError {
        PhasesError::Refused
    }
}

/// The results of all rounds.
#[derive(Clone, Copy, Debug, PartialEq, Eq)]
pub struct Folded {
    /// The sum of all that was added.
    pub total: u64,
    /// How many rounds are in the total.
    pub rounds: u64,
    /// The smallest result of a round, or `u64::MAX` if there was no round.
    pub smallest: u64,
}

/// The numbers that all parts of one run have in common.
trait Plan: Ledger {
    /// The gains of all workers in all rounds.
    ghost all: { ℕ };
}

impl Plan for Brand {
    ghost all = { 0 };
}

/// The results so far, the result of the present round, and two ghost books: of the gains that are still to be added, and
/// of what the present round has added. Also the parts of the second book that wait for their workers.
#[derive(Drop)]
struct Results<P: Plan, T: Pooled> {
    folded: Folded,
    round: u64,
    free: u64,
    to_come: Book<P>,
    added: Book<T>,
    turns: Share<T>,
    ghost adds_up: { folded.total + round + to_come.total ≡ P.all },
    ghost fits: { P.all < 2 ^ 64 },
    ghost exact: { round ≡ added.total },
    ghost rounds: { Rounds folded.rounds (max T.group 1 * T.each) folded.total folded.smallest },
    ghost turns_free: { turns.parts ≡ free },
    ghost nothing_added: { turns.amount ≡ 0 },
}

/// What a worker returns: its parts of the books. If the worker has worked, it has nothing left to add.
#[derive(Drop)]
struct Done<P: Plan, T: Ledger> {
    share: Share<P>,
    turn: Share<T>,
    worked: bool,
    ghost one_part: { share.parts ≡ 1 },
    ghost spent: { IsSpent worked share.amount },
    ghost one_turn: { Fresh worked turn.parts turn.amount },
}

impl<P: Plan, T: Pooled> Results<P, T> {
    fn add(&mut self, gain: u64, mine: &mut Share<P>, turn: &mut Share<T>)
        requires gain { gain ≤ mine.old.amount }
        requires turn { 0 < turn.old.parts }
        ensures amount { mine.new.amount + gain ≡ mine.old.amount }
        ensures parts { mine.new.parts ≡ mine.old.parts }
        ensures turn { (turn.new.parts ≡ turn.old.parts) × (turn.new.amount ≡ turn.old.amount + gain) }
    {
        let Results {
            round,
            to_come,
            added,
            ..
        } = self;
        to_come.sub(mine, gain);
        added.add(turn, gain);
        *round += gain;
    }

    // Folds the round. All workers have added, and each has given its part to the leader: the result is exactly what they
    // have added.
    fn fold(&mut self, workers: u64, all: &mut Share<T>)
        requires whole { (all.old.parts ≡ T.parts) × (all.old.parts ≡ workers) }
        requires brought { all.old.amount ≡ max T.group 1 * T.each }
        ensures exact { self.old.round ≡ max T.group 1 * T.each }
    {
        let Results {
            folded,
            round,
            free,
            added,
            turns,
            ..
        } = self;
        added.audit(all);
        let result = *round;
        added.sub(all, result);
        *round = 0;
        folded.total += result;
        folded.rounds = folded.rounds.saturating_add(1);
        folded.smallest = folded.smallest.min(result);
        let none = turns.empty();
        turns.merge(mem::replace(all, none));
        *free += workers;
    }

    // Takes a part for the next round, if there is one.
    fn take(&mut self) -> Option<Share<T>>
        ensures { IfSome result (λ turn. (turn.parts ≡ 1) × (turn.amount ≡ 0)) }
    {
        let Results { free, turns, .. } = self;
        *free = free.checked_sub(1)?;
        Some(turns.split_off(1, 0))
    }

    fn result(&mut self, every: &mut Share<P>, all: &mut Share<T>) -> Folded
        requires whole { every.old.parts ≡ P.parts }
        requires nothing_left { every.old.amount ≡ 0 }
        requires turns { (all.old.parts ≡ T.parts) × (all.old.amount ≡ 0) }
        ensures total { result.total ≡ P.all }
        ensures rounds { Rounds result.rounds (max T.group 1 * T.each) result.total result.smallest }
    {
        let Results {
            folded,
            to_come,
            added,
            ..
        } = self;
        to_come.audit(every);
        added.audit(all);
        *folded
    }
}

/// What all workers of one run share.
#[derive(Drop)]
struct Team<'a, P: Plan, T: Pooled, G, R>
where
    Pool<T>: Keeper,
{
    rt: &'a R,
    gate: &'a G,
    // Locked while workers are started. Afterwards a worker begins only if it finds `true`: all workers were started.
    begins: Mutex<bool, Yield>,
    gathered: Barrier<Yield, Pool<T>>,
    released: Barrier<Yield>,
    results: Mutex<Results<P, T>, Yield>,
    // At least 1.
    workers: u64,
    rounds: u64,
    gain: u64,
    ghost gains_fit: { rounds * gain < 2 ^ 64 },
}

impl<P: Plan + Send + Sync, T: Pooled + Send + Sync, G: Gate + Sync, R: Threads + Wait + Sync> Team<
    '_,
    P,
    T,
    G,
    R,
> {
    /// Does all the work of one worker.
    fn work(&self, worker: usize, mut share: Share<P>, mut turn: Share<T>) -> Done<P, T>
        requires plan { Planned self.now.workers self.now.gain T.parts T.group T.each }
        requires one_part { share.parts ≡ 1 }
        requires one_turn { (turn.parts ≡ 1) × (turn.amount ≡ 0) }
        requires gains { share.amount ≡ self.now.rounds * self.now.gain }
    {
        if !*self.begins.lock(self.rt) {
            return Done {
                share,
                turn,
                worked: false,
            };
        }
        self.gate.before(self.rt, worker);
        for _round in 0..self.rounds {
            self.results
                .lock(self.rt)
                .add(self.gain, &mut share, &mut turn);
            if self.gathered.wait(self.rt, &mut turn).is_leader() {
                self.results.lock(self.rt).fold(self.workers, &mut turn);
            }
            self.released.wait(self.rt);
            let next = self.results.lock(self.rt).take();
            let Some(next) = next else {
                return Done {
                    share,
                    turn,
                    worked: false,
                };
            };
            turn = next;
        }
        Done {
            share,
            turn,
            worked: true,
        }
    }

    /// Joins the workers, and takes their parts of the books back. Returns `true` if all of them have worked,
    /// so that they have nothing left to add.
    fn join_all<A: Allocator>(
        &self,
        mut running: Vec<JoinHandle<Done<P, T>>, A>,
        mine: &mut Share<P>,
        turns: &mut Share<T>,
    ) -> bool
        ensures parts { mine.new.parts ≡ mine.old.parts + vec_len running }
        ensures spent { mine.old.amount ≡ 0 → IsSpent result mine.new.amount }
        ensures turns { result ≡ true → (turns.new.parts ≡ turns.old.parts + vec_len running) × (turns.new.amount ≡ turns.old.amount) }
    {
        let mut all_worked = true;
        while let Some(worker) = running.pop() {
            let Done {
                share,
                turn,
                worked,
            } = worker.join(self.rt);
            all_worked = all_worked && worked;
            mine.merge(share);
            turns.merge(turn);
        }
        all_worked
    }

    /// Starts the thread of one worker.
    fn start<'s, E>(
        &'s self,
        scope: &Scope<'s, E>,
        worker: usize,
        share: Share<P>,
        turn: Share<T>,
    ) -> Option<JoinHandle<Done<P, T>>>
        requires plan { Planned self.now.workers self.now.gain T.parts T.group T.each }
        requires one_part { share.parts ≡ 1 }
        requires one_turn { (turn.parts ≡ 1) × (turn.amount ≡ 0) }
        requires gains { share.amount ≡ self.now.rounds * self.now.gain }
    {
        let job = move || -> Done<P, T>
            requires plan { Planned self.now.workers self.now.gain T.parts T.group T.each }
            requires mine { (share.parts ≡ 1) × (share.amount ≡ self.now.rounds * self.now.gain) }
            requires one_turn { (turn.parts ≡ 1) × (turn.amount ≡ 0) }
        { self.work(worker, share, turn) };
        scope.spawn(job).ok()
    }

    /// Starts a thread for each worker. Returns `true` if every start succeeded.
    fn start_each<'s, E, A: Allocator>(
        &'s self,
        scope: &Scope<'s, E>,
        workers: usize,
        mine: &mut Share<P>,
        turns: &mut Share<T>,
        running: &mut Vec<JoinHandle<Done<P, T>>, A>,
    ) -> bool
        requires plan { Planned self.now.workers self.now.gain T.parts T.group T.each }
        requires parts { mine.old.parts ≡ workers + 1 }
        requires amount { mine.old.amount ≡ workers * (self.now.rounds * self.now.gain) }
        requires turns { (workers ≤ turns.old.parts) × (turns.old.amount ≡ 0) }
        requires room { workers ≤ vec_capacity running.old }
        requires none { vec_len running.old ≡ 0 }
        ensures parts { result ≡ true → mine.new.parts + vec_len running.new ≡ mine.old.parts }
        ensures started { result ≡ true → vec_len running.new ≡ workers }
        ensures amount { result ≡ true → mine.new.amount ≡ 0 }
        ensures turns { result ≡ true → (turns.new.parts + workers ≡ turns.old.parts) × (turns.new.amount ≡ 0) }
    {
        for worker in 0..workers {
            let share = mine.split_off(1, self.rounds * self.gain);
            let turn = turns.split_off(1, 0);
            let Some(started) = self.start(scope, worker, share, turn) else {
                return false;
            };
            running.push_reserved(started);
        }
        true
    }

    /// Starts all workers. If a start fails, it joins the workers started before, which have not begun to
    /// work.
    fn start_all<'s, E, A: Allocator>(
        &'s self,
        scope: &Scope<'s, E>,
        alloc: A,
        workers: usize,
        mine: &mut Share<P>,
        turns: &mut Share<T>,
    ) -> Result<Vec<JoinHandle<Done<P, T>>, A>, PhasesError>
        requires plan { Planned self.now.workers self.now.gain T.parts T.group T.each }
        requires parts { mine.old.parts ≡ workers + 1 }
        requires amount { mine.old.amount ≡ workers * (self.now.rounds * self.now.gain) }
        requires turns { (workers ≤ turns.old.parts) × (turns.old.amount ≡ 0) }
        ensures started { IfOk result (λ running. vec_len running ≡ workers) }
        ensures parts { IfOk result (λ running. mine.new.parts + vec_len running ≡ mine.old.parts) }
        ensures amount { IfOk result (λ _. mine.new.amount ≡ 0) }
        ensures turns { IfOk result (λ _. (turns.new.parts + workers ≡ turns.old.parts) × (turns.new.amount ≡ 0)) }
    {
        let mut running = Vec::with_capacity(alloc, workers)?;
        let mut begins = self.begins.lock(self.rt);
        let all_start = self.start_each(scope, workers, mine, turns, &mut running);
        *begins = all_start;
        drop(begins);
        if !all_start {
            self.join_all(running, mine, turns);
            return Err(PhasesError::Refused);
        }
        Ok(running)
    }

    /// Works in a scope of threads, and reads the results once all threads are joined.
    fn run<A: Allocator>(
        &self,
        alloc: A,
        workers: usize,
        mut mine: Share<P>,
        mut turns: Share<T>,
    ) -> Result<Folded, PhasesError>
        requires plan { Planned self.now.workers self.now.gain T.parts T.group T.each }
        requires whole { mine.parts ≡ P.parts }
        requires parts { mine.parts ≡ workers + 1 }
        requires amount { mine.amount ≡ workers * (self.now.rounds * self.now.gain) }
        requires turns { (turns.parts ≡ T.parts) × ((workers ≤ turns.parts) × (turns.amount ≡ 0)) }
        ensures total { IfOk result (λ folded. folded.total ≡ P.all) }
        ensures rounds { IfOk result (λ folded. Rounds folded.rounds (max T.group 1 * T.each) folded.total folded.smallest) }
    {
        thread::scope(
            thread::scope_env(),
            self.rt,
            move |scope| -> Result<Folded, PhasesError>
                requires plan { Planned self.now.workers self.now.gain T.parts T.group T.each }
                requires mine { (mine.parts ≡ P.parts) × (mine.parts ≡ workers + 1) × (mine.amount ≡ workers * (self.now.rounds * self.now.gain)) }
                requires turns { (turns.parts ≡ T.parts) × ((workers ≤ turns.parts) × (turns.amount ≡ 0)) }
                ensures total { IfOk result (λ folded. folded.total ≡ P.all) }
                ensures rounds { IfOk result (λ folded. Rounds folded.rounds (max T.group 1 * T.each) folded.total folded.smallest) }
            {
                let running = self.start_all(scope, alloc, workers, &mut mine, &mut turns)?;
                if !self.join_all(running, &mut mine, &mut turns) {
                    return Err(PhasesError::Refused);
                }
                Ok(self.results.lock(self.rt).result(&mut mine, &mut turns))
            },
        )
    }
}

/// Runs all rounds, with a book that has one part for each worker and one for the caller, and one that has a part for each
/// worker.
fn run_by<
    'a,
    P: Plan + Send + Sync,
    T: Pooled + Send + Sync,
    G: Gate + Sync,
    R: Threads + Wait + Sync,
    A: Allocator,
>(
    rt: &'a R,
    alloc: A,
    blank: Blank,
    turns: Blank,
    gate: &'a G,
    workers: usize,
    rounds: u64,
    gain: u64,
) -> Result<Folded, PhasesError>
    requires name { blank.name ≡ P.name }
    requires parts { blank.parts ≡ P.parts }
    requires one_more { blank.parts ≡ workers + 1 }
    requires turns { (turns.name ≡ T.name) × ((turns.parts ≡ T.parts) × (turns.parts ≡ max workers 1)) }
    requires groups { (T.group ≡ workers) × (T.each ≡ gain) }
    requires gains { workers * (rounds * gain) ≡ P.all }
    requires each { rounds * gain < 2 ^ 64 }
    requires fits { P.all < 2 ^ 64 }
    ensures total { IfOk result (λ folded. folded.total ≡ P.all) }
    ensures rounds { IfOk result (λ folded. Rounds folded.rounds (max T.group 1 * T.each) folded.total folded.smallest) }
{
    let (mut to_come, mut mine) = blank.open::<P>();
    to_come.add(&mut mine, workers as u64 * (rounds * gain));
    let (added, mut all) = turns.open::<T>();
    let gathered = Barrier::pool(workers, &mut all);
    let results = Results {
        folded: Folded {
            total: 0,
            rounds: 0,
            smallest: u64::MAX,
        },
        round: 0,
        free: 0,
        to_come,
        added,
        turns: all.empty(),
    };
    let team = Team {
        rt,
        gate,
        begins: Mutex::new(false),
        gathered,
        released: Barrier::new(workers),
        results: Mutex::new(results),
        workers: (workers as u64).max(1),
        rounds,
        gain,
    };
    team.run(alloc, workers, mine, all)
}

/// Runs `rounds` rounds with `workers` threads. In each round every worker adds `gain`. Each worker passes
/// the gate once, before its first round. The call joins all threads before it returns.
///
/// If starting a thread or allocating memory for it fails, there is no total, and no worker adds anything.
///
/// # Contract
/// There may be at most [`MAX_WORKERS`] workers. What one worker adds, and what all add together, has to fit a
/// `u64`. The total is exact. So is each round: `folded.rounds` rounds each had the gains of all workers, and the smallest
/// of them too (`Rounds`). Whether workers run at the same time is not promised. Whether and when the call returns is not
/// promised.
///
/// # Examples
/// ```
/// use spin_examples::phases::{Open, run_phases};
///
/// let folded = run_phases(&rt, rt.alloc(), &Open, 4, 10, 3).expect(&rt, "four threads");
/// assert_eq!(rt; (folded.total, folded.rounds, folded.smallest), (120, 10, 12));
/// ```
pub fn run_phases<G: Gate + Sync, R: Threads + Wait + Sync, A: Allocator>(
    rt: &R,
    alloc: A,
    gate: &G,
    workers: usize,
    rounds: u64,
    gain: u64,
) -> Result<Folded, PhasesError>
    requires workers { workers ≤ MAX_WORKERS }
    requires each { rounds * gain < 2 ^ 64 }
    requires fits { workers * (rounds * gain) < 2 ^ 64 }
    ensures total { IfOk result (λ folded. folded.total ≡ workers * (rounds * gain)) }
    ensures rounds { IfOk result (λ folded. Rounds folded.rounds (max workers 1 * gain) folded.total folded.smallest) }
{
    run_by::<Brand, Brand, G, R, A>(
        rt,
        alloc,
        Blank::new(workers as u64 + 1),
        Blank::new((workers as u64).max(1)),
        gate,
        workers,
        rounds,
        gain,
    )
}
