//! A queue of jobs whose callers sleep: one who takes while there is none, one who adds while it is full. Begin with
//! [`JobQueue::take`].
ghost use Rattle.std.specs.Prelude.{◌≡◌, ◌≤◌, ◌++◌, length, [], IfSome, IfErr, OnOk};
ghost use Rattle.spin_history.specs.Entries.{WritesOne};
ghost use Rattle.spin_history.specs.Known.{known_to};

use spin::Condvar;
use spin::mutex::SpinMutex;
use spin_history::history::{History, Log, Snapshot};
use std::collections::VecDeque;
use std::sync::Wait;

/// The jobs that wait, the oldest first.
#[derive(Drop)]
struct Jobs<T, A: History, K: History> {
    waiting: VecDeque<T>,
    capacity: usize,
    open: bool,
    added: Log<T, A>,
    taken: Log<T, K>,
    ghost within: { length waiting.items ≤ capacity },
    ghost fifo: { added.entries ≡ taken.entries ++ waiting.items },
}

/// A queue of jobs, of at most so many at a time.
///
/// # Contract
/// There are never more jobs than the capacity (`within`). What was added is what was taken, followed by the jobs that
/// wait (`fifo`): jobs come out in the order in which they went in, none lost, none made up.
#[derive(Drop)]
pub struct JobQueue<T, A: History, K: History> {
    jobs: SpinMutex<Jobs<T, A, K>>,
    more: Condvar,
    room: Condvar,
}

impl<T, A: History, K: History> JobQueue<T, A, K> {
    /// Creates a queue that is open, with no job in it.
    ///
    /// # Contract
    /// The room for jobs and both logs have to be empty.
    pub fn new(waiting: VecDeque<T>, capacity: usize, added: Log<T, A>, taken: Log<T, K>) -> Self
        requires room { waiting.items ≡ [] }
        requires logs { (added.entries ≡ []) × (taken.entries ≡ []) }
    {
        let jobs = Jobs {
            waiting,
            capacity,
            open: true,
            added,
            taken,
        };
        JobQueue {
            jobs: SpinMutex::new(jobs),
            more: Condvar::new(),
            room: Condvar::new(),
        }
    }

    /// Adds a job. While the queue is full, the thread sleeps.
    ///
    /// # Contract
    /// `Ok`: the log of what was added has the job, after all that the caller knew (`added`). `Err` is the job
    /// (`returned`): the queue is closed, or memory is refused. Whether and when the call returns is not promised.
    pub fn add<W: Wait>(&self, rt: &W, job: T, seen: &mut Snapshot<T, A>) -> Result<(), T>
        ensures added { OnOk result (WritesOne (known_to seen.old) job (known_to seen.new)) }
        ensures returned { IfErr result (λ back. back ≡ job) }
    {
        let mut jobs = self
            .room
            .wait_while(rt, self.jobs.lock(rt), |jobs| jobs.is_full());
        jobs.push(job, seen)?;
        drop(jobs);
        self.more.notify_one();
        Ok(())
    }

    /// Takes the oldest job. While there is none, the thread sleeps. Returns `None` once the queue is closed and empty.
    ///
    /// # Contract
    /// The log of what was taken has the job, after all that the caller knew. Whether and when the call returns is not
    /// promised.
    pub fn take<W: Wait>(&self, rt: &W, seen: &mut Snapshot<T, K>) -> Option<T>
        ensures { IfSome result (λ job. WritesOne (known_to seen.old) job (known_to seen.new)) }
    {
        let mut jobs = self
            .more
            .wait_while(rt, self.jobs.lock(rt), |jobs| jobs.is_idle());
        let job = jobs.pop(seen);
        drop(jobs);
        self.room.notify_one();
        job
    }

    /// Closes the queue: nobody can add a job any more, and nobody sleeps for one.
    pub fn close<W: Wait>(&self, rt: &W) {
        self.jobs.lock(rt).open = false;
        self.more.notify_all();
        self.room.notify_all();
    }
}

impl<T, A: History, K: History> Jobs<T, A, K> {
    // Whether an adder has to wait.
    fn is_full(&self) -> bool {
        self.open && self.waiting.len() >= self.capacity
    }

    // Whether a taker has to wait.
    fn is_idle(&self) -> bool {
        self.open && self.waiting.is_empty()
    }

    // Adds a job, if the queue is open, with room and memory for it.
    fn push(&mut self, job: T, seen: &mut Snapshot<T, A>) -> Result<(), T>
        ensures added { OnOk result (WritesOne (known_to seen.old) job (known_to seen.new)) }
        ensures returned { IfErr result (λ back. back ≡ job) }
    {
        if !self.open || self.waiting.len() >= self.capacity || self.waiting.reserve(1).is_err() {
            return Err(job);
        }
        self.added.append_and_observe(&job, seen);
        self.waiting.push_back_reserved(job);
        Ok(())
    }

    // Takes the oldest job.
    fn pop(&mut self, seen: &mut Snapshot<T, K>) -> Option<T>
        ensures { IfSome result (λ job. WritesOne (known_to seen.old) job (known_to seen.new)) }
    {
        let job = self.waiting.pop_front()?;
        self.taken.append_and_observe(&job, seen);
        Some(job)
    }
}
