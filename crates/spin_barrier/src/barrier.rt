//! A barrier: threads arrive in groups, and wait until their group is full. Begin with [`Barrier::new`] and
//! [`Barrier::wait`].
//!
//! It uses only the contract of `Mutex`.
ghost use Rattle.std.specs.Prelude.{◌≡◌, IfOk};
ghost use Rattle.spin_barrier.specs.Keeping.{leads_group, WaitsForGroup};

use crate::keep::{Keeper, Kept};
use spin_core::relax::{RelaxStrategy, Spin};
use spin_mutex::mutex::Mutex;
use spin_step_more::barrier::State;
use std::fmt;
use std::fmt::{Debug, Formatter};
use std::sync::Wait;

/// A barrier at which the threads of a group wait for each other. It is reusable: after a group it gathers
/// the next one.
///
/// Groups are counted modulo 2^64. If exactly a multiple of 2^64 groups fill up between two looks of a
/// thread, it waits until one more group is full. No thread leaves early.
///
/// # Examples
/// ```
/// use spin::Yield;
/// use spin::barrier::Barrier;
/// use std::thread;
///
/// let both: Barrier<Yield> = Barrier::new(2);
/// let two_rounds = || {
///     both.wait(&rt);
///     both.wait(&rt).is_leader()
/// };
/// let (first, second) = thread::join(&rt, &two_rounds, &two_rounds);
/// assert!(rt; first != second);
/// ```
#[derive(Drop)]
pub struct Barrier<R = Spin, K: Keeper = ()> {
    pub(crate) state: Mutex<Kept<K>, R>,
}

/// The result of [`Barrier::wait`]: whether the thread leads its group.
#[derive(Clone, Copy)]
pub struct BarrierWaitResult {
    leads: bool,
}

impl BarrierWaitResult {
    /// Returns `true` if this thread leads its group. One thread of each group does: the one that arrives
    /// last.
    ///
    /// # Contract
    /// Each call on the same result returns the same answer.
    pub fn is_leader(&self) -> bool
        ensures { result ≡ leads_group self.now }
    {
        self.leads
    }
}

impl<R> Barrier<R> {
    ghost use Rattle.spin_barrier.specs.Opens.{Gathers};

    /// Creates a barrier for groups of `n` threads, at which no thread has arrived. If `n` is 0 or 1, each
    /// thread is a group of its own and does not wait.
    ///
    /// # Contract
    /// The barrier opens with groups of `n`, in which nobody has arrived (`Gathers`). The call returns.
    ///
    /// # Examples
    /// ```
    /// use spin::Barrier;
    ///
    /// let one: Barrier = Barrier::new(0);
    /// assert!(rt; one.wait(&rt).is_leader());
    /// ```
    pub const fn new(n: usize) -> Self
        ensures { Gathers n result }
    {
        Barrier {
            state: Mutex::new(Kept {
                state: State::new(n),
                keep: (),
            }),
        }
    }
}

// The one body of `wait` and `wait_with`. It is a macro, since each call that may wait costs its caller a test of a byte.
macro_rules! wait_at {
    ($barrier:expr, $rt:expr, $own:expr, $seen:ident) => {{
        let mut kept = $barrier.state.lock($rt);
        let leads = kept.arrive($own, &mut $seen);
        let generation = kept.state.generation;
        drop(kept);
        if !leads {
            $seen = $barrier.wait_for_group($rt, generation, $seen);
        }
        (BarrierWaitResult { leads }, $seen)
    }};
}

impl<R: RelaxStrategy> Barrier<R> {
    /// Arrives at the barrier, and spins until the group is full.
    ///
    /// The arrival is one [`State::arrive`] under the lock. The last thread of a group fills it, leads it,
    /// and does not wait. Each other thread looks at the state under the lock until it may leave, and relaxes
    /// with strategy `R` between two looks.
    ///
    /// # Contract
    /// Whether and when the call returns is not promised. No clause says that a thread waits for its group and that
    /// one thread leads. The same code says so of a barrier with a [`Roll`](crate::roll::Roll), where
    /// arrivals have names.
    #[inline(always)]
    pub fn wait<W: Wait>(&self, rt: &W) -> BarrierWaitResult {
        let mut seen = ();
        wait_at!(self, rt, &mut (), seen).0
    }
}

impl<R: RelaxStrategy, K: Keeper> Barrier<R, K> {
    /// Arrives at the barrier, and spins until the group is full. Also returns what the party then knows.
    ///
    /// # Contract
    /// The party has to be `ready`. What it has and knows afterwards is what the keeper says of an arrival (`came`), and,
    /// if the party does not lead, of a follower that may leave (`left`). Whether and when the call returns is not
    /// promised.
    pub fn wait_with<W: Wait>(
        &self,
        rt: &W,
        own: &mut K::Own,
        seen: K::Seen,
    ) -> (BarrierWaitResult, K::Seen)
        requires { K.ready own.old seen }
        ensures { WaitsForGroup K.came K.left own.old seen result own.new }
    {
        let mut seen = seen;
        wait_at!(self, rt, own, seen)
    }

    // Waits until the group of this generation is full. Returns what the party then knows.
    fn wait_for_group<W: Wait>(&self, rt: &W, generation: usize, seen: K::Seen) -> K::Seen
        requires { K.follows seen generation }
        ensures { K.left seen result }
    {
        R::retry(
            rt,
            (),
            move |()| -> Result<K::Seen, ()>
                requires { K.follows seen generation }
                ensures { IfOk result (λ found. K.left seen found) }
            { self.state.lock(rt).look(generation, &seen) },
        )
    }
}

/// Prints `Barrier { .. }`.
impl<R, K: Keeper> Debug for Barrier<R, K> {
    fn fmt<W: fmt::Write>(&self, f: &mut Formatter<W>) -> fmt::Result {
        f.debug_struct("Barrier").finish_non_exhaustive()
    }
}

/// Prints `BarrierWaitResult { is_leader: .. }`.
impl Debug for BarrierWaitResult {
    fn fmt<W: fmt::Write>(&self, f: &mut Formatter<W>) -> fmt::Result {
        f.debug_struct("BarrierWaitResult")
            .field("is_leader", &self.leads)
            .finish()
    }
}
