//! How a waiting call passes the time between two looks at a lock's word. Begin with [`RelaxStrategy`] and its four
//! implementations [`Spin`], [`Yield`], [`YieldThenSleep`] and [`Loop`].
ghost use Rattle.std.specs.Prelude.{Some};
ghost use Rattle.spin_core.specs.Retries.{Succeeds};

use std::hint::spin_loop;
use std::marker::PhantomData;
use std::sync::Wait;
use std::sync::atomic::AtomicU64;
use std::thread::yield_now;
use std::time::Duration;

/// The longest pause of a waiting call, as a number of spin hints. A call has it that waits behind several others.
pub const MAX_HINTS: u32 = 1024;

/// The longest pause of a call that backs off, as a number of spin hints.
pub const MAX_BACK_OFF: u32 = 256;

/// The first pause of a call that backs off has so many spin hints, and each later one so many times as many as the last.
pub const BACK_OFF_STEP: u32 = 16;

/// How a waiting call passes the time. A lock names its strategy as its type parameter `R`.
///
/// Each method takes the waiting call's own right to wait. Nothing is promised of a strategy, not even that its methods
/// return: a lock whose strategy hangs waits for ever.
///
/// # Examples
/// ```
/// use spin::RelaxStrategy;
/// use spin::mutex::SpinMutex;
/// use std::hint;
/// use std::sync::Wait;
///
/// pub struct Twice;
///
/// impl RelaxStrategy for Twice {
///     fn relax<W: Wait>(_rt: &W) {
///         hint::spin_loop();
///         hint::spin_loop();
///     }
/// }
///
/// let lock: SpinMutex<u64, Twice> = SpinMutex::new(4);
/// assert_eq!(rt; *lock.lock(&rt), 4);
/// ```
pub trait RelaxStrategy {
    /// Passes a little time.
    fn relax<W: Wait>(rt: &W);

    /// Passes the time between two attempts of a waiting call. [`Spin`] executes `hints` spin hints. The default
    /// `pause` calls `relax` once.
    fn pause<W: Wait>(rt: &W, hints: u32) {
        let _ = hints;
        Self::relax(rt);
    }

    /// Passes the time between two attempts of a call whose earlier pauses had `given` hints in all, those of
    /// [`MAX_HINTS`] not counted. So a strategy can do something else when a call has waited for long, as [`Spin`] does.
    /// The default `pause_after` calls `pause`.
    fn pause_after<W: Wait>(rt: &W, hints: u32, given: u32) {
        let _ = given;
        Self::pause(rt, hints);
    }

    /// Pauses for so many hints, but for at most [`MAX_HINTS`], in a call whose earlier pauses had `given` hints in all.
    /// Returns how many hints they had with this pause. One of `MAX_HINTS` is not counted: it ends before the call is
    /// next, and a call that is next begins to wait. Every waiting call of a lock passes its time by this call alone.
    // Where a loop bounds its own count of hints too, this bound costs nothing. Where the strategy does not read `given`,
    // the count costs nothing.
    #[inline(always)]
    final fn bounded_pause<W: Wait>(rt: &W, hints: u32, given: u32) -> u32 {
        let hints = hints.min(MAX_HINTS);
        Self::pause_after(rt, hints, given);
        given.saturating_add(hints % MAX_HINTS)
    }

    /// Relaxes and tries again, until an attempt succeeds.
    ///
    /// A failed attempt returns the state in which the next one begins. Use `retry` in calls whose first attempt
    /// has failed.
    ///
    /// # Contract
    /// The closure has to be always callable. The first attempt begins in `state`, and each later one in the state that
    /// the failed attempt before it returned. The answer is that of the last attempt (`Succeeds`). Whether and when the
    /// call returns is not promised.
    ///
    /// # Examples
    /// ```
    /// use spin::{RelaxStrategy, Spin};
    ///
    /// let answer = Spin::retry(&rt, 5u64, |left| match left {
    ///     0 => Ok("done"),
    ///     _ => Err(left.saturating_sub(1)),
    /// });
    /// assert_eq!(rt; answer, "done");
    /// ```
    final fn retry<S, A, F: Fn(S) -> Result<A, S>, W: Wait>(rt: &W, state: S, attempt: F) -> A
        requires { F.IsAlwaysCallable attempt }
        ensures { Succeeds (F.post attempt) state result }
    {
        try_again::<Self, S, A, F, W>(rt, state, 1, attempt)
    }

    /// Like [`retry`](RelaxStrategy::retry), but the first [`pause`](RelaxStrategy::pause) has [`BACK_OFF_STEP`] hints,
    /// and each later one so many times as many as the last, up to [`MAX_BACK_OFF`]. A lock whose waiters may overtake
    /// each other is fastest when few of them load its word.
    ///
    /// # Contract
    /// Like that of `retry`.
    final fn back_off<S, A, F: Fn(S) -> Result<A, S>, W: Wait>(rt: &W, state: S, attempt: F) -> A
        requires { F.IsAlwaysCallable attempt }
        ensures { Succeeds (F.post attempt) state result }
    {
        try_again::<Self, S, A, F, W>(rt, state, MAX_BACK_OFF, attempt)
    }
}

// Pauses and tries again, until an attempt succeeds. The first pause has `BACK_OFF_STEP` hints, and each later one so many
// times as many as the last, but none has more than `most`. It is not inlined, since inlining would lengthen the path of
// each caller that does not wait.
#[cold]
#[inline(never)]
fn try_again<R: RelaxStrategy, S, A, F: Fn(S) -> Result<A, S>, W: Wait>(
    rt: &W,
    state: S,
    most: u32,
    attempt: F,
) -> A
    requires { F.IsAlwaysCallable attempt }
    ensures { Succeeds (F.post attempt) state result }
{
    let mut hints = BACK_OFF_STEP.min(most);
    let mut given = 0;
    let mut state = state;
    for _ in rt.forever() {
        given = R::bounded_pause(rt, hints, given);
        match attempt(state) {
            Ok(answer) => return answer,
            Err(next) => state = next,
        }
        hints = hints.saturating_mul(BACK_OFF_STEP).min(most);
    }
    unreachable!()
}

// A call with the strategy `Spin` gives fewer hints than this.
const PATIENCE: u32 = 1024;

/// The strategy that gives the processor's hint for spinning, and yields once a call has waited for long. It is the
/// default of every lock that has a parameter `R`.
///
/// A call gives fewer than 1,024 hints in all. In place of a pause that would exceed this it yields once, like [`Yield`]. So
/// each lock goes on where more threads wait than there are processors, even a queue of tickets whose next thread has no
/// processor. A thread behind four others in such a queue yields at once. `relax` gives one hint.
pub struct Spin;

impl RelaxStrategy for Spin {
    fn relax<W: Wait>(rt: &W) {
        let _ = rt;
        spin_loop();
    }

    fn pause<W: Wait>(rt: &W, hints: u32) {
        for _ in 0..hints {
            Self::relax(rt);
        }
    }

    fn pause_after<W: Wait>(rt: &W, hints: u32, given: u32) {
        if given.saturating_add(hints) < PATIENCE {
            Self::pause(rt, hints);
        } else {
            yield_now();
        }
    }
}

/// The strategy that yields the time slice, so that another thread may run.
///
/// # Examples
/// ```
/// use spin::Yield;
/// use spin::mutex::SpinMutex;
/// use std::thread;
///
/// let last: SpinMutex<u64, Yield> = SpinMutex::new(0);
/// thread::join(&rt, || *last.lock(&rt) = 1, || *last.lock(&rt) = 2);
/// assert!(rt; [1, 2].contains(&last.into_inner()));
/// ```
pub struct Yield;

impl RelaxStrategy for Yield {
    fn relax<W: Wait>(rt: &W) {
        let _ = rt;
        yield_now();
    }
}

// The shortest sleep, in nanoseconds.
const SHORTEST_SLEEP: u64 = 16;

// A sleep is doubled for so many hints that the call has given, but at most so often: to a millisecond.
const HINTS_A_DOUBLING: u32 = 256;

const MAX_DOUBLINGS: u32 = 16;

/// The strategy that yields while a call has not waited for long, and then sleeps, for longer and longer.
///
/// Use it where a lock may be held for long, and its waiters are to leave the processor to others. A call yields until its
/// pauses had 1,024 hints: some seven times if others may overtake it. Then each pause is a sleep, of 256 ns in the
/// beginning and of a millisecond in the end. No release wakes a sleeper. A thread behind four others in a queue of
/// tickets never sleeps.
///
/// # Examples
/// ```
/// use spin::YieldThenSleep;
/// use spin::mutex::SpinMutex;
/// use std::thread;
///
/// let last: SpinMutex<u64, YieldThenSleep> = SpinMutex::new(0);
/// thread::join(&rt, || *last.lock(&rt) = 1, || *last.lock(&rt) = 2);
/// assert!(rt; [1, 2].contains(&last.into_inner()));
/// ```
pub struct YieldThenSleep;

impl RelaxStrategy for YieldThenSleep {
    fn relax<W: Wait>(rt: &W) {
        Yield::relax(rt);
    }

    fn pause_after<W: Wait>(rt: &W, hints: u32, given: u32) {
        if given < PATIENCE {
            return Self::pause(rt, hints);
        }
        let doublings = (given / HINTS_A_DOUBLING).min(MAX_DOUBLINGS);
        let sleep = Duration::from_nanos(SHORTEST_SLEEP << doublings);
        AtomicU64::new(0).park_timeout(rt, 0, sleep);
    }
}

/// The strategy that does nothing, and so keeps the processor busy.
pub struct Loop;

impl RelaxStrategy for Loop {
    fn relax<W: Wait>(rt: &W) {
        let _ = rt;
    }
}

/// Names the strategy of a lock. It contains no value of type `R`, so a lock may be `Send` whatever `R` is.
#[derive(Drop)]
pub struct Strategy<R> {
    name: PhantomData<R>,
}

impl<R> Strategy<R> {
    /// Creates the name of the strategy `R`.
    pub const fn named() -> Self {
        Strategy { name: PhantomData }
    }
}

// SAFETY: it contains no `R`.
unsafe impl<R> Send for Strategy<R> {}

// SAFETY: it contains no `R`, so there is nothing to share.
unsafe impl<R> Sync for Strategy<R> {}
