//! A value that its own initialiser makes when a thread first asks for it. Begin with [`LazyLock::new`] and
//! [`LazyLock::force`]. [`LazyLock::promising`] tells callers more of the value than its type does.
ghost use Rattle.std.specs.Prelude.{◌≡◌, Some, []};
ghost use Rattle.spin_core.specs.Own.{what};
ghost use Rattle.spin_step.specs.declared.once_calls.OnceCall.TheVariants.{CallOnce};
ghost use Rattle.spin_once.specs.Accounts.{Place, here, seed_of, Entered, Finds};
ghost use Rattle.spin_once.specs.Lazy.{initialiser, promise};
ghost use Rattle.spin_once.specs.LazyPasses.{Ends, Forced, OpensWithValues, new_in, opening};
ghost use Rattle.spin_step.specs.declared.once_calls.OncePoint.TheVariants.{TryBegin};
ghost use Rattle.spin_once.specs.Once.{in_call};
ghost use Rattle.spin_once.specs.declared.lazylock.Initialiser.{Initialiser as AnInitialiser};

use crate::exclusive::Exclusive;
pub use crate::once_core::{Entry, History};
use crate::once_core::{Account, Found, OnceCore, Seed};
use spin_core::lock::Force;
use spin_core::relax::{RelaxStrategy, Spin};
use spin_step::OnceCall;
use std::marker::PhantomData;
use std::sync::Wait;

mod pass;
mod texts;

pub use self::pass::Pass;
pub use crate::laws::two_answers_of_a_once_agree;

/// A promise on a value: what callers may rely on, whoever made it.
pub trait Promise<T> {
    // The value keeps the promise.
    ghost keeps: { Self → T → Type 0 };
}

/// The promise that says nothing.
impl<T> Promise<T> for () {
    ghost keeps = { λ _ _. Unit {0} };
}

/// An initialiser: it makes a value that keeps a promise. Each closure is one, and a caller's own struct may be one.
///
/// A struct may always make its value, unless its `can` asks for more. A struct may hold borrowed data.
///
/// # Examples
/// ```
/// use spin::lazylock::{LazyLock, Makes};
///
/// #[derive(Drop)]
/// struct Square(u64);
///
/// impl Makes<u64, ()> for Square {
///     fn make(self, _promise: ()) -> u64 {
///         self.0.saturating_mul(self.0)
///     }
/// }
///
/// let square: LazyLock<u64, Square> = LazyLock::promising((), Square(7));
/// assert_eq!(rt; *LazyLock::force(&square, &rt), 49);
/// ```
pub trait Makes<T, M: Promise<T>> {
    // What has to hold when it makes the value.
    ghost can: { Self → M → Type 0 } = { λ _ _. Unit {0} };

    /// Makes the value.
    ///
    /// # Contract
    /// `can` has to hold of the initialiser and the promise. The value keeps the promise.
    fn make(self, promise: M) -> T
        requires { can self promise }
        ensures { M.keeps promise result };
}

/// A closure may make the value if its precondition holds and each answer that it may give keeps the promise.
impl<T, F: FnOnce() -> T, M: Promise<T> + Drop> Makes<T, M> for F {
    ghost can = { λ f promise. F.pre f × ((value : T) → F.post f value → M.keeps promise value) };

    fn make(self, promise: M) -> T {
        drop(promise);
        self()
    }
}

/// What a [`LazyLock`] makes its value from: an initialiser that has not run, and what is promised of its value.
///
/// Only a law names it, as [`two_answers_of_a_once_agree`].
#[derive(Drop)]
pub struct Initialiser<F, M> {
    f: Exclusive<F>,
    promise: M,
}

impl<T, F, M: Promise<T>> Seed<T> for Initialiser<F, M> {
    ghost makes = { λ seed value. M.keeps seed.promise value };
}

/// A value that its initialiser makes when a thread first asks for it.
///
/// The initialiser runs at most once. A thread that asks while the initialiser runs spins until the initialiser has
/// ended. Then the thread gets the same value. An initialiser that asks for the value of its own `LazyLock` never
/// returns.
///
/// `M` says what is promised of the value, and the initialiser keeps this promise. By default nothing is promised.
///
/// # Examples
/// ```
/// use spin::Yield;
/// use spin::lazylock::LazyLock;
///
/// let square: LazyLock<u64, _, Yield> = LazyLock::new(|| 7 * 7);
/// assert_eq!(rt; *LazyLock::force(&square, &rt), 49);
/// assert_eq!(rt; *LazyLock::force(&square, &rt), 49);
/// ```
#[derive(Drop)]
pub struct LazyLock<T, F = fn() -> T, R = Spin, M: Promise<T> = ()> {
    core: OnceCore<T, Initialiser<F, M>>,
    strategy: PhantomData<R>,
}

impl<T, F: FnOnce() -> T, R> LazyLock<T, F, R> {
    /// Creates a `LazyLock` whose initialiser is `f`. It runs nothing, and promises nothing of the value.
    ///
    /// # Contract
    /// The `initialiser` of the `LazyLock` is `f`. The `LazyLock` opens without a value (`opens`).
    pub fn new(f: F) -> Self
        ensures made { initialiser result ≡ f }
        ensures opens { OpensWithValues [] (opening result) }
    {
        Self::promising((), f)
    }
}

impl<T, F, R, M: Promise<T>> LazyLock<T, F, R, M> {
    /// Creates a `LazyLock` whose initialiser is `f`, with a promise that the value will keep. It runs nothing.
    ///
    /// # Contract
    /// The `initialiser` of the `LazyLock` is `f`, and its `promise` is `promised`. The `LazyLock` opens without a
    /// value (`opens`).
    ///
    /// # Examples
    /// ```
    /// use spin::Spin;
    /// use spin::lazylock::{LazyLock, Promise};
    ///
    /// #[derive(Drop)]
    /// struct Is(u64);
    ///
    /// impl Promise<u64> for Is {
    ///     ghost use Rattle.std.specs.Prelude.{◌≡◌};
    ///
    ///     ghost keeps = { λ promised value. value ≡ promised.0 };
    /// }
    ///
    /// let square: LazyLock<u64, _, Spin, Is> = LazyLock::promising(Is(49), || 7 * 7);
    /// assert_eq!(rt; *LazyLock::force(&square, &rt), 49);
    /// ```
    pub fn promising(promised: M, f: F) -> Self
        ensures made { initialiser result ≡ f }
        ensures kept { promise result ≡ promised }
        ensures opens { OpensWithValues [] (opening result) }
    {
        LazyLock {
            core: OnceCore::new(Initialiser {
                f: Exclusive::new(f),
                promise: promised,
            }),
            strategy: PhantomData,
        }
    }
}

impl<T, F: Drop, R, M: Promise<T> + Drop> LazyLock<T, F, R, M> {
    /// Consumes the `LazyLock`, and returns its value, or `None` if there is none, with its whole history.
    ///
    /// # Contract
    /// The history is a schedule of the model. Unless the initialiser still runs at its end, a value keeps the promise
    /// and is the only one in the history, and with `None` the history has no value (`Ends`). The history begins with
    /// what a pass knew ([`covers`](spin_core::trace::Trace::covers)). The call returns.
    ///
    /// # Examples
    /// ```
    /// use spin::LazyLock;
    ///
    /// let square: LazyLock<u64, _> = LazyLock::new(|| 7 * 7);
    /// LazyLock::force(&square, &rt);
    /// assert_eq!(rt; LazyLock::into_history(square).0, Some(49));
    /// ```
    pub fn into_history(this: Self) -> (Option<T>, History<T>)
        ensures { Ends M.keeps (opening this) result }
    {
        let Self { core, strategy: _ } = this;
        core.into_history()
    }
}

impl<T, F: Makes<T, M>, R: RelaxStrategy, M: Promise<T>> LazyLock<T, F, R, M> {
    /// Returns the value. If no caller has run the initialiser yet, the call runs it first.
    ///
    /// While another caller runs the initialiser, the thread waits with strategy `R` until the initialiser has ended.
    /// The call never returns if the initialiser asks for the value of this `LazyLock`.
    ///
    /// # Contract
    /// The initialiser has to be able to make the value (`can`). For a closure that means: its precondition holds, and
    /// each of its answers keeps the promise. The value keeps the promise (`keeps`), and is the only one in a history
    /// of the `LazyLock` in which this call is one `CallOnce` (`Forced`). Whether and when the call returns is not
    /// promised.
    pub fn force<'a, W: Wait>(this: &'a Self, rt: &W) -> &'a T
        requires { F.can (initialiser this.now) (promise this.now) }
        ensures keeps { M.keeps (promise this.now) result.now }
        ensures found { Forced M.keeps (new_in (opening this.now)) result.now }
    {
        let found = match this.core.account().come(OnceCall::CallOnce(())) {
            Ok(found) => found,
            Err(account) => Self::make(rt, account),
        };
        let (value, account) = found.read();
        account.close();
        value
    }

    // Makes the value, or waits for it. It is not inlined, since that would lengthen the path of each caller that finds
    // a value.
    #[cold]
    #[inline(never)]
    fn make<'a, W: Wait>(
        rt: &W,
        account: Account<'a, T, Initialiser<F, M>>,
    ) -> Found<'a, T, Initialiser<F, M>>
        requires wants { what account.party.view ≡ Some (in_call (CallOnce tt) TryBegin) }
        requires can { F.can (seed_of account).f.inner (seed_of account).promise }
        ensures { (p : Place T (AnInitialiser F M)) → Entered (CallOnce tt) p (here account.entry) → Finds (CallOnce tt) (M.keeps (seed_of account.entry).promise) p result.account }
    {
        match account.claim::<R, W>(OnceCall::CallOnce(()), rt) {
            Ok(found) => found,
            Err(permit) => {
                let (permit, Initialiser { f, promise }) = permit.take();
                permit.complete(f.into_inner().make(promise))
            }
        }
    }
}

impl<T, F: Makes<T, M>, R: RelaxStrategy, M: Promise<T>> Force<T> for LazyLock<T, F, R, M> {
    ghost can = { λ lock. F.can (initialiser lock) (promise lock) };

    ghost gives = { λ lock value. M.keeps (promise lock) value × Forced M.keeps (new_in (opening lock)) value };

    fn force_by<W: Wait>(&self, rt: &W) -> &T {
        LazyLock::force(self, rt)
    }
}

// SAFETY: a `LazyLock` owns its cell, which owns the initialiser, the promise and the value.
unsafe impl<T: Send, F: Send, R, M: Promise<T> + Send> Send for LazyLock<T, F, R, M> {}

// SAFETY: any thread may run the initialiser, and does so alone. Then all threads may read the value at once.
unsafe impl<T: Send + Sync, F: Send, R, M: Promise<T> + Send + Sync> Sync
    for LazyLock<T, F, R, M> {}
