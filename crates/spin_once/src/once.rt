//! A value that one closure makes. Begin with [`Once::new`] and [`Once::call_once`].
ghost use Rattle.std.specs.Prelude.{◌≡◌, [], ◌∷◌, IfSome, IfOk, IfErr, Err};
ghost use Rattle.spin_step.specs.declared.once_calls.OnceCall.TheVariants.{CallOnce, Get, Poll as PollCall, Wait as WaitCall};
ghost use Rattle.spin_once.specs.OncePasses.{Ends, Gives, Never, OkGives, OpensWithValues, new_in, opening};

use self::make::make;
pub use crate::once_core::{Entry, History};
use crate::once_core::{OnceCore, Seed};
use spin_core::lock::Fill;
use spin_core::relax::{RelaxStrategy, Spin};
use spin_step::OnceCall;
use std::alloc::AllocError;
use std::marker::PhantomData;
use std::mem;
use std::sync::Wait;

mod make;
mod pass;
mod texts;

pub use self::pass::Pass;
pub use crate::laws::two_answers_of_a_once_agree;

/// The seed of a `Once` is empty, so a caller's closure may give any value.
impl<T> Seed<T> for () {
    ghost makes = { λ _ _. Unit {0} };
}

/// A value that is made at most once, by a closure of one of its callers.
///
/// When there is a value, it stays, and reading it costs one load. At most one closure runs at a time, and none runs
/// when there is a value. If a call brings a closure while another one runs, the call spins until that one has ended.
///
/// A closure that waits for the value of its own `Once` never returns. A call that does not wait, such as
/// [`get`](Once::get), finds that there is no value yet.
///
/// # Examples
/// ```
/// use spin::Yield;
/// use spin::once::Once;
/// use std::thread;
///
/// let port: Once<u16, Yield> = Once::new();
/// let ask = || *port.call_once(&rt, || 80);
/// assert_eq!(rt; thread::join(&rt, &ask, &ask), (80, 80));
/// ```
#[derive(Drop)]
pub struct Once<T = (), R = Spin> {
    core: OnceCore<T, ()>,
    strategy: PhantomData<R>,
}

impl<T, R> Once<T, R> {
    /// Creates a `Once` without a value.
    ///
    /// # Contract
    /// The `Once` opens without a value, and its history will have the value that a closure gives (`opens`).
    pub fn new() -> Self
        ensures opens { OpensWithValues [] (opening result) }
    {
        Once {
            core: OnceCore::new(()),
            strategy: PhantomData,
        }
    }

    /// Creates a `Once` that holds `value`.
    ///
    /// # Contract
    /// The `Once` opens with this value, so none is made (`opens`).
    pub fn initialized(value: T) -> Self
        ensures opens { OpensWithValues (value ∷ []) (opening result) }
    {
        Once {
            core: OnceCore::initialized(value, &()),
            strategy: PhantomData,
        }
    }

    /// Returns the value, or `None` if there is none yet.
    ///
    /// It makes one load and never waits. The reference is good for as long as the `Once` is borrowed.
    ///
    /// # Contract
    /// A value is the only one in a history of the `Once` in which this call is one `Get` (`Gives`). `None` promises
    /// nothing.
    pub fn get(&self) -> Option<&T>
        ensures { IfSome result (λ value. Gives Get Never (new_in (opening self.now)) value.now) }
    {
        let (found, _pass) = self.pass().get();
        found
    }

    /// Returns `true` if [`get`](Once::get) finds a value. After that the answer stays `true` while the `Once` is
    /// shared, since a value stays.
    pub fn is_completed(&self) -> bool {
        let (there, _pass) = self.pass().is_completed();
        there
    }

    /// Returns a mutable reference to the value, or `None` if there is none.
    ///
    /// The borrow shows that no other thread has the `Once`. What is written through the reference is the value from
    /// then on. After the borrow the history no longer tells the value.
    pub fn get_mut(&mut self) -> Option<&mut T> {
        self.core.get_mut()
    }

    /// Takes the value out, or returns `None` if there is none. Afterwards the `Once` is empty, as a new one is.
    ///
    /// # Contract
    /// Afterwards the `Once` opens without a value (`opens`). The call returns.
    ///
    /// # Examples
    /// ```
    /// use spin::Once;
    ///
    /// let mut port: Once<u16> = Once::initialized(80);
    /// assert_eq!(rt; port.take(), Some(80));
    /// assert_eq!(rt; *port.call_once(&rt, || 81), 81);
    /// ```
    pub fn take(&mut self) -> Option<T>
        ensures opens { OpensWithValues [] (opening self.new) }
    {
        mem::replace(self, Once::new()).try_into_inner()
    }

    /// Consumes the `Once`, and returns its value, or `None` if there is none.
    ///
    /// # Examples
    /// ```
    /// use spin::Once;
    ///
    /// let mut port: Once<u16> = Once::initialized(80);
    /// *port.get_mut().expect(&rt, "it has a value") = 81;
    /// assert_eq!(rt; port.try_into_inner(), Some(81));
    /// ```
    pub fn try_into_inner(self) -> Option<T> {
        self.into_history().0
    }

    /// Consumes the `Once`, and returns its value, or `None` if there is none, with its whole history.
    ///
    /// # Contract
    /// The history is a schedule of the model. Unless a closure still runs at its end, the value is the only one in it,
    /// and with `None` it has no value (`Ends`). The history begins with what a pass knew
    /// ([`covers`](spin_core::trace::Trace::covers)). The call returns.
    pub fn into_history(self) -> (Option<T>, History<T>)
        ensures { Ends (opening self) result }
    {
        let Self { core, strategy: _ } = self;
        core.into_history()
    }
}

impl<T, R: RelaxStrategy> Once<T, R> {
    /// Calls `f` to make the value if there is none yet. Then returns the value.
    ///
    /// While another caller's closure runs, the thread waits with strategy `R` until that closure has ended. Then `f`
    /// is called only if that closure left no value. The call never returns if `f` waits for the value of this `Once`.
    ///
    /// # Contract
    /// The precondition of `f` has to hold. The value is the only one in a history of the `Once` in which this call is
    /// one `CallOnce` (`Gives`): the value with which the `Once` was made, one that `f` may return, or one that another
    /// caller wrote. Whether and when the call returns is not promised.
    pub fn call_once<F: FnOnce() -> T, W: Wait>(&self, rt: &W, f: F) -> &T
        requires { F.pre f }
        ensures { Gives (CallOnce tt) (F.post f) (new_in (opening self.now)) result.now }
    {
        let found = match self.core.account().come(OnceCall::CallOnce(())) {
            Ok(found) => found,
            Err(account) => make::<T, R, F, W>(rt, account, f),
        };
        let (value, account) = found.read();
        account.close();
        value
    }

    /// Like [`call_once`](Once::call_once), with a closure that may fail.
    ///
    /// If `f` fails, the call returns its `Err`, and there is still no value. Another caller's closure may then give
    /// one.
    ///
    /// # Contract
    /// The precondition of `f` has to hold. An `Err` is one that this caller's own `f` may return (`err`). `Ok`
    /// promises what `call_once` does (`found`), of a `TryCallOnceOk`. Whether and when the call returns is not promised.
    ///
    /// # Examples
    /// ```
    /// use spin::Once;
    ///
    /// let port: Once<u16> = Once::new();
    /// assert!(rt; port.try_call_once(&rt, || "no port".parse()).is_err());
    /// assert!(rt; !port.is_completed());
    /// let found = port.try_call_once(&rt, || "80".parse());
    /// assert_eq!(rt; found.ok().copied(), Some(80));
    /// ```
    pub fn try_call_once<F: FnOnce() -> Result<T, E>, E, W: Wait>(
        &self,
        rt: &W,
        f: F,
    ) -> Result<&T, E>
        requires { F.pre f }
        ensures err { IfErr result (λ e. F.post f (Err e)) }
        ensures found { OkGives (F.post f) (new_in (opening self.now)) result }
    {
        let (found, _pass) = self.pass().try_call_once(rt, f);
        found
    }

    /// Does what [`try_call_once`](Once::try_call_once) does, under the name that `std` has for it.
    ///
    /// # Contract
    /// Like that of `try_call_once`.
    ///
    /// # Examples
    /// ```
    /// use spin::Once;
    ///
    /// let port: Once<u16> = Once::new();
    /// assert!(rt; port.get_or_try_init(&rt, || "no port".parse()).is_err());
    /// let found = port.get_or_try_init(&rt, || "80".parse());
    /// assert_eq!(rt; found.ok().copied(), Some(80));
    /// ```
    pub fn get_or_try_init<F: FnOnce() -> Result<T, E>, E, W: Wait>(
        &self,
        rt: &W,
        f: F,
    ) -> Result<&T, E>
        requires { F.pre f }
        ensures err { IfErr result (λ e. F.post f (Err e)) }
        ensures found { OkGives (F.post f) (new_in (opening self.now)) result }
    {
        self.try_call_once(rt, f)
    }

    /// Stores `value` if there is none yet. Otherwise returns it. While a closure runs, the call spins.
    ///
    /// # Contract
    /// `Ok` promises that this call stored `value`, and that it is the only one in a history of the `Once` in which this
    /// call is one `CallOnce` (`stored`). `Err` is `value` (`back`). Whether and when the call returns is not promised.
    ///
    /// # Examples
    /// ```
    /// use spin::Once;
    ///
    /// let port: Once<u16> = Once::new();
    /// assert!(rt; port.set(&rt, 80).is_ok());
    /// assert_eq!(rt; port.set(&rt, 81), Err(81));
    /// assert_eq!(rt; port.get().copied(), Some(80));
    /// ```
    pub fn set<W: Wait>(&self, rt: &W, value: T) -> Result<(), T>
        ensures stored { IfOk result (λ done. Gives (CallOnce tt) (λ v. v ≡ value) (new_in (opening self.now)) value) }
        ensures back { IfErr result (λ back. back ≡ value) }
    {
        match self.try_insert(rt, value) {
            Ok(_) => Ok(()),
            Err((_, value)) => Err(value),
        }
    }

    /// Stores `value` if there is none yet, and returns the stored one. Otherwise returns the value that there is, with
    /// `value`. While a closure runs, the call spins.
    ///
    /// # Contract
    /// With `Ok` the value is `value`, and is the only one in a history of the `Once` in which this call is one `CallOnce`
    /// (`stored`). With `Err` it is the only one in such a history, in which this call's party wrote none (`there`), and
    /// `value` comes back (`back`). Whether and when the call returns is not promised.
    ///
    /// # Examples
    /// ```
    /// use spin::Once;
    ///
    /// let port: Once<u16> = Once::new();
    /// assert_eq!(rt; port.try_insert(&rt, 80).ok().copied(), Some(80));
    /// let (there, back) = port.try_insert(&rt, 81).err().expect(&rt, "it has a value");
    /// assert_eq!(rt; (*there, back), (80, 81));
    /// ```
    pub fn try_insert<W: Wait>(&self, rt: &W, value: T) -> Result<&T, (&T, T)>
        ensures stored { IfOk result (λ made. (made.now ≡ value) × Gives (CallOnce tt) (λ v. v ≡ value) (new_in (opening self.now)) made.now) }
        ensures there { IfErr result (λ both. Gives (CallOnce tt) Never (new_in (opening self.now)) both.0.now) }
        ensures back { IfErr result (λ both. both.1 ≡ value) }
    {
        let (stored, _pass) = self.pass().try_insert(rt, value);
        stored
    }

    /// Like [`call_once`](Once::call_once), with a copy of `value` in place of what a closure gives.
    ///
    /// # Contract
    /// Like that of `call_once`.
    ///
    /// # Examples
    /// ```
    /// use spin::Once;
    ///
    /// let port: Once<u16> = Once::new();
    /// assert_eq!(rt; *port.init_from_ref(&rt, &80), 80);
    /// assert_eq!(rt; *port.init_from_ref(&rt, &81), 80);
    /// ```
    pub fn init_from_ref<W: Wait>(&self, rt: &W, value: &T) -> &T
    where
        T: Copy,
        ensures { Gives (CallOnce tt) (λ v. v ≡ value.now) (new_in (opening self.now)) result.now }
    {
        self.call_once(rt, || *value)
    }

    /// Returns the value, spinning until there is one, even if no caller has begun to make it.
    ///
    /// # Contract
    /// The value is the only one in a history of the `Once` in which this call is one `Wait` (`Gives`). Whether and
    /// when the call returns is not promised.
    ///
    /// # Examples
    /// ```
    /// use spin::Once;
    /// use std::thread;
    ///
    /// let port: Once<u16> = Once::new();
    /// let (made, found) = thread::join(&rt, || *port.call_once(&rt, || 80), || *port.wait(&rt));
    /// assert_eq!(rt; (made, found), (80, 80));
    /// ```
    pub fn wait<W: Wait>(&self, rt: &W) -> &T
        ensures { Gives WaitCall Never (new_in (opening self.now)) result.now }
    {
        let (value, _pass) = self.pass().wait(rt);
        value
    }

    /// Returns the value, or `None` if there is none and no closure runs. While a closure runs, the call spins until
    /// that closure has ended.
    ///
    /// # Contract
    /// A value is the only one in a history of the `Once` in which this call is one `Poll` (`Gives`). Whether and when
    /// the call returns is not promised.
    ///
    /// # Examples
    /// ```
    /// use spin::Once;
    ///
    /// let port: Once<u16> = Once::new();
    /// assert_eq!(rt; port.poll(&rt).copied(), None);
    /// port.call_once(&rt, || 80);
    /// assert_eq!(rt; port.poll(&rt).copied(), Some(80));
    /// ```
    pub fn poll<W: Wait>(&self, rt: &W) -> Option<&T>
        ensures { IfSome result (λ v. Gives PollCall Never (new_in (opening self.now)) v.now) }
    {
        let (found, _pass) = self.pass().poll(rt);
        found
    }
}

/// Creates a `Once` without a value.
impl<T, R> Default for Once<T, R> {
    ghost is_default = { λ once. OpensWithValues [] (opening once) };

    fn default() -> Self {
        Self::new()
    }
}

/// Creates a `Once` that holds `value`.
impl<T, R> From<T> for Once<T, R> {
    ghost from_gives = { λ value once. OpensWithValues (value ∷ []) (opening once) };

    fn from(value: T) -> Self {
        Self::initialized(value)
    }
}

/// Creates a `Once` that holds a clone of the value, or an empty one if there is none. It makes one load.
///
/// # Examples
/// ```
/// use spin::Once;
///
/// let port: Once<u16> = Once::initialized(80);
/// let copy = port.clone().ok().expect(&rt, "memory");
/// assert_eq!(rt; copy.get().copied(), Some(80));
/// ```
impl<T: Clone, R> Clone for Once<T, R> {
    fn clone(&self) -> Result<Self, AllocError> {
        match self.get() {
            Some(value) => Ok(Once::initialized(value.clone()?)),
            None => Ok(Once::new()),
        }
    }
}

impl<T, R: RelaxStrategy> Fill<T> for Once<T, R> {
    ghost gives = { λ lock may value. Gives (CallOnce tt) may (new_in (opening lock)) value };

    fn fill<F: FnOnce() -> T, W: Wait>(&self, rt: &W, f: F) -> &T {
        self.call_once(rt, f)
    }
}

// SAFETY: a `Once` owns its cell, which owns the value.
unsafe impl<T: Send, R> Send for Once<T, R> {}

// SAFETY: all threads may read the value at once, and any of them may drop it.
unsafe impl<T: Send + Sync, R> Sync for Once<T, R> {}
