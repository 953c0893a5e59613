//! The calls of a [`Once`] by a thread that keeps track of them. Begin at [`Once::pass`].
ghost use Rattle.std.specs.Prelude.{◌≡◌, Err, IfSome, IfOk, IfErr};
ghost use Rattle.spin_step.specs.declared.once_calls.OnceCall.TheVariants.{CallOnce, Wait as WaitCall, Poll};
ghost use Rattle.spin_once.specs.OncePasses.{Calls, Gets, Never, OkGets, Tried, found_or_none, new_in, opening};

use super::Once;
use super::make::{make, try_make};
use crate::once_core;
use spin_core::relax::RelaxStrategy;
use spin_step::OnceCall;
use std::sync::Wait;

/// A thread's record of its calls of a [`Once`].
///
/// # Examples
/// ```
/// use spin::Once;
///
/// let port: Once<u16> = Once::new();
/// let (found, pass) = port.pass().get();
/// assert_eq!(rt; found.copied(), None);
/// let (made, pass) = pass.call_once(&rt, || 80);
/// let (found, pass) = pass.get();
/// assert_eq!(rt; (*made, found.copied()), (80, Some(80)));
/// drop(pass);
/// ```
pub type Pass<'a, T, R> = once_core::Pass<'a, T, (), R>;

impl<T, R> Once<T, R> {
    /// Returns a pass that has made no call. This makes no operation on the `Once`.
    ///
    /// # Contract
    /// The pass is of this `Once`, and knows nothing of its history yet (`new`).
    pub fn pass(&self) -> Pass<'_, T, R>
        ensures new { result ≡ new_in (opening self.now) }
    {
        Pass::of(self.core.account())
    }
}

impl<'a, T, R: RelaxStrategy> Pass<'a, T, R> {
    /// Calls `f` to make the value if there is none yet. Then returns the value, as [`Once::call_once`] does.
    ///
    /// # Contract
    /// The precondition of `f` has to hold. In the history the call counts as one `CallOnce` with the answer `Value`,
    /// however often it looked and tried, and whether `f` ran or not. The value is the only one in the history
    /// (`Gets`). If the pass wrote the value in this call, it is one that `f` may return. Whether and when the call
    /// returns is not promised.
    #[inline(always)]
    pub fn call_once<F: FnOnce() -> T, W: Wait>(self, rt: &W, f: F) -> (&'a T, Pass<'a, T, R>)
        requires { F.pre f }
        ensures { Gets (CallOnce tt) (F.post f) self.entry result.0.now result.1 }
    {
        let found = match self.into_account().come(OnceCall::CallOnce(())) {
            Ok(found) => found,
            Err(account) => make::<T, R, F, W>(rt, account, f),
        };
        let (made, account) = found.read();
        (made, Pass::of(account))
    }

    /// Does what [`call_once`](Pass::call_once) does, with a closure that may fail. [`Once::try_call_once`] is this
    /// call without a pass.
    ///
    /// # Contract
    /// The precondition of `f` has to hold. An `Err` is one that this caller's own `f` may return (`err`). With a value
    /// the call is one `TryCallOnceOk` with the answer `Value`, and the value is the only one in the history (`found`).
    /// With an error it is a call whose closure ran and failed, with the answer `Failed` (`made`). If the pass wrote
    /// the value in this call, it is one that `f` may return. Whether and when the call returns is not promised.
    pub fn try_call_once<F: FnOnce() -> Result<T, E>, E, W: Wait>(
        self,
        rt: &W,
        f: F,
    ) -> (Result<&'a T, E>, Pass<'a, T, R>)
        requires { F.pre f }
        ensures err { IfErr result.0 (λ e. F.post f (Err e)) }
        ensures made { Tried result.0 self.entry result.1 }
        ensures found { OkGets (F.post f) self.entry result.0 result.1 }
    {
        let found = match self.into_account().come(OnceCall::TryCallOnceOk(())) {
            Ok(found) => Ok(found),
            Err(account) => try_make::<T, R, F, E, W>(rt, account, f),
        };
        match found {
            Ok(found) => {
                let (value, account) = found.read();
                (Ok(value), Pass::of(account))
            }
            Err((error, account)) => (Err(error), Pass::of(account)),
        }
    }

    /// Stores `value` if there is none yet, and returns the stored one. Otherwise returns the value that there is, with
    /// `value`. [`Once::try_insert`] is this call without a pass.
    ///
    /// # Contract
    /// In the history the call counts as one `CallOnce` with the answer `Value`. With `Ok` the value is `value`, and is the
    /// only one in the history (`stored`). With `Err` the pass has written no value, the value is the only one in the
    /// history (`there`), and `value` comes back (`back`). Whether and when the call returns is not promised.
    ///
    /// # Examples
    /// ```
    /// use spin::Once;
    ///
    /// let port: Once<u16> = Once::new();
    /// let (made, pass) = port.pass().try_insert(&rt, 80);
    /// assert!(rt; made.is_ok());
    /// let (refused, pass) = pass.try_insert(&rt, 81);
    /// assert!(rt; refused.is_err());
    /// drop(pass);
    /// ```
    pub fn try_insert<W: Wait>(
        self,
        rt: &W,
        value: T,
    ) -> (Result<&'a T, (&'a T, T)>, Pass<'a, T, R>)
        ensures stored { IfOk result.0 (λ made. (made.now ≡ value) × Gets (CallOnce tt) (λ v. v ≡ value) self.entry made.now result.1) }
        ensures there { IfErr result.0 (λ both. Gets (CallOnce tt) Never self.entry both.0.now result.1) }
        ensures back { IfErr result.0 (λ both. both.1 ≡ value) }
    {
        let found = match self.into_account().come(OnceCall::CallOnce(())) {
            Ok(found) => Ok(found),
            Err(account) => account.claim::<R, W>(OnceCall::CallOnce(()), rt),
        };
        match found {
            Ok(found) => {
                let (there, account) = found.read();
                (Err((there, value)), Pass::of(account))
            }
            Err(permit) => {
                let (made, account) = permit.complete(value).read();
                (Ok(made), Pass::of(account))
            }
        }
    }

    /// Returns the value, spinning until there is one, as [`Once::wait`] does.
    ///
    /// # Contract
    /// The call is one `Wait` with the answer `Value`, however often it looked. The value is the only one in the
    /// history (`Gets`). Whether and when the call returns is not promised.
    pub fn wait<W: Wait>(self, rt: &W) -> (&'a T, Pass<'a, T, R>)
        ensures { Gets WaitCall Never self.entry result.0.now result.1 }
    {
        let (value, account) = self.into_account().wait::<R, W>(rt).read();
        (value, Pass::of(account))
    }

    /// Returns the value, or `None` if there is none and no closure runs, as [`Once::poll`] does.
    ///
    /// # Contract
    /// The call is one `Poll`, however often it looked, with the answer `Value` and a reference, or else `NoValue`
    /// (`made`). The value is the only one in the history (`found`). Whether and when the call returns is not promised.
    pub fn poll<W: Wait>(self, rt: &W) -> (Option<&'a T>, Pass<'a, T, R>)
        ensures made { Calls Poll (found_or_none result.0) self.entry result.1 }
        ensures found { IfSome result.0 (λ value. Gets Poll Never self.entry value.now result.1) }
    {
        let (found, account) = self.into_account().poll::<R, W>(rt);
        (found, Pass::of(account))
    }
}
