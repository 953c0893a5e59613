//! The calls of a [`LazyLock`] by a thread that keeps track of them. Begin at [`LazyLock::pass`].
ghost use Rattle.std.specs.Prelude.{◌≡◌};
ghost use Rattle.spin_once.specs.LazyPasses.{Forces, initialiser_of, new_in, opening, promise_of};

use super::{Initialiser, LazyLock, Makes, Promise};
use crate::once_core;
use spin_core::relax::RelaxStrategy;
use spin_step::OnceCall;
use std::sync::Wait;

/// A thread's record of its calls of a [`LazyLock`]. It is like a [`Pass`](crate::once::Pass) of a `Once`.
///
/// # Examples
/// ```
/// use spin::LazyLock;
///
/// let square: LazyLock<u64, _> = LazyLock::new(|| 7 * 7);
/// let (first, pass) = LazyLock::pass(&square).force(&rt);
/// let (second, pass) = pass.force(&rt);
/// assert_eq!(rt; (*first, *second), (49, 49));
/// drop(pass);
/// ```
pub type Pass<'a, T, F, R, M> = once_core::Pass<'a, T, Initialiser<F, M>, R>;

impl<T, F, R, M: Promise<T>> LazyLock<T, F, R, M> {
    /// Returns a pass that has made no call. It makes no operation on the `LazyLock`.
    ///
    /// # Contract
    /// The pass is of this `LazyLock`, and knows nothing of its history yet (`new`).
    pub fn pass(this: &Self) -> Pass<'_, T, F, R, M>
        ensures new { result ≡ new_in (opening this.now) }
    {
        Pass::of(this.core.account())
    }
}

impl<'a, T, F: Makes<T, M>, R: RelaxStrategy, M: Promise<T>> Pass<'a, T, F, R, M> {
    /// Returns the value, and runs the initialiser first if no caller has, as [`LazyLock::force`] does.
    ///
    /// # Contract
    /// The initialiser has to be able to make the value (`can`), and the value keeps the promise (`keeps`). The call is
    /// one `CallOnce` with the answer `Value`, however often it looked and tried, and whether the initialiser ran or
    /// not. The value is the only one in the history (`found`). Whether and when the call returns is not promised.
    #[inline(always)]
    pub fn force<W: Wait>(self, rt: &W) -> (&'a T, Self)
        requires { F.can (initialiser_of self) (promise_of self) }
        ensures keeps { M.keeps (promise_of self.entry) result.0.now }
        ensures found { Forces M.keeps self.entry result.0.now result.1 }
    {
        let found = match self.into_account().come(OnceCall::CallOnce(())) {
            Ok(found) => found,
            Err(account) => LazyLock::<T, F, R, M>::make(rt, account),
        };
        let (value, account) = found.read();
        (value, Pass::of(account))
    }
}
