//! Traits of values that are made once. Begin with [`Fill`].
use std::sync::Wait;

/// A value that the closure of one of its callers makes, such as a `Once`.
///
/// # Contract
/// What is known of the value, given what the caller's own closure may return, is what the lock's own call says
/// (`gives`).
pub trait Fill<T> {
    // What is known of a value, if the closure of this call may return a value of which the second argument holds.
    ghost gives: { Self → (T → Type 0) → T → Type 0 };

    /// Calls `f` to make the value if there is none yet, and returns the value, as `call_once` does.
    ///
    /// # Contract
    /// The precondition of `f` has to hold. Whether and when the call returns is not promised.
    fn fill<F: FnOnce() -> T, W: Wait>(&self, rt: &W, f: F) -> &T
        requires { F.pre f }
        ensures { gives self.now (F.post f) result.now };
}

/// A value that its own initialiser makes, such as a `LazyLock`.
///
/// # Contract
/// What the initialiser asks (`can`), and what is known of the value (`gives`), is what the lock's own call says.
pub trait Force<T> {
    // What has to hold when the initialiser runs.
    ghost can: { Self → Type 0 };

    // What is known of the value.
    ghost gives: { Self → T → Type 0 };

    /// Returns the value, which is made first if there is none yet, as `force` does.
    ///
    /// # Contract
    /// `can` has to hold. Whether and when the call returns is not promised.
    fn force_by<W: Wait>(&self, rt: &W) -> &T
        requires { can self.now }
        ensures { gives self.now result.now };
}
