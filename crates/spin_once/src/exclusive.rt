//! A value that is moved in and out, and never read through a `&`. So a `LazyLock` may be shared even if its
//! initialiser may not.
ghost use Rattle.std.specs.Prelude.{◌≡◌};
ghost use base.Fml.{ftrue};

use std::marker::Model;

/// A value that a `&` does not show. So it may be shared if it may be sent.
pub(crate) struct Exclusive<F> {
    inner: F,
}

impl<F> Model for Exclusive<F> {
    ghost also_owns = { λ _. ftrue };
}

impl<F> Exclusive<F> {
    pub(crate) fn new(inner: F) -> Exclusive<F>
        ensures { result.inner ≡ inner }
    {
        Exclusive { inner }
    }

    pub(crate) fn into_inner(self) -> F
        ensures { result ≡ self.inner }
    {
        let Self { inner } = self;
        inner
    }
}

impl<F: Drop> Drop for Exclusive<F> {
    fn drop(self) {
        drop(self.into_inner());
    }
}

// SAFETY: an `Exclusive` owns only the value.
unsafe impl<F: Send> Send for Exclusive<F> {}

// SAFETY: a `&` to it does not show the value. Only its owner, maybe in another thread, moves the value out.
unsafe impl<F: Send> Sync for Exclusive<F> {}
