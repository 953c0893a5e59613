//! Guards of a part of a lock's value. Begin with [`Mapped::map`].
#![tactic(auto)]

ghost use Rattle.std.specs.Prelude.{◌≡◌};
ghost use Rattle.std.specs.Borrow.{Lends, sem};

use spin_core::lock::Lent;
use std::marker::PhantomData;
use std::ops::{Deref, DerefMut};

/// A part of a `T`, such as a field.
///
/// # Contract
/// `of` is the part, and `with` is the whole with another part.
///
/// # Examples
/// ```
/// use spin_flag::spin::{SpinMutex, SpinMutexGuard};
/// use spin_parts::{Mapped, Part};
///
/// #[derive(Drop)]
/// struct Server {
///     port: u16,
///     requests: u64,
/// }
///
/// struct Requests;
///
/// impl Part<Server> for Requests {
///     type Out = u64;
///
///     ghost of = { λ server. server.requests };
///
///     ghost with = { λ server n. record server { requests = n } };
///
///     fn of(server: &Server) -> &u64 {
///         &server.requests
///     }
///
///     fn of_mut(server: &mut Server) -> &mut u64 {
///         &mut server.requests
///     }
/// }
///
/// let server: SpinMutex<Server> = SpinMutex::new(Server { port: 80, requests: 0 });
/// let mut requests: Mapped<SpinMutexGuard<'_, Server>, Requests> = Mapped::map(server.lock(&rt));
/// *requests = 5;
/// assert!(rt; server.is_locked());
/// drop(requests);
/// let server = server.into_inner();
/// assert_eq!(rt; (server.requests, server.port), (5, 80));
/// ```
pub trait Part<T> {
    type Out;

    // The part of a value.
    ghost of: { T → Self.Out };

    // The value with this part in place of its own.
    ghost with: { T → Self.Out → T };

    /// Lends the part.
    fn of(value: &T) -> &Self::Out
        ensures { result.now ≡ Self.of value.now };

    /// Lends the part. What is written replaces it.
    fn of_mut(value: &mut T) -> &mut Self::Out
        ensures* writes_back { sem 𝓛 (Lends T.row Self.Out.row value.entry result (Self.with value.old)) }
        ensures value { result.now ≡ Self.of value.old };
}

/// A guard that shows a part of the value of another guard, which it keeps. Dropping it releases the lock.
#[must_use = "dropping the guard at once releases the lock: bind it, or write `drop(..)`"]
#[derive(Drop)]
pub struct Mapped<G, P> {
    guard: G,
    part: PhantomData<P>,
}

impl<G, P> Mapped<G, P> {
    /// Shows a part of the guard's value.
    pub fn map(guard: G) -> Self
        ensures { result.guard ≡ guard }
    {
        Mapped {
            guard,
            part: PhantomData,
        }
    }

    /// Returns the guard of the whole value.
    pub fn whole(self) -> G
        ensures { result ≡ self.guard }
    {
        let Self { guard, part: _ } = self;
        guard
    }
}

impl<G: Deref, P: Part<G::Target>> Deref for Mapped<G, P> {
    type Target = P::Out;

    ghost deref_gives = { λ it x. (whole : G.Target) × G.deref_gives it.guard whole × (x ≡ P.of whole) };

    fn deref(&self) -> &P::Out {
        P::of(&*self.guard)
    }
}

impl<G: Lent, P: Part<G::Target>> DerefMut for Mapped<G, P> {
    ghost use Rattle.spin_parts.specs.contracts.Mapped.{the_row};
    ghost use Rattle.spin_parts.specs.Mapping.{over};

    ghost deref_mut_gives = { λ it x. x ≡ P.of (G.shown it.guard) };

    fn deref_mut(&mut self) -> &mut P::Out
        ensures* writes_back { sem 𝓛 (Lends (the_row G.row P.row) P.Out.row self.entry result (λ x. over self.old (G.leaving self.old.guard (P.with (G.shown self.old.guard) x)))) }
        ensures value { result.now ≡ P.of (G.shown self.old.guard) }
    {
        let whole = self.guard.whole_mut();
        P::of_mut(whole)
    }
}

impl<G: Lent, P: Part<G::Target>> Lent for Mapped<G, P> {
    ghost use Rattle.spin_parts.specs.Mapping.{over};

    ghost shown = { λ it. P.of (G.shown it.guard) };

    ghost leaving = { λ it x. over it (G.leaving it.guard (P.with (G.shown it.guard) x)) };

    fn whole(&self) -> &P::Out {
        P::of(self.guard.whole())
    }

    fn whole_mut(&mut self) -> &mut P::Out {
        &mut **self
    }
}
