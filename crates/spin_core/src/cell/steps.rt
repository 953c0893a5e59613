//! The steps on a cell's words. Each appends to the cell's trace. Begin with [`Play`].
ghost use Rattle.std.specs.Prelude.{◌+◌, ◌-◌, ◌%◌, ◌^◌, ◌==◌, ℕ, List, Option, bit_or};
ghost use prog.Atomic.{either};
ghost use Rattle.spin_core.specs.Traced.{MadeStep, MayKnow, Traces, TracesSecond};

use super::{Permit, Rule};
use crate::trace::{Trace, Watch};
use atomic_table::exchange;
use std::marker::{Brand, PhantomData};
use std::sync::Wait;
use std::sync::atomic::Ordering::SeqCst;
use std::sync::atomic::raw;

/// A kind of step: what the step appends to the trace, and what it tells its caller. For the type `Brand` the proof of
/// the step picks this.
pub trait Play<K, V, E> {
    // What the step tells. The arguments in order: the rule's key, the view and the trace before, the appended entries,
    // the number found, and the view after.
    ghost told: { K → Option V → List E → List E → ℕ → V → Type 0 };
}

impl<K, V, E> Play<K, V, E> for Brand {
    ghost told = { λ key before log es n after. Unit {0} };
}

/// Steps on the first word.
///
/// Each step is one atomic operation. The party gets a new view and appends entries to the trace, as the
/// step's `Play` says. If the party may use the value before and after the step, the value is the same (`Keeps`).
///
/// Each call takes a watch: what its caller knows of the trace. It returns what is known after the step: the
/// trace before the step, and the entries that the step appended. A caller that knows nothing passes
/// [`Watch::nothing`].
///
/// # Contract
/// For all words, traces and views of other parties, there have to be a next view and entries that satisfy
/// the `Play` and keep the rule (`Traces`). The watch has to be of the cell's trace, or to know nothing
/// (`MayKnow`). After the step the `Play` holds of the trace that the returned watch knows (`MadeStep`).
///
/// The rule may know a fact of a value that nobody writes. Then the step has to keep this fact (`Carrying`).
/// A party that stops writing has to show the fact of the value that it leaves. Each party that uses the value before
/// or after the step learns the fact of its value, unless it writes on (`Found`).
impl<'a, T, V, E, S, P: Rule<T, V, Second = Trace<E, S>>> Permit<'a, T, V, P> {
    /// Loads the first word.
    pub fn load<M: Play<P::Key, V, E>>(self, seen: Watch<E>) -> (u64, Permit<'a, T, V, P>, Watch<E>)
        requires { MayKnow (P.holds self.key) (P.ways self.key) seen × Traces (P.holds self.key) (P.ways self.key) self.view self.value (λ n. n) (M.told self.key self.view) }
        ensures { MadeStep P.holds P.ways M.told self.entry seen result.0 result.1 result.2 }
    {
        let Permit { cell, marker: _ } = self;
        let found = unsafe { raw::load::<Brand>(&raw const (*cell).first, SeqCst) };
        (
            found,
            Permit {
                cell,
                marker: PhantomData,
            },
            seen,
        )
    }

    /// Stores `new` in the first word if that is `old`. Returns the word found.
    pub fn exchange<M: Play<P::Key, V, E>>(
        self,
        old: u64,
        new: u64,
        seen: Watch<E>,
    ) -> (u64, Permit<'a, T, V, P>, Watch<E>)
        requires { MayKnow (P.holds self.key) (P.ways self.key) seen × Traces (P.holds self.key) (P.ways self.key) self.view self.value (λ n. either (n == old) new n) (M.told self.key self.view) }
        ensures { MadeStep P.holds P.ways M.told self.entry seen result.0 result.1 result.2 }
    {
        let Permit { cell, marker: _ } = self;
        let found = unsafe { exchange::<Brand>(&raw const (*cell).first, old, new) };
        (
            found,
            Permit {
                cell,
                marker: PhantomData,
            },
            seen,
        )
    }

    /// Stores `new` in the first word.
    pub fn store<M: Play<P::Key, V, E>>(
        self,
        new: u64,
        seen: Watch<E>,
    ) -> (Permit<'a, T, V, P>, Watch<E>)
        requires { MayKnow (P.holds self.key) (P.ways self.key) seen × Traces (P.holds self.key) (P.ways self.key) self.view self.value (λ _. new) (λ log es _. M.told self.key self.view log es 0) }
        ensures { MadeStep P.holds P.ways M.told self.entry seen 0 result.0 result.1 }
    {
        let Permit { cell, marker: _ } = self;
        unsafe { raw::store::<Brand>(&raw const (*cell).first, new, SeqCst) };
        (
            Permit {
                cell,
                marker: PhantomData,
            },
            seen,
        )
    }

    /// Sleeps if the low 32 bits of the first word are those of `expected`, until a wake, or for so many seconds and
    /// nanoseconds. It may also return for no reason. The step is the comparison. It tells its play `expected`.
    pub fn park<M: Play<P::Key, V, E>, R: Wait>(
        self,
        rt: &R,
        expected: u64,
        secs: u64,
        nanos: u64,
        seen: Watch<E>,
    ) -> (Permit<'a, T, V, P>, Watch<E>)
        requires { MayKnow (P.holds self.key) (P.ways self.key) seen × Traces (P.holds self.key) (P.ways self.key) self.view self.value (λ n. n) (λ log es _. M.told self.key self.view log es expected) }
        ensures { MadeStep P.holds P.ways M.told self.entry seen expected result.0 result.1 }
    {
        let Permit { cell, marker: _ } = self;
        unsafe { raw::park::<Brand, R>(rt, &raw const (*cell).first, expected, secs, nanos) };
        (
            Permit {
                cell,
                marker: PhantomData,
            },
            seen,
        )
    }

    /// Adds `by` to the first word, modulo 2^64. Returns the word found.
    pub fn add<M: Play<P::Key, V, E>>(
        self,
        by: u64,
        seen: Watch<E>,
    ) -> (u64, Permit<'a, T, V, P>, Watch<E>)
        requires { MayKnow (P.holds self.key) (P.ways self.key) seen × Traces (P.holds self.key) (P.ways self.key) self.view self.value (λ n. (n + by) % 2 ^ 64) (M.told self.key self.view) }
        ensures { MadeStep P.holds P.ways M.told self.entry seen result.0 result.1 result.2 }
    {
        let Permit { cell, marker: _ } = self;
        let found = unsafe { raw::fetch_add::<Brand>(&raw const (*cell).first, by, SeqCst) };
        (
            found,
            Permit {
                cell,
                marker: PhantomData,
            },
            seen,
        )
    }

    /// Subtracts `by` from the first word, modulo 2^64. Returns the word found.
    pub fn subtract<M: Play<P::Key, V, E>>(
        self,
        by: u64,
        seen: Watch<E>,
    ) -> (u64, Permit<'a, T, V, P>, Watch<E>)
        requires { MayKnow (P.holds self.key) (P.ways self.key) seen × Traces (P.holds self.key) (P.ways self.key) self.view self.value (λ n. (n + (2 ^ 64 - by)) % 2 ^ 64) (M.told self.key self.view) }
        ensures { MadeStep P.holds P.ways M.told self.entry seen result.0 result.1 result.2 }
    {
        let Permit { cell, marker: _ } = self;
        let found = unsafe { raw::fetch_sub::<Brand>(&raw const (*cell).first, by, SeqCst) };
        (
            found,
            Permit {
                cell,
                marker: PhantomData,
            },
            seen,
        )
    }

    /// Sets the bits of `mask` in the first word. Returns the word found.
    pub fn set_bits<M: Play<P::Key, V, E>>(
        self,
        mask: u64,
        seen: Watch<E>,
    ) -> (u64, Permit<'a, T, V, P>, Watch<E>)
        requires { MayKnow (P.holds self.key) (P.ways self.key) seen × Traces (P.holds self.key) (P.ways self.key) self.view self.value (λ n. bit_or n mask) (M.told self.key self.view) }
        ensures { MadeStep P.holds P.ways M.told self.entry seen result.0 result.1 result.2 }
    {
        let Permit { cell, marker: _ } = self;
        let found = unsafe { raw::fetch_or::<Brand>(&raw const (*cell).first, mask, SeqCst) };
        (
            found,
            Permit {
                cell,
                marker: PhantomData,
            },
            seen,
        )
    }
}

/// Steps on the second word, which is next to the trace.
///
/// # Contract
/// Like that of a step on the first word, with `TracesSecond` in place of `Traces`.
impl<'a, T, V, E, P: Rule<T, V, Second = Trace<E, u64>>> Permit<'a, T, V, P> {
    /// Loads the second word.
    pub fn load_second<M: Play<P::Key, V, E>>(
        self,
        seen: Watch<E>,
    ) -> (u64, Permit<'a, T, V, P>, Watch<E>)
        requires { MayKnow (P.holds self.key) (P.ways self.key) seen × TracesSecond (P.holds self.key) (P.ways self.key) self.view self.value (λ n. n) (M.told self.key self.view) }
        ensures { MadeStep P.holds P.ways M.told self.entry seen result.0 result.1 result.2 }
    {
        let Permit { cell, marker: _ } = self;
        let found = unsafe { raw::load::<Brand>(&raw const (*cell).second.word, SeqCst) };
        (
            found,
            Permit {
                cell,
                marker: PhantomData,
            },
            seen,
        )
    }

    /// Adds `by` to the second word, modulo 2^64. Returns the word found.
    pub fn add_second<M: Play<P::Key, V, E>>(
        self,
        by: u64,
        seen: Watch<E>,
    ) -> (u64, Permit<'a, T, V, P>, Watch<E>)
        requires { MayKnow (P.holds self.key) (P.ways self.key) seen × TracesSecond (P.holds self.key) (P.ways self.key) self.view self.value (λ n. (n + by) % 2 ^ 64) (M.told self.key self.view) }
        ensures { MadeStep P.holds P.ways M.told self.entry seen result.0 result.1 result.2 }
    {
        let Permit { cell, marker: _ } = self;
        let found = unsafe { raw::fetch_add::<Brand>(&raw const (*cell).second.word, by, SeqCst) };
        (
            found,
            Permit {
                cell,
                marker: PhantomData,
            },
            seen,
        )
    }

    /// Stores `new` in the second word.
    pub fn store_second<M: Play<P::Key, V, E>>(
        self,
        new: u64,
        seen: Watch<E>,
    ) -> (Permit<'a, T, V, P>, Watch<E>)
        requires { MayKnow (P.holds self.key) (P.ways self.key) seen × TracesSecond (P.holds self.key) (P.ways self.key) self.view self.value (λ _. new) (λ log es _. M.told self.key self.view log es 0) }
        ensures { MadeStep P.holds P.ways M.told self.entry seen 0 result.0 result.1 }
    {
        let Permit { cell, marker: _ } = self;
        unsafe { raw::store::<Brand>(&raw const (*cell).second.word, new, SeqCst) };
        (
            Permit {
                cell,
                marker: PhantomData,
            },
            seen,
        )
    }
}
