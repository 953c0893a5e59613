//! What a cell keeps beside its first word: nothing, or a second word. Begin with [`Word`].
ghost use Rattle.spin_core.specs.Traced.{MadeStep, MayKnow};
ghost use Rattle.spin_session.specs.Meaning.{Beside, just_one, with_second};
ghost use Rattle.spin_session.specs.Operating.{Operates};

use spin_core::cell::{Permit, Play, Rule};
use spin_core::trace::{Trace, Watch};
use spin_step::Operation;

/// What a cell keeps beside its first word: `u64` is a second word, and `()` is nothing.
///
/// # Contract
/// `words` says which number is at place 1.
pub trait Word: Sized {
    ghost words: { Beside Self };

    /// Makes this operation on the word at place 1. Returns the number found; a store finds 0.
    fn operate<'a, T, V, E, P: Rule<T, V, Second = Trace<E, Self>>, M: Play<P::Key, V, E>>(
        permit: Permit<'a, T, V, P>,
        operation: Operation,
        seen: Watch<E>,
    ) -> (u64, Permit<'a, T, V, P>, Watch<E>)
        requires knows { MayKnow (P.holds permit.key) (P.ways permit.key) seen }
        requires keeps { Operates words (P.holds permit.key) (P.ways permit.key) permit.view permit.value 1 operation (M.told permit.key permit.view) }
        ensures { MadeStep P.holds P.ways M.told permit.entry seen result.0 result.1 result.2 };
}

impl Word for () {
    ghost words = { just_one };

    #[inline(always)]
    fn operate<'a, T, V, E, P: Rule<T, V, Second = Trace<E, ()>>, M: Play<P::Key, V, E>>(
        permit: Permit<'a, T, V, P>,
        operation: Operation,
        seen: Watch<E>,
    ) -> (u64, Permit<'a, T, V, P>, Watch<E>)
        requires knows { MayKnow (P.holds permit.key) (P.ways permit.key) seen }
        requires keeps { Operates just_one (P.holds permit.key) (P.ways permit.key) permit.view permit.value 1 operation (M.told permit.key permit.view) }
        ensures { MadeStep P.holds P.ways M.told permit.entry seen result.0 result.1 result.2 }
    {
        unreachable!()
    }
}

impl Word for u64 {
    ghost words = { with_second };

    #[inline(always)]
    fn operate<'a, T, V, E, P: Rule<T, V, Second = Trace<E, u64>>, M: Play<P::Key, V, E>>(
        permit: Permit<'a, T, V, P>,
        operation: Operation,
        seen: Watch<E>,
    ) -> (u64, Permit<'a, T, V, P>, Watch<E>)
        requires knows { MayKnow (P.holds permit.key) (P.ways permit.key) seen }
        requires keeps { Operates with_second (P.holds permit.key) (P.ways permit.key) permit.view permit.value 1 operation (M.told permit.key permit.view) }
        ensures { MadeStep P.holds P.ways M.told permit.entry seen result.0 result.1 result.2 }
    {
        match operation {
            Operation::Load => permit.load_second::<M>(seen),
            Operation::Store(to) => {
                let (permit, seen) = permit.store_second::<M>(to, seen);
                (0, permit, seen)
            }
            Operation::Add(by) => permit.add_second::<M>(by, seen),
            _ => unreachable!(),
        }
    }
}
