//! `Clone` for each type with parameters that is `Copy` where they are. A clone is the same value, and cloning
//! never fails.
ghost use Rattle.std.specs.Prelude.{◌≡◌, ⊤};

use crate::answer::Answer;
use crate::once_calls::OnceCall;
use crate::place::Seat;
use crate::schedule::{Event, Move, Outcome};
use crate::stepped::{Next, Stepped};
use std::alloc::AllocError;

impl<V: Copy> Clone for Answer<V> {
    ghost is_clone = { λ x y. y ≡ x };

    ghost is_infallible = { λ _. ⊤ };

    fn clone(&self) -> Result<Answer<V>, AllocError> {
        Ok(*self)
    }
}

impl<C: Copy, V: Copy> Clone for Move<C, V> {
    ghost is_clone = { λ x y. y ≡ x };

    ghost is_infallible = { λ _. ⊤ };

    fn clone(&self) -> Result<Move<C, V>, AllocError> {
        Ok(*self)
    }
}

impl<A: Copy, V: Copy> Clone for Outcome<A, V> {
    ghost is_clone = { λ x y. y ≡ x };

    ghost is_infallible = { λ _. ⊤ };

    fn clone(&self) -> Result<Outcome<A, V>, AllocError> {
        Ok(*self)
    }
}

impl<W: Copy, V: Copy, A: Copy> Clone for Event<W, V, A> {
    ghost is_clone = { λ x y. y ≡ x };

    ghost is_infallible = { λ _. ⊤ };

    fn clone(&self) -> Result<Event<W, V, A>, AllocError> {
        Ok(*self)
    }
}

impl<C: Copy, L: Copy> Clone for Seat<C, L> {
    ghost is_clone = { λ x y. y ≡ x };

    ghost is_infallible = { λ _. ⊤ };

    fn clone(&self) -> Result<Seat<C, L>, AllocError> {
        Ok(*self)
    }
}

impl<L: Copy, A: Copy> Clone for Next<L, A> {
    ghost is_clone = { λ x y. y ≡ x };

    ghost is_infallible = { λ _. ⊤ };

    fn clone(&self) -> Result<Next<L, A>, AllocError> {
        Ok(*self)
    }
}

impl<W: Copy, V: Copy, L: Copy, A: Copy> Clone for Stepped<W, V, L, A> {
    ghost is_clone = { λ x y. y ≡ x };

    ghost is_infallible = { λ _. ⊤ };

    fn clone(&self) -> Result<Stepped<W, V, L, A>, AllocError> {
        Ok(*self)
    }
}

impl<V: Copy> Clone for OnceCall<V> {
    ghost is_clone = { λ x y. y ≡ x };

    ghost is_infallible = { λ _. ⊤ };

    fn clone(&self) -> Result<OnceCall<V>, AllocError> {
        Ok(*self)
    }
}
