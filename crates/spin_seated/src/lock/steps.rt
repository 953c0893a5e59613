//! The steps on the table. Begin with [`SeatedLock::meet`]; the other steps are private to the locks.
//!
//! A step is a whole call, a part of one, or neither. If a step is a call, the lock shows three facts: the pass
//! may make the call, the words become those of the machine's next state, and the answer is the machine's.
ghost use Rattle.std.specs.Prelude.{◌≡◌, ℕ, ◌<◌, ◌+◌, ◌-◌, ◌%◌, ◌^◌, ◌==◌, Option};
ghost use prog.Atomic.{either};
ghost use Rattle.spin_seated.specs.Histories.{OwesAlways, Turned, holds, held_then};
ghost use Rattle.spin_seated.specs.Passes.{IsPassOf, pass_holds, PassMet};

use super::{Answer, Calls, Opening, Pass, Place, SeatedLock};
use crate::history::{Both, First, View};
use atomic_table::Play;
use std::alloc::Allocator;
use std::marker::PhantomData;

/// Which call a kind of step is, with its answer; or `None` for a step that is no call.
pub(crate) trait Tells<C> {
    ghost use Rattle.spin_seated.specs.declared.lock.Answer.{Answer};

    // The arguments: an operand, and the word found. The operand of an exchange is the word that it expects.
    // The operand of a load is 0.
    ghost told: { ℕ → ℕ → Option (C × Answer) };
}

pub(crate) struct Told<C, T> {
    names: PhantomData<(C, T)>,
}

impl<C: Calls, T: Tells<C>> Play<u64, View<Opening, C, Answer>> for Told<C, T> {
    ghost use Rattle.spin_seated.specs.Histories.{Tells};

    ghost then = { Tells C.machine T.told };
}

pub(crate) struct Meets<C> {
    names: PhantomData<C>,
}

impl<C: Calls> Play<u64, View<Opening, C, Answer>> for Meets<C> {
    ghost use Rattle.spin_seated.specs.Histories.{Shows};

    ghost then = { Shows C.machine };
}

impl<C: Calls, A: Allocator> SeatedLock<C, A> {
    /// Loads a word.
    #[tactic(auto, using(crate::proofs::Passes::turned))]
    pub(crate) fn load<T: Tells<C>>(&self, place: &mut Place<C>, word: usize) -> u64
        requires own { IsPassOf self.now place.old }
        requires word { word < 2 }
        requires owes { OwesAlways C.machine place.old.known word (λ n. n) (T.told 0) }
        ensures own { IsPassOf self.now place.new }
        ensures told { Turned C.machine (T.told 0 result) place.old.known place.new.known }
        ensures holds { holds C.machine place.new.known ≡ held_then C.machine (T.told 0 result) (holds C.machine place.old.known) }
    {
        C::laws();
        let Some(seat) = &mut place.seat else {
            unreachable!()
        };
        self.table.shared.load::<Told<C, T>>(seat, word)
    }

    /// Stores `new` in a word.
    #[tactic(auto, using(crate::proofs::Passes::turned))]
    pub(crate) fn store<T: Tells<C>>(&self, place: &mut Place<C>, word: usize, new: u64)
        requires own { IsPassOf self.now place.old }
        requires word { word < 2 }
        requires owes { OwesAlways C.machine place.old.known word (λ _. new) (λ _. T.told new new) }
        ensures own { IsPassOf self.now place.new }
        ensures told { Turned C.machine (T.told new new) place.old.known place.new.known }
        ensures holds { holds C.machine place.new.known ≡ held_then C.machine (T.told new new) (holds C.machine place.old.known) }
    {
        C::laws();
        let Some(seat) = &mut place.seat else {
            unreachable!()
        };
        self.table.shared.store::<Told<C, T>>(seat, word, new);
    }

    /// Stores `new` in a word if the word is `old`. Returns the word found.
    #[tactic(auto, using(crate::proofs::Passes::turned))]
    pub(crate) fn exchange<T: Tells<C>>(
        &self,
        place: &mut Place<C>,
        word: usize,
        old: u64,
        new: u64,
    ) -> u64
        requires own { IsPassOf self.now place.old }
        requires word { word < 2 }
        requires owes { OwesAlways C.machine place.old.known word (λ n. either (n == old) new n) (T.told old) }
        ensures own { IsPassOf self.now place.new }
        ensures told { Turned C.machine (T.told old result) place.old.known place.new.known }
        ensures holds { holds C.machine place.new.known ≡ held_then C.machine (T.told old result) (holds C.machine place.old.known) }
    {
        C::laws();
        let Some(seat) = &mut place.seat else {
            unreachable!()
        };
        self.table
            .shared
            .compare_exchange::<Told<C, T>>(seat, word, old, new)
    }

    /// Adds `by` to a word, modulo 2^64. Returns the word found.
    #[tactic(auto, using(crate::proofs::Passes::turned))]
    pub(crate) fn add<T: Tells<C>>(&self, place: &mut Place<C>, word: usize, by: u64) -> u64
        requires own { IsPassOf self.now place.old }
        requires word { word < 2 }
        requires owes { OwesAlways C.machine place.old.known word (λ n. (n + by) % 2 ^ 64) (T.told by) }
        ensures own { IsPassOf self.now place.new }
        ensures told { Turned C.machine (T.told by result) place.old.known place.new.known }
        ensures holds { holds C.machine place.new.known ≡ held_then C.machine (T.told by result) (holds C.machine place.old.known) }
    {
        C::laws();
        let Some(seat) = &mut place.seat else {
            unreachable!()
        };
        self.table.shared.fetch_add::<Told<C, T>>(seat, word, by)
    }

    /// Subtracts `by` from a word, modulo 2^64. Returns the word found.
    #[tactic(auto, using(crate::proofs::Passes::turned))]
    pub(crate) fn subtract<T: Tells<C>>(&self, place: &mut Place<C>, word: usize, by: u64) -> u64
        requires own { IsPassOf self.now place.old }
        requires word { word < 2 }
        requires owes { OwesAlways C.machine place.old.known word (λ n. (n + (2 ^ 64 - by)) % 2 ^ 64) (T.told by) }
        ensures own { IsPassOf self.now place.new }
        ensures told { Turned C.machine (T.told by result) place.old.known place.new.known }
        ensures holds { holds C.machine place.new.known ≡ held_then C.machine (T.told by result) (holds C.machine place.old.known) }
    {
        C::laws();
        let Some(seat) = &mut place.seat else {
            unreachable!()
        };
        self.table.shared.fetch_sub::<Told<C, T>>(seat, word, by)
    }

    /// Lets two passes know the same history. It makes three loads of the first word and ignores their
    /// results.
    ///
    /// # Contract
    /// Both have to be passes of this lock. Afterwards both know the same history (`Met`). It extends what each
    /// pass knew, and neither pass has a new call in it. What the passes hold does not change.
    pub fn meet(&self, a: &mut Pass<C>, b: &mut Pass<C>)
        requires first { IsPassOf self.now a.old }
        requires second { IsPassOf self.now b.old }
        ensures own { IsPassOf self.now a.new × IsPassOf self.now b.new }
        ensures first { PassMet C.machine a.old a.new a.new }
        ensures second { PassMet C.machine b.old a.new b.new }
        ensures first_holds { pass_holds C.machine a.new ≡ pass_holds C.machine a.old }
        ensures second_holds { pass_holds C.machine b.new ≡ pass_holds C.machine b.old }
    {
        C::laws();
        self.meet_at(&mut a.place, &mut b.place);
    }

    fn meet_at(&self, a: &mut Place<C>, b: &mut Place<C>)
        requires first { IsPassOf self.now a.old }
        requires second { IsPassOf self.now b.old }
        ensures own { IsPassOf self.now a.new × IsPassOf self.now b.new }
        ensures first { PassMet C.machine a.old a.new a.new }
        ensures second { PassMet C.machine b.old a.new b.new }
    {
        let Some(other) = b.seat.take() else {
            unreachable!()
        };
        let Some(seat) = &mut a.seat else {
            unreachable!()
        };
        self.table.shared.join_seat::<Both>(seat, other);
        self.table.shared.load::<Meets<C>>(seat, 0);
        b.seat = Some(self.table.shared.split_seat::<First>(seat));
    }
}
