//! The calls of a `SeatedRwLock`. Each but `try_read` is one step on the table.
ghost use Rattle.std.specs.Prelude.{◌≡◌, Some, None, true, if◌then◌else◌};
ghost use Rattle.spin_seated.specs.declared.rwlock.Call.TheVariants.{TryRead, TryWrite, ReaderCount, WriterCount, Read, Write, UnlockRead, UnlockWrite, Downgrade};
ghost use Rattle.spin_seated.specs.declared.rwlock.SeatedHold.TheVariants as hold;
ghost use Rattle.spin_seated.specs.declared.lock.Answer.TheVariants.{Truth, Value, Done};
ghost use Rattle.spin_seated.specs.Rw.{rw, may_with};
ghost use Rattle.spin_seated.specs.Passes.{IsPassOf, pass_holds, PassMade};

use super::plays::{
    AcquireRead, AcquireWrite, CountReaders, CountWriters, DowngradeWrite, Load, ReadValue,
    ReleaseRead, ReleaseWrite, WriteValue,
};
use super::{Call, RwPass, SeatedHold};
use crate::lock::{Place, SeatedLock};
use spin_step_more::rw;
use std::alloc::Allocator;
use std::sync::Wait;

const WORD: usize = 0;

const VALUE: usize = 1;

impl<A: Allocator> SeatedLock<Call, A> {
    /// Tries to acquire the lock as a reader. Returns `false` if a writer holds it, or if the number of
    /// readers is at the cap.
    ///
    /// It makes one load. Then it repeats its exchange until that succeeds, or until the word found has no
    /// room for a reader.
    ///
    /// # Contract
    /// The pass has to be one of this lock, and to hold nothing. The history that it then knows ends with the
    /// call and its answer (`Made`). If the answer is `true`, the pass holds as a reader. Whether and when
    /// the call returns is not promised.
    #[must_use = "the answer tells whether the pass holds the lock"]
    pub fn try_read<W: Wait>(&self, rt: &W, pass: &mut RwPass) -> bool
        requires own { IsPassOf self.now pass.old }
        requires free { pass_holds rw pass.old ≡ None }
        ensures own { IsPassOf self.now pass.new }
        ensures made { PassMade rw pass.old TryRead (Truth result) pass.new }
        ensures holds { pass_holds rw pass.new ≡ (if result then Some hold.Read else None) }
    {
        let granted = self.acquire_read(rt, &mut pass.place);
        if granted {
            pass.holding = Some(SeatedHold::Read);
        }
        granted
    }

    #[tactic(auto, using(crate::proofs::RwDebts::loads_owed, crate::proofs::RwDebts::held_still))]
    fn acquire_read<W: Wait>(&self, rt: &W, place: &mut Place<Call>) -> bool
        requires own { IsPassOf self.now place.old }
        requires free { pass_holds rw place.old ≡ None }
        ensures own { IsPassOf self.now place.new }
        ensures made { PassMade rw place.old TryRead (Truth result) place.new }
        ensures holds { pass_holds rw place.new ≡ (if result then Some hold.Read else None) }
    {
        let mut found = self.load::<Load>(place, WORD);
        for _ in rt.forever() {
            let Some(next) = rw::read(found as usize, rw::MAX_READERS) else {
                return false;
            };
            let old = found;
            found = self.exchange::<AcquireRead>(place, WORD, old, next as u64);
            if found == old {
                return true;
            }
        }
        unreachable!()
    }

    /// Tries to acquire the lock as the writer, by one exchange. Returns `false` if any pass holds it.
    ///
    /// # Contract
    /// The pass has to be one of this lock, and to hold nothing. The history that it then knows ends with the
    /// call and its answer (`Made`). If the answer is `true`, the pass holds as the writer.
    #[must_use = "the answer tells whether the pass holds the lock"]
    pub fn try_write(&self, pass: &mut RwPass) -> bool
        requires own { IsPassOf self.now pass.old }
        requires free { pass_holds rw pass.old ≡ None }
        ensures own { IsPassOf self.now pass.new }
        ensures made { PassMade rw pass.old TryWrite (Truth result) pass.new }
        ensures holds { pass_holds rw pass.new ≡ (if result then Some hold.Write else None) }
    {
        let Some(taken) = rw::write(0) else {
            unreachable!()
        };
        let found = self.exchange::<AcquireWrite>(&mut pass.place, WORD, 0, taken as u64);
        let granted = found == 0;
        if granted {
            pass.holding = Some(SeatedHold::Write);
        }
        granted
    }

    /// Returns how many passes hold as readers, by one load.
    ///
    /// # Contract
    /// The pass has to be one of this lock. The history that it then knows ends with the call and its answer (`Made`).
    #[tactic(auto, using(crate::proofs::RwDebts::counts_readers_owed))]
    pub fn reader_count(&self, pass: &mut RwPass) -> u64
        requires { IsPassOf self.now pass.old }
        ensures own { IsPassOf self.now pass.new }
        ensures made { PassMade rw pass.old ReaderCount (Value result) pass.new }
        ensures holds { pass_holds rw pass.new ≡ pass_holds rw pass.old }
    {
        rw::readers(self.load::<CountReaders>(&mut pass.place, WORD) as usize) as u64
    }

    /// Returns how many passes hold as writers, by one load.
    ///
    /// # Contract
    /// The pass has to be one of this lock. The history that it then knows ends with the call and its answer (`Made`).
    #[tactic(auto, using(crate::proofs::RwDebts::counts_writers_owed))]
    pub fn writer_count(&self, pass: &mut RwPass) -> u64
        requires { IsPassOf self.now pass.old }
        ensures own { IsPassOf self.now pass.new }
        ensures made { PassMade rw pass.old WriterCount (Value result) pass.new }
        ensures holds { pass_holds rw pass.new ≡ pass_holds rw pass.old }
    {
        rw::writers(self.load::<CountWriters>(&mut pass.place, WORD) as usize) as u64
    }

    /// Returns the value, by one load.
    ///
    /// # Contract
    /// The pass has to be one of this lock, and to hold it as a reader or as the writer. The history that it then knows
    /// ends with the call and its answer (`Made`).
    pub fn read(&self, pass: &mut RwPass) -> u64
        requires own { IsPassOf self.now pass.old }
        requires holder { may_with Read (pass_holds rw pass.old) ≡ true }
        ensures own { IsPassOf self.now pass.new }
        ensures made { PassMade rw pass.old Read (Value result) pass.new }
        ensures holds { pass_holds rw pass.new ≡ pass_holds rw pass.old }
    {
        self.load::<ReadValue>(&mut pass.place, VALUE)
    }

    /// Replaces the value, by one store.
    ///
    /// # Contract
    /// The pass has to be one of this lock, and to hold it as the writer. The history that it then knows ends with the
    /// call and its answer (`Made`).
    pub fn write(&self, pass: &mut RwPass, value: u64)
        requires own { IsPassOf self.now pass.old }
        requires holder { pass_holds rw pass.old ≡ Some hold.Write }
        ensures own { IsPassOf self.now pass.new }
        ensures made { PassMade rw pass.old (Write value) Done pass.new }
        ensures holds { pass_holds rw pass.new ≡ Some hold.Write }
    {
        self.store::<WriteValue>(&mut pass.place, VALUE, value);
    }

    /// Releases a reader's hold, by one subtraction.
    ///
    /// # Contract
    /// The pass has to be one of this lock, and to hold it as a reader. The history that it then knows ends with the
    /// call and its answer (`Made`). The pass then holds nothing.
    pub fn unlock_read(&self, pass: &mut RwPass)
        requires own { IsPassOf self.now pass.old }
        requires holder { pass_holds rw pass.old ≡ Some hold.Read }
        ensures own { IsPassOf self.now pass.new }
        ensures made { PassMade rw pass.old UnlockRead Done pass.new }
        ensures holds { pass_holds rw pass.new ≡ None }
    {
        self.subtract::<ReleaseRead>(&mut pass.place, WORD, rw::READER as u64);
        pass.holding = None;
    }

    /// Releases the writer's hold, by one subtraction.
    ///
    /// # Contract
    /// The pass has to be one of this lock, and to hold it as the writer. The history that it then knows ends with the
    /// call and its answer (`Made`). The pass then holds nothing.
    pub fn unlock_write(&self, pass: &mut RwPass)
        requires own { IsPassOf self.now pass.old }
        requires holder { pass_holds rw pass.old ≡ Some hold.Write }
        ensures own { IsPassOf self.now pass.new }
        ensures made { PassMade rw pass.old UnlockWrite Done pass.new }
        ensures holds { pass_holds rw pass.new ≡ None }
    {
        self.subtract::<ReleaseWrite>(&mut pass.place, WORD, rw::WRITER as u64);
        pass.holding = None;
    }

    /// Turns the writer into a reader, by one addition. No other pass writes in between.
    ///
    /// # Contract
    /// The pass has to be one of this lock, and to hold it as the writer. The history that it then knows ends with the
    /// call and its answer (`Made`). The pass then holds as a reader.
    pub fn downgrade(&self, pass: &mut RwPass)
        requires own { IsPassOf self.now pass.old }
        requires holder { pass_holds rw pass.old ≡ Some hold.Write }
        ensures own { IsPassOf self.now pass.new }
        ensures made { PassMade rw pass.old Downgrade Done pass.new }
        ensures holds { pass_holds rw pass.new ≡ Some hold.Read }
    {
        self.add::<DowngradeWrite>(&mut pass.place, WORD, (rw::READER - rw::WRITER) as u64);
        pass.holding = Some(SeatedHold::Read);
    }
}
