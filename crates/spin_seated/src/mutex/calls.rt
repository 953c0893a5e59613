//! The calls of a `SeatedMutex`. Each is one step on the table.
ghost use Rattle.std.specs.Prelude.{◌≡◌, ◌||◌, IsTrue, IsFalse};
ghost use Rattle.spin_step.specs.Steps.{bit};
ghost use Rattle.spin_seated.specs.declared.mutex.Call.TheVariants.{TryLock, IsLocked, Read, Write, Unlock};
ghost use Rattle.spin_seated.specs.declared.lock.Answer.TheVariants.{Truth, Value, Done};
ghost use Rattle.spin_seated.specs.Mutex.{mutex};
ghost use Rattle.spin_seated.specs.Passes.{IsPassOf, pass_holds, PassMade};

use super::plays::{Acquire, FreeFlag, Load, ReadValue, WriteValue};
use super::{Call, Pass};
use crate::lock::SeatedLock;
use spin_step::flag;
use std::alloc::Allocator;

const FLAG: usize = 0;

const VALUE: usize = 1;

// The word of a flag.
fn flag_number(flag: bool) -> u64
    ensures { result ≡ bit flag }
{
    flag as u64
}

impl<A: Allocator> SeatedLock<Call, A> {
    /// Tries to acquire the lock, by one exchange. Returns `false` if it is held.
    ///
    /// # Contract
    /// The pass has to be one of this lock. The history that it then knows ends with the call and its answer
    /// (`Made`). Afterwards the pass holds the lock exactly if it held it before or the answer is `true`.
    #[must_use = "the answer tells whether the pass holds the lock"]
    pub fn try_lock(&self, pass: &mut Pass) -> bool
        requires { IsPassOf self.now pass.old }
        ensures own { IsPassOf self.now pass.new }
        ensures made { PassMade mutex pass.old TryLock (Truth result) pass.new }
        ensures holds { pass_holds mutex pass.new ≡ (pass_holds mutex pass.old || result) }
    {
        let Some(taken) = flag::lock(false) else {
            unreachable!()
        };
        let (free, taken) = (flag_number(false), flag_number(taken));
        let found = self.exchange::<Acquire>(&mut pass.place, FLAG, free, taken);
        let granted = found == free;
        pass.holding |= granted;
        granted
    }

    /// Returns `true` if its one load found the lock held. By the time the caller reads the answer it may be
    /// out of date.
    ///
    /// # Contract
    /// The pass has to be one of this lock. The history that it then knows ends with the call and its answer (`Made`).
    pub fn is_locked(&self, pass: &mut Pass) -> bool
        requires { IsPassOf self.now pass.old }
        ensures own { IsPassOf self.now pass.new }
        ensures made { PassMade mutex pass.old IsLocked (Truth result) pass.new }
        ensures holds { pass_holds mutex pass.new ≡ pass_holds mutex pass.old }
    {
        self.load::<Load>(&mut pass.place, FLAG) != 0
    }

    /// Returns the value, by one load.
    ///
    /// # Contract
    /// The pass has to be one of this lock, and to hold it. The history that it then knows ends with the call and its
    /// answer (`Made`).
    pub fn read(&self, pass: &mut Pass) -> u64
        requires own { IsPassOf self.now pass.old }
        requires holder { IsTrue (pass_holds mutex pass.old) }
        ensures own { IsPassOf self.now pass.new }
        ensures made { PassMade mutex pass.old Read (Value result) pass.new }
        ensures holds { IsTrue (pass_holds mutex pass.new) }
    {
        self.load::<ReadValue>(&mut pass.place, VALUE)
    }

    /// Replaces the value, by one store.
    ///
    /// # Contract
    /// The pass has to be one of this lock, and to hold it. The history that it then knows ends with the call and its
    /// answer (`Made`).
    pub fn write(&self, pass: &mut Pass, value: u64)
        requires own { IsPassOf self.now pass.old }
        requires holder { IsTrue (pass_holds mutex pass.old) }
        ensures own { IsPassOf self.now pass.new }
        ensures made { PassMade mutex pass.old (Write value) Done pass.new }
        ensures holds { IsTrue (pass_holds mutex pass.new) }
    {
        self.store::<WriteValue>(&mut pass.place, VALUE, value);
    }

    /// Releases the lock, by one store.
    ///
    /// # Contract
    /// The pass has to be one of this lock, and to hold it. The history that it then knows ends with the call and its
    /// answer (`Made`). The pass then does not hold the lock.
    pub fn unlock(&self, pass: &mut Pass)
        requires own { IsPassOf self.now pass.old }
        requires holder { IsTrue (pass_holds mutex pass.old) }
        ensures own { IsPassOf self.now pass.new }
        ensures made { PassMade mutex pass.old Unlock Done pass.new }
        ensures holds { IsFalse (pass_holds mutex pass.new) }
    {
        let free = flag_number(flag::unlock(true));
        self.store::<FreeFlag>(&mut pass.place, FLAG, free);
        pass.holding = false;
    }
}
