//! How the owner of a lock ends it: [`SeatedLock::close`].
ghost use Rattle.std.specs.Prelude.{◌≡◌, ℕ, ◌<◌, slice_index, [], ◌∷◌};
ghost use Rattle.spin_seated.specs.Histories.{Closes};
ghost use Rattle.spin_seated.specs.Passes.{IsPassOf, opening_of};

use super::{Answer, Calls, Opening, Pass, Place, SeatedLock};
use crate::history::{Both, View};
use atomic_table::Seat;
use std::alloc::Allocator;

impl<C: Calls, A: Allocator> SeatedLock<C, A> {
    /// Ends the lock with one of its passes, and returns its value.
    ///
    /// # Contract
    /// The pass has to be of this lock. All calls form one legal history, after which the lock has this value. The
    /// history begins with what the pass knows, and has no further call of the pass (`Closes`).
    pub fn close(self, pass: Pass<C>) -> u64
        requires { IsPassOf self pass }
        ensures { Closes C.machine (opening_of self) (pass.known ∷ []) result }
    {
        let Pass { place, holding: _ } = pass;
        let Place { seat } = place;
        let Some(seat) = seat else { unreachable!() };
        self.close_seat(seat)
    }

    /// Ends the lock with two of its passes, and returns its value.
    ///
    /// # Contract
    /// Like that of [`close`](Self::close), for both passes.
    pub fn close_both(self, first: Pass<C>, second: Pass<C>) -> u64
        requires first { IsPassOf self first }
        requires second { IsPassOf self second }
        ensures { Closes C.machine (opening_of self) (first.known ∷ second.known ∷ []) result }
    {
        let Pass { place, holding: _ } = first;
        let Place { seat } = place;
        let Some(mut seat) = seat else { unreachable!() };
        let Pass { place, holding: _ } = second;
        let Place { seat: other } = place;
        let Some(other) = other else { unreachable!() };
        self.table.shared.join_seat::<Both>(&mut seat, other);
        self.close_seat(seat)
    }

    fn close_seat(self, seat: Seat<u64, View<Opening, C, Answer>>) -> u64
        requires { seat.table_id ≡ self.table.shared.table_id }
        ensures { Closes C.machine (opening_of self) seat.me.0 result }
    {
        let SeatedLock { table } = self;
        let closed = table.close_with(seat);
        let value = closed.word(1);
        closed.free();
        value
    }
}
