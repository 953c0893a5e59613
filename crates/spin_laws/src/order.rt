//! Laws of parties that use several locks: if each waits only for a lock that ranks above all that it has, no moment is a
//! deadlock. Each law is the contract of a function that does nothing.
ghost use Rattle.std.specs.Prelude.{◌≡◌, ◌<◌, ◌≤◌, ℕ, false, Option, List};
ghost use Rattle.spin_step.specs.Plain.{Plain, ticket_limit};
ghost use Rattle.spin_step.specs.declared.schedule.Move.{Move};
ghost use Rattle.spin_step.specs.declared.flag_calls.FlagCall.{FlagCall};
ghost use Rattle.spin_step.specs.declared.ticket_calls.TicketCall.{TicketCall};
ghost use Rattle.spin_step_more.specs.declared.rw_calls.RwCall.{RwCall};
ghost use Rattle.spin_step_more.specs.declared.fair_calls.FairCall.{FairCall};
ghost use Rattle.spin_world.specs.declared.flag.Flag.{Flag};
ghost use Rattle.spin_world.specs.declared.ticket.Ticket.{Ticket};
ghost use Rattle.spin_world.specs.declared.rw.Rw.{Rw};
ghost use Rattle.spin_world.specs.declared.fair.Fair.{Fair};
ghost use Rattle.spin_step.specs.declared.once_calls.OnceCall.{OnceCall};
ghost use Rattle.spin_seats.specs.declared.calls.SeatsCall.{SeatsCall};
ghost use Rattle.spin_world.specs.declared.once.OnceObject.{OnceObject};
ghost use Rattle.spin_world_seats.specs.declared.seats.Seats.{Seats};
ghost use Rattle.spin_explore.specs.declared.entries.Entry.{Entry};
ghost use Rattle.spin_explore.specs.declared.kinds.AnyCall.{AnyCall};
ghost use Rattle.spin_explore.specs.declared.kinds.AnyLock.{AnyLock};
ghost use Rattle.spin_laws.specs.AnyLocks.{Moves, TellsWho, UseInOrder, IsFreeOfDeadlock};
ghost use Rattle.spin_laws.specs.KeptOut.{AsksWhatIsClosed, is_wait};
ghost use Rattle.spin_laws.specs.Joins.{NoDeadlockOfJoins};
ghost use Rattle.spin_laws.specs.Several.{Wait, NoDeadlock};
ghost use Rattle.spin_laws.specs.Texts.{IsText, IsNeverStuckInOrder};
ghost use Rattle.spin_laws.specs.Waits.{AreInOrder, HaveNoCycle};
ghost use Rattle.spin_laws.specs.Served.{RankBelow, LinesAreInOrder, ServeInOrder, SectionsEnd, NobodyStarves};

use spin_world::{Fair, Flag, OnceObject, Rw, Ticket};
use spin_world_core::Object;
use spin_world_seats::Seats;

/// States that parties which wait in the order of ranks are never in a deadlock: if something keeps out a party, some
/// party that has something in a lock of this rank or above is kept out by nothing.
///
/// The locks may be of any kinds: flags, ticket locks, fair locks, read-write locks with upgrades, seats, and each
/// `Once` for calls with a closure.
pub fn some_party_goes_on()
    ensures { (n : ℕ) (lock : ℕ → Plain) (waits : ℕ → Option Wait) → NoDeadlock lock waits n }
{}

/// States the same of parties that may also wait for the ends of parties that they have started, as in a `join` under an
/// order: some party goes on that has something in a lock of this rank or above, or was started by one that has.
pub fn some_party_goes_on_beside_joins()
    ensures { (n : ℕ) (lock : ℕ → Plain) (waits : ℕ → Option Wait) (awaits : ℕ → List ℕ) → NoDeadlockOfJoins lock waits awaits n }
{}

/// States that parties which wait in the order of ranks never wait for each other in a cycle.
pub fn waits_have_no_cycle<X>()
    ensures { (rank : X → ℕ) (holds : ℕ → List X) (waits : ℕ → Option X) → AreInOrder holds waits rank → HaveNoCycle holds waits }
{}

/// States that nobody starves who waits in the order of ranks for locks that serve in order, if each section ends once the
/// waits in it end.
///
/// The first in the line for a lock has the lock, or may have it at once. The law is about lines at each time, and not about
/// a schedule: that a lock serves in order and that a section ends are premises.
pub fn nobody_starves_in_order<X>()
    ensures { (rank : X → ℕ) (ranks : ℕ) (line : ℕ → X → List ℕ) → RankBelow ranks rank → LinesAreInOrder line rank → ServeInOrder line → SectionsEnd line → NobodyStarves line }
{}

/// States that whoever waits for a flag in vain waits as the law of several locks says.
pub fn a_flag_keeps_out_by_what_is_asked<V: Copy>()
    ensures { (object : Flag V) (n : ℕ) (past : List (ℕ × Move FlagCall V)) → AsksWhatIsClosed (⟦<Flag<V> as Object>⟧.machine object) (λ s c. Unit {0}) n past }
{}

/// The same of a ticket lock, while a ticket is left.
pub fn a_ticket_lock_keeps_out_by_what_is_asked<V: Copy>()
    ensures { (object : Ticket V) (n : ℕ) (past : List (ℕ × Move TicketCall V)) → AsksWhatIsClosed (⟦<Ticket<V> as Object>⟧.machine object) (λ s c. s.next < ticket_limit) n past }
{}

/// The same of a read-write lock that has room for a reader.
pub fn a_read_write_lock_keeps_out_by_what_is_asked<V: Copy>()
    ensures { (object : Rw V) (n : ℕ) (past : List (ℕ × Move RwCall V)) → AsksWhatIsClosed (⟦<Rw<V> as Object>⟧.machine object) (λ s c. 1 ≤ s.cap) n past }
{}

/// The same of a fair lock.
pub fn a_fair_lock_keeps_out_by_what_is_asked<V: Copy>()
    ensures { (object : Fair V) (n : ℕ) (past : List (ℕ × Move FairCall V)) → AsksWhatIsClosed (⟦<Fair<V> as Object>⟧.machine object) (λ s c. Unit {0}) n past }
{}

/// The same of a `Once`, but for a call that waits for the value that some other call makes.
pub fn a_once_keeps_out_by_what_is_asked<V: Copy>()
    ensures { (object : OnceObject V) (n : ℕ) (past : List (ℕ × Move (OnceCall V) V)) → AsksWhatIsClosed (⟦<OnceObject<V> as Object>⟧.machine object) (λ s c. is_wait c ≡ false) n past }
{}

/// The same of seats, if there is one.
pub fn seats_keep_out_by_what_is_asked()
    ensures { (object : Seats) (n : ℕ) (past : List (ℕ × Move SeatsCall (Unit {0}))) → AsksWhatIsClosed (⟦<Seats as Object>⟧.machine object) (λ s c. 1 ≤ s.cap) n past }
{}

/// States that parties which use several locks of the explorer's kinds in the order of ranks are never in a deadlock, whatever
/// they have done so far.
///
/// Each lock has had a schedule of the same `n` parties. Not meant are a ticket lock without a ticket that is left, a lock whose
/// cap is 0, a `wait` of a `Once`, and barriers.
pub fn locks_in_order_are_free_of_deadlock()
    ensures { (n ranks : ℕ) (lock : ℕ → AnyLock) (past : ℕ → Moves) (at : ℕ → Option ℕ) → TellsWho n lock past ranks at → UseInOrder n lock past at → IsFreeOfDeadlock n lock past at }
{}

/// States that a text whose lines use their locks in an order is never stuck: wherever a schedule leads, another one goes on from
/// there and finishes all lines. So no search is needed. `order_of` of `spin_explore` finds the order.
///
/// The text is one of `n` parties for locks that nobody has used, and each line is a move on its kind of lock. A ticket lock
/// has a ticket for each line, and the cap of a read-write lock is at least 1. `IsText` says all this.
pub fn a_text_in_order_is_never_stuck()
    ensures { (n : ℕ) (locks : List AnyLock) (lines : List (Entry AnyCall ℕ)) → IsText n locks lines → IsNeverStuckInOrder n locks lines }
{}
