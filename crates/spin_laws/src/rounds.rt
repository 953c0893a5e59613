//! Laws of progress. Each law is the contract of a function that does nothing. A caller that calls this function learns
//! what the law states.
//!
//! A *round* is a stretch of the schedule (`IsRound`). Each party that is in a call when the round starts makes a step
//! of that call in the round. Each party that holds the lock begins to release it, and no party has leaked it. An
//! endless schedule is *fair* (`IsFair`) if, from each of its places on, it has another round. Of a party that waits, a
//! round asks only that it makes a step.
ghost use Rattle.std.specs.Prelude.{◌≡◌, ◌≤◌, ℕ, List, None};
ghost use Rattle.spin_step.specs.Plain.{to_write, to_read, to_read_upgradable, to_lock_starving};
ghost use Rattle.spin_step.specs.Asks.{waits, waits_to_write, spins_to_write, waits_or_starves, waits_starving, waits_to_enter, initializes, waits_for_value, polls, meets};
ghost use Rattle.spin_step.specs.declared.schedule.Move.{Move};
ghost use Rattle.spin_step.specs.declared.flag_calls.FlagCall.{FlagCall};
ghost use Rattle.spin_world.specs.declared.flag.Flag.{Flag};
ghost use Rattle.spin_step.specs.declared.ticket_calls.TicketCall.{TicketCall};
ghost use Rattle.spin_world.specs.declared.ticket.Ticket.{Ticket};
ghost use Rattle.spin_step_more.specs.declared.fair_calls.FairCall.{FairCall};
ghost use Rattle.spin_world.specs.declared.fair.Fair.{Fair};
ghost use Rattle.spin_step_more.specs.declared.rw_calls.RwCall.{RwCall};
ghost use Rattle.spin_world.specs.declared.rw.Rw.{Rw};
ghost use Rattle.spin_world.specs.declared.once.OnceObject.{OnceObject};
ghost use Rattle.spin_step.specs.declared.once_calls.OnceCall.{OnceCall};
ghost use Rattle.spin_world.specs.OnceClosures.{OnceSchedule};
ghost use Rattle.spin_world.specs.declared.barrier.BarrierObject.{BarrierObject};
ghost use Rattle.spin_seats.specs.declared.calls.SeatsCall.{SeatsCall};
ghost use Rattle.spin_world_seats.specs.declared.seats.Seats.{Seats};
ghost use Rattle.spin_laws.specs.Alone.{AnsweredOrDisturbed, AnsweredAlone};
ghost use Rattle.spin_laws.specs.Starving.{MayStarve, MayStarveWhere, MayDeadlockWhere, HasNoTicket, Starves, WaitsBesideIdleStarver};
ghost use Rattle.spin_laws.specs.Flag.{LocksInFour, IsDeadlockFree};
ghost use Rattle.spin_laws.specs.Ticket.{EntersInRounds, LocksInRounds, IsNeverStarved, MayBePassedOver};
ghost use Rattle.spin_laws.specs.Fair.{LocksInFive, StarversAreDeadlockFree};
ghost use Rattle.spin_laws.specs.Rw.{UpgradesInThree, UpgradesAtLast, GrantsSomebody, RwIsDeadlockFree};
ghost use Rattle.spin_laws.specs.Once.{AnswersInFour, AnswersAtLast, AnswersInOne, SomebodyRuns};
ghost use Rattle.spin_laws.specs.Seats.{SeatsSomebodyInFour, SeatsAreDeadlockFree};

use spin_world::{BarrierObject, Fair, Flag, OnceObject, Rw, Ticket};
use spin_world_core::Object;
use spin_world_seats::Seats;

/// States that a waiting call of any object is obstruction-free once what it asks is open. In as many rounds as the
/// call promises steps, at least one and at most four, one of three things happens: the call is answered, another
/// party changes a word, or the call's own exchange fails spuriously.
pub fn an_open_call_is_answered_or_disturbed<O: Object>()
    ensures { (object : O) (n : ℕ) (past : List (ℕ × Move O.Call O.Value)) (rounds : List (List (ℕ × Move O.Call O.Value))) → AnsweredOrDisturbed (O.machine object) n past rounds }
{
    O::laws();
}

/// States that a call is answered by further steps of its own party, if no other party moves. This is so of a call that
/// does not wait, and of a waiting call once what it asks is open.
pub fn a_call_that_nobody_keeps_out_is_answered_alone<O: Object>()
    ensures { (object : O) (n : ℕ) (past : List (ℕ × Move O.Call O.Value)) → AnsweredAlone (O.machine object) n past }
{
    O::laws();
}

/// States that while a party waits in a `lock` of a flag, some party is granted the lock in every four rounds. Each
/// time it may be another party. Instead of a grant, the waiting party's own exchange may fail spuriously.
pub fn somebody_is_granted_in_four_rounds<V: Copy>()
    ensures { (object : Flag V) (n : ℕ) (past : List (ℕ × Move FlagCall V)) (rounds : List (List (ℕ × Move FlagCall V))) → LocksInFour (⟦<Flag<V> as Object>⟧.machine object) n past rounds }
{}

/// States that a flag is free of deadlock. In each endless fair schedule, while a party waits in a `lock`, some party
/// is granted the lock some time later. Instead of a grant, the waiting party's own exchange may fail spuriously.
pub fn a_flag_is_free_of_deadlock<V: Copy>()
    ensures { (object : Flag V) (n : ℕ) (past : List (ℕ × Move FlagCall V)) (schedule : ℕ → ℕ × Move FlagCall V) → IsDeadlockFree (⟦<Flag<V> as Object>⟧.machine object) n past schedule }
{}

/// States that a flag is not free of starvation: in some endless fair schedule of two parties a `lock` is never
/// answered.
pub fn a_lock_of_a_flag_may_starve<V: Copy>()
    ensures { (object : Flag V) → MayStarve (⟦<Flag<V> as Object>⟧.machine object) 2 waits_to_write }
{}

/// States that a party with a ticket is granted the lock within three rounds for each ticket before its own, and one
/// more round. It does not matter who takes a ticket later.
pub fn a_ticket_is_granted_in_rounds<V: Copy>()
    ensures { (object : Ticket V) (n : ℕ) (past : List (ℕ × Move TicketCall V)) (rounds : List (List (ℕ × Move TicketCall V))) → EntersInRounds (⟦<Ticket<V> as Object>⟧.machine object) n past rounds }
{}

/// States that a party with a ticket never starves: in each endless fair schedule it is granted the lock.
pub fn a_ticket_is_never_starved<V: Copy>()
    ensures { (object : Ticket V) (n : ℕ) (past : List (ℕ × Move TicketCall V)) (schedule : ℕ → ℕ × Move TicketCall V) → IsNeverStarved (⟦<Ticket<V> as Object>⟧.machine object) n past schedule }
{}

/// States how soon a `lock` of one of `n` parties is granted. It takes at most 3 n - 2 rounds (2 if n is 1), and one
/// more round for each ticket taken meanwhile, that of this `lock` included. At the end the next number has to be
/// below the limit.
///
/// As long as the party has no ticket, each ticket that another party takes may cost it an exchange.
pub fn a_lock_is_granted_in_rounds<V: Copy>()
    ensures { (object : Ticket V) (n : ℕ) (past : List (ℕ × Move TicketCall V)) (rounds : List (List (ℕ × Move TicketCall V))) → LocksInRounds (⟦<Ticket<V> as Object>⟧.machine object) n past rounds }
{}

/// States that a `lock` without a ticket may be passed over in any number of rounds, as long as numbers are left.
/// Taking a ticket is lock-free, but not wait-free.
///
/// So the rounds of [`a_lock_is_granted_in_rounds`] have to count the tickets that others take meanwhile.
pub fn a_lock_may_be_passed_over<V: Copy>()
    ensures { (object : Ticket V) → MayBePassedOver (⟦<Ticket<V> as Object>⟧.machine object) object.first }
{}

/// States that a `lock` without a ticket may starve: once all tickets are taken, it is never answered.
pub fn a_lock_without_a_ticket_may_starve<V: Copy>()
    ensures { (object : Ticket V) → MayStarveWhere HasNoTicket (⟦<Ticket<V> as Object>⟧.machine object) 2 waits_to_enter }
{}

/// States that while a starver waits for a fair lock, some party is granted the lock in every five rounds. This may be
/// another starver each time. A law of `spin_world` says that the party that is granted the lock is no newcomer.
pub fn somebody_is_granted_beside_a_starver_in_five_rounds<V: Copy>()
    ensures { (object : Fair V) (n : ℕ) (past : List (ℕ × Move FairCall V)) (rounds : List (List (ℕ × Move FairCall V))) → LocksInFive (⟦<Fair<V> as Object>⟧.machine object) n past rounds }
{}

/// States that starvers are free of deadlock: in each endless fair schedule, while a starver waits, some party is
/// granted the lock some time later.
pub fn starvers_are_free_of_deadlock<V: Copy>()
    ensures { (object : Fair V) (n : ℕ) (past : List (ℕ × Move FairCall V)) (schedule : ℕ → ℕ × Move FairCall V) → StarversAreDeadlockFree (⟦<Fair<V> as Object>⟧.machine object) n past schedule }
{}

/// States that a starver that stays registered and does nothing keeps newcomers out: in some endless fair schedule a
/// `lock` is never answered.
pub fn a_newcomer_may_starve_beside_an_idle_starver<V: Copy>()
    ensures { (object : Fair V) → 1 ≤ object.cap → MayStarveWhere WaitsBesideIdleStarver (⟦<Fair<V> as Object>⟧.machine object) 2 (waits_or_starves object.patience) }
{}

/// States that newcomers are not free of deadlock while an idle starver is registered: in some endless fair schedule a
/// newcomer waits in a `lock`, and nobody is granted anything.
pub fn newcomers_may_deadlock_beside_an_idle_starver<V: Copy>()
    ensures { (object : Fair V) → 1 ≤ object.cap → MayDeadlockWhere WaitsBesideIdleStarver (⟦<Fair<V> as Object>⟧.machine object) 2 (waits_or_starves object.patience) }
{}

/// States that starvers are not served in order: in some endless fair schedule a waiting starver is never answered.
pub fn a_starver_may_starve<V: Copy>()
    ensures { (object : Fair V) → 2 ≤ object.cap → MayStarve (⟦<Fair<V> as Object>⟧.machine object) 2 waits_starving }
{}

/// States the same of a party that is in a `lock` and has registered: in some endless fair schedule another starver
/// goes first each time.
pub fn a_registered_lock_may_starve<V: Copy>()
    ensures { (object : Fair V) → 2 ≤ object.cap → MayStarveWhere Starves (⟦<Fair<V> as Object>⟧.machine object) 2 (waits_or_starves object.patience) }
{}

/// States that a party that has asked to upgrade is granted its upgrade in three rounds, or its exchange fails
/// spuriously. It does not matter how many readers hold beside this party.
pub fn an_upgrade_is_granted_in_three_rounds<V: Copy>()
    ensures { (object : Rw V) (n : ℕ) (past : List (ℕ × Move RwCall V)) (rounds : List (List (ℕ × Move RwCall V))) → UpgradesInThree (⟦<Rw<V> as Object>⟧.machine object) n past rounds }
{}

/// States that a party that has asked to upgrade never starves. In each endless fair schedule its upgrade is granted
/// some time later, or its exchange fails spuriously.
pub fn an_upgrade_is_never_starved<V: Copy>()
    ensures { (object : Rw V) (n : ℕ) (past : List (ℕ × Move RwCall V)) (schedule : ℕ → ℕ × Move RwCall V) → UpgradesAtLast (⟦<Rw<V> as Object>⟧.machine object) n past schedule }
{}

/// States how soon some party is granted what it asks while a party that holds nothing waits. This takes at most six
/// rounds, or some exchange fails spuriously. The number of rounds depends on the holders (`rounds_beside`). The cap
/// has to be at least 1.
///
/// The number of readers does not matter, since all readers leave within the same two rounds.
pub fn somebody_is_granted_in_the_rounds_of_the_holders<V: Copy>()
    ensures { (object : Rw V) (n : ℕ) (past : List (ℕ × Move RwCall V)) (rounds : List (List (ℕ × Move RwCall V))) → 1 ≤ object.cap → GrantsSomebody (⟦<Rw<V> as Object>⟧.machine object) n past rounds }
{}

/// States that a read-write lock is free of deadlock. In each endless fair schedule, while a party that holds nothing
/// waits, some party is granted what it asks some time later, or some exchange fails spuriously.
pub fn a_read_write_lock_is_free_of_deadlock<V: Copy>()
    ensures { (object : Rw V) (n : ℕ) (past : List (ℕ × Move RwCall V)) (schedule : ℕ → ℕ × Move RwCall V) → 1 ≤ object.cap → RwIsDeadlockFree (⟦<Rw<V> as Object>⟧.machine object) n past schedule }
{}

/// States that writers may starve a reader: in some endless fair schedule a `read` is never answered.
pub fn a_reader_may_starve<V: Copy>()
    ensures { (object : Rw V) → MayStarve (⟦<Rw<V> as Object>⟧.machine object) 2 (waits to_read) }
{}

/// States that writers may starve an `upgradeable_read`, like a `read`.
pub fn an_upgradable_reader_may_starve<V: Copy>()
    ensures { (object : Rw V) → MayStarve (⟦<Rw<V> as Object>⟧.machine object) 2 (waits to_read_upgradable) }
{}

/// States that readers may starve a writer: in some endless fair schedule a `write` is never answered.
pub fn a_writer_may_starve<V: Copy>()
    ensures { (object : Rw V) → 1 ≤ object.cap → MayStarve (⟦<Rw<V> as Object>⟧.machine object) 2 spins_to_write }
{}

/// States that in any four rounds a call with a closure is answered, or some closure fails. A closure ends by one step
/// of its party.
pub fn a_call_with_a_closure_is_answered_in_four_rounds<V: Copy>()
    ensures { (object : OnceObject V) (n : ℕ) (past : List (ℕ × Move (OnceCall V) V)) (rounds : List (List (ℕ × Move (OnceCall V) V))) → AnswersInFour (⟦<OnceObject<V> as Object>⟧.machine object) n past rounds }
{}

/// States that in each endless fair schedule a call with a closure is answered some time later, or some closure
/// fails.
pub fn a_call_with_a_closure_is_never_starved<V: Copy>()
    ensures { (object : OnceObject V) (n : ℕ) (past : List (ℕ × Move (OnceCall V) V)) (schedule : ℕ → ℕ × Move (OnceCall V) V) → AnswersAtLast (⟦<OnceObject<V> as Object>⟧.machine object) n past schedule }
{}

/// States that if there is a value, each call is answered in one round.
pub fn a_call_is_answered_in_one_round_where_there_is_a_value<V: Copy>()
    ensures { (object : OnceObject V) (n : ℕ) (past : List (ℕ × Move (OnceCall V) V)) (rounds : List (List (ℕ × Move (OnceCall V) V))) → AnswersInOne (⟦<OnceObject<V> as Object>⟧.machine object) n past rounds }
{}

/// States that while the word says that a closure runs, some party runs this closure. The party's next step ends the
/// closure.
pub fn a_running_closure_has_its_party<V: Copy>()
    ensures { (object : OnceObject V) (n : ℕ) (past : OnceSchedule V) → SomebodyRuns (⟦<OnceObject<V> as Object>⟧.machine object) n past }
{}

/// States that a call with a closure may starve while closures of others fail again and again.
pub fn a_call_with_a_closure_may_starve<V: Copy>()
    ensures { (object : OnceObject V) → V → object.value ≡ None → MayStarve (⟦<OnceObject<V> as Object>⟧.machine object) 2 initializes }
{}

/// States that a `poll` may starve while closures fail again and again.
pub fn a_poll_may_starve<V: Copy>()
    ensures { (object : OnceObject V) → object.value ≡ None → MayStarve (⟦<OnceObject<V> as Object>⟧.machine object) 2 polls }
{}

/// States that a `wait` may starve: it is possible that nobody makes a value.
pub fn a_wait_may_starve<V: Copy>()
    ensures { (object : OnceObject V) → object.value ≡ None → MayStarve (⟦<OnceObject<V> as Object>⟧.machine object) 1 waits_for_value }
{}

/// States that a party may wait at a barrier for ever, since the others of its group may never arrive. A law of
/// `spin_world` says when a party leaves a full group.
pub fn a_group_may_never_fill()
    ensures { (object : BarrierObject) → 2 ≤ object.n → MayStarve (⟦<BarrierObject as Object>⟧.machine object) 1 meets }
{}

/// States that while a party waits in an `enter`, some party is granted a seat in every four rounds. There has to be a
/// seat.
pub fn somebody_is_granted_a_seat_in_four_rounds()
    ensures { (object : Seats) (n : ℕ) (past : List (ℕ × Move SeatsCall (Unit {0}))) (rounds : List (List (ℕ × Move SeatsCall (Unit {0})))) → 1 ≤ object.seats → SeatsSomebodyInFour (⟦<Seats as Object>⟧.machine object) n past rounds }
{}

/// States that seats are free of deadlock: in each endless fair schedule, while a party waits in an `enter`, some
/// party is granted a seat some time later.
pub fn seats_are_free_of_deadlock()
    ensures { (object : Seats) (n : ℕ) (past : List (ℕ × Move SeatsCall (Unit {0}))) (schedule : ℕ → ℕ × Move SeatsCall (Unit {0})) → 1 ≤ object.seats → SeatsAreDeadlockFree (⟦<Seats as Object>⟧.machine object) n past schedule }
{}

/// States that an `enter` may starve, with any number of seats: in some endless fair schedule of two parties the call
/// is never answered.
pub fn an_enter_may_starve()
    ensures { (object : Seats) → MayStarve (⟦<Seats as Object>⟧.machine object) 2 (waits to_read) }
{}
