//! Laws of the model: how soon a waiting call is answered in a schedule, and what schedules say of locks on threads.
//!
//! A waiting call is answered in so many rounds, as in [`a_ticket_is_granted_in_rounds`], or may starve, as in
//! [`a_lock_of_a_flag_may_starve`].
//!
//! Each lock but a `Barrier` and the seated locks has a cell that keeps a list of all moves that threads have made in
//! the cell. This list is a schedule of the lock's model. So what is promised of every schedule holds between any two
//! steps of running threads. Begin with [`between_any_two_steps_of_a_spin_mutex`], which cites the definition `Between`
//! of specs/Between.antt.
//!
//! Some answers to a pass were right at some moment of the call, such as a failed try: see
//! [`a_refused_try_found_the_spin_mutex_held`]. A call of a pass keeps the limit of steps that it has in the model: see
//! [`a_call_of_a_ticket_mutex_keeps_its_limit`]. A `Once` and a `LazyLock` have no law about limits.
//!
//! A look of a pass is true while another party holds the lock: see [`a_look_beside_a_guard_of_a_spin_mutex_is_true`].
//!
//! No exchange of a thread fails spuriously, as one may in the model. So the laws of progress need no alternative: see
//! [`some_thread_acquires_a_spin_mutex_in_four_rounds`].
#![tactic(auto)]

mod answers;
mod beside;
mod laws;
mod limits;
mod order;
mod progress;
mod rounds;
pub mod uses;

pub use answers::{
    a_call_without_a_value_found_none_at_a_moment, a_count_of_a_rwlock_was_so_at_a_moment,
    a_count_of_seats_was_so_at_a_moment, a_look_at_a_fair_mutex_was_so_at_a_moment,
    a_look_at_a_once_was_so_at_a_moment, a_look_at_a_rwlock_was_so_at_a_moment,
    a_look_at_a_spin_mutex_was_so_at_a_moment, a_look_at_a_ticket_mutex_was_so_at_a_moment,
    a_refused_starve_found_as_many_as_may_starve, a_refused_starver_was_kept_out_at_a_moment,
    a_refused_try_found_all_seats_taken, a_refused_try_found_the_fair_mutex_held_or_starved,
    a_refused_try_found_the_spin_mutex_held, a_refused_try_found_the_ticket_mutex_held_or_used_up,
    a_refused_try_read_was_kept_out_at_a_moment, a_refused_try_upgrade_was_kept_out_at_a_moment,
    a_refused_try_upgradeable_read_was_kept_out_at_a_moment,
    a_refused_try_write_was_kept_out_at_a_moment, the_reason_for_a_refusal_was_so_at_a_moment,
    there_was_a_value_as_a_once_gave_it,
};
pub use beside::{
    a_look_beside_a_guard_of_a_fair_mutex_is_true, a_look_beside_a_guard_of_a_rwlock_is_true,
    a_look_beside_a_guard_of_a_spin_mutex_is_true, a_look_beside_a_guard_of_a_ticket_mutex_is_true,
    a_pass_of_a_rwlock_that_calls_after_another_is_another_party,
    a_writer_of_a_rwlock_comes_after_the_readers_before_it,
};
pub use laws::{
    between_any_two_steps_of_a_fair_mutex, between_any_two_steps_of_a_once,
    between_any_two_steps_of_a_rwlock, between_any_two_steps_of_a_spin_mutex,
    between_any_two_steps_of_a_ticket_mutex, between_any_two_steps_of_seats,
    no_newcomer_acquires_a_fair_mutex_beside_a_starver,
};
pub use limits::{
    a_call_of_a_fair_mutex_keeps_its_limit, a_call_of_a_rwlock_keeps_its_limit,
    a_call_of_a_spin_mutex_keeps_its_limit, a_call_of_a_ticket_mutex_keeps_its_limit,
    a_call_of_seats_keeps_its_limit, a_lock_of_a_ticket_mutex_enters_in_turn,
    a_lock_of_a_ticket_mutex_has_its_ticket_in_time, an_upgrade_of_a_rwlock_asks_by_its_first_step,
};
pub use order::{
    a_fair_lock_keeps_out_by_what_is_asked, a_flag_keeps_out_by_what_is_asked,
    a_once_keeps_out_by_what_is_asked, a_read_write_lock_keeps_out_by_what_is_asked,
    a_text_in_order_is_never_stuck, a_ticket_lock_keeps_out_by_what_is_asked,
    locks_in_order_are_free_of_deadlock, seats_keep_out_by_what_is_asked, some_party_goes_on,
    some_party_goes_on_beside_joins, waits_have_no_cycle,
};
pub use progress::{
    an_upgrade_of_a_rwlock_is_granted_in_three_rounds,
    some_thread_acquires_a_rwlock_in_the_rounds_of_the_holders,
    some_thread_acquires_a_spin_mutex_in_four_rounds,
};
pub use rounds::{
    a_call_is_answered_in_one_round_where_there_is_a_value,
    a_call_that_nobody_keeps_out_is_answered_alone,
    a_call_with_a_closure_is_answered_in_four_rounds, a_call_with_a_closure_is_never_starved,
    a_call_with_a_closure_may_starve, a_flag_is_free_of_deadlock, a_group_may_never_fill,
    a_lock_is_granted_in_rounds, a_lock_may_be_passed_over, a_lock_of_a_flag_may_starve,
    a_lock_without_a_ticket_may_starve, a_newcomer_may_starve_beside_an_idle_starver,
    a_poll_may_starve, a_read_write_lock_is_free_of_deadlock, a_reader_may_starve,
    a_registered_lock_may_starve, a_running_closure_has_its_party, a_starver_may_starve,
    a_ticket_is_granted_in_rounds, a_ticket_is_never_starved, a_wait_may_starve,
    a_writer_may_starve, an_enter_may_starve, an_open_call_is_answered_or_disturbed,
    an_upgradable_reader_may_starve, an_upgrade_is_granted_in_three_rounds,
    an_upgrade_is_never_starved, newcomers_may_deadlock_beside_an_idle_starver,
    seats_are_free_of_deadlock, somebody_is_granted_a_seat_in_four_rounds,
    somebody_is_granted_beside_a_starver_in_five_rounds, somebody_is_granted_in_four_rounds,
    somebody_is_granted_in_the_rounds_of_the_holders, starvers_are_free_of_deadlock,
};
