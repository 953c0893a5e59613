//! The world for its users, with six objects: the locks of a flag, of tickets, of a flag with starvers, and of readers
//! and a writer; the `Once`; and the barrier.
//!
//! Begin with [`World::new`] and [`World::run`]. Of the objects begin with [`Flag::new`] and [`FlagCall`].
#![tactic(auto)]

mod barrier;
mod fair;
mod flag;
mod once;
mod rw;
mod ticket;

pub use barrier::{
    BarrierCall, BarrierObject, BarrierPoint, BarrierWords, a_follower_leaves_a_full_group,
    every_last_of_a_group_leads,
};
pub use fair::{
    Fair, a_starver_goes_for_a_clear_flag, a_starver_with_the_flag_is_granted_next,
    a_word_is_zero_when_nobody_holds_or_starves, starvers_come_first,
};
pub use flag::{Flag, a_flag_is_clear_when_nobody_holds};
pub use once::{
    OnceObject, a_closure_begins_after_a_look, a_later_closure_may_run, a_later_get_agrees,
    a_value_is_answered_at_once, a_value_is_looked_at_where_it_is_complete, a_value_stays,
    one_closure_runs_at_a_time,
};
pub use rw::{
    Rw, a_downgrade_keeps_writers_out, a_word_is_zero_when_nobody_holds,
    an_upgrade_opens_by_releases, looks_agree_across_conversions, readers_stand_beside_no_writer,
};
pub use spin_step::{
    FlagCall, FlagPoint, OnceCall, OncePoint, TicketCall, TicketPoint, TicketWords,
};
pub use spin_step_more::rw_calls::{RwCall, RwPoint};
pub use spin_step_more::{FairCall, FairPoint};
pub use spin_world_core::{
    Answer, Event, Hold, Move, Next, Object, Outcome, Place, Seat, Stepped, Transcript, World,
    looks_find_the_last_write, looks_under_one_guard_agree, run_in_two, runs_are_one,
    two_runs_are_one,
};
pub use ticket::{
    Ticket, a_try_finds_its_number_by_two_loads, tickets_enter_by_releases, tickets_stand_in_order,
};
