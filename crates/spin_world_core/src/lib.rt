//! A world in which parties make the steps of a lock's calls one at a time, in any order.
//!
//! A schedule gives the order, and [`World::run`] plays it. Begin there, with what it promises of every schedule. To
//! add a lock, read [`Object`], which says what the lock has to show.
#![tactic(auto)]

mod laws;
mod object;
mod schedule;
pub mod stepping;
mod table;
mod telling;
mod world;

pub use laws::{
    looks_find_the_last_write, looks_under_one_guard_agree, runs_are_one, two_runs_are_one,
};
pub use object::Object;
pub use schedule::Transcript;
pub use spin_step::{Answer, Event, Hold, Move, Next, Outcome, Place, Seat, Stepped};
pub use telling::{no_begins, with_begin};
pub use world::{World, run_in_two};
