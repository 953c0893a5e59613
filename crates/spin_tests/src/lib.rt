//! Tests of what no contract says of the step functions, the raw cell, the locks, the names of `spin`, the callers, worlds,
//! texts, the explorer and both programs; and wrong tables of each object, each with a law that it breaks.
//!
//! The tests in `src` run threads, run long, or show that a caller can do what a call asks. The others are in `unproved`,
//! which `.ci/tests` runs. [`careless`] is a table whose mistakes break no law, [`dispenser`] an object of a caller's own.
#![tactic(auto)]

#[cfg(test)]
mod agreed;
#[cfg(test)]
mod barrier;
#[cfg(test)]
mod barrier_kept;
#[cfg(test)]
mod bounded;
#[cfg(test)]
mod cache;
#[cfg(test)]
pub mod careless;
#[cfg(test)]
mod channels;
#[cfg(test)]
mod comments;
#[cfg(test)]
mod counter;
pub mod dispenser;
#[cfg(test)]
mod ends;
#[cfg(test)]
mod equal;
#[cfg(test)]
mod examples;
#[cfg(test)]
mod explorer;
#[cfg(test)]
mod granted;
#[cfg(test)]
mod guide;
#[cfg(test)]
mod in_order;
#[cfg(test)]
mod ledger;
#[cfg(test)]
mod long;
#[cfg(test)]
mod mutex;
#[cfg(test)]
mod once;
#[cfg(test)]
mod parts;
#[cfg(test)]
mod phases;
#[cfg(test)]
mod program;
#[cfg(test)]
mod rwlock;
#[cfg(test)]
mod seated;
#[cfg(test)]
mod seats;
#[cfg(test)]
mod sends;
#[cfg(test)]
mod settings;
#[cfg(test)]
mod two_runs;
#[cfg(test)]
mod waiting;
#[cfg(test)]
pub mod wrong;
