//! Callers of the locks: the examples that the pages print, and larger ones that make promises of their own, a ledger, a
//! cache, rounds of workers, settings, a relay.
//!
//! Begin with [`from_rust`].
#![tactic(auto)]

pub mod accounts;
pub mod adding;
pub mod after;
pub mod agreed;
pub mod any_lock;
pub mod batch;
pub mod behind;
pub mod beside;
pub mod cache;
pub mod conditions;
pub mod ending;
pub mod forever;
pub mod from_rust;
pub mod guide;
pub mod in_order;
pub mod job_queue;
pub mod ledger;
pub mod meeting;
pub mod paired;
pub mod parties;
pub mod parts;
pub mod passes;
pub mod passes_fair;
pub mod passes_lazy;
pub mod passes_once;
pub mod passes_rw;
pub mod passes_ticket;
pub mod phases;
pub mod planned;
pub mod preorder;
pub mod publishing;
pub mod registers;
pub mod relay;
pub mod settings;
pub mod three_locks;
pub mod totals;
pub mod two_locks;
pub mod versions;
pub mod written_rw;
