//! `SeatedMutex` and `SeatedRwLock`, whose callers can compare what they did: all calls form one history, and after the
//! call `meet` two passes know the same part of it.
//!
//! Begin with [`mutex::SeatedMutex`]; [`laws`] has what follows from a history. A *pass* is the right to call
//! one lock, under a number of its own. Each call takes a pass, and contracts see the history that the pass
//! knows.
#![tactic(auto)]

pub mod history;
pub mod laws;
pub mod lock;
pub mod mutex;
pub mod rwlock;
