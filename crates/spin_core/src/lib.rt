//! What all locks use: the raw cell (`cell`), which alone makes raw atomic steps on words; the trace of these steps
//! (`trace`, `tie`); how a caller waits (`relax`); what the guards of all mutexes share (`guard`, `texts`); what
//! callers know of the values (`laws`); and traits for code that takes any lock (`lock`).
//!
//! Users of the locks begin with [`relax::RelaxStrategy`] and [`lock::Lock`], authors of a lock with [`cell::Cell`].
#![tactic(auto)]

pub mod cell;
pub mod guard;
pub mod laws;
pub mod lock;
pub mod relax;
pub mod texts;
pub mod tie;
pub mod trace;

pub use spin_step as step;
