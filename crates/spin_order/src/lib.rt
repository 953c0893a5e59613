//! Several locks without deadlock: each lock has a rank, and a thread waits only for a lock that ranks above all that it
//! holds. Begin with [`Order`] and [`Ranked`].
#![tactic(auto)]

mod once;
mod order;
mod ranked;
mod reserved;
mod threads;

pub use order::{Idle, Order};
pub use ranked::{Level, Rank, Ranked};
pub use reserved::Reserved;
pub use threads::join;
