//! The mutexes. Begin at [`Mutex`].
//!
//! # Examples
//! ```
//! use spin::mutex::{FairMutex, SpinMutex, TicketMutex};
//!
//! let (quick, in_turn): (SpinMutex<u64>, TicketMutex<u64>) = (SpinMutex::new(1), TicketMutex::new(2));
//! let fair: FairMutex<u64> = FairMutex::new(3);
//! assert_eq!(rt; (*quick.lock(&rt), *in_turn.lock(&rt), *fair.lock(&rt)), (1, 2, 3));
//! ```
pub use spin_fair::fair;
pub use spin_fair::fair::{FairMutex, FairMutexGuard, Starvation};
pub use spin_flag::spin;
pub use spin_flag::spin::{SpinMutex, SpinMutexGuard};
pub use spin_mutex::laws::{
    the_parties_of_a_ticket_mutex_enter_in_turn, the_words_of_a_ticket_mutex_are_its_queue,
};
pub use spin_mutex::mutex::{Held, Mutex, MutexGuard};
pub use spin_mutex::ticket;
pub use spin_mutex::ticket::{TicketMutex, TicketMutexGuard};
