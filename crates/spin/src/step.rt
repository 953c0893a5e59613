//! Every change of a lock's word, as a pure function. Begin with [`flag`].
//!
//! # Examples
//! ```
//! use spin::step::{flag, rw};
//!
//! assert_eq!(rt; flag::lock(false), Some(true));
//! assert_eq!(rt; rw::read(rw::WRITER, rw::MAX_READERS), None);
//! ```
pub use spin_step::{flag, once, ticket};
pub use spin_step_more::{barrier, fair, laws, rw};
