//! The mutexes. Each has to pass the same tests.
pub mod fair;
mod patience;
pub mod threads;
mod ticket;
mod values;
