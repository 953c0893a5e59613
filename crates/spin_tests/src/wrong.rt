//! Wrong objects, each with a law that the object breaks. Begin with [`flag`].
pub mod barrier;
pub mod dispenser;
pub mod fair;
pub mod flag;
pub mod once;
pub mod progress;
pub mod rw;
pub mod seats;
pub mod ticket;
