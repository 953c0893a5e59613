//! Programs of the guide that have no test. Each one is a whole `lib.rt`.
pub mod calls;
pub mod pool;
pub mod setting;
pub mod table;
pub mod transfer;
pub mod version;
