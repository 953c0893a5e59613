//! `RwLock`.
mod threads;
mod values;
