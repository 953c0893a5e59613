//! A call that a worker makes before its first step. Begin with [`Gate`].
use std::sync::Wait;

/// A gate. Each worker of a team calls it before its first step, as in `count_with` of `spin_run`.
///
/// The caller provides a gate to prepare its threads: to hold them until all are there, to name them, or to
/// note which of them came. [`Open`] does nothing.
pub trait Gate {
    /// Lets the worker pass. The call may wait.
    ///
    /// # Contract
    /// Nothing is promised, not even that the call returns.
    fn before<R: Wait>(&self, rt: &R, worker: usize);
}

/// A gate that lets every worker pass at once.
#[derive(Clone, Copy)]
pub struct Open;

impl Gate for Open {
    fn before<R: Wait>(&self, rt: &R, worker: usize) {
        let _ = rt;
        let _ = worker;
    }
}
