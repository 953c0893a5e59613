//! The outcome of a step of a call. Begin with [`Stepped`].
use crate::place::Hold;

/// How a call goes on after a step: it continues or ends.
#[derive(Copy)]
pub enum Next<L, A> {
    /// The call continues at this point.
    Continue(L),
    /// The call ends with this answer. The second field is what the party then holds.
    Answers(A, Option<Hold>),
}

/// The outcome of one step of a call.
#[derive(Copy)]
pub struct Stepped<W, V, L, A> {
    /// The words after the step.
    pub words: W,
    /// The new value, if the step replaces the value.
    pub placed: Option<V>,
    /// How the call goes on.
    pub next: Next<L, A>,
}
