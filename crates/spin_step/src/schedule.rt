//! The moves of a schedule, and the outcome of each. Begin with [`Move`] and [`Outcome`].
/// One move of a party. A schedule is a list of parties with their moves.
#[derive(Copy)]
pub enum Move<C, V> {
    /// Begins a call. The party is idle, or holds something. The object says which calls such a party may
    /// begin.
    Begin(C),
    /// Makes the next step of the party's call.
    Step,
    /// Makes the next step of the party's call, if that step is a weak exchange. The exchange fails, whatever
    /// the word is.
    Weak,
    /// Reads the value. The party has to be a holder that may read; it may have leaked its guard.
    Read,
    /// Replaces the value. The party has to be a holder that may write; it may have leaked its guard.
    Write(V),
    /// Leaks what the party holds, such as a guard. The party has to be in no call.
    Leak,
    /// Reads the value as the object's owner. The party of the entry does not matter, but has to exist. The
    /// move is open if the object is owned, no party is in a call, and each party that holds has leaked its hold.
    /// After it every party that leaked is gone.
    OwnerGet,
    /// Replaces the value, as the owner. It is open exactly when `OwnerGet` is.
    OwnerSet(V),
}

/// The outcome of one move.
#[derive(Copy)]
pub enum Outcome<A, V> {
    /// The move was not open to the party, or the party does not exist. Nothing has changed.
    Skipped,
    /// The call has begun. It has made no step yet.
    Begun,
    /// The step does not end the call.
    GoingOn,
    /// The step ends the call with this answer.
    Answered {
        answer: A,
        /// The place of the call's `Begin` in this schedule, counted from 0. It is `None` if the call began
        /// before this schedule, or if `World::act` made the move.
        began: Option<usize>,
    },
    /// The value that a holder or the owner found, or `None` if there is none. `OwnerSet` has this outcome
    /// too if there is no value to replace.
    Value(Option<V>),
    /// The value is replaced.
    Written,
    /// The party has leaked what it held.
    Leaked,
}

/// One entry of a transcript.
#[derive(Copy)]
pub struct Event<W, V, A> {
    /// The party that moved.
    pub party: usize,
    /// The outcome of its move.
    pub outcome: Outcome<A, V>,
    /// The words after the move.
    pub words: W,
}
