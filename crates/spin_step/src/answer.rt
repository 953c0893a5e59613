//! The answers of calls. Begin with [`Answer`], which every object of this project uses.
/// The answer of a call, of any object. `V` is the type of the object's value.
#[derive(Copy)]
pub enum Answer<V> {
    /// The party holds what it asked for.
    Granted,
    /// The try failed.
    Refused,
    /// The try failed: a party holds the lock, and none starves.
    Locked,
    /// The try failed: a party starves.
    Starved,
    /// The party has released what it held, or holds less.
    Done,
    /// Whether a party holds the lock or waits for it, or whether there is a value.
    Is(bool),
    /// The number of readers, of writers, or of seats taken, as the call asks.
    Count(usize),
    /// The call returns this value.
    Value(V),
    /// There is no value.
    NoValue,
    /// The party's own closure failed.
    Failed,
    /// The party's arrival filled its group.
    Leader,
    /// Another party's arrival filled the group.
    Follower,
}
