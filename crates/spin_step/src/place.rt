//! The place of a party, and what it holds. Begin with [`Place`].
/// What a party holds.
#[derive(Clone, Copy)]
pub enum Hold {
    /// Shared access. The party may read the value.
    Read,
    /// Shared access that may become exclusive. The party may read the value.
    Upgradable,
    /// Exclusive access. The party may read and write the value.
    Write,
    /// A ticket with this number, which has entered. The party may read and write the value.
    Ticket(u64),
    /// A registration as a starver. The party may neither read nor write the value.
    Starver,
}

/// The place of a party, as `World::place` returns it.
#[derive(Clone, Copy)]
pub enum Place {
    /// The party holds nothing, and is in no call.
    Idle,
    /// The party has begun a call that has no answer yet.
    InCall,
    /// The party holds this, and is in no call.
    Holding(Hold),
    /// The party leaked what it held. It still holds this, and makes no further call.
    Leaked(Hold),
    /// The party leaked what it held, and later the owner used the value. The party no longer uses the value.
    Gone,
}

/// The place of a party, with all that the world keeps of it. Contracts use this type; a program uses
/// [`Place`].
#[derive(Copy)]
pub enum Seat<C, L> {
    Idle,
    /// The party is in this call, at this point. The third field is what it held when the call began.
    Calling(C, L, Option<Hold>),
    Holding(Hold),
    Leaked(Hold),
    /// The party is gone. The words still count what it leaked.
    Gone(Hold),
}
