//! The step function of fair seats that a ticket lock has not: whose turn it is.
ghost use Rattle.std.specs.Prelude.{◌≡◌};
ghost use Rattle.spin_fair_seats.specs.FairSeats.{may_sit};

/// The most seats of a lock. A lock that is made for more has this many.
pub const MAX_SEATS: usize = usize::MAX / 8;

/// Returns `true` if the thread with `ticket` may sit on one of `room` seats, once `given` seats were given back.
pub fn may_sit(given: u64, ticket: u64, room: usize) -> bool
    ensures exact { result ≡ may_sit room ticket given }
{
    ticket.saturating_sub(given) < room.min(MAX_SEATS) as u64
}
