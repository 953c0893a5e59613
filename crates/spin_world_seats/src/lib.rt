//! `Seats` and `FairSeats`: the locks of seats, as objects of the world.
//!
//! Begin with [`Seats::new`] and [`SeatsCall`].
#![tactic(auto)]

mod explored;
mod fair;
mod laws;
mod seats;

pub use fair::FairSeats;
pub use laws::{no_more_sit_than_there_are_seats, parties_sit_in_the_order_of_their_tickets};
pub use seats::Seats;
pub use spin_fair_seats::calls::{FairSeatsCall, FairSeatsPoint, FairSeatsWords};
pub use spin_seats::calls::{SeatsCall, SeatsPoint};
