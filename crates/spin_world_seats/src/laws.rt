//! Laws of the locks of seats. Each law is the contract of a function that does nothing. A caller that calls this
//! function learns what the law states.
ghost use Rattle.std.specs.Prelude.{◌≡◌, ◌≤◌, ◌<◌, ◌==◌, ℕ, List, ◌∷◌, [], filter, length, true, false};
ghost use Rattle.spin_step.specs.Plain.{to_sit, gets, is_open, ticket};
ghost use Rattle.spin_step.specs.declared.schedule.Move.{Move};
ghost use Rattle.spin_step.specs.Schedules.{after, at_first};
ghost use Rattle.spin_world_core.specs.Runs.{opening};
ghost use Rattle.spin_world_core.specs.Users.{seen_after};
ghost use Rattle.spin_seats.specs.declared.calls.SeatsCall.{SeatsCall};
ghost use Rattle.spin_fair_seats.specs.declared.calls.FairSeatsCall.{FairSeatsCall};
ghost use Rattle.spin_world_seats.specs.declared.fair.FairSeats.{FairSeats};
ghost use Rattle.spin_world_seats.specs.declared.seats.Seats.{Seats};

use crate::fair::FairSeats;
use crate::seats::Seats;
use spin_world_core::Object;

/// States that the word is the number of parties that have a seat. This number is at most the one given to
/// `Seats::new`.
pub fn no_more_sit_than_there_are_seats()
    ensures { (object : Seats) (n : ℕ) (past : List (ℕ × Move SeatsCall (Unit {0}))) → let m = ⟦<Seats as Object>⟧.machine object in let word = (after m (at_first m n) past).words in (word ≡ length (seen_after m (opening m n) past).plain.holders) × (word ≤ object.seats) }
{}

/// States that parties sit on fair seats in the order of their tickets: if a party may sit with its ticket, so may each
/// party with an earlier ticket.
pub fn parties_sit_in_the_order_of_their_tickets()
    ensures { (object : FairSeats) (n : ℕ) (past : List (ℕ × Move FairSeatsCall (Unit {0}))) → let m = ⟦<FairSeats as Object>⟧.machine object in let s = (seen_after m (opening m n) past).plain in (p q t u : ℕ)
        → filter (λ x. x.party == p) s.tickets ≡ ticket p t false ∷ [] → filter (λ x. x.party == q) s.tickets ≡ ticket q u false ∷ [] → t < u
        → is_open s (gets q to_sit) ≡ true → is_open s (gets p to_sit) ≡ true }
{}
