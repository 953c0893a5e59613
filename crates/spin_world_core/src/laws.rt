//! The laws that users of a lock rely on, each for every schedule. A law is the contract of a function that does
//! nothing. Begin with [`looks_find_the_last_write`].
ghost use Rattle.std.specs.Prelude.{◌≡◌, ◌==◌, ℕ, List, [], Some};
ghost use Rattle.std.specs.List.{filter};
ghost use Rattle.spin_step.specs.Machines.{Machine};
ghost use Rattle.spin_step.specs.declared.schedule.Move.{Move};
ghost use Rattle.spin_step.specs.Schedules.{Entry, State};
ghost use Rattle.spin_step.specs.declared.place.Hold.{Hold};
ghost use Rattle.spin_step.specs.declared.place.Seat.TheVariants.{Holding};
ghost use Rattle.spin_world_core.specs.Runs.{Seen, seat_of};
ghost use Rattle.spin_world_core.specs.Users.{FindsLastWritten, RunsJoin, ReadsAgree, seen_after};
ghost use Rattle.spin_world_core.specs.Joined.{RunsAreOne};

use crate::object::Object;

/// States that a read finds the value last written. This holds for a holder that may read, even if it has leaked, and
/// for the owner, even after leaks.
pub fn looks_find_the_last_write<O: Object>()
    ensures { (object : O) (n : ℕ) (past : List (ℕ × Move O.Call O.Value)) → FindsLastWritten (O.machine object) n past }
{
    O::laws();
}

/// States that two runs one after another have the events and the end state of one run of both schedules.
///
/// The law says nothing of where calls began: each run counts places from its own start.
pub fn two_runs_are_one<O: Object>()
    ensures { (object : O) (state : State O.Words O.Value O.Call O.Local) (first second : List (ℕ × Move O.Call O.Value)) → RunsJoin (O.machine object) state first second }
{}

/// States that runs one after another, of any schedules, end in the state of one run of all these schedules.
///
/// Their joined transcripts tell what happens in that run. But each run counts places from its own start, also the
/// places where calls began. What is promised of every schedule is promised of the joined schedule. So the promises
/// also hold for a call that begins in one run and ends in a later one.
pub fn runs_are_one<O: Object>()
    ensures { (object : O) (state : State O.Words O.Value O.Call O.Local) (runs : List (List (ℕ × Move O.Call O.Value))) → RunsAreOne (O.machine object) state runs }
{
    O::laws();
}

/// States that two reads of a party under one guard find the same value, if the party writes nothing in between.
pub fn looks_under_one_guard_agree<O: Object>()
    ensures { (object : O) (n : ℕ) (past : List (ℕ × Move O.Call O.Value)) → ReadsAgree (O.machine object) n past }
{
    O::laws();
}

/// States that a party that holds still holds after each history in which it makes no move of its own.
#[tactic(auto, using(crate::proofs::Held::stays))]
pub fn a_holder_holds_until_it_moves<W, V, C, L, A>()
    ensures { (m : Machine W V C L A) (p : ℕ) (h : Hold) (es : List (Entry C V)) (seen : Seen W V C L) → seat_of seen p ≡ Some (Holding h) → filter (λ e. e.0 == p) es ≡ [] → seat_of (seen_after m seen es) p ≡ Some (Holding h) }
{}
