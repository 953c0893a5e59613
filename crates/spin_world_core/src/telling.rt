//! Where in a schedule each party's call began. Begin with [`no_begins`] and [`with_begin`], for code that plays
//! moves by [`World::act`](crate::World::act).
ghost use Rattle.std.specs.Prelude.{◌≡◌, None, IfOk, map, replicate};
ghost use Rattle.spin_step.specs.Schedules.{begin_of, with_begin, begins_after};

use spin_step::Outcome;
use std::alloc::{AllocError, Allocator};

/// Creates the table of where each party's call began. No call has begun yet.
///
/// # Contract
/// On `Ok` the table has `None` for each of the parties.
pub fn no_begins<A: Allocator>(
    alloc: A,
    parties: usize,
) -> Result<Vec<Option<usize>, A>, AllocError>
    ensures { IfOk result (λ begins. begins.items ≡ replicate parties None) }
{
    vec![in alloc; None; parties]
}

/// Sets every entry of the table to `None`.
pub fn forget_begins(begins: &mut [Option<usize>])
    ensures { begins.new ≡ map (λ b. None) begins.old }
{
    for i in 0..begins.len() {
        begins[i] = None;
    }
}

/// Returns the outcome. To an answer it adds the place where the call began. If a call begins, the table records its
/// place.
///
/// # Contract
/// An answer gets the place that the table has for the party, and any other outcome is unchanged (`with_begin`). After
/// `Begun` the table has `place` for the party, if the table has an entry for the party. Otherwise the table is
/// unchanged (`begins_after`).
pub fn with_begin<A, V>(
    begins: &mut [Option<usize>],
    party: usize,
    place: usize,
    outcome: Outcome<A, V>,
) -> Outcome<A, V>
    ensures outcome { result ≡ with_begin (begin_of begins.old party) outcome }
    ensures begins { begins.new ≡ begins_after begins.old party place outcome }
{
    match outcome {
        Outcome::Begun => {
            if party < begins.len() {
                begins[party] = Some(place);
            }
            Outcome::Begun
        }
        Outcome::Answered { answer, .. } => {
            let began = if party < begins.len() {
                begins[party]
            } else {
                None
            };
            Outcome::Answered { answer, began }
        }
        outcome => outcome,
    }
}
