//! Laws of the fair lock. Each law is the contract of a function that does nothing. A caller that calls this function
//! learns what the law states. Begin with [`starvers_come_first`].
ghost use Rattle.std.specs.Prelude.{◌≡◌, ◌↔◌, ℕ, List, []};
ghost use Rattle.spin_step.specs.declared.schedule.Move.{Move};
ghost use Rattle.spin_step.specs.Schedules.{after, at_first};
ghost use Rattle.spin_world_core.specs.Runs.{opening};
ghost use Rattle.spin_world_core.specs.Users.{seen_after};
ghost use Rattle.spin_step_more.specs.declared.fair_calls.FairCall.{FairCall};
ghost use Rattle.spin_world.specs.declared.fair.Fair.{Fair};
ghost use Rattle.spin_world.specs.Fairness.{IsFree, ComesAfterStarvers, IsGrantedNext, GoesForAClearFlag};

use crate::fair::Fair;
use spin_world_core::Object;

/// States that the word is zero exactly if no party holds the lock and none is registered as a starver.
pub fn a_word_is_zero_when_nobody_holds_or_starves<V: Copy>()
    ensures { (object : Fair V) (n : ℕ) (past : List (ℕ × Move FairCall V)) → let m = ⟦<Fair<V> as Object>⟧.machine object in ((after m (at_first m n) past).words ≡ 0) ↔ IsFree (seen_after m (opening m n) past).plain }
{}

/// States that a newcomer acquires the lock only while no party is registered as a starver.
///
/// A newcomer is a party that neither holds the lock nor is registered before its move.
pub fn starvers_come_first<V: Copy>()
    ensures { (object : Fair V) (n : ℕ) (past : List (ℕ × Move FairCall V)) (party : ℕ) (move : Move FairCall V) → ComesAfterStarvers (⟦<Fair<V> as Object>⟧.machine object) n past party move }
{}

/// States that a starver that has set the flag is granted the lock by its next step, whatever other parties do. So such
/// a starver waits for its answer only while it does not step.
pub fn a_starver_with_the_flag_is_granted_next<V: Copy>()
    ensures { (object : Fair V) (n : ℕ) (past : List (ℕ × Move FairCall V)) → IsGrantedNext (⟦<Fair<V> as Object>⟧.machine object) n past }
{}

/// States that a waiting starver goes for a clear flag. If the starver steps while no party holds the lock, this step
/// sets the flag, or the starver's next step does if the flag is clear then. So other parties that register and leave
/// cannot keep the starver from the lock.
pub fn a_starver_goes_for_a_clear_flag<V: Copy>()
    ensures { (object : Fair V) (n : ℕ) (past : List (ℕ × Move FairCall V)) → GoesForAClearFlag (⟦<Fair<V> as Object>⟧.machine object) n past }
{}
