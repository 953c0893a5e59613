//! Laws of the read-write lock. Each law is the contract of a function that does nothing. A caller that calls this
//! function learns what the law states. Begin with [`readers_stand_beside_no_writer`].
ghost use Rattle.std.specs.Prelude.{◌≡◌, ◌↔◌, ℕ, List, []};
ghost use Rattle.spin_step.specs.declared.schedule.Move.{Move};
ghost use Rattle.spin_step.specs.Schedules.{after, at_first};
ghost use Rattle.spin_world_core.specs.Runs.{opening};
ghost use Rattle.spin_world_core.specs.Users.{seen_after, ReadsAgreeAcross};
ghost use Rattle.spin_step_more.specs.declared.rw_calls.RwCall.{RwCall};
ghost use Rattle.spin_world.specs.declared.rw.Rw.{Rw};
ghost use Rattle.spin_world.specs.Standing.{StandTogether, Downgrades, OpensForAll, converts};

use crate::rw::Rw;
use spin_world_core::Object;

/// States that a writer holds the lock alone. At most one holder may upgrade, whether or not this holder has asked to.
/// No more parties hold the lock than its cap allows. The word is the sum of the holders' weights.
pub fn readers_stand_beside_no_writer<V: Copy>()
    ensures { (object : Rw V) (n : ℕ) (past : List (ℕ × Move RwCall V)) → let m = ⟦<Rw<V> as Object>⟧.machine object in StandTogether object.cap (after m (at_first m n) past).words (seen_after m (opening m n) past).plain }
{}

/// States that the word is zero exactly if no party holds the lock.
pub fn a_word_is_zero_when_nobody_holds<V: Copy>()
    ensures { (object : Rw V) (n : ℕ) (past : List (ℕ × Move RwCall V)) → let m = ⟦<Rw<V> as Object>⟧.machine object in ((after m (at_first m n) past).words ≡ 0) ↔ ((seen_after m (opening m n) past).plain.holders ≡ []) }
{}

/// States that a downgrade is one step. Before it and after it no other party may become the writer, and there is no
/// state in between.
pub fn a_downgrade_keeps_writers_out<V: Copy>()
    ensures { (object : Rw V) (n : ℕ) (past : List (ℕ × Move RwCall V)) → Downgrades (⟦<Rw<V> as Object>⟧.machine object) n past }
{}

/// States that no reader joins while a party asks to upgrade. The upgrade is open exactly if all readers that held
/// beside this party have released. The upgrade's next step succeeds exactly then.
pub fn an_upgrade_opens_by_releases<V: Copy>()
    ensures { (object : Rw V) (n : ℕ) (past further : List (ℕ × Move RwCall V)) → OpensForAll (⟦<Rw<V> as Object>⟧.machine object) n past further }
{}

/// States that two reads of a party find the same value, if in between the party wrote nothing and only converted its
/// guard.
pub fn looks_agree_across_conversions<V: Copy>()
    ensures { (object : Rw V) (n : ℕ) (past : List (ℕ × Move RwCall V)) → ReadsAgreeAcross converts (⟦<Rw<V> as Object>⟧.machine object) n past }
{}
