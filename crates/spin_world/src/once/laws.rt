//! Laws of a `Once`. Each law is the contract of a function that does nothing. A caller that calls this function learns
//! what the law states. Begin with [`a_value_stays`].
ghost use Rattle.std.specs.Prelude.{ℕ};
ghost use Rattle.spin_world.specs.declared.once.OnceObject.{OnceObject};
ghost use Rattle.spin_world.specs.OnceClosures.{OnceSchedule, ValueStays, OneRuns, AnswersAtOnce, GetAgrees, MayRunAgain, LooksFirst, LooksWhereComplete};

use crate::once::OnceObject;
use spin_world_core::Object;

/// States that a cell has a value exactly if its phase is complete. The cell keeps this value until its owner replaces
/// it.
pub fn a_value_stays<V: Copy>()
    ensures { (object : OnceObject V) (n : ℕ) (past further : OnceSchedule V) → ValueStays (⟦<OnceObject<V> as Object>⟧.machine object) n past further }
{}

/// States that at most one party runs a closure at a time, and none does once there is a value. The next step of a
/// party that runs a closure ends the closure.
pub fn one_closure_runs_at_a_time<V: Copy>()
    ensures { (object : OnceObject V) (n : ℕ) (past : OnceSchedule V) → OneRuns (⟦<OnceObject<V> as Object>⟧.machine object) n past }
{}

/// States that if there is a value, a call that wants a value answers with it by its next step. If there is no value
/// and no closure runs, the next step of a `poll` answers `NoValue`.
pub fn a_value_is_answered_at_once<V: Copy>()
    ensures { (object : OnceObject V) (n : ℕ) (past : OnceSchedule V) → AnswersAtOnce (⟦<OnceObject<V> as Object>⟧.machine object) n past }
{}

/// States that once a call has answered with a value, a later `get` answers with this value, unless the owner has
/// replaced it.
pub fn a_later_get_agrees<V: Copy>()
    ensures { (object : OnceObject V) (n : ℕ) (past further : OnceSchedule V) → GetAgrees (⟦<OnceObject<V> as Object>⟧.machine object) n past further }
{}

/// States that a closure that fails leaves the word at 0. While the word is 0 and no other party steps, a call with a
/// closure begins the closure by its next step or the one after that.
pub fn a_later_closure_may_run<V: Copy>()
    ensures { (object : OnceObject V) (n : ℕ) (past : OnceSchedule V) → MayRunAgain (⟦<OnceObject<V> as Object>⟧.machine object) n past }
{}

/// States that a call begins to run its closure only by the step after a look. So a call never repeats its exchange
/// without a look.
pub fn a_closure_begins_after_a_look<V: Copy>()
    ensures { (object : OnceObject V) (n : ℕ) (past : OnceSchedule V) → LooksFirst (⟦<OnceObject<V> as Object>⟧.machine object) n past }
{}

/// States that no step depends on the value unless the word says that there is one. Until then a closure may be writing
/// the value.
pub fn a_value_is_looked_at_where_it_is_complete<V: Copy>()
    ensures { (object : OnceObject V) → LooksWhereComplete (⟦<OnceObject<V> as Object>⟧.machine object) }
{}
