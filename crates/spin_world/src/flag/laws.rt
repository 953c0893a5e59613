//! Laws of the flag. Each law is the contract of a function that does nothing. A caller that calls this function learns
//! what the law states.
ghost use Rattle.std.specs.Prelude.{◌≡◌, ◌↔◌, ℕ, List, [], false};
ghost use Rattle.spin_step.specs.declared.schedule.Move.{Move};
ghost use Rattle.spin_step.specs.Schedules.{after, at_first};
ghost use Rattle.spin_world_core.specs.Runs.{opening};
ghost use Rattle.spin_world_core.specs.Users.{seen_after};
ghost use Rattle.spin_step.specs.declared.flag_calls.FlagCall.{FlagCall};
ghost use Rattle.spin_world.specs.declared.flag.Flag.{Flag};
ghost use Rattle.spin_world.specs.Flag.{IsFlagMachine};

use crate::flag::Flag;
use spin_world_core::Object;

/// States that the flag is clear exactly if no party holds the lock.
pub fn a_flag_is_clear_when_nobody_holds<V: Copy>()
    ensures { (object : Flag V) (n : ℕ) (past : List (ℕ × Move FlagCall V)) → let m = ⟦<Flag<V> as Object>⟧.machine object in ((after m (at_first m n) past).words ≡ false) ↔ ((seen_after m (opening m n) past).plain.holders ≡ []) }
{}

/// States that each flag is what its name says (`IsFlagMachine`), even one in a world that the caller did not make.
pub fn a_flag_is_what_its_name_says<V: Copy>()
    ensures { (object : Flag V) → IsFlagMachine object.value (⟦<Flag<V> as Object>⟧.machine object) }
{}
