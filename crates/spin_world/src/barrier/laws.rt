//! Laws of the barrier. Each law is the contract of a function that does nothing. A caller that calls this function
//! learns what the law states. Begin with [`every_last_of_a_group_leads`].
ghost use Rattle.std.specs.Prelude.{ℕ, List};
ghost use Rattle.spin_world.specs.declared.barrier.BarrierObject.{BarrierObject};
ghost use Rattle.spin_world.specs.Groups.{BarrierSchedule, InGroups, FollowersLeave};

use crate::barrier::BarrierObject;
use spin_world_core::Object;

/// States that exactly the last arrival of each group leads, and is told so when it arrives. The words count the
/// arrivals in the present group of `n`, and the full groups modulo 2^64.
pub fn every_last_of_a_group_leads()
    ensures { (object : BarrierObject) (parties : ℕ) (past : BarrierSchedule) → InGroups (⟦<BarrierObject as Object>⟧.machine object) object.n parties past }
{}

/// States when a follower leaves by its next step: exactly if the number of groups that have filled up since its
/// arrival is no multiple of 2^64.
///
/// So a follower leaves by its first step after its group is full, unless this number is then a multiple of 2^64.
pub fn a_follower_leaves_a_full_group()
    ensures { (object : BarrierObject) (parties : ℕ) (past : BarrierSchedule) → FollowersLeave (⟦<BarrierObject as Object>⟧.machine object) parties past }
{}
