//! Each function here states that a wrong barrier breaks a law, in most cases on one schedule. So they show what
//! the laws keep out. Begin with [`the_first_of_a_group_follows`].
ghost use Rattle.std.specs.Prelude.{◌++◌};
ghost use Rattle.spin_step.specs.Operations.{Stepwise};
ghost use Rattle.spin_world_core.specs.Runs.{KeepsAll, MomentsAll, CountsAll};
ghost use Rattle.spin_world.specs.Groups.{InGroups, FollowersLeave};
ghost use Rattle.spin_world.specs.Barrier.{IsBarrierMachine};
ghost use Rattle.spin_world.specs.declared.barrier.BarrierCall.TheVariants.{Wait};
ghost use Rattle.spin_tests.specs.Schedules.{calls, weak};
ghost use Rattle.spin_tests.specs.WrongBarrier.{first_leads, leaves_early, nobody_leads, leads_late, told_late, leaves_in_quiet, never_begins, asks_for_a_value, leaves_by_chance, opens_with_one, gathers_three, leaves_in_the_next};

/// A barrier whose first arrival of each group leads, though it fills no group.
pub fn the_first_of_a_group_follows()
    ensures { MomentsAll first_leads 1 (calls 0 Wait 1) → ⊥ }
{}

/// A follower that leaves before its leader has arrived.
pub fn a_follower_waits_for_its_leader()
    ensures { MomentsAll leaves_early 1 (calls 0 Wait 2) → ⊥ }
{}

/// A group whose last arrival is told that it follows. This arrival fills the group, so it should lead.
pub fn the_last_of_a_group_is_no_follower()
    ensures { MomentsAll nobody_leads 2 (calls 0 Wait 1 ++ calls 1 Wait 1) → ⊥ }
{}

/// A leader that waits for the next group. A party that fills a group should get its answer at once.
pub fn a_leader_waits_for_nobody()
    ensures { CountsAll leads_late 1 (calls 0 Wait 5) → ⊥ }
{}

/// A leader that gets its answer only after a further step.
pub fn a_leader_is_told_as_it_arrives()
    ensures { InGroups told_late 1 1 (calls 0 Wait 0) → ⊥ }
{}

/// A follower that leaves only while nobody has arrived for the next group. If others keep arriving, it never leaves.
pub fn a_follower_leaves_beside_newcomers()
    ensures { FollowersLeave leaves_in_quiet 3 (calls 0 Wait 1 ++ calls 1 Wait 1 ++ calls 2 Wait 1) → ⊥ }
{}

/// A barrier at which nobody can arrive.
pub fn a_party_may_arrive()
    ensures { Stepwise never_begins → ⊥ }
{}

/// A `wait` that asks for a value.
pub fn a_wait_asks_for_its_group()
    ensures { Stepwise asks_for_a_value → ⊥ }
{}

/// A follower that may leave spuriously.
pub fn a_follower_leaves_for_a_cause()
    ensures { KeepsAll leaves_by_chance 1 (calls 0 Wait 1 ++ weak 0) → ⊥ }
{}

/// A barrier that opens with one arrival counted.
pub fn a_barrier_opens_empty()
    ensures { KeepsAll opens_with_one 1 (calls 0 Wait 0) → ⊥ }
{}

/// A barrier with groups of another size than asked for, which is right otherwise.
pub fn a_group_has_the_size_asked_for()
    ensures { IsBarrierMachine 2 gathers_three → ⊥ }
{}

/// A follower that leaves only while the next group gathers. If this follower steps too late, it waits for ever.
pub fn a_follower_leaves_after_later_groups()
    ensures { FollowersLeave leaves_in_the_next 4
        (calls 0 Wait 1 ++ calls 1 Wait 1 ++ calls 2 Wait 1 ++ calls 3 Wait 1) → ⊥ }
{}
