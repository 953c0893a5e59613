//! One schedule in two runs, one after another. Begin with [`run_in_two`].
ghost use Rattle.std.specs.Prelude.{◌≡◌, ◌≤◌, ◌⊎◌, ◌++◌, [], length, take, drop, IfOk, OnOk, OnErr};
ghost use Rattle.spin_step.specs.Schedules.{after, events_of, with_begins};
ghost use Rattle.spin_world_core.specs.Runs.{IsReached, AfterAnyPast};
ghost use Rattle.spin_world_core.specs.Transcripts.{TellsAfterAnyPast, TellsBegins};
ghost use Rattle.spin_world_core.specs.Joined.{Promised, IsCut};

use crate::object::Object;
use crate::schedule::Transcript;
use crate::world::World;
use spin_step::Move;
use std::alloc::{AllocError, Allocator};

/// Plays a schedule in two runs: the entries before the place `at`, then the others.
///
/// Each transcript counts places from the start of its own part of the schedule. For a call that began in the first
/// part, the second transcript does not tell where the call began. After an `Err` the world is unchanged, or is in the
/// state after the first part.
///
/// # Contract
/// The place `at` has to be within the schedule. On `Ok` the state is the one after the whole schedule. The two
/// transcripts are the transcript of one run, cut at `at` (`IsCut`). All that [`World::run`] promises holds of the
/// whole schedule (`Promised`). The two transcripts joined tell what happens in the whole schedule.
///
/// # Examples
/// ```
/// use spin_world::{Flag, FlagCall, Move, World, run_in_two};
///
/// let made = World::new(rt.alloc(), Flag::new(5), 1);
/// let mut world = made.expect(&rt, "there is memory");
/// let schedule = [(0, Move::Begin(FlagCall::Lock)), (0, Move::Step), (0, Move::Write(6))];
/// let parts = run_in_two(&mut world, &schedule, 1);
/// let (first, second) = parts.expect(&rt, "there is memory");
/// assert_eq!(rt; (first.events.len(), second.events.len()), (1, 2));
/// assert_eq!(rt; world.value(), Some(6));
/// ```
pub fn run_in_two<O: Object, A: Allocator + Copy>(
    world: &mut World<O, A>,
    schedule: &[(usize, Move<O::Call, O::Value>)],
    at: usize,
) -> Result<(Transcript<O, A>, Transcript<O, A>), AllocError>
    requires { at ≤ length schedule.now }
    ensures state { OnOk result (world.new.state ≡ after (O.machine world.old.object) world.old.state schedule.now) }
    ensures object { world.new.object ≡ world.old.object }
    ensures events { let m = O.machine world.old.object in
        IfOk result (λ t. IsCut at (with_begins [] (events_of m world.old.state schedule.now)) t.0.events.items t.1.events.items) }
    ensures err { let m = O.machine world.old.object in
        OnErr result ((world.new ≡ world.old) ⊎ (world.new.state ≡ after m world.old.state (take at schedule.now))) }
    ensures reached { IsReached (O.machine world.new.object) world.new.state }

    // For any schedule that led to the old state, followed by this schedule:
    ensures promised { let m = O.machine world.old.object in
        AfterAnyPast m world.old.state schedule.now (Promised m) }
    ensures tells { let m = O.machine world.old.object in
        IfOk result (λ t. TellsAfterAnyPast m world.old.state schedule.now (t.0.events.items ++ t.1.events.items)) }

    // Each answer tells where its call began, in the transcript of the one run and in that of each part:
    ensures begins { let m = O.machine world.old.object in
        IfOk result (λ t. TellsBegins (with_begins [] (events_of m world.old.state schedule.now)) × TellsBegins t.0.events.items × TellsBegins t.1.events.items) }
{
    O::laws();
    let (front, back) = schedule.split_at(at);
    let first = world.run(front)?;
    let second = world.run(back)?;
    Ok((first, second))
}
