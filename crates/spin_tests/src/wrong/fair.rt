//! Each function here states that a wrong fair lock breaks a law, in most cases on one schedule. So they show what
//! the laws keep out. Begin with [`a_newcomer_yields_to_starvers`].
ghost use Rattle.std.specs.Prelude.{◌++◌, ◌≡◌, []};
ghost use Rattle.spin_step.specs.Operations.{Stepwise};
ghost use Rattle.spin_world_core.specs.Runs.{KeepsAll, MomentsAll, CountsAll};
ghost use Rattle.spin_step_more.specs.FairCalls.{fair_machine};
ghost use Rattle.spin_world.specs.Fairness.{IsGrantedNext, GoesForAClearFlag};
ghost use Rattle.spin_world.specs.Fair.{IsFairMachine};
ghost use Rattle.spin_step_more.specs.declared.fair_calls.FairCall.TheVariants.{Lock, Release, Starve, StarverDrop, StarverLock, StarverTryLock, TryLock, TryLockStarver};
ghost use Rattle.spin_tests.specs.Schedules.{calls, steps, weak};
ghost use Rattle.spin_tests.specs.WrongFair.{wrong, spins_by_setting, waits_for_starvers, refuses_late, tries_greedily, stays_a_starver, starves_without_cap, never_registers, lock_beside_a_holder, returns_to_its_exchange, registers_at_once, drop_frees, tells_the_other_reason, waits_for_ever, waits_for_quiet, never_looks, loads_uncounted, counts_each_second_look, keeps_the_flag, leaves_by_exchange, sets_by_chance, starves_again, tries_alone, opens_with_a_starver, counts_anew, counts_anew_at_the_cap, waits_at_the_cap, sets_the_flag_alone, looks_once_it_starves, starves_in_one};

/// A `try_lock` that sets the flag whenever the flag is clear. While a party starves, this plain step is not open.
pub fn a_newcomer_yields_to_starvers<V: Copy>()
    ensures { (value : V) → KeepsAll (wrong value tries_greedily) 2 (calls 0 Starve 2 ++ calls 1 TryLock 1) → ⊥ }
{}

/// A `starver_try_lock` that leaves its party a starver. When this call succeeds, it has made too few plain steps.
pub fn a_granted_starver_leaves_the_starvers<V: Copy>()
    ensures { (value : V) → KeepsAll (wrong value stays_a_starver) 1 (calls 0 Starve 2 ++ calls 0 StarverTryLock 1) → ⊥ }
{}

/// A `starve` that ignores the cap. Once the cap is reached, its plain step is not open.
pub fn starvers_stay_within_the_cap<V: Copy>()
    ensures { (value : V) → KeepsAll (wrong value starves_without_cap) 2 (calls 0 Starve 2 ++ calls 1 Starve 2) → ⊥ }
{}

/// A `lock` that never registers. If nobody else changes the word, two steps after a look past the patience the party
/// has to be a starver, or to have found the cap reached.
pub fn a_lock_in_vain_registers<V: Copy>()
    ensures { (value : V) → CountsAll (wrong value never_registers) 2 lock_beside_a_holder → ⊥ }
{}

/// A `lock` that returns to its exchange when it should register. It acquires the lock as a newcomer.
pub fn a_lock_past_its_patience_is_no_newcomer<V: Copy>()
    // The lock is released between the second look and the exchange.
    ensures { (value : V) → CountsAll (wrong value returns_to_its_exchange) 2
        (calls 0 TryLock 1 ++ calls 1 Lock 3 ++ calls 0 Release 1 ++ steps 1 1) → ⊥ }
{}

/// A `lock` that registers before its looks.
pub fn a_lock_looks_before_it_registers<V: Copy>()
    // An exchange, a load, and the exchange that registers.
    ensures { (value : V) → CountsAll (wrong value registers_at_once) 2 (calls 0 TryLock 1 ++ calls 1 Lock 3) → ⊥ }
{}

/// A `starver_drop` that clears the flag. Then the word is not that of the plain lock.
pub fn a_dropped_starver_leaves_the_flag<V: Copy>()
    ensures { (value : V) → KeepsAll (wrong value drop_frees) 2
        (calls 0 TryLock 1 ++ calls 1 Starve 2 ++ calls 1 StarverDrop 1) → ⊥ }
{}

/// A `try_lock_starver` that tells the other reason, though nobody starves at any moment.
pub fn a_refusal_tells_its_reason<V: Copy>()
    ensures { (value : V) → MomentsAll (wrong value tells_the_other_reason) 2
        (calls 0 TryLock 1 ++ calls 1 TryLockStarver 1) → ⊥ }
{}

/// A `starver_lock` that never tries again. If the flag is clear and nobody disturbs this call, it has to be answered
/// within four steps.
pub fn a_starver_tries_again<V: Copy>()
    // The flag is set when the starver tries, is cleared afterwards, and then the starver looks four times.
    ensures { (value : V) → CountsAll (wrong value waits_for_ever) 2
        (calls 0 TryLock 1 ++ calls 1 Starve 2 ++ calls 1 StarverLock 1 ++ calls 0 Release 1 ++ steps 1 4) → ⊥ }
{}

/// A `lock` that repeats its exchange without a look, and so never registers.
pub fn a_lock_looks_between_its_exchanges<V: Copy>()
    ensures { (value : V) → CountsAll (wrong value never_looks) 2 lock_beside_a_holder → ⊥ }
{}

/// A `lock` that waits by loads that it does not count, and so never registers.
pub fn a_lock_waits_by_looks<V: Copy>()
    ensures { (value : V) → CountsAll (wrong value loads_uncounted) 2 lock_beside_a_holder → ⊥ }
{}

/// A `lock` that counts only each second look, and so registers too late. While the call finds the lock held, each of
/// its steps has to be a look that counts.
pub fn a_lock_counts_each_look<V: Copy>()
    ensures { (value : V) → CountsAll (wrong value counts_each_second_look) 2 lock_beside_a_holder → ⊥ }
{}

/// A `starver_lock` that has set the flag and waits while another party starves. If nobody disturbs this call, it has
/// to be answered within four steps.
pub fn a_starver_that_holds_is_answered<V: Copy>()
    // A starver sets the flag beside another starver, and then makes four more steps.
    ensures { (value : V) → CountsAll (wrong value keeps_the_flag) 2
        (calls 1 Starve 2 ++ calls 0 Starve 2 ++ calls 0 StarverLock 5) → ⊥ }
{}

/// A `starver_lock` that, once it has set the flag, stops starving by an exchange. It repeats this exchange while
/// others register and leave, though its next step has to grant the lock.
pub fn a_starver_leaves_in_one_step<V: Copy>()
    ensures { (value : V) → IsGrantedNext (wrong value leaves_by_exchange) 1 (calls 0 Starve 2 ++ calls 0 StarverLock 1) → ⊥ }
{}

/// A `starver_lock` that waits until others stop registering and leaving, though the flag is clear.
pub fn a_starver_waits_for_the_flag_alone<V: Copy>()
    // The flag is set when the starver tries, and is cleared afterwards.
    ensures { (value : V) → GoesForAClearFlag (wrong value waits_for_quiet) 2
        (calls 0 TryLock 1 ++ calls 1 Starve 2 ++ calls 1 StarverLock 1 ++ calls 0 Release 1) → ⊥ }
{}

/// A starver that sets the flag by a weak exchange. No call of a starver may fail spuriously.
pub fn a_starver_sets_the_flag_by_a_strong_exchange<V: Copy>()
    ensures { (value : V) → KeepsAll (wrong value sets_by_chance) 1
        (calls 0 Starve 2 ++ calls 0 StarverLock 0 ++ weak 0) → ⊥ }
{}

/// A `starve` that can begin though its party starves, and so registers this party twice.
pub fn a_starver_may_not_starve_again<V: Copy>()
    ensures { (value : V) → Stepwise (wrong value starves_again) → ⊥ }
{}

/// A `starver_try_lock` that asks to lock as the only starver, and one that is refused beside another starver. It should
/// also succeed beside other starvers.
pub fn a_starver_tries_beside_others<V: Copy>()
    ensures asks { (value : V) → IsFairMachine value 2 1 (wrong value tries_alone) → ⊥ }
    ensures steps { (value : V) → MomentsAll (wrong value sets_the_flag_alone) 2
        (calls 0 Starve 2 ++ calls 1 Starve 2 ++ calls 0 StarverTryLock 1) → ⊥ }
{}

/// A fair lock that admits one starver, though two were asked for.
pub fn as_many_may_starve_as_the_cap_says<V: Copy>()
    ensures { (value : V) → IsFairMachine value 2 1 (fair_machine value 1 1) → ⊥ }
{}

/// A fair lock whose word says at first that a starver is registered, though no party is a starver.
pub fn a_fair_lock_opens_without_starvers<V: Copy>()
    ensures { (value : V) → KeepsAll (wrong value opens_with_a_starver) 1 [] → ⊥ }
{}

/// A `lock` that finds the flag clear while a party starves, and looks again. If nobody holds or starves then, the step
/// after such a look has to acquire the lock.
pub fn a_lock_exchanges_where_it_finds_the_flag_clear<V: Copy>()
    // `lock` finds the flag clear while another party starves, and that party then stops starving.
    ensures { (value : V) → CountsAll (wrong value waits_for_starvers) 3
        (calls 0 TryLock 1 ++ calls 1 Starve 2 ++ calls 2 Lock 1 ++ calls 0 Release 1 ++ steps 2 1
        ++ calls 1 StarverDrop 1 ++ steps 2 1) → ⊥ }
{}

/// A `starver_try_lock` that finds the flag set, loads the word once more, and is refused even if the flag is then
/// clear.
pub fn a_starver_is_refused_where_it_finds_the_flag_set<V: Copy>()
    ensures { (value : V) → CountsAll (wrong value refuses_late) 2
        (calls 0 TryLock 1 ++ calls 1 Starve 2 ++ calls 1 StarverTryLock 1) → ⊥ }
{}

/// A starver that waits by trying to set the flag again and again, without a look.
pub fn a_starver_looks_until_the_flag_is_clear<V: Copy>()
    ensures { (value : V) → CountsAll (wrong value spins_by_setting) 2
        (calls 0 TryLock 1 ++ calls 1 Starve 2 ++ calls 1 StarverLock 2) → ⊥ }
{}

/// A `lock` that starts to count its looks anew when it has found the flag clear, and one that does so when it has found
/// the cap reached. If nobody else changes the word, two steps after a look past the patience the party has to be a
/// starver, or to have found the cap reached.
pub fn a_count_of_looks_is_kept<V: Copy>()
    // A look finds the flag set, and the next look finds the flag clear; another party wins the exchange; then come
    // three more looks.
    ensures clear { (value : V) → CountsAll (wrong value counts_anew) 2
        (calls 0 TryLock 1 ++ calls 1 Lock 2 ++ calls 0 Release 1 ++ steps 1 1 ++ calls 0 TryLock 1 ++ steps 1 4) → ⊥ }
    // One party holds, and another one starves; the `lock` of a third party makes an exchange, four looks, and a
    // load; the starver stops starving, and then come three more looks.
    ensures cap { (value : V) → CountsAll (wrong value counts_anew_at_the_cap) 3
        (calls 0 TryLock 1 ++ calls 1 Starve 2 ++ calls 2 Lock 6 ++ calls 1 StarverDrop 1 ++ steps 2 3) → ⊥ }
{}

/// A `starve` that finds the cap reached and loads the word again. Then it has to be refused.
pub fn a_starve_is_refused_at_the_cap<V: Copy>()
    ensures { (value : V) → CountsAll (wrong value waits_at_the_cap) 2 (calls 0 Starve 2 ++ calls 1 Starve 1) → ⊥ }
{}

/// A `lock` that looks when it has registered. If the flag is then clear, its next step has to set the flag.
pub fn a_lock_that_starves_sets_the_flag<V: Copy>()
    // The holder releases when the `lock` of the other party has registered.
    ensures { (value : V) → CountsAll (wrong value looks_once_it_starves) 2
        (calls 0 TryLock 1 ++ calls 1 Lock 5 ++ calls 0 Release 1 ++ steps 1 1) → ⊥ }
{}

/// A `starve` that checks the cap and registers in one event. No processor does both in one step.
pub fn a_step_is_one_operation<V: Copy>()
    ensures { (value : V) → Stepwise (wrong value starves_in_one) → ⊥ }
{}
