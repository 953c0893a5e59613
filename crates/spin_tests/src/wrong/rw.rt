//! Each function here states that a wrong read-write lock breaks a law, in most cases on one schedule. So they show
//! what the laws keep out. Begin with [`an_upgrade_is_refused_beside_readers`].
ghost use Rattle.std.specs.Prelude.{◌++◌, ◌≡◌, []};
ghost use Rattle.spin_step.specs.Operations.{Stepwise};
ghost use Rattle.spin_world_core.specs.Runs.{KeepsAll, MomentsAll, CountsAll};
ghost use Rattle.spin_step_more.specs.RwCalls.{rw_machine};
ghost use Rattle.spin_world.specs.Rw.{IsRwMachine};
ghost use Rattle.spin_step_more.specs.declared.rw_calls.RwCall.TheVariants.{Downgrade, DowngradeToUpgradeable, IsLocked, Read, ReaderCount, TryRead, TryUpgrade, TryUpgradeableRead, TryWrite, Upgrade, Write, WriterCount};
ghost use Rattle.spin_tests.specs.Schedules.{calls, steps, weak};
ghost use Rattle.spin_tests.specs.WrongRw.{wrong, upgrades_plainly, upgrades_by_looks, refuses_late, upgrades_at_once, upgrades_unasked, asks_twice, downgrades_asking, counts_without_asking, downgrades_in_two, reads_and_regrets, reads_and_regrets_unseen, reads_by_a_mask, writes_by_chance, upgrades_anew, counts_without_upgradable, looks_for_ever, looks_twice, looks_first, tries_for_ever, reads_in_one, reads_by_a_guess, reads_weakly, writes_strongly, waits_strongly, upgrades_by_chance, never_releases, upgrades_any_reader, writes_by_reading, never_writes, opens_written, forgets_its_value, has_no_owner, comes_beyond_the_cap, ends_reading, reads_anew, upgrades_strongly, counts_asking_as_writing, looks_for_a_writer};

/// A `try_upgrade` that succeeds while another party reads: the plain step is not open.
pub fn an_upgrade_is_refused_beside_readers<V: Copy>()
    ensures { (value : V) → KeepsAll (wrong value upgrades_at_once) 2
        (calls 0 TryRead 2 ++ calls 1 TryUpgradeableRead 2 ++ calls 1 TryUpgrade 1) → ⊥ }
{}

/// An `upgrade` that asks and succeeds in one event while another party reads: its plain step is not open to a party
/// that has not asked. Also an `upgrade` that asks twice: its second plain step is not open to a party that has asked.
pub fn an_upgrade_asks_once<V: Copy>()
    ensures unasked { (value : V) → KeepsAll (wrong value upgrades_unasked) 2
        (calls 0 TryRead 2 ++ calls 1 TryUpgradeableRead 2 ++ calls 1 Upgrade 1) → ⊥ }
    ensures twice { (value : V) → KeepsAll (wrong value asks_twice) 1
        (calls 0 TryUpgradeableRead 2 ++ calls 0 Upgrade 2) → ⊥ }
{}

/// An `upgrade` that tries again and again without asking. Alone it succeeds, but by other plain steps than an upgrade
/// makes. Beside a reader its first step should ask, and does not.
pub fn an_upgrade_asks<V: Copy>()
    ensures alone { (value : V) → KeepsAll (wrong value upgrades_plainly) 1
        (calls 0 TryUpgradeableRead 2 ++ calls 0 Upgrade 1) → ⊥ }
    ensures beside { (value : V) → CountsAll (wrong value upgrades_plainly) 2
        (calls 0 TryRead 2 ++ calls 1 TryUpgradeableRead 2 ++ calls 1 Upgrade 1) → ⊥ }
{}

/// A `downgrade` of the writer that also sets the bit of a reader that asks. It does not set the bit of an upgradable
/// reader, so no plain lock has this word.
pub fn a_downgrade_asks_nothing<V: Copy>()
    ensures { (value : V) → KeepsAll (wrong value downgrades_asking) 1 (calls 0 TryWrite 1 ++ calls 0 Downgrade 1) → ⊥ }
{}

/// A `downgrade` that releases the writer, and then acquires as a reader. Its one step has to change what the party
/// holds.
pub fn a_downgrade_is_one_step<V: Copy>()
    ensures { (value : V) → KeepsAll (wrong value downgrades_in_two) 1 (calls 0 TryWrite 1 ++ calls 0 Downgrade 1) → ⊥ }
{}

/// A `try_read` that adds its reader, and removes it if there was no room. No reader may join a writer, even for one
/// step. If the table names no plain steps for this, the word counts a reader that does not exist.
pub fn a_refused_try_adds_no_reader<V: Copy>()
    ensures seen { (value : V) → KeepsAll (wrong value reads_and_regrets) 2
        (calls 0 TryWrite 1 ++ calls 1 TryRead 1) → ⊥ }
    ensures unseen { (value : V) → KeepsAll (wrong value reads_and_regrets_unseen) 2
        (calls 0 TryWrite 1 ++ calls 1 TryRead 1) → ⊥ }
{}

/// A `try_read` that checks only for the upgradable reader, and so joins a writer, or a reader that asks.
pub fn a_reader_stays_out_beside_a_writer<V: Copy>()
    ensures writer { (value : V) → KeepsAll (wrong value reads_by_a_mask) 2
        (calls 0 TryWrite 1 ++ calls 1 TryRead 1) → ⊥ }
    ensures asking { (value : V) → KeepsAll (wrong value reads_by_a_mask) 2
        (calls 0 TryUpgradeableRead 2 ++ calls 0 Upgrade 1 ++ calls 1 TryRead 1) → ⊥ }
{}

/// A strong `try_write` that fails though nobody holds: the refusal has no moment.
pub fn a_try_write_has_a_cause<V: Copy>()
    ensures { (value : V) → MomentsAll (wrong value writes_by_chance) 1 (calls 0 TryWrite 1) → ⊥ }
{}

/// An `upgrade` that releases the lock and then acquires it again. An upgrade may never release it.
pub fn an_upgrade_never_lets_go<V: Copy>()
    ensures { (value : V) → KeepsAll (wrong value upgrades_anew) 1
        (calls 0 TryUpgradeableRead 2 ++ calls 0 Upgrade 1) → ⊥ }
{}

/// A `reader_count` that does not count the upgradable reader, and one that does not count a reader that asks to
/// upgrade. At no moment of the call do as many parties read as it answers.
pub fn a_count_tells_the_upgradable_reader<V: Copy>()
    ensures upgradable { (value : V) → MomentsAll (wrong value counts_without_upgradable) 2
        (calls 0 TryUpgradeableRead 2 ++ calls 1 ReaderCount 1) → ⊥ }
    ensures asking { (value : V) → MomentsAll (wrong value counts_without_asking) 2
        (calls 0 TryUpgradeableRead 2 ++ calls 0 Upgrade 1 ++ calls 1 ReaderCount 1) → ⊥ }
{}

/// A `writer_count` that counts a reader that asks to upgrade. At no moment of the call does somebody write.
pub fn a_reader_that_asks_is_no_writer<V: Copy>()
    ensures { (value : V) → MomentsAll (wrong value counts_asking_as_writing) 2
        (calls 0 TryUpgradeableRead 2 ++ calls 0 Upgrade 1 ++ calls 1 WriterCount 1) → ⊥ }
{}

/// An `is_locked` that tells only of a writer. Somebody reads all the time while it answers that nobody holds the lock.
pub fn a_look_tells_of_readers<V: Copy>()
    ensures { (value : V) → MomentsAll (wrong value looks_for_a_writer) 2 (calls 0 TryRead 2 ++ calls 1 IsLocked 1) → ⊥ }
{}

/// A `read` that looks for ever, one that looks twice, and one that loads again when its exchange has failed. If the lock
/// admits a reader and nobody disturbs a `read`, it has to be answered within two steps. Also a `write` that looks,
/// though its first step has to be the exchange.
pub fn a_call_that_waits_is_answered<V: Copy>()
    ensures never { (value : V) → CountsAll (wrong value looks_for_ever) 1 (calls 0 Read 2) → ⊥ }
    ensures late { (value : V) → CountsAll (wrong value looks_twice) 1 (calls 0 Read 2) → ⊥ }
    // Another party reads between the load and the exchange of `read`, which then loads again.
    ensures anew { (value : V) → CountsAll (wrong value reads_anew) 2
        (calls 0 Read 1 ++ calls 1 TryRead 2 ++ steps 0 2) → ⊥ }
    ensures write { (value : V) → CountsAll (wrong value looks_first) 1 (calls 0 Write 1) → ⊥ }
{}

/// A `try_read` that loads the word for ever. A `try_read` may take at most two steps, and one more for each change of
/// the word by another party.
pub fn a_try_read_is_answered<V: Copy>()
    ensures { (value : V) → CountsAll (wrong value tries_for_ever) 1 (calls 0 TryRead 2) → ⊥ }
{}

/// A `try_read` that checks for room and acquires access in one event. No processor does both in one step.
pub fn a_step_is_one_operation<V: Copy>()
    ensures { (value : V) → Stepwise (wrong value reads_in_one) → ⊥ }
{}

/// A `read` that begins by guessing the word, and counts no failure if the guess was wrong.
pub fn a_wrong_guess_is_counted<V: Copy>()
    ensures { (value : V) → CountsAll (wrong value reads_by_a_guess) 2 (calls 0 TryRead 2 ++ calls 1 Read 1) → ⊥ }
{}

/// A `read` whose exchange is weak, so that spurious failures can keep it waiting.
pub fn a_read_fails_by_no_chance<V: Copy>()
    ensures { (value : V) → KeepsAll (wrong value reads_weakly) 1 (calls 0 Read 1 ++ weak 0) → ⊥ }
{}

/// A weak `try_write` whose exchange is strong, a `write` whose exchange is strong, and such an `upgrade`.
pub fn a_weak_exchange_is_weak<V: Copy>()
    ensures tries { (value : V) → Stepwise (wrong value writes_strongly) → ⊥ }
    ensures waits { (value : V) → Stepwise (wrong value waits_strongly) → ⊥ }
    ensures upgrades { (value : V) → Stepwise (wrong value upgrades_strongly) → ⊥ }
{}

/// A strong `try_upgrade` that may fail spuriously.
pub fn a_strong_try_fails_by_no_chance<V: Copy>()
    ensures { (value : V) → KeepsAll (wrong value upgrades_by_chance) 1
        (calls 0 TryUpgradeableRead 2 ++ calls 0 TryUpgrade 0 ++ weak 0) → ⊥ }
{}

/// A lock that can never be released. A call has to begin whenever its party holds what the call needs.
pub fn a_holder_may_release<V: Copy>()
    ensures { (value : V) → Stepwise (wrong value never_releases) → ⊥ }
{}

/// An `upgrade` of any reader. A call may begin only if its party holds what the call needs.
pub fn only_the_upgradable_reader_upgrades<V: Copy>()
    ensures { (value : V) → Stepwise (wrong value upgrades_any_reader) → ⊥ }
{}

/// A `write` that asks for shared access and acquires it, and one that asks what such a lock grants to no party.
pub fn a_write_asks_to_write<V: Copy>()
    ensures other { (value : V) → IsRwMachine value 9 (wrong value writes_by_reading) → ⊥ }
    ensures unknown { (value : V) → Stepwise (wrong value never_writes) → ⊥ }
{}

/// A lock whose word says at first that somebody writes, though no party does.
pub fn a_lock_opens_free<V: Copy>()
    ensures { (value : V) → KeepsAll (wrong value opens_written) 1 [] → ⊥ }
{}

/// A lock without the value given to it, one that nobody owns, and one that admits fewer parties than asked for.
pub fn a_lock_is_as_it_was_made<V: Copy>()
    ensures value { (value : V) → IsRwMachine value 9 (wrong value forgets_its_value) → ⊥ }
    ensures owner { (value : V) → IsRwMachine value 9 (wrong value has_no_owner) → ⊥ }
    ensures cap { (value : V) → IsRwMachine value 9 (rw_machine value 1) → ⊥ }
{}

/// A `try_read` that finds the lock closed, loads the word once more, and is refused even if the lock is then open.
pub fn a_try_is_refused_where_it_finds_it_closed<V: Copy>()
    ensures { (value : V) → CountsAll (wrong value refuses_late) 2 (calls 0 TryWrite 1 ++ calls 1 TryRead 1) → ⊥ }
{}

/// An `upgrade` that looks between its exchanges. Once a party has asked to upgrade, each step of its call has to
/// succeed if the upgrade is open.
pub fn an_upgrade_makes_its_exchange_again<V: Copy>()
    // An `upgrade` that fails spuriously, and then takes a step while nobody else reads.
    ensures { (value : V) → CountsAll (wrong value upgrades_by_looks) 1
        (calls 0 TryUpgradeableRead 2 ++ calls 0 Upgrade 1 ++ weak 0 ++ steps 0 1) → ⊥ }
{}

/// A `try_upgradeable_read` that admits an upgradable reader beyond the cap. The cap counts the upgradable reader too.
pub fn the_cap_counts_the_upgradable_reader<V: Copy>()
    ensures { (value : V) → KeepsAll (wrong value comes_beyond_the_cap) 2
        (calls 0 TryRead 2 ++ calls 1 TryUpgradeableRead 2) → ⊥ }
{}

/// A `downgrade_to_upgradeable` after which its party only reads.
pub fn a_downgrade_is_to_what_it_names<V: Copy>()
    ensures { (value : V) → KeepsAll (wrong value ends_reading) 1
        (calls 0 TryWrite 1 ++ calls 0 DowngradeToUpgradeable 1) → ⊥ }
{}
