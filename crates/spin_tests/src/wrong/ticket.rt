//! Each function here states that a wrong ticket lock breaks a law, in most cases on one schedule. So they show
//! what the laws keep out. Begin with [`a_look_loads_the_served_number_first`].
ghost use Rattle.std.specs.Prelude.{◌++◌, ◌≡◌, []};
ghost use Rattle.spin_step.specs.Operations.{Stepwise};
ghost use Rattle.spin_world_core.specs.Runs.{KeepsAll, MomentsAll, CountsAll};
ghost use Rattle.spin_world.specs.Ticket.{IsTicketMachine};
ghost use Rattle.spin_world.specs.TicketOrder.{TriesByTwoLoads};
ghost use Rattle.spin_step.specs.declared.ticket_calls.TicketCall.TheVariants.{IsLocked, Lock, Release, TryLock};
ghost use Rattle.spin_tests.specs.Schedules.{calls, steps, weak};
ghost use Rattle.spin_tests.specs.WrongTicket.{wrong, tries_by_one_load, swaps_its_loads, looks_in_vain, looks_backwards, queues_behind_nobody, never_enters, enters_by_look, never_tries, looks_at_both, locks_again, tries_by_looking, takes_by_chance, opens_with_a_ticket, leaves_the_last_ticket, tries_until_it_wins, refuses_without_tickets};

/// A ticket lock whose words say at first that a ticket is in the queue, though no party has a ticket.
pub fn a_ticket_lock_opens_empty<V: Copy>()
    ensures { (value : V) → KeepsAll (wrong value opens_with_a_ticket) 1 [] → ⊥ }
{}

/// An `is_locked` that loads the next number first: its `false` has no moment.
pub fn a_look_loads_the_served_number_first<V: Copy>()
    // Between the two loads a second party queues and the first one releases, so at every moment some party holds
    // the lock or queues.
    ensures { (value : V) → MomentsAll (wrong value looks_backwards) 3
        (calls 0 TryLock 3 ++ calls 1 IsLocked 1 ++ calls 2 Lock 2 ++ calls 0 Release 1 ++ steps 1 1) → ⊥ }
{}

/// An `is_locked` that loads both numbers in one step. A step may use only one word.
pub fn a_look_loads_one_number_at_a_time<V: Copy>()
    ensures { (value : V) → Stepwise (wrong value looks_at_both) → ⊥ }
{}

/// An `is_locked` with three loads. This call has to answer by its second load.
pub fn a_look_takes_two_loads<V: Copy>()
    ensures { (value : V) → CountsAll (wrong value looks_in_vain) 1 (calls 0 IsLocked 2) → ⊥ }
{}

/// A `lock` that takes its ticket only if nobody has one. If a ticket is left and no other party takes it, a `lock` has
/// to have its ticket by its second step, also while another party holds.
pub fn a_lock_queues_behind_others<V: Copy>()
    ensures { (value : V) → CountsAll (wrong value queues_behind_nobody) 2 (calls 0 TryLock 3 ++ calls 1 Lock 2) → ⊥ }
{}

/// A `lock` that never enters.
pub fn a_lock_enters<V: Copy>()
    // Four steps of one party alone.
    ensures { (value : V) → CountsAll (wrong value never_enters) 1 (calls 0 Lock 4) → ⊥ }
{}

/// A `lock` that enters by its first look, though another party has an earlier ticket. Its plain step is not open.
pub fn tickets_enter_in_the_order_they_are_taken<V: Copy>()
    // Two parties queue behind a holder; the holder releases, and then the party with the later ticket looks first.
    ensures { (value : V) → KeepsAll (wrong value enters_by_look) 3
        (calls 0 TryLock 3 ++ calls 1 Lock 2 ++ calls 2 Lock 2 ++ calls 0 Release 1 ++ steps 2 1) → ⊥ }
{}

/// A `lock` that can begin though its party holds the lock, and so waits for itself.
pub fn a_holder_may_not_lock_again<V: Copy>()
    ensures { (value : V) → Stepwise (wrong value locks_again) → ⊥ }
{}

/// A `lock` that takes its ticket by a weak exchange. No call that queues may fail spuriously.
pub fn a_ticket_is_taken_by_a_strong_exchange<V: Copy>()
    ensures { (value : V) → KeepsAll (wrong value takes_by_chance) 1 (calls 0 Lock 1 ++ weak 0) → ⊥ }
{}

/// A `try_lock` that is refused though there was no ticket: the refusal has no moment.
pub fn a_refused_try_found_a_ticket<V: Copy>()
    ensures { (value : V) → MomentsAll (wrong value never_tries) 1 (calls 0 TryLock 2) → ⊥ }
{}

/// A strong try that fails spuriously: the refusal has no moment.
pub fn a_strong_try_has_a_cause<V: Copy>()
    ensures { (value : V) → MomentsAll (wrong value takes_by_chance) 1 (calls 0 TryLock 2 ++ weak 0) → ⊥ }
{}

/// A `try_lock` that is refused when the last ticket is next, though a party may take this ticket too.
pub fn the_last_ticket_is_taken<V: Copy>()
    ensures { (value : V) → MomentsAll (wrong value leaves_the_last_ticket) 1 (calls 0 TryLock 2) → ⊥ }
{}

/// A `try_lock` that does what `is_locked` does.
pub fn a_try_lock_asks_to_enter<V: Copy>()
    ensures { (value : V) → IsTicketMachine value 0 (wrong value tries_by_looking) → ⊥ }
{}

/// A `try_lock` that takes the served number, in two steps. Also a `try_lock` that loads the served number before the
/// next number.
pub fn a_try_loads_the_next_number_first<V: Copy>()
    ensures hurries { (value : V) → TriesByTwoLoads (wrong value tries_by_one_load) 1 (calls 0 TryLock 1) → ⊥ }
    // A holder releases after the first load of a `try_lock`.
    ensures swaps { (value : V) → TriesByTwoLoads (wrong value swaps_its_loads) 2
        (calls 0 TryLock 3 ++ calls 1 TryLock 1 ++ calls 0 Release 1) → ⊥ }
{}

/// A `try_lock` that makes its loads again when its exchange has failed. This call has to be answered by its third step.
pub fn a_try_is_answered<V: Copy>()
    // Another party takes the ticket between the loads of `try_lock` and its exchange.
    ensures { (value : V) → CountsAll (wrong value tries_until_it_wins) 2
        (calls 0 TryLock 2 ++ calls 1 TryLock 3 ++ steps 0 1) → ⊥ }
{}

/// A `lock` that is refused because no ticket is left. It may only wait.
pub fn a_lock_is_never_refused<V: Copy>()
    ensures { (value : V) → KeepsAll (wrong value refuses_without_tickets) 1 (calls 0 Lock 1) → ⊥ }
{}
