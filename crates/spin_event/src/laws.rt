//! What holds in each schedule of an event's table. Each law is the contract of a function that does nothing; begin at
//! [`a_sleeper_is_awake_or_somebody_rings`].
ghost use Rattle.std.specs.Prelude.{ℕ};
ghost use Rattle.spin_event.specs.EventCalls.{EventSchedule};
ghost use Rattle.spin_event.specs.Sleeping.{NoneIsLost, NoneIsLostOn, Returns, RingsWake, WakesUp};
ghost use Rattle.spin_event.specs.Wrong.{look_before_the_count, looks_early, marks, ring_after_the_sleep, ring_before_the_sleep, sleeps_blindly, two_rings, wakes_nobody};

/// States that no wake-up is lost: a party sleeps only as long as it has heard all rings, or somebody is about to wake
/// it.
///
/// # Contract
/// In each schedule in which nobody begins a `NotifyOne`, each party that sleeps is woken already, or the rings are
/// still those that it heard, in their low 32 bits, or some `NotifyAll` is between its ring and its wake
/// (`NoneIsLost`).
pub fn a_sleeper_is_awake_or_somebody_rings()
    ensures { (parties : ℕ) (past : EventSchedule) → NoneIsLost parties past }
{}

/// States what a notification has done when it ends, for one or for all.
///
/// # Contract
/// It adds 1 to the rings. If it then finds nobody counted, nobody sleeps. If it wakes, then all who sleep are woken,
/// or one sleep more than before (`RingsWake`).
pub fn who_ends_a_ring_has_woken()
    ensures { (parties : ℕ) (past : EventSchedule) → RingsWake parties past }
{}

/// States that a party that sleeps, and has not heard all rings, ends its sleep by its next step, unless somebody is
/// about to wake it.
///
/// # Contract
/// If nobody has begun a `NotifyOne`, and no `NotifyAll` is between its ring and its wake (`WakesUp`).
pub fn a_sleeper_that_was_rung_wakes_up()
    ensures { (parties : ℕ) (past : EventSchedule) → WakesUp parties past }
{}

/// States that a wait that has not heard all rings is answered within three own steps, if no other party steps in
/// between, unless somebody is about to wake it.
///
/// # Contract
/// If nobody has begun a `NotifyOne`, and no `NotifyAll` is between its ring and its wake (`Returns`).
pub fn a_wait_that_was_rung_returns()
    ensures { (parties : ℕ) (past : EventSchedule) → Returns parties past }
{}

/// States that four wrong events lose a wake-up, each on one schedule.
///
/// # Contract
/// [`a_sleeper_is_awake_or_somebody_rings`] is false of an event whose waits leave a mark in place of a count, which the
/// next ring clears (`mark`); of one that does not compare the rings before it sleeps (`blind`); of one whose
/// notifications look before they add (`early`); and of one whose notifications wake nobody (`silent`).
pub fn wrong_events_lose_a_wake_up()
    ensures mark { NoneIsLostOn marks 2 two_rings → ⊥ }
    ensures blind { NoneIsLostOn sleeps_blindly 2 ring_before_the_sleep → ⊥ }
    ensures early { NoneIsLostOn looks_early 2 look_before_the_count → ⊥ }
    ensures silent { NoneIsLostOn wakes_nobody 2 ring_after_the_sleep → ⊥ }
{}
