//! Each function here states that a wrong lock breaks a law of progress on one schedule. So they show what the laws
//! keep out. Begin with [`a_waiting_party_looks_again`].
ghost use Rattle.spin_laws.specs.Flag.{LocksInFour};
ghost use Rattle.spin_laws.specs.Rw.{UpgradesInThree};
ghost use Rattle.spin_laws.specs.Ticket.{EntersInRounds};
ghost use Rattle.spin_tests.specs.WrongFlag as flags;
ghost use Rattle.spin_tests.specs.WrongFlag.{looks_for_ever};
ghost use Rattle.spin_tests.specs.WrongProgress.{set_before_it, four_looks, serves_twice, one_before_it, four_turns, asked, three_steps};
ghost use Rattle.spin_tests.specs.WrongRw as rws;
ghost use Rattle.spin_tests.specs.WrongRw.{asks_anew};

/// A flag whose waiting party looks for ever after its exchange has failed, and never tries again. Nobody acquires the
/// lock in four rounds.
pub fn a_waiting_party_looks_again<V: Copy>()
    ensures { (value : V) → LocksInFour (flags.wrong value looks_for_ever) 2 set_before_it four_looks → ⊥ }
{}

/// A ticket lock that serves a number twice. The next ticket is never served.
pub fn each_number_is_served_once<V: Copy>()
    ensures { (value : V) → EntersInRounds (serves_twice value) 2 one_before_it four_turns → ⊥ }
{}

/// An upgrade that withdraws its request. It is not granted in three rounds, though nobody else reads.
pub fn an_upgrade_asks_until_it_is_granted<V: Copy>()
    ensures { (value : V) → UpgradesInThree (rws.wrong value asks_anew) 1 asked three_steps → ⊥ }
{}
