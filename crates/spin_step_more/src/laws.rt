//! Laws of the plain read-write lock. Each law is the contract of a function that does nothing, so none has
//! an example.
ghost use Rattle.std.specs.Prelude.{◌≡◌, ◌+◌, ℕ, List, true, false};
ghost use Rattle.spin_step.specs.Plain.{Plain, Kind, Change, reading, to_write, to_upgrade_asked, turns, apply, is_open, is_open_to, count_kind};
ghost use Rattle.spin_step.specs.Parties.{IsExclusive};
ghost use Rattle.spin_step_more.specs.Upgrading.{StaysAsking, apply_all, reader_releases};

/// States that a downgrade is one step, before and after which no writer may acquire the lock.
pub fn a_downgrade_lets_no_writer_in()
    ensures { (s : Plain) (p q : ℕ) (k l : Kind) → is_open s (turns p k l) ≡ true → (is_open_to s q to_write ≡ false) × (is_open_to (apply s (turns p k l)) q to_write ≡ false) }
{}

/// States that no further reader acquires the lock while a reader asks to upgrade. Each release by a reader
/// reduces the number of readers by one.
#[tactic(auto, using(crate::proofs::Upgrading::readers_go))]
pub fn beside_an_asking_reader_readers_only_go()
    ensures { (s : Plain) (p : ℕ) (cs : List Change) → IsExclusive s → StaysAsking p s cs → count_kind reading (apply_all s cs).holders + reader_releases cs ≡ count_kind reading s.holders }
{}

/// States when the asking reader may become the writer: after exactly as many releases by readers as there
/// were other readers.
#[tactic(auto, using(crate::proofs::Upgrading::upgrade_opens))]
pub fn an_upgrade_is_open_when_the_readers_are_gone()
    ensures { (s : Plain) (p : ℕ) (cs : List Change) → IsExclusive s → StaysAsking p s cs →
        (is_open_to (apply_all s cs) p to_upgrade_asked ≡ true → reader_releases cs ≡ count_kind reading s.holders) × (reader_releases cs ≡ count_kind reading s.holders → is_open_to (apply_all s cs) p to_upgrade_asked ≡ true) }
{}
