//! What follows from the rule of an `RwLock`. Each law is the contract of a function that does nothing; begin at
//! [`the_parties_of_a_rwlock_read_or_one_writes`].
ghost use Rattle.std.specs.Prelude.{◌≡◌, ◌+◌, ◌-◌, ◌*◌, ◌%◌, ◌^◌, ℕ, List, true};
ghost use Rattle.spin_step.specs.Plain.{Kind, reading, upgradable, asking, writing, weight, may_turn};
ghost use Rattle.spin_step_more.specs.Readers.{tells, released, turned};
ghost use Rattle.spin_core.specs.Own.{Numbered, IsRun};
ghost use Rattle.spin_core.specs.declared.tie.Opening.{Opening};
ghost use Rattle.spin_core.specs.declared.trace.Trace.{Trace};
ghost use Rattle.spin_rwlock.specs.Rw.{Done, IsRw, View, views, model, seat_of, words_of};
ghost use Rattle.spin_rwlock.specs.Standing.{readers, upgradables, askers, writers, holders, ReadersOrWriter, HoldsAt};

/// Each run of an [`RwLock`](crate::rwlock::RwLock) on threads is a schedule of its model.
///
/// The lock's cell keeps the list of all moves that threads have made in it. An entry names the party and its move. The
/// list is ghost state, and takes no memory.
///
/// # Contract
/// The law holds between any two steps of threads (`IsRw`): no move of the list is skipped in the model. After all
/// these moves the model has the lock's word, and each party is where its view says.
pub fn every_run_of_a_rwlock_is_a_schedule<T>()
    ensures { (opening : Opening T) (word : ℕ) (trace : Trace (Done T) (Unit {0})) (parties : List (Numbered View)) → IsRw opening word trace parties → IsRun (model opening.value) seat_of words_of trace.entries (word, trace.word) parties }
{}

/// States that the word of an `RwLock` is the sum of the weights of its holders.
///
/// # Contract
/// If the rule holds (`IsRw`), the word is a sum over the kinds of holders. Each kind adds the number of its holders
/// times its weight.
pub fn the_word_of_a_rwlock_counts_its_parties<T>()
    ensures { (opening : Opening T) (word : ℕ) (trace : Trace (Done T) (Unit {0})) (parties : List (Numbered View)) → IsRw opening word trace parties → word ≡ ((weight reading * readers (views parties) + weight upgradable * upgradables (views parties)) + weight asking * askers (views parties)) + weight writing * writers (views parties) }
{}

/// States that the holders of an `RwLock` are readers, or one writer alone.
///
/// # Contract
/// If the rule holds (`IsRw`), at most one holder is upgradable or has asked to upgrade. If a party writes, it is the
/// only holder (`ReadersOrWriter`).
pub fn the_parties_of_a_rwlock_read_or_one_writes<T>()
    ensures { (opening : Opening T) (word : ℕ) (trace : Trace (Done T) (Unit {0})) (parties : List (Numbered View)) → IsRw opening word trace parties → ReadersOrWriter (views parties) }
{}

/// States that the word of an `RwLock` is zero exactly when the lock has no holder.
///
/// # Contract
/// If the rule holds (`IsRw`), the word is 0 exactly if there is no holder.
pub fn the_word_of_a_rwlock_is_zero_when_nobody_holds<T>()
    ensures { (opening : Opening T) (word : ℕ) (trace : Trace (Done T) (Unit {0})) (parties : List (Numbered View)) → IsRw opening word trace parties → (word ≡ 0 → holders (views parties) ≡ 0) × (holders (views parties) ≡ 0 → word ≡ 0) }
{}

/// States that the blind operations on the word of an `RwLock` do what its step functions say.
///
/// A holder releases by a subtraction, and downgrades or asks to upgrade by an addition. Neither loads the word first.
///
/// # Contract
/// Suppose that the rule holds (`IsRw`). If the party holds as `k`, its subtraction gives the word that `released`
/// gives. If it holds as `j` and may turn to `k` (`may_turn`), its addition gives the word that `turned` gives.
pub fn an_addition_is_its_step_function<T>()
    ensures release { (opening : Opening T) (word : ℕ) (trace : Trace (Done T) (Unit {0})) (parties : List (Numbered View)) (p : ℕ) (k : Kind) → IsRw opening word trace parties → HoldsAt (views parties) p k → (tells k word ≡ true) × ((word + (2 ^ 64 - weight k)) % 2 ^ 64 ≡ released k word) }
    ensures downgrade { (opening : Opening T) (word : ℕ) (trace : Trace (Done T) (Unit {0})) (parties : List (Numbered View)) (p : ℕ) (j k : Kind) → IsRw opening word trace parties → HoldsAt (views parties) p j → may_turn j k ≡ true → (tells j word ≡ true) × ((word + (weight k - weight j)) % 2 ^ 64 ≡ turned j k word) }
{}
