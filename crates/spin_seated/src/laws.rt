//! Laws of the histories that passes of a `SeatedMutex` know; `rwlock::laws` has those of a `SeatedRwLock`. Each law
//! is the contract of a function that does nothing. A caller calls the function to learn what it states.
ghost use Rattle.std.specs.Prelude.{Bool, not, ◌≡◌, ℕ, ◌≤◌, ◌==◌, true, false, List, [], ◌∷◌, ◌++◌, Some, filter, if◌then◌else◌, length, slice_get};
ghost use Rattle.spin_step.specs.Plain.{is_empty};
ghost use Rattle.spin_seated.specs.declared.history.Entry.{Entry};
ghost use Rattle.spin_seated.specs.declared.lock.Opening.{Opening};
ghost use Rattle.spin_seated.specs.declared.mutex.Call.{Call};
ghost use Rattle.spin_seated.specs.declared.mutex.Call.TheVariants.{TryLock, IsLocked, Read};
ghost use Rattle.spin_seated.specs.declared.lock.Answer.{Answer};
ghost use Rattle.spin_seated.specs.declared.lock.Answer.TheVariants.{Truth, Value};
ghost use Rattle.spin_seated.specs.Histories.{BeginsWith, entry, calls_by, Closes, IsLegal, holds, Met};
ghost use Rattle.spin_seated.specs.Mutex.{mutex};
ghost use Rattle.spin_seated.specs.Locked.{value_after, all_written, all_read, InOrderOf};
ghost use Rattle.spin_seated.specs.Lawful.{History, holders_after, holds_by, MayCall, written, read_by};
ghost use Rattle.spin_seated.specs.Rw.{rw};
ghost use Rattle.spin_seated.specs.declared.lock.SeatedLock.{SeatedLock};
ghost use Rattle.spin_seated.specs.Passes.{KnownOf, opening_of, all_passes_of};
ghost use Rattle.spin_seated.specs.RwLawful as rw_lawful;

use crate::lock::Calls;
use std::alloc::Allocator;

/// States that at most one pass holds the lock.
#[tactic(auto, using(crate::proofs::Lawful::one_holder))]
pub fn one_pass_holds_at_most()
    ensures { (k : Opening) (log : History) → IsLegal mutex k log → length (holders_after k log) ≤ 1 }
{}

/// States that a pass whose try succeeds found the lock free, and then holds it alone.
#[tactic(auto, using(crate::proofs::Lawful::granted))]
pub fn nobody_is_granted_while_another_holds()
    ensures { (k : Opening) (before after : History) (p : ℕ) → IsLegal mutex k (before ++ entry p TryLock (Truth true) ∷ after) → (holders_after k before ≡ []) × (holders_after k (before ++ entry p TryLock (Truth true) ∷ []) ≡ p ∷ []) }
{}

/// States that a pass whose try fails found the lock held by some pass.
#[tactic(auto, using(crate::proofs::Lawful::refused))]
pub fn a_refused_try_found_a_holder()
    ensures { (k : Opening) (before after : History) (p : ℕ) → IsLegal mutex k (before ++ entry p TryLock (Truth false) ∷ after) → (q : ℕ) × (holders_after k before ≡ q ∷ []) }
{}

/// States that a read returns the last write before it, or the opening value if there is none.
#[tactic(auto, using(crate::proofs::Lawful::read))]
pub fn a_read_gives_the_last_write()
    ensures { (k : Opening) (before after : History) (p v : ℕ) → IsLegal mutex k (before ++ entry p Read (Value v) ∷ after) → v ≡ value_after written k.value before }
{}

/// States that a mutex that is closed with its only pass has the value that this pass wrote last, or else the opening
/// value.
pub fn a_mutex_closed_with_its_only_pass_has_the_last_write()
    ensures { (k : Opening) (x : KnownOf Call) (v : ℕ) → k.passes ≡ 1 → Closes mutex k (x ∷ []) v → v ≡ value_after written k.value x.seen }
{}

/// States that a mutex that is closed with its two passes, which have met, has the value that one of them wrote last, or
/// else the opening value.
pub fn a_mutex_closed_with_its_two_passes_has_the_last_write()
    ensures { (k : Opening) (x y : KnownOf Call) (v : ℕ) → k.passes ≡ 2 → x.pass ≡ 0 → y.pass ≡ 1 → y.seen ≡ x.seen → Closes mutex k (x ∷ y ∷ []) v → v ≡ value_after written k.value x.seen }
{}

/// States, for either lock, that a pass reads values in the order in which they were written, beginning with
/// the opening value. It may miss some, but never reads an older value than it read before.
pub fn a_pass_reads_in_the_order_of_the_writes()
    ensures mutex { (k : Opening) (log : History) (p : ℕ) → IsLegal mutex k log → InOrderOf (k.value ∷ all_written written log) (all_read read_by (calls_by p log)) }
    ensures rwlock { (k : Opening) (log : rw_lawful.History) (p : ℕ) → IsLegal rw k log → InOrderOf (k.value ∷ rw_lawful.values_written log) (rw_lawful.values_read (calls_by p log)) }
{}

/// States that when a history grows, new calls of a pass come after its former ones.
pub fn calls_of_a_pass_keep_their_order()
    ensures { (log seen : History) (p : ℕ) → BeginsWith log seen → BeginsWith (calls_by p log) (calls_by p seen) }
{}

/// States that a pass holds the lock from a try that succeeds until it unlocks. Exactly then the plain lock
/// has it as a holder. Only a holder reads, writes and unlocks.
#[tactic(auto, using(crate::proofs::Holding::holds_own, crate::proofs::Holding::stands_own, crate::proofs::Holding::calls_own))]
pub fn a_pass_holds_from_its_try_until_it_unlocks()
    ensures holds { (x : KnownOf Call) → IsLegal mutex x.opening x.seen → holds mutex x ≡ holds_by (calls_by x.pass x.seen) }
    ensures stands { (k : Opening) (log : History) (p : ℕ) → IsLegal mutex k log → filter (λ q. q == p) (holders_after k log) ≡ (if holds_by (calls_by p log) then p ∷ [] else []) }
    ensures calls { (k : Opening) (before after : History) (p : ℕ) (c : Call) (a : Answer) → IsLegal mutex k (before ++ entry p c a ∷ after) → MayCall c (holds_by (calls_by p before)) }
{}

/// States that two passes that met agree on every answer so far. Each entry that either pass knew before is at
/// the same place in the history that both know now.
pub fn passes_that_met_agree()
    ensures { (a b met_a met_b : KnownOf Call) → Met mutex a met_a.seen met_a → Met mutex b met_a.seen met_b → (met_b.seen ≡ met_a.seen) × ((n : ℕ) (e : Entry Call Answer) → slice_get a.seen n ≡ Some e → slice_get met_b.seen n ≡ Some e) × ((n : ℕ) (e : Entry Call Answer) → slice_get b.seen n ≡ Some e → slice_get met_a.seen n ≡ Some e) }
{}

/// States that `is_locked` tells whether a pass holds the lock.
#[tactic(auto, using(crate::proofs::Lawful::looked))]
pub fn a_look_tells_whether_a_pass_holds()
    ensures { (k : Opening) (before after : History) (p : ℕ) (held : Bool) → IsLegal mutex k (before ++ entry p IsLocked (Truth held) ∷ after) → held ≡ not (is_empty (holders_after k before)) }
{}

/// States that a lock has as many passes as `new` was asked for.
pub fn a_lock_has_as_many_passes_as_asked_for<C: Calls, A: Allocator>()
    ensures { (lock : SeatedLock C A C.PassHold) → length (all_passes_of lock) ≡ (opening_of lock).passes }
{}
