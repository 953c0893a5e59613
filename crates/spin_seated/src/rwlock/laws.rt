//! Laws of the histories that passes of a `SeatedRwLock` know. Each law is the contract of a function that
//! does nothing, so none has an example.
ghost use Rattle.std.specs.Prelude.{◌≡◌, ℕ, ◌<◌, ◌==◌, ◌&&◌, Bool, List, [], ◌∷◌, ◌++◌, Some, filter, length, nat_lt, slice_get};
ghost use Rattle.spin_step.specs.Plain.{reading, writing, count_kind, count_against, reader_count, is_empty};
ghost use Rattle.spin_step_more.specs.Readers.{reader_limit};
ghost use Rattle.spin_seated.specs.declared.history.Entry.{Entry};
ghost use Rattle.spin_seated.specs.declared.lock.Opening.{Opening};
ghost use Rattle.spin_seated.specs.declared.lock.Answer.{Answer};
ghost use Rattle.spin_seated.specs.declared.lock.Answer.TheVariants.{Truth, Value};
ghost use Rattle.spin_seated.specs.declared.rwlock.Call.{Call};
ghost use Rattle.spin_seated.specs.declared.rwlock.Call.TheVariants.{TryRead, TryWrite, ReaderCount, WriterCount, Read};
ghost use Rattle.spin_seated.specs.Histories.{entry, calls_by, IsLegal, holds, Met};
ghost use Rattle.spin_seated.specs.Rw.{rw};
ghost use Rattle.spin_seated.specs.RwLawful.{History, holders_after, holds_by, place_of, MayCall, written};
ghost use Rattle.spin_seated.specs.Locked.{value_after};
ghost use Rattle.spin_seated.specs.Passes.{KnownOf};

/// States that while a pass holds as the writer, no other pass holds.
#[tactic(auto, using(crate::proofs::RwSteps::standing))]
pub fn nobody_writes_beside_another()
    ensures { (k : Opening) (log : History) → IsLegal rw k log → 0 < count_kind writing (holders_after k log) → length (holders_after k log) ≡ 1 }
{}

/// States that a try to read succeeds exactly if every holder admits readers and fewer than `MAX_READERS`
/// passes hold. A writer admits no readers.
pub fn a_reader_comes_where_nobody_keeps_it_out()
    ensures { (k : Opening) (before after : History) (p : ℕ) (granted : Bool) → IsLegal rw k (before ++ entry p TryRead (Truth granted) ∷ after) → granted ≡ ((count_against reading (holders_after k before) == 0) && nat_lt (length (holders_after k before)) reader_limit) }
{}

/// States that a try to write succeeds exactly if no pass holds the lock.
pub fn a_writer_comes_where_nobody_holds()
    ensures { (k : Opening) (before after : History) (p : ℕ) (granted : Bool) → IsLegal rw k (before ++ entry p TryWrite (Truth granted) ∷ after) → granted ≡ is_empty (holders_after k before) }
{}

/// States that a read returns the last write before it, or the opening value if there is none. The last write
/// may be the reading pass's own.
pub fn a_read_gives_the_last_write()
    ensures { (k : Opening) (before after : History) (p v : ℕ) → IsLegal rw k (before ++ entry p Read (Value v) ∷ after) → v ≡ value_after written k.value before }
{}

/// States that each count is right when its call is made: `reader_count` answers how many passes hold as readers, and
/// `writer_count` how many hold as writers.
pub fn a_count_is_the_number_of_holders()
    ensures { (k : Opening) (before after : History) (p n : ℕ) → (IsLegal rw k (before ++ entry p ReaderCount (Value n) ∷ after) → n ≡ reader_count (holders_after k before)) × (IsLegal rw k (before ++ entry p WriterCount (Value n) ∷ after) → n ≡ count_kind writing (holders_after k before)) }
{}

/// States that a pass holds the lock from a try that succeeds until it unlocks, and as a reader after a
/// downgrade. The plain lock has the same holders. A pass that tries holds nothing; one that reads, writes,
/// unlocks or downgrades holds what that call needs.
#[tactic(auto, using(crate::proofs::Holding::rw_holds_own, crate::proofs::Holding::rw_stands_own, crate::proofs::Holding::rw_calls_own))]
pub fn a_pass_holds_from_its_try_until_it_unlocks()
    ensures holds { (x : KnownOf Call) → IsLegal rw x.opening x.seen → holds rw x ≡ holds_by (calls_by x.pass x.seen) }
    ensures stands { (k : Opening) (log : History) (p : ℕ) → IsLegal rw k log → filter (λ h. h.party == p) (holders_after k log) ≡ place_of p (holds_by (calls_by p log)) }
    ensures calls { (k : Opening) (before after : History) (p : ℕ) (c : Call) (a : Answer) → IsLegal rw k (before ++ entry p c a ∷ after) → MayCall c (holds_by (calls_by p before)) }
{}

/// States that two passes that met agree on every answer so far. Each entry that either pass knew before is at
/// the same place in the history that both know now.
pub fn passes_that_met_agree()
    ensures { (a b met_a met_b : KnownOf Call) → Met rw a met_a.seen met_a → Met rw b met_a.seen met_b → (met_b.seen ≡ met_a.seen) × ((n : ℕ) (e : Entry Call Answer) → slice_get a.seen n ≡ Some e → slice_get met_b.seen n ≡ Some e) × ((n : ℕ) (e : Entry Call Answer) → slice_get b.seen n ≡ Some e → slice_get met_a.seen n ≡ Some e) }
{}
