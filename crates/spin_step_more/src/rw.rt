//! A read-write lock in one word: the sum of the weights of its holders. They are readers, of which one may
//! be upgradable, or one writer. Begin with [`read`] and [`write`].
//!
//! The upgradable reader admits other readers until it asks to upgrade. From then on readers only release.
//!
//! # Examples
//! ```
//! use spin::step::rw::{self, READER, UPGRADABLE, WRITER};
//!
//! assert_eq!(rt; rw::read(READER, 64), Some(2 * READER));
//! assert_eq!(rt; rw::read(WRITER, 64), None);
//! assert_eq!(rt; rw::write(0), Some(WRITER));
//! assert_eq!(rt; rw::write(READER), None);
//! assert_eq!(rt; rw::upgradable(READER, 64), Some(READER + UPGRADABLE));
//! assert_eq!(rt; rw::upgrade(UPGRADABLE), Some(WRITER));
//! assert_eq!(rt; rw::write_to_upgradable(WRITER), UPGRADABLE);
//! assert_eq!(rt; rw::readers(READER + UPGRADABLE), 2);
//! ```
ghost use Rattle.std.specs.Prelude.{◌≡◌, ◌<◌, ◌≤◌, ◌/◌, ◌%◌, ℕ, [], true, min};
ghost use Rattle.spin_step.specs.Plain.{Plain, reading, upgradable, asking, writing, weight, gets, releases, turns, to_read, to_read_upgradable, to_write, to_upgrade, to_upgrade_asked, is_holder, count_kind, reader_count, rw_word};
ghost use Rattle.spin_step.specs.Parties.{is_held};
ghost use Rattle.spin_step.specs.Steps.{Decides, GivesWord};
ghost use Rattle.spin_step_more.specs.Readers.{reader_limit, OneOfEach, readers_in, writers_in, is_held_word, tells, has_room, read, read_upgradable, write, upgrade, upgrade_asked, released, turned};

/// The weight of each reader in the word.
pub const READER: usize = 8;

/// The weight of the upgradable reader in the word.
pub const UPGRADABLE: usize = 2;

/// What the upgradable reader adds to its weight when it asks to upgrade.
pub const ASKING: usize = 4;

/// The weight of the writer in the word.
pub const WRITER: usize = 1;

/// The most readers that may hold the lock at the same time, including the upgradable one.
pub const MAX_READERS: usize = usize::MAX / READER / 2;

// Returns `true` if the lock has room for one more reader.
fn may_read(word: usize, cap: usize) -> bool
    ensures { result ≡ has_room reading word cap }
{
    let low = word % READER;
    (low == 0 || low == UPGRADABLE) && readers(word) < cap.min(MAX_READERS)
}

// Returns `true` if the lock has room for an upgradable reader.
fn may_read_upgradable(word: usize, cap: usize) -> bool
    ensures { result ≡ has_room upgradable word cap }
{
    word % READER == 0 && readers(word) < cap.min(MAX_READERS)
}

/// Returns the word after a reader acquires the lock. Returns `None` if a writer holds it, if a reader asks
/// to upgrade, or at the cap. The cap is the smaller of `cap` and [`MAX_READERS`].
///
/// # Contract
/// The answer is `None` exactly where the plain lock refuses the step. Otherwise it is the word of the next
/// state (`Decides`).
#[tactic(auto, using(crate::proofs::ReaderSteps::grants))]
pub fn read(word: usize, cap: usize) -> Option<usize>
    ensures exact { result ≡ read cap word }
    ensures plain { (s : Plain) (party : ℕ) → OneOfEach s → s.cap ≡ min cap reader_limit → rw_word s ≡ word → Decides s (gets party to_read) rw_word result }
{
    if may_read(word, cap) {
        Some(word + READER)
    } else {
        None
    }
}

/// Returns the word after an upgradable reader acquires the lock. Returns `None` if a writer or another
/// upgradable reader holds it, or at the cap. The cap is the smaller of `cap` and [`MAX_READERS`].
///
/// # Contract
/// The answer is `None` exactly where the plain lock refuses the step. Otherwise it is the word of the next
/// state (`Decides`).
#[tactic(auto, using(crate::proofs::ReaderSteps::grants))]
pub fn upgradable(word: usize, cap: usize) -> Option<usize>
    ensures exact { result ≡ read_upgradable cap word }
    ensures plain { (s : Plain) (party : ℕ) → OneOfEach s → s.cap ≡ min cap reader_limit → rw_word s ≡ word → Decides s (gets party to_read_upgradable) rw_word result }
{
    if may_read_upgradable(word, cap) {
        Some(word + UPGRADABLE)
    } else {
        None
    }
}

/// Returns the word after a writer acquires the lock. Returns `None` if the lock is held.
///
/// # Contract
/// The answer is `None` exactly where the plain lock refuses the step. Otherwise it is the word of the next
/// state (`Decides`).
pub fn write(word: usize) -> Option<usize>
    ensures exact { result ≡ write word }
    ensures plain { (s : Plain) (party : ℕ) → rw_word s ≡ word → Decides s (gets party to_write) rw_word result }
{
    if word == 0 { Some(WRITER) } else { None }
}

/// Returns the word after the upgradable reader becomes the writer. Returns `None` if any other thread holds
/// the lock.
///
/// # Contract
/// The answer is `None` exactly where the plain lock refuses the step. Otherwise it is the word of the next
/// state (`Decides`).
#[tactic(auto, using(crate::proofs::ReaderSteps::grants))]
pub fn upgrade(word: usize) -> Option<usize>
    ensures exact { result ≡ upgrade word }
    ensures plain { (s : Plain) (party : ℕ) → OneOfEach s → is_holder party upgradable s.holders ≡ true → rw_word s ≡ word → Decides s (gets party to_upgrade) rw_word result }
{
    if word == UPGRADABLE {
        Some(WRITER)
    } else {
        None
    }
}

/// Returns the word after the upgradable reader asks to upgrade.
///
/// # Contract
/// The word has to show an upgradable reader that has not asked. Where the plain lock allows the step, the
/// answer is the word of the next state (`GivesWord`).
///
/// # Examples
/// ```
/// use spin::step::rw::{self, READER, UPGRADABLE, WRITER};
///
/// let asking = rw::ask(READER + UPGRADABLE);
/// assert_eq!(rt; rw::read(asking, 64), None);
/// assert_eq!(rt; rw::upgrade_asked(asking), None);
/// assert_eq!(rt; rw::upgrade_asked(rw::release_read(asking)), Some(WRITER));
/// ```
#[tactic(auto, using(crate::proofs::ReaderSteps::gives))]
pub fn ask(word: usize) -> usize
    requires { tells upgradable word ≡ true }
    ensures exact { result ≡ turned upgradable asking word }
    ensures plain { (s : Plain) (party : ℕ) → rw_word s ≡ word → GivesWord s (turns party upgradable asking) rw_word result }
{
    word + ASKING
}

/// Returns the word after the reader that asks becomes the writer. Returns `None` if any other thread holds
/// the lock.
///
/// # Contract
/// The answer is `None` exactly where the plain lock refuses the step. Otherwise it is the word of the next
/// state (`Decides`).
#[tactic(auto, using(crate::proofs::ReaderSteps::grants))]
pub fn upgrade_asked(word: usize) -> Option<usize>
    ensures exact { result ≡ upgrade_asked word }
    ensures plain { (s : Plain) (party : ℕ) → OneOfEach s → is_holder party asking s.holders ≡ true → rw_word s ≡ word → Decides s (gets party to_upgrade_asked) rw_word result }
{
    if word == UPGRADABLE + ASKING {
        Some(WRITER)
    } else {
        None
    }
}

/// Returns the word after a reader releases the lock.
///
/// # Contract
/// The word has to show a reader. Where the plain lock allows the step, the answer is the word of the next
/// state (`GivesWord`).
#[tactic(auto, using(crate::proofs::ReaderSteps::gives))]
pub fn release_read(word: usize) -> usize
    requires { tells reading word ≡ true }
    ensures exact { result ≡ released reading word }
    ensures plain { (s : Plain) (party : ℕ) → rw_word s ≡ word → GivesWord s (releases party reading) rw_word result }
{
    word - READER
}

/// Returns the word after the upgradable reader releases the lock.
///
/// # Contract
/// The word has to show an upgradable reader that has not asked. Where the plain lock allows the step, the
/// answer is the word of the next state (`GivesWord`).
#[tactic(auto, using(crate::proofs::ReaderSteps::gives))]
pub fn release_upgradable(word: usize) -> usize
    requires { tells upgradable word ≡ true }
    ensures exact { result ≡ released upgradable word }
    ensures plain { (s : Plain) (party : ℕ) → rw_word s ≡ word → GivesWord s (releases party upgradable) rw_word result }
{
    word - UPGRADABLE
}

/// Returns the word after the writer releases the lock.
///
/// # Contract
/// The word has to show a writer. Where the plain lock allows the step, the answer is the word of the next
/// state (`GivesWord`).
#[tactic(auto, using(crate::proofs::ReaderSteps::gives))]
pub fn release_write(word: usize) -> usize
    requires { tells writing word ≡ true }
    ensures exact { result ≡ released writing word }
    ensures plain { (s : Plain) (party : ℕ) → rw_word s ≡ word → GivesWord s (releases party writing) rw_word result }
{
    word - WRITER
}

/// Returns the word after the writer becomes a reader.
///
/// # Contract
/// The word has to show a writer. Where the plain lock allows the step, the answer is the word of the next
/// state (`GivesWord`).
#[tactic(auto, using(crate::proofs::ReaderSteps::gives))]
pub fn write_to_read(word: usize) -> usize
    requires { tells writing word ≡ true }
    ensures exact { result ≡ turned writing reading word }
    ensures plain { (s : Plain) (party : ℕ) → rw_word s ≡ word → GivesWord s (turns party writing reading) rw_word result }
{
    word + (READER - WRITER)
}

/// Returns the word after the writer becomes the upgradable reader.
///
/// # Contract
/// The word has to show a writer. Where the plain lock allows the step, the answer is the word of the next
/// state (`GivesWord`).
#[tactic(auto, using(crate::proofs::ReaderSteps::gives))]
pub fn write_to_upgradable(word: usize) -> usize
    requires { tells writing word ≡ true }
    ensures exact { result ≡ turned writing upgradable word }
    ensures plain { (s : Plain) (party : ℕ) → rw_word s ≡ word → GivesWord s (turns party writing upgradable) rw_word result }
{
    word + (UPGRADABLE - WRITER)
}

/// Returns the word after the upgradable reader becomes a reader.
///
/// # Contract
/// The word has to show an upgradable reader that has not asked, and fewer other readers than
/// [`MAX_READERS`]. Where the plain lock allows the step, the answer is the word of the next state (`GivesWord`).
#[tactic(auto, using(crate::proofs::ReaderSteps::gives))]
pub fn upgradable_to_read(word: usize) -> usize
    requires kind { tells upgradable word ≡ true }
    requires within { word / weight reading < reader_limit }
    ensures exact { result ≡ turned upgradable reading word }
    ensures plain { (s : Plain) (party : ℕ) → rw_word s ≡ word → GivesWord s (turns party upgradable reading) rw_word result }
{
    word + (READER - UPGRADABLE)
}

/// Returns how many threads read. The upgradable reader counts, whether or not it asks.
///
/// # Contract
/// The answer is that of the plain lock.
#[tactic(auto, using(crate::proofs::ReaderSteps::counts))]
pub fn readers(word: usize) -> usize
    ensures exact { result ≡ readers_in word }
    ensures plain { (s : Plain) → OneOfEach s → rw_word s ≡ word → result ≡ reader_count s.holders }
{
    word / READER + word % ASKING / UPGRADABLE
}

/// Returns how many threads write: 0 or 1.
///
/// # Contract
/// The answer is that of the plain lock.
#[tactic(auto, using(crate::proofs::ReaderSteps::counts))]
pub fn writers(word: usize) -> usize
    ensures exact { result ≡ writers_in word }
    ensures plain { (s : Plain) → OneOfEach s → rw_word s ≡ word → result ≡ count_kind writing s.holders }
{
    word % UPGRADABLE
}

/// Returns `true` if any thread holds the lock.
///
/// # Contract
/// The answer is that of the plain lock.
#[tactic(auto, using(crate::proofs::ReaderSteps::counts))]
pub fn is_locked(word: usize) -> bool
    ensures exact { result ≡ is_held_word word }
    ensures plain { (s : Plain) → s.tickets ≡ [] → rw_word s ≡ word → is_held s ≡ result }
{
    word != 0
}
