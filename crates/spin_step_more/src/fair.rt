//! The holder and the starvers of a fair lock in one word: the sum of their weights. Begin with [`lock`] and
//! [`starve`].
//!
//! A starver is a thread that has registered to go before newcomers. All other threads are newcomers.
//!
//! # Examples
//! ```
//! use spin::step::fair::{self, HOLDER, LockRejectReason, STARVER};
//!
//! assert_eq!(rt; fair::lock(0), Some(HOLDER));
//! assert_eq!(rt; fair::lock(STARVER), None);
//! assert_eq!(rt; fair::reject(STARVER), LockRejectReason::Starved);
//! assert_eq!(rt; fair::starve(HOLDER, 4), Some(HOLDER + STARVER));
//! assert_eq!(rt; fair::lock_fair(STARVER), Some(HOLDER + STARVER));
//! assert_eq!(rt; fair::lock_fair(2 * STARVER), None);
//! assert_eq!(rt; fair::unlock(HOLDER + STARVER), STARVER);
//! assert_eq!(rt; fair::unstarve(STARVER), 0);
//! ```
ghost use Rattle.std.specs.Prelude.{◌≡◌, ◌≢◌, ◌≤◌, ◌+◌, ◌-◌, ◌/◌, ◌%◌, ◌==◌, ℕ, Option, Some, None, [], true, if◌then◌else◌, nat_lt, min};
ghost use Rattle.spin_step.specs.Plain.{Plain, Kind, gets, releases, stops_starving, to_lock_unregistered, to_lock_starving, to_lock_starving_alone, to_starve, is_starver, starver_weight, fair_word};
ghost use Rattle.spin_step.specs.Parties.{is_held};
ghost use Rattle.spin_step.specs.Steps.{Decides, GivesWord};
ghost use Rattle.spin_step_more.specs.Starvers.{most_starvers, Tells, reason_text, is_held_word, lock, reject, starve, unstarved, lock_fair, lock_starved, unlocked};
ghost use Rattle.spin_step.specs.Parties.{OneHolds};
ghost use Rattle.spin_step_more.specs.declared.fair.LockRejectReason.TheVariants.{Locked, Starved};

use std::error::Error;
use std::fmt;
use std::fmt::{Display, Formatter};

/// The weight of the holder in the word.
pub const HOLDER: usize = 1;

/// The weight of each starver in the word.
pub const STARVER: usize = 2;

/// The most starvers that may be registered at the same time.
pub const MAX_STARVERS: usize = isize::MAX as usize / 2;

/// Why a thread that is no starver fails to acquire the lock.
#[derive(Clone, Copy, Debug, PartialEq, Eq)]
pub enum LockRejectReason {
    /// The lock is held, and no thread starves.
    Locked,
    /// A thread starves, and goes before newcomers.
    Starved,
}

impl Display for LockRejectReason {
    ghost output = { λ reason. Some (reason_text reason) };

    fn fmt<W: fmt::Write>(&self, f: &mut Formatter<W>) -> fmt::Result {
        f.write_str(match self {
            LockRejectReason::Locked => "locked",
            LockRejectReason::Starved => "starved",
        })
    }
}

impl Error for LockRejectReason {}

/// Returns the word after a newcomer acquires the lock. Returns `None` if the lock is held or a thread
/// starves.
///
/// # Contract
/// The answer is `None` exactly where the plain lock refuses the step. Otherwise it is the word of the next
/// state (`Decides`).
pub fn lock(word: usize) -> Option<usize>
    ensures exact { result ≡ lock word }
    ensures plain { (s : Plain) (party : ℕ) → fair_word s ≡ word → Decides s (gets party to_lock_unregistered) fair_word result }
{
    if word == 0 { Some(HOLDER) } else { None }
}

/// Returns the reason why [`lock`] returns `None` for this word.
///
/// # Contract
/// The word must not be 0. The answer is true of the plain lock (`Tells`).
pub fn reject(word: usize) -> LockRejectReason
    requires { word ≢ 0 }
    ensures exact { result ≡ reject word }
    ensures plain { (s : Plain) → OneHolds s → fair_word s ≡ word → Tells s result }
{
    if word == HOLDER {
        LockRejectReason::Locked
    } else {
        LockRejectReason::Starved
    }
}

/// Returns the word after a thread registers as a starver. Returns `None` if `cap` starvers, or
/// [`MAX_STARVERS`], are registered.
///
/// # Contract
/// The answer is `None` exactly where the plain lock refuses the step. Otherwise it is the word of the next
/// state (`Decides`).
pub fn starve(word: usize, cap: usize) -> Option<usize>
    ensures exact { result ≡ starve cap word }
    ensures plain { (s : Plain) (party : ℕ) → OneHolds s → s.cap ≡ min cap most_starvers → fair_word s ≡ word → Decides s (gets party to_starve) fair_word result }
{
    if word / STARVER < cap.min(MAX_STARVERS) {
        Some(word + STARVER)
    } else {
        None
    }
}

/// Returns the word after a starver ends its registration.
///
/// # Contract
/// The word has to count a starver. Where the plain lock allows the step, the answer is the word of the next
/// state (`GivesWord`).
#[tactic(auto, using(crate::proofs::FairSteps::gives))]
pub fn unstarve(word: usize) -> usize
    requires { starver_weight ≤ word }
    ensures exact { result ≡ unstarved word }
    ensures plain { (s : Plain) (party : ℕ) → fair_word s ≡ word → GivesWord s (stops_starving party) fair_word result }
{
    word - STARVER
}

/// Returns the word after a starver acquires the lock. Returns `None` if the lock is held or another thread
/// starves.
///
/// # Contract
/// The answer is `None` exactly where the plain lock refuses the step. Otherwise it is the word of the next
/// state (`Decides`).
pub fn lock_fair(word: usize) -> Option<usize>
    ensures exact { result ≡ lock_fair word }
    ensures plain { (s : Plain) (party : ℕ) → OneHolds s → is_starver party s.starvers ≡ true → fair_word s ≡ word → Decides s (gets party to_lock_starving_alone) fair_word result }
{
    if word == STARVER {
        Some(STARVER + HOLDER)
    } else {
        None
    }
}

/// Returns the word after a starver acquires the lock. Returns `None` if the lock is held.
///
/// # Contract
/// The answer is `None` exactly where the plain lock refuses the step. Otherwise it is the word of the next
/// state (`Decides`).
pub fn lock_starved(word: usize) -> Option<usize>
    ensures exact { result ≡ lock_starved word }
    ensures plain { (s : Plain) (party : ℕ) → OneHolds s → is_starver party s.starvers ≡ true → fair_word s ≡ word → Decides s (gets party to_lock_starving) fair_word result }
{
    if word % STARVER == 0 {
        Some(word + HOLDER)
    } else {
        None
    }
}

/// Returns the word after the holder releases the lock.
///
/// # Contract
/// The word has to show a holder. Where the plain lock allows the step, the answer is the word of the next
/// state (`GivesWord`).
#[tactic(auto, using(crate::proofs::FairSteps::gives))]
pub fn unlock(word: usize) -> usize
    requires { is_held_word word ≡ true }
    ensures exact { result ≡ unlocked word }
    ensures plain { (s : Plain) (party : ℕ) (kind : Kind) → fair_word s ≡ word → GivesWord s (releases party kind) fair_word result }
{
    word - HOLDER
}

/// Returns `true` if a thread holds the lock.
///
/// # Contract
/// The answer is that of the plain lock.
pub fn is_locked(word: usize) -> bool
    ensures exact { result ≡ is_held_word word }
    ensures plain { (s : Plain) → OneHolds s → s.tickets ≡ [] → fair_word s ≡ word → is_held s ≡ result }
{
    word % STARVER == HOLDER
}
