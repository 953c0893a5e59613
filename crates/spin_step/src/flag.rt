//! The lock of one flag, which is set while a thread holds it. Begin with [`lock`].
//!
//! # Examples
//! ```
//! use spin::step::flag;
//!
//! assert_eq!(rt; flag::lock(false), Some(true));
//! assert_eq!(rt; flag::lock(true), None);
//! assert!(rt; !flag::unlock(true));
//! ```
ghost use Rattle.std.specs.Prelude.{◌≡◌, ℕ, Option, true, false, IsTrue, if◌then◌else◌};
ghost use Rattle.std.specs.Option.{option_map};
ghost use Rattle.spin_step.specs.Plain.{Plain, Kind, gets, releases, to_write, flag_word};
ghost use Rattle.spin_step.specs.Flags.{lock};
ghost use Rattle.spin_step.specs.Steps.{bit, Decides, GivesWord};

/// Returns the flag after a thread acquires the lock, or `None` if the lock is held.
///
/// # Contract
/// The answer is `None` exactly where the plain lock refuses the step. Otherwise it is the word of the next
/// state (`Decides`).
pub fn lock(flag: bool) -> Option<bool>
    ensures exact { result ≡ lock flag }
    ensures plain { (s : Plain) (party : ℕ) → flag_word s ≡ bit flag → Decides s (gets party to_write) flag_word (option_map bit result) }
{
    if flag { None } else { Some(true) }
}

/// Returns the flag after the holder releases the lock.
///
/// # Contract
/// The flag has to be set. Where the plain lock allows the step, the answer is the word of the next state
/// (`GivesWord`).
#[tactic(auto, using(crate::proofs::Flags::gives))]
pub fn unlock(flag: bool) -> bool
    requires { IsTrue flag }
    ensures exact { result ≡ false }
    ensures plain { (s : Plain) (party : ℕ) (kind : Kind) → flag_word s ≡ bit flag → GivesWord s (releases party kind) flag_word (bit result) }
{
    let _ = flag;
    false
}
