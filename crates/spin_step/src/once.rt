//! The state of a `Once` in one byte: 0 without a value, 1 while a closure runs, 2 with a value. Begin with
//! [`begin`].
//!
//! # Examples
//! ```
//! use spin::step::once;
//!
//! assert_eq!(rt; once::begin(0), Some(1));
//! assert_eq!(rt; once::begin(1), None);
//! assert_eq!(rt; once::complete(1), 2);
//! assert_eq!(rt; once::fail(1), 0);
//! ```
ghost use Rattle.std.specs.Prelude.{◌≡◌, ℕ, ◌==◌, Option, Some, None, if◌then◌else◌};
ghost use Rattle.spin_step.specs.Plain.{Plain, gets, completes, fails, to_begin, once_word};
ghost use Rattle.spin_step.specs.Flags.{begun, completed, failed};
ghost use Rattle.spin_step.specs.Steps.{Decides, GivesWord};

/// Returns the state after a thread begins to run its closure. Returns `None` if a closure is running or
/// there is a value.
///
/// # Contract
/// The answer is `None` exactly where the plain lock refuses the step. Otherwise it is the word of the next
/// state (`Decides`).
pub fn begin(state: u8) -> Option<u8>
    ensures exact { result ≡ begun state }
    ensures plain { (s : Plain) (party : ℕ) → once_word s ≡ state → Decides s (gets party to_begin) once_word result }
{
    if state == 0 { Some(1) } else { None }
}

/// Returns the state after a closure has given its value.
///
/// # Contract
/// The state has to be 1: a closure is running. Where the plain lock allows the step, the answer is the word
/// of the next state (`GivesWord`).
pub fn complete(state: u8) -> u8
    requires { state ≡ 1 }
    ensures exact { result ≡ completed state }
    ensures plain { (s : Plain) (party : ℕ) → once_word s ≡ state → GivesWord s (completes party) once_word result }
{
    state + 1
}

/// Returns the state after a closure has failed. Another closure may then begin.
///
/// # Contract
/// The state has to be 1: a closure is running. Where the plain lock allows the step, the answer is the word
/// of the next state (`GivesWord`).
pub fn fail(state: u8) -> u8
    requires { state ≡ 1 }
    ensures exact { result ≡ failed state }
    ensures plain { (s : Plain) (party : ℕ) → once_word s ≡ state → GivesWord s (fails party) once_word result }
{
    state - 1
}
