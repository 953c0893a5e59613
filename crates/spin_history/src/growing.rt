//! Orders of values, and a register whose value changes only as an order allows. Begin with [`Growing`]. The
//! functions of [`register`](crate::register) work on such a register under a lock.
ghost use Rattle.std.specs.Prelude.{◌≡◌};

use crate::register::Register;

/// A preorder on `T`: which value may follow which.
///
/// # Examples
/// ```
/// use spin_history::growing::{Growing, Preorder};
/// use spin_history::history::{BlankLog, History, Work, open};
///
/// struct Descending;
///
/// impl Preorder<u64> for Descending {
///     ghost use Rattle.std.specs.Prelude.{◌≤◌};
///     ghost use Rattle.std.proofs.Common.{le_refl, le_trans};
///     ghost use Rattle.std.proofs.Math.Bridge.{le_prop};
///
///     ghost le = { λ x y. y ≤ x };
///
///     ghost fact = { λ x y. le_prop };
///
///     ghost reflexive = { λ x. le_refl x };
///
///     ghost transitive = { λ x y z h k. le_trans k h };
/// }
///
/// #[derive(Drop)]
/// struct CountDown;
///
/// impl Work for CountDown {
///     type Answer = u64;
///
///     fn run<H: History + Send + Sync>(self, blank: BlankLog) -> u64 {
///         let log = blank.open::<u64, H>();
///         let mut seen = log.snapshot();
///         let mut left: Growing<u64, Descending, H> = Growing::new(9, log);
///         left.write(8, &mut seen);
///         left.read(&mut seen)
///     }
/// }
///
/// assert_eq!(rt; open(CountDown), 8);
/// ```
pub trait Preorder<T> {
    ghost le: { T → T → Type 0 };

    ghost fact: { (x y : T) → IsProp (le x y) };

    ghost reflexive: { (x : T) → le x x };

    ghost transitive: { (x y z : T) → le x y → le y z → le x z };
}

/// The order in which any value may follow any other: the default order of a [`Register`].
pub struct Unordered;

impl<T> Preorder<T> for Unordered {
    ghost use Rattle.std.specs.Prelude.{⊤};
    ghost use mathlib.Core.HLevel.{Unit-prop};

    ghost le = { λ x y. ⊤ };

    ghost fact = { λ x y. Unit-prop };

    ghost reflexive = { λ x. tt };

    ghost transitive = { λ x y z h k. tt };
}

/// The order in which a number never falls.
pub struct Ascending;

impl Preorder<u64> for Ascending {
    ghost use Rattle.std.specs.Prelude.{ℕ, ◌≤◌};
    ghost use Rattle.std.proofs.Common.{le_refl, le_trans};
    ghost use Rattle.std.proofs.Math.Bridge.{le_prop};

    ghost le = { λ x y. x ≤ y };

    ghost fact = { λ x y. le_prop };

    ghost reflexive = { λ x. le_refl x };

    ghost transitive = { λ x y z h k. le_trans h k };
}

/// A register whose values change only as the order `P` allows. A caller that has seen a value never reads an
/// earlier one.
///
/// # Examples
/// ```
/// use spin::RwLock;
/// use spin_history::growing::{Ascending, Growing};
/// use spin_history::history::{BlankLog, History, Work, open};
/// use spin_history::register;
/// use std::sync::Wait;
///
/// #[derive(Drop)]
/// struct Raise<'a, W>(&'a W);
///
/// impl<W: Wait> Work for Raise<'_, W> {
///     ghost use Rattle.std.specs.Prelude.{◌≤◌};
///
///     type Answer = (u64, u64);
///
///     ghost gives = { λ _ answer. answer.0 ≤ answer.1 };
///
///     fn run<H: History + Send + Sync>(self, blank: BlankLog) -> (u64, u64) {
///         let rt = self.0;
///         let log = blank.open::<u64, H>();
///         let mut seen = log.snapshot();
///         let version: RwLock<Growing<u64, Ascending, H>> = RwLock::new(Growing::new(1, log));
///         let first = register::read_shared(rt, &version, &mut seen);
///         register::update(
///             rt,
///             &version,
///             |old: &u64| -> u64
///                 ensures { old.now ≤ result }
///             { old.saturating_add(1) },
///             &mut seen,
///         );
///         (first, register::read_shared(rt, &version, &mut seen))
///     }
/// }
///
/// assert_eq!(rt; open(Raise(&rt)), (1, 2));
/// ```
pub type Growing<T, P, H> = Register<T, H, P>;
