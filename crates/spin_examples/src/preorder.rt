//! An order of a caller's own for the values of a `Growing`.
use spin_history::growing::Preorder;

/// A version of a program, and its size.
#[derive(Clone, Copy)]
pub struct Build {
    pub version: u64,
    pub size: u64,
}

/// The order in which a build is followed by one of the same version or a later one.
pub struct ByVersion;

impl Preorder<Build> for ByVersion {
    ghost use Rattle.std.specs.Prelude.{◌≤◌};
    ghost use Rattle.std.proofs.Common.{le_refl, le_trans};
    ghost use Rattle.std.proofs.Math.Bridge.{le_prop};

    ghost le = { λ x y. x.version ≤ y.version };

    ghost fact = { λ x y. le_prop };

    ghost reflexive = { λ x. le_refl x.version };

    ghost transitive = { λ x y z h k. le_trans h k };
}
