//! Mutable access to the value of a cell, for an owner that has to keep it stable. Begin with [`Stabilizes`].
ghost use Rattle.std.specs.Prelude.{◌≡◌, Bool, true};

use super::{Cell, Rule};

/// A type with a notion of stable values. A stable value may be replaced only by a stable one.
pub trait Stabilizes {
    // Whether a value is stable.
    ghost stable: { Self → Bool };
}

/// The value of a cell, stable or not.
#[derive(Drop)]
pub struct MaybeStable<T> {
    pub value: T,
}

/// A value that is stable. Only another stable value can replace it.
pub struct Stable<T: Stabilizes> {
    pub value: T,
    ghost stable: { T.stable value ≡ true },
}

impl<T: Stabilizes, V, P: Rule<MaybeStable<T>, V>> Cell<MaybeStable<T>, V, P> {
    ghost use Rattle.spin_core.specs.Cell.{MayLend};
    ghost use Rattle.spin_core.specs.Stable.{StableAt};

    /// Returns a mutable reference to the value if the first word is `first`. The borrow shows that there is no permit.
    ///
    /// # Contract
    /// The cell gets the key that the rule names (`lent`). Where the rule holds under the old key, it has to hold
    /// under the new one (`MayLend`). Where the new rule holds of the word `first`, the value has to be stable, and
    /// any stable value may replace it (`StableAt`). The value stays stable.
    pub fn get_stable(&mut self, first: u64) -> Option<&mut Stable<T>>
        requires stable { StableAt (P.holds (P.lent self.old)) (P.ways (P.lent self.old)) T.stable first }
        requires lends { MayLend (P.holds self.old) (P.ways self.old) (P.holds (P.lent self.old)) (P.ways (P.lent self.old)) }
    {
        if self.first == first {
            Some(unsafe { &mut *(&raw const self.value as *mut Stable<T>) })
        } else {
            None
        }
    }
}
