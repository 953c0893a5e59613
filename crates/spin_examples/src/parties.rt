//! Two passes of a lock are two parties. Begin at [`look_twice`].
ghost use Rattle.spin_flag.specs.Passes.{◌⨾◌, After, AreTwo, Calls, Is, IsLocked, new_in, opening};

use spin_core::relax::Spin;
use spin_flag::a_pass_that_calls_after_another_is_another_party;
use spin_flag::spin::{Pass, SpinMutex};

/// Looks at the lock twice, each time by another party.
///
/// # Contract
/// The passes are two parties (`two`). The second has looked once, after the first (`second`).
///
/// # Examples
/// ```
/// use spin_examples::parties::look_twice;
/// use spin_flag::spin::SpinMutex;
///
/// let lock: SpinMutex<u64> = SpinMutex::new(4);
/// let ((first, _), (second, _)) = look_twice(&lock);
/// assert!(rt; !first && !second);
/// ```
pub fn look_twice(
    lock: &SpinMutex<u64>,
) -> ((bool, Pass<'_, u64, Spin>), (bool, Pass<'_, u64, Spin>))
    ensures two { AreTwo result.0.1 result.1.1 }
    ensures second { (After result.0.1 ⨾ Calls IsLocked (Is result.1.0)) (new_in (opening lock.now)) result.1.1 }
{
    a_pass_that_calls_after_another_is_another_party::<u64>();
    let (first, one) = lock.pass().is_locked();
    let (second, other) = lock.pass().after(&one).is_locked();
    ((first, one), (second, other))
}
