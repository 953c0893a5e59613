//! Accounts under locks: each call says what it found there, and what it left. Begin at [`withdraw`].
ghost use Rattle.std.specs.Prelude.{◌≡◌, ◌+◌, ◌≤◌};
ghost use Rattle.spin_core.specs.Guard.{guard_value};
ghost use Rattle.spin_flag.specs.Passes.{◌⨾◌, FoundBy, Wrote, Lock, Release};

use spin_core::relax::Spin;
use spin_flag::spin::{Pass, SpinMutex, SpinMutexGuard};
use std::sync::Wait;

/// Takes `amount` under a guard, or less if there is less. Returns what it took.
///
/// # Contract
/// What it took and what it left is what it found (`exact`).
pub fn take_by(guard: &mut SpinMutexGuard<'_, u64, Spin>, amount: u64) -> u64
    ensures few { result ≤ amount }
    ensures exact { result + guard_value guard.new ≡ guard_value guard.old }
{
    let taken = amount.min(**guard);
    **guard -= taken;
    taken
}

/// Takes `amount`, or less if there is less. Returns what it took and what it left.
///
/// # Contract
/// The pass has acquired the lock once, and found what it took and what it left; it wrote what it left, and released
/// the lock (`made`).
///
/// # Examples
/// ```
/// use spin_examples::accounts::withdraw;
/// use spin_flag::spin::SpinMutex;
///
/// let balance: SpinMutex<u64> = SpinMutex::new(10);
/// let (taken, left, pass) = withdraw(&rt, balance.pass(), 4);
/// assert_eq!(rt; (taken, left), (4, 6));
/// drop(pass);
/// ```
pub fn withdraw<'a, W: Wait>(
    rt: &W,
    pass: Pass<'a, u64, Spin>,
    amount: u64,
) -> (u64, u64, Pass<'a, u64, Spin>)
    ensures few { result.0 ≤ amount }
    ensures made { (FoundBy Lock (result.0 + result.1) ⨾ Wrote Release result.1) pass.entry result.2 }
{
    let mut guard = pass.lock(rt);
    let (taken, left) = take(*guard, amount);
    let found = taken + left;
    SpinMutexGuard::found(&guard, &found);
    *guard = left;
    (taken, left, SpinMutex::unlock(guard))
}

// Takes `amount` of a balance, or less if there is less. Returns what it took and what is left.
fn take(balance: u64, amount: u64) -> (u64, u64)
    ensures few { result.0 ≤ amount }
    ensures whole { result.0 + result.1 ≡ balance }
{
    let taken = amount.min(balance);
    (taken, balance - taken)
}

/// What a transfer did: the balances that it found, and those that it left.
#[derive(Drop)]
pub struct Moved<'a> {
    pub from: Pass<'a, u64, Spin>,
    pub to: Pass<'a, u64, Spin>,
    pub found: (u64, u64),
    pub left: (u64, u64),
}

/// Moves `amount` from one account to the other, or nothing if the first has too little or the second too much. It
/// holds both locks meanwhile.
///
/// # Contract
/// Each pass has acquired its lock once, and says what it found and left there (`from`, `to`). The sum stays (`whole`).
///
/// # Examples
/// ```
/// use spin_examples::accounts::transfer;
/// use spin_flag::spin::SpinMutex;
///
/// let (one, other): (SpinMutex<u64>, SpinMutex<u64>) = (SpinMutex::new(6), SpinMutex::new(0));
/// let moved = transfer(&rt, one.pass(), other.pass(), 4);
/// assert_eq!(rt; (moved.found, moved.left), ((6, 0), (2, 4)));
/// drop(moved);
/// ```
pub fn transfer<'a, W: Wait>(
    rt: &W,
    from: Pass<'a, u64, Spin>,
    to: Pass<'a, u64, Spin>,
    amount: u64,
) -> Moved<'a>
    ensures from { (FoundBy Lock result.found.0 ⨾ Wrote Release result.left.0) from.entry result.from }
    ensures to { (FoundBy Lock result.found.1 ⨾ Wrote Release result.left.1) to.entry result.to }
    ensures whole { result.left.0 + result.left.1 ≡ result.found.0 + result.found.1 }
{
    let mut source = from.lock(rt);
    let mut target = to.lock(rt);
    let found = (*source, *target);
    SpinMutexGuard::found(&source, &found.0);
    SpinMutexGuard::found(&target, &found.1);
    let left = after_transfer(found, amount);
    *source = left.0;
    *target = left.1;
    let to = SpinMutex::unlock(target);
    Moved {
        from: SpinMutex::unlock(source),
        to,
        found,
        left,
    }
}

// Returns the balances after the amount has moved from the first to the second.
fn after_transfer(found: (u64, u64), amount: u64) -> (u64, u64)
    ensures { result.0 + result.1 ≡ found.0 + found.1 }
{
    match (found.0.checked_sub(amount), found.1.checked_add(amount)) {
        (Some(less), Some(more)) => (less, more),
        _ => found,
    }
}
