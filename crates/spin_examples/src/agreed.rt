//! What threads know of the value of one `Once` or `LazyLock`. No function here needs a proof by hand.
ghost use Rattle.std.specs.Prelude.{◌≡◌, ◌⊎◌, IfSome, [], ◌∷◌};
ghost use Rattle.spin_once.specs.Lazy.{initialiser, promise};
ghost use Rattle.spin_once.specs.LazyPasses.{opening as lazy_opening};
ghost use Rattle.spin_once.specs.OncePasses.{◌⨾◌, AreOfOne, Calls, Has, OpensWithValues, TellsValue, WroteNone, lock_of, new_in, opening, opening_of};
ghost use Rattle.spin_step.specs.declared.answer.Answer.TheVariants.{Value, Is};
ghost use Rattle.spin_step.specs.declared.once_calls.OnceCall.TheVariants.{CallOnce, IsCompleted};

use spin_core::relax::Spin;
use spin_once::lazylock::{LazyLock, Makes};
use spin_once::once::{Once, Pass};
use std::sync::Wait;
use std::thread::{Threads, join};

/// Reads a `Once` that was made with the value `n`.
pub fn read_given(once: &Once<u64>, n: u64) -> Option<u64>
    requires { OpensWithValues (n ∷ []) (opening once.now) }
    ensures { IfSome result (λ x. x ≡ n) }
{
    once.get().copied()
}

/// Calls `call_once` of a `Once` that was made with a value: the closure does not count.
pub fn made_before<W: Wait>(rt: &W, n: u64) -> u64
    ensures { result ≡ n }
{
    let once: Once<u64> = Once::initialized(n);
    *once.call_once(rt, || 5)
}

/// Stores `n` if there is no value, and then reads the value.
pub fn set_then_read<W: Wait>(rt: &W, once: &Once<u64>, n: u64) -> (u64, u64)
    requires { TellsValue (new_in (opening once.now)) }
    ensures { result.0 ≡ result.1 }
{
    let (set, setter) = once.pass().call_once(rt, || n);
    let (read, reader) = once.pass().wait(rt);
    setter.agrees(set, &reader, read);
    (*set, *read)
}

/// Stores 7 if there is no value. Another value is one that another caller wrote, or that the `Once` was made with.
pub fn won<'a, W: Wait>(rt: &W, pass: Pass<'a, u64, Spin>) -> (u64, Pass<'a, u64, Spin>)
    ensures { (result.0 ≡ 7) ⊎ WroteNone pass.entry result.1 }
{
    let (value, pass) = pass.call_once(rt, || 7);
    (*value, pass)
}

/// Makes two calls.
pub fn make_and_look<'a, W: Wait>(rt: &W, pass: Pass<'a, u64, Spin>) -> (bool, Pass<'a, u64, Spin>)
    ensures { (Calls (CallOnce tt) (Value tt) ⨾ Calls IsCompleted (Is result.0)) pass.entry result.1 }
{
    let (_, pass) = pass.call_once(rt, || 7);
    let (there, pass) = pass.is_completed();
    (there, pass)
}

/// Two threads bring a closure each, and get one value.
pub fn race<R: Threads + Wait + Sync>(rt: &R, once: &Once<u64>) -> (u64, u64)
    requires { TellsValue (new_in (opening once.now)) }
    ensures { result.0 ≡ result.1 }
{
    let ((one, first), (other, second)) = join(
        rt,
        || -> (&u64, Pass<'_, u64, Spin>)
            ensures { AreOfOne result.1 (new_in (opening once.entry.now)) × Has result.1 result.0.now }
        { once.pass().call_once(rt, || 1) },
        || -> (&u64, Pass<'_, u64, Spin>)
            ensures { AreOfOne result.1 (new_in (opening once.entry.now)) × Has result.1 result.0.now }
        { once.pass().call_once(rt, || 2) },
    );
    first.agrees(one, &second, other);
    (*one, *other)
}

/// What the maker of a value knows.
#[derive(Drop)]
pub struct Known<'a> {
    once: &'a Once<u64>,
    value: u64,
    maker: Pass<'a, u64, Spin>,
    ghost of: { AreOfOne maker (new_in (opening once.now)) },
    ghost told: { TellsValue (new_in (opening once.now)) },
    ghost has: { Has maker value },
}

// Reads the value that the maker knows.
fn read<W: Wait>(rt: &W, known: Known<'_>) -> u64
    ensures { result ≡ known.entry.value }
{
    let (found, reader) = known.once.pass().wait(rt);
    known.maker.agrees(&known.value, &reader, found);
    *found
}

/// The maker hands what it knows to a reader in another thread.
pub fn handed<R: Threads + Wait + Sync>(rt: &R, once: &Once<u64>, n: u64) -> (u64, u64)
    requires { TellsValue (new_in (opening once.now)) }
    ensures { result.0 ≡ result.1 }
{
    let (made, maker) = once.pass().call_once(rt, || n);
    let value = *made;
    let known = Known { once, value, maker };
    let (found, _) = join(rt, move || read(rt, known), || 0u8);
    (value, found)
}

/// Asks a `LazyLock` for its value by two passes.
pub fn forced_twice<W: Wait, F: Makes<u64, ()>>(rt: &W, lazy: &LazyLock<u64, F>) -> (u64, u64)
    requires can { F.can (initialiser lazy.now) (promise lazy.now) }
    requires told { TellsValue (new_in (lazy_opening lazy.now)) }
    ensures { result.0 ≡ result.1 }
{
    let (one, first) = LazyLock::pass(lazy).force(rt);
    let (other, second) = LazyLock::pass(lazy).force(rt);
    first.agrees(one, &second, other);
    (*one, *other)
}
