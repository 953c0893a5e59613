//! The steps of a lock's table, made on words. Begin with [`stepped`].
ghost use Rattle.std.specs.Prelude.{◌≡◌, Option, Some, None, true};
ghost use Rattle.spin_step.specs.Acts.{can_by, completes_by, filled, refusal_by, stays, step_by, step_with, with_value};

use spin_step::{Answer, Hold, Next, Operation, Stepped, Steps, Words};

/// Returns the outcome of the call's next step at these words.
///
/// # Contract
/// The step has to be possible at these words. The table has no answer `Value`. The outcome is that of the table.
///
/// # Examples
/// ```
/// use spin_step::{FlagCall, FlagPoint, FlagTable, Next, Stepped};
/// use spin_world_core::stepping::stepped;
///
/// let (call, point) = (FlagCall::TryLock, FlagPoint::First);
/// let made: Stepped<bool, u64, _, _> = stepped(&FlagTable, false, call, point, None);
/// assert!(rt; made.words);
/// assert!(rt; matches!(made.next, Next::Answers(_, Some(_))));
/// ```
pub fn stepped<T: Copy, C: Copy, L: Copy, S: Steps<T, C, L>>(
    steps: &S,
    words: S::Words,
    call: C,
    point: L,
    holds: Option<Hold>,
) -> Stepped<S::Words, T, L, Answer<T>>
    requires given { S.given ≡ None }
    requires can { (value : T) → let t = S.table steps.now value in can_by t.memory (t.word point) (t.act call point holds) words ≡ true }
    ensures { (value : T) → let t = S.table steps.now value in result ≡ step_by t.memory (t.word point) (t.act call point holds) words }
{
    let (words, next) = made::<T, T, C, L, S>(steps, words, call, point, holds);
    Stepped {
        words,
        placed: None,
        next: fill(None, next),
    }
}

/// Returns how the call goes on after its next step failed spuriously, or `None` if that step cannot.
///
/// # Contract
/// The table has no answer `Value`. The answer is that of the table.
pub fn refused<T: Copy, C: Copy, L: Copy, S: Steps<T, C, L>>(
    steps: &S,
    call: C,
    point: L,
    holds: Option<Hold>,
) -> Option<Next<L, Answer<T>>>
    requires { S.given ≡ None }
    ensures { (value : T) → result ≡ refusal_by ((S.table steps.now value).act call point holds) }
{
    if !steps.is_weak(call, point, holds) {
        return None;
    }
    let other = match steps.operation(call, point, holds) {
        Operation::Exchange(old, _) => u64::from(old == 0),
        _ => 0,
    };
    Some(fill(None, steps.next(call, point, holds, other)))
}

/// Returns the outcome of the call's next step, for a lock whose closures make its value. `value` is the value that is
/// there. The call's own closure gives the value `brings`, and `completes` says whether this step stores it.
///
/// # Contract
/// The step has to be possible at these words. The outcome is that of the table, with the value that is there after
/// the step.
pub fn stepped_with<V: Copy, C: Copy, L: Copy, S: Steps<(), C, L>>(
    steps: &S,
    words: S::Words,
    value: Option<V>,
    brings: Option<V>,
    completes: bool,
    call: C,
    point: L,
    holds: Option<Hold>,
) -> Stepped<S::Words, V, L, Answer<V>>
    requires given { S.given ≡ Some tt }
    requires completes { completes ≡ completes_by ((S.table steps.now tt).act call point holds) }
    requires can { let t = S.table steps.now tt in can_by t.memory (t.word point) (t.act call point holds) words ≡ true }
    ensures { let t = S.table steps.now tt in result ≡ step_with value brings completes (step_by t.memory (t.word point) (t.act call point holds) words) }
{
    let placed = if completes { brings } else { None };
    let there = if placed.is_some() { placed } else { value };
    let (words, next) = made::<(), V, C, L, S>(steps, words, call, point, holds);
    Stepped {
        words,
        placed,
        next: fill(there, next),
    }
}

// Makes the next step of the call at these words. Returns the words after it, and how the call goes on.
fn made<T, V, C: Copy, L: Copy, S: Steps<T, C, L>>(
    steps: &S,
    words: S::Words,
    call: C,
    point: L,
    holds: Option<Hold>,
) -> (S::Words, Next<L, Answer<()>>)
    requires { (value : T) → let t = S.table steps.now value in can_by t.memory (t.word point) (t.act call point holds) words ≡ true }
    ensures { (value : T) → let t = S.table steps.now value in step_by {V = V} t.memory (t.word point) (t.act call point holds) words ≡ stays result.0 (filled S.given result.1) }
{
    let place = steps.place(point);
    let found = words.number(place);
    let next = steps.next(call, point, holds, found);
    let number = match steps.operation(call, point, holds) {
        Operation::Exchange(old, new) if found == old => new,
        Operation::Store(new) => new,
        Operation::Add(by) => found.wrapping_add(by),
        Operation::Subtract(by) => found.saturating_sub(by),
        Operation::SetLowestBit if found % 2 == 0 => found + 1,
        _ => return (words, next),
    };
    (words.put(place, number), next)
}

// Returns how the call goes on, with the value that is there.
fn fill<V: Copy, L>(value: Option<V>, next: Next<L, Answer<()>>) -> Next<L, Answer<V>>
    ensures { result ≡ filled value next }
{
    match next {
        Next::Continue(point) => Next::Continue(point),
        Next::Answers(answer, after) => Next::Answers(with_value(answer, value), after),
    }
}

// Returns the answer with the value that is there.
fn with_value<V: Copy>(answer: Answer<()>, value: Option<V>) -> Answer<V>
    ensures { result ≡ with_value answer value }
{
    match answer {
        Answer::Value(_) => match value {
            Some(value) => Answer::Value(value),
            None => Answer::NoValue,
        },
        Answer::Granted => Answer::Granted,
        Answer::Refused => Answer::Refused,
        Answer::Locked => Answer::Locked,
        Answer::Starved => Answer::Starved,
        Answer::Done => Answer::Done,
        Answer::Is(holds) => Answer::Is(holds),
        Answer::Count(number) => Answer::Count(number),
        Answer::NoValue => Answer::NoValue,
        Answer::Failed => Answer::Failed,
        Answer::Leader => Answer::Leader,
        Answer::Follower => Answer::Follower,
    }
}
