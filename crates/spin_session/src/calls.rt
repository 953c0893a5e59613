//! The calls of a session: each is made by the steps of the lock's table. Begin with [`acquire`].
ghost use Rattle.std.specs.Prelude.{◌≡◌, ◌≢◌, ◌≤◌, true, false, None, Some, Option, IfOk, IfErr, length};
ghost use Rattle.std.specs.Option.{IfSome};
ghost use Rattle.spin_core.specs.Values.{IsLast};
ghost use Rattle.spin_core.specs.Cell.{off, writes, use_of};
ghost use Rattle.spin_core.specs.Own.{what};
ghost use Rattle.spin_core.specs.Passes.{IsOut, own_mark};
ghost use Rattle.spin_core.specs.Spots.{Releases};
ghost use Rattle.spin_core.specs.Traced.{MadeStep, MayKnow};
ghost use Rattle.spin_step.specs.Schedules.{may_write, resting};
ghost use Rattle.spin_step.specs.declared.stepped.Next.TheVariants.{Answers};
ghost use Rattle.spin_step.specs.declared.place.Seat.TheVariants.{Idle, Calling, Holding};
ghost use Rattle.spin_step.specs.declared.answer.Answer.{Answer as AnAnswer};
ghost use Rattle.spin_step.specs.declared.answer.Answer.TheVariants.{Granted, Refused, Done};
ghost use Rattle.spin_step.specs.declared.place.Hold.{Hold as AHold};
ghost use Rattle.spin_step.specs.declared.table.Operation.TheVariants.{Exchange};
ghost use Rattle.spin_session.specs.Meaning.{seat_now, table_at, use_at, model_at};
ghost use Rattle.spin_session.specs.Operating.{Operates};
ghost use Rattle.spin_session.specs.Passes.{Grants, Learns, Writes, lock_of};
ghost use Rattle.spin_session.specs.Turns.{Follows, IsMade, SeesLast, SeesOn, EndsWith, IsAt, Knows, StaysQuiet, Stands, MayBegin, Ended, Comes, GoesOn, Under, IsAnswered, Acquires, TriesToAcquire, IsLook, Tells, Calls, SeatSpot, new_in, spot_of, is_granted};

use crate::second::Word;
use crate::session::Session;
use crate::table::{Ahead, Entry, Party, Runs};
use spin_core::cell::{Cell, Left, Permit, Play, WritePermit};
use spin_core::guard::{Guard, Release};
use spin_core::relax::{BACK_OFF_STEP, RelaxStrategy};
use spin_core::tie::Opening;
use spin_core::trace::Watch;
use spin_step::{Answer, Hold, Next, Operation};
use std::marker::Brand;
use std::sync::Wait;

/// A session of a lock whose cell runs the table of `P`.
pub type SessionOf<'a, T, P> = Session<
    'a,
    T,
    Party<<P as Runs<T>>::Call, <P as Runs<T>>::Point>,
    Entry<<P as Runs<T>>::Call, T>,
    P,
>;

/// The guard of a party that writes the value of such a lock.
pub type GuardOf<'a, T, P, R> = Guard<
    WritePermit<'a, T, Party<<P as Runs<T>>::Call, <P as Runs<T>>::Point>, P>,
    Entry<<P as Runs<T>>::Call, T>,
    R,
>;

/// The permit of a party that has left such a lock.
pub type LeftOf<'a, T, P> = Left<'a, T, Party<<P as Runs<T>>::Call, <P as Runs<T>>::Point>, P>;

/// What a party has made of a call: how the call goes on, the point of its last step, the number that this step found, and
/// the party.
pub type MadeOf<'a, T, P> = (
    Next<<P as Runs<T>>::Point, Answer<()>>,
    <P as Runs<T>>::Point,
    u64,
    SessionOf<'a, T, P>,
);

/// Returns the session of a new party of a lock.
pub fn enter<T, P: Runs<T>>(cell: &Cell<T, Party<P::Call, P::Point>, P>) -> SessionOf<'_, T, P>
    ensures { spot_of result ≡ new_in cell.now }
{
    Session {
        permit: cell.enter(),
        seen: cell.watch(),
    }
}

/// Makes a call of one step, which leaves to the party what it holds.
///
/// # Contract
/// The party has made exactly this call, with the returned answer. It is the table's answer for some number that the
/// word may be (`found`).
pub fn ask<'a, T, P: Runs<T>>(
    session: SessionOf<'a, T, P>,
    call: P::Call,
    holds: Option<Hold>,
) -> (Answer<()>, SessionOf<'a, T, P>)
    requires stands { Stands holds session }
    requires may { MayBegin P.tables P.meaning call holds session.permit.key }
    requires looks { IsLook P.tables call holds session.permit.key }
    ensures stands { Stands holds result.1 }
    ensures calls { Calls P.tables call result.0 (spot_of session.entry) (spot_of result.1) }
    ensures found { Tells P.tables P.meaning call holds result.0 session.entry.permit.key }
{
    let (next, _, _, session) = first(session, call, holds);
    match next {
        Next::Answers(answer, _) => (answer, session),
        Next::Continue(_) => unreachable!(),
    }
}

/// Makes a call of one step of a holder that writes, which then holds `after`. The holder first writes its value, and
/// then no longer writes.
///
/// # Contract
/// If the party knew the whole history, it has written the value and made exactly this call (`releases`). If it goes on
/// using the value, it sees the same one (`same`).
pub fn give<'a, T, P: Runs<T>>(
    writer: WritePermit<'a, T, Party<P::Call, P::Point>, P>,
    seen: Watch<Entry<P::Call, T>>,
    call: P::Call,
    holds: Hold,
    after: Option<Hold>,
) -> SessionOf<'a, T, P>
    requires knows { MayKnow (P.holds writer.key) (P.ways writer.key) seen }
    requires alone { use_at P.meaning writer.view.0 ≡ writes → writer.view.0 ≡ Holding holds }
    requires begins { ((table_at P.tables writer.key).asks call (Some holds)).begins (Some holds) ≡ true }
    requires held { (may_write holds ≡ true) × (use_at P.meaning (Holding holds) ≡ writes) }
    requires ends { EndsWith P.tables call holds after writer.key }
    requires stops { use_at P.meaning (resting after) ≢ writes }
    ensures seat { seat_now (what result.permit.view) ≡ resting after }
    ensures knows { own_mark result.permit.view ≡ length result.seen.entries }
    ensures key { result.permit.key ≡ writer.entry.key }
    ensures same { use_at P.meaning (resting after) ≢ off → result.permit.value ≡ Some writer.entry.value }
    ensures name { writer.entry.key.name ≡ seen.name → result.seen.name ≡ seen.name }
    ensures releases { writer.entry.key.name ≡ seen.name → writer.entry.view.2 ≤ length seen.entries → Releases (model_at P.tables) (λ o. o) call Done writer.entry.value (writer.entry.key, Some writer.entry.view, seen) (spot_of result) }
{
    let _ = after;
    P::laws();
    let permit = writer.into_permit();
    let hold = Some(holds);
    let point = match P::start(call, hold) {
        Some(point) => point,
        None => unreachable!(),
    };
    let (place, operation) = P::operation(call, point, hold);
    let (_, permit, seen) = operate::<T, P, Brand>(permit, place, operation, seen, call);
    Session { permit, seen }
}

/// Returns the guard of a party that writes the value.
///
/// # Contract
/// A call by which the party came here has granted the guard (`grants`).
#[inline(always)]
pub fn guarded<'a, T, P: Runs<T> + Release<T, Party<P::Call, P::Point>>, R>(
    session: SessionOf<'a, T, P>,
) -> GuardOf<'a, T, P, R>
    requires writes { Writes P.meaning (spot_of session) }
    requires last { SeesLast session }
    ensures grants { (call : P.Call) (before : SeatSpot T P.Call P.Point) → Calls P.tables call Granted before (spot_of session.entry) → Grants P.tables P.meaning call before result }
{
    P::laws();
    let Session { permit, seen } = session;
    Guard::new(permit.into_writer(), seen)
}

/// Makes a call that waits for the lock, and returns the guard that it grants.
///
/// # Contract
/// The call has granted the guard (`Grants`). Whether and when the call returns is not promised.
#[inline(always)]
pub fn acquire<'a, T, P: Runs<T> + Release<T, Party<P::Call, P::Point>>, R: RelaxStrategy, W: Wait>(
    session: SessionOf<'a, T, P>,
    call: P::Call,
    holds: Option<Hold>,
    rt: &W,
) -> GuardOf<'a, T, P, R>
    requires stands { Stands holds session }
    requires may { MayBegin P.tables P.meaning call holds session.permit.key }
    requires acquires { Acquires P.tables P.meaning call holds session.permit.key }
    ensures { Grants P.tables P.meaning call (spot_of session.entry) result }
{
    let (next, point, found, session) = begin(session, call, holds);
    match next {
        Next::Answers(_, _) => guarded(session),
        Next::Continue(_) => guarded(wait::<T, P, R, W>(session, call, point, holds, found, rt).0),
    }
}

/// Makes a call that tries to acquire the lock, in at most three steps. Returns the guard, or else the party.
///
/// # Contract
/// The call has granted the guard (`Grants`), or was refused. Then the party holds what it held before.
#[inline(always)]
pub fn try_to_acquire<'a, T, P: Runs<T> + Release<T, Party<P::Call, P::Point>>, R>(
    session: SessionOf<'a, T, P>,
    call: P::Call,
    holds: Option<Hold>,
) -> Result<GuardOf<'a, T, P, R>, SessionOf<'a, T, P>>
    requires stands { Stands holds session }
    requires may { MayBegin P.tables P.meaning call holds session.permit.key }
    requires tries { TriesToAcquire P.tables P.meaning call holds session.permit.key }
    requires once { IsAnswered P.tables call holds session.permit.key }
    ensures granted { IfOk result (Grants P.tables P.meaning call (spot_of session.entry)) }
    ensures refused { IfErr result (λ now. Stands holds now × Calls P.tables call Refused (spot_of session.entry) (spot_of now)) }
{
    let (answer, _, session, _) = in_three(session, call, holds);
    if is_granted(answer) {
        Ok(guarded(session))
    } else {
        Err(session)
    }
}

/// Returns the session of a party that also knows what an earlier watch knows.
///
/// # Contract
/// The party is the same, and makes no step. Of the two histories it knows the longer (`after`).
pub fn after<'a, T, P: Runs<T>>(
    session: SessionOf<'a, T, P>,
    earlier: &Watch<Entry<P::Call, T>>,
) -> SessionOf<'a, T, P>
    requires { lock_of (spot_of session) ≡ earlier.now.name }
    ensures after { Learns earlier.now.entries (spot_of session.entry) (spot_of result) }
    ensures stands { (h : Option AHold) → Stands h session.entry → Stands h result }
    ensures same { result.permit ≡ session.entry.permit }
{
    let Session { permit, seen } = session;
    let known = seen.later(earlier);
    seen.end();
    Session {
        permit,
        seen: known,
    }
}

/// Ends the session of a party that is in no call, and holds nothing.
///
/// # Contract
/// What is returned names the cell and the party.
pub fn finish<'a, T, P: Runs<T>>(session: SessionOf<'a, T, P>) -> LeftOf<'a, T, P>
    requires { IsOut Idle (what session.permit.view) }
    ensures { result ≡ (session.entry.permit.key, session.entry.permit.view) }
{
    P::laws();
    let Session { permit, seen } = session;
    let left = permit.leave();
    seen.end();
    left
}

/// Returns the point at which the party begins the call.
pub fn point_of<'a, T, P: Runs<T>>(
    session: &SessionOf<'a, T, P>,
    call: P::Call,
    holds: Option<Hold>,
) -> P::Point
    requires stands { Stands holds session.now }
    requires may { MayBegin P.tables P.meaning call holds session.now.permit.key }
    ensures start { result ≡ (table_at P.tables session.now.permit.key).start call holds }
    ensures knows { Knows P.meaning (spot_of session.now) }
    ensures at { IsAt P.tables call result holds session.now.permit.key (what session.now.permit.view) }
    ensures under { Under P.tables P.meaning call (spot_of session.now) (spot_of session.now) }
{
    let _ = session;
    P::laws();
    match P::start(call, holds) {
        Some(point) => point,
        None => unreachable!(),
    }
}

/// Goes on with a call that waits from where [`begin`] left it. It makes the call's steps, and pauses between them as
/// [`Runs::hints`] says, until the call is answered. Returns the party, and whether the call was granted.
///
/// The call's last step was at `point`, and found this number: so a caller whose call is answered at once does not
/// compute how it would go on.
///
/// # Contract
/// The party has been answered as the table says (`ended`). Whether and when the call returns is not promised.
#[cold]
#[inline(never)]
pub fn wait<'a, T, P: Runs<T>, R: RelaxStrategy, W: Wait>(
    session: SessionOf<'a, T, P>,
    call: P::Call,
    point: P::Point,
    holds: Option<Hold>,
    found: u64,
    rt: &W,
) -> (SessionOf<'a, T, P>, bool)
    requires knows { Knows P.meaning (spot_of session) }
    requires goes { GoesOn P.tables call point holds found session.permit.key (what session.permit.view) }
    requires quiet { StaysQuiet P.meaning call holds }
    ensures knows { Knows P.meaning (spot_of result.0) }
    ensures ended { (p : SeatSpot T P.Call P.Point) → Under P.tables P.meaning call p (spot_of session.entry) → (a : AnAnswer (Unit {0})) × (after : Option AHold) × Ended P.tables P.meaning call holds a after p (spot_of result.0) × (is_granted a ≡ result.1) }
    ensures last { SeesLast result.0 }
    ensures sees { (v : Option T) → SeesOn P.meaning call holds v session.entry → SeesOn P.meaning call holds v result.0 }
{
    let mut pace = Pace {
        due: BACK_OFF_STEP,
        given: 0,
        has_paused: false,
    };
    let mut from = point;
    let mut number = found;
    let mut at = point_after::<T, P>(&session, call, point, holds, found);
    let mut party = session;
    for _ in rt.forever() {
        pace = pause::<T, P, R, W>(rt, pace, call, from, at, holds, number);
        let (next, found, session) = step(party, call, at, holds);
        match next {
            Next::Answers(answer, _) => return (session, is_granted(answer)),
            Next::Continue(to) => {
                from = at;
                number = found;
                at = to;
                party = session;
            }
        }
    }
    unreachable!()
}

// How a waiting call passes its time: the hints of its next pause, those that it has given, and whether it has paused
// before its last step.
#[derive(Drop)]
struct Pace {
    due: u32,
    given: u32,
    has_paused: bool,
}

// Pauses, unless the call makes its next step at once (see [`Runs::hints`]).
#[inline(always)]
fn pause<T, P: Runs<T>, R: RelaxStrategy, W: Wait>(
    rt: &W,
    pace: Pace,
    call: P::Call,
    from: P::Point,
    to: P::Point,
    holds: Option<Hold>,
    found: u64,
) -> Pace {
    let Pace {
        due,
        given,
        has_paused,
    } = pace;
    let least = if has_paused { 0 } else { due };
    if P::hints(call, from, to, holds, found, least) == 0 {
        return Pace {
            due,
            given,
            has_paused: false,
        };
    }
    let hints = P::hints(call, from, to, holds, found, due);
    Pace {
        due: hints.saturating_mul(BACK_OFF_STEP),
        given: R::bounded_pause(rt, hints, given),
        has_paused: true,
    }
}

// Returns the point at which the call goes on, after a step at `point` that found this number.
fn point_after<T, P: Runs<T>>(
    session: &SessionOf<'_, T, P>,
    call: P::Call,
    point: P::Point,
    holds: Option<Hold>,
    found: u64,
) -> P::Point
    requires { GoesOn P.tables call point holds found session.now.permit.key (what session.now.permit.view) }
    ensures { what session.now.permit.view ≡ Some (Calling call result holds) }
{
    let _ = session;
    P::laws();
    match P::next(call, point, holds, found) {
        Next::Continue(point) => point,
        Next::Answers(_, _) => unreachable!(),
    }
}

/// Begins a call, and makes its steps up to the first after which it pauses (see [`Runs::hints`]), but at most three.
/// Returns the point of the last step, and the number that it found. If the call goes on, [`wait`] makes the rest.
///
/// # Contract
/// From the session's party to the one returned the call was begun, and goes on or has ended as `comes` says.
#[inline(always)]
pub fn begin<'a, T, P: Runs<T>>(
    session: SessionOf<'a, T, P>,
    call: P::Call,
    holds: Option<Hold>,
) -> MadeOf<'a, T, P>
    requires stands { Stands holds session }
    requires may { MayBegin P.tables P.meaning call holds session.permit.key }
    ensures made { IsMade P.tables P.meaning call holds result }
    ensures key { result.3.permit.key ≡ session.entry.permit.key }
    ensures comes { Comes P.tables P.meaning call holds result.0 (spot_of session.entry) (spot_of result.3) }
    ensures sees { SeesOn P.meaning call holds session.entry.permit.value result.3 }
{
    further(
        further(first(session, call, holds), call, holds, Some(0)),
        call,
        holds,
        Some(1),
    )
}

/// Makes one more step of the call, unless the call is answered or pauses. `due` is 0 after the first step since a
/// pause; a call without pauses gives `None`.
#[inline(always)]
pub fn further<'a, T, P: Runs<T>>(
    made: MadeOf<'a, T, P>,
    call: P::Call,
    holds: Option<Hold>,
    due: Option<u32>,
) -> MadeOf<'a, T, P>
    requires made { IsMade P.tables P.meaning call holds made }
    requires quiet { StaysQuiet P.meaning call holds }
    ensures made { IsMade P.tables P.meaning call holds result }
    ensures key { result.3.permit.key ≡ made.entry.3.permit.key }
    ensures comes { (p : SeatSpot T P.Call P.Point) → Comes P.tables P.meaning call holds made.entry.0 p (spot_of made.entry.3) → Comes P.tables P.meaning call holds result.0 p (spot_of result.3) }
    ensures follows { due ≡ None → Follows made.entry.0 result.1 result.0 }
    ensures sees { (v : Option T) → SeesOn P.meaning call holds v made.entry.3 → SeesOn P.meaning call holds v result.3 }
{
    let to = match made.0 {
        Next::Continue(to) if !pauses::<T, P>(call, made.1, to, holds, made.2, due) => to,
        _ => return made,
    };
    let (_, _, _, session) = made;
    let (next, found, session) = step(session, call, to, holds);
    (next, to, found, session)
}

// Returns whether the call pauses between these points.
fn pauses<T, P: Runs<T>>(
    call: P::Call,
    from: P::Point,
    to: P::Point,
    holds: Option<Hold>,
    found: u64,
    due: Option<u32>,
) -> bool
    ensures { due ≡ None → result ≡ false }
{
    match due {
        Some(due) => P::hints(call, from, to, holds, found, due) > 0,
        None => false,
    }
}

/// Makes a call that is answered by its third step at the latest. Returns the answer, what the party then
/// holds, and the number that the last step found.
///
/// # Contract
/// The party has made exactly this call, and has been answered as the table says (`ended`).
#[inline(always)]
pub fn in_three<'a, T, P: Runs<T>>(
    session: SessionOf<'a, T, P>,
    call: P::Call,
    holds: Option<Hold>,
) -> (Answer<()>, Option<Hold>, SessionOf<'a, T, P>, u64)
    requires stands { Stands holds session }
    requires may { MayBegin P.tables P.meaning call holds session.permit.key }
    requires once { IsAnswered P.tables call holds session.permit.key }
    ensures knows { Knows P.meaning (spot_of result.2) }
    ensures ended { Ended P.tables P.meaning call holds result.0 result.1 (spot_of session.entry) (spot_of result.2) }
    ensures last { SeesLast result.2 }
    ensures sees { SeesOn P.meaning call holds session.entry.permit.value result.2 }
{
    let made = further(first(session, call, holds), call, holds, None);
    let (next, _, found, session) = further(made, call, holds, None);
    match next {
        Next::Answers(answer, after) => (answer, after, session, found),
        Next::Continue(_) => unreachable!(),
    }
}

/// Returns whether the call was granted.
pub fn is_granted(answer: Answer<()>) -> bool
    ensures { result ≡ is_granted answer }
{
    matches!(answer, Answer::Granted)
}

/// Begins a call by its first step. Returns its point, and the number that it found.
#[inline(always)]
pub fn first<'a, T, P: Runs<T>>(
    session: SessionOf<'a, T, P>,
    call: P::Call,
    holds: Option<Hold>,
) -> MadeOf<'a, T, P>
    requires stands { Stands holds session }
    requires may { MayBegin P.tables P.meaning call holds session.permit.key }
    ensures made { IsMade P.tables P.meaning call holds result }
    ensures key { result.3.permit.key ≡ session.entry.permit.key }
    ensures comes { Comes P.tables P.meaning call holds result.0 (spot_of session.entry) (spot_of result.3) }
    ensures start { result.1 ≡ (table_at P.tables session.entry.permit.key).start call holds }
    ensures sees { SeesOn P.meaning call holds session.entry.permit.value result.3 }
{
    let point = point_of(&session, call, holds);
    let (next, found, session) = step(session, call, point, holds);
    (next, point, found, session)
}

/// Makes an exchange that is the first steps of one of these calls. The proof of a caller picks what it tells.
#[inline(always)]
pub fn leap<'a, T, P: Runs<T>, M: Play<Opening<T>, Party<P::Call, P::Point>, Entry<P::Call, T>>>(
    permit: Permit<'a, T, Party<P::Call, P::Point>, P>,
    seen: Watch<Entry<P::Call, T>>,
    start: P::Point,
    ahead: Ahead<P::Point>,
    call: P::Call,
    other: P::Call,
) -> (
    u64,
    Permit<'a, T, Party<P::Call, P::Point>, P>,
    Watch<Entry<P::Call, T>>,
)
    requires knows { MayKnow (P.holds permit.key) (P.ways permit.key) seen }
    requires keeps { Operates P.Word.words (P.holds permit.key) (P.ways permit.key) permit.view permit.value 0 (Exchange ahead.old ahead.new) (M.told permit.key permit.view) }
    ensures { MadeStep P.holds P.ways M.told permit.entry seen result.0 result.1 result.2 }
{
    let _ = (start, call, other);
    permit.exchange::<M>(ahead.old, ahead.new, seen)
}

/// Makes the step of the call at `point`, or begins the call there. Returns the number found, too.
#[inline(always)]
pub fn step<'a, T, P: Runs<T>>(
    session: SessionOf<'a, T, P>,
    call: P::Call,
    point: P::Point,
    holds: Option<Hold>,
) -> (Next<P::Point, Answer<()>>, u64, SessionOf<'a, T, P>)
    requires knows { Knows P.meaning (spot_of session) }
    requires at { IsAt P.tables call point holds session.permit.key (what session.permit.view) }
    requires quiet { StaysQuiet P.meaning call holds }
    ensures made { IsMade P.tables P.meaning call holds (result.0, point, result.1, result.2) }
    ensures key { result.2.permit.key ≡ session.entry.permit.key }
    ensures comes { (p : SeatSpot T P.Call P.Point) → Under P.tables P.meaning call p (spot_of session.entry) → Comes P.tables P.meaning call holds result.0 p (spot_of result.2) }
    ensures left { use_of (use_at P.meaning) (what session.entry.permit.view) ≢ off → IfSome session.entry.permit.value (IsLast result.2.permit.key result.2.seen.entries) }
    ensures sees { SeesOn P.meaning call holds session.entry.permit.value result.2 }
{
    P::laws();
    let (place, operation) = P::operation(call, point, holds);
    let Session { permit, seen } = session;
    let (found, permit, seen) = operate::<T, P, Brand>(permit, place, operation, seen, call);
    (
        P::next(call, point, holds, found),
        found,
        Session { permit, seen },
    )
}

// Makes one operation of the call, on the word at this place. Returns the number found; a store finds 0. The proof of a
// caller picks what it tells.
#[inline(always)]
fn operate<'a, T, P: Runs<T>, M: Play<Opening<T>, Party<P::Call, P::Point>, Entry<P::Call, T>>>(
    permit: Permit<'a, T, Party<P::Call, P::Point>, P>,
    place: usize,
    operation: Operation,
    seen: Watch<Entry<P::Call, T>>,
    call: P::Call,
) -> (
    u64,
    Permit<'a, T, Party<P::Call, P::Point>, P>,
    Watch<Entry<P::Call, T>>,
)
    requires knows { MayKnow (P.holds permit.key) (P.ways permit.key) seen }
    requires keeps { Operates P.Word.words (P.holds permit.key) (P.ways permit.key) permit.view permit.value place operation (M.told permit.key permit.view) }
    ensures { MadeStep P.holds P.ways M.told permit.entry seen result.0 result.1 result.2 }
{
    let _ = call;
    if place > 0 {
        return P::Word::operate::<T, Party<P::Call, P::Point>, Entry<P::Call, T>, P, M>(
            permit, operation, seen,
        );
    }
    match operation {
        Operation::Load => permit.load::<M>(seen),
        Operation::Exchange(old, new) => permit.exchange::<M>(old, new, seen),
        Operation::Store(to) => {
            let (permit, seen) = permit.store::<M>(to, seen);
            (0, permit, seen)
        }
        Operation::Add(by) => permit.add::<M>(by, seen),
        Operation::Subtract(by) => permit.subtract::<M>(by, seen),
        Operation::SetLowestBit => permit.set_bits::<M>(1, seen),
    }
}
