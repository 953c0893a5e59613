//! Calls that begin by one exchange that is several of their steps. Begin with [`Leaps`].
ghost use Rattle.std.specs.Prelude.{◌≡◌, ◌==◌, ℕ, None, Some};
ghost use Rattle.std.specs.Option.{IfSome};
ghost use Rattle.spin_core.specs.Own.{what};
ghost use Rattle.spin_core.specs.Spots.{Since};
ghost use Rattle.spin_session.specs.Meaning.{seat_now, seat_after, table_at, model_at};
ghost use Rattle.spin_session.specs.Turns.{IsMade, SeesLast, SeesOn, IsLedTo, Fuses, IsLed, Lands, last_step, next_after, course_of, Knows, Stands, MayBegin, Comes, spot_of};

use spin_session::calls::{MadeOf, SessionOf, further, leap, point_of, step};
use spin_session::session::Session;
use spin_session::table::{Ahead, Runs};
use spin_step::Hold;
use std::marker::Brand;

/// The rule of a cell that runs a table, some of whose calls begin by an exchange that is several of their steps.
pub trait Leaps<T>: Runs<T> {
    /// Returns the exchange by which the call begins, if it does not begin by its first step. By default it does.
    ///
    /// # Contract
    /// Whatever number the exchange finds, it makes the first steps of the call (`Fuses`).
    fn ahead(call: Self::Call, holds: Option<Hold>) -> Option<Ahead<Self::Point>>
        ensures { (start : ℕ) (value : T) → IfSome result (Fuses (Self.tables start value) Self.meaning call holds) }
    {
        let _ = (call, holds);
        None
    }
}

/// Begins a call as [`begin`](spin_session::calls::begin) does, but by the exchange of [`Leaps::ahead`], if there is one.
#[inline(always)]
pub fn begin_ahead<'a, T, P: Leaps<T>>(
    session: SessionOf<'a, T, P>,
    call: P::Call,
    holds: Option<Hold>,
) -> MadeOf<'a, T, P>
    requires stands { Stands holds session }
    requires may { MayBegin P.tables P.meaning call holds session.permit.key }
    ensures made { IsMade P.tables P.meaning call holds result }
    ensures key { result.3.permit.key ≡ session.entry.permit.key }
    ensures comes { Comes P.tables P.meaning call holds result.0 (spot_of session.entry) (spot_of result.3) }
    ensures sees { SeesOn P.meaning call holds session.entry.permit.value result.3 }
{
    let made = first_ahead(session, call, holds);
    further(further(made, call, holds, Some(0)), call, holds, Some(1))
}

/// Makes the first operation of the call. It is one step, or several; if it is none, a step follows. Returns the point of
/// the last step, and the number that it found. That point is `reached` from the first one.
#[inline(always)]
pub fn first_ahead<'a, T, P: Leaps<T>>(
    session: SessionOf<'a, T, P>,
    call: P::Call,
    holds: Option<Hold>,
) -> MadeOf<'a, T, P>
    requires stands { Stands holds session }
    requires may { MayBegin P.tables P.meaning call holds session.permit.key }
    ensures made { IsMade P.tables P.meaning call holds result }
    ensures key { result.3.permit.key ≡ session.entry.permit.key }
    ensures comes { Comes P.tables P.meaning call holds result.0 (spot_of session.entry) (spot_of result.3) }
    ensures reached { IsLedTo P.tables P.meaning call holds result.1 result.2 session.entry.permit.key }
    ensures sees { SeesOn P.meaning call holds session.entry.permit.value result.3 }
{
    let point = point_of(&session, call, holds);
    let Some(ahead) = P::ahead(call, holds) else {
        let (next, found, session) = step(session, call, point, holds);
        return (next, point, found, session);
    };
    P::laws();
    let (found, session) = begin_by(session, call, holds, point, ahead);
    if found == ahead.old {
        let (last, number) = (ahead.point, ahead.number);
        return (P::next(call, last, holds, number), last, number, session);
    }
    if ahead.looks {
        return (P::next(call, point, holds, found), point, found, session);
    }
    let (next, found, session) = step(session, call, point, holds);
    (next, point, found, session)
}

// Begins the call by this exchange. Returns the number found, which says which steps it made (`last_step`).
#[inline(always)]
fn begin_by<'a, T, P: Leaps<T>>(
    session: SessionOf<'a, T, P>,
    call: P::Call,
    holds: Option<Hold>,
    start: P::Point,
    ahead: Ahead<P::Point>,
) -> (u64, SessionOf<'a, T, P>)
    requires stands { Stands holds session }
    requires may { MayBegin P.tables P.meaning call holds session.permit.key }
    requires start { start ≡ (table_at P.tables session.permit.key).start call holds }
    requires fuses { Fuses (table_at P.tables session.permit.key) P.meaning call holds ahead }
    ensures knows { Knows P.meaning (spot_of result.1) }
    ensures key { result.1.permit.key ≡ session.entry.permit.key }
    ensures led { (n n' : ℕ) × IsLed (table_at P.tables session.entry.permit.key) P.meaning call holds (last_step start ahead result.0) n n' }
    ensures lands { Lands (table_at P.tables session.entry.permit.key) P.meaning call holds (last_step start ahead result.0) (seat_now (what result.1.permit.view)) }
    ensures seat { what result.1.permit.view ≡ Some (seat_after call holds (next_after (table_at P.tables session.entry.permit.key) call holds (last_step start ahead result.0))) }
    ensures since { Since (model_at P.tables) (course_of call (next_after (table_at P.tables session.entry.permit.key) call holds (last_step start ahead result.0))) (spot_of session.entry) (spot_of result.1) }
    ensures last { SeesLast result.1 }
    ensures sees { SeesOn P.meaning call holds session.entry.permit.value result.1 }
{
    P::laws();
    let _ = holds;
    let Session { permit, seen } = session;
    let (found, permit, seen) = leap::<T, P, Brand>(permit, seen, start, ahead, call, call);
    (found, Session { permit, seen })
}
