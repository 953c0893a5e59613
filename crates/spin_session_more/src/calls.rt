//! Calls that only the larger locks make. Begin with [`wait_for`].
ghost use Rattle.std.specs.Prelude.{◌≡◌, ◌≢◌, Option, IfOk, IfErr};
ghost use Rattle.std.specs.Option.{IfSome};
ghost use Rattle.spin_core.specs.Cell.{off};
ghost use Rattle.spin_core.specs.Values.{IsLast};
ghost use Rattle.spin_step.specs.Acts.{next_of};
ghost use Rattle.spin_step.specs.Schedules.{resting};
ghost use Rattle.spin_step.specs.declared.stepped.Next.TheVariants.{Answers};
ghost use Rattle.spin_step.specs.declared.answer.Answer.{Answer as AnAnswer};
ghost use Rattle.spin_step.specs.declared.answer.Answer.TheVariants.{Granted, Refused};
ghost use Rattle.spin_step.specs.declared.place.Hold.{Hold as AHold};
ghost use Rattle.spin_session.specs.Meaning.{table_at, use_at};
ghost use Rattle.spin_session.specs.Turns.{Ended, Knows, SeesLast, SeesOn, FusesBy, either_call, either_step, Stands, MayBegin, IsAnsweredBy, IsAnswered, IsAnsweredAtOnce, IsTry, IsLook, Calls, is_granted, spot_of};

use crate::leaps::{Leaps, begin_ahead, first_ahead};
use spin_core::relax::{RelaxStrategy, Strategy};
use spin_session::calls::{SessionOf, further, is_granted, leap, point_of, step, wait};
use spin_session::session::Session;
use spin_session::table::{Ahead, Runs};
use spin_step::{Answer, Hold, Next};
use std::marker::Brand;
use std::sync::Wait;

/// Makes a call that waits, and is always answered so. It pauses between its steps as [`Runs::hints`] says.
///
/// # Contract
/// The party has made exactly this call, with this answer, and holds `after`. Whether and when the call returns is not
/// promised.
pub fn wait_for<'a, T, P: Leaps<T>, R: RelaxStrategy, W: Wait>(
    session: SessionOf<'a, T, P>,
    call: P::Call,
    holds: Option<Hold>,
    answer: Answer<()>,
    after: Option<Hold>,
    strategy: Strategy<R>,
    rt: &W,
) -> SessionOf<'a, T, P>
    requires stands { Stands holds session }
    requires may { MayBegin P.tables P.meaning call holds session.permit.key }
    requires answers { IsAnsweredBy P.tables P.meaning call holds answer after session.permit.key }
    ensures stands { Stands after result }
    ensures calls { Calls P.tables call answer (spot_of session.entry) (spot_of result) }
    ensures last { SeesLast result }
    ensures sees { SeesOn P.meaning call holds session.entry.permit.value result }
{
    let _ = (answer, after, strategy);
    answered::<T, P, R, W>(session, call, holds, rt).0
}

// Makes a call that waits. Returns the party, and whether the call was granted.
#[inline(always)]
fn answered<'a, T, P: Leaps<T>, R: RelaxStrategy, W: Wait>(
    session: SessionOf<'a, T, P>,
    call: P::Call,
    holds: Option<Hold>,
    rt: &W,
) -> (SessionOf<'a, T, P>, bool)
    requires stands { Stands holds session }
    requires may { MayBegin P.tables P.meaning call holds session.permit.key }
    ensures knows { Knows P.meaning (spot_of result.0) }
    ensures ended { (a : AnAnswer (Unit {0})) × (after : Option AHold) × Ended P.tables P.meaning call holds a after (spot_of session.entry) (spot_of result.0) × (is_granted a ≡ result.1) }
    ensures last { SeesLast result.0 }
    ensures sees { SeesOn P.meaning call holds session.entry.permit.value result.0 }
{
    let (next, point, found, session) = begin_ahead(session, call, holds);
    match next {
        Next::Answers(answer, _) => (session, is_granted(answer)),
        Next::Continue(_) => wait::<T, P, R, W>(session, call, point, holds, found, rt),
    }
}

/// Makes a call that either gets a hold or is refused, in as many steps as it needs.
///
/// # Contract
/// The party has made exactly this call. If the call was granted it holds `after`, else it holds what it held before.
/// Whether and when the call returns is not promised.
pub fn try_for<'a, T, P: Leaps<T>, W: Wait>(
    session: SessionOf<'a, T, P>,
    call: P::Call,
    holds: Option<Hold>,
    after: Option<Hold>,
    rt: &W,
) -> Result<SessionOf<'a, T, P>, SessionOf<'a, T, P>>
    requires stands { Stands holds session }
    requires may { MayBegin P.tables P.meaning call holds session.permit.key }
    requires tries { IsTry P.tables P.meaning call holds after session.permit.key }
    ensures granted { IfOk result (λ now. Stands after now × SeesLast now × Calls P.tables call Granted (spot_of session.entry) (spot_of now)) }
    ensures refused { IfErr result (λ now. Stands holds now × Calls P.tables call Refused (spot_of session.entry) (spot_of now)) }
    ensures sees { IfOk result (SeesOn P.meaning call holds session.entry.permit.value) }
    ensures still { IfErr result (SeesOn P.meaning call holds session.entry.permit.value) }
{
    let _ = after;
    let (made, _, _, session) = first_ahead(session, call, holds);
    let mut next = made;
    let mut party = session;
    for _ in rt.forever() {
        match next {
            Next::Answers(answer, _) => {
                if is_granted(answer) {
                    return Ok(party);
                }
                return Err(party);
            }
            Next::Continue(point) => {
                let (made, _, further) = step(party, call, point, holds);
                next = made;
                party = further;
            }
        }
    }
    unreachable!()
}

/// Makes a call that waits, and then gets a hold or is refused. It pauses between its steps as [`Runs::hints`] says.
///
/// # Contract
/// Like that of [`try_for`].
pub fn wait_or_refuse<'a, T, P: Leaps<T>, R: RelaxStrategy, W: Wait>(
    session: SessionOf<'a, T, P>,
    call: P::Call,
    holds: Option<Hold>,
    after: Option<Hold>,
    strategy: Strategy<R>,
    rt: &W,
) -> Result<SessionOf<'a, T, P>, SessionOf<'a, T, P>>
    requires stands { Stands holds session }
    requires may { MayBegin P.tables P.meaning call holds session.permit.key }
    requires tries { IsTry P.tables P.meaning call holds after session.permit.key }
    ensures granted { IfOk result (λ now. Stands after now × SeesLast now × Calls P.tables call Granted (spot_of session.entry) (spot_of now)) }
    ensures refused { IfErr result (λ now. Stands holds now × Calls P.tables call Refused (spot_of session.entry) (spot_of now)) }
    ensures sees { IfOk result (SeesOn P.meaning call holds session.entry.permit.value) }
    ensures still { IfErr result (SeesOn P.meaning call holds session.entry.permit.value) }
{
    let _ = (after, strategy);
    let (session, granted) = answered::<T, P, R, W>(session, call, holds, rt);
    if granted { Ok(session) } else { Err(session) }
}

/// Makes a call that either gets a hold or is refused, in at most three steps.
///
/// # Contract
/// The party has made exactly this call. If the call was granted it holds `after`, else it holds what it held before.
#[inline(always)]
pub fn attempt<'a, T, P: Leaps<T>>(
    session: SessionOf<'a, T, P>,
    call: P::Call,
    holds: Option<Hold>,
    after: Option<Hold>,
) -> Result<SessionOf<'a, T, P>, SessionOf<'a, T, P>>
    requires stands { Stands holds session }
    requires may { MayBegin P.tables P.meaning call holds session.permit.key }
    requires tries { IsTry P.tables P.meaning call holds after session.permit.key }
    requires once { IsAnswered P.tables call holds session.permit.key }
    ensures granted { IfOk result (λ now. Stands after now × SeesLast now × Calls P.tables call Granted (spot_of session.entry) (spot_of now)) }
    ensures refused { IfErr result (λ now. Stands holds now × SeesLast now × Calls P.tables call Refused (spot_of session.entry) (spot_of now)) }
    ensures sees { IfOk result (SeesOn P.meaning call holds session.entry.permit.value) }
    ensures still { IfErr result (SeesOn P.meaning call holds session.entry.permit.value) }
{
    let _ = after;
    let made = further(first_ahead(session, call, holds), call, holds, None);
    let (next, _, _, session) = further(made, call, holds, None);
    match next {
        Next::Answers(answer, _) => {
            if is_granted(answer) {
                Ok(session)
            } else {
                Err(session)
            }
        }
        Next::Continue(_) => unreachable!(),
    }
}

/// Makes one of two whole calls by one exchange: `won` if it finds the number `ahead.old`, and otherwise `lost`.
///
/// # Contract
/// With `Ok` the party has made exactly the call `won`, which was granted, and holds `after`. With `Err` it holds what it
/// held before.
pub fn exchange_for<'a, T, P: Runs<T>>(
    session: SessionOf<'a, T, P>,
    won: P::Call,
    lost: P::Call,
    holds: Option<Hold>,
    after: Option<Hold>,
    ahead: Ahead<P::Point>,
) -> Result<SessionOf<'a, T, P>, SessionOf<'a, T, P>>
    requires stands { Stands holds session }
    requires may { MayBegin P.tables P.meaning won holds session.permit.key }
    requires looks { MayBegin P.tables P.meaning lost holds session.permit.key × IsLook P.tables lost holds session.permit.key }
    requires fuses { FusesBy (table_at P.tables session.permit.key) P.meaning (either_call won lost ahead) holds (either_step ((table_at P.tables session.permit.key).start lost holds) ahead) ahead.old ahead.new }
    requires wins { next_of (table_at P.tables session.permit.key) won ahead.point holds ahead.number ≡ Answers Granted after }
    ensures granted { IfOk result (λ now. Stands after now × SeesLast now × Calls P.tables won Granted (spot_of session.entry) (spot_of now)) }
    ensures sees { IfOk result (SeesOn P.meaning won holds session.entry.permit.value) }
    ensures refused { IfErr result (Stands holds) }
{
    let _ = after;
    let start = point_of(&session, lost, holds);
    P::laws();
    let Session { permit, seen } = session;
    let (found, permit, seen) = leap::<T, P, Brand>(permit, seen, start, ahead, won, lost);
    let session = Session { permit, seen };
    if found == ahead.old {
        Ok(session)
    } else {
        Err(session)
    }
}

/// Makes a call of one step, which is always answered so.
///
/// # Contract
/// The party has made exactly this call, with this answer, and holds `after`.
pub fn make<'a, T, P: Runs<T>>(
    session: SessionOf<'a, T, P>,
    call: P::Call,
    holds: Option<Hold>,
    answer: Answer<()>,
    after: Option<Hold>,
) -> SessionOf<'a, T, P>
    requires stands { Stands holds session }
    requires may { MayBegin P.tables P.meaning call holds session.permit.key }
    requires answers { IsAnsweredAtOnce P.tables call holds answer after session.permit.key }
    ensures stands { Stands after result }
    ensures calls { Calls P.tables call answer (spot_of session.entry) (spot_of result) }
    ensures last { SeesLast result }
    ensures left { use_at P.meaning (resting holds) ≢ off → IfSome session.entry.permit.value (IsLast result.permit.key result.seen.entries) }
    ensures sees { SeesOn P.meaning call holds session.entry.permit.value result }
{
    let _ = (answer, after);
    let point = point_of(&session, call, holds);
    let (_, _, session) = step(session, call, point, holds);
    session
}
