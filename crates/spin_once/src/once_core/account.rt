//! What a party does, and knows of the trace. Begin with [`Account::get`] and [`Account::come`]; [`Account::claim`]
//! gives the value or the right to make it.
ghost use Rattle.std.specs.Prelude.{◌≡◌, ◌≤◌, ℕ, Some, None, true, false, length, IfErr, IfSome};
ghost use Rattle.spin_core.specs.Logs.{OneIsPrefix};
ghost use Rattle.spin_core.specs.Cell.{use_of};
ghost use Rattle.spin_core.specs.Own.{what};
ghost use Rattle.spin_core.specs.Passes.{own_mark};
ghost use Rattle.spin_core.specs.Traced.{MadeStep, MayKnow};
ghost use Rattle.spin_session.specs.Meaning.{just_one};
ghost use Rattle.spin_session.specs.Operating.{Operates};
ghost use Rattle.spin_session.specs.Turns.{has_begun};
ghost use Rattle.spin_step.specs.declared.answer.Answer.TheVariants.{Value, NoValue, Is};
ghost use Rattle.spin_step.specs.declared.stepped.Next.TheVariants.{Answers};
ghost use Rattle.spin_step.specs.declared.once_calls.OnceCall.TheVariants.{Get, IsCompleted, Wait as WaitCall, Poll};
ghost use Rattle.spin_step.specs.declared.once_calls.OncePoint.TheVariants.{TryBegin};
ghost use Rattle.spin_once.specs.Once.{IsOnce, once_ways, use_of_party, next_at, view_of, in_call, reader, Call, HasClosure, is_run, stops, IsAt, IsStepOf, IsTold};
ghost use Rattle.spin_once.specs.OnceValues.{made, Sees};

use super::init_permit::InitPermit;
use super::known::known;
use super::rule::{Caller, Entry, Key, Party, Seed, Stage};
use spin_core::cell::Play;
use spin_core::relax::RelaxStrategy;
use spin_core::trace::Watch;
use spin_step::{Answer, Next, OnceCall, OncePoint, OnceTable, Operation, Steps};
use std::marker::Brand;
use std::sync::Wait;

/// A party that knows which moves in the trace are its own, and the whole trace at least up to its own last move.
pub(crate) struct Account<'a, T, S: Seed<T>> {
    pub(super) party: Caller<'a, T, S>,
    pub(super) seen: Watch<Entry<T>>,
    ghost named: { party.key.opening.name ≡ seen.name },
    ghost knows: { own_mark party.view ≤ length seen.entries },
    ghost few: { length (made party.key.opening.value seen.entries) ≤ 1 },
    ghost finds: { Sees party.key.opening seen.entries (use_of use_of_party party.view) party.value },
}

/// The account of a party that reads the value for ever.
pub(crate) struct Found<'a, T, S: Seed<T>> {
    pub(super) account: Account<'a, T, S>,
    ghost reads: { what account.party.view ≡ Some reader },
}

impl<'a, T, S: Seed<T>> Found<'a, T, S> {
    ghost use Rattle.spin_once.specs.Accounts.{Has, Shows, here, seed_of};

    /// Returns the value, for as long as the cell is borrowed. The party keeps reading it.
    pub(crate) fn read(self) -> (&'a T, Account<'a, T, S>)
        ensures made { S.makes (seed_of self.entry.account) result.0.now }
        ensures same { here result.1 ≡ here self.entry.account }
        ensures shows { Shows self.entry.account result.0.now }
        ensures has { Has (here result.1) result.0.now }
        ensures out { has_begun (what result.1.party.view) ≡ false }
    {
        let Self { account } = self;
        let Account { party, seen } = account;
        let (slot, party) = party.show();
        let value = match &slot.value {
            Stage::Done(value) => Some(value),
            _ => None,
        };
        (known(value), Account { party, seen })
    }
}

impl<'a, T, S: Seed<T>> Account<'a, T, S> {
    ghost use Rattle.spin_once.specs.Accounts.{Place, here, Answered, Entered, Comes, MadeSteps, GetsOrNone, ComesIn, Claims, MayRun};
    ghost use Rattle.spin_once.specs.Passes.{After, AreOfOne};

    /// Ends the account of a party that is in no call.
    pub(crate) fn close(self)
        requires { has_begun (what self.party.view) ≡ false }
    {
        let Self { party, seen: _ } = self;
        party.finish();
    }

    /// Compares what two accounts of one cell know. It does nothing when it runs.
    pub(crate) fn compare(&self, other: &Account<'_, T, S>)
        requires { self.now.seen.name ≡ other.now.seen.name }
        ensures { OneIsPrefix self.now.seen.entries other.now.seen.entries }
    {
        self.seen.compare(&other.seen);
    }

    /// Returns the account of a party that also knows what another one knows.
    pub(crate) fn after(self, earlier: &Account<'_, T, S>) -> Self
        requires { AreOfOne (here self) (here earlier.now) }
        ensures { After (here earlier.now) (here self.entry) (here result) }
    {
        let Self { party, seen } = self;
        Account {
            party,
            seen: seen.later(&earlier.seen),
        }
    }

    // Makes the step of the call at `point`, or begins the call there. The step is not the one that ends a closure.
    #[inline(always)]
    fn step(self, call: OnceCall<()>, point: OncePoint) -> (Next<OncePoint, Answer<()>>, Self)
        requires at { IsAt call point (what self.party.view) }
        requires quiet { is_run point ≡ false }
        ensures made { MadeSteps call result.0 self.entry result.1 }
        ensures goes { (n : ℕ) × (result.0 ≡ next_at call point n) }
    {
        let Self { party, seen } = self;
        let operation = OnceTable.operation(call, point, None);
        let (found, party, seen) = operate::<T, S, Brand>(party, operation, seen, call, point);
        (
            OnceTable.next(call, point, None, found),
            Account { party, seen },
        )
    }

    // Goes on with the call at `point` until it is answered, or its closure may run. It pauses before each look. It is
    // inlined, since its result would go through memory, which costs the path of a caller that finds a value.
    #[inline(always)]
    fn go_on<R: RelaxStrategy, W: Wait>(
        self,
        call: OnceCall<()>,
        point: OncePoint,
        rt: &W,
    ) -> (Next<OncePoint, Answer<()>>, Self)
        requires at { what self.party.view ≡ Some (in_call call point) }
        requires quiet { is_run point ≡ false }
        ensures made { MadeSteps call result.0 self.entry result.1 }
        ensures stops { IsStepOf call result.0 × (stops result.0 ≡ true) }
    {
        let mut at = point;
        let mut given = 0;
        let mut account = self;
        for _ in rt.forever() {
            if !matches!(at, OncePoint::TryBegin) {
                given = R::bounded_pause(rt, 1, given);
            }
            let (next, further) = account.step(call, at);
            match next {
                Next::Continue(OncePoint::Run) => return (next, further),
                Next::Continue(to) => {
                    at = to;
                    account = further;
                }
                Next::Answers(_, _) => return (next, further),
            }
        }
        unreachable!()
    }

    // Returns the value to a party that has found it. The party reads it for as long as the cell is borrowed.
    fn answer(self, call: OnceCall<()>, next: Next<OncePoint, Answer<()>>) -> (Option<&'a T>, Self)
        requires view { what self.party.view ≡ Some (view_of call next) }
        requires told { IsTold next }
        ensures { (p : Place T S) → Comes call next p (here self.entry) → GetsOrNone call p result }
    {
        let _ = call;
        if is_value(next) {
            let (value, account) = Found { account: self }.read();
            (Some(value), account)
        } else {
            (None, self)
        }
    }

    /// Finds the value, or none, by one load.
    pub(crate) fn get(self) -> (Option<&'a T>, Self)
        requires { has_begun (what self.party.view) ≡ false }
        ensures { GetsOrNone Get (here self.entry) result }
    {
        let (next, account) = self.step(OnceCall::Get, OncePoint::Look);
        account.answer(OnceCall::Get, next)
    }

    /// Returns whether one load finds a value.
    pub(crate) fn is_completed(self) -> (bool, Account<'a, T, S>)
        requires { has_begun (what self.party.view) ≡ false }
        ensures made { Answered IsCompleted (Is result.0) (here self.entry) (here result.1) }
        ensures out { has_begun (what result.1.party.view) ≡ false }
    {
        let (next, account) = self.step(OnceCall::IsCompleted, OncePoint::Look);
        match next {
            Next::Answers(Answer::Is(there), _) => (there, account),
            _ => unreachable!(),
        }
    }

    /// Begins a call with a closure, by one load. If the load finds no value, the call continues by
    /// [`claim`](Account::claim).
    pub(crate) fn come(self, call: OnceCall<()>) -> Result<Found<'a, T, S>, Account<'a, T, S>>
        requires out { has_begun (what self.party.view) ≡ false }
        requires closure { HasClosure call }
        ensures { ComesIn call (here self.entry) result }
    {
        let (next, account) = self.step(call, OncePoint::Look);
        match next {
            Next::Answers(_, _) => Ok(Found { account }),
            Next::Continue(_) => Err(account),
        }
    }

    /// Finds the value, or gets the right to make it. Spins while another thread makes it.
    pub(crate) fn claim<R: RelaxStrategy, W: Wait>(
        self,
        call: OnceCall<()>,
        rt: &W,
    ) -> Result<Found<'a, T, S>, InitPermit<'a, T, S>>
        requires wants { what self.party.view ≡ Some (in_call call TryBegin) }
        requires closure { HasClosure call }
        ensures claims { (p : Place T S) → Entered call p (here self.entry) → Claims call p result }
        ensures runs { IfErr result (λ permit. MayRun call self.entry permit.account) }
    {
        let (next, account) = self.step(call, OncePoint::TryBegin);
        match next {
            Next::Answers(_, _) => Ok(Found { account }),
            Next::Continue(OncePoint::Run) => Err(InitPermit { account }),
            Next::Continue(point) => account.claim_later::<R, W>(call, point, rt),
        }
    }

    // Goes on with a claim that has met another thread's closure. It is not inlined, since a first caller meets none.
    #[cold]
    #[inline(never)]
    fn claim_later<R: RelaxStrategy, W: Wait>(
        self,
        call: OnceCall<()>,
        point: OncePoint,
        rt: &W,
    ) -> Result<Found<'a, T, S>, InitPermit<'a, T, S>>
        requires at { what self.party.view ≡ Some (in_call call point) }
        requires quiet { is_run point ≡ false }
        requires closure { HasClosure call }
        ensures claims { (p : Place T S) → Entered call p (here self.entry) → Claims call p result }
        ensures runs { IfErr result (λ permit. MayRun call self.entry permit.account) }
    {
        let (next, account) = self.go_on::<R, W>(call, point, rt);
        match next {
            Next::Answers(_, _) => Ok(Found { account }),
            Next::Continue(_) => Err(InitPermit { account }),
        }
    }

    /// Spins until there is a value.
    pub(crate) fn wait<R: RelaxStrategy, W: Wait>(self, rt: &W) -> Found<'a, T, S>
        requires { has_begun (what self.party.view) ≡ false }
        ensures { Answered WaitCall (Value tt) (here self.entry) (here result.account) }
    {
        let (next, account) = self.step(OnceCall::Wait, OncePoint::Look);
        match next {
            Next::Answers(_, _) => Found { account },
            Next::Continue(point) => {
                let (_, account) = account.go_on::<R, W>(OnceCall::Wait, point, rt);
                Found { account }
            }
        }
    }

    /// Spins while a thread makes the value. Then finds the value, or none.
    pub(crate) fn poll<R: RelaxStrategy, W: Wait>(self, rt: &W) -> (Option<&'a T>, Self)
        requires { has_begun (what self.party.view) ≡ false }
        ensures { GetsOrNone Poll (here self.entry) result }
    {
        let (next, account) = self.step(OnceCall::Poll, OncePoint::Look);
        match next {
            Next::Answers(_, _) => account.answer(OnceCall::Poll, next),
            Next::Continue(point) => {
                let (next, account) = account.go_on::<R, W>(OnceCall::Poll, point, rt);
                account.answer(OnceCall::Poll, next)
            }
        }
    }
}

// Returns whether the call is answered with the value.
fn is_value(next: Next<OncePoint, Answer<()>>) -> bool
    requires { IsTold next }
    ensures is { result ≡ true → next ≡ Answers (Value tt) None }
    ensures none { result ≡ false → next ≡ Answers NoValue None }
{
    matches!(next, Next::Answers(Answer::Value(()), _))
}

/// Makes an operation of the call's table. Returns the number found; a store finds 0.
#[inline(always)]
pub(super) fn operate<'a, T, S: Seed<T>, M: Play<Key<T, S>, Party, Entry<T>>>(
    party: Caller<'a, T, S>,
    operation: Operation,
    seen: Watch<Entry<T>>,
    call: OnceCall<()>,
    point: OncePoint,
) -> (u64, Caller<'a, T, S>, Watch<Entry<T>>)
    requires knows { MayKnow (IsOnce party.key.opening) (once_ways S.makes party.key) seen }
    requires keeps { Operates just_one (IsOnce party.key.opening) (once_ways S.makes party.key) party.view party.value 0 operation (M.told party.key party.view) }
    ensures { MadeStep (λ key. IsOnce key.opening) (once_ways S.makes) M.told party.entry seen result.0 result.1 result.2 }
{
    let _ = (call, point);
    match operation {
        Operation::Load => party.load::<M>(seen),
        Operation::Exchange(old, new) => party.exchange::<M>(old, new, seen),
        Operation::Store(to) => {
            let (party, seen) = party.store::<M>(to, seen);
            (0, party, seen)
        }
        Operation::Add(by) => party.add::<M>(by, seen),
        Operation::Subtract(by) => party.subtract::<M>(by, seen),
        Operation::SetLowestBit => party.set_bits::<M>(1, seen),
    }
}
