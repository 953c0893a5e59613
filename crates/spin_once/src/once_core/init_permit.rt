//! The right to make the value. It ends by [`InitPermit::complete`] or [`InitPermit::fail`], which return the party's
//! account.
ghost use Rattle.std.specs.Prelude.{◌≡◌, Some, true, false};
ghost use Rattle.spin_core.specs.Cell.{use_of, writes};
ghost use Rattle.spin_core.specs.Own.{what};
ghost use Rattle.spin_core.specs.Passes.{IsCall};
ghost use Rattle.spin_core.specs.Stable.{maybe_stable};
ghost use Rattle.spin_session.specs.Turns.{has_begun};
ghost use Rattle.spin_step.specs.declared.answer.Answer.TheVariants.{Value};
ghost use Rattle.spin_step.specs.declared.once_calls.OnceCall.TheVariants.{TryCallOnceOk};
ghost use Rattle.spin_step.specs.declared.once_calls.OncePoint.TheVariants.{Run};
ghost use Rattle.spin_once.specs.Once.{use_of_party, in_call, Call, runs_closure, IsFailedCall};

use super::account::{Account, Found, operate};
use super::rule::{Caller, Fail, Seed, Stage};
use spin_step::{OnceCall, OncePoint, OnceTable, Steps, once};
use std::marker::Brand;
use std::mem::{self, ManuallyDrop};

/// The right of the party that began to make the value: this party has the cell's content to itself.
pub(crate) struct InitPermit<'a, T, S: Seed<T>> {
    pub(super) account: Account<'a, T, S>,
    ghost runs: { runs_closure (what account.party.view) ≡ true },
}

impl<'a, T, S: Seed<T>> InitPermit<'a, T, S> {
    ghost use Rattle.spin_once.specs.Accounts.{Place, here, HasSeed, Entered, Shows, MadeSince};

    /// Takes the seed out.
    pub(crate) fn take(self) -> (Self, S)
        requires { HasSeed self.account }
        ensures taken { result.1 ≡ self.entry.account.party.key.seed.value }
        ensures same { here result.0.account ≡ here self.entry.account }
    {
        let Self { account } = self;
        let Account { party, seen } = account;
        let mut writer = party.into_writer();
        match mem::replace(&mut writer.get_mut().value, Stage::Taken) {
            Stage::Seed(seed) => {
                let party = writer.into_permit();
                (
                    InitPermit {
                        account: Account { party, seen },
                    },
                    seed,
                )
            }
            _ => unreachable!(),
        }
    }

    /// Stores the value, which all parties may read from then on. A seed that was not taken out is not dropped.
    pub(crate) fn complete(self, value: T) -> Found<'a, T, S>
        requires { S.makes self.account.party.key.seed.value value }
        ensures shows { Shows result.account value }
        ensures since { (c : Call) (p : Place T S) → what self.entry.account.party.view ≡ Some (in_call c Run) → Entered c p (here self.entry.account) → MadeSince p (IsCall c (Value tt)) (here result.account) }
    {
        let Self { account } = self;
        let Account { party, seen } = account;
        let party = put(party, Stage::Done(value));
        let call = OnceCall::CallOnce(());
        let store = OnceTable.operation(call, OncePoint::Run, None);
        let (_, party, seen) = operate::<T, S, Brand>(party, store, seen, call, OncePoint::Run);
        Found {
            account: Account { party, seen },
        }
    }

    /// Leaves the seed in the cell, so that the next party may begin. The closure of the call is one that may fail.
    pub(crate) fn fail(self) -> Account<'a, T, S>
        requires seed { HasSeed self.account }
        requires may { what self.account.party.view ≡ Some (in_call (TryCallOnceOk tt) Run) }
        ensures since { (p : Place T S) → Entered (TryCallOnceOk tt) p (here self.entry.account) → MadeSince p IsFailedCall (here result) }
        ensures out { has_begun (what result.party.view) ≡ false }
    {
        let Self { account } = self;
        let Account { party, seen } = account;
        let (party, seen) = party.store::<Fail>(once::fail(1) as u64, seen);
        Account { party, seen }
    }
}

// Replaces the content of the cell.
fn put<'a, T, S: Seed<T>>(party: Caller<'a, T, S>, stage: Stage<T, S>) -> Caller<'a, T, S>
    requires { use_of use_of_party party.view ≡ writes }
    ensures same { (result.key ≡ party.entry.key) × (result.view ≡ party.entry.view) }
    ensures value { result.value ≡ Some (maybe_stable stage) }
{
    let mut writer = party.into_writer();
    spend(mem::replace(&mut writer.get_mut().value, stage));
    writer.into_permit()
}

// Forgets the old content without a test, since the thread with the permit knows that there is no value. This saves two
// tests in a first `call_once`.
fn spend<T, S>(stage: Stage<T, S>) {
    let _gone = unsafe { ManuallyDrop::new_unchecked(stage) };
}
