//! A thread's record of its calls of a `Once` or a `LazyLock`. Begin with [`Pass`].
ghost use Rattle.std.specs.Prelude.{◌≡◌, false, IfSome};
ghost use Rattle.spin_core.specs.Logs.{OneIsPrefix};
ghost use Rattle.spin_core.specs.Own.{what};
ghost use Rattle.spin_session.specs.Turns.{has_begun};
ghost use Rattle.spin_step.specs.declared.answer.Answer.TheVariants.{Is};
ghost use Rattle.spin_step.specs.declared.once_calls.OnceCall.TheVariants.{Get, IsCompleted};
ghost use Rattle.spin_once.specs.Accounts.{Place, here};
ghost use Rattle.spin_once.specs.Passes.{After, AreOfOne, Calls, Gets, Has, Never, Recalls, TellsValue, found_or_none, history, lock_of};

use super::account::Account;
use super::rule::{Entry, Seed};
use spin_core::trace::Watch;
use std::fmt;
use std::fmt::{Debug, Formatter};
use std::marker::{Model, PhantomData};

/// A thread's record of its calls of a [`Once`](crate::once::Once) or a [`LazyLock`](crate::lazylock::LazyLock).
///
/// The cell of the `Once` keeps the list of all moves that threads have made in it (its history). A pass knows which of
/// these moves are its own, and the whole list up to its own last move. Calls without a pass are in the history too, as
/// calls of others. A pass is as large as a reference. It can be sent, and a `Once` can have any number of passes.
///
/// # Contract
/// Each call takes the pass and returns it. The call ensures `Calls`: in the history the pass's new moves are
/// those of exactly one call, and this call has the returned answer. (A call whose closure may fail ensures `Tried`.)
/// A model of a `Once` that threads share plays the moves of all threads in the order of the history. It skips no
/// move, and gives this call the same answer.
#[must_use = "a pass that is dropped ends: bind it, or write `drop(..)`"]
pub struct Pass<'a, T, S: Seed<T>, R> {
    account: Account<'a, T, S>,
    strategy: PhantomData<R>,
}

impl<'a, T, S: Seed<T>, R> Model for Pass<'a, T, S, R> {
    ghost Value = { Place T S };

    ghost view = { λ pass. here pass.account };

    ghost invariant = { λ pass. has_begun (what pass.account.party.view) ≡ false };
}

impl<'a, T, S: Seed<T>, R> Pass<'a, T, S, R> {
    /// Returns the pass of a party that is in no call.
    #[inline(always)]
    pub(crate) fn of(account: Account<'a, T, S>) -> Self
        requires { has_begun (what account.party.view) ≡ false }
        ensures { result ≡ here account.entry }
    {
        Pass {
            account,
            strategy: PhantomData,
        }
    }

    /// Returns the account of the pass's party.
    #[inline(always)]
    pub(crate) fn into_account(self) -> Account<'a, T, S>
        ensures same { here result ≡ self.entry }
        ensures out { has_begun (what result.party.view) ≡ false }
    {
        let Self {
            account,
            strategy: _,
        } = self;
        account
    }

    /// Returns the value, or `None` if there is none yet, as [`Once::get`](crate::once::Once::get) does.
    ///
    /// # Contract
    /// The call is one `Get`. Its answer is `Value` if a reference is returned, and otherwise `NoValue` (`made`). The
    /// value is the only one in the history (`found`).
    pub fn get(self) -> (Option<&'a T>, Self)
        ensures made { Calls Get (found_or_none result.0) self.entry result.1 }
        ensures found { IfSome result.0 (λ value. Gets Get Never self.entry value.now result.1) }
    {
        let (found, account) = self.into_account().get();
        (found, Pass::of(account))
    }

    /// Returns whether there is a value, as [`Once::is_completed`](crate::once::Once::is_completed) does.
    ///
    /// # Contract
    /// The call is one `IsCompleted`, with the returned answer.
    pub fn is_completed(self) -> (bool, Self)
        ensures { Calls IsCompleted (Is result.0) self.entry result.1 }
    {
        let (there, account) = self.into_account().is_completed();
        (there, Pass::of(account))
    }

    /// Returns what this pass knows of the history. It outlives the borrow of the `Once` or `LazyLock`.
    ///
    /// # Contract
    /// It is what the pass knows (`Recalls`).
    pub fn seen(&self) -> Watch<Entry<T>>
        ensures { Recalls self.now result }
    {
        self.account.seen.copy()
    }

    /// Compares what two passes of one `Once` or `LazyLock` know. It does nothing when it runs.
    ///
    /// # Contract
    /// The history that one of the passes knows is a prefix of the history that the other knows. The longer of the two
    /// histories has every call of both passes exactly once. It has the calls of each pass in the order in which that
    /// pass made them.
    pub fn compare(&self, other: &Pass<'_, T, S, R>)
        requires { lock_of self.now ≡ lock_of other.now }
        ensures { OneIsPrefix (history self.now) (history other.now) }
    {
        self.account.compare(&other.account);
    }

    /// Shows that two answers are one value. It does nothing when it runs.
    ///
    /// # Contract
    /// Each of the two values has to be the one in the history that its pass knows (`Has`), which each call that
    /// answers with a value ensures (`found`). The owner must not have borrowed the value (`told`).
    pub fn agrees(&self, mine: &T, other: &Pass<'_, T, S, R>, theirs: &T)
        requires told { TellsValue self.now }
        requires lock { AreOfOne self.now other.now }
        requires mine { Has self.now mine.now }
        requires theirs { Has other.now theirs.now }
        ensures { mine.now ≡ theirs.now }
    {
        let _ = mine;
        let _ = theirs;
        self.compare(other);
    }

    /// Returns this pass, which then also knows what the other pass knows. It does nothing when it runs.
    ///
    /// So the next call of this pass comes after the calls of the other that are known by now.
    ///
    /// # Contract
    /// The two passes have to be of one `Once` or `LazyLock`. The result knows the longer of the two histories, of
    /// which the other is a prefix (`After`).
    ///
    /// # Examples
    /// ```
    /// use spin::Once;
    ///
    /// let port: Once<u16> = Once::new();
    /// let (made, maker) = port.pass().call_once(&rt, || 80);
    /// let (found, reader) = port.pass().after(&maker).get();
    /// assert_eq!(rt; (*made, found.copied()), (80, Some(80)));
    /// drop((maker, reader));
    /// ```
    pub fn after(self, earlier: &Pass<'_, T, S, R>) -> Self
        requires { AreOfOne self earlier.now }
        ensures { After earlier.now self.entry result }
    {
        Pass::of(self.into_account().after(&earlier.account))
    }
}

impl<T, S: Seed<T>, R> Drop for Pass<'_, T, S, R> {
    fn drop(self) {
        self.into_account().close();
    }
}

/// Prints `Pass { .. }`.
impl<T, S: Seed<T>, R> Debug for Pass<'_, T, S, R> {
    fn fmt<W: fmt::Write>(&self, f: &mut Formatter<W>) -> fmt::Result {
        f.debug_struct("Pass").finish_non_exhaustive()
    }
}
