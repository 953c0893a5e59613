//! A ledger: transfers between accounts under one lock, with a journal of all transfers. Begin with
//! [`Accounts`].
ghost use Rattle.std.specs.Prelude.{◌≡◌, ◌≢◌, ◌<◌, ◌^◌, ◌++◌, ◌∷◌, [], true, false, List, ℕ, Some, None, IfOk, IfErr, OnOk, OnErr, MatchResult, slice_get, slice_index, sum, ◌+◌};
ghost use Rattle.spin_examples.specs.Ledger.{after, can_make, paid_in, paid_out, replayed, RefusedFor};
ghost use Rattle.spin_examples.specs.declared.ledger.Transfer.{Transfer};

use spin_mutex::mutex::Mutex;
use std::alloc::{Allocator, Global};
use std::marker::{Brand, PhantomData};
use std::sync::Wait;

/// An amount to move from one account to another. Accounts are numbered from 0.
#[derive(Clone, Copy, Debug, PartialEq, Eq)]
pub struct Transfer {
    pub from: usize,
    pub to: usize,
    pub amount: u64,
}

/// The reason why a transfer or a replay fails.
#[derive(Clone, Copy, Debug, PartialEq, Eq)]
pub enum Refused {
    /// One of the two accounts does not exist.
    NoSuchAccount,
    /// The account that pays has less than the amount.
    TooLittle,
    /// Allocating memory for the journal's entry, or for the replay, failed.
    OutOfMemory,
}

/// The opening balances of one ledger, as a type that only proofs use. By this type proofs know to which
/// ledger a value belongs.
pub trait Opening {
    ghost balances: { List ℕ };
}

impl Opening for Brand {
    ghost balances = { [] };
}

/// The accounts, and all transfers made so far, in order.
#[derive(Drop)]
pub struct Accounts<O: Opening, A: Allocator = Global> {
    balances: Vec<u64, A>,
    journal: Vec<Transfer, A>,
    opening: PhantomData<O>,
    ghost replays: { replayed O.balances journal.items ≡ Some balances.items },
    ghost exact: { sum balances.items ≡ sum O.balances },
    ghost fits: { sum O.balances < 2 ^ 64 },
}

/// Accounts that threads share. A thread that locks them can use the invariant of `Accounts`.
pub type Ledger<O, A = Global> = Mutex<Accounts<O, A>>;

impl<O: Opening, A: Allocator> Accounts<O, A> {
    /// Creates accounts with these balances, and an empty journal.
    ///
    /// # Contract
    /// The balances have to be those of `O`, and their sum has to fit a `u64`.
    pub fn open(alloc: A, balances: Vec<u64, A>) -> Self
        requires opening { balances.items ≡ O.balances }
        requires fits { sum O.balances < 2 ^ 64 }
        ensures balances { result.balances.items ≡ balances.items }
        ensures journal { result.journal.items ≡ [] }
    {
        Accounts {
            balances,
            journal: Vec::new(alloc),
            opening: PhantomData,
        }
    }

    /// Makes a transfer, or fails and changes nothing.
    ///
    /// # Contract
    /// The answer is `Ok` exactly if the transfer can be made and no allocation fails. Then the balances are
    /// those after the transfer, and the journal ends with it. `Err` says why (`RefusedFor`), and balances
    /// and journal do not change.
    pub fn transfer(&mut self, transfer: Transfer) -> Result<(), Refused>
        ensures why { MatchResult result (λ _. can_make transfer self.old.balances.items ≡ true) (λ e. RefusedFor e transfer self.old.balances.items) }
        ensures balances { OnOk result (self.new.balances.items ≡ after transfer self.old.balances.items) }
        ensures journal { OnOk result (self.new.journal.items ≡ self.old.journal.items ++ transfer ∷ []) }
        ensures same_balances { OnErr result (self.new.balances.items ≡ self.old.balances.items) }
        ensures same_journal { OnErr result (self.new.journal.items ≡ self.old.journal.items) }
    {
        let Accounts {
            balances,
            journal,
            ..
        } = self;
        may_make(balances, &transfer)?;
        let Ok(()) = journal.push(transfer) else {
            return Err(Refused::OutOfMemory);
        };
        make(balances, &transfer);
        Ok(())
    }

    /// Returns the balance of an account, or `None` if it does not exist.
    ///
    /// # Contract
    /// The answer is the account's present balance.
    pub fn balance(&self, account: usize) -> Option<u64>
        ensures { result ≡ slice_get self.now.balances.items account }
    {
        self.balances.get(account).copied()
    }

    /// Returns the sum of all balances.
    ///
    /// # Contract
    /// The sum is always that of the opening balances.
    pub fn total(&self) -> u64
        ensures { result ≡ sum O.balances }
    {
        self.balances.iter().sum()
    }

    /// Returns the transfers made, in order.
    ///
    /// # Contract
    /// The replay of these transfers from the opening balances gives the present balances.
    pub fn journal(&self) -> &[Transfer]
        ensures journal { result.now ≡ self.now.journal.items }
        ensures replays { replayed O.balances result.now ≡ Some self.now.balances.items }
    {
        &self.journal
    }
}

/// Checks that a transfer can be made. `Err` says why it cannot.
fn may_make(balances: &[u64], transfer: &Transfer) -> Result<(), Refused>
    ensures possible { OnOk result (can_make transfer.now balances.now ≡ true) }
    ensures why { IfErr result (λ e. (can_make transfer.now balances.now ≡ false) × RefusedFor e transfer.now balances.now) }
{
    if transfer.from >= balances.len() || transfer.to >= balances.len() {
        return Err(Refused::NoSuchAccount);
    }
    if balances[transfer.from] < transfer.amount {
        return Err(Refused::TooLittle);
    }
    Ok(())
}

/// Makes a transfer that can be made.
fn make(balances: &mut [u64], transfer: &Transfer)
    requires possible { can_make transfer.now balances.old ≡ true }
    requires fits { sum balances.old < 2 ^ 64 }
    ensures after { balances.new ≡ after transfer.now balances.old }
    ensures exact { sum balances.new ≡ sum balances.old }
{
    balances[transfer.from] -= transfer.amount;
    balances[transfer.to] += transfer.amount;
}

/// Returns the balances after all transfers of a journal, in its order. Fails at the first transfer that
/// cannot be made.
///
/// # Contract
/// The sum of the opening balances has to fit a `u64`. `Ok` has the balances of the replay (`replayed`).
/// After `Err` there is no replay, unless an allocation failed.
pub fn replay<A: Allocator>(
    alloc: A,
    opening: &[u64],
    journal: &[Transfer],
) -> Result<Vec<u64, A>, Refused>
    requires { sum opening.now < 2 ^ 64 }
    ensures replays { IfOk result (λ balances. replayed opening.now journal.now ≡ Some balances.items) }
    ensures refuses { IfErr result (λ e. e ≢ Refused.OutOfMemory → replayed opening.now journal.now ≡ None) }
{
    let Ok(mut balances) = Vec::from_slice(alloc, opening) else {
        return Err(Refused::OutOfMemory);
    };
    for transfer in journal {
        may_make(&balances, transfer)?;
        make(&mut balances, transfer);
    }
    Ok(balances)
}

/// States, for each replay, that an account's balance plus what was paid out of it is its opening balance
/// plus what was paid into it. A ledger's journal is such a replay.
pub fn a_balance_is_what_came_less_what_went()
    ensures { (opening balances : List ℕ) (journal : List Transfer) (account : ℕ) → replayed opening journal ≡ Some balances → slice_index balances account + paid_out account journal ≡ slice_index opening account + paid_in account journal }
{}

/// Acquires the lock, and returns the sum of all balances.
///
/// # Contract
/// The answer is the sum of the opening balances. Whether and when the call returns is not promised.
pub fn total<O: Opening, A: Allocator, W: Wait>(rt: &W, ledger: &Ledger<O, A>) -> u64
    ensures { result ≡ sum O.balances }
{
    ledger.lock(rt).total()
}
