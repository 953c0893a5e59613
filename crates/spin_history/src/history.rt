//! A log that only grows, and snapshots of it. Both are ghost state: tokens that have no bytes and cost
//! nothing at run time. Begin with [`BlankLog::new`] and [`Snapshot`].
ghost use Rattle.std.specs.Prelude.{◌≡◌, ℕ, List, [], ⊤};
ghost use Rattle.std.specs.Coded.{coded_list};
ghost use denote.Sharing.{said};
ghost use Rattle.spin_core.specs.Logs.{log_owns, log_shares, known_owns};
ghost use Rattle.spin_history.specs.History.{blank_owns, closed_owns};

use std::marker::{Brand, Model, PhantomData};

mod calls;

/// The name of a log, as a type. All tokens with the same `H` belong to one log.
///
/// Generic code takes a type parameter `H: History`. The code that makes the log ([`BlankLog::new`]) passes `Brand`
/// for `H`. In the `run` of a [`Work`] the `H` of `run` names the log.
pub trait History {
    ghost name: { ℕ };
}

impl History for Brand {
    ghost name = { 0 };
}

/// A new log, whose entries have no type yet. [`open`](BlankLog::open) gives them one.
pub struct BlankLog {
    marker: PhantomData<()>,
    pub ghost name: { ℕ },
}

impl Model for BlankLog {
    ghost also_owns = { λ blank. blank_owns blank.name };
}

/// Work that uses a log of its own. The function [`open`](fn@open) makes this log and names it.
///
/// # Contract
/// `asks` says what has to hold of the fields of the work, and `gives` which answers it may give. Each says
/// nothing if the work does not define it.
pub trait Work {
    type Answer;

    ghost asks: { Self → Type 0 } = { λ _. ⊤ };

    ghost gives: { Self → Self.Answer → Type 0 } = { λ _ _. ⊤ };

    /// Does the work with a log that `H` names.
    ///
    /// # Contract
    /// `asks` has to hold of the work, and `H` has to name the log. The answer is one that `gives` allows.
    fn run<H: History + Send + Sync>(self, blank: BlankLog) -> Self::Answer
        requires asked { asks self }
        requires name { blank.name ≡ H.name }
        ensures { gives self result };
}

fn open_by<K: Work, H: History + Send + Sync>(work: K, blank: BlankLog) -> K::Answer
    requires asked { K.asks work }
    requires name { blank.name ≡ H.name }
    ensures { K.gives work result }
{
    work.run::<H>(blank)
}

/// Names a new log, and does the work with it. Inside, the work may open another log.
///
/// # Contract
/// `asks` has to hold of the work. The answer is one that `gives` allows.
///
/// # Examples
/// ```
/// use spin_history::history::{BlankLog, History, Work, open};
/// use spin_history::register::Register;
///
/// #[derive(Drop)]
/// struct WriteTwo;
///
/// impl Work for WriteTwo {
///     type Answer = u64;
///
///     fn run<H: History + Send + Sync>(self, blank: BlankLog) -> u64 {
///         let log = blank.open::<u64, H>();
///         let mut seen = log.snapshot();
///         let mut register: Register<u64, H> = Register::new(1, log);
///         register.write(2, &mut seen);
///         register.read(&mut seen)
///     }
/// }
///
/// assert_eq!(rt; open(WriteTwo), 2);
/// ```
pub fn open<K: Work>(work: K) -> K::Answer
    requires asked { K.asks work }
    ensures { K.gives work result }
{
    open_by::<K, Brand>(work, BlankLog::new())
}

/// A monotone log: a list that only grows, with the right to append to it. Each `H` names one log.
///
/// A log is kept together with the value that it is about, under the same lock. A struct that has both
/// relates them by an invariant, as [`Register`](crate::register::Register) does.
pub struct Log<T, H: History> {
    marker: PhantomData<(T, H)>,
    pub ghost entries: { List T } by { coded_list T.code },
}

impl<T, H: History> Model for Log<T, H> {
    ghost also_owns = { λ log. log_owns T.row.coded.code H.name log.entries };

    ghost also_shares = { λ log _ κ. log_shares T.row.coded.code H.name log.entries κ };
}

/// A lower bound of a log: the snapshot's entries are a prefix of the log, now and for ever.
///
/// Any number of threads may each have a snapshot, whether or not they hold the lock.
pub struct Snapshot<T, H: History> {
    marker: PhantomData<(T, H)>,
    pub ghost entries: { List T } by { coded_list T.code },
}

impl<T, H: History> Model for Snapshot<T, H> {
    ghost also_owns = { λ snapshot. known_owns T.row.coded.code H.name snapshot.entries };

    ghost also_shares = { λ snapshot _ κ. said (known_owns T.row.coded.code H.name snapshot.entries) κ };
}

/// A log to which no thread can append any more. Every snapshot is a prefix of it.
pub struct ClosedLog<T, H: History> {
    marker: PhantomData<(T, H)>,
    pub ghost entries: { List T } by { coded_list T.code },
}

impl<T, H: History> Model for ClosedLog<T, H> {
    ghost also_owns = { λ closed. closed_owns T.row.coded.code H.name closed.entries };

    ghost also_shares = { λ closed _ κ. said (closed_owns T.row.coded.code H.name closed.entries) κ };
}

impl BlankLog {
    /// Creates a log whose entries have no type yet.
    pub fn new() -> BlankLog {
        BlankLog {
            marker: PhantomData,
        }
    }

    /// Opens the log under the name `H`, with entries of type `T`.
    ///
    /// # Contract
    /// `H` has to name this log (see [`History`]). The log is empty.
    pub fn open<T, H: History>(self) -> Log<T, H>
        requires { self.name ≡ H.name }
        ensures { result.entries ≡ [] }
    {
        let Self { marker: _ } = self;
        Log {
            marker: PhantomData,
        }
    }
}

impl Drop for BlankLog {
    fn drop(self) {
        let Self { marker: _ } = self;
    }
}

impl<T, H: History> Drop for Log<T, H> {
    fn drop(self) {
        let Self { marker: _ } = self;
    }
}

impl<T, H: History> Drop for Snapshot<T, H> {
    fn drop(self) {
        let Self { marker: _ } = self;
    }
}

impl<T, H: History> Drop for ClosedLog<T, H> {
    fn drop(self) {
        let Self { marker: _ } = self;
    }
}

// SAFETY: a token has no bytes, and what it owns does not depend on a thread.
unsafe impl<T, H: History> Send for Log<T, H> {}

// SAFETY: a shared log tells only its entries.
unsafe impl<T, H: History> Sync for Log<T, H> {}

// SAFETY: a snapshot has no bytes, and what it knows holds on any thread.
unsafe impl<T, H: History> Send for Snapshot<T, H> {}

// SAFETY: a shared snapshot tells only its entries.
unsafe impl<T, H: History> Sync for Snapshot<T, H> {}

// SAFETY: a closed log has no bytes, and what it knows holds on any thread.
unsafe impl<T, H: History> Send for ClosedLog<T, H> {}

// SAFETY: a shared closed log tells only its entries.
unsafe impl<T, H: History> Sync for ClosedLog<T, H> {}
