//! The calls of a log, of a closed log and of a snapshot.
ghost use Rattle.std.specs.Prelude.{◌≡◌, [], ◌∷◌, ◌++◌};
ghost use Rattle.spin_core.specs.Logs.{KnowsBoth, OneIsPrefix};
ghost use Rattle.spin_history.specs.Entries.{WritesOne};
ghost use Rattle.spin_history.specs.Known.{log_entries, known_to, closed_entries, IsUpdated};

use super::{ClosedLog, History, Log, Snapshot};
use std::marker::PhantomData;

impl<T, H: History> Log<T, H> {
    /// Appends an entry.
    ///
    /// # Contract
    /// The log has its former entries, followed by `value`.
    pub fn append(&mut self, value: &T)
        ensures { log_entries self.new ≡ log_entries self.old ++ value.now ∷ [] }
    {}

    /// Returns a snapshot of all entries so far.
    ///
    /// # Contract
    /// The snapshot has all entries of the log.
    pub fn snapshot(&self) -> Snapshot<T, H>
        ensures { known_to result ≡ log_entries self.now }
    {
        Snapshot {
            marker: PhantomData,
        }
    }

    /// Brings a snapshot up to date.
    ///
    /// # Contract
    /// The snapshot's former entries are a prefix of the log. Afterwards it has the whole log.
    pub fn observe(&self, snapshot: &mut Snapshot<T, H>)
        ensures { IsUpdated snapshot.old snapshot.new (log_entries self.now) }
    {
        *snapshot = self.catch_up(snapshot);
    }

    // A snapshot of the whole log, of which the other one knows a part.
    fn catch_up(&self, snapshot: &Snapshot<T, H>) -> Snapshot<T, H>
        ensures { IsUpdated snapshot.now result (log_entries self.now) }
    {
        Snapshot {
            marker: PhantomData,
        }
    }

    /// Appends an entry, and brings a snapshot up to date.
    ///
    /// # Contract
    /// The snapshot's former entries are a prefix of the log. Afterwards it has the whole log, of which `value` is the last
    /// entry (`WritesOne`).
    ///
    /// # Examples
    /// ```
    /// use spin_history::history::{BlankLog, History, Log, Snapshot, Work, open};
    ///
    /// #[derive(Drop)]
    /// struct Sends;
    ///
    /// impl Work for Sends {
    ///     type Answer = u64;
    ///
    ///     fn run<H: History + Send + Sync>(self, blank: BlankLog) -> u64 {
    ///         let mut sent: Log<u64, H> = blank.open();
    ///         let mut seen: Snapshot<u64, H> = sent.snapshot();
    ///         let message = 7;
    ///         sent.append_and_observe(&message, &mut seen);
    ///         message
    ///     }
    /// }
    ///
    /// assert_eq!(rt; open(Sends), 7);
    /// ```
    pub fn append_and_observe(&mut self, value: &T, snapshot: &mut Snapshot<T, H>)
        ensures appended { log_entries self.new ≡ log_entries self.old ++ value.now ∷ [] }
        ensures seen { known_to snapshot.new ≡ log_entries self.new }
        ensures later { WritesOne (known_to snapshot.old) value.now (known_to snapshot.new) }
    {
        self.observe(snapshot);
        self.append(value);
        self.observe(snapshot);
    }

    /// Compares two references to the log that are held at the same time.
    ///
    /// # Contract
    /// Both show the same entries. So two readers that hold the lock of a [`Register`](crate::register::Register) at
    /// the same time read the same value.
    pub fn same(&self, other: &Log<T, H>)
        ensures { log_entries self.now ≡ log_entries other.now }
    {
        let _ = self.catch_up(&other.snapshot());
        let _ = other.catch_up(&self.snapshot());
    }

    /// Closes the log: no thread can append to it any more.
    ///
    /// # Contract
    /// The closed log has all entries of the log.
    pub fn close(self) -> ClosedLog<T, H>
        ensures { closed_entries result ≡ log_entries self }
    {
        let Self { marker: _ } = self;
        ClosedLog {
            marker: PhantomData,
        }
    }
}

impl<T, H: History> ClosedLog<T, H> {
    /// Returns a copy of the closed log.
    ///
    /// # Contract
    /// The copy has the same entries.
    pub fn copy(&self) -> ClosedLog<T, H>
        ensures { closed_entries result ≡ closed_entries self.now }
    {
        ClosedLog {
            marker: PhantomData,
        }
    }

    /// Brings a snapshot up to date. The log is closed, so the snapshot stays up to date.
    ///
    /// # Contract
    /// Like that of [`Log::observe`].
    pub fn observe(&self, snapshot: &mut Snapshot<T, H>)
        ensures { IsUpdated snapshot.old snapshot.new (closed_entries self.now) }
    {
        *snapshot = self.catch_up(snapshot);
    }

    // A snapshot of the whole log, of which the other one knows a part.
    fn catch_up(&self, snapshot: &Snapshot<T, H>) -> Snapshot<T, H>
        ensures { IsUpdated snapshot.now result (closed_entries self.now) }
    {
        Snapshot {
            marker: PhantomData,
        }
    }
}

impl<T, H: History> Snapshot<T, H> {
    /// Returns a snapshot that knows nothing, for whoever has seen no entry of the log.
    ///
    /// # Contract
    /// The snapshot has no entry.
    pub fn nothing() -> Snapshot<T, H>
        ensures { known_to result ≡ [] }
    {
        Snapshot {
            marker: PhantomData,
        }
    }

    /// Returns a copy of the snapshot.
    ///
    /// # Contract
    /// The copy has the same entries.
    pub fn copy(&self) -> Snapshot<T, H>
        ensures { known_to result ≡ known_to self.now }
    {
        self.joined_with(self)
    }

    /// Compares two snapshots of one log.
    ///
    /// # Contract
    /// The entries of one snapshot are a prefix of the other's.
    pub fn compare(&self, other: &Snapshot<T, H>)
        ensures { OneIsPrefix (known_to self.now) (known_to other.now) }
    {
        let _ = self.joined_with(other);
    }

    /// Adds what another snapshot knows to this one.
    ///
    /// # Contract
    /// This one has afterwards the longer of the two lists, of which the other is a prefix (`KnowsBoth`).
    pub fn merge(&mut self, other: &Snapshot<T, H>)
        ensures { KnowsBoth (known_to self.old) (known_to other.now) (known_to self.new) }
    {
        *self = self.joined_with(other);
    }

    // A snapshot of all that the two know.
    fn joined_with(&self, other: &Snapshot<T, H>) -> Snapshot<T, H>
        ensures { KnowsBoth (known_to self.now) (known_to other.now) (known_to result) }
    {
        Snapshot {
            marker: PhantomData,
        }
    }
}
