//! The steps of an event, a call for each. The type of what a thread has is its place in the table. Begin at [`Event`].

ghost use Rattle.std.specs.Prelude.{◌≡◌, ℕ, ◌+◌, ◌%◌, ◌^◌, Bool, true, false, Some, None, Option};
ghost use Rattle.spin_core.specs.Own.{what};
ghost use Rattle.spin_core.specs.Traced.{TracesSecond};
ghost use Rattle.spin_step.specs.declared.place.Seat.TheVariants.{Calling};
ghost use Rattle.spin_event.specs.declared.calls.EventCall.{EventCall as ACall};
ghost use Rattle.spin_event.specs.declared.calls.EventCall.TheVariants.{NotifyAll, NotifyOne, Wait as Waits};
ghost use Rattle.spin_event.specs.declared.calls.EventPoint.TheVariants.{Look, Park};
ghost use Rattle.spin_event.specs.EventCalls.{EventSchedule};
ghost use Rattle.spin_event.specs.Threads.{After, Counts, event_ways, EventParty, IsSlept, Listens, Looks, Parks, Rings, Runs, Uncounts};

use crate::rule::{Entry, EventRule, Party};
use spin_core::cell::{Cell, Permit, Play};
use spin_core::tie::Opening;
use spin_core::trace::{Trace, Watch};
use std::fmt;
use std::fmt::{Debug, Formatter};
use std::marker::{Brand, Model};
use std::sync::Wait;
use std::time::Duration;

// The most seconds that the kernel takes for a sleep.
const FOR_EVER: u64 = i64::MAX as u64;

/// A count of rings, on which threads sleep until the next ring.
///
/// A thread that waits for a change [`listen`](Event::listen)s, looks whether the change is there, and if not
/// [`wait`](Heard::wait)s. A thread that has made a change calls [`notify_one`](Event::notify_one) or
/// [`notify_all`](Event::notify_all). So a change that comes after the look ends the wait, whenever it comes.
///
/// What a thread has says where it is in its call: [`Heard`], [`Counted`], [`Slept`], [`Rung`]. So the compiler refuses
/// the steps in any other order, and a place without `Drop` has to be left by its next step: who has rung has to look,
/// and to wake whom it finds.
///
/// # Contract
/// Each call makes its steps of the table ([`EventPoint`](crate::EventPoint)): the trace of the event's cell is a schedule
/// of it ([`EventRule`](crate::EventRule)), while there are fewer than 2^64 moves. So no wake-up is lost
/// (`a_sleeper_is_awake_or_somebody_rings`), if of 2^32 rings not exactly a multiple comes between the `listen` and the
/// sleep. What a sleep and a wake of the kernel do is assumed.
///
/// # Examples
/// ```
/// use spin_event::Event;
/// use std::sync::atomic::{AtomicU64, Ordering};
/// use std::thread;
///
/// let (event, jobs) = (Event::new(), AtomicU64::new(0));
/// let wait = || {
///     for _ in rt.forever() {
///         let heard = event.listen();
///         if jobs.load(Ordering::SeqCst) > 0 {
///             break;
///         }
///         heard.wait(&rt);
///     }
/// };
/// let bring = || {
///     jobs.fetch_add(1, Ordering::SeqCst);
///     event.notify_all();
/// };
/// thread::join(&rt, wait, bring);
/// assert_eq!(rt; jobs.load(Ordering::SeqCst), 1);
/// ```
#[derive(Drop)]
pub struct Event {
    // the words: the rings, and who is counted
    cell: Cell<(), Party, EventRule>,
}

/// The place of a thread that has listened: it may wait, or go on without.
#[derive(Drop)]
#[must_use = "who has listened looks, and then waits or drops it"]
pub struct Heard<'a> {
    of: &'a Event,
    heard: u64,
}

/// The place of a thread that is counted as a sleeper. It has to [`park`](Counted::park).
///
/// # Contract
/// A `Counted` in a contract is the number that the thread has heard, and its party, which is about to park with it.
pub struct Counted<'a> {
    heard: u64,
    permit: Permit<'a, (), Party, EventRule>,
}

impl<'a> Model for Counted<'a> {
    ghost Value = { ℕ × Option EventParty };

    ghost view = { λ counted. (counted.heard, counted.permit.view) };

    ghost invariant = { λ counted. what counted.permit.view ≡ Some (Calling (Waits counted.heard) (Park counted.heard) None) };
}

/// The place of a thread whose sleep has ended. It has to take its count back ([`uncount`](Slept::uncount)).
///
/// # Contract
/// A `Slept` in a contract is its party.
pub struct Slept<'a> {
    permit: Permit<'a, (), Party, EventRule>,
}

impl<'a> Model for Slept<'a> {
    ghost Value = { Option EventParty };

    ghost view = { λ slept. slept.permit.view };

    ghost invariant = { λ slept. IsSlept slept.permit.view };
}

/// The place of a thread that has rung. It has to [`wake_one`](Rung::wake_one) or [`wake_all`](Rung::wake_all).
///
/// # Contract
/// A `Rung` in a contract is its party, whose call is a `NotifyOne`.
pub struct Rung<'a> {
    of: &'a Event,
    permit: Permit<'a, (), Party, EventRule>,
}

impl<'a> Model for Rung<'a> {
    ghost Value = { Option EventParty };

    ghost view = { λ rung. rung.permit.view };

    ghost invariant = { λ rung. what rung.permit.view ≡ Some (Calling NotifyOne Look None) };
}

impl Event {
    /// Creates an event that has not rung, on which no thread sleeps.
    pub const fn new() -> Self {
        let trace = Trace::new(0);
        let opening = Opening::of(&trace, &());
        let cell = Cell::new((), 0, trace, &opening);
        opening.end();
        Event { cell }
    }

    // Loads the rings. It is a whole call `Listen`.
    fn rings(&self) -> u64
        ensures { (v : EventParty) × (log es : EventSchedule) × Listens None log es result v }
    {
        let (rings, permit, _) = self.cell.enter().load::<Brand>(Watch::nothing());
        let _left = permit.leave();
        rings
    }

    // Begins a notification for one, and adds 1 to the rings.
    pub(crate) fn ring_for_one(&self) -> Permit<'_, (), Party, EventRule>
        ensures { After (λ log es v. (n : ℕ) × Rings NotifyOne None log es n v) result.view }
    {
        let (_, permit, _) = self.cell.enter().add::<Brand>(1, Watch::nothing());
        permit
    }

    // Begins a notification for all, and adds 1 to the rings.
    pub(crate) fn ring_for_all(&self) -> Permit<'_, (), Party, EventRule>
        ensures { After (λ log es v. (n : ℕ) × Rings NotifyAll None log es n v) result.view }
    {
        let (_, permit, _) = self.cell.enter().add::<Brand>(1, Watch::nothing());
        permit
    }

    // Asks the kernel to wake one thread that sleeps.
    pub(crate) fn wakes_one(&self) {
        self.cell.wake_one();
    }

    // Asks the kernel to wake each thread that sleeps.
    pub(crate) fn wakes_all(&self) {
        self.cell.wake_all();
    }

    /// Listens: each later ring ends a wait that begins with what this returns.
    ///
    /// Call it before you look for the change that you wait for, or under the lock under which you have looked.
    ///
    /// # Examples
    /// ```
    /// use spin_event::Event;
    ///
    /// let event = Event::new();
    /// let heard = event.listen();
    /// assert!(rt; !heard.has_rung());
    /// event.notify_all();
    /// assert!(rt; heard.has_rung());
    /// ```
    pub fn listen(&self) -> Heard<'_>
        ensures { (v : EventParty) × (log es : EventSchedule) × Listens None log es result.heard v }
    {
        let heard = self.rings();
        Heard { of: self, heard }
    }

    /// Rings. Nobody who listened before begins a sleep any more. Who sleeps has to be woken by what this returns.
    ///
    /// [`notify_one`](Event::notify_one) and [`notify_all`](Event::notify_all) do both.
    ///
    /// # Examples
    /// ```
    /// use spin_event::Event;
    ///
    /// let event = Event::new();
    /// let heard = event.listen();
    /// let rung = event.ring();
    /// assert!(rt; heard.has_rung());
    /// rung.wake_all();
    /// ```
    #[must_use = "who has rung has to wake whoever sleeps"]
    pub fn ring(&self) -> Rung<'_>
        ensures { After (λ log es v. (n : ℕ) × Rings NotifyOne None log es n v) result }
    {
        let permit = self.ring_for_one();
        Rung { of: self, permit }
    }
}

// Counts the party. The proof of a caller picks what this tells, by the number that was heard.
fn counts<'a, M: Play<Opening<()>, Party, Entry>>(
    permit: Permit<'a, (), Party, EventRule>,
    heard: u64,
) -> Permit<'a, (), Party, EventRule>
    requires { TracesSecond (Runs permit.key) (event_ways permit.key) permit.view permit.value (λ n. (n + 1) % 2 ^ 64) (M.told permit.key permit.view) }
    ensures { After (λ log es v. (n : ℕ) × M.told permit.entry.key permit.entry.view log es n v) result.view }
{
    let _ = heard;
    let (_, permit, _) = permit.add_second::<M>(1, Watch::nothing());
    permit
}

// Looks whether a thread is counted. If so, the party's wake is its last step.
pub(crate) fn looks(permit: Permit<'_, (), Party, EventRule>) -> bool
    requires { (c : ACall) × (what permit.view ≡ Some (Calling c Look None)) }
    ensures { (v : EventParty) × (log es : EventSchedule) × (n : ℕ) × Looks permit.entry.view log es n v × (result ≡ false → n ≡ 0) × (result ≡ true → n ≡ 0 → ⊥) }
{
    let (counted, permit, _) = permit.load_second::<Brand>(Watch::nothing());
    let _left = permit.leave();
    counted != 0
}

// Asks the kernel for a sleep, which begins only if the low 32 bits of the rings are those of `heard`. This is all that
// an event assumes of the kernel: a sleep that has begun ends by a wake of the event, or for no reason.
fn sleeps<'a, W: Wait>(
    rt: &W,
    permit: Permit<'a, (), Party, EventRule>,
    heard: u64,
    secs: u64,
    nanos: u64,
) -> Permit<'a, (), Party, EventRule>
    requires { what permit.view ≡ Some (Calling (Waits heard) (Park heard) None) }
    ensures { After (λ log es v. Parks heard permit.entry.view log es heard v) result.view }
{
    let (permit, _) = permit.park::<Brand, W>(rt, heard, secs, nanos, Watch::nothing());
    permit
}

impl<'a> Heard<'a> {
    /// Returns whether the event has rung since this thread listened.
    pub fn has_rung(&self) -> bool {
        self.of.rings() != self.heard
    }

    /// Counts the thread as a sleeper, so that each later ring finds it.
    ///
    /// [`wait`](Heard::wait) does this and the next two steps.
    ///
    /// # Examples
    /// ```
    /// use spin_event::Event;
    ///
    /// let event = Event::new();
    /// let counted = event.listen().count();
    /// event.notify_all();
    /// counted.park(&rt).uncount();
    /// assert!(rt; !event.listen().has_rung());
    /// ```
    #[must_use = "who is counted has to sleep, and to take its count back"]
    pub fn count(self) -> Counted<'a>
        ensures { (result.0 ≡ self.entry.heard) × After (λ log es v. (n : ℕ) × Counts self.entry.heard None log es n v) result.1 }
    {
        let Self { of, heard } = self;
        let permit = counts::<Brand>(of.cell.enter(), heard);
        Counted { heard, permit }
    }
}

impl<'a> Counted<'a> {
    /// Sleeps until a wake, or returns at once if the event has rung since the thread listened. It may also return for
    /// no reason.
    #[must_use = "who has slept has to take its count back"]
    pub fn park<W: Wait>(self, rt: &W) -> Slept<'a>
        ensures { After (λ log es v. Parks self.entry.0 self.entry.1 log es self.entry.0 v) result }
    {
        let Self { heard, permit } = self;
        let permit = sleeps(rt, permit, heard, FOR_EVER, 0);
        Slept { permit }
    }

    /// Sleeps like [`park`](Counted::park), but for at most a time.
    #[must_use = "who has slept has to take its count back"]
    pub fn park_timeout<W: Wait>(self, rt: &W, time: Duration) -> Slept<'a>
        ensures { After (λ log es v. Parks self.entry.0 self.entry.1 log es self.entry.0 v) result }
    {
        let Self { heard, permit } = self;
        let secs = time.as_secs().min(FOR_EVER);
        let permit = sleeps(rt, permit, heard, secs, time.subsec_nanos() as u64);
        Slept { permit }
    }
}

impl Slept<'_> {
    /// Takes the thread's count back.
    pub fn uncount(self)
        ensures { (v : EventParty) × (log es : EventSchedule) × (n : ℕ) × Uncounts self.entry log es n v }
    {
        let Self { permit } = self;
        let (_, permit, _) = permit.add_second::<Brand>(u64::MAX, Watch::nothing());
        let _left = permit.leave();
    }
}

impl Rung<'_> {
    /// Looks whether a thread is counted, and if so wakes one thread that sleeps.
    pub fn wake_one(self)
        ensures { (v : EventParty) × (log es : EventSchedule) × (n : ℕ) × Looks self.entry log es n v }
    {
        let Self { of, permit } = self;
        if looks(permit) {
            of.wakes_one();
        }
    }

    /// Looks whether a thread is counted, and if so wakes all threads that sleep.
    pub fn wake_all(self)
        ensures { (v : EventParty) × (log es : EventSchedule) × (n : ℕ) × Looks self.entry log es n v }
    {
        let Self { of, permit } = self;
        if looks(permit) {
            of.wakes_all();
        }
    }
}

impl Default for Event {
    fn default() -> Event {
        Event::new()
    }
}

/// Prints `Event { .. }`.
impl Debug for Event {
    fn fmt<W: fmt::Write>(&self, f: &mut Formatter<W>) -> fmt::Result {
        f.debug_struct("Event").finish_non_exhaustive()
    }
}
