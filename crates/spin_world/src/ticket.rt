//! The ticket lock, played by its table. Begin with [`Ticket::new`] and [`TicketCall`].
ghost use Rattle.std.specs.Prelude.{◌≡◌, true};
ghost use Rattle.spin_step.specs.Acts.{step_by, can_by};
ghost use Rattle.spin_step.specs.TicketCalls.{ticket_memory, word_of, act_of, ticket_machine};
ghost use Rattle.spin_world.specs.Ticket.{IsTicketMachine};

mod laws;

pub use laws::{
    a_try_finds_its_number_by_two_loads, tickets_enter_by_releases, tickets_stand_in_order,
};
use spin_step::{Steps, TicketCall, TicketPoint, TicketTable, TicketWords};
use spin_world_core::stepping::{refused, stepped};
use spin_world_core::{Answer, Hold, Next, Object, Stepped};

/// The ticket lock: parties take tickets, and enter in the order of their numbers.
///
/// # Examples
/// ```
/// use spin_world::{Move, Ticket, TicketCall, World};
///
/// let made = World::new(rt.alloc(), Ticket::new(5, 0), 2);
/// let mut world = made.expect(&rt, "there is memory");
/// for party in [1, 0] {
///     world.act(party, Move::Begin(TicketCall::Lock));
///     world.act(party, Move::Step);
///     world.act(party, Move::Step);
/// }
/// assert_eq!(rt; (world.words().next, world.words().serving), (2, 0));
/// ```
#[derive(Clone, Copy, PartialEq, Eq)]
pub struct Ticket<V> {
    value: V,
    first: u64,
}

impl<V: Copy> Ticket<V> {
    /// Creates a lock that no party holds, with this value. Its tickets have the numbers from `first` on, up to
    /// `u64::MAX - 1`.
    ///
    /// # Contract
    /// The object has this value and this first number. Its machine is that of a ticket lock (`IsTicketMachine`): it opens
    /// with an empty queue, and each call asks what [`TicketCall`] says.
    pub fn new(value: V, first: u64) -> Ticket<V>
        ensures fields { result ≡ record { value = value; first = first } }
        ensures named { IsTicketMachine value first (⟦<Ticket<V> as Object>⟧.machine result) }
    {
        Ticket { value, first }
    }
}

impl<V: Copy> Ticket<V> {
    fn table(&self) -> TicketTable
        ensures { result ≡ record { first = self.now.first } }
    {
        TicketTable { first: self.first }
    }
}

impl<V: Copy> Object for Ticket<V> {
    type Words = TicketWords;

    type Value = V;

    type Call = TicketCall;

    type Local = TicketPoint;

    type Answer = Answer<V>;

    ghost machine = { λ t. ticket_machine t.value t.first };

    fn opening_words(&self) -> TicketWords {
        TicketWords {
            next: self.first,
            serving: self.first,
        }
    }

    fn opening_value(&self) -> Option<V> {
        Some(self.value)
    }

    fn is_owned(&self) -> bool {
        true
    }

    fn begin(&self, call: TicketCall, holds: Option<Hold>) -> Option<TicketPoint> {
        <TicketTable as Steps<V, TicketCall, TicketPoint>>::start(&self.table(), call, holds)
    }

    fn step(
        &self,
        words: TicketWords,
        value: Option<V>,
        call: TicketCall,
        local: TicketPoint,
        holds: Option<Hold>,
    ) -> Stepped<TicketWords, V, TicketPoint, Answer<V>>
        requires { can_by ticket_memory (word_of local) (act_of {V = V} local holds) words ≡ true }
        ensures { result ≡ step_by ticket_memory (word_of local) (act_of local holds) words }
    {
        let _ = value;
        stepped(&self.table(), words, call, local, holds)
    }

    fn refuse(
        &self,
        call: TicketCall,
        local: TicketPoint,
        holds: Option<Hold>,
    ) -> Option<Next<TicketPoint, Answer<V>>> {
        refused(&self.table(), call, local, holds)
    }

    fn laws() {}
}
