//! Laws of the ticket lock. Each law is the contract of a function that does nothing. A caller that calls this function
//! learns what the law states. Begin with [`tickets_enter_by_releases`].
ghost use Rattle.std.specs.Prelude.{ℕ, List};
ghost use Rattle.spin_step.specs.declared.schedule.Move.{Move};
ghost use Rattle.spin_step.specs.Schedules.{after, at_first};
ghost use Rattle.spin_world_core.specs.Runs.{opening};
ghost use Rattle.spin_world_core.specs.Users.{seen_after};
ghost use Rattle.spin_step.specs.declared.ticket_calls.TicketCall.{TicketCall};
ghost use Rattle.spin_world.specs.declared.ticket.Ticket.{Ticket};
ghost use Rattle.spin_world.specs.TicketOrder.{TicketsInOrder, InTurn, TriesByTwoLoads};

use crate::ticket::Ticket;
use spin_world_core::Object;

/// States that the two words are the next number and the served number of a queue of tickets. There is no gap between
/// the tickets' numbers, and only the first ticket may have entered.
pub fn tickets_stand_in_order<V: Copy>()
    ensures { (object : Ticket V) (n : ℕ) (past : List (ℕ × Move TicketCall V)) → let m = ⟦<Ticket<V> as Object>⟧.machine object in TicketsInOrder (after m (at_first m n) past).words (seen_after m (opening m n) past).plain }
{}

/// States that a party with a ticket enters by its next step once the tickets before its own have left, and not
/// earlier. So no party with a later ticket enters before it.
///
/// Let `s` be the number served after `past`. After `further`, the next step of a party that waits with ticket `t`
/// succeeds exactly if `t - s` tickets have left during `further`. If a party holds with ticket `t` after `further`,
/// `t - s` tickets have left during `further`.
pub fn tickets_enter_by_releases<V: Copy>()
    ensures { (object : Ticket V) (n : ℕ) (past further : List (ℕ × Move TicketCall V)) → InTurn (⟦<Ticket<V> as Object>⟧.machine object) n past further }
{}

/// States that a `try_lock` never answers by its first step, which finds the next number. The second step answers only
/// if that number is not the served one, or is not below the limit of the numbers.
pub fn a_try_finds_its_number_by_two_loads<V: Copy>()
    ensures { (object : Ticket V) (n : ℕ) (past : List (ℕ × Move TicketCall V)) → TriesByTwoLoads (⟦<Ticket<V> as Object>⟧.machine object) n past }
{}
