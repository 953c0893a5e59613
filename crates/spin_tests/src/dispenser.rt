//! A dispenser of numbers: a small object of a caller's own, unknown to all crates below. Each party draws one number,
//! and no number is drawn twice.
//!
//! Begin with [`Dispenser::new`].
ghost use Rattle.std.specs.Prelude.{◌≡◌, true};
ghost use Rattle.spin_world_core.specs.Runs.{Always};
ghost use Rattle.spin_step.specs.Acts.{one_number, step_by, can_by};
ghost use Rattle.spin_tests.specs.declared.dispenser.Dispenser.{Dispenser};
ghost use Rattle.spin_tests.specs.Dispenser.{after_draw, act_of, dispenser_machine, IsDispenser, DrawsInOrder};

use spin_world_core::{Hold, Next, Object, Stepped};

/// A call of a [`Dispenser`].
#[derive(Clone, Copy)]
pub enum DispenserCall {
    /// Draws the next number. The answer is `SoldOut` only if at some moment of the call every number had been drawn.
    Draw,
    /// Draws this number, if it is the next one. No other object has such a try.
    DrawThis(u64),
    /// Counts the numbers that have been drawn.
    Count,
}

/// The point of a call: which step comes next.
#[derive(Clone, Copy)]
pub enum DispenserPoint {
    /// The first step of any call.
    First,
    /// The exchange of this number, which the call has found, for the number after it. If the word has changed, the
    /// step is a load.
    Exchange(u64),
}

/// The answer of a call.
#[derive(Clone, Copy, PartialEq)]
pub enum DispenserAnswer {
    /// The party has drawn this number.
    Drawn(u64),
    SoldOut,
    /// The number asked for is not the next one, or is past the last number.
    NotNext,
    Count(u64),
}

/// The numbers below a cap. Parties draw the next number, and the word is this next number.
#[derive(Drop)]
pub struct Dispenser {
    cap: u64,
}

impl Dispenser {
    /// Creates a dispenser of the numbers below `cap`.
    ///
    /// # Contract
    /// Its machine is that of a dispenser with this many numbers (`IsDispenser`).
    pub fn new(cap: u64) -> Dispenser
        ensures fields { result ≡ record { cap = cap } }
        ensures named { IsDispenser cap (⟦<Dispenser as Object>⟧.machine result) }
    {
        Dispenser { cap }
    }
}

/// States that the numbers drawn in any schedule are those below the word, each once and in order.
pub fn numbers_are_drawn_in_order()
    ensures { (object : Dispenser) → let m = ⟦<Dispenser as Object>⟧.machine object in Always m (DrawsInOrder m) }
{}

/// Returns the word after `number` is drawn, or `None` if no number is left below `cap`.
fn after_draw(cap: u64, number: u64) -> Option<u64>
    ensures { result ≡ after_draw cap number }
{
    if number < cap { Some(number + 1) } else { None }
}

impl Object for Dispenser {
    type Words = u64;

    type Value = ();

    type Call = DispenserCall;

    type Local = DispenserPoint;

    type Answer = DispenserAnswer;

    ghost machine = { λ d. dispenser_machine d.cap };

    fn opening_words(&self) -> u64 {
        0
    }

    fn opening_value(&self) -> Option<()> {
        Some(())
    }

    fn is_owned(&self) -> bool {
        false
    }

    fn begin(&self, call: DispenserCall, holds: Option<Hold>) -> Option<DispenserPoint> {
        let _ = call;
        match holds {
            None => Some(DispenserPoint::First),
            Some(_) => None,
        }
    }

    fn step(
        &self,
        words: u64,
        value: Option<()>,
        call: DispenserCall,
        local: DispenserPoint,
        holds: Option<Hold>,
    ) -> Stepped<u64, (), DispenserPoint, DispenserAnswer>
        requires { can_by one_number 0 (act_of self.now.cap call local holds) words ≡ true }
        ensures { result ≡ step_by one_number 0 (act_of self.now.cap call local holds) words }
    {
        let _ = value;
        let drawn = Next::Answers(DispenserAnswer::Drawn(words), Some(Hold::Read));
        let (words, next) = match (call, after_draw(self.cap, words)) {
            (DispenserCall::Count, _) => {
                (words, Next::Answers(DispenserAnswer::Count(words), holds))
            }
            (DispenserCall::DrawThis(number), Some(after)) if number == words => (after, drawn),
            (DispenserCall::DrawThis(_), _) => {
                (words, Next::Answers(DispenserAnswer::NotNext, holds))
            }
            (DispenserCall::Draw, None) => (words, Next::Answers(DispenserAnswer::SoldOut, holds)),
            (DispenserCall::Draw, Some(after)) => match local {
                DispenserPoint::Exchange(found) if found == words => (after, drawn),
                _ => (words, Next::Continue(DispenserPoint::Exchange(words))),
            },
        };
        Stepped {
            words,
            placed: None,
            next,
        }
    }

    fn refuse(
        &self,
        call: DispenserCall,
        local: DispenserPoint,
        holds: Option<Hold>,
    ) -> Option<Next<DispenserPoint, DispenserAnswer>> {
        let _ = (call, local, holds);
        None
    }

    fn laws() {}
}
