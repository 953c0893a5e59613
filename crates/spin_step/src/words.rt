//! The words of a lock in the model, as numbers at places. Begin with [`Words`].
ghost use Rattle.std.specs.Prelude.{◌≡◌, ◌≤◌, ◌<◌, ◌^◌, ℕ};
ghost use Rattle.spin_step.specs.Acts.{Memory, word_number, one_number};
ghost use Rattle.spin_step.specs.FlagCalls.{flag_memory};
ghost use Rattle.spin_step.specs.TicketCalls.{ticket_memory};

use crate::ticket_calls::TicketWords;

/// The words that the parties of a lock share. Each has a place, and is a number below a limit.
///
/// # Contract
/// The numbers are those of the model (`memory`).
pub trait Words: Sized {
    ghost memory: { Memory Self };

    // How many words there are.
    ghost places: { ℕ };

    ghost limit: { ℕ };

    /// Returns the number in the word at this place. To put it there again changes nothing. Numbers below the limit have
    /// 64 bits.
    fn number(&self, place: usize) -> u64
        ensures number { place < places → (result ≡ word_number memory place self.now) × (memory.put place result self.now ≡ self.now) }
        ensures small { (result < limit) × (limit ≤ 2 ^ 64) };

    /// Returns the words after this number is put at this place.
    ///
    /// # Contract
    /// The place has to be that of a word, and the number below the limit.
    fn put(self, place: usize, number: u64) -> Self
        ensures { place < places → number < limit → result ≡ memory.put place number self };
}

impl Words for bool {
    ghost memory = { flag_memory };

    ghost places = { 1 };

    ghost limit = { 2 };

    fn number(&self, place: usize) -> u64 {
        let _ = place;
        *self as u64
    }

    fn put(self, place: usize, number: u64) -> bool {
        let _ = place;
        number == 1
    }
}

impl Words for usize {
    ghost memory = { one_number };

    ghost places = { 1 };

    ghost limit = { 2 ^ 64 };

    fn number(&self, place: usize) -> u64 {
        let _ = place;
        *self as u64
    }

    fn put(self, place: usize, number: u64) -> usize {
        let _ = place;
        number as usize
    }
}

impl Words for u8 {
    ghost memory = { one_number };

    ghost places = { 1 };

    ghost limit = { 256 };

    fn number(&self, place: usize) -> u64 {
        let _ = place;
        *self as u64
    }

    fn put(self, place: usize, number: u64) -> u8 {
        let _ = place;
        (number % 256) as u8
    }
}

impl Words for TicketWords {
    ghost memory = { ticket_memory };

    ghost places = { 2 };

    ghost limit = { 2 ^ 64 };

    fn number(&self, place: usize) -> u64 {
        let TicketWords { next, serving } = *self;
        if place == 0 { next } else { serving }
    }

    fn put(self, place: usize, number: u64) -> TicketWords {
        if place == 0 {
            TicketWords {
                next: number,
                ..self
            }
        } else {
            TicketWords {
                serving: number,
                ..self
            }
        }
    }
}
