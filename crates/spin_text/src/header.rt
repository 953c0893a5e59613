//! The first line of a text: the object, and the number of parties. Begin with [`Header`] and [`header_of`].
ghost use Rattle.std.specs.Prelude.{◌≡◌, option_map};
ghost use Rattle.spin_text.specs.Lines.{words_of};
ghost use Rattle.spin_text.specs.Reading.{words_left, last_parties, number_within, read_flag_header, read_ticket_header, read_rw_header, read_fair_header, read_barrier_header, read_once_header, read_header};

use crate::words::{Rest, is_over, is_word, number_then, word};
use spin_step_more::{fair, rw};

/// The first line of a text: the object with its opening values, and the number of parties.
#[derive(Clone, Copy)]
pub enum Header {
    /// The line `flag VALUE PARTIES`.
    Flag {
        value: u64,
        parties: usize,
    },
    /// The line `ticket VALUE FIRST PARTIES`. The first ticket has the number `first`.
    Ticket {
        value: u64,
        first: u64,
        parties: usize,
    },
    /// The line `rw VALUE CAP PARTIES`. At most `cap` parties read at a time, including an upgradable reader.
    Rw {
        value: u64,
        cap: usize,
        parties: usize,
    },
    /// The line `fair VALUE CAP SPINS PARTIES`. At most `cap` parties starve at a time. A `lock` call
    /// registers as a starver when more than `spins` + 1 of its looks have found the flag set.
    Fair {
        value: u64,
        cap: usize,
        spins: usize,
        parties: usize,
    },
    /// The line `barrier N PARTIES`. Each group has `n` parties, or one if `n` is 0.
    Barrier {
        n: usize,
        parties: usize,
    },
    /// The line `once PARTIES`. At first there is no value.
    Once {
        parties: usize,
    },
}

/// The largest number of parties.
const MAX_PARTIES: u64 = 1000;

/// The largest cap on starvers.
const MAX_STARVERS: u64 = fair::MAX_STARVERS as u64;

/// The largest number of spins of a `Fair`.
const MAX_SPINS: u64 = 1024;

/// Returns the first number of a line and the words after it, if the number is at least `least` and at most `most`.
#[tactic(auto, unfolding(crate::specs::Reading::number_within))]
fn within(line: Rest, least: u64, most: u64) -> Option<(usize, Rest)>
    ensures { option_map (λ x. (x.0, words_left x.1)) result ≡ number_within least most (words_left line.entry) }
{
    let (number, line) = number_then(line)?;
    if (least..=most).contains(&number) {
        Some((number as usize, line))
    } else {
        None
    }
}

/// Returns the number of parties, if it is the only word left.
#[tactic(auto, unfolding(crate::specs::Reading::last_parties))]
fn parties(line: Rest) -> Option<usize>
    ensures { result ≡ last_parties (words_left line.entry) }
{
    let (parties, rest) = within(line, 1, MAX_PARTIES)?;
    if is_over(rest) { Some(parties) } else { None }
}

#[tactic(auto, unfolding(crate::specs::Reading::read_flag_header))]
fn flag(line: Rest) -> Option<Header>
    ensures { result ≡ read_flag_header (words_left line.entry) }
{
    let (value, line) = number_then(line)?;
    let parties = parties(line)?;
    Some(Header::Flag { value, parties })
}

#[tactic(auto, unfolding(crate::specs::Reading::read_ticket_header))]
fn ticket(line: Rest) -> Option<Header>
    ensures { result ≡ read_ticket_header (words_left line.entry) }
{
    let (value, line) = number_then(line)?;
    let (first, line) = number_then(line)?;
    let parties = parties(line)?;
    Some(Header::Ticket {
        value,
        first,
        parties,
    })
}

#[tactic(auto, unfolding(crate::specs::Reading::read_rw_header))]
fn rw(line: Rest) -> Option<Header>
    ensures { result ≡ read_rw_header (words_left line.entry) }
{
    let (value, line) = number_then(line)?;
    let (cap, line) = within(line, 1, rw::MAX_READERS as u64)?;
    let parties = parties(line)?;
    Some(Header::Rw {
        value,
        cap,
        parties,
    })
}

#[tactic(auto, unfolding(crate::specs::Reading::read_fair_header))]
fn fair(line: Rest) -> Option<Header>
    ensures { result ≡ read_fair_header (words_left line.entry) }
{
    let (value, line) = number_then(line)?;
    let (cap, line) = within(line, 1, MAX_STARVERS)?;
    let (spins, line) = within(line, 0, MAX_SPINS)?;
    let parties = parties(line)?;
    Some(Header::Fair {
        value,
        cap,
        spins,
        parties,
    })
}

#[tactic(auto, unfolding(crate::specs::Reading::read_barrier_header))]
fn barrier(line: Rest) -> Option<Header>
    ensures { result ≡ read_barrier_header (words_left line.entry) }
{
    let (n, line) = number_then(line)?;
    let parties = parties(line)?;
    Some(Header::Barrier {
        n: n as usize,
        parties,
    })
}

#[tactic(auto, unfolding(crate::specs::Reading::read_once_header))]
fn once(line: Rest) -> Option<Header>
    ensures { result ≡ read_once_header (words_left line.entry) }
{
    let parties = parties(line)?;
    Some(Header::Once { parties })
}

/// Returns the header that a line spells, or `None` if the line spells no header.
///
/// # Contract
/// The header is what the words of the line spell, with each number within its limits (`read_header`).
#[tactic(auto, unfolding(crate::specs::Reading::read_header))]
pub fn header_of(line: &[u8]) -> Option<Header>
    ensures { result ≡ read_header (words_of line.now) }
{
    let (name, line) = word(Some(line))?;
    if is_word(name, b"flag") {
        flag(line)
    } else if is_word(name, b"ticket") {
        ticket(line)
    } else if is_word(name, b"rw") {
        rw(line)
    } else if is_word(name, b"fair") {
        fair(line)
    } else if is_word(name, b"barrier") {
        barrier(line)
    } else if is_word(name, b"once") {
        once(line)
    } else {
        None
    }
}
