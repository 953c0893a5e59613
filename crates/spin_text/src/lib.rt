//! Reads a schedule as text, plays it in a world, and writes the transcript as text.
//!
//! Begin with [`world_text`], which says how a text is written. The first line of a text has the object and the number
//! of parties, and each further line has a move. To read or write other streams than those of `std`, implement
//! [`Source`] and [`Sink`].
#![tactic(auto)]

mod ends;
mod entries;
mod header;
mod laws;
mod numbers;
mod objects;
mod piece;
pub mod program;
mod put;
mod text;
mod transcript;
mod words;

pub use ends::{Failed, OfStd, Sink, Source, write_whole};
pub use entries::{entry, owner_move, plain_move};
pub use header::{Header, header_of};
pub use laws::a_text_has_one_reading;
pub use numbers::{number, numbers_are_printed_texts};
pub use objects::{BARRIER_CALLS, FAIR_CALLS, FLAG_CALLS, RW_CALLS, Spelled, TICKET_CALLS};
pub use text::{RunError, read_all, world_text};
pub use transcript::parts_of;
pub use words::{Rest, first_line, is_over, is_word, number_then, only_number, word};
