//! Programs of a few threads as text, and all that they may result in over every interleaving, as text.
//!
//! Begin with [`program`], which does what the words of a command line ask for.
mod command;
mod entries;
mod explored;
mod options;
mod orders;
mod process;
mod reading;
mod report;
mod script;
mod texts;

pub use command::program;
pub use process::program_over_arguments;
pub use spin_text::{Failed, OfStd, Sink, Source};
