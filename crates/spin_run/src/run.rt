//! The program over streams that the caller names. Begin with [`program`] and [`count_with`]. The function
//! [`program_over_arguments`] takes the words from the process.
mod command;
mod counting;
mod gate;
mod locks;
mod process;

pub use command::program;
pub use counting::{CountError, MAX_TIMES, MAX_WORKERS, count_with};
pub use process::program_over_arguments;
pub use spin_barrier::gate::{Gate, Open};
pub use spin_text::{
    Failed, OfStd, RunError, Sink, Source, a_text_has_one_reading, numbers_are_printed_texts,
    world_text,
};
