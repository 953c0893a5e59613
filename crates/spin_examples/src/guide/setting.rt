//! A setting that its first reader makes.
#![tactic(auto)]

ghost use Rattle.std.specs.Prelude.{◌≤◌};

use spin_once::lazylock::{LazyLock, Makes};
use std::sync::Wait;

/// A number of workers, from 1 to 64.
#[derive(Clone, Copy)]
pub struct Workers {
    number: u64,
    ghost least: { 1 ≤ number },
    ghost most: { number ≤ 64 },
}

/// A text that has the number of workers.
#[derive(Clone, Copy)]
pub struct Text<'t>(pub &'t str);

impl Makes<Workers, ()> for Text<'_> {
    fn make(self, _promise: ()) -> Workers {
        let number = self.0.parse().unwrap_or(1).clamp(1, 64);
        Workers { number }
    }
}

/// Returns how much work each worker has. The number of workers is never 0.
pub fn share_of_work<W: Wait>(rt: &W, workers: &LazyLock<Workers, Text<'_>>, work: u64) -> u64 {
    work / LazyLock::force(workers, rt).number
}
