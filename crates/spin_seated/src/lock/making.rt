//! How a lock and its passes are made: [`SeatedLock::new`].
ghost use Rattle.std.specs.Prelude.{◌≡◌, ◌<◌, IfOk, vec_items};
ghost use Rattle.spin_seated.specs.Passes.{opening_with, opening_of, all_passes_of};

use super::{Calls, Opening, Pass, Place, SeatedLock};
use crate::history::First;
use atomic_table::Table;
use std::alloc::{AllocError, Allocator};

impl<C: Calls, A: Allocator> SeatedLock<C, A> {
    /// Creates a lock that no pass holds, and its passes, numbered from 0. Fails if an allocation fails.
    ///
    /// # Contract
    /// There has to be at least one pass. The lock opens with this value and this number of passes. The
    /// result has the lock and all its passes, none of which has made a call.
    pub fn new(
        alloc: A,
        value: u64,
        passes: usize,
    ) -> Result<(SeatedLock<C, A>, Vec<Pass<C>, A>), AllocError>
    where
        A: Clone,
        requires { 0 < passes }
        ensures opening { IfOk result (λ r. opening_of r.0 ≡ opening_with value passes) }
        ensures passes { IfOk result (λ r. vec_items r.1 ≡ all_passes_of r.0) }
    {
        C::laws();
        let opening = Opening { value, passes };
        let (table, mut seat) = Table::of_words(alloc.clone()?, &[0, value], &opening)?;
        let mut all = Vec::with_capacity(alloc, passes)?;
        for _ in 0..passes {
            let own = table.shared.split_seat::<First>(&mut seat);
            all.push(Pass {
                place: Place { seat: Some(own) },
                holding: C::holds_at_first(),
            })?;
        }
        Ok((SeatedLock { table }, all))
    }
}
