//! Lets the threads of a test do their parts at once. All parts are one method of a test, since each closure would bring
//! up to four functions to prove.
use std::alloc::Global;
use std::process::Abort;
use std::sync::Wait;
use std::thread::{Threads, map_indices};

/// What several threads do with one value.
pub trait Crew {
    type Answer;

    /// Does the part of the thread with this index.
    fn act<R: Abort + Wait>(&self, rt: &R, index: usize) -> Self::Answer;
}

/// Lets this many threads do their parts. Returns their answers, in order.
pub fn in_threads<C: Crew + Sync, R: Abort + Threads + Wait + Sync>(
    rt: &R,
    alloc: Global,
    crew: &C,
    threads: usize,
) -> Vec<C::Answer>
where
    C::Answer: Send + Drop,
{
    let act = |index: usize| crew.act(rt, index);
    map_indices(rt, alloc, threads, &act).expect(rt, "memory")
}
