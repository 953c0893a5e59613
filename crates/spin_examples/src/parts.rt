//! A guard of a field, which shows one part of the value under a lock. Begin with [`Requests`].
use spin_parts::Part;

/// What a server counts.
#[derive(Drop)]
pub struct Load {
    pub requests: u64,
    pub failed: u64,
}

/// Names the number of requests of a [`Load`], as a part of it.
///
/// # Examples
/// ```
/// use spin::mutex::{SpinMutex, SpinMutexGuard};
/// use spin_examples::parts::{Load, Requests};
/// use spin_parts::Mapped;
///
/// let load: SpinMutex<Load> = SpinMutex::new(Load { requests: 0, failed: 1 });
/// let mut requests: Mapped<SpinMutexGuard<'_, Load>, Requests> = Mapped::map(load.lock(&rt));
/// *requests = 5;
/// drop(requests);
/// let load = load.into_inner();
/// assert_eq!(rt; (load.requests, load.failed), (5, 1));
/// ```
pub struct Requests;

impl Part<Load> for Requests {
    type Out = u64;

    ghost of = { λ load. load.requests };

    ghost with = { λ load n. record load { requests = n } };

    fn of(value: &Load) -> &u64 {
        &value.requests
    }

    fn of_mut(value: &mut Load) -> &mut u64 {
        &mut value.requests
    }
}
