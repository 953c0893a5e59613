//! What no contract says of the callers of the seated locks: they acquire the lock, memory suffices, and their threads
//! end.
use crate::equal::equal;
use spin_examples::adding::add_in_two;
use spin_examples::publishing::publish_to_two;

#[test]
fn what_two_threads_add_is_read(rt: HostRuntime) {
    let (read, first, second) = add_in_two(&rt, rt.alloc(), 1000).expect(&rt, "memory");
    assert!(rt; 0 < read && first <= 1000 && second <= 1000 && read == first + second);
}

#[test]
fn two_threads_read_what_a_third_publishes(rt: HostRuntime) {
    let (first, second) = publish_to_two(&rt, rt.alloc(), 5, &[6, 7, 8], 200).expect(&rt, "memory");
    equal(&rt, (first.len(), second.len()), (200, 200));
    equal(&rt, first.is_sorted() && second.is_sorted(), true);
}
