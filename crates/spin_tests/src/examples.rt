//! Tests of what the pages print.
use super::equal::equal;
use spin::mutex::{FairMutex, SpinMutex, TicketMutex};
use spin::{LazyLock, Mutex, Once, RwLock};
use spin_examples::after::set_then_get;
use spin_examples::batch::Batch;
use spin_examples::behind::write_behind;
use spin_examples::ending::end_after;
use spin_examples::from_rust::{
    add_from_two, add_one, add_starving, give_back, set_elsewhere, take,
};
use spin_examples::passes::{count_beside_look, double_by_a_hold, try_once};
use spin_examples::passes_lazy::{Seven, force_by_three};
use spin_examples::passes_once::make_beside_look;
use spin_examples::passes_ticket::{count_by_three, try_once as try_ticket_once};
use spin_examples::registers::four_threads;
use spin_examples::relay::relay;
use spin_examples::two_locks::copy;
use spin_examples::versions::race;
use spin_examples::{passes_fair, passes_rw, totals, written_rw};
use std::thread::join;

#[test]
fn mutexes_as_in_rust(rt: HostRuntime) {
    let added = add_from_two(&rt);
    let lock = SpinMutex::new(7);
    let held = take(&rt, &lock);
    let at_held = lock.is_locked();
    give_back(held);
    equal(&rt, [at_held, lock.is_locked()], [true, false]);
    let fair = FairMutex::new(7);
    add_starving(&rt, &fair);
    let total = Mutex::new(7);
    set_elsewhere(&rt, &total, 1);
    add_one(&rt, &total);
    let values = [added, fair.into_inner(), total.into_inner()];
    equal(&rt, values, [2, 8, 2]);
}

#[test]
fn a_reader_after_a_joined_writer_reads_what_it_wrote(rt: HostRuntime) {
    let lock = SpinMutex::new(6);
    let (writer, (found, reader)) = set_then_get(&rt, &lock, 7);
    drop((writer, reader));
    equal(&rt, (found, lock.into_inner()), (7, 7));
}

#[test]
fn the_owner_of_a_lock_gets_its_value_and_its_history(rt: HostRuntime) {
    let (value, history) = end_after(&rt, SpinMutex::new(6), 7, 8);
    drop(history);
    equal(&rt, [7, 8].contains(&value), true);
}

#[test]
fn each_lock_ends_with_its_last_value(rt: HostRuntime) {
    let (ticket, fair): (TicketMutex<u64>, FairMutex<u64>) = (
        TicketMutex::new(6),
        FairMutex::new(6),
    );
    let (total, limit): (Mutex<u64>, RwLock<u64>) = (Mutex::new(6), RwLock::new(6));
    let write = |value: u64| {
        *ticket.lock(&rt) = value;
        *fair.lock(&rt) = value;
        *total.lock(&rt) = value;
        *limit.write(&rt) = value;
    };
    join(&rt, || write(7), || write(7));
    let values = [
        ticket.into_history().0,
        fair.into_history().0,
        total.into_history().0,
        limit.into_history().0,
    ];
    equal(&rt, values, [7, 7, 7, 7]);
}

#[test]
fn a_thread_holds_two_locks(rt: HostRuntime) {
    let locks = (SpinMutex::new(6), SpinMutex::new(7));
    let lent = &locks;
    let ((value, read, wrote), ()) = join(
        &rt,
        || copy(&rt, lent.0.pass(), lent.1.pass()),
        || *lent.0.lock(&rt) = 8,
    );
    drop((read, wrote));
    let (one, other) = locks;
    equal(&rt, ([6, 8].contains(&value), one.into_inner()), (true, 8));
    equal(&rt, other.into_inner(), value);
}

#[test]
fn a_batch_is_seen_whole(rt: HostRuntime) {
    let total: SpinMutex<u64> = SpinMutex::new(6);
    let add = || {
        let mut batch = Batch::begin(&rt, &total);
        batch.add(1);
        batch.add(2);
        let (changes, pass) = batch.end();
        drop(pass);
        changes
    };
    equal(&rt, join(&rt, &add, &add), (2, 2));
    equal(&rt, total.into_inner(), 12);
}

#[test]
fn two_readers_read_the_last_write(rt: HostRuntime) {
    let lock = RwLock::new(6);
    let (wrote, ((first, one), (second, two))) = written_rw::write_beside_readers(&rt, &lock, 7);
    drop(wrote);
    drop(one);
    drop(two);
    let is_one_of = |value: u64| value == 6 || value == 7;
    equal(&rt, (is_one_of(first), is_one_of(second)), (true, true));
    equal(&rt, lock.into_inner(), 7);
}

#[test]
fn a_writer_waits_behind_two_readers_that_hold(rt: HostRuntime) {
    let lock: RwLock<u64> = RwLock::new(6);
    let (first, second) = (lock.pass().read(&rt), lock.pass().read(&rt));
    let (found, refused) = ([*first, *second], lock.try_write().is_none());
    equal(
        &rt,
        (found, refused, lock.reader_count()),
        ([6, 6], true, 2),
    );
    let (writer, (one, other)) = write_behind(&rt, lock.pass(), first, second, 7);
    drop(writer);
    let (first, second) = (one.read(&rt), other.read(&rt));
    equal(&rt, [*first, *second], [7, 7]);
    drop((first, second));
    equal(&rt, [lock.reader_count(), lock.writer_count()], [0, 0]);
    equal(&rt, lock.into_inner(), 7);
}

#[test]
fn a_pass_after_two_others_reads_what_one_of_them_left(rt: HostRuntime) {
    let lock: SpinMutex<u64> = SpinMutex::new(6);
    let (start, both, (found, end)) = relay(&rt, &lock, (7, 8, 9));
    drop((start, both, end));
    equal(&rt, [8, 9].contains(&found), true);
    equal(&rt, lock.into_inner(), found);
}

#[test]
fn three_passes_of_a_spin_mutex_know_one_history(rt: HostRuntime) {
    let lock = SpinMutex::new(6);
    let (one, two, three) = (lock.pass(), lock.pass(), lock.pass());
    let (first, (second, (_, third))) = count_beside_look(&rt, one, two, three);
    drop(first);
    drop(second);
    drop(third);
    drop(try_once(&lock));
    let held = take(&rt, &lock);
    drop(try_once(&lock));
    give_back(held);
    drop(double_by_a_hold(&rt, lock.pass()));
    equal(&rt, lock.into_inner(), 16);
}

#[test]
fn three_passes_of_a_fair_mutex_know_one_history(rt: HostRuntime) {
    let lock = FairMutex::new(6);
    let (first, (second, third)) = passes_fair::count_by_three(&rt, &lock);
    drop(first);
    drop(second);
    drop(third);
    let (free, pass) = passes_fair::look_and_try(&rt, &lock);
    drop(pass);
    let guard = lock.lock(&rt);
    let (held, pass) = passes_fair::look_and_try(&rt, &lock);
    drop(pass);
    drop(guard);
    equal(&rt, (free, held), (false, true));
    equal(&rt, lock.into_inner(), 9);
}

#[test]
fn three_passes_of_a_ticket_mutex_know_one_history(rt: HostRuntime) {
    let lock = TicketMutex::new(6);
    let (first, (second, third)) = count_by_three(&rt, lock.pass(), lock.pass(), lock.pass());
    drop(try_ticket_once(first));
    let (free, second) = second.is_locked();
    let guard = lock.lock(&rt);
    let (held, second) = second.is_locked();
    drop(try_ticket_once(third));
    drop(guard);
    drop(second);
    equal(&rt, (free, held), (false, true));
    equal(&rt, lock.into_inner(), 9);
}

#[test]
fn three_passes_of_an_rwlock_know_one_history(rt: HostRuntime) {
    let lock: RwLock<u64> = RwLock::new(6);
    let (written, ((value, read), (readers, counted))) = passes_rw::write_beside_readers(
        &rt, &lock,
    );
    equal(&rt, [6, 7].contains(&value), true);
    equal(&rt, [0, 1].contains(&readers), true);
    drop(written);
    drop(read);
    let (writers, pass) = passes_rw::double(&rt, counted).writer_count();
    equal(&rt, writers, 0);
    drop(passes_rw::try_each(&rt, pass));
    let reader = lock.read(&rt);
    drop(passes_rw::try_each(&rt, lock.pass()));
    drop(reader);
    let writer = lock.write(&rt);
    let (writers, pass) = passes_rw::try_each(&rt, lock.pass()).writer_count();
    equal(&rt, writers, 1);
    drop(writer);
    let (sum, pass) = passes_rw::add_and_read(&rt, pass);
    drop(pass);
    equal(&rt, (sum, lock.into_inner()), (15, 15));
}

#[test]
fn three_passes_of_a_mutex_know_one_history(rt: HostRuntime) {
    let lock: Mutex<u64> = Mutex::new(6);
    let (first, (second, third)) = count_by_three(&rt, lock.pass(), lock.pass(), lock.pass());
    drop(first);
    drop(second);
    drop(third);
    equal(&rt, lock.into_inner(), 9);
}

#[test]
fn three_passes_of_a_once_know_one_history(rt: HostRuntime) {
    let once = Once::new();
    let (tried, pass) = once.pass().try_call_once(&rt, || Err("no port"));
    let reason = match tried {
        Ok(_) => "a port",
        Err(reason) => reason,
    };
    equal(&rt, (reason, once.get().is_none()), ("no port", true));
    drop(pass);
    let ((made, first), ((found, second), (_, third))) = make_beside_look(&rt, &once);
    let (there, third) = third.is_completed();
    let (got, third) = third.get();
    let got = got.copied();
    let (waited, third) = third.wait(&rt);
    let waited = *waited;
    let (polled, third) = third.poll(&rt);
    let looked = [got, polled.copied()];
    equal(
        &rt,
        (there, [found, waited], looked),
        (true, [made; 2], [Some(made); 2]),
    );
    drop((first, second, third));
    let value = once.try_into_inner();
    equal(&rt, value == Some(3) || value == Some(5), true);
}

#[test]
fn passes_of_a_lazy_lock_know_one_history(rt: HostRuntime) {
    let lazy: LazyLock<u64, _> = LazyLock::new(|| 7);
    let other = LazyLock::pass(&lazy);
    let (value, pass) = LazyLock::pass(&lazy).force(&rt);
    pass.compare(&other);
    equal(&rt, *value, 7);
    let (again, pass) = pass.force(&rt);
    equal(&rt, *again, 7);
    drop((pass, other));
}

#[test]
fn three_passes_of_a_lazy_lock_know_one_history(rt: HostRuntime) {
    let lazy: LazyLock<u64, Seven> = LazyLock::promising((), Seven);
    let ((first, one), ((second, two), (third, three))) = force_by_three(&rt, &lazy);
    equal(&rt, (first, second, third), (7, 7, 7));
    drop((one, (two, three)));
}

#[test]
fn threads_know_the_history(rt: HostRuntime) {
    let ((first, second), last) = four_threads(&rt, (3, 5));
    let values = [0, 3, 5];
    let were_written = [values.contains(&first), values.contains(&second)];
    equal(
        &rt,
        (were_written, last == 3 || last == 5),
        ([true; 2], true),
    );
    let ((first, second), (third, fourth), last) = race(&rt, 1000);
    let grow = [
        [first, second, last].is_sorted(),
        [third, fourth, last].is_sorted(),
    ];
    equal(&rt, (grow, last == 2000), ([true; 2], true));
    let totals = [
        totals::add_from_two(&rt, (3, 5)),
        totals::add_from_two(&rt, (0, u64::MAX)),
    ];
    equal(&rt, totals, [(3, 5, 8), (0, u64::MAX, u64::MAX)]);
}
