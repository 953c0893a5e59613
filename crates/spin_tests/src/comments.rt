//! The examples that users meet first, as they stand in doc comments. `.ci/tests --write` prints this file.

#[test]
fn spin_lib_1(rt: HostRuntime) {
    use spin::Barrier;
    use std::thread;

    let both: Barrier = Barrier::new(2);
    let wait = || both.wait(&rt).is_leader();
    let (first, second) = thread::join(&rt, &wait, &wait);
    assert!(rt; first != second);
}

#[test]
fn spin_lib_2(rt: HostRuntime) {
    use spin::Mutex;
    use std::thread;

    let total = Mutex::new(0u64);
    let add = || {
        let mut guard = total.lock(&rt);
        *guard = guard.saturating_add(1);
    };
    thread::join(&rt, &add, &add);
    assert_eq!(rt; total.into_inner(), 2);
}

#[test]
fn spin_lib_3(rt: HostRuntime) {
    use spin::RwLock;

    let limit: RwLock<u64> = RwLock::new(3);
    let (first, second) = (limit.read(&rt), limit.read(&rt));
    assert_eq!(rt; (*first, *second), (3, 3));
    assert!(rt; limit.try_write().is_none());
}

#[test]
fn spin_lib_4(rt: HostRuntime) {
    use spin::RwLock;

    let limit: RwLock<u64> = RwLock::new(3);
    let guard = limit.upgradeable_read(&rt);
    let mut writer = guard.upgrade(&rt);
    *writer = 4;
    drop(writer);
    assert_eq!(rt; limit.into_inner(), 4);
}

#[test]
fn spin_lib_5(rt: HostRuntime) {
    use spin::RwLock;

    let limit: RwLock<u64> = RwLock::new(3);
    let mut writer = limit.write(&rt);
    *writer = 4;
    let reader = writer.downgrade();
    assert_eq!(rt; (*reader, *limit.read(&rt)), (4, 4));
}

#[test]
fn spin_lib_6(rt: HostRuntime) {
    use spin::Once;

    let port: Once<u16> = Once::new();
    assert_eq!(rt; port.get().copied(), None);
    assert_eq!(rt; *port.call_once(&rt, || 80), 80);
    assert_eq!(rt; *port.call_once(&rt, || 81), 80);
    assert_eq!(rt; port.get().copied(), Some(80));
}

#[test]
fn spin_lib_7(rt: HostRuntime) {
    use spin::LazyLock;
    use std::thread;

    let square: LazyLock<u64, _> = LazyLock::new(|| 7 * 7);
    let force = || *LazyLock::force(&square, &rt);
    assert_eq!(rt; thread::join(&rt, &force, &force), (49, 49));
}

#[test]
fn spin_fair_fair_1(rt: HostRuntime) {
    use spin::mutex::FairMutex;
    use std::thread;

    let last: FairMutex<u64> = FairMutex::new(0);
    thread::join(&rt, || *last.lock(&rt) = 1, || *last.lock(&rt) = 2);
    assert!(rt; [1, 2].contains(&last.into_inner()));
}

#[test]
fn spin_flag_spin_1(rt: HostRuntime) {
    use spin::mutex::SpinMutex;
    use std::thread;

    let last: SpinMutex<u64> = SpinMutex::new(0);
    thread::join(&rt, || *last.lock(&rt) = 1, || *last.lock(&rt) = 2);
    assert!(rt; [1, 2].contains(&last.into_inner()));
}

#[test]
fn spin_mutex_ticket_1(rt: HostRuntime) {
    use spin::mutex::TicketMutex;
    use std::thread;

    let last: TicketMutex<u64> = TicketMutex::new(0);
    thread::join(&rt, || *last.lock(&rt) = 1, || *last.lock(&rt) = 2);
    assert!(rt; [1, 2].contains(&last.into_inner()));
}
