//! The programs of the guide that have a test, and tests of those that have none.
mod jobs;
mod rounds;

use super::equal::equal;
use spin::mutex::SpinMutex;
use spin::{LazyLock, RwLock};
use spin_examples::guide::calls::add_both;
use spin_examples::guide::setting::{Text, share_of_work};
use spin_examples::guide::table::port_of;
use spin_examples::guide::version::watch_one;
use std::collections::BTreeMap;

#[test]
fn a_missing_port_is_inserted_once(rt: HostRuntime) {
    let ports = RwLock::new(BTreeMap::new(rt.alloc()));
    equal(&rt, port_of(&rt, &ports, 1, 80).ok(), Some(80));
    equal(&rt, port_of(&rt, &ports, 1, 81).ok(), Some(80));
}

#[test]
fn a_setting_is_read_from_its_text(rt: HostRuntime) {
    let eight = LazyLock::promising((), Text("8"));
    let none = LazyLock::promising((), Text("none"));
    equal(
        &rt,
        (
            share_of_work(&rt, &eight, 80),
            share_of_work(&rt, &eight, 160),
        ),
        (10, 20),
    );
    equal(&rt, share_of_work(&rt, &none, 80), 80);
}

#[test]
fn a_version_does_not_fall(rt: HostRuntime) {
    let (first, second) = watch_one(&rt);
    equal(&rt, (first, second), (1, 1));
}

#[test]
fn two_passes_add_once_each(rt: HostRuntime) {
    let lock = SpinMutex::new(0);
    drop(add_both(&rt, &lock));
    equal(&rt, lock.into_inner(), 2);
}
