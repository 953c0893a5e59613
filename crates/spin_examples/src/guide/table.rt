//! A table that several threads read at once. A thread that finds no entry inserts one.
#![tactic(auto)]

use spin_rwlock::rwlock::RwLock;
use std::alloc::AllocFailed;
use std::collections::BTreeMap;
use std::sync::Wait;

/// Returns the port of a host. A host without one gets `port`.
pub fn port_of<W: Wait>(
    rt: &W,
    ports: &RwLock<BTreeMap<u64, u16>>,
    host: u64,
    port: u16,
) -> Result<u16, AllocFailed<(u64, u16)>> {
    if let Some(known) = ports.read(rt).get(&host) {
        return Ok(*known);
    }
    let reader = ports.upgradeable_read(rt);
    // another thread may have inserted it since
    if let Some(known) = reader.get(&host) {
        return Ok(*known);
    }
    let mut writer = reader.upgrade(rt);
    let before = writer.insert(host, port)?;
    // no thread wrote during the upgrade
    prove!(before.is_none());
    Ok(port)
}
