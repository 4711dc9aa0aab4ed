//! Deletion logs that fill and are drained.

use heap_words::addr::Addr;
use satb_log::logs::{DeletionLogs, LOG_LEN};
use std::test::Fail;

/// Eight addresses fill a log, which `log` answers with the eighth; they come out in order, and once.
#[test]
fn fills_and_drains(rt: HostRuntime) -> Result<(), Fail> {
    let mut logs = DeletionLogs::new(rt.alloc(), 2)?;
    let mut full = false;
    for place in 0..8 {
        if 1 < logs.mutators() && !logs.is_full(1) {
            assert!(rt; logs.len(1) == place as usize && !full, "at {place}");
            full = logs.log(1, Addr::new(100 - place));
        }
    }
    assert!(rt; logs.mutators() == 2 && full);
    if 1 < logs.mutators() {
        assert!(rt; logs.is_full(1) && logs.len(1) == LOG_LEN && logs.len(0) == 0);
        let drained = logs.drain(1);
        assert!(rt; drained.len() == LOG_LEN && drained.is_full() && logs.len(1) == 0);
        for place in 0..drained.len() {
            assert_eq!(rt; drained.get(place) as usize + place, 100);
        }
    }
    Ok(())
}

/// How many addresses a mutator's log had, which is drained.
fn drained(logs: &mut DeletionLogs, mutator: u32) -> usize {
    if mutator < logs.mutators() {
        logs.drain(mutator).len()
    } else {
        0
    }
}

/// Logs an address, if there is room.
fn log(logs: &mut DeletionLogs, mutator: u32, address: u32) {
    if mutator < logs.mutators() && !logs.is_full(mutator) {
        let _ = logs.log(mutator, Addr::new(address));
    }
}

/// A mutator's log is its own.
#[test]
fn keeps_logs_apart(rt: HostRuntime) -> Result<(), Fail> {
    let mut logs = DeletionLogs::new(rt.alloc(), 3)?;
    log(&mut logs, 0, 16);
    log(&mut logs, 2, 40);
    log(&mut logs, 2, 16);
    assert!(rt; drained(&mut logs, 1) == 0);
    assert!(rt; drained(&mut logs, 2) == 2);
    assert!(rt; drained(&mut logs, 2) == 0);
    assert!(rt; drained(&mut logs, 0) == 1);
    Ok(())
}
