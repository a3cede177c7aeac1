//! The epochs of a version, on examples.
use crate::common::crosses;
use std::test::Fail;
use version_epoch::Tracker;

/// Whether a version is open so often, and has begun so many epochs.
fn stands_at(tracker: &Tracker, version: u64, count: u64, epoch: u64) -> bool {
    tracker.open_count(version) == count && tracker.epoch(version) == epoch
}

#[test]
fn an_epoch_begins_where_none_was_open(rt: HostRuntime) -> Result<(), Fail> {
    let mut tracker = Tracker::new(rt.alloc());
    crosses(&tracker);
    tracker.open(2)?;
    tracker.open(2)?;
    tracker.close(2);
    assert!(rt; stands_at(&tracker, 2, 1, 1));
    tracker.close(2);
    assert!(rt; tracker.open_count(2) == 0);
    tracker.open(2)?;
    assert!(rt; stands_at(&tracker, 2, 1, 2) && stands_at(&tracker, 5, 0, 0));
    Ok(())
}
