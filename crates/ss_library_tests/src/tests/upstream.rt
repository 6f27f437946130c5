//! A backup: what is kept and let go, and where a client goes on.

use ss_upstream::{Backup, BackupError};
use std::test::Fail;

#[test]
fn goes_on_from_the_least_index(rt: HostRuntime) -> Result<(), Fail> {
    let mut backup = Backup::new(rt.alloc())?;
    assert_eq!(rt; backup.resend_from(), None);
    backup.keep(4, 10)?;
    backup.keep(5, 12)?;
    backup.keep(7, 13)?;
    assert_eq!(rt; backup.resend_from(), Some(4));
    // A receipt of ten covers the places up to nine.
    backup.receipted(10);
    assert_eq!(rt; backup.resend_from(), Some(4));
    backup.receipted(13);
    assert_eq!(rt; backup.sent().len(), 1);
    assert_eq!(rt; backup.resend_from(), Some(7));
    backup.receipted(14);
    assert_eq!(rt; backup.resend_from(), None);
    Ok(())
}

#[test]
fn keeps_16(rt: HostRuntime) -> Result<(), Fail> {
    let mut backup = Backup::new(rt.alloc())?;
    for at in 0..16 {
        backup.keep(at, at + 100)?;
    }
    assert_eq!(rt; backup.keep(16, 116), Err(BackupError::Full));
    assert_eq!(rt; backup.sent().len(), 16);
    // What is let go makes room.
    backup.receipted(101);
    backup.keep(16, 116)?;
    assert_eq!(rt; backup.sent().len(), 16);
    assert_eq!(rt; backup.resend_from(), Some(1));
    Ok(())
}
