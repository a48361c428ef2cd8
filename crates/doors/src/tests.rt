//! The log on examples.
use super::{Door, Summary, UnknownCode, door_log};
use std::alloc::AllocError;

#[test]
fn the_log_has_its_gap(rt: HostRuntime) -> Result<(), AllocError> {
    let log = door_log(rt.alloc())?;
    assert_eq!(rt; log.len(), 3072);
    let whole = Summary {
        from: 0,
        to: 3071,
        silent: 40,
    };
    assert_eq!(rt; Summary::of(&log), Some(whole));
    assert_eq!(rt; Summary::of(&[]), None);
    Ok(())
}

#[test]
fn codes_and_doors(rt: HostRuntime) {
    assert_eq!(rt; Door::try_from(u32::from(Door::Silent)), Ok(Door::Silent));
    assert_eq!(rt; Door::try_from(1), Ok(Door::Signal));
    assert_eq!(rt; Door::try_from(2), Err(UnknownCode(2)));
}
