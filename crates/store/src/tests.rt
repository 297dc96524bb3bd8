use crate::fault::Fault;
use crate::slot::{MAX_SLOT, Slot};
use crate::store::Store;
use crate::table::Table;
use crate::wear::Wear;
use std::process::Abort;
use std::test::Fail;

// Whether so many writes are taken, and the next is refused for want of rewrites.
fn takes<S: Store>(rt: &impl Abort, store: &mut S, count: u32) {
    for _ in 0..count {
        assert_eq!(rt; store.write(Slot::Value, 1, b"x"), Ok(()));
    }
    assert_eq!(rt;
        store.write(Slot::Value, 1, b"x"),
        Err(Fault::NoRewriteLeft)
    );
}

#[test]
fn an_allowance_binds(rt: HostRuntime) -> Result<(), Fail> {
    for allowance in 0..3 {
        let mut store = Wear::new(Table::new(rt.alloc())?, allowance);
        takes(&rt, &mut store, allowance);
    }
    Ok(())
}

#[test]
fn the_smaller_allowance_binds(rt: HostRuntime) -> Result<(), Fail> {
    let mut store = Wear::new(Wear::new(Table::new(rt.alloc())?, 1), 2);
    takes(&rt, &mut store, 1);
    let mut store = Wear::new(Wear::new(Table::new(rt.alloc())?, 2), 1);
    takes(&rt, &mut store, 1);
    takes(&rt, &mut store.into_inner(), 1);
    Ok(())
}

#[test]
fn limits_hold(rt: HostRuntime) -> Result<(), Fail> {
    let mut store = Table::new(rt.alloc())?;
    let long = vec![in rt.alloc(); 7; MAX_SLOT + 1]?;
    let full = &long[0..MAX_SLOT];
    assert_eq!(rt; store.write(Slot::Value, 0, &long), Err(Fault::OutOfRange));
    assert_eq!(rt; store.write(Slot::Value, 9, full), Err(Fault::OutOfRange));
    assert_eq!(rt; store.write(Slot::Version, 8, &long), Err(Fault::TooLong));
    assert_eq!(rt; store.write(Slot::Version, 8, full), Ok(()));
    Ok(())
}

#[test]
fn a_short_buffer_stays(rt: HostRuntime) -> Result<(), Fail> {
    let mut store = Table::new(rt.alloc())?;
    let mut out = [5; 2];
    assert_eq!(rt; store.write(Slot::Value, 2, b"abc"), Ok(()));
    assert_eq!(rt;
        store.read(Slot::Value, 2, &mut out),
        Err(Fault::BufferTooShort)
    );
    assert!(rt; out == [5; 2]);
    Ok(())
}

#[test]
fn the_other_slot_stays(rt: HostRuntime) -> Result<(), Fail> {
    let mut store = Table::new(rt.alloc())?;
    let mut out = [5; 3];
    assert_eq!(rt; store.write(Slot::Version, 3, b"vv"), Ok(()));
    assert_eq!(rt; store.write(Slot::Value, 3, b"abc"), Ok(()));
    assert_eq!(rt; store.read(Slot::Version, 3, &mut out), Ok(2));
    assert!(rt; out == *b"vv\x05");
    Ok(())
}
