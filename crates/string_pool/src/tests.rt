//! Tests: the offsets and the bytes of a pool.
use crate::Pool;
use std::test::Fail;

// A string that is the end of a later one is found there, and so is the empty string.
#[test]
fn shared_ends(rt: HostRuntime) -> Result<(), Fail> {
    let mut pool = Pool::new(rt.alloc());
    let soname = pool.add(b"libz.so.1")?;
    let path = pool.add(b"/usr/lib/libz.so.1")?;
    let empty = pool.add(b"")?;
    let sealed = pool.seal(rt.alloc(), 72)?;
    assert_eq!(rt; sealed.offset(soname), 81);
    assert_eq!(rt; sealed.offset(path), 72);
    assert_eq!(rt; sealed.offset(empty), 90);
    assert!(rt; sealed.bytes() == b"/usr/lib/libz.so.1\0".as_slice());
    Ok(())
}
