// Changed files have the defect that a simple program finds, or are read.
use crate::caches::{set_byte, two_places};
use crate::plain::plain_defect;
use cache_reader::{CacheDefect, CacheView};
use std::test::Fail;

fn defect(bytes: &[u8]) -> Option<CacheDefect> {
    match CacheView::parse(bytes) {
        Ok(_) => None,
        Err(defect) => Some(defect),
    }
}

#[test]
fn cuts(rt: HostRuntime) -> Result<(), Fail> {
    let bytes = two_places(rt.alloc())?;
    assert_eq!(rt; bytes.len(), 262);
    for len in 0..=bytes.len() {
        let Some(cut) = bytes.get(..len) else {
            continue;
        };
        assert!(rt; defect(cut) == plain_defect(cut), "{len} bytes");
        assert!(rt; defect(cut).is_none() == (len == 262), "{len} bytes");
    }
    Ok(())
}

#[test]
fn changed_bytes(rt: HostRuntime) -> Result<(), Fail> {
    let first = two_places(rt.alloc())?;
    let mut refused = 0u32;
    for at in 0..first.len() {
        let Some(old) = first.get(at) else {
            continue;
        };
        for new in [0, 1, 255, old.wrapping_add(1)] {
            let mut bytes = two_places(rt.alloc())?;
            set_byte(&mut bytes, at, new);
            let found = defect(&bytes);
            assert!(rt; found == plain_defect(&bytes), "byte {at} is {new}");
            if found.is_some() {
                refused = refused.saturating_add(1);
            }
        }
    }
    // At least three changes of each of the 20 bytes of magic and version are rejected.
    assert!(rt; refused >= 60);
    Ok(())
}
