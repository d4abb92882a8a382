use super::*;
use std::test::Fail;

#[test]
fn a_text_is_copied(rt: HostRuntime) -> Result<(), Fail> {
    let text = Text::copy_of(rt.alloc(), b"libz.so.1")?;
    assert_eq!(rt; text.as_bytes(), b"libz.so.1".as_slice());
    Ok(())
}

// Texts that are stored inline (up to 30 bytes), and longer ones.
#[test]
fn a_text_of_each_size_is_copied_and_shared(rt: HostRuntime) -> Result<(), Fail> {
    let alloc = rt.alloc();
    for len in [0, 1, 29, 30, 31, 32, 255, 4095] {
        let bytes = Vec::from_elem(alloc, b'a', len)?;
        let text = Text::copy_of(alloc, bytes.as_slice())?;
        assert_eq!(rt; text.as_bytes(), bytes.as_slice());
        let shared = text.into_shared(alloc)?;
        let copy = shared.copy(alloc)?;
        drop(shared);
        assert_eq!(rt; copy.as_bytes(), bytes.as_slice());
        assert!(rt; Text::from_vec(bytes) == copy);
    }
    Ok(())
}

#[test]
fn a_list_grows(rt: HostRuntime) -> Result<(), Fail> {
    let alloc = rt.alloc();
    let mut texts = Texts::new(alloc);
    texts.push(Text::copy_of(alloc, b"a")?)?;
    texts.push(Text::copy_of(alloc, b"bc")?)?;
    assert_eq!(rt; texts.len(), 2);
    assert_eq!(rt; texts.get(1).map(|t| t.as_bytes()), Some(b"bc".as_slice()));
    assert!(rt; texts.get(2).is_none());
    Ok(())
}
