// What a crash may leave.
use super::image::{folder_of, link, look_of, may_leave};
use root_folder::{Folder, MemFolder};
use std::alloc::Global;
use std::process::Abort;
use std::test::Fail;

// Whether a crash may leave at the path a link with each target of `some`, and with no target of `none`. An empty target means no link.
fn assert_left(
    rt: &impl Abort,
    alloc: Global,
    folder: &MemFolder,
    path: &str,
    some: &[&str],
    none: &[&str],
) -> Result<(), Fail> {
    for target in some {
        assert!(rt;
            may_leave(alloc, folder, path, target)?,
            "{path} to {target}"
        );
    }
    for target in none {
        assert!(rt;
            !may_leave(alloc, folder, path, target)?,
            "{path} to {target}"
        );
    }
    Ok(())
}

#[test]
fn a_link_is_durable_once_settled(rt: HostRuntime) -> Result<(), Fail> {
    let alloc = rt.alloc();
    let mut folder = folder_of(&rt, alloc, &[])?;
    let path = "/usr/lib/a-c";
    assert_left(&rt, alloc, &folder, path, &["a.b"], &["", "one", "two"])?;
    assert!(rt; link(&rt, alloc, &mut folder, path, "one")?);
    assert_left(&rt, alloc, &folder, path, &["a.b", "one"], &["", "two"])?;
    assert!(rt; link(&rt, alloc, &mut folder, path, "two")?);
    assert_left(&rt, alloc, &folder, path, &["a.b", "one", "two"], &[""])?;
    assert!(rt; folder.settle(b"/usr").is_ok());
    assert_left(&rt, alloc, &folder, path, &["a.b", "one", "two"], &[""])?;
    assert!(rt; folder.settle(b"/usr/lib/a").is_ok());
    assert_left(&rt, alloc, &folder, path, &["a.b", "one", "two"], &[""])?;
    assert!(rt; folder.settle(b"/usr/lib").is_ok());
    assert_left(&rt, alloc, &folder, path, &["two"], &["", "a.b", "one"])?;
    Ok(())
}

#[test]
fn each_path_is_left_by_itself(rt: HostRuntime) -> Result<(), Fail> {
    let alloc = rt.alloc();
    let mut folder = folder_of(&rt, alloc, &[])?;
    assert!(rt; link(&rt, alloc, &mut folder, "/x", "one")?);
    assert!(rt; link(&rt, alloc, &mut folder, "/usr/lib/y", "two")?);
    assert_left(&rt, alloc, &folder, "/x", &["", "one"], &["two"])?;
    assert_left(&rt, alloc, &folder, "/usr/lib/y", &["", "two"], &["one"])?;
    assert_left(&rt, alloc, &folder, "/z", &[""], &["one", "two"])?;
    assert!(rt; folder.settle(b"/").is_ok());
    assert_left(&rt, alloc, &folder, "/x", &["one"], &["", "two"])?;
    assert_left(&rt, alloc, &folder, "/usr/lib/y", &["", "two"], &["one"])?;
    assert!(rt; folder.settle(b"/usr/lib").is_ok());
    assert_left(&rt, alloc, &folder, "/usr/lib/y", &["two"], &["", "one"])?;
    Ok(())
}

#[test]
fn a_call_that_fails_leaves_the_same(rt: HostRuntime) -> Result<(), Fail> {
    let alloc = rt.alloc();
    let mut folder = folder_of(&rt, alloc, &[])?;
    assert!(rt; link(&rt, alloc, &mut folder, "/x", "one")?);
    folder.stop_after(1);
    assert!(rt; link(&rt, alloc, &mut folder, "/x", "two")?);
    assert!(rt; !link(&rt, alloc, &mut folder, "/x", "three")?);
    assert!(rt; folder.settle(b"/").is_err());
    assert_left(&rt, alloc, &folder, "/x", &["", "one", "two"], &["three"])?;
    let found = look_of(alloc, &mut folder, "/x")?;
    assert!(rt; found.as_slice() == b"failed".as_slice());
    Ok(())
}
