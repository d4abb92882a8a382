// The files that are examined, one soname in several ABIs, and dangling links, by the rules of ldconfig(8).
use crate::fault::ImageFault;
use crate::image::{Image, Library, Link, image_of, put_library, put_link};
use crate::shown::{marks_in, plan_in, texts_in};
use crate::want::{Want, gives};
use lib_types::Abi;
use library_files::{dangling, reached, wanted};
use soname_links::{mixed, plan};
use std::alloc::Global;
use std::test::Fail;

// Libraries of two ABIs with one soname, and one of the second ABI alone.
fn mixed_image(alloc: Global) -> Result<Image, ImageFault> {
    let library = ("/usr/lib/libfoo.so.1.1", "libfoo.so.1");
    let mut image = image_of(alloc, &[], &[library], &[])?;
    let foo = "/usr/lib/libfoo.so.1.2";
    put_library(alloc, &mut image, foo, Abi::I386, "libfoo.so.1")?;
    let bar = "/usr/lib/libbar.so.1.2";
    put_library(alloc, &mut image, bar, Abi::I386, "libbar.so.1")?;
    Ok(image)
}

fn are_mixed(alloc: Global, image: &Image, want: &str) -> Result<bool, ImageFault> {
    let marks = mixed(alloc, &image.tree, &image.dirs, &image.table)?;
    Ok(marks_in(alloc, &marks)?.as_slice() == want.as_bytes())
}

#[test]
fn knows_mixed_sonames(rt: HostRuntime) -> Result<(), Fail> {
    let alloc = rt.alloc();
    let image = mixed_image(alloc)?;
    assert!(rt; are_mixed(alloc, &image, "0 libfoo.so.1|")?);
    Ok(())
}

fn are_planned(alloc: Global, image: &Image, want: &str) -> Result<bool, ImageFault> {
    let links = plan(alloc, &image.tree, &image.dirs, &image.table)?;
    Ok(plan_in(alloc, &links)?.as_slice() == want.as_bytes())
}

#[test]
fn plans_links_for_each_abi(rt: HostRuntime) -> Result<(), Fail> {
    let alloc = rt.alloc();
    let image = mixed_image(alloc)?;
    let want = "0 /usr/lib/libbar.so.1>libbar.so.1.2|0 /usr/lib/libfoo.so.1>libfoo.so.1.2|";
    assert!(rt; are_planned(alloc, &image, want)?);
    Ok(())
}

// ---- files and links to them

const LINKS: &[Link<'_>] = &[
    ("/usr/lib/liba.so", "/opt/real"),
    ("/usr/lib/libb.so", "../lib/liba.so"),
    ("/usr/lib/libc.so", "libc.so"),
    ("/usr/lib/libd.so", "/opt"),
    ("/usr/lib/libe.so", "nothing"),
    ("/usr/lib/other", "/opt/unseen"),
];

const LIBRARIES: &[Library<'_>] = &[
    ("/opt/real", ""),
    ("/opt/unseen", ""),
    ("/usr/lib/libz-1.so", ""),
    ("/usr/lib/libz.so.1", ""),
    ("/usr/lib/z", ""),
];

const DIRS: &[&str] = &["/usr/lib", "/usr"];

fn are_wanted(alloc: Global, image: &Image, want: &str) -> Result<bool, ImageFault> {
    let files = wanted(alloc, &image.tree, &image.dirs)?;
    Ok(texts_in(alloc, &files)?.as_slice() == want.as_bytes())
}

fn are_reached(alloc: Global, image: &Image, want: &str) -> Result<bool, ImageFault> {
    let files = reached(alloc, &image.tree, &image.dirs)?;
    Ok(texts_in(alloc, &files)?.as_slice() == want.as_bytes())
}

fn are_dangling(alloc: Global, image: &Image, want: &str) -> Result<bool, ImageFault> {
    let links = dangling(alloc, &image.tree, &image.dirs)?;
    Ok(texts_in(alloc, &links)?.as_slice() == want.as_bytes())
}

#[test]
fn wants_files_with_library_names(rt: HostRuntime) -> Result<(), Fail> {
    let alloc = rt.alloc();
    let image = image_of(alloc, LINKS, LIBRARIES, DIRS)?;
    let want = "/usr/lib/libz-1.so|/usr/lib/libz.so.1|";
    assert!(rt; are_wanted(alloc, &image, want)?);
    Ok(())
}

#[test]
fn reaches_files_by_links(rt: HostRuntime) -> Result<(), Fail> {
    let alloc = rt.alloc();
    let image = image_of(alloc, LINKS, LIBRARIES, DIRS)?;
    let want = "/opt/real|";
    assert!(rt; are_reached(alloc, &image, want)?);
    Ok(())
}

#[test]
fn finds_dangling_links(rt: HostRuntime) -> Result<(), Fail> {
    let alloc = rt.alloc();
    let image = image_of(alloc, LINKS, LIBRARIES, DIRS)?;
    let want = "/usr/lib/libc.so|/usr/lib/libd.so|/usr/lib/libe.so|";
    assert!(rt; are_dangling(alloc, &image, want)?);
    Ok(())
}

// ---- an image whose /lib is /usr/lib

const MERGED_LINKS: &[Link<'_>] = &[
    ("/lib", "usr/lib"),
    ("/usr/lib/x86_64-linux-gnu/libz.so.1", "libz.so.1.3.1"),
];

const MERGED_LIBRARIES: &[Library<'_>] = &[
    ("/usr/lib/x86_64-linux-gnu/libc.so.6", "libc.so.6"),
    ("/usr/lib/x86_64-linux-gnu/libz.so.1.3.1", "libz.so.1"),
    ("/usr/local/lib/readme", ""),
];

const MERGED_DIRS: &[&str] = &[
    "/usr/local/lib",
    "/usr/local/lib",
    "/usr/local/lib/x86_64-linux-gnu",
    "/lib/x86_64-linux-gnu",
    "/usr/lib/x86_64-linux-gnu",
];

#[test]
fn takes_a_merged_image(rt: HostRuntime) -> Result<(), Fail> {
    let alloc = rt.alloc();
    let mut image = image_of(alloc, MERGED_LINKS, MERGED_LIBRARIES, MERGED_DIRS)?;
    let want = Want {
        plan: "",
        blocked: "",
        dangling: "",
        entries: "1 libz.so.1=/lib/x86_64-linux-gnu/libz.so.1|1 libc.so.6=/lib/x86_64-linux-gnu/libc.so.6|",
    };
    assert!(rt; gives(alloc, &mut image, &want)?);
    Ok(())
}

#[test]
fn finds_a_dangling_link_of_a_merged_image_once(rt: HostRuntime) -> Result<(), Fail> {
    let alloc = rt.alloc();
    let mut image = image_of(alloc, MERGED_LINKS, MERGED_LIBRARIES, MERGED_DIRS)?;
    put_link(alloc, &mut image.tree, "/usr/lib/libq.so", "libq.so.1")?;
    let want = "/usr/lib/libq.so|";
    assert!(rt; are_dangling(alloc, &image, want)?);
    Ok(())
}
