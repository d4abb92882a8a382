//! The image of the trials, on the disk and in memory.
use lib_types::Text;
use std::alloc::Global;
use std::os::unix::fs::symlink;
use std::{fs, io};
use trial_devices::Random;

/// The directory of the image.
pub const ROOT: &str = "image";

/// The path of a file below the directory, and its length.
type File = (&'static str, usize);

const FILES: &[File] = &[
    ("etc/empty", 0),
    ("etc/one", 1),
    ("top", 20),
    ("usr/lib/libz.so.1", 64),
    ("usr/lib/a/deep/libc.so.6", 4095),
    ("usr/lib/liba.so", 4096),
    ("usr/lib/libb.so", 4097),
    ("usr/lib/large", 20_000),
];

/// Keys of files, with other spellings of them.
pub const HELD: &[(&str, &str)] = &[
    ("etc/empty", "etc/empty"),
    ("etc/one", "etc/one"),
    ("top", "top"),
    ("usr/lib/libz.so.1", "usr/lib/libz.so.1"),
    ("usr/lib/a/deep/libc.so.6", "usr/lib/a/deep/libc.so.6"),
    ("usr/lib/liba.so", "usr/lib/liba.so"),
    ("usr/lib/libb.so", "usr/lib/libb.so"),
    ("usr/lib/large", "usr/lib/large"),
    ("./top", "top"),
    ("usr/./lib/libz.so.1", "usr/lib/libz.so.1"),
    ("usr//lib/libz.so.1", "usr/lib/libz.so.1"),
];

/// Keys of no regular file in the image: other files, links, paths with `..`, and one that isn't UTF-8 text.
pub const LACKING: &[&[u8]] = &[
    b"",
    b".",
    b"..",
    b"missing",
    b"usr/missing/top",
    b"usr/lib",
    b"usr/lib/",
    b"usr/lib/.",
    b"top/",
    b"top/.",
    b"top/x",
    b"link",
    b"usr/link",
    b"outside",
    b"folder/libz.so.1",
    b"usr/../top",
    b"../image/top",
    b"../secret",
    b"usr/lib/..",
    b"t\xFFp",
];

/// A file outside of the image.
const SECRET: &str = "secret";

// The links of the image, with their targets.
const LINKS: &[(&str, &str)] = &[
    ("top", "image/link"),
    ("lib/libz.so.1", "image/usr/link"),
    ("../secret", "image/outside"),
    ("usr/lib", "image/folder"),
];

/// The content of a file of this length: pseudo-random bytes.
pub fn content(alloc: Global, length: usize) -> io::Result<Vec<u8>> {
    Random::new(length as u64).bytes(alloc, length)
}

/// Makes the image on the disk.
pub fn make_image(rt: &HostRuntime) -> io::Result<()> {
    for dir in ["image/etc", "image/usr/lib/a/deep"] {
        fs::create_dir_all(rt, dir)?;
    }
    for (path, length) in FILES {
        let bytes = content(rt.alloc(), *length)?;
        fs::write(rt, file_of(rt, path)?.as_str(), bytes)?;
    }
    fs::write(rt, SECRET, "secret")?;
    for (target, path) in LINKS {
        symlink(rt, *target, *path)?;
    }
    Ok(())
}

/// The path of a file of the image, on the disk.
pub fn file_of(rt: &HostRuntime, path: &str) -> io::Result<String> {
    Ok(format!(in rt.alloc(); "{ROOT}/{path}")?)
}

fn length_of(path: &str) -> usize {
    for (name, length) in FILES {
        if *name == path {
            return *length;
        }
    }
    0
}

/// The keys of the image with the contents of their files.
pub fn held(alloc: Global) -> io::Result<Vec<(Text, Text)>> {
    let mut pairs = Vec::new(alloc);
    for (key, path) in HELD {
        let key = Text::from_vec(Vec::from_slice(alloc, key.as_bytes())?);
        let bytes = content(alloc, length_of(path))?;
        pairs.push((key, Text::from_vec(bytes)))?;
    }
    Ok(pairs)
}
