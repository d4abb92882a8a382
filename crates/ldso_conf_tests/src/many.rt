//! Large conf files and directories take time in proportion to their size.
use ldso_conf::{CONF_PATH, Conf, read_conf};
use lib_types::{NoMemory, Text};
use mtree_manifest::read;
use std::alloc::Global;
use tree_face::{SureStore, Tree};

// The conf file, and `files` more in one directory, all with the same content.
fn manifest(alloc: Global, files: u32) -> Result<String, NoMemory> {
    let mut manifest = String::from_str(alloc, "./etc/ld.so.conf contents=conf\n")?;
    for n in 0..files {
        let line = format!(in alloc; "./etc/ld.so.conf.d/{n:010}.conf contents=one\n")?;
        manifest.push_str(&line)?;
    }
    Ok(manifest)
}

// `count` lines, each with a different directory.
fn lines(alloc: Global, count: u32) -> Result<String, NoMemory> {
    let mut content = String::new(alloc);
    for n in 0..count {
        let line = format!(in alloc; "/opt/directory/{n:010}\n")?;
        content.push_str(&line)?;
    }
    Ok(content)
}

// The files of the store: the content of the conf files in the directory comes first.
fn store_of(alloc: Global, conf: &str) -> Result<SureStore, NoMemory> {
    let mut held = Vec::new(alloc);
    for (key, content) in [("one", "/opt/one\n"), ("conf", conf)] {
        let key = Text::copy_of(alloc, key.as_bytes())?;
        held.push((key, Text::copy_of(alloc, content.as_bytes())?))?;
    }
    Ok(SureStore::new(held))
}

fn has_counts(conf: &Conf, files: u32, dirs: usize) -> bool {
    conf.files == files && conf.dirs.len() == dirs
}

fn are_read(alloc: Global, tree: &Tree, conf: &str, files: u32, dirs: usize) -> bool {
    let Ok(mut store) = store_of(alloc, conf) else {
        return false;
    };
    match read_conf(alloc, CONF_PATH, tree, &mut store) {
        Ok(conf) => has_counts(&conf, files, dirs),
        Err(_) => false,
    }
}

// Whether `files` conf files and `dirs` directories are found, if the conf file has this content, with `next_to` files in its directory.
fn is_so(alloc: Global, next_to: u32, conf: &str, files: u32, dirs: usize) -> bool {
    let Ok(manifest) = manifest(alloc, next_to) else {
        return false;
    };
    match read(alloc, manifest.as_bytes()) {
        Ok(tree) => are_read(alloc, &tree, conf, files, dirs),
        Err(_) => false,
    }
}

/// Whether large inputs are read: a conf file of nearly the largest size whose lines name different directories, and many conf files in
/// one directory, all with the same content.
pub(crate) fn try_many(alloc: Global) -> bool {
    let Ok(lines) = lines(alloc, 40_000) else {
        return false;
    };
    is_so(alloc, 0, &lines, 1, 40_000)
        && is_so(alloc, 5_000, "include ld.so.conf.d/*.conf\n", 5_001, 5_000)
}
