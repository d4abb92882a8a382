//! Images on the disk and in memory.
use crate::host::{Row, make_node, names_on_disk, no_memory, node_on_disk};
use crate::nodes::{are_same_names, are_same_nodes};
use device_rules::RunId;
use root_folder::{Folder, MemFolder};
use root_real::RootFolder;
use std::fs;
use std::io::{self, Error, ErrorKind};
use tree_face::{Kind, Node, Tree, is_node, is_path};
use trial_devices::Trial;

/// The numbers of the run. No process has such a number.
pub const RUN: RunId = RunId {
    process: 99_999_999,
    random: 7,
};

/// A name of 255 bytes.
pub const LONG_NAME: &[u8] =
    b"/usr/lib/libnnnnnnnnnnnnnnnnnnnnnnnnnnnnnnnnnnnnnnnnnnnnnnnnnnnnnnnnnnnnnnnnnnnnnnnnnnnnnnnnnnnnnnnnnnnnnnnnnnnnnnnnnnnnnnnnnnnnnnnnnnnnnnnnnnnnnnnnnnnnnnnnnnnnnnnnnnnnnnnnnnnnnnnnnnnnnnnnnnnnnnnnnnnnnnnnnnnnnnnnnnnnnnnnnnnnnnnnnnnnnnnnnnnnnnnnnnnnnnnnnnnnn.so.123";

/// An image: the directory of its root, and what is in it. A directory is before what is below it.
#[derive(Clone, Copy)]
pub struct Image {
    pub root: &'static str,
    pub rows: &'static [Row],
}

/// The image of the tests.
pub const IMAGE: Image = Image {
    root: "image",
    rows: &[
        ("/empty", Kind::Dir, ""),
        ("/etc", Kind::Dir, ""),
        ("/etc/ld.so.conf", Kind::File, "/usr/lib/a"),
        ("/lib", Kind::Link, "usr/lib"),
        ("/outside", Kind::Link, "../outside"),
        ("/top", Kind::File, "top"),
        ("/usr", Kind::Dir, ""),
        ("/usr/lib", Kind::Dir, ""),
        ("/usr/lib/absolute", Kind::Link, "/etc"),
        ("/usr/lib/a", Kind::Dir, ""),
        ("/usr/lib/a/deep", Kind::Dir, ""),
        ("/usr/lib/a/deep/libc.so.6", Kind::File, "c"),
        ("/usr/lib/a/up", Kind::Link, "../.."),
        ("/usr/lib/a.b", Kind::Dir, ""),
        ("/usr/lib/dangling", Kind::Link, "nowhere"),
        ("/usr/lib/libz.so.1", Kind::File, "z"),
        ("/usr/lib/libz.so", Kind::Link, "libz.so.1"),
        ("/usr/lib/libé.so", Kind::File, ""),
        ("/usr/lib/loop", Kind::Link, "loop"),
    ],
};

impl Image {
    /// Makes it again on the disk.
    pub fn make(self, rt: &HostRuntime) -> io::Result<()> {
        let _ = fs::remove_dir_all(rt, self.root);
        fs::create_dir(rt, self.root)?;
        for (path, kind, text) in self.rows {
            make_node(rt, self.on_disk(rt, path)?.as_str(), *kind, text)?;
        }
        Ok(())
    }

    /// The path of the disk for a path of the image.
    pub fn on_disk(self, rt: &HostRuntime, path: &str) -> io::Result<String> {
        let root = self.root;
        Ok(format!(in rt.alloc(); "{root}{path}")?)
    }

    /// The row of a path.
    pub fn row(self, path: &str) -> Option<Row> {
        for row in self.rows {
            if row.0 == path {
                return Some(*row);
            }
        }
        None
    }

    /// What the disk has, in memory.
    pub fn model(self, rt: &HostRuntime) -> io::Result<MemFolder> {
        let alloc = rt.alloc();
        let mut tree = Tree::new(alloc);
        for (path, _, _) in self.rows {
            put_node(rt, &mut tree, self, path)?;
        }
        match MemFolder::new(alloc, tree, Vec::new(alloc)) {
            Some(folder) => Ok(folder),
            None => Err(Error::from(ErrorKind::InvalidInput)),
        }
    }

    /// Whether the disk has what the directory in memory has.
    pub fn is_as<F: Folder>(self, rt: &HostRuntime, model: &mut F) -> io::Result<bool> {
        if !self.is_dir_as(rt, model, "/")? {
            return Ok(false);
        }
        for (path, kind, _) in self.rows {
            if *kind == Kind::Dir && !self.is_dir_as(rt, model, path)? {
                return Ok(false);
            }
        }
        Ok(true)
    }

    // Whether a directory on the disk has what the directory in memory has.
    fn is_dir_as<F: Folder>(self, rt: &HostRuntime, model: &mut F, dir: &str) -> io::Result<bool> {
        let names = names_on_disk(rt, self.on_disk(rt, dir)?.as_str())?;
        let Ok(expected) = model.names(rt.alloc(), dir.as_bytes()) else {
            return Ok(false);
        };
        if !are_same_names(&names, &expected) {
            return Ok(false);
        }
        let dir = if dir == "/" { "" } else { dir };
        for name in expected.as_slice() {
            if !self.is_node_as(rt, model, dir, name.as_bytes())? {
                return Ok(false);
            }
        }
        Ok(true)
    }

    // Whether the disk and the directory in memory have the same node of this name.
    fn is_node_as<F: Folder>(
        self,
        rt: &HostRuntime,
        model: &mut F,
        dir: &str,
        name: &[u8],
    ) -> io::Result<bool> {
        let Ok(name) = std::str::from_utf8(name) else {
            return Ok(false);
        };
        let path = format!(in rt.alloc(); "{dir}/{name}")?;
        let Ok(expected) = model.look(rt.alloc(), path.as_bytes()) else {
            return Ok(false);
        };
        let found = self.node(rt, path.as_str())?;
        Ok(are_same_nodes(&found, &expected))
    }

    // The node that the disk has at a path of the image. A file's key is its path without the first slash.
    fn node(self, rt: &HostRuntime, path: &str) -> io::Result<Option<Node>> {
        let key = path.trim_start_matches('/').as_bytes();
        node_on_disk(rt, self.on_disk(rt, path)?.as_str(), key)
    }
}

// Adds the node that the disk has at a path.
fn put_node(rt: &HostRuntime, tree: &mut Tree, image: Image, path: &str) -> io::Result<()> {
    let node = image.node(rt, path)?;
    let path = path.as_bytes();
    match node {
        Some(node) if is_path(path) && is_node(&node) => {
            tree.put(path, node).map_err(|_| no_memory())
        }
        _ => Err(Error::from(ErrorKind::InvalidInput)),
    }
}

/// The directory of the image of the tests.
pub fn real_folder(trial: &Trial, root: &str) -> io::Result<RootFolder<Trial>> {
    RootFolder::new(trial.clone()?, root, RUN).map_err(|_| no_memory())
}
