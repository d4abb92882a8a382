//! The paths of an image's files.
ghost use Rattle.std.specs.Prelude.{◌≡◌, IfOk};
ghost use Rattle.device_rules.specs.Places.{IsIn, below_root, cache_at, ends_in_name, file_of, is_file_path, usual_cache};

use crate::paths::{divided, has_up};
use lib_types::NoMemory;
use std::alloc::Global;
use std::marker::Model;
use tree_face::Slot;

/// The paths of an image's files, below its root. Contracts see the path of the cache, which may differ from the usual one.
#[derive(Drop)]
pub struct SlotPaths {
    cache: Option<String>,
}

impl Model for SlotPaths {
    ghost use Rattle.std.specs.Prelude.{ℕ, List, option_map, unwrap_or};
    ghost use Rattle.std.specs.String.{string_bytes};
    ghost use Rattle.device_rules.specs.Places.{usual_cache};

    ghost Value = { List ℕ };

    ghost view = { λ paths. unwrap_or (option_map string_bytes paths.cache) usual_cache };
}

impl SlotPaths {
    /// The usual paths.
    pub fn usual() -> SlotPaths
        ensures { result ≡ usual_cache }
    {
        SlotPaths { cache: None }
    }

    /// The usual paths, except that the cache has this path in the image. The result is None if the path can't name a file: it must have a
    /// name after its last slash, and no component `..`.
    pub fn with_cache(alloc: Global, path: &str) -> Result<Option<SlotPaths>, NoMemory>
        ensures { IfOk result (λ paths. paths ≡ cache_at path.now) }
    {
        let file = below_root(path);
        if !is_file_path(file.as_bytes()) {
            return Ok(None);
        }
        let cache = Some(String::from_str(alloc, file)?);
        Ok(Some(SlotPaths { cache }))
    }

    /// A slot's file, below the root.
    pub fn file_of(&self, slot: Slot) -> &str
        ensures { result.now ≡ file_of self.now slot }
    {
        match slot {
            Slot::Manifest => "image.mtree",
            Slot::Cache => self.cache_file(),
            Slot::Aux => "var/cache/ldconfig/aux-cache",
        }
    }

    fn cache_file(&self) -> &str
        ensures { result.now ≡ self.now }
    {
        match &self.cache {
            Some(path) => path.as_str(),
            None => "etc/ld.so.cache",
        }
    }

    /// The directory of a slot's file, and its name.
    pub fn place_of(&self, slot: Slot) -> (&str, &str)
        ensures { IsIn result.0.now result.1.now (file_of self.now slot) }
    {
        divided(self.file_of(slot))
    }
}

// A path in the image, relative to its root.
fn below_root(path: &str) -> &str
    ensures { result.now ≡ below_root path.now }
{
    match path.strip_prefix('/') {
        Some(rest) => rest,
        None => path,
    }
}

fn ends_in_name(path: &[u8]) -> bool
    ensures { result ≡ ends_in_name path.now }
{
    !path.is_empty() && !path.ends_with(b"/") && path != b".".as_slice() && !path.ends_with(b"/.")
}

fn is_file_path(path: &[u8]) -> bool
    ensures { result ≡ is_file_path path.now }
{
    ends_in_name(path) && !has_up(path)
}
