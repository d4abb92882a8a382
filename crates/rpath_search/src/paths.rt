//! Texts as paths.
ghost use Rattle.std.specs.Prelude.{◌≡◌, ◌++◌, IfOk};
ghost use Rattle.image_tree.specs.Paths.{root};
ghost use Rattle.rpath_search.specs.Places.{folder_of, from_root, hwcaps_path};

use lib_types::trim::before_last;
use lib_types::{NoMemory, Text};
use path_walk::is_absolute;
use std::alloc::Global;

/// The directory of a path, from its text alone.
pub fn folder_of(path: &[u8]) -> &[u8]
    ensures { result.now ≡ folder_of path.now }
{
    let folder = before_last(b"/", path);
    if folder.is_empty() { b"/" } else { folder }
}

/// Puts a slash in front of the text if it doesn't begin with one.
pub fn from_root(alloc: Global, text: &[u8]) -> Result<Text, NoMemory>
    ensures { IfOk result (λ path. path ≡ from_root text.now) }
{
    if is_absolute(text) {
        return Text::copy_of(alloc, text);
    }
    let mut path = Vec::with_capacity(alloc, 1 + text.len())?;
    path.push(b'/')?;
    path.extend_from_slice(text)?;
    Ok(Text::from_vec(path))
}

/// The path of a name in a directory whose text has no slash at its end.
pub(crate) fn plain_path(alloc: Global, dir: &[u8], name: &[u8]) -> Result<Text, NoMemory>
    ensures { IfOk result (λ path. path ≡ dir.now ++ root ++ name.now) }
{
    let mut path = Vec::with_capacity(alloc, dir.len() + 1 + name.len())?;
    path.extend_from_slice(dir)?;
    path.push(b'/')?;
    path.extend_from_slice(name)?;
    Ok(Text::from_vec(path))
}

/// The path of a name in a directory's subdirectory for a hwcaps name.
pub(crate) fn hwcaps_path(
    alloc: Global,
    dir: &[u8],
    name: &[u8],
    cap: &[u8],
) -> Result<Text, NoMemory>
    ensures { IfOk result (λ path. path ≡ hwcaps_path dir.now name.now cap.now) }
{
    let mut path = Vec::new(alloc);
    path.extend_from_slice(dir)?;
    path.extend_from_slice(b"/glibc-hwcaps/")?;
    path.extend_from_slice(cap)?;
    path.push(b'/')?;
    path.extend_from_slice(name)?;
    Ok(Text::from_vec(path))
}
