//! The files that a pattern names.
ghost use Rattle.std.specs.Prelude.{◌≡◌, ◌∷◌, ◌++◌, [], Some, flat_map, map, IfOk, OnOk};
ghost use Rattle.lib_types.specs.Name.{slash};
ghost use Rattle.image_tree.specs.Paths.{join};
ghost use Rattle.conf_patterns.specs.Finding.{matches_of, with_text};
ghost use Rattle.conf_patterns.specs.Patterns.{base_of, chosen_in, components_of, go_on, is_chosen, is_library_link, is_link, is_wild, place_at, results, texts_by};

use crate::glob::glob_match;
use lib_types::trim::{after, before_last, has_one};
use lib_types::{NoMemory, Parts, Separator, Text, split};
use name_order::is_library_name;
use path_walk::{Mode, WalkFault, is_absolute, resolve};
use std::alloc::Global;
use std::collections::BTreeMap;
use tree_face::{Kind, Tree};

/// The results of a pattern: each path as written, and the path that it resolves to.
pub type Results = BTreeMap<Text, Text>;

/// The path that a pattern's components are relative to.
pub fn base_of<'a>(file: &'a [u8], pattern: &[u8]) -> &'a [u8]
    ensures { result.now ≡ base_of file.now pattern.now }
{
    if is_absolute(pattern) {
        b""
    } else {
        before_last(b"/", file)
    }
}

/// The components of a pattern, without the slash before the first.
pub fn components_of(pattern: &[u8]) -> Parts<'_>
    ensures { result ≡ components_of pattern.now }
{
    if is_absolute(pattern) {
        split(Separator::In(b"/"), after(pattern, 1))
    } else {
        split(Separator::In(b"/"), pattern)
    }
}

/// Whether a component has a wildcard.
pub fn is_wild(component: &[u8]) -> bool
    ensures { result ≡ is_wild component.now }
{
    has_one(b"*?[", component)
}

fn is_link(kind: Kind) -> bool
    ensures { result ≡ is_link kind }
{
    match kind {
        Kind::Link => true,
        Kind::Absent | Kind::Dir | Kind::File => false,
    }
}

// The path of a name in a directory.
fn path_in(alloc: Global, folder: &[u8], name: &[u8]) -> Result<Vec<u8>, NoMemory>
    ensures { IfOk result (λ path. path.items ≡ join folder.now name.now) }
{
    let mut path = Vec::with_capacity(alloc, folder.len() + 1 + name.len())?;
    if folder != b"/".as_slice() {
        path.extend_from_slice(folder)?;
    }
    path.push(b'/')?;
    path.extend_from_slice(name)?;
    Ok(path)
}

// Whether the name is that of a symlink that ldconfig makes.
fn is_library_link(alloc: Global, tree: &Tree, folder: &[u8], name: &[u8]) -> Result<bool, NoMemory>
    ensures { IfOk result (λ is. is ≡ is_library_link tree.now folder.now name.now) }
{
    if !is_library_name(name) {
        return Ok(false);
    }
    let path = path_in(alloc, folder, name)?;
    Ok(is_link(tree.kind(&path)))
}

// Whether the component selects this name of the directory.
fn is_chosen(
    alloc: Global,
    tree: &Tree,
    folder: &[u8],
    component: &[u8],
    name: &[u8],
) -> Result<bool, NoMemory>
    ensures { IfOk result (λ is. is ≡ is_chosen tree.now folder.now component.now name.now) }
{
    if !glob_match(component, name) {
        return Ok(false);
    }
    Ok(!is_library_link(alloc, tree, folder, name)?)
}

// The path extended by a name.
fn longer(alloc: Global, text: &[u8], name: &[u8]) -> Result<Text, NoMemory>
    ensures { IfOk result (λ more. more ≡ text.now ++ slash ∷ name.now) }
{
    let mut more = Vec::with_capacity(alloc, text.len() + 1 + name.len())?;
    more.extend_from_slice(text)?;
    more.push(b'/')?;
    more.extend_from_slice(name)?;
    Ok(Text::from_vec(more))
}

/// The path that a text resolves to, or None if it doesn't resolve.
pub fn place_of(alloc: Global, tree: &Tree, text: &[u8]) -> Result<Option<Text>, NoMemory>
    ensures { IfOk result (λ place. place ≡ place_at tree.now text.now) }
{
    match resolve(alloc, tree, text, Mode::Plain) {
        Ok(place) => Ok(Some(place)),
        Err(WalkFault::NoMemory) => Err(NoMemory),
        Err(_) => Ok(None),
    }
}

// Adds the path, extended by each name of the directory that the component matches.
fn add_chosen(
    alloc: Global,
    tree: &Tree,
    folder: &[u8],
    component: &[u8],
    text: &[u8],
    texts: &mut Vec<Text>,
) -> Result<(), NoMemory>
    ensures { OnOk result (texts.new.items ≡ texts.old.items ++ map (λ name. text.now ++ slash ∷ name) (chosen_in tree.now component.now (Some folder.now))) }
{
    for name in tree.children(folder) {
        if is_chosen(alloc, tree, folder, component, name)? {
            texts.push(longer(alloc, text, name)?)?;
        }
    }
    Ok(())
}

// The same for the directory that the path resolves to.
fn add_matches(
    alloc: Global,
    tree: &Tree,
    component: &[u8],
    text: &[u8],
    texts: &mut Vec<Text>,
) -> Result<(), NoMemory>
    ensures { OnOk result (texts.new.items ≡ texts.old.items ++ matches_of tree.now component.now text.now) }
{
    let Some(folder) = place_of(alloc, tree, text)? else {
        return Ok(());
    };
    add_chosen(alloc, tree, folder.as_bytes(), component, text, texts)?;
    Ok(())
}

// Adds the path, extended by each name for the component.
fn add_texts(
    alloc: Global,
    tree: &Tree,
    component: &[u8],
    text: &[u8],
    texts: &mut Vec<Text>,
) -> Result<(), NoMemory>
    ensures { OnOk result (texts.new.items ≡ texts.old.items ++ go_on tree.now component.now text.now) }
{
    if is_wild(component) {
        return add_matches(alloc, tree, component, text, texts);
    }
    texts.push(longer(alloc, text, component)?)?;
    Ok(())
}

// The paths, each extended by each name for the component.
fn extended_by(
    alloc: Global,
    tree: &Tree,
    component: &[u8],
    texts: &[Text],
) -> Result<Vec<Text>, NoMemory>
    ensures { IfOk result (λ more. more.items ≡ flat_map (go_on tree.now component.now) texts.now) }
{
    let mut more = Vec::new(alloc);
    for text in texts {
        add_texts(alloc, tree, component, text.as_bytes(), &mut more)?;
    }
    Ok(more)
}

// The paths that a pattern expands to.
fn texts_of(alloc: Global, tree: &Tree, file: &[u8], pattern: &[u8]) -> Result<Vec<Text>, NoMemory>
    ensures { IfOk result (λ texts. texts.items ≡ texts_by tree.now (base_of file.now pattern.now ∷ []) (components_of pattern.now)) }
{
    let mut texts = Vec::new(alloc);
    texts.push(Text::copy_of(alloc, base_of(file, pattern))?)?;
    for component in components_of(pattern) {
        texts = extended_by(alloc, tree, component, &texts)?;
    }
    Ok(texts)
}

// Adds the path if it resolves.
fn add_found(alloc: Global, tree: &Tree, found: &mut Results, text: Text) -> Result<(), NoMemory>
    ensures { OnOk result (found.new.entries ≡ with_text tree.now found.old.entries text) }
{
    let Some(real) = place_of(alloc, tree, text.as_bytes())? else {
        return Ok(());
    };
    found.insert(text, real)?;
    Ok(())
}

/// The results of a pattern in a file, sorted by the bytes of their paths.
#[tactic(auto, unfolding(crate::specs::Patterns::results))]
pub fn results(alloc: Global, tree: &Tree, file: &[u8], pattern: &[u8]) -> Result<Results, NoMemory>
    ensures { IfOk result (λ found. found.entries ≡ results tree.now file.now pattern.now) }
{
    let mut found = BTreeMap::new(alloc);
    for text in texts_of(alloc, tree, file, pattern)? {
        add_found(alloc, tree, &mut found, text)?;
    }
    Ok(found)
}
