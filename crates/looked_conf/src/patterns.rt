//! Looks up the paths that a pattern of a conf file needs.
ghost use Rattle.std.specs.Prelude.{◌≡◌, ◌∷◌, ◌++◌, [], IfOk, IsErrOf, OnOk, flat_map, map, filter, not};
ghost use Rattle.conf_patterns.specs.Glob.{glob_match};
ghost use Rattle.conf_patterns.specs.Finding.{matches_of};
ghost use Rattle.conf_patterns.specs.Patterns.{base_of, components_of, go_on, is_library_link, is_wild, place_at, texts_by};
ghost use Rattle.conf_views.specs.Patterns.{choices_listed, choices_looked, dirs_in, listed_in, places_looked, results_listed, results_looked};
ghost use Rattle.lib_types.specs.Name.{slash};
ghost use Rattle.looked_conf.specs.Patterns.{pattern_listed, pattern_looked};
ghost use Rattle.looked_tree.specs.Looked.{IsLookedOf, Loads};
ghost use Rattle.root_tree.specs.ReadTree.{ReadsOn};
ghost use Rattle.root_tree.specs.declared.fault.TreeRead.TheVariants as reads;
ghost use Rattle.path_walk.specs.declared.walk.Mode.TheVariants.{Plain};
ghost use Rattle.seen_tree.specs.Part.{looked_by};
ghost use Rattle.seen_tree.specs.Seen.{IsFull};
ghost use Rattle.tree_face.specs.Known.{IfKnown};

use conf_patterns::glob_match;
use conf_patterns::patterns::{base_of, components_of, is_wild, place_of};
use lib_types::{NoMemory, Text};
use looked_tree::{LookedPart, NameTest};
use name_order::is_library_name;
use path_walk::{Mode, join};
use root_folder::Folder;
use root_tree::TreeRead;
use std::alloc::Global;
use tree_face::{Kind, Tree};

/// The names that a component of a pattern matches.
#[derive(Drop)]
struct Matching<'a> {
    component: &'a [u8],
}

impl<'a> NameTest for Matching<'a> {
    ghost test = { λ m name. glob_match m.component.now name };

    fn passes(&self, name: &[u8]) -> bool {
        glob_match(self.component, name)
    }
}

// Whether the name is that of a symlink that ldconfig makes.
fn is_library_link(alloc: Global, tree: &Tree, folder: &[u8], name: &[u8]) -> Result<bool, NoMemory>
    ensures { IfOk result (λ is. is ≡ is_library_link tree.now folder.now name.now) }
{
    if !is_library_name(name) {
        return Ok(false);
    }
    let path = join(alloc, folder, name)?;
    match tree.kind(path.as_bytes()) {
        Kind::Link => Ok(true),
        Kind::Absent | Kind::Dir | Kind::File => Ok(false),
    }
}

// Adds the path, extended by a name.
fn add_longer(
    alloc: Global,
    texts: &mut Vec<Text>,
    text: &[u8],
    name: &[u8],
) -> Result<(), NoMemory>
    ensures { OnOk result (texts.new.items ≡ texts.old.items ++ (text.now ++ slash ∷ name.now) ∷ []) }
{
    let mut more = Vec::with_capacity(alloc, text.len() + 1 + name.len())?;
    more.extend_from_slice(text)?;
    more.push(b'/')?;
    more.extend_from_slice(name)?;
    texts.push(Text::from_vec(more))?;
    Ok(())
}

// Adds the path, extended by those of the names that are not those of symlinks that ldconfig makes.
fn add_names(
    alloc: Global,
    tree: &Tree,
    folder: &[u8],
    names: &[Text],
    text: &[u8],
    texts: &mut Vec<Text>,
) -> Result<(), NoMemory>
    ensures { OnOk result (texts.new.items ≡ texts.old.items ++ map (λ name. text.now ++ slash ∷ name) (filter (λ name. not (is_library_link tree.now folder.now name)) names.now)) }
{
    for name in names {
        if !is_library_link(alloc, tree, folder, name.as_bytes())? {
            add_longer(alloc, texts, text, name.as_bytes())?;
        }
    }
    Ok(())
}

// Adds the path, extended by each name that the component matches in the directory that the path resolves to. Looks up what this needs.
#[tactic(auto, using(crate::proofs::Texts::matches_none, crate::proofs::Texts::none_chosen, crate::proofs::Texts::matches_some, crate::proofs::Texts::some_chosen))]
fn see_matches<F: Folder>(
    alloc: Global,
    looked: &mut LookedPart,
    folder: &mut F,
    component: &[u8],
    text: &[u8],
    texts: &mut Vec<Text>,
) -> Result<(), TreeRead>
    ensures loads { OnOk result (Loads (λ t. looked_by t text.now Plain ++ listed_in (glob_match component.now) t (place_at t text.now)) (λ t. dirs_in t (place_at t text.now)) (F.state folder.old) (F.state folder.new) looked.old looked.new) }
    ensures texts { OnOk result (IfKnown (F.state folder.old).contents (λ c. IsLookedOf c.now looked.old
        → texts.new.items ≡ texts.old.items ++ matches_of c.now component.now text.now)) }
    ensures full { IsErrOf result reads.TooLarge → IsFull looked.new.seen }
    ensures reads { ReadsOn result (F.state folder.old) (F.state folder.new) }
{
    looked.see_text(folder, text, Mode::Plain)?;
    let Some(dir) = place_of(alloc, looked.tree(), text)? else {
        return Ok(());
    };
    let names = looked.list(folder, dir.as_bytes(), &Matching { component })?;
    add_names(
        alloc,
        looked.tree(),
        dir.as_bytes(),
        names.as_slice(),
        text,
        texts,
    )?;
    Ok(())
}

// Adds the path, extended by each name for the component. Looks up what this needs.
#[tactic(auto, using(crate::proofs::Texts::wild_choices, crate::proofs::Texts::wild_texts, crate::proofs::Texts::plain_choices, crate::proofs::Texts::plain_texts))]
fn see_choices<F: Folder>(
    alloc: Global,
    looked: &mut LookedPart,
    folder: &mut F,
    component: &[u8],
    text: &[u8],
    texts: &mut Vec<Text>,
) -> Result<(), TreeRead>
    ensures loads { OnOk result (Loads (λ t. choices_looked t component.now text.now) (λ t. choices_listed t component.now text.now) (F.state folder.old) (F.state folder.new) looked.old looked.new) }
    ensures texts { OnOk result (IfKnown (F.state folder.old).contents (λ c. IsLookedOf c.now looked.old
        → texts.new.items ≡ texts.old.items ++ go_on c.now component.now text.now)) }
    ensures full { IsErrOf result reads.TooLarge → IsFull looked.new.seen }
    ensures reads { ReadsOn result (F.state folder.old) (F.state folder.new) }
{
    if is_wild(component) {
        return see_matches(alloc, looked, folder, component, text, texts);
    }
    add_longer(alloc, texts, text, component)?;
    Ok(())
}

// The paths, each extended by each name for the component. Looks up what this needs.
#[tactic(auto, using(crate::proofs::Texts::extending_begins))]
fn see_extended<F: Folder>(
    alloc: Global,
    looked: &mut LookedPart,
    folder: &mut F,
    component: &[u8],
    texts: &[Text],
) -> Result<Vec<Text>, TreeRead>
    ensures loads { OnOk result (Loads (λ t. flat_map (choices_looked t component.now) texts.now) (λ t. flat_map (choices_listed t component.now) texts.now) (F.state folder.old) (F.state folder.new) looked.old looked.new) }
    ensures texts { IfOk result (λ more. IfKnown (F.state folder.old).contents (λ c. IsLookedOf c.now looked.old
        → more.items ≡ flat_map (go_on c.now component.now) texts.now)) }
    ensures full { IsErrOf result reads.TooLarge → IsFull looked.new.seen }
    ensures reads { ReadsOn result (F.state folder.old) (F.state folder.new) }
{
    let mut more = Vec::new(alloc);
    for text in texts {
        see_choices(alloc, looked, folder, component, text.as_bytes(), &mut more)?;
    }
    Ok(more)
}

fn one_text(alloc: Global, text: &[u8]) -> Result<Vec<Text>, NoMemory>
    ensures { IfOk result (λ texts. texts.items ≡ text.now ∷ []) }
{
    let mut texts = Vec::new(alloc);
    texts.push(Text::copy_of(alloc, text)?)?;
    Ok(texts)
}

// The paths that a pattern expands to. Looks up what this needs.
#[tactic(auto, using(crate::proofs::Texts::expanding_begins, crate::proofs::Texts::expanding_done))]
fn see_texts<F: Folder>(
    alloc: Global,
    looked: &mut LookedPart,
    folder: &mut F,
    file: &[u8],
    pattern: &[u8],
) -> Result<Vec<Text>, TreeRead>
    ensures loads { OnOk result (Loads (λ t. pattern_looked t file.now pattern.now) (λ t. pattern_listed t file.now pattern.now) (F.state folder.old) (F.state folder.new) looked.old looked.new) }
    ensures texts { IfOk result (λ more. IfKnown (F.state folder.old).contents (λ c. IsLookedOf c.now looked.old
        → more.items ≡ texts_by c.now (base_of file.now pattern.now ∷ []) (components_of pattern.now))) }
    ensures full { IsErrOf result reads.TooLarge → IsFull looked.new.seen }
    ensures reads { ReadsOn result (F.state folder.old) (F.state folder.new) }
{
    let mut texts = one_text(alloc, base_of(file, pattern))?;
    for component in components_of(pattern) {
        texts = see_extended(alloc, looked, folder, component, &texts)?;
    }
    Ok(texts)
}

// Looks up the paths that the resolutions of these texts need.
fn see_places<F: Folder>(
    looked: &mut LookedPart,
    folder: &mut F,
    texts: &[Text],
) -> Result<(), TreeRead>
    ensures loads { OnOk result (Loads (λ t. places_looked t texts.now) (λ t. []) (F.state folder.old) (F.state folder.new) looked.old looked.new) }
    ensures full { IsErrOf result reads.TooLarge → IsFull looked.new.seen }
    ensures reads { ReadsOn result (F.state folder.old) (F.state folder.new) }
{
    for text in texts {
        looked.see_text(folder, text.as_bytes(), Mode::Plain)?;
    }
    Ok(())
}

/// Looks up the paths that the results of a pattern in a file need.
#[tactic(auto, using(crate::proofs::Texts::results_loaded))]
pub(crate) fn see_results<F: Folder>(
    alloc: Global,
    looked: &mut LookedPart,
    folder: &mut F,
    file: &[u8],
    pattern: &[u8],
) -> Result<(), TreeRead>
    ensures loads { OnOk result (Loads (λ t. results_looked t file.now pattern.now) (λ t. results_listed t file.now pattern.now) (F.state folder.old) (F.state folder.new) looked.old looked.new) }
    ensures full { IsErrOf result reads.TooLarge → IsFull looked.new.seen }
    ensures reads { ReadsOn result (F.state folder.old) (F.state folder.new) }
{
    let texts = see_texts(alloc, looked, folder, file, pattern)?;
    see_places(looked, folder, &texts)
}
