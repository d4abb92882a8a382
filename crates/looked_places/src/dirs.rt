//! Looks up the search directories.
ghost use Rattle.std.specs.Prelude.{◌≡◌, ◌++◌, [], IfOk, IsErrOf, OnOk, flat_map};
ghost use Rattle.hwcap_dirs.specs.Places.{builtin_dirs, dir_at, hwcaps};
ghost use Rattle.image_tree.specs.Paths.{join};
ghost use Rattle.looked_places.specs.Listed.{caps_listed, places_listed};
ghost use Rattle.looked_places.specs.Plain.{plain_listed, plain_looked};
ghost use Rattle.looked_tree.specs.Looked.{Loads};
ghost use Rattle.path_walk.specs.declared.walk.Mode.TheVariants.{Plain};
ghost use Rattle.root_tree.specs.ReadTree.{ReadsOn};
ghost use Rattle.root_tree.specs.declared.fault.TreeRead.TheVariants as reads;
ghost use Rattle.seen_places.specs.Looked.{hwcaps_looked, places_looked, texts_looked};
ghost use Rattle.seen_tree.specs.Part.{looked_by};
ghost use Rattle.seen_tree.specs.Seen.{IsFull};

use crate::names::Shown;
use hwcap_dirs::{Place, Scope, dir_at, next_builtin_dir, order};
use lib_types::{HWCAPS_DIR, NoMemory, Text, Texts};
use looked_tree::LookedPart;
use path_walk::{Mode, join};
use root_folder::Folder;
use root_tree::TreeRead;
use std::alloc::Global;

// Looks up what the resolutions of these paths need.
fn see_texts<F: Folder>(
    looked: &mut LookedPart,
    folder: &mut F,
    texts: &[Text],
) -> Result<(), TreeRead>
    ensures loads { OnOk result (Loads (λ t. texts_looked t texts.now) (λ t. []) (F.state folder.old) (F.state folder.new) looked.old looked.new) }
    ensures full { IsErrOf result reads.TooLarge → IsFull looked.new.seen }
    ensures reads { ReadsOn result (F.state folder.old) (F.state folder.new) }
{
    for text in texts {
        looked.see_text(folder, text.as_bytes(), Mode::Plain)?;
    }
    Ok(())
}

// The same for the directories that are searched after those of the conf file.
fn see_builtin<F: Folder>(
    looked: &mut LookedPart,
    folder: &mut F,
    scope: &Scope,
) -> Result<(), TreeRead>
    ensures loads { OnOk result (Loads (λ t. texts_looked t (builtin_dirs scope.now)) (λ t. []) (F.state folder.old) (F.state folder.new) looked.old looked.new) }
    ensures full { IsErrOf result reads.TooLarge → IsFull looked.new.seen }
    ensures reads { ReadsOn result (F.state folder.old) (F.state folder.new) }
{
    let mut done = 0;
    while let Some((dir, next)) = next_builtin_dir(scope, done) {
        looked.see_text(folder, dir, Mode::Plain)?;
        done = next;
    }
    Ok(())
}

// Looks up what the resolutions of these names in a directory need.
fn see_names<F: Folder>(
    alloc: Global,
    looked: &mut LookedPart,
    folder: &mut F,
    dir: &[u8],
    names: &[Text],
) -> Result<(), TreeRead>
    ensures loads { OnOk result (Loads (λ t. flat_map (λ name. looked_by t (join dir.now name) Plain) names.now) (λ t. []) (F.state folder.old) (F.state folder.new) looked.old looked.new) }
    ensures full { IsErrOf result reads.TooLarge → IsFull looked.new.seen }
    ensures reads { ReadsOn result (F.state folder.old) (F.state folder.new) }
{
    for name in names {
        let text = join(alloc, dir, name.as_bytes())?;
        looked.see_text(folder, text.as_bytes(), Mode::Plain)?;
    }
    Ok(())
}

// Looks up a `glibc-hwcaps` directory, and its names that aren't hidden.
fn see_caps<F: Folder>(
    alloc: Global,
    looked: &mut LookedPart,
    folder: &mut F,
    below: &[u8],
) -> Result<(), TreeRead>
    ensures loads { OnOk result (Loads (λ t. hwcaps_looked t below.now) (λ t. caps_listed t (dir_at t below.now)) (F.state folder.old) (F.state folder.new) looked.old looked.new) }
    ensures full { IsErrOf result reads.TooLarge → IsFull looked.new.seen }
    ensures reads { ReadsOn result (F.state folder.old) (F.state folder.new) }
{
    looked.see_text(folder, below, Mode::Plain)?;
    let Some(dir) = dir_at(alloc, looked.tree(), below)? else {
        return Ok(());
    };
    let names = looked.list(folder, dir.as_bytes(), &Shown)?;
    see_names(alloc, looked, folder, below, names.as_slice())
}

// Looks up the `glibc-hwcaps` directory of a search directory that isn't in such a directory itself.
fn see_place<F: Folder>(
    alloc: Global,
    looked: &mut LookedPart,
    folder: &mut F,
    place: &Place,
) -> Result<(), TreeRead>
    ensures loads { OnOk result (Loads (λ t. plain_looked t place.now) (λ t. plain_listed t place.now) (F.state folder.old) (F.state folder.new) looked.old looked.new) }
    ensures full { IsErrOf result reads.TooLarge → IsFull looked.new.seen }
    ensures reads { ReadsOn result (F.state folder.old) (F.state folder.new) }
{
    if place.cap.is_some() {
        return Ok(());
    }
    let below = join(alloc, place.spelled.as_bytes(), HWCAPS_DIR)?;
    see_caps(alloc, looked, folder, below.as_bytes())
}

// Looks up the `glibc-hwcaps` directories of these search directories.
fn see_below<F: Folder>(
    alloc: Global,
    looked: &mut LookedPart,
    folder: &mut F,
    places: &[Place],
) -> Result<(), TreeRead>
    ensures loads { OnOk result (Loads (λ t. flat_map (plain_looked t) places.now) (λ t. flat_map (plain_listed t) places.now) (F.state folder.old) (F.state folder.new) looked.old looked.new) }
    ensures full { IsErrOf result reads.TooLarge → IsFull looked.new.seen }
    ensures reads { ReadsOn result (F.state folder.old) (F.state folder.new) }
{
    for place in places {
        see_place(alloc, looked, folder, place)?;
    }
    Ok(())
}

/// Looks up what `hwcap_dirs::order` needs: the directories of the conf file, those that the scope adds, and then the `glibc-hwcaps` directory
/// of each of them.
pub fn see_places<F: Folder>(
    alloc: Global,
    looked: &mut LookedPart,
    folder: &mut F,
    scope: &Scope,
    conf: &Texts,
) -> Result<(), TreeRead>
    ensures loads { OnOk result (Loads (λ t. places_looked scope.now t conf.now) (λ t. places_listed scope.now t conf.now) (F.state folder.old) (F.state folder.new) looked.old looked.new) }
    ensures full { IsErrOf result reads.TooLarge → IsFull looked.new.seen }
    ensures reads { ReadsOn result (F.state folder.old) (F.state folder.new) }
{
    see_texts(looked, folder, conf.as_slice())?;
    see_builtin(looked, folder, scope)?;
    let dirs = order(alloc, scope, looked.tree(), conf)?;
    see_below(alloc, looked, folder, dirs.places.as_slice())
}
