//! The files of an image's slots, and how they are replaced.
ghost use Rattle.std.specs.Prelude.{◌≡◌, ◌≢◌, ◌↔◌, ◌⊎◌, Some, length, option_map, IfOk, IsSomeAnd, IsTrue};
ghost use Rattle.device_rules.specs.Folder.{length_to_read, mode_of};

use crate::places::Places;
use crate::same_bytes::have_same_bytes;
use crate::temporary::{Temporary, make_own, remove_left};
use device_rules::{
    Existing, HEAD_SIZE, Owner, RunId, SlotPaths, Stamp, entries_in, existing_of, has_room,
    is_as_read, is_missing, largest, length_to_read, mode_of, mode_until_whole, owner_of,
    owner_to_give, stamp_of, strings_in, too_long,
};
use image_folder::{
    HeldFile, ImageFolder, Missing, changed, left_behind, open_file, read_whole, shorter,
};
use lib_types::NoMemory;
use searchable_names::is_searchable;
use standard_streams::{Streams, file_limit};
use std::alloc::{AllocError, Global};
use std::fs::{Metadata, OpenFile, Permissions};
use std::io::{self, Error, ErrorKind, Read, Write};
use std::os::unix::fs::{FileExt, MetadataExt, PermissionsExt};
use std::rt::Runtime;
use tree_face::{Slot, Tag};

/// What was replaced, and the entry counts of the caches.
#[derive(Clone, Copy, Debug, Default)]
pub struct Written {
    pub manifest: bool,
    pub cache: bool,
    /// The entry count of the cache that was replaced, if there was one.
    pub entries_before: Option<u32>,
    /// The entry count of the cache that was written.
    pub entries: Option<u32>,
    /// Whether the loader can search for each string of the cache that was written, as far as this is known.
    pub searchable: bool,
    /// The length of the manifest that was read.
    pub manifest_length: Option<u64>,
}

impl Written {
    // The slot's file was replaced.
    fn note(&mut self, slot: Slot)
        ensures manifest { IsTrue self.new.manifest ↔ (IsTrue self.old.manifest ⊎ slot ≡ Slot.Manifest) }
        ensures cache { IsTrue self.new.cache ↔ (IsTrue self.old.cache ⊎ slot ≡ Slot.Cache) }
    {
        match slot {
            Slot::Manifest => self.manifest = true,
            Slot::Cache => self.cache = true,
            Slot::Aux => {}
        }
    }
}

/// The files `image.mtree`, `etc/ld.so.cache` and `var/cache/ldconfig/aux-cache` of an image, or the cache at another path.
///
/// A temporary file is in the directory of its slot's file. At most one is open: `create` makes it, and it ends when it is published, when
/// a call fails, or with the next `create`.
#[derive(Drop)]
pub struct SlotFiles<R: Runtime> {
    image: ImageFolder<R>,
    places: Places,
    run: RunId,
    temporary: Option<Temporary<R>>,
    // The stamp of the manifest that was read, if it was read: the inner None means that the image had none.
    manifest: Option<Option<Stamp>>,
    // Whether temporary files that earlier runs left were removed.
    is_clean: bool,
    // Whether one of them is this user's own and can't be removed.
    has_left: bool,
    written: Written,
}

impl<R: Runtime> SlotFiles<R> {
    /// The slots of the image in the directory `root`, at these paths in it.
    pub fn new(rt: R, root: &str, run: RunId, paths: SlotPaths) -> Result<SlotFiles<R>, NoMemory> {
        SlotFiles::at(rt, root, run, Places::Image(paths))
    }

    /// Only the slot of the auxiliary cache, whose file has this name in the directory `root`.
    pub fn of_aux(rt: R, root: &str, run: RunId, name: String) -> Result<SlotFiles<R>, NoMemory> {
        SlotFiles::at(rt, root, run, Places::Aux(name))
    }

    fn at(rt: R, root: &str, run: RunId, places: Places) -> Result<SlotFiles<R>, NoMemory> {
        let image = ImageFolder::new(rt, root)?;
        Ok(SlotFiles {
            image,
            places,
            run,
            temporary: None,
            manifest: None,
            is_clean: false,
            has_left: false,
            written: Written::default(),
        })
    }

    /// The cache's file, below the root.
    pub fn cache_file(&self) -> &str {
        self.places.file_of(Slot::Cache)
    }

    /// What was replaced, and the entry counts of the caches.
    pub fn written(&self) -> Written {
        self.written
    }
}

impl<R: Runtime> SlotFiles<R>
where
    R::File: HeldFile,
{
    /// The bytes of a slot's file, or None if it doesn't exist. If a manifest is too long, only enough is read to show that. If a file is
    /// not a cache, only its first bytes are read.
    pub fn read(&mut self, alloc: Global, slot: Slot) -> io::Result<Option<Vec<u8>>> {
        match self.open_slot(slot)? {
            Some((file, stamp)) => Ok(Some(read_slot(alloc, slot, file, stamp.size)?)),
            None => Ok(None),
        }
    }

    // Opens a slot's file, if there is one.
    fn open_slot(&mut self, slot: Slot) -> io::Result<Option<(R::File, Stamp)>> {
        match self.image.open(self.places.file_of(slot)) {
            Ok((file, stamp)) => {
                self.note_read(slot, Some(stamp));
                Ok(Some((file, stamp)))
            }
            Err(error) if is_missing(error.kind()) => {
                self.note_read(slot, None);
                Ok(None)
            }
            Err(error) => Err(error),
        }
    }

    // From here on, this is the manifest that was read.
    fn note_read(&mut self, slot: Slot, found: Option<Stamp>)
        ensures manifest { slot ≡ Slot.Manifest → self.new.manifest ≡ Some found }
        ensures length { slot ≡ Slot.Manifest → self.new.written.manifest_length ≡ option_map (λ stamp. stamp.size) found }
        ensures others { slot ≢ Slot.Manifest → self.new.manifest ≡ self.old.manifest }
    {
        if slot == Slot::Manifest {
            self.manifest = Some(found);
            self.written.manifest_length = found.map(|stamp| stamp.size);
        }
    }

    /// Returns an error if it is known before writing that the slot's file can't be replaced: a directory is in its place, or another file
    /// is in the place of its directory. A directory that is missing is made by `create`.
    pub fn require_place(&mut self, slot: Slot) -> io::Result<()> {
        let (folder, name) = self.places.place_of(slot);
        match self.image.enter(folder, Missing::IsFault) {
            Ok(()) => require_no_folder(self.image.look(name)),
            Err(error) if error.kind() == ErrorKind::NotADirectory => Err(error),
            Err(_) => Ok(()),
        }
    }

    /// Makes an empty temporary file, and the directories that it needs.
    pub fn create(&mut self, tag: Tag, slot: Slot) -> io::Result<()> {
        self.discard();
        self.clean();
        self.require_removed(slot)?;
        let (folder, _) = self.places.place_of(slot);
        self.image.enter(folder, Missing::IsMade)?;
        let existing = self.look_at_slot(slot)?;
        self.begin(tag, slot, existing)
    }

    // Makes an empty temporary file in the directory that was entered.
    fn begin(&mut self, tag: Tag, slot: Slot, existing: Option<Existing>) -> io::Result<()> {
        let mode = mode_after(slot, existing);
        let (_, slot_name) = self.places.place_of(slot);
        let (name, path, file) = make_own(&self.image, slot_name, tag, self.run)?;
        let done = hand_over(&file, existing, mode);
        self.temporary = Some(Temporary {
            tag,
            slot,
            name,
            path,
            file,
            mode,
        });
        done
    }

    // What the new file takes over from the slot's file, if there is one.
    fn look_at_slot(&mut self, slot: Slot) -> io::Result<Option<Existing>> {
        let (_, name) = self.places.place_of(slot);
        let found = self.image.look(name)?;
        if slot == Slot::Cache {
            self.written.entries_before = self.entries_there();
        }
        Ok(found.and_then(|found| existing_of(&found)))
    }

    // The entry count of the cache at the current path.
    fn entries_there(&self) -> Option<u32> {
        head_entries(&self.image.rt, self.image.path())
    }

    // Removes the temporary files of runs that have ended, once.
    fn clean(&mut self) {
        if !self.is_clean {
            self.is_clean = true;
            for slot in [Slot::Manifest, Slot::Cache, Slot::Aux] {
                if self.places.has(slot) && self.clean_next_to(slot).unwrap_or(false) {
                    self.has_left = true;
                }
            }
        }
    }

    // Returns an error if a temporary file for this slot can't be removed. Otherwise each run would leave one more in such a directory.
    fn require_removed(&mut self, slot: Slot) -> io::Result<()> {
        if self.has_left && self.clean_next_to(slot).unwrap_or(false) {
            go_to_file(&mut self.image, self.places.place_of(slot))?;
            return Err(left_behind());
        }
        Ok(())
    }

    // Removes the temporary files for this slot, and returns whether one of this user's own stays.
    fn clean_next_to(&mut self, slot: Slot) -> io::Result<bool> {
        let (folder, name) = self.places.place_of(slot);
        self.image.enter(folder, Missing::IsFault)?;
        let path = self.image.path_next_to("")?;
        remove_left(&self.image.rt, path.as_str(), name)
    }

    // The open temporary file of this tag and slot.
    fn opened(&mut self, tag: Tag, slot: Slot) -> io::Result<&mut Temporary<R>>
        ensures { IfOk result (λ _. IsSomeAnd self.old.temporary (λ t. (t.tag ≡ tag) × (t.slot ≡ slot))) }
    {
        go_to_file(&mut self.image, self.places.place_of(slot))?;
        match &mut self.temporary {
            Some(temporary) if temporary.tag == tag && temporary.slot == slot => Ok(temporary),
            _ => Err(Error::new(ErrorKind::NotFound, "no temporary file is open")),
        }
    }

    /// Adds bytes to the temporary file.
    pub fn append(&mut self, tag: Tag, slot: Slot, bytes: &[u8]) -> io::Result<()> {
        let limit = file_limit(&self.image.rt);
        let temporary = self.opened(tag, slot)?;
        write_within(&mut temporary.file, limit, bytes)?;
        if slot == Slot::Cache {
            self.written.entries = entries_in(bytes);
            self.written.searchable = strings_in(bytes).is_some_and(is_searchable);
        }
        Ok(())
    }

    /// Flushes the temporary file to stable storage.
    pub fn sync(&mut self, tag: Tag, slot: Slot) -> io::Result<()> {
        let temporary = self.opened(tag, slot)?;
        flush(&temporary.file, temporary.mode)
    }

    /// Renames the temporary file to the slot's file.
    pub fn publish(&mut self, tag: Tag, slot: Slot) -> io::Result<()> {
        self.opened(tag, slot)?;
        if self.may_replace(slot)? {
            self.replace(slot)?;
        } else {
            self.discard();
        }
        self.written.note(slot);
        Ok(())
    }

    // Whether to replace the slot's file. It is not replaced if another update wrote the same bytes meanwhile. It is an error if the
    // manifest is another than the one that was read, because that one would be lost.
    fn may_replace(&mut self, slot: Slot) -> io::Result<bool> {
        if slot != Slot::Manifest {
            return Ok(true);
        }
        let (_, name) = self.places.place_of(slot);
        let now = self.image.look(name)?.map(|found| stamp_of(&found));
        if is_as_read(self.manifest, now) {
            return Ok(true);
        }
        if !self.has_new_bytes()? {
            return Err(changed());
        }
        self.manifest = Some(now);
        Ok(false)
    }

    // Whether the file at the current path has the bytes of the temporary file.
    fn has_new_bytes(&self) -> io::Result<bool> {
        match &self.temporary {
            Some(temporary) => has_bytes_of(&self.image.rt, self.image.path(), &temporary.file),
            None => Ok(false),
        }
    }

    fn replace(&mut self, slot: Slot) -> io::Result<()> {
        if let Some(temporary) = &self.temporary {
            let (_, name) = self.places.place_of(slot);
            rename_next_to(&self.image, temporary.name.as_str(), name)?;
            if slot == Slot::Manifest {
                // Renaming changes the stamp.
                self.manifest = stamp_in(&temporary.file);
            }
        }
        self.temporary = None;
        Ok(())
    }

    /// Flushes the root and the directories on the way to a slot's file, because `create` may have made some of them.
    pub fn settle(&mut self, slot: Slot) -> io::Result<()> {
        let (folder, _) = self.places.place_of(slot);
        self.image.enter(folder, Missing::IsFault)?;
        self.image.sync_folders()
    }

    // Removes the temporary file that is open.
    fn discard(&mut self) {
        if let Some(temporary) = &self.temporary {
            let (folder, _) = self.places.place_of(temporary.slot);
            let _ = remove_in(&mut self.image, folder, temporary);
        }
        self.temporary = None;
    }
}

impl<R: Runtime + Streams> SlotFiles<R>
where
    R::File: HeldFile,
{
    /// Writes on the error output which call failed and why, and removes the temporary file that is open.
    pub fn fail(&mut self, call: &str, error: Error) {
        self.image.write_error_line(call, error);
        self.discard();
    }
}

// Returns an error if this is a directory. If it can't be looked at, a later call says why.
fn require_no_folder(found: io::Result<Option<Metadata>>) -> io::Result<()> {
    match found {
        Ok(Some(found)) if found.is_dir() => Err(Error::new(
            ErrorKind::IsADirectory,
            "a directory in place of a regular file",
        )),
        _ => Ok(()),
    }
}

// Returns an error if the file would become longer than this program may make one, so that no SIGXFSZ is raised.
fn require_room<F: OpenFile>(file: &F, limit: Option<u64>, more: usize) -> io::Result<()> {
    if limit.is_none() || has_room(limit, file.metadata()?.len(), more) {
        Ok(())
    } else {
        Err(too_long())
    }
}

// Writes bytes to a file, unless it would become longer than the limit.
fn write_within<F: OpenFile + Write>(
    file: &mut F,
    limit: Option<u64>,
    bytes: &[u8],
) -> io::Result<()> {
    require_room(file, limit, bytes.len())?;
    file.write_all(bytes)
}

// Sets the file's mode, because it is complete now, and flushes it.
fn flush<F: OpenFile>(file: &F, mode: u32) -> io::Result<()> {
    if mode_until_whole(mode) != mode {
        file.set_permissions(Permissions::from_mode(mode))?;
    }
    file.sync_all()
}

// From here on, faults are about the file of this name in this directory.
fn go_to_file<R: Runtime>(image: &mut ImageFolder<R>, place: (&str, &str)) -> io::Result<()>
where
    R::File: HeldFile,
{
    let (folder, name) = place;
    image.enter(folder, Missing::IsFault)?;
    image.go_to(name)?;
    Ok(())
}

// Removes a temporary file in this directory. If memory is gone, its path at its creation serves, because its directory is still open then.
fn remove_in<R: Runtime>(
    image: &mut ImageFolder<R>,
    folder: &str,
    temporary: &Temporary<R>,
) -> io::Result<()>
where
    R::File: HeldFile,
{
    image.enter(folder, Missing::IsFault)?;
    match image.path_next_to(temporary.name.as_str()) {
        Ok(path) => image.rt.remove_file(path.as_str()),
        Err(_) => image.rt.remove_file(temporary.path.as_str()),
    }
}

// Renames a file in the directory that was entered.
fn rename_next_to<R: Runtime>(image: &ImageFolder<R>, from: &str, to: &str) -> io::Result<()> {
    let from = image.path_next_to(from)?;
    rename_to(image, from.as_str(), to)
}

fn rename_to<R: Runtime>(image: &ImageFolder<R>, from: &str, to: &str) -> io::Result<()> {
    let to = image.path_next_to(to)?;
    image.rt.rename(from, to.as_str())
}

// The stamp of an open manifest, if it can be read.
fn stamp_in<F: OpenFile>(file: &F) -> Option<Option<Stamp>> {
    match file.metadata() {
        Ok(found) => Some(Some(stamp_of(&found))),
        Err(_) => None,
    }
}

// The mode of a slot's new file.
fn mode_after(slot: Slot, existing: Option<Existing>) -> u32
    ensures { result ≡ mode_of slot (option_map (λ e. e.mode) existing) }
{
    match existing {
        Some(existing) => mode_of(slot, Some(existing.mode)),
        None => mode_of(slot, None),
    }
}

fn owner_in(existing: Option<Existing>) -> Option<Owner>
    ensures { result ≡ option_map (λ e. e.owner) existing }
{
    match existing {
        Some(existing) => Some(existing.owner),
        None => None,
    }
}

// Gives a new file the owner of the file that it replaces, if possible, and the mode for the time while it is written.
fn hand_over<F: OpenFile + HeldFile>(
    file: &F,
    existing: Option<Existing>,
    mode: u32,
) -> io::Result<()> {
    let made = file.metadata()?;
    if let Some(owner) = owner_to_give(owner_of(&made), owner_in(existing)) {
        let _ = file.give_to(owner.user, owner.group);
    }
    file.set_permissions(Permissions::from_mode(mode_until_whole(mode)))
}

// Whether the file at a path has the bytes of this open file.
fn has_bytes_of<R: Runtime>(rt: &R, path: &str, file: &R::File) -> io::Result<bool>
where
    R::File: HeldFile,
{
    match open_file(rt, path) {
        Ok((other, stamp)) => {
            let length = file.metadata()?.len();
            Ok(length == stamp.size && have_same_bytes(&other, file, length)?)
        }
        Err(error) if is_missing(error.kind()) => Ok(false),
        Err(error) => Err(error),
    }
}

// The bytes to read of a slot's file of this length.
fn read_slot<F: HeldFile + Read + Drop>(
    alloc: Global,
    slot: Slot,
    file: F,
    size: u64,
) -> io::Result<Vec<u8>> {
    let is_cache = slot == Slot::Cache && begins_cache(&file, size)?;
    read_part(alloc, slot, is_cache, file, size)
}

// The same, if it is known whether the file begins like a cache.
fn read_part<F: Read + Drop>(
    alloc: Global,
    slot: Slot,
    is_cache: bool,
    mut file: F,
    size: u64,
) -> io::Result<Vec<u8>>
    ensures { IfOk result (λ bytes. length_to_read slot is_cache size ≡ Some (length bytes.items)) }
{
    let Some(length) = length_to_read(slot, is_cache, size) else {
        let text = too_large(alloc, slot)?;
        return Err(Error::new(ErrorKind::FileTooLarge, text.as_str()));
    };
    let mut bytes = vec![in alloc; 0u8; length as usize]?;
    read_whole(&mut file, &mut bytes)?;
    Ok(bytes)
}

// Whether a file of this length begins like a cache.
fn begins_cache<F: HeldFile>(file: &F, length: u64) -> io::Result<bool> {
    let mut head = [0u8; HEAD_SIZE];
    if length < HEAD_SIZE as u64 {
        return Ok(false);
    }
    file.read_exact_at(&mut head, 0).map_err(shorter)?;
    Ok(entries_in(&head).is_some())
}

// Why a slot's file can't be read.
fn too_large(alloc: Global, slot: Slot) -> Result<String, AllocError> {
    let most = largest(slot);
    format!(in alloc; "more than {most} bytes")
}

// The entry count of the cache at a path, if its first bytes have one.
fn head_entries<R: Runtime>(rt: &R, path: &str) -> Option<u32>
where
    R::File: HeldFile,
{
    let (mut file, _) = open_file(rt, path).ok()?;
    let mut head = [0u8; HEAD_SIZE];
    read_whole(&mut file, &mut head).ok()?;
    entries_in(&head)
}
