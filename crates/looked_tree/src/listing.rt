//! Lists a directory, and looks up the names in it that pass a test.
ghost use Rattle.std.specs.Prelude.{◌≡◌, ◌∷◌, ℕ, Bool, List, [], true, IfOk, IsErrOf, OnOk, false, filter, map};
ghost use Rattle.indexmap.specs.IndexMap.{insert_entry};
ghost use Rattle.std.specs.Str.{bytes_eq};
ghost use Rattle.image_tree.specs.Paths.{join};
ghost use Rattle.image_tree.specs.Tree.{children_of};
ghost use Rattle.looked_tree.specs.Looked.{IsLookedOf, Loads, is_dir, is_listed, names_at};
ghost use Rattle.root_tree.specs.ReadTree.{ReadsOn};
ghost use Rattle.root_tree.specs.declared.fault.TreeRead.TheVariants as reads;
ghost use Rattle.seen_tree.specs.Part.{dirs_at, listed};
ghost use Rattle.seen_tree.specs.Seen.{IsFull};
ghost use Rattle.tree_face.specs.Known.{IfKnown};

use crate::fault::fault_at;
use crate::looked::LookedPart;
use indexmap::IndexMap;
use lib_types::{NoMemory, Text, TextRef, Texts};
use path_walk::join;
use root_folder::Folder;
use root_tree::TreeRead;
use std::alloc::Global;
use tree_face::Kind;

/// A test of names.
pub trait NameTest {
    ghost test: { Self → List ℕ → Bool };

    fn passes(&self, name: &[u8]) -> bool
        ensures { result ≡ test self.now name.now };
}

fn is_dir(kind: Kind) -> bool
    ensures { result ≡ is_dir kind }
{
    match kind {
        Kind::Dir => true,
        Kind::Absent | Kind::File | Kind::Link => false,
    }
}

// Whether a directory was listed.
fn has_listed(lists: &IndexMap<Text, Texts>, dir: &[u8]) -> bool
    ensures { result ≡ is_listed lists.now.entries dir.now }
{
    lists.contains_key(TextRef { bytes: dir })
}

// Adds the names of a directory.
fn add_names(lists: &mut IndexMap<Text, Texts>, dir: Text, names: Texts) -> Result<(), NoMemory>
    ensures { OnOk result (lists.new.entries ≡ insert_entry bytes_eq lists.old.entries dir names) }
{
    lists.insert(dir, names)?;
    Ok(())
}

// Copies of those of the names that pass a test.
fn kept_in<T: NameTest>(alloc: Global, names: &[Text], test: &T) -> Result<Texts, NoMemory>
    ensures { IfOk result (λ kept. kept ≡ filter (T.test test.now) names.now) }
{
    let mut kept = Texts::new(alloc);
    for name in names {
        if test.passes(name.as_bytes()) {
            kept.push(Text::copy_of(alloc, name.as_bytes())?)?;
        }
    }
    Ok(kept)
}

impl LookedPart {
    // Lists a directory for the first time.
    fn list_new<F: Folder>(&mut self, folder: &mut F, dir: &[u8]) -> Result<(), TreeRead>
        requires { is_listed self.old.lists dir.now ≡ false }
        ensures loads { OnOk result (Loads (λ t. []) (λ t. dir.now ∷ []) (F.state folder.old) (F.state folder.new) self.old self.new) }
        ensures there { OnOk result (is_listed self.new.lists dir.now ≡ true) }
        ensures full { IsErrOf result reads.TooLarge → IsFull self.new.seen }
        ensures reads { ReadsOn result (F.state folder.old) (F.state folder.new) }
    {
        let at = Text::copy_of(self.alloc, dir)?;
        match folder.names(self.alloc, dir) {
            Ok(names) => {
                add_names(&mut self.names, at, names)?;
                Ok(())
            }
            Err(fault) => Err(fault_at(fault, at)),
        }
    }

    // Lists a directory, unless it was listed before.
    #[tactic(auto, using(crate::proofs::Lists::lists_again))]
    fn list_once<F: Folder>(&mut self, folder: &mut F, dir: &[u8]) -> Result<(), TreeRead>
        ensures loads { OnOk result (Loads (λ t. []) (λ t. dir.now ∷ []) (F.state folder.old) (F.state folder.new) self.old self.new) }
        ensures there { OnOk result (is_listed self.new.lists dir.now ≡ true) }
        ensures full { IsErrOf result reads.TooLarge → IsFull self.new.seen }
        ensures reads { ReadsOn result (F.state folder.old) (F.state folder.new) }
    {
        if has_listed(&self.names, dir) {
            return Ok(());
        }
        self.list_new(folder, dir)
    }

    // Looks up the paths of these names in a directory.
    fn see_names<F: Folder>(
        &mut self,
        folder: &mut F,
        dir: &[u8],
        names: &[Text],
    ) -> Result<(), TreeRead>
        ensures loads { OnOk result (Loads (λ t. map (join dir.now) names.now) (λ t. []) (F.state folder.old) (F.state folder.new) self.old self.new) }
        ensures full { IsErrOf result reads.TooLarge → IsFull self.new.seen }
        ensures reads { ReadsOn result (F.state folder.old) (F.state folder.new) }
    {
        for name in names {
            let path = join(self.alloc, dir, name.as_bytes())?;
            self.see(folder, path.as_bytes())?;
        }
        Ok(())
    }

    /// The names in a directory that was listed, if they pass a test. None if the directory wasn't listed.
    pub fn names_in<T: NameTest>(&self, dir: &[u8], test: &T) -> Result<Texts, NoMemory>
        ensures { IfOk result (λ names. names ≡ filter (T.test test.now) (names_at self.now.lists dir.now)) }
    {
        match self.names.get(TextRef { bytes: dir }) {
            Some(names) => kept_in(self.alloc, names.as_slice(), test),
            None => Ok(Texts::new(self.alloc)),
        }
    }

    /// Lists a directory, and looks up the names in it that pass a test. Returns these names. Nothing is listed if the path isn't a
    /// directory.
    pub fn list<F: Folder, T: NameTest>(
        &mut self,
        folder: &mut F,
        dir: &[u8],
        test: &T,
    ) -> Result<Texts, TreeRead>
        ensures loads { OnOk result (Loads (λ t. listed (T.test test.now) t dir.now) (λ t. dirs_at t dir.now) (F.state folder.old) (F.state folder.new) self.old self.new) }
        ensures names { IfOk result (λ names. IfKnown (F.state folder.old).contents (λ c. IsLookedOf c.now self.old
            → names ≡ filter (T.test test.now) (children_of c.now dir.now))) }
        ensures full { IsErrOf result reads.TooLarge → IsFull self.new.seen }
        ensures reads { ReadsOn result (F.state folder.old) (F.state folder.new) }
    {
        self.see(folder, dir)?;
        if !is_dir(self.part.kind(dir)) {
            return Ok(Texts::new(self.alloc));
        }
        self.list_once(folder, dir)?;
        let names = self.names_in(dir, test)?;
        self.see_names(folder, dir, names.as_slice())?;
        Ok(names)
    }
}
