//! Looks up the paths that a path resolution needs.
ghost use Rattle.std.specs.Prelude.{◌≡◌, [], IfOk, IsErrOf, OnOk};
ghost use Rattle.std.specs.Option.{option_copied};
ghost use Rattle.image_tree.specs.Paths.{components};
ghost use Rattle.looked_tree.specs.Halts.{GoesOn, HaltsAt, IsStep, stepped};
ghost use Rattle.looked_tree.specs.Looked.{IsLookedOf, Loads};
ghost use Rattle.path_walk.specs.Names.{parent};
ghost use Rattle.path_walk.specs.Rest.{names_in};
ghost use Rattle.path_walk.specs.Walk.{at_file, at_link, is_plain_mode, start_of, steps, target_at};
ghost use Rattle.root_tree.specs.ReadTree.{ReadsOn};
ghost use Rattle.root_tree.specs.declared.fault.TreeRead.TheVariants as reads;
ghost use Rattle.seen_tree.specs.Part.{looked_by, passed};
ghost use Rattle.seen_tree.specs.Seen.{IsFull};
ghost use Rattle.tree_face.specs.Known.{IfKnown};

use crate::looked::LookedPart;
use lib_types::{NoMemory, Text};
use name_order::is_library_name;
use path_walk::{
    LINKS_MAX, Mode, is_plain_mode, join, joined, next_name, parent_of, start_of, target_of,
};
use root_folder::Folder;
use root_tree::TreeRead;
use std::alloc::Global;
use tree_face::{Kind, Tree};

/// Where a walk halts: at a file or a directory, nowhere, or at a link in this directory, which it must follow.
#[derive(Drop)]
enum Halt<'p> {
    Reached(Text),
    Nowhere,
    Link {
        place: Text,
        target: Text,
        rest: Option<&'p [u8]>,
    },
}

/// What follows a name: the walk goes on from a directory, or halts.
#[derive(Drop)]
enum Step<'p> {
    To(Text),
    Halts(Halt<'p>),
}

fn bytes_of(alloc: Global, text: &[u8]) -> Result<Vec<u8>, NoMemory>
    ensures { IfOk result (λ bytes. bytes.items ≡ text.now) }
{
    Ok(Vec::from_slice(alloc, text)?)
}

// A walk ends at a file. It ends nowhere if a name follows the file.
fn halt_at_file<'p>(path: Text, rest: Option<&'p [u8]>) -> Halt<'p>
    ensures { HaltsAt result (at_file (names_in (option_copied rest.entry)) path) }
{
    match next_name(rest) {
        Some(_) => Halt::Nowhere,
        None => Halt::Reached(path),
    }
}

// A walk must follow a link, unless the mode hides it.
fn halt_at_link<'p>(
    mode: Mode,
    name: &[u8],
    place: Text,
    target: Text,
    rest: Option<&'p [u8]>,
) -> Halt<'p>
    ensures { HaltsAt result (at_link mode name.now target (names_in (option_copied rest.entry)) place) }
{
    if is_plain_mode(mode) && is_library_name(name) {
        return Halt::Nowhere;
    }
    Halt::Link {
        place,
        target,
        rest,
    }
}

// What follows a name whose path has been looked up, according to the nodes that were found.
fn next_step<'p>(
    alloc: Global,
    tree: &Tree,
    mode: Mode,
    place: Text,
    name: &[u8],
    rest: Option<&'p [u8]>,
) -> Result<Step<'p>, NoMemory>
    ensures { IfOk result (IsStep tree.now mode name.now (names_in (option_copied rest.entry)) place) }
{
    let path = join(alloc, place.as_bytes(), name)?;
    match tree.kind(path.as_bytes()) {
        Kind::Dir => Ok(Step::To(path)),
        Kind::Absent => Ok(Step::Halts(Halt::Nowhere)),
        Kind::File => Ok(Step::Halts(halt_at_file(path, rest))),
        Kind::Link => {
            let target = target_of(alloc, tree, path.as_bytes())?;
            Ok(Step::Halts(halt_at_link(mode, name, place, target, rest)))
        }
    }
}

impl LookedPart {
    // Takes one step of a walk: looks up the path of a name in a directory, unless the name leads up.
    fn go<'p, F: Folder>(
        &mut self,
        folder: &mut F,
        mode: Mode,
        place: Text,
        name: &[u8],
        rest: Option<&'p [u8]>,
    ) -> Result<Step<'p>, TreeRead>
        ensures loads { OnOk result (Loads (λ t. stepped name.now place) (λ t. []) (F.state folder.old) (F.state folder.new) self.old self.new) }
        ensures goes { IfOk result (λ step. IfKnown (F.state folder.old).contents (λ c. IsLookedOf c.now self.old
            → GoesOn c.now mode name.now (names_in (option_copied rest.entry)) place step)) }
        ensures full { IsErrOf result reads.TooLarge → IsFull self.new.seen }
        ensures reads { ReadsOn result (F.state folder.old) (F.state folder.new) }
    {
        if name == b"..".as_slice() {
            return Ok(Step::To(parent_of(self.alloc, place.as_bytes())?));
        }
        let path = join(self.alloc, place.as_bytes(), name)?;
        self.see(folder, path.as_bytes())?;
        Ok(next_step(self.alloc, self.part.tree(), mode, place, name, rest)?)
    }

    // Looks up the paths of these names, starting in a directory, to the end of the walk or to the first link that it must follow.
    fn walk<'p, F: Folder>(
        &mut self,
        folder: &mut F,
        mode: Mode,
        start: Text,
        text: &'p [u8],
    ) -> Result<Halt<'p>, TreeRead>
        ensures loads { OnOk result (Loads (λ t. passed t (components text.now) start) (λ t. []) (F.state folder.old) (F.state folder.new) self.old self.new) }
        ensures halts { IfOk result (λ halt. IfKnown (F.state folder.old).contents (λ c. IsLookedOf c.now self.old
            → HaltsAt halt (steps c.now mode (components text.now) start))) }
        ensures full { IsErrOf result reads.TooLarge → IsFull self.new.seen }
        ensures reads { ReadsOn result (F.state folder.old) (F.state folder.new) }
    {
        let mut place = start;
        let mut left = Some(text);
        while let Some((name, rest)) = next_name(left) {
            match self.go(folder, mode, place, name, rest)? {
                Step::To(next) => place = next,
                Step::Halts(halt) => return Ok(halt),
            }
            left = rest;
        }
        Ok(Halt::Reached(place))
    }

    /// Looks up the paths that the resolution of this text needs.
    pub fn see_text<F: Folder>(
        &mut self,
        folder: &mut F,
        text: &[u8],
        mode: Mode,
    ) -> Result<(), TreeRead>
        ensures loads { OnOk result (Loads (λ t. looked_by t text.now mode) (λ t. []) (F.state folder.old) (F.state folder.new) self.old self.new) }
        ensures full { IsErrOf result reads.TooLarge → IsFull self.new.seen }
        ensures reads { ReadsOn result (F.state folder.old) (F.state folder.new) }
    {
        let mut place = Text::copy_of(self.alloc, b"/")?;
        let mut path = bytes_of(self.alloc, text)?;
        let mut links = LINKS_MAX + 1;
        while links > 0 {
            links -= 1;
            let (next, more) = match self.walk(folder, mode, place, &path)? {
                Halt::Reached(end) => return self.see(folder, end.as_bytes()),
                Halt::Nowhere => return Ok(()),
                Halt::Link {
                    place,
                    target,
                    rest,
                } => {
                    let more = joined(self.alloc, target.as_bytes(), rest)?;
                    (start_of(self.alloc, place, target.as_bytes())?, more)
                }
            };
            place = next;
            path = more;
        }
        Ok(())
    }
}
