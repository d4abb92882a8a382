//! The directory of an image on a file system, as a `Folder`.
ghost use Rattle.std.specs.Prelude.{◌≡◌, ◌↔◌, ◌≤◌, IfOk, IfSome, IsTrue, OnErr, OnOk};
ghost use Rattle.std.specs.Cmp.Lexicographic.{slice_cmp};
ghost use Rattle.std.specs.IoError.{error_kind};
ghost use Rattle.std.specs.List.Sorted.{IsStrictlySortedBy};
ghost use Rattle.std.specs.Ordering.{nat_cmp};
ghost use Rattle.std.specs.Result.{is_err};
ghost use Rattle.std.specs.declared.io.ErrorKind.TheVariants as kinds;
ghost use Rattle.image_tree.specs.Node.{is_node};
ghost use Rattle.lib_types.specs.Counts.{raised};
ghost use Rattle.root_folder.specs.declared.folder.FolderRead.TheVariants as reads;
ghost use Rattle.root_real.specs.Unknown.{no_counts, unknown_folder, unknown_moments};

use crate::extent::Extent;
use crate::links::{clean, make_link, settle};
use crate::listing::{Listing, device_of, list, passed_over};
use crate::nodes::look;
use crate::paths::{below_root, no_path};
use device_rules::{RunId, divided, is_out_of_memory};
use image_folder::{HeldFile, ImageFolder};
use lib_types::{Failed, NoMemory, Texts};
use root_folder::{Folder, FolderCounts, FolderRead};
use standard_streams::{Streams, write_error_line};
use std::alloc::Global;
use std::io::{self, Error};
use std::rt::Runtime;
use tree_face::{Node, Tag};

/// The directory ROOT of an image, or a directory of libraries on this machine, with a count of the calls that failed. A symbolic link in
/// it is never followed. Files on other file systems than the directory's, such as /proc, are left out.
#[derive(Drop)]
pub struct RootFolder<R: Runtime> {
    image: ImageFolder<R>,
    extent: Extent,
    // The directory, as it was given.
    root: String<R::A>,
    run: RunId,
    // The device of its file system, once it is known.
    device: Option<u64>,
    // The directory from which temporary links were removed last.
    cleaned: Option<String<R::A>>,
    counts: FolderCounts,
    faults: u64,
    // The number of faults in reading calls.
    read_faults: u64,
}

// The count plus one, saturating at its largest value.
fn one_more(count: u64) -> u64
    ensures { result ≡ raised count 1 }
{
    count.saturating_add(1)
}

impl<R: Runtime> RootFolder<R> {
    /// The directory `root` of an image. `run` makes the temporary names unique to this run.
    pub fn new(rt: R, root: &str, run: RunId) -> Result<RootFolder<R>, NoMemory>
        ensures { IfOk result (λ folder. unknown_folder folder.counts folder.faults folder.read_faults ≡ unknown_folder no_counts 0 0) }
    {
        let name = String::from_str(rt.alloc(), root)?;
        let image = ImageFolder::new(rt, root)?;
        Ok(RootFolder::over(image, Extent::Whole, name, run))
    }

    /// The directory `dir` of this machine, as a tree with the libraries in it and in its glibc-hwcaps subdirectories. In this tree, a link
    /// whose target is absolute or has a component `..` leads to no file. Lines name files by their path, which begins with `dir`.
    pub fn of_libraries(rt: R, dir: &str, run: RunId) -> Result<RootFolder<R>, NoMemory>
        ensures { IfOk result (λ folder. unknown_folder folder.counts folder.faults folder.read_faults ≡ unknown_folder no_counts 0 0) }
    {
        let name = String::from_str(rt.alloc(), dir)?;
        let image = ImageFolder::of_machine(rt, dir)?;
        Ok(RootFolder::over(image, Extent::Libraries, name, run))
    }

    // No call was made yet.
    fn over(image: ImageFolder<R>, extent: Extent, root: String<R::A>, run: RunId) -> RootFolder<R>
        ensures { unknown_folder result.counts result.faults result.read_faults ≡ unknown_folder no_counts 0 0 }
    {
        RootFolder {
            image,
            extent,
            root,
            run,
            device: None,
            cleaned: None,
            counts: FolderCounts {
                lists: 0,
                looks: 0,
                links: 0,
                settles: 0,
            },
            faults: 0,
            read_faults: 0,
        }
    }
}

impl<R: Runtime + Streams> RootFolder<R>
where
    R::File: HeldFile,
{
    // Writes the line that a call failed. It names the image's own directory by the path that was given.
    fn write_line(&self, call: &str, error: Error) {
        match self.image.name() {
            Ok(name) if name.as_str() != "." => {
                write_error_line(&self.image.rt, name.as_str(), call, error)
            }
            _ => write_error_line(&self.image.rt, self.root.as_str(), call, error),
        }
    }

    // The fault of a reading. It is counted unless memory ran out.
    fn read_fault(&mut self, error: Error) -> FolderRead
        ensures counts { self.new.counts ≡ self.old.counts }
        ensures faults { self.old.faults ≤ self.new.faults }
        ensures read_faults { self.old.read_faults ≤ self.new.read_faults }
        ensures which { (result ≡ reads.NoMemory) ↔ (error_kind error ≡ kinds.OutOfMemory) }
        ensures no_memory { result ≡ reads.NoMemory → (self.new.faults ≡ self.old.faults) × (self.new.read_faults ≡ self.old.read_faults) }
        ensures failed { result ≡ reads.Failed → (self.new.faults ≡ raised self.old.faults 1) × (self.new.read_faults ≡ raised self.old.read_faults 1) }
    {
        if is_out_of_memory(error.kind()) {
            return FolderRead::NoMemory;
        }
        self.write_line("", error);
        self.faults = one_more(self.faults);
        self.read_faults = one_more(self.read_faults);
        FolderRead::Failed
    }

    // The result of a writing call. A failure is counted.
    fn result(&mut self, call: &str, done: io::Result<()>) -> Result<(), Failed>
        ensures same { is_err result ≡ is_err done }
        ensures faults { self.old.faults ≤ self.new.faults }
        ensures counts { self.new.counts ≡ self.old.counts }
        ensures done { OnOk result (self.new.faults ≡ self.old.faults) }
        ensures failed { OnErr result (self.new.faults ≡ raised self.old.faults 1) }
        ensures read_faults { self.new.read_faults ≡ self.old.read_faults }
    {
        match done {
            Ok(()) => Ok(()),
            Err(error) => {
                self.write_line(call, error);
                self.faults = one_more(self.faults);
                Err(Failed)
            }
        }
    }

    // The device of the directory's file system, which is read once.
    fn device(&mut self) -> io::Result<u64>
        ensures counts { self.new.counts ≡ self.old.counts }
        ensures faults { self.new.faults ≡ self.old.faults }
        ensures read_faults { self.new.read_faults ≡ self.old.read_faults }
    {
        if let Some(device) = self.device {
            return Ok(device);
        }
        let device = device_of(&mut self.image)?;
        self.device = Some(device);
        Ok(device)
    }

    // Makes a link. Before the first link in a directory, temporary links that earlier runs left there are removed. A run that is stopped
    // before has not made a link there, so the next run removes them too. The links of a directory are next to each other in a plan.
    fn make(&mut self, tag: Tag, path: &[u8], target: &[u8]) -> io::Result<()>
        ensures counts { self.new.counts ≡ self.old.counts }
        ensures faults { self.new.faults ≡ self.old.faults }
        ensures read_faults { self.new.read_faults ≡ self.old.read_faults }
    {
        let Some(below) = below_root(path) else {
            return Err(no_path());
        };
        let (dir, _) = divided(below);
        if !self.is_clean(dir) {
            clean(&mut self.image, dir)?;
            self.cleaned = Some(String::from_str(self.image.rt.alloc(), dir)?);
        }
        make_link(&mut self.image, self.run, tag, path, target)
    }

    fn is_clean(&self, dir: &str) -> bool {
        match &self.cleaned {
            Some(cleaned) => cleaned.as_str() == dir,
            None => false,
        }
    }

    // The names in a directory.
    fn listing_of(&mut self, alloc: Global, dir: &[u8]) -> io::Result<Listing>
        ensures counts { self.new.counts ≡ self.old.counts }
        ensures faults { self.new.faults ≡ self.old.faults }
        ensures read_faults { self.new.read_faults ≡ self.old.read_faults }
        ensures sorted { IfOk result (λ listing. IsStrictlySortedBy (slice_cmp nat_cmp) listing.names) }
    {
        let device = self.device()?;
        list(alloc, &mut self.image, device, self.extent, dir)
    }

    // The node at a path.
    fn node_at(&mut self, alloc: Global, path: &[u8]) -> io::Result<Option<Node>>
        ensures counts { self.new.counts ≡ self.old.counts }
        ensures faults { self.new.faults ≡ self.old.faults }
        ensures read_faults { self.new.read_faults ≡ self.old.read_faults }
        ensures valid { IfOk result (λ found. IfSome found (λ node. IsTrue (is_node node))) }
    {
        look(alloc, &mut self.image, self.extent, path)
    }
}

impl<R: Runtime + Streams> Folder for RootFolder<R>
where
    R::File: HeldFile,
{
    ghost state = { λ f. unknown_folder f.counts f.faults f.read_faults };

    ghost moments = { λ f. unknown_moments f.counts f.faults f.read_faults };

    ghost whole = { λ _. tt };

    fn names(&mut self, alloc: Global, dir: &[u8]) -> Result<Texts, FolderRead> {
        self.counts.lists = one_more(self.counts.lists);
        match self.listing_of(alloc, dir) {
            Ok(listing) => {
                if listing.has_other {
                    self.write_line("", passed_over());
                }
                Ok(listing.names)
            }
            Err(error) => Err(self.read_fault(error)),
        }
    }

    fn look(&mut self, alloc: Global, path: &[u8]) -> Result<Option<Node>, FolderRead> {
        self.counts.looks = one_more(self.counts.looks);
        match self.node_at(alloc, path) {
            Ok(found) => Ok(found),
            Err(error) => Err(self.read_fault(error)),
        }
    }

    #[tactic(auto, using(crate::proofs::UnknownCalls::adds_link))]
    fn link(&mut self, tag: Tag, path: &[u8], target: &[u8]) -> Result<(), Failed> {
        self.counts.links = one_more(self.counts.links);
        let done = self.make(tag, path, target);
        self.result("link: ", done)
    }

    #[tactic(auto, using(crate::proofs::UnknownCalls::settles))]
    fn settle(&mut self, dir: &[u8]) -> Result<(), Failed> {
        self.counts.settles = one_more(self.counts.settles);
        let done = settle(&mut self.image, dir);
        self.result("settle: ", done)
    }
}
