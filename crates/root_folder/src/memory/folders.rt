//! The directory of an image in memory.
ghost use Rattle.std.specs.Prelude.{◌≡◌, ◌++◌, ◌∷◌, [], List, None, IfOk, IfSome, IsTrue, MatchResult, OnErr, OnOk, false, true, is_some, if◌then◌else◌};
ghost use Rattle.std.specs.Cmp.Lexicographic.{slice_cmp};
ghost use Rattle.std.specs.List.Sorted.{IsStrictlySortedBy};
ghost use Rattle.std.specs.Option.{option_copied};
ghost use Rattle.std.specs.Ordering.{nat_cmp};
ghost use Rattle.std.specs.Result.{is_err};
ghost use Rattle.lib_types.specs.Counts.{raised};
ghost use Rattle.image_tree.specs.Node.{is_node, is_target};
ghost use Rattle.image_tree.specs.Paths.{is_path};
ghost use Rattle.image_tree.specs.Tree.{children_of, node_at, put};
ghost use Rattle.image_tree.specs.declared.node.Node.TheVariants.{Link};
ghost use Rattle.root_folder.specs.Crash.{AddsLink, IsSettled, Settles};
ghost use Rattle.root_folder.specs.Failures.{plan_of};
ghost use Rattle.root_folder.specs.Folder.{Does, GivesNames, GivesNode, KeepsContent, Links, MayLink, Reads, SettlesIn};
ghost use Rattle.root_folder.specs.Whole.{are_in_dirs, can_link};
ghost use Rattle.root_folder.specs.declared.folder.FolderCall.TheVariants as calls;
ghost use Rattle.root_folder.specs.declared.memory.past.Change.{Change};
ghost use Rattle.root_folder.specs.declared.memory.past.Change.TheVariants.{Linked};
ghost use Rattle.tree_face.specs.Failures.{FollowsPlan, stopping_after};
ghost use Rattle.tree_face.specs.Follows.{IsFollowedBy, IsFollowedByPart};

use super::failures::Failures;
use super::past::{Change, may_leave};
use crate::whole_tree::WholeTree;
use crate::{Folder, FolderCall, FolderCounts, FolderRead};
use lib_types::{Failed, NoMemory, Text, Texts};
use std::alloc::Global;
use tree_face::{Node, Tag, Tree};

/// The directory of an image in memory. Its calls can be made to fail.
#[derive(Drop)]
pub struct MemFolder {
    alloc: Global,
    tree: WholeTree,
    changes: Vec<Change>,
    calls: Vec<FolderCall>,
    counts: FolderCounts,
    failures: Failures,
}

fn names_call(alloc: Global, dir: &[u8]) -> Result<FolderCall, NoMemory>
    ensures { IfOk result (λ call. call ≡ calls.Names dir.now) }
{
    let dir = Text::copy_of(alloc, dir)?;
    Ok(FolderCall::Names { dir })
}

fn look_call(alloc: Global, path: &[u8]) -> Result<FolderCall, NoMemory>
    ensures { IfOk result (λ call. call ≡ calls.Look path.now) }
{
    let path = Text::copy_of(alloc, path)?;
    Ok(FolderCall::Look { path })
}

fn link_call(alloc: Global, tag: Tag, path: &[u8], target: &[u8]) -> Result<FolderCall, NoMemory>
    ensures { IfOk result (λ call. call ≡ calls.Link tag path.now target.now) }
{
    let path = Text::copy_of(alloc, path)?;
    let target = Text::copy_of(alloc, target)?;
    Ok(FolderCall::Link { tag, path, target })
}

fn settle_call(alloc: Global, dir: &[u8]) -> Result<FolderCall, NoMemory>
    ensures { IfOk result (λ call. call ≡ calls.Settle dir.now) }
{
    let dir = Text::copy_of(alloc, dir)?;
    Ok(FolderCall::Settle { dir })
}

// Adds a call to the list.
fn add_call(list: &mut Vec<FolderCall>, call: FolderCall) -> Result<(), NoMemory>
    ensures { MatchResult result (λ _. list.new.items ≡ list.old.items ++ call ∷ []) (λ _. list.new.items ≡ list.old.items) }
{
    list.push(call)?;
    Ok(())
}

// Adds a change to the list.
fn add_change(list: &mut Vec<Change>, change: Change) -> Result<(), NoMemory>
    ensures { MatchResult result (λ _. list.new.items ≡ list.old.items ++ change ∷ []) (λ _. list.new.items ≡ list.old.items) }
{
    list.push(change)?;
    Ok(())
}

// Takes the last change from the list.
fn remove_last(list: &mut Vec<Change>)
    ensures { (changes : List Change) (change : Change) → list.old.items ≡ changes ++ change ∷ [] → list.new.items ≡ changes }
{
    let _ = list.pop();
}

// Makes a link and records the change, or does nothing.
fn put_link(
    alloc: Global,
    tree: &mut WholeTree,
    changes: &mut Vec<Change>,
    path: &[u8],
    target: &[u8],
) -> Result<(), NoMemory>
    requires path { IsTrue (is_path path.now) }
    requires target { IsTrue (is_target target.now) }
    requires room { can_link tree.old.tree path.now ≡ true }
    ensures tree { MatchResult result (λ _. tree.new.tree ≡ put tree.old.tree path.now (Link target.now)) (λ _. tree.new.tree ≡ tree.old.tree) }
    ensures changes { MatchResult result (λ _. changes.new.items ≡ changes.old.items ++ Linked path.now (node_at tree.old.tree path.now) ∷ [])
        (λ _. changes.new.items ≡ changes.old.items) }
{
    let before = tree.copy_of(alloc, path)?;
    let link = Text::copy_of(alloc, target)?;
    let change = Change::Linked {
        path: Text::copy_of(alloc, path)?,
        before,
    };
    add_change(changes, change)?;
    if tree.put_link(path, link).is_err() {
        remove_last(changes);
        return Err(NoMemory);
    }
    Ok(())
}

// The result of a writing call. An error is counted as a fault.
fn answer(failures: &mut Failures, done: Result<(), NoMemory>) -> Result<(), Failed>
    ensures same { is_err result ≡ is_err done }
    ensures plan { plan_of failures.new ≡ plan_of failures.old }
    ensures faults { failures.new.faults ≡ (if is_err done then raised failures.old.faults 1 else failures.old.faults) }
    ensures read_faults { failures.new.read_faults ≡ failures.old.read_faults }
{
    match done {
        Ok(()) => Ok(()),
        Err(NoMemory) => {
            failures.add_fault();
            Err(Failed)
        }
    }
}

impl MemFolder {
    ghost use Rattle.root_folder.specs.MemFolder.{IsLinked, IsSettledIn, IsUnchanged, calls_of, content_of, folder_plan, folder_state, held_of};

    /// A directory with this tree, fully settled. None if some node's parent directory has no node in the tree. The calls
    /// whose numbers are in `fail` fail; all calls are numbered, starting at 0.
    pub fn new(alloc: Global, tree: Tree, fail: Vec<u64>) -> Option<MemFolder>
        ensures some { is_some result ≡ are_in_dirs tree }
        ensures tree { IfSome result (λ folder. (content_of folder).now ≡ tree) }
        ensures settled { IfSome result (λ folder. IsSettled (folder_state folder)) }
        ensures calls { IfSome result (λ folder. calls_of folder ≡ []) }
        ensures counts { IfSome result (λ folder. folder.counts ≡ record { lists = 0; looks = 0; links = 0; settles = 0 }) }
        ensures plan { IfSome result (λ folder. folder_plan folder ≡ record { fail = fail.items; next = 0; left = None }) }
        ensures faults { IfSome result (λ folder. ((folder_state folder).faults ≡ 0) × ((folder_state folder).read_faults ≡ 0)) }
    {
        let tree = WholeTree::of(tree)?;
        let counts = FolderCounts {
            lists: 0,
            looks: 0,
            links: 0,
            settles: 0,
        };
        Some(MemFolder {
            alloc,
            tree,
            changes: Vec::new(alloc),
            calls: Vec::new(alloc),
            counts,
            failures: Failures::new(fail),
        })
    }

    /// Lets the next `calls` writing calls pass, and makes every call after them fail.
    pub fn stop_after(&mut self, calls: u64)
        ensures state { folder_state self.new ≡ folder_state self.old }
        ensures plan { folder_plan self.new ≡ stopping_after calls (folder_plan self.old) }
    {
        self.failures.stop_after(calls);
    }

    /// The calls that were made, in order. A call that failed may be missing.
    pub fn calls(&self) -> &[FolderCall]
        ensures { result.now ≡ calls_of self.now }
    {
        &self.calls
    }

    /// How many calls there were of each kind.
    pub fn counts(&self) -> FolderCounts
        ensures { result ≡ (folder_state self.now).counts }
    {
        self.counts
    }

    /// How many calls failed.
    pub fn faults(&self) -> u64
        ensures { result ≡ (folder_state self.now).faults }
    {
        self.failures.faults
    }

    /// How many of the failed calls were calls that read.
    pub fn read_faults(&self) -> u64
        ensures { result ≡ (folder_state self.now).read_faults }
    {
        self.failures.read_faults
    }

    /// Whether a crash now may leave this at the path.
    pub fn may_leave(&self, path: &[u8], found: Option<&Node>) -> bool
        ensures { result ≡ (folder_state self.now).may path.now (option_copied found.entry) }
    {
        may_leave(path, self.tree.node(path), &self.changes, found)
    }

    // The names in a directory. Records the call.
    fn add_names(&mut self, alloc: Global, dir: &[u8]) -> Result<Texts, NoMemory>
        ensures rest { self.new ≡ record self.old { calls = self.new.calls } }
        ensures names { IfOk result (λ names. names ≡ children_of (content_of self.old).now dir.now) }
        ensures sorted { IfOk result (λ names. IsStrictlySortedBy (slice_cmp nat_cmp) names) }
        ensures calls { MatchResult result (λ _. calls_of self.new ≡ calls_of self.old ++ calls.Names dir.now ∷ []) (λ _. calls_of self.new ≡ calls_of self.old) }
    {
        let names = self.tree.names(alloc, dir)?;
        add_call(&mut self.calls, names_call(self.alloc, dir)?)?;
        Ok(names)
    }

    // The node at a path. Records the call.
    fn add_look(&mut self, alloc: Global, path: &[u8]) -> Result<Option<Node>, NoMemory>
        ensures rest { self.new ≡ record self.old { calls = self.new.calls } }
        ensures node { IfOk result (λ found. found ≡ node_at (content_of self.old).now path.now) }
        ensures valid { IfOk result (λ found. IfSome found (λ node. IsTrue (is_node node))) }
        ensures calls { MatchResult result (λ _. calls_of self.new ≡ calls_of self.old ++ calls.Look path.now ∷ []) (λ _. calls_of self.new ≡ calls_of self.old) }
    {
        let found = self.tree.copy_of(alloc, path)?;
        add_call(&mut self.calls, look_call(self.alloc, path)?)?;
        Ok(found)
    }

    // Makes a link and records the call, unless the call is due to fail.
    fn add_link(&mut self, due: bool, tag: Tag, path: &[u8], target: &[u8]) -> Result<(), NoMemory>
        requires path { IsTrue (is_path path.now) }
        requires target { IsTrue (is_target target.now) }
        ensures rest { self.new ≡ record self.old { tree = self.new.tree; changes = self.new.changes; calls = self.new.calls } }
        ensures due { IsTrue due → is_err result ≡ true }
        ensures held { MatchResult result (λ _. IsLinked path.now target.now (held_of self.old) (held_of self.new)) (λ _. IsUnchanged (held_of self.old) (held_of self.new)) }
        ensures calls { OnOk result (IsFollowedBy (calls.Link tag path.now target.now ∷ []) (calls_of self.old) (calls_of self.new)) }
        ensures some_calls { OnErr result (IsFollowedByPart (calls.Link tag path.now target.now ∷ []) (calls_of self.old) (calls_of self.new)) }
    {
        if due {
            return Err(NoMemory);
        }
        add_call(&mut self.calls, link_call(self.alloc, tag, path, target)?)?;
        if !self.tree.can_link(path) {
            return Err(NoMemory);
        }
        put_link(self.alloc, &mut self.tree, &mut self.changes, path, target)
    }

    // Records the fsync of a directory and the call, unless the call is due to fail.
    fn add_settling(&mut self, due: bool, dir: &[u8]) -> Result<(), NoMemory>
        ensures rest { self.new ≡ record self.old { changes = self.new.changes; calls = self.new.calls } }
        ensures due { IsTrue due → is_err result ≡ true }
        ensures held { MatchResult result (λ _. IsSettledIn dir.now (held_of self.old) (held_of self.new)) (λ _. IsUnchanged (held_of self.old) (held_of self.new)) }
        ensures calls { OnOk result (IsFollowedBy (calls.Settle dir.now ∷ []) (calls_of self.old) (calls_of self.new)) }
        ensures some_calls { OnErr result (IsFollowedByPart (calls.Settle dir.now ∷ []) (calls_of self.old) (calls_of self.new)) }
    {
        if due {
            return Err(NoMemory);
        }
        add_call(&mut self.calls, settle_call(self.alloc, dir)?)?;
        if !self.tree.is_dir(dir) {
            return Err(NoMemory);
        }
        let dir = Text::copy_of(self.alloc, dir)?;
        add_change(&mut self.changes, Change::Settled { dir })
    }
}

impl Folder for MemFolder {
    ghost use Rattle.root_folder.specs.MemFolder.{folder_plan, folder_state};
    ghost use Rattle.root_folder.specs.PastLaws.{has_moments, has_whole_tree};

    ghost state = { folder_state };

    fn names(&mut self, alloc: Global, dir: &[u8]) -> Result<Texts, FolderRead>
        ensures reads { Reads (calls.Names dir.now) (folder_state self.old) (folder_state self.new) result }
        ensures names { GivesNames dir.now (folder_state self.old) result }
        ensures plan { FollowsPlan false (folder_plan self.old) (folder_plan self.new) (is_err result) }
    {
        self.counts.lists = self.counts.lists.saturating_add(1);
        if self.failures.is_due(false) || !self.tree.is_dir(dir) {
            self.failures.add_read_fault();
            return Err(FolderRead::Failed);
        }
        Ok(self.add_names(alloc, dir)?)
    }

    fn look(&mut self, alloc: Global, path: &[u8]) -> Result<Option<Node>, FolderRead>
        ensures reads { Reads (calls.Look path.now) (folder_state self.old) (folder_state self.new) result }
        ensures node { GivesNode path.now (folder_state self.old) result }
        ensures plan { FollowsPlan false (folder_plan self.old) (folder_plan self.new) (is_err result) }
    {
        self.counts.looks = self.counts.looks.saturating_add(1);
        if self.failures.is_due(false) {
            self.failures.add_read_fault();
            return Err(FolderRead::Failed);
        }
        Ok(self.add_look(alloc, path)?)
    }

    fn link(&mut self, tag: Tag, path: &[u8], target: &[u8]) -> Result<(), Failed>
        requires path { IsTrue (is_path path.now) }
        requires target { IsTrue (is_target target.now) }
        ensures does { Does (calls.Link tag path.now target.now) (Links path.now target.now) (MayLink path.now target.now)
            (folder_state self.old) (folder_state self.new) result }
        ensures crash { AddsLink path.now target.now (folder_state self.old) (folder_state self.new) result }
        ensures plan { FollowsPlan true (folder_plan self.old) (folder_plan self.new) (is_err result) }
    {
        self.counts.links = self.counts.links.saturating_add(1);
        let due = self.failures.is_due(true);
        let done = self.add_link(due, tag, path, target);
        answer(&mut self.failures, done)
    }

    fn settle(&mut self, dir: &[u8]) -> Result<(), Failed>
        ensures does { Does (calls.Settle dir.now) (SettlesIn dir.now) KeepsContent (folder_state self.old) (folder_state self.new) result }
        ensures crash { Settles dir.now (folder_state self.old) (folder_state self.new) result }
        ensures plan { FollowsPlan true (folder_plan self.old) (folder_plan self.new) (is_err result) }
    {
        self.counts.settles = self.counts.settles.saturating_add(1);
        let due = self.failures.is_due(true);
        let done = self.add_settling(due, dir);
        answer(&mut self.failures, done)
    }

    ghost moments = { λ folder. has_moments folder };

    ghost whole = { λ folder. has_whole_tree folder };
}
