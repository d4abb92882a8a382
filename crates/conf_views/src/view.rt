//! A view of a tree.
ghost use Rattle.std.specs.Prelude.{◌≡◌, [], false, IfErr, IfOk, IsErrOf, OnOk};
ghost use Rattle.conf_views.specs.Files.{file_at, files};
ghost use Rattle.conf_views.specs.Patterns.{results_listed, results_looked};
ghost use Rattle.conf_views.specs.View.{IsSameView, LooksUp, ViewState};
ghost use Rattle.conf_views.specs.declared.fault.ViewFault.{ViewFault};
ghost use Rattle.conf_views.specs.declared.fault.ViewFault.TheVariants as faults;
ghost use Rattle.path_walk.specs.declared.walk.Mode.TheVariants.{Plain};
ghost use Rattle.seen_tree.specs.Part.{looked_by};

use crate::fault::ViewFault;
use lib_types::Text;
use std::alloc::Global;

/// A path that resolves.
#[derive(Drop)]
pub struct FoundFile {
    /// The path as written.
    pub spelled: Text,
    /// The path that it resolves to.
    pub real: Text,
    /// The key of the file there, or None if it is a directory.
    pub key: Option<Text>,
}

/// A tree in which paths are looked up when they are needed. Contracts see the tree, the paths that were looked up and the directories that
/// were listed.
pub trait TreeView {
    ghost state: { Self → ViewState };

    // The tree is known, and what was looked up agrees with it.
    ghost knows: { Self → Type 0 };

    // what calls that answered have done since a view
    ghost since: { Self → Self → Type 0 };

    // what calls have done since a view, if the last call did not answer
    ghost fails: { ViewFault → Self → Self → Type 0 };

    /// The file or directory that a path resolves to, or None if it doesn't resolve.
    fn file_at(&mut self, alloc: Global, text: &[u8]) -> Result<Option<FoundFile>, ViewFault>
        ensures file { IfOk result (λ file. knows self.old → file ≡ file_at (state self.old).tree text.now) }
        ensures knows { OnOk result (knows self.old → knows self.new) }
        ensures looks { OnOk result (knows self.old → LooksUp (looked_by (state self.old).tree text.now Plain) [] (state self.old) (state self.new)) }
        ensures view { IsSameView (state self.old) (state self.new) }
        ensures since { OnOk result ((start : Self) → since start self.old → since start self.new) }
        ensures fails { IfErr result (λ fault. (start : Self) → since start self.old → fails fault start self.new) }
        ensures unseen { IsErrOf result faults.Unseen → (state self.old).whole ≡ false };

    /// The results of a pattern in a file, sorted by the bytes of their paths as written.
    fn files(
        &mut self,
        alloc: Global,
        file: &[u8],
        pattern: &[u8],
    ) -> Result<Vec<FoundFile>, ViewFault>
        ensures files { IfOk result (λ found. knows self.old → found.items ≡ files (state self.old).tree file.now pattern.now) }
        ensures knows { OnOk result (knows self.old → knows self.new) }
        ensures looks { OnOk result (knows self.old → LooksUp (results_looked (state self.old).tree file.now pattern.now)
            (results_listed (state self.old).tree file.now pattern.now) (state self.old) (state self.new)) }
        ensures view { IsSameView (state self.old) (state self.new) }
        ensures since { OnOk result ((start : Self) → since start self.old → since start self.new) }
        ensures fails { IfErr result (λ fault. (start : Self) → since start self.old → fails fault start self.new) }
        ensures unseen { IsErrOf result faults.Unseen → (state self.old).whole ≡ false };

    // a view stays as it is without a call
    ghost starts: { (view : Self) → since view view };

    // without memory no call is needed to fail
    ghost gives_up: { (start view : Self) → since start view → fails faults.NoMemory start view };
}
