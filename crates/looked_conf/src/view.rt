//! The view of a directory's tree.
ghost use Rattle.std.specs.Prelude.{◌≡◌, refl};
ghost use Rattle.looked_conf.specs.View.{IsViewFault, IsViewOf, ViewFails, view_state};
ghost use Rattle.looked_tree.proofs.Loads.{looks_none};
ghost use Rattle.looked_tree.specs.Looked.{LooksOn};

use crate::patterns::see_results;
use conf_views::{FoundFile, TreeView, ViewFault, WholeView};
use looked_tree::LookedPart;
use path_walk::Mode;
use root_folder::Folder;
use root_tree::TreeRead;
use std::alloc::Global;

/// A view of a directory's tree. Each path is looked up once, and each directory is listed once, when it is needed.
#[derive(Drop)]
pub(crate) struct LookedView<'v, F: Folder> {
    folder: &'v mut F,
    looked: &'v mut LookedPart,
    fault: &'v mut Option<TreeRead>,
}

// Why the view doesn't answer. Keeps the fault, unless memory is out.
fn view_fault(last: &mut Option<TreeRead>, fault: TreeRead) -> ViewFault
    ensures { IsViewFault fault last.new result }
{
    match fault {
        TreeRead::NoMemory => ViewFault::NoMemory,
        TreeRead::TooLarge => {
            *last = Some(TreeRead::TooLarge);
            ViewFault::Unseen
        }
        TreeRead::Failed { at } => {
            *last = Some(TreeRead::Failed { at });
            ViewFault::Unseen
        }
    }
}

impl<'v, F: Folder> LookedView<'v, F> {
    /// The view of a directory, of which this part was looked at. Keeps the fault if it doesn't answer.
    pub(crate) fn new(
        folder: &'v mut F,
        looked: &'v mut LookedPart,
        fault: &'v mut Option<TreeRead>,
    ) -> LookedView<'v, F>
        ensures same_folder { result.folder.ghost_name ≡ folder.entry.ghost_name }
        ensures folder { result.folder.now ≡ folder.old }
        ensures same_part { result.looked.ghost_name ≡ looked.entry.ghost_name }
        ensures part { result.looked.now ≡ looked.old }
    {
        LookedView {
            folder,
            looked,
            fault,
        }
    }

    /// Why the view didn't answer the last time. None if it always answered, or lacked memory.
    pub(crate) fn take_fault(&mut self) -> Option<TreeRead>
        ensures fault { result ≡ self.old.fault.now }
        ensures same_folder { self.new.folder.ghost_name ≡ self.old.folder.ghost_name }
        ensures folder { self.new.folder.now ≡ self.old.folder.now }
        ensures same_part { self.new.looked.ghost_name ≡ self.old.looked.ghost_name }
        ensures part { self.new.looked.now ≡ self.old.looked.now }
    {
        self.fault.take()
    }
}

impl<'v, F: Folder> TreeView for LookedView<'v, F> {
    ghost state = { λ v. view_state (F.state v.folder.now) v.looked.now };

    ghost knows = { λ v. IsViewOf (F.state v.folder.now) v.looked.now };

    ghost since = { λ start v. (v.folder.ghost_name ≡ start.folder.ghost_name) × ((v.looked.ghost_name ≡ start.looked.ghost_name)
        × LooksOn (F.state start.folder.now) (F.state v.folder.now) start.looked.now v.looked.now) };

    ghost fails = { λ fault start v. (v.folder.ghost_name ≡ start.folder.ghost_name) × ((v.looked.ghost_name ≡ start.looked.ghost_name)
        × ViewFails fault v.fault.now (F.state start.folder.now) (F.state v.folder.now) v.looked.now) };

    ghost starts = { λ v. (refl, (refl, looks_none (F.state v.folder.now) v.looked.now)) };

    ghost gives_up = { λ start v h. (h.0, (h.1.0, h.1.1.reads)) };

    #[tactic(auto, using(crate::proofs::Known::knows_on, crate::proofs::Known::looks_up, crate::proofs::Known::same_view, crate::proofs::Known::same_kept, crate::proofs::Known::view_fails, crate::proofs::Known::whole_fails))]
    fn file_at(&mut self, alloc: Global, text: &[u8]) -> Result<Option<FoundFile>, ViewFault> {
        if let Err(fault) = self.looked.see_text(self.folder, text, Mode::Plain) {
            return Err(view_fault(self.fault, fault));
        }
        WholeView::new(self.looked.tree()).file_at(alloc, text)
    }

    #[tactic(auto, using(crate::proofs::Known::knows_on, crate::proofs::Known::looks_up, crate::proofs::Known::same_view, crate::proofs::Known::same_kept, crate::proofs::Known::view_fails, crate::proofs::Known::whole_fails))]
    fn files(
        &mut self,
        alloc: Global,
        file: &[u8],
        pattern: &[u8],
    ) -> Result<Vec<FoundFile>, ViewFault> {
        if let Err(fault) = see_results(alloc, self.looked, self.folder, file, pattern) {
            return Err(view_fault(self.fault, fault));
        }
        WholeView::new(self.looked.tree()).files(alloc, file, pattern)
    }
}
