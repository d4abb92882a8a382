//! The command `resolve` of a directory.
ghost use Rattle.std.specs.Prelude.{◌≡◌};
ghost use Rattle.asking_runs.specs.Listings.{listed_text};
ghost use Rattle.root_asking.specs.Resolve.{AnswersRoot, ResolvesWithoutInput, states_of, root_answer};

use crate::fault::{ReadFault, RootListFault};
use crate::reading::read_root;
use asking_runs::{Listed, list_image};
use command_status::{Status, end};
use command_words::Resolve;
use image_session::ReadImage;
use root_folder::Folder;
use rpath_search::SystemDirs;
use std::alloc::Global;
use tree_face::{Disk, Sink, Store};

// The answer for what was read of a directory.
fn resolve<S: Store>(
    alloc: Global,
    asked: Resolve,
    read: Result<ReadImage, ReadFault>,
    store: &mut S,
) -> Result<Listed, RootListFault>
    ensures { AnswersRoot asked read (root_answer result) (S.state store.old) (S.state store.new) }
{
    let image = match read {
        Ok(image) => image,
        Err(fault) => return Err(RootListFault::Read(fault)),
    };
    match list_image(alloc, asked, SystemDirs::Debian, &image, store) {
        Ok(listed) => Ok(listed),
        Err(fault) => Err(RootListFault::List(fault)),
    }
}

/// Runs the command `resolve` for programs of a directory that has no manifest. It searches all built-in directories. It
/// writes nothing but the answer. The input may be in any state, because nothing is read from it.
pub fn resolve_root<F: Folder, S: Store, D: Disk, O: Sink>(
    alloc: Global,
    asked: Resolve,
    folder: &mut F,
    store: &mut S,
    disk: &mut D,
    sink: &mut O,
) -> Status
    ensures resolves { ResolvesWithoutInput asked (states_of (F.state folder.old) (S.state store.old) (D.state disk.old) (O.state sink.old))
        (states_of (F.state folder.new) (S.state store.new) (D.state disk.new) (O.state sink.new)) result }
    ensures no_usage { result ≡ Status.Usage → ⊥ }
{
    let read = read_root(alloc, folder, disk);
    end(resolve(alloc, asked, read, store), sink)
}
