//! A caller that knows only the trait's contract.
ghost use Rattle.std.specs.Prelude.{◌≡◌, IsTrue, OnErr, OnOk};
ghost use Rattle.image_tree.specs.Node.{is_target};
ghost use Rattle.image_tree.specs.Paths.{is_path};
ghost use Rattle.lib_types.specs.Counts.{HasRisen};
ghost use Rattle.root_folder.specs.Crash.{Leaves};
ghost use Rattle.root_folder_tests.specs.Links.{IsLeftAlone, IsLinkAt};

use lib_types::Failed;
use path_walk::parted;
use root_folder::Folder;
use tree_face::Tag;

/// Makes a link and flushes its directory. If no call fails, a crash leaves only the link at its path.
pub fn link_durably<F: Folder>(
    folder: &mut F,
    tag: Tag,
    path: &[u8],
    target: &[u8],
) -> Result<(), Failed>
    requires path { IsTrue (is_path path.now) }
    requires target { IsTrue (is_target target.now) }
    ensures durable { OnOk result (IsLeftAlone path.now target.now (F.state folder.new)) }
    ensures leaves { Leaves (IsLinkAt path.now target.now) (F.state folder.old) (F.state folder.new) }
    ensures cause { OnErr result (HasRisen (F.state folder.old).faults (F.state folder.new).faults) }
{
    folder.link(tag, path, target)?;
    folder.settle(parted(path).0)
}
