//! Why a path couldn't be looked up, or a directory not listed.
ghost use Rattle.std.specs.Prelude.{◌≡◌};
ghost use Rattle.root_tree.specs.ReadTree.{of_read};

use lib_types::Text;
use root_folder::FolderRead;
use root_tree::TreeRead;

/// The error of a call on this path.
pub(crate) fn fault_at(fault: FolderRead, at: Text) -> TreeRead
    ensures { result ≡ of_read fault at }
{
    match fault {
        FolderRead::Failed => TreeRead::Failed { at },
        FolderRead::NoMemory => TreeRead::NoMemory,
    }
}
