//! Reads the whole tree, one directory at a time.
ghost use Rattle.std.specs.Prelude.{◌≡◌, ◌++◌, ◌∷◌, [], IfOk, MatchOption};
ghost use Rattle.image_tree.specs.Paths.{root};
ghost use Rattle.root_tree.specs.ReadTree.{ReadsTree};

use crate::fault::TreeRead;
use crate::looking::list;
use lib_types::{NoMemory, Text};
use root_folder::Folder;
use std::alloc::Global;
use tree_face::Tree;

// The list of directories to be listed, at first only the root.
fn root_alone(alloc: Global) -> Result<Vec<Text>, NoMemory>
    ensures { IfOk result (λ todo. todo.items ≡ root ∷ []) }
{
    let mut todo = Vec::new(alloc);
    todo.push(Text::copy_of(alloc, b"/")?)?;
    Ok(todo)
}

// Removes and returns the directory that was added last.
fn take_last(todo: &mut Vec<Text>) -> Option<Text>
    ensures { MatchOption result ((todo.old.items ≡ []) × (todo.new.items ≡ [])) (λ dir. todo.old.items ≡ todo.new.items ++ dir ∷ []) }
{
    todo.pop()
}

/// Reads the tree of a directory. Each directory in it is listed once, and then each of its names is looked up. So each
/// directory is opened once. Directories still to be listed are kept in a list, so a deep tree needs no more stack.
pub fn read_tree<F: Folder>(alloc: Global, folder: &mut F) -> Result<Tree, TreeRead>
    ensures { ReadsTree result (F.state folder.old) (F.state folder.new) }
{
    let mut tree = Tree::new(alloc);
    let mut todo = root_alone(alloc)?;
    while let Some(dir) = take_last(&mut todo) {
        list(alloc, folder, &mut tree, &mut todo, dir)?;
    }
    tree.know();
    Ok(tree)
}
