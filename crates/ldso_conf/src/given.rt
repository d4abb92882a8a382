//! Directories of the command line, in place of a conf file.
ghost use Rattle.std.specs.Prelude.{◌≡◌, ◌≤◌, All, IfOk, OnOk, length};
ghost use Rattle.image_tree.specs.Tree.{Nodes};
ghost use Rattle.image_tree.specs.declared.path.TheConstants.{PATH_MAX};
ghost use Rattle.tree_face.specs.Store.{Contents};
ghost use Rattle.ldso_conf.specs.Reading.{IsConfOf, Given, command_line};
ghost use Rattle.ldso_conf.specs.Visits.{with_dir};

use crate::kinds::Conf;
use crate::reader::Reader;
use crate::steps::origin_of;
use lib_types::{NoMemory, Text, Texts};
use std::alloc::Global;

// Adds a directory, or reports it if it is too long.
fn add_given(alloc: Global, reader: &mut Reader, dir: &Text) -> Result<(), NoMemory>
    ensures { OnOk result (reader.new ≡ with_dir reader.old dir.now command_line) }
{
    let origin = origin_of(alloc, b"<cmdline>", 0)?;
    reader.add_dir(dir.copy(alloc)?, origin)
}

/// These directories, as if a conf file named them. No file is read.
#[tactic(auto, using(crate::proofs::CommandLine::given_laws))]
pub fn given_dirs(alloc: Global, dirs: &Texts) -> Result<Conf, NoMemory>
    ensures conf { IfOk result (λ conf. (held : Contents) (t : Nodes) → IsConfOf (Given dirs.now) conf held t) }
    ensures short { IfOk result (λ conf. All (λ dir. length dir ≤ PATH_MAX) conf.dirs) }
{
    let mut reader = Reader::new(alloc);
    for dir in dirs.as_slice() {
        add_given(alloc, &mut reader, dir)?;
    }
    Ok(reader.into_conf())
}
