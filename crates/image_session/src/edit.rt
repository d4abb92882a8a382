//! Edits of a loaded image.
ghost use Rattle.std.specs.Prelude.{◌≡◌, ◌⊎◌, Ok, Err, IfErr, IsTrue, OnErr, OnOk};
ghost use Rattle.image_tree.specs.Node.{is_node};
ghost use Rattle.image_tree.specs.Paths.{is_path};
ghost use Rattle.image_session.specs.Edit.{drop_result, edit_result, put_result};

use crate::fault::EditFault;
use crate::session::Session;
use mtree_manifest::LineKind;
use script_lines::{ScriptLine, read_line};
use std::alloc::Global;
use tree_face::Node;

impl Session {
    /// Puts the node at the path, and replaces the node there, if there is one.
    pub fn put(&mut self, path: &[u8], node: Node) -> Result<(), EditFault>
        requires path { IsTrue (is_path path.now) }
        requires node { IsTrue (is_node node) }
        ensures done { OnOk result (put_result self.old path.now node ≡ Ok self.new) }
        ensures refused { OnErr result (self.new ≡ self.old) }
        ensures fault { IfErr result (λ fault. (fault ≡ EditFault.NoMemory) ⊎ (put_result self.old path.now node ≡ Err fault)) }
    {
        self.tree.put(path, node)?;
        self.edited = true;
        Ok(())
    }

    /// Removes the node at the path. Nodes below it stay.
    #[tactic(auto, using(crate::proofs::Removing::kept_tree))]
    pub fn remove(&mut self, path: &[u8]) -> Result<(), EditFault>
        ensures done { OnOk result (drop_result self.old path.now ≡ Ok self.new) }
        ensures refused { OnErr result (self.new ≡ self.old) }
        ensures fault { IfErr result (λ fault. drop_result self.old path.now ≡ Err fault) }
    {
        if !self.tree.remove(path) {
            return Err(EditFault::NotThere);
        }
        self.edited = true;
        Ok(())
    }

    /// Makes the edit that a line requests. The line has no line feed. Ignored lines and updates are rejected.
    pub fn edit(&mut self, alloc: Global, line: &[u8]) -> Result<(), EditFault>
        ensures done { OnOk result (edit_result self.old line.now ≡ Ok self.new) }
        ensures refused { OnErr result (self.new ≡ self.old) }
        ensures fault { IfErr result (λ fault. (fault ≡ EditFault.NoMemory) ⊎ (edit_result self.old line.now ≡ Err fault)) }
    {
        match read_line(alloc, line)? {
            ScriptLine::Put(Some((path, node))) => self.put(path.as_bytes(), node),
            ScriptLine::Put(None) => Ok(()),
            ScriptLine::Drop(path) => self.remove(path.as_bytes()),
            ScriptLine::Ignored | ScriptLine::Update => Err(EditFault::Bad(LineKind::BadLine)),
        }
    }
}
