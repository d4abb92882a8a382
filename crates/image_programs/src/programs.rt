//! Finds the programs and libraries in the tree of an image.
ghost use Rattle.std.specs.Prelude.{◌≡◌, ◌++◌, false, IfOk, OnOk};
ghost use Rattle.elf_dynamic.specs.Begun.{ReadsBy, lacks_one};
ghost use Rattle.image_programs.specs.Programs.{image_programs, is_program, is_program_file, keys_of_node, may_be_dynamic, node_keys, path_if_program};
ghost use Rattle.rpath_search.specs.Faults.{search_ending};
ghost use Rattle.tree_face.specs.Known.{IfKnown};

use elf_dynamic::{AnalyseFault, analyse};
use lib_types::{Analysis, Defect, ET_EXEC, Text, Texts};
use rpath_search::SearchFault;
use std::alloc::Global;
use tree_face::{Node, Store, Tree};

// Whether a file that isn't a library may still have a dynamic section.
fn may_be_dynamic(defect: Defect) -> bool
    ensures { result ≡ may_be_dynamic defect }
{
    match defect {
        Defect::NotElf
        | Defect::TooShort { .. }
        | Defect::BadClass { .. }
        | Defect::BadData { .. }
        | Defect::BadMachine { .. }
        | Defect::NoDynamic => false,
        Defect::NotShared { etype } => etype == u64::from(ET_EXEC),
        _ => true,
    }
}

fn is_program(analysis: &Analysis) -> bool
    ensures { result ≡ is_program analysis.now }
{
    match analysis {
        Analysis::Lib { .. } => true,
        Analysis::Not(defect) => may_be_dynamic(*defect),
    }
}

// Whether the node is a file that is a program or a library.
fn is_program_file<S: Store>(alloc: Global, store: &mut S, node: &Node) -> Result<bool, SearchFault>
    ensures program { IfOk result (λ is. IfKnown (S.state store.old).held (λ held. is ≡ is_program_file held node.now)) }
    ensures held { IfOk result (λ _. IfKnown (S.state store.old).held (λ held. lacks_one held (keys_of_node node.now) ≡ false)) }
    ensures reads { ReadsBy (S.state store.old).held (keys_of_node node.now) (search_ending result) (S.state store.old) (S.state store.new) }
{
    let Node::File { key, .. } = node else {
        return Ok(false);
    };
    match analyse(alloc, store, key.as_bytes()) {
        Ok(analysis) => Ok(is_program(&analysis)),
        Err(AnalyseFault::StoreFault) => Err(SearchFault::StoreFault),
        Err(AnalyseFault::NoMemory) => Err(SearchFault::NoMemory),
    }
}

// Adds the path of a node that is a program or a library.
fn add_program<S: Store>(
    alloc: Global,
    store: &mut S,
    path: &[u8],
    node: &Node,
    paths: &mut Texts,
) -> Result<(), SearchFault>
    ensures paths { OnOk result (IfKnown (S.state store.old).held (λ held. paths.new ≡ paths.old ++ path_if_program held path.now node.now)) }
    ensures held { OnOk result (IfKnown (S.state store.old).held (λ held. lacks_one held (keys_of_node node.now) ≡ false)) }
    ensures reads { ReadsBy (S.state store.old).held (keys_of_node node.now) (search_ending result) (S.state store.old) (S.state store.new) }
{
    if is_program_file(alloc, store, node)? {
        paths.push(Text::copy_of(alloc, path)?)?;
    }
    Ok(())
}

/// The paths of the programs and libraries of an image, in the order of the tree. Links aren't followed. Each file is opened once, to
/// read its ELF information. If the store fails or memory runs out, no more files are opened.
pub fn image_programs<S: Store>(
    alloc: Global,
    tree: &Tree,
    store: &mut S,
) -> Result<Texts, SearchFault>
    ensures paths { IfOk result (λ paths. IfKnown (S.state store.old).held (λ held. paths ≡ image_programs held tree.now)) }
    ensures reads { ReadsBy (S.state store.old).held (node_keys tree.now) (search_ending result) (S.state store.old) (S.state store.new) }
{
    let mut paths = Texts::new(alloc);
    for (path, node) in tree.nodes() {
        add_program(alloc, store, path, node, &mut paths)?;
    }
    Ok(paths)
}
