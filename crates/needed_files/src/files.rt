//! The files and the links that programs need.
ghost use Rattle.std.specs.Prelude.{◌≡◌, ◌++◌, flat_map, IfOk, OnOk};
ghost use Rattle.elf_interpreter.specs.Faults.{interpreter_ending};
ghost use Rattle.file_trails.specs.Trail.{trail};
ghost use Rattle.needed_files.specs.Interpreters.{ReadsPrograms, program_keys};
ghost use Rattle.needed_files.specs.Needed.{files_of, found_in, lacks_file, lacks_interpreter, needed_files, opened};
ghost use Rattle.tree_face.specs.Known.{IfKnown};

use crate::interpreters::interpreters;
use elf_interpreter::InterpreterFault;
use file_trails::add_trail;
use ldd_resolve::{ProgramScope, ProgramScopes};
use lib_types::{NoMemory, Text, Texts};
use path_walk::file_at;
use std::alloc::Global;
use string_pool::ascending;
use tree_face::{Store, Tree};

/// The files that programs need.
#[derive(Drop)]
pub struct NeededFiles {
    /// Each file by its path without links, and each link by that of its directory with its name; each once, in the order of the bytes.
    pub files: Texts,
    /// Whether the path of an interpreter leads to no file.
    pub is_missing: bool,
}

// Adds the files and links of these paths.
fn add_trails(alloc: Global, tree: &Tree, paths: &[Text], met: &mut Texts) -> Result<(), NoMemory>
    ensures { OnOk result (met.new ≡ met.old ++ flat_map (trail tree.now) paths.now) }
{
    for path in paths {
        add_trail(alloc, tree, path.as_bytes(), met)?;
    }
    Ok(())
}

// Adds the files and links of a program and its libraries.
fn add_program(
    alloc: Global,
    tree: &Tree,
    program: &ProgramScope,
    met: &mut Texts,
) -> Result<(), NoMemory>
    ensures { OnOk result (met.new ≡ met.old ++ flat_map (trail tree.now) (found_in program.now.scope)) }
{
    match &program.scope {
        Ok(scope) => add_trails(alloc, tree, scope.found.as_slice(), met),
        Err(_) => Ok(()),
    }
}

// Adds the files and links of programs and their libraries.
fn add_programs(
    alloc: Global,
    tree: &Tree,
    programs: &[ProgramScope],
    met: &mut Texts,
) -> Result<(), NoMemory>
    ensures { OnOk result (met.new ≡ met.old ++ flat_map (trail tree.now) (flat_map (λ p. found_in p.scope) programs.now)) }
{
    for program in programs {
        add_program(alloc, tree, program, met)?;
    }
    Ok(())
}

// The files and links of programs, their libraries and their interpreters.
fn files_of(
    alloc: Global,
    tree: &Tree,
    programs: &[ProgramScope],
    interpreters: &[Text],
) -> Result<Texts, NoMemory>
    ensures { IfOk result (λ files. files ≡ files_of tree.now (opened interpreters.now programs.now)) }
{
    let mut met = Texts::new(alloc);
    add_programs(alloc, tree, programs, &mut met)?;
    add_trails(alloc, tree, interpreters, &mut met)?;
    ascending(met.into_vec())
}

// Whether one of these paths leads to no file.
fn lacks_file(alloc: Global, tree: &Tree, paths: &[Text]) -> Result<bool, NoMemory>
    ensures { IfOk result (λ lacks. lacks ≡ lacks_file tree.now paths.now) }
{
    for path in paths {
        if file_at(alloc, tree, path.as_bytes())?.is_none() {
            return Ok(true);
        }
    }
    Ok(false)
}

/// The files that these programs need: the programs, their libraries by each path by which one was found, their interpreters, and each
/// link on the way. A path without a program needs nothing.
#[tactic(auto, unfolding(crate::specs::Needed::needed_files))]
pub fn needed_files<S: Store>(
    alloc: Global,
    tree: &Tree,
    store: &mut S,
    programs: &ProgramScopes,
) -> Result<NeededFiles, InterpreterFault>
    ensures files { IfOk result (λ needed. IfKnown (S.state store.old).held (λ held. needed.files ≡ needed_files held tree.now programs.now)) }
    ensures missing { IfOk result (λ needed. IfKnown (S.state store.old).held (λ held. needed.is_missing ≡ lacks_interpreter held tree.now programs.now)) }
    ensures reads { ReadsPrograms (S.state store.old).held (program_keys tree.now programs.now) (interpreter_ending result) (S.state store.old) (S.state store.new) }
{
    let interpreters = interpreters(alloc, tree, store, programs.as_slice())?;
    let files = files_of(alloc, tree, programs.as_slice(), interpreters.as_slice())?;
    let is_missing = lacks_file(alloc, tree, interpreters.as_slice())?;
    Ok(NeededFiles { files, is_missing })
}
