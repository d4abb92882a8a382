//! The interpreters that programs name.
ghost use Rattle.std.specs.Prelude.{◌≡◌, ◌++◌, false, IfOk, OnOk};
ghost use Rattle.elf_dynamic.specs.Begun.{lacks_one};
ghost use Rattle.elf_interpreter.specs.Faults.{interpreter_ending};
ghost use Rattle.needed_files.specs.Interpreters.{ReadsPrograms, interpreter_at, interpreter_of, interpreters, key_at, key_of, program_keys};
ghost use Rattle.tree_face.specs.Known.{IfKnown};

use elf_interpreter::{InterpreterFault, interpreter};
use ldd_resolve::ProgramScope;
use lib_types::{Text, Texts};
use path_walk::file_at;
use rpath_search::{from_root, key_at};
use std::alloc::Global;
use tree_face::{Store, Tree};

// The path of the interpreter that the program at this path names.
fn interpreter_at<S: Store>(
    alloc: Global,
    tree: &Tree,
    store: &mut S,
    path: &[u8],
) -> Result<Option<Text>, InterpreterFault>
    ensures named { IfOk result (λ named. IfKnown (S.state store.old).held (λ held. named ≡ interpreter_at held tree.now path.now)) }
    ensures held { IfOk result (λ _. IfKnown (S.state store.old).held (λ held. lacks_one held (key_at tree.now path.now) ≡ false)) }
    ensures reads { ReadsPrograms (S.state store.old).held (key_at tree.now path.now) (interpreter_ending result) (S.state store.old) (S.state store.new) }
{
    let whole = from_root(alloc, path)?;
    let Some(real) = file_at(alloc, tree, whole.as_bytes())? else {
        return Ok(None);
    };
    let Some(key) = key_at(tree, real.as_bytes()) else {
        return Ok(None);
    };
    interpreter(alloc, store, key)
}

// Adds the interpreter that a program names.
fn add_interpreter<S: Store>(
    alloc: Global,
    tree: &Tree,
    store: &mut S,
    program: &ProgramScope,
    paths: &mut Texts,
) -> Result<(), InterpreterFault>
    ensures paths { OnOk result (IfKnown (S.state store.old).held (λ held. paths.new ≡ paths.old ++ interpreter_of held tree.now program.now.path program.now.scope)) }
    ensures held { OnOk result (IfKnown (S.state store.old).held (λ held. lacks_one held (key_of tree.now program.now.path program.now.scope) ≡ false)) }
    ensures reads { ReadsPrograms (S.state store.old).held (key_of tree.now program.now.path program.now.scope) (interpreter_ending result)
        (S.state store.old) (S.state store.new) }
{
    if let Err(_) = &program.scope {
        return Ok(());
    }
    if let Some(path) = interpreter_at(alloc, tree, store, program.path.as_bytes())? {
        paths.push(path)?;
    }
    Ok(())
}

/// The paths of the interpreters that these programs name, in order. The file of each program is opened once.
pub(crate) fn interpreters<S: Store>(
    alloc: Global,
    tree: &Tree,
    store: &mut S,
    programs: &[ProgramScope],
) -> Result<Texts, InterpreterFault>
    ensures paths { IfOk result (λ paths. IfKnown (S.state store.old).held (λ held. paths ≡ interpreters held tree.now programs.now)) }
    ensures reads { ReadsPrograms (S.state store.old).held (program_keys tree.now programs.now) (interpreter_ending result) (S.state store.old) (S.state store.new) }
{
    let mut paths = Texts::new(alloc);
    for program in programs {
        add_interpreter(alloc, tree, store, program, &mut paths)?;
    }
    Ok(paths)
}
