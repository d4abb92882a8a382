//! The libraries of programs as JSON.
ghost use Rattle.std.specs.Prelude.{◌≡◌, map, IfOk};
ghost use Rattle.serde_json.specs.View.{view};
ghost use Rattle.json_answers.specs.Programs.{defect_data, fault_data, item_data, libraries_data, program_data, programs_data};
ghost use Rattle.json_answers.specs.Texts.{IsReadBack, json_text};

use crate::object::{array, object, with};
use json_texts::{bytes_value, json_line, optional_value};
use ldd_resolve::{Item, ProgramFault, ProgramScope, Scope};
use lib_types::NoMemory;
use serde_json::{Map, Value};
use std::alloc::Global;

fn item_value(alloc: Global, item: &Item) -> Result<Value, NoMemory>
    ensures { IfOk result (λ v. view v ≡ item_data item.now) }
{
    let path = item.path.as_ref().map(|path| path.as_bytes());
    let path = optional_value(alloc, path)?;
    let name = bytes_value(alloc, item.name.as_bytes())?;
    let members = with(alloc, Map::new(alloc), "name", name)?;
    let members = with(alloc, members, "path", path)?;
    Ok(object(members))
}

fn item_values(alloc: Global, items: &[Item]) -> Result<Vec<Value>, NoMemory>
    ensures { IfOk result (λ vs. map view vs.items ≡ map item_data items.now) }
{
    let mut values = Vec::new(alloc);
    for item in items {
        values.push(item_value(alloc, item)?)?;
    }
    Ok(values)
}

// The libraries of a program, or null where no program is found.
fn libraries_value(alloc: Global, scope: &Result<Scope, ProgramFault>) -> Result<Value, NoMemory>
    ensures { IfOk result (λ v. view v ≡ libraries_data scope.now) }
{
    match scope {
        Ok(scope) => Ok(array(item_values(alloc, scope.listing.as_slice())?)),
        Err(_) => Ok(Value::Null),
    }
}

// The name of the fault, or null.
fn fault_value(alloc: Global, scope: &Result<Scope, ProgramFault>) -> Result<Value, NoMemory>
    ensures { IfOk result (λ v. view v ≡ fault_data scope.now) }
{
    match scope {
        Ok(_) => Ok(Value::Null),
        Err(ProgramFault::NoProgram) => bytes_value(alloc, b"NoProgram"),
        Err(ProgramFault::BadProgram(_)) => bytes_value(alloc, b"BadProgram"),
    }
}

// The name of the file's first defect, or null.
fn defect_value(alloc: Global, scope: &Result<Scope, ProgramFault>) -> Result<Value, NoMemory>
    ensures { IfOk result (λ v. view v ≡ defect_data scope.now) }
{
    match scope {
        Err(ProgramFault::BadProgram(defect)) => bytes_value(alloc, defect.name()),
        _ => Ok(Value::Null),
    }
}

fn program_value(alloc: Global, program: &ProgramScope) -> Result<Value, NoMemory>
    ensures { IfOk result (λ v. view v ≡ program_data program.now) }
{
    let defect = defect_value(alloc, &program.scope)?;
    let fault = fault_value(alloc, &program.scope)?;
    let libraries = libraries_value(alloc, &program.scope)?;
    let path = bytes_value(alloc, program.path.as_bytes())?;
    let members = with(alloc, Map::new(alloc), "defect", defect)?;
    let members = with(alloc, members, "fault", fault)?;
    let members = with(alloc, members, "libraries", libraries)?;
    let members = with(alloc, members, "path", path)?;
    Ok(object(members))
}

fn program_values(alloc: Global, programs: &[ProgramScope]) -> Result<Vec<Value>, NoMemory>
    ensures { IfOk result (λ vs. map view vs.items ≡ map program_data programs.now) }
{
    let mut values = Vec::new(alloc);
    for program in programs {
        values.push(program_value(alloc, program)?)?;
    }
    Ok(values)
}

fn programs_value(alloc: Global, programs: &[ProgramScope]) -> Result<Value, NoMemory>
    ensures { IfOk result (λ v. view v ≡ programs_data programs.now) }
{
    let values = program_values(alloc, programs)?;
    let members = with(alloc, Map::new(alloc), "programs", array(values))?;
    Ok(object(members))
}

/// The listings of these programs, in order, as a line of JSON.
pub fn programs_json(alloc: Global, programs: &[ProgramScope]) -> Result<Vec<u8>, NoMemory>
    ensures text { IfOk result (λ text. text.items ≡ json_text (programs_data programs.now)) }
    ensures reads_back { IfOk result (λ text. IsReadBack (programs_data programs.now)) }
{
    let value = programs_value(alloc, programs)?;
    let line = json_line(alloc, &value)?;
    Ok(line)
}
