//! The answers for several programs, and what they say of the programs.
ghost use Rattle.std.specs.Prelude.{◌≡◌, ◌++◌, ◌||◌, flat_map, IfOk, OnOk};
ghost use Rattle.asking_runs.specs.Listings.{body, fault_in, files_answer, first_fault, head, is_missing, is_missing_one, is_whole, json_answer, listed_text, listings_answer, part, tree_body, tree_part, trees_answer};

use command_status::{Answer, Status, add_fault_line};
use json_answers::programs_json;
use ldd_resolve::{Listing, ProgramFault, ProgramScope, ProgramScopes, Scope, listing_text};
use lib_types::{Failed, NoMemory};
use needed_files::{NeededFiles, list_text};
use scope_tree::tree_text;
use std::alloc::Global;
use tree_face::{Sink, put_all};

/// The answer for several programs, as text.
#[derive(Drop)]
pub struct Listed {
    pub text: Vec<u8>,
    /// Whether a needed name of a program has no path.
    pub is_missing: bool,
    /// Why a path has no program, for the first such path.
    pub fault: Option<ProgramFault>,
}

impl Answer for Listed {
    ghost use Rattle.asking_runs.specs.Listings.{listed_text};

    ghost answer = { listed_text };

    fn write<O: Sink>(&self, out: &mut O) -> Result<(), Failed> {
        put_all(out, &self.text)
    }

    fn is_missing(&self) -> bool {
        self.is_missing
    }

    fn fault(&self) -> Option<ProgramFault> {
        self.fault
    }
}

// Whether each item has a path.
fn is_whole(listing: &Listing) -> bool
    ensures { result ≡ is_whole listing.now }
{
    listing.as_slice().iter().all(|item| item.path.is_some())
}

fn is_missing_one(scope: &Result<Scope, ProgramFault>) -> bool
    ensures { result ≡ is_missing_one scope.now }
{
    match scope {
        Ok(scope) => !is_whole(&scope.listing),
        Err(_) => false,
    }
}

fn fault_in(scope: &Result<Scope, ProgramFault>) -> Option<ProgramFault>
    ensures { result ≡ fault_in scope.now }
{
    match scope {
        Ok(_) => None,
        Err(fault) => Some(*fault),
    }
}

fn first_fault(programs: &[ProgramScope]) -> Option<ProgramFault>
    ensures { result ≡ first_fault programs.now }
{
    for program in programs {
        if let Some(fault) = fault_in(&program.scope) {
            return Some(fault);
        }
    }
    None
}

fn is_missing(programs: &ProgramScopes) -> bool
    ensures { result ≡ is_missing programs.now }
{
    programs
        .as_slice()
        .iter()
        .any(|program| is_missing_one(&program.scope))
}

// Adds a listing, or the fault line in its place.
fn add_body(
    alloc: Global,
    text: &mut Vec<u8>,
    scope: &Result<Scope, ProgramFault>,
) -> Result<(), NoMemory>
    ensures { OnOk result (text.new.items ≡ text.old.items ++ body scope.now) }
{
    match scope {
        Ok(scope) => {
            text.extend_from_slice(&listing_text(alloc, &scope.listing)?)?;
            Ok(())
        }
        Err(fault) => add_fault_line(text, Status::from(*fault)),
    }
}

// Adds the line with a path, if there are several listings.
fn add_head(text: &mut Vec<u8>, several: bool, path: &[u8]) -> Result<(), NoMemory>
    ensures { OnOk result (text.new.items ≡ text.old.items ++ head several path.now) }
{
    if several {
        text.extend_from_slice(path)?;
        text.extend_from_slice(b":\n")?;
    }
    Ok(())
}

fn add_part(
    alloc: Global,
    text: &mut Vec<u8>,
    several: bool,
    program: &ProgramScope,
) -> Result<(), NoMemory>
    ensures { OnOk result (text.new.items ≡ text.old.items ++ part several program.now) }
{
    add_head(text, several, program.path.as_bytes())?;
    add_body(alloc, text, &program.scope)
}

fn text_of(alloc: Global, several: bool, programs: &[ProgramScope]) -> Result<Vec<u8>, NoMemory>
    ensures { IfOk result (λ text. text.items ≡ flat_map (part several) programs.now) }
{
    let mut text = Vec::new(alloc);
    for program in programs {
        add_part(alloc, &mut text, several, program)?;
    }
    Ok(text)
}

// Adds a tree, or the fault line in its place.
fn add_tree_body(
    alloc: Global,
    text: &mut Vec<u8>,
    scope: &Result<Scope, ProgramFault>,
) -> Result<(), NoMemory>
    ensures { OnOk result (text.new.items ≡ text.old.items ++ tree_body scope.now) }
{
    match scope {
        Ok(scope) => {
            text.extend_from_slice(&tree_text(alloc, scope)?)?;
            Ok(())
        }
        Err(fault) => add_fault_line(text, Status::from(*fault)),
    }
}

fn add_tree_part(
    alloc: Global,
    text: &mut Vec<u8>,
    several: bool,
    program: &ProgramScope,
) -> Result<(), NoMemory>
    ensures { OnOk result (text.new.items ≡ text.old.items ++ tree_part several program.now) }
{
    add_head(text, several, program.path.as_bytes())?;
    add_tree_body(alloc, text, &program.scope)
}

fn trees_of(alloc: Global, several: bool, programs: &[ProgramScope]) -> Result<Vec<u8>, NoMemory>
    ensures { IfOk result (λ text. text.items ≡ flat_map (tree_part several) programs.now) }
{
    let mut text = Vec::new(alloc);
    for program in programs {
        add_tree_part(alloc, &mut text, several, program)?;
    }
    Ok(text)
}

// The answer with this text, where more may be missing than what the listings say.
fn answer_with(text: Vec<u8>, is_lacking: bool, programs: &ProgramScopes) -> Listed
    ensures text { result.text.items ≡ text.items }
    ensures missing { result.is_missing ≡ (is_lacking || is_missing programs.now) }
    ensures fault { result.fault ≡ first_fault programs.now }
{
    Listed {
        text,
        is_missing: is_lacking || is_missing(programs),
        fault: first_fault(programs.as_slice()),
    }
}

/// The listings of these programs.
pub(crate) fn listings_for(alloc: Global, programs: &ProgramScopes) -> Result<Listed, NoMemory>
    ensures { IfOk result (λ listed. listed_text listed ≡ listings_answer programs.now) }
{
    let text = text_of(alloc, programs.len() > 1, programs.as_slice())?;
    Ok(answer_with(text, false, programs))
}

/// The trees of these programs.
pub(crate) fn trees_for(alloc: Global, programs: &ProgramScopes) -> Result<Listed, NoMemory>
    ensures { IfOk result (λ listed. listed_text listed ≡ trees_answer programs.now) }
{
    let text = trees_of(alloc, programs.len() > 1, programs.as_slice())?;
    Ok(answer_with(text, false, programs))
}

/// The listings of these programs as JSON.
pub(crate) fn json_for(alloc: Global, programs: &ProgramScopes) -> Result<Listed, NoMemory>
    ensures { IfOk result (λ listed. listed_text listed ≡ json_answer programs.now) }
{
    let json = programs_json(alloc, programs.as_slice())?;
    Ok(answer_with(json, false, programs))
}

/// The list of the files that these programs need, each path ended by this byte.
pub(crate) fn files_for(
    alloc: Global,
    end: u8,
    needed: &NeededFiles,
    programs: &ProgramScopes,
) -> Result<Listed, NoMemory>
    ensures { IfOk result (λ listed. listed_text listed ≡ files_answer end needed.now programs.now) }
{
    let text = list_text(alloc, needed.files.as_slice(), end)?;
    Ok(answer_with(text, needed.is_missing, programs))
}
