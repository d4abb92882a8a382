//! The command `resolve`.
ghost use Rattle.std.specs.Prelude.{◌≡◌};
ghost use Rattle.std.specs.Option.{option_copied};
ghost use Rattle.tree_face.specs.Devices.{states};
ghost use Rattle.tree_face.specs.Stream.{SourceState};
ghost use Rattle.asking_runs.specs.Resolve.{AnswersAs, AnswersFiles, AnswersImage, Chooses, ListsImage, ListsPrograms, ListsWith, ResolveRun, cache_of, env_of, listed_answer};

use crate::fault::ListFault;
use crate::listings::{Listed, files_for, json_for, listings_for, trees_for};
use cache_lookup::{Sorted, sorted_cache};
use command_status::{Status, end};
use command_words::{Form, Resolve};
use image_programs::image_programs;
use image_session::{LoadFault, ReadImage, TreeSource, read_image};
use ldd_resolve::{ProgramScopes, resolve_each};
use lib_types::{Abi, Texts};
use needed_files::needed_files;
use rpath_search::{Env, SearchFault, SystemDirs};
use std::alloc::Global;
use tree_face::{Disk, Sink, Store, Tree};

// The programs to list (None: all of the image), the form of the answer, and the loader's environment.
#[derive(Drop)]
struct Programs {
    form: Form,
    paths: Option<Texts>,
    env: Env,
}

// The programs, the form of the answer, and the loader's environment.
fn programs_of(asked: Resolve, system: SystemDirs) -> Programs
    ensures form { result.form ≡ asked.form }
    ensures paths { result.paths ≡ asked.paths }
    ensures env { result.env ≡ env_of system asked }
{
    let Resolve {
        paths,
        caps,
        library_path,
        platform,
        secure,
        form,
    } = asked;
    let env = Env {
        abi: Abi::X86_64,
        caps,
        library_path,
        platform,
        secure,
        system,
    };
    Programs { form, paths, env }
}

// The list of the files that these programs need.
fn answer_files<S: Store>(
    alloc: Global,
    end: u8,
    tree: &Tree,
    store: &mut S,
    scopes: &ProgramScopes,
) -> Result<Listed, ListFault>
    ensures { AnswersFiles end tree.now scopes.now (listed_answer result) (S.state store.old) (S.state store.new) }
{
    let needed = needed_files(alloc, tree, store, scopes)?;
    Ok(files_for(alloc, end, &needed, scopes)?)
}

// The answer for these scopes in this form.
fn answer_as<S: Store>(
    alloc: Global,
    form: Form,
    tree: &Tree,
    store: &mut S,
    scopes: &ProgramScopes,
) -> Result<Listed, ListFault>
    ensures { AnswersAs form tree.now scopes.now (listed_answer result) (S.state store.old) (S.state store.new) }
{
    match form {
        Form::Listing => Ok(listings_for(alloc, scopes)?),
        Form::Json => Ok(json_for(alloc, scopes)?),
        Form::Tree => Ok(trees_for(alloc, scopes)?),
        Form::Files { end } => answer_files(alloc, end, tree, store, scopes),
    }
}

// The paths that are given, or those of all programs of the image.
fn chosen<S: Store>(
    alloc: Global,
    paths: Option<Texts>,
    tree: &Tree,
    store: &mut S,
) -> Result<Texts, SearchFault>
    ensures { Chooses paths tree.now result (S.state store.old) (S.state store.new) }
{
    match paths {
        Some(paths) => Ok(paths),
        None => image_programs(alloc, tree, store),
    }
}

// The answer for the programs.
fn list<S: Store>(
    alloc: Global,
    programs: Programs,
    tree: &Tree,
    cache: Option<&Sorted<'_>>,
    store: &mut S,
) -> Result<Listed, ListFault>
    ensures { ListsPrograms programs.form programs.paths programs.env tree.now (option_copied cache.entry) (listed_answer result) (S.state store.old) (S.state store.new) }
{
    let Programs { form, paths, env } = programs;
    let paths = chosen(alloc, paths, tree, store)?;
    let scopes = resolve_each(alloc, tree, store, cache, paths, &env)?;
    answer_as(alloc, form, tree, store, &scopes)
}

// The answer for an image, if its cache is well-formed.
fn list_in<S: Store>(
    alloc: Global,
    programs: Programs,
    image: &ReadImage,
    store: &mut S,
) -> Result<Listed, ListFault>
    ensures { ListsWith programs.form programs.paths programs.env image.now.tree (cache_of image.now.cache) (listed_answer result) (S.state store.old) (S.state store.new) }
{
    let Some(bytes) = &image.cache else {
        return list(alloc, programs, &image.tree, None, store);
    };
    let cache = sorted_cache(bytes.as_bytes())?;
    list(alloc, programs, &image.tree, Some(&cache), store)
}

/// The answer for programs of an image that was read.
pub fn list_image<S: Store>(
    alloc: Global,
    asked: Resolve,
    system: SystemDirs,
    image: &ReadImage,
    store: &mut S,
) -> Result<Listed, ListFault>
    ensures { ListsImage system asked image.now (listed_answer result) (S.state store.old) (S.state store.new) }
{
    let programs = programs_of(asked, system);
    list_in(alloc, programs, image, store)
}

// The answer for what was read of an image.
fn resolve<S: Store>(
    alloc: Global,
    asked: Resolve,
    read: &Result<ReadImage, LoadFault>,
    store: &mut S,
) -> Result<Listed, ListFault>
    ensures { AnswersImage asked read.now (listed_answer result) (S.state store.old) (S.state store.new) }
{
    match read {
        Ok(image) => list_image(alloc, asked, SystemDirs::Loader, image, store),
        Err(fault) => Err(ListFault::Image(*fault)),
    }
}

/// Runs the command `resolve`. The input may be in any state, because nothing is read from it.
pub fn run_resolve<S: Store, D: Disk, O: Sink>(
    alloc: Global,
    asked: Resolve,
    store: &mut S,
    disk: &mut D,
    sink: &mut O,
) -> Status
    ensures runs { (source : SourceState) → ResolveRun asked
        (states (S.state store.old) (D.state disk.old) source (O.state sink.old))
        (states (S.state store.new) (D.state disk.new) source (O.state sink.new)) result }
    ensures no_usage { result ≡ Status.Usage → ⊥ }
{
    let read = read_image(alloc, disk, TreeSource::Manifest);
    end(resolve(alloc, asked, &read, store), sink)
}
