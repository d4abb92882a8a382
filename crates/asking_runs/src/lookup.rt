//! The command `lookup`.
ghost use Rattle.std.specs.Prelude.{◌≡◌, option_map, Ok, IfOk};
ghost use Rattle.std.specs.Result.{result_map_both};
ghost use Rattle.cache_lookup.specs.Scan.{AreDescending};
ghost use Rattle.tree_face.specs.Devices.{states};
ghost use Rattle.tree_face.specs.Store.{StoreState};
ghost use Rattle.tree_face.specs.Stream.{SourceState, TakesAll};
ghost use Rattle.update_report.specs.Lines.{line};
ghost use Rattle.asking_runs.specs.AskCache.{AsksCache, IsMade, MakesAnswer, answer_of};
ghost use Rattle.asking_runs.specs.Listings.{cache_listed, listed_text};
ghost use Rattle.asking_runs.specs.Lookup.{LookupRun, json_lookup_answer, json_path_answer, looked_up, looked_up_abi, lookup_answer, path_answer};

use crate::cache::cache_in;
use crate::fault::CacheFault;
use crate::listings::Listed;
use cache_lookup::{Counted, Sorted, sorted_cache};
use command_status::{Answer, Status, end};
use command_words::Lookup;
use image_session::{SlotFault, read_slot};
use json_answers::lookup_json;
use ldd_resolve::ProgramFault;
use lib_types::{Abi, Failed, NoMemory, Text};
use std::alloc::Global;
use tree_face::{Disk, Sink, Slot, put_all};

// The path that the loader takes, if the cache has one.
#[derive(Drop)]
struct Found<'a> {
    path: Option<&'a [u8]>,
}

impl<'a> Answer for Found<'a> {
    ghost use Rattle.std.specs.Prelude.{option_map};
    ghost use Rattle.asking_runs.specs.Lookup.{path_answer};

    ghost answer = { λ found. path_answer (option_map (λ path. path.now) found.path) };

    fn write<O: Sink>(&self, out: &mut O) -> Result<(), Failed> {
        match self.path {
            Some(path) => put_path(out, path),
            None => put_all(out, b"not found\n"),
        }
    }

    fn is_missing(&self) -> bool {
        self.path.is_none()
    }

    fn fault(&self) -> Option<ProgramFault> {
        None
    }
}

fn put_path<O: Sink>(out: &mut O, path: &[u8]) -> Result<(), Failed>
    ensures { TakesAll (O.state out.old) (O.state out.new) (line path.now) result }
{
    put_all(out, path)?;
    put_all(out, b"\n")
}

/// The ABI of a name that is looked up: the one that is given, else the one that all entries have, else x86-64.
pub fn looked_up_abi(asked: Option<Abi>, cache: &Sorted<'_>) -> Abi
    ensures { result ≡ looked_up_abi asked cache.now }
{
    match asked {
        Some(abi) => abi,
        None => cache.common_abi().unwrap_or(Abi::X86_64),
    }
}

// The path that the loader takes from a cache.
fn path_in<'a>(cache: &Sorted<'a>, asked: &Lookup) -> Option<&'a [u8]>
    requires sorted { AreDescending cache.now }
    ensures { option_map (λ path. path.now) result ≡ looked_up asked.now cache.now }
{
    let mut entries = Counted::new(cache);
    let abi = looked_up_abi(asked.abi, cache);
    let index = cache_lookup::lookup(&mut entries, asked.name.as_bytes(), abi, &asked.caps)?;
    cache.path(index)
}

// The answer for what was read of the cache file.
fn look_up<'a>(
    read: &'a Result<Option<Text>, SlotFault>,
    asked: &Lookup,
) -> Result<Found<'a>, CacheFault>
    ensures { result_map_both (λ found. path_answer (option_map (λ path. path.now) found.path)) (λ fault. fault) result
        ≡ answer_of (lookup_answer asked.now) read.now }
{
    let cache = sorted_cache(cache_in(read)?)?;
    Ok(Found {
        path: path_in(&cache, asked),
    })
}

// The answer as JSON.
fn json_for(alloc: Global, cache: &Sorted<'_>, asked: &Lookup) -> Result<Listed, NoMemory>
    requires sorted { AreDescending cache.now }
    ensures { IfOk result (λ listed. listed_text listed ≡ json_path_answer asked.now cache.now) }
{
    let path = path_in(cache, asked);
    let abi = looked_up_abi(asked.abi, cache);
    let text = lookup_json(alloc, asked.name.as_bytes(), abi, path)?;
    Ok(Listed {
        text,
        is_missing: path.is_none(),
        fault: None,
    })
}

// The same, with the fault of a command.
fn json_of(alloc: Global, cache: &Sorted<'_>, asked: &Lookup) -> Result<Listed, CacheFault>
    requires sorted { AreDescending cache.now }
    ensures { IsMade (Ok (json_path_answer asked.now cache.now)) (cache_listed result) }
{
    let listed = json_for(alloc, cache, asked)?;
    Ok(listed)
}

// The answer as JSON, if the cache has no defect.
fn json_in(alloc: Global, bytes: &[u8], asked: &Lookup) -> Result<Listed, CacheFault>
    ensures { IsMade (json_lookup_answer asked.now bytes.now) (cache_listed result) }
{
    match sorted_cache(bytes) {
        Ok(cache) => json_of(alloc, &cache, asked),
        Err(defect) => Err(CacheFault::BadCache(defect)),
    }
}

// The JSON for what was read of the cache file.
fn look_up_json(
    alloc: Global,
    read: &Result<Option<Text>, SlotFault>,
    asked: &Lookup,
) -> Result<Listed, CacheFault>
    ensures { IsMade (answer_of (json_lookup_answer asked.now) read.now) (cache_listed result) }
{
    match cache_in(read) {
        Ok(bytes) => json_in(alloc, bytes, asked),
        Err(fault) => Err(fault),
    }
}

fn run_as_text<D: Disk, O: Sink>(
    alloc: Global,
    asked: &Lookup,
    disk: &mut D,
    sink: &mut O,
) -> Status
    ensures runs { (store : StoreState) (source : SourceState) → AsksCache (lookup_answer asked.now)
        (states store (D.state disk.old) source (O.state sink.old)) (states store (D.state disk.new) source (O.state sink.new)) result }
    ensures no_usage { result ≡ Status.Usage → ⊥ }
{
    let read = read_slot(alloc, disk, Slot::Cache);
    end(look_up(&read, asked), sink)
}

fn run_as_json<D: Disk, O: Sink>(
    alloc: Global,
    asked: &Lookup,
    disk: &mut D,
    sink: &mut O,
) -> Status
    ensures runs { (store : StoreState) (source : SourceState) → MakesAnswer (json_lookup_answer asked.now)
        (states store (D.state disk.old) source (O.state sink.old)) (states store (D.state disk.new) source (O.state sink.new)) result }
    ensures no_usage { result ≡ Status.Usage → ⊥ }
{
    let held = read_slot(alloc, disk, Slot::Cache);
    end(look_up_json(alloc, &held, asked), sink)
}

/// Runs the command `lookup`. The store and the input may be in any state, because nothing is read from them.
pub fn run_lookup<D: Disk, O: Sink>(
    alloc: Global,
    asked: &Lookup,
    disk: &mut D,
    sink: &mut O,
) -> Status
    ensures runs { (store : StoreState) (source : SourceState) → LookupRun asked.now
        (states store (D.state disk.old) source (O.state sink.old)) (states store (D.state disk.new) source (O.state sink.new)) result }
    ensures no_usage { result ≡ Status.Usage → ⊥ }
{
    let json = asked.json;
    if json {
        run_as_json(alloc, asked, disk, sink)
    } else {
        run_as_text(alloc, asked, disk, sink)
    }
}
