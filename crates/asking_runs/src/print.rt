//! The command `print`.
ghost use Rattle.std.specs.Prelude.{◌≡◌, Ok, IfOk};
ghost use Rattle.std.specs.Result.{result_map_both};
ghost use Rattle.tree_face.specs.Devices.{states};
ghost use Rattle.tree_face.specs.Store.{StoreState};
ghost use Rattle.tree_face.specs.Stream.{SourceState};
ghost use Rattle.asking_runs.specs.AskCache.{IsMade, answer_of};
ghost use Rattle.asking_runs.specs.Listings.{cache_listed, listed_text};
ghost use Rattle.asking_runs.specs.Print.{PrintRun, PrintsJson, PrintsNamed, cache_name, json_print_answer, json_printed, print_answer, printed_answer};

use crate::cache::cache_in;
use crate::fault::CacheFault;
use crate::listings::Listed;
use cache_reader::CacheView;
use command_status::{Answer, Status, end};
use image_session::{SlotFault, read_slot};
use json_answers::cache_json;
use ldd_resolve::ProgramFault;
use lib_types::{Failed, NoMemory, Text};
use std::alloc::Global;
use tree_face::{Disk, Sink, Slot};

// The cache, to be printed with this name on the first line.
#[derive(Drop)]
struct Printed<'a, 'n> {
    view: CacheView<'a>,
    name: &'n [u8],
}

impl<'a, 'n> Answer for Printed<'a, 'n> {
    ghost use Rattle.asking_runs.specs.Print.{printed_answer};

    ghost answer = { λ printed. printed_answer printed.name.now printed.view };

    fn write<O: Sink>(&self, out: &mut O) -> Result<(), Failed> {
        cache_reader::print(&self.view, self.name, out)
    }

    fn is_missing(&self) -> bool {
        false
    }

    fn fault(&self) -> Option<ProgramFault> {
        None
    }
}

// The name of the usual cache, as the loader and `ldconfig -p` name it.
fn cache_name() -> &'static [u8]
    ensures { result.now ≡ cache_name }
{
    b"/etc/ld.so.cache"
}

// The answer for what was read of the cache file.
fn print<'a, 'n>(
    read: &'a Result<Option<Text>, SlotFault>,
    name: &'n [u8],
) -> Result<Printed<'a, 'n>, CacheFault>
    ensures { result_map_both (λ printed. printed_answer printed.name.now printed.view) (λ fault. fault) result ≡ answer_of (print_answer name.entry.now) read.now }
{
    let view = CacheView::parse(cache_in(read)?)?;
    Ok(Printed { view, name })
}

/// Prints the cache with this name on the first line. The store and the input may be in any state, because nothing is read from them.
pub fn run_print_named<D: Disk, O: Sink>(
    alloc: Global,
    name: &[u8],
    disk: &mut D,
    sink: &mut O,
) -> Status
    ensures runs { (store : StoreState) (source : SourceState) → PrintsNamed name.now
        (states store (D.state disk.old) source (O.state sink.old)) (states store (D.state disk.new) source (O.state sink.new)) result }
    ensures no_usage { result ≡ Status.Usage → ⊥ }
{
    let read = read_slot(alloc, disk, Slot::Cache);
    end(print(&read, name), sink)
}

// The cache as JSON.
fn json_for(alloc: Global, view: &CacheView<'_>, name: &[u8]) -> Result<Listed, NoMemory>
    ensures { IfOk result (λ listed. listed_text listed ≡ json_printed name.now view.now) }
{
    let text = cache_json(alloc, view, name)?;
    Ok(Listed {
        text,
        is_missing: false,
        fault: None,
    })
}

// The same, with the fault of a command.
fn json_of(alloc: Global, view: &CacheView<'_>, name: &[u8]) -> Result<Listed, CacheFault>
    ensures { IsMade (Ok (json_printed name.now view.now)) (cache_listed result) }
{
    let listed = json_for(alloc, view, name)?;
    Ok(listed)
}

// The cache as JSON, if it has no defect.
fn json_in(alloc: Global, bytes: &[u8], name: &[u8]) -> Result<Listed, CacheFault>
    ensures { IsMade (json_print_answer name.now bytes.now) (cache_listed result) }
{
    match CacheView::parse(bytes) {
        Ok(view) => json_of(alloc, &view, name),
        Err(defect) => Err(CacheFault::BadCache(defect)),
    }
}

// The JSON for what was read of the cache file.
fn print_json(
    alloc: Global,
    read: &Result<Option<Text>, SlotFault>,
    name: &[u8],
) -> Result<Listed, CacheFault>
    ensures { IsMade (answer_of (json_print_answer name.now) read.now) (cache_listed result) }
{
    match cache_in(read) {
        Ok(bytes) => json_in(alloc, bytes, name),
        Err(fault) => Err(fault),
    }
}

/// Prints the cache with this name as JSON. The store and the input may be in any state, because nothing is read from them.
pub fn run_print_json<D: Disk, O: Sink>(
    alloc: Global,
    name: &[u8],
    disk: &mut D,
    sink: &mut O,
) -> Status
    ensures runs { (store : StoreState) (source : SourceState) → PrintsJson name.now
        (states store (D.state disk.old) source (O.state sink.old)) (states store (D.state disk.new) source (O.state sink.new)) result }
    ensures no_usage { result ≡ Status.Usage → ⊥ }
{
    let held = read_slot(alloc, disk, Slot::Cache);
    end(print_json(alloc, &held, name), sink)
}

/// Runs the command `print`. The store and the input may be in any state, because nothing is read from them.
pub fn run_print<D: Disk, O: Sink>(alloc: Global, json: bool, disk: &mut D, sink: &mut O) -> Status
    ensures runs { (store : StoreState) (source : SourceState) → PrintRun json
        (states store (D.state disk.old) source (O.state sink.old)) (states store (D.state disk.new) source (O.state sink.new)) result }
    ensures no_usage { result ≡ Status.Usage → ⊥ }
{
    let name = cache_name();
    if json {
        run_print_json(alloc, name, disk, sink)
    } else {
        run_print_named(alloc, name, disk, sink)
    }
}
