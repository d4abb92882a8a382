//! The preparation of an update's texts.
ghost use Rattle.std.specs.Prelude.{◌≡◌, ℕ, false, true, length, IfErr, IfOk, IsErrOf, IsTrue, None, Some};
ghost use Rattle.aux_cache.specs.AuxFile.{damage};
ghost use Rattle.aux_cache.specs.AuxText.{aux_text};
ghost use Rattle.aux_cache.specs.Stamps.{AreRecordable};
ghost use Rattle.image_session.specs.Aux.{stamps_of_slot};
ghost use Rattle.place_libraries.specs.Best.{bests_of};
ghost use Rattle.library_files.specs.Search.{followed};
ghost use Rattle.file_table.specs.Table.{analysis_at};
ghost use Rattle.hwcap_dirs.specs.Places.{are_spelled};
ghost use Rattle.ldconfig_core.specs.Looked.{HasLooked};
ghost use Rattle.ldconfig_core.specs.Faults.{is_of_making, is_of_preparing, is_size_fault};
ghost use Rattle.ldconfig_core.specs.Outcome.{is_too_long, manifest_with, update_outcome};
ghost use Rattle.ldconfig_core.specs.Stages.{looked_of, report_input_of, stored_image, texts_of, HasTooMany, IfTree, IsMadeOf, IsTooLarge};
ghost use Rattle.ldconfig_core.specs.Texts.{manifest_bytes};
ghost use Rattle.library_search.specs.Ldconfig.{links_in};
ghost use Rattle.soname_links.specs.Apply.{is_plan};
ghost use Rattle.hwcap_dirs.specs.declared.kinds.Scope.TheVariants.{Image};
ghost use Rattle.ldconfig_core.specs.Update.{AreUpdateTexts, IsAnswer, IsUpdated, ReadsUpdate, update_ending};
ghost use Rattle.tree_face.specs.Known.{IfKnown};
ghost use Rattle.update_report.specs.Report.{report_text};

use crate::fault::UpdateFault;
use crate::report::Report;
use aux_cache::{STAMPS_MAX, Stamps};
use cache_entries::entries_by;
use hwcap_dirs::{Dirs, Scope};
use image_session::Session;
use ldso_conf::Conf;
use lib_types::{Entries, NoMemory};
use library_search::{Found, find};
use link_plan::Plan;
use mtree_manifest::MANIFEST_MAX;
use place_libraries::PlaceBests;
use std::alloc::Global;
use tree_face::{Store, Tree};
use update_report::{Findings, report, skips_in};

/// The search directories, and the libraries found there.
#[derive(Drop)]
pub struct Looked {
    pub conf: Conf,
    pub dirs: Dirs,
    /// The best library of each soname in each search directory.
    pub bests: PlaceBests,
}

/// The texts that an update will write, and its report.
#[derive(Drop)]
pub struct Prepared {
    /// The planned links.
    pub plan: Plan,
    /// The new manifest, if the image has one and was edited or links are planned.
    pub manifest: Option<Vec<u8>>,
    pub cache: Vec<u8>,
    pub aux: Vec<u8>,
    /// The stamps in the text of the auxiliary cache.
    pub stamps: Stamps,
    pub report: Report,
    pub looked: Looked,
}

// The manifest of an image's tree with these links, if the tree was edited or there are links.
fn image_manifest(
    alloc: Global,
    tree: &Tree,
    edited: bool,
    plan: &Plan,
) -> Result<Option<Vec<u8>>, UpdateFault>
    ensures text { IfOk result (λ text. manifest_bytes text ≡ manifest_with Image edited tree.now plan.now) }
    ensures short { IfOk result (λ _. is_too_long (manifest_with Image edited tree.now plan.now) ≡ false) }
    ensures reads { IfOk result (λ text. IfTree (manifest_bytes text) tree.now) }
    ensures too_large { (nodes bytes : ℕ) → IsErrOf result (UpdateFault.TooLarge nodes bytes) → IsTooLarge Image edited tree.now plan.now nodes bytes }
    ensures others { IfErr result (λ fault. is_size_fault fault ≡ true) }
{
    if !edited && plan.is_empty() {
        return Ok(None);
    }
    let text = mtree_manifest::write(alloc, tree)?;
    if text.len() > MANIFEST_MAX {
        return Err(UpdateFault::TooLarge {
            nodes: tree.len() as u64,
            bytes: text.len() as u64,
        });
    }
    Ok(Some(text))
}

// The manifest that is written for the tree with these links, if there is one.
fn new_manifest(
    alloc: Global,
    scope: &Scope,
    tree: &Tree,
    edited: bool,
    plan: &Plan,
) -> Result<Option<Vec<u8>>, UpdateFault>
    ensures text { IfOk result (λ text. manifest_bytes text ≡ manifest_with scope.now edited tree.now plan.now) }
    ensures short { IfOk result (λ _. is_too_long (manifest_with scope.now edited tree.now plan.now) ≡ false) }
    ensures reads { IfOk result (λ text. IfTree (manifest_bytes text) tree.now) }
    ensures too_large { (nodes bytes : ℕ) → IsErrOf result (UpdateFault.TooLarge nodes bytes) → IsTooLarge scope.now edited tree.now plan.now nodes bytes }
    ensures others { IfErr result (λ fault. is_size_fault fault ≡ true) }
{
    match scope {
        Scope::Image => image_manifest(alloc, tree, edited, plan),
        Scope::Root { .. } | Scope::Only { .. } => Ok(None),
    }
}

// The report of the search's results.
fn report_of(
    alloc: Global,
    damaged: Option<u64>,
    found: &Found,
    entries: &Entries,
) -> Result<Report, NoMemory>
    ensures text { IfOk result (λ report. report.text ≡ report_text (report_input_of damaged found.now entries.now)) }
    ensures libs { IfOk result (λ report. report.libs ≡ length entries.now) }
    ensures links { IfOk result (λ report. report.links ≡ length found.now.links.plan) }
    ensures opened { IfOk result (λ report. report.opened ≡ found.now.search.files.begun) }
{
    let search = &found.search;
    let skips = skips_in(alloc, &search.files.table)?;
    let text = report(
        alloc,
        &Findings {
            damaged,
            conf: &search.conf.reports,
            dirs: &search.dirs,
            plan: &found.links.plan,
            blocked: &found.links.blocked,
            mixed: &found.links.mixed,
            skips: &skips,
            dangling: &found.followed.dangling,
            entries,
            opened: search.files.begun,
        },
    )?;
    Ok(Report {
        text,
        libs: count(entries.len())?,
        links: count(found.links.plan.len())?,
        opened: search.files.begun as u64,
    })
}

fn count(items: usize) -> Result<u32, NoMemory>
    ensures { IfOk result (λ n. n ≡ items) }
{
    match u32::try_from(items) {
        Ok(n) => Ok(n),
        Err(_) => Err(NoMemory),
    }
}

// The results of the search that are still needed after the entries are built.
#[derive(Drop)]
struct Kept {
    plan: Plan,
    stamps: Stamps,
    looked: Looked,
}

fn kept_of(alloc: Global, found: Found) -> Result<Kept, NoMemory>
    ensures plan { IfOk result (λ kept. kept.plan ≡ found.links.plan) }
    ensures stamps { IfOk result (λ kept. kept.stamps ≡ found.search.files.stamps) }
    ensures recordable { IfOk result (λ kept. AreRecordable kept.stamps) }
    ensures looked { IfOk result (λ kept. kept.looked ≡ looked_of found) }
{
    let links = found.links;
    let search = found.search;
    let files = search.files;
    let stamps = files.stamps.into_stamps(alloc)?;
    let looked = Looked {
        conf: search.conf,
        dirs: search.dirs,
        bests: links.bests,
    };
    Ok(Kept {
        plan: links.plan,
        stamps,
        looked,
    })
}

// The auxiliary cache with these stamps. A tree has fewer files than the maximum number of stamps.
fn aux_of(alloc: Global, stamps: &Stamps) -> Result<Vec<u8>, NoMemory>
    requires recordable { AreRecordable stamps.now }
    ensures text { IfOk result (λ aux. aux.items ≡ aux_text stamps.now) }
    ensures undamaged { IfOk result (λ aux. damage aux.items ≡ None) }
    ensures read { IfOk result (λ aux. stamps_of_slot (Some aux.items) ≡ stamps.now) }
{
    if stamps.len() > STAMPS_MAX {
        return Err(NoMemory);
    }
    aux_cache::write(alloc, stamps)
}

/// Builds the texts of an update from the results of its search, in the tree with the planned links. `edited` says whether the tree was
/// edited before the update, and `damaged` where the loaded auxiliary cache is malformed.
///
/// `found` is from a search of this tree, or of a tree that has the same in the search directories.
pub fn prepare_found(
    alloc: Global,
    scope: &Scope,
    tree: &Tree,
    edited: bool,
    damaged: Option<u64>,
    found: Found,
) -> Result<Prepared, UpdateFault>
    requires spelled { IsTrue (are_spelled found.search.dirs.places) }
    requires bests { found.links.bests ≡ bests_of (analysis_at found.search.files.table) tree.now found.search.dirs.places }
    requires links { found.followed.links ≡ followed tree.now found.search.dirs.places }
    ensures made { IfOk result (IsMadeOf scope.now edited damaged found tree.now) }
    ensures recordable { IfOk result (λ prepared. AreRecordable prepared.stamps) }
    ensures too_large { (nodes bytes : ℕ) → IsErrOf result (UpdateFault.TooLarge nodes bytes) → IsTooLarge scope.now edited tree.now found.links.plan nodes bytes }
    ensures too_many { (count : ℕ) → IsErrOf result (UpdateFault.TooMany count) → HasTooMany scope.now edited found tree.now count }
    ensures others { IfErr result (λ fault. is_of_making fault ≡ true) }
{
    let manifest = new_manifest(alloc, scope, tree, edited, &found.links.plan)?;
    let entries = entries_by(
        alloc,
        tree,
        &found.search.dirs,
        &found.search.files.table,
        &found.links.bests,
        &found.followed.links,
    )?;
    let report = report_of(alloc, damaged, &found, &entries)?;
    let kept = kept_of(alloc, found)?;
    let cache = cache_writer::write(alloc, &entries)?;
    let aux = aux_of(alloc, &kept.stamps)?;
    Ok(Prepared {
        plan: kept.plan,
        manifest,
        cache,
        aux,
        stamps: kept.stamps,
        report,
        looked: kept.looked,
    })
}

/// Builds the texts of an update, and puts the planned links into the tree. Without a manifest, the caller must create the links.
pub fn prepare<S: Store>(
    alloc: Global,
    scope: &Scope,
    image: &mut Session,
    store: &mut S,
) -> Result<Prepared, UpdateFault>
    ensures plan { IfOk result (λ prepared. IfKnown (S.state store.old).held (λ held. prepared.plan ≡ links_in scope.now held image.old.tree image.old.stamps)) }
    ensures valid { IfOk result (λ prepared. IsTrue (is_plan prepared.plan)) }
    ensures updated { IfOk result (λ prepared. IfKnown (S.state store.old).held
        (λ held. IsUpdated scope.now held image.old (stored_image image.new.tree prepared.stamps, prepared.report))) }
    ensures recordable { IfOk result (λ prepared. AreRecordable prepared.stamps) }
    ensures looked { IfOk result (λ prepared. IfKnown (S.state store.old).held (λ held. HasLooked scope.now held image.old prepared.looked)) }
    ensures texts { IfOk result (λ prepared. AreUpdateTexts scope.now image.old (S.state store.old).held (texts_of prepared)) }
    ensures answers { IfKnown (S.state store.old).held
        (λ held. IsAnswer (update_outcome scope.now held image.old) result (S.state store.old) (S.state store.new)) }
    ensures others { IfErr result (λ fault. is_of_preparing fault ≡ true) }
    ensures reads { ReadsUpdate scope.now image.old (update_ending result) (S.state store.old) (S.state store.new) }
{
    let found = find(alloc, scope, &mut image.tree, store, &image.stamps)?;
    // The loaded stamps are no longer needed. Free them before building the output.
    image.stamps = Stamps::new(alloc);
    let prepared = prepare_found(
        alloc,
        scope,
        &image.tree,
        image.edited,
        image.damaged,
        found,
    )?;
    Ok(prepared)
}
