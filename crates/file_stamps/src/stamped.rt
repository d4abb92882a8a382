//! Analyses from stamps.
ghost use Rattle.std.specs.Prelude.{◌≡◌, ◌++◌, [], IfOk, IfSome, OnOk, Some};
ghost use Rattle.std.specs.List.{cons_option};
ghost use Rattle.std.specs.Option.{option_and_then, option_copied, option_map};
ghost use Rattle.aux_cache.specs.Stamps.{AreRecordable, IsRecordable, stamp_of};
ghost use Rattle.file_stamps.specs.Stamped.{of_stamp, stamp_by, with_stamps};

use aux_cache::{GatheredStamps, Stamp, Stamps};
use file_table::copy_of;
use lib_types::{Analysis, NoMemory};
use std::alloc::Global;
use tree_face::Id;

// The stamp with this identity. A loaded stamp has priority over one that was made.
#[tactic(auto, using(crate::proofs::Stamps::found_first, crate::proofs::Stamps::found_second, crate::proofs::Stamps::recordable_found))]
fn find<'a>(loaded: &'a Stamps, made: &'a GatheredStamps, id: Id) -> Option<&'a Stamp>
    requires { AreRecordable loaded.now }
    ensures stamp { option_copied result ≡ stamp_of (loaded.now ++ made.now) id }
    ensures recordable { IfSome result (λ stamp. IsRecordable stamp.now.analysis) }
{
    match loaded.find(&id) {
        Some(stamp) => Some(stamp),
        None => made.find(id),
    }
}

/// The analysis from the stamp of a file's identity, if the file has an identity and the identity has a stamp.
pub(crate) fn info(
    alloc: Global,
    loaded: &Stamps,
    made: &GatheredStamps,
    id: Option<Id>,
) -> Result<Option<Analysis>, NoMemory>
    requires { AreRecordable loaded.now }
    ensures info { IfOk result (λ info. info ≡ option_map of_stamp (option_and_then (stamp_of (loaded.now ++ made.now)) id)) }
    ensures recordable { IfOk result (λ info. IfSome info IsRecordable) }
{
    let Some(id) = id else {
        return Ok(None);
    };
    match find(loaded, made, id) {
        Some(stamp) => Ok(Some(copy_of(alloc, &stamp.analysis)?)),
        None => Ok(None),
    }
}

/// Adds the stamp of a file to those that were made, if the file has an identity.
pub(crate) fn keep(
    alloc: Global,
    made: &mut GatheredStamps,
    id: Option<Id>,
    analysis: &Analysis,
) -> Result<(), NoMemory>
    requires { IsRecordable analysis.now }
    ensures { OnOk result (made.new ≡ with_stamps made.old (cons_option (stamp_by id (Some analysis.now)) [])) }
{
    let Some(id) = id else {
        return Ok(());
    };
    let analysis = copy_of(alloc, analysis)?;
    made.insert(Stamp { id, analysis })?;
    Ok(())
}
