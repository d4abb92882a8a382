//! The content of a conf file.
ghost use Rattle.std.specs.Prelude.{◌≡◌, IfOk, IsErrOf};
ghost use Rattle.lib_types.specs.Counts.{raised};
ghost use Rattle.tree_face.specs.Known.{IfKnown};
ghost use Rattle.ldso_conf.specs.Endings.{read_ending};
ghost use Rattle.ldso_conf.specs.Visits.{HasContent, ReadsFile};
ghost use Rattle.ldso_conf.specs.declared.fault.ReadFault.TheVariants as faults;

use crate::fault::ReadFault;
use crate::reading::CONF_MAX;
use std::alloc::Global;
use tree_face::Store;

/// The content of the file with this key, or None if the file is too large.
#[tactic(auto, using(crate::proofs::Files::not_begun, crate::proofs::Files::too_large, crate::proofs::Files::no_room, crate::proofs::Files::not_read, crate::proofs::Files::was_read))]
pub(crate) fn content_of<S: Store>(
    alloc: Global,
    store: &mut S,
    key: &[u8],
) -> Result<Option<Vec<u8>>, ReadFault>
    ensures content { IfOk result (λ content. IfKnown (S.state store.old).held (λ held. HasContent (held key.now) content)) }
    ensures begun { IfOk result (λ _. (S.state store.new).begun ≡ raised (S.state store.old).begun 1) }
    ensures answered { IsErrOf result faults.Unseen → ⊥ }
    ensures reads { ReadsFile key.now (S.state store.old).held (read_ending result) (S.state store.old) (S.state store.new) }
{
    let size = store.begin(key)?;
    if size > CONF_MAX {
        return Ok(None);
    }
    let mut bytes = vec![in alloc; 0u8; size as usize]?;
    store.read_at(0, &mut bytes)?;
    Ok(Some(bytes))
}
