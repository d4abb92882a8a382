//! The reading of the conf file in a whole tree.
ghost use Rattle.std.specs.Prelude.{◌≡◌, ◌≤◌, length, All, IfOk};
ghost use Rattle.lib_types.specs.Counts.{raised};
ghost use Rattle.tree_face.specs.Known.{IfKnown};
ghost use Rattle.ldso_conf.specs.Endings.{ending_of};
ghost use Rattle.ldso_conf.specs.Reading.{ConfFile as ConfFileAt, IsConfOf, ReadsConf};

use crate::fault::{ConfFault, ReadFault};
use crate::kinds::Conf;
use crate::reading::read_conf_in;
use conf_views::WholeView;
use std::alloc::Global;
use tree_face::{PATH_MAX, Store, Tree};

/// Reads the conf file at this path and all files that it includes.
pub fn read_conf<S: Store>(
    alloc: Global,
    path: &[u8],
    tree: &Tree,
    store: &mut S,
) -> Result<Conf, ConfFault>
    ensures conf { IfOk result (λ conf. IfKnown (S.state store.old).held (λ held. IsConfOf (ConfFileAt path.now) conf held tree.now)) }
    ensures short { IfOk result (λ conf. All (λ dir. length dir ≤ PATH_MAX) conf.dirs) }
    ensures begun { IfOk result (λ conf. (S.state store.new).begun ≡ raised (S.state store.old).begun conf.files) }
    ensures reads { ReadsConf (ConfFileAt path.now) tree.now (ending_of result) (S.state store.old) (S.state store.new) }
{
    let mut view = WholeView::new(tree);
    match read_conf_in(alloc, path, &mut view, store) {
        Ok(conf) => Ok(conf),
        Err(ReadFault::StoreFault) => Err(ConfFault::StoreFault),
        Err(ReadFault::NoMemory) => Err(ConfFault::NoMemory),
        Err(ReadFault::Unseen) => unreachable!(),
    }
}
