//! Why the layers have no trees.
ghost use Rattle.std.specs.Prelude.{◌≡◌};
ghost use Rattle.layer_trees.specs.Faults.{numbered, of_manifest};
ghost use Rattle.layer_trees.specs.declared.fault.LayerFault.TheVariants as faults;

use lib_types::{Failed, NoMemory};
use mtree_manifest::ManifestFault;
use std::alloc::AllocError;

/// Why a layer has no tree.
#[derive(Clone, Copy, Debug, PartialEq, Eq)]
pub(crate) enum LayerFault {
    /// The text of its manifest can't be read.
    StoreFault,
    /// The text isn't the manifest of a tree. The inner error is never NoMemory.
    Bad(ManifestFault),
    NoMemory,
}

/// Why layers have no trees.
#[derive(Clone, Copy, Debug, PartialEq, Eq)]
pub enum LayersFault {
    /// The text of a manifest can't be read.
    StoreFault,
    /// The text of this layer, counted from 0, isn't the manifest of a tree. The inner error is never NoMemory.
    Bad { layer: u64, fault: ManifestFault },
    NoMemory,
}

impl LayerFault {
    /// The fault of layers of which the one with this number has this fault.
    pub(crate) fn at(self, layer: u64) -> LayersFault
        ensures { result ≡ numbered layer self }
    {
        match self {
            LayerFault::StoreFault => LayersFault::StoreFault,
            LayerFault::Bad(fault) => LayersFault::Bad { layer, fault },
            LayerFault::NoMemory => LayersFault::NoMemory,
        }
    }
}

impl From<Failed> for LayerFault {
    ghost from_gives = { λ _ e. e ≡ faults.StoreFault };

    fn from(_: Failed) -> Self {
        LayerFault::StoreFault
    }
}

impl From<AllocError> for LayerFault {
    ghost from_gives = { λ _ e. e ≡ faults.NoMemory };

    fn from(_: AllocError) -> Self {
        LayerFault::NoMemory
    }
}

impl From<ManifestFault> for LayerFault {
    ghost from_gives = { λ fault e. e ≡ of_manifest fault };

    fn from(fault: ManifestFault) -> Self {
        match fault {
            ManifestFault::NoMemory => LayerFault::NoMemory,
            _ => LayerFault::Bad(fault),
        }
    }
}

impl From<NoMemory> for LayersFault {
    ghost use Rattle.layer_trees.specs.declared.fault.LayersFault.TheVariants as all_faults;

    ghost from_gives = { λ _ e. e ≡ all_faults.NoMemory };

    fn from(_: NoMemory) -> Self {
        LayersFault::NoMemory
    }
}
