//! Why layers make no image.
ghost use Rattle.std.specs.Prelude.{◌≡◌};
ghost use Rattle.layer_runs.specs.Faults.{of_image, of_trees, of_union};

use command_status::{LayerKind, Status};
use layer_trees::LayersFault;
use layer_union::UnionFault;

/// Why layers make no image.
#[derive(Clone, Copy, Debug, PartialEq, Eq)]
pub(crate) enum ImageFault {
    /// The manifest of a layer can't be read.
    StoreFault,
    /// This layer, counted from 0, can't be part of an image.
    BadLayer { layer: u64, kind: LayerKind },
    NoMemory,
}

impl From<LayersFault> for ImageFault {
    ghost from_gives = { λ fault e. e ≡ of_trees fault };

    fn from(fault: LayersFault) -> Self {
        match fault {
            LayersFault::StoreFault => ImageFault::StoreFault,
            LayersFault::Bad { layer, fault } => ImageFault::BadLayer {
                layer,
                kind: LayerKind::Manifest(fault),
            },
            LayersFault::NoMemory => ImageFault::NoMemory,
        }
    }
}

impl From<UnionFault> for ImageFault {
    ghost from_gives = { λ fault e. e ≡ of_union fault };

    fn from(fault: UnionFault) -> Self {
        match fault {
            UnionFault::BadWhiteout { layer, node } => ImageFault::BadLayer {
                layer: layer as u64,
                kind: LayerKind::Whiteout { node: node as u64 },
            },
            UnionFault::Full { layer } => ImageFault::BadLayer {
                layer: layer as u64,
                kind: LayerKind::Full,
            },
            UnionFault::NoMemory => ImageFault::NoMemory,
        }
    }
}

impl From<ImageFault> for Status {
    ghost from_gives = { λ fault status. status ≡ of_image fault };

    fn from(fault: ImageFault) -> Self {
        match fault {
            ImageFault::StoreFault => Status::StoreFault,
            ImageFault::BadLayer { layer, kind } => Status::BadLayer { layer, kind },
            ImageFault::NoMemory => Status::NoMemory,
        }
    }
}
