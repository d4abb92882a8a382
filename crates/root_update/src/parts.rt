//! What an update of a directory reads and writes.
use hwcap_dirs::Scope;

/// What an update does with the auxiliary cache.
#[derive(Clone, Copy, Debug, PartialEq, Eq)]
pub enum AuxUse {
    /// The auxiliary cache isn't read or written.
    Unused,
    /// It isn't read, and is replaced.
    Replaced,
    /// It is read, and then replaced.
    Updated,
}

/// Where an update of a directory looks, and what it writes. What it finds doesn't depend on what it writes.
#[derive(Drop)]
pub struct RootParts {
    pub scope: Scope,
    /// The links of its libraries' sonames.
    pub links: bool,
    /// The cache.
    pub cache: bool,
    pub aux: AuxUse,
}
