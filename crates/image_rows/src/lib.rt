//! The words for an image in the rows of tests: the manifest, the files of the store, the cache and the auxiliary cache, and the loader's
//! environment. A test program lists the words of the functions that it calls (`MANIFEST` of `tree_of`, `FILES` of `held_of`, ..). It
//! defines words of its own only for its inputs and its expected results.
#![tactic(auto)]

mod auxes;
mod disk;
mod files;
mod lines;
mod loader;
mod tree;

pub use auxes::{AUX, aux_of, records_in};
pub use disk::{CACHE, DISK_FAILS, cache_in, disk_of, slots_in};
pub use files::{FILES, Pairs, STORE_FAILS, held_of, is_made, store_of};
pub use loader::{LOADER, env_of};
pub use tree::{MANIFEST, tree_of};
