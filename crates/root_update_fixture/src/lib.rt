//! A directory in memory, as a row of a table describes it, its update, and what an update leaves in it. The tests of the update are in
//! several crates, so that each of them can be checked quickly.
#![tactic(auto)]

mod devices;
mod left;
mod tree;

pub use devices::{
    Devices, Failing, NONE, RUN, TAG, aux_use, devices_of, parts_of, store_of, update,
};
pub use left::{file_left, has_tree, new_file, old_file, tree_left, writing_calls};
pub use tree::{link_node, links_in, put_link, whole_tree};
