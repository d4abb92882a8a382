//! The I/O interfaces of the product: the traits, and implementations in memory. Also re-exports `image_tree`, the tree of an image.
#![tactic(auto)]

mod devices;
mod disk;
mod memory;
mod store;
mod stream;

pub use devices::Devices;
pub use disk::{Call, Disk, DiskRead, DoneCall, Slot, Tag};
pub use image_tree::{
    Children, Id, Kind, Listing, NODE_TEXT_MAX, NODES_MAX, Node, Nodes, PATH_MAX, Tree, TreeFault,
    is_below, is_kept, is_node, is_path,
};
pub use memory::{
    MemDisk, MemSink, MemSource, MemStore, SureDisk, SureSink, SureSource, SureStore,
};
pub use store::Store;
pub use stream::{ReadFault, Sink, Source, put_all, read_all};
