//! What the devices over a real directory decide without a system call.
#![tactic(auto)]

mod existing;
mod folder_modes;
mod head;
mod kinds;
mod machines;
mod paths;
mod places;
mod room;
mod temporary;

pub use existing::{
    Existing, Identity, Numbers, Opened, Owner, Stamp, USUAL_MODE, existing_of, identity_of,
    is_as_read, largest, length_to_read, mode_of, mode_until_whole, numbers_of, opened_as,
    owner_of, owner_to_give, stamp_of,
};
pub use folder_modes::{FOLDER_MODE, is_closed, lacks_mode};
pub use head::{HEAD_SIZE, entries_in, strings_in};
pub use kinds::{
    is_cut, is_for_now, is_forbidden, is_missing, is_no_text, is_out_of_memory, is_there,
};
pub use machines::{foreign_machine, machine_name};
pub use paths::{divided, following, has_up, is_at_or_above, leads_on, leads_up};
pub use places::SlotPaths;
pub use room::{has_room, too_long};
pub use temporary::{MOST_NAMES, RunId, maker_of, temporary_path};
