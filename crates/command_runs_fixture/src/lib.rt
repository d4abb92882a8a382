//! Devices in memory for one run of a command, their expected contents after it, and libraries and caches that several tests use. The
//! tests of the commands are in several crates, so that each of them can be checked quickly.
#![tactic(auto)]

mod libraries;
mod narrow_sink;
mod samples;
mod setting;

pub use libraries::{Held, all, library, libz, libz_held, nameless};
pub use narrow_sink::NarrowSink;
pub use samples::{EMPTY_CACHE, NO_STAMPS, ONE_CACHE, ONE_SEPARATE, THREE_CACHE};
pub use setting::{
    Devices, LIBZ_KEY, LIBZ_MANIFEST, LIBZ_REPORT, OLD, Pairs, Setting, Wanted, copy, done, has,
    image, is_left, make_devices, number, one, refused, replacing_calls, run_into, run_script,
    run_update,
};
