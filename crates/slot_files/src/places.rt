//! The existing slots, and the paths of their files.
ghost use Rattle.std.specs.Prelude.{◌≡◌};
ghost use Rattle.device_rules.specs.Places.{IsIn};
ghost use Rattle.slot_files.specs.Places.{file_in, has_file};

use device_rules::SlotPaths;
use tree_face::Slot;

/// The files of an image's slots, or only the auxiliary cache file.
#[derive(Drop)]
pub enum Places {
    Image(SlotPaths),
    /// The name of the auxiliary cache.
    Aux(String),
}

impl Places {
    /// Whether this slot has a file.
    pub fn has(&self, slot: Slot) -> bool
        ensures { result ≡ has_file self.now slot }
    {
        match self {
            Places::Image(_) => true,
            Places::Aux(_) => slot == Slot::Aux,
        }
    }

    /// The path of a slot's file, below the directory.
    pub fn file_of(&self, slot: Slot) -> &str
        ensures { result.now ≡ file_in self.now slot }
    {
        match self {
            Places::Image(paths) => paths.file_of(slot),
            Places::Aux(name) => name.as_str(),
        }
    }

    /// The directory of a slot's file, and its name.
    pub fn place_of(&self, slot: Slot) -> (&str, &str)
        ensures { IsIn result.0.now result.1.now (file_in self.now slot) }
    {
        match self {
            Places::Image(paths) => paths.place_of(slot),
            Places::Aux(name) => ("", name.as_str()),
        }
    }
}
