//! The modes of directories that are created for a slot.
ghost use Rattle.std.specs.Prelude.{◌≡◌, ◌↔◌, ◌≢◌, IsTrue, bit_and};

/// The mode of directories that are created for a slot, whatever the umask is.
pub const FOLDER_MODE: u32 = 0o755;

/// Whether a new directory of this mode still needs `FOLDER_MODE`, because the umask removed some of it.
pub fn lacks_mode(mode: u32) -> bool
    ensures { IsTrue result ↔ bit_and mode 0o777 ≢ 0o755 }
{
    mode & 0o777 != FOLDER_MODE
}

/// Whether this mode closes a directory to others: not everybody may list and enter it.
pub fn is_closed(mode: u32) -> bool
    ensures { IsTrue result ↔ bit_and mode 0o055 ≢ 0o055 }
{
    mode & 0o055 != 0o055
}
