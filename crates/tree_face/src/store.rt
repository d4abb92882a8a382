//! The interface through which files are read.
ghost use Rattle.std.specs.Prelude.{IsSome};
ghost use Rattle.tree_face.specs.Store.{StoreState, Begins, Reads};

use lib_types::Failed;

/// Files by key. `begin` opens a file, and `read_at` then reads its content in pieces.
///
/// The contents never change. If they are known, `begin` fails for a key that is not in the store, and the count of
/// faults stays the same. Every other error raises the count of faults.
pub trait Store {
    ghost state: { Self → StoreState };

    /// Opens the file with this key, and returns the length of its content. After an error no file is open.
    fn begin(&mut self, key: &[u8]) -> Result<u64, Failed>
        ensures { Begins (state self.old) (state self.new) key.now result };

    /// Reads from an offset of the open file into the front of the buffer: as many bytes as are left and fit, and 0 bytes
    /// past the end. After an error the buffer may have any bytes.
    fn read_at(&mut self, at: u64, buf: &mut [u8]) -> Result<usize, Failed>
        requires { IsSome (state self.old).size }
        ensures { Reads (state self.old) (state self.new) at buf.old buf.new result };
}
