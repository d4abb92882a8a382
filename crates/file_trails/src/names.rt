//! The names of a path text.
ghost use Rattle.std.specs.Prelude.{◌≡◌, ◌++◌, IfOk, OnOk};
ghost use Rattle.image_tree.specs.Paths.{components};

use lib_types::{NoMemory, Separator, Text, Texts, split};
use std::alloc::Global;
use tree_face::is_kept;

/// The names of a path text, in order.
pub(crate) fn names_of(alloc: Global, text: &[u8]) -> Result<Texts, NoMemory>
    ensures { IfOk result (λ names. names ≡ components text.now) }
{
    let mut names = Texts::new(alloc);
    for part in split(Separator::Byte(b'/'), text) {
        if is_kept(part) {
            names.push(Text::copy_of(alloc, part)?)?;
        }
    }
    Ok(names)
}

/// Adds copies of more names.
pub(crate) fn add_copies(alloc: Global, names: &mut Texts, more: &[Text]) -> Result<(), NoMemory>
    ensures { OnOk result (names.new ≡ names.old ++ more.now) }
{
    for name in more {
        names.push(Text::copy_of(alloc, name.as_bytes())?)?;
    }
    Ok(())
}
