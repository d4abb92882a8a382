//! Linker scripts, which have names of libraries but aren't ELF files.
ghost use Rattle.std.specs.Prelude.{◌≡◌};
ghost use Rattle.name_order.specs.LibraryName.{contains};
ghost use Rattle.tree_real.specs.LinkerScript.{is_linker_script};

/// The number of first bytes of a file that show whether it is a linker script.
pub(crate) const SCRIPT_HEAD: usize = 512;

// Whether the text occurs in the bytes.
#[tactic(auto, using(crate::proofs::Contained::contained_laws))]
fn contains(text: &[u8], bytes: &[u8]) -> bool
    ensures { result ≡ contains text.now bytes.now }
{
    let mut rest = bytes;
    while !rest.is_empty() {
        if rest.starts_with(text) {
            return true;
        }
        rest = &rest[1..];
    }
    rest.starts_with(text)
}

/// Whether a file that begins with these bytes is a linker script.
pub(crate) fn is_linker_script(head: &[u8]) -> bool
    ensures { result ≡ is_linker_script head.now }
{
    contains(b"GROUP", head) || contains(b"GNU ld script", head)
}
