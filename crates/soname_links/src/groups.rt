//! The libraries of a directory, grouped by soname.
ghost use Rattle.std.specs.Prelude.{◌≡◌, Some, IfOk};
ghost use Rattle.soname_links.specs.Marks.{is_odd};
ghost use Rattle.soname_links.specs.Survey.{groups, keyed, with_library};

use lib_types::{NoMemory, Seq};
use place_libraries::{BySoname, Gather, Library, gather_by_soname, is_preferred};
use std::alloc::Global;

/// The libraries that have one soname.
#[derive(Drop)]
pub(crate) struct Group<'a> {
    pub(crate) best: Library<'a>,
    /// Whether two of them have different ABIs.
    pub(crate) mixed: bool,
}

/// The libraries of each soname, ordered by the bytes of the sonames.
pub(crate) type Groups<'a> = Vec<BySoname<'a, Group<'a>>>;

// Whether a library's ABI differs from that of the best one.
fn is_odd(best: &Library<'_>, library: &Library<'_>) -> bool
    ensures { result ≡ is_odd (Some best.now) library.now }
{
    best.abi.flags() != library.abi.flags()
}

// Only the best library is kept. The ABIs are all equal exactly if each library has the ABI of the best one before it.
impl<'a> Gather<Library<'a>> for Group<'a> {
    ghost step = { with_library };

    fn first(library: Library<'a>) -> Self {
        Group {
            best: library,
            mixed: false,
        }
    }

    fn with(self, library: Library<'a>) -> Self {
        let mixed = self.mixed || is_odd(&self.best, &library);
        let best = if is_preferred(&library, &self.best) {
            library
        } else {
            self.best
        };
        Group { best, mixed }
    }
}

fn by_sonames<'a>(
    alloc: Global,
    libraries: Vec<Library<'a>>,
) -> Result<Vec<BySoname<'a, Library<'a>>>, NoMemory>
    ensures { IfOk result (λ items. items.items ≡ keyed libraries.entry.items) }
{
    let mut items = Vec::with_capacity(alloc, libraries.len())?;
    for library in libraries {
        items.push(BySoname::new(library.soname(), library))?;
    }
    Ok(items)
}

/// Groups the libraries of a directory by soname.
pub(crate) fn groups_in<'a>(
    alloc: Global,
    libraries: Seq<Library<'a>>,
) -> Result<Groups<'a>, NoMemory>
    ensures { IfOk result (λ found. found.items ≡ groups libraries.entry) }
{
    let items = by_sonames(alloc, libraries.into_vec())?;
    let groups = gather_by_soname(alloc, items)?;
    Ok(groups)
}
