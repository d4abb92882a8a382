//! The whole listing, one search directory at a time.
ghost use Rattle.std.specs.Prelude.{◌≡◌, ◌++◌, flat_map, IfOk, OnOk};
ghost use Rattle.search_listing.specs.Listing.{library_text, listing_text};

use crate::lines::{put_library_line, put_place_line};
use crate::made::Made;
use crate::named::Named;
use hwcap_dirs::{Place, Places};
use ldso_conf::Conf;
use lib_types::{NoMemory, Text};
use link_plan::Planned;
use path_walk::join_into;
use place_libraries::{BestLibraries, PlaceBests};
use std::alloc::Global;

// Adds the lines of the libraries of a search directory.
fn put_libraries(
    alloc: Global,
    out: &mut Vec<u8>,
    made: &Made<'_>,
    place: &Place,
    bests: &BestLibraries,
) -> Result<(), NoMemory>
    ensures { OnOk result (out.new.items ≡ out.old.items ++ flat_map (library_text made.now place.now) bests.now) }
{
    let mut path = Vec::new(alloc);
    for library in bests.iter() {
        join_into(&mut path, place.real.as_bytes(), library.soname)?;
        let is_changed = made.has(path.as_slice());
        put_library_line(out, &library, is_changed)?;
    }
    Ok(())
}

/// The output of a verbose update, given the search directories, the best libraries of each, and the links that were made. The paths of
/// directories begin with `front`.
pub fn listing(
    alloc: Global,
    front: &[u8],
    conf: &Conf,
    places: &Places,
    bests: &PlaceBests,
    links: &[Planned],
) -> Result<Text, NoMemory>
    ensures { IfOk result (λ text. text ≡ listing_text front.now conf.now places.now bests.now links.now) }
{
    let named = Named::of(alloc, conf)?;
    let made = Made::of(alloc, links)?;
    let mut out = Vec::new(alloc);
    let mut origin = None;
    for (place, bests) in places.as_slice().iter().zip(bests.iter()) {
        origin = named.origin_after(origin, place);
        put_place_line(alloc, &mut out, front, place, origin)?;
        put_libraries(alloc, &mut out, &made, place, bests)?;
    }
    Ok(Text::from_vec(out))
}
