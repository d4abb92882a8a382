//! The links that an update would make.
ghost use Rattle.std.specs.Prelude.{◌≡◌, ◌++◌, flat_map, IfOk, OnOk};
ghost use Rattle.search_listing.specs.Lines.{planned_line};

use lib_types::{NoMemory, Text};
use link_plan::Planned;
use std::alloc::Global;

fn put_planned(out: &mut Vec<u8>, front: &[u8], planned: &Planned) -> Result<(), NoMemory>
    ensures { OnOk result (out.new.items ≡ out.old.items ++ planned_line front.now planned.now) }
{
    out.extend_from_slice(b"link: ")?;
    out.extend_from_slice(front)?;
    out.extend_from_slice(planned.path.as_bytes())?;
    out.extend_from_slice(b" -> ")?;
    out.extend_from_slice(planned.file.as_bytes())?;
    out.push(b'\n')?;
    Ok(())
}

/// A line for each link that an update would make. The paths of the links begin with `front`.
pub fn planned_lines(alloc: Global, front: &[u8], links: &[Planned]) -> Result<Text, NoMemory>
    ensures { IfOk result (λ text. text ≡ flat_map (planned_line front.now) links.now) }
{
    let mut out = Vec::new(alloc);
    for planned in links {
        put_planned(&mut out, front, planned)?;
    }
    Ok(Text::from_vec(out))
}
