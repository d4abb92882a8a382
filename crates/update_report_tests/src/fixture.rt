// Findings in memory.
use hwcap_dirs::{Dirs, Place};
use ldso_conf::{ConfKind, ConfReport, ConfReports};
use lib_types::{Abi, Defect, Entries, Entry, NoMemory, Seq, Text, Texts};
use link_plan::{Mark, Marks, Plan, Planned};
use std::alloc::Global;
use std::test::Fail;
use update_report::{Findings, Skipped, Skips, report};

/// One finding.
#[derive(Clone, Copy)]
pub(crate) enum Found<'a> {
    Conf(&'a str, ConfKind),
    Absent(&'a str),
    /// A search directory, by its path as written.
    Place(&'a str),
    /// A link: the index of its search directory, its soname and its file.
    Link(u32, &'a str, &'a str),
    Blocked(u32, &'a str),
    Mixed(u32, &'a str),
    Skip(&'a str, Defect),
    Dangling(&'a str),
    /// An entry by its soname.
    Entry(&'a str),
}

/// The findings of each kind.
#[derive(Drop)]
struct Kept {
    conf: ConfReports,
    dirs: Dirs,
    plan: Plan,
    blocked: Marks,
    mixed: Marks,
    skips: Skips,
    dangling: Texts,
    entries: Entries,
}

fn text(alloc: Global, text: &str) -> Result<Text, NoMemory> {
    Text::copy_of(alloc, text.as_bytes())
}

fn place(alloc: Global, spelled: &str) -> Result<Place, NoMemory> {
    Ok(Place {
        spelled: text(alloc, spelled)?,
        real: text(alloc, "/real")?,
        cap: None,
    })
}

fn planned(alloc: Global, place: u32, soname: &str, file: &str) -> Result<Planned, NoMemory> {
    Ok(Planned {
        place,
        soname: text(alloc, soname)?,
        file: text(alloc, file)?,
        path: text(alloc, "/real/path")?,
    })
}

fn mark(alloc: Global, place: u32, soname: &str) -> Result<Mark, NoMemory> {
    Ok(Mark {
        place,
        soname: text(alloc, soname)?,
    })
}

fn entry(alloc: Global, soname: &str) -> Result<Entry, NoMemory> {
    Ok(Entry {
        soname: text(alloc, soname)?,
        abi: Abi::X86_64,
        cap: None,
        path: text(alloc, "/path")?,
        place: 0,
    })
}

impl Kept {
    fn new(alloc: Global) -> Kept {
        Kept {
            conf: Seq::new(alloc),
            dirs: Dirs {
                places: Seq::new(alloc),
                absent: Seq::new(alloc),
            },
            plan: Seq::new(alloc),
            blocked: Seq::new(alloc),
            mixed: Seq::new(alloc),
            skips: Seq::new(alloc),
            dangling: Seq::new(alloc),
            entries: Seq::new(alloc),
        }
    }

    fn add(&mut self, alloc: Global, found: &Found<'_>) -> Result<(), NoMemory> {
        match found {
            Found::Conf(place, kind) => self.conf.push(ConfReport {
                place: text(alloc, place)?,
                kind: *kind,
                origin: None,
            }),
            Found::Absent(dir) => self.dirs.absent.push(text(alloc, dir)?),
            Found::Place(spelled) => self.dirs.places.push(place(alloc, spelled)?),
            Found::Link(number, soname, file) => {
                self.plan.push(planned(alloc, *number, soname, file)?)
            }
            Found::Blocked(number, soname) => self.blocked.push(mark(alloc, *number, soname)?),
            Found::Mixed(number, soname) => self.mixed.push(mark(alloc, *number, soname)?),
            Found::Skip(path, defect) => self.skips.push(Skipped {
                path: text(alloc, path)?,
                defect: *defect,
            }),
            Found::Dangling(path) => self.dangling.push(text(alloc, path)?),
            Found::Entry(soname) => self.entries.push(entry(alloc, soname)?),
        }
    }
}

/// The report of these findings, with the offset at which the auxiliary cache is malformed, if it is, and the number of library files that
/// were opened.
pub(crate) fn report_of(
    alloc: Global,
    damaged: Option<u64>,
    findings: &[Found<'_>],
    opened: usize,
) -> Result<Text, Fail> {
    let mut kept = Kept::new(alloc);
    for found in findings {
        kept.add(alloc, found)?;
    }
    let text = report(
        alloc,
        &Findings {
            damaged,
            conf: &kept.conf,
            dirs: &kept.dirs,
            plan: &kept.plan,
            blocked: &kept.blocked,
            mixed: &kept.mixed,
            skips: &kept.skips,
            dangling: &kept.dangling,
            entries: &kept.entries,
            opened,
        },
    )?;
    Ok(text)
}
