//! The findings of an update.
use hwcap_dirs::Dirs;
use ldso_conf::ConfReports;
use lib_types::{Defect, Entries, Seq, Text, Texts};
use link_plan::{Marks, Plan};

/// A file with a library name that isn't a usable shared library, and why.
#[derive(Drop)]
pub struct Skipped {
    pub path: Text,
    pub defect: Defect,
}

/// Files with library names that aren't usable shared libraries.
pub type Skips = Seq<Skipped>;

/// The findings of an update that its report lists.
#[derive(Drop)]
pub struct Findings<'a> {
    /// The offset at which the auxiliary cache was corrupt when it was loaded, if no report has said so yet.
    pub damaged: Option<u64>,
    /// The conf file's lines and files that can't be used.
    pub conf: &'a ConfReports,
    /// The search directories, to which the numbers in the plan and the marks refer, and the conf file's directories that don't exist.
    pub dirs: &'a Dirs,
    pub plan: &'a Plan,
    pub blocked: &'a Marks,
    pub mixed: &'a Marks,
    pub skips: &'a Skips,
    pub dangling: &'a Texts,
    /// The entries of the cache, in their order.
    pub entries: &'a Entries,
    /// The number of library files that were opened.
    pub opened: usize,
}
