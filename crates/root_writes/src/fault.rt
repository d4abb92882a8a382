//! Why a run didn't write everything.
use atomic_replace::DiskFault;
use root_links::LinkFault;

/// The call that failed.
#[derive(Clone, Copy, Debug, PartialEq, Eq)]
pub enum WriteFault {
    /// A link, or the fsync of its directory, failed. No file has changed.
    Links(LinkFault),
    /// The cache or the auxiliary cache failed. All links exist.
    Files(DiskFault),
}
