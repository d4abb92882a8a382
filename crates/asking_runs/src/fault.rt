//! Why a command that only asks has no answer.
ghost use Rattle.std.specs.Prelude.{◌≡◌};
ghost use Rattle.asking_runs.specs.Faults.{of_interpreter, of_slot};
ghost use Rattle.asking_runs.specs.declared.fault.CacheFault.TheVariants as caches;
ghost use Rattle.asking_runs.specs.declared.fault.ListFault.TheVariants as lists;
ghost use Rattle.rpath_search.specs.declared.fault.SearchFault.TheVariants as searches;

use cache_reader::CacheDefect;
use command_status::{Fault, Status};
use elf_interpreter::InterpreterFault;
use image_session::{LoadFault, SlotFault};
use ldd_resolve::ResolveFault;
use lib_types::NoMemory;
use rpath_search::SearchFault;

/// Why a cache can't be read.
#[derive(Clone, Copy, Debug, PartialEq, Eq)]
pub(crate) enum CacheFault {
    /// The disk has failed.
    DiskFailed,
    NoMemory,
    /// The cache file is missing.
    NoCache,
    /// The first defect of the cache.
    BadCache(CacheDefect),
}

/// Why programs aren't listed.
#[derive(Clone, Copy, Debug, PartialEq, Eq)]
pub enum ListFault {
    /// The image can't be read.
    Image(LoadFault),
    /// The first defect of the cache.
    BadCache(CacheDefect),
    /// A program's libraries can't be searched for.
    Search(SearchFault),
}

impl From<SlotFault> for CacheFault {
    ghost from_gives = { λ fault e. e ≡ of_slot fault };

    fn from(fault: SlotFault) -> Self {
        match fault {
            SlotFault::DiskFailed { .. } => CacheFault::DiskFailed,
            SlotFault::NoMemory => CacheFault::NoMemory,
        }
    }
}

impl From<NoMemory> for CacheFault {
    ghost from_gives = { λ _ e. e ≡ caches.NoMemory };

    fn from(_: NoMemory) -> Self {
        CacheFault::NoMemory
    }
}

impl From<CacheDefect> for CacheFault {
    ghost from_gives = { λ defect e. e ≡ caches.BadCache defect };

    fn from(defect: CacheDefect) -> Self {
        CacheFault::BadCache(defect)
    }
}

impl Fault for CacheFault {
    ghost use Rattle.asking_runs.specs.Faults.{cache_no_usage, of_cache};

    ghost status_of = { of_cache };

    fn status(self) -> Status {
        match self {
            CacheFault::DiskFailed => Status::DiskFault,
            CacheFault::NoMemory => Status::NoMemory,
            CacheFault::NoCache => Status::NoCache,
            CacheFault::BadCache(defect) => Status::BadCache(defect),
        }
    }

    ghost not_usage = { cache_no_usage };
}

impl From<CacheDefect> for ListFault {
    ghost from_gives = { λ defect e. e ≡ lists.BadCache defect };

    fn from(defect: CacheDefect) -> Self {
        ListFault::BadCache(defect)
    }
}

impl From<SearchFault> for ListFault {
    ghost from_gives = { λ fault e. e ≡ lists.Search fault };

    fn from(fault: SearchFault) -> Self {
        ListFault::Search(fault)
    }
}

impl From<InterpreterFault> for ListFault {
    ghost from_gives = { λ fault e. e ≡ lists.Search (of_interpreter fault) };

    fn from(fault: InterpreterFault) -> Self {
        match fault {
            InterpreterFault::StoreFault => ListFault::Search(SearchFault::StoreFault),
            InterpreterFault::NoMemory => ListFault::Search(SearchFault::NoMemory),
        }
    }
}

impl From<NoMemory> for ListFault {
    ghost from_gives = { λ _ e. e ≡ lists.Search searches.NoMemory };

    fn from(_: NoMemory) -> Self {
        ListFault::Search(SearchFault::NoMemory)
    }
}

impl Fault for ListFault {
    ghost use Rattle.asking_runs.specs.Faults.{list_no_usage, of_list};

    ghost status_of = { of_list };

    fn status(self) -> Status {
        match self {
            ListFault::Image(fault) => fault.status(),
            ListFault::BadCache(defect) => Status::BadCache(defect),
            ListFault::Search(fault) => ResolveFault::from(fault).status(),
        }
    }

    ghost not_usage = { list_no_usage };
}
