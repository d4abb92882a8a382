//! Listings, and why they fail.
ghost use Rattle.std.specs.Prelude.{◌≡◌};
ghost use Rattle.ldd_resolve.specs.Faults.{of_object, of_search};
ghost use Rattle.ldd_resolve.specs.declared.kinds.ResolveFault.TheVariants as faults;

use elf_dynamic::ObjectFault;
use lib_types::{Defect, NoMemory, Seq, Text, Texts};
use rpath_search::{Part, SearchFault};

/// A needed name with the path at which the loader finds it.
#[derive(Drop)]
pub struct Item {
    pub name: Text,
    /// None if the library isn't found.
    pub path: Option<Text>,
}

/// The items of a listing, in order.
pub type Listing = Seq<Item>;

/// A loaded object: the program or a library.
#[derive(Drop)]
pub struct Member {
    /// The path by which it was found.
    pub path: Text,
    /// The file to which the path leads, as a path without links.
    pub real: Text,
    /// Its DT_SONAME, if it has one, and then the names of the requests that it answered, each once.
    pub names: Texts,
    /// The names of its requests, in order.
    pub needed: Texts,
}

/// Members in load order, the program first.
pub type Members = Seq<Member>;

/// How a request ended.
#[derive(Clone, Copy, Debug, PartialEq, Eq)]
pub enum Reply {
    /// The library is a member that was loaded before.
    Known,
    /// The member with this index was loaded, and this part of the search gives its path.
    Loads { number: usize, part: Part },
    /// The library isn't found.
    Missing,
}

/// Replies in the order of the requests: those of the first member's needed names, then those of the second one's, and so on.
pub type Replies = Seq<Reply>;

/// The objects that a program loads.
#[derive(Drop)]
pub struct Scope {
    pub members: Members,
    /// The requests that loaded a member and those that weren't found, in order.
    pub listing: Listing,
    pub replies: Replies,
    /// Each path by which a member was found, in order, the program's first.
    pub found: Texts,
}

/// Why a path has no program.
#[derive(Clone, Copy, Debug, PartialEq, Eq)]
pub enum ProgramFault {
    /// The path leads to no file.
    NoProgram,
    /// The first defect of the file.
    BadProgram(Defect),
}

/// A path with the objects that the program there loads, or why it has none.
#[derive(Drop)]
pub struct ProgramScope {
    pub path: Text,
    pub scope: Result<Scope, ProgramFault>,
}

/// The scopes of several programs, in order.
pub type ProgramScopes = Seq<ProgramScope>;

/// Why a program has no scope.
#[derive(Clone, Copy, Debug, PartialEq, Eq)]
pub enum ResolveFault {
    /// The program's path leads to no file.
    NoProgram,
    /// The first defect of the program's file.
    BadProgram(Defect),
    /// The store failed, or it doesn't hold the content of a file that must be read.
    StoreFault,
    NoMemory,
}

impl From<NoMemory> for ResolveFault {
    ghost from_gives = { λ _ e. e ≡ faults.NoMemory };

    fn from(_: NoMemory) -> Self {
        ResolveFault::NoMemory
    }
}

impl From<SearchFault> for ResolveFault {
    ghost from_gives = { λ fault e. e ≡ of_search fault };

    fn from(fault: SearchFault) -> Self {
        match fault {
            SearchFault::StoreFault => ResolveFault::StoreFault,
            SearchFault::NoMemory => ResolveFault::NoMemory,
        }
    }
}

impl From<ObjectFault> for ResolveFault {
    ghost from_gives = { λ fault e. e ≡ of_object fault };

    fn from(fault: ObjectFault) -> Self {
        match fault {
            ObjectFault::Bad(defect) => ResolveFault::BadProgram(defect),
            ObjectFault::StoreFault => ResolveFault::StoreFault,
            ObjectFault::NoMemory => ResolveFault::NoMemory,
        }
    }
}
