//! The state of a listing while requests are answered.
ghost use Rattle.std.specs.Prelude.{◌≡◌, ◌<◌, ◌++◌, ◌∷◌, [], Option, false, length, option_to_list, IfOk, IfSome, OnOk};
ghost use Rattle.std.specs.List.{IsDistinct};
ghost use Rattle.std.specs.Option.{option_copied};
ghost use Rattle.std.specs.Str.{bytes_eq};
ghost use Rattle.lib_types.specs.declared.abi.Abi.{Abi};
ghost use Rattle.tree_face.specs.Store.{Contents};
ghost use Rattle.image_tree.specs.Tree.{Nodes};
ghost use Rattle.rpath_search.specs.Searching.{is_among};
ghost use Rattle.ldd_resolve.specs.Listing.{needed_in, owner_of, soname_in};
ghost use Rattle.ldd_resolve.specs.Loading.{AddsFound, AddsMember, AddsMissing, AddsName, Grows, IsSound, IsSoundAnswer, TakesAnswer, reply_to};
ghost use Rattle.ldd_resolve.specs.Requests.{IsEven, MatchesFirst, StartsSound, outsider_of};
ghost use Rattle.ldd_resolve.specs.Searching.{IsUnloaded};

use crate::kinds::{Item, Listing, Member, Replies, Reply};
use crate::names::{add_name_at, add_names, copies_of, names_by};
use elf_dynamic::kinds::Dynamic;
use lib_types::{NoMemory, Text, Texts};
use rpath_search::{Answer, Env, Found, LoadedFiles, Loaders, Owner, Part, folder_of, is_library};
use std::alloc::Global;
use std::collections::VecDeque;
use string_pool::TextSet;

/// The result of a search.
#[derive(Drop)]
pub(crate) struct Searched {
    pub answer: Option<Answer>,
    /// The part of the search that gives the path, if the answer is a new library.
    pub part: Part,
}

/// The objects that were loaded and the items that were listed so far.
#[derive(Drop)]
pub(crate) struct Loading {
    pub loaders: Loaders,
    pub places: LoadedFiles,
    /// The names of the loaded objects.
    pub names: TextSet,
    /// The names that weren't found.
    pub missing: TextSet,
    /// In the order of the objects' numbers.
    pub members: Vec<Member>,
    pub items: Listing,
    pub replies: Replies,
    /// Each path by which an object was found.
    pub found: Texts,
    /// The needed names of the objects whose requests aren't answered yet.
    pub pending: VecDeque<Texts>,
}

// The parts of an object found at this path: search information, soname and needed names.
#[derive(Drop)]
struct Parts {
    owner: Owner,
    soname: Option<Text>,
    needed: Texts,
}

fn parts_of(alloc: Global, path: &[u8], dynamic: Option<Dynamic>) -> Result<Parts, NoMemory>
    ensures owner { IfOk result (λ p. p.owner ≡ owner_of path.now dynamic) }
    ensures soname { IfOk result (λ p. option_to_list p.soname ≡ soname_in dynamic) }
    ensures needed { IfOk result (λ p. p.needed ≡ needed_in dynamic) }
{
    let origin = Text::copy_of(alloc, folder_of(path))?;
    match dynamic {
        Some(d) => Ok(Parts {
            owner: Owner {
                origin,
                rpath: d.rpath,
                runpath: d.runpath,
                nodeflib: d.nodeflib,
            },
            soname: d.soname,
            needed: d.needed,
        }),
        None => Ok(Parts {
            owner: Owner {
                origin,
                rpath: None,
                runpath: None,
                nodeflib: false,
            },
            soname: None,
            needed: Texts::new(alloc),
        }),
    }
}

// The reply for a result of a search, if there are this many members.
fn reply_to(members: usize, part: Part, answer: &Option<Answer>) -> Reply
    ensures { result ≡ reply_to members part answer.now }
{
    match answer {
        Some(Answer::Loaded { .. }) => Reply::Known,
        Some(Answer::New(_)) => Reply::Loads {
            number: members,
            part,
        },
        None => Reply::Missing,
    }
}

// The program's file, if it isn't a library.
fn outsider_of(alloc: Global, program: &Found) -> Result<Option<Text>, NoMemory>
    ensures { IfOk result (λ o. o ≡ outsider_of program.now) }
{
    if is_library(program.object.abi, &program.object) {
        return Ok(None);
    }
    Ok(Some(Text::copy_of(alloc, program.real.as_bytes())?))
}

impl Loading {
    // No objects, but with the program's search directories.
    fn empty(alloc: Global, loaders: Loaders, outsider: Option<Text>) -> Loading
        ensures loaders { result.loaders ≡ loaders }
        ensures places { result.places.loaded ≡ [] }
        ensures outsider { result.places.outsider ≡ outsider }
        ensures names { result.names ≡ [] }
        ensures missing { result.missing ≡ [] }
        ensures members { result.members.items ≡ [] }
        ensures items { result.items ≡ [] }
        ensures replies { result.replies ≡ [] }
        ensures found { result.found ≡ [] }
        ensures pending { result.pending.items ≡ [] }
    {
        Loading {
            loaders,
            places: LoadedFiles {
                loaded: TextSet::new(alloc),
                outsider,
            },
            names: TextSet::new(alloc),
            missing: TextSet::new(alloc),
            members: Vec::new(alloc),
            items: Listing::new(alloc),
            replies: Replies::new(alloc),
            found: Texts::new(alloc),
            pending: VecDeque::new(alloc),
        }
    }

    /// Only the program.
    pub(crate) fn new(alloc: Global, env: &Env, program: Found) -> Result<Loading, NoMemory>
        ensures matching { IfOk result (MatchesFirst env.now program) }
        ensures sound { IfOk result (StartsSound program) }
        ensures even { IfOk result (λ loading. IsEven loading 0) }
    {
        let outsider = outsider_of(alloc, &program)?;
        let Found { path, real, object } = program;
        let Parts {
            owner,
            soname,
            needed,
        } = parts_of(alloc, path.as_bytes(), object.dynamic)?;
        let names = names_by(alloc, soname, None)?;
        let loaders = Loaders::new(alloc, env, &owner)?;
        let mut loading = Loading::empty(alloc, loaders, outsider);
        loading.found.push(Text::copy_of(alloc, path.as_bytes())?)?;
        let program = Member {
            path,
            real,
            names,
            needed,
        };
        loading.add_member(alloc, program)?;
        Ok(loading)
    }

    // Adds a member and puts its needed names into the queue.
    fn add_member(&mut self, alloc: Global, member: Member) -> Result<(), NoMemory>
        requires { is_among self.old.places.loaded member.real ≡ false }
        ensures { OnOk result (AddsMember self.old self.new member) }
    {
        let real = Text::copy_of(alloc, member.real.as_bytes())?;
        self.places.loaded.insert(real)?;
        add_names(alloc, &mut self.names, &member.names)?;
        self.pending.push_back(copies_of(alloc, &member.needed)?)?;
        self.members.push(member)?;
        Ok(())
    }

    // Adds a library that was found for the object with this number, and an item of this name.
    fn add_found(
        &mut self,
        alloc: Global,
        env: &Env,
        name: Text,
        found: Found,
        loader: usize,
    ) -> Result<(), NoMemory>
        requires loader { loader < length self.old.loaders }
        requires new { is_among self.old.places.loaded found.real ≡ false }
        ensures { OnOk result (AddsFound env.now self.old self.new name found loader) }
    {
        let Found { path, real, object } = found;
        let Parts {
            owner,
            soname,
            needed,
        } = parts_of(alloc, path.as_bytes(), object.dynamic)?;
        self.loaders.add(alloc, env, &owner, loader)?;
        let names = names_by(alloc, soname, Some(name.as_bytes()))?;
        let listed = Text::copy_of(alloc, path.as_bytes())?;
        self.found.push(Text::copy_of(alloc, path.as_bytes())?)?;
        let member = Member {
            path,
            real,
            names,
            needed,
        };
        self.add_member(alloc, member)?;
        self.items.push(Item {
            name,
            path: Some(listed),
        })
    }

    // Adds one more name and one more path to the object with this number.
    fn add_name(
        &mut self,
        alloc: Global,
        name: Text,
        path: Text,
        number: usize,
    ) -> Result<(), NoMemory>
        requires { number < length self.old.members.items }
        ensures { OnOk result (AddsName self.old self.new name path number) }
    {
        self.found.push(path)?;
        self.names.insert(Text::copy_of(alloc, name.as_bytes())?)?;
        add_name_at(&mut self.members, number, name)
    }

    // Adds a name that wasn't found, unless the listing has it already.
    fn add_missing(&mut self, alloc: Global, name: Text) -> Result<(), NoMemory>
        ensures { OnOk result (AddsMissing self.old self.new name) }
    {
        if self.missing.contains(name.as_bytes()) {
            return Ok(());
        }
        self.missing.insert(Text::copy_of(alloc, name.as_bytes())?)?;
        self.items.push(Item { name, path: None })
    }

    /// Adds the reply to a request.
    pub(crate) fn add_reply(&mut self, reply: Reply) -> Result<(), NoMemory>
        ensures { OnOk result (self.new ≡ record self.old { replies = self.old.replies ++ reply ∷ [] }) }
    {
        self.replies.push(reply)
    }

    /// Adds the result of a search for a name that the object with this number needs.
    pub(crate) fn take_answer(
        &mut self,
        alloc: Global,
        env: &Env,
        name: Text,
        searched: Searched,
        loader: usize,
    ) -> Result<(), NoMemory>
        requires loader { loader < length self.old.loaders }
        requires new { IsUnloaded self.old.places.loaded searched.answer }
        requires unknown { is_among self.old.names name ≡ false }
        requires members { length self.old.members.items ≡ length self.old.places.loaded }
        requires distinct { IsDistinct bytes_eq self.old.places.loaded }
        ensures matching { OnOk result (TakesAnswer env.now self.old self.new name searched loader) }
        ensures sound { (known : Option Contents) (t : Nodes) (abi : Abi) → IsSound known t abi self.old → IsSoundAnswer known t abi searched.answer
            → OnOk result (IsSound known t abi self.new) }
        ensures grows { OnOk result (Grows self.old self.new) }
    {
        let Searched { answer, part } = searched;
        let number = self.members.len();
        self.add_reply(reply_to(number, part, &answer))?;
        match answer {
            Some(Answer::Loaded { number, path }) => self.add_name(alloc, name, path, number),
            Some(Answer::New(found)) => self.add_found(alloc, env, name, found, loader),
            None => self.add_missing(alloc, name),
        }
    }
}
