//! The cache slot, the temporary files of the updaters, and the remaining calls of each updater.
ghost use Rattle.std.specs.Prelude.{◌≡◌, ◌<◌, [], None, OnOk, OnErr, IfOk, length, map, drop, slice_index_or, slice_set};
ghost use Rattle.std.specs.Option.{option_and_then, option_copied};
ghost use Rattle.std.specs.List.{slice_get};
ghost use Rattle.atomic_replace.specs.Order.{all_calls, next_of};
ghost use Rattle.update_world.specs.Kept.{made, new_machine, next_in, stepped};

use crate::post::Post;
use atomic_replace::Progress;
use lib_types::{NoMemory, Text};
use std::alloc::Global;
use std::marker::Model;
use tree_face::Call;

/// The contents of the files, and the progress of the updaters.
#[derive(Drop)]
pub(crate) struct Machine {
    cache: Option<Text>,
    temporaries: Vec<Option<Text>>,
    progress: Vec<Progress>,
    published: Vec<u32>,
    settled: usize,
}

impl Model for Machine {
    ghost use Rattle.update_world.specs.Kept.{Machines};

    ghost Value = { Machines };

    ghost view = { λ m. record { cache = m.cache; temporaries = m.temporaries.items; progress = m.progress.items; published = m.published.items; settled = m.settled } };
}

fn no_files(alloc: Global, posts: &[Post]) -> Result<Vec<Option<Text>>, NoMemory>
    ensures { IfOk result (λ files. files.items ≡ map (λ _. None) posts.now) }
{
    let mut files = Vec::new(alloc);
    for _index in 0..posts.len() {
        files.push(None)?;
    }
    Ok(files)
}

fn no_progress(alloc: Global, posts: &[Post]) -> Result<Vec<Progress>, NoMemory>
    ensures { IfOk result (λ progress. progress.items ≡ map (λ _. all_calls) posts.now) }
{
    let mut progress = Vec::new(alloc);
    for _index in 0..posts.len() {
        progress.push(Progress::new())?;
    }
    Ok(progress)
}

fn put_file(files: &mut Vec<Option<Text>>, index: usize, file: Option<Text>)
    requires { index < length files.old.items }
    ensures { files.new.items ≡ slice_set files.old.items index file }
{
    files[index] = file;
}

fn take_file(files: &mut Vec<Option<Text>>, index: usize) -> Option<Text>
    requires { index < length files.old.items }
    ensures file { result ≡ slice_index_or files.old.items index None }
    ensures ended { files.new.items ≡ slice_set files.old.items index None }
{
    files[index].take()
}

fn advance(progress: &mut Vec<Progress>, index: usize)
    requires { index < length progress.old.items }
    ensures { progress.new.items ≡ slice_set progress.old.items index (drop 1 (slice_index_or progress.old.items index [])) }
{
    progress[index].advance(true);
}

impl Machine {
    /// The state before the first call, with this content in the cache slot.
    pub(crate) fn new(
        alloc: Global,
        cache: Option<Text>,
        posts: &[Post],
    ) -> Result<Machine, NoMemory>
        ensures { IfOk result (λ m. m ≡ new_machine cache posts.now) }
    {
        Ok(Machine {
            cache,
            temporaries: no_files(alloc, posts)?,
            progress: no_progress(alloc, posts)?,
            published: Vec::new(alloc),
            settled: 0,
        })
    }

    /// The content of the cache slot.
    pub(crate) fn cache(&self) -> &Option<Text>
        ensures { result.now ≡ self.now.cache }
    {
        &self.cache
    }

    /// The updaters that have renamed their file into place, in order.
    pub(crate) fn published(&self) -> &[u32]
        ensures { result.now ≡ self.now.published }
    {
        &self.published
    }

    /// The number of renames before the last directory fsync.
    pub(crate) fn settled(&self) -> usize
        ensures { result ≡ self.now.settled }
    {
        self.settled
    }

    // The next call of this updater, if there is one.
    fn next(&self, index: usize) -> Option<Call>
        ensures { result ≡ next_in self.now index }
    {
        self.progress.get(index)?.next()
    }

    // Makes this call of this updater.
    fn make(&mut self, alloc: Global, index: u32, call: Call, bytes: &[u8]) -> Result<(), NoMemory>
        requires { index < length self.old.temporaries }
        ensures done { OnOk result (self.new ≡ made index bytes.now call self.old) }
        ensures refused { OnErr result (self.new ≡ self.old) }
    {
        let at = index as usize;
        match call {
            Call::Create => put_file(
                &mut self.temporaries,
                at,
                Some(Text::from_vec(Vec::new(alloc))),
            ),
            // An updater writes once, to an empty file.
            Call::Append => put_file(
                &mut self.temporaries,
                at,
                Some(Text::copy_of(alloc, bytes)?),
            ),
            Call::Sync => {}
            Call::Publish => {
                self.published.push(index)?;
                self.cache = take_file(&mut self.temporaries, at);
            }
            Call::Settle => self.settled = self.published.len(),
        }
        Ok(())
    }

    /// Makes the next call of this updater, if there is one.
    pub(crate) fn step(&mut self, alloc: Global, posts: &[Post], index: u32) -> Result<(), NoMemory>
        requires files { length self.old.temporaries ≡ length posts.now }
        requires each { length self.old.progress ≡ length posts.now }
        ensures done { OnOk result (self.new ≡ stepped posts.now index self.old) }
        ensures refused { OnErr result (self.new ≡ self.old) }
    {
        let i = index as usize;
        let Some(post) = posts.get(i) else {
            return Ok(());
        };
        let Some(call) = self.next(i) else {
            return Ok(());
        };
        self.make(alloc, index, call, post.bytes.as_bytes())?;
        advance(&mut self.progress, i);
        Ok(())
    }
}
