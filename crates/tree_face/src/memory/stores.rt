//! Stores in memory.
ghost use Rattle.std.specs.Prelude.{◌≡◌, ◌<◌, ◌++◌, ◌∷◌, ◌-◌, ℕ, List, [], Some, None, IfSome, MatchResult, if◌then◌else◌, length, min, take, drop};
ghost use Rattle.std.specs.Result.{is_err};
ghost use Rattle.std.specs.Option.{option_map, option_copied};
ghost use Rattle.std.specs.List.{slice_get, position};
ghost use Rattle.lib_types.specs.Counts.{raised};
ghost use Rattle.tree_face.specs.Memory.{held_in, is_under};

use super::failures::Failures;
use crate::Store;
use lib_types::{Failed, NoMemory, Text, Texts};
use std::alloc::Global;

/// A store of pairs of a key and a content. It fails only for a key that it doesn't hold. If a key occurs twice, the
/// first pair counts.
#[derive(Drop)]
pub struct SureStore {
    pairs: Vec<(Text, Text)>,
    begun_index: Option<usize>,
    begun: u64,
    taken: u64,
}

/// A store in memory whose calls fail on demand. It records the keys of the files that were opened. A call also fails if it
/// can't allocate memory for this record.
#[derive(Drop)]
pub struct MemStore {
    alloc: Global,
    store: SureStore,
    keys: Texts,
    failures: Failures,
}

// The index of the first pair of a key.
fn index_of(pairs: &[(Text, Text)], key: &[u8]) -> Option<usize>
    ensures { result ≡ position (is_under key.now) pairs.now }
{
    pairs.iter().position(|pair| pair.0.as_bytes() == key)
}

// The content at an index.
fn content_at(pairs: &[(Text, Text)], index: usize) -> Option<&[u8]>
    ensures { option_copied result ≡ option_map (λ pair. pair.1) (slice_get pairs.now index) }
{
    match pairs.get(index) {
        Some(pair) => Some(pair.1.as_bytes()),
        None => None,
    }
}

/// Copies the content from an offset on into the front of a buffer, as far as it fits. Returns the number of bytes copied.
pub fn copy_from(content: &[u8], at: u64, buf: &mut [u8]) -> usize
    ensures count { result ≡ min (length buf.old) (length content.now - at) }
    ensures bytes { buf.new ≡ take result (drop at content.now) ++ drop result buf.old }
{
    if at >= content.len() as u64 {
        return 0;
    }
    let rest = &content[at as usize..];
    let count = rest.len().min(buf.len());
    buf[..count].copy_from_slice(&rest[..count]);
    count
}

impl SureStore {
    ghost use Rattle.tree_face.specs.SureStore.{state_of};

    /// A store that holds these pairs of a key and a content.
    pub fn new(held: Vec<(Text, Text)>) -> SureStore
        ensures held { (state_of result).held ≡ Some (held_in held.items) }
        ensures counts { ((state_of result).begun ≡ 0) × ((state_of result).taken ≡ 0) }
    {
        SureStore {
            pairs: held,
            begun_index: None,
            begun: 0,
            taken: 0,
        }
    }

    /// The number of files that were opened.
    pub fn begun(&self) -> u64
        ensures { result ≡ (state_of self.now).begun }
    {
        self.begun
    }

    // Opens the first pair with this key, if there is one.
    #[tactic(auto, using(crate::proofs::Pairs::content_first, crate::proofs::Pairs::key_first))]
    fn open(&mut self, key: &[u8])
        ensures held { (state_of self.new).held ≡ (state_of self.old).held }
        ensures content { (state_of self.new).content ≡ held_in self.old.pairs.items key.now }
        ensures key { (content : List ℕ) → held_in self.old.pairs.items key.now ≡ Some content → (state_of self.new).key ≡ Some key.now }
        ensures begun { (state_of self.new).begun ≡ raised (state_of self.old).begun 1 }
        ensures taken { (state_of self.new).taken ≡ (state_of self.old).taken }
    {
        self.begun = self.begun.saturating_add(1);
        self.begun_index = index_of(&self.pairs, key);
    }

    // The content of the open file.
    fn content(&self) -> Option<&[u8]>
        ensures { option_copied result ≡ (state_of self.now).content }
    {
        match self.begun_index {
            Some(index) => content_at(&self.pairs, index),
            None => None,
        }
    }

    // Closes the open file.
    fn close(&mut self)
        ensures { state_of self.new ≡ record (state_of self.old) { key = None; content = None; size = None } }
    {
        self.begun_index = None;
    }
}

impl Store for SureStore {
    ghost use Rattle.tree_face.specs.SureStore.{state_of};

    ghost state = { state_of };

    fn begin(&mut self, key: &[u8]) -> Result<u64, Failed> {
        self.open(key);
        match self.content() {
            Some(content) => Ok(content.len() as u64),
            None => Err(Failed),
        }
    }

    fn read_at(&mut self, at: u64, buf: &mut [u8]) -> Result<usize, Failed> {
        let Some(content) = self.content() else {
            return Err(Failed);
        };
        let count = copy_from(content, at, buf);
        self.taken = self.taken.saturating_add(count as u64);
        Ok(count)
    }
}

// Adds a copy of a text to a list.
fn copy_into(alloc: Global, texts: &mut Texts, text: &[u8]) -> Result<(), NoMemory>
    ensures { MatchResult result (λ _. texts.new ≡ texts.old ++ text.now ∷ []) (λ _. texts.new ≡ texts.old) }
{
    let copy = Text::copy_of(alloc, text)?;
    texts.push(copy)
}

impl MemStore {
    ghost use Rattle.tree_face.specs.MemStore.{failing_state_of, keys_of};

    /// A store that holds these pairs. The calls whose numbers are in `fail` fail. All calls are numbered together, from 0.
    pub fn new(alloc: Global, held: Vec<(Text, Text)>, fail: Vec<u64>) -> MemStore
        ensures held { (failing_state_of result).held ≡ Some (held_in held.items) }
        ensures counts { ((failing_state_of result).begun ≡ 0) × ((failing_state_of result).taken ≡ 0) × ((failing_state_of result).faults ≡ 0) }
        ensures keys { (failing_state_of result).keys ≡ Some [] }
    {
        MemStore {
            alloc,
            store: SureStore::new(held),
            keys: Texts::new(alloc),
            failures: Failures::new(fail),
        }
    }

    /// The keys of the files that were opened, in order. Calls that failed are not among them.
    pub fn keys(&self) -> &Texts
        ensures { (failing_state_of self.now).keys ≡ Some result.now }
    {
        &self.keys
    }

    // Adds a key to the list. Counts a fault if it is out of memory.
    fn add_key(&mut self, key: &[u8]) -> Result<(), Failed>
        ensures store { self.new.store ≡ self.old.store }
        ensures keys { MatchResult result (λ _. keys_of self.new ≡ keys_of self.old ++ key.now ∷ []) (λ _. keys_of self.new ≡ keys_of self.old) }
        ensures faults { self.new.failures.faults ≡ (if is_err result then raised self.old.failures.faults 1 else self.old.failures.faults) }
    {
        match copy_into(self.alloc, &mut self.keys, key) {
            Ok(()) => Ok(()),
            Err(NoMemory) => {
                self.failures.add_fault();
                Err(Failed)
            }
        }
    }

    /// The number of files that were opened.
    pub fn begun(&self) -> u64
        ensures { result ≡ (failing_state_of self.now).begun }
    {
        self.store.begun()
    }
}

impl Store for MemStore {
    ghost use Rattle.tree_face.specs.MemStore.{failing_state_of};

    ghost state = { failing_state_of };

    fn begin(&mut self, key: &[u8]) -> Result<u64, Failed> {
        let due = self.failures.is_due(false);
        let size = self.store.begin(key)?;
        if due {
            self.store.close();
            self.failures.add_fault();
            return Err(Failed);
        }
        if self.add_key(key).is_err() {
            self.store.close();
            return Err(Failed);
        }
        Ok(size)
    }

    fn read_at(&mut self, at: u64, buf: &mut [u8]) -> Result<usize, Failed> {
        if self.failures.is_due(false) {
            self.failures.add_fault();
            return Err(Failed);
        }
        self.store.read_at(at, buf)
    }
}
