//! Disks in memory.
ghost use Rattle.std.specs.Prelude.{◌≡◌, ◌∷◌, ◌==◌, ◌&&◌, ℕ, [], IfOk, None, true, false, OnOk, MatchResult, if◌then◌else◌};
ghost use Rattle.std.specs.Option.{option_map, option_copied};
ghost use Rattle.std.specs.Result.{is_err};
ghost use Rattle.lib_types.specs.Counts.{raised};
ghost use Rattle.tree_face.specs.Calls.{made_call, settling};
ghost use Rattle.tree_face.specs.Crash.{AddsPublished, IsAtRest, IsImage, KeepsSlots, Settles};
ghost use Rattle.tree_face.specs.Disk.{Creates, Appends, Keeps, Spoils, Syncs, Publishes, MayPublish, Does, KeepsMade, KeepsOthersMade, ReadsSlot, slot_of};
ghost use Rattle.tree_face.specs.Follows.{IsFollowedBy};
ghost use Rattle.tree_face.specs.Failures.{FollowsPlan, stopping_after};

use super::failures::Failures;
use super::past::{Change, Past};
use super::temporaries::{Temporaries, Temporary};
use crate::{Call, Disk, DiskRead, DoneCall, Slot, Tag};
use lib_types::{Failed, NoMemory};
use std::alloc::Global;

/// A disk in memory that fails only if it is out of memory.
#[derive(Drop)]
pub struct SureDisk {
    alloc: Global,
    past: Past,
    manifest: Temporaries,
    cache: Temporaries,
    aux: Temporaries,
    calls: Vec<DoneCall>,
    reads: Vec<Slot>,
    faults: u64,
}

/// A disk in memory whose calls fail on demand.
#[derive(Drop)]
pub struct MemDisk {
    disk: SureDisk,
    failures: Failures,
    read_faults: u64,
}

impl SureDisk {
    ghost use Rattle.tree_face.specs.Disk.{slot_eq};
    ghost use Rattle.tree_face.specs.Past.{IsChangedBy, KeepsPast, left_in};
    ghost use Rattle.tree_face.specs.SureDisk.{calls_of, reads_of, disk_state, disk_content, files_of};
    ghost use Rattle.tree_face.specs.Temporaries.{file_in};

    /// A disk whose slots hold these contents.
    #[tactic(auto, using(crate::proofs::Disks::at_rest))]
    pub fn new(
        alloc: Global,
        manifest: Option<Vec<u8>>,
        cache: Option<Vec<u8>>,
        aux: Option<Vec<u8>>,
    ) -> SureDisk
        ensures manifest { (disk_content result).now.manifest ≡ option_map (λ v. v.items) manifest }
        ensures cache { (disk_content result).now.cache ≡ option_map (λ v. v.items) cache }
        ensures aux { (disk_content result).now.aux ≡ option_map (λ v. v.items) aux }
        ensures calls { calls_of result ≡ [] }
        ensures reads { reads_of result ≡ [] }
        ensures faults { (disk_state result).faults ≡ 0 }
        ensures rest { IsAtRest (disk_state result) }
    {
        SureDisk {
            alloc,
            past: Past::new(alloc, manifest, cache, aux),
            manifest: Temporaries::new(alloc),
            cache: Temporaries::new(alloc),
            aux: Temporaries::new(alloc),
            calls: Vec::new(alloc),
            reads: Vec::new(alloc),
            faults: 0,
        }
    }

    /// The writing calls that were made. Calls that failed may be among them.
    pub fn calls(&self) -> &[DoneCall]
        ensures { result.now ≡ calls_of self.now }
    {
        &self.calls
    }

    /// The slots that were read, in order.
    pub fn reads(&self) -> &[Slot]
        ensures { result.now ≡ reads_of self.now }
    {
        &self.reads
    }

    // A copy of what a slot holds.
    fn copy_of(&self, alloc: Global, slot: Slot) -> Result<Option<Vec<u8>>, NoMemory>
        ensures { IfOk result (λ found. option_map (λ v. v.items) found ≡ slot_of (disk_content self.now).now slot) }
    {
        copy_of(alloc, self.past.held(slot).now)
    }

    // What a crash leaves in a slot. If `done`, a rename that isn't flushed survives the crash; otherwise it is lost.
    fn left_in(&self, alloc: Global, slot: Slot, done: bool) -> Result<Option<Vec<u8>>, NoMemory>
        ensures { IfOk result (λ left. option_map (λ v. v.items) left ≡ left_in self.now.past slot done) }
    {
        let held = self.past.held(slot);
        copy_of(alloc, if done { held.now } else { held.settled })
    }

    // Adds a writing call to the list.
    fn add_call(&mut self, tag: Tag, slot: Slot, call: Call) -> Result<(), Failed>
        ensures rest { self.new ≡ record self.old { calls = self.new.calls; faults = self.new.faults } }
        ensures calls { MatchResult result (λ _. IsFollowedBy (made_call tag slot call ∷ []) (calls_of self.old) (calls_of self.new))
            (λ _. calls_of self.new ≡ calls_of self.old) }
        ensures faults { self.new.faults ≡ (if is_err result then raised self.old.faults 1 else self.old.faults) }
    {
        let added = match self.calls.push(DoneCall { tag, slot, call }) {
            Ok(()) => Ok(()),
            Err(_) => Err(NoMemory),
        };
        answer(&mut self.faults, added)
    }

    // Reserves memory for one more change.
    fn make_room(&mut self) -> Result<(), Failed>
        ensures rest { self.new ≡ record self.old { past = self.new.past; faults = self.new.faults } }
        ensures past { KeepsPast self.old.past self.new.past }
        ensures faults { self.new.faults ≡ (if is_err result then raised self.old.faults 1 else self.old.faults) }
    {
        let reserved = self.past.reserve();
        answer(&mut self.faults, reserved)
    }

    // Adds a change of a slot.
    fn add_change(&mut self, change: Change) -> Result<(), Failed>
        ensures rest { self.new ≡ record self.old { past = self.new.past; faults = self.new.faults } }
        ensures past { MatchResult result (λ _. IsChangedBy change self.old.past self.new.past) (λ _. KeepsPast self.old.past self.new.past) }
        ensures faults { self.new.faults ≡ (if is_err result then raised self.old.faults 1 else self.old.faults) }
    {
        let added = self.past.add(change);
        answer(&mut self.faults, added)
    }

    // Removes a temporary file, and returns it.
    fn take(&mut self, tag: Tag, slot: Slot) -> Option<Temporary>
        ensures rest { self.new ≡ record self.old { manifest = self.new.manifest; cache = self.new.cache; aux = self.new.aux } }
        ensures file { result ≡ file_in (files_of self.old slot) tag.0 }
        ensures ended { file_in (files_of self.new slot) tag.0 ≡ None }
        ensures others { (t : ℕ) (s : Slot) → (t == tag.0) && slot_eq s slot ≡ false → file_in (files_of self.new s) t ≡ file_in (files_of self.old s) t }
    {
        match slot {
            Slot::Manifest => self.manifest.take(tag.0),
            Slot::Cache => self.cache.take(tag.0),
            Slot::Aux => self.aux.take(tag.0),
        }
    }
}

// A copy of a content.
fn copy_of(alloc: Global, content: Option<&[u8]>) -> Result<Option<Vec<u8>>, NoMemory>
    ensures { IfOk result (λ found. option_map (λ v. v.items) found ≡ option_copied content.entry) }
{
    match content {
        Some(bytes) => Ok(Some(Vec::from_slice(alloc, bytes)?)),
        None => Ok(None),
    }
}

// The result of a writing call. Counts a fault if the call was out of memory.
fn answer(faults: &mut u64, done: Result<(), NoMemory>) -> Result<(), Failed>
    ensures same { is_err result ≡ is_err done }
    ensures faults { faults.new ≡ (if is_err done then raised faults.old 1 else faults.old) }
{
    match done {
        Ok(()) => Ok(()),
        Err(NoMemory) => {
            *faults = faults.saturating_add(1);
            Err(Failed)
        }
    }
}

impl Disk for SureDisk {
    ghost use Rattle.std.specs.Prelude.{refl};
    ghost use Rattle.tree_face.specs.SureDisk.{disk_state};
    ghost use Rattle.tree_face.specs.PastLaws.{has_moments};

    ghost state = { disk_state };

    fn read(&mut self, alloc: Global, slot: Slot) -> Result<Option<Vec<u8>>, DiskRead> {
        let found = match self.copy_of(alloc, slot) {
            Ok(found) => found,
            Err(NoMemory) => return Err(DiskRead::NoMemory),
        };
        match self.reads.push(slot) {
            Ok(()) => Ok(found),
            Err(_) => Err(DiskRead::NoMemory),
        }
    }

    #[tactic(auto, using(crate::proofs::Disks::sure_keeps))]
    fn create(&mut self, tag: Tag, slot: Slot) -> Result<(), Failed> {
        self.add_call(tag, slot, Call::Create)?;
        let done = match slot {
            Slot::Manifest => self.manifest.create(self.alloc, tag.0),
            Slot::Cache => self.cache.create(self.alloc, tag.0),
            Slot::Aux => self.aux.create(self.alloc, tag.0),
        };
        answer(&mut self.faults, done)
    }

    #[tactic(auto, using(crate::proofs::Disks::sure_keeps))]
    fn append(&mut self, tag: Tag, slot: Slot, bytes: &[u8]) -> Result<(), Failed> {
        self.add_call(tag, slot, Call::Append)?;
        let done = match slot {
            Slot::Manifest => self.manifest.append(tag.0, bytes),
            Slot::Cache => self.cache.append(tag.0, bytes),
            Slot::Aux => self.aux.append(tag.0, bytes),
        };
        answer(&mut self.faults, done)
    }

    #[tactic(auto, using(crate::proofs::Disks::sure_keeps))]
    fn sync(&mut self, tag: Tag, slot: Slot) -> Result<(), Failed> {
        self.add_call(tag, slot, Call::Sync)?;
        match slot {
            Slot::Manifest => self.manifest.sync(tag.0),
            Slot::Cache => self.cache.sync(tag.0),
            Slot::Aux => self.aux.sync(tag.0),
        }
        Ok(())
    }

    #[tactic(auto, using(crate::proofs::Disks::sure_keeps))]
    fn publish(&mut self, tag: Tag, slot: Slot) -> Result<(), Failed> {
        self.add_call(tag, slot, Call::Publish)?;
        self.make_room()?;
        let file = self.take(tag, slot);
        self.add_change(Change::Published(slot, file))
    }

    #[tactic(auto, using(crate::proofs::Disks::sure_keeps))]
    fn settle(&mut self, slot: Slot) -> Result<(), Failed> {
        self.add_call(Tag(0), slot, Call::Settle)?;
        self.add_change(Change::Settled(slot))
    }

    ghost made_if_there = { λ disk tag slot. refl };

    ghost moments = { λ disk. has_moments disk };
}

impl MemDisk {
    ghost use Rattle.tree_face.specs.SureDisk.{failing_calls_of, failing_reads_of, failing_disk_content, failing_disk_state, left_by_choice, disk_plan};

    /// A disk whose slots hold these contents. The calls whose numbers are in `fail` fail. All calls are numbered together, from 0.
    #[tactic(auto, using(crate::proofs::Disks::failing_at_rest))]
    pub fn new(
        alloc: Global,
        manifest: Option<Vec<u8>>,
        cache: Option<Vec<u8>>,
        aux: Option<Vec<u8>>,
        fail: Vec<u64>,
    ) -> MemDisk
        ensures manifest { (failing_disk_content result).now.manifest ≡ option_map (λ v. v.items) manifest }
        ensures cache { (failing_disk_content result).now.cache ≡ option_map (λ v. v.items) cache }
        ensures aux { (failing_disk_content result).now.aux ≡ option_map (λ v. v.items) aux }
        ensures calls { failing_calls_of result ≡ [] }
        ensures reads { failing_reads_of result ≡ [] }
        ensures plan { disk_plan result ≡ record { fail = fail.items; next = 0; left = None } }
        ensures faults { ((failing_disk_state result).faults ≡ 0) × ((failing_disk_state result).read_faults ≡ 0) }
        ensures rest { IsAtRest (failing_disk_state result) }
    {
        MemDisk {
            disk: SureDisk::new(alloc, manifest, cache, aux),
            failures: Failures::new(fail),
            read_faults: 0,
        }
    }

    /// Lets `calls` further writing calls pass, and makes every call after them fail.
    pub fn stop_after(&mut self, calls: u64)
        ensures state { failing_disk_state self.new ≡ failing_disk_state self.old }
        ensures plan { disk_plan self.new ≡ stopping_after calls (disk_plan self.old) }
    {
        self.failures.stop_after(calls);
    }

    /// The writing calls that were made. Calls that failed may be among them.
    pub fn calls(&self) -> &[DoneCall]
        ensures { result.now ≡ failing_calls_of self.now }
    {
        self.disk.calls()
    }

    /// The slots that were read, in order. Reads that failed may be among them.
    pub fn reads(&self) -> &[Slot]
        ensures { result.now ≡ failing_reads_of self.now }
    {
        self.disk.reads()
    }

    /// A disk as a crash may leave it now, with its own plan and counts. Bits 0, 1 and 2 of `choice` are for Manifest, Cache and
    /// Aux. If the slot's bit is set, a rename that isn't flushed survives the crash; otherwise it is lost.
    #[tactic(auto, using(crate::proofs::Disks::image_by, crate::proofs::Disks::left_by_bits))]
    pub fn image(&self, alloc: Global, choice: u8) -> Result<MemDisk, NoMemory>
        ensures image { IfOk result (λ image. IsImage (failing_disk_state self.now) (failing_disk_state image)) }
        ensures slots { IfOk result (λ image. (slot : Slot) → slot_of (failing_disk_content image).now slot ≡ left_by_choice self.now choice slot) }
        ensures calls { IfOk result (λ image. (failing_calls_of image ≡ []) × (failing_reads_of image ≡ [])) }
        ensures plan { IfOk result (λ image. disk_plan image ≡ record { fail = []; next = 0; left = None }) }
        ensures faults { IfOk result (λ image. ((failing_disk_state image).faults ≡ 0) × ((failing_disk_state image).read_faults ≡ 0)) }
    {
        let manifest = self.disk.left_in(alloc, Slot::Manifest, choice & 1 != 0)?;
        let cache = self.disk.left_in(alloc, Slot::Cache, choice & 2 != 0)?;
        let aux = self.disk.left_in(alloc, Slot::Aux, choice & 4 != 0)?;
        Ok(MemDisk::new(alloc, manifest, cache, aux, Vec::new(alloc)))
    }

    // Lets a writing call pass if it isn't due to fail.
    fn pass(&mut self) -> Result<(), Failed>
        ensures disk { self.new.disk ≡ self.old.disk }
        ensures plan { FollowsPlan true (disk_plan self.old) (disk_plan self.new) (is_err result) }
        ensures faults { self.new.failures.faults ≡ (if is_err result then raised self.old.failures.faults 1 else self.old.failures.faults) }
        ensures read_faults { self.new.read_faults ≡ self.old.read_faults }
    {
        if self.failures.is_due(true) {
            self.failures.add_fault();
            return Err(Failed);
        }
        Ok(())
    }

    // The result of the inner disk. Counts a fault if it is an error.
    fn answer(&mut self, done: Result<(), Failed>) -> Result<(), Failed>
        ensures disk { self.new.disk ≡ self.old.disk }
        ensures same { is_err result ≡ is_err done }
        ensures plan { disk_plan self.new ≡ disk_plan self.old }
        ensures faults { self.new.failures.faults ≡ (if is_err done then raised self.old.failures.faults 1 else self.old.failures.faults) }
        ensures read_faults { self.new.read_faults ≡ self.old.read_faults }
    {
        if done.is_err() {
            self.failures.add_fault();
        }
        done
    }

    // Counts a failed read.
    fn add_read_fault(&mut self)
        ensures disk { self.new.disk ≡ self.old.disk }
        ensures plan { disk_plan self.new ≡ disk_plan self.old }
        ensures faults { self.new.failures.faults ≡ raised self.old.failures.faults 1 }
        ensures read_faults { self.new.read_faults ≡ raised self.old.read_faults 1 }
    {
        self.failures.add_fault();
        self.read_faults = self.read_faults.saturating_add(1);
    }
}

impl Disk for MemDisk {
    ghost use Rattle.std.specs.Prelude.{refl};
    ghost use Rattle.tree_face.specs.PastLaws.{failing_has_moments};
    ghost use Rattle.tree_face.specs.SureDisk.{disk_plan, failing_disk_state};

    ghost state = { failing_disk_state };

    fn read(&mut self, alloc: Global, slot: Slot) -> Result<Option<Vec<u8>>, DiskRead>
        ensures reads { ReadsSlot (failing_disk_state self.old) (failing_disk_state self.new) slot result }
        ensures plan { FollowsPlan false (disk_plan self.old) (disk_plan self.new) (is_err result) }
    {
        if self.failures.is_due(false) {
            self.add_read_fault();
            return Err(DiskRead::Failed);
        }
        match self.disk.read(alloc, slot) {
            Ok(found) => Ok(found),
            Err(DiskRead::NoMemory) => Err(DiskRead::NoMemory),
            Err(DiskRead::Failed) => {
                self.add_read_fault();
                Err(DiskRead::Failed)
            }
        }
    }

    #[tactic(auto, using(crate::proofs::Disks::failing_keeps, crate::proofs::Disks::failing_same))]
    fn create(&mut self, tag: Tag, slot: Slot) -> Result<(), Failed>
        ensures does { Does (made_call tag slot Call.Create) (Creates tag.0 slot) (Spoils tag.0 slot)
            (failing_disk_state self.old) (failing_disk_state self.new) result }
        ensures made { OnOk result ((failing_disk_state self.new).made tag.0 slot ≡ true) }
        ensures others { KeepsOthersMade tag.0 slot (failing_disk_state self.old) (failing_disk_state self.new) }
        ensures crash { KeepsSlots (failing_disk_state self.old) (failing_disk_state self.new) }
        ensures plan { FollowsPlan true (disk_plan self.old) (disk_plan self.new) (is_err result) }
    {
        self.pass()?;
        let done = self.disk.create(tag, slot);
        self.answer(done)
    }

    #[tactic(auto, using(crate::proofs::Disks::failing_keeps, crate::proofs::Disks::failing_same))]
    fn append(&mut self, tag: Tag, slot: Slot, bytes: &[u8]) -> Result<(), Failed>
        requires { (failing_disk_state self.old).made tag.0 slot ≡ true }
        ensures does { Does (made_call tag slot Call.Append) (Appends tag.0 slot bytes.now) (Spoils tag.0 slot)
            (failing_disk_state self.old) (failing_disk_state self.new) result }
        ensures made { KeepsMade (failing_disk_state self.old) (failing_disk_state self.new) }
        ensures crash { KeepsSlots (failing_disk_state self.old) (failing_disk_state self.new) }
        ensures plan { FollowsPlan true (disk_plan self.old) (disk_plan self.new) (is_err result) }
    {
        self.pass()?;
        let done = self.disk.append(tag, slot, bytes);
        self.answer(done)
    }

    #[tactic(auto, using(crate::proofs::Disks::failing_keeps, crate::proofs::Disks::failing_same))]
    fn sync(&mut self, tag: Tag, slot: Slot) -> Result<(), Failed>
        requires { (failing_disk_state self.old).made tag.0 slot ≡ true }
        ensures does { Does (made_call tag slot Call.Sync) (Syncs tag.0 slot) (Spoils tag.0 slot)
            (failing_disk_state self.old) (failing_disk_state self.new) result }
        ensures made { KeepsMade (failing_disk_state self.old) (failing_disk_state self.new) }
        ensures crash { KeepsSlots (failing_disk_state self.old) (failing_disk_state self.new) }
        ensures plan { FollowsPlan true (disk_plan self.old) (disk_plan self.new) (is_err result) }
    {
        self.pass()?;
        let done = self.disk.sync(tag, slot);
        self.answer(done)
    }

    #[tactic(auto, using(crate::proofs::Disks::failing_adds, crate::proofs::Disks::failing_adds_nothing))]
    fn publish(&mut self, tag: Tag, slot: Slot) -> Result<(), Failed>
        requires { (failing_disk_state self.old).made tag.0 slot ≡ true }
        ensures does { Does (made_call tag slot Call.Publish) (Publishes tag.0 slot) (MayPublish tag.0 slot)
            (failing_disk_state self.old) (failing_disk_state self.new) result }
        ensures others { KeepsOthersMade tag.0 slot (failing_disk_state self.old) (failing_disk_state self.new) }
        ensures crash { AddsPublished tag.0 slot (failing_disk_state self.old) (failing_disk_state self.new) result }
        ensures plan { FollowsPlan true (disk_plan self.old) (disk_plan self.new) (is_err result) }
    {
        self.pass()?;
        let done = self.disk.publish(tag, slot);
        self.answer(done)
    }

    #[tactic(auto, using(crate::proofs::Disks::failing_settles, crate::proofs::Disks::failing_settles_nothing))]
    fn settle(&mut self, slot: Slot) -> Result<(), Failed>
        ensures does { Does (settling slot) Keeps Keeps (failing_disk_state self.old) (failing_disk_state self.new) result }
        ensures made { KeepsMade (failing_disk_state self.old) (failing_disk_state self.new) }
        ensures crash { Settles slot (failing_disk_state self.old) (failing_disk_state self.new) result }
        ensures plan { FollowsPlan true (disk_plan self.old) (disk_plan self.new) (is_err result) }
    {
        self.pass()?;
        let done = self.disk.settle(slot);
        self.answer(done)
    }

    ghost made_if_there = { λ disk tag slot. refl };

    ghost moments = { λ disk. failing_has_moments disk };
}
