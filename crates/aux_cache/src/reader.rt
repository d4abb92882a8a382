//! Reads stamps from a file.
ghost use Rattle.std.specs.Prelude.{◌≡◌, ◌⊎◌, ◌^◌, ◌≤◌, None, Some, length, position, option_map, if◌then◌else◌, IfOk, IfErr, IfSome, ◌<◌};
ghost use Rattle.aux_cache.specs.AuxFile.{version_of, count, from_record, strings_length, id_in, fields_in, follows, is_record, stamp_in, are_strings, file_sentences, first_place, damage, stamps_in};
ghost use Rattle.aux_cache.specs.AuxFile as spec;
ghost use Rattle.aux_cache.specs.AuxLayout.{record_place};
ghost use Rattle.aux_cache.specs.Stamps.{AreRecordable};
ghost use Rattle.aux_cache.specs.declared.fault.AuxFault.TheVariants as faults;

use crate::fields::{AnalysisFields, analysis_of};
use crate::layout::{HEADER_SIZE, MAGIC_SIZE, RECORD_SIZE, Version};
use crate::order::compare;
use crate::{AuxFault, Stamp, Stamps};
use cache_layout::{u32_at, u64_at};
use lib_types::NoMemory;
use std::alloc::Global;
use tree_face::Id;

/// The stamps of a file, or the offset of its first corrupt part.
#[tactic(auto, using(crate::proofs::Damage::none_damaged, crate::proofs::Damage::file_damaged, crate::proofs::Damage::sorted_stamps, crate::proofs::Damage::recordable_stamps))]
pub fn read(alloc: Global, bytes: &[u8]) -> Result<Stamps, AuxFault>
    ensures stamps { IfOk result (λ stamps. stamps ≡ stamps_in bytes.now) }
    ensures undamaged { IfOk result (λ _. damage bytes.now ≡ None) }
    ensures recordable { IfOk result AreRecordable }
    ensures fault { IfErr result (λ fault. (fault ≡ faults.NoMemory) ⊎ (spec.fault bytes.now ≡ Some fault)) }
{
    let count = check_file(bytes)?;
    let version = version_of(bytes);
    let strings = from_record(bytes, count);
    let mut stamps = Vec::with_capacity(alloc, count)?;
    let mut before = None;
    for index in 0..count {
        let record = from_record(bytes, index);
        let Some(stamp) = read_record(alloc, version, strings, before, record)? else {
            let at = record_place(index) as u64;
            return Err(AuxFault::Damaged { at });
        };
        before = Some(stamp.id);
        stamps.push(stamp)?;
    }
    Ok(Stamps::from_sorted(stamps))
}

// The offset of the record with this index, which is also the end of the records before it.
fn record_place(index: usize) -> usize
    requires { index < 2 ^ 32 }
    ensures { result ≡ record_place index }
{
    HEADER_SIZE + RECORD_SIZE * index
}

// The bytes from the record with this index to the end. If the index is the number of records, these are the strings.
fn from_record(bytes: &[u8], index: usize) -> &[u8]
    requires index { index < 2 ^ 32 }
    requires within { record_place index ≤ length bytes.now }
    ensures { result.now ≡ from_record bytes.now index }
{
    &bytes[record_place(index)..]
}

// The version whose magic the file has. A file without a magic isn't version 1.1 either.
fn version_of(bytes: &[u8]) -> Version
    ensures { result ≡ version_of bytes.now }
{
    if bytes.starts_with(Version::V1_0.magic()) {
        Version::V1_0
    } else {
        Version::V1_1
    }
}

// Checks the header and the strings. Returns the number of records.
fn check_file(bytes: &[u8]) -> Result<usize, AuxFault>
    ensures count { IfOk result (λ n. n ≡ count bytes.now) }
    ensures small { IfOk result (λ n. n < 2 ^ 32) }
    ensures records { IfOk result (λ n. record_place n ≤ length bytes.now) }
    ensures undamaged { IfOk result (λ _. first_place (file_sentences (version_of bytes.now) bytes.now) ≡ None) }
    ensures fault { IfErr result (λ fault. option_map faults.Damaged (first_place (file_sentences (version_of bytes.now) bytes.now)) ≡ Some fault) }
{
    if bytes.len() < HEADER_SIZE || !bytes.starts_with(version_of(bytes).magic()) {
        return Err(AuxFault::Damaged { at: 0 });
    }
    let count = count(bytes);
    let place = record_place(count);
    if bytes.len() != place + strings_length(bytes) {
        return Err(AuxFault::Damaged {
            at: MAGIC_SIZE as u64,
        });
    }
    if !are_strings(&bytes[place..]) {
        return Err(AuxFault::Damaged { at: place as u64 });
    }
    Ok(count)
}

fn count(bytes: &[u8]) -> usize
    requires { 32 ≤ length bytes.now }
    ensures count { result ≡ count bytes.now }
    ensures small { result < 2 ^ 32 }
{
    u32_at(&bytes[MAGIC_SIZE..], 0) as usize
}

fn strings_length(bytes: &[u8]) -> usize
    requires { 32 ≤ length bytes.now }
    ensures length { result ≡ strings_length bytes.now }
    ensures small { result < 2 ^ 32 }
{
    u32_at(&bytes[MAGIC_SIZE..], 4) as usize
}

// Whether strings start and end with a NUL.
fn are_strings(strings: &[u8]) -> bool
    ensures { result ≡ are_strings strings.now }
{
    strings.starts_with(b"\0") && strings.ends_with(b"\0")
}

// The stamp of the record at the start of these bytes, if the record is valid. `before` is the identity of the record before it.
#[tactic(auto, unfolding(crate::specs::AuxFile::stamp_in))]
fn read_record(
    alloc: Global,
    version: Version,
    strings: &[u8],
    before: Option<Id>,
    record: &[u8],
) -> Result<Option<Stamp>, NoMemory>
    requires { 48 ≤ length «record».now }
    ensures { IfOk result (λ stamp. stamp ≡ (if is_record version strings.now before «record».now then Some (stamp_in version strings.now «record».now) else None)) }
{
    let id = id_in(record);
    if !follows(before, &id) {
        return Ok(None);
    }
    let Some(analysis) = analysis_of(alloc, version, strings, fields_in(record))? else {
        return Ok(None);
    };
    Ok(Some(Stamp { id, analysis }))
}

fn id_in(record: &[u8]) -> Id
    requires { 48 ≤ length «record».now }
    ensures { result ≡ id_in «record».now }
{
    Id {
        dev: u64_at(record, 24),
        inode: u64_at(record, 0),
        ctime: u64_at(record, 8),
        size: u64_at(record, 16),
    }
}

fn fields_in(record: &[u8]) -> AnalysisFields
    requires { 48 ≤ length «record».now }
    ensures { result ≡ fields_in «record».now }
{
    AnalysisFields {
        flags: u32_at(record, 32),
        offset: u32_at(record, 36),
        code: u32_at(record, 40),
        value: u32_at(record, 44),
    }
}

// Whether an identity is greater than the one before, if there is one.
fn follows(before: Option<Id>, id: &Id) -> bool
    ensures { result ≡ follows before id.now }
{
    match before {
        Some(last) => compare(&last, id).is_lt(),
        None => true,
    }
}
