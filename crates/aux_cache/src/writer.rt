//! Writes stamps into a file.
ghost use Rattle.std.specs.Prelude.{◌≡◌, ◌∷◌, ◌++◌, ◌≤◌, [], length, map, flat_map, All, None, IfOk, OnOk};
ghost use Rattle.cache_layout.specs.Layout.{laid_out};
ghost use Rattle.string_pool.specs.InOrder.{place_of};
ghost use Rattle.aux_cache.specs.AuxFile.{damage, stamps_in};
ghost use Rattle.aux_cache.specs.AuxLayout.{record_fields};
ghost use Rattle.aux_cache.specs.AuxText.{aux_text, header, numbers_of, record_bytes};
ghost use Rattle.aux_cache.specs.Numbers.{HasNumber};
ghost use Rattle.aux_cache.specs.Range.{AreNumbers, IsInRange, AreInRange};
ghost use Rattle.aux_cache.specs.Stamps.{AreRecordable, IsRecordable};
ghost use Rattle.aux_cache.specs.declared.stamps.TheConstants.{STAMPS_MAX};

use crate::fields::{AnalysisFields, fields_of};
use crate::layout::{HEADER_SIZE, RECORD_SIZE, Version};
use crate::numbers::{NumberedStamp, number_stamps};
use crate::{STAMPS_MAX, Stamps};
use byteorder::{ByteOrder, LittleEndian};
use lib_types::NoMemory;
use std::alloc::Global;
use string_pool::{Table, Texts};

/// The bytes of an auxiliary cache file with these stamps.
pub fn write(alloc: Global, stamps: &Stamps) -> Result<Vec<u8>, NoMemory>
    requires few { length stamps.now ≤ STAMPS_MAX }
    requires recordable { AreRecordable stamps.now }
    ensures bytes { IfOk result (λ bytes. bytes.items ≡ aux_text stamps.now) }
    ensures undamaged { IfOk result (λ bytes. damage bytes.items ≡ None) }
    ensures read_back { IfOk result (λ bytes. stamps_in bytes.items ≡ stamps.now) }
{
    let stamps = stamps.as_slice();
    let mut texts = Texts::with_capacity(alloc, stamps.len() + 1)?;
    let numbered = number_stamps(alloc, &mut texts, stamps)?;
    let strings = Table::of(alloc, texts, 0)?;
    let bytes = strings.bytes();
    let size = HEADER_SIZE + RECORD_SIZE * stamps.len() + bytes.len();
    let mut out = Vec::with_capacity(alloc, size)?;
    put_header(&mut out, stamps.len() as u32, bytes.len() as u32)?;
    put_records(&mut out, &strings, &numbered)?;
    out.extend_from_slice(bytes)?;
    Ok(out)
}

#[tactic(auto, unfolding(crate::specs::AuxText::header))]
fn put_header(out: &mut Vec<u8>, records: u32, strings: u32) -> Result<(), NoMemory>
    ensures { OnOk result (out.new.items ≡ out.old.items ++ header records strings) }
{
    out.extend_from_slice(Version::V1_1.magic())?;
    out.extend_from_slice(&records.to_le_bytes())?;
    out.extend_from_slice(&strings.to_le_bytes())?;
    Ok(())
}

fn put_records(
    out: &mut Vec<u8>,
    strings: &Table<'_>,
    stamps: &[NumberedStamp<'_>],
) -> Result<(), NoMemory>
    requires numbers { All (HasNumber strings.now.texts) stamps.now }
    requires recordable { AreRecordable (map (λ s. s.stamp.now) stamps.now) }
    ensures bytes { OnOk result (out.new.items ≡ out.old.items ++ flat_map (λ s. record_bytes (place_of strings.now) s.stamp.now) stamps.now) }
    ensures range { OnOk result (AreInRange (map (λ s. s.stamp.now) stamps.now)) }
{
    for stamp in stamps {
        put_record(out, strings, stamp)?;
    }
    Ok(())
}

#[tactic(auto, unfolding(crate::specs::AuxText::record_bytes))]
fn put_record(
    out: &mut Vec<u8>,
    strings: &Table<'_>,
    numbered: &NumberedStamp<'_>,
) -> Result<(), NoMemory>
    requires number { HasNumber strings.now.texts numbered.now }
    requires recordable { IsRecordable numbered.now.stamp.now.analysis }
    ensures bytes { OnOk result (out.new.items ≡ out.old.items ++ record_bytes (place_of strings.now) numbered.now.stamp.now) }
    ensures range { OnOk result (IsInRange numbered.now.stamp.now) }
{
    let stamp = numbered.stamp;
    let offset = strings.offset(numbered.soname);
    let id = &stamp.id;
    let fields = fields_of(&stamp.analysis, offset);
    let bytes = bytes_of(id.inode, id.ctime, id.size, id.dev, fields);
    out.extend_from_slice(&bytes)?;
    Ok(())
}

// The bytes of a record.
fn bytes_of(
    inode: u64,
    ctime: u64,
    size: u64,
    dev: u64,
    fields: AnalysisFields,
) -> [u8; RECORD_SIZE]
    ensures numbers { result ≡ laid_out record_fields (inode ∷ ctime ∷ size ∷ dev ∷ numbers_of fields) }
    ensures range { AreNumbers inode ctime size dev }
{
    let numbers = [fields.flags, fields.offset, fields.code, fields.value];
    let mut bytes = [0; RECORD_SIZE];
    LittleEndian::write_u64_into(&[inode, ctime, size, dev], &mut bytes[..32]);
    LittleEndian::write_u32_into(&numbers, &mut bytes[32..]);
    bytes
}
