//! An analysis as the four numbers of a record.
ghost use Rattle.std.specs.Prelude.{◌≡◌, IfOk};
ghost use Rattle.aux_cache.specs.AuxFile.{library_of, not_library_of, string_at};
ghost use Rattle.aux_cache.specs.AuxFile as spec;
ghost use Rattle.aux_cache.specs.AuxText.{analysis_fields};
ghost use Rattle.aux_cache.specs.Stamps.{IsRecordable};

use crate::defects::{code_of, defect_of, value_of};
use crate::layout::Version;
use lib_types::{Abi, Analysis, NoMemory, Text, before_byte, is_name};
use std::alloc::Global;

/// The numbers of a record after the identity.
#[derive(Clone, Copy)]
pub struct AnalysisFields {
    /// The flags of a library's ABI.
    pub flags: u32,
    /// The offset of a library's soname in the strings, or 0 if it has none.
    pub offset: u32,
    /// The code of a defect, or 0 for a library.
    pub code: u32,
    /// The number of a defect, or 0 if it has none.
    pub value: u32,
}

/// The numbers of an analysis, if a soname is at this offset.
pub fn fields_of(analysis: &Analysis, offset: u32) -> AnalysisFields
    requires { IsRecordable analysis.now }
    ensures { result ≡ analysis_fields analysis.now offset }
{
    match analysis {
        Analysis::Lib { abi, .. } => AnalysisFields {
            flags: abi.flags() as u32,
            offset,
            code: 0,
            value: 0,
        },
        Analysis::Not(defect) => AnalysisFields {
            flags: 0,
            offset: 0,
            code: code_of(*defect),
            value: value_of(*defect),
        },
    }
}

/// The analysis with these numbers, if they are valid.
#[tactic(auto, unfolding(crate::specs::AuxFile::analysis_of))]
pub fn analysis_of(
    alloc: Global,
    version: Version,
    strings: &[u8],
    fields: AnalysisFields,
) -> Result<Option<Analysis>, NoMemory>
    ensures { IfOk result (λ analysis. analysis ≡ spec.analysis_of version strings.now fields) }
{
    if version.has_defects() && fields.code != 0 {
        return Ok(not_library_of(fields));
    }
    library_of(alloc, strings, fields)
}

// A file that isn't a library.
fn not_library_of(fields: AnalysisFields) -> Option<Analysis>
    ensures { result ≡ not_library_of fields }
{
    if fields.flags != 0 || fields.offset != 0 {
        return None;
    }
    let defect = defect_of(fields.code, fields.value)?;
    Some(Analysis::Not(defect))
}

fn library_of(
    alloc: Global,
    strings: &[u8],
    fields: AnalysisFields,
) -> Result<Option<Analysis>, NoMemory>
    ensures { IfOk result (λ analysis. analysis ≡ library_of strings.now fields) }
{
    if fields.code != 0 || fields.value != 0 {
        return Ok(None);
    }
    let Some(abi) = Abi::of_flags(fields.flags.cast_signed()) else {
        return Ok(None);
    };
    if fields.offset == 0 {
        return Ok(Some(Analysis::Lib { abi, soname: None }));
    }
    let text = string_at(strings, fields.offset as usize);
    if !is_name(text) {
        return Ok(None);
    }
    let soname = Text::copy_of(alloc, text)?;
    Ok(Some(Analysis::Lib {
        abi,
        soname: Some(soname),
    }))
}

// The string at an offset.
#[tactic(auto, using(std::proofs::lemmas::List::drop_all))]
fn string_at(strings: &[u8], offset: usize) -> &[u8]
    ensures { result.now ≡ string_at strings.now offset }
{
    if offset >= strings.len() {
        return b"";
    }
    before_byte(0, &strings[offset..])
}
