//! The two numbers of a record that say a defect.
ghost use Rattle.std.specs.Prelude.{◌≡◌};
ghost use Rattle.aux_cache.specs.DefectCodes.{defect_code, defect_of, defect_value, defects_with};
ghost use Rattle.lib_types.specs.Ranges.{IsInRange};

use lib_types::Defect;

/// The code of a defect. A library has the code 0.
pub fn code_of(defect: Defect) -> u32
    ensures { result ≡ defect_code defect }
{
    match defect {
        Defect::NotElf => 1,
        Defect::TooShort { .. } => 2,
        Defect::BadClass { .. } => 3,
        Defect::BadData { .. } => 4,
        Defect::BadMachine { .. } => 5,
        Defect::NotShared { .. } => 6,
        Defect::BadPhdrs => 7,
        Defect::NoDynamic => 8,
        Defect::DynOutside => 9,
        Defect::NoStrtab => 10,
        Defect::OutsideLoad => 11,
        Defect::BadString { .. } => 12,
        Defect::BadSoname => 13,
        // it is about a name, so no record has it
        Defect::Unsearchable => 0,
    }
}

fn number_of(defect: Defect) -> u64
    ensures { result ≡ defect_value defect }
{
    defect.number().unwrap_or(0)
}

/// The number of a defect, or 0 if it has none.
#[tactic(auto, using(crate::proofs::DefectCodes::value_small))]
pub fn value_of(defect: Defect) -> u32
    requires { IsInRange defect }
    ensures { result ≡ defect_value defect }
{
    number_of(defect) as u32
}

// Each defect of a file. Those that have a number have this one.
fn defects_with(number: u64) -> [Defect; 13]
    ensures { result ≡ defects_with number }
{
    [
        Defect::NotElf,
        Defect::TooShort { length: number },
        Defect::BadClass { value: number },
        Defect::BadData { value: number },
        Defect::BadMachine { number },
        Defect::NotShared { etype: number },
        Defect::BadPhdrs,
        Defect::NoDynamic,
        Defect::DynOutside,
        Defect::NoStrtab,
        Defect::OutsideLoad,
        Defect::BadString { tag: number },
        Defect::BadSoname,
    ]
}

/// The defect with this code and this number, if its number is in its range.
#[tactic(auto, unfolding(crate::specs::DefectCodes::defect_of))]
pub fn defect_of(code: u32, value: u32) -> Option<Defect>
    ensures { result ≡ defect_of code value }
{
    let value = u64::from(value);
    let defects = defects_with(value);
    defects.iter().copied().find(|defect| {
        code_of(*defect) == code && number_of(*defect) == value && defect.is_in_range()
    })
}
