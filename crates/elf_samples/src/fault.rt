//! Why a sample can't be generated.
ghost use Rattle.std.specs.Prelude.{◌≡◌};

use elf_maker::MakeFault;
use lib_types::NoMemory;

/// Why `file_of` and `library_file` return no file.
#[derive(Clone, Copy, Debug, PartialEq, Eq)]
pub enum SampleFault {
    /// `elf_maker::is_spec` rejects the spec.
    NoSpec,
    /// The file would be longer than `elf_maker::FILE_MAX` bytes.
    TooLong,
    NoMemory,
}

impl From<MakeFault> for SampleFault {
    ghost use Rattle.elf_samples.specs.Faults.{of_make};

    ghost from_gives = { λ fault e. e ≡ of_make fault };

    fn from(fault: MakeFault) -> Self {
        match fault {
            MakeFault::TooLong => SampleFault::TooLong,
            MakeFault::NoMemory => SampleFault::NoMemory,
        }
    }
}

impl From<NoMemory> for SampleFault {
    ghost use Rattle.elf_samples.specs.declared.fault.SampleFault.TheVariants as faults;

    ghost from_gives = { λ _ e. e ≡ faults.NoMemory };

    fn from(_: NoMemory) -> Self {
        SampleFault::NoMemory
    }
}
